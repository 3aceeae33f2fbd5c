//! Lexical faults and their messages.

ghost use Rattle.std.specs.Prelude.{◌≡◌, [], map};
ghost use Rattle.std.specs.Option.{unwrap_or};
ghost use Rattle.promql_text.specs.Texts.{lookup};
ghost use Rattle.promql_token.specs.LexicalFaults as spec;

use std::alloc::{AllocError, AllocFailed};
use std::error::Error;
use std::fmt;

/// What is wrong at a place of a text where nothing may begin.
#[derive(Clone, Copy, Debug, PartialEq, Eq)]
pub enum LexFaultKind {
    /// A left parenthesis is open at the end.
    UnclosedParen,
    /// A `~` after `=`, outside braces.
    AfterEqual,
    /// No `=` after `!`, outside braces.
    AfterBang,
    /// A `!` is the last character.
    BangAtEnd,
    /// No digit after `.`.
    AfterDot,
    /// A `.` is the last character.
    DotAtEnd,
    /// No parenthesis is open at `)`.
    RightParen,
    /// A `}` outside braces.
    RightBrace,
    /// A `]` outside brackets.
    RightBracket,
    /// Any other character outside.
    Character,
    /// Neither a number nor a duration.
    Numeral,
    /// What follows a backslash is no escape.
    Escape,
    /// A backslash is the last character.
    EscapeAtEnd,
    /// The string's quote doesn't come again.
    OpenString,
    /// Neither `=` nor `~` after `!`.
    AfterBangInBraces,
    /// A `{` in braces.
    BraceInBraces,
    /// Any other character in braces.
    InBraces,
    /// The text ends in braces.
    EndInBraces,
    /// A second `:` in brackets.
    SecondColon,
    /// A `:` directly after `[`.
    FirstColon,
    /// A `[` in brackets.
    BracketInBrackets,
    /// Any other character in brackets.
    InBrackets,
    /// The text ends in brackets.
    EndInBrackets,
}

/// What a message has before the character, or the whole message, by kind.
const MESSAGES: [(LexFaultKind, &str); 23] = [
    (LexFaultKind::UnclosedParen, "unclosed left parenthesis"),
    (
        LexFaultKind::AfterEqual,
        "unexpected character after '=': '~'",
    ),
    (LexFaultKind::AfterBang, "unexpected character after '!': '"),
    (LexFaultKind::BangAtEnd, "'!' can not be at the end"),
    (LexFaultKind::AfterDot, "unexpected character after '.': '"),
    (LexFaultKind::DotAtEnd, "unexpected character: '.'"),
    (LexFaultKind::RightParen, "unexpected right parenthesis ')'"),
    (LexFaultKind::RightBrace, "unexpected right brace '}'"),
    (LexFaultKind::RightBracket, "unexpected right bracket ']'"),
    (LexFaultKind::Character, "unexpected character: '"),
    (LexFaultKind::Numeral, "bad number or duration syntax"),
    (LexFaultKind::Escape, "unknown escape sequence '"),
    (LexFaultKind::EscapeAtEnd, "escape sequence not terminated"),
    (LexFaultKind::OpenString, "unterminated quoted string "),
    (
        LexFaultKind::AfterBangInBraces,
        "unexpected character after '!' inside braces: '",
    ),
    (
        LexFaultKind::BraceInBraces,
        "unexpected left brace '{' inside braces",
    ),
    (
        LexFaultKind::InBraces,
        "unexpected character inside braces: '",
    ),
    (
        LexFaultKind::EndInBraces,
        "unexpected end of input inside braces",
    ),
    (
        LexFaultKind::SecondColon,
        "unexpected second colon(:) in brackets",
    ),
    (
        LexFaultKind::FirstColon,
        "expect duration before first colon(:) in brackets",
    ),
    (
        LexFaultKind::BracketInBrackets,
        "unexpected left brace '[' inside brackets",
    ),
    (
        LexFaultKind::InBrackets,
        "unexpected character inside brackets: '",
    ),
    (
        LexFaultKind::EndInBrackets,
        "unexpected end of input inside brackets",
    ),
];

impl LexFaultKind {
    /// What comes before the character in a message, or the whole message.
    #[tactic(auto, unfolding(crate::specs::LexicalFaults::words))]
    fn message(self) -> &'static str
        ensures { result.now ≡ spec.words self }
    {
        words_in(&MESSAGES, self)
    }

    /// What comes after the character.
    fn message_end(self) -> &'static str
        ensures { result.now ≡ spec.message_end self }
    {
        match self {
            LexFaultKind::OpenString => "",
            _ if self.has_char() => "'",
            _ => "",
        }
    }

    /// Whether a fault of this kind shows the character.
    #[tactic(auto, unfolding(crate::specs::LexicalFaults::has_char))]
    pub(crate) fn has_char(self) -> bool
        ensures { result ≡ spec.has_char self }
    {
        matches!(
            self,
            LexFaultKind::AfterBang
                | LexFaultKind::AfterDot
                | LexFaultKind::Character
                | LexFaultKind::Escape
                | LexFaultKind::OpenString
                | LexFaultKind::AfterBangInBraces
                | LexFaultKind::InBraces
                | LexFaultKind::InBrackets
        )
    }
}

fn words_in(table: &[(LexFaultKind, &'static str)], kind: LexFaultKind) -> &'static str
    ensures { result.now ≡ unwrap_or (lookup ⟦<LexFaultKind as PartialEq>⟧.eq
        (map (λ row. (row.0, row.1.now)) table.now) kind) [] }
{
    for row in table {
        if row.0 == kind {
            return row.1;
        }
    }
    ""
}

/// What is wrong, and where.
#[derive(Clone, Copy, Debug, PartialEq, Eq)]
pub struct LexFault {
    pub kind: LexFaultKind,
    /// The place in the text, in bytes.
    pub at: usize,
    /// The character at fault, for the kinds that show it.
    pub ch: Option<char>,
}

impl fmt::Display for LexFault {
    ghost use Rattle.std.specs.Prelude.{Some};

    ghost output = { λ f. Some (spec.message f) };

    ghost styled_output = { λ f _. Some (spec.message f) };

    #[tactic(auto, using(promql_text::proofs::writing::AllOptions::styled))]
    fn fmt<W: fmt::Write>(&self, f: &mut fmt::Formatter<W>) -> fmt::Result {
        f.write_str(self.kind.message())?;
        if let Some(ch) = self.ch {
            f.write_char(ch)?;
        }
        f.write_str(self.kind.message_end())
    }
}

impl Error for LexFault {}

/// Why there is no token list.
#[derive(Debug, Drop, PartialEq, Eq, thiserror::Error)]
pub enum LexError {
    /// An allocation failed.
    #[error("out of memory")]
    Memory,
    /// The text's first fault.
    #[error(transparent)]
    Fault(LexFault),
}

impl From<AllocError> for LexError {
    ghost use Rattle.std.specs.Prelude.{◌≡◌};
    ghost use Rattle.promql_token.specs.declared.fault.LexError.TheVariants.{Memory};

    ghost from_gives = { λ _ e. e ≡ Memory };

    fn from(_: AllocError) -> LexError {
        LexError::Memory
    }
}

impl<T: Drop> From<AllocFailed<T>> for LexError {
    ghost use Rattle.std.specs.Prelude.{◌≡◌};
    ghost use Rattle.promql_token.specs.declared.fault.LexError.TheVariants.{Memory};

    ghost from_gives = { λ _ e. e ≡ Memory };

    fn from(_: AllocFailed<T>) -> LexError {
        LexError::Memory
    }
}

impl From<LexFault> for LexError {
    ghost use Rattle.std.specs.Prelude.{◌≡◌};
    ghost use Rattle.promql_token.specs.declared.fault.LexError.TheVariants.{Fault};

    ghost from_gives = { λ f e. e ≡ Fault f };

    fn from(fault: LexFault) -> LexError {
        LexError::Fault(fault)
    }
}
