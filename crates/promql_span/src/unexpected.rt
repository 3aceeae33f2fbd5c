//! The token of a query that does not fit, what was expected in its place, and what may be meant: docs/reference/grammar.md,
//! "What is expected".

ghost use Rattle.std.specs.Prelude.{◌≡◌, ◌⊎◌, ◌&&◌, not, Bool, Contains, IfNone, IfOk, IfSome, None, OnOk, codes, map, option_map};
ghost use Rattle.std.specs.Bool.{Decides};
ghost use Rattle.std.specs.Fmt.{WritesStyledOnOk};
ghost use Rattle.promql_text.specs.Texts.{Text, joined_text};
ghost use Rattle.promql_grammar.specs.declared.token_kinds.TokenKind as kinds;
ghost use Rattle.promql_grammar.specs.declared.token_kinds.TokenKind.TheVariants as kind;
ghost use Rattle.promql_token.specs.declared.ids.TheConstants as ids;
ghost use Rattle.promql_syntax.specs.declared.parser.ParseError.TheVariants as errors;
ghost use Rattle.promql_span.specs.KindNames.{name_among};
ghost use Rattle.promql_span.specs.Unexpected.{AreNames, IsUnexpected, expected_text, found_at, hint_text, token_name};

use crate::diagnosis::Diagnosis;
use crate::expected::{ExpectedTokens, expected_tokens};
use crate::kind_names::{begins_expression, kind_name};
use crate::placed::PlacedTokens;
use promql_grammar::{TokenKind, token_kind};
use promql_syntax::parser::ParseError;
use promql_text::{write_joined_by, write_plain};
use promql_token::cursor::Cursor;
use promql_token::ids::T_MUL;
use std::alloc::{AllocError, Global};
use std::fmt;

/// The token of a query that does not fit, or its end, and what was expected in its place. It prints as
/// `unexpected identifier "b", expected string`, with the hint behind a semicolon.
#[derive(Debug, Drop)]
pub struct Unexpected<'a> {
    /// The token's kind and text; `None` at the end of the query.
    pub found: Option<(TokenKind, &'a str)>,
    /// What was expected.
    pub expected: ExpectedTokens,
    /// The same by names for people, each once: kinds that come together have one name.
    pub names: Vec<&'static str>,
    /// What may be meant, if the query has a common slip there.
    pub hint: Option<&'static str>,
}

/// What is unexpected at the byte `at` of a text, where a token does not fit or the text ends too early.
///
/// # Errors
///
/// `AllocError` where an allocation failed.
pub fn unexpected_at(alloc: Global, text: &str, at: usize) -> Result<Unexpected<'_>, AllocError>
    ensures { IfOk result (IsUnexpected text.now at) }
{
    let expected = expected_tokens(alloc, text, at)?;
    let names = names(alloc, &expected)?;
    let found = token_from(text, at);
    let hint = hint(last_before(text, at), found, &expected);
    Ok(Unexpected {
        found,
        expected,
        names,
        hint,
    })
}

impl Diagnosis {
    /// What is unexpected, and what was expected, where the error is a syntax error; `None` for any other error. `text` is
    /// the text that it is of.
    ///
    /// # Errors
    ///
    /// `AllocError` where an allocation failed.
    pub fn unexpected<'a>(
        &self,
        alloc: Global,
        text: &'a str,
    ) -> Result<Option<Unexpected<'a>>, AllocError>
        ensures some { IfOk result (λ found. IfSome found (λ u. (self.now.error ≡ errors.Syntax)
            × IfSome self.now.span (λ span. IsUnexpected text.now span.start u))) }
        ensures none { IfOk result (λ found. IfNone found (self.now.error ≡ errors.Syntax → self.now.span ≡ None)) }
    {
        match (&self.error, self.span) {
            (ParseError::Syntax, Some(span)) => Ok(Some(unexpected_at(alloc, text, span.start)?)),
            _ => Ok(None),
        }
    }
}

/// The first token that begins at `at` or after it: its kind and text.
fn token_from(text: &str, at: usize) -> Option<(TokenKind, &str)>
    ensures { option_map (λ f. (f.0, f.1.now)) result ≡ found_at text.now at }
{
    crate::laws::tokens_are_placed();
    let mut tokens = Cursor::new(text);
    for place in PlacedTokens::new(text) {
        let (id, token) = tokens.next()?;
        if at <= place.start {
            return Some((token_kind(id), token));
        }
    }
    None
}

/// The kind of the last token that begins before `at`.
fn last_before(text: &str, at: usize) -> Option<TokenKind> {
    let mut last = None;
    for token in PlacedTokens::new(text) {
        if token.start < at {
            last = Some(token_kind(token.id));
        }
    }
    last
}

/// What is expected, by names for people, in the order of the kinds, and the end last.
fn names(alloc: Global, expected: &ExpectedTokens) -> Result<Vec<&'static str>, AllocError>
    ensures { IfOk result (λ names. AreNames expected.now.kinds.items expected.now.ends (map (λ name. name.now) names.items)) }
{
    let mut names = Vec::new(alloc);
    for kind in &expected.kinds {
        push_new(&mut names, expected.name_of(*kind))?;
    }
    if expected.ends {
        names.push("end of query")?;
    }
    Ok(names)
}

/// Appends a name that is not there yet.
fn push_new(names: &mut Vec<&'static str>, name: &'static str) -> Result<(), AllocError>
    ensures has { OnOk result (Contains (map (λ n. n.now) names.new.items) name.now) }
    ensures keeps { OnOk result ((n : Text) → Contains (map (λ n. n.now) names.old.items) n
        → Contains (map (λ n. n.now) names.new.items) n) }
    ensures only { OnOk result ((n : Text) → Contains (map (λ n. n.now) names.new.items) n
        → Contains (map (λ n. n.now) names.old.items) n ⊎ (n ≡ name.now)) }
{
    if !names.contains(&name) {
        names.push(name)?;
    }
    Ok(())
}

impl ExpectedTokens {
    /// The name of a kind among those that are expected.
    fn name_of(&self, kind: TokenKind) -> &'static str
        ensures { (has : kinds.TokenKind → Bool) → ((k : kinds.TokenKind) → Decides (has k) (Contains self.now.kinds.items k))
            → result.now ≡ name_among has kind }
    {
        if self.has_expression() && begins_expression(kind) {
            "expression"
        } else if self.has_label() && kind != TokenKind::String && kind.may_be_label() {
            "label name"
        } else if self.has_operator() && matches!(kind, TokenKind::Operator(_)) {
            "operator"
        } else {
            kind_name(kind)
        }
    }

    /// Whether an expression may begin there.
    fn has_expression(&self) -> bool
        ensures { (has : kinds.TokenKind → Bool) → ((k : kinds.TokenKind) → Decides (has k) (Contains self.now.kinds.items k))
            → result ≡ has kind.Number && has kind.LeftBrace }
    {
        self.kinds.contains(&TokenKind::Number) && self.kinds.contains(&TokenKind::LeftBrace)
    }

    /// Whether a label may be there, and no expression.
    fn has_label(&self) -> bool
        ensures { (has : kinds.TokenKind → Bool) → ((k : kinds.TokenKind) → Decides (has k) (Contains self.now.kinds.items k))
            → result ≡ has kind.Identifier && not (has kind.Number) }
    {
        self.kinds.contains(&TokenKind::Identifier) && !self.kinds.contains(&TokenKind::Number)
    }

    /// Whether an operator may follow.
    fn has_operator(&self) -> bool
        ensures { (has : kinds.TokenKind → Bool) → ((k : kinds.TokenKind) → Decides (has k) (Contains self.now.kinds.items k))
            → result ≡ has (kind.Operator ids.T_MUL) }
    {
        self.kinds.contains(&TokenKind::Operator(T_MUL))
    }
}

/// What may be meant by a token that does not fit after the token `last`: docs/reference/grammar.md, "Hints".
fn hint(
    last: Option<TokenKind>,
    found: Option<(TokenKind, &str)>,
    expected: &ExpectedTokens,
) -> Option<&'static str> {
    let (kind, text) = found?;
    match (last?, kind) {
        (TokenKind::Equal, TokenKind::Equal) => Some("a matcher has one \"=\""),
        (TokenKind::By | TokenKind::Without, TokenKind::LeftParen) => {
            Some("a grouping follows its aggregation, as in sum by (job) (foo)")
        }
        (TokenKind::Aggregator(_), kind) if is_operand(kind) => {
            Some("an aggregation has its arguments in parentheses")
        }
        (_, TokenKind::Duration) if expected.kinds.contains(&TokenKind::LeftBracket) => {
            Some("a range is in brackets, as in foo[5m]")
        }
        (_, TokenKind::Identifier) if is_joining(text) && !expected.has_operator() => {
            Some("matchers are joined by \",\"")
        }
        (_, kind) if expected.has_operator() && is_operand(kind) => {
            Some("an operator is missing before it")
        }
        _ => None,
    }
}

/// Whether a token of this kind is an operand or its beginning.
fn is_operand(kind: TokenKind) -> bool {
    matches!(
        kind,
        TokenKind::Number
            | TokenKind::Duration
            | TokenKind::String
            | TokenKind::Identifier
            | TokenKind::MetricIdentifier
            | TokenKind::Aggregator(_)
            | TokenKind::LeftParen
            | TokenKind::LeftBrace
    )
}

/// Whether a text is a word that joins expressions, in any case.
fn is_joining(text: &str) -> bool {
    text.eq_ignore_ascii_case("and")
        || text.eq_ignore_ascii_case("or")
        || text.eq_ignore_ascii_case("unless")
}

impl<'a> Unexpected<'a> {
    /// What was found, for people: a token by its text, after what it is.
    pub fn found_name(&self) -> FoundName<'a>
        ensures { result.0 ≡ self.now.found }
    {
        FoundName(self.found)
    }
}

impl fmt::Display for Unexpected<'_> {
    ghost use Rattle.std.specs.Prelude.{Some};
    ghost use Rattle.promql_span.specs.Unexpected.{unexpected_text};

    ghost output = { λ u. Some (unexpected_text u) };

    ghost styled_output = { λ u _. Some (unexpected_text u) };

    fn fmt<W: fmt::Write>(&self, f: &mut fmt::Formatter<W>) -> fmt::Result {
        f.write_str("unexpected ")?;
        FoundName(self.found).fmt(f)?;
        write_names(f, self.names.as_slice())?;
        write_hint(f, self.hint)
    }
}

/// A token that was found, or the end, for people: it prints as `identifier "b"`.
#[derive(Clone, Copy, Debug)]
pub struct FoundName<'a>(pub Option<(TokenKind, &'a str)>);

impl fmt::Display for FoundName<'_> {
    ghost use Rattle.std.specs.Prelude.{Some, option_map};
    ghost use Rattle.promql_span.specs.Unexpected.{found_name};

    ghost output = { λ name. Some (found_name (option_map (λ f. (f.0, f.1.now)) name.0)) };

    ghost styled_output = { λ name _. Some (found_name (option_map (λ f. (f.0, f.1.now)) name.0)) };

    fn fmt<W: fmt::Write>(&self, f: &mut fmt::Formatter<W>) -> fmt::Result {
        match self.0 {
            Some((kind, text)) => write_token(f, kind, text),
            None => f.write_str("end of query"),
        }
    }
}

/// Writes a token: its kind, and its text in quotes, which a string has already.
fn write_token<W: fmt::Write>(f: &mut fmt::Formatter<W>, kind: TokenKind, text: &str) -> fmt::Result
    ensures { WritesStyledOnOk W.write_str_gives f.old result (token_name kind text.now) f.new }
{
    match kind {
        TokenKind::String => write_plain(format_args!("string {text}"), f),
        TokenKind::Number
        | TokenKind::Duration
        | TokenKind::Identifier
        | TokenKind::MetricIdentifier
        | TokenKind::Aggregator(_) => {
            let name = kind_name(kind);
            write_plain(format_args!("{name} \"{text}\""), f)
        }
        _ => write_plain(format_args!("\"{text}\""), f),
    }
}

/// Writes what was expected, if anything was: names with commas between, and `or` before the last one.
fn write_names<W: fmt::Write>(f: &mut fmt::Formatter<W>, names: &[&'static str]) -> fmt::Result
    ensures { WritesStyledOnOk W.write_str_gives f.old result (expected_text (map (λ n. n.now) names.now)) f.new }
{
    let Some((last, firsts)) = names.split_last() else {
        return Ok(());
    };
    if firsts.is_empty() {
        return write_plain(format_args!(", expected {last}"), f);
    }
    f.write_str(", expected ")?;
    write_firsts(f, firsts)?;
    write_plain(format_args!(" or {last}"), f)
}

/// Writes names with commas between.
fn write_firsts<W: fmt::Write>(f: &mut fmt::Formatter<W>, names: &[&'static str]) -> fmt::Result
    ensures { WritesStyledOnOk W.write_str_gives f.old result (joined_text (codes ", ") (map (λ n. n.now) names.now)) f.new }
{
    let write = |name: &&str, f: &mut fmt::Formatter<W>| -> fmt::Result
        ensures { WritesStyledOnOk W.write_str_gives f.old result name.now.now f.new }
    { f.write_str(name) };
    write_joined_by(names, ", ", f, write)
}

/// Writes what may be meant, if there is a hint.
fn write_hint<W: fmt::Write>(f: &mut fmt::Formatter<W>, hint: Option<&'static str>) -> fmt::Result
    ensures { WritesStyledOnOk W.write_str_gives f.old result (hint_text hint.entry) f.new }
{
    match hint {
        Some(hint) => write_plain(format_args!("; {hint}"), f),
        None => Ok(()),
    }
}
