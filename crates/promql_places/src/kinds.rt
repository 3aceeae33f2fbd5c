//! Kinds of tokens that begin or end a part of an expression.

ghost use Rattle.std.specs.Prelude.{◌≡◌};
ghost use Rattle.promql_places.specs.PartSteps as step;
ghost use Rattle.promql_places.specs.Skipping as spec;

use crate::parts::PartKind;
use promql_grammar::TokenKind;
use promql_token::ids::{T_ADD, T_LOR, T_SUB};

pub fn is_plus(kind: TokenKind) -> bool
    ensures { result ≡ spec.is_plus kind }
{
    matches!(kind, TokenKind::Operator(T_ADD))
}

pub fn is_sign(kind: TokenKind) -> bool
    ensures { result ≡ spec.is_sign kind }
{
    matches!(kind, TokenKind::Operator(T_ADD | T_SUB))
}

/// A bracket that closes.
pub fn is_closing(kind: TokenKind) -> bool
    ensures { result ≡ spec.is_closing kind }
{
    matches!(
        kind,
        TokenKind::RightParen | TokenKind::RightBrace | TokenKind::RightBracket
    )
}

/// What separates the parts of a list: a comma or `or`.
pub fn is_separator(kind: TokenKind) -> bool
    ensures { result ≡ spec.is_separator kind }
{
    matches!(kind, TokenKind::Comma | TokenKind::Operator(T_LOR))
}

pub fn is_left_paren(kind: TokenKind) -> bool
    ensures { result ≡ spec.is_left_paren kind }
{
    matches!(kind, TokenKind::LeftParen)
}

pub fn is_left_brace(kind: TokenKind) -> bool
    ensures { result ≡ spec.is_left_brace kind }
{
    matches!(kind, TokenKind::LeftBrace)
}

/// `bool`, after an operator.
pub fn is_flag(kind: TokenKind) -> bool
    ensures { result ≡ spec.is_flag kind }
{
    matches!(kind, TokenKind::Bool)
}

/// `on` and `ignoring`.
pub fn is_matching_word(kind: TokenKind) -> bool
    ensures { result ≡ spec.is_matching_word kind }
{
    matches!(kind, TokenKind::On | TokenKind::Ignoring)
}

/// `group_left` and `group_right`.
pub fn is_group_word(kind: TokenKind) -> bool
    ensures { result ≡ spec.is_group_word kind }
{
    matches!(kind, TokenKind::GroupLeft | TokenKind::GroupRight)
}

/// `fill` and the two words for one side.
pub fn is_fill_word(kind: TokenKind) -> bool
    ensures { result ≡ spec.is_fill_word kind }
{
    matches!(
        kind,
        TokenKind::Fill | TokenKind::FillLeft | TokenKind::FillRight
    )
}

/// `by` and `without`.
pub fn is_grouping_word(kind: TokenKind) -> bool
    ensures { result ≡ spec.is_grouping_word kind }
{
    matches!(kind, TokenKind::By | TokenKind::Without)
}

/// `@` and `offset`.
pub fn is_shift_word(kind: TokenKind) -> bool
    ensures { result ≡ spec.is_shift_word kind }
{
    matches!(kind, TokenKind::At | TokenKind::Offset)
}

/// These, `smoothed` and `anchored`.
pub fn is_shift(kind: TokenKind) -> bool
    ensures { result ≡ spec.is_shift kind }
{
    is_shift_word(kind) || matches!(kind, TokenKind::Smoothed | TokenKind::Anchored)
}

/// The part that begins with this shift.
pub fn shift_kind(kind: TokenKind) -> PartKind
    ensures { result ≡ step.shift_kind kind }
{
    match kind {
        TokenKind::At => PartKind::At,
        TokenKind::Offset => PartKind::Offset,
        _ => PartKind::Mode,
    }
}

/// `start` and `end`.
pub fn is_bound_word(kind: TokenKind) -> bool
    ensures { result ≡ spec.is_bound_word kind }
{
    matches!(kind, TokenKind::Start | TokenKind::End)
}
