//! What tokens come next: docs/reference/programs.md, "Targets".

ghost use Rattle.std.specs.Prelude.{◌≡◌};
ghost use Rattle.promql_token.specs.Cursor.{tokens_left};
ghost use Rattle.promql_span.specs.Differences as spec;

use promql_token::TokenId;
use promql_token::cursor::Cursor;
use promql_token::ids::{
    T_ADD, T_AT, T_ATAN2, T_BOOL, T_COMMA, T_IDENTIFIER, T_LAND, T_LEFT_PAREN, T_LOR, T_LUNLESS,
    T_OPERATORS_END, T_OPERATORS_START, T_SUB,
};

/// Whether this is the first token.
pub fn comes_first(id: TokenId, tokens: Cursor<'_>) -> bool
    ensures { result ≡ spec.comes_first id (tokens_left tokens.entry) }
{
    let mut tokens = tokens;
    matches!(tokens.next(), Some((first, _)) if first == id)
}

/// Whether a sign after this token has one operand.
#[inline(always)]
pub fn is_before_operand(id: TokenId) -> bool
    ensures { result ≡ spec.is_before_operand id }
{
    match id {
        T_LEFT_PAREN | T_COMMA | T_BOOL => true,
        T_AT => false,
        _ => T_OPERATORS_START < id && id < T_OPERATORS_END,
    }
}

/// What stands for a token after this one: a name for a word that is an operator elsewhere, where an operand begins.
#[inline(always)]
pub fn stands_for(before: TokenId, id: TokenId) -> TokenId
    ensures { result ≡ spec.stands_for before id }
{
    match id {
        T_LAND | T_LOR | T_LUNLESS | T_ATAN2 if is_before_operand(before) => T_IDENTIFIER,
        _ => id,
    }
}

/// The place after signs.
pub fn after_signs(tokens: Cursor<'_>) -> Cursor<'_>
    ensures { tokens_left result ≡ spec.after_signs (tokens_left tokens.entry) }
{
    let mut operand = tokens;
    let mut after = operand;
    while let Some((T_ADD | T_SUB, _)) = after.next() {
        operand = after;
    }
    operand
}
