//! How tightly operators bind.

ghost use Rattle.std.specs.Prelude.{◌≡◌, ◌≤◌, IfNone, MatchOption};
ghost use Rattle.promql_grammar.specs.Grammar as grammar;
ghost use Rattle.promql_grammar.specs.Parsing as parsing;
ghost use Rattle.promql_grammar.specs.SymbolsLeft.{CountsTaken, symbols_left};
ghost use Rattle.promql_grammar.specs.OperatorTokens.{EatsOperator, EatsUnaryOperator, HasNoOperator, HasNoUnaryOperator};

use crate::token_kinds::TokenKind;
use crate::tokens::Tokens;
use promql_token::TokenId;
use promql_token::ids::{
    T_ADD, T_EQLC, T_GTE, T_GTR, T_LAND, T_LOR, T_LSS, T_LTE, T_LUNLESS, T_NEQ, T_POW, T_SUB,
};

/// The lowest precedence of an operator.
pub const MIN_PRECEDENCE: usize = 0;

/// The lowest precedence of an operator inside the operand of a unary operator: that of `^`.
pub const UNARY_PRECEDENCE: usize = 6;

/// Takes a plus or minus, if it is the first token.
pub fn eat_unary_operator(tokens: &mut Tokens<'_>) -> Option<TokenId>
    ensures gives { MatchOption result (HasNoUnaryOperator (symbols_left tokens.old))
        (λ op. EatsUnaryOperator op (symbols_left tokens.old) (symbols_left tokens.new)) }
    ensures stays { IfNone result (symbols_left tokens.new ≡ symbols_left tokens.old) }
    ensures counts { CountsTaken tokens.old tokens.new }
{
    match tokens.peek() {
        Some((TokenKind::Operator(op), _)) if matches!(op, T_ADD | T_SUB) => {
            tokens.bump();
            Some(op)
        }
        _ => None,
    }
}

/// Takes an operator of at least this precedence, if it is the first token.
pub fn eat_operator(tokens: &mut Tokens<'_>, min_precedence: usize) -> Option<TokenId>
    ensures gives { MatchOption result (HasNoOperator min_precedence (symbols_left tokens.old))
        (λ op. EatsOperator min_precedence op (symbols_left tokens.old) (symbols_left tokens.new)) }
    ensures stays { IfNone result (symbols_left tokens.new ≡ symbols_left tokens.old) }
    ensures counts { CountsTaken tokens.old tokens.new }
{
    match tokens.peek() {
        Some((TokenKind::Operator(op), _)) if min_precedence <= precedence(op) => {
            tokens.bump();
            Some(op)
        }
        _ => None,
    }
}

/// How tightly the operator binds.
pub fn precedence(op: TokenId) -> usize
    ensures value { result ≡ grammar.precedence op }
    ensures low { result ≤ 6 }
{
    match op {
        T_POW => 6,
        T_LOR => 1,
        T_LAND | T_LUNLESS => 2,
        T_EQLC | T_NEQ | T_LTE | T_LSS | T_GTE | T_GTR => 3,
        T_ADD | T_SUB => 4,
        _ => 5,
    }
}

/// The lowest precedence of an operator inside the right side of this one. Powers associate to the
/// right, all others to the left.
pub fn right_precedence(op: TokenId) -> usize
    ensures { result ≡ parsing.right_precedence op }
{
    if op == T_POW { 6 } else { precedence(op) + 1 }
}
