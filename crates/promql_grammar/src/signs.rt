//! The signs of numbers and times.

ghost use Rattle.std.specs.Prelude.{◌≡◌};
ghost use Rattle.promql_grammar.specs.Parsing as parsing;
ghost use Rattle.promql_grammar.specs.PartTokens.{ParsesSign, minus_sign};
ghost use Rattle.promql_grammar.specs.SymbolsLeft.{CountsTaken, IsNoLonger, symbols_left};

use crate::token_kinds::TokenKind;
use crate::tokens::Tokens;
use promql_token::ids::{T_ADD, T_SUB};

/// Takes the sign of a number, if there is one: whether it is a minus.
pub fn eat_sign(tokens: &mut Tokens<'_>) -> bool
    ensures gives { ParsesSign result (symbols_left tokens.new)
        (parsing.eat_sign (symbols_left tokens.old)) }
    ensures short { IsNoLonger tokens.new tokens.old }
    ensures counts { CountsTaken tokens.old tokens.new }
{
    let Some((kind, _)) = tokens.peek() else {
        return false;
    };
    let Some(is_minus) = minus_sign(kind) else {
        return false;
    };
    tokens.bump();
    is_minus
}

/// Whether the sign of a number is a minus; `None` if the token is no sign.
fn minus_sign(kind: TokenKind) -> Option<bool>
    ensures { result ≡ minus_sign kind }
{
    match kind {
        TokenKind::Operator(T_ADD) => Some(false),
        TokenKind::Operator(T_SUB) => Some(true),
        _ => None,
    }
}
