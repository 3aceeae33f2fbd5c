//! The tokens of labels in parentheses.

ghost use Rattle.std.specs.Prelude.{◌≡◌, ◌<◌, IfErr, MatchOption, OnOk};
ghost use Rattle.promql_grammar.specs.Failures.{Reads};
ghost use Rattle.promql_grammar.specs.PartTokens.{HasNoLabel, ParsesLabelEnd, EatsLabel, parse_label_end};
ghost use Rattle.promql_grammar.specs.SymbolsLeft.{CountsTaken, IsShorter, symbols_left};
ghost use Rattle.promql_grammar.specs.declared.read_error.ReadError.TheVariants.{Syntax};

use crate::read_error::ReadError;
use crate::token_kinds::TokenKind;
use crate::tokens::Tokens;

/// Takes a label, if it is the first token: its kind and text.
pub fn eat_label<'a>(tokens: &mut Tokens<'a>) -> Option<(TokenKind, &'a str)>
    ensures gives { MatchOption result
        ((symbols_left tokens.new ≡ symbols_left tokens.old) × HasNoLabel (symbols_left tokens.old))
        (λ x. EatsLabel x.0 x.1.now (symbols_left tokens.old) (symbols_left tokens.new)) }
    ensures counts { CountsTaken tokens.old tokens.new }
{
    let (kind, text) = tokens.peek()?;
    if !kind.may_be_label() {
        return None;
    }
    tokens.bump();
    Some((kind, text))
}

/// Parses what follows a label: whether it is the last.
pub fn parse_label_end(tokens: &mut Tokens<'_>) -> Result<bool, ReadError>
    ensures gives { Reads ParsesLabelEnd (symbols_left tokens.new)
        (parse_label_end (symbols_left tokens.old)) result }
    ensures syntax { IfErr result (λ e. e ≡ Syntax) }
    ensures short { OnOk result (IsShorter tokens.new tokens.old) }
    ensures counts { CountsTaken tokens.old tokens.new }
{
    if tokens.eat(TokenKind::RightParen) {
        return Ok(true);
    }
    tokens.expect(TokenKind::Comma)?;
    if tokens.eat(TokenKind::RightParen) {
        return Ok(true);
    }
    Ok(false)
}
