//! The tokens of a selector's matchers.

ghost use Rattle.std.specs.Prelude.{◌≡◌, ◌<◌, ◌+◌, ◌^◌, Bool, List, ℕ, option_map, IfErr, IfNone, IfOk, OnOk};
ghost use Rattle.promql_grammar.specs.GrammarParts as part;
ghost use Rattle.promql_grammar.specs.Parsing as parsing;
ghost use Rattle.promql_grammar.specs.Failures.{Reads};
ghost use Rattle.promql_grammar.specs.MatcherTokens.{ParsesItemEnd, ParsesItem, ParsesMatchOperator, match_operator_of, operator_of_part, parse_item_end};
ghost use Rattle.promql_grammar.specs.SymbolsLeft.{CountsTaken, IsNoLonger, IsShorter, symbols_left, token_count, tokens_taken};
ghost use Rattle.promql_grammar.specs.declared.read_error.ReadError.TheVariants.{Syntax};

use crate::read_error::ReadError;
use crate::token_kinds::TokenKind;
use crate::tokens::Tokens;
use promql_token::ids::{T_LOR, T_NEQ};

/// The token between a matcher's name and its value.
#[derive(Clone, Copy)]
pub enum MatchOperator {
    Equal,
    NotEqual,
    EqualRegex,
    NotEqualRegex,
}

/// A matcher's tokens: its name, and its operator and value, or none for a lone string; and where the name and the
/// value begin.
#[derive(Clone, Copy)]
pub struct Item<'a> {
    pub kind: TokenKind,
    pub name: &'a str,
    pub value: Option<(MatchOperator, &'a str)>,
    pub name_index: usize,
    pub value_index: usize,
}

/// Parses a matcher, or a lone string.
pub fn parse_item<'a>(tokens: &mut Tokens<'a>) -> Result<Item<'a>, ReadError>
    ensures gives { Reads ParsesItem (symbols_left tokens.new)
        (parsing.parse_item (symbols_left tokens.old)) result }
    ensures syntax { IfErr result (λ e. e ≡ Syntax) }
    ensures name { IfOk result (λ item. item.name_index ≡ tokens_taken tokens.old) }
    ensures value { IfOk result (λ item. token_count tokens.old < 2 ^ 64
        → tokens_taken tokens.new ≡ item.value_index + 1) }
    ensures short { OnOk result (IsShorter tokens.new tokens.old) }
    ensures counts { CountsTaken tokens.old tokens.new }
{
    let Some((kind, name)) = tokens.peek() else {
        return Err(ReadError::Syntax);
    };
    let start = tokens.index();
    match kind {
        TokenKind::Identifier => {
            tokens.bump();
            let Some(operator) = eat_match_operator(tokens) else {
                return Err(ReadError::Syntax);
            };
            parse_matcher_value(tokens, kind, name, start, operator)
        }
        TokenKind::String => {
            tokens.bump();
            let Some(operator) = eat_match_operator(tokens) else {
                return Ok(Item {
                    kind,
                    name,
                    value: None,
                    name_index: start,
                    value_index: start,
                });
            };
            parse_matcher_value(tokens, kind, name, start, operator)
        }
        _ => Err(ReadError::Syntax),
    }
}

/// Parses the value after a matcher's name, whose index is `name_index`, and its operator.
#[inline(always)]
fn parse_matcher_value<'a>(
    tokens: &mut Tokens<'a>,
    kind: TokenKind,
    name: &'a str,
    name_index: usize,
    operator: MatchOperator,
) -> Result<Item<'a>, ReadError>
    ensures gives { (quoted : Bool) (s : part.MatchOperator) → kind ≡ part.name_kind quoted
        → operator ≡ operator_of_part s → Reads ParsesItem (symbols_left tokens.new)
        (parsing.parse_matcher_value quoted name.entry.now s (symbols_left tokens.old)) result }
    ensures syntax { IfErr result (λ e. e ≡ Syntax) }
    ensures name { IfOk result (λ item. item.name_index ≡ name_index) }
    ensures value { IfOk result (λ item. token_count tokens.old < 2 ^ 64
        → tokens_taken tokens.new ≡ item.value_index + 1) }
    ensures short { OnOk result (IsShorter tokens.new tokens.old) }
    ensures counts { CountsTaken tokens.old tokens.new }
{
    let Some((value_kind, value)) = tokens.peek() else {
        return Err(ReadError::Syntax);
    };
    match value_kind {
        TokenKind::String => {
            let value_index = tokens.index();
            tokens.bump();
            Ok(Item {
                kind,
                name,
                value: Some((operator, value)),
                name_index,
                value_index,
            })
        }
        _ => Err(ReadError::Syntax),
    }
}

/// Takes the operator of a matcher, if it is the first token.
#[inline(always)]
fn eat_match_operator(tokens: &mut Tokens<'_>) -> Option<MatchOperator>
    ensures gives { ParsesMatchOperator result (symbols_left tokens.new)
        (parsing.parse_match_operator (symbols_left tokens.old)) }
    ensures stays { IfNone result (tokens.new ≡ tokens.old) }
    ensures short { IsNoLonger tokens.new tokens.old }
    ensures counts { CountsTaken tokens.old tokens.new }
{
    let Some((kind, _)) = tokens.peek() else {
        return None;
    };
    let Some(operator) = match_operator(kind) else {
        return None;
    };
    tokens.bump();
    Some(operator)
}

/// The operator of a matcher that a token is.
fn match_operator(kind: TokenKind) -> Option<MatchOperator>
    ensures { (text : List ℕ) → result ≡ option_map operator_of_part (match_operator_of kind text) }
{
    match kind {
        TokenKind::Equal => Some(MatchOperator::Equal),
        TokenKind::EqualRegex => Some(MatchOperator::EqualRegex),
        TokenKind::NotEqualRegex => Some(MatchOperator::NotEqualRegex),
        TokenKind::Operator(T_NEQ) => Some(MatchOperator::NotEqual),
        _ => None,
    }
}

/// Parses what follows a matcher: whether the next one starts a group; `None` after the last.
pub fn parse_item_end(tokens: &mut Tokens<'_>) -> Result<Option<bool>, ReadError>
    ensures gives { Reads ParsesItemEnd (symbols_left tokens.new)
        (parse_item_end (symbols_left tokens.old)) result }
    ensures syntax { IfErr result (λ e. e ≡ Syntax) }
    ensures short { OnOk result (IsShorter tokens.new tokens.old) }
    ensures counts { CountsTaken tokens.old tokens.new }
{
    let Some((kind, _)) = tokens.peek() else {
        return Err(ReadError::Syntax);
    };
    match kind {
        TokenKind::RightBrace => {
            tokens.bump();
            Ok(None)
        }
        TokenKind::Comma => {
            tokens.bump();
            if tokens.eat(TokenKind::RightBrace) {
                Ok(None)
            } else {
                Ok(Some(false))
            }
        }
        TokenKind::Operator(T_LOR) => {
            tokens.bump();
            Ok(Some(true))
        }
        _ => Err(ReadError::Syntax),
    }
}
