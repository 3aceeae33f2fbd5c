//! Numbers, times and their signs.

ghost use Rattle.std.specs.Prelude.{◌≡◌, ◌<◌, if◌then◌else◌, IfOk, OnOk};
ghost use Rattle.std.specs.Duration.{as_nanos};
ghost use Rattle.promql_text.specs.declared.number.Number as numbers;
ghost use Rattle.promql_grammar.specs.Parsing as parsing;
ghost use Rattle.promql_text.specs.Values.{neg};
ghost use Rattle.promql_grammar.specs.SymbolsLeft.{CountsTaken, IsShorter, symbols_left};
ghost use Rattle.promql_grammar.specs.Failures.{Reads};
ghost use Rattle.promql_grammar.specs.PartTokens.{parse_offset, parse_signed_number};
ghost use Rattle.promql_ast.specs.Shifts.{ahead, back, shift_of};
ghost use Rattle.promql_syntax.specs.BuildErrors.{view_result};
ghost use Rattle.promql_syntax.specs.ParsesPart.{ParsesPart};
ghost use Rattle.promql_syntax.specs.PartBuilding.{duration_value, number_value, shift_value, signed_number, time_value};

use crate::grammar::build_error::{BuildError, BuildFault};
use crate::grammar::parsed::{Built, Parsed};
use crate::grammar::place::Place;
use promql_ast::Offset;
use promql_grammar::signs::eat_sign;
use promql_grammar::{ReadError, TokenKind, Tokens};
use promql_text::{Number, parse_duration, parse_str_radix};
use std::alloc::Global;
use std::time::Duration;

/// Parses a number.
pub fn parse_number(alloc: Global, tokens: &mut Tokens<'_>) -> Parsed<Number>
    ensures gives { Reads (ParsesPart (λ (n : numbers.Number). n) number_value) (symbols_left tokens.new)
        (parsing.parse_number (symbols_left tokens.old)) result }
    ensures short { OnOk result (IsShorter tokens.new tokens.old) }
    ensures counts { OnOk result (CountsTaken tokens.old tokens.new) }
{
    let Some((kind, text)) = tokens.peek() else {
        return Err(ReadError::Syntax);
    };
    match kind {
        TokenKind::Number => {
            let index = tokens.index();
            tokens.bump();
            Ok(number_value(alloc, text, index)?)
        }
        _ => Err(ReadError::Syntax),
    }
}

/// Parses a number with its sign, if it has one.
pub fn parse_signed_number(alloc: Global, tokens: &mut Tokens<'_>) -> Parsed<Number>
    ensures gives { Reads (ParsesPart (λ (n : numbers.Number). n) (λ p. signed_number p.0 p.1)) (symbols_left tokens.new)
        (parse_signed_number (symbols_left tokens.old)) result }
    ensures short { OnOk result (IsShorter tokens.new tokens.old) }
    ensures counts { OnOk result (CountsTaken tokens.old tokens.new) }
{
    let is_minus = eat_sign(tokens);
    let number = parse_number(alloc, tokens)?;
    Ok(apply_sign(is_minus, number))
}

/// Parses a time: a number of seconds, or a duration.
#[inline(always)]
pub fn parse_time(alloc: Global, tokens: &mut Tokens<'_>) -> Parsed<Duration>
    ensures gives { Reads (ParsesPart as_nanos time_value) (symbols_left tokens.new)
        (parsing.parse_time (symbols_left tokens.old)) result }
    ensures short { OnOk result (IsShorter tokens.new tokens.old) }
    ensures counts { OnOk result (CountsTaken tokens.old tokens.new) }
{
    let Some((kind, text)) = tokens.peek() else {
        return Err(ReadError::Syntax);
    };
    match kind {
        TokenKind::Number => {
            let index = tokens.index();
            tokens.bump();
            Ok(duration_value(alloc, text, index)?)
        }
        TokenKind::Duration => {
            let index = tokens.index();
            tokens.bump();
            Ok(duration_value(alloc, text, index)?)
        }
        _ => Err(ReadError::Syntax),
    }
}

/// Parses the time of an `offset`, with its sign, if it has one.
pub fn parse_offset(alloc: Global, tokens: &mut Tokens<'_>) -> Parsed<Offset>
    ensures gives { Reads (ParsesPart shift_of (λ p. shift_value p.0 p.1)) (symbols_left tokens.new)
        (parse_offset (symbols_left tokens.old)) result }
    ensures short { OnOk result (IsShorter tokens.new tokens.old) }
    ensures counts { OnOk result (CountsTaken tokens.old tokens.new) }
{
    let is_minus = eat_sign(tokens);
    let duration = parse_time(alloc, tokens)?;
    Ok(signed_offset(is_minus, duration))
}

/// The value of a number's text, the token with this index.
pub fn number_value(alloc: Global, text: &str, index: usize) -> Built<Number>
    ensures { IfOk result (λ value. view_result (λ (n : numbers.Number). n) value
        ≡ number_value text.now) }
{
    match parse_str_radix(text) {
        Ok(number) => Ok(Ok(number)),
        Err(fault) => {
            let fault = BuildFault::Number(fault);
            Ok(Err(BuildError::boxed(alloc, fault, Place::token(index))?))
        }
    }
}

/// The value of a duration's text, the token with this index.
#[inline(always)]
pub fn duration_value(alloc: Global, text: &str, index: usize) -> Built<Duration>
    ensures { IfOk result (λ value. view_result as_nanos value ≡ duration_value text.now) }
{
    match parse_duration(text) {
        Ok(duration) => Ok(Ok(duration)),
        Err(fault) => {
            let fault = BuildFault::Duration(fault);
            Ok(Err(BuildError::boxed(alloc, fault, Place::token(index))?))
        }
    }
}

/// The number with its sign.
fn apply_sign(
    is_minus: bool,
    number: Result<Number, Box<BuildError>>,
) -> Result<Number, Box<BuildError>>
    ensures { view_result (λ (n : numbers.Number). n) result
        ≡ view_result (λ n. if is_minus then neg n else n) number }
{
    let number = number?;
    Ok(if is_minus { number.neg() } else { number })
}

/// How far a time with its sign moves.
fn signed_offset(
    is_minus: bool,
    duration: Result<Duration, Box<BuildError>>,
) -> Result<Offset, Box<BuildError>>
    ensures { view_result shift_of result
        ≡ view_result (λ d. if is_minus then ahead (as_nanos d) else back (as_nanos d)) duration }
{
    if is_minus {
        duration.map(Offset::Neg)
    } else {
        duration.map(Offset::Pos)
    }
}
