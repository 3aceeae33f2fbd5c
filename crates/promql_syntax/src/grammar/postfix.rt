//! Postfixes: ranges, subqueries, `@`, `offset` and range modes.

ghost use Rattle.std.specs.Prelude.{◌≡◌, ℕ, ◌<◌, Bool, option_map, Some, None, Ok, IfErr, IfOk, IfSome, MatchResult, OnOk};
ghost use Rattle.std.specs.Duration.{as_nanos};
ghost use Rattle.promql_text.specs.Texts.{Text};
ghost use Rattle.promql_text.specs.declared.number.Number as numbers;
ghost use Rattle.promql_grammar.specs.GrammarParts as part;
ghost use Rattle.promql_grammar.specs.Parsing as parsing;
ghost use Rattle.promql_grammar.specs.Results.{◌then◌};
ghost use Rattle.promql_grammar.specs.SymbolsLeft.{CountsTaken, IsNoLonger, IsShorter, symbols_left, token_count};
ghost use Rattle.promql_grammar.specs.Failures.{Reads};
ghost use Rattle.promql_ast.specs.AtTimes.{at_of_number};
ghost use Rattle.promql_ast.specs.Shifts.{moment_of, shift_of};
ghost use Rattle.promql_syntax.specs.BuildErrors.{view_result};
ghost use Rattle.promql_syntax.specs.PartBuilding.{time_value};
ghost use Rattle.promql_syntax.specs.Postfixes.{ParsesOptionalPostfix, ParsesPostfix, at_fault, bound_moment, by_shift, change_of, parse_range, starts_postfix, subquery_change, to_moment, to_range};

use crate::grammar::build_error::{BuildError, BuildFault};
use crate::grammar::parsed::Built;
use crate::grammar::place::Place;
use crate::grammar::time::{parse_offset, parse_signed_number, parse_time};
use promql_ast::{AtModifier, Offset, RangeMode};
use promql_grammar::{ReadError, TokenKind, Tokens};
use promql_text::Number;
use std::alloc::Global;
use std::time::Duration;

/// What follows a base.
#[derive(Clone, Copy)]
pub enum Postfix {
    /// A range.
    Range(Duration),
    /// A range with a step, or none.
    Subquery {
        range: Duration,
        step: Option<Duration>,
    },
    /// `@`
    At(AtModifier),
    /// `offset`
    Offset(Offset),
    /// A range mode.
    Mode(RangeMode),
}

/// What was built of a postfix, and what it adds to the height of its base.
#[derive(Drop)]
pub struct ParsedPostfix {
    pub value: Result<Postfix, Box<BuildError>>,
    pub added_height: usize,
}

/// Whether a postfix may start with a token of this kind.
pub fn starts_postfix(kind: TokenKind) -> bool
    ensures { result ≡ starts_postfix kind }
{
    matches!(
        kind,
        TokenKind::LeftBracket
            | TokenKind::At
            | TokenKind::Offset
            | TokenKind::Smoothed
            | TokenKind::Anchored
    )
}

/// Parses a postfix, if there is one.
pub fn parse_postfix(
    alloc: Global,
    tokens: &mut Tokens<'_>,
) -> Result<Option<ParsedPostfix>, ReadError>
    ensures gives { Reads (ParsesOptionalPostfix (token_count tokens.old)) (symbols_left tokens.new)
        (parsing.parse_postfix (symbols_left tokens.old)) result }
    ensures short { OnOk result (IsNoLonger tokens.new tokens.old) }
    ensures counts { OnOk result (CountsTaken tokens.old tokens.new) }
    ensures taken { IfOk result (λ found. IfSome found (λ _.
        IsShorter tokens.new tokens.old)) }
{
    let Some((kind, _)) = tokens.peek() else {
        return Ok(None);
    };
    match kind {
        TokenKind::LeftBracket => {
            tokens.bump();
            Ok(Some(parse_range(alloc, tokens)?))
        }
        TokenKind::At => {
            tokens.bump();
            Ok(Some(parse_at_modifier(alloc, tokens)?))
        }
        TokenKind::Offset => {
            tokens.bump();
            let offset = parse_offset(alloc, tokens)?;
            Ok(Some(same_height(build_offset(offset))))
        }
        TokenKind::Smoothed => {
            tokens.bump();
            Ok(Some(same_height(Ok(Postfix::Mode(RangeMode::Smoothed)))))
        }
        TokenKind::Anchored => {
            tokens.bump();
            Ok(Some(same_height(Ok(Postfix::Mode(RangeMode::Anchored)))))
        }
        _ => Ok(None),
    }
}

/// Parses a range or the two times of a subquery, after the opening bracket.
#[inline(always)]
fn parse_range(alloc: Global, tokens: &mut Tokens<'_>) -> Result<ParsedPostfix, ReadError>
    ensures gives { (n : ℕ) → Reads (ParsesPostfix n) (symbols_left tokens.new)
        (parse_range (symbols_left tokens.old)) result }
    ensures short { OnOk result (IsShorter tokens.new tokens.old) }
    ensures counts { OnOk result (CountsTaken tokens.old tokens.new) }
{
    let range = parse_time(alloc, tokens)?;
    let Some((kind, _)) = tokens.peek() else {
        return Err(ReadError::Syntax);
    };
    match kind {
        TokenKind::RightBracket => {
            tokens.bump();
            Ok(same_height(build_range(range)))
        }
        TokenKind::Colon => {
            tokens.bump();
            parse_step(alloc, tokens, range)
        }
        _ => Err(ReadError::Syntax),
    }
}

/// Parses the step of a subquery, if it has one, and the closing bracket.
fn parse_step(
    alloc: Global,
    tokens: &mut Tokens<'_>,
    range: Result<Duration, Box<BuildError>>,
) -> Result<ParsedPostfix, ReadError>
    ensures gives { (n : ℕ) (t : part.Time) → view_result as_nanos range ≡ time_value t → Reads (ParsesPostfix n) (symbols_left tokens.new)
        (parsing.parse_step t (symbols_left tokens.old)) result }
    ensures short { OnOk result (IsShorter tokens.new tokens.old) }
    ensures counts { OnOk result (CountsTaken tokens.old tokens.new) }
{
    if tokens.eat(TokenKind::RightBracket) {
        return Ok(subquery_postfix(range, None));
    }
    let step = parse_time(alloc, tokens)?;
    tokens.expect(TokenKind::RightBracket)?;
    Ok(subquery_postfix(range, Some(step)))
}

/// Parses what follows `@`.
#[inline(never)]
fn parse_at_modifier(alloc: Global, tokens: &mut Tokens<'_>) -> Result<ParsedPostfix, ReadError>
    ensures gives { Reads (ParsesPostfix (token_count tokens.old)) (symbols_left tokens.new)
        (parsing.parse_at_modifier (symbols_left tokens.old)) result }
    ensures short { OnOk result (IsShorter tokens.new tokens.old) }
    ensures counts { OnOk result (CountsTaken tokens.old tokens.new) }
{
    let Some((kind, _)) = tokens.peek() else {
        return Err(ReadError::Syntax);
    };
    match kind {
        TokenKind::Start => {
            tokens.bump();
            parse_at_bound(tokens, AtModifier::Start)
        }
        TokenKind::End => {
            tokens.bump();
            parse_at_bound(tokens, AtModifier::End)
        }
        _ => {
            let start = tokens.index();
            let seconds = parse_signed_number(alloc, tokens)?;
            let place = Place::tokens(start, tokens.index());
            Ok(same_height(build_at_modifier(alloc, seconds, place)?))
        }
    }
}

/// Parses the parentheses after `start` or `end`.
fn parse_at_bound(tokens: &mut Tokens<'_>, at: AtModifier) -> Result<ParsedPostfix, ReadError>
    ensures gives { (n : ℕ) (start : Bool) (t : Text) → moment_of at ≡ bound_moment start
        → Reads (ParsesPostfix n) (symbols_left tokens.new)
        (parsing.parse_at_bound start t (symbols_left tokens.old)) result }
    ensures short { OnOk result (IsShorter tokens.new tokens.old) }
    ensures counts { OnOk result (CountsTaken tokens.old tokens.new) }
{
    tokens.expect(TokenKind::LeftParen)?;
    tokens.expect(TokenKind::RightParen)?;
    Ok(same_height(Ok(Postfix::At(at))))
}

/// A postfix that adds nothing to the height of its base.
fn same_height(value: Result<Postfix, Box<BuildError>>) -> ParsedPostfix
    ensures value { view_result change_of result.value ≡ view_result change_of value }
    ensures is { result.value ≡ value }
    ensures height { result.added_height ≡ 0 }
{
    ParsedPostfix {
        value,
        added_height: 0,
    }
}

fn build_range(range: Result<Duration, Box<BuildError>>) -> Result<Postfix, Box<BuildError>>
    ensures { view_result change_of result ≡ (view_result as_nanos range then λ n. Ok
        (to_range n)) }
{
    range.map(Postfix::Range)
}

fn build_offset(offset: Result<Offset, Box<BuildError>>) -> Result<Postfix, Box<BuildError>>
    ensures { view_result change_of result ≡ (view_result shift_of offset then λ x. Ok
        (by_shift x)) }
{
    offset.map(Postfix::Offset)
}

/// The moment of a number of seconds, whose tokens are at this place.
fn build_at_modifier(
    alloc: Global,
    seconds: Result<Number, Box<BuildError>>,
    place: Place,
) -> Built<Postfix>
    ensures value { IfOk result (λ value. view_result change_of value
        ≡ (view_result (λ (n : numbers.Number). n) seconds then
        λ n. at_fault (at_of_number n) then λ m. Ok (to_moment m))) }
    ensures place { IfOk result (λ value. IfErr value (λ error. MatchResult seconds
        (λ _. error.value.place ≡ place) (λ held. error ≡ held))) }
{
    let seconds = match seconds {
        Ok(seconds) => seconds,
        Err(error) => return Ok(Err(error)),
    };
    match AtModifier::try_from(seconds) {
        Ok(at) => Ok(Ok(Postfix::At(at))),
        Err(fault) => Ok(Err(BuildError::boxed(alloc, BuildFault::At(fault), place)?)),
    }
}

fn subquery_postfix(
    range: Result<Duration, Box<BuildError>>,
    step: Option<Result<Duration, Box<BuildError>>>,
) -> ParsedPostfix
    ensures value { view_result change_of result.value ≡ subquery_change
        (view_result as_nanos range)
        (option_map (λ s. view_result as_nanos s) step) }
    ensures height { result.added_height ≡ 1 }
{
    ParsedPostfix {
        value: build_subquery(range, step),
        added_height: 1,
    }
}

fn build_subquery(
    range: Result<Duration, Box<BuildError>>,
    step: Option<Result<Duration, Box<BuildError>>>,
) -> Result<Postfix, Box<BuildError>>
    ensures { view_result change_of result ≡ subquery_change (view_result as_nanos range)
        (option_map (λ s. view_result as_nanos s) step) }
{
    Ok(Postfix::Subquery {
        range: range?,
        step: step.transpose()?,
    })
}
