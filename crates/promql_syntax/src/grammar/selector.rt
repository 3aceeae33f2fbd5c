//! The rule `braces`: the matchers of a selector.

ghost use Rattle.std.specs.Prelude.{◌≡◌, ◌<◌, true, IfOk, MatchResult, OnOk};
ghost use Rattle.promql_grammar.specs.GrammarParts as part;
ghost use Rattle.promql_grammar.specs.Parsing as parsing;
ghost use Rattle.promql_grammar.specs.SymbolsLeft.{CountsTaken, IsShorter, symbols_left};
ghost use Rattle.promql_grammar.specs.MatcherTokens.{is_or, item_parts, operator_of_part, parts_of};
ghost use Rattle.promql_grammar.specs.Failures.{Reads};
ghost use Rattle.promql_label.specs.Answers.{Allows, built, rejected};
ghost use Rattle.promql_label.specs.MatcherViews.{operator_of, plain_matcher_of, plain_matchers_of};
ghost use Rattle.promql_syntax.specs.BuildErrors as spec;
ghost use Rattle.promql_syntax.specs.BuildErrors.{build_error_of, view_result};
ghost use Rattle.promql_syntax.specs.ParsesPart.{IsBuiltBy, ParsesAskedPart};
ghost use Rattle.promql_syntax.specs.MatcherItems.{AddsItem};
ghost use Rattle.promql_syntax.specs.PartBuilding.{braces_value, item_value, operator_value};

use crate::grammar::build_error::{BuildError, BuildFault};
use crate::grammar::labels::label_value;
use crate::grammar::parsed::{Built, Parsed};
use crate::grammar::place::Place;
use crate::grammar::string::string_value;
use promql_grammar::matcher_tokens::{Item, MatchOperator, parse_item, parse_item_end};
use promql_grammar::{TokenKind, Tokens};
use promql_label::{MatchOp, Matcher, Matchers, Pattern, PatternFault};
use std::alloc::{AllocError, Global};

/// Parses matchers after an opening brace, and the closing one. It builds them where `builds`.
pub fn parse_braces(alloc: Global, builds: bool, tokens: &mut Tokens<'_>) -> Parsed<Matchers>
    ensures gives { Reads (ParsesAskedPart builds plain_matchers_of braces_value) (symbols_left tokens.new)
        (parsing.parse_braces (symbols_left tokens.old)) result }
    ensures short { OnOk result (IsShorter tokens.new tokens.old) }
    ensures counts { OnOk result (CountsTaken tokens.old tokens.new) }
{
    let mut matchers = Ok(Matchers::empty(alloc));
    if tokens.eat(TokenKind::RightBrace) {
        return Ok(matchers);
    }
    let mut by_or = false;
    loop {
        let item = parse_item(tokens)?;
        append_item(alloc, builds, &mut matchers, by_or, item)?;
        match parse_item_end(tokens)? {
            Some(next_by_or) => by_or = next_by_or,
            None => return Ok(matchers),
        }
    }
}

/// Appends a matcher, in a group of its own or not, if it is built and there is no error yet.
fn append_item(
    alloc: Global,
    builds: bool,
    matchers: &mut Result<Matchers, Box<BuildError>>,
    by_or: bool,
    item: Item<'_>,
) -> Result<(), AllocError>
    ensures { OnOk result (builds ≡ true → (i : part.Item) (s : part.Separator)
        → parts_of item.entry ≡ item_parts i → by_or ≡ is_or s
        → AddsItem (view_result plain_matchers_of matchers.old) s i
        (view_result plain_matchers_of matchers.new)) }
{
    if !builds {
        return Ok(());
    }
    let Ok(list) = matchers else {
        return Ok(());
    };
    match build_matcher(alloc, item)? {
        Ok(matcher) if by_or => list.push_or(alloc, matcher)?,
        Ok(matcher) => list.push(matcher)?,
        Err(error) => *matchers = Err(error),
    }
    Ok(())
}

/// What the tokens of a matcher build: its name, then its value, then its pattern.
fn build_matcher(alloc: Global, item: Item<'_>) -> Built<Matcher>
    ensures { IfOk result (λ value. (i : part.Item) → parts_of item.entry ≡ item_parts i
        → IsBuiltBy plain_matcher_of value (item_value i)) }
{
    let name = match label_value(alloc, item.kind, item.name, item.name_index)? {
        Ok(name) => name,
        Err(error) => return Ok(Err(error)),
    };
    let Some((operator, value)) = item.value else {
        return Ok(Ok(Matcher::new_metric_name_matcher(alloc, name)?));
    };
    let value = match string_value(alloc, value, item.value_index)? {
        Ok(value) => value,
        Err(error) => return Ok(Err(error)),
    };
    match build_match_op(alloc, operator, &value, item.value_index)? {
        Ok(op) => Ok(Ok(Matcher { op, name, value })),
        Err(error) => Ok(Err(error)),
    }
}

/// How a matcher compares, with the pattern that its value is, the token with this index.
fn build_match_op(
    alloc: Global,
    operator: MatchOperator,
    value: &str,
    index: usize,
) -> Built<MatchOp>
    ensures { IfOk result (λ op. (s : part.MatchOperator) → operator ≡ operator_of_part s
        → IsBuiltBy operator_of op (operator_value s value.now)) }
{
    match operator {
        MatchOperator::Equal => Ok(Ok(MatchOp::Equal)),
        MatchOperator::NotEqual => Ok(Ok(MatchOp::NotEqual)),
        MatchOperator::EqualRegex => match build_pattern(alloc, value, index)? {
            Ok(pattern) => Ok(Ok(MatchOp::Re(pattern))),
            Err(error) => Ok(Err(error)),
        },
        MatchOperator::NotEqualRegex => match build_pattern(alloc, value, index)? {
            Ok(pattern) => Ok(Ok(MatchOp::NotRe(pattern))),
            Err(error) => Ok(Err(error)),
        },
    }
}

/// The pattern of a matcher's value, the token with this index.
fn build_pattern(alloc: Global, value: &str, index: usize) -> Built<Pattern>
    ensures { IfOk result (λ pattern. MatchResult pattern
        (λ p. Allows value.now (built p))
        (λ e. (build_error_of e.value ≡ spec.pattern value.now) × Allows value.now rejected)) }
{
    match Pattern::read(alloc, value) {
        Ok(pattern) => Ok(Ok(pattern)),
        Err(PatternFault::Refused(value)) => {
            let fault = BuildFault::Pattern(value);
            Ok(Err(BuildError::boxed(alloc, fault, Place::token(index))?))
        }
        Err(PatternFault::Memory) => Err(AllocError),
    }
}
