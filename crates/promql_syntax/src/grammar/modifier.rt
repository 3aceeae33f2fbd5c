//! The rule `modifier`: what may come between an operator and its right side.

ghost use Rattle.std.specs.Prelude.{◌≡◌, ◌<◌, Some, None, Ok, option_map, OnOk};
ghost use Rattle.promql_text.specs.Texts.{Text};
ghost use Rattle.promql_text.specs.declared.number.Number as numbers;
ghost use Rattle.promql_grammar.specs.GrammarParts as part;
ghost use Rattle.promql_grammar.specs.Results.{◌then◌};
ghost use Rattle.promql_grammar.specs.Parsing as parsing;
ghost use Rattle.promql_grammar.specs.SymbolsLeft.{CountsTaken, IsNoLonger, IsShorter, symbols_left};
ghost use Rattle.promql_grammar.specs.Failures.{Reads};
ghost use Rattle.promql_label.specs.Labels.{labels_of};
ghost use Rattle.promql_kind.specs.Modifiers as spec;
ghost use Rattle.promql_kind.specs.ModifierViews.{cardinality_of, fills_of, matching_of};
ghost use Rattle.promql_syntax.specs.BuildErrors.{view_result};
ghost use Rattle.promql_syntax.specs.ParsesPart.{ParsesPart};
ghost use Rattle.promql_syntax.specs.ModifierParts.{ParsesFlag, list_in, list_value, matching_parts, modifier_of, starts_modifier};
ghost use Rattle.promql_syntax.specs.PartBuilding.{fill_value, fills_value, group_value, matching_value, modifier_value};

use crate::grammar::build_error::BuildError;
use crate::grammar::labels::{parse_label_list, parse_labels};
use crate::grammar::parsed::Parsed;
use crate::grammar::time::parse_signed_number;
use promql_grammar::{TokenKind, Tokens};
use promql_kind::{BinModifier, LabelModifier, VectorMatchCardinality, VectorMatchFillValues};
use promql_label::Labels;
use promql_text::Number;
use std::alloc::Global;

/// `on` or `ignoring` with its labels, and the grouping after it.
#[derive(Drop)]
pub struct Matching {
    pub card: VectorMatchCardinality,
    pub labels: Option<LabelModifier>,
}

/// Whether a modifier may start with a token of this kind.
pub fn starts_modifier(kind: TokenKind) -> bool
    ensures { result ≡ starts_modifier kind }
{
    matches!(
        kind,
        TokenKind::Bool
            | TokenKind::On
            | TokenKind::Ignoring
            | TokenKind::Fill
            | TokenKind::FillLeft
            | TokenKind::FillRight
    )
}

/// Parses a modifier; `None` if there is no token of one.
pub fn parse_modifier(alloc: Global, tokens: &mut Tokens<'_>) -> Parsed<Option<BinModifier>>
    ensures gives { Reads (ParsesPart (option_map matching_of) modifier_value) (symbols_left tokens.new)
        (parsing.parse_modifier (symbols_left tokens.old)) result }
    ensures short { OnOk result (IsNoLonger tokens.new tokens.old) }
    ensures counts { OnOk result (CountsTaken tokens.old tokens.new) }
{
    let return_bool = eat_bool(tokens);
    let matching = parse_matching(alloc, tokens)?;
    let fills = parse_fills(alloc, tokens)?;
    Ok(build_modifier(return_bool, matching, fills))
}

/// Takes `bool`, if it is the first token.
fn eat_bool(tokens: &mut Tokens<'_>) -> bool
    ensures gives { ParsesFlag result (symbols_left tokens.new)
        (parsing.parse_flag (symbols_left tokens.old)) }
    ensures short { IsNoLonger tokens.new tokens.old }
    ensures counts { CountsTaken tokens.old tokens.new }
{
    tokens.eat(TokenKind::Bool)
}

/// Parses `on` or `ignoring` with its labels and its group, if there is one.
fn parse_matching(alloc: Global, tokens: &mut Tokens<'_>) -> Parsed<Matching>
    ensures gives { Reads (ParsesPart matching_parts matching_value) (symbols_left tokens.new)
        (parsing.parse_matching (symbols_left tokens.old)) result }
    ensures short { OnOk result (IsNoLonger tokens.new tokens.old) }
    ensures counts { OnOk result (CountsTaken tokens.old tokens.new) }
{
    let Some((kind, _)) = tokens.peek() else {
        return Ok(Ok(no_matching()));
    };
    match kind {
        TokenKind::On => {
            tokens.bump();
            let labels = parse_labels(alloc, tokens)?;
            let card = parse_group(alloc, tokens)?;
            Ok(build_on(labels, card))
        }
        TokenKind::Ignoring => {
            tokens.bump();
            let labels = parse_labels(alloc, tokens)?;
            let card = parse_group(alloc, tokens)?;
            Ok(build_ignoring(labels, card))
        }
        _ => Ok(Ok(no_matching())),
    }
}

fn no_matching() -> Matching
    ensures { matching_parts result ≡ (spec.one_to_one, None) }
{
    Matching {
        card: VectorMatchCardinality::OneToOne,
        labels: None,
    }
}

fn build_on(
    labels: Result<Labels, Box<BuildError>>,
    card: Result<VectorMatchCardinality, Box<BuildError>>,
) -> Result<Matching, Box<BuildError>>
    ensures { view_result matching_parts result ≡ (view_result labels_of labels then
        λ ls. view_result cardinality_of card then λ c. Ok (c, Some (spec.including ls))) }
{
    let labels = Some(LabelModifier::Include(labels?));
    Ok(Matching {
        card: card?,
        labels,
    })
}

fn build_ignoring(
    labels: Result<Labels, Box<BuildError>>,
    card: Result<VectorMatchCardinality, Box<BuildError>>,
) -> Result<Matching, Box<BuildError>>
    ensures { view_result matching_parts result ≡ (view_result labels_of labels then
        λ ls. view_result cardinality_of card then λ c. Ok (c, Some (spec.excluding ls))) }
{
    let labels = Some(LabelModifier::Exclude(labels?));
    Ok(Matching {
        card: card?,
        labels,
    })
}

/// Parses `group_left` or `group_right`, if there is one, with its labels, if it has them.
fn parse_group(alloc: Global, tokens: &mut Tokens<'_>) -> Parsed<VectorMatchCardinality>
    ensures gives { Reads (ParsesPart cardinality_of group_value) (symbols_left tokens.new)
        (parsing.parse_group (symbols_left tokens.old)) result }
    ensures short { OnOk result (IsNoLonger tokens.new tokens.old) }
    ensures counts { OnOk result (CountsTaken tokens.old tokens.new) }
{
    let Some((kind, _)) = tokens.peek() else {
        return Ok(Ok(VectorMatchCardinality::OneToOne));
    };
    match kind {
        TokenKind::GroupLeft => {
            tokens.bump();
            let labels = parse_group_labels(alloc, tokens)?;
            Ok(build_group_left(labels))
        }
        TokenKind::GroupRight => {
            tokens.bump();
            let labels = parse_group_labels(alloc, tokens)?;
            Ok(build_group_right(labels))
        }
        _ => Ok(Ok(VectorMatchCardinality::OneToOne)),
    }
}

fn build_group_left(
    labels: Result<Labels, Box<BuildError>>,
) -> Result<VectorMatchCardinality, Box<BuildError>>
    ensures { view_result cardinality_of result
        ≡ (view_result labels_of labels then λ ls. Ok (spec.many_to_one ls)) }
{
    labels.map(VectorMatchCardinality::ManyToOne)
}

fn build_group_right(
    labels: Result<Labels, Box<BuildError>>,
) -> Result<VectorMatchCardinality, Box<BuildError>>
    ensures { view_result cardinality_of result
        ≡ (view_result labels_of labels then λ ls. Ok (spec.one_to_many ls)) }
{
    labels.map(VectorMatchCardinality::OneToMany)
}

/// Parses labels in parentheses, if there are any.
fn parse_group_labels(alloc: Global, tokens: &mut Tokens<'_>) -> Parsed<Labels>
    ensures gives { Reads (ParsesPart labels_of list_value) (symbols_left tokens.new)
        (list_in (symbols_left tokens.old)) result }
    ensures short { OnOk result (IsNoLonger tokens.new tokens.old) }
    ensures counts { OnOk result (CountsTaken tokens.old tokens.new) }
{
    if tokens.eat(TokenKind::LeftParen) {
        return parse_label_list(alloc, tokens);
    }
    Ok(Ok(Labels {
        labels: Vec::new(alloc),
    }))
}

/// Parses fill values, if there are any.
fn parse_fills(alloc: Global, tokens: &mut Tokens<'_>) -> Parsed<VectorMatchFillValues>
    ensures gives { Reads (ParsesPart fills_of fills_value) (symbols_left tokens.new)
        (parsing.parse_fills (symbols_left tokens.old)) result }
    ensures short { OnOk result (IsNoLonger tokens.new tokens.old) }
    ensures counts { OnOk result (CountsTaken tokens.old tokens.new) }
{
    let Some((kind, _)) = tokens.peek() else {
        return Ok(Ok(VectorMatchFillValues::default()));
    };
    match kind {
        TokenKind::Fill => {
            tokens.bump();
            let value = parse_fill_value(alloc, tokens)?;
            Ok(build_fill(value))
        }
        TokenKind::FillLeft => {
            tokens.bump();
            let left = parse_fill_value(alloc, tokens)?;
            parse_fill_right(alloc, tokens, left)
        }
        TokenKind::FillRight => {
            tokens.bump();
            let right = parse_fill_value(alloc, tokens)?;
            parse_fill_left(alloc, tokens, right)
        }
        _ => Ok(Ok(VectorMatchFillValues::default())),
    }
}

/// Parses `fill_right` after `fill_left`, if it is there.
fn parse_fill_right(
    alloc: Global,
    tokens: &mut Tokens<'_>,
    left: Result<Number, Box<BuildError>>,
) -> Parsed<VectorMatchFillValues>
    ensures gives { (t : Text) (v : part.FillValue)
        → view_result (λ (n : numbers.Number). n) left ≡ fill_value v → Reads (ParsesPart fills_of fills_value) (symbols_left tokens.new)
        (parsing.parse_fill_right t v (symbols_left tokens.old)) result }
    ensures short { OnOk result (IsNoLonger tokens.new tokens.old) }
    ensures counts { OnOk result (CountsTaken tokens.old tokens.new) }
{
    if !tokens.eat(TokenKind::FillRight) {
        return Ok(build_fill_left(left));
    }
    let right = parse_fill_value(alloc, tokens)?;
    Ok(build_fill_left_right(left, right))
}

/// Parses `fill_left` after `fill_right`, if it is there.
fn parse_fill_left(
    alloc: Global,
    tokens: &mut Tokens<'_>,
    right: Result<Number, Box<BuildError>>,
) -> Parsed<VectorMatchFillValues>
    ensures gives { (t : Text) (v : part.FillValue)
        → view_result (λ (n : numbers.Number). n) right ≡ fill_value v → Reads (ParsesPart fills_of fills_value) (symbols_left tokens.new)
        (parsing.parse_fill_left t v (symbols_left tokens.old)) result }
    ensures short { OnOk result (IsNoLonger tokens.new tokens.old) }
    ensures counts { OnOk result (CountsTaken tokens.old tokens.new) }
{
    if !tokens.eat(TokenKind::FillLeft) {
        return Ok(build_fill_right(right));
    }
    let left = parse_fill_value(alloc, tokens)?;
    Ok(build_fill_right_left(right, left))
}

/// Parses a fill value: a number with its sign, in parentheses.
fn parse_fill_value(alloc: Global, tokens: &mut Tokens<'_>) -> Parsed<Number>
    ensures gives { Reads (ParsesPart (λ (n : numbers.Number). n) fill_value) (symbols_left tokens.new)
        (parsing.parse_fill_value (symbols_left tokens.old)) result }
    ensures short { OnOk result (IsShorter tokens.new tokens.old) }
    ensures counts { OnOk result (CountsTaken tokens.old tokens.new) }
{
    tokens.expect(TokenKind::LeftParen)?;
    let number = parse_signed_number(alloc, tokens)?;
    tokens.expect(TokenKind::RightParen)?;
    Ok(number)
}

fn build_fill(
    value: Result<Number, Box<BuildError>>,
) -> Result<VectorMatchFillValues, Box<BuildError>>
    ensures { view_result fills_of result
        ≡ (view_result (λ (n : numbers.Number). n) value then λ n. Ok (spec.fills (Some n)
        (Some n))) }
{
    Ok(fill_both_sides(&value?))
}

/// The same value for both sides.
fn fill_both_sides(value: &Number) -> VectorMatchFillValues
    ensures { fills_of result ≡ spec.fills (Some value.now) (Some value.now) }
{
    VectorMatchFillValues::new(*value, *value)
}

fn build_fill_left(
    left: Result<Number, Box<BuildError>>,
) -> Result<VectorMatchFillValues, Box<BuildError>>
    ensures { view_result fills_of result
        ≡ (view_result (λ (n : numbers.Number). n) left then λ n. Ok (spec.fills None (Some n))) }
{
    Ok(VectorMatchFillValues::default().with_lhs(left?))
}

fn build_fill_right(
    right: Result<Number, Box<BuildError>>,
) -> Result<VectorMatchFillValues, Box<BuildError>>
    ensures { view_result fills_of result
        ≡ (view_result (λ (n : numbers.Number). n) right then λ n. Ok (spec.fills (Some n) None)) }
{
    Ok(VectorMatchFillValues::default().with_rhs(right?))
}

/// Both values; an error of the left one comes first.
fn build_fill_left_right(
    left: Result<Number, Box<BuildError>>,
    right: Result<Number, Box<BuildError>>,
) -> Result<VectorMatchFillValues, Box<BuildError>>
    ensures { view_result fills_of result ≡ (view_result (λ (n : numbers.Number). n) left then
        λ n. view_result (λ (n : numbers.Number). n) right then λ m. Ok (spec.fills (Some m)
        (Some n))) }
{
    let left = left?;
    Ok(VectorMatchFillValues::new(left, right?))
}

/// Both values; an error of the right one comes first.
fn build_fill_right_left(
    right: Result<Number, Box<BuildError>>,
    left: Result<Number, Box<BuildError>>,
) -> Result<VectorMatchFillValues, Box<BuildError>>
    ensures { view_result fills_of result ≡ (view_result (λ (n : numbers.Number). n) right then
        λ n. view_result (λ (n : numbers.Number). n) left then λ m. Ok (spec.fills (Some n)
        (Some m))) }
{
    let right = right?;
    Ok(VectorMatchFillValues::new(left?, right))
}

/// The modifier of these parts, or `None` if all of them are missing.
fn build_modifier(
    return_bool: bool,
    matching: Result<Matching, Box<BuildError>>,
    fills: Result<VectorMatchFillValues, Box<BuildError>>,
) -> Result<Option<BinModifier>, Box<BuildError>>
    ensures { view_result (option_map matching_of) result ≡
        (view_result matching_parts matching then
        λ m. view_result fills_of fills then λ f. Ok (modifier_of return_bool m f)) }
{
    let matching = matching?;
    Ok(build_some_modifier(return_bool, matching, fills?))
}

fn build_some_modifier(
    return_bool: bool,
    matching: Matching,
    fill_values: VectorMatchFillValues,
) -> Option<BinModifier>
    ensures { option_map matching_of result
        ≡ modifier_of return_bool (matching_parts matching) (fills_of fill_values) }
{
    let Matching { card, labels } = matching;
    let is_filled = fill_values.lhs.is_some() || fill_values.rhs.is_some();
    if !return_bool && labels.is_none() && !is_filled {
        return None;
    }
    Some(BinModifier {
        card,
        matching: labels,
        return_bool,
        fill_values,
    })
}
