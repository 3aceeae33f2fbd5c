//! The JSON form of what nodes hold beside their parts: docs/reference/json.md, "Parts".

ghost use Rattle.std.specs.Prelude.{◌≡◌, None, Some, IfErr, IfOk, OnOk, map, option_map, string_bytes};
ghost use Rattle.std.specs.Duration.{as_nanos};
ghost use Rattle.serde_json.specs.Data.{string as text};
ghost use Rattle.serde_json.specs.View.{members_view, view};
ghost use Rattle.promql_token.specs.Ids.{text_of};
ghost use Rattle.promql_label.specs.Labels.{labels_of};
ghost use Rattle.promql_label.specs.MatcherViews.{operator_of, plain_matcher_of, plain_matchers_of};
ghost use Rattle.promql_label.specs.PlainMatchers.{operator_text};
ghost use Rattle.promql_kind.specs.Functions.{signature_of};
ghost use Rattle.promql_kind.specs.ModifierViews.{cardinality_of, clause_of, fills_of, matching_of};
ghost use Rattle.promql_ast.specs.Shifts.{moment_of};
ghost use Rattle.promql_json.specs.Json.{width_fault};
ghost use Rattle.promql_json.specs.FormNames.{optional_labels, step_fault, type_json};
ghost use Rattle.promql_json.specs.JsonParts as spec;

use promql_ast::{AtModifier, RangeMode};
use promql_json::JsonError;
use promql_kind::{
    BinModifier, Function, LabelModifier, ValueType, VectorMatchCardinality, VectorMatchFillValues,
};
use promql_label::{Labels, MatchOp, Matcher, Matchers};
use promql_text::Number;
use promql_token::TokenType;
use promql_token::ids::token_display;
use serde_json::{Map, Value, json, put};
use std::alloc::{AllocError, Global};
use std::time::Duration;

/// The text of a kind of token.
///
/// # Errors
///
/// `AllocError` where an allocation failed.
pub fn token_type_json(alloc: Global, token: TokenType) -> Result<Value, AllocError>
    ensures { IfOk result (λ v. view v ≡ text (text_of token)) }
{
    Value::try_from_str(alloc, token_display(token.id()))
}

/// The text of an operator between a label's name and a value.
///
/// # Errors
///
/// `AllocError` where an allocation failed.
pub fn match_op_json(alloc: Global, op: &MatchOp) -> Result<Value, AllocError>
    ensures { IfOk result (λ v. view v ≡ text (operator_text (operator_of op.now))) }
{
    Ok(Value::String(format!(in alloc; "{op}")?))
}

/// A list of the labels.
///
/// # Errors
///
/// `AllocError` where an allocation failed.
pub fn labels_json(alloc: Global, labels: &Labels) -> Result<Value, AllocError>
    ensures { IfOk result (λ v. view v ≡ spec.labels_json (labels_of labels.now)) }
{
    let mut list = Vec::with_capacity(alloc, labels.labels.len())?;
    for label in &labels.labels {
        list.push(Value::try_from_str(alloc, label.as_str())?)?;
    }
    Ok(Value::Array(list))
}

/// An object of the matcher's operator, name and value.
///
/// # Errors
///
/// `AllocError` where an allocation failed.
pub fn matcher_json(alloc: Global, matcher: &Matcher) -> Result<Value, AllocError>
    ensures { IfOk result (λ v. view v ≡ spec.matcher_json (plain_matcher_of matcher.now)) }
{
    json!(in alloc; {
        "type": match_op_json(alloc, &matcher.op)?,
        "name": matcher.name.as_str(),
        "value": matcher.value.as_str()
    })
}

/// An object of the matchers, and of the groups where there are some.
///
/// # Errors
///
/// `AllocError` where an allocation failed.
pub fn matchers_json(alloc: Global, matchers: &Matchers) -> Result<Value, AllocError>
    ensures { IfOk result (λ v. view v ≡ spec.matchers_json (plain_matchers_of matchers.now)) }
{
    let mut members = Map::new(alloc);
    put(
        &mut members,
        alloc,
        "matchers",
        group_json(alloc, &matchers.matchers)?,
    )?;
    put_groups(&mut members, alloc, &matchers.or_matchers)?;
    Ok(Value::Object(members))
}

pub(crate) fn group_json(alloc: Global, matchers: &[Matcher]) -> Result<Value, AllocError>
    ensures { IfOk result (λ v. view v ≡ spec.group_json (map plain_matcher_of matchers.now)) }
{
    let mut list = Vec::with_capacity(alloc, matchers.len())?;
    for matcher in matchers {
        list.push(matcher_json(alloc, matcher)?)?;
    }
    Ok(Value::Array(list))
}

fn groups_json(alloc: Global, groups: &[Vec<Matcher>]) -> Result<Value, AllocError>
    ensures { IfOk result (λ v. view v
        ≡ spec.list (map spec.group_json (map (λ g. map plain_matcher_of g.items) groups.now))) }
{
    let mut list = Vec::with_capacity(alloc, groups.len())?;
    for group in groups {
        list.push(group_json(alloc, group)?)?;
    }
    Ok(Value::Array(list))
}

/// Adds `or_matchers` where there are groups.
pub(crate) fn put_groups(
    members: &mut Map<String, Value>,
    alloc: Global,
    groups: &[Vec<Matcher>],
) -> Result<(), AllocError>
    ensures { OnOk result (members_view members.new.entries
        ≡ spec.with_groups (map spec.group_json (map (λ g. map plain_matcher_of g.items) groups.now))
        (members_view members.old.entries)) }
{
    if !groups.is_empty() {
        put(members, alloc, "or_matchers", groups_json(alloc, groups)?)?;
    }
    Ok(())
}

pub(crate) fn number_json(alloc: Global, number: &Number) -> Result<Value, AllocError>
    ensures { IfOk result (λ v. view v ≡ spec.number_json number.now) }
{
    Ok(Value::String(format!(in alloc; "{number}")?))
}

fn optional_number_json(alloc: Global, number: &Option<Number>) -> Result<Value, AllocError>
    ensures { IfOk result (λ v. view v ≡ spec.or_null spec.number_json number.now) }
{
    match number {
        Some(number) => number_json(alloc, number),
        None => Ok(Value::Null),
    }
}

pub(crate) fn name_json(alloc: Global, name: &Option<String>) -> Result<Value, AllocError>
    ensures { IfOk result (λ v. view v ≡ spec.or_null text (option_map string_bytes name.now)) }
{
    match name {
        Some(name) => Value::try_from_str(alloc, name.as_str()),
        None => Ok(Value::Null),
    }
}

pub(crate) fn optional_labels_json(
    alloc: Global,
    modifier: &Option<LabelModifier>,
) -> Result<Value, AllocError>
    ensures { IfOk result
        (λ v. view v ≡ spec.labels_json (optional_labels
        (option_map clause_of modifier.now))) }
{
    match modifier {
        Some(modifier) => labels_json(alloc, modifier.labels()),
        None => Ok(Value::Array(Vec::new(alloc))),
    }
}

pub(crate) fn cardinality_json(
    alloc: Global,
    card: &VectorMatchCardinality,
) -> Result<Value, AllocError>
    ensures { IfOk result (λ v. view v ≡ spec.cardinality_json (cardinality_of card.now)) }
{
    match card {
        VectorMatchCardinality::OneToOne => Value::try_from_str(alloc, "one-to-one"),
        VectorMatchCardinality::ManyToOne(labels) => {
            json!(in alloc; {"many-to-one": labels_json(alloc, labels)?})
        }
        VectorMatchCardinality::OneToMany(labels) => {
            json!(in alloc; {"one-to-many": labels_json(alloc, labels)?})
        }
        VectorMatchCardinality::ManyToMany => Value::try_from_str(alloc, "many-to-many"),
    }
}

pub(crate) fn fills_json(alloc: Global, values: &VectorMatchFillValues) -> Result<Value, AllocError>
    ensures { IfOk result (λ v. view v ≡ spec.fills_json (fills_of values.now)) }
{
    json!(in alloc; {
        "rhs": optional_number_json(alloc, &values.rhs)?,
        "lhs": optional_number_json(alloc, &values.lhs)?
    })
}

fn matching_json(alloc: Global, modifier: &BinModifier) -> Result<Value, AllocError>
    ensures { IfOk result (λ v. view v ≡ spec.matching_json (matching_of modifier.now)) }
{
    json!(in alloc; {
        "card": cardinality_json(alloc, &modifier.card)?,
        "include": [],
        "labels": optional_labels_json(alloc, &modifier.matching)?,
        "on": modifier.is_matching_on(),
        "fillValues": fills_json(alloc, &modifier.fill_values)?
    })
}

pub(crate) fn modifier_json(
    alloc: Global,
    modifier: &Option<BinModifier>,
) -> Result<Value, AllocError>
    ensures { IfOk result
        (λ v. view v ≡ spec.or_null spec.matching_json (option_map matching_of modifier.now)) }
{
    match modifier {
        Some(modifier) => matching_json(alloc, modifier),
        None => Ok(Value::Null),
    }
}

/// A whole number from -2^63 to 2^64 - 1.
pub(crate) fn whole_json(z: i128) -> Result<Value, JsonError>
    ensures ok { IfOk result (λ v. view v ≡ spec.whole z) }
    ensures fits { IfOk result (λ _. width_fault z ≡ None) }
    ensures err { IfErr result (λ e. width_fault z ≡ Some e) }
{
    if z < i64::MIN as i128 || z >= 1 << 64 {
        Err(JsonError::NumberTooWide)
    } else if z < 0 {
        Ok(Value::from(z as i64))
    } else {
        Ok(Value::from(z as u64))
    }
}

pub(crate) fn length_json(length: Duration) -> Result<Value, JsonError>
    ensures ok { IfOk result (λ v. view v ≡ spec.whole (spec.millis (as_nanos length))) }
    ensures fits { IfOk result (λ _. width_fault (spec.millis (as_nanos length)) ≡ None) }
    ensures err { IfErr result (λ e. width_fault (spec.millis (as_nanos length)) ≡ Some e) }
{
    whole_json(length.as_millis() as i128)
}

pub(crate) fn step_json(step: Option<Duration>) -> Result<Value, JsonError>
    ensures ok { IfOk result
        (λ v. view v ≡ spec.or_null (λ n. spec.whole (spec.millis n)) (option_map as_nanos step)) }
    ensures fits { IfOk result (λ _. step_fault (option_map as_nanos step) ≡ None) }
    ensures err { IfErr result (λ e. step_fault (option_map as_nanos step) ≡ Some e) }
{
    match step {
        Some(step) => length_json(step),
        None => Ok(Value::Null),
    }
}

pub(crate) fn start_or_end_json(alloc: Global, at: Option<AtModifier>) -> Result<Value, AllocError>
    ensures { IfOk result (λ v. view v ≡ spec.start_or_end (option_map moment_of at)) }
{
    match at {
        Some(AtModifier::Start) => Value::try_from_str(alloc, "start"),
        Some(AtModifier::End) => Value::try_from_str(alloc, "end"),
        Some(AtModifier::At(_)) => Ok(Value::Null),
        None => Ok(Value::Null),
    }
}

pub(crate) fn timestamp_json(at: Option<AtModifier>) -> Value
    ensures { view result ≡ spec.timestamp (option_map moment_of at) }
{
    match at {
        Some(AtModifier::Start) => Value::Null,
        Some(AtModifier::End) => Value::Null,
        Some(AtModifier::At(millis)) => Value::from(millis),
        None => Value::Null,
    }
}

/// Adds `rangeMode` where there is one.
pub(crate) fn put_mode(
    members: &mut Map<String, Value>,
    alloc: Global,
    mode: RangeMode,
) -> Result<(), AllocError>
    ensures { OnOk result (members_view members.new.entries
        ≡ spec.with_mode mode (members_view members.old.entries)) }
{
    match mode {
        RangeMode::Plain => {}
        RangeMode::Smoothed => {
            put(
                members,
                alloc,
                "rangeMode",
                Value::try_from_str(alloc, "smoothed")?,
            )?;
        }
        RangeMode::Anchored => {
            put(
                members,
                alloc,
                "rangeMode",
                Value::try_from_str(alloc, "anchored")?,
            )?;
        }
    }
    Ok(())
}

pub(crate) fn type_json(alloc: Global, value_type: ValueType) -> Result<Value, AllocError>
    ensures { IfOk result (λ v. view v ≡ type_json value_type) }
{
    Ok(Value::String(format!(in alloc; "{value_type}")?))
}

fn types_json(alloc: Global, types: &[ValueType]) -> Result<Value, AllocError>
    ensures { IfOk result (λ v. view v ≡ spec.list (map type_json types.now)) }
{
    let mut list = Vec::with_capacity(alloc, types.len())?;
    for value_type in types {
        list.push(type_json(alloc, *value_type)?)?;
    }
    Ok(Value::Array(list))
}

pub(crate) fn function_json(alloc: Global, function: &Function) -> Result<Value, AllocError>
    ensures { IfOk result (λ v. view v ≡ spec.function_json (signature_of function.now)) }
{
    json!(in alloc; {
        "name": function.name,
        "argTypes": types_json(alloc, &function.arg_types)?,
        "variadic": function.variadic,
        "returnType": type_json(alloc, function.return_type)?,
        "experimental": function.experimental
    })
}
