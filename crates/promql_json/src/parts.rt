//! The text of JSON for what nodes hold beside their parts: docs/reference/json.md, "Parts".

ghost use Rattle.std.specs.Prelude.{◌≡◌, [], ◌∷◌, ◌++◌, None, OnOk, Some, codes, map, option_map, string_bytes};
ghost use Rattle.std.specs.Duration.{as_nanos};
ghost use Rattle.json.specs.Token as token;
ghost use Rattle.serde_json.specs.Data.{boolean, string as text};
ghost use Rattle.promql_label.specs.Labels.{labels_of};
ghost use Rattle.promql_label.specs.MatcherViews.{operator_of, plain_matcher_of};
ghost use Rattle.promql_label.specs.PlainMatchers.{operator_text as text_of_operator};
ghost use Rattle.promql_kind.specs.Functions.{signature_of};
ghost use Rattle.promql_kind.specs.Modifiers.{is_on};
ghost use Rattle.promql_kind.specs.ModifierViews.{cardinality_of, clause_of, fills_of, matching_of};
ghost use Rattle.promql_kind.specs.ValueTypes.{type_text};
ghost use Rattle.promql_ast.specs.Shifts.{moment_of, shift_of};
ghost use Rattle.promql_json.specs.Json.{width_fault};
ghost use Rattle.promql_json.specs.FormNames.{is_excluding, optional_labels, step_fault, token_json, type_json};
ghost use Rattle.promql_json.specs.JsonParts as spec;
ghost use Rattle.promql_json.specs.JsonTokens.{groups_member, member, mode_member, moment_members, tokens};

use crate::values::{is_without, offset_millis, type_name};
use crate::writer::JsonWriter;
use promql_ast::{AtModifier, Offset, RangeMode};
use promql_kind::{
    BinModifier, Function, LabelModifier, ValueType, VectorMatchCardinality, VectorMatchFillValues,
};
use promql_label::{Labels, MatchOp, Matcher};
use promql_text::Number;
use promql_token::TokenType;
use promql_token::ids::token_display;
use std::alloc::{AllocError, Global};
use std::time::Duration;

pub(crate) fn write_op(out: &mut JsonWriter, op: TokenType) -> Result<(), AllocError>
    ensures { OnOk result (out.new ≡ out.old ++ member (codes "op") (token_json op)) }
{
    out.string_member("op", token_display(op.id()))
}

fn write_labels(out: &mut JsonWriter, labels: &Labels) -> Result<(), AllocError>
    ensures { OnOk result (out.new
        ≡ out.old ++ tokens (spec.labels_json (labels_of labels.now))) }
{
    out.begin_array()?;
    for label in &labels.labels {
        out.string(label.as_str())?;
    }
    out.end_array()
}

/// A member with the labels of a clause; none without one.
pub(crate) fn write_clause(
    out: &mut JsonWriter,
    name: &str,
    clause: &Option<LabelModifier>,
) -> Result<(), AllocError>
    ensures { OnOk result (out.new ≡ out.old ++ member name.now
        (spec.labels_json (optional_labels (option_map clause_of clause.now)))) }
{
    out.key(name)?;
    match clause {
        Some(clause) => write_labels(out, clause.labels()),
        None => out.empty_array(),
    }
}

fn operator_text(op: &MatchOp) -> &'static str
    ensures { result.now ≡ text_of_operator (operator_of op.now) }
{
    match op {
        MatchOp::Equal => "=",
        MatchOp::NotEqual => "!=",
        MatchOp::Re(_) => "=~",
        MatchOp::NotRe(_) => "!~",
    }
}

fn write_matcher(out: &mut JsonWriter, matcher: &Matcher) -> Result<(), AllocError>
    ensures { OnOk result (out.new
        ≡ out.old ++ tokens (spec.matcher_json (plain_matcher_of matcher.now))) }
{
    out.begin_object()?;
    out.string_member("name", matcher.name.as_str())?;
    out.string_member("type", operator_text(&matcher.op))?;
    out.string_member("value", matcher.value.as_str())?;
    out.end_object()
}

pub(crate) fn write_group(out: &mut JsonWriter, matchers: &[Matcher]) -> Result<(), AllocError>
    ensures { OnOk result (out.new
        ≡ out.old ++ tokens (spec.group_json (map plain_matcher_of matchers.now))) }
{
    out.begin_array()?;
    for matcher in matchers {
        write_matcher(out, matcher)?;
    }
    out.end_array()
}

fn write_group_list(out: &mut JsonWriter, groups: &[Vec<Matcher>]) -> Result<(), AllocError>
    ensures { OnOk result (out.new ≡ out.old ++ tokens
        (spec.list (map spec.group_json (map (λ g. map plain_matcher_of g.items) groups.now)))) }
{
    out.begin_array()?;
    for group in groups {
        write_group(out, group)?;
    }
    out.end_array()
}

/// The key `or_matchers` where there are groups.
pub(crate) fn write_groups(out: &mut JsonWriter, groups: &[Vec<Matcher>]) -> Result<(), AllocError>
    ensures { OnOk result (out.new ≡ out.old
        ++ groups_member (map (λ g. map plain_matcher_of g.items) groups.now)) }
{
    if groups.is_empty() {
        return Ok(());
    }
    out.key("or_matchers")?;
    write_group_list(out, groups)
}

/// A member with a number's text.
pub(crate) fn write_number(
    out: &mut JsonWriter,
    alloc: Global,
    name: &str,
    number: &Number,
) -> Result<(), AllocError>
    ensures { OnOk result (out.new ≡ out.old ++ member name.now (spec.number_json number.now)) }
{
    let text = format!(in alloc; "{number}")?;
    out.string_member(name, text.as_str())
}

fn write_fill(
    out: &mut JsonWriter,
    alloc: Global,
    name: &str,
    value: &Option<Number>,
) -> Result<(), AllocError>
    ensures { OnOk result (out.new
        ≡ out.old ++ member name.now (spec.or_null spec.number_json value.now)) }
{
    match value {
        Some(number) => write_number(out, alloc, name, number),
        None => out.null_member(name),
    }
}

fn write_fills(
    out: &mut JsonWriter,
    alloc: Global,
    values: &VectorMatchFillValues,
) -> Result<(), AllocError>
    ensures { OnOk result (out.new ≡ out.old ++ tokens (spec.fills_json (fills_of values.now))) }
{
    out.begin_object()?;
    write_fill(out, alloc, "lhs", &values.lhs)?;
    write_fill(out, alloc, "rhs", &values.rhs)?;
    out.end_object()
}

pub(crate) fn write_name(out: &mut JsonWriter, name: &Option<String>) -> Result<(), AllocError>
    ensures { OnOk result (out.new ≡ out.old ++ member (codes "name")
        (spec.or_null text (option_map string_bytes name.now))) }
{
    match name {
        Some(name) => out.string_member("name", name.as_str()),
        None => out.null_member("name"),
    }
}

/// An object with one key, which holds the labels.
fn write_grouped(out: &mut JsonWriter, name: &str, labels: &Labels) -> Result<(), AllocError>
    ensures { OnOk result (out.new ≡ out.old ++ token.begin_object
        ∷ (member name.now (spec.labels_json (labels_of labels.now)) ++ token.end_object ∷ [])) }
{
    out.begin_with(name)?;
    write_labels(out, labels)?;
    out.end_object()
}

fn write_cardinality(out: &mut JsonWriter, card: &VectorMatchCardinality) -> Result<(), AllocError>
    ensures { OnOk result (out.new
        ≡ out.old ++ tokens (spec.cardinality_json (cardinality_of card.now))) }
{
    match card {
        VectorMatchCardinality::OneToOne => out.string("one-to-one"),
        VectorMatchCardinality::ManyToOne(labels) => write_grouped(out, "many-to-one", labels),
        VectorMatchCardinality::OneToMany(labels) => write_grouped(out, "one-to-many", labels),
        VectorMatchCardinality::ManyToMany => out.string("many-to-many"),
    }
}

/// The keys after `fillValues`, and the end.
fn write_matched(out: &mut JsonWriter, modifier: &BinModifier) -> Result<(), AllocError>
    ensures { OnOk result (out.new ≡ out.old ++ (member (codes "include") (spec.list [])
        ++ (member (codes "labels") (spec.labels_json (optional_labels
        (option_map clause_of modifier.now.matching)))
        ++ (member (codes "on") (boolean (is_on (matching_of modifier.now)))
        ++ token.end_object ∷ [])))) }
{
    out.key("include")?;
    out.empty_array()?;
    write_clause(out, "labels", &modifier.matching)?;
    out.bool_member("on", modifier.is_matching_on())?;
    out.end_object()
}

fn write_modifier(
    out: &mut JsonWriter,
    alloc: Global,
    modifier: &BinModifier,
) -> Result<(), AllocError>
    ensures { OnOk result (out.new
        ≡ out.old ++ tokens (spec.matching_json (matching_of modifier.now))) }
{
    out.begin_with("card")?;
    write_cardinality(out, &modifier.card)?;
    out.key("fillValues")?;
    write_fills(out, alloc, &modifier.fill_values)?;
    write_matched(out, modifier)
}

pub(crate) fn write_matching(
    out: &mut JsonWriter,
    alloc: Global,
    modifier: &Option<BinModifier>,
) -> Result<(), AllocError>
    ensures { OnOk result (out.new ≡ out.old ++ member (codes "matching")
        (spec.or_null spec.matching_json (option_map matching_of modifier.now))) }
{
    out.key("matching")?;
    match modifier {
        Some(modifier) => write_modifier(out, alloc, modifier),
        None => out.null(),
    }
}

pub(crate) fn write_offset(out: &mut JsonWriter, offset: Option<Offset>) -> Result<(), AllocError>
    requires { width_fault (spec.shift_millis (option_map shift_of offset)) ≡ None }
    ensures { OnOk result (out.new ≡ out.old ++ member (codes "offset")
        (spec.whole (spec.shift_millis (option_map shift_of offset)))) }
{
    out.whole_member("offset", offset_millis(offset))
}

pub(crate) fn write_step(out: &mut JsonWriter, step: Option<Duration>) -> Result<(), AllocError>
    requires { step_fault (option_map as_nanos step) ≡ None }
    ensures { OnOk result (out.new ≡ out.old ++ member (codes "step")
        (spec.or_null (λ n. spec.whole (spec.millis n)) (option_map as_nanos step))) }
{
    match step {
        Some(step) => out.whole_member("step", step.as_millis() as i128),
        None => out.null_member("step"),
    }
}

fn write_moment(out: &mut JsonWriter, at: AtModifier) -> Result<(), AllocError>
    ensures { OnOk result (out.new
        ≡ out.old ++ member (codes "startOrEnd") (spec.start_or_end (Some (moment_of at)))) }
{
    match at {
        AtModifier::Start => out.string_member("startOrEnd", "start"),
        AtModifier::End => out.string_member("startOrEnd", "end"),
        AtModifier::At(_) => out.null_member("startOrEnd"),
    }
}

pub(crate) fn write_start_or_end(
    out: &mut JsonWriter,
    at: Option<AtModifier>,
) -> Result<(), AllocError>
    ensures { OnOk result (out.new ≡ out.old ++ member (codes "startOrEnd")
        (spec.start_or_end (option_map moment_of at))) }
{
    match at {
        Some(at) => write_moment(out, at),
        None => out.null_member("startOrEnd"),
    }
}

pub(crate) fn write_timestamp(
    out: &mut JsonWriter,
    at: Option<AtModifier>,
) -> Result<(), AllocError>
    ensures { OnOk result (out.new ≡ out.old ++ member (codes "timestamp")
        (spec.timestamp (option_map moment_of at))) }
{
    match at {
        Some(AtModifier::Start) => out.null_member("timestamp"),
        Some(AtModifier::End) => out.null_member("timestamp"),
        Some(AtModifier::At(millis)) => out.i64_member("timestamp", millis),
        None => out.null_member("timestamp"),
    }
}

pub(crate) fn write_at(out: &mut JsonWriter, at: Option<AtModifier>) -> Result<(), AllocError>
    ensures { OnOk result (out.new ≡ out.old ++ moment_members (option_map moment_of at)) }
{
    write_start_or_end(out, at)?;
    write_timestamp(out, at)
}

/// The key `rangeMode` where the mode is not plain.
pub(crate) fn write_mode(out: &mut JsonWriter, mode: RangeMode) -> Result<(), AllocError>
    ensures { OnOk result (out.new ≡ out.old ++ mode_member mode) }
{
    match mode {
        RangeMode::Plain => Ok(()),
        RangeMode::Smoothed => out.string_member("rangeMode", "smoothed"),
        RangeMode::Anchored => out.string_member("rangeMode", "anchored"),
    }
}

fn write_types(out: &mut JsonWriter, types: &[ValueType]) -> Result<(), AllocError>
    ensures { OnOk result (out.new
        ≡ out.old ++ tokens (spec.list (map type_json types.now))) }
{
    out.begin_array()?;
    for value_type in types {
        out.string(type_name(*value_type))?;
    }
    out.end_array()
}

fn write_variadic(out: &mut JsonWriter, function: &Function) -> Result<(), AllocError>
    ensures { OnOk result (out.new
        ≡ out.old ++ member (codes "variadic") (spec.whole function.now.variadic)) }
{
    out.i64_member("variadic", function.variadic as i64)
}

/// The key `func`.
pub(crate) fn write_function(out: &mut JsonWriter, function: &Function) -> Result<(), AllocError>
    ensures { OnOk result (out.new ≡ out.old ++ member (codes "func")
        (spec.function_json (signature_of function.now))) }
{
    out.key("func")?;
    out.begin_with("argTypes")?;
    write_types(out, &function.arg_types)?;
    out.bool_member("experimental", function.experimental)?;
    out.string_member("name", function.name)?;
    out.string_member("returnType", type_name(function.return_type))?;
    write_variadic(out, function)?;
    out.end_object()
}

/// The keys from `type` to `without` of an aggregation, and the end.
pub(crate) fn end_aggregate(
    out: &mut JsonWriter,
    clause: &Option<LabelModifier>,
) -> Result<(), AllocError>
    ensures { OnOk result (out.new ≡ out.old ++ (member (codes "type") (text (codes "aggregation"))
        ++ (member (codes "without") (boolean (is_excluding (option_map clause_of clause.now)))
        ++ token.end_object ∷ []))) }
{
    out.string_member("type", "aggregation")?;
    out.bool_member("without", is_without(clause))?;
    out.end_object()
}
