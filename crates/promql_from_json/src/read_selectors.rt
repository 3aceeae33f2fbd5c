//! Selectors of the JSON form: docs/reference/json.md, "Nodes". Private.

ghost use Rattle.std.specs.Prelude.{◌≡◌, ◌≢◌, ℕ, true, IfErr, IfOk, List, None, Option, Some, codes, map, option_map, string_bytes};
ghost use Rattle.std.specs.Duration.{as_nanos};
ghost use Rattle.serde_json.specs.Data.{Data, Members, member, object, string as text};
ghost use Rattle.serde_json.specs.Find.{get};
ghost use Rattle.serde_json.specs.View.{members_view, view};
ghost use Rattle.promql_text.specs.Texts.{Text};
ghost use Rattle.promql_label.specs.MatcherViews.{plain_matcher_of};
ghost use Rattle.promql_ast.specs.Shifts.{Moment, moment_of};
ghost use Rattle.promql_ast.specs.Selectors.{Selector};
ghost use Rattle.promql_ast.specs.Tree.{matrix, vector};
ghost use Rattle.promql_ast.specs.declared.range_mode.RangeMode.{RangeMode as Mode};
ghost use Rattle.promql_ast.specs.View.{matrix_tree, selector_of, vector_tree};
ghost use Rattle.promql_label.specs.PlainMatchers.{PlainMatcher};
ghost use Rattle.std.specs.List.{AllByRecursion};
ghost use Rattle.promql_from_json.specs.Readable.{ReadableMatcher, ReadableMoment};
ghost use Rattle.promql_from_json.specs.ReadableBelow.{ReadableSelector};
ghost use Rattle.promql_from_json.specs.FormMembers.{begin_members, end_members, groups_members, mode_members};
ghost use Rattle.promql_json.specs.Json.{json_value, width_fault};
ghost use Rattle.promql_json.specs.FormNames.{selector_fault};
ghost use Rattle.promql_json.specs.JsonFaults.{json_fault};
ghost use Rattle.promql_json.specs.JsonTokens.{moment_of_selector};
ghost use Rattle.promql_json.specs.JsonParts as spec;
ghost use Rattle.promql_from_json.specs.FormMisfits.{Form, list_of, matcher, node_named, one, or_null, row_of, rows};
ghost use Rattle.promql_from_json.specs.MembersLeft.{AreLeft, BeginsSelector, EndsSelector, IsIn, IsTyped, follows};
ghost use Rattle.promql_from_json.specs.declared.from_error.Expected.TheVariants.{FullList, List as ListThere, Millis, StartOrEnd, Text as TextThere};
ghost use Rattle.promql_from_json.specs.declared.from_error.ReadError.TheVariants.{Memory};

use crate::fields::Fields;
use crate::from_error::{Expected, ReadError, member};
use crate::read_labels::{read_group, read_groups, read_label};
use crate::read_values::{read_length, read_mode, read_offset, read_start_or_end, read_timestamp};
use promql_ast::{AtModifier, Expr, MatrixSelector, RangeMode, VectorSelector};
use promql_label::{Matcher, Matchers};
use serde_json::{Map, Value};
use std::alloc::Global;
use std::time::Duration;

/// A name, or none.
fn read_name(alloc: Global, value: &Value) -> Result<Option<String>, ReadError>
    ensures ok { IfOk result (λ name. view value.now
        ≡ spec.or_null text (option_map string_bytes name)) }
    ensures err { IfErr result (λ e. e ≢ Memory → (name : Option Text)
        → view value.now ≢ spec.or_null text name) }
    ensures place { IfErr result (IsIn (or_null (one TextThere)) (view value.now)) }
{
    match value {
        Value::Null => Ok(None),
        _ => Ok(Some(read_label(alloc, value)?)),
    }
}

/// The or-groups, if the next member has them.
fn next_groups(alloc: Global, fields: &mut Fields<'_>) -> Result<Vec<Vec<Matcher>>, ReadError>
    ensures ok { IfOk result (λ groups. members_view fields.old.rest
        ≡ groups_members (map (λ g. map plain_matcher_of g.items) groups.items)
        (members_view fields.new.rest)) }
    ensures err { IfErr result (λ e. e ≢ Memory → (gs : List (List PlainMatcher)) (name : Text) (d : Data) (ms : Members)
        → AllByRecursion (AllByRecursion ReadableMatcher) gs → name ≢ codes "or_matchers"
        → members_view fields.old.rest ≢ groups_members gs (member name d ms)) }
    ensures rest { IfOk result (λ _. (gs : List (List PlainMatcher)) (name : Text) (d : Data) (ms : Members)
        → name ≢ codes "or_matchers" → members_view fields.old.rest ≡ groups_members gs (member name d ms)
        → members_view fields.new.rest ≡ member name d ms) }
    ensures left { IfOk result (λ _. (f : Form) (d : Data) → AreLeft f d (Some (codes "or_matchers")) (members_view fields.old.rest)
        → (after : Option Text) → follows f (Some (codes "or_matchers")) after ≡ true → AreLeft f d after (members_view fields.new.rest)) }
    ensures place { IfErr result (λ e. (f : Form) (d : Data) → AreLeft f d (Some (codes "or_matchers")) (members_view fields.old.rest)
        → row_of (codes "or_matchers") (rows f) ≡ Some (list_of FullList (list_of ListThere matcher)) → IsIn f d e) }
{
    match fields.next_if("or_matchers")? {
        Some(groups) => Ok(member!(alloc, "or_matchers", read_groups(alloc, groups))),
        None => Ok(Vec::new(alloc)),
    }
}

/// The selector of the members before a range or a time, without `@`.
fn read_begin(alloc: Global, fields: &mut Fields<'_>) -> Result<VectorSelector, ReadError>
    ensures ok { IfOk result (λ s. members_view fields.old.rest
        ≡ begin_members (selector_of s) (members_view fields.new.rest)) }
    ensures fits { IfOk result (λ s. selector_fault (selector_of s) ≡ None) }
    ensures err { IfErr result (λ e. e ≢ Memory → (s : Selector) (name : Text) (d : Data) (ms : Members)
        → ReadableSelector s → name ≢ codes "or_matchers"
        → members_view fields.old.rest ≢ begin_members s (member name d ms)) }
    ensures rest { IfOk result (λ _. (s : Selector) (name : Text) (d : Data) (ms : Members)
        → name ≢ codes "or_matchers" → members_view fields.old.rest ≡ begin_members s (member name d ms)
        → members_view fields.new.rest ≡ member name d ms) }
    ensures left { IfOk result (λ _. (f : Form) (d : Data) → BeginsSelector f → AreLeft f d (Some (codes "matchers")) (members_view fields.old.rest)
        → (after : Option Text) → follows f (Some (codes "or_matchers")) after ≡ true → AreLeft f d after (members_view fields.new.rest)) }
    ensures place { IfErr result (λ e. (f : Form) (d : Data) → BeginsSelector f
        → AreLeft f d (Some (codes "matchers")) (members_view fields.old.rest) → IsIn f d e) }
{
    let (matchers, name, offset) = fields.three(alloc, "matchers", "name", "offset")?;
    let offset = member!(alloc, "offset", read_offset(alloc, offset));
    let name = member!(alloc, "name", read_name(alloc, name));
    let matchers = member!(alloc, "matchers", read_group(alloc, matchers));
    let or_matchers = next_groups(alloc, fields)?;
    Ok(VectorSelector {
        name,
        matchers: Matchers {
            matchers,
            or_matchers,
        },
        offset,
        at: None,
    })
}

/// The time after `@`, by two members.
pub(crate) fn read_at(
    alloc: Global,
    start_or_end: &Value,
    timestamp: &Value,
) -> Result<Option<AtModifier>, ReadError>
    ensures word { IfOk result (λ at. view start_or_end.now
        ≡ spec.start_or_end (option_map moment_of at)) }
    ensures time { IfOk result (λ at. view timestamp.now
        ≡ spec.timestamp (option_map moment_of at)) }
    ensures err { IfErr result (λ e. e ≢ Memory → (at : Option Moment) → ReadableMoment at
        → view start_or_end.now ≡ spec.start_or_end at
        → view timestamp.now ≢ spec.timestamp at) }
    ensures place { IfErr result (λ e. (f : Form) (d : Data) → row_of (codes "startOrEnd") (rows f) ≡ Some (one StartOrEnd)
        → row_of (codes "timestamp") (rows f) ≡ Some (or_null (one Millis)) → get (codes "startOrEnd") d ≡ Some (view start_or_end.now)
        → get (codes "timestamp") d ≡ Some (view timestamp.now) → IsIn f d e) }
{
    let word = member!(alloc, "startOrEnd", read_start_or_end(alloc, start_or_end));
    Ok(member!(alloc, "timestamp", read_timestamp(alloc, timestamp, word)))
}

/// The time of the last members.
fn read_end(
    alloc: Global,
    fields: &mut Fields<'_>,
    type_name: &str,
) -> Result<Option<AtModifier>, ReadError>
    ensures ok { IfOk result (λ at. members_view fields.old.rest
        ≡ end_members (option_map moment_of at) type_name.now) }
    ensures err { IfErr result (λ e. e ≢ Memory → (at : Option Moment) → ReadableMoment at
        → members_view fields.old.rest ≢ end_members at type_name.now) }
    ensures place { IfErr result (λ e. (f : Form) (d : Data) → EndsSelector f
        → AreLeft f d (Some (codes "startOrEnd")) (members_view fields.old.rest) → IsTyped d type_name.now → IsIn f d e) }
{
    let (start_or_end, timestamp, node) = fields.three(alloc, "startOrEnd", "timestamp", "type")?;
    fields.end_of_node(alloc, node, type_name)?;
    read_at(alloc, start_or_end, timestamp)
}

/// A selector with this time.
fn with_at(selector: VectorSelector, at: Option<AtModifier>) -> VectorSelector
    ensures members { (ms : Members) → begin_members (selector_of result) ms ≡ begin_members (selector_of selector) ms }
    ensures at { moment_of_selector (selector_of result) ≡ option_map moment_of at }
    ensures fault { selector_fault (selector_of result) ≡ selector_fault (selector_of selector) }
{
    VectorSelector {
        name: selector.name,
        matchers: selector.matchers,
        offset: selector.offset,
        at,
    }
}

/// A selector.
pub(crate) fn read_vector(
    alloc: Global,
    members: &Map<String, Value>,
) -> Result<VectorSelector, ReadError>
    ensures ok { IfOk result (λ s. object (members_view members.now.entries)
        ≡ json_value (vector_tree s)) }
    ensures fits { IfOk result (λ s. json_fault (vector_tree s) ≡ None) }
    ensures err { IfErr result (λ e. e ≢ Memory → (s : Selector) → ReadableSelector s
        → object (members_view members.now.entries) ≢ json_value (vector s)) }
    ensures place { IfErr result (λ e. (n : ℕ) → IsTyped (object (members_view members.now.entries)) (codes "vectorSelector")
        → IsIn (node_named (codes "vectorSelector") n) (object (members_view members.now.entries)) e) }
{
    let mut fields = Fields::new(members);
    let selector = read_begin(alloc, &mut fields)?;
    let at = read_end(alloc, &mut fields, "vectorSelector")?;
    Ok(with_at(selector, at))
}

/// The range and its mode.
fn read_range(alloc: Global, fields: &mut Fields<'_>) -> Result<(Duration, RangeMode), ReadError>
    ensures ok { IfOk result (λ r. members_view fields.old.rest
        ≡ member (codes "range") (spec.whole (spec.millis (as_nanos r.0)))
        (mode_members r.1 (members_view fields.new.rest))) }
    ensures fits { IfOk result (λ r. width_fault (spec.millis (as_nanos r.0)) ≡ None) }
    ensures err { IfErr result (λ e. e ≢ Memory → (range : ℕ) (mode : Mode) (name : Text) (d : Data) (ms : Members)
        → name ≢ codes "rangeMode"
        → members_view fields.old.rest ≢ member (codes "range") (spec.whole (spec.millis range)) (mode_members mode (member name d ms))) }
    ensures rest { IfOk result (λ _. (range : ℕ) (mode : Mode) (name : Text) (d : Data) (ms : Members)
        → name ≢ codes "rangeMode"
        → members_view fields.old.rest ≡ member (codes "range") (spec.whole (spec.millis range)) (mode_members mode (member name d ms))
        → members_view fields.new.rest ≡ member name d ms) }
    ensures left { IfOk result (λ _. (n : ℕ) (d : Data)
        → AreLeft (node_named (codes "matrixSelector") n) d (Some (codes "range")) (members_view fields.old.rest)
        → AreLeft (node_named (codes "matrixSelector") n) d (Some (codes "startOrEnd")) (members_view fields.new.rest)) }
    ensures place { IfErr result (λ e. (n : ℕ) (d : Data)
        → AreLeft (node_named (codes "matrixSelector") n) d (Some (codes "range")) (members_view fields.old.rest)
        → IsIn (node_named (codes "matrixSelector") n) d e) }
{
    let range = fields.next(alloc, "range")?;
    let range = member!(alloc, "range", read_length(alloc, range));
    match fields.next_if("rangeMode")? {
        Some(mode) => Ok((range, member!(alloc, "rangeMode", read_mode(alloc, mode)))),
        None => Ok((range, RangeMode::Plain)),
    }
}

/// A selector with a range.
pub(crate) fn read_matrix(
    alloc: Global,
    members: &Map<String, Value>,
) -> Result<MatrixSelector, ReadError>
    ensures ok { IfOk result (λ m. object (members_view members.now.entries)
        ≡ json_value (matrix_tree m)) }
    ensures fits { IfOk result (λ m. json_fault (matrix_tree m) ≡ None) }
    ensures err { IfErr result (λ e. e ≢ Memory → (s : Selector) (range : ℕ) (mode : Mode) → ReadableSelector s
        → object (members_view members.now.entries) ≢ json_value (matrix s range mode)) }
    ensures place { IfErr result (λ e. (n : ℕ) → IsTyped (object (members_view members.now.entries)) (codes "matrixSelector")
        → IsIn (node_named (codes "matrixSelector") n) (object (members_view members.now.entries)) e) }
{
    let mut fields = Fields::new(members);
    let selector = read_begin(alloc, &mut fields)?;
    let (range, mode) = read_range(alloc, &mut fields)?;
    let at = read_end(alloc, &mut fields, "matrixSelector")?;
    Ok(MatrixSelector {
        vs: with_at(selector, at),
        range,
        mode,
    })
}
