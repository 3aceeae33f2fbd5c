//! Lists of labels and of matchers: docs/reference/json.md, "Parts". Private.

ghost use Rattle.std.specs.Prelude.{◌≡◌, ◌≢◌, IfErr, IfOk, List, OnErr, Some, true, ◌∷◌, codes, map, string_bytes};
ghost use Rattle.std.specs.List.{AllByRecursion};
ghost use Rattle.serde_json.specs.Data.{Data, Members, array, member, no_members, object, string};
ghost use Rattle.serde_json.specs.Find.{get};
ghost use Rattle.serde_json.specs.View.{items_of, items_view, view};
ghost use Rattle.promql_label.specs.Labels.{labels_of};
ghost use Rattle.promql_label.specs.MatcherViews.{plain_matcher_of};
ghost use Rattle.promql_text.specs.Texts.{Text};
ghost use Rattle.promql_label.specs.Operators.{is_operator_id};
ghost use Rattle.promql_label.specs.PlainMatchers.{Operator, PlainMatcher};
ghost use Rattle.promql_from_json.specs.FormMembers.{groups_members};
ghost use Rattle.promql_json.specs.JsonParts as spec;
ghost use Rattle.promql_json.specs.FormNames.{operator_json, token_json};
ghost use Rattle.promql_from_json.specs.Readable.{ReadableMatcher};
ghost use Rattle.promql_from_json.specs.FormMisfits.{IsNot, labels as labels_form, list_of, matcher, one};
ghost use Rattle.promql_from_json.specs.MembersLeft.{IsIn};
ghost use Rattle.promql_from_json.specs.declared.from_error.Expected.TheVariants.{FullList, List as ListThere, MatchOp, Text as TextThere};
ghost use Rattle.promql_from_json.specs.declared.from_error.ReadError.TheVariants.{Memory};

use crate::fields::Fields;
use crate::from_error::{Expected, ReadError, member};
use crate::read_values::{read_list, read_object, read_text};
use promql_label::{Labels, Matcher, MatcherError};
use promql_token::TokenId;
use promql_token::ids::{T_EQL, T_EQL_REGEX, T_NEQ, T_NEQ_REGEX};
use serde_json::Value;
use std::alloc::Global;

pub(crate) fn read_label(alloc: Global, value: &Value) -> Result<String, ReadError>
    ensures ok { IfOk result (λ s. view value.now ≡ string (string_bytes s)) }
    ensures err { IfErr result (λ e. e ≢ Memory → (s : Text) → view value.now ≢ string s) }
    ensures place { IfErr result (IsIn (one TextThere) (view value.now)) }
{
    let text = read_text(alloc, value)?;
    Ok(String::from_str(alloc, text)?)
}

/// A list of labels.
pub(crate) fn read_labels(alloc: Global, value: &Value) -> Result<Labels, ReadError>
    ensures ok { IfOk result (λ labels. view value.now ≡ spec.labels_json (labels_of labels)) }
    ensures err { IfErr result (λ e. e ≢ Memory → (ls : List Text) → view value.now ≢ spec.labels_json ls) }
    ensures place { IfErr result (IsIn labels_form (view value.now)) }
{
    let list = read_list(alloc, value)?;
    Ok(Labels {
        labels: read_label_list(alloc, list)?,
    })
}

fn read_label_list(alloc: Global, list: &[Value]) -> Result<Vec<String>, ReadError>
    ensures ok { IfOk result (λ labels. map view list.now ≡ map string (map string_bytes labels.items)) }
    ensures err { IfErr result (λ e. e ≢ Memory → (ls : List Text) → items_view list.now ≢ items_of (map string ls)) }
    ensures place { IfErr result (IsIn labels_form (array (items_view list.now))) }
{
    let mut labels = Vec::with_capacity(alloc, list.len())?;
    for i in 0..list.len() {
        match read_label(alloc, &list[i]) {
            Ok(item) => labels.push(item)?,
            Err(error) => return Err(error.inside_item(alloc, i)),
        }
    }
    Ok(labels)
}

/// The id of a matcher's operator.
fn read_match_op(alloc: Global, value: &Value) -> Result<TokenId, ReadError>
    ensures ok { IfOk result (λ id. view value.now ≡ token_json id) }
    ensures known { IfOk result (λ id. is_operator_id id ≡ true) }
    ensures err { OnErr result ((op : Operator) → view value.now ≢ operator_json op) }
    ensures place { IfErr result (λ e. IsNot MatchOp (view value.now) → IsIn (one MatchOp) (view value.now) e) }
{
    match value {
        Value::String(text) if text.as_str() == "=" => Ok(T_EQL),
        Value::String(text) if text.as_str() == "!=" => Ok(T_NEQ),
        Value::String(text) if text.as_str() == "=~" => Ok(T_EQL_REGEX),
        Value::String(text) if text.as_str() == "!~" => Ok(T_NEQ_REGEX),
        _ => Err(ReadError::here(alloc, Expected::MatchOp)),
    }
}

/// The matcher of an operator, a name and a value.
fn new_matcher(alloc: Global, id: TokenId, name: &str, value: &str) -> Result<Matcher, ReadError>
    requires { is_operator_id id ≡ true }
    ensures err { IfErr result (λ e. e ≢ Memory → (m : PlainMatcher) → ReadableMatcher m
        → spec.matcher_json m ≢ object (member (codes "name") (string name.now)
        (member (codes "type") (token_json id) (member (codes "value") (string value.now) no_members)))) }
    ensures ok { IfOk result (λ m. spec.matcher_json (plain_matcher_of m) ≡ object (member (codes "name") (string name.now)
        (member (codes "type") (token_json id) (member (codes "value") (string value.now) no_members)))) }
    ensures place { IfErr result (λ e. (d : Data) → get (codes "type") d ≡ Some (token_json id)
        → get (codes "value") d ≡ Some (string value.now) → IsIn matcher d e) }
{
    let name = String::from_str(alloc, name)?;
    let value = String::from_str(alloc, value)?;
    match Matcher::new_matcher(alloc, id, name, value) {
        Ok(matcher) => Ok(matcher),
        Err(MatcherError::Memory) => Err(ReadError::Memory),
        Err(MatcherError::InvalidOp(_)) => Err(ReadError::at(alloc, "type", Expected::MatchOp)),
        Err(MatcherError::Pattern(_)) => Err(ReadError::at(alloc, "value", Expected::Pattern)),
    }
}

fn read_matcher(alloc: Global, value: &Value) -> Result<Matcher, ReadError>
    ensures ok { IfOk result (λ m. view value.now ≡ spec.matcher_json (plain_matcher_of m)) }
    ensures err { IfErr result (λ e. e ≢ Memory → (m : PlainMatcher) → ReadableMatcher m → view value.now ≢ spec.matcher_json m) }
    ensures place { IfErr result (IsIn matcher (view value.now)) }
{
    let mut fields = Fields::new(read_object(alloc, value)?);
    let (name, op, value) = fields.three(alloc, "name", "type", "value")?;
    fields.end(alloc)?;
    let name = member!(alloc, "name", read_text(alloc, name));
    let id = member!(alloc, "type", read_match_op(alloc, op));
    let value = member!(alloc, "value", read_text(alloc, value));
    new_matcher(alloc, id, name, value)
}

fn read_matcher_list(alloc: Global, list: &[Value]) -> Result<Vec<Matcher>, ReadError>
    ensures ok { IfOk result (λ group. map view list.now
        ≡ map spec.matcher_json (map plain_matcher_of group.items)) }
    ensures err { IfErr result (λ e. e ≢ Memory → (ms : List PlainMatcher) → AllByRecursion ReadableMatcher ms
        → items_view list.now ≢ items_of (map spec.matcher_json ms)) }
    ensures place { IfErr result (IsIn (list_of ListThere matcher) (array (items_view list.now))) }
{
    let mut group = Vec::with_capacity(alloc, list.len())?;
    for i in 0..list.len() {
        match read_matcher(alloc, &list[i]) {
            Ok(item) => group.push(item)?,
            Err(error) => return Err(error.inside_item(alloc, i)),
        }
    }
    Ok(group)
}

/// A list of matchers.
pub(crate) fn read_group(alloc: Global, value: &Value) -> Result<Vec<Matcher>, ReadError>
    ensures ok { IfOk result (λ group. view value.now
        ≡ spec.group_json (map plain_matcher_of group.items)) }
    ensures err { IfErr result (λ e. e ≢ Memory → (ms : List PlainMatcher) → AllByRecursion ReadableMatcher ms
        → view value.now ≢ spec.group_json ms) }
    ensures place { IfErr result (IsIn (list_of ListThere matcher) (view value.now)) }
{
    let list = read_list(alloc, value)?;
    read_matcher_list(alloc, list)
}

fn read_group_list(alloc: Global, list: &[Value]) -> Result<Vec<Vec<Matcher>>, ReadError>
    ensures ok { IfOk result (λ groups. map view list.now
        ≡ map spec.group_json (map (λ g. map plain_matcher_of g.items) groups.items)) }
    ensures err { IfErr result (λ e. e ≢ Memory → (gs : List (List PlainMatcher)) → AllByRecursion (AllByRecursion ReadableMatcher) gs
        → items_view list.now ≢ items_of (map spec.group_json gs)) }
    ensures place { IfErr result (IsIn (list_of FullList (list_of ListThere matcher)) (array (items_view list.now))) }
{
    let mut groups = Vec::with_capacity(alloc, list.len())?;
    for i in 0..list.len() {
        match read_group(alloc, &list[i]) {
            Ok(item) => groups.push(item)?,
            Err(error) => return Err(error.inside_item(alloc, i)),
        }
    }
    Ok(groups)
}

/// The or-groups, of which there is one at least.
pub(crate) fn read_groups(alloc: Global, value: &Value) -> Result<Vec<Vec<Matcher>>, ReadError>
    ensures ok { IfOk result (λ groups. (ms : Members) → member (codes "or_matchers") (view value.now) ms
        ≡ groups_members (map (λ g. map plain_matcher_of g.items) groups.items) ms) }
    ensures err { IfErr result (λ e. e ≢ Memory → (g : List PlainMatcher) (gs : List (List PlainMatcher))
        → AllByRecursion (AllByRecursion ReadableMatcher) (g ∷ gs)
        → view value.now ≢ spec.list (map spec.group_json (g ∷ gs))) }
    ensures place { IfErr result (IsIn (list_of FullList (list_of ListThere matcher)) (view value.now)) }
{
    let list = read_list(alloc, value)?;
    if list.is_empty() {
        return Err(ReadError::here(alloc, Expected::FullList));
    }
    read_group_list(alloc, list)
}
