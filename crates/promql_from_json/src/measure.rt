//! How large the patterns of a form are together: docs/reference/json.md, "The patterns of a form".

ghost use Rattle.std.specs.Prelude.{◌≡◌, min, option_and_then, option_map};
ghost use Rattle.serde_json.specs.Find.{as_str, get_member};
ghost use Rattle.serde_json.specs.View.{items_view, members_view, view};
ghost use Rattle.promql_from_json.specs.FormMeasure as spec;

use crate::fields::member_named;
use promql_label::pattern_measure;
use serde_json::{Map, Value};

/// The sum of the measures of the patterns of a form (`promql_label::pattern_measure`); `usize::MAX` stands for that and more. The value
/// may be no form: each object counts whose members `type` and `value` are those of a matcher with a pattern.
///
/// It takes the time to read the value, and allocates nothing. It goes down one call for each level of the value. One that
/// `Value::from_str` returns has at most 127.
#[cycle(size)]
pub fn form_measure(value: &Value) -> usize
    ensures { result ≡ spec.patterns_size (view value.now) }
{
    match value {
        Value::Array(items) => items_measure(items),
        Value::Object(members) => members_measure(members).saturating_add(own_measure(members)),
        _ => 0,
    }
}

#[cycle(size)]
fn items_measure(items: &Vec<Value>) -> usize
    ensures { result ≡ min (spec.items_size (items_view items.now.items)) usize.MAX }
{
    let mut sum: usize = 0;
    for item in items {
        sum = sum.saturating_add(form_measure(item));
    }
    sum
}

#[cycle(size)]
fn members_measure(members: &Map<String, Value>) -> usize
    ensures { result ≡ min (spec.members_size (members_view members.now.entries)) usize.MAX }
{
    let mut sum: usize = 0;
    for (_, member) in members.iter() {
        sum = sum.saturating_add(form_measure(member));
    }
    sum
}

/// The measure of the pattern of an object, if it is a matcher with one.
fn own_measure(members: &Map<String, Value>) -> usize
    ensures { result ≡ min (spec.own_size (members_view members.now.entries)) usize.MAX }
{
    matcher_measure(text_at(members, "type"), text_at(members, "value"))
}

/// The text that a member is.
fn text_at<'v>(members: &'v Map<String, Value>, name: &str) -> Option<&'v str>
    ensures { option_map (λ s. s.now) result ≡ option_and_then as_str (get_member name.now (members_view members.now.entries)) }
{
    match member_named(members, name) {
        Some(value) => value.as_str(),
        None => None,
    }
}

/// The measure of the value of a matcher, if the operator is one of patterns.
fn matcher_measure(op: Option<&str>, value: Option<&str>) -> usize
    ensures { result ≡ min (spec.pattern_size (option_map (λ s. s.now) op.entry)
        (option_map (λ s. s.now) value.entry)) usize.MAX }
{
    match (op, value) {
        (Some(op), Some(value)) if op == "=~" || op == "!~" => pattern_measure(value),
        _ => 0,
    }
}
