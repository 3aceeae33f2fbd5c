//! What a line of a batch asks for: docs/reference/programs.md, "Requests".

ghost use Rattle.std.specs.Prelude.{◌≡◌, None, Some, codes, false, true, is_none, is_some, map, option_map, string_bytes};
ghost use Rattle.serde_json.specs.Find.{as_bool, as_str, get};
ghost use Rattle.serde_json.specs.View.{view};
ghost use Rattle.std.specs.BTreeMap.{keys};
ghost use Rattle.std.specs.Option.{option_map_or};
ghost use Rattle.promql_query.specs.BatchSteps.{first_unknown};
ghost use Rattle.promql_query.specs.Requests as spec;

use crate::mode::{Mode, Wanted};
use crate::request_times::{has_no_mode, times_in};
use promql_run::format::{Format, Layout};
use serde_json::{Map, Value};

/// The highest level of a layout.
pub(crate) const MAX_LEVEL: u64 = 512;

/// The query that a line asks about; `None` where its value has none.
pub fn query_in(value: &Value) -> Option<&str>
    ensures { option_map (λ s. s.now) result ≡ spec.query_in (view value.now) }
{
    match value {
        Value::String(query) => Some(query.as_str()),
        _ => value.get("query").and_then(Value::as_str),
    }
}

/// The text of the matcher to enforce on the query; `None` where there is none.
pub fn matcher_in(value: &Value) -> Option<&str>
    ensures { option_map (λ s. s.now) result ≡ spec.matcher_in (view value.now) }
{
    value.get("enforce").and_then(Value::as_str)
}

/// Whether a line asks for places; `None` where its value does not tell.
pub(crate) fn places_in(value: &Value) -> Option<bool>
    ensures { result ≡ option_map_or as_bool (get (codes "places") (view value.now)) (Some false) }
{
    match value.get("places") {
        Some(places) => places.as_bool(),
        None => Some(false),
    }
}

/// Whether a member is a text, if it is there.
pub(crate) fn is_text(member: Option<&Value>) -> bool
    ensures { result ≡ option_map_or (λ v. is_some (as_str v)) (option_map (λ v. view v.now) member.entry) true }
{
    match member {
        Some(value) => value.as_str().is_some(),
        None => true,
    }
}

/// The format of the member's mode, or the command's.
pub(crate) fn named_in(asked: Format, member: Option<&Value>) -> Option<Format>
    ensures { result ≡ spec.named_in asked (option_map (λ v. view v.now) member.entry) }
{
    match member {
        Some(word) => Format::from_name(word.as_str()?),
        None => Some(asked),
    }
}

/// A whole number of at most `most`, or the default.
pub(crate) fn number_in(default: u64, most: u64, member: Option<&Value>) -> Option<u64>
    ensures { result ≡ spec.number_in default most (option_map (λ v. view v.now) member.entry) }
{
    match member {
        Some(number) => number.as_u64().filter(|n| *n <= most),
        None => Some(default),
    }
}

/// The format with this level and this width. Only a layout has them.
pub(crate) fn format_with(
    level: Option<&Value>,
    width: Option<&Value>,
    format: Format,
) -> Option<Format>
    ensures { result ≡ spec.format_with (option_map (λ v. view v.now) level.entry)
        (option_map (λ v. view v.now) width.entry) format }
{
    match (format, level, width) {
        (Format::Pretty(layout), level, width) => {
            let level = number_in(layout.level as u64, MAX_LEVEL, level)?;
            let width = number_in(layout.width as u64, u64::MAX, width)?;
            Some(Format::Pretty(Layout {
                level: level as u16,
                width: width as usize,
            }))
        }
        (other, None, None) => Some(other),
        _ => None,
    }
}

/// What has members of known names.
#[derive(Clone, Copy, PartialEq, Eq, Debug)]
pub(crate) enum Names {
    /// A request.
    OfRequest,
    /// Its member `times`.
    OfTimes,
}

/// Whether a request may have a member of this name.
fn is_member_name(key: &str) -> bool
    ensures { result ≡ spec.is_member_name key.now }
{
    matches!(
        key,
        "query" | "mode" | "level" | "width" | "enforce" | "places" | "times" | "id"
    )
}

/// Whether `times` may have a member of this name.
fn is_time_name(key: &str) -> bool
    ensures { result ≡ spec.is_time_name key.now }
{
    matches!(
        key,
        "start" | "end" | "time" | "step" | "lookback" | "default_step" | "left_open"
    )
}

fn is_known(names: Names, key: &str) -> bool
    ensures { result ≡ spec.is_known names key.now }
{
    match names {
        Names::OfRequest => is_member_name(key),
        Names::OfTimes => is_time_name(key),
    }
}

/// The first member with another name, by the order of the names.
pub(crate) fn unknown_name(names: Names, members: &Map<String, Value>) -> Option<&str>
    ensures { option_map (λ s. s.now) result ≡ first_unknown names (map string_bytes (keys members.now)) }
{
    for key in members.keys() {
        if !is_known(names, key.as_str()) {
            return Some(key.as_str());
        }
    }
    None
}

/// The first member that no request has; `None` where the value has none, or is no object.
pub fn unknown_in(value: &Value) -> Option<&str>
    ensures { option_map (λ s. s.now) result ≡ spec.unknown_in (view value.now) }
{
    match value {
        Value::Object(members) => unknown_name(Names::OfRequest, members),
        _ => None,
    }
}

/// Whether the value has no member that no request has.
pub(crate) fn has_known_members(value: &Value) -> bool
    ensures { result ≡ is_none (spec.unknown_in (view value.now)) }
{
    !unknown_in(value).is_some()
}

/// The format of a line where the command asks for this one; `None` where its value tells none.
fn format_in(asked: Format, value: &Value) -> Option<Format>
    ensures { result ≡ spec.format_in asked (view value.now) }
{
    if has_known_members(value) && is_text(value.get("enforce")) {
        let format = named_in(asked, value.get("mode"))?;
        format_with(value.get("level"), value.get("width"), format)
    } else {
        None
    }
}

/// The mode of a line with this format. The JSON form alone has places, of the query as it is.
fn mode_with(places: Option<bool>, matcher: Option<&str>, format: Format) -> Option<Mode>
    ensures { result ≡ spec.mode_with places (option_map (λ s. s.now) matcher.entry) format }
{
    match (places, matcher, format) {
        (Some(false), _, format) => Some(Mode::Plain(format)),
        (Some(true), None, Format::Json) => Some(Mode::Placed),
        _ => None,
    }
}

/// How the query of a line is printed where the command asks for this format; `None` where its value does not tell.
fn mode_in(asked: Format, value: &Value) -> Option<Mode>
    ensures { result ≡ spec.mode_in asked (view value.now) }
{
    let format = format_in(asked, value)?;
    mode_with(places_in(value), matcher_in(value), format)
}

/// What a line wants that asks about these times; `None` where its value does not tell.
fn timed_in(value: &Value, times: &Value) -> Option<Wanted>
    ensures { result ≡ spec.timed_in (view value.now) (view times.now) }
{
    if has_known_members(value) && is_text(value.get("enforce")) && has_no_mode(value) {
        let times = times_in(times)?;
        Some(Wanted::Times(times))
    } else {
        None
    }
}

/// What a line wants of its query where the command asks for this format; `None` where its value does not tell.
pub fn wanted_in(asked: Format, value: &Value) -> Option<Wanted>
    ensures { result ≡ spec.wanted_in asked (view value.now) }
{
    match value.get("times") {
        Some(times) => timed_in(value, times),
        None => mode_in(asked, value).map(|mode| Wanted::Print(mode)),
    }
}
