//! The times that a line of a batch asks about: docs/reference/programs.md, "Requests".

ghost use Rattle.std.specs.Prelude.{◌≡◌, None, option_map, if◌then◌else◌};
ghost use Rattle.serde_json.specs.View.{view};
ghost use Rattle.promql_query.specs.Requests as spec;

use crate::request::{Names, number_in, unknown_name};
use promql_when::Times;
use serde_json::Value;

/// How far back a selector looks, in milliseconds, where a request does not say it.
pub(crate) const LOOKBACK: u64 = 300_000;

/// The step of a subquery without one, in milliseconds, where a request does not say it.
pub(crate) const DEFAULT_STEP: u64 = 60_000;

/// Whether a line asks for no mode and for nothing that belongs to one.
pub(crate) fn has_no_mode(value: &Value) -> bool
    ensures { result ≡ spec.has_no_mode (view value.now) }
{
    value.get("mode").is_none()
        && value.get("level").is_none()
        && value.get("width").is_none()
        && value.get("places").is_none()
}

/// Whether a value is an object whose members all have names of times.
fn has_time_names(value: &Value) -> bool
    ensures { result ≡ spec.has_time_names (view value.now) }
{
    match value {
        Value::Object(members) => unknown_name(Names::OfTimes, members).is_none(),
        _ => false,
    }
}

/// A time of 64 bits.
pub(crate) fn time_at(value: &Value) -> Option<i64>
    ensures { result ≡ spec.time_at (view value.now) }
{
    value.as_i64()
}

/// A length of 64 bits, or the default.
pub(crate) fn length_in(default: u64, member: Option<&Value>) -> Option<u64>
    ensures { result ≡ spec.length_in default (option_map (λ v. view v.now) member.entry) }
{
    number_in(default, u64::MAX, member)
}

/// Whether there is neither a start, an end nor a step.
pub(crate) fn has_no_grid(value: &Value) -> bool
    ensures { result ≡ spec.has_no_grid (view value.now) }
{
    value.get("start").is_none() && value.get("end").is_none() && value.get("step").is_none()
}

/// The first time and the last.
fn ends_of(start: Option<&Value>, end: Option<&Value>) -> Option<(i64, i64)>
    ensures { result ≡ spec.ends_of (option_map (λ v. view v.now) start.entry) (option_map (λ v. view v.now) end.entry) }
{
    let start = time_at(start?)?;
    let end = time_at(end?)?;
    Some((start, end))
}

/// The time of an instant, twice.
fn instant_in(value: &Value, time: &Value) -> Option<(i64, i64)>
    ensures { result ≡ if spec.has_no_grid (view value.now) then option_map (λ x. (x, x)) (spec.time_at (view time.now)) else None }
{
    if has_no_grid(value) {
        let time = time_at(time)?;
        Some((time, time))
    } else {
        None
    }
}

/// The first time and the last, which an instant is both.
fn ends_in(value: &Value) -> Option<(i64, i64)>
    ensures { result ≡ spec.ends_in (view value.now) }
{
    match value.get("time") {
        Some(time) => instant_in(value, time),
        None => ends_of(value.get("start"), value.get("end")),
    }
}

/// A Boolean, or the default.
fn flag_in(default: bool, member: Option<&Value>) -> Option<bool>
    ensures { result ≡ spec.flag_in default (option_map (λ v. view v.now) member.entry) }
{
    match member {
        Some(flag) => flag.as_bool(),
        None => Some(default),
    }
}

/// The times from the first to the last.
fn times_with(value: &Value, ends: (i64, i64)) -> Option<Times>
    ensures { result ≡ spec.times_with (view value.now) ends }
{
    let (start, end) = ends;
    let step = length_in(0, value.get("step"))?;
    let lookback = length_in(LOOKBACK, value.get("lookback"))?;
    let default_step = length_in(DEFAULT_STEP, value.get("default_step"))?;
    let is_left_open = flag_in(true, value.get("left_open"))?;
    Some(Times {
        start,
        end,
        step,
        lookback,
        default_step,
        is_left_open,
    })
}

/// The times of a member `times`; `None` where it does not tell them.
pub(crate) fn times_in(value: &Value) -> Option<Times>
    ensures { result ≡ spec.times_in (view value.now) }
{
    if has_time_names(value) {
        let ends = ends_in(value)?;
        times_with(value, ends)
    } else {
        None
    }
}
