//! What is wrong with a line that asks for nothing: docs/reference/programs.md, "Requests".

ghost use Rattle.std.specs.Prelude.{◌≡◌, codes, option_map};
ghost use Rattle.serde_json.specs.Find.{get};
ghost use Rattle.serde_json.specs.View.{view};
ghost use Rattle.promql_query.specs.Requests as spec;

use crate::request::{
    MAX_LEVEL, Names, format_with, is_text, named_in, number_in, places_in, query_in, unknown_name,
};
use crate::request_times::{DEFAULT_STEP, LOOKBACK, has_no_grid, has_no_mode, length_in, time_at};
use promql_run::format::Format;
use serde_json::Value;
use thiserror::Error;

/// Why a line is no request.
#[derive(Clone, Copy, Debug, PartialEq, Eq, Error)]
pub enum RequestFault {
    /// It is not JSON.
    #[error("it is not JSON, or nested too deeply")]
    NotJson,
    /// It is neither a text nor an object with the text `query`.
    #[error("it is neither a text nor an object with a text \"query\"")]
    NoQuery,
    /// The member `enforce` is no text.
    #[error("\"enforce\" is not a text")]
    Enforce,
    /// The member `mode` names no mode.
    #[error("\"mode\" is not \"pretty\", \"line\" or \"json\"")]
    Mode,
    /// There is a level or a width, and the mode is no layout.
    #[error("\"level\" and \"width\" are for the mode \"pretty\" only")]
    NoLayout,
    /// The member `level` is not one of a layout.
    #[error("\"level\" is not a whole number of at most 512")]
    Level,
    /// The member `width` is not one of a layout.
    #[error("\"width\" is not a whole number below 2^64")]
    Width,
    /// The member `places` is no Boolean.
    #[error("\"places\" is neither true nor false")]
    Places,
    /// Places are asked for in another mode than `json`, or of a query with a matcher.
    #[error("\"places\" are for the mode \"json\" without \"enforce\" only")]
    NoPlaces,
    /// Times are asked about beside a mode, a level, a width or places.
    #[error("\"times\" go without \"mode\", \"level\", \"width\" and \"places\"")]
    TimesAlone,
    /// The member `times` is no object.
    #[error("\"times\" is not an object")]
    Times,
    /// It has a member that no times have.
    #[error("\"times\" has another member than \"start\", \"end\", \"time\", \"step\", \"lookback\", \"default_step\" and \"left_open\"")]
    TimesMember,
    /// The time of an instant has a start, an end or a step beside it.
    #[error("\"time\" goes without \"start\", \"end\" and \"step\"")]
    TimeBeside,
    /// The time of an instant is none.
    #[error("\"time\" is not a whole number from -2^63 to 2^63 - 1")]
    Time,
    /// There is no first time.
    #[error("\"start\" is not a whole number from -2^63 to 2^63 - 1")]
    Start,
    /// There is no last time.
    #[error("\"end\" is not a whole number from -2^63 to 2^63 - 1")]
    End,
    /// The member `step` is no length of time.
    #[error("\"step\" is not a whole number below 2^64")]
    Step,
    /// The member `lookback` is none.
    #[error("\"lookback\" is not a whole number below 2^64")]
    Lookback,
    /// The member `default_step` is none.
    #[error("\"default_step\" is not a whole number below 2^64")]
    DefaultStep,
    /// The member `left_open` is no Boolean.
    #[error("\"left_open\" is neither true nor false")]
    LeftOpen,
}

/// What is wrong with the level and the width, which this format does not take.
fn layout_fault(format: Format, value: &Value) -> RequestFault
    ensures { result ≡ spec.layout_fault (get (codes "level") (view value.now)) format }
{
    match format {
        Format::Pretty(layout) => {
            match number_in(layout.level as u64, MAX_LEVEL, value.get("level")) {
                Some(_) => RequestFault::Width,
                None => RequestFault::Level,
            }
        }
        _ => RequestFault::NoLayout,
    }
}

/// What is wrong with the places that are asked for.
fn places_fault(value: &Value) -> RequestFault
    ensures { result ≡ spec.places_fault (view value.now) }
{
    match places_in(value) {
        Some(_) => RequestFault::NoPlaces,
        None => RequestFault::Places,
    }
}

/// What is wrong with the mode, and with what belongs to it.
fn print_fault(asked: Format, value: &Value) -> RequestFault
    ensures { result ≡ spec.print_fault asked (view value.now) }
{
    let Some(format) = named_in(asked, value.get("mode")) else {
        return RequestFault::Mode;
    };
    match format_with(value.get("level"), value.get("width"), format) {
        Some(_) => places_fault(value),
        None => layout_fault(format, value),
    }
}

/// What is wrong with times whose ends are known.
fn lengths_fault(times: &Value) -> RequestFault
    ensures { result ≡ spec.lengths_fault (view times.now) }
{
    if length_in(0, times.get("step")).is_none() {
        RequestFault::Step
    } else if length_in(LOOKBACK, times.get("lookback")).is_none() {
        RequestFault::Lookback
    } else if length_in(DEFAULT_STEP, times.get("default_step")).is_none() {
        RequestFault::DefaultStep
    } else {
        RequestFault::LeftOpen
    }
}

/// What is wrong with an instant.
fn instant_fault(times: &Value, time: &Value) -> RequestFault
    ensures { result ≡ spec.instant_fault (view times.now) (view time.now) }
{
    if !has_no_grid(times) {
        return RequestFault::TimeBeside;
    }
    match time_at(time) {
        Some(_) => lengths_fault(times),
        None => RequestFault::Time,
    }
}

/// What is wrong with a first and a last time.
fn grid_fault(times: &Value) -> RequestFault
    ensures { result ≡ spec.grid_fault (view times.now) }
{
    if times.get("start").and_then(time_at).is_none() {
        RequestFault::Start
    } else if times.get("end").and_then(time_at).is_none() {
        RequestFault::End
    } else {
        lengths_fault(times)
    }
}

/// What is wrong with times whose members all have names of such.
fn ends_fault(times: &Value) -> RequestFault
    ensures { result ≡ spec.ends_fault (view times.now) }
{
    match times.get("time") {
        Some(time) => instant_fault(times, time),
        None => grid_fault(times),
    }
}

/// What is wrong with times.
fn names_fault(times: &Value) -> RequestFault
    ensures { result ≡ spec.names_fault (view times.now) }
{
    match times {
        Value::Object(members) => match unknown_name(Names::OfTimes, members) {
            Some(_) => RequestFault::TimesMember,
            None => ends_fault(times),
        },
        _ => RequestFault::Times,
    }
}

/// What is wrong with times, and with what is beside them.
fn times_fault(value: &Value, times: &Value) -> RequestFault
    ensures { result ≡ spec.times_fault (view value.now) (view times.now) }
{
    if has_no_mode(value) {
        names_fault(times)
    } else {
        RequestFault::TimesAlone
    }
}

/// What is wrong with the members of a value that has a query.
fn member_fault(asked: Format, value: &Value) -> RequestFault
    ensures { result ≡ spec.member_fault asked (view value.now) }
{
    if !is_text(value.get("enforce")) {
        return RequestFault::Enforce;
    }
    match value.get("times") {
        Some(times) => times_fault(value, times),
        None => print_fault(asked, value),
    }
}

/// What is wrong with a value that asks for nothing, and has no member that no request has.
pub fn fault_in(asked: Format, value: &Value) -> RequestFault
    ensures { result ≡ spec.value_fault asked (view value.now) }
{
    match query_in(value) {
        Some(_) => member_fault(asked, value),
        None => RequestFault::NoQuery,
    }
}
