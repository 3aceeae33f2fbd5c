//! The windows of nodes: docs/reference/when.md, "Windows".

ghost use Rattle.std.specs.Prelude.{◌≡◌, ◌+◌, ◌<◌, ◌≤◌, ◌^◌, ◌/◌, ◌*◌, Some, None, if◌then◌else◌, int_le, option_map, unsigned_abs};
ghost use Rattle.std.specs.Duration.{as_nanos};
ghost use Rattle.std.specs.Int.Signed.{◌≤ℤ◌};
ghost use Rattle.std.proofs.Math.IntN.{pos, ◌+ℤ◌, ◌-ℤ◌};
ghost use Rattle.promql_ast.specs.Shifts.{moment_of, shift_of};
ghost use Rattle.promql_when.specs.Walked.{Fits};
ghost use Rattle.promql_when.specs.Windows as spec;

use crate::times::{Times, Window};
use promql_ast::{AtModifier, MatrixSelector, Offset, RangeMode, SubqueryExpr};
use std::time::Duration;

/// The number, with a sign.
fn signed(n: u128) -> i128
    requires { n < 2 ^ 100 }
    ensures { result ≡ pos n }
{
    n as i128
}

/// The steps that fit, in milliseconds.
#[tactic(auto, using(crate::proofs::Floors::whole_within))]
fn whole_steps(length: u64, step: u64) -> u64
    requires { 0 < step }
    ensures value { result ≡ length / step * step }
    ensures most { result ≤ length }
{
    length / step * step
}

/// The time so many milliseconds later.
fn later_by(start: i64, millis: u64, end: i64) -> i64
    requires { (start +ℤ pos millis) ≤ℤ end }
    ensures { result ≡ start +ℤ pos millis }
{
    (i128::from(start) + i128::from(millis)) as i64
}

impl Times {
    /// The times from the first through the last one; None where the end is before the start.
    pub(crate) fn asked(&self) -> Option<Window>
        ensures { result ≡ spec.asked self.now }
    {
        if self.end < self.start {
            return None;
        }
        let whole = whole_steps(self.end.abs_diff(self.start), self.step.max(1));
        Some(Window {
            first: self.start,
            last: later_by(self.start, whole, self.end),
        })
    }
}

/// The whole milliseconds of a length of time.
fn millis(length: Duration) -> u128
    ensures value { result ≡ spec.millis (as_nanos length) }
    ensures small { result < 2 ^ 80 }
{
    length.as_millis()
}

/// How far is looked from a time, in milliseconds.
#[derive(Clone, Copy)]
struct Lengths {
    before: u128,
    after: u64,
}

/// The time, shifted.
fn shifted(offset: Option<Offset>, time: i64) -> i128
    ensures value { result ≡ spec.shifted (option_map shift_of offset) time }
    ensures small { unsigned_abs result < 2 ^ 81 }
{
    let time = i128::from(time);
    match offset {
        Some(Offset::Pos(back)) => time - signed(millis(back)),
        Some(Offset::Neg(ahead)) => time + signed(millis(ahead)),
        None => time,
    }
}

/// The time that `@` names, or else the one of evaluation.
fn moment(times: &Times, at: Option<AtModifier>, time: i64) -> i64
    ensures { result ≡ spec.moment times.now (option_map moment_of at) time }
{
    match at {
        Some(AtModifier::Start) => times.start,
        Some(AtModifier::End) => times.end,
        Some(AtModifier::At(millis)) => millis,
        None => time,
    }
}

/// From where is looked back, evaluated at a time.
fn base(times: &Times, offset: Option<Offset>, at: Option<AtModifier>, time: i64) -> i128
    ensures value { result ≡ spec.base times.now (option_map shift_of offset) (option_map moment_of at) time }
    ensures small { unsigned_abs result < 2 ^ 81 }
{
    shifted(offset, moment(times, at, time))
}

/// The window between these times; None where 64 bits do not hold them.
fn fitting(first: i128, last: i128) -> Option<Window>
    ensures { Fits result (record { first = first; last = last }) }
{
    let least = i64::MIN as i128;
    let most = i64::MAX as i128;
    if first < least || most < first || last < least || most < last {
        return None;
    }
    Some(Window {
        first: first as i64,
        last: last as i64,
    })
}

/// The first millisecond that is looked at from a time, where windows are closed.
fn closed_from(
    times: &Times,
    offset: Option<Offset>,
    at: Option<AtModifier>,
    before: u128,
    time: i64,
) -> i128
    requires { before < 2 ^ 81 }
    ensures value { result ≡ spec.base times.now (option_map shift_of offset) (option_map moment_of at) time -ℤ pos before }
    ensures small { unsigned_abs result < 2 ^ 82 }
{
    base(times, offset, at, time) - signed(before)
}

/// The beginning of a window, without what is left out.
fn opened(times: &Times, time: i128) -> i128
    requires { unsigned_abs time < 2 ^ 82 }
    ensures { result ≡ time +ℤ pos (spec.opening times.now) }
{
    if times.is_left_open { time + 1 } else { time }
}

/// The first millisecond that is looked at from a time.
fn looked_from(
    times: &Times,
    offset: Option<Offset>,
    at: Option<AtModifier>,
    before: u128,
    time: i64,
) -> i128
    requires { before < 2 ^ 81 }
    ensures { result ≡ (spec.base times.now (option_map shift_of offset) (option_map moment_of at) time -ℤ pos before)
        +ℤ pos (spec.opening times.now) }
{
    opened(times, closed_from(times, offset, at, before, time))
}

/// The last millisecond that is looked at from a time.
fn looked_to(
    times: &Times,
    offset: Option<Offset>,
    at: Option<AtModifier>,
    after: u64,
    time: i64,
) -> i128
    ensures { result ≡ spec.base times.now (option_map shift_of offset) (option_map moment_of at) time +ℤ pos after }
{
    base(times, offset, at, time) + i128::from(after)
}

/// What is looked at from all times of a window.
fn around(
    times: &Times,
    offset: Option<Offset>,
    at: Option<AtModifier>,
    lengths: Lengths,
    window: Window,
) -> Option<Window>
    requires { lengths.before < 2 ^ 81 }
    ensures { Fits result (spec.around times.now (option_map shift_of offset) (option_map moment_of at)
        lengths.before lengths.after window) }
{
    let first = looked_from(times, offset, at, lengths.before, window.first);
    let last = looked_to(times, offset, at, lengths.after, window.last);
    fitting_around(times, offset, at, lengths, window, first, last)
}

/// The window between the times that are looked at.
fn fitting_around(
    times: &Times,
    offset: Option<Offset>,
    at: Option<AtModifier>,
    lengths: Lengths,
    window: Window,
    first: i128,
    last: i128,
) -> Option<Window>
    requires first { first ≡ (spec.base times.now (option_map shift_of offset) (option_map moment_of at) window.first -ℤ pos lengths.before)
        +ℤ pos (spec.opening times.now) }
    requires last { last ≡ spec.base times.now (option_map shift_of offset) (option_map moment_of at) window.last +ℤ pos lengths.after }
    ensures { Fits result (spec.around times.now (option_map shift_of offset) (option_map moment_of at)
        lengths.before lengths.after window) }
{
    fitting(first, last)
}

/// The samples of an instant selector.
pub(crate) fn vector_window(
    times: &Times,
    offset: Option<Offset>,
    at: Option<AtModifier>,
    window: Window,
) -> Option<Window>
    ensures { Fits result (spec.vector_window times.now (option_map shift_of offset) (option_map moment_of at) window) }
{
    let before = u128::from(times.lookback);
    around(times, offset, at, Lengths { before, after: 0 }, window)
}

/// How much further than its range a matrix selector reads.
fn beyond(times: &Times, mode: RangeMode) -> (u64, u64)
    ensures before { result.0 ≡ spec.before_range times.now mode }
    ensures after { result.1 ≡ spec.after_range times.now mode }
{
    match mode {
        RangeMode::Plain => (0, 0),
        RangeMode::Anchored => (times.lookback, 0),
        RangeMode::Smoothed => (times.lookback, times.lookback),
    }
}

/// The samples of a matrix selector.
pub(crate) fn matrix_window(times: &Times, node: &MatrixSelector, window: Window) -> Option<Window>
    ensures { Fits result (spec.matrix_window times.now (option_map shift_of node.now.vs.offset)
        (option_map moment_of node.now.vs.at) (as_nanos node.now.range) node.now.mode window) }
{
    let (more, after) = beyond(times, node.mode);
    let before = millis(node.range) + u128::from(more);
    around(
        times,
        node.vs.offset,
        node.vs.at,
        Lengths { before, after },
        window,
    )
}

/// Where the times of a subquery lie.
pub(crate) fn subquery_window(times: &Times, node: &SubqueryExpr, window: Window) -> Option<Window>
    ensures { Fits result (spec.subquery_window times.now (option_map shift_of node.now.offset)
        (option_map moment_of node.now.at) (as_nanos node.now.range) window) }
{
    let before = millis(node.range);
    around(
        times,
        node.offset,
        node.at,
        Lengths { before, after: 0 },
        window,
    )
}

/// The milliseconds between the times of a subquery.
pub(crate) fn step_of(times: &Times, step: Option<Duration>) -> u128
    ensures value { result ≡ spec.step_of times.now (option_map as_nanos step) }
    ensures small { result < 2 ^ 80 }
{
    match step {
        Some(step) => millis(step),
        None => u128::from(times.default_step),
    }
}

/// The greatest multiple of the step that is not above the time.
#[tactic(auto, using(crate::proofs::Floors::floor_fits, crate::proofs::Floors::floor_small, crate::proofs::Floors::floor_below))]
fn floor_to(step: u128, time: i128) -> i128
    requires step { (0 < step) × (step < 2 ^ 80) }
    requires time { unsigned_abs time < 2 ^ 80 }
    ensures value { result ≡ spec.floor_to step time }
    ensures small { unsigned_abs result < 2 ^ 81 }
    ensures below { result ≤ℤ time }
{
    let step = signed(step);
    time.div_euclid(step) * step
}

/// The same of a time of 64 bits.
fn floor_of(step: u128, time: i64) -> i128
    requires { (0 < step) × (step < 2 ^ 80) }
    ensures value { result ≡ spec.floor_to step time }
    ensures below { result ≤ℤ time }
{
    floor_to(step, i128::from(time))
}

/// The least multiple of the step that is not below the time.
#[tactic(auto, using(crate::proofs::Floors::ceil_over))]
fn ceil_to(step: u128, time: i128) -> i128
    requires step { (0 < step) × (step < 2 ^ 80) }
    requires time { unsigned_abs time < 2 ^ 80 }
    ensures value { result ≡ spec.ceil_to step time }
    ensures above { time ≤ℤ result }
{
    -floor_to(step, -time)
}

/// The same of a time of 64 bits.
fn ceil_of(step: u128, time: i64) -> i128
    requires { (0 < step) × (step < 2 ^ 80) }
    ensures value { result ≡ spec.ceil_to step time }
    ensures above { time ≤ℤ result }
{
    ceil_to(step, i128::from(time))
}

/// The window between two times of a wider one; None where the first is after the last.
fn between(first: i128, last: i128, window: Window) -> Option<Window>
    requires low { window.first ≤ℤ first }
    requires high { last ≤ℤ window.last }
    ensures { result ≡ if int_le first last then Some (record { first = first; last = last }) else None }
{
    if first > last {
        return None;
    }
    Some(Window {
        first: first as i64,
        last: last as i64,
    })
}

/// From the first through the last of these multiples of the step.
#[tactic(auto, using(crate::proofs::Floors::narrowed_at))]
fn between_multiples(step: u128, first: i128, last: i128, window: Window) -> Option<Window>
    requires step { 0 < step }
    requires first { first ≡ spec.ceil_to step window.first }
    requires last { last ≡ spec.floor_to step window.last }
    requires low { window.first ≤ℤ first }
    requires high { last ≤ℤ window.last }
    ensures { result ≡ spec.narrowed step window }
{
    between(first, last, window)
}

/// From the first through the last multiple of the step in a window; None where it has none.
pub(crate) fn narrowed(step: u128, window: Window) -> Option<Window>
    requires { step < 2 ^ 80 }
    ensures { result ≡ spec.narrowed step window }
{
    if step == 0 {
        return None;
    }
    let first = ceil_of(step, window.first);
    let last = floor_of(step, window.last);
    between_multiples(step, first, last, window)
}
