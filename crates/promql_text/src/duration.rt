//! The duration of a text: docs/reference/texts.md, "Durations".

ghost use Rattle.std.specs.Prelude.{◌≡◌, ◌<◌, ◌≤◌, [], ◌∷◌, None, Some, IfSome, length, option_map};
ghost use Rattle.std.specs.Duration.{as_nanos};
ghost use Rattle.std.specs.List.{prefix_len};
ghost use Rattle.std.specs.Result.{result_map_both};
ghost use Rattle.std.specs.Str.Parse.{digits_value};
ghost use Rattle.promql_text.specs.DecimalForm.{decimal_form};
ghost use Rattle.promql_text.specs.DecimalParts.{reading_of};
ghost use Rattle.promql_text.specs.DurationReaders as readers;
ghost use Rattle.promql_text.specs.DurationReaders.{IsCount};
ghost use Rattle.promql_text.specs.Durations as spec;

use crate::decimal_form::{DecimalForm, Reading, decimal_form, front, past_run};
use crate::seconds::nanoseconds;
use crate::significand::number;
use std::time::Duration;
use thiserror::Error;

/// Why a text gives no duration.
#[derive(Clone, Copy, Debug, PartialEq, Eq, Error)]
pub enum DurationFault {
    /// The text is empty.
    #[error("empty duration string")]
    Empty,
    /// The text means zero, rounds to it, or has a minus sign.
    #[error("duration must be greater than 0")]
    NotPositive,
    /// The text means no duration.
    #[error("not a valid duration string")]
    Invalid,
    /// The text means more than the greatest duration.
    #[error("duration overflowed")]
    Overflow,
}

/// A unit of time.
#[derive(Clone, Copy, Debug, PartialEq, Eq)]
pub enum Unit {
    Year,
    Week,
    Day,
    Hour,
    Minute,
    Second,
    Milli,
}

/// The units, the longest first.
const UNITS: [Unit; 7] = [
    Unit::Year,
    Unit::Week,
    Unit::Day,
    Unit::Hour,
    Unit::Minute,
    Unit::Second,
    Unit::Milli,
];

impl Unit {
    /// How many nanoseconds the unit has.
    pub fn nanos(self) -> u64
        ensures { result ≡ spec.nanos_of self }
    {
        match self {
            Unit::Year => 31_536_000_000_000_000,
            Unit::Week => 604_800_000_000_000,
            Unit::Day => 86_400_000_000_000,
            Unit::Hour => 3_600_000_000_000,
            Unit::Minute => 60_000_000_000,
            Unit::Second => 1_000_000_000,
            Unit::Milli => 1_000_000,
        }
    }

    /// The unit's word.
    pub fn word(self) -> &'static str
        ensures { result.now ≡ spec.word_of self }
    {
        match self {
            Unit::Year => "y",
            Unit::Week => "w",
            Unit::Day => "d",
            Unit::Hour => "h",
            Unit::Minute => "m",
            Unit::Second => "s",
            Unit::Milli => "ms",
        }
    }
}

/// The whole number of the digits at the start of a text, or `u128::MAX` where it is greater, and
/// what follows them.
fn count(text: &[u8]) -> Option<(u128, &[u8])>
    ensures { readers.ReadsCount text.now result }
{
    if front(text).is_ascii_digit() {
        Some((number(text), past_run(text)))
    } else {
        None
    }
}

/// How many bytes are before the first digit.
fn word_len(text: &[u8]) -> usize
    ensures value { result ≡ prefix_len spec.is_no_digit text.now }
    ensures within { result ≤ length text.now }
{
    for (i, b) in text.iter().enumerate() {
        if b.is_ascii_digit() {
            return i;
        }
    }
    text.len()
}

/// The first of the units that has this word, and the units after it.
fn find<'a>(units: &'a [Unit], word: &[u8]) -> Option<(Unit, &'a [Unit])>
    ensures { readers.FindsUnit units.now word.now result }
{
    let mut rest = units;
    while let [unit, later @ ..] = rest {
        if unit.word().as_bytes() == word {
            return Some((*unit, later));
        }
        rest = later;
    }
    None
}

/// The part at the start of a text: its nanoseconds, or `u128::MAX` where there are more, the units
/// after its own, and what follows it.
fn part<'a, 'b>(units: &'a [Unit], text: &'b [u8]) -> Option<(u128, &'a [Unit], &'b [u8])>
    requires { 0 < length text.now }
    ensures { readers.TakesPart units.now text.now result }
{
    let (count, more) = count(text)?;
    let (word, more) = more.split_at(word_len(more));
    let (unit, later) = find(units, word)?;
    Some((count.saturating_mul(u128::from(unit.nanos())), later, more))
}

/// The nanoseconds of a text of parts, or `u128::MAX` where there are more.
fn parts(text: &[u8]) -> Option<u128>
    ensures { result ≡ option_map readers.cap_u128 (spec.parts_nanos spec.units text.now) }
{
    let mut units: &[Unit] = &UNITS;
    let mut rest = text;
    let mut total: u128 = 0;
    while !rest.is_empty() {
        let (nanos, later, more) = part(units, rest)?;
        total = total.saturating_add(nanos);
        units = later;
        rest = more;
    }
    Some(total)
}

/// The unit whose word is one letter.
fn unit_of(letter: u8) -> Option<Unit>
    ensures { IfSome result (λ u. spec.word_of u ≡ letter ∷ []) }
{
    match letter {
        b's' => Some(Unit::Second),
        b'm' => Some(Unit::Minute),
        b'h' => Some(Unit::Hour),
        b'd' => Some(Unit::Day),
        b'w' => Some(Unit::Week),
        b'y' => Some(Unit::Year),
        _ => None,
    }
}

/// The number of one or more digits; None where it is 10^9 or greater.
fn short_count(digits: &[u8]) -> Option<u64>
    ensures counted { IfSome result (λ n. IsCount digits.now × (n ≡ digits_value 10 digits.now)) }
    ensures short { IfSome result (λ n. n < 1_000_000_000) }
{
    if digits.is_empty() {
        return None;
    }
    let mut count: u64 = 0;
    for b in digits {
        if !b.is_ascii_digit() || count >= 100_000_000 {
            return None;
        }
        count = count * 10 + u64::from(*b - b'0');
    }
    Some(count)
}

/// The nanoseconds of digits and a unit's letter, as most durations are: they are one part, and no number of seconds. None
/// where the text is of another form, or the digits are many.
fn single_part(text: &[u8]) -> Option<u128>
    ensures { IfSome result (λ n. (decimal_form text.now ≡ None)
        × (spec.parts_nanos spec.units text.now ≡ Some n)) }
{
    let [digits @ .., letter] = text else {
        return None;
    };
    let unit = unit_of(*letter)?;
    let count = short_count(digits)?;
    Some(u128::from(count) * u128::from(unit.nanos()))
}

/// The duration of so many nanoseconds, above zero and no more than the greatest.
fn in_range(nanos: u128) -> Result<Duration, DurationFault>
    ensures { readers.GivesDuration result (spec.in_range nanos) }
{
    if nanos == 0 {
        Err(DurationFault::NotPositive)
    } else if nanos <= Duration::MAX.as_nanos() {
        Ok(Duration::from_nanos_u128(nanos))
    } else {
        Err(DurationFault::Overflow)
    }
}

/// The duration of a number of seconds.
fn of_seconds(form: DecimalForm<&[u8]>) -> Result<Duration, DurationFault>
    ensures { readers.GivesDuration result
        (spec.of_seconds form.entry.is_negative (reading_of (λ s. s.now) form.entry.reading)) }
{
    match form.reading {
        Reading::NaN => Err(DurationFault::Invalid),
        _ if form.is_negative => Err(DurationFault::NotPositive),
        Reading::Inf => Err(DurationFault::Overflow),
        Reading::Finite(numeral) => in_range(nanoseconds(numeral)),
    }
}

/// The duration of a text of parts.
fn of_parts(text: &[u8]) -> Result<Duration, DurationFault>
    ensures { readers.GivesDuration result (spec.of_parts (spec.parts_nanos spec.units text.now)) }
{
    match parts(text) {
        Some(nanos) => in_range(nanos),
        None => Err(DurationFault::Invalid),
    }
}

/// The duration of a text: a number of seconds in decimal digits, rounded to the nearest
/// nanosecond, or parts with the units `y w d h m s ms` in this order, each at most once.
///
/// # Errors
///
/// `Empty` for the empty text; `NotPositive` where the text means zero, rounds to it, or is a
/// number with a minus sign; `Overflow` where it means more than `Duration::MAX`; `Invalid` for
/// `nan` and for every other text.
pub fn parse_duration(ds: &str) -> Result<Duration, DurationFault>
    ensures { spec.duration_of ds.now ≡ result_map_both as_nanos (λ f. f) result }
{
    let text = ds.as_bytes();
    if text.is_empty() {
        return Err(DurationFault::Empty);
    }
    if let Some(nanos) = single_part(text) {
        return in_range(nanos);
    }
    match decimal_form(text) {
        Some(form) => of_seconds(form),
        None => of_parts(text),
    }
}

/// One millisecond.
pub fn milli_duration() -> Duration
    ensures { as_nanos result ≡ spec.nanos_of Unit.Milli }
{
    Duration::from_millis(1)
}

/// One second.
pub fn second_duration() -> Duration
    ensures { as_nanos result ≡ spec.nanos_of Unit.Second }
{
    Duration::from_secs(1)
}

/// One minute.
pub fn minute_duration() -> Duration
    ensures { as_nanos result ≡ spec.nanos_of Unit.Minute }
{
    Duration::from_secs(60)
}

/// One hour.
pub fn hour_duration() -> Duration
    ensures { as_nanos result ≡ spec.nanos_of Unit.Hour }
{
    Duration::from_secs(60 * 60)
}

/// One day, of 24 hours.
pub fn day_duration() -> Duration
    ensures { as_nanos result ≡ spec.nanos_of Unit.Day }
{
    Duration::from_secs(60 * 60 * 24)
}

/// One week, of 7 days.
pub fn week_duration() -> Duration
    ensures { as_nanos result ≡ spec.nanos_of Unit.Week }
{
    Duration::from_secs(60 * 60 * 24 * 7)
}

/// One year, of 365 days.
pub fn year_duration() -> Duration
    ensures { as_nanos result ≡ spec.nanos_of Unit.Year }
{
    Duration::from_secs(60 * 60 * 24 * 365)
}
