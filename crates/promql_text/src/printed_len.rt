//! How many bytes values print, up to the greatest `usize` (docs/reference/texts.md, "Printed lengths"). Nothing is
//! printed for it, and nothing is allocated.

ghost use Rattle.std.specs.Prelude.{◌≡◌, ◌==◌, ◌/◌, ◌^◌, ◌<◌, [], if◌then◌else◌, length};
ghost use Rattle.std.specs.Char.{encode_utf8};
ghost use Rattle.std.specs.Duration.{as_nanos};
ghost use Rattle.promql_text.specs.DurationReaders.{short_units};
ghost use Rattle.promql_text.specs.DurationText as durations;
ghost use Rattle.promql_text.specs.NumberDigits.{exact_text, magnitude_text};
ghost use Rattle.promql_text.specs.NumberText.{number_text};
ghost use Rattle.promql_text.specs.Quoting.{escaped_text, quoted_text};
ghost use Rattle.promql_text.specs.PrintedLen.{printed_len};

use crate::decimal::{Decimal, digit_count};
use crate::display::split_at_point;
use crate::duration::Unit;
use crate::number::Number;
use crate::quote::escape_of;
use std::time::Duration;

/// The bytes that a number prints.
pub fn number_printed_len(number: &Number) -> usize
    ensures { result ≡ printed_len (number_text number.now) }
{
    match number {
        Number::Finite(decimal) => decimal_len(decimal),
        Number::Inf => 3,
        Number::NegInf => 4,
        Number::NaN => 3,
    }
}

fn decimal_len(decimal: &Decimal) -> usize
    ensures { result ≡ printed_len (exact_text decimal.now) }
{
    let magnitude = magnitude_len(decimal);
    if decimal.is_negative {
        magnitude + 1
    } else {
        magnitude
    }
}

/// The bytes of a decimal without its sign.
fn magnitude_len(decimal: &Decimal) -> usize
    ensures value { result ≡ length (magnitude_text decimal.now) }
    ensures short { result < 2 ^ 20 }
{
    if decimal.places == 0 {
        return digit_count(decimal.digits.get()) as usize + usize::from(decimal.zeros);
    }
    let (whole, _) = split_at_point(decimal.digits.get(), decimal.places);
    digit_count(whole) as usize + 1 + usize::from(decimal.places)
}

/// The bytes of a text between double quotes, with its escapes.
pub fn quoted_printed_len(text: &str) -> usize
    ensures { result ≡ printed_len (quoted_text text.now) }
{
    let mut total: usize = 2;
    for c in text.chars() {
        total = total.saturating_add(escaped_len(c));
    }
    total
}

fn escaped_len(c: char) -> usize
    ensures { result ≡ length (escaped_text (encode_utf8 c)) }
{
    match escape_of(c) {
        Some(escape) => escape.len(),
        None => c.len_utf8(),
    }
}

/// The bytes of a duration's text.
#[tactic(auto, unfolding(crate::specs::DurationText::duration_text))]
pub fn duration_printed_len(duration: &Duration) -> usize
    ensures { result ≡ printed_len (durations.duration_text (as_nanos duration.now)) }
{
    let seconds = u128::from(duration.as_secs());
    let nanos = seconds * 1_000_000_000 + u128::from(duration.subsec_nanos());
    if nanos == 0 {
        2
    } else if nanos % 1_000_000 == 0 {
        whole_len(nanos)
    } else {
        digit_count(seconds) as usize + 1 + fraction_len(duration.subsec_nanos())
    }
}

/// The bytes of whole milliseconds, in nanoseconds.
fn whole_len(nanos: u128) -> usize
    requires { nanos < 10 ^ 38 }
    ensures value { result ≡ length (durations.whole_text nanos) }
    ensures short { result < 2 ^ 20 }
{
    let year = u128::from(Unit::Year.nanos());
    let week = u128::from(Unit::Week.nanos());
    if nanos % year == 0 {
        count_len(nanos / year, Unit::Year)
    } else if nanos % week == 0 {
        count_len(nanos / week, Unit::Week)
    } else {
        counts_len(nanos)
    }
}

/// The bytes of nanoseconds in days, hours, minutes, seconds and milliseconds.
fn counts_len(nanos: u128) -> usize
    requires { nanos < 10 ^ 38 }
    ensures value { result ≡ length (durations.counts_text short_units nanos) }
    ensures short { result < 2 ^ 20 }
{
    let day = u128::from(Unit::Day.nanos());
    let hour = u128::from(Unit::Hour.nanos());
    let minute = u128::from(Unit::Minute.nanos());
    let second = u128::from(Unit::Second.nanos());
    let milli = u128::from(Unit::Milli.nanos());
    let past_days = nanos % day;
    let past_hours = past_days % hour;
    let past_minutes = past_hours % minute;
    let past_seconds = past_minutes % second;
    let days = count_len(nanos / day, Unit::Day);
    let hours = count_len(past_days / hour, Unit::Hour);
    let minutes = count_len(past_hours / minute, Unit::Minute);
    let seconds = count_len(past_minutes / second, Unit::Second);
    let millis = count_len(past_seconds / milli, Unit::Milli);
    days + hours + minutes + seconds + millis
}

/// The bytes of a count of a unit; none for zero.
fn count_len(count: u128, unit: Unit) -> usize
    requires { count < 10 ^ 38 }
    ensures value { result ≡ length (durations.count_text count unit) }
    ensures short { result < 64 }
{
    if count == 0 {
        return 0;
    }
    digit_count(count) as usize + unit.word().len()
}

/// The bytes of nanoseconds after a point, without zeros at the end.
fn fraction_len(nanos: u32) -> usize
    requires { nanos < 10 ^ 9 }
    ensures value { result ≡ length (durations.fraction_text 9 nanos) }
    ensures short { result < 64 }
{
    let mut count = 0;
    let mut rest = nanos;
    while rest != 0 {
        count += 1;
        rest %= 10u32.pow(9 - count);
    }
    count as usize
}

/// The bytes of what comes before the item at the index `at` of a list: the separator, or nothing before the first item.
pub fn separator_printed_len(separator: &str, at: usize) -> usize
    ensures { result ≡ length (if at == 0 then [] else separator.now) }
{
    if at == 0 { 0 } else { separator.len() }
}
