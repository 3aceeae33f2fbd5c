//! Numbers of texts, and the texts, milliseconds and seconds of numbers.

use super::with_zeros;
use crate::tests::{columns, is_so, prints};
use promql_text::{Number, parse_str_radix};
use std::alloc::{AllocError, Global};
use std::process::Abort;
use std::time::Duration;

/// What is asked about a text.
#[derive(Clone, Copy)]
enum Asked {
    /// The number.
    Number,
    /// The number's decimal.
    Decimal,
    /// The milliseconds of so many seconds.
    Millis,
    /// The number with the other sign.
    Negated,
    /// What the number says of itself.
    Kind,
}

/// The answer for the text's number, or the message of the fault.
fn answer(alloc: Global, asked: Asked, text: &str) -> Result<String, AllocError> {
    match parse_str_radix(text) {
        Ok(number) => answer_of(alloc, asked, &number),
        Err(fault) => fault.to_string(alloc),
    }
}

fn answer_of(alloc: Global, asked: Asked, number: &Number) -> Result<String, AllocError> {
    match asked {
        Asked::Number => number.to_string(alloc),
        Asked::Decimal => decimal(alloc, number),
        Asked::Millis => millis(alloc, number),
        Asked::Negated => number.neg().to_string(alloc),
        Asked::Kind => String::from_str(alloc, kind(number)),
    }
}

/// The text of a number's decimal.
fn decimal(alloc: Global, number: &Number) -> Result<String, AllocError> {
    match number {
        Number::Finite(decimal) => decimal.to_string(alloc),
        _ => String::from_str(alloc, "no decimal"),
    }
}

/// The milliseconds of a number, or a word where there are none.
fn millis(alloc: Global, number: &Number) -> Result<String, AllocError> {
    match number.to_millis() {
        Some(millis) => millis.to_string(alloc),
        None => String::from_str(alloc, "none"),
    }
}

/// Which of the questions about its kind the number says yes to.
fn kind(number: &Number) -> &'static str {
    let is_finite = !number.is_infinite() && !number.is_nan();
    match (number.is_negative(), number.is_zero(), is_finite) {
        (true, false, true) => "negative",
        (false, true, true) => "zero",
        (false, false, true) => "positive",
        (true, false, false) if number.is_infinite() => "negative and infinite",
        (false, false, false) if number.is_infinite() => "infinite",
        (false, false, false) => "not a number",
        _ => "no kind",
    }
}

/// Each line is a text and this answer.
fn check_rows(rt: &impl Abort, alloc: Global, asked: Asked, rows: &str) {
    for row in rows.split('\n') {
        let (text, want) = columns(row);
        prints(rt, answer(alloc, asked, text), want);
    }
}

/// Texts with their number, or with the message of their fault.
const NUMBERS: &str = "0x7fffffffffffffff => 9223372036854775807
0x8000000000000000 => number out of range
0x1F => 31
- 0x2f  => -47
0X2F => 47
0x => not a number
0x8000000000000000g => not a number
-0x-5 => not a number
0xgolang => not a number
0clojure => not a number
1x2 => not a number
017 => 15
-017 => -15
-089 => -89
08 => 8
00 => 0
0777777777777777777777 => 9223372036854775807
01000000000000000000000 => number out of range
0e5 => not a number
0e1 => not a number
-0 => 0
-0x0 => 0
-0.0 => 0
1 000 => 1000
i n f => Inf
Inf => Inf
INFINITY => Inf
-inf => -Inf
nan => NaN
NaN => NaN
-NAN => NaN
1e308e => not a number
+-5 => not a number
rust => not a number
 => not a number
. => not a number
1e => not a number
1.2.3 => not a number
.5 => 0.5
5. => 5
1.50e2 => 150
123.456 => 123.456
12e-3 => 0.012
1e-325 => number out of range
1e309 => number out of range
1e99999999999999999999 => number out of range
0.0e99999999999999999999 => 0
999999999999999999999999999999999999999 => more than 38 significant digits
99999999999999999999999999999999999999 => 99999999999999999999999999999999999999
999999999999999999999999999999999999990000000000 => 999999999999999999999999999999999999990000000000
999999999999999999999999999999999999999e999 => more than 38 significant digits";

/// Numbers, and their decimals as they print. That printing does not give up is shown by tests alone: a contract can't tell
/// whether a writer fails.
const DECIMALS: &str = "-1.50 => -1.5
0 => 0
25e3 => 25000
0.0025 => 0.0025";

/// Seconds, and their milliseconds.
const MILLIS: &str = "1.0005 => 1001
-1.0005 => -1001
1.0004999999999999999999999999999999999 => 1000
9223372036854775.807 => 9223372036854775807
9223372036854775.8075 => none
-9223372036854775.8084 => -9223372036854775808
-9223372036854775.8085 => none
-0.0004 => 0
1e-324 => 0
12e2 => 1200000
1e308 => none
inf => none
-inf => none
nan => none";

/// Numbers, and what they are with the other sign.
const NEGATED: &str = "-9223372036854775808 => 9223372036854775808
0 => 0
inf => -Inf
nan => NaN";

/// Numbers, and their kinds.
const KINDS: &str = "-9223372036854775808 => negative
9223372036854775808 => positive
0 => zero
-inf => negative and infinite
inf => infinite
nan => not a number";

#[test]
fn texts_have_numbers(rt: HostRuntime) {
    let alloc = rt.alloc();
    check_rows(&rt, alloc, Asked::Number, NUMBERS);
    check_rows(&rt, alloc, Asked::Decimal, DECIMALS);
    check_rows(&rt, alloc, Asked::Millis, MILLIS);
    check_rows(&rt, alloc, Asked::Negated, NEGATED);
    check_rows(&rt, alloc, Asked::Kind, KINDS);
}

/// Texts with the number or the fault of each, where `{9}` is nine zeros.
const LONG: &str = "9{100000} => number out of range
9{100000}1 => more than 38 significant digits
0.{100000} => 0
0.{100000}5e100001 => 5
{100000}7 => 7
1e308 => 1{308}
0.1e309 => 1{308}
1e-324 => 0.{323}1";

/// Whether the one text has the other as its number.
fn is_answer(alloc: Global, text: &str, want: &str) -> Result<bool, AllocError> {
    let text = with_zeros(alloc, text)?;
    let want = with_zeros(alloc, want)?;
    Ok(answer(alloc, Asked::Number, text.as_str())? == want)
}

#[test]
fn long_texts_have_numbers(rt: HostRuntime) {
    for row in LONG.split('\n') {
        let (text, want) = columns(row);
        is_so(&rt, is_answer(rt.alloc(), text, want), row);
    }
    let spaced = answer(rt.alloc(), Asked::Number, "\u{a0}1\u{2003}0.5 e + 1\n");
    prints(&rt, spaced, "105");
}

/// Nanoseconds, and their seconds.
const SECONDS: [(u64, &str); 6] = [
    (0, "0"),
    (1, "0.000000001"),
    (1_000_000, "0.001"),
    (1_500_000_000, "1.5"),
    (10_000_000_000, "10"),
    (31_536_000_000_000_000, "31536000"),
];

/// The seconds of a duration.
fn seconds(alloc: Global, duration: &Duration) -> Result<String, AllocError> {
    Number::of_duration(duration).to_string(alloc)
}

#[test]
fn durations_have_seconds(rt: HostRuntime) {
    let alloc = rt.alloc();
    for (nanos, want) in &SECONDS {
        prints(&rt, seconds(alloc, &Duration::from_nanos(*nanos)), want);
    }
    let greatest = seconds(alloc, &Duration::MAX);
    prints(&rt, greatest, "18446744073709551615.999999999");
    let least = Number::from_i64(i64::MIN).to_string(alloc);
    prints(&rt, least, "-9223372036854775808");
}
