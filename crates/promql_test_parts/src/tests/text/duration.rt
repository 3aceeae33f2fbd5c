//! Durations of texts with their faults, durations as they print, and the units.

use super::with_zeros;
use crate::tests::{columns, holds, prints};
use promql_text::{
    DurationFault, day_duration, display_duration, hour_duration, milli_duration, minute_duration,
    parse_duration, second_duration, week_duration, year_duration,
};
use std::alloc::{AllocError, Global};
use std::time::Duration;

/// Texts, and their nanoseconds, where `{9}` is nine zeros.
const READ: &str = "1y1w1d1h1m1s1ms => 32230861001000000
5000000000ms => 5000000000000000
200y10400w => 12597120000000000000
000000000000000000000000000000000000000000005m => 300000000000
1e-9 => 1
0.0000000025 => 2
0.0000000015 => 2
0.00000000050000000001 => 1
11.2345 => 11234500000
017 => 17000000000
+5 => 5000000000
1.5E2 => 150000000000
18446744073709551615.999999999 => 18446744073709551615999999999
{100000}5m => 300000000000
0.{100000}1 => 0
1.{100000} => 1000000000";

/// The nanoseconds of a text that is a duration, or 0.
fn nanoseconds(text: &str) -> u128 {
    match parse_duration(text) {
        Ok(duration) => duration.as_nanos(),
        Err(_) => 0,
    }
}

fn nanoseconds_text(alloc: Global, cell: &str) -> Result<String, AllocError> {
    nanoseconds(with_zeros(alloc, cell)?.as_str()).to_string(alloc)
}

#[test]
fn durations_are_read(rt: HostRuntime) {
    for row in READ.split('\n') {
        let (text, want) = columns(row);
        prints(&rt, nanoseconds_text(rt.alloc(), text), want);
    }
}

/// Faults with their messages, and a line for each text that has the fault.
const REJECTED: [(DurationFault, &str, &str); 4] = [
    (DurationFault::Empty, "empty duration string", ""),
    (
        DurationFault::NotPositive,
        "duration must be greater than 0",
        "0\n0w\n0s\n0y0ms\n-0\n-1\n-inf\n0.0000000005\n1e-400",
    ),
    (
        DurationFault::Invalid,
        "not a valid duration string",
        "nan\n1s1s\n1hs\n1y1m1d\n-1w\n1.5d\nd\n0x1F\n 5",
    ),
    (
        DurationFault::Overflow,
        "duration overflowed",
        "inf
1e400
1e99999999999999999999999999999999999999999
18446744073709551616s
18446744073709551615.9999999999
99999999999999999999999999999999999999999y",
    ),
];

#[test]
fn other_texts_are_rejected(rt: HostRuntime) {
    for (fault, message, texts) in &REJECTED {
        prints(&rt, fault.to_string(rt.alloc()), message);
        for text in texts.split('\n') {
            holds(&rt, parse_duration(text) == Err(*fault), text);
        }
    }
}

/// Nanoseconds with their text.
const PRINTED: [(u64, &str); 16] = [
    (0, "0s"),
    (1, "0.000000001"),
    (100_000, "0.0001"),
    (1_500_000_001, "1.500000001"),
    (1_500_000_000, "1s500ms"),
    (3_660_000_000_000, "1h1m"),
    (604_800_000_000_000, "1w"),
    (691_200_000_000_000, "8d"),
    (31_536_000_000_000_000, "1y"),
    (5_000_000_000_000_000, "57d20h53m20s"),
    (32_230_861_001_000_000, "373d1h1m1s1ms"),
    (1_000_000_000_000_000_000, "11574d1h46m40s"),
    (3_153_600_000_000_000_000, "100y"),
    (4_294_967_296_000_000_000, "49710d6h28m16s"),
    (6_289_920_000_000_000_000, "10400w"),
    (u64::MAX, "18446744073.709551615"),
];

#[test]
fn durations_print_and_are_read_again(rt: HostRuntime) {
    let alloc = rt.alloc();
    for (nanos, text) in &PRINTED {
        let duration = Duration::from_nanos(*nanos);
        prints(&rt, display_duration(alloc, &duration), text);
        let is_read = parse_duration(text) == Ok(duration);
        holds(&rt, is_read || *nanos == 0, text);
    }
    let greatest = display_duration(alloc, &Duration::MAX);
    prints(&rt, greatest, "18446744073709551615.999999999");
}

#[test]
fn units_are_milliseconds(rt: HostRuntime) {
    holds(&rt, milli_duration().as_millis() == 1, "ms");
    holds(&rt, second_duration().as_millis() == 1_000, "s");
    holds(&rt, minute_duration().as_millis() == 60_000, "m");
    holds(&rt, hour_duration().as_millis() == 3_600_000, "h");
    holds(&rt, day_duration().as_millis() == 86_400_000, "d");
    holds(&rt, week_duration().as_millis() == 604_800_000, "w");
    holds(&rt, year_duration().as_millis() == 31_536_000_000, "y");
}
