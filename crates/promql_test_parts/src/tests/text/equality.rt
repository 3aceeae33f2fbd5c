//! Numbers and kinds of faults that are equal, and those that are not.

use crate::tests::holds;
use promql_text::duration::Unit;
use promql_text::{DurationFault, Number, NumberFault, QuoteError, parse_str_radix};
use std::hash::{DefaultHasher, Hash, Hasher};

fn hash_of<T: Hash>(x: &T) -> u64 {
    let mut state = DefaultHasher::new();
    x.hash(&mut state);
    state.finish()
}

/// Texts of numbers that differ.
const DIFFERENT: [(&str, &str); 10] = [
    ("1", "2"),
    ("1", "-1"),
    ("1", "10"),
    ("1", "0.1"),
    ("12", "13"),
    ("0.5", "0.05"),
    ("0", "nan"),
    ("inf", "-inf"),
    ("inf", "nan"),
    (
        "99999999999999999999999999999999999999",
        "99999999999999999999999999999999999998",
    ),
];

fn is_equal(text: &str, other: &str) -> bool {
    parse_str_radix(text) == parse_str_radix(other)
}

fn differs(text: &str, other: &str) -> bool {
    parse_str_radix(text) != parse_str_radix(other)
}

#[test]
fn numbers_are_equal_by_value(rt: HostRuntime) {
    for (text, other) in &DIFFERENT {
        holds(&rt, is_equal(text, text), text);
        holds(&rt, differs(text, other), text);
    }
    holds(&rt, is_equal("1.50", "15e-1"), "1.50");
}

/// Whether both are finite and have one decimal.
fn is_one_decimal(a: &Number, b: &Number) -> bool {
    match (a, b) {
        (Number::Finite(a), Number::Finite(b)) => a == b && !(a != b),
        _ => false,
    }
}

#[test]
fn numbers_of_one_value_are_equal(rt: HostRuntime) {
    let whole = Number::from_i64(150);
    let again = Number::from_i64(-150).neg();
    holds(&rt, parse_str_radix("1.5e2") == Ok(whole), "1.5e2");
    holds(&rt, is_one_decimal(&whole, &again), "150");
    holds(&rt, !is_one_decimal(&whole, &Number::from_i64(15)), "15");
    holds(&rt, hash_of(&whole) == hash_of(&again), "hashes");
}

#[test]
fn kinds_are_equal_to_themselves_alone(rt: HostRuntime) {
    let no_number = NumberFault::NotANumber;
    let digits = NumberFault::TooManyDigits;
    holds(&rt, parse_str_radix("1.5") != Err(no_number), "1.5");
    let are_apart = no_number != digits && digits != NumberFault::OutOfRange;
    holds(&rt, are_apart, "faults of numbers");
    let are_apart = DurationFault::Empty != DurationFault::NotPositive
        && DurationFault::Invalid != DurationFault::Overflow;
    holds(&rt, are_apart, "faults of durations");
    holds(
        &rt,
        QuoteError::Memory != QuoteError::InvalidSyntax,
        "errors",
    );
    let is_apart = Unit::Second != Unit::Milli && Unit::Year == Unit::Year;
    holds(&rt, is_apart, "units");
}
