//! Finite decimal numbers, exactly (docs/reference/texts.md, "Numbers").

ghost use Rattle.std.specs.Prelude.{◌≡◌, ◌≢◌, ◌+◌, ◌-◌, ◌*◌, ◌/◌, ◌^◌, ◌%◌, ◌<◌, ◌≤◌, false, ◌==◌, Option, Some, None};
ghost use Rattle.promql_text.specs.Numbers.{Exact, IsExact, digit_count, exact_zero, negate, from_digits, seconds_of, tens, whole};

use crate::packed_u128::PackedU128;
use std::marker::Model;

/// A finite decimal number: at most 38 digits without zeros at either end, the first of them at a
/// place from 10^-324 to 10^308. There is one zero.
#[derive(Clone, Copy, Debug, PartialEq, Eq, Hash, Drop)]
pub struct Decimal {
    /// The digits as a whole number.
    pub(crate) digits: PackedU128,
    /// How many zeros follow the digits before the point.
    pub(crate) zeros: u16,
    /// How many of the digits, and of the zeros before them, come after the point.
    pub(crate) places: u16,
    pub(crate) is_negative: bool,
}

impl Model for Decimal {
    ghost Value = { Exact };

    ghost view = { λ d. record {
      is_negative = d.is_negative;
      digits = d.digits;
      zeros = d.zeros;
      places = d.places;
    } };

    ghost invariant = { λ d. IsExact (record {
      is_negative = d.is_negative;
      digits = d.digits;
      zeros = d.zeros;
      places = d.places;
    }) };

    ghost inverse = { λ v. record {
      is_negative = v.is_negative;
      digits = v.digits;
      zeros = v.zeros;
      places = v.places;
    } };
}

/// How many digits the number has; zero has one.
#[tactic(auto, using(crate::proofs::numerals::DigitCounts::count_step, crate::proofs::numerals::DigitCounts::count_small, crate::proofs::numerals::DigitCounts::count_short))]
pub(crate) fn digit_count(n: u128) -> u128
    requires { n < 10 ^ 38 }
    ensures value { result ≡ digit_count n }
    ensures within { result ≤ 38 }
{
    let mut count = 1;
    let mut rest = n;
    while rest >= 10 {
        rest /= 10;
        count += 1;
    }
    count
}

/// The digits of a number above zero without the zeros at their end, and how many zeros those are.
fn without_zeros(n: u128) -> (u128, u16)
    requires some { 0 < n }
    requires short { n < 10 ^ 38 }
    ensures value { result.0 * 10 ^ result.1 ≡ n }
    ensures ends { result.0 % 10 ≢ 0 }
{
    let mut digits = n;
    let mut zeros = 0;
    while digits % 10 == 0 {
        digits /= 10;
        zeros += 1;
    }
    (digits, zeros)
}

/// `without_zeros` of a number of 64 bits.
fn without_zeros_u64(n: u64) -> (u64, u16)
    requires { 0 < n }
    ensures value { result.0 * 10 ^ result.1 ≡ n }
    ensures ends { result.0 % 10 ≢ 0 }
{
    let mut digits = n;
    let mut zeros = 0;
    while digits % 10 == 0 {
        digits /= 10;
        zeros += 1;
    }
    (digits, zeros)
}

impl Decimal {
    /// The digits with `up` zeros after them, divided by 10 to `down`; None where its first digit
    /// is out of range.
    pub(crate) fn from_digits(
        is_negative: bool,
        digits: u128,
        up: u128,
        down: u128,
    ) -> Option<Decimal>
        requires short { digits < 10 ^ 38 }
        requires ends { digits % 10 ≡ 0 → digits ≡ 0 }
        requires room { (up < 2 ^ 120) × (down < 2 ^ 120) }
        ensures { result ≡ from_digits is_negative digits up down }
    {
        if digits == 0 {
            return Some(Decimal::zero());
        }
        let count = digit_count(digits);
        if count + up > 309 + down || down > count + up + 323 {
            return None;
        }
        Some(Decimal {
            is_negative,
            digits: PackedU128::new(digits),
            zeros: up.saturating_sub(down) as u16,
            places: down.saturating_sub(up) as u16,
        })
    }

    /// A whole number.
    pub(crate) fn whole(is_negative: bool, n: u64) -> Decimal
        ensures { result ≡ whole is_negative n }
    {
        if n == 0 {
            return Decimal::zero();
        }
        let (digits, zeros) = without_zeros_u64(n);
        Decimal {
            is_negative,
            digits: PackedU128::new(u128::from(digits)),
            zeros,
            places: 0,
        }
    }

    /// A whole number divided by 10 to `places`.
    pub(crate) fn with_places(n: u64, places: u16) -> Decimal
        requires { places < 324 }
        ensures { let z = tens 20 n in Some result ≡ from_digits false (n / 10 ^ z) z places }
    {
        if n == 0 {
            return Decimal::zero();
        }
        let (digits, zeros) = without_zeros_u64(n);
        Decimal {
            is_negative: false,
            digits: PackedU128::new(u128::from(digits)),
            zeros: zeros.saturating_sub(places),
            places: places.saturating_sub(zeros),
        }
    }

    /// The seconds of a number of nanoseconds.
    pub(crate) fn seconds(nanos: u128) -> Decimal
        requires { nanos < 2 ^ 64 * 1_000_000_000 }
        ensures { result ≡ seconds_of nanos }
    {
        if nanos == 0 {
            return Decimal::zero();
        }
        let (digits, zeros) = without_zeros(nanos);
        Decimal {
            is_negative: false,
            digits: PackedU128::new(digits),
            zeros: zeros.saturating_sub(9),
            places: 9u16.saturating_sub(zeros),
        }
    }

    /// Zero.
    pub(crate) const fn zero() -> Decimal
        ensures { result ≡ exact_zero }
    {
        Decimal {
            is_negative: false,
            digits: PackedU128::new(0),
            zeros: 0,
            places: 0,
        }
    }

    /// The number with the other sign; zero stays zero.
    pub(crate) fn neg(self) -> Decimal
        ensures { result ≡ negate self }
    {
        Decimal {
            is_negative: !self.is_negative && !self.is_zero(),
            ..self
        }
    }

    /// Whether the number is below zero.
    pub(crate) fn is_negative(&self) -> bool
        ensures { result ≡ self.now.is_negative }
    {
        self.is_negative
    }

    pub(crate) fn is_zero(&self) -> bool
        ensures { result ≡ (self.now.digits == 0) }
    {
        self.digits.get() == 0
    }
}
