//! A number of seconds as milliseconds (docs/reference/texts.md, "Milliseconds of a number").

ghost use Rattle.std.specs.Prelude.{◌≡◌, ◌+◌, ◌^◌, ◌<◌, ◌≤◌, Option, Some, None, MatchOption};
ghost use Rattle.promql_text.specs.Millis as spec;
ghost use Rattle.promql_text.specs.Rounding.{round_half_up};

use crate::decimal::Decimal;
use crate::number::Number;
use crate::significand::append_zeros;

const MOST: u128 = 0x8000_0000_0000_0000;

/// The quotient of a number and a power of ten, rounded to the nearest whole number, a half up.
fn round_quotient(digits: u128, places: u16) -> u128
    requires { digits < 10 ^ 38 }
    ensures value { result ≡ round_half_up digits (10 ^ places) }
    ensures short { result ≤ 10 ^ 38 }
{
    if places > 38 {
        return 0;
    }
    let power = 10u128.pow(u32::from(places));
    let quotient = digits / power;
    let rest = digits % power;
    if rest < power - rest {
        quotient
    } else {
        quotient + 1
    }
}

/// The milliseconds of a number of seconds without its sign; None where they are far past 2^63.
fn magnitude(seconds: &Decimal) -> Option<u128>
    ensures { MatchOption result (2 ^ 63 < spec.millis seconds.now)
        (λ n. n ≡ spec.millis seconds.now) }
{
    if seconds.places > 3 {
        Some(round_quotient(seconds.digits.get(), seconds.places - 3))
    } else {
        append_zeros(
            seconds.digits.get(),
            u128::from(seconds.zeros + 3 - seconds.places),
        )
    }
}

impl Number {
    /// Seconds as whole milliseconds, a half rounded away from zero; None for an infinite number,
    /// NaN, and what 64 bits don't hold.
    pub fn to_millis(&self) -> Option<i64>
        ensures { result ≡ spec.to_millis self.now }
    {
        let Number::Finite(seconds) = self else {
            return None;
        };
        let millis = magnitude(seconds)?;
        if seconds.is_negative() {
            if millis > MOST {
                return None;
            }
            return Some(-(millis as i128) as i64);
        }
        if millis >= MOST {
            return None;
        }
        Some(millis as i64)
    }
}
