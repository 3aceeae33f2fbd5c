//! Writes the text of a number (docs/reference/texts.md, "Numbers").

ghost use Rattle.std.specs.Prelude.{◌≡◌, ◌/◌, ◌%◌, ◌^◌, ◌<◌, Some, replicate};
ghost use Rattle.promql_text.specs.NumberDigits.{exact_text, magnitude_text};
ghost use Rattle.promql_text.specs.NumberText.{number_text};

use crate::decimal::{Decimal, digit_count};
use crate::number::Number;
use crate::without_options::write_plain;
use std::fmt;

/// So many zeros.
#[derive(Clone, Copy)]
struct Zeros(u128);

impl fmt::Display for Zeros {
    ghost output = { λ z. Some (replicate z.0 48) };

    fn fmt<W: fmt::Write>(&self, f: &mut fmt::Formatter<W>) -> fmt::Result {
        for _i in 0..self.0 {
            write!(f, "0")?;
        }
        Ok(())
    }
}

/// The digits before the point, and those after it.
pub(crate) fn split_at_point(digits: u128, places: u16) -> (u128, u128)
    requires { digits < 10 ^ 38 }
    ensures { (result.0 ≡ digits / 10 ^ places) × (result.1 ≡ digits % 10 ^ places) }
{
    if places >= 38 {
        return (0, digits);
    }
    let power = 10u128.pow(u32::from(places));
    (digits / power, digits % power)
}

/// A decimal without its sign.
#[derive(Clone, Copy)]
struct Magnitude<'a>(&'a Decimal);

impl fmt::Display for Magnitude<'_> {
    ghost output = { λ m. Some (magnitude_text m.0.now) };

    fn fmt<W: fmt::Write>(&self, f: &mut fmt::Formatter<W>) -> fmt::Result {
        let number = self.0;
        if number.places == 0 {
            let digits = number.digits.get();
            let zeros = Zeros(u128::from(number.zeros));
            return write!(f, "{digits}{zeros}");
        }
        let (whole, part) = split_at_point(number.digits.get(), number.places);
        let zeros = Zeros(u128::from(number.places) - digit_count(part));
        write!(f, "{whole}.{zeros}{part}")
    }
}

/// The number in plain positional form, without exponent.
impl fmt::Display for Decimal {
    ghost output = { λ d. Some (exact_text d) };

    ghost styled_output = { λ d _. Some (exact_text d) };

    #[tactic(auto, using(crate::proofs::writing::AllOptions::styled))]
    fn fmt<W: fmt::Write>(&self, f: &mut fmt::Formatter<W>) -> fmt::Result {
        if self.is_negative {
            f.write_str("-")?;
        }
        write_plain(Magnitude(self), f)
    }
}

/// The number in plain positional form, without exponent; or `Inf`, `-Inf`, `NaN`.
impl fmt::Display for Number {
    ghost output = { λ n. Some (number_text n) };

    ghost styled_output = { λ n _. Some (number_text n) };

    fn fmt<W: fmt::Write>(&self, f: &mut fmt::Formatter<W>) -> fmt::Result {
        match self {
            Number::Finite(decimal) => decimal.fmt(f),
            Number::Inf => f.write_str("Inf"),
            Number::NegInf => f.write_str("-Inf"),
            Number::NaN => f.write_str("NaN"),
        }
    }
}
