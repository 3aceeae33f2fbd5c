//! Numbers (docs/reference/texts.md, "Numbers").

ghost use Rattle.std.specs.Prelude.{◌≡◌, true, false, not, unsigned_abs};
ghost use Rattle.std.specs.Duration.{as_nanos};
ghost use Rattle.std.specs.Int.{is_negative};
ghost use Rattle.promql_text.specs.Numbers.{seconds_of, whole};
ghost use Rattle.promql_text.specs.Values as spec;
ghost use Rattle.promql_text.specs.declared.number.Number.TheVariants.{Finite};

use crate::decimal::Decimal;
use std::time::Duration;
use thiserror::Error;

/// A number as the language has them: exact decimals in place of floating-point values.
#[derive(Clone, Copy, Debug, PartialEq, Eq, Hash, Drop)]
pub enum Number {
    /// An exact decimal.
    Finite(Decimal),
    /// Above every decimal.
    Inf,
    /// Below every decimal.
    NegInf,
    /// Not a number; it equals itself.
    NaN,
}

/// Why a text gives no number.
#[derive(Clone, Copy, Debug, PartialEq, Eq, Drop, Error)]
pub enum NumberFault {
    /// The text means no number.
    #[error("not a number")]
    NotANumber,
    /// The text has more than 38 digits between the first and the last that is no zero.
    #[error("more than 38 significant digits")]
    TooManyDigits,
    /// The number is too great, or too near to zero.
    #[error("number out of range")]
    OutOfRange,
}

impl Number {
    /// A whole number.
    pub fn from_i64(n: i64) -> Number
        ensures { result ≡ Finite (whole (is_negative n) (unsigned_abs n)) }
    {
        Number::Finite(Decimal::whole(n < 0, n.unsigned_abs()))
    }

    /// The seconds of a duration, exactly: at most 20 digits before the point and 9 after it.
    pub fn of_duration(duration: &Duration) -> Number
        ensures { result ≡ Finite (seconds_of (as_nanos duration.now)) }
    {
        let whole = u128::from(duration.as_secs()) * 1_000_000_000;
        let nanos = whole + u128::from(duration.subsec_nanos());
        Number::Finite(Decimal::seconds(nanos))
    }

    /// The number with the other sign; zero and NaN stay as they are.
    pub fn neg(self) -> Number
        ensures { result ≡ spec.neg self }
    {
        match self {
            Number::Finite(d) => Number::Finite(d.neg()),
            Number::Inf => Number::NegInf,
            Number::NegInf => Number::Inf,
            Number::NaN => Number::NaN,
        }
    }

    /// Whether it is NaN.
    pub fn is_nan(&self) -> bool
        ensures { result ≡ spec.is_nan self.now }
    {
        matches!(self, Number::NaN)
    }

    /// Whether it is infinite, of either sign.
    pub fn is_infinite(&self) -> bool
        ensures { result ≡ spec.is_infinite self.now }
    {
        matches!(self, Number::Inf | Number::NegInf)
    }

    /// Whether the number is below zero.
    pub fn is_negative(&self) -> bool
        ensures { result ≡ spec.is_below_zero self.now }
    {
        match self {
            Number::Finite(d) => d.is_negative(),
            Number::NegInf => true,
            Number::Inf | Number::NaN => false,
        }
    }

    /// Whether the number is zero.
    pub fn is_zero(&self) -> bool
        ensures { result ≡ spec.is_zero self.now }
    {
        match self {
            Number::Finite(d) => d.is_zero(),
            _ => false,
        }
    }
}
