//! Seconds in decimal digits, rounded to nanoseconds: docs/reference/texts.md, "Durations".

ghost use Rattle.std.specs.Prelude.{◌≡◌, ◌∷◌, ◌++◌, ◌<◌, ◌*◌, ◌^◌, ℕ, [], length};
ghost use Rattle.std.specs.Char.{digit_value};
ghost use Rattle.std.specs.Str.Parse.{AllDigits};
ghost use Rattle.promql_text.specs.Texts.{Text};
ghost use Rattle.promql_text.specs.DecimalForm.{digit_run};
ghost use Rattle.promql_text.specs.DecimalParts.{numeral_of};
ghost use Rattle.promql_text.specs.Durations.{second_nanos};
ghost use Rattle.promql_text.specs.DurationReaders.{cap_u128};
ghost use Rattle.promql_text.specs.Rounding.{at_point, Compares, ComparesHalf, HasRead, PlacesPoint};

use crate::decimal_form::Numeral;
use crate::significand::{number, run_len};

/// How the digits after the point compare with a half.
#[derive(Clone, Copy)]
pub enum RoundingTail {
    /// There is no such digit.
    Empty,
    Below,
    Half,
    Above,
}

/// What is kept of digits with a point among or after them.
#[derive(Clone, Copy)]
pub struct Digits {
    /// How many of the digits to come are before the point.
    to_point: u128,
    /// The number of the digits before the point, or `u128::MAX` where it is greater.
    whole: u128,
    tail: RoundingTail,
}

impl Digits {
    /// No digit, with the point to come after so many of them.
    fn new(to_point: u128) -> Digits
        ensures { HasRead to_point [] result }
    {
        Digits {
            to_point,
            whole: 0,
            tail: RoundingTail::Empty,
        }
    }

    /// Reads one more digit.
    fn push(&mut self, digit: u8)
        requires { digit < 10 }
        ensures { (n : ℕ) (ds : Text) (c : ℕ) → digit_value c ≡ digit → HasRead n ds self.old
            → HasRead n (ds ++ (c ∷ [])) self.new }
    {
        if self.to_point > 0 {
            self.to_point -= 1;
            self.whole = self
                .whole
                .saturating_mul(10)
                .saturating_add(u128::from(digit));
        } else {
            self.tail = compare_half(self.tail, digit);
        }
    }

    /// Reads more digits.
    fn read(&mut self, digits: &[u8])
        requires { AllDigits 10 digits.now }
        ensures { (n : ℕ) (ds : Text) → HasRead n ds self.old
            → HasRead n (ds ++ digits.now) self.new }
    {
        for b in digits {
            self.push(*b - b'0');
        }
    }

    /// The number, rounded to the nearest whole one, a tie to the even one; `u128::MAX` where it is
    /// greater.
    fn round(self) -> u128
        ensures { (n : ℕ) (ds : Text) → AllDigits 10 ds → HasRead n ds self
            → result ≡ cap_u128 (at_point n ds) }
    {
        match self.tail {
            RoundingTail::Empty => with_zeros(self.whole, self.to_point),
            RoundingTail::Below => self.whole,
            RoundingTail::Half => self.whole.saturating_add(self.whole % 2),
            RoundingTail::Above => self.whole.saturating_add(1),
        }
    }
}

/// How digits after the point compare with a half, with one more digit after them.
fn compare_half(tail: RoundingTail, digit: u8) -> RoundingTail
    requires { digit < 10 }
    ensures { (ds : Text) (c : ℕ) → digit_value c ≡ digit → ComparesHalf tail ds
        → ComparesHalf result (ds ++ (c ∷ [])) }
{
    match tail {
        RoundingTail::Empty => first_digit(digit),
        RoundingTail::Below => RoundingTail::Below,
        RoundingTail::Half => {
            if digit == 0 {
                RoundingTail::Half
            } else {
                RoundingTail::Above
            }
        }
        RoundingTail::Above => RoundingTail::Above,
    }
}

/// How one digit after the point compares with a half.
fn first_digit(digit: u8) -> RoundingTail
    ensures { Compares result digit 5 }
{
    if digit < 5 {
        RoundingTail::Below
    } else if digit == 5 {
        RoundingTail::Half
    } else {
        RoundingTail::Above
    }
}

/// The number with so many zeros after its digits; `u128::MAX` where that is greater.
fn with_zeros(n: u128, zeros: u128) -> u128
    ensures { result ≡ cap_u128 (n * 10 ^ zeros) }
{
    n.saturating_mul(10u128.saturating_pow(zeros.min(39) as u32))
}

/// The digits at the start of a text.
fn run(text: &[u8]) -> &[u8]
    ensures value { result.now ≡ digit_run text.now }
    ensures digits { AllDigits 10 result.now }
    ensures fits { length result.now < 2 ^ 64 }
{
    &text[..run_len(text) as usize]
}

/// After how many of a numeral's digits the point of its nanoseconds is, or `u128::MAX` where those
/// are more; none where it is before them, with a zero between.
fn point(numeral: Numeral<&[u8]>) -> Option<u128>
    ensures { PlacesPoint (numeral_of (λ s. s.now) numeral.entry) result }
{
    let nine_on = run_len(numeral.whole) + 9;
    let exponent = number(numeral.exponent);
    if numeral.exponent_is_negative {
        nine_on.checked_sub(exponent)
    } else {
        Some(nine_on.saturating_add(exponent))
    }
}

/// The nanoseconds of a numeral of seconds, rounded; `u128::MAX` where there are more.
pub fn nanoseconds(numeral: Numeral<&[u8]>) -> u128
    ensures { result ≡ cap_u128 (second_nanos (numeral_of (λ s. s.now) numeral.entry)) }
{
    let Some(to_point) = point(numeral) else {
        return 0;
    };
    let mut digits = Digits::new(to_point);
    digits.read(run(numeral.whole));
    digits.read(run(numeral.fraction));
    digits.round()
}
