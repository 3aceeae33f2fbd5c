//! The digits of a number, read from the first one on.

ghost use Rattle.std.specs.Prelude.{◌≡◌, ◌+◌, ◌*◌, ◌^◌, ◌%◌, ◌<◌, ◌≤◌, length, Option, Some, None, MatchOption, IfSome, SomeIff};
ghost use Rattle.std.specs.Str.Parse.{digits_value, digits_value_after};
ghost use Rattle.promql_text.specs.DecimalForm.{digit_run};
ghost use Rattle.promql_text.specs.DurationReaders.{cap_u128};
ghost use Rattle.promql_text.specs.Significands.{IsLong, ReadsDigit};

use crate::decimal_form::Source;

/// One more than the greatest whole number of 38 digits.
pub const TOO_LONG: u128 = 100_000_000_000_000_000_000_000_000_000_000_000_000;

/// An exponent of this size is past the range of any number, however many digits its text has.
pub const EXPONENT_CAP: u128 = 1_000_000_000_000_000_000_000_000_000_000;

/// A whole number of at most 38 digits that ends in no zero, and the zeros after it.
#[derive(Clone, Copy)]
pub struct Significand {
    pub digits: u128,
    pub zeros: u128,
    ghost short: { digits < 10 ^ 38 },
    ghost ends: { digits % 10 ≡ 0 → digits ≡ 0 },
    ghost none: { digits ≡ 0 → zeros ≡ 0 },
}

/// The digit that the character is.
pub fn decimal_digit(c: char) -> Option<u128>
    ensures { ReadsDigit c result }
{
    if c.is_ascii_digit() {
        Some(c as u128 - 48)
    } else {
        None
    }
}

/// The number with so many zeros after its digits, if it has at most 38 then.
pub fn append_zeros(digits: u128, zeros: u128) -> Option<u128>
    requires { digits < 10 ^ 38 }
    ensures { SomeIff result (digits * 10 ^ zeros < 10 ^ 38) (digits * 10 ^ zeros) }
{
    let mut number = digits;
    for _i in 0..zeros {
        if number >= TOO_LONG / 10 {
            return None;
        }
        number *= 10;
    }
    Some(number)
}

impl Significand {
    /// No digits yet.
    pub fn new() -> Significand
        ensures { (result.digits ≡ 0) × (result.zeros ≡ 0) }
    {
        Significand {
            digits: 0,
            zeros: 0,
        }
    }

    /// The number with one more digit; None where it has more than 38 digits then.
    pub fn push(self, digit: u128) -> Option<Significand>
        requires below_ten { digit < 10 }
        requires room { self.zeros < 2 ^ 100 }
        ensures value { let n = self.digits * 10 ^ self.zeros * 10 + digit in
            MatchOption result (IsLong n) (λ s. s.digits * 10 ^ s.zeros ≡ n) }
        ensures room { IfSome result (λ s. s.zeros ≤ self.zeros + 1) }
    {
        if digit != 0 {
            let front = append_zeros(self.digits, self.zeros + 1)?;
            return Some(Significand {
                digits: front + digit,
                zeros: 0,
            });
        }
        let zeros = if self.digits == 0 { 0 } else { self.zeros + 1 };
        Some(Significand {
            digits: self.digits,
            zeros,
        })
    }
}

/// The significand of the digits before, and after them those at the start of the text; None past
/// 38 digits.
pub fn read_digits<S: Source>(before: Significand, text: S) -> Option<Significand>
    requires { before.zeros ≤ 2 ^ 64 }
    ensures value { let n = digits_value_after 10 (before.digits * 10 ^ before.zeros)
        (digit_run (S.left text)) in
        MatchOption result (IsLong n) (λ s. s.digits * 10 ^ s.zeros ≡ n) }
    ensures room { IfSome result (λ s. s.zeros ≤ before.zeros + 2 ^ 64) }
{
    let mut read = before;
    let mut rest = text;
    while let Some((c, more)) = rest.first() {
        let Some(digit) = decimal_digit(c) else {
            break;
        };
        read = read.push(digit)?;
        rest = more;
    }
    Some(read)
}

/// How many digits are at the start of the text.
pub fn run_len<S: Source>(text: S) -> u128
    ensures value { result ≡ length (digit_run (S.left text)) }
    ensures small { result < 2 ^ 64 }
{
    let mut count = 0;
    let mut rest = text;
    while let Some((c, more)) = rest.first() {
        if !c.is_ascii_digit() {
            break;
        }
        count += 1;
        rest = more;
    }
    count
}

/// The number of the digits at the start of the text; `u128::MAX` where it is greater.
pub fn number<S: Source>(text: S) -> u128
    ensures { result ≡ cap_u128 (digits_value 10 (digit_run (S.left text))) }
{
    let mut number: u128 = 0;
    let mut rest = text;
    while let Some((c, more)) = rest.first() {
        let Some(digit) = decimal_digit(c) else {
            break;
        };
        number = number.saturating_mul(10).saturating_add(digit);
        rest = more;
    }
    number
}
