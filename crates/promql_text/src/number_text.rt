//! Reads the number of a text (docs/reference/texts.md, "Numbers").

ghost use Rattle.std.specs.Prelude.{◌≡◌, ◌∷◌, [], ◌+◌, ◌*◌, ◌^◌, ◌<◌, ◌≤◌, true, false, length, Option, Some, None, MatchOption, IfSome, SomeIff};
ghost use Rattle.std.specs.List.{list_all, list_any};
ghost use Rattle.std.specs.Str.Parse.{digits_value, digits_value_after};
ghost use Rattle.promql_text.specs.DecimalForm.{digit_run, digits_number, past_run, places};
ghost use Rattle.promql_text.specs.DecimalParts as parts;
ghost use Rattle.promql_text.specs.NumberText as spec;
ghost use Rattle.promql_text.specs.Numbers.{from_digits, whole};
ghost use Rattle.promql_text.specs.Significands.{IsLong};

use crate::decimal::Decimal;
use crate::decimal_form::{
    self, DecimalForm, Numeral, Reading, Source, after_first, front, is_empty, without_sign,
};
use crate::number::{Number, NumberFault};
use crate::significand::{self, Significand};

/// A text without its white space.
#[derive(Clone, Copy)]
struct WithoutWhitespace<'a>(&'a str);

impl<'a> Source for WithoutWhitespace<'a> {
    ghost left = { λ s. spec.without_whitespace s.0.now };

    fn first(self) -> Option<(char, WithoutWhitespace<'a>)> {
        let (c, rest) = first_non_whitespace(self.0)?;
        Some((c, WithoutWhitespace(rest)))
    }
}

/// The first character that is no white space, and the text after it.
fn first_non_whitespace(text: &str) -> Option<(char, &str)>
    ensures value { MatchOption result (spec.without_whitespace text.now ≡ [])
        (λ p. spec.without_whitespace text.now ≡ p.0 ∷ spec.without_whitespace p.1.now) }
    ensures small { length (spec.without_whitespace text.now) < 2 ^ 64 }
{
    let mut chars = text.chars();
    while let Some(c) = chars.next() {
        if !c.is_whitespace() {
            return Some((c, chars.as_str()));
        }
    }
    None
}

fn is_x(c: char) -> bool
    ensures { result ≡ spec.is_x c }
{
    matches!(c, 'x' | 'X')
}

fn contains_x<S: Source>(text: S) -> bool
    ensures { result ≡ list_any spec.is_x (S.left text) }
{
    let mut rest = text;
    while let Some((c, more)) = rest.first() {
        if is_x(c) {
            return true;
        }
        rest = more;
    }
    false
}

/// Whether the text holds a point, an 8 or a 9.
fn is_past_octal<S: Source>(text: S) -> bool
    ensures { result ≡ list_any spec.is_past_octal (S.left text) }
{
    let mut rest = text;
    while let Some((c, more)) = rest.first() {
        if matches!(c, '.' | '8' | '9') {
            return true;
        }
        rest = more;
    }
    false
}

fn is_octal<S: Source>(text: S) -> bool
    ensures { result ≡ spec.is_octal (S.left text) }
{
    let body = without_sign(text);
    front(body) == '0' && !is_empty(after_first(body)) && !is_past_octal(text)
}

fn all_digits<S: Source>(text: S, radix: u32) -> bool
    requires { (2 ≤ radix) × (radix ≤ 36) }
    ensures { result ≡ list_all (spec.is_digit_below radix) (S.left text) }
{
    let mut rest = text;
    while let Some((c, more)) = rest.first() {
        if !c.is_digit(radix) {
            return false;
        }
        rest = more;
    }
    true
}

/// The number of the digits, if it is at most 2^63 - 1.
fn magnitude<S: Source>(text: S, radix: u32) -> Option<u64>
    requires radix { (2 ≤ radix) × (radix ≤ 36) }
    requires digits { list_all (spec.is_digit_below radix) (S.left text) ≡ true }
    ensures { let n = digits_value radix (S.left text) in SomeIff result (n < 2 ^ 63) n }
{
    let mut number: u128 = 0;
    let mut rest = text;
    while let Some((c, more)) = rest.first() {
        let digit = c.to_digit(radix)?;
        number = number * u128::from(radix) + u128::from(digit);
        if number >= 0x8000_0000_0000_0000 {
            return None;
        }
        rest = more;
    }
    Some(number as u64)
}

/// The number of one or more digits in a radix.
#[tactic(auto, unfolding(crate::specs::NumberText::radix_number))]
fn radix_number<S: Source>(digits: S, radix: u32, is_negative: bool) -> Result<Number, NumberFault>
    requires { (2 ≤ radix) × (radix ≤ 36) }
    ensures { result ≡ spec.radix_number radix is_negative (S.left digits) }
{
    if is_empty(digits) || !all_digits(digits, radix) {
        return Err(NumberFault::NotANumber);
    }
    match magnitude(digits, radix) {
        Some(n) => Ok(Number::Finite(Decimal::whole(is_negative, n))),
        None => Err(NumberFault::OutOfRange),
    }
}

#[tactic(auto, unfolding(crate::specs::NumberText::hexadecimal))]
fn hexadecimal<S: Source>(text: S) -> Result<Number, NumberFault>
    ensures { result ≡ spec.hexadecimal (S.left text) }
{
    let body = without_sign(text);
    let prefix = after_first(body);
    if front(body) != '0' || !is_x(front(prefix)) {
        return Err(NumberFault::NotANumber);
    }
    radix_number(after_first(prefix), 16, front(text) == '-')
}

/// All digits of a numeral; None where there are more than 38.
fn significand_of<S: Source>(numeral: Numeral<S>) -> Option<Significand>
    ensures value { let n = digits_number (parts.numeral_of S.left numeral) in
        MatchOption result (IsLong n) (λ s. s.digits * 10 ^ s.zeros ≡ n) }
    ensures room { IfSome result (λ s. s.zeros < 2 ^ 66) }
{
    let whole = significand::read_digits(Significand::new(), numeral.whole)?;
    significand::read_digits(whole, numeral.fraction)
}

/// The digits at their place; None where the place is out of range.
fn at_place<S: Source>(is_negative: bool, read: Significand, numeral: Numeral<S>) -> Option<Decimal>
    requires { read.zeros < 2 ^ 66 }
    ensures { result
        ≡ spec.at_place is_negative read.digits read.zeros (parts.numeral_of S.left numeral) }
{
    let places = significand::run_len(numeral.fraction);
    let exponent = significand::number(numeral.exponent).min(significand::EXPONENT_CAP);
    if numeral.exponent_is_negative {
        Decimal::from_digits(is_negative, read.digits, read.zeros, places + exponent)
    } else {
        Decimal::from_digits(is_negative, read.digits, read.zeros + exponent, places)
    }
}

fn finite<S: Source>(is_negative: bool, numeral: Numeral<S>) -> Result<Number, NumberFault>
    ensures { result ≡ spec.finite is_negative (parts.numeral_of S.left numeral) }
{
    let Some(read) = significand_of(numeral) else {
        return Err(NumberFault::TooManyDigits);
    };
    match at_place(is_negative, read, numeral) {
        Some(from_digits) => Ok(Number::Finite(from_digits)),
        None => Err(NumberFault::OutOfRange),
    }
}

fn of_form<S: Source>(form: DecimalForm<S>) -> Result<Number, NumberFault>
    ensures { result ≡ spec.apply_sign form.is_negative (parts.reading_of S.left form.reading) }
{
    let DecimalForm {
        is_negative,
        reading,
    } = form;
    match reading {
        Reading::NaN => Ok(Number::NaN),
        Reading::Inf => Ok(if is_negative {
            Number::NegInf
        } else {
            Number::Inf
        }),
        Reading::Finite(numeral) => finite(is_negative, numeral),
    }
}

#[inline(never)]
#[tactic(auto, unfolding(crate::specs::NumberText::number_of))]
fn number_of<S: Source>(text: S) -> Result<Number, NumberFault>
    ensures { result ≡ spec.number_of (S.left text) }
{
    if contains_x(text) {
        return hexadecimal(text);
    }
    if is_octal(text) {
        return radix_number(after_first(without_sign(text)), 8, front(text) == '-');
    }
    match decimal_form::decimal_form(text) {
        Some(form) => of_form(form),
        None => Err(NumberFault::NotANumber),
    }
}

/// The number of a text of digits that is 0 or doesn't begin with 0, if 64 bits hold it. Such a text needs
/// none of the other rules.
fn short_whole(text: &str) -> Option<u64>
    ensures { IfSome result (λ n. spec.read_number text.now ≡ Ok (Number.Finite (whole false n))) }
{
    match text.as_bytes() {
        [first] if first.is_ascii_digit() => Some(u64::from(*first - b'0')),
        [first, ..] if *first > b'0' => text.parse().ok(),
        _ => None,
    }
}

/// The number of the digits before and, after them, those at the start of the text; and what comes after these.
#[tactic(auto, using(crate::proofs::numerals::Runs::past_run_digit, crate::proofs::numerals::Runs::past_run_other))]
fn digits_at_start<S: Source>(before: u64, text: S) -> (u64, S)
    requires { (before + 1) * 10 ^ length (S.left text) ≤ 10 ^ 19 }
    ensures value { result.0 ≡ digits_value_after 10 before (digit_run (S.left text)) }
    ensures rest { S.left result.1 ≡ past_run (S.left text) }
    ensures room { (result.0 + 1) * 10 ^ length (S.left result.1) ≤ 10 ^ 19 }
{
    let mut number = before;
    let mut rest = text;
    while let Some((c, more)) = rest.first() {
        let Some(digit) = significand::decimal_digit(c) else {
            break;
        };
        number = number * 10 + digit as u64;
        rest = more;
    }
    (number, rest)
}

/// The number of one or more digits, a point, and further digits or none, in at most 19 bytes. Such a text needs none of
/// the other rules.
fn short_decimal(text: &str) -> Option<Decimal>
    ensures { IfSome result (λ d. spec.read_number text.now ≡ Ok (Number.Finite d)) }
{
    let bytes = text.as_bytes();
    if bytes.len() > 19 {
        return None;
    }
    let (whole, after) = digits_at_start(0, bytes);
    if after.len() == bytes.len() || front(after) != '.' {
        return None;
    }
    let fraction = after_first(after);
    let (digits, rest) = digits_at_start(whole, fraction);
    if !rest.is_empty() {
        return None;
    }
    Some(Decimal::with_places(digits, fraction.len() as u16))
}

/// Whether the text is in visible characters of ASCII alone.
fn is_visible(text: &str) -> bool
    ensures { result ≡ list_all spec.is_visible text.now }
{
    for b in text.as_bytes() {
        if !matches!(*b, b'!'..=b'~') {
            return false;
        }
    }
    true
}

/// The number of a text, in which white space counts for nothing: decimal with a point and an
/// exponent, `inf`, `infinity` or `nan` in any case, hexadecimal after `0x`, or octal after `0`.
///
/// # Errors
///
/// `NotANumber` where the text is none; `TooManyDigits` for more than 38 digits between the first
/// and the last that is no zero; else `OutOfRange`, for a decimal whose first digit is at no place
/// from 10^-324 to 10^308, and for a hexadecimal or octal number past 2^63 - 1.
#[inline(always)]
pub fn parse_str_radix(text: &str) -> Result<Number, NumberFault>
    ensures { result ≡ spec.read_number text.now }
{
    if let Some(n) = short_whole(text) {
        return Ok(Number::Finite(Decimal::whole(false, n)));
    }
    if let Some(d) = short_decimal(text) {
        return Ok(Number::Finite(d));
    }
    if is_visible(text) {
        number_of(text.as_bytes())
    } else {
        number_of(WithoutWhitespace(text))
    }
}
