//! Numbers and durations.

ghost use Rattle.std.specs.Prelude.{◌≡◌, ◌==◌, ◌≤◌, ◌||◌, true, length};
ghost use Rattle.promql_text.specs.Texts.{code};
ghost use Rattle.promql_token.specs.Vocabulary.{is_exponent};
ghost use Rattle.promql_token.specs.TokenScanning as spec;

use crate::class::{Class, byte, end_of_run};
use crate::fault::LexFaultKind;
use crate::ids::{T_DURATION, T_NUMBER};
use crate::lexeme::Scanned;

fn is_hex(z: &[u8]) -> bool
    ensures value { result ≡ spec.is_hex z.now }
    ensures within { result ≡ true → 2 ≤ length z.now }
{
    let x = byte(z, 1);
    byte(z, 0) == b'0' && (x == b'x' || x == b'X')
}

// The class of a numeral's digits.
fn digits(z: &[u8]) -> Class
    ensures { result ≡ spec.digits z.now }
{
    if is_hex(z) {
        Class::HexDigit
    } else {
        Class::Digit
    }
}

fn past_whole(z: &[u8]) -> usize
    ensures value { result ≡ spec.past_whole z.now }
    ensures within { result ≤ length z.now }
{
    if is_hex(z) {
        end_of_run(Class::HexDigit, z, 2)
    } else {
        end_of_run(Class::Digit, z, 0)
    }
}

fn past_point(class: Class, z: &[u8], at: usize) -> usize
    requires { at ≤ length z.now }
    ensures value { result ≡ spec.past_point class z.now at }
    ensures within { (at ≤ result) × (result ≤ length z.now) }
{
    if byte(z, at) == b'.' {
        end_of_run(class, z, at + 1)
    } else {
        at
    }
}

fn past_sign(z: &[u8], at: usize) -> usize
    requires { at ≤ length z.now }
    ensures value { result ≡ spec.past_sign z.now at }
    ensures within { (at ≤ result) × (result ≤ length z.now) }
{
    let b = byte(z, at);
    if b == b'+' || b == b'-' { at + 1 } else { at }
}

fn past_exponent(z: &[u8], at: usize) -> usize
    requires { at ≤ length z.now }
    ensures value { result ≡ spec.past_exponent z.now at }
    ensures within { (at ≤ result) × (result ≤ length z.now) }
{
    let b = byte(z, at);
    if b == b'e' || b == b'E' {
        end_of_run(Class::Digit, z, past_sign(z, at + 1))
    } else {
        at
    }
}

// Where a number ends that is hexadecimal, or has a fraction or an exponent.
#[inline(never)]
#[tactic(auto, unfolding(crate::specs::TokenScanning::number_end))]
fn number_end_in_parts(z: &[u8]) -> usize
    ensures value { result ≡ spec.number_end z.now }
    ensures within { result ≤ length z.now }
{
    past_exponent(z, past_point(digits(z), z, past_whole(z)))
}

// Whether a number may go on with the byte after digits: a point, an exponent's `e`, or the `x` of `0x`.
fn may_go_on(b: u8) -> bool
    ensures { result ≡ (b == code "." || (is_exponent b || (b == 120 || b == 88))) }
{
    matches!(b, b'.' | b'e' | b'E' | b'x' | b'X')
}

// Where the number that a numeral begins with ends. Most are digits alone.
#[inline(always)]
fn number_end(z: &[u8]) -> usize
    ensures value { result ≡ spec.number_end z.now }
    ensures within { result ≤ length z.now }
{
    let whole = end_of_run(Class::Digit, z, 0);
    if may_go_on(byte(z, whole)) {
        number_end_in_parts(z)
    } else {
        whole
    }
}

fn is_unit(first: bool, b: u8) -> bool
    ensures { result ≡ spec.is_unit first b }
{
    matches!(b, b's' | b'm' | b'h' | b'd' | b'w') || (first && b == b'y')
}

// The length of a unit and of the `s` that may follow it, or 0, which no unit has.
fn unit_len(first: bool, z: &[u8]) -> usize
    ensures value { result ≡ spec.unit_len first z.now }
    ensures within { result ≤ length z.now }
{
    if !is_unit(first, byte(z, 0)) {
        0
    } else if byte(z, 1) == b's' {
        2
    } else {
        1
    }
}

// The length of digits and a unit, or 0, which no such part has.
fn part_len(z: &[u8]) -> usize
    ensures value { result ≡ spec.part_len z.now }
    ensures within { result ≤ length z.now }
{
    let count = end_of_run(Class::Digit, z, 0);
    let unit = unit_len(false, &z[count..]);
    if count == 0 || unit == 0 {
        0
    } else {
        count + unit
    }
}

// Whether a text is digits and a unit, repeatedly, to its end.
fn are_parts(z: &[u8]) -> bool
    ensures { result ≡ spec.parts_from 0 z.now }
{
    let mut rest = z;
    while !rest.is_empty() {
        let len = part_len(rest);
        if len == 0 {
            return false;
        }
        rest = &rest[len..];
    }
    true
}

// Whether a text is what follows a duration's first number: a unit, then such parts.
#[tactic(auto, unfolding(crate::specs::TokenScanning::units))]
fn is_units(z: &[u8]) -> bool
    ensures { result ≡ spec.units z.now }
{
    let first = unit_len(true, z);
    first != 0 && are_parts(&z[first..])
}

/// The number or duration at the front.
#[inline(always)]
#[tactic(auto, unfolding(crate::specs::TokenScanning::numeral))]
pub fn numeral(z: &[u8]) -> Scanned
    ensures { result ≡ spec.numeral z.now }
{
    let end = number_end(z);
    let run = end_of_run(Class::Name, z, end);
    if run == end && byte(z, end) != b'.' {
        Ok((T_NUMBER, end))
    } else if is_units(&z[end..run]) {
        Ok((T_DURATION, run))
    } else {
        Err((LexFaultKind::Numeral, 0))
    }
}
