//! What begins at a place, in bytes.

ghost use Rattle.std.specs.Prelude.{◌≡◌, ◌<◌, length};
ghost use Rattle.promql_token.specs.TokenScanning as spec;

use crate::class::{Class, byte, is_in, is_letter};
use crate::fault::LexFaultKind;
use crate::ids::*;
use crate::lexeme::Scanned;
use crate::numeral::numeral;
use crate::state::{Bracket, Mode, State};
use crate::string::{is_quote, string};
use crate::word::{word, word_in_braces};

fn equal(next: u8) -> Scanned
    ensures { result ≡ spec.equal_token next }
{
    match next {
        b'=' => Ok((T_EQLC, 2)),
        b'~' => Err((LexFaultKind::AfterEqual, 1)),
        _ => Ok((T_EQL, 1)),
    }
}

// `short` alone, or `long` with a `=` after it.
fn or_equal(next: u8, long: TokenId, short: TokenId) -> Scanned
    ensures { result ≡ spec.or_equal next long short }
{
    if next == b'=' {
        Ok((long, 2))
    } else {
        Ok((short, 1))
    }
}

fn bang(z: &[u8]) -> Scanned
    ensures { result ≡ spec.bang_token z.now }
{
    if z.len() == 1 {
        Err((LexFaultKind::BangAtEnd, 1))
    } else if byte(z, 1) == b'=' {
        Ok((T_NEQ, 2))
    } else {
        Err((LexFaultKind::AfterBang, 1))
    }
}

#[inline(always)]
#[tactic(auto, unfolding(crate::specs::TokenScanning::outside, crate::specs::TokenScanning::punctuator))]
fn outside(depth: usize, z: &[u8]) -> Scanned
    requires { 0 < length z.now }
    ensures { result ≡ spec.outside depth z.now }
{
    match byte(z, 0) {
        b'0'..=b'9' => numeral(z),
        b'.' if byte(z, 1).is_ascii_digit() => numeral(z),
        // A letter, `_` or `:`: the digits are above.
        b if is_in(Class::Word, b) => word(z),
        b'"' | b'\'' | b'`' => string(z),
        b'.' if z.len() == 1 => Err((LexFaultKind::DotAtEnd, 0)),
        b'.' => Err((LexFaultKind::AfterDot, 1)),
        b'=' => equal(byte(z, 1)),
        b'<' => or_equal(byte(z, 1), T_LTE, T_LSS),
        b'>' => or_equal(byte(z, 1), T_GTE, T_GTR),
        b'!' => bang(z),
        b'(' => Ok((T_LEFT_PAREN, 1)),
        b')' if depth == 0 => Err((LexFaultKind::RightParen, 0)),
        b')' => Ok((T_RIGHT_PAREN, 1)),
        b'{' => Ok((T_LEFT_BRACE, 1)),
        b'}' => Err((LexFaultKind::RightBrace, 0)),
        b'[' => Ok((T_LEFT_BRACKET, 1)),
        b']' => Err((LexFaultKind::RightBracket, 0)),
        b',' => Ok((T_COMMA, 1)),
        b'+' => Ok((T_ADD, 1)),
        b'-' => Ok((T_SUB, 1)),
        b'*' => Ok((T_MUL, 1)),
        b'/' => Ok((T_DIV, 1)),
        b'%' => Ok((T_MOD, 1)),
        b'^' => Ok((T_POW, 1)),
        b'@' => Ok((T_AT, 1)),
        _ => Err((LexFaultKind::Character, 0)),
    }
}

fn bang_in_braces(z: &[u8]) -> Scanned
    ensures { result ≡ spec.bang_in_braces z.now }
{
    if z.len() == 1 {
        return Err((LexFaultKind::BangAtEnd, 1));
    }
    match byte(z, 1) {
        b'~' => Ok((T_NEQ_REGEX, 2)),
        b'=' => Ok((T_NEQ, 2)),
        _ => Err((LexFaultKind::AfterBangInBraces, 1)),
    }
}

#[inline(always)]
#[tactic(auto, unfolding(crate::specs::TokenScanning::in_braces))]
fn in_braces(z: &[u8]) -> Scanned
    requires { 0 < length z.now }
    ensures { result ≡ spec.in_braces z.now }
{
    match byte(z, 0) {
        b',' => Ok((T_COMMA, 1)),
        b'=' if byte(z, 1) == b'~' => Ok((T_EQL_REGEX, 2)),
        b'=' => Ok((T_EQL, 1)),
        b'!' => bang_in_braces(z),
        b'{' => Err((LexFaultKind::BraceInBraces, 0)),
        b'}' => Ok((T_RIGHT_BRACE, 1)),
        b if is_letter(b) => word_in_braces(z),
        b if is_quote(b) => string(z),
        _ => Err((LexFaultKind::InBraces, 0)),
    }
}

// One colon may be in brackets, and not directly after the bracket.
fn colon(bracket: Bracket) -> Scanned
    ensures { result ≡ spec.colon_token bracket }
{
    match bracket {
        Bracket::Nothing => Err((LexFaultKind::FirstColon, 0)),
        Bracket::Something => Ok((T_COLON, 1)),
        Bracket::Colon => Err((LexFaultKind::SecondColon, 0)),
    }
}

#[inline(always)]
#[tactic(auto, unfolding(crate::specs::TokenScanning::in_brackets))]
fn in_brackets(bracket: Bracket, z: &[u8]) -> Scanned
    requires { 0 < length z.now }
    ensures { result ≡ spec.in_brackets bracket z.now }
{
    match byte(z, 0) {
        b':' => colon(bracket),
        b']' => Ok((T_RIGHT_BRACKET, 1)),
        b'[' => Err((LexFaultKind::BracketInBrackets, 0)),
        b'0'..=b'9' => numeral(z),
        _ => Err((LexFaultKind::InBrackets, 0)),
    }
}

fn end_in(mode: Mode, depth: usize) -> Scanned
    ensures { result ≡ spec.end_in mode depth }
{
    match mode {
        Mode::Outside if depth == 0 => Ok((T_EOF, 0)),
        Mode::Outside => Err((LexFaultKind::UnclosedParen, 0)),
        Mode::Braces => Err((LexFaultKind::EndInBraces, 0)),
        Mode::Brackets(_) => Err((LexFaultKind::EndInBrackets, 0)),
    }
}

/// What begins at the front of a text that begins with no trivia.
#[inline(always)]
#[tactic(auto, unfolding(crate::specs::TokenScanning::scan_token))]
pub fn scan_token(state: State, z: &[u8]) -> Scanned
    ensures { result ≡ spec.scan_token state z.now }
{
    if z.is_empty() {
        return end_in(state.mode, state.depth);
    }
    match state.mode {
        Mode::Outside => outside(state.depth, z),
        Mode::Braces => in_braces(z),
        Mode::Brackets(bracket) => in_brackets(bracket, z),
    }
}
