//! Escapes of bytes past ASCII: docs/reference/texts.md, "Byte escapes".

ghost use Rattle.std.specs.Prelude.{◌≡◌, ◌+◌, ◌<◌, ◌≤◌, ◌^◌, ◌==◌, false, if◌then◌else◌, length, slice_index, IfSome, None};
ghost use Rattle.std.specs.Char.{is_digit};
ghost use Rattle.promql_span.specs.ByteEscapes as spec;

use crate::placed::PlacedTokens;
use crate::span::Span;
use promql_token::Lexeme;
use promql_token::ids::T_STRING;

/// The bytes of an escape: a backslash, `x` and two hexadecimal digits, or a backslash and three octal digits.
const ESCAPE_LEN: usize = 4;

/// The first escape of a byte of 128 and more in the strings of a text, which is for a character here and for a byte in
/// Prometheus: docs/reference/texts.md, "Byte escapes". A text without a backslash is not lexed.
pub fn byte_escape(text: &str) -> Option<Span>
    ensures { result ≡ spec.byte_escape text.now }
{
    if !text.as_bytes().contains(&b'\\') {
        return None;
    }
    for token in PlacedTokens::new(text) {
        let escape = escape_in(text, token);
        if escape.is_some() {
            return escape;
        }
    }
    None
}

/// The first one of a token, if that is a string.
pub(crate) fn escape_in(text: &str, token: Lexeme) -> Option<Span>
    requires { token.start + token.len ≤ length text.now }
    ensures { result ≡ spec.escape_in text.now token }
{
    if token.id != T_STRING {
        return None;
    }
    let quoted = &text.as_bytes()[token.start..token.start + token.len];
    let start = escape_between(token.start, quoted)?;
    Some(Span {
        start,
        end: start + ESCAPE_LEN,
    })
}

/// Where the first one of a quoted text is, which begins at `at`.
fn escape_between(at: usize, quoted: &[u8]) -> Option<usize>
    requires { at + length quoted.now < 2 ^ 64 }
    ensures value { result ≡ if slice_index quoted.now 0 == 96 then None else spec.first_escape false at quoted.now }
    ensures within { IfSome result (λ start. start + 4 ≤ at + length quoted.now) }
{
    match quoted {
        [b'`', ..] => None,
        _ => first_escape(at, quoted),
    }
}

/// Where the first one of a text is, which begins at `at`.
#[tactic(auto, using(crate::proofs::EscapeSteps::after_byte))]
pub(crate) fn first_escape(at: usize, text: &[u8]) -> Option<usize>
    requires { at + length text.now < 2 ^ 64 }
    ensures { result ≡ spec.first_escape false at text.now }
{
    let mut start = at;
    let mut rest = text;
    let mut escaped = false;
    while let [b, after @ ..] = rest {
        let is_backslash = *b == b'\\' && !escaped;
        if is_backslash && is_byte_escape(after) {
            return Some(start);
        }
        start += 1;
        rest = after;
        escaped = is_backslash;
    }
    None
}

/// Whether a text, which comes after a backslash, is an escape of a byte of 128 and more.
fn is_byte_escape(text: &[u8]) -> bool
    ensures { result ≡ spec.is_byte_escape text.now }
{
    match text {
        [b'x', high, low, ..] => {
            is_digit(16, *high) && !is_digit(8, *high) && is_digit(16, *low)
        }
        [b'2' | b'3', middle, low, ..] => is_digit(8, *middle) && is_digit(8, *low),
        _ => false,
    }
}

fn is_digit(radix: u32, b: u8) -> bool
    requires least { 2 ≤ radix }
    requires most { radix ≤ 36 }
    ensures { result ≡ is_digit b radix }
{
    char::from(b).is_digit(radix)
}
