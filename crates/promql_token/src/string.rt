//! Strings.

ghost use Rattle.std.specs.Prelude.{◌≡◌, ◌<◌, ◌≤◌, drop, false, length};
ghost use Rattle.promql_token.specs.TokenScanning as spec;

use crate::class::byte;
use crate::fault::LexFaultKind;
use crate::ids::T_STRING;
use crate::lexeme::Scanned;

/// Whether it is a quote of strings.
pub fn is_quote(b: u8) -> bool
    ensures { result ≡ spec.is_quote b }
{
    matches!(b, b'"' | b'\'' | b'`')
}

fn is_escape(quote: u8, b: u8) -> bool
    ensures { result ≡ spec.is_escape quote b }
{
    b == quote
        || matches!(
            b,
            b'\\' | b'a' | b'b' | b'f' | b'n' | b'r' | b't' | b'v' | b'0'..=b'7'
                | b'x'
                | b'u'
                | b'U'
        )
}

// The first place past the opening quote whose byte is such a quote or a backslash. Few strings go on there.
#[inline(always)]
#[tactic(auto, using(crate::proofs::values::PlainStrings::plain_byte))]
fn plain_end(quote: u8, z: &[u8]) -> usize
    requires { 0 < length z.now }
    ensures value { spec.string_from quote false result (drop result z.now)
        ≡ spec.string_from quote false 1 (drop 1 z.now) }
    ensures within { result ≤ length z.now }
{
    let mut at = 1;
    while at < z.len() && z[at] != quote && z[at] != b'\\' {
        at += 1;
    }
    at
}

/// The string whose opening quote is the first byte.
#[inline(always)]
#[tactic(auto, unfolding(crate::specs::TokenScanning::string))]
pub fn string(z: &[u8]) -> Scanned
    requires { 0 < length z.now }
    ensures { result ≡ spec.string z.now }
{
    let quote = byte(z, 0);
    let mut escaped = false;
    let mut at = plain_end(quote, z);
    let mut rest = &z[at..];
    while let [b, more @ ..] = rest {
        if escaped {
            if !is_escape(quote, *b) {
                return Err((LexFaultKind::Escape, at));
            }
            escaped = false;
        } else if *b == quote {
            return Ok((T_STRING, at + 1));
        } else {
            escaped = *b == b'\\' && quote != b'`';
        }
        at += 1;
        rest = more;
    }
    if escaped {
        Err((LexFaultKind::EscapeAtEnd, at))
    } else {
        Err((LexFaultKind::OpenString, 0))
    }
}
