//! White space and comments.

ghost use Rattle.std.specs.Prelude.{◌≡◌, ◌==◌, ◌≤◌, false, length, true};
ghost use Rattle.std.specs.Char.{is_ascii_whitespace};
ghost use Rattle.promql_text.specs.Texts.{code};
ghost use Rattle.promql_token.specs.TokenScanning as spec;

use crate::class::{Class, byte, end_of_run};
use crate::state::Mode;

// Whether trivia ends before the byte, by its value alone: it is neither white space, nor `#`, nor past the end.
fn ends_trivia(b: u8) -> bool
    ensures { result ≡ true → (is_ascii_whitespace b ≡ false) × ((b == code "#") ≡ false) }
{
    b > b' ' && b != b'#'
}

fn with_comments(z: &[u8]) -> usize
    ensures value { result ≡ spec.trivia_from false z.now }
    ensures within { result ≤ length z.now }
{
    // Most tokens follow another directly or after a space.
    let first = byte(z, 0);
    if ends_trivia(first) {
        return 0;
    }
    if first == b' ' && ends_trivia(byte(z, 1)) {
        return 1;
    }
    let mut in_comment = false;
    for (n, b) in z.iter().enumerate() {
        if in_comment {
            in_comment = *b != b'\n' && *b != b'\r';
        } else if *b == b'#' {
            in_comment = true;
        } else if !b.is_ascii_whitespace() {
            return n;
        }
    }
    z.len()
}

/// The length of the trivia at the front: white space, and outside brackets comments.
#[tactic(auto, unfolding(crate::specs::TokenScanning::trivia_len))]
pub fn trivia_len(mode: Mode, z: &[u8]) -> usize
    ensures value { result ≡ spec.trivia_len mode z.now }
    ensures within { result ≤ length z.now }
{
    match mode {
        Mode::Outside | Mode::Braces => with_comments(z),
        Mode::Brackets(_) => end_of_run(Class::White, z, 0),
    }
}
