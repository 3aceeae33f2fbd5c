//! The tokens of any text, accepted or not: docs/reference/tokens.md, "The tokens of any text".

ghost use Rattle.std.specs.Prelude.{◌≡◌, ◌+◌, ◌-◌, ◌<◌, ◌≤◌, ◌^◌, [], IfOk, IfSome, MatchOption, false, drop, length};
ghost use Rattle.promql_token.specs.Vocabulary.{is_line_end, next};
ghost use Rattle.promql_token.specs.TextTokens as spec;

use crate::class::{Class, byte, end_of_run, is_in};
use crate::ids::{T_COMMENT, T_ERROR, TokenId};
use crate::lexeme::Lexeme;
use crate::scan_token::scan_token;
use crate::state::{Mode, State, after, after_trivia};
use crate::string::is_quote;
use std::alloc::{AllocError, Global};

/// The tokens of a text, accepted or not, in order. Comments are among them as T_COMMENT, without the end of their line, and what
/// no token begins with as T_ERROR; T_EOF is not. White space alone is between them.
///
/// # Errors
///
/// `AllocError` where an allocation failed.
pub fn text_tokens(alloc: Global, text: &str) -> Result<Vec<Lexeme>, AllocError>
    ensures { IfOk result (λ found. spec.AreTextTokens text.now found.items) }
{
    let bytes = text.as_bytes();
    let mut found = Vec::new(alloc);
    let mut state = State {
        depth: 0,
        mode: Mode::Outside,
    };
    let mut at = 0;
    while let Some(token) = next_token(bytes, state, at) {
        state = after(state, token.id);
        at = token.start + token.len;
        found.push(token)?;
    }
    Ok(found)
}

/// The first token from a place on; `None` where white space alone is left.
fn next_token(z: &[u8], state: State, at: usize) -> Option<Lexeme>
    requires { at ≤ length z.now }
    ensures value { MatchOption result (spec.AreTokens z.now state at []) (spec.IsNext z.now state at) }
    ensures moves { IfSome result (λ x. (at < x.start + x.len) × (x.start + x.len ≤ length z.now)) }
{
    let start = end_of_run(Class::White, z, at);
    if start == z.len() {
        return None;
    }
    let (id, len) = front_token(after_trivia(start - at, state), &z[start..]);
    Some(Lexeme { id, start, len })
}

/// The id and the length of the token that a text begins with, which begins with no white space.
fn front_token(state: State, z: &[u8]) -> (TokenId, usize)
    requires { 0 < length z.now }
    ensures value { result ≡ spec.front_token state z.now }
    ensures within { (0 < result.1) × (result.1 ≤ length z.now) }
{
    if byte(z, 0) == b'#' && has_comments(state.mode) {
        return (T_COMMENT, line_len(z));
    }
    match scan_token(state, z) {
        Ok(token) => token,
        Err(_) => (T_ERROR, error_len(z)),
    }
}

/// Whether there may be comments.
fn has_comments(mode: Mode) -> bool
    ensures { result ≡ spec.has_comments mode }
{
    !matches!(mode, Mode::Brackets(_))
}

fn is_line_end(b: u8) -> bool
    ensures { result ≡ is_line_end b }
{
    b == b'\n' || b == b'\r'
}

/// The length of the line that a text begins with, without its end.
fn line_len(z: &[u8]) -> usize
    ensures value { result ≡ spec.line_len z.now }
    ensures within { result ≤ length z.now }
{
    let mut len = 0;
    while len < z.len() && !is_line_end(z[len]) {
        len += 1;
    }
    len
}

/// The length of the bytes that a text begins with that are not ASCII, from a place on.
fn beyond_ascii(z: &[u8], at: usize) -> usize
    requires { at ≤ length z.now }
    ensures value { result ≡ at + spec.beyond_ascii (drop at z.now) }
    ensures within { (at ≤ result) × (result ≤ length z.now) }
{
    let mut end = at;
    while end < z.len() && z[end] > 127 {
        end += 1;
    }
    end
}

/// The length of the string that a text begins with, through its closing quote or to the end.
fn string_len(z: &[u8]) -> usize
    requires { 0 < length z.now }
    ensures value { result ≡ 1 + spec.past_quote (next z.now) false (drop 1 z.now) }
    ensures within { (0 < result) × (result ≤ length z.now) }
{
    let quote = byte(z, 0);
    let mut taken = false;
    let mut at = 1;
    while at < z.len() {
        let b = z[at];
        at += 1;
        if taken {
            taken = false;
        } else if b == quote {
            return at;
        } else {
            taken = b == b'\\' && quote != b'`';
        }
    }
    at
}

/// The length of what no token begins with: a string, letters, digits and `_` in a row, or a character.
fn error_len(z: &[u8]) -> usize
    requires { 0 < length z.now }
    ensures value { result ≡ spec.error_len z.now }
    ensures within { (0 < result) × (result ≤ length z.now) }
{
    let first = byte(z, 0);
    if is_quote(first) {
        string_len(z)
    } else if is_in(Class::Name, first) {
        end_of_run(Class::Name, z, 0)
    } else {
        beyond_ascii(z, 1)
    }
}
