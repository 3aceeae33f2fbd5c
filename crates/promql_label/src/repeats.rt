//! Repetitions in a pattern: docs/reference/matchers.md, "Repetitions".

ghost use Rattle.std.specs.Prelude.{◌≡◌, IfOk, length, string_bytes, take_while};
ghost use Rattle.std.specs.Char.{is_ascii_digit};
ghost use Rattle.promql_label.specs.Repeats.{after_digits, escaped_repeats, is_literal_brace, opens_count};

use std::alloc::{AllocError, Global};

/// A pattern with a backslash before each `{` that doesn't open `{n}`, `{n,}` or `{n,m}`, as the
/// `regex` crate wants it. A backslash stays, and so does the character after it.
pub fn escape_repeats(alloc: Global, pattern: &str) -> Result<String, AllocError>
    ensures { IfOk result (λ escaped. string_bytes escaped ≡ escaped_repeats pattern.now) }
{
    let mut escaped = String::new(alloc);
    let mut rest = pattern.chars();
    let mut taken = false;
    while let Some(c) = rest.next() {
        if !taken && is_literal_brace(c, rest.as_str()) {
            escaped.push('\\')?;
        }
        escaped.push(c)?;
        taken = !taken && c == '\\';
    }
    Ok(escaped)
}

/// Whether a character is a `{` that opens no count, before the rest of the pattern.
fn is_literal_brace(c: char, rest: &str) -> bool
    ensures { result ≡ is_literal_brace c rest.now }
{
    c == '{' && !opens_count(rest.as_bytes())
}

/// Whether a count and its closing brace are at the start: `n}`, `n,}` or `n,m}`.
fn opens_count(text: &[u8]) -> bool
    ensures { result ≡ opens_count text.now }
{
    let end = after_digits(text);
    if end.len() == text.len() {
        return false;
    }
    match end.first() {
        Some(b'}') => true,
        Some(b',') => after_digits(&end[1..]).first() == Some(&b'}'),
        _ => false,
    }
}

/// What is left after the digits at the start.
fn after_digits(text: &[u8]) -> &[u8]
    ensures { result.now ≡ after_digits text.now }
{
    &text[digit_count(text)..]
}

/// How many digits are at the start.
fn digit_count(text: &[u8]) -> usize
    ensures { result ≡ length (take_while is_ascii_digit text.now) }
{
    text.iter().take_while(|b| b.is_ascii_digit()).count()
}
