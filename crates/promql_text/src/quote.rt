//! Quoted strings: docs/reference/texts.md, "Strings".

ghost use Rattle.std.specs.Prelude.{◌≡◌, ◌≢◌, ◌∷◌, [], ◌++◌, ◌<◌, ◌≤◌, ◌*◌, ◌+◌, ◌^◌, length, true, IfOk, IfSome, MatchOption, Some, is_some};
ghost use Rattle.std.specs.Char.{encode_utf8};
ghost use Rattle.std.specs.List.{list_all};
ghost use Rattle.std.specs.String.{string_bytes};
ghost use Rattle.std.specs.Str.Iter.{chars_rest};
ghost use Rattle.promql_text.specs.Quoting.{escaped_text, escaped_byte, hexadecimal, is_quote, letter, octal, unquoted_text, Unquotes};
ghost use Rattle.promql_text.specs.QuoteReaders.{IsUnquotedUnlessMemory, is_plain_byte, ReadsDigits, ReadsEscape, ReadsNumber, ReadsQuote, ReadsSpelling};

use std::alloc::{AllocError, Global};
use std::str::Chars;
use thiserror::Error;

/// Why a text isn't unquoted.
#[derive(Clone, Copy, Debug, PartialEq, Eq, Error)]
pub enum QuoteError {
    /// Memory ran out.
    #[error("out of memory")]
    Memory,
    /// The text isn't a quoted text.
    #[error("invalid syntax")]
    InvalidSyntax,
}

impl From<AllocError> for QuoteError {
    ghost use Rattle.std.specs.Prelude.{◌≡◌};
    ghost use Rattle.promql_text.specs.declared.quote.QuoteError.TheVariants.{Memory};

    ghost from_gives = { λ _ e. e ≡ Memory };

    fn from(_: AllocError) -> QuoteError {
        QuoteError::Memory
    }
}

/// The text with a backslash before backslash and `"`, and `\n`, `\r`, `\t` for line feed, carriage
/// return and tab. Between two `"` it is for the text.
pub fn escape_string(alloc: Global, s: &str) -> Result<String, AllocError>
    ensures { IfOk result (λ t. string_bytes t ≡ escaped_text s.now) }
{
    let mut out = String::new(alloc);
    for c in s.chars() {
        match escape_of(c) {
            Some(escape) => out.push_str(escape)?,
            None => out.push(c)?,
        }
    }
    Ok(out)
}

/// The escape of a character between double quotes; `None` if the character is not escaped.
pub(crate) fn escape_of(c: char) -> Option<&'static str>
    ensures { MatchOption result (escaped_byte c ≡ c ∷ [])
        (λ escape. (c < 128) × (escape.now ≡ escaped_byte c)) }
{
    match c {
        '\\' => Some("\\\\"),
        '"' => Some("\\\""),
        '\n' => Some("\\n"),
        '\r' => Some("\\r"),
        '\t' => Some("\\t"),
        _ => None,
    }
}

/// The text that a quoted text is for.
///
/// # Errors
///
/// `InvalidSyntax` for every text that isn't a quote, spellings of characters and the same quote, also
/// where an allocation fails; `Memory` if one fails for a text that is.
pub fn unquote_string(alloc: Global, s: &str) -> Result<String, QuoteError>
    ensures { Unquotes string_bytes result (unquoted_text s.now) }
{
    match unquote(alloc, s) {
        Err(QuoteError::Memory) if !is_quoted(s) => Err(QuoteError::InvalidSyntax),
        unquoted => unquoted,
    }
}

// As `unquote_string`, but with `Memory` also for a text that isn't quoted.
fn unquote(alloc: Global, s: &str) -> Result<String, QuoteError>
    ensures { IsUnquotedUnlessMemory string_bytes result (unquoted_text s.now) }
{
    if let Some(body) = plain_body(s) {
        return Ok(String::from_str(alloc, body)?);
    }
    let mut rest = s.chars();
    let quote = opening(&mut rest).ok_or(QuoteError::InvalidSyntax)?;
    // A character takes no more bytes than its spelling.
    let mut out = String::with_capacity(alloc, s.len())?;
    while let Some(c) = rest.next() {
        if c == quote {
            return match rest.next() {
                None => Ok(out),
                Some(_) => Err(QuoteError::InvalidSyntax),
            };
        }
        out.push(read_spelling(quote, c, &mut rest).ok_or(QuoteError::InvalidSyntax)?)?;
    }
    Err(QuoteError::InvalidSyntax)
}

/// Whether the text is a quoted text. It allocates nothing.
fn is_quoted(s: &str) -> bool
    ensures { result ≡ is_some (unquoted_text s.now) }
{
    let mut rest = s.chars();
    let Some(quote) = opening(&mut rest) else {
        return false;
    };
    while let Some(c) = rest.next() {
        if c == quote {
            return rest.next().is_none();
        }
        if read_spelling(quote, c, &mut rest).is_none() {
            return false;
        }
    }
    false
}

/// What stands between two quotes, where each of its bytes is for itself.
fn plain_body(s: &str) -> Option<&str>
    ensures { IfSome result (λ body. unquoted_text s.now ≡ Some body.now) }
{
    let [quote, body @ .., last] = s.as_bytes() else {
        return None;
    };
    if last != quote || !is_quote(*quote as char) || !is_plain(*quote, body) {
        return None;
    }
    s.get(1..1 + body.len())
}

/// Whether none of the bytes is the quote, a backslash or a line feed.
fn is_plain(quote: u8, body: &[u8]) -> bool
    ensures { result ≡ list_all (is_plain_byte quote) body.now }
{
    for b in body {
        if *b == quote || matches!(*b, b'\\' | b'\n') {
            return false;
        }
    }
    true
}

/// The quote at the start.
fn opening(rest: &mut Chars<'_>) -> Option<char>
    ensures { ReadsQuote (chars_rest rest.old) result (chars_rest rest.new) }
{
    let quote = rest.next()?;
    if is_quote(quote) { Some(quote) } else { None }
}

fn is_quote(c: char) -> bool
    ensures { result ≡ is_quote c }
{
    c == '"' || c == '\'' || c == '`'
}

/// The character that the spelling beginning with `first` is for, with the rest of the spelling
/// taken from `rest`.
fn read_spelling(quote: char, first: char, rest: &mut Chars<'_>) -> Option<char>
    requires quote { is_quote quote ≡ true }
    requires inner { first ≢ quote }
    ensures value { ReadsSpelling quote (encode_utf8 first ++ chars_rest rest.old) result
        (chars_rest rest.new) }
    ensures onward { length (chars_rest rest.new) ≤ length (chars_rest rest.old) }
{
    if quote == '`' {
        return Some(first);
    }
    match first {
        '\n' => None,
        '\\' => escape(quote, rest),
        _ => Some(first),
    }
}

/// The character that an escape is for, after its backslash.
fn escape(quote: char, rest: &mut Chars<'_>) -> Option<char>
    requires { is_quote quote ≡ true }
    ensures value { ReadsEscape quote (chars_rest rest.old) result (chars_rest rest.new) }
    ensures onward { length (chars_rest rest.new) ≤ length (chars_rest rest.old) }
{
    let first = rest.next()?;
    if first == quote {
        return Some(first);
    }
    match first {
        'x' => hexadecimal(2, rest),
        'u' => hexadecimal(4, rest),
        'U' => hexadecimal(8, rest),
        '0'..='7' => octal(first, rest),
        _ => letter(first),
    }
}

/// The character that `count` hexadecimal digits number.
fn hexadecimal(count: usize, rest: &mut Chars<'_>) -> Option<char>
    requires { 16 ^ count ≤ 2 ^ 32 }
    ensures value { let z = chars_rest rest.old in
        ReadsDigits (hexadecimal count z) count z result (chars_rest rest.new) }
    ensures onward { length (chars_rest rest.new) ≤ length (chars_rest rest.old) }
{
    char::from_u32(number(16, count, 0, rest)?)
}

/// The character that `first` and two more octal digits number, up to 255.
fn octal(first: char, rest: &mut Chars<'_>) -> Option<char>
    requires low { 48 ≤ first }
    requires high { first ≤ 55 }
    ensures value { let z = chars_rest rest.old in
        ReadsDigits (octal first z) 2 z result (chars_rest rest.new) }
    ensures onward { length (chars_rest rest.new) ≤ length (chars_rest rest.old) }
{
    let code = number(8, 2, first as u32 - '0' as u32, rest)?;
    if code <= 255 {
        char::from_u32(code)
    } else {
        None
    }
}

/// The number that `count` more digits write, after those that wrote `start`.
fn number(base: u32, count: usize, start: u32, rest: &mut Chars<'_>) -> Option<u32>
    requires binary { 2 ≤ base }
    requires digits { base ≤ 16 }
    requires fits { (start + 1) * base ^ count ≤ 2 ^ 32 }
    ensures value { ReadsNumber base count start (chars_rest rest.old) result
        (chars_rest rest.new) }
    ensures onward { length (chars_rest rest.new) ≤ length (chars_rest rest.old) }
{
    let mut value = start;
    for i in 0..count {
        value = value * base + rest.next()?.to_digit(base)?;
    }
    Some(value)
}

/// The character that a letter or a backslash is for after a backslash.
fn letter(c: char) -> Option<char>
    ensures { result ≡ letter c }
{
    match c {
        'a' => Some('\x07'),
        'b' => Some('\x08'),
        'f' => Some('\x0c'),
        'n' => Some('\n'),
        'r' => Some('\r'),
        't' => Some('\t'),
        'v' => Some('\x0b'),
        '\\' => Some('\\'),
        _ => None,
    }
}
