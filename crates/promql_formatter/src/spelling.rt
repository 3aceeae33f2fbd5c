//! One spelling for numbers, durations and strings: docs/reference/formatting.md, "Spelling".

use promql_grammar::TokenKind;
use promql_text::{
    DurationText, QuoteError, Quoted, parse_duration, parse_str_radix, unquote_string,
};
use std::alloc::{AllocError, Global};

/// The spelling of a token's text; `None` where it stays as it is written.
pub(crate) fn spelled(
    alloc: Global,
    kind: TokenKind,
    text: &str,
    is_time: bool,
) -> Result<Option<String>, AllocError> {
    let spelling = match kind {
        TokenKind::Number if is_time => duration_spelling(alloc, text)?,
        TokenKind::Number => number_spelling(alloc, text)?,
        TokenKind::Duration => duration_spelling(alloc, text)?,
        TokenKind::String => string_spelling(alloc, text)?,
        _ => None,
    };
    match spelling {
        Some(other) if other.len() <= text.len() => Ok(Some(other)),
        _ => Ok(None),
    }
}

fn number_spelling(alloc: Global, text: &str) -> Result<Option<String>, AllocError> {
    match parse_str_radix(text) {
        Ok(number) => Ok(Some(number.to_string(alloc)?)),
        Err(_) => Ok(None),
    }
}

fn duration_spelling(alloc: Global, text: &str) -> Result<Option<String>, AllocError> {
    match parse_duration(text) {
        Ok(duration) => Ok(Some(DurationText(&duration).to_string(alloc)?)),
        Err(_) => Ok(None),
    }
}

fn string_spelling(alloc: Global, text: &str) -> Result<Option<String>, AllocError> {
    match unquote_string(alloc, text) {
        Ok(value) => Ok(Some(Quoted(&value).to_string(alloc)?)),
        Err(QuoteError::Memory) => Err(AllocError),
        Err(QuoteError::InvalidSyntax) => Ok(None),
    }
}
