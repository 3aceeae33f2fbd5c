//! Texts that have no layout.

use crate::tests::{is_so, prints};
use promql_formatter::{FormatError, FormatOptions, format_query};
use std::alloc::Global;

/// Texts with the messages of their errors, and where they begin.
const REJECTED: [(&str, &str, usize); 5] = [
    ("", "no expression found in input", 0),
    ("a # b\n+", "invalid promql query", 7),
    (
        "a[5m # b\n]",
        "unexpected character inside brackets: '#'",
        5,
    ),
    (
        "rate(a)",
        "expected type matrix in call to function 'rate', got vector",
        5,
    ),
    ("a{b=~'['}", "illegal regex for [", 5),
];

/// The message of the error, and where it is.
fn rejection(alloc: Global, text: &str) -> Result<(String, usize), FormatError> {
    match format_query(alloc, text, &FormatOptions::new()) {
        Ok(_) => Err(FormatError::Unfaithful),
        Err(error) => {
            let message = error.to_string(alloc)?;
            match error {
                FormatError::Rejected(diagnosis) => match diagnosis.span {
                    Some(span) => Ok((message, span.start)),
                    None => Err(FormatError::Memory),
                },
                other => Err(other),
            }
        }
    }
}

/// Whether the text is rejected with this message, at this place.
fn is_rejected(
    alloc: Global,
    text: &str,
    message: &str,
    start: usize,
) -> Result<bool, FormatError> {
    let (said, at) = rejection(alloc, text)?;
    Ok(said.as_str() == message && at == start)
}

#[test]
fn what_is_no_query_is_rejected(rt: HostRuntime) {
    for (text, message, start) in &REJECTED {
        is_so(&rt, is_rejected(rt.alloc(), text, message, *start), text);
    }
}

/// Widths, indentations and most bytes, and the messages of the errors that they give.
const ASKED: [(usize, usize, usize, &str); 6] = [
    (65_536, 2, 100, "width is too large: 65536, at most 65535"),
    (
        usize::MAX,
        17,
        0,
        "width is too large: 18446744073709551615, at most 65535",
    ),
    (100, 17, 100, "indentation is too large: 17, at most 16"),
    (
        0,
        1_000_000_000,
        100,
        "indentation is too large: 1000000000, at most 16",
    ),
    (8, 4, 19, "output is too long: 20 bytes, at most 19"),
    (65_535, 16, 13, "output is too long: 14 bytes, at most 13"),
];

/// The error of a layout that is asked for so.
fn asked_error(
    alloc: Global,
    width: usize,
    indent_width: usize,
    max_output: usize,
) -> Result<String, FormatError> {
    let options = FormatOptions {
        width,
        indent_width,
        keep_spelling: false,
        sort_matchers: false,
        max_output,
    };
    match format_query(alloc, "sum(sum(aaaa))", &options) {
        Ok(layout) => Ok(layout),
        Err(error) => Ok(error.to_string(alloc)?),
    }
}

#[test]
fn what_is_too_wide_or_too_long_is_named(rt: HostRuntime) {
    for (width, indent_width, max_output, message) in &ASKED {
        let said = asked_error(rt.alloc(), *width, *indent_width, *max_output);
        prints(&rt, said, message);
    }
}
