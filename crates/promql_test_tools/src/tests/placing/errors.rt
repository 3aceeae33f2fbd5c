//! Texts that have no tree: the errors of `diagnose`, with their places.

use crate::tests::is_so;
use promql_places::parse_placed;
use promql_span::Span;
use promql_span::diagnosis::Diagnosis;
use std::alloc::{AllocError, Global};

/// Texts with the messages of their errors, and where these are.
const REJECTED: [(&str, &str, usize, usize); 5] = [
    ("", "no expression found in input", 0, 0),
    ("a + ", "invalid promql query", 4, 4),
    ("a + $", "unexpected character: '$'", 4, 5),
    (
        "rate(a)",
        "expected type matrix in call to function 'rate', got vector",
        5,
        6,
    ),
    ("1 + rat(a[5m])", "unknown function with name 'rat'", 4, 7),
];

/// Whether the diagnosis has this message and this place.
fn is_told(
    alloc: Global,
    diagnosis: &Diagnosis,
    message: &str,
    at: Span,
) -> Result<bool, AllocError> {
    let found = diagnosis.error.to_string(alloc)?;
    Ok(found.as_str() == message && diagnosis.span == Some(at))
}

/// Whether the text is rejected with this message at this place.
fn is_rejected(alloc: Global, text: &str, message: &str, at: Span) -> Result<bool, AllocError> {
    match parse_placed(alloc, text) {
        Ok(placed) => {
            drop(placed);
            Ok(false)
        }
        Err(diagnosis) => is_told(alloc, &diagnosis, message, at),
    }
}

#[test]
fn errors_are_those_of_diagnose(rt: HostRuntime) {
    for (text, message, start, end) in &REJECTED {
        let at = Span {
            start: *start,
            end: *end,
        };
        is_so(&rt, is_rejected(rt.alloc(), text, message, at), text);
    }
}
