//! The calls of each lower crate. No lower crate has tests of its own. What a test says of a row is said by the calls below:
//! they are proved once, and a test that only calls them is proved fast. Where many rows have nothing but texts, their table is
//! one text, a row a line, since the proof of a long array costs the square of its length.

mod grammar;
mod kind;
mod label;
mod text;
mod times;
mod token;

use promql_label::{MatcherError, PatternFault};
use std::alloc::AllocError;
use std::process::Abort;

/// A value that a test looks at was not made.
#[derive(Drop)]
struct Failed;

impl From<AllocError> for Failed {
    fn from(_error: AllocError) -> Failed {
        Failed
    }
}

impl From<PatternFault> for Failed {
    fn from(_error: PatternFault) -> Failed {
        Failed
    }
}

impl From<MatcherError> for Failed {
    fn from(_error: MatcherError) -> Failed {
        Failed
    }
}

/// The two columns of a row. The second may have further ones.
fn columns(row: &str) -> (&str, &str) {
    row.split_once(" => ")
        .unwrap_or((row, "a row of one column"))
}

/// The text was made, and is this one.
fn prints<E: Drop>(rt: &impl Abort, text: Result<String, E>, want: &str) {
    match text {
        Ok(found) => assert!(rt; found.as_str() == want, "{found}, not {want}"),
        Err(_) => assert!(rt; false, "an error, not {want}"),
    }
}

/// What was asked has this answer.
fn answers<E: Drop>(rt: &impl Abort, found: Result<bool, E>, want: bool, row: &str) {
    match found {
        Ok(is) => assert!(rt; is == want, "{row}"),
        Err(_) => assert!(rt; false, "an error at {row}"),
    }
}

/// What was asked is so.
fn is_so<E: Drop>(rt: &impl Abort, is: Result<bool, E>, row: &str) {
    answers(rt, is, true, row);
}

/// It holds for this row.
fn holds(rt: &impl Abort, is: bool, row: &str) {
    assert!(rt; is, "{row}");
}
