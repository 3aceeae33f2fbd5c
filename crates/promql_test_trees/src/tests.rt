//! Each kind of node built, checked, copied, printed and laid out; walks that look and walks that change; what has a form in
//! JSON. Parts are read from texts; nodes that no text gives are made by hand. What a test says of a row is said by the calls
//! below: they are proved once, and a test that only calls them is proved fast. Where the rows of a long table are lines, it is
//! one text.

mod builders;
mod changes;
mod checks;
mod from_json;
mod hashes;
mod json;
mod layout;
mod measures;
mod memory;
mod options;
mod parts;
mod printing;
mod trees;
mod walks;
mod writers;

use promql_ast::{CheckError, Expr, PrettyError};
use promql_parser::parser::ParseError;
use std::alloc::{AllocError, AllocFailed, Global};
use std::process::Abort;
use trees::new_box;

/// A value that a test looks at was not made.
#[derive(Drop)]
struct Failed;

impl From<AllocError> for Failed {
    fn from(_error: AllocError) -> Failed {
        Failed
    }
}

impl<T: Drop> From<AllocFailed<T>> for Failed {
    fn from(_error: AllocFailed<T>) -> Failed {
        Failed
    }
}

impl From<CheckError> for Failed {
    fn from(_error: CheckError) -> Failed {
        Failed
    }
}

impl From<ParseError> for Failed {
    fn from(_error: ParseError) -> Failed {
        Failed
    }
}

impl From<PrettyError> for Failed {
    fn from(_error: PrettyError) -> Failed {
        Failed
    }
}

/// The two columns of a row.
fn columns(row: &str) -> (&str, &str) {
    row.split_once(" => ")
        .unwrap_or((row, "a row of one column"))
}

/// The text was made, and is this one.
fn prints<E: Drop>(rt: &impl Abort, text: Result<String, E>, want: &str) {
    match text {
        Ok(found) => assert!(rt; found.as_str() == want, "{found}, not {want}"),
        Err(_) => assert!(rt; false, "an error, not {want}"),
    }
}

/// What was asked has this answer.
fn answers<E: Drop>(rt: &impl Abort, found: Result<bool, E>, want: bool, row: &str) {
    match found {
        Ok(is) => assert!(rt; is == want, "{row}"),
        Err(_) => assert!(rt; false, "an error at {row}"),
    }
}

/// What was asked is so.
fn is_so<E: Drop>(rt: &impl Abort, is: Result<bool, E>, row: &str) {
    answers(rt, is, true, row);
}

/// It holds for this row.
fn holds(rt: &impl Abort, is: bool, row: &str) {
    assert!(rt; is, "{row}");
}

/// What was built as it prints, or the message of its rejection.
fn built_text(alloc: Global, built: Result<Expr, CheckError>) -> Result<String, AllocError> {
    match built {
        Ok(expr) => new_box(alloc, expr)?.to_string(alloc),
        Err(error) => error.to_string(alloc),
    }
}

/// What was built prints this text, or was rejected with this message.
fn shows(rt: &impl Abort, alloc: Global, built: Result<Expr, CheckError>, want: &str) {
    prints(rt, built_text(alloc, built), want);
}
