//! The calls of `promql_rewrite`, `promql_formatter`, `promql_places` and `promql_when`, and differences and refusals of targets. What a test
//! says of a row is said by the calls below: they are proved once, and a test that only calls them is proved fast. Where the rows of a long
//! table are lines, it is one text.

mod differing;
mod formatting;
mod placing;
mod refusing;
mod rewriting;
mod series;
mod timing;

use promql_ast::CheckError;
use promql_rewrite::NotFaithful;
use promql_span::diagnosis::Diagnosis;
use promql_syntax::parser::ParseError;
use std::alloc::{AllocError, AllocFailed};
use std::process::Abort;

/// A value that a test looks at was not made.
#[derive(Drop)]
struct Failed;

impl From<AllocError> for Failed {
    fn from(_error: AllocError) -> Failed {
        Failed
    }
}

impl<T: Drop> From<AllocFailed<T>> for Failed {
    fn from(_error: AllocFailed<T>) -> Failed {
        Failed
    }
}

impl From<CheckError> for Failed {
    fn from(_error: CheckError) -> Failed {
        Failed
    }
}

impl From<ParseError> for Failed {
    fn from(_error: ParseError) -> Failed {
        Failed
    }
}

impl From<Diagnosis> for Failed {
    fn from(_error: Diagnosis) -> Failed {
        Failed
    }
}

impl From<NotFaithful> for Failed {
    fn from(_error: NotFaithful) -> Failed {
        Failed
    }
}

/// The first column of a row, and the others.
fn columns(row: &str) -> (&str, &str) {
    columns_by(row, " => ")
}

/// The first column of a row, and the others, with this text between them.
fn columns_by<'a>(row: &'a str, separator: &str) -> (&'a str, &'a str) {
    row.split_once(separator)
        .unwrap_or((row, "a row of one column"))
}

/// The text was made, and is this one.
fn prints<E: Drop>(rt: &impl Abort, text: Result<String, E>, want: &str) {
    match text {
        Ok(found) => assert!(rt; found.as_str() == want, "{found}, not {want}"),
        Err(_) => assert!(rt; false, "an error, not {want}"),
    }
}

/// It holds for this row.
fn holds(rt: &impl Abort, is: bool, row: &str) {
    assert!(rt; is, "{row}");
}

/// What was asked is so.
fn is_so<E: Drop>(rt: &impl Abort, is: Result<bool, E>, row: &str) {
    match is {
        Ok(is) => holds(rt, is, row),
        Err(_) => assert!(rt; false, "an error at {row}"),
    }
}
