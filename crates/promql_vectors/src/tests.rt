//! Each text with its tree or its fault, printed, laid out, as JSON and walked; what a user of the crates writes, with the
//! programs of docs/guide/cookbook.md. What a test says of a row is said by the calls below: they are proved once, and a test that
//! only calls them is proved fast. Where the rows of a long table are lines, it is one text.

mod canonical;
mod dashboards;
mod expected;
mod facade;
mod faults;
mod guide;
mod layouts;
mod limits;
mod locations;
mod memory;
mod readme;
mod trees;
mod visitors;

use promql_parser::parser::{Expr, ParseError, PrettyError, parse};
use std::alloc::{AllocError, AllocFailed, Global};
use std::fmt::Debug;
use std::process::Abort;

/// A value that a test looks at was not made.
#[derive(Drop)]
struct Failed;

impl From<AllocError> for Failed {
    fn from(_error: AllocError) -> Failed {
        Failed
    }
}

impl<T: Drop> From<AllocFailed<T>> for Failed {
    fn from(_error: AllocFailed<T>) -> Failed {
        Failed
    }
}

impl From<ParseError> for Failed {
    fn from(_error: ParseError) -> Failed {
        Failed
    }
}

impl From<PrettyError> for Failed {
    fn from(_error: PrettyError) -> Failed {
        Failed
    }
}

/// The text was made, and is this one.
fn prints<E: Drop>(rt: &impl Abort, text: Result<String, E>, want: &str) {
    match text {
        Ok(found) => assert!(rt; found.as_str() == want, "{found}, not {want}"),
        Err(_) => assert!(rt; false, "an error, not {want}"),
    }
}

/// It holds for this row.
fn holds(rt: &impl Abort, is: bool, row: &str) {
    assert!(rt; is, "{row}");
}

/// What was asked is so.
fn is_so<E: Drop>(rt: &impl Abort, is: Result<bool, E>, row: &str) {
    match is {
        Ok(is) => holds(rt, is, row),
        Err(_) => assert!(rt; false, "an error at {row}"),
    }
}

/// The value is the wanted one, at this row.
fn check_value<T: Debug + Drop + PartialEq>(rt: &impl Abort, found: T, want: T, row: &impl Debug) {
    assert_eq!(rt; found, want, "at {row:?}");
}

/// The tree of a text.
fn read(alloc: Global, text: &str) -> Result<Box<Expr>, Failed> {
    Ok(Box::new(alloc, parse(alloc, text)?)?)
}

/// The text, so many times, between two others.
fn repeated(
    alloc: Global,
    front: &str,
    text: &str,
    times: usize,
    back: &str,
) -> Result<String, AllocError> {
    let mut made = String::from_str(alloc, front)?;
    for _ in 0..times {
        made.push_str(text)?;
    }
    made.push_str(back)?;
    Ok(made)
}

/// The error of a text that has no tree.
fn error_of(alloc: Global, text: &str) -> Option<ParseError> {
    parse(alloc, text).err()
}
