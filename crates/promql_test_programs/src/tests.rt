//! The programs as functions of their arguments, inputs and outputs. What a test says of a row is said by the calls below: they are
//! proved once, and a test that only calls them is proved fast. A long table is several, since an array costs the square of its
//! length.

mod batch;
mod check;
mod failures;
mod files;
mod long_matchers;
mod options;
mod program;
mod runs;
mod streams;
mod trees;

use promql_programs::program::OpensFiles;
use std::alloc::{AllocError, Global};
use std::fmt::Debug;
use std::io;
use std::io::ErrorKind;
use std::process::Abort;

/// No files.
#[derive(Drop)]
struct NoFiles;

impl OpensFiles for NoFiles {
    type File = &'static [u8];

    fn open(&mut self, _alloc: Global, _name: &str) -> io::Result<&'static [u8]> {
        Err(io::Error::from(ErrorKind::NotFound))
    }
}

/// The value is the wanted one, at this row.
fn check_value<T: Debug + Drop + PartialEq>(rt: &impl Abort, found: T, want: T, row: &impl Debug) {
    assert_eq!(rt; found, want, "at {row:?}");
}

/// The text was made, and is this one.
fn prints<E: Drop>(rt: &impl Abort, text: Result<String, E>, want: &str) {
    match text {
        Ok(found) => assert!(rt; found.as_str() == want, "{found}, not {want}"),
        Err(_) => assert!(rt; false, "an error, not {want}"),
    }
}

/// It holds for this row.
fn holds(rt: &impl Abort, is: bool, row: &str) {
    assert!(rt; is, "{row}");
}

/// What was asked is so.
fn is_so<E: Drop>(rt: &impl Abort, is: Result<bool, E>, row: &str) {
    match is {
        Ok(is) => holds(rt, is, row),
        Err(_) => assert!(rt; false, "an error at {row}"),
    }
}

fn texts(alloc: Global, words: &[&str]) -> Result<Vec<String>, AllocError> {
    let mut texts = Vec::new(alloc);
    for word in words {
        texts.push(String::from_str(alloc, word)?)?;
    }
    Ok(texts)
}
