//! The program over its arguments, its input and its outputs.

use super::streams::FlakyWriter;
use super::{NoFiles, holds, is_so, texts};
use promql_programs::program::program;
use promql_programs::usage::HELP;
use promql_run::ended::Ended;
use std::alloc::{AllocError, Global};
use std::process::Abort;

const USAGE: &str =
    "usage: promql line|pretty|json|check|format|enforce|batch [OPTION..] [FILE..]\n";

/// Arguments, input, status, standard output, standard error.
type Row = (
    &'static [&'static str],
    &'static [u8],
    u8,
    &'static str,
    &'static str,
);

const ROWS: [Row; 18] = [
    (
        &["promql", "line"],
        b"1 + (foo - 2)",
        0,
        "1 + (foo - 2)\n",
        "",
    ),
    (&["", "line"], b"007\n", 0, "7\n", ""),
    (&["promql", "pretty"], b"(((a)))", 0, "(((a)))\n", ""),
    (
        &["promql", "json"],
        b"\"a\\n\"",
        0,
        "{\"type\":\"stringLiteral\",\"val\":\"a\\n\"}\n",
        "",
    ),
    (
        &["promql", "json"],
        b"a[18446744073709551616ms]",
        6,
        "",
        "number too wide for JSON\n",
    ),
    (
        &["promql", "line"],
        b"a b",
        4,
        "",
        "1:3: unexpected identifier \"b\", expected \"{\", \"[\", \"(\", operator, \"@\", \"offset\", \"smoothed\", \"anchored\" or end of query; an operator is missing before it\na b\n  ^\n",
    ),
    (
        &["promql", "json"],
        b"a +\n",
        4,
        "",
        "1:4: unexpected end of query, expected expression, \"bool\", \"ignoring\", \"on\", \"fill\", \"fill_left\" or \"fill_right\"\na +\n   ^\n",
    ),
    (
        &["promql", "line"],
        b"1 + \xff",
        3,
        "",
        "input is not UTF-8\n",
    ),
    (&[], b"1", 64, "", USAGE),
    (&["promql"], b"1", 64, "", USAGE),
    (&["line"], b"1", 64, "", USAGE),
    (&["", "--help"], b"1", 0, HELP, ""),
    (&["", "--version"], b"1", 0, "promql 0.10.0\n", ""),
    (&["", "line", "--version"], b"1", 0, "promql 0.10.0\n", ""),
    (&["", "line", "-"], b"1", 0, "1\n", ""),
    (
        &["", "line", "--", "-", "-"],
        b"1",
        4,
        "1\n",
        "1:1: no expression found in input\n\n^\n",
    ),
    (&["", "enforce", "a=\"b\""], b"c", 0, "c{a=\"b\"}\n", ""),
    (&["", "format", "--check"], b"sum(a)\r\n", 0, "", ""),
];

/// The program with these arguments does what the row says.
fn check_row(rt: &impl Abort, alloc: Global, args: &[String], row: &Row) {
    let (words, input, status, line, message) = *row;
    let mut reader = Ended::new(input);
    let mut writer = Ended::new(Vec::new(alloc));
    let mut errors = Ended::new(Vec::new(alloc));
    let found = program(
        alloc,
        false,
        args,
        &mut NoFiles,
        &mut reader,
        &mut writer,
        &mut errors,
    );
    assert_eq!(rt; found, status, "{words:?}");
    assert!(rt; writer.inner().as_slice() == line.as_bytes(), "{words:?}");
    assert!(rt;
        errors.inner().as_slice() == message.as_bytes(),
        "{words:?}"
    );
    let is_read = status != 64 && !line.starts_with("usage") && !line.starts_with("promql");
    assert_eq!(rt; reader.inner().is_empty(), is_read, "{words:?}");
}

#[test]
fn statuses_and_messages(rt: HostRuntime) {
    for row in &ROWS {
        match texts(rt.alloc(), row.0) {
            Ok(args) => check_row(&rt, rt.alloc(), args.as_slice(), row),
            Err(_) => holds(&rt, false, "no arguments"),
        }
    }
}

/// A write that fails has its status and its message.
fn check_failed_write(rt: &impl Abort, alloc: Global, args: &[String]) {
    let input: &[u8] = b"1 + 2";
    let mut writer = Ended::new(FlakyWriter::new(alloc, 2, 0));
    let mut errors = Ended::new(Vec::new(alloc));
    let mut reader = Ended::new(input);
    let status = program(
        alloc,
        false,
        args,
        &mut NoFiles,
        &mut reader,
        &mut writer,
        &mut errors,
    );
    assert_eq!(rt; status, 5);
    assert!(rt; writer.inner().held.as_slice() == b"1 +".as_slice());
    assert!(rt; errors.inner().as_slice() == b"write failed\n".as_slice());
}

#[test]
fn a_failed_write_ends_with_five(rt: HostRuntime) {
    match texts(rt.alloc(), &["promql", "line"]) {
        Ok(args) => check_failed_write(&rt, rt.alloc(), args.as_slice()),
        Err(_) => holds(&rt, false, "no arguments"),
    }
}

/// Whether the program ends with this status where its message cannot be written, and writes nothing else.
fn is_lost(alloc: Global, word: &str, want: u8) -> Result<bool, AllocError> {
    let input: &[u8] = b"a b";
    let args = texts(alloc, &["promql", word])?;
    let mut writer = Ended::new(Vec::new(alloc));
    let mut errors = Ended::new(FlakyWriter::new(alloc, 1, 0));
    let status = program(
        alloc,
        false,
        args.as_slice(),
        &mut NoFiles,
        &mut Ended::new(input),
        &mut writer,
        &mut errors,
    );
    Ok(status == want && errors.has_failed() && writer.inner().is_empty())
}

// The status is the same where the message cannot be written.
#[test]
fn a_message_that_is_lost(rt: HostRuntime) {
    is_so(&rt, is_lost(rt.alloc(), "line", 4), "a syntax error");
    is_so(&rt, is_lost(rt.alloc(), "other", 64), "another mode");
}
