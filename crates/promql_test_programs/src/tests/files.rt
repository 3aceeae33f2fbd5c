//! The program over files.

use super::{holds, texts};
use promql_programs::program::{OpensFiles, program};
use promql_run::ended::Ended;
use std::alloc::Global;
use std::io;
use std::io::ErrorKind;
use std::process::Abort;

/// Three files.
#[derive(Drop)]
struct ThreeFiles;

impl OpensFiles for ThreeFiles {
    type File = &'static [u8];

    fn open(&mut self, _alloc: Global, name: &str) -> io::Result<&'static [u8]> {
        match name {
            "sum" => Ok(b"sum(a)by(b)\n"),
            "--wrong" => Ok(b"\xef\xbb\xbf1 +\r\n"),
            "lines" => Ok(b"\"1\"\n2\n"),
            _ => Err(io::Error::from(ErrorKind::NotFound)),
        }
    }
}

/// Arguments, status, standard output, standard error.
type Row = (&'static [&'static str], u8, &'static str, &'static str);

const ROWS: [Row; 7] = [
    (&["", "line", "sum", "-"], 0, "sum by (b) (a)\nc\n", ""),
    (&["", "check", "sum", "-"], 0, "", ""),
    (
        &["", "line", "none", "sum"],
        2,
        "sum by (b) (a)\n",
        "none: entity not found\n",
    ),
    (
        &["", "enforce", "d=\"e\"", "--max-len=12", "sum"],
        16,
        "",
        "sum: the matcher is not within the limits: query is too long: 14 bytes, at most 12\n",
    ),
    (
        &["", "check", "--", "--wrong", "sum"],
        4,
        "",
        "--wrong:1:4: unexpected end of query, expected expression, \"bool\", \"ignoring\", \"on\", \"fill\", \"fill_left\" or \"fill_right\"\n1 +\n   ^\n",
    ),
    (
        &["", "format", "--check", "sum"],
        19,
        "",
        "sum: the query is not formatted\n",
    ),
    (
        &["", "batch", "line", "lines", "none"],
        4,
        "{\"ok\":\"1\"}\n{\"code\":7,\"error\":\"line is not a request: it is neither a text nor an object with a text \\\"query\\\"\"}\n",
        "none: entity not found\n",
    ),
];

/// The program does what the row says.
fn check_row(rt: &impl Abort, alloc: Global, args: &[String], row: &Row) {
    let (words, status, line, message) = *row;
    let input: &[u8] = b"c";
    let mut writer = Ended::new(Vec::new(alloc));
    let mut errors = Ended::new(Vec::new(alloc));
    let found = program(
        alloc,
        false,
        args,
        &mut ThreeFiles,
        &mut Ended::new(input),
        &mut writer,
        &mut errors,
    );
    assert_eq!(rt; found, status, "{words:?}");
    assert!(rt; writer.inner().as_slice() == line.as_bytes(), "{words:?}");
    assert!(rt;
        errors.inner().as_slice() == message.as_bytes(),
        "{words:?}"
    );
}

#[test]
fn files_are_read(rt: HostRuntime) {
    for row in &ROWS {
        match texts(rt.alloc(), row.0) {
            Ok(args) => check_row(&rt, rt.alloc(), args.as_slice(), row),
            Err(_) => holds(&rt, false, "no arguments"),
        }
    }
}
