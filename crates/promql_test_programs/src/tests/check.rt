//! The subcommand `check`, over its arguments, its input and its outputs.

use super::streams::{FlakyReader, FlakyWriter};
use super::{NoFiles, holds, texts};
use promql_programs::program::program;
use promql_programs::usage::{CHECK_HELP, CHECK_USAGE};
use promql_run::ended::Ended;
use std::alloc::{AllocError, Global};
use std::io;
use std::io::BufReader;
use std::process::Abort;

/// Arguments, input, status, standard output, standard error.
type Row = (
    &'static [&'static str],
    &'static [u8],
    u8,
    &'static str,
    &'static str,
);

/// Queries that are accepted, and ones that are not.
const QUERIES: [Row; 7] = [
    (&["promql", "check"], b"1 + (foo - 2)", 0, "", ""),
    (&["", "check"], b"foo\n", 0, "", ""),
    (
        &["", "check"],
        b"sum(rate(foo[5m]) by (job)\n",
        4,
        "",
        "1:19: unclosed left parenthesis\nsum(rate(foo[5m]) by (job)\n                  ^~\n",
    ),
    (
        &["", "check"],
        b"1 +",
        4,
        "",
        "1:4: unexpected end of query, expected expression, \"bool\", \"ignoring\", \"on\", \"fill\", \"fill_left\" or \"fill_right\"\n1 +\n   ^\n",
    ),
    (
        &["", "check"],
        b"1 +\n",
        4,
        "",
        "1:4: unexpected end of query, expected expression, \"bool\", \"ignoring\", \"on\", \"fill\", \"fill_left\" or \"fill_right\"\n1 +\n   ^\n",
    ),
    (
        &["", "check"],
        b"1 +\r\n",
        4,
        "",
        "1:4: unexpected end of query, expected expression, \"bool\", \"ignoring\", \"on\", \"fill\", \"fill_left\" or \"fill_right\"\n1 +\n   ^\n",
    ),
    (
        &["", "check"],
        b"a\n+ rate(\n  foo)\n\n",
        4,
        "",
        "3:3: expected type matrix in call to function 'rate', got vector\n  foo)\n  ^~~\n",
    ),
];

/// Queries that a target rejects.
const REFUSED: [Row; 6] = [
    (
        &["", "check"],
        b"a{b=\"c\" or d=\"e\"}",
        24,
        "",
        "1:9: Prometheus 3 rejects this: it knows no `or` between matchers\na{b=\"c\" or d=\"e\"}\n        ^~\n",
    ),
    (
        &["", "check", "--target=rules"],
        b"a{b=\"c\" or d=\"e\"}",
        0,
        "",
        "",
    ),
    (&["", "check"], b"a[300]", 0, "", ""),
    (
        &["", "check", "--target", "prometheus-2.42"],
        b"a[300]\n",
        24,
        "",
        "1:3: Prometheus 2.42 rejects this: a length of time without a unit is of a later version; write 300s for 300\na[300]\n  ^~~\n",
    ),
    (
        &["", "check", "--target", "prometheus-2.42"],
        b"rate(a[300]) + -0",
        23,
        "",
        "1:16: Prometheus reads this otherwise: the number is negative zero there, and zero here\nrate(a[300]) + -0\n               ^\n",
    ),
    (
        &["", "check", "--target", "prometheus-2.42"],
        b"a[300] + (",
        4,
        "",
        "1:11: unclosed left parenthesis\na[300] + (\n          ^\n",
    ),
];

/// Queries with characters that are shown in another way, and bytes that are none.
const CHARACTERS: [Row; 9] = [
    (
        &["", "check"],
        b"\x1b]0;x\x07(",
        4,
        "",
        "1:1: unexpected character: '\\x1b'\n\\x1b]0;x\\x07(\n^~~~\n",
    ),
    (
        &["", "check"],
        b"up \xe2\x80\xae +",
        4,
        "",
        "1:4: unexpected character: '\\u{202e}'\nup \\u{202e} +\n   ^~~~~~~~\n",
    ),
    (
        &["", "check"],
        b"a\t+ \xe2\x80\x8f",
        4,
        "",
        "1:5: unexpected character: '\\u{200f}'\na\t+ \\u{200f}\n \t  ^~~~~~~~\n",
    ),
    (
        &["", "check"],
        b"foo{a=\"\x07\x1b\"} b",
        4,
        "",
        "1:13: unexpected identifier \"b\", expected \"[\", operator, \"@\", \"offset\", \"smoothed\", \"anchored\" or end of query; an operator is missing before it\nfoo{a=\"\\x07\\x1b\"} b\n                  ^\n",
    ),
    (
        &["", "check"],
        b"foo{a=~\"(\x7f\"}",
        4,
        "",
        "1:8: illegal regex for (\\x7f\nfoo{a=~\"(\\x7f\"}\n       ^~~~~~~\n",
    ),
    (
        &["", "check"],
        b"a\rb c",
        4,
        "",
        "1:3: unexpected identifier \"b\", expected \"{\", \"[\", \"(\", operator, \"@\", \"offset\", \"smoothed\", \"anchored\" or end of query; an operator is missing before it\na\\x0db c\n     ^\n",
    ),
    (
        &["", "check"],
        b"\xef\xbb\xbfup",
        4,
        "",
        "1:1: unexpected character: '\\u{feff}', a byte order mark at the start of the text\n\\u{feff}up\n^~~~~~~~\n",
    ),
    (
        &["", "check"],
        b"up\xef\xbb\xbf",
        4,
        "",
        "1:3: unexpected character: '\\u{feff}'\nup\\u{feff}\n  ^~~~~~~~\n",
    ),
    (&["", "check"], b"1 + \xff", 3, "", "input is not UTF-8\n"),
];

/// The help.
const HELP: [Row; 2] = [
    (&["", "check", "--help"], b"1", 0, CHECK_HELP, ""),
    (&["", "check", "-h"], b"1", 0, CHECK_HELP, ""),
];

/// Arguments, and what is said of them before how a check is used.
const MISUSES: [(&[&str], &str); 9] = [
    (&["", "check", "--max-len"], "--max-len needs a value\n"),
    (
        &["", "check", "--max-len", "x"],
        "--max-len is a whole number below 2^64, not \"x\"\n",
    ),
    (
        &["", "check", "--max-length", "1"],
        "there is no option \"--max-length\"; did you mean --max-len?\n",
    ),
    (&["", "check", "-x"], "there is no option \"-x\"\n"),
    (
        &["", "check", "--color", "sometimes"],
        "--color is auto, always or never, not \"sometimes\"\n",
    ),
    (&["", "check", "--color"], "--color needs a value\n"),
    (
        &["", "check", "--target", "prometheus"],
        "--target is prometheus-2.42, prometheus-3 or rules, not \"prometheus\"\n",
    ),
    (
        &["", "check", "--keep-spelling"],
        "there is no option \"--keep-spelling\"\n",
    ),
    (
        &["", "check", "--help", "--help"],
        "\"--help\" has nothing beside it\n",
    ),
];

/// Queries and their limits.
const LIMITS: [Row; 6] = [
    (&["", "check", "--max-len", "4"], b"foo2\n", 0, "", ""),
    (
        &["", "check", "--max-len", "9", "--max-len", "3"],
        b"a\n+-\n",
        14,
        "",
        "2:3: query is too long: 4 bytes, at most 3\n+-\n  ^\n",
    ),
    (
        &["", "check", "--max-len", "0"],
        b"a",
        14,
        "",
        "1:2: query is too long: 1 bytes, at most 0\na\n ^\n",
    ),
    (
        &["", "check", "--max-patterns", "9"],
        b"{a=~\"bcd\"}",
        0,
        "",
        "",
    ),
    (
        &["", "check", "--max-patterns", "17"],
        b"{a=~\"bcd\",b!~\"bcd\",c=\"d\"} b",
        14,
        "",
        "1:14: patterns are too large: 18, at most 17\n{a=~\"bcd\",b!~\"bcd\",c=\"d\"} b\n             ^~~~~\n",
    ),
    (
        &["", "check"],
        b"{a=~'b',b!~'\\\\w{32000}',c=~'d'} b",
        14,
        "",
        "1:12: patterns are too large: 1184051, at most 16000\n{a=~'b',b!~'\\\\w{32000}',c=~'d'} b\n           ^~~~~~~~~~~~\n",
    ),
];

/// The program with these arguments does what the row says.
fn check_row(rt: &impl Abort, alloc: Global, args: &[String], row: &Row) {
    let (words, input, status, line, report) = *row;
    let mut reader = Ended::new(input);
    let mut writer = Ended::new(Vec::new(alloc));
    let mut errors = Ended::new(Vec::new(alloc));
    let found = program(
        alloc,
        false,
        args,
        &mut NoFiles,
        &mut reader,
        &mut writer,
        &mut errors,
    );
    assert_eq!(rt; found, status, "{words:?}");
    assert!(rt; writer.inner().as_slice() == line.as_bytes(), "{words:?}");
    assert!(rt; errors.inner().as_slice() == report.as_bytes(), "{input:?}");
    let is_read = status != 64 && line.is_empty();
    assert_eq!(rt; reader.inner().is_empty(), is_read, "{words:?}");
}

fn check_rows(rt: &impl Abort, alloc: Global, rows: &[Row]) {
    for row in rows {
        match texts(alloc, row.0) {
            Ok(args) => check_row(rt, alloc, args.as_slice(), row),
            Err(_) => holds(rt, false, "no arguments"),
        }
    }
}

#[test]
fn queries_are_reported(rt: HostRuntime) {
    check_rows(&rt, rt.alloc(), &QUERIES);
}

#[test]
fn targets_reject_queries(rt: HostRuntime) {
    check_rows(&rt, rt.alloc(), &REFUSED);
}

#[test]
fn characters_are_shown(rt: HostRuntime) {
    check_rows(&rt, rt.alloc(), &CHARACTERS);
}

#[test]
fn arguments_have_statuses(rt: HostRuntime) {
    check_rows(&rt, rt.alloc(), &HELP);
}

/// The program says of these arguments what the row says, and how a check is used.
fn check_misuse(rt: &impl Abort, alloc: Global, args: &[String], said: &str) {
    let input: &[u8] = b"1";
    let mut reader = Ended::new(input);
    let mut writer = Ended::new(Vec::new(alloc));
    let mut errors = Ended::new(Vec::new(alloc));
    let found = program(
        alloc,
        false,
        args,
        &mut NoFiles,
        &mut reader,
        &mut writer,
        &mut errors,
    );
    assert_eq!(rt; found, 64, "{said}");
    assert!(rt;
        writer.inner().is_empty() && !reader.inner().is_empty(),
        "{said}"
    );
    let text = errors.inner().as_slice();
    assert!(rt;
        text.strip_prefix(said.as_bytes()) == Some(CHECK_USAGE.as_bytes()),
        "{said}"
    );
}

#[test]
fn wrong_arguments_are_told(rt: HostRuntime) {
    for (words, said) in &MISUSES {
        match texts(rt.alloc(), words) {
            Ok(args) => check_misuse(&rt, rt.alloc(), args.as_slice(), said),
            Err(_) => holds(&rt, false, "no arguments"),
        }
    }
}

#[test]
fn queries_have_limits(rt: HostRuntime) {
    check_rows(&rt, rt.alloc(), &LIMITS);
}

/// Options, whether there are colors where none says it, input, status, and standard error.
type ColorRow = (
    &'static [&'static str],
    bool,
    &'static [u8],
    u8,
    &'static str,
);

const COLOR_ROWS: [ColorRow; 10] = [
    (
        &["", "check"],
        false,
        b"1 + ^",
        4,
        "1:5: unexpected \"^\", expected expression, \"bool\", \"ignoring\", \"on\", \"fill\", \"fill_left\" or \"fill_right\"\n1 + ^\n    ^\n",
    ),
    (
        &["", "check"],
        true,
        b"1 + ^",
        4,
        "\x1b[1m1:5:\x1b[0m unexpected \"^\", expected expression, \"bool\", \"ignoring\", \"on\", \"fill\", \"fill_left\" or \"fill_right\"\n1 + ^\n    \x1b[1;32m^\x1b[0m\n",
    ),
    (
        &["", "check", "--color", "never"],
        true,
        b"rate(foo)",
        4,
        "1:6: expected type matrix in call to function 'rate', got vector\nrate(foo)\n     ^~~\n",
    ),
    (
        &["", "check", "--color", "always"],
        false,
        b"rate(foo)",
        4,
        "\x1b[1m1:6:\x1b[0m expected type matrix in call to function 'rate', got vector\nrate(foo)\n     \x1b[1;32m^~~\x1b[0m\n",
    ),
    (
        &["", "check", "--color", "never", "--color", "auto"],
        true,
        b"a\x1b",
        4,
        "\x1b[1m1:2:\x1b[0m unexpected character: '\\x1b'\na\\x1b\n \x1b[1;32m^~~~\x1b[0m\n",
    ),
    (
        &[
            "", "check", "--color", "always", "--target", "rules", "--color", "auto",
        ],
        false,
        b"\"\\xc3\"",
        0,
        "1:2: warning: this escape is a character here, and a byte in Prometheus\n\"\\xc3\"\n ^~~~\n",
    ),
    (
        &[
            "",
            "check",
            "--max-len",
            "9",
            "--color",
            "always",
            "--target",
            "prometheus-3",
        ],
        false,
        b"\"\\xc3\"",
        23,
        "\x1b[1m1:2:\x1b[0m Prometheus reads this otherwise: the escape is a byte there, and a character here\n\"\\xc3\"\n \x1b[1;32m^~~~\x1b[0m\n",
    ),
    (
        &[
            "",
            "check",
            "--max-len",
            "9",
            "--color",
            "always",
            "--target",
            "rules",
        ],
        false,
        b"\"\\xc3\"",
        0,
        "\x1b[1m1:2:\x1b[0m \x1b[35mwarning: \x1b[0mthis escape is a character here, and a byte in Prometheus\n\"\\xc3\"\n \x1b[1;32m^~~~\x1b[0m\n",
    ),
    (
        &["", "check", "--color", "always", "--max-len", "0"],
        false,
        b"a",
        14,
        "\x1b[1m1:2:\x1b[0m query is too long: 1 bytes, at most 0\na\n \x1b[1;32m^\x1b[0m\n",
    ),
    (
        &["", "check", "--color", "always"],
        true,
        b"\xff",
        3,
        "input is not UTF-8\n",
    ),
];

/// The program with these options and this setting says what the row says.
fn check_color_row(rt: &impl Abort, alloc: Global, args: &[String], row: &ColorRow) {
    let (words, usual, input, status, report) = *row;
    let mut errors = Ended::new(Vec::new(alloc));
    let found = program(
        alloc,
        usual,
        args,
        &mut NoFiles,
        &mut Ended::new(input),
        &mut Ended::new(Vec::new(alloc)),
        &mut errors,
    );
    assert_eq!(rt; found, status, "{words:?}");
    assert!(rt;
        errors.inner().as_slice() == report.as_bytes(),
        "{words:?} {input:?}"
    );
}

#[test]
fn colors_of_reports(rt: HostRuntime) {
    for row in &COLOR_ROWS {
        match texts(rt.alloc(), row.0) {
            Ok(args) => check_color_row(&rt, rt.alloc(), args.as_slice(), row),
            Err(_) => holds(&rt, false, "no arguments"),
        }
    }
}

/// The status and the message of a read that fails.
fn failed_read(alloc: Global, args: &[String]) -> io::Result<(u8, Vec<u8>)> {
    let flaky = FlakyReader {
        left: b"1 + 2",
        calls: 0,
        fails_at: 2,
    };
    let mut said = Vec::new(alloc);
    let status = program(
        alloc,
        false,
        args,
        &mut NoFiles,
        &mut Ended::new(BufReader::with_capacity(alloc, 2, flaky)?),
        &mut Ended::new(Vec::new(alloc)),
        &mut Ended::new(&mut said),
    );
    Ok((status, said))
}

#[test]
fn a_failed_read_ends_with_two(rt: HostRuntime) {
    let Ok(args) = texts(rt.alloc(), &["", "check"]) else {
        return;
    };
    match failed_read(rt.alloc(), args.as_slice()) {
        Ok((status, said)) => {
            assert_eq!(&rt; status, 2);
            assert!(&rt; said.as_slice() == b"read failed\n".as_slice());
        }
        Err(_) => holds(&rt, false, "no buffer"),
    }
}

/// The status of the program with these words, whose writes fail.
fn failed_status(alloc: Global, words: &[&str]) -> Result<u8, AllocError> {
    let input: &[u8] = b"a b";
    let args = texts(alloc, words)?;
    Ok(program(
        alloc,
        true,
        args.as_slice(),
        &mut NoFiles,
        &mut Ended::new(input),
        &mut Ended::new(FlakyWriter::new(alloc, 2, 0)),
        &mut Ended::new(FlakyWriter::new(alloc, 2, 0)),
    ))
}

// The status is the same where the report cannot be written; the help has no other place.
#[test]
fn writes_that_fail(rt: HostRuntime) {
    let status = failed_status(rt.alloc(), &["", "check"]);
    holds(&rt, status == Ok(4), "a report");
    let status = failed_status(rt.alloc(), &["", "check", "--help"]);
    holds(&rt, status == Ok(5), "the help");
}
