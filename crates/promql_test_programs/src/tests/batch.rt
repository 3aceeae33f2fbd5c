//! Batches over readers and writers in memory, and over some that fail.

use super::streams::{FlakyReader, FlakyWriter};
use super::{NoFiles, check_value, is_so, texts};
use promql_programs::program::program;
use promql_programs::usage::BATCH_HELP;
use promql_query::batch::run_batch;
use promql_query::settings::Settings;
use promql_run::ended::Ended;
use promql_run::format::Format;
use promql_run::run::RunError;
use promql_span::limits::{Limits, MAX_LEN, MAX_OUTPUT, MAX_PATTERN_SIZE};
use promql_span::{Printed, Target};
use std::alloc::Global;
use std::io;
use std::io::BufReader;
use std::process::Abort;

/// The settings of a batch in the mode `line`.
const LINE: Settings = Settings {
    format: Format::Line,
    limits: Limits {
        max_len: MAX_LEN,
        max_pattern_size: MAX_PATTERN_SIZE,
        max_output: MAX_OUTPUT,
        target: Target::Prometheus3,
        printed: Printed::Tree,
    },
};

const LINES: &[u8] =
    b"\"1+2\"\n{\"query\":\"a\",\"mode\":\"json\",\"id\":7}\n\n\"a b\"\n\xff\n\"x\"";

const ANSWERS: &[u8] = b"{\"ok\":\"1 + 2\"}
{\"id\":7,\"ok\":{\"matchers\":[],\"name\":\"a\",\"offset\":0,\"startOrEnd\":null,\"timestamp\":null,\"type\":\"vectorSelector\"}}
{\"code\":7,\"error\":\"line is not a request: it is not JSON, or nested too deeply\"}
{\"code\":4,\"column\":3,\"end\":3,\"error\":\"invalid promql query\",\"expected\":[\"\\\"{\\\"\",\"\\\"[\\\"\",\"\\\"(\\\"\",\"operator\",\"\\\"@\\\"\",\"\\\"offset\\\"\",\"\\\"smoothed\\\"\",\"\\\"anchored\\\"\",\"end of query\"],\"found\":\"identifier \\\"b\\\"\",\"line\":1,\"start\":2}
{\"code\":3,\"error\":\"input is not UTF-8\"}
{\"ok\":\"x\"}
";

#[test]
fn lines_and_their_answers(rt: HostRuntime) {
    let alloc = rt.alloc();
    let mut writer = Ended::new(Vec::new(alloc));
    let answer = run_batch(alloc, &LINE, &mut Ended::new(LINES), &mut writer);
    check_value(&rt, answer, Ok(false), &LINES);
    assert!(rt; writer.inner().as_slice() == ANSWERS && !writer.is_pending());
}

/// What is written of a batch in the mode `line`, and whether each answer is an `ok`.
fn check_batch(rt: &impl Abort, alloc: Global, input: &[u8], want: &[u8], all_ok: bool) {
    let mut reader = Ended::new(input);
    let mut writer = Ended::new(Vec::new(alloc));
    let answer = run_batch(alloc, &LINE, &mut reader, &mut writer);
    check_value(rt, answer, Ok(all_ok), &input);
    assert!(rt; writer.inner().as_slice() == want, "at {input:?}");
}

#[test]
fn ends_of_the_input(rt: HostRuntime) {
    let alloc = rt.alloc();
    check_batch(&rt, alloc, b"", b"", true);
    check_batch(&rt, alloc, b"\"1\"", b"{\"ok\":\"1\"}\n", true);
    check_batch(&rt, alloc, b"\"1\"\n", b"{\"ok\":\"1\"}\n", true);
    let empty =
        b"{\"code\":7,\"error\":\"line is not a request: it is not JSON, or nested too deeply\"}\n";
    check_batch(&rt, alloc, b"\n", empty, false);
}

/// Whether both lines are answered, although the read of this number fails.
fn is_read_on(alloc: Global, fails_at: usize) -> io::Result<bool> {
    let flaky = FlakyReader {
        left: b"\"1\"\n\"2\"\n",
        calls: 0,
        fails_at,
    };
    let mut reader = Ended::new(BufReader::with_capacity(alloc, 2, flaky)?);
    let mut writer = Ended::new(Vec::new(alloc));
    // The fake error is an interruption, after which the read is made again.
    let answer = run_batch(alloc, &LINE, &mut reader, &mut writer);
    let want = b"{\"ok\":\"1\"}\n{\"ok\":\"2\"}\n".as_slice();
    Ok(answer == Ok(true) && !reader.has_failed() && writer.inner().as_slice() == want)
}

#[test]
fn a_reader_that_fails(rt: HostRuntime) {
    // 8 bytes are 4 reads.
    for fails_at in 2..=4 {
        is_so(&rt, is_read_on(rt.alloc(), fails_at), "two lines");
    }
}

#[test]
fn a_writer_that_fails(rt: HostRuntime) {
    let alloc = rt.alloc();
    let want =
        b"{\"ok\":\"1\"}\n{\"code\":7,\"error\":\"line is not a request: it is neither a text nor an object with a text \\\"query\\\"\"}\n";
    // 10 bytes and 100 are 38 writes, their line feeds two, and the flushes before the end is read and after it two more.
    let all: usize = 42;
    for fails_at in 1..=43 {
        let mut reader = Ended::new(b"\"1\"\n1\n".as_slice());
        let mut writer = Ended::new(FlakyWriter::new(alloc, fails_at, 0));
        let answer = run_batch(alloc, &LINE, &mut reader, &mut writer);
        let want_answer = if fails_at <= all {
            Err(RunError::Write)
        } else {
            Ok(false)
        };
        check_value(&rt, answer, want_answer, &fails_at);
        assert_eq!(rt; writer.has_failed(), fails_at <= all);
        assert_eq!(rt; writer.inner().calls, fails_at.min(all));
        assert!(rt;
            want.starts_with(writer.inner().held.as_slice()),
            "at {fails_at}"
        );
    }
}

/// The status of the program with these arguments, and what it writes to its two outputs.
fn check_args(
    rt: &impl Abort,
    alloc: Global,
    args: &[String],
    input: &[u8],
    want: (u8, &str, &str),
) {
    let mut reader = Ended::new(input);
    let mut writer = Ended::new(Vec::new(alloc));
    let mut errors = Ended::new(Vec::new(alloc));
    let status = program(
        alloc,
        false,
        args,
        &mut NoFiles,
        &mut reader,
        &mut writer,
        &mut errors,
    );
    assert_eq!(rt; status, want.0);
    assert!(rt; writer.inner().as_slice() == want.1.as_bytes());
    assert!(rt; errors.inner().as_slice() == want.2.as_bytes());
}

/// The same with these words.
fn check_program(
    rt: &impl Abort,
    alloc: Global,
    words: &[&str],
    input: &[u8],
    want: (u8, &str, &str),
) {
    match texts(alloc, words) {
        Ok(args) => check_args(rt, alloc, args.as_slice(), input, want),
        Err(_) => assert!(rt; false, "out of memory"),
    }
}

#[test]
fn statuses_of_batches(rt: HostRuntime) {
    let alloc = rt.alloc();
    check_program(
        &rt,
        alloc,
        &["", "batch", "line"],
        b"\"1\"\n",
        (0, "{\"ok\":\"1\"}\n", ""),
    );
    check_program(
        &rt,
        alloc,
        &["", "batch", "json"],
        b"1",
        (
            4,
            "{\"code\":7,\"error\":\"line is not a request: it is neither a text nor an object with a text \\\"query\\\"\"}\n",
            "",
        ),
    );
    check_program(
        &rt,
        alloc,
        &[
            "",
            "batch",
            "line",
            "--max-patterns",
            "9",
            "--max-len",
            "10",
        ],
        b"\"{a=~'bcd'}\"\n\"{a=~'bcde'}\"\n\"foo + bar+a\"\n",
        (
            4,
            "{\"ok\":\"{a=~\\\"bcd\\\"}\"}\n{\"code\":14,\"column\":12,\"end\":11,\"error\":\"query is too long: 11 bytes, at most 10\",\"line\":1,\"start\":11}\n{\"code\":14,\"column\":12,\"end\":11,\"error\":\"query is too long: 11 bytes, at most 10\",\"line\":1,\"start\":11}\n",
            "",
        ),
    );
    check_program(
        &rt,
        alloc,
        &["", "batch", "line", "--max-patterns", "9"],
        b"\"{a=~'bcde'}\"\n",
        (
            4,
            "{\"code\":14,\"column\":5,\"end\":10,\"error\":\"patterns are too large: 10, at most 9\",\"line\":1,\"start\":4}\n",
            "",
        ),
    );
    check_program(
        &rt,
        alloc,
        &["", "batch", "--help"],
        b"\"1\"",
        (0, BATCH_HELP, ""),
    );
    check_program(
        &rt,
        alloc,
        &["", "batch", "line", "lines"],
        b"\"1\"",
        (2, "", "lines: entity not found\n"),
    );
}
