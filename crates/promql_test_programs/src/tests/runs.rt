//! Runs over readers and writers in memory.

use super::{check_value, is_so, prints};
use promql_parser::parser::ParseError;
use promql_run::ended::Ended;
use promql_run::format::{Format, PRETTY_LAYOUT};
use promql_run::run::{RunError, run};
use std::alloc::{AllocError, Global};

// One millisecond more than 2^63.
const WIDE: &str = "foo offset -9223372036854775809ms";

const SUM: &str =
    "sum by (code, job) (rate(http_requests_total{code=~\"5..\"}[5m])) / sum by (job) (rate(http_requests_total[5m]))";

const SUM_LINES: &str = "  sum by (code, job) (rate(http_requests_total{code=~\"5..\"}[5m]))
/
  sum by (job) (rate(http_requests_total[5m]))
";

/// Inputs, and their lines or why they have none.
const ROWS: [(&[u8], Result<&[u8], RunError>); 6] = [
    (b"1 + (foo - 2)", Ok(b"1 + (foo - 2)\n")),
    (b"1-2-3\n", Ok(b"1 - 2 - 3\n")),
    (b"", Err(RunError::Parse(ParseError::Empty))),
    (b"a b", Err(RunError::Parse(ParseError::Syntax))),
    (b"1 + \xff", Err(RunError::NotUtf8)),
    (b"+ \xff", Err(RunError::NotUtf8)),
];

#[test]
fn bytes_in_and_out(rt: HostRuntime) {
    let alloc = rt.alloc();
    for (input, want) in &ROWS {
        let mut reader = Ended::new(*input);
        let mut writer = Ended::new(Vec::new(alloc));
        let answer = run(alloc, Format::Line, &mut reader, &mut writer);
        match want {
            Ok(bytes) => {
                check_value(&rt, answer, Ok(()), input);
                assert!(rt; writer.inner().as_slice() == *bytes, "at {input:?}");
            }
            Err(error) => {
                assert!(rt; answer.as_ref().err() == Some(error), "at {input:?}");
                assert!(rt; writer.inner().is_empty(), "at {input:?}");
            }
        }
        assert!(rt; !reader.has_failed() && !writer.has_failed() && reader.inner().is_empty());
    }
}

/// Errors, their numbers and their messages.
const ERRORS: [(RunError, u8, &str); 6] = [
    (RunError::Memory, 1, "out of memory"),
    (RunError::Read, 2, "read failed"),
    (RunError::NotUtf8, 3, "input is not UTF-8"),
    (
        RunError::Parse(ParseError::Syntax),
        4,
        "invalid promql query",
    ),
    (RunError::Write, 5, "write failed"),
    (RunError::Json, 6, "number too wide for JSON"),
];

#[test]
fn errors(rt: HostRuntime) {
    for (error, number, message) in &ERRORS {
        prints(&rt, error.to_string(rt.alloc()), message);
        assert!(rt; error.number() == *number, "{message}");
    }
}

#[test]
fn modes(rt: HostRuntime) {
    assert_eq!(rt;
        Format::from_name("pretty"),
        Some(Format::Pretty(PRETTY_LAYOUT))
    );
    assert_eq!(rt; Format::from_name("line"), Some(Format::Line));
    assert_eq!(rt; Format::from_name("json"), Some(Format::Json));
    assert_eq!(rt; Format::from_name("Line"), None);
    assert_eq!(rt; Format::from_name(""), None);
}

// What a run in the format prints of the text.
fn answer(alloc: Global, format: Format, text: &str) -> Result<Vec<u8>, RunError> {
    let mut reader = Ended::new(text.as_bytes());
    let mut written = Vec::new(alloc);
    run(alloc, format, &mut reader, &mut Ended::new(&mut written))?;
    Ok(written)
}

// Whether a run in the format prints this of the text.
fn is_answer(alloc: Global, format: Format, text: &str, want: &str) -> Result<bool, RunError> {
    let found = answer(alloc, format, text)?;
    Ok(found.as_slice() == want.as_bytes())
}

#[test]
fn laid_out(rt: HostRuntime) {
    let alloc = rt.alloc();
    let pretty = Format::Pretty(PRETTY_LAYOUT);
    is_so(&rt, is_answer(alloc, pretty, SUM, SUM_LINES), SUM);
    let found = answer(alloc, Format::Pretty(PRETTY_LAYOUT), "a b");
    let syntax = RunError::Parse(ParseError::Syntax);
    check_value(&rt, found, Err(syntax), &"a b");
}

#[test]
fn as_json(rt: HostRuntime) {
    let alloc = rt.alloc();
    for (text, want) in [
        (
            "foo @ -1 offset -5m",
            "{\"matchers\":[],\"name\":\"foo\",\"offset\":-300000,\"startOrEnd\":null,\"timestamp\":-1000,\"type\":\"vectorSelector\"}\n",
        ),
        ("-1e3", "{\"type\":\"numberLiteral\",\"val\":\"-1000\"}\n"),
    ] {
        is_so(&rt, is_answer(alloc, Format::Json, text, want), text);
    }
    check_value(
        &rt,
        answer(alloc, Format::Json, WIDE),
        Err(RunError::Json),
        &WIDE,
    );
    let empty = RunError::Parse(ParseError::Empty);
    check_value(&rt, answer(alloc, Format::Json, ""), Err(empty), &"");
}

// The text with so many copies of `x` between `front` and `back`.
fn padded(alloc: Global, front: &str, count: usize, back: &str) -> Result<String, AllocError> {
    let mut made = String::from_str(alloc, front)?;
    for _ in 0..count {
        made.push_str("x")?;
    }
    made.push_str(back)?;
    Ok(made)
}

// Whether a name of so many letters is printed.
fn is_name_printed(alloc: Global, len: usize) -> Result<bool, RunError> {
    let name = padded(alloc, "", len, "")?;
    let want = padded(alloc, "", len, "\n")?;
    is_answer(alloc, Format::Line, name.as_str(), want.as_str())
}

// The input is read in blocks of 4,096 bytes.
#[test]
fn inputs_of_many_blocks(rt: HostRuntime) {
    for len in [
        1, 13, 14, 4_094, 4_095, 4_096, 4_097, 8_191, 8_192, 8_193, 1_000_000,
    ] {
        is_so(&rt, is_name_printed(rt.alloc(), len), "a long name");
    }
}

// Whether a sum is read after a comment of so many letters and the first part of this text.
fn is_sum_read(alloc: Global, before: usize, back: &str) -> Result<bool, RunError> {
    let text = padded(alloc, "1 # ", before, back)?;
    is_answer(alloc, Format::Line, text.as_str(), "1 + 2\n")
}

#[test]
fn characters_across_blocks(rt: HostRuntime) {
    for before in 4_088..4_096 {
        for back in ["é\n+ 2", "€\n+ 2", "\u{1f600}\n+ 2"] {
            is_so(&rt, is_sum_read(rt.alloc(), before, back), back);
        }
    }
}
