//! Runs over readers and writers that fail, and with allocations that fail.

use super::check_value;
use super::streams::{FlakyReader, FlakyWriter};
use promql_run::ended::Ended;
use promql_run::format::{Format, PRETTY_LAYOUT};
use promql_run::run::{RunError, run};

#[test]
fn a_reader_that_fails(rt: HostRuntime) {
    let alloc = rt.alloc();
    // 13 bytes are 7 reads, and the end is one more.
    for fails_at in 1..=9 {
        let mut reader = Ended::new(FlakyReader {
            left: b"1 + (foo - 2)",
            calls: 0,
            fails_at,
        });
        let mut writer = Ended::new(Vec::new(alloc));
        let answer = run(alloc, Format::Line, &mut reader, &mut writer);
        if fails_at <= 8 {
            check_value(&rt, answer, Err(RunError::Read), &fails_at);
            assert!(rt; reader.has_failed() && !writer.has_failed() && writer.inner().is_empty());
            assert_eq!(rt; reader.inner().calls, fails_at);
        } else {
            check_value(&rt, answer, Ok(()), &fails_at);
            assert!(rt;
                !reader.has_failed() && writer.inner().as_slice() == b"1 + (foo - 2)\n".as_slice()
            );
        }
    }
}

#[test]
fn a_writer_that_fails(rt: HostRuntime) {
    let alloc = rt.alloc();
    // 14 bytes are 5 writes, and the flush is one more.
    for fails_at in 1..=7 {
        let input: &[u8] = b"1 + (foo - 2)";
        let mut reader = Ended::new(input);
        let mut writer = Ended::new(FlakyWriter::new(alloc, fails_at, 0));
        let answer = run(alloc, Format::Line, &mut reader, &mut writer);
        let want = if fails_at <= 6 {
            Err(RunError::Write)
        } else {
            Ok(())
        };
        check_value(&rt, answer, want, &fails_at);
        assert_eq!(rt; writer.has_failed(), fails_at <= 6);
        assert!(rt;
            !reader.has_failed() && b"1 + (foo - 2)\n".starts_with(writer.inner().held.as_slice())
        );
        assert_eq!(rt; writer.inner().calls, fails_at.min(6));
    }
}

#[test]
fn a_writer_that_takes_nothing(rt: HostRuntime) {
    let alloc = rt.alloc();
    for takes_none_at in 1..=5 {
        let input: &[u8] = b"1 + (foo - 2)";
        let mut reader = Ended::new(input);
        let mut writer = Ended::new(FlakyWriter::new(alloc, 0, takes_none_at));
        let answer = run(alloc, Format::Line, &mut reader, &mut writer);
        check_value(&rt, answer, Err(RunError::Write), &takes_none_at);
        assert!(rt; writer.has_failed());
        assert_eq!(rt; writer.inner().calls, takes_none_at);
    }
}

// Out of memory, or the same answer: bin/test_memory makes each allocation fail in turn.
#[test]
fn one_row_for_failing_allocations(rt: HostRuntime) {
    let alloc = rt.alloc();
    for (format, input, want) in [
        (
            Format::Pretty(PRETTY_LAYOUT),
            "1 + (foo - 2)",
            "1 + (foo - 2)\n",
        ),
        (Format::Line, "1-2-3", "1 - 2 - 3\n"),
        (
            Format::Json,
            "-(1)",
            "{\"expr\":{\"expr\":{\"type\":\"numberLiteral\",\"val\":\"1\"},\"type\":\"parenExpr\"},\"op\":\"-\",\"type\":\"unaryExpr\"}\n",
        ),
    ] {
        let mut held = [0u8; 128];
        let mut left: &mut [u8] = &mut held;
        let mut reader = Ended::new(input.as_bytes());
        let answer = {
            let mut writer = Ended::new(left);
            run(alloc, format, &mut reader, &mut writer)
        };
        match answer {
            Ok(()) => assert!(rt; held.starts_with(want.as_bytes())),
            Err(error) => {
                check_value(&rt, error, RunError::Memory, &input);
                assert_eq!(rt; held, [0u8; 128]);
            }
        }
    }
}
