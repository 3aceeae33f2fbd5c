//! Expressions printed into writers that fail, and errors that have no text.

use super::trees::{KINDS, kind};
use super::{holds, prints};
use promql_ast::{CheckError, Expr, PrettyError};
use promql_walk::JsonError;
use std::alloc::Global;
use std::fmt;
use std::fmt::Write;
use std::process::Abort;

/// Keeps what it is given, and fails at one of its calls.
#[derive(Drop)]
struct Failing {
    text: String,
    calls: usize,
    fails_at: usize,
}

impl Write for Failing {
    fn write_str(&mut self, text: &str) -> fmt::Result {
        self.calls = self.calls.saturating_add(1);
        if self.calls == self.fails_at || self.text.push_str(text).is_err() {
            return Err(fmt::Error);
        }
        Ok(())
    }
}

/// Whether printing into a writer that fails at this call fails, after a beginning of the text, and without a further
/// call; or whether the whole text was printed with fewer calls.
fn fails_well(alloc: Global, expr: &Expr, text: &str, fails_at: usize) -> bool {
    let mut writer = Failing {
        text: String::new(alloc),
        calls: 0,
        fails_at,
    };
    let printed = write!(&mut writer, "{expr}");
    if printed.is_ok() {
        writer.calls < fails_at && writer.text.as_str() == text
    } else {
        writer.calls == fails_at && text.starts_with(writer.text.as_str())
    }
}

/// A write that fails at any of its calls ends the printing of the expression.
fn check_writes(rt: &impl Abort, alloc: Global, expr: &Expr, text: &str) {
    for fails_at in 1..=20 {
        holds(rt, fails_well(alloc, expr, text, fails_at), text);
    }
}

#[test]
fn a_failed_write_ends_printing(rt: HostRuntime) {
    for text in &KINDS {
        match kind(rt.alloc(), text) {
            Ok(expr) => check_writes(&rt, rt.alloc(), &expr, text),
            Err(_) => holds(&rt, false, text),
        }
    }
}

#[test]
fn errors_of_memory_have_messages(rt: HostRuntime) {
    let alloc = rt.alloc();
    prints(&rt, CheckError::Memory.to_string(alloc), "out of memory");
    prints(&rt, PrettyError::Memory.to_string(alloc), "out of memory");
    prints(&rt, JsonError::Memory.to_string(alloc), "out of memory");
    let wide = PrettyError::IndentTooWide.to_string(alloc);
    prints(&rt, wide, "indentation too wide");
}
