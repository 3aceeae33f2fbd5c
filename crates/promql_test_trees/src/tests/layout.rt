//! Expressions over several lines.

ghost use Rattle.std.specs.Prelude.{◌≡◌, IfOk, Some, codes, refl, string_bytes};

use super::trees::{EXTENSION, KINDS, arguments, is_read, kind, read};
use super::{Failed, holds, is_so, prints};
use promql_ast::{Expr, FunctionArgs, Prettier, PrettyError, Tally};
use promql_parser::parser::{EvalStmt, ParseError, parse};
use promql_text::{minute_duration, second_duration};
use std::alloc::Global;
use std::fmt;
use std::process::Abort;

/// An expression that is split in lines of 17 bytes, and not in lines of 18.
const SHARE: &str = "sum by (b) (a) / c";

/// A value at level 1, at a width where its line or a part of it is too long and at one where it is not; then the value
/// over several lines, and the least width that its line fits.
#[derive(Clone, Copy)]
struct Row {
    max: usize,
    split: &'static str,
    line: &'static str,
    format: &'static str,
    fits: usize,
}

impl Row {
    /// The row of a node that never splits.
    fn leaf(line: &'static str) -> Row {
        Row {
            max: 0,
            split: line,
            line,
            format: line,
            fits: 0,
        }
    }
}

/// Each kind of node that is split, with its row.
const NODES: [(&str, Row); 6] = [
    (
        "topk by (l) (5, a)",
        Row {
            max: 17,
            split: "  topk by (l) (\n    5,\n    a\n  )",
            line: "  topk by (l) (5, a)",
            format: "  topk by (l) (\n    5,\n    a\n  )",
            fits: 18,
        },
    ),
    (
        "-(a)",
        Row {
            max: 2,
            split: "  -(\n    a\n  )",
            line: "  -(a)",
            format: "  -(a)",
            fits: 4,
        },
    ),
    (
        "a + on (l) group_left (k) b",
        Row {
            max: 26,
            split: "    a\n  + on (l) group_left (k)\n    b",
            line: "  a + on (l) group_left (k) b",
            format: "    a\n  + on (l) group_left (k)\n    b",
            fits: 27,
        },
    ),
    (
        "(a)",
        Row {
            max: 2,
            split: "  (\n    a\n  )",
            line: "  (a)",
            format: "  (\n    a\n  )",
            fits: 3,
        },
    ),
    (
        "(a)[5m:1m]",
        Row {
            max: 2,
            split: "  (\n    a\n  )[5m:1m]",
            line: "  (a)[5m:1m]",
            format: "  (a)[5m:1m]",
            fits: 10,
        },
    ),
    (
        "rate(a[5m])",
        Row {
            max: 10,
            split: "  rate(\n    a[5m]\n  )",
            line: "  rate(a[5m])",
            format: "  rate(\n    a[5m]\n  )",
            fits: 11,
        },
    ),
];

/// The nodes that are never split, at level 1.
const LEAVES: [(&str, &str); 4] = [
    ("1.5", "  1.5"),
    (r#""a\"b""#, r#"  "a\"b""#),
    (
        r#"a{b="1"} @ 1 offset 1m"#,
        r#"  a{b="1"} @ 1.000 offset 1m"#,
    ),
    ("a[5m] anchored offset 1m", "  a[5m] anchored offset 1m"),
];

fn check<T: Prettier>(rt: &impl Abort, alloc: Global, value: &T, row: &Row) {
    prints(rt, value.pretty(alloc, 1, row.max), row.split);
    prints(rt, value.pretty(alloc, 1, 100), row.line);
    prints(rt, value.format(alloc, 1, 100), row.format);
    holds(rt, !value.needs_split(row.fits), row.line);
    let is_least = row.fits == 0 || value.needs_split(row.fits - 1);
    holds(rt, is_least, row.line);
}

/// The node of an expression, as a value of its own.
fn check_node(rt: &impl Abort, alloc: Global, expr: &Expr, row: &Row) {
    match expr {
        Expr::Aggregate(e) => check(rt, alloc, e, row),
        Expr::Unary(e) => check(rt, alloc, e, row),
        Expr::Binary(e) => check(rt, alloc, e, row),
        Expr::Paren(e) => check(rt, alloc, e, row),
        Expr::Subquery(e) => check(rt, alloc, e, row),
        Expr::NumberLiteral(e) => check(rt, alloc, e, row),
        Expr::StringLiteral(e) => check(rt, alloc, e, row),
        Expr::VectorSelector(e) => check(rt, alloc, e, row),
        Expr::MatrixSelector(e) => check(rt, alloc, e, row),
        Expr::Call(e) => check(rt, alloc, e, row),
        Expr::Extension(_) => holds(rt, false, "an extension"),
    }
}

/// The node of a text, as a value of its own.
fn check_text(rt: &impl Abort, alloc: Global, text: &str, row: &Row) {
    match read(alloc, text) {
        Ok(expr) => check_node(rt, alloc, &expr, row),
        Err(_) => holds(rt, false, text),
    }
}

#[test]
fn each_node_by_itself(rt: HostRuntime) {
    for (text, row) in &NODES {
        check_text(&rt, rt.alloc(), text, row);
    }
    for (text, line) in &LEAVES {
        check_text(&rt, rt.alloc(), text, &Row::leaf(line));
    }
}

/// `1, (a), 2`
const ARGUMENTS: Row = Row {
    max: 2,
    split: "  1,\n  (\n    a\n  ),\n  2",
    line: "  1,\n  (a),\n  2",
    format: "  1, (a), 2",
    fits: 9,
};

#[test]
fn arguments_have_a_line_each(rt: HostRuntime) {
    match arguments(rt.alloc(), &["1", "(a)", "2"]) {
        Ok(args) => check(&rt, rt.alloc(), &args, &ARGUMENTS),
        Err(_) => holds(&rt, false, "1, (a), 2"),
    }
}

#[test]
fn no_arguments_have_no_line(rt: HostRuntime) {
    let alloc = rt.alloc();
    let none = FunctionArgs::empty_args(alloc);
    prints(&rt, none.pretty(alloc, 1, 0), "");
    prints(&rt, none.format(alloc, 1, 0), "  ");
}

/// The expression is laid out on this line, and formatted as it is.
fn check_kept(rt: &impl Abort, alloc: Global, expr: &Expr, line: &str) {
    prints(rt, expr.pretty(alloc, 0, line.len()), line);
    prints(rt, expr.format(alloc, 0, 0), line);
}

#[test]
fn a_line_that_fits_is_kept(rt: HostRuntime) {
    for line in &KINDS {
        match kind(rt.alloc(), line) {
            Ok(expr) => check_kept(&rt, rt.alloc(), &expr, line),
            Err(_) => holds(&rt, false, line),
        }
    }
}

/// `a` at each 15 seconds from the first time to the last.
pub fn statement(alloc: Global, start: i64, end: i64) -> Result<Box<EvalStmt>, Failed> {
    let statement = EvalStmt {
        expr: parse(alloc, "a")?,
        start,
        end,
        interval: second_duration() * 15,
        lookback_delta: minute_duration() * 5,
    };
    Ok(Box::new(alloc, statement)?)
}

/// The first time and the last of a statement of `a`, and how it prints.
const STATEMENTS: [(i64, i64, &str); 4] = [
    (0, 1500, "[a] @ [0.000, 1.500, 15s, 5m]"),
    (-1500, -1, "[a] @ [-1.500, -0.001, 15s, 5m]"),
    (
        -62_135_596_800_000,
        -1_000,
        "[a] @ [-62135596800.000, -1.000, 15s, 5m]",
    ),
    (
        i64::MIN,
        i64::MAX,
        "[a] @ [-9223372036854775.808, 9223372036854775.807, 15s, 5m]",
    ),
];

/// How a statement prints.
fn statement_text(alloc: Global, start: i64, end: i64) -> Result<String, Failed> {
    Ok(statement(alloc, start, end)?.to_string(alloc)?)
}

/// How the copy of a statement prints.
fn copy_text(alloc: Global, start: i64, end: i64) -> Result<String, Failed> {
    let copy = Box::new(alloc, statement(alloc, start, end)?.try_clone(alloc)?)?;
    Ok(copy.to_string(alloc)?)
}

#[test]
fn statements_and_their_copies_print_their_times(rt: HostRuntime) {
    for (start, end, text) in &STATEMENTS {
        prints(&rt, statement_text(rt.alloc(), *start, *end), text);
        prints(&rt, copy_text(rt.alloc(), *start, *end), text);
    }
}

/// A sum of 512 ones.
fn ones(alloc: Global) -> Result<Box<Expr>, Failed> {
    let mut text = String::from_str(alloc, "1")?;
    for _ in 1..512 {
        text.push_str("+1")?;
    }
    Ok(read(alloc, text.as_str())?)
}

/// Whether the layout of the expression in lines of `max` bytes has more bytes than the least, and takes so many widths.
fn has_widths(
    alloc: Global,
    expr: Result<Box<Expr>, Failed>,
    max: usize,
    widths: usize,
    least: usize,
) -> Result<bool, Failed> {
    let expr = expr?;
    let mut tally = Tally::default();
    let laid = expr.pretty_counted(alloc, 0, max, &mut tally)?;
    let is_counted = tally.widths() == widths && laid.as_str().len() > least;
    Ok(is_counted && laid == expr.pretty(alloc, 0, max)?)
}

#[test]
fn each_node_has_one_width(rt: HostRuntime) {
    let alloc = rt.alloc();
    for max in [0, 10] {
        let is_one = has_widths(alloc, kind(alloc, SHARE), max, 4, 20);
        is_so(&rt, is_one, SHARE);
    }
    let is_one = has_widths(alloc, ones(alloc), 0, 1023, 100_000);
    is_so(&rt, is_one, "a long sum");
}

/// Whether a layout failed since its indentation is wider than a `usize` counts.
fn is_too_wide(laid: &Result<String, PrettyError>) -> bool {
    matches!(laid, Err(PrettyError::IndentTooWide))
}

/// Whether the greatest indentation is rejected, and leaves the expression.
fn is_rejected_and_left(alloc: Global, text: &str) -> Result<bool, ParseError> {
    let expr = read(alloc, text)?;
    let is_rejected = is_too_wide(&expr.pretty(alloc, usize::MAX, 0));
    Ok(is_rejected && is_read(alloc, &expr, text)?)
}

#[test]
fn too_wide_indentations_are_rejected(rt: HostRuntime) {
    for text in [SHARE, "1"] {
        is_so(&rt, is_rejected_and_left(rt.alloc(), text), text);
    }
}

/// The extension at the greatest indentation.
fn extension_laid_out(alloc: Global) -> Result<String, Failed> {
    Ok(kind(alloc, EXTENSION)?.pretty(alloc, usize::MAX, 0)?)
}

#[test]
fn an_extension_is_not_indented(rt: HostRuntime) {
    prints(&rt, extension_laid_out(rt.alloc()), EXTENSION);
}

/// A type that has its one line and nothing of its own for a layout.
#[derive(Drop)]
struct Note<'a> {
    text: &'a str,
}

impl fmt::Display for Note<'_> {
    ghost output = { λ n. Some n.text.now };

    fn fmt<W: fmt::Write>(&self, f: &mut fmt::Formatter<W>) -> fmt::Result {
        f.write_str(self.text)
    }
}

impl Prettier for Note<'_> {
    ghost use Rattle.std.proofs.Common.{rules};

    ghost states = { λ n. Prim.search rules };
}

#[test]
fn a_type_without_bodies_is_one_line(rt: HostRuntime) {
    let alloc = rt.alloc();
    let long = Note {
        text: "demo_again.",
    };
    holds(&rt, long.needs_split(10), "demo_again.");
    prints(&rt, long.pretty(alloc, 1, 10), "  demo_again.");
    prints(&rt, long.format(alloc, 1, 10), "  demo_again.");
    let short = Note { text: "demo" };
    holds(&rt, !short.needs_split(10), "demo");
    prints(&rt, short.pretty(alloc, 1, 10), "  demo");
}

/// Whether a line of so many bytes is split at each width below that and at none above, and is its own layout.
fn is_split_below(alloc: Global, len: usize) -> Result<bool, Failed> {
    let line = "x".repeat(alloc, len)?;
    let note = Note {
        text: line.as_str(),
    };
    let is_split = note.needs_split(0) && note.needs_split(len.saturating_sub(1));
    let fits = !note.needs_split(len) && !note.needs_split(usize::MAX);
    Ok(is_split && fits && note.pretty(alloc, 0, 0)? == line)
}

/// The default `needs_split` at each width around a line, as long as any that it counts.
#[test]
fn a_line_of_any_length_is_split(rt: HostRuntime) {
    for len in [1usize, 2, 999, 1_000, 1_001, 4_096, 70_000] {
        is_so(&rt, is_split_below(rt.alloc(), len), "a line");
    }
}

/// A type with a form of its own over several lines, and the bodies of the trait for all else.
#[derive(Drop)]
struct Pair;

impl fmt::Display for Pair {
    ghost output = { λ _. Some (codes "first second") };

    fn fmt<W: fmt::Write>(&self, f: &mut fmt::Formatter<W>) -> fmt::Result {
        f.write_str("first second")
    }
}

impl Prettier for Pair {
    ghost own_format = { λ _ _ _ result.
        IfOk result (λ s. string_bytes s ≡ codes "first\nsecond") };

    ghost states = { λ _. refl };

    fn format(&self, alloc: Global, level: usize, max: usize) -> Result<String, PrettyError> {
        let _ = (level, max);
        Ok(String::from_str(alloc, "first\nsecond")?)
    }
}

#[test]
fn a_line_that_fits_has_no_other_form(rt: HostRuntime) {
    let alloc = rt.alloc();
    for max in [0usize, 1, 11] {
        holds(&rt, Pair.needs_split(max), "split");
        prints(&rt, Pair.pretty(alloc, 1, max), "first\nsecond");
    }
    for max in [12usize, 13, 1_000, usize::MAX] {
        holds(&rt, !Pair.needs_split(max), "not split");
        prints(&rt, Pair.pretty(alloc, 1, max), "  first second");
    }
}
