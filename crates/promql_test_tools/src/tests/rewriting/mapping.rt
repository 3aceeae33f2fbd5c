//! Selectors that a mapper changes.

use crate::tests::{Failed, is_so, prints};
use promql_ast::{Expr, Offset, VectorSelector};
use promql_rewrite::{SelectorKind, SelectorMapper, map_selectors};
use promql_syntax::parser::parse;
use std::alloc::{AllocError, Global};
use std::time::Duration;

fn line_of(alloc: Global, expr: Expr) -> Result<String, AllocError> {
    let line = expr.to_string(alloc);
    drop(expr);
    line
}

/// Moves each selector of kind `Series` back in time, and counts them. A selector that is moved already is an error.
#[derive(Drop)]
struct Delay {
    by: Duration,
    moved: usize,
}

impl SelectorMapper for Delay {
    type Error = &'static str;

    ghost map_gives = { λ _ _ _ _ _ _. Unit {0} };

    fn map_selector(
        &mut self,
        _alloc: Global,
        kind: SelectorKind,
        selector: &mut VectorSelector,
    ) -> Result<(), &'static str> {
        if kind == SelectorKind::DataLabels {
            return Ok(());
        }
        if selector.offset.is_some() {
            return Err("a selector has an offset");
        }
        selector.offset = Some(Offset::Pos(self.by));
        self.moved = self.moved.saturating_add(1);
        Ok(())
    }
}

/// Each query with the line once it is delayed by an hour, or the error, and how many selectors were moved.
const DELAYED: [(&str, &str, usize); 9] = [
    ("a", "a offset 1h", 1),
    (
        "sum(rate(foo[5m])) / bar",
        "sum(rate(foo[5m] offset 1h)) / bar offset 1h",
        2,
    ),
    ("a @ start() + 1", "a @ start() offset 1h + 1", 1),
    ("1 + 2", "1 + 2", 0),
    // The offset of a subquery is none of its selector's.
    (
        "max_over_time(a[1h:1m] offset 5m)",
        "max_over_time(a offset 1h[1h:1m] offset 5m)",
        1,
    ),
    // The second argument of `info` selects series whose labels are added, and so does all in it.
    (
        r#"info(a, {b="c"}) + d"#,
        r#"info(a offset 1h, {b="c"}) + d offset 1h"#,
        2,
    ),
    (
        r#"info(info(a, {b="c"}), info({d="e"}, {f="g"}))"#,
        r#"info(info(a offset 1h, {b="c"}), info({d="e"}, {f="g"}))"#,
        1,
    ),
    // An error ends the mapping.
    ("a offset 5m", "a selector has an offset", 0),
    ("a + b offset 5m + c", "a selector has an offset", 1),
];

fn delayed_line(alloc: Global, query: &str, delay: &mut Delay) -> Result<String, Failed> {
    let expr = parse(alloc, query)?;
    match map_selectors(alloc, expr, delay) {
        Ok(expr) => Ok(line_of(alloc, expr)?),
        Err(error) => Ok(String::from_str(alloc, error)?),
    }
}

/// Whether the query has this line or error once it is delayed, and so many selectors were moved.
fn is_delayed(alloc: Global, query: &str, want: &str, moved: usize) -> Result<bool, Failed> {
    let mut delay = Delay {
        by: Duration::from_secs(3600),
        moved: 0,
    };
    let line = delayed_line(alloc, query, &mut delay)?;
    Ok(line.as_str() == want && delay.moved == moved)
}

#[test]
fn selectors_are_moved_and_counted(rt: HostRuntime) {
    for (query, want, moved) in &DELAYED {
        is_so(&rt, is_delayed(rt.alloc(), query, want, *moved), query);
    }
}

/// Names the selectors `m0`, `m1` and so on, up to a last number.
#[derive(Drop)]
struct Numbers {
    next: usize,
    last: usize,
}

impl SelectorMapper for Numbers {
    type Error = &'static str;

    ghost map_gives = { λ _ _ _ _ _ _. Unit {0} };

    fn map_selector(
        &mut self,
        alloc: Global,
        _kind: SelectorKind,
        selector: &mut VectorSelector,
    ) -> Result<(), &'static str> {
        if self.next > self.last {
            return Err("too many selectors");
        }
        let Ok(name) = format!(in alloc; "m{}", self.next) else {
            return Err("out of memory");
        };
        selector.name = Some(name);
        self.next = self.next.saturating_add(1);
        Ok(())
    }
}

/// Each query with the line once its selectors have numbers, or the error.
const NUMBERED: [(&str, &str); 12] = [
    ("a", "m0"),
    (r#"{a="b"}[5m]"#, r#"m0{a="b"}[5m]"#),
    ("a + b - c", "m0 + m1 - m2"),
    ("a - (b + c)", "m0 - (m1 + m2)"),
    ("topk(scalar(k), a) by (b)", "topk by (b) (scalar(m0), m1)"),
    ("-rate(a[5m] offset 1h)", "-rate(m0[5m] offset 1h)"),
    (
        "max_over_time(rate(a[5m])[1h:1m])",
        "max_over_time(rate(m0[5m])[1h:1m])",
    ),
    (
        r#"label_replace(a, "b", "$1", "c", ".*") or d"#,
        r#"label_replace(m0, "b", "$1", "c", ".*") or m1"#,
    ),
    (r#"info(a, {b="c"}) * d"#, r#"info(m0, m1{b="c"}) * m2"#),
    (
        "a * on (b) group_left (c) d",
        "m0 * on (b) group_left (c) m1",
    ),
    ("a + b + c + d", "m0 + m1 + m2 + m3"),
    ("a + b + c + d + e", "too many selectors"),
];

fn numbered_line(alloc: Global, query: &str) -> Result<String, Failed> {
    let mut numbers = Numbers { next: 0, last: 3 };
    let expr = parse(alloc, query)?;
    match map_selectors(alloc, expr, &mut numbers) {
        Ok(expr) => Ok(line_of(alloc, expr)?),
        Err(error) => Ok(String::from_str(alloc, error)?),
    }
}

#[test]
fn selectors_are_mapped_in_the_order_of_the_text(rt: HostRuntime) {
    for (query, want) in &NUMBERED {
        prints(&rt, numbered_line(rt.alloc(), query), want);
    }
}
