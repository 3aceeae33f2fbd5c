//! The order of a walk, and where it ends.

use super::trees::{extension, is_read, read};
use super::{Failed, answers, holds, is_so};
use promql_ast::Expr;
use promql_label::{MatchOp, Matchers};
use promql_walk::{ExprVisitor, walk_expr};
use std::alloc::{AllocError, Global};
use std::fmt::Write;
use std::process::Abort;

/// 499 pairs of parentheses round a number: 500 nodes, one below the other.
pub fn chain(alloc: Global) -> Result<Box<Expr>, Failed> {
    let mut text = String::new(alloc);
    for _ in 0..499 {
        text.push_str("(")?;
    }
    text.push_str("1")?;
    for _ in 0..499 {
        text.push_str(")")?;
    }
    Ok(read(alloc, text.as_str())?)
}

/// A sum of 500 numbers, from left to right.
pub fn sum(alloc: Global) -> Result<Box<Expr>, Failed> {
    let mut text = String::from_str(alloc, "0")?;
    for _ in 1..500 {
        text.push_str(" + 1")?;
    }
    Ok(read(alloc, text.as_str())?)
}

/// Writes down each call. From the call of this number on it stops or fails.
#[derive(Drop)]
pub struct Log {
    pub text: String,
    calls: usize,
    last: usize,
    fails: bool,
}

impl Log {
    pub fn add(&mut self, when: &str, expr: &Expr) -> Result<bool, &'static str> {
        if write!(&mut self.text, "{when} {expr}; ").is_err() {
            return Err("out of memory");
        }
        self.calls = self.calls.saturating_add(1);
        if self.calls < self.last {
            Ok(true)
        } else if self.fails {
            Err("failed")
        } else {
            Ok(false)
        }
    }
}

impl ExprVisitor for Log {
    type Error = &'static str;

    ghost pre_gives = { λ _ _ _ _. Unit {0} };

    ghost post_gives = { λ _ _ _ _. Unit {0} };

    fn pre_visit(&mut self, expr: &Expr) -> Result<bool, &'static str> {
        self.add("before", expr)
    }

    fn post_visit(&mut self, expr: &Expr) -> Result<bool, &'static str> {
        self.add("after", expr)
    }
}

pub fn log_up_to(alloc: Global, last: usize, fails: bool) -> Log {
    Log {
        text: String::new(alloc),
        calls: 0,
        last,
        fails,
    }
}

/// A walk ends with this result after these calls.
fn check_walk(
    rt: &impl Abort,
    log: Log,
    expr: &Expr,
    end: Result<bool, &'static str>,
    calls: &str,
) {
    let mut log = log;
    holds(rt, walk_expr(&mut log, expr) == end, calls);
    holds(rt, log.text.as_str() == calls, calls);
}

/// The calls of a whole walk.
const ALL_CALLS: &str = "before ext(rate(a[5m]) + max_over_time((-b)[1m:]), \"s\"); \
    before rate(a[5m]) + max_over_time((-b)[1m:]); \
    before rate(a[5m]); before a[5m]; after a[5m]; after rate(a[5m]); \
    before max_over_time((-b)[1m:]); \
    before (-b)[1m:]; before (-b); before -b; before b; after b; after -b; after (-b); \
    after (-b)[1m:]; after max_over_time((-b)[1m:]); \
    after rate(a[5m]) + max_over_time((-b)[1m:]); \
    before \"s\"; after \"s\"; after ext(rate(a[5m]) + max_over_time((-b)[1m:]), \"s\"); ";

#[test]
fn children_come_in_their_order(rt: HostRuntime) {
    let texts = ["rate(a[5m]) + max_over_time((-b)[1m:])", "\"s\""];
    let log = log_up_to(rt.alloc(), 100, false);
    match extension(rt.alloc(), &texts) {
        Ok(expr) => check_walk(&rt, log, &expr, Ok(true), ALL_CALLS),
        Err(_) => holds(&rt, false, ALL_CALLS),
    }
}

/// What a walk over `topk(5, a)` has called up to each call: its parameter comes first.
const CALLS: [&str; 6] = [
    "before topk(5, a); ",
    "before topk(5, a); before 5; ",
    "before topk(5, a); before 5; after 5; ",
    "before topk(5, a); before 5; after 5; before a; ",
    "before topk(5, a); before 5; after 5; before a; after a; ",
    "before topk(5, a); before 5; after 5; before a; after a; after topk(5, a); ",
];

/// Walks that stop or fail at each call, and one that would after the last.
fn check_ends(rt: &impl Abort, alloc: Global, expr: &Expr) {
    for (last, calls) in (1..10).zip(&CALLS) {
        let stops = log_up_to(alloc, last, false);
        check_walk(rt, stops, expr, Ok(false), calls);
        let fails = log_up_to(alloc, last, true);
        check_walk(rt, fails, expr, Err("failed"), calls);
    }
    let whole = log_up_to(alloc, 7, true);
    check_walk(rt, whole, expr, Ok(true), CALLS[5]);
}

#[test]
fn a_walk_ends_at_the_first_other_result(rt: HostRuntime) {
    match read(rt.alloc(), "topk(5, a)") {
        Ok(expr) => check_ends(&rt, rt.alloc(), &expr),
        Err(_) => holds(&rt, false, "topk(5, a)"),
    }
}

/// What `ENDED` walks over.
pub const TOPK: &str = "topk(5, a) + b";

/// Walks over `topk(5, a) + b`: the call that ends one, whether it fails, how the walk ends, and its calls. The first
/// ends before `a`, the second after `5`.
pub const ENDED: [(usize, bool, Result<bool, &str>, &str); 2] = [
    (
        5,
        false,
        Ok(false),
        "before topk(5, a) + b; before topk(5, a); before 5; after 5; before a; ",
    ),
    (
        4,
        true,
        Err("failed"),
        "before topk(5, a) + b; before topk(5, a); before 5; after 5; ",
    ),
];

/// Walks that end within the expression, and leave it.
fn check_ended(rt: &impl Abort, alloc: Global, expr: &Expr) {
    for (last, fails, end, calls) in &ENDED {
        let log = log_up_to(alloc, *last, *fails);
        check_walk(rt, log, expr, *end, calls);
    }
    is_so(rt, is_read(alloc, expr, TOPK), TOPK);
}

#[test]
fn a_walk_that_ends_leaves_the_expression(rt: HostRuntime) {
    match read(rt.alloc(), TOPK) {
        Ok(expr) => check_ended(&rt, rt.alloc(), &expr),
        Err(_) => holds(&rt, false, TOPK),
    }
}

/// Whether each selector has the matcher `namespace="s"` beside its groups, and no number or string is met.
#[derive(Drop)]
struct Namespace;

impl Namespace {
    fn is_in(matchers: &Matchers) -> bool {
        for matcher in &matchers.matchers {
            if matcher.op == MatchOp::Equal
                && matcher.name.as_str() == "namespace"
                && matcher.value.as_str() == "s"
            {
                return true;
            }
        }
        false
    }
}

impl ExprVisitor for Namespace {
    type Error = AllocError;

    ghost pre_gives = { λ _ _ _ _. Unit {0} };

    fn pre_visit(&mut self, expr: &Expr) -> Result<bool, AllocError> {
        match expr {
            Expr::VectorSelector(e) => Ok(Namespace::is_in(&e.matchers)),
            Expr::MatrixSelector(e) => Ok(Namespace::is_in(&e.vs.matchers)),
            Expr::NumberLiteral(_) => Ok(false),
            Expr::StringLiteral(_) => Ok(false),
            _ => Ok(true),
        }
    }
}

/// Expressions, and whether the namespace is in each of their selectors.
const NAMESPACES: [(&str, bool); 5] = [
    ("(sum by (namespace) (max_over_time(m[5m])))", false),
    (
        "(sum by (namespace) (max_over_time(m{namespace=\"s\"}[5m])))",
        true,
    ),
    ("1 + 1", false),
    ("m{namespace=\"s\"} + m", false),
    ("m{namespace=\"s\"} ^ m{namespace=\"s\"}", true),
];

/// How the walk over a text's tree ends.
fn namespace_end(alloc: Global, text: &str) -> Result<bool, Failed> {
    let expr = read(alloc, text)?;
    Ok(walk_expr(&mut Namespace, &expr)?)
}

#[test]
fn selectors_are_in_a_namespace(rt: HostRuntime) {
    for (text, is_in) in &NAMESPACES {
        answers(&rt, namespace_end(rt.alloc(), text), *is_in, text);
    }
}

/// Counts the calls before nodes, and goes on.
#[derive(Drop)]
struct Count(usize);

impl ExprVisitor for Count {
    type Error = AllocError;

    ghost pre_gives = { λ _ _ _ _. Unit {0} };

    fn pre_visit(&mut self, _expr: &Expr) -> Result<bool, AllocError> {
        self.0 = self.0.saturating_add(1);
        Ok(true)
    }
}

/// The nodes of an expression, by a walk to its end.
fn node_count(expr: &Expr) -> usize {
    let mut count = Count(0);
    match walk_expr(&mut count, expr) {
        Ok(true) => count.0,
        _ => 0,
    }
}

/// Whether the expression has so many nodes.
fn has_nodes(expr: Result<Box<Expr>, Failed>, count: usize) -> Result<bool, Failed> {
    Ok(node_count(&*expr?) == count)
}

#[test]
fn high_trees_are_walked(rt: HostRuntime) {
    is_so(&rt, has_nodes(chain(rt.alloc()), 500), "parentheses");
    is_so(&rt, has_nodes(sum(rt.alloc()), 999), "a sum");
}
