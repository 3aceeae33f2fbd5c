//! Visitors that change nodes, stop, and fail.

use super::trees::{extension, is_read, read};
use super::walks::{ENDED, Log, TOPK, chain, log_up_to, sum};
use super::{Failed, holds, is_so};
use promql_ast::Expr;
use promql_label::{MatchOp, Matcher, Matchers};
use promql_parser::parser::parse;
use promql_text::Number;
use promql_walk::{ExprVisitorMut, walk_expr_mut};
use std::alloc::{AllocError, Global};
use std::mem;
use std::process::Abort;

/// Adds `env="prod"` to a selector, and stops there if it is to.
#[derive(Drop)]
struct Enforce {
    alloc: Global,
    stops: bool,
}

impl Enforce {
    fn add(&self, matchers: &mut Matchers) -> Result<bool, AllocError> {
        let matcher = Matcher::new(self.alloc, MatchOp::Equal, "env", "prod")?;
        matchers.matchers.push(matcher)?;
        Ok(!self.stops)
    }
}

impl ExprVisitorMut for Enforce {
    type Error = AllocError;

    ghost pre_gives = { λ _ _ _ _ _. Unit {0} };

    fn pre_visit(&mut self, expr: &mut Expr) -> Result<bool, AllocError> {
        match expr {
            Expr::VectorSelector(e) => self.add(&mut e.matchers),
            Expr::MatrixSelector(e) => self.add(&mut e.vs.matchers),
            _ => Ok(true),
        }
    }
}

/// What a walk that stops at the first selector or at none leaves of `ext(metric_a, metric_b)`.
const ENFORCED: [(bool, &str); 2] = [
    (true, r#"ext(metric_a{env="prod"}, metric_b)"#),
    (false, r#"ext(metric_a{env="prod"}, metric_b{env="prod"})"#),
];

/// Whether the expression prints this text.
fn is_printed(alloc: Global, expr: &Expr, text: &str) -> Result<bool, AllocError> {
    Ok(expr.to_string(alloc)?.as_str() == text)
}

/// Whether the walk goes to its end unless it is to stop, and leaves this.
fn is_enforced(alloc: Global, stops: bool, want: &str) -> Result<bool, Failed> {
    let mut both = extension(alloc, &["metric_a", "metric_b"])?;
    let end = walk_expr_mut(&mut Enforce { alloc, stops }, &mut both);
    Ok(end == Ok(!stops) && is_printed(alloc, &both, want)?)
}

#[test]
fn a_label_is_enforced(rt: HostRuntime) {
    for (stops, want) in &ENFORCED {
        is_so(&rt, is_enforced(rt.alloc(), *stops, want), want);
    }
}

/// Puts 0 in the place of a name, and fails at a text. Numbers become a text in parentheses, and the walk stops there.
#[derive(Drop)]
struct Zero(Global);

impl ExprVisitorMut for Zero {
    type Error = &'static str;

    ghost pre_gives = { λ _ _ _ _ _. Unit {0} };

    fn pre_visit(&mut self, expr: &mut Expr) -> Result<bool, &'static str> {
        match expr {
            Expr::VectorSelector(_) => {
                *expr = Expr::from(Number::from_i64(0));
                Ok(true)
            }
            Expr::NumberLiteral(_) => {
                let Ok(higher) = parse(self.0, "(\"high\")") else {
                    return Err("out of memory");
                };
                *expr = higher;
                Ok(false)
            }
            Expr::StringLiteral(_) => Err("a text"),
            _ => Ok(true),
        }
    }
}

/// The children of a node, how a walk over it ends, and what it leaves of the node.
const REPLACED: [(&str, &str, Result<bool, &str>, &str); 3] = [
    ("a", "b", Ok(true), "ext(0, 0)"),
    ("a", "\"t\"", Err("a text"), "ext(0, \"t\")"),
    ("1", "b", Ok(false), "ext((\"high\"), b)"),
];

/// Whether the walk over a node of these children ends so, and leaves this.
fn is_replaced(
    alloc: Global,
    texts: &[&str],
    end: Result<bool, &'static str>,
    want: &str,
) -> Result<bool, Failed> {
    let mut node = extension(alloc, texts)?;
    let found = walk_expr_mut(&mut Zero(alloc), &mut node);
    Ok(found == end && is_printed(alloc, &node, want)?)
}

#[test]
fn nodes_are_replaced(rt: HostRuntime) {
    for (first, second, end, want) in &REPLACED {
        let is_left = is_replaced(rt.alloc(), &[first, second], *end, want);
        is_so(&rt, is_left, want);
    }
}

/// Puts each sum in parentheses, after its sides. Counts the nodes that are left to it.
#[derive(Drop)]
struct Wrap {
    alloc: Global,
    left: usize,
}

impl ExprVisitorMut for Wrap {
    type Error = AllocError;

    ghost pre_gives = { λ _ _ _ _ _. Unit {0} };

    ghost post_gives = { λ _ _ _ _ _. Unit {0} };

    fn pre_visit(&mut self, _expr: &mut Expr) -> Result<bool, AllocError> {
        Ok(true)
    }

    fn post_visit(&mut self, expr: &mut Expr) -> Result<bool, AllocError> {
        if self.left == 0 {
            return Ok(false);
        }
        self.left -= 1;
        let is_sum = matches!(expr, Expr::Binary(_));
        if is_sum {
            let sum = mem::replace(expr, Expr::from(Number::from_i64(0)));
            *expr = Expr::new_paren_expr(self.alloc, sum)?;
        }
        Ok(true)
    }
}

/// An expression, how many nodes a walk is to see, whether it sees all and how many are left to it, and what it leaves.
const WRAPPED: [(&str, usize, bool, usize, &str); 2] = [
    ("1 + 2 + 3", 100, true, 95, "((1 + 2) + 3)"),
    ("sum(a + b)", 3, false, 0, "sum((a + b))"),
];

/// Whether the walk of a row ends so, and leaves what it says.
fn is_wrapped(alloc: Global, row: &(&str, usize, bool, usize, &str)) -> Result<bool, Failed> {
    let (text, nodes, end, left, want) = *row;
    let mut expr = read(alloc, text)?;
    let mut wrap = Wrap { alloc, left: nodes };
    let found = walk_expr_mut(&mut wrap, &mut expr);
    Ok(found == Ok(end) && wrap.left == left && is_printed(alloc, &expr, want)?)
}

#[test]
fn nodes_may_grow_after_their_children(rt: HostRuntime) {
    for row in &WRAPPED {
        is_so(&rt, is_wrapped(rt.alloc(), row), row.0);
    }
}

/// How many of 1,000 nodes are left after a walk to the end of the expression.
fn nodes_left(alloc: Global, expr: &mut Expr) -> usize {
    let mut wrap = Wrap { alloc, left: 1000 };
    match walk_expr_mut(&mut wrap, expr) {
        Ok(true) => wrap.left,
        _ => 0,
    }
}

/// Whether a high tree without a sum is left as it is.
fn is_chain_left(alloc: Global) -> Result<bool, Failed> {
    let mut expr = chain(alloc)?;
    let left = nodes_left(alloc, &mut expr);
    Ok(left == 500 && *expr == *chain(alloc)?)
}

/// Whether a high sum is in parentheses after a walk.
fn is_sum_wrapped(alloc: Global) -> Result<bool, Failed> {
    let mut expr = sum(alloc)?;
    let left = nodes_left(alloc, &mut expr);
    Ok(left == 1 && matches!(*expr, Expr::Paren(_)))
}

#[test]
fn high_trees_are_changed_where_they_have_sums(rt: HostRuntime) {
    is_so(&rt, is_chain_left(rt.alloc()), "parentheses");
    is_so(&rt, is_sum_wrapped(rt.alloc()), "a sum");
}

/// Puts 0 in the place of each operator, and counts the calls.
#[derive(Drop)]
struct Cut(usize);

impl ExprVisitorMut for Cut {
    type Error = AllocError;

    ghost pre_gives = { λ _ _ _ _ _. Unit {0} };

    ghost post_gives = { λ _ _ _ _ _. Unit {0} };

    fn pre_visit(&mut self, expr: &mut Expr) -> Result<bool, AllocError> {
        self.0 = self.0.saturating_add(1);
        if matches!(expr, Expr::Binary(_)) {
            *expr = Expr::from(Number::from_i64(0));
        }
        Ok(true)
    }

    fn post_visit(&mut self, _expr: &mut Expr) -> Result<bool, AllocError> {
        self.0 = self.0.saturating_add(1);
        Ok(true)
    }
}

/// Whether a walk that puts 0 in the place of the whole expression makes two calls.
fn is_cut(alloc: Global) -> Result<bool, Failed> {
    let mut expr = read(alloc, TOPK)?;
    let mut cut = Cut(0);
    let end = walk_expr_mut(&mut cut, &mut expr);
    Ok(end == Ok(true) && cut.0 == 2 && is_printed(alloc, &expr, "0")?)
}

#[test]
fn what_was_replaced_is_not_walked(rt: HostRuntime) {
    is_so(&rt, is_cut(rt.alloc()), TOPK);
}

impl ExprVisitorMut for Log {
    type Error = &'static str;

    ghost pre_gives = { λ _ _ _ _ _. Unit {0} };

    ghost post_gives = { λ _ _ _ _ _. Unit {0} };

    fn pre_visit(&mut self, expr: &mut Expr) -> Result<bool, &'static str> {
        self.add("before", expr)
    }

    fn post_visit(&mut self, expr: &mut Expr) -> Result<bool, &'static str> {
        self.add("after", expr)
    }
}

/// Whether a walk ends with this result after these calls.
fn is_walked(log: Log, expr: &mut Expr, end: Result<bool, &'static str>, calls: &str) -> bool {
    let mut log = log;
    walk_expr_mut(&mut log, expr) == end && log.text.as_str() == calls
}

/// Changing walks that end within the expression, and leave it.
fn check_ended(rt: &impl Abort, alloc: Global, expr: &mut Expr) {
    for (last, fails, end, calls) in &ENDED {
        let log = log_up_to(alloc, *last, *fails);
        holds(rt, is_walked(log, expr, *end, calls), calls);
    }
    is_so(rt, is_read(alloc, expr, TOPK), TOPK);
}

#[test]
fn a_changing_walk_that_ends_leaves_the_expression(rt: HostRuntime) {
    match read(rt.alloc(), TOPK) {
        Ok(mut expr) => check_ended(&rt, rt.alloc(), &mut expr),
        Err(_) => holds(&rt, false, TOPK),
    }
}
