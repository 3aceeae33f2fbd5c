//! Texts that mean the tree that they were printed of, and trees that no text means.

use crate::tests::{holds, prints};
use promql_ast::{Expr, VectorSelector};
use promql_rewrite::{NotFaithful, faithful_line, faithful_pretty};
use promql_syntax::parser::{ParseError, parse};
use std::alloc::Global;

const QUERY: &str = r#"sum by (b) (rate(a{c="d"}[5m])) / e"#;

/// What is said of a query's tree, negated without parentheses.
fn negated_line(alloc: Global, query: &str) -> Result<String, NotFaithful> {
    let Ok(expr) = Expr::new_unary_expr(alloc, parse(alloc, query)?) else {
        return Err(NotFaithful::Memory);
    };
    let line = faithful_line(alloc, &expr);
    drop(expr);
    line
}

/// What is said of a selector of this name.
fn named_line(alloc: Global, name: &str) -> Result<String, NotFaithful> {
    let expr = Expr::from(VectorSelector::of_str(alloc, name)?);
    let line = faithful_line(alloc, &expr);
    drop(expr);
    line
}

fn lines(alloc: Global, query: &str, width: usize) -> Result<String, NotFaithful> {
    let expr = parse(alloc, query)?;
    let laid = faithful_pretty(alloc, &expr, 0, width);
    drop(expr);
    laid
}

#[test]
fn what_was_read_prints(rt: HostRuntime) {
    let alloc = rt.alloc();
    prints(&rt, lines(alloc, QUERY, 100), QUERY);
    let laid = "  sum by (b) (\n    rate(\n      a{c=\"d\"}[5m]\n    )\n  )\n/\n  e";
    prints(&rt, lines(alloc, QUERY, 10), laid);
}

/// Whether a line was rejected for this reason.
fn is_rejected(line: Result<String, NotFaithful>, why: NotFaithful) -> bool {
    line == Err(why)
}

#[test]
fn a_tree_that_no_text_has_is_rejected(rt: HostRuntime) {
    let alloc = rt.alloc();
    prints(&rt, negated_line(alloc, "a"), "-a");
    let sum = is_rejected(negated_line(alloc, "a + b"), NotFaithful::OtherTree);
    holds(&rt, sum, "a + b");
    prints(&rt, negated_line(alloc, "a ^ b"), "-a ^ b");
}

#[test]
fn a_name_that_is_none_is_rejected(rt: HostRuntime) {
    let alloc = rt.alloc();
    prints(&rt, named_line(alloc, "a:b"), "a:b");
    let syntax = NotFaithful::Rejected(ParseError::Syntax);
    holds(&rt, is_rejected(named_line(alloc, "a b"), syntax), "a b");
    let number = is_rejected(named_line(alloc, "1"), NotFaithful::OtherTree);
    holds(&rt, number, "1");
}
