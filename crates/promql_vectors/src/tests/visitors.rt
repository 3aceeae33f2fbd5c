//! A visitor that a user writes, over a text that is read. `guide` has others.

use super::{Failed, is_so, read};
use promql_parser::parser::Expr;
use promql_parser::util::{ExprVisitor, walk_expr};
use std::alloc::Global;
use std::fmt::Write;

/// Writes down each call.
#[derive(Drop)]
struct Log(String);

impl ExprVisitor for Log {
    type Error = &'static str;

    ghost pre_gives = { λ _ _ _ _. Unit {0} };

    ghost post_gives = { λ _ _ _ _. Unit {0} };

    fn pre_visit(&mut self, expr: &Expr) -> Result<bool, &'static str> {
        match write!(&mut self.0, "before {expr}; ") {
            Ok(()) => Ok(true),
            Err(_) => Err("out of memory"),
        }
    }

    fn post_visit(&mut self, expr: &Expr) -> Result<bool, &'static str> {
        match write!(&mut self.0, "after {expr}; ") {
            Ok(()) => Ok(true),
            Err(_) => Err("out of memory"),
        }
    }
}

/// The calls of a walk over a text's tree.
const CALLS: &str = "before topk(5, a); before 5; after 5; before a; after a; after topk(5, a); ";

/// Whether a walk over the text's tree goes to its end, with these calls.
fn is_walked(alloc: Global, text: &str, calls: &str) -> Result<bool, Failed> {
    let expr = read(alloc, text)?;
    let mut log = Log(String::new(alloc));
    let end = walk_expr(&mut log, &expr);
    Ok(end == Ok(true) && log.0.as_str() == calls)
}

#[test]
fn the_order_of_a_walk(rt: HostRuntime) {
    is_so(&rt, is_walked(rt.alloc(), "topk(5, a)", CALLS), CALLS);
}
