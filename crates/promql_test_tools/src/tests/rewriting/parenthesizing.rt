//! Parentheses where a tree's text needs them.

use crate::tests::{Failed, columns, prints};
use promql_ast::Expr;
use promql_rewrite::{faithful_line, parenthesized};
use promql_syntax::parser::parse;
use std::alloc::Global;

/// A left side, an expression with the operator, a right side, and the line of the tree with these sides.
const SIDES: &str = "a + b => x * y => c => (a + b) * c
a => x * y => b + c => a * (b + c)
a - b => x - y => c => a - b - c
a => x - y => b - c => a - (b - c)
a => x ^ y => b ^ c => a ^ b ^ c
a ^ b => x ^ y => c => (a ^ b) ^ c
-a => x ^ y => b => (-a) ^ b
-1 => x ^ y => 2 => (-1) ^ 2
a => x ^ y => -b => a ^ -b
a ^ -b => x * y => c => a ^ -b * c
a ^ -b => x ^ y => c => (a ^ -b) ^ c
(a + b) => x * y => c => (a + b) * c
a or b => x and on (d) y => c => (a or b) and on (d) c
a => x / on (d) y => b * c => a / on (d) (b * c)";

/// The line of an expression once it has the parentheses that it needs.
fn parenthesized_line(alloc: Global, expr: Expr) -> Result<String, Failed> {
    let expr = parenthesized(alloc, expr)?;
    let line = faithful_line(alloc, &expr);
    drop(expr);
    Ok(line?)
}

/// Puts other sides into a binary expression.
fn put_sides(expr: &mut Expr, lhs: Box<Expr>, rhs: Box<Expr>) {
    match expr {
        Expr::Binary(node) => {
            node.lhs = lhs;
            node.rhs = rhs;
        }
        _ => {
            drop(lhs);
            drop(rhs);
        }
    }
}

/// The line of the second query with the other two as its sides, once it has the parentheses that it needs.
fn sides_line(alloc: Global, left: &str, sum: &str, right: &str) -> Result<String, Failed> {
    let lhs = Box::new(alloc, parse(alloc, left)?)?;
    let rhs = Box::new(alloc, parse(alloc, right)?)?;
    let mut expr = parse(alloc, sum)?;
    put_sides(&mut expr, lhs, rhs);
    parenthesized_line(alloc, expr)
}

#[test]
fn sides_have_parentheses_where_they_need_them(rt: HostRuntime) {
    for row in SIDES.split('\n') {
        let (left, others) = columns(row);
        let (sum, others) = columns(others);
        let (right, want) = columns(others);
        prints(&rt, sides_line(rt.alloc(), left, sum, right), want);
    }
}

/// Operands, and the line of each under a minus sign.
const OPERANDS: [(&str, &str); 3] = [("a + b", "-(a + b)"), ("a ^ b", "-a ^ b"), ("-a", "--a")];

/// The line of a query's tree under a minus sign, once it has the parentheses that it needs.
fn negated_line(alloc: Global, query: &str) -> Result<String, Failed> {
    let expr = Expr::new_unary_expr(alloc, parse(alloc, query)?)?;
    parenthesized_line(alloc, expr)
}

#[test]
fn operands_have_parentheses_where_they_need_them(rt: HostRuntime) {
    for (operand, want) in &OPERANDS {
        prints(&rt, negated_line(rt.alloc(), operand), want);
    }
}
