//! Which trees are printable, and why others are not.

use crate::tests::{Failed, is_so, prints};
use promql_ast::{Expr, VectorSelector};
use promql_rewrite::{NotFaithful, NotPrintable, is_printable, why_not_printable};
use promql_syntax::parser::{ParseError, parse};
use std::alloc::Global;

/// Whether a query's tree is printable.
fn is_query_printable(alloc: Global, query: &str) -> Result<bool, Failed> {
    let expr = parse(alloc, query)?;
    let answer = is_printable(alloc, &expr);
    drop(expr);
    Ok(answer?)
}

/// Why a query's tree is not printable under a minus sign without parentheses.
fn why_not_negated(alloc: Global, query: &str) -> Result<Option<NotPrintable>, Failed> {
    let expr = Expr::new_unary_expr(alloc, parse(alloc, query)?)?;
    let why = why_not_printable(alloc, &expr);
    drop(expr);
    Ok(why?)
}

/// Why a selector of this name is not printable.
fn why_not_named(alloc: Global, name: &str) -> Result<Option<NotPrintable>, Failed> {
    let expr = Expr::from(VectorSelector::of_str(alloc, name)?);
    let why = why_not_printable(alloc, &expr);
    drop(expr);
    Ok(why?)
}

/// Whether this is the reason.
fn is_why(
    found: Result<Option<NotPrintable>, Failed>,
    want: Option<NotPrintable>,
) -> Result<bool, Failed> {
    Ok(found? == want)
}

#[test]
fn trees_of_queries_are_printable(rt: HostRuntime) {
    let query = r#"sum by (b) (rate(a{c=~"d.*"}[5m] offset 1h)) / -e ^ 2"#;
    is_so(&rt, is_query_printable(rt.alloc(), query), query);
    is_so(&rt, is_why(why_not_negated(rt.alloc(), "a"), None), "a");
}

#[test]
fn reasons_are_told(rt: HostRuntime) {
    let alloc = rt.alloc();
    let operand = is_why(why_not_negated(alloc, "a + b"), Some(NotPrintable::Operand));
    is_so(&rt, operand, "a + b");
    let syntax = Some(NotPrintable::Rejected(ParseError::Syntax));
    is_so(&rt, is_why(why_not_named(alloc, "a b"), syntax), "a b");
    let number = is_why(why_not_named(alloc, "1"), Some(NotPrintable::OtherTree));
    is_so(&rt, number, "1");
}

/// Reasons that are no error of a text, with their messages.
const MESSAGES: [(NotPrintable, &str); 12] = [
    (
        NotPrintable::LeftSide,
        "the left side of an operator needs parentheses",
    ),
    (
        NotPrintable::RightSide,
        "the right side of an operator needs parentheses",
    ),
    (
        NotPrintable::Operand,
        "the operand of a minus sign needs parentheses",
    ),
    (
        NotPrintable::Subqueried,
        "the expression of a subquery needs parentheses",
    ),
    (
        NotPrintable::Operator,
        "a binary expression has no operator",
    ),
    (NotPrintable::Grouping, "a grouping has no matching labels"),
    (
        NotPrintable::Cardinality,
        "only set operators match many elements with many",
    ),
    (
        NotPrintable::Parameter,
        "an aggregation has a parameter too few or too many",
    ),
    (NotPrintable::Time, "a time is zero"),
    (NotPrintable::Groups, "or-groups are not as they print"),
    (
        NotPrintable::Extension,
        "an extension is not part of the language",
    ),
    (
        NotPrintable::OtherTree,
        "the printed query has another tree",
    ),
];

#[test]
fn messages_of_reasons(rt: HostRuntime) {
    for (reason, message) in &MESSAGES {
        prints(&rt, reason.to_string(rt.alloc()), message);
    }
}

#[test]
fn messages_of_lines(rt: HostRuntime) {
    let alloc = rt.alloc();
    let rejected = "the printed query is rejected: invalid promql query";
    let syntax = NotPrintable::Rejected(ParseError::Syntax);
    prints(&rt, syntax.to_string(alloc), rejected);
    let syntax = NotFaithful::Rejected(ParseError::Syntax);
    prints(&rt, syntax.to_string(alloc), rejected);
    let other = NotFaithful::OtherTree.to_string(alloc);
    prints(&rt, other, "the printed query has another tree");
    prints(&rt, NotFaithful::Memory.to_string(alloc), "out of memory");
    let wide = NotFaithful::IndentTooWide.to_string(alloc);
    prints(&rt, wide, "indentation too wide");
}
