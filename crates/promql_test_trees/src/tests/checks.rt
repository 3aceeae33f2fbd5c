//! What the checks of a node say of children that its builder takes.

use super::trees::{KINDS, arguments, is_kind, kind, name, new_box, operation};
use super::{Failed, built_text, is_so, prints, shows};
use promql_ast::{AggregateExpr, CheckError, Expr, FunctionArgs};
use promql_kind::{BinModifier, Function, ValueType, VectorMatchCardinality};
use promql_token::ids::{T_ADD, T_LAND, T_NUMBER, T_TOPK};
use promql_token::{TokenId, TokenType};
use std::alloc::Global;

/// What was built, which the check accepts, as it prints; or the message of the check.
fn checked_text(alloc: Global, built: Result<Expr, CheckError>) -> Result<String, Failed> {
    Ok(built_text(alloc, Expr::checked(alloc, built?))?)
}

/// Whether the node of one of the kinds passes its check, and is what it was.
fn is_checked(alloc: Global, text: &str) -> Result<bool, Failed> {
    let expr = Box::into_inner(kind(alloc, text)?);
    let checked = new_box(alloc, Expr::checked(alloc, expr)?)?;
    is_kind(alloc, &checked, text)
}

#[test]
fn well_typed_nodes_pass(rt: HostRuntime) {
    for text in &KINDS {
        is_so(&rt, is_checked(rt.alloc(), text), text);
    }
}

/// An aggregation of `a` with this token in place of the aggregator.
fn aggregated(alloc: Global, op: TokenId) -> Result<Expr, CheckError> {
    let args = FunctionArgs::new_args(alloc, name(alloc, "a")?)?;
    Expr::new_aggregate_expr(alloc, op, None, args)
}

#[test]
fn other_tokens_are_rejected(rt: HostRuntime) {
    let alloc = rt.alloc();
    let number = checked_text(alloc, operation(alloc, T_NUMBER, None));
    let message = "binary expression does not support operator '{Num}'";
    prints(&rt, number, message);
    let plus = checked_text(alloc, aggregated(alloc, T_ADD));
    let message = "aggregation operator expected in aggregation expression but got '+'";
    prints(&rt, plus, message);
}

/// `a and b` that matches many with many.
fn many_to_many(alloc: Global) -> Result<Box<Expr>, CheckError> {
    let many = BinModifier::default().with_card(VectorMatchCardinality::ManyToMany);
    Ok(new_box(alloc, operation(alloc, T_LAND, Some(many))?)?)
}

/// `a and b` as it is after its check.
fn checked_and(alloc: Global) -> Result<Expr, CheckError> {
    Expr::checked(alloc, operation(alloc, T_LAND, None)?)
}

/// Whether the check makes `a and b` match many with many.
fn is_many_to_many(alloc: Global) -> Result<bool, CheckError> {
    let expr = new_box(alloc, checked_and(alloc)?)?;
    Ok(*expr == *many_to_many(alloc)?)
}

#[test]
fn set_operators_match_many_to_many(rt: HostRuntime) {
    let alloc = rt.alloc();
    is_so(&rt, is_many_to_many(alloc), "a and b");
    shows(&rt, alloc, checked_and(alloc), "a and b");
}

/// `topk` without its parameter.
fn without_parameter(alloc: Global) -> Result<Expr, CheckError> {
    let expr = Box::new(alloc, name(alloc, "a")?)?;
    Ok(Expr::Aggregate(AggregateExpr {
        op: TokenType::new(T_TOPK),
        expr,
        param: None,
        modifier: None,
    }))
}

#[test]
fn aggregations_need_their_parameter(rt: HostRuntime) {
    let topk = checked_text(rt.alloc(), without_parameter(rt.alloc()));
    let message = "expected type scalar in aggregation expression, got None";
    prints(&rt, topk, message);
}

/// The call of a function made by hand that takes no argument, and so many more, with these, and what its check says.
const MADE_BY_HAND: [(i32, &[&str], &str); 2] = [
    (-1, &["1"], "f(1)"),
    (
        2,
        &["1", "1", "1"],
        "expected at most 2 argument(s) in call to 'f', got 3",
    ),
];

/// The call of `f`, or what its check says.
fn call_text(alloc: Global, variadic: i32, texts: &[&str]) -> Result<String, Failed> {
    let args = arguments(alloc, texts)?;
    let function = Function::new("f", Vec::new(alloc), variadic, ValueType::Vector, false);
    checked_text(alloc, Ok(Expr::new_call(function, args)))
}

#[test]
fn functions_made_by_hand_are_checked(rt: HostRuntime) {
    for (variadic, texts, want) in &MADE_BY_HAND {
        prints(&rt, call_text(rt.alloc(), *variadic, texts), want);
    }
}
