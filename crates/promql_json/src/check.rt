//! Whether a tree has a JSON form: docs/reference/json.md, "What has no form". Nothing is allocated.

ghost use Rattle.std.specs.Prelude.{◌≡◌, None, Some, IfErr, OnOk, option_map};
ghost use Rattle.std.specs.Duration.{as_nanos};
ghost use Rattle.promql_ast.specs.View.{aggregate_tree, binary_tree, matrix_tree, option_tree, selector_of, subquery_tree, tree_of, trees_of};
ghost use Rattle.promql_json.specs.Json.{width_fault};
ghost use Rattle.promql_json.specs.FormNames.{selector_fault, step_fault};
ghost use Rattle.promql_json.specs.JsonFaults.{args_fault, json_fault, param_fault};
ghost use Rattle.promql_json.specs.JsonParts as spec;

use crate::error::JsonError;
use crate::values::offset_millis;
use promql_ast::{AggregateExpr, BinaryExpr, Expr, MatrixSelector, SubqueryExpr, VectorSelector};
use std::time::Duration;

// Each function returns the first fault of a node, in the order in which a walk comes to them.

fn check_whole(z: i128) -> Result<(), JsonError>
    ensures fits { OnOk result (width_fault z ≡ None) }
    ensures err { IfErr result (λ e. width_fault z ≡ Some e) }
{
    if z < i64::MIN as i128 || z >= 1 << 64 {
        Err(JsonError::NumberTooWide)
    } else {
        Ok(())
    }
}

fn check_length(length: Duration) -> Result<(), JsonError>
    ensures fits { OnOk result (width_fault (spec.millis (as_nanos length)) ≡ None) }
    ensures err { IfErr result (λ e. width_fault (spec.millis (as_nanos length)) ≡ Some e) }
{
    check_whole(length.as_millis() as i128)
}

fn check_step(step: Option<Duration>) -> Result<(), JsonError>
    ensures fits { OnOk result (step_fault (option_map as_nanos step) ≡ None) }
    ensures err { IfErr result (λ e. step_fault (option_map as_nanos step) ≡ Some e) }
{
    match step {
        Some(step) => check_length(step),
        None => Ok(()),
    }
}

fn check_selector(node: &VectorSelector) -> Result<(), JsonError>
    ensures fits { OnOk result (selector_fault (selector_of node.now) ≡ None) }
    ensures err { IfErr result (λ e. selector_fault (selector_of node.now) ≡ Some e) }
{
    check_whole(offset_millis(node.offset))
}

fn check_matrix(node: &MatrixSelector) -> Result<(), JsonError>
    ensures fits { OnOk result (json_fault (matrix_tree node.now) ≡ None) }
    ensures err { IfErr result (λ e. json_fault (matrix_tree node.now) ≡ Some e) }
{
    check_selector(&node.vs)?;
    check_length(node.range)
}

#[cycle(check)]
fn check_aggregate(node: &AggregateExpr) -> Result<(), JsonError>
    ensures fits { OnOk result (json_fault (aggregate_tree node.now) ≡ None) }
    ensures err { IfErr result (λ e. json_fault (aggregate_tree node.now) ≡ Some e) }
{
    check_param(&node.param)?;
    check_expr(&node.expr)
}

#[cycle(check)]
fn check_param(param: &Option<Box<Expr>>) -> Result<(), JsonError>
    ensures fits { OnOk result (param_fault (option_tree param.now) ≡ None) }
    ensures err { IfErr result (λ e. param_fault (option_tree param.now) ≡ Some e) }
{
    match param {
        Some(param) => check_expr(param),
        None => Ok(()),
    }
}

#[cycle(check)]
fn check_binary(node: &BinaryExpr) -> Result<(), JsonError>
    ensures fits { OnOk result (json_fault (binary_tree node.now) ≡ None) }
    ensures err { IfErr result (λ e. json_fault (binary_tree node.now) ≡ Some e) }
{
    check_expr(&node.lhs)?;
    check_expr(&node.rhs)
}

#[cycle(check)]
fn check_subquery(node: &SubqueryExpr) -> Result<(), JsonError>
    ensures fits { OnOk result (json_fault (subquery_tree node.now) ≡ None) }
    ensures err { IfErr result (λ e. json_fault (subquery_tree node.now) ≡ Some e) }
{
    check_whole(offset_millis(node.offset))?;
    check_length(node.range)?;
    check_step(node.step)?;
    check_expr(&node.expr)
}

#[cycle(check)]
fn check_args(args: &[Box<Expr>]) -> Result<(), JsonError>
    ensures fits { OnOk result (args_fault (trees_of args.now) ≡ None) }
    ensures err { IfErr result (λ e. args_fault (trees_of args.now) ≡ Some e) }
{
    for arg in args {
        check_expr(arg)?;
    }
    Ok(())
}

/// The first fault of an expression, if it has one.
#[cycle(check)]
#[tactic(auto, using(promql_ast::proofs::nodes::NodeParts::tree_of_call, promql_ast::proofs::nodes::NodeParts::tree_of_extension, promql_ast::proofs::nodes::NodeParts::tree_of_aggregate))]
pub(crate) fn check_expr(expr: &Expr) -> Result<(), JsonError>
    ensures fits { OnOk result (json_fault (tree_of expr.now) ≡ None) }
    ensures err { IfErr result (λ e. json_fault (tree_of expr.now) ≡ Some e) }
{
    match expr {
        Expr::Aggregate(e) => check_aggregate(e),
        Expr::Unary(e) => check_expr(&e.expr),
        Expr::Binary(e) => check_binary(e),
        Expr::Paren(e) => check_expr(&e.expr),
        Expr::Subquery(e) => check_subquery(e),
        Expr::NumberLiteral(_) | Expr::StringLiteral(_) => Ok(()),
        Expr::VectorSelector(e) => check_selector(e),
        Expr::MatrixSelector(e) => check_matrix(e),
        Expr::Call(e) => check_args(e.args.args.as_slice()),
        Expr::Extension(_) => Err(JsonError::Extension),
    }
}
