//! Up to when a query reads, and which queries are the same at every time: docs/reference/when.md, "Final answers".

ghost use Rattle.std.specs.Prelude.{◌≡◌, None, Some, IfErr, IfOk, OnOk, option_map};
ghost use Rattle.promql_kind.specs.Functions.{signature_of};
ghost use Rattle.promql_ast.specs.View.{option_tree, tree_of, trees_of};
ghost use Rattle.promql_when.specs.Found.{IsErrorAt, found_of};
ghost use Rattle.promql_when.specs.Last as spec;
ghost use Rattle.promql_when.specs.Reads as reads;
ghost use Rattle.promql_when.specs.Reads.{overflow};
ghost use Rattle.promql_when.specs.Windows.{instant};

use crate::overflow::WindowsError;
use crate::reading::{SelectorWindow, windows_within};
use crate::times::{Times, Window};
use promql_ast::Expr;
use promql_kind::Function;
use std::alloc::Global;

/// The last millisecond that the query can read where it is evaluated at this time; None where it reads nothing. Once all samples up to
/// there are known, its value at this time does not change.
///
/// # Errors
///
/// Those of `windows`.
pub fn last_read<'a>(
    alloc: Global,
    expr: &'a Expr,
    time: i64,
    times: &Times,
) -> Result<Option<i64>, WindowsError<'a>>
    ensures exact { IfOk result (λ last.
        last ≡ spec.last_of (reads.windows times.now (tree_of expr.now) (Some (instant time)))) }
    ensures fits { OnOk result (overflow times.now (tree_of expr.now) (Some (instant time)) ≡ None) }
    ensures error { IfErr result (IsErrorAt (overflow times.now (tree_of expr.now) (Some (instant time)))) }
{
    let window = Window {
        first: time,
        last: time,
    };
    match windows_within(alloc, expr, times, Some(window)) {
        Ok(found) => Ok(last_of(found.as_slice())),
        Err(error) => Err(error),
    }
}

/// The last millisecond of the windows; None where all of them are empty.
pub fn last_of(found: &[SelectorWindow<'_>]) -> Option<i64>
    ensures { result ≡ spec.last_of (found_of found.now) }
{
    let mut last = None;
    for selector in found {
        last = later(last, selector.window);
    }
    last
}

/// The later one of a time and the end of a window.
fn later(last: Option<i64>, window: Option<Window>) -> Option<i64>
    ensures { result ≡ spec.later last (option_map (λ w. w.last) window) }
{
    match (last, window) {
        (Some(last), Some(window)) => Some(last.max(window.last)),
        (last, None) => last,
        (None, Some(window)) => Some(window.last),
    }
}

/// Whether its value may depend on the time of evaluation, or on the times of samples, where its arguments are constant.
fn depends_on_time(func: &Function) -> bool
    ensures { result ≡ spec.depends_on_time (signature_of func.now) }
{
    matches!(
        func.name,
        "time"
            | "info"
            | "timestamp"
            | "predict_linear"
            | "minute"
            | "hour"
            | "day_of_week"
            | "day_of_month"
            | "day_of_year"
            | "days_in_month"
            | "month"
            | "year"
            | "start"
            | "end"
            | "step"
            | "range"
    )
}

/// Whether the query is the same at every time: each selector is within an `@`, and no function outside of one depends on the time. Where
/// it is false, the query may be constant all the same.
#[cycle(constant)]
#[tactic(auto, using(promql_ast::proofs::nodes::NodeParts::tree_of_call, promql_ast::proofs::nodes::NodeParts::tree_of_extension, promql_ast::proofs::nodes::NodeParts::tree_of_aggregate))]
pub fn is_constant(expr: &Expr) -> bool
    ensures { result ≡ spec.is_constant (tree_of expr.now) }
{
    match expr {
        Expr::Aggregate(e) => param_is_constant(&e.param) && is_constant(&e.expr),
        Expr::Unary(e) => is_constant(&e.expr),
        Expr::Binary(e) => is_constant(&e.lhs) && is_constant(&e.rhs),
        Expr::Paren(e) => is_constant(&e.expr),
        Expr::Subquery(e) => e.at.is_some(),
        Expr::NumberLiteral(_) | Expr::StringLiteral(_) => true,
        Expr::VectorSelector(e) => e.at.is_some(),
        Expr::MatrixSelector(e) => e.vs.at.is_some(),
        Expr::Call(e) => !depends_on_time(&e.func) && args_are_constant(e.args.args.as_slice()),
        Expr::Extension(_) => false,
    }
}

#[cycle(constant)]
fn param_is_constant(param: &Option<Box<Expr>>) -> bool
    ensures { result ≡ spec.maybe_constant (option_tree param.now) }
{
    match param {
        Some(param) => is_constant(param),
        None => true,
    }
}

#[cycle(constant)]
#[tactic(auto, using(crate::proofs::TreeLists::one_is_not))]
fn args_are_constant(args: &[Box<Expr>]) -> bool
    ensures { result ≡ spec.all_constant (trees_of args.now) }
{
    for arg in args {
        if !is_constant(arg) {
            return false;
        }
    }
    true
}
