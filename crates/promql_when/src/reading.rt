//! When each selector of a query reads: docs/reference/when.md, "Windows".

ghost use Rattle.std.specs.Prelude.{◌≡◌, ◌++◌, ◌∷◌, [], if◌then◌else◌, IfErr, IfOk, OnOk, None, Some, option_map};
ghost use Rattle.std.specs.Duration.{as_nanos};
ghost use Rattle.promql_kind.specs.Functions.{signature_of};
ghost use Rattle.promql_ast.specs.Shifts.{moment_of, shift_of};
ghost use Rattle.promql_ast.specs.View.{aggregate_tree, binary_tree, call_tree, children_of, extension_tree, matrix_tree, option_tree, selector_of, subquery_tree, tree_of, trees_of, vector_tree};
ghost use Rattle.promql_when.specs.Found.{IsErrorAt, found_of};
ghost use Rattle.promql_when.specs.Reads as reads;
ghost use Rattle.promql_when.specs.Reads.{overflow};
ghost use Rattle.promql_when.specs.Walked.{Walks};
ghost use Rattle.promql_when.specs.Windows.{asked};

use crate::overflow::{TimedNode, WindowsError};
use crate::times::{Times, Window};
use crate::window::{matrix_window, narrowed, step_of, subquery_window, vector_window};
use promql_ast::{
    AggregateExpr, BinaryExpr, Call, Expr, Extension, MatrixSelector, SubqueryExpr, VectorSelector,
};
use std::alloc::Global;

/// A selector of a query, and which samples it reads.
#[derive(Clone, Copy, Debug, Drop)]
pub struct SelectorWindow<'a> {
    /// The selector: of a matrix selector, the one that it has. None for `target_info`, which a call of `info` without a second argument
    /// reads.
    pub selector: Option<&'a VectorSelector>,
    /// From the first through the last sample; None where the selector is never evaluated.
    pub window: Option<Window>,
}

/// For each selector of the query, in the order of a walk, from which to which sample it can read, at all times together.
///
/// # Errors
///
/// `TimeOverflow` where 64 bits do not hold the window of a selector, or that in which the times of a subquery lie, with the first such
/// node; `Memory` where an allocation failed.
pub fn windows<'a>(
    alloc: Global,
    expr: &'a Expr,
    times: &Times,
) -> Result<Vec<SelectorWindow<'a>>, WindowsError<'a>>
    ensures exact { IfOk result (λ ws. found_of ws.items
        ≡ reads.windows times.now (tree_of expr.now) (asked times.now)) }
    ensures fits { OnOk result (overflow times.now (tree_of expr.now) (asked times.now) ≡ None) }
    ensures error { IfErr result (IsErrorAt (overflow times.now (tree_of expr.now) (asked times.now))) }
{
    windows_within(alloc, expr, times, times.asked())
}

/// The same, of a query that is evaluated at all times of a window.
pub(crate) fn windows_within<'a>(
    alloc: Global,
    expr: &'a Expr,
    times: &Times,
    window: Option<Window>,
) -> Result<Vec<SelectorWindow<'a>>, WindowsError<'a>>
    ensures exact { IfOk result (λ ws. found_of ws.items
        ≡ reads.windows times.now (tree_of expr.now) window) }
    ensures fits { OnOk result (overflow times.now (tree_of expr.now) window ≡ None) }
    ensures error { IfErr result (IsErrorAt (overflow times.now (tree_of expr.now) window)) }
{
    let mut found: Vec<SelectorWindow<'a>> = Vec::new(alloc);
    match push_expr(times, expr, window, &mut found) {
        Ok(()) => Ok(found),
        Err(error) => Err(error),
    }
}

/// Appends the windows of the expression.
#[cycle(windows)]
#[tactic(auto, using(promql_ast::proofs::nodes::NodeParts::tree_of_call, promql_ast::proofs::nodes::NodeParts::tree_of_extension, promql_ast::proofs::nodes::NodeParts::tree_of_aggregate))]
fn push_expr<'a>(
    times: &Times,
    expr: &'a Expr,
    window: Option<Window>,
    found: &mut Vec<SelectorWindow<'a>>,
) -> Result<(), WindowsError<'a>>
    ensures { Walks result (found_of found.old.items) (found_of found.new.items)
        (reads.windows times.now (tree_of expr.now) window) (overflow times.now (tree_of expr.now) window) }
{
    match expr {
        Expr::Aggregate(e) => push_aggregate(times, e, window, found),
        Expr::Unary(e) => push_expr(times, &e.expr, window, found),
        Expr::Binary(e) => push_binary(times, e, window, found),
        Expr::Paren(e) => push_expr(times, &e.expr, window, found),
        Expr::Subquery(e) => push_subquery(times, e, window, found),
        Expr::NumberLiteral(_) | Expr::StringLiteral(_) => Ok(()),
        Expr::VectorSelector(e) => push_vector(times, e, window, found),
        Expr::MatrixSelector(e) => push_matrix(times, e, window, found),
        Expr::Call(e) => push_call(times, e, window, found),
        Expr::Extension(e) => push_children(times, e.children.as_slice(), window, found),
    }
}

#[cycle(windows)]
fn push_aggregate<'a>(
    times: &Times,
    node: &'a AggregateExpr,
    window: Option<Window>,
    found: &mut Vec<SelectorWindow<'a>>,
) -> Result<(), WindowsError<'a>>
    ensures { Walks result (found_of found.old.items) (found_of found.new.items)
        (reads.windows times.now (aggregate_tree node.now) window) (overflow times.now (aggregate_tree node.now) window) }
{
    match push_param(times, &node.param, window, found) {
        Ok(()) => push_expr(times, &node.expr, window, found),
        Err(error) => Err(error),
    }
}

#[cycle(windows)]
fn push_param<'a>(
    times: &Times,
    param: &'a Option<Box<Expr>>,
    window: Option<Window>,
    found: &mut Vec<SelectorWindow<'a>>,
) -> Result<(), WindowsError<'a>>
    ensures { Walks result (found_of found.old.items) (found_of found.new.items)
        (reads.maybe_windows times.now (option_tree param.now) window) (reads.maybe_overflow times.now (option_tree param.now) window) }
{
    match param {
        Some(param) => push_expr(times, param, window, found),
        None => Ok(()),
    }
}

#[cycle(windows)]
fn push_binary<'a>(
    times: &Times,
    node: &'a BinaryExpr,
    window: Option<Window>,
    found: &mut Vec<SelectorWindow<'a>>,
) -> Result<(), WindowsError<'a>>
    ensures { Walks result (found_of found.old.items) (found_of found.new.items)
        (reads.windows times.now (binary_tree node.now) window) (overflow times.now (binary_tree node.now) window) }
{
    match push_expr(times, &node.lhs, window, found) {
        Ok(()) => push_expr(times, &node.rhs, window, found),
        Err(error) => Err(error),
    }
}

/// The window in which the expression of a subquery is evaluated.
fn inner_window<'a>(
    times: &Times,
    node: &'a SubqueryExpr,
    window: Option<Window>,
) -> Result<Option<Window>, WindowsError<'a>>
    ensures inner { IfOk result (λ w. w ≡ reads.inner_window times.now (option_map shift_of node.now.offset)
        (option_map moment_of node.now.at) (as_nanos node.now.range) (option_map as_nanos node.now.step) window) }
    ensures fits { OnOk result (reads.subquery_overflow times.now (tree_of node.now.expr.value)
        (option_map shift_of node.now.offset) (option_map moment_of node.now.at) (as_nanos node.now.range)
        (option_map as_nanos node.now.step) window ≡ None) }
    ensures error { IfErr result (IsErrorAt (reads.subquery_overflow times.now (tree_of node.now.expr.value)
        (option_map shift_of node.now.offset) (option_map moment_of node.now.at) (as_nanos node.now.range)
        (option_map as_nanos node.now.step) window)) }
{
    match window {
        Some(window) => match subquery_window(times, node, window) {
            Some(whole) => Ok(narrowed(step_of(times, node.step), whole)),
            None => Err(WindowsError::TimeOverflow(TimedNode::Subquery(node))),
        },
        None => Ok(None),
    }
}

#[cycle(windows)]
fn push_subquery<'a>(
    times: &Times,
    node: &'a SubqueryExpr,
    window: Option<Window>,
    found: &mut Vec<SelectorWindow<'a>>,
) -> Result<(), WindowsError<'a>>
    ensures { Walks result (found_of found.old.items) (found_of found.new.items)
        (reads.windows times.now (subquery_tree node.now) window) (overflow times.now (subquery_tree node.now) window) }
{
    match inner_window(times, node, window) {
        Ok(inner) => push_expr(times, &node.expr, inner, found),
        Err(error) => Err(error),
    }
}

/// Appends the window of a selector.
fn push_vector<'a>(
    times: &Times,
    node: &'a VectorSelector,
    window: Option<Window>,
    found: &mut Vec<SelectorWindow<'a>>,
) -> Result<(), WindowsError<'a>>
    ensures { Walks result (found_of found.old.items) (found_of found.new.items)
        (reads.windows times.now (vector_tree node.now) window) (overflow times.now (vector_tree node.now) window) }
{
    let window = match window {
        Some(window) => Some(vector_window(times, node.offset, node.at, window).ok_or(
            WindowsError::TimeOverflow(TimedNode::Vector(node)),
        )?),
        None => None,
    };
    let selector = Some(node);
    found.push(SelectorWindow { selector, window })?;
    Ok(())
}

/// Appends the window of a matrix selector.
fn push_matrix<'a>(
    times: &Times,
    node: &'a MatrixSelector,
    window: Option<Window>,
    found: &mut Vec<SelectorWindow<'a>>,
) -> Result<(), WindowsError<'a>>
    ensures { Walks result (found_of found.old.items) (found_of found.new.items)
        (reads.windows times.now (matrix_tree node.now) window) (overflow times.now (matrix_tree node.now) window) }
{
    let window = match window {
        Some(window) => Some(matrix_window(times, node, window).ok_or(WindowsError::TimeOverflow(
            TimedNode::Matrix(node),
        ))?),
        None => None,
    };
    let selector = Some(&node.vs);
    found.push(SelectorWindow { selector, window })?;
    Ok(())
}

#[cycle(windows)]
fn push_call<'a>(
    times: &Times,
    node: &'a Call,
    window: Option<Window>,
    found: &mut Vec<SelectorWindow<'a>>,
) -> Result<(), WindowsError<'a>>
    ensures { Walks result (found_of found.old.items) (found_of found.new.items)
        (reads.windows times.now (call_tree node.now) window) (overflow times.now (call_tree node.now) window) }
{
    match push_args(times, node.args.args.as_slice(), window, found) {
        Ok(()) => push_bare_info(times, node, window, found),
        Err(error) => Err(error),
    }
}

/// Whether the call is one of `info` without a second argument.
pub(crate) fn is_bare_info(node: &Call) -> bool
    ensures { result ≡ reads.is_bare_info (signature_of node.now.func) (trees_of node.now.args.args.items) }
{
    node.func.name == "info" && node.args.len() <= 1
}

/// Appends the window of `target_info`, where the call reads it.
fn push_bare_info<'a>(
    times: &Times,
    node: &'a Call,
    window: Option<Window>,
    found: &mut Vec<SelectorWindow<'a>>,
) -> Result<(), WindowsError<'a>>
    ensures { Walks result (found_of found.old.items) (found_of found.new.items)
        (if reads.is_bare_info (signature_of node.now.func) (trees_of node.now.args.args.items)
        then reads.info_windows times.now window else [])
        (if reads.is_bare_info (signature_of node.now.func) (trees_of node.now.args.args.items)
        then reads.info_overflow times.now (signature_of node.now.func) (trees_of node.now.args.args.items) window else None) }
{
    if is_bare_info(node) {
        push_target_info(times, node, window, found)
    } else {
        Ok(())
    }
}

/// Appends the window of `target_info`.
fn push_target_info<'a>(
    times: &Times,
    node: &'a Call,
    window: Option<Window>,
    found: &mut Vec<SelectorWindow<'a>>,
) -> Result<(), WindowsError<'a>>
    ensures { Walks result (found_of found.old.items) (found_of found.new.items)
        (reads.info_windows times.now window)
        (reads.info_overflow times.now (signature_of node.now.func) (trees_of node.now.args.args.items) window) }
{
    let window = match window {
        Some(window) => Some(vector_window(times, None, None, window).ok_or(
            WindowsError::TimeOverflow(TimedNode::Info(node)),
        )?),
        None => None,
    };
    found.push(SelectorWindow {
        selector: None,
        window,
    })?;
    Ok(())
}

#[cycle(windows)]
fn push_args<'a>(
    times: &Times,
    args: &'a [Box<Expr>],
    window: Option<Window>,
    found: &mut Vec<SelectorWindow<'a>>,
) -> Result<(), WindowsError<'a>>
    ensures { Walks result (found_of found.old.items) (found_of found.new.items)
        (reads.all_windows times.now (trees_of args.now) window) (reads.any_overflow times.now (trees_of args.now) window) }
{
    for arg in args {
        match push_expr(times, arg, window, found) {
            Ok(()) => {}
            Err(error) => return Err(error),
        }
    }
    Ok(())
}

#[cycle(windows)]
fn push_children<'a>(
    times: &Times,
    children: &'a [Expr],
    window: Option<Window>,
    found: &mut Vec<SelectorWindow<'a>>,
) -> Result<(), WindowsError<'a>>
    ensures { Walks result (found_of found.old.items) (found_of found.new.items)
        (reads.all_windows times.now (children_of children.now) window) (reads.any_overflow times.now (children_of children.now) window) }
{
    for child in children {
        match push_expr(times, child, window, found) {
            Ok(()) => {}
            Err(error) => return Err(error),
        }
    }
    Ok(())
}
