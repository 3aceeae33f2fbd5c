//! How far from the time of evaluation each selector of a query reads: docs/reference/when.md, "Reach".

ghost use Rattle.std.specs.Prelude.{◌≡◌, ◌++◌, ◌∷◌, [], if◌then◌else◌, IfErr, IfOk, OnOk, None, Some, option_map};
ghost use Rattle.std.specs.Duration.{as_nanos};
ghost use Rattle.promql_kind.specs.Functions.{signature_of};
ghost use Rattle.promql_ast.specs.Shifts.{moment_of, shift_of};
ghost use Rattle.promql_ast.specs.View.{aggregate_tree, binary_tree, call_tree, children_of, extension_tree, matrix_tree, option_tree, selector_of, subquery_tree, tree_of, trees_of, vector_tree};
ghost use Rattle.promql_when.specs.Found.{IsErrorAt};
ghost use Rattle.promql_when.specs.Reached as spec;
ghost use Rattle.promql_when.specs.ReachFound.{reaches_of};
ghost use Rattle.promql_when.specs.Reads as reads;
ghost use Rattle.promql_when.specs.Walked.{Walks};
ghost use Rattle.promql_when.specs.Windows.{millis};

use crate::overflow::{TimedNode, WindowsError};
use crate::reading::is_bare_info;
use crate::times::{Times, Window};
use crate::window::{matrix_window, subquery_window, vector_window};
use promql_ast::{
    AggregateExpr, BinaryExpr, Call, Expr, Extension, MatrixSelector, SubqueryExpr, VectorSelector,
};
use std::alloc::Global;

/// From where to where is read.
#[derive(Clone, Copy, Debug, PartialEq, Eq)]
pub struct Reach {
    /// Whether it is the same at every time of evaluation.
    pub is_fixed: bool,
    /// From the first through the last sample, in milliseconds: since the epoch where it is the same at every time, else how much later
    /// they are than the time of evaluation; what is negative is earlier.
    pub window: Window,
}

/// A selector of a query, and how far from the time of evaluation it reads.
#[derive(Clone, Copy, Debug, Drop)]
pub struct SelectorReach<'a> {
    /// The selector: of a matrix selector, the one that it has. None for `target_info`, which a call of `info` without a second argument
    /// reads.
    pub selector: Option<&'a VectorSelector>,
    /// From where to where it reads.
    pub reach: Reach,
}

/// For each selector of the query, in the order of a walk, how far from the time of evaluation it can read, whatever that time is.
///
/// # Errors
///
/// `TimeOverflow` where 64 bits do not hold how far a selector reads, or how far the times of a subquery lie, with the first such node;
/// `Memory` where an allocation failed.
pub fn reaches<'a>(
    alloc: Global,
    expr: &'a Expr,
    times: &Times,
) -> Result<Vec<SelectorReach<'a>>, WindowsError<'a>>
    ensures exact { IfOk result (λ rs. reaches_of rs.items ≡ spec.reach times.now (tree_of expr.now) spec.evaluation) }
    ensures fits { OnOk result (spec.reach_overflow times.now (tree_of expr.now) spec.evaluation ≡ None) }
    ensures error { IfErr result (IsErrorAt (spec.reach_overflow times.now (tree_of expr.now) spec.evaluation)) }
{
    let evaluation = Reach {
        is_fixed: false,
        window: Window { first: 0, last: 0 },
    };
    let mut found: Vec<SelectorReach<'a>> = Vec::new(alloc);
    match reach_expr(times, expr, evaluation, &mut found) {
        Ok(()) => Ok(found),
        Err(error) => Err(error),
    }
}

/// Appends the reach of each selector of the expression.
#[cycle(reach)]
#[tactic(auto, using(promql_ast::proofs::nodes::NodeParts::tree_of_call, promql_ast::proofs::nodes::NodeParts::tree_of_extension, promql_ast::proofs::nodes::NodeParts::tree_of_aggregate))]
fn reach_expr<'a>(
    times: &Times,
    expr: &'a Expr,
    from: Reach,
    found: &mut Vec<SelectorReach<'a>>,
) -> Result<(), WindowsError<'a>>
    ensures { Walks result (reaches_of found.old.items) (reaches_of found.new.items)
        (spec.reach times.now (tree_of expr.now) from) (spec.reach_overflow times.now (tree_of expr.now) from) }
{
    match expr {
        Expr::Aggregate(e) => reach_aggregate(times, e, from, found),
        Expr::Unary(e) => reach_expr(times, &e.expr, from, found),
        Expr::Binary(e) => reach_binary(times, e, from, found),
        Expr::Paren(e) => reach_expr(times, &e.expr, from, found),
        Expr::Subquery(e) => reach_subquery(times, e, from, found),
        Expr::NumberLiteral(_) | Expr::StringLiteral(_) => Ok(()),
        Expr::VectorSelector(e) => reach_vector(times, e, from, found),
        Expr::MatrixSelector(e) => reach_matrix(times, e, from, found),
        Expr::Call(e) => reach_call(times, e, from, found),
        Expr::Extension(e) => reach_children(times, e.children.as_slice(), from, found),
    }
}

#[cycle(reach)]
fn reach_aggregate<'a>(
    times: &Times,
    node: &'a AggregateExpr,
    from: Reach,
    found: &mut Vec<SelectorReach<'a>>,
) -> Result<(), WindowsError<'a>>
    ensures { Walks result (reaches_of found.old.items) (reaches_of found.new.items)
        (spec.reach times.now (aggregate_tree node.now) from) (spec.reach_overflow times.now (aggregate_tree node.now) from) }
{
    match reach_param(times, &node.param, from, found) {
        Ok(()) => reach_expr(times, &node.expr, from, found),
        Err(error) => Err(error),
    }
}

#[cycle(reach)]
fn reach_param<'a>(
    times: &Times,
    param: &'a Option<Box<Expr>>,
    from: Reach,
    found: &mut Vec<SelectorReach<'a>>,
) -> Result<(), WindowsError<'a>>
    ensures { Walks result (reaches_of found.old.items) (reaches_of found.new.items)
        (spec.maybe_reach times.now (option_tree param.now) from) (spec.maybe_reach_overflow times.now (option_tree param.now) from) }
{
    match param {
        Some(param) => reach_expr(times, param, from, found),
        None => Ok(()),
    }
}

#[cycle(reach)]
fn reach_binary<'a>(
    times: &Times,
    node: &'a BinaryExpr,
    from: Reach,
    found: &mut Vec<SelectorReach<'a>>,
) -> Result<(), WindowsError<'a>>
    ensures { Walks result (reaches_of found.old.items) (reaches_of found.new.items)
        (spec.reach times.now (binary_tree node.now) from) (spec.reach_overflow times.now (binary_tree node.now) from) }
{
    match reach_expr(times, &node.lhs, from, found) {
        Ok(()) => reach_expr(times, &node.rhs, from, found),
        Err(error) => Err(error),
    }
}

/// From where the expression of a subquery is evaluated.
fn inner_reach<'a>(
    times: &Times,
    node: &'a SubqueryExpr,
    from: Reach,
) -> Result<Reach, WindowsError<'a>>
    ensures inner { IfOk result (λ r. r ≡ spec.reach_around times.now (option_map shift_of node.now.offset)
        (option_map moment_of node.now.at) (millis (as_nanos node.now.range)) 0 from) }
    ensures fits { OnOk result (spec.subquery_reach_overflow times.now (tree_of node.now.expr.value)
        (option_map shift_of node.now.offset) (option_map moment_of node.now.at) (as_nanos node.now.range)
        (option_map as_nanos node.now.step) from ≡ None) }
    ensures error { IfErr result (IsErrorAt (spec.subquery_reach_overflow times.now (tree_of node.now.expr.value)
        (option_map shift_of node.now.offset) (option_map moment_of node.now.at) (as_nanos node.now.range)
        (option_map as_nanos node.now.step) from)) }
{
    match subquery_window(times, node, from.window) {
        Some(window) => Ok(Reach {
            is_fixed: node.at.is_some() || from.is_fixed,
            window,
        }),
        None => Err(WindowsError::TimeOverflow(TimedNode::Subquery(node))),
    }
}

#[cycle(reach)]
fn reach_subquery<'a>(
    times: &Times,
    node: &'a SubqueryExpr,
    from: Reach,
    found: &mut Vec<SelectorReach<'a>>,
) -> Result<(), WindowsError<'a>>
    ensures { Walks result (reaches_of found.old.items) (reaches_of found.new.items)
        (spec.reach times.now (subquery_tree node.now) from) (spec.reach_overflow times.now (subquery_tree node.now) from) }
{
    match inner_reach(times, node, from) {
        Ok(inner) => reach_expr(times, &node.expr, inner, found),
        Err(error) => Err(error),
    }
}

/// Appends the reach of a selector.
fn reach_vector<'a>(
    times: &Times,
    node: &'a VectorSelector,
    from: Reach,
    found: &mut Vec<SelectorReach<'a>>,
) -> Result<(), WindowsError<'a>>
    ensures { Walks result (reaches_of found.old.items) (reaches_of found.new.items)
        (spec.reach times.now (vector_tree node.now) from) (spec.reach_overflow times.now (vector_tree node.now) from) }
{
    let window = vector_window(times, node.offset, node.at, from.window).ok_or(
        WindowsError::TimeOverflow(TimedNode::Vector(node)),
    )?;
    found.push(SelectorReach {
        selector: Some(node),
        reach: Reach {
            is_fixed: node.at.is_some() || from.is_fixed,
            window,
        },
    })?;
    Ok(())
}

/// Appends the reach of a matrix selector.
fn reach_matrix<'a>(
    times: &Times,
    node: &'a MatrixSelector,
    from: Reach,
    found: &mut Vec<SelectorReach<'a>>,
) -> Result<(), WindowsError<'a>>
    ensures { Walks result (reaches_of found.old.items) (reaches_of found.new.items)
        (spec.reach times.now (matrix_tree node.now) from) (spec.reach_overflow times.now (matrix_tree node.now) from) }
{
    let window = matrix_window(times, node, from.window).ok_or(WindowsError::TimeOverflow(
        TimedNode::Matrix(node),
    ))?;
    found.push(SelectorReach {
        selector: Some(&node.vs),
        reach: Reach {
            is_fixed: node.vs.at.is_some() || from.is_fixed,
            window,
        },
    })?;
    Ok(())
}

#[cycle(reach)]
fn reach_call<'a>(
    times: &Times,
    node: &'a Call,
    from: Reach,
    found: &mut Vec<SelectorReach<'a>>,
) -> Result<(), WindowsError<'a>>
    ensures { Walks result (reaches_of found.old.items) (reaches_of found.new.items)
        (spec.reach times.now (call_tree node.now) from) (spec.reach_overflow times.now (call_tree node.now) from) }
{
    match reach_args(times, node.args.args.as_slice(), from, found) {
        Ok(()) => reach_bare_info(times, node, from, found),
        Err(error) => Err(error),
    }
}

/// Appends the reach of `target_info`, where the call reads it.
fn reach_bare_info<'a>(
    times: &Times,
    node: &'a Call,
    from: Reach,
    found: &mut Vec<SelectorReach<'a>>,
) -> Result<(), WindowsError<'a>>
    ensures { Walks result (reaches_of found.old.items) (reaches_of found.new.items)
        (if reads.is_bare_info (signature_of node.now.func) (trees_of node.now.args.args.items)
        then spec.info_reach times.now from else [])
        (if reads.is_bare_info (signature_of node.now.func) (trees_of node.now.args.args.items)
        then spec.info_reach_overflow times.now (signature_of node.now.func) (trees_of node.now.args.args.items) from else None) }
{
    if is_bare_info(node) {
        reach_target_info(times, node, from, found)
    } else {
        Ok(())
    }
}

/// Appends the reach of `target_info`.
fn reach_target_info<'a>(
    times: &Times,
    node: &'a Call,
    from: Reach,
    found: &mut Vec<SelectorReach<'a>>,
) -> Result<(), WindowsError<'a>>
    ensures { Walks result (reaches_of found.old.items) (reaches_of found.new.items)
        (spec.info_reach times.now from)
        (spec.info_reach_overflow times.now (signature_of node.now.func) (trees_of node.now.args.args.items) from) }
{
    let window = vector_window(times, None, None, from.window).ok_or(WindowsError::TimeOverflow(
        TimedNode::Info(node),
    ))?;
    found.push(SelectorReach {
        selector: None,
        reach: Reach {
            is_fixed: from.is_fixed,
            window,
        },
    })?;
    Ok(())
}

#[cycle(reach)]
fn reach_args<'a>(
    times: &Times,
    args: &'a [Box<Expr>],
    from: Reach,
    found: &mut Vec<SelectorReach<'a>>,
) -> Result<(), WindowsError<'a>>
    ensures { Walks result (reaches_of found.old.items) (reaches_of found.new.items)
        (spec.all_reach times.now (trees_of args.now) from) (spec.any_reach_overflow times.now (trees_of args.now) from) }
{
    for arg in args {
        match reach_expr(times, arg, from, found) {
            Ok(()) => {}
            Err(error) => return Err(error),
        }
    }
    Ok(())
}

#[cycle(reach)]
fn reach_children<'a>(
    times: &Times,
    children: &'a [Expr],
    from: Reach,
    found: &mut Vec<SelectorReach<'a>>,
) -> Result<(), WindowsError<'a>>
    ensures { Walks result (reaches_of found.old.items) (reaches_of found.new.items)
        (spec.all_reach times.now (children_of children.now) from) (spec.any_reach_overflow times.now (children_of children.now) from) }
{
    for child in children {
        match reach_expr(times, child, from, found) {
            Ok(()) => {}
            Err(error) => return Err(error),
        }
    }
    Ok(())
}
