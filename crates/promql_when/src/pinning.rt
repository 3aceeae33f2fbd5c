//! Queries whose `@ start()` and `@ end()` are numbers: docs/reference/when.md, "Pinned queries".

ghost use Rattle.std.specs.Prelude.{◌≡◌, ◌≢◌, false, true, IfErr, IfOk, OnOk, map, option_map};
ghost use Rattle.promql_ast.specs.Shifts.{moment_of};
ghost use Rattle.promql_ast.specs.View.{aggregate_tree, binary_tree, call_tree, children_of, extension_tree, option_tree, selector_of, tree_of, trees_of};
ghost use Rattle.promql_kind.specs.Functions.{signature_of};
ghost use Rattle.promql_when.specs.Pinned as spec;

use promql_ast::{AggregateExpr, AtModifier, BinaryExpr, Call, Expr, Extension, SubqueryExpr};
use promql_kind::Function;
use std::alloc::{AllocError, Global};
use thiserror::Error;

/// Why a query is not pinned.
#[derive(Debug, Drop, PartialEq, Eq, Error)]
pub enum PinError {
    /// It calls `start`, `end`, `step` or `range`, whose values are those of the whole query.
    #[error("a call of `start`, `end`, `step` or `range` depends on the times of the whole query")]
    GridFunction,
    /// An allocation failed.
    #[error("out of memory")]
    Memory,
}

impl From<AllocError> for PinError {
    ghost use Rattle.std.specs.Prelude.{◌≡◌};
    ghost use Rattle.promql_when.specs.declared.pinning.PinError.TheVariants.{Memory};

    ghost from_gives = { λ _ e. e ≡ Memory };

    fn from(_e: AllocError) -> PinError {
        PinError::Memory
    }
}

/// A copy of the query with these times, in milliseconds since the epoch, for `@ start()` and `@ end()`. It reads at each time what the
/// query reads there, where these are the first and the last time, whatever the times are over which it is evaluated itself.
///
/// # Errors
///
/// `GridFunction` where the query calls `start`, `end`, `step` or `range`; `Memory` where an allocation failed.
pub fn pinned(alloc: Global, expr: &Expr, start: i64, end: i64) -> Result<Expr, PinError>
    ensures pinned { IfOk result (λ e. tree_of e ≡ spec.pinned start end (tree_of expr.now)) }
    ensures without { OnOk result (spec.asks_grid (tree_of expr.now) ≡ false) }
    ensures with { IfErr result (λ e. e ≢ PinError.Memory → spec.asks_grid (tree_of expr.now) ≡ true) }
{
    if asks_grid(expr) {
        return Err(PinError::GridFunction);
    }
    let mut copy = expr.try_clone(alloc)?;
    pin_expr(&mut copy, Ends { start, end });
    Ok(copy)
}

/// The first and the last time of a query.
#[derive(Clone, Copy)]
struct Ends {
    start: i64,
    end: i64,
}

/// Whether the function's value is that of the whole query.
fn is_grid_function(func: &Function) -> bool
    ensures { result ≡ spec.is_grid_function (signature_of func.now) }
{
    matches!(func.name, "start" | "end" | "step" | "range")
}

/// Whether the query calls such a function.
#[cycle(asks)]
#[tactic(auto, using(promql_ast::proofs::nodes::NodeParts::tree_of_call, promql_ast::proofs::nodes::NodeParts::tree_of_extension, promql_ast::proofs::nodes::NodeParts::tree_of_aggregate))]
pub fn asks_grid(expr: &Expr) -> bool
    ensures { result ≡ spec.asks_grid (tree_of expr.now) }
{
    match expr {
        Expr::Aggregate(e) => param_asks_grid(&e.param) || asks_grid(&e.expr),
        Expr::Unary(e) => asks_grid(&e.expr),
        Expr::Binary(e) => asks_grid(&e.lhs) || asks_grid(&e.rhs),
        Expr::Paren(e) => asks_grid(&e.expr),
        Expr::Subquery(e) => asks_grid(&e.expr),
        Expr::NumberLiteral(_)
        | Expr::StringLiteral(_)
        | Expr::VectorSelector(_)
        | Expr::MatrixSelector(_) => false,
        Expr::Call(e) => is_grid_function(&e.func) || args_ask_grid(e.args.args.as_slice()),
        Expr::Extension(e) => children_ask_grid(e.children.as_slice()),
    }
}

#[cycle(asks)]
fn param_asks_grid(param: &Option<Box<Expr>>) -> bool
    ensures { result ≡ spec.maybe_asks_grid (option_tree param.now) }
{
    match param {
        Some(param) => asks_grid(param),
        None => false,
    }
}

#[cycle(asks)]
#[tactic(auto, using(crate::proofs::TreeLists::one_asks))]
fn args_ask_grid(args: &[Box<Expr>]) -> bool
    ensures { result ≡ spec.any_asks_grid (trees_of args.now) }
{
    for arg in args {
        if asks_grid(arg) {
            return true;
        }
    }
    false
}

#[cycle(asks)]
#[tactic(auto, using(crate::proofs::TreeLists::one_asks))]
fn children_ask_grid(children: &[Expr]) -> bool
    ensures { result ≡ spec.any_asks_grid (children_of children.now) }
{
    for child in children {
        if asks_grid(child) {
            return true;
        }
    }
    false
}

/// Writes the times into an `@`.
fn pin_at(at: &mut Option<AtModifier>, ends: Ends)
    ensures { option_map moment_of at.new
        ≡ option_map (spec.pinned_at ends.start ends.end) (option_map moment_of at.old) }
{
    match at {
        Some(AtModifier::Start) => *at = Some(AtModifier::At(ends.start)),
        Some(AtModifier::End) => *at = Some(AtModifier::At(ends.end)),
        Some(AtModifier::At(_)) | None => {}
    }
}

/// Writes the times into each `@` of the expression.
#[cycle(pin)]
#[tactic(auto, using(promql_ast::proofs::nodes::NodeParts::tree_of_call, promql_ast::proofs::nodes::NodeParts::tree_of_extension, promql_ast::proofs::nodes::NodeParts::tree_of_aggregate))]
fn pin_expr(expr: &mut Expr, ends: Ends)
    ensures { tree_of expr.new ≡ spec.pinned ends.start ends.end (tree_of expr.old) }
{
    match expr {
        Expr::Aggregate(e) => pin_aggregate(e, ends),
        Expr::Unary(e) => pin_expr(&mut e.expr, ends),
        Expr::Binary(e) => pin_binary(e, ends),
        Expr::Paren(e) => pin_expr(&mut e.expr, ends),
        Expr::Subquery(e) => {
            pin_at(&mut e.at, ends);
            pin_expr(&mut e.expr, ends);
        }
        Expr::NumberLiteral(_) | Expr::StringLiteral(_) => {}
        Expr::VectorSelector(e) => pin_at(&mut e.at, ends),
        Expr::MatrixSelector(e) => pin_at(&mut e.vs.at, ends),
        Expr::Call(e) => pin_call(e, ends),
        Expr::Extension(e) => pin_extension(e, ends),
    }
}

#[cycle(pin)]
fn pin_aggregate(node: &mut AggregateExpr, ends: Ends)
    ensures { aggregate_tree node.new ≡ spec.pinned ends.start ends.end (aggregate_tree node.old) }
{
    if let Some(param) = &mut node.param {
        pin_expr(param, ends);
    }
    pin_expr(&mut node.expr, ends);
}

#[cycle(pin)]
fn pin_binary(node: &mut BinaryExpr, ends: Ends)
    ensures { binary_tree node.new ≡ spec.pinned ends.start ends.end (binary_tree node.old) }
{
    pin_expr(&mut node.lhs, ends);
    pin_expr(&mut node.rhs, ends);
}

#[cycle(pin)]
fn pin_call(node: &mut Call, ends: Ends)
    ensures { call_tree node.new ≡ spec.pinned ends.start ends.end (call_tree node.old) }
{
    pin_args(node.args.args.as_mut_slice(), ends);
}

#[cycle(pin)]
fn pin_args(args: &mut [Box<Expr>], ends: Ends)
    ensures { map (λ b. tree_of b.value) args.new
        ≡ map (λ b. spec.pinned ends.start ends.end (tree_of b.value)) args.old }
{
    for i in 0..args.len() {
        pin_expr(&mut args[i], ends);
    }
}

#[cycle(pin)]
fn pin_extension(node: &mut Extension, ends: Ends)
    ensures { extension_tree node.new ≡ spec.pinned ends.start ends.end (extension_tree node.old) }
{
    pin_children(node.children.as_mut_slice(), ends);
}

#[cycle(pin)]
fn pin_children(children: &mut [Expr], ends: Ends)
    ensures { map tree_of children.new
        ≡ map (λ e. spec.pinned ends.start ends.end (tree_of e)) children.old }
{
    for i in 0..children.len() {
        pin_expr(&mut children[i], ends);
    }
}
