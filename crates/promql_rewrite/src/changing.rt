//! A change of a tree's own parts, in place: docs/reference/tree.md, "Trees with changed parts".

ghost use Rattle.std.specs.Prelude.{◌≡◌, OnOk, Option, map, option_map};
ghost use Rattle.promql_kind.specs.Modifiers.{Clause, Matching};
ghost use Rattle.promql_kind.specs.ModifierViews.{clause_of, matching_of};
ghost use Rattle.promql_ast.specs.Mapped.{mapped};
ghost use Rattle.promql_ast.specs.Selectors.{Selector};
ghost use Rattle.promql_ast.specs.View.{aggregate_tree, binary_tree, call_tree, extension_tree, selector_of, tree_of};

use promql_ast::{AggregateExpr, BinaryExpr, Call, Expr, Extension, VectorSelector};
use promql_kind::{BinModifier, LabelModifier};
use std::alloc::{AllocError, Global};

/// A change of selectors, of the clauses of aggregations, and of the matchings of operators. Where an allocation fails, a part may be
/// changed in part.
pub(crate) trait PartChange {
    /// What becomes of a selector.
    ghost selectors: { Self → Selector → Selector };

    /// What becomes of what an aggregation has after `by` or `without`.
    ghost clauses: { Self → Option Clause → Option Clause };

    /// What becomes of the modifier of an operator.
    ghost matchings: { Self → Option Matching → Option Matching };

    /// Changes a selector.
    fn change_selector(
        &self,
        alloc: Global,
        selector: &mut VectorSelector,
    ) -> Result<(), AllocError>
        ensures { OnOk result (selector_of selector.new ≡ selectors self.now (selector_of selector.old)) };

    /// Changes what an aggregation has after `by` or `without`.
    fn change_clause(
        &self,
        alloc: Global,
        clause: &mut Option<LabelModifier>,
    ) -> Result<(), AllocError>
        ensures { OnOk result
            (option_map clause_of clause.new ≡ clauses self.now (option_map clause_of clause.old)) };

    /// Changes the modifier of an operator.
    fn change_matching(
        &self,
        alloc: Global,
        modifier: &mut Option<BinModifier>,
    ) -> Result<(), AllocError>
        ensures { OnOk result
            (option_map matching_of modifier.new ≡ matchings self.now (option_map matching_of modifier.old)) };
}

/// Changes every part of the expression. Where an allocation fails, some of them may be changed.
#[cycle(change)]
#[tactic(auto, using(promql_ast::proofs::nodes::NodeParts::tree_of_call, promql_ast::proofs::nodes::NodeParts::tree_of_extension, promql_ast::proofs::nodes::NodeParts::tree_of_aggregate))]
pub(crate) fn change_parts<C: PartChange>(
    alloc: Global,
    expr: &mut Expr,
    change: &C,
) -> Result<(), AllocError>
    ensures { OnOk result (tree_of expr.new
        ≡ mapped (C.selectors change.now) (C.clauses change.now) (C.matchings change.now) (tree_of expr.old)) }
{
    match expr {
        Expr::Aggregate(e) => change_aggregate(alloc, e, change),
        Expr::Unary(e) => change_parts(alloc, &mut e.expr, change),
        Expr::Binary(e) => change_binary(alloc, e, change),
        Expr::Paren(e) => change_parts(alloc, &mut e.expr, change),
        Expr::Subquery(e) => change_parts(alloc, &mut e.expr, change),
        Expr::NumberLiteral(_) => Ok(()),
        Expr::StringLiteral(_) => Ok(()),
        Expr::VectorSelector(e) => change.change_selector(alloc, e),
        Expr::MatrixSelector(e) => change.change_selector(alloc, &mut e.vs),
        Expr::Call(e) => change_call(alloc, e, change),
        Expr::Extension(e) => change_extension(alloc, e, change),
    }
}

#[cycle(change)]
fn change_aggregate<C: PartChange>(
    alloc: Global,
    node: &mut AggregateExpr,
    change: &C,
) -> Result<(), AllocError>
    ensures { OnOk result (aggregate_tree node.new
        ≡ mapped (C.selectors change.now) (C.clauses change.now) (C.matchings change.now) (aggregate_tree node.old)) }
{
    change.change_clause(alloc, &mut node.modifier)?;
    if let Some(param) = &mut node.param {
        change_parts(alloc, param, change)?;
    }
    change_parts(alloc, &mut node.expr, change)
}

#[cycle(change)]
fn change_binary<C: PartChange>(
    alloc: Global,
    node: &mut BinaryExpr,
    change: &C,
) -> Result<(), AllocError>
    ensures { OnOk result (binary_tree node.new
        ≡ mapped (C.selectors change.now) (C.clauses change.now) (C.matchings change.now) (binary_tree node.old)) }
{
    change.change_matching(alloc, &mut node.modifier)?;
    change_parts(alloc, &mut node.lhs, change)?;
    change_parts(alloc, &mut node.rhs, change)
}

#[cycle(change)]
fn change_call<C: PartChange>(alloc: Global, node: &mut Call, change: &C) -> Result<(), AllocError>
    ensures { OnOk result (call_tree node.new
        ≡ mapped (C.selectors change.now) (C.clauses change.now) (C.matchings change.now) (call_tree node.old)) }
{
    change_args(alloc, node.args.args.as_mut_slice(), change)
}

#[cycle(change)]
fn change_args<C: PartChange>(
    alloc: Global,
    args: &mut [Box<Expr>],
    change: &C,
) -> Result<(), AllocError>
    ensures { OnOk result (map (λ b. tree_of b.value) args.new
        ≡ map (λ b. mapped (C.selectors change.now) (C.clauses change.now) (C.matchings change.now) (tree_of b.value)) args.old) }
{
    for i in 0..args.len() {
        change_parts(alloc, &mut args[i], change)?;
    }
    Ok(())
}

#[cycle(change)]
fn change_extension<C: PartChange>(
    alloc: Global,
    node: &mut Extension,
    change: &C,
) -> Result<(), AllocError>
    ensures { OnOk result (extension_tree node.new
        ≡ mapped (C.selectors change.now) (C.clauses change.now) (C.matchings change.now) (extension_tree node.old)) }
{
    change_children(alloc, node.children.as_mut_slice(), change)
}

#[cycle(change)]
fn change_children<C: PartChange>(
    alloc: Global,
    children: &mut [Expr],
    change: &C,
) -> Result<(), AllocError>
    ensures { OnOk result (map tree_of children.new
        ≡ map (λ e. mapped (C.selectors change.now) (C.clauses change.now) (C.matchings change.now) (tree_of e)) children.old) }
{
    for i in 0..children.len() {
        change_parts(alloc, &mut children[i], change)?;
    }
    Ok(())
}
