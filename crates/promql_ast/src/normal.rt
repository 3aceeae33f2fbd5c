//! Normal forms: docs/reference/printing.md, "Normal form".

ghost use Rattle.std.specs.Prelude.{◌≡◌, if◌then◌else◌, IfOk, None, OnOk, Some, map, option_map};
ghost use Rattle.promql_ast.specs.Normal.{normal, normal_clause, normal_matched, normal_matching, unless_default};
ghost use Rattle.promql_ast.specs.View.{aggregate_tree, binary_tree, call_tree, extension_tree, tree_of};
ghost use Rattle.promql_kind.specs.Modifiers.{is_grouping};
ghost use Rattle.promql_kind.specs.ModifierViews.{cardinality_of, clause_of, matching_of};

use crate::aggregate::AggregateExpr;
use crate::binary::BinaryExpr;
use crate::call::Call;
use crate::expr::Expr;
use crate::extension::Extension;
use promql_kind::{BinModifier, LabelModifier, VectorMatchCardinality};
use std::alloc::{AllocError, Global};

impl Expr {
    /// A copy in the normal form: matchers in the order in which they print, and no list or modifier that says nothing. Of
    /// an expression that `parse` returned it is the tree that its text is read as, and two of these print alike exactly if
    /// their normal forms are equal. (A tree that was built may print as another one does: a negated `1` and the number `-1`.)
    ///
    /// # Errors
    ///
    /// `AllocError` where an allocation failed.
    pub fn normalized(&self, alloc: Global) -> Result<Expr, AllocError>
        ensures { IfOk result (λ e. tree_of e ≡ normal (tree_of self.now)) }
    {
        let mut copy = self.try_clone(alloc)?;
        copy.normalize()?;
        Ok(copy)
    }

    /// Brings the expression into its normal form. Where an allocation fails, a part of it may be.
    #[cycle(normal)]
    fn normalize(&mut self) -> Result<(), AllocError>
        ensures { OnOk result (tree_of self.new ≡ normal (tree_of self.old)) }
    {
        match self {
            Expr::Aggregate(e) => normalize_aggregate(e),
            Expr::Unary(e) => e.expr.normalize(),
            Expr::Binary(e) => normalize_binary(e),
            Expr::Paren(e) => e.expr.normalize(),
            Expr::Subquery(e) => e.expr.normalize(),
            Expr::NumberLiteral(_) => Ok(()),
            Expr::StringLiteral(_) => Ok(()),
            Expr::VectorSelector(e) => e.matchers.sort(),
            Expr::MatrixSelector(e) => e.vs.matchers.sort(),
            Expr::Call(e) => normalize_call(e),
            Expr::Extension(e) => normalize_extension(e),
        }
    }
}

#[cycle(normal)]
fn normalize_aggregate(node: &mut AggregateExpr) -> Result<(), AllocError>
    ensures { OnOk result (aggregate_tree node.new ≡ normal (aggregate_tree node.old)) }
{
    normalize_grouping(&mut node.modifier);
    if let Some(param) = &mut node.param {
        param.normalize()?;
    }
    node.expr.normalize()
}

/// Leaves out an empty list after `by`.
fn normalize_grouping(modifier: &mut Option<LabelModifier>)
    ensures { option_map clause_of modifier.new ≡ normal_clause (option_map clause_of modifier.old) }
{
    if let Some(LabelModifier::Include(labels)) = modifier {
        if labels.is_empty() {
            *modifier = None;
        }
    }
}

#[cycle(normal)]
fn normalize_binary(node: &mut BinaryExpr) -> Result<(), AllocError>
    ensures { OnOk result (binary_tree node.new ≡ normal (binary_tree node.old)) }
{
    normalize_modifier(&mut node.modifier);
    node.lhs.normalize()?;
    node.rhs.normalize()
}

/// Leaves out an empty list after `ignoring` where no grouping follows, and the modifier where it says nothing else.
fn normalize_modifier(modifier: &mut Option<BinModifier>)
    ensures { option_map matching_of modifier.new ≡ normal_matching (option_map matching_of modifier.old) }
{
    let Some(left) = modifier else {
        return;
    };
    if has_empty_ignoring(left) {
        left.matching = None;
    }
    if is_default(left) {
        *modifier = None;
    }
}

/// Whether an empty list follows `ignoring`, and no grouping.
fn has_empty_ignoring(modifier: &BinModifier) -> bool
    ensures { let clause = option_map clause_of modifier.now.matching in
        normal_matched (is_grouping (cardinality_of modifier.now.card)) clause
        ≡ if result then None else clause }
{
    if modifier.card.is_grouping() {
        return false;
    }
    match &modifier.matching {
        Some(LabelModifier::Exclude(labels)) => labels.is_empty(),
        _ => false,
    }
}

/// Whether the modifier says nothing.
fn is_default(modifier: &BinModifier) -> bool
    ensures { unless_default (matching_of modifier.now)
        ≡ if result then None else Some (matching_of modifier.now) }
{
    matches!(modifier.card, VectorMatchCardinality::OneToOne)
        && modifier.matching.is_none()
        && !modifier.return_bool
        && modifier.fill_values.lhs.is_none()
        && modifier.fill_values.rhs.is_none()
}

#[cycle(normal)]
fn normalize_call(node: &mut Call) -> Result<(), AllocError>
    ensures { OnOk result (call_tree node.new ≡ normal (call_tree node.old)) }
{
    normalize_args(node.args.args.as_mut_slice())
}

#[cycle(normal)]
fn normalize_args(args: &mut [Box<Expr>]) -> Result<(), AllocError>
    ensures { OnOk result (map (λ b. tree_of b.value) args.new
        ≡ map (λ b. normal (tree_of b.value)) args.old) }
{
    for i in 0..args.len() {
        args[i].normalize()?;
    }
    Ok(())
}

#[cycle(normal)]
fn normalize_extension(node: &mut Extension) -> Result<(), AllocError>
    ensures { OnOk result (extension_tree node.new ≡ normal (extension_tree node.old)) }
{
    normalize_children(node.children.as_mut_slice())
}

#[cycle(normal)]
fn normalize_children(children: &mut [Expr]) -> Result<(), AllocError>
    ensures { OnOk result (map tree_of children.new
        ≡ map (λ e. normal (tree_of e)) children.old) }
{
    for i in 0..children.len() {
        children[i].normalize()?;
    }
    Ok(())
}
