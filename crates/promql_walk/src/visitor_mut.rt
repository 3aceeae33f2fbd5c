//! Walks that may change a tree: docs/reference/walks.md, "Changing walks".

ghost use Rattle.std.specs.Prelude.{◌≡◌, ◌≤◌, Bool, true, Result, Ok};
ghost use Rattle.promql_ast.specs.Height.{height};
ghost use Rattle.promql_ast.specs.Tree.{Tree};
ghost use Rattle.promql_ast.specs.View.{aggregate_tree, binary_tree, call_tree, children_of, extension_tree, tree_of, trees_of};
ghost use Rattle.promql_walk.specs.ChangedChildren.{ChangesBelow};
ghost use Rattle.promql_walk.specs.Changes.{Changes, ChangesEach, EditsOr};

use promql_ast::{AggregateExpr, BinaryExpr, Call, Expr, Extension};

/// Is called at each node of a tree, before the node's children and after them, and may change the node.
///
/// Contracts see what a call may do as a relation between the visitor and the node before, the result, and both after. A
/// visitor without a `post_visit` of its own leaves `post_gives` out as well.
pub trait ExprVisitorMut {
    /// What a call may fail with.
    type Error;

    /// What `pre_visit` may do.
    ghost pre_gives: { Self → Tree → Result Bool Self.Error → Self → Tree → Type 0 };

    /// What a `post_visit` may do, beside leaving the visitor and the node as they are.
    ghost post_gives: { Self → Tree → Result Bool Self.Error
        → Self → Tree → Type 0 } = { λ _ _ _ _ _. ⊥ };

    /// Is called before a node's children. `Ok(true)` goes on with the children of the node as it is then; everything else
    /// ends the walk. Where it goes on, the node must be no higher than it was, so that a walk ends.
    fn pre_visit(&mut self, expr: &mut Expr) -> Result<bool, Self::Error>
        ensures gives { pre_gives self.old (tree_of expr.old) result self.new (tree_of expr.new) }
        ensures no_higher { (result ≡ Ok true)
            → height (tree_of expr.new) ≤ height (tree_of expr.old) };

    /// Is called after a node's children. `Ok(true)` goes on; everything else ends the walk. By default it does nothing
    /// and goes on.
    fn post_visit(&mut self, expr: &mut Expr) -> Result<bool, Self::Error>
        ensures { EditsOr post_gives
            self.old (tree_of expr.old) result self.new (tree_of expr.new) }
    {
        let _ = expr;
        Ok(true)
    }
}

/// Calls the visitor before each node and after its children, as `walk_expr` does; the children are those of the node
/// as `pre_visit` left it. It returns `Ok(true)` if each call did, and else what the first other call returned; no call
/// comes after that one, and what was changed so far stays. Nothing is allocated beside what the visitor allocates.
///
/// # Errors
///
/// What a call of the visitor failed with.
#[cycle(change)]
pub fn walk_expr_mut<V: ExprVisitorMut>(visitor: &mut V, expr: &mut Expr) -> Result<bool, V::Error>
    ensures { Changes V.pre_gives (EditsOr V.post_gives)
        visitor.old (tree_of expr.old) result visitor.new (tree_of expr.new) }
{
    match visitor.pre_visit(expr) {
        Ok(true) => match walk_children_mut(visitor, expr) {
            Ok(true) => visitor.post_visit(expr),
            Ok(false) => Ok(false),
            Err(e) => Err(e),
        },
        Ok(false) => Ok(false),
        Err(e) => Err(e),
    }
}

#[cycle(change)]
fn walk_children_mut<V: ExprVisitorMut>(visitor: &mut V, expr: &mut Expr) -> Result<bool, V::Error>
    ensures { ChangesBelow V.pre_gives (EditsOr V.post_gives)
        visitor.old (tree_of expr.old) result visitor.new (tree_of expr.new) }
{
    match expr {
        Expr::Aggregate(e) => walk_aggregate_mut(visitor, e),
        Expr::Unary(e) => walk_expr_mut(visitor, &mut e.expr),
        Expr::Binary(e) => walk_binary_mut(visitor, e),
        Expr::Paren(e) => walk_expr_mut(visitor, &mut e.expr),
        Expr::Subquery(e) => walk_expr_mut(visitor, &mut e.expr),
        Expr::NumberLiteral(_) => Ok(true),
        Expr::StringLiteral(_) => Ok(true),
        Expr::VectorSelector(_) => Ok(true),
        Expr::MatrixSelector(_) => Ok(true),
        Expr::Call(e) => walk_call_mut(visitor, e),
        Expr::Extension(e) => walk_extension_mut(visitor, e),
    }
}

#[cycle(change)]
fn walk_aggregate_mut<V: ExprVisitorMut>(
    visitor: &mut V,
    node: &mut AggregateExpr,
) -> Result<bool, V::Error>
    ensures { ChangesBelow V.pre_gives (EditsOr V.post_gives)
        visitor.old (aggregate_tree node.old) result visitor.new (aggregate_tree node.new) }
{
    match &mut node.param {
        Some(param) => match walk_expr_mut(visitor, param) {
            Ok(true) => walk_expr_mut(visitor, &mut node.expr),
            Ok(false) => Ok(false),
            Err(e) => Err(e),
        },
        None => walk_expr_mut(visitor, &mut node.expr),
    }
}

#[cycle(change)]
fn walk_binary_mut<V: ExprVisitorMut>(
    visitor: &mut V,
    node: &mut BinaryExpr,
) -> Result<bool, V::Error>
    ensures { ChangesBelow V.pre_gives (EditsOr V.post_gives)
        visitor.old (binary_tree node.old) result visitor.new (binary_tree node.new) }
{
    match walk_expr_mut(visitor, &mut node.lhs) {
        Ok(true) => walk_expr_mut(visitor, &mut node.rhs),
        Ok(false) => Ok(false),
        Err(e) => Err(e),
    }
}

#[cycle(change)]
fn walk_call_mut<V: ExprVisitorMut>(visitor: &mut V, node: &mut Call) -> Result<bool, V::Error>
    ensures { ChangesBelow V.pre_gives (EditsOr V.post_gives)
        visitor.old (call_tree node.old) result visitor.new (call_tree node.new) }
{
    walk_args_mut(visitor, node.args.args.as_mut_slice())
}

#[cycle(change)]
fn walk_extension_mut<V: ExprVisitorMut>(
    visitor: &mut V,
    node: &mut Extension,
) -> Result<bool, V::Error>
    ensures { ChangesBelow V.pre_gives (EditsOr V.post_gives)
        visitor.old (extension_tree node.old) result visitor.new (extension_tree node.new) }
{
    walk_nodes_mut(visitor, node.children.as_mut_slice())
}

#[cycle(change)]
fn walk_args_mut<V: ExprVisitorMut>(
    visitor: &mut V,
    args: &mut [Box<Expr>],
) -> Result<bool, V::Error>
    ensures { ChangesEach V.pre_gives (EditsOr V.post_gives)
        visitor.old (trees_of args.old) result visitor.new (trees_of args.new) }
{
    for i in 0..args.len() {
        match walk_expr_mut(visitor, &mut args[i]) {
            Ok(true) => {}
            Ok(false) => return Ok(false),
            Err(e) => return Err(e),
        }
    }
    Ok(true)
}

#[cycle(change)]
fn walk_nodes_mut<V: ExprVisitorMut>(visitor: &mut V, nodes: &mut [Expr]) -> Result<bool, V::Error>
    ensures { ChangesEach V.pre_gives (EditsOr V.post_gives)
        visitor.old (children_of nodes.old) result visitor.new (children_of nodes.new) }
{
    for i in 0..nodes.len() {
        match walk_expr_mut(visitor, &mut nodes[i]) {
            Ok(true) => {}
            Ok(false) => return Ok(false),
            Err(e) => return Err(e),
        }
    }
    Ok(true)
}
