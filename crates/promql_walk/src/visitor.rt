//! Walks over a tree: docs/reference/walks.md, "Walks".

ghost use Rattle.std.specs.Prelude.{Bool, Result};
ghost use Rattle.promql_ast.specs.Tree.{Tree};
ghost use Rattle.promql_ast.specs.View.{children_of, option_tree, tree_of, trees_of};
ghost use Rattle.promql_json.specs.Events.{all_events, events, inner_events, param_events};
ghost use Rattle.promql_walk.specs.WalkSteps.{IdlesOr, Visit, WalksAlong};

use promql_ast::Expr;

/// Is called at each node of a tree: before the node's children, and after them.
///
/// Contracts see what a call may do as a relation between the visitor before, the node, the result, and the visitor
/// after. A visitor without a `post_visit` of its own leaves `post_gives` out as well.
pub trait ExprVisitor {
    /// What a call may fail with.
    type Error;

    /// What `pre_visit` may do.
    ghost pre_gives: { Self → Tree → Result Bool Self.Error → Self → Type 0 };

    /// What a `post_visit` may do, beside leaving the visitor as it is.
    ghost post_gives: { Self → Tree → Result Bool Self.Error → Self → Type 0 } = { λ _ _ _ _. ⊥ };

    /// Is called before a node's children. `Ok(true)` goes on; everything else ends the walk.
    fn pre_visit(&mut self, expr: &Expr) -> Result<bool, Self::Error>
        ensures { pre_gives self.old (tree_of expr.now) result self.new };

    /// Is called after a node's children. `Ok(true)` goes on; everything else ends the walk. By default it does nothing
    /// and goes on.
    fn post_visit(&mut self, expr: &Expr) -> Result<bool, Self::Error>
        ensures { IdlesOr post_gives self.old (tree_of expr.now) result self.new }
    {
        let _ = expr;
        Ok(true)
    }
}

/// Calls the visitor before each node and after its children, in the order of docs/reference/walks.md, "Order". It
/// returns `Ok(true)` if each call did, and else what the first other call returned; no call comes after that one. Nothing
/// is allocated beside what the visitor allocates.
///
/// # Errors
///
/// What a call of the visitor failed with.
#[cycle(walk)]
pub fn walk_expr<V: ExprVisitor>(visitor: &mut V, expr: &Expr) -> Result<bool, V::Error>
    ensures { WalksAlong (Visit V.pre_gives (IdlesOr V.post_gives))
        (events (tree_of expr.now)) visitor.old result visitor.new }
{
    match visitor.pre_visit(expr) {
        Ok(true) => match walk_children(visitor, expr) {
            Ok(true) => visitor.post_visit(expr),
            Ok(false) => Ok(false),
            Err(e) => Err(e),
        },
        Ok(false) => Ok(false),
        Err(e) => Err(e),
    }
}

#[cycle(walk)]
fn walk_children<V: ExprVisitor>(visitor: &mut V, expr: &Expr) -> Result<bool, V::Error>
    ensures { WalksAlong (Visit V.pre_gives (IdlesOr V.post_gives))
        (inner_events (tree_of expr.now)) visitor.old result visitor.new }
{
    match expr {
        Expr::Aggregate(e) => match walk_param(visitor, &e.param) {
            Ok(true) => walk_expr(visitor, &e.expr),
            Ok(false) => Ok(false),
            Err(e) => Err(e),
        },
        Expr::Unary(e) => walk_expr(visitor, &e.expr),
        Expr::Binary(e) => match walk_expr(visitor, &e.lhs) {
            Ok(true) => walk_expr(visitor, &e.rhs),
            Ok(false) => Ok(false),
            Err(e) => Err(e),
        },
        Expr::Paren(e) => walk_expr(visitor, &e.expr),
        Expr::Subquery(e) => walk_expr(visitor, &e.expr),
        Expr::NumberLiteral(_)
        | Expr::StringLiteral(_)
        | Expr::VectorSelector(_)
        | Expr::MatrixSelector(_) => Ok(true),
        Expr::Call(e) => walk_args(visitor, e.args.args.as_slice()),
        Expr::Extension(e) => walk_nodes(visitor, e.children.as_slice()),
    }
}

#[cycle(walk)]
fn walk_param<V: ExprVisitor>(visitor: &mut V, param: &Option<Box<Expr>>) -> Result<bool, V::Error>
    ensures { WalksAlong (Visit V.pre_gives (IdlesOr V.post_gives))
        (param_events (option_tree param.now)) visitor.old result visitor.new }
{
    match param {
        Some(param) => walk_expr(visitor, param),
        None => Ok(true),
    }
}

#[cycle(walk)]
fn walk_args<V: ExprVisitor>(visitor: &mut V, args: &[Box<Expr>]) -> Result<bool, V::Error>
    ensures { WalksAlong (Visit V.pre_gives (IdlesOr V.post_gives))
        (all_events (trees_of args.now)) visitor.old result visitor.new }
{
    for arg in args {
        match walk_expr(visitor, arg) {
            Ok(true) => {}
            Ok(false) => return Ok(false),
            Err(e) => return Err(e),
        }
    }
    Ok(true)
}

#[cycle(walk)]
fn walk_nodes<V: ExprVisitor>(visitor: &mut V, nodes: &[Expr]) -> Result<bool, V::Error>
    ensures { WalksAlong (Visit V.pre_gives (IdlesOr V.post_gives))
        (all_events (children_of nodes.now)) visitor.old result visitor.new }
{
    for node in nodes {
        match walk_expr(visitor, node) {
            Ok(true) => {}
            Ok(false) => return Ok(false),
            Err(e) => return Err(e),
        }
    }
    Ok(true)
}
