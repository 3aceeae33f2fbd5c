//! Where the selectors are that a query reads: docs/reference/when.md, "Places of windows".

ghost use Rattle.std.specs.Prelude.{◌≡◌, [], ◌∷◌, IfOk, OnOk, drop, if◌then◌else◌, slice_get};
ghost use Rattle.promql_kind.specs.Functions.{signature_of};
ghost use Rattle.promql_ast.specs.View.{aggregate_tree, binary_tree, call_tree, children_of, option_tree, tree_of, trees_of};
ghost use Rattle.promql_when.specs.Reads as reads;
ghost use Rattle.promql_query.specs.SelectorPlaces as spec;
ghost use Rattle.promql_query.specs.SelectorPlaces.{bare_info, other_node, selector_node};
ghost use Rattle.promql_query.specs.WalkedPlaces.{Takes};

use promql_ast::{AggregateExpr, BinaryExpr, Call, Expr};
use promql_span::Span;
use std::alloc::{AllocError, Global};

/// A walk over a tree whose nodes have these places.
#[derive(Drop)]
struct Walk<'a> {
    /// The places of the nodes that it has not come to.
    left: &'a [Span],
    /// The places of the selectors that it has, with none for `target_info`.
    found: Vec<Option<Span>>,
}

impl<'a> Walk<'a> {
    /// Goes on to the next node; returns its place, if there is one.
    fn next(&mut self) -> Option<Span>
        ensures place { result ≡ slice_get self.old.left.now 0 }
        ensures left { self.new.left.now ≡ drop 1 self.old.left.now }
        ensures found { self.new.found.items ≡ self.old.found.items }
    {
        let [place, left @ ..] = self.left else {
            return None;
        };
        self.left = left;
        Some(*place)
    }

    /// Goes past a node that is no selector.
    fn pass_node(&mut self)
        ensures { Takes (other_node ∷ []) self.old self.new }
    {
        self.next();
    }

    /// Takes the place of a selector.
    fn push_selector(&mut self) -> Result<(), AllocError>
        ensures { OnOk result (Takes (selector_node ∷ []) self.old self.new) }
    {
        let place = self.next();
        self.found.push(place)?;
        Ok(())
    }

    /// Leaves `target_info` without a place.
    fn push_bare_info(&mut self) -> Result<(), AllocError>
        ensures { OnOk result (Takes (bare_info ∷ []) self.old self.new) }
    {
        self.found.push(None)?;
        Ok(())
    }
}

#[cycle(selector_places)]
#[tactic(auto, using(promql_ast::proofs::nodes::NodeParts::tree_of_call, promql_ast::proofs::nodes::NodeParts::tree_of_extension, promql_ast::proofs::nodes::NodeParts::tree_of_aggregate))]
fn walk_expr(expr: &Expr, walk: &mut Walk<'_>) -> Result<(), AllocError>
    ensures { OnOk result (Takes (spec.steps (tree_of expr.now)) walk.old walk.new) }
{
    match expr {
        Expr::Aggregate(e) => walk_aggregate(e, walk),
        Expr::Unary(e) => walk_operand(&e.expr, walk),
        Expr::Binary(e) => walk_binary(e, walk),
        Expr::Paren(e) => walk_operand(&e.expr, walk),
        Expr::Subquery(e) => walk_operand(&e.expr, walk),
        Expr::NumberLiteral(_) | Expr::StringLiteral(_) => {
            walk.pass_node();
            Ok(())
        }
        Expr::VectorSelector(_) | Expr::MatrixSelector(_) => walk.push_selector(),
        Expr::Call(e) => walk_call(e, walk),
        Expr::Extension(e) => walk_children(e.children.as_slice(), walk),
    }
}

/// A node, and the one below it.
#[cycle(selector_places)]
fn walk_operand(expr: &Expr, walk: &mut Walk<'_>) -> Result<(), AllocError>
    ensures { OnOk result (Takes (other_node ∷ spec.steps (tree_of expr.now)) walk.old walk.new) }
{
    walk.pass_node();
    walk_expr(expr, walk)
}

#[cycle(selector_places)]
fn walk_aggregate(node: &AggregateExpr, walk: &mut Walk<'_>) -> Result<(), AllocError>
    ensures { OnOk result (Takes (spec.steps (aggregate_tree node.now)) walk.old walk.new) }
{
    walk.pass_node();
    walk_param(&node.param, walk)?;
    walk_expr(&node.expr, walk)
}

#[cycle(selector_places)]
fn walk_param(param: &Option<Box<Expr>>, walk: &mut Walk<'_>) -> Result<(), AllocError>
    ensures { OnOk result (Takes (spec.maybe_steps (option_tree param.now)) walk.old walk.new) }
{
    match param {
        Some(param) => walk_expr(param, walk),
        None => Ok(()),
    }
}

#[cycle(selector_places)]
fn walk_binary(node: &BinaryExpr, walk: &mut Walk<'_>) -> Result<(), AllocError>
    ensures { OnOk result (Takes (spec.steps (binary_tree node.now)) walk.old walk.new) }
{
    walk.pass_node();
    walk_expr(&node.lhs, walk)?;
    walk_expr(&node.rhs, walk)
}

#[cycle(selector_places)]
fn walk_call(node: &Call, walk: &mut Walk<'_>) -> Result<(), AllocError>
    ensures { OnOk result (Takes (spec.steps (call_tree node.now)) walk.old walk.new) }
{
    walk.pass_node();
    walk_args(node.args.args.as_slice(), walk)?;
    walk_bare_info(node, walk)
}

/// Whether the call is one of `info` without a second argument.
fn is_bare_info(node: &Call) -> bool
    ensures { result ≡ reads.is_bare_info (signature_of node.now.func) (trees_of node.now.args.args.items) }
{
    node.func.name == "info" && node.args.len() <= 1
}

/// The `target_info` that a call reads, if it does.
fn walk_bare_info(node: &Call, walk: &mut Walk<'_>) -> Result<(), AllocError>
    ensures { OnOk result (Takes (if reads.is_bare_info (signature_of node.now.func) (trees_of node.now.args.args.items)
        then bare_info ∷ [] else []) walk.old walk.new) }
{
    if is_bare_info(node) {
        walk.push_bare_info()
    } else {
        Ok(())
    }
}

#[cycle(selector_places)]
fn walk_args(args: &[Box<Expr>], walk: &mut Walk<'_>) -> Result<(), AllocError>
    ensures { OnOk result (Takes (spec.all_steps (trees_of args.now)) walk.old walk.new) }
{
    for arg in args {
        walk_expr(arg, walk)?;
    }
    Ok(())
}

/// A node, and those below it.
#[cycle(selector_places)]
fn walk_children(children: &[Expr], walk: &mut Walk<'_>) -> Result<(), AllocError>
    ensures { OnOk result (Takes (other_node ∷ spec.all_steps (children_of children.now)) walk.old walk.new) }
{
    walk.pass_node();
    for child in children {
        walk_expr(child, walk)?;
    }
    Ok(())
}

/// The places of the selectors of an expression whose nodes have these places, one for each window of the expression, in the order of a
/// walk; None for a `target_info` that is not in the text.
///
/// # Errors
///
/// `AllocError` where an allocation failed.
pub fn selector_places(
    alloc: Global,
    places: &[Span],
    expr: &Expr,
) -> Result<Vec<Option<Span>>, AllocError>
    ensures { IfOk result (λ found. found.items ≡ spec.selector_places (spec.steps (tree_of expr.now)) places.now) }
{
    let mut walk = Walk {
        left: places,
        found: Vec::new(alloc),
    };
    walk_expr(expr, &mut walk)?;
    Ok(walk.found)
}
