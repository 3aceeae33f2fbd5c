//! Whether a node of an expression passes a test.

ghost use Rattle.std.specs.Prelude.{◌≡◌, Bool};
ghost use Rattle.std.specs.List.{list_any};
ghost use Rattle.promql_ast.specs.Tree.{Tree};
ghost use Rattle.promql_ast.specs.View.{aggregate_tree, binary_tree, children_of, option_tree, tree_of, trees_of};
ghost use Rattle.promql_rewrite.specs.Collecting.{all_nodes, maybe_nodes, nodes_of, nodes_within};

use promql_ast::{AggregateExpr, BinaryExpr, Expr};

/// A test of one node.
pub(crate) trait NodeTest {
    /// Which trees pass.
    ghost passing: { Self → Tree → Bool };

    /// Whether the node passes.
    fn passes(&self, node: &Expr) -> bool
        ensures { result ≡ passing self.now (tree_of node.now) };
}

/// Whether a node of the expression passes.
#[cycle(some_node)]
pub(crate) fn has_node<T: NodeTest>(expr: &Expr, test: &T) -> bool
    ensures { result ≡ list_any (T.passing test.now) (nodes_of (tree_of expr.now)) }
{
    if test.passes(expr) {
        return true;
    }
    has_within(expr, test)
}

/// Whether a node within the expression does.
#[cycle(some_node)]
#[tactic(auto, using(promql_ast::proofs::nodes::NodeParts::tree_of_call, promql_ast::proofs::nodes::NodeParts::tree_of_extension, promql_ast::proofs::nodes::NodeParts::tree_of_aggregate))]
fn has_within<T: NodeTest>(expr: &Expr, test: &T) -> bool
    ensures { result ≡ list_any (T.passing test.now) (nodes_within (tree_of expr.now)) }
{
    match expr {
        Expr::Aggregate(e) => has_in_aggregate(e, test),
        Expr::Unary(e) => has_node(&e.expr, test),
        Expr::Binary(e) => has_in_sides(e, test),
        Expr::Paren(e) => has_node(&e.expr, test),
        Expr::Subquery(e) => has_node(&e.expr, test),
        Expr::NumberLiteral(_)
        | Expr::StringLiteral(_)
        | Expr::VectorSelector(_)
        | Expr::MatrixSelector(_) => false,
        Expr::Call(e) => has_in_args(e.args.args.as_slice(), test),
        Expr::Extension(e) => has_in_children(e.children.as_slice(), test),
    }
}

#[cycle(some_node)]
#[tactic(auto, using(crate::proofs::rules_broken::ListedNodes::any_of_both))]
fn has_in_aggregate<T: NodeTest>(node: &AggregateExpr, test: &T) -> bool
    ensures { result ≡ list_any (T.passing test.now) (nodes_within (aggregate_tree node.now)) }
{
    if has_in_param(&node.param, test) {
        return true;
    }
    has_node(&node.expr, test)
}

#[cycle(some_node)]
fn has_in_param<T: NodeTest>(param: &Option<Box<Expr>>, test: &T) -> bool
    ensures { result ≡ list_any (T.passing test.now) (maybe_nodes (option_tree param.now)) }
{
    match param {
        Some(param) => has_node(param, test),
        None => false,
    }
}

#[cycle(some_node)]
#[tactic(auto, using(crate::proofs::rules_broken::ListedNodes::any_of_both))]
fn has_in_sides<T: NodeTest>(node: &BinaryExpr, test: &T) -> bool
    ensures { result ≡ list_any (T.passing test.now) (nodes_within (binary_tree node.now)) }
{
    if has_node(&node.lhs, test) {
        return true;
    }
    has_node(&node.rhs, test)
}

#[cycle(some_node)]
fn has_in_args<T: NodeTest>(args: &[Box<Expr>], test: &T) -> bool
    ensures { result ≡ list_any (T.passing test.now) (all_nodes (trees_of args.now)) }
{
    for arg in args {
        if has_node(arg, test) {
            return true;
        }
    }
    false
}

#[cycle(some_node)]
fn has_in_children<T: NodeTest>(children: &[Expr], test: &T) -> bool
    ensures { result ≡ list_any (T.passing test.now) (all_nodes (children_of children.now)) }
{
    for child in children {
        if has_node(child, test) {
            return true;
        }
    }
    false
}
