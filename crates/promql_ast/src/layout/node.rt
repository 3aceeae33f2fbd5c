//! A node by reference, so that what holds of every kind of node is written once.

ghost use Rattle.std.specs.Prelude.{◌≡◌};
ghost use Rattle.promql_ast.specs.Decisions.{can_split};
ghost use Rattle.promql_ast.specs.Layout.{is_leaf};
ghost use Rattle.promql_ast.specs.NodeView.{tree_of_node};
ghost use Rattle.promql_ast.specs.View.{tree_of};

use crate::aggregate::AggregateExpr;
use crate::binary::BinaryExpr;
use crate::call::Call;
use crate::expr::Expr;
use crate::extension::Extension;
use crate::matrix_selector::MatrixSelector;
use crate::number_literal::NumberLiteral;
use crate::paren::ParenExpr;
use crate::string_literal::StringLiteral;
use crate::subquery::SubqueryExpr;
use crate::unary::UnaryExpr;
use crate::vector_selector::VectorSelector;

/// A node of a tree.
#[derive(Clone, Copy)]
pub enum Node<'a> {
    Aggregate(&'a AggregateExpr),
    Unary(&'a UnaryExpr),
    Binary(&'a BinaryExpr),
    Paren(&'a ParenExpr),
    Subquery(&'a SubqueryExpr),
    NumberLiteral(&'a NumberLiteral),
    StringLiteral(&'a StringLiteral),
    VectorSelector(&'a VectorSelector),
    MatrixSelector(&'a MatrixSelector),
    Call(&'a Call),
    Extension(&'a Extension),
}

impl Expr {
    /// The node at the root.
    #[tactic(auto, using(crate::proofs::nodes::NodeParts::tree_of_call, crate::proofs::nodes::NodeParts::tree_of_extension, crate::proofs::nodes::NodeParts::tree_of_aggregate))]
    pub fn node(&self) -> Node<'_>
        ensures { tree_of_node result ≡ tree_of self.now }
    {
        match self {
            Expr::Aggregate(e) => Node::Aggregate(e),
            Expr::Unary(e) => Node::Unary(e),
            Expr::Binary(e) => Node::Binary(e),
            Expr::Paren(e) => Node::Paren(e),
            Expr::Subquery(e) => Node::Subquery(e),
            Expr::NumberLiteral(e) => Node::NumberLiteral(e),
            Expr::StringLiteral(e) => Node::StringLiteral(e),
            Expr::VectorSelector(e) => Node::VectorSelector(e),
            Expr::MatrixSelector(e) => Node::MatrixSelector(e),
            Expr::Call(e) => Node::Call(e),
            Expr::Extension(e) => Node::Extension(e),
        }
    }
}

impl Node<'_> {
    /// Whether the node has lines of its own: docs/reference/printing.md, "Nodes over several lines".
    pub fn can_split(self) -> bool
        ensures { result ≡ can_split (tree_of_node self.entry) }
    {
        matches!(
            self,
            Node::Aggregate(_) | Node::Binary(_) | Node::Paren(_) | Node::Call(_)
        )
    }

    /// Whether the node never needs a split: docs/reference/printing.md, "The trait".
    pub fn is_leaf(self) -> bool
        ensures { result ≡ is_leaf (tree_of_node self.entry) }
    {
        matches!(
            self,
            Node::NumberLiteral(_)
                | Node::StringLiteral(_)
                | Node::VectorSelector(_)
                | Node::MatrixSelector(_)
        )
    }
}
