//! The nodes that are laid out by themselves, which are all but `Extension`.

ghost use Rattle.std.specs.Prelude.{refl, string_bytes};
ghost use Rattle.promql_ast.specs.Tree.{number, string};
ghost use Rattle.promql_ast.specs.View.{aggregate_tree, binary_tree, call_tree, matrix_tree, paren_tree, subquery_tree, unary_tree, vector_tree};

use crate::aggregate::AggregateExpr;
use crate::binary::BinaryExpr;
use crate::call::Call;
use crate::layout::node::Node;
use crate::layout::pretty::LayoutNode;
use crate::matrix_selector::MatrixSelector;
use crate::number_literal::NumberLiteral;
use crate::paren::ParenExpr;
use crate::string_literal::StringLiteral;
use crate::subquery::SubqueryExpr;
use crate::unary::UnaryExpr;
use crate::vector_selector::VectorSelector;

impl LayoutNode for AggregateExpr {
    ghost tree = { aggregate_tree };

    ghost shows = { λ _. refl };

    fn node(&self) -> Node<'_> {
        Node::Aggregate(self)
    }
}

impl LayoutNode for BinaryExpr {
    ghost tree = { binary_tree };

    ghost shows = { λ _. refl };

    fn node(&self) -> Node<'_> {
        Node::Binary(self)
    }
}

impl LayoutNode for Call {
    ghost tree = { call_tree };

    ghost shows = { λ _. refl };

    fn node(&self) -> Node<'_> {
        Node::Call(self)
    }
}

impl LayoutNode for MatrixSelector {
    ghost tree = { matrix_tree };

    ghost shows = { λ _. refl };

    fn node(&self) -> Node<'_> {
        Node::MatrixSelector(self)
    }
}

impl LayoutNode for NumberLiteral {
    ghost tree = { λ n. number n.val };

    ghost shows = { λ _. refl };

    fn node(&self) -> Node<'_> {
        Node::NumberLiteral(self)
    }
}

impl LayoutNode for ParenExpr {
    ghost tree = { paren_tree };

    ghost shows = { λ _. refl };

    fn node(&self) -> Node<'_> {
        Node::Paren(self)
    }
}

impl LayoutNode for StringLiteral {
    ghost tree = { λ s. string (string_bytes s.val) };

    ghost shows = { λ _. refl };

    fn node(&self) -> Node<'_> {
        Node::StringLiteral(self)
    }
}

impl LayoutNode for SubqueryExpr {
    ghost tree = { subquery_tree };

    ghost shows = { λ _. refl };

    fn node(&self) -> Node<'_> {
        Node::Subquery(self)
    }
}

impl LayoutNode for UnaryExpr {
    ghost tree = { unary_tree };

    ghost shows = { λ _. refl };

    fn node(&self) -> Node<'_> {
        Node::Unary(self)
    }
}

impl LayoutNode for VectorSelector {
    ghost tree = { vector_tree };

    ghost shows = { λ _. refl };

    fn node(&self) -> Node<'_> {
        Node::VectorSelector(self)
    }
}
