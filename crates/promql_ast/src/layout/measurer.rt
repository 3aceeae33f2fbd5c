//! Measures each node once, from the leaves up, and decides whether it is split: docs/reference/printing.md,
//! "One width a node".

ghost use Rattle.std.specs.Prelude.{◌≡◌, ◌++◌, ◌+◌, [], codes, IfOk, OnOk};
ghost use Rattle.promql_ast.specs.Decisions.{all_decisions, decisions, maybe_decisions, operand_decisions};
ghost use Rattle.promql_ast.specs.NodeView.{tree_of_node};
ghost use Rattle.promql_ast.specs.Nodes.{all_nodes, maybe_nodes, nodes};
ghost use Rattle.promql_ast.specs.Text.{maybe_text, text, texts};
ghost use Rattle.promql_ast.specs.View.{children_of, option_tree, trees_of};
ghost use Rattle.promql_ast.specs.node.Aggregate.{param_text};
ghost use Rattle.promql_text.specs.Texts.{joined_text};
ghost use Rattle.promql_text.specs.PrintedLen.{cap_usize, printed_len};

use crate::aggregate::{aggregate_len, param_len};
use crate::binary::binary_len;
use crate::call::call_len;
use crate::expr::Expr;
use crate::layout::decisions::{decide, forget};
use crate::layout::node::Node;
use crate::paren::paren_len;
use crate::subquery::subquery_len;
use crate::unary::unary_len;
use promql_text::{number_printed_len, quoted_printed_len, separator_printed_len};
use std::alloc::{AllocError, Global};

/// What measuring leaves.
#[derive(Drop)]
pub struct Measurer {
    /// Whether each node that can be split is, from the root on.
    pub decisions: Vec<bool>,
    /// How many nodes were measured, up to the greatest `usize`.
    pub measured: usize,
}

impl Measurer {
    pub fn new(alloc: Global) -> Measurer
        ensures decisions { result.decisions.items ≡ [] }
        ensures measured { result.measured ≡ 0 }
    {
        Measurer {
            decisions: Vec::new(alloc),
            measured: 0,
        }
    }

    /// The bytes of the node's one line; the decisions of the node and its operands are appended.
    #[cycle(measure)]
    #[tactic(auto, using(crate::proofs::layouts::LayoutsBy::split_decisions, crate::proofs::layouts::LayoutsBy::whole_decisions))]
    pub fn measure(&mut self, node: Node, max: usize) -> Result<usize, AllocError>
        ensures len { IfOk result (λ n. n ≡ printed_len (text (tree_of_node node.entry))) }
        ensures decisions { OnOk result (self.new.decisions.items
            ≡ self.old.decisions.items ++ decisions (tree_of_node node.entry) max) }
        ensures counted { OnOk result (cap_usize self.new.measured
            ≡ cap_usize (self.old.measured + nodes (tree_of_node node.entry))) }
    {
        if !node.can_split() {
            return self.measure_operands(node, max);
        }
        let index = self.decisions.len();
        self.decisions.push(false)?;
        let len = self.measure_operands(node, max)?;
        decide(&mut self.decisions, index, max < len);
        Ok(len)
    }

    /// The bytes of the node's one line; the decisions of its operands alone are appended.
    #[cycle(measure)]
    pub fn measure_operands(&mut self, node: Node, max: usize) -> Result<usize, AllocError>
        ensures len { IfOk result (λ n. n ≡ printed_len (text (tree_of_node node.entry))) }
        ensures decisions { OnOk result (self.new.decisions.items
            ≡ self.old.decisions.items ++ operand_decisions (tree_of_node node.entry) max) }
        ensures counted { OnOk result (cap_usize self.new.measured
            ≡ cap_usize (self.old.measured + nodes (tree_of_node node.entry))) }
    {
        self.measured = self.measured.saturating_add(1);
        match node {
            Node::Aggregate(e) => {
                let param = self.measure_param(&e.param, max)?;
                let inner = self.measure(e.expr.node(), max)?;
                Ok(aggregate_len(e.op, &e.modifier, param, inner))
            }
            Node::Unary(e) => Ok(unary_len(self.measure(e.expr.node(), max)?)),
            Node::Binary(e) => {
                let left = self.measure(e.lhs.node(), max)?;
                let right = self.measure(e.rhs.node(), max)?;
                Ok(binary_len(left, e.op, &e.modifier, right))
            }
            Node::Paren(e) => Ok(paren_len(self.measure(e.expr.node(), max)?)),
            Node::Subquery(e) => Ok(subquery_len(self.measure(e.expr.node(), max)?, e)),
            Node::NumberLiteral(e) => Ok(number_printed_len(&e.val)),
            Node::StringLiteral(e) => Ok(quoted_printed_len(e.val.as_str())),
            Node::VectorSelector(e) => Ok(e.printed_len()),
            Node::MatrixSelector(e) => Ok(e.printed_len()),
            Node::Call(e) => {
                let args = self.measure_args(e.args.args.as_slice(), max)?;
                Ok(call_len(e.func.name, args))
            }
            Node::Extension(e) => {
                let index = self.decisions.len();
                let children = self.measure_children(e.children.as_slice(), max)?;
                forget(&mut self.decisions, index);
                Ok(call_len(e.name.as_str(), children))
            }
        }
    }

    /// The bytes of an aggregation's parameter and the comma after it.
    #[cycle(measure)]
    fn measure_param(&mut self, param: &Option<Box<Expr>>, max: usize) -> Result<usize, AllocError>
        ensures len { IfOk result
            (λ n. n ≡ printed_len (param_text (maybe_text (option_tree param.now)))) }
        ensures decisions { OnOk result (self.new.decisions.items
            ≡ self.old.decisions.items ++ maybe_decisions (option_tree param.now) max) }
        ensures counted { OnOk result (cap_usize self.new.measured
            ≡ cap_usize (self.old.measured + maybe_nodes (option_tree param.now))) }
    {
        match param {
            Some(param) => Ok(param_len(self.measure(param.node(), max)?)),
            None => Ok(0),
        }
    }

    /// The bytes of arguments with commas between them.
    #[cycle(measure)]
    pub fn measure_args(&mut self, args: &[Box<Expr>], max: usize) -> Result<usize, AllocError>
        ensures len { IfOk result (λ n. n
            ≡ printed_len (joined_text (codes ", ") (texts (trees_of args.now)))) }
        ensures decisions { OnOk result (self.new.decisions.items
            ≡ self.old.decisions.items ++ all_decisions (trees_of args.now) max) }
        ensures counted { OnOk result (cap_usize self.new.measured
            ≡ cap_usize (self.old.measured + all_nodes (trees_of args.now))) }
    {
        let mut total = 0usize;
        for (i, arg) in args.iter().enumerate() {
            let len = self.measure(arg.node(), max)?;
            total = total
                .saturating_add(separator_printed_len(", ", i))
                .saturating_add(len);
        }
        Ok(total)
    }

    #[cycle(measure)]
    fn measure_children(&mut self, children: &[Expr], max: usize) -> Result<usize, AllocError>
        ensures len { IfOk result (λ n. n
            ≡ printed_len (joined_text (codes ", ") (texts (children_of children.now)))) }
        ensures decisions { OnOk result (self.new.decisions.items
            ≡ self.old.decisions.items ++ all_decisions (children_of children.now) max) }
        ensures counted { OnOk result (cap_usize self.new.measured
            ≡ cap_usize (self.old.measured + all_nodes (children_of children.now))) }
    {
        let mut total = 0usize;
        for (i, child) in children.iter().enumerate() {
            let len = self.measure(child.node(), max)?;
            total = total
                .saturating_add(separator_printed_len(", ", i))
                .saturating_add(len);
        }
        Ok(total)
    }
}
