//! Writes each node by its decision: docs/reference/printing.md, "Nodes over several lines".

ghost use Rattle.std.specs.Prelude.{◌≡◌, ◌++◌, ◌*◌, ◌<◌, ◌≤◌, [], codes, Err, OnOk, string_bytes};
ghost use Rattle.std.specs.Slice.Iter.{iter_rest};
ghost use Rattle.promql_ast.specs.Decisions.{all_deepest_by, all_rest, deepest_by, layout_by, layouts_by, lines_by, lines_deepest_by, lines_rest, maybe_deepest_by, maybe_layout_by, maybe_rest, rest};
ghost use Rattle.promql_ast.specs.Layout.{param_lines};
ghost use Rattle.promql_ast.specs.NodeView.{tree_of_node};
ghost use Rattle.promql_ast.specs.View.{option_tree, trees_of};
ghost use Rattle.promql_text.specs.Texts.{joined_text};
ghost use Rattle.promql_text.specs.PrintedLen.{usize_max};

use crate::aggregate::Head;
use crate::binary::ModifierDisplay;
use crate::expr::Expr;
use crate::layout::decisions::next_decision;
use crate::layout::indent::{
    deeper, push_below, push_comma, push_display, push_indent, push_line, push_without_indent,
};
use crate::layout::node::Node;
use crate::layout::prettier::PrettyError;
use crate::subquery::Suffix;
use promql_token::token_display;
use std::alloc::Global;
use std::{mem, slice};

/// Appends layouts to a text.
#[derive(Drop)]
pub struct LayoutWriter<'a> {
    pub alloc: Global,
    /// Whether each node that can be split is, from the next one on.
    pub decisions: slice::Iter<'a, bool>,
    pub out: String,
}

impl<'a> LayoutWriter<'a> {
    pub fn new(alloc: Global, decisions: &'a [bool]) -> LayoutWriter<'a>
        ensures decisions { iter_rest result.decisions ≡ decisions.now }
        ensures out { string_bytes result.out ≡ [] }
    {
        LayoutWriter {
            alloc,
            decisions: decisions.iter(),
            out: String::new(alloc),
        }
    }
}

impl LayoutWriter<'_> {
    /// Appends the node's layout.
    #[cycle(layout)]
    pub fn write_layout(&mut self, node: Node, level: usize) -> Result<(), PrettyError>
        ensures text { OnOk result (string_bytes self.new.out ≡ string_bytes self.old.out
            ++ layout_by (tree_of_node node.entry) level (iter_rest self.old.decisions)) }
        ensures rest { OnOk result (iter_rest self.new.decisions
            ≡ rest (tree_of_node node.entry) (iter_rest self.old.decisions)) }
        ensures wide { result ≡ Err PrettyError.IndentTooWide
            → usize_max < 2 * deepest_by (tree_of_node node.entry) level (iter_rest self.old.decisions) }
        ensures fits { OnOk result
            (2 * deepest_by (tree_of_node node.entry) level (iter_rest self.old.decisions) ≤ usize_max) }
    {
        if node.can_split() && next_decision(&mut self.decisions) {
            return self.write_lines(node, level);
        }
        match node {
            Node::Aggregate(e) => push_line(e, level, &mut self.out),
            Node::Unary(e) => {
                push_indent(&mut self.out, level)?;
                self.out.push_str("-")?;
                let before = mem::replace(&mut self.out, String::new(self.alloc));
                self.write_layout(e.expr.node(), level)?;
                let operand = mem::replace(&mut self.out, before);
                push_without_indent(operand.as_str(), &mut self.out)?;
                Ok(())
            }
            Node::Binary(e) => push_line(e, level, &mut self.out),
            Node::Paren(e) => push_line(e, level, &mut self.out),
            Node::Subquery(e) => {
                self.write_layout(e.expr.node(), level)?;
                push_display(&Suffix(e), &mut self.out)
            }
            Node::NumberLiteral(e) => push_line(e, level, &mut self.out),
            Node::StringLiteral(e) => push_line(e, level, &mut self.out),
            Node::VectorSelector(e) => push_line(e, level, &mut self.out),
            Node::MatrixSelector(e) => push_line(e, level, &mut self.out),
            Node::Call(e) => push_line(e, level, &mut self.out),
            Node::Extension(e) => push_display(e, &mut self.out),
        }
    }

    /// Appends the node over several lines, if it has such a form, else its one line, indented.
    #[cycle(layout)]
    pub fn write_lines(&mut self, node: Node, level: usize) -> Result<(), PrettyError>
        ensures text { OnOk result (string_bytes self.new.out ≡ string_bytes self.old.out
            ++ lines_by (tree_of_node node.entry) level (iter_rest self.old.decisions)) }
        ensures rest { OnOk result (iter_rest self.new.decisions
            ≡ lines_rest (tree_of_node node.entry) (iter_rest self.old.decisions)) }
        ensures wide { result ≡ Err PrettyError.IndentTooWide → usize_max
            < 2 * lines_deepest_by (tree_of_node node.entry) level (iter_rest self.old.decisions) }
        ensures fits { OnOk result
            (2 * lines_deepest_by (tree_of_node node.entry) level (iter_rest self.old.decisions)
            ≤ usize_max) }
    {
        let inner = deeper(level)?;
        match node {
            Node::Aggregate(e) => {
                push_indent(&mut self.out, level)?;
                push_display(&Head(e), &mut self.out)?;
                self.out.push_str("(\n")?;
                self.write_param(&e.param, inner)?;
                self.write_layout(e.expr.node(), inner)?;
                push_below(&mut self.out, level, ")")
            }
            Node::Unary(e) => push_line(e, level, &mut self.out),
            Node::Binary(e) => {
                self.write_layout(e.lhs.node(), inner)?;
                push_below(&mut self.out, level, token_display(e.op.id()))?;
                push_display(&ModifierDisplay(&e.modifier), &mut self.out)?;
                self.out.push_str("\n")?;
                self.write_layout(e.rhs.node(), inner)
            }
            Node::Paren(e) => {
                push_indent(&mut self.out, level)?;
                self.out.push_str("(\n")?;
                self.write_layout(e.expr.node(), inner)?;
                push_below(&mut self.out, level, ")")
            }
            Node::Subquery(e) => push_line(e, level, &mut self.out),
            Node::NumberLiteral(e) => push_line(e, level, &mut self.out),
            Node::StringLiteral(e) => push_line(e, level, &mut self.out),
            Node::VectorSelector(e) => push_line(e, level, &mut self.out),
            Node::MatrixSelector(e) => push_line(e, level, &mut self.out),
            Node::Call(e) => {
                push_indent(&mut self.out, level)?;
                self.out.push_str(e.func.name)?;
                self.out.push_str("(\n")?;
                self.write_args(e.args.args.as_slice(), inner)?;
                push_below(&mut self.out, level, ")")
            }
            Node::Extension(e) => push_line(e, level, &mut self.out),
        }
    }

    /// Appends an aggregation's parameter with a comma and a line feed after it.
    #[cycle(layout)]
    fn write_param(&mut self, param: &Option<Box<Expr>>, level: usize) -> Result<(), PrettyError>
        ensures text { OnOk result (string_bytes self.new.out ≡ string_bytes self.old.out
            ++ param_lines
            (maybe_layout_by (option_tree param.now) level (iter_rest self.old.decisions))) }
        ensures rest { OnOk result (iter_rest self.new.decisions
            ≡ maybe_rest (option_tree param.now) (iter_rest self.old.decisions)) }
        ensures wide { result ≡ Err PrettyError.IndentTooWide → usize_max
            < 2 * maybe_deepest_by (option_tree param.now) level (iter_rest self.old.decisions) }
        ensures fits { OnOk result
            (2 * maybe_deepest_by (option_tree param.now) level (iter_rest self.old.decisions)
            ≤ usize_max) }
    {
        match param {
            Some(param) => {
                self.write_layout(param.node(), level)?;
                self.out.push_str(",\n")?;
                Ok(())
            }
            None => Ok(()),
        }
    }

    /// Appends the layouts of arguments with a comma and a line feed between them.
    #[cycle(layout)]
    pub fn write_args(&mut self, args: &[Box<Expr>], level: usize) -> Result<(), PrettyError>
        ensures text { OnOk result (string_bytes self.new.out ≡ string_bytes self.old.out
            ++ joined_text (codes ",\n")
            (layouts_by (trees_of args.now) level (iter_rest self.old.decisions))) }
        ensures rest { OnOk result (iter_rest self.new.decisions
            ≡ all_rest (trees_of args.now) (iter_rest self.old.decisions)) }
        ensures wide { result ≡ Err PrettyError.IndentTooWide → usize_max
            < 2 * all_deepest_by (trees_of args.now) level (iter_rest self.old.decisions) }
        ensures fits { OnOk result
            (2 * all_deepest_by (trees_of args.now) level (iter_rest self.old.decisions)
            ≤ usize_max) }
    {
        for (i, arg) in args.iter().enumerate() {
            push_comma(i, &mut self.out)?;
            self.write_layout(arg.node(), level)?;
        }
        Ok(())
    }
}
