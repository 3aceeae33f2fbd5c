//! The bytes of a node's one line, for `needs_split`, without an allocation. No other module sees it: a layout measures its nodes
//! by a `Measurer`, which counts them.

ghost use Rattle.std.specs.Prelude.{◌≡◌, codes};
ghost use Rattle.promql_ast.specs.NodeView.{tree_of_node};
ghost use Rattle.promql_ast.specs.Text.{maybe_text, text, texts};
ghost use Rattle.promql_ast.specs.View.{children_of, option_tree, trees_of};
ghost use Rattle.promql_ast.specs.node.Aggregate.{param_text};
ghost use Rattle.promql_text.specs.Texts.{joined_text};
ghost use Rattle.promql_text.specs.PrintedLen.{printed_len};

use crate::aggregate::{aggregate_len, param_len};
use crate::binary::binary_len;
use crate::call::call_len;
use crate::expr::Expr;
use crate::layout::node::Node;
use crate::paren::paren_len;
use crate::subquery::subquery_len;
use crate::unary::unary_len;
use promql_text::{number_printed_len, quoted_printed_len, separator_printed_len};

/// The bytes of the one line.
#[cycle(line_len)]
pub(super) fn line_len(node: Node) -> usize
    ensures { result ≡ printed_len (text (tree_of_node node.entry)) }
{
    match node {
        Node::Aggregate(e) => {
            let inner = line_len(e.expr.node());
            aggregate_len(e.op, &e.modifier, maybe_len(&e.param), inner)
        }
        Node::Unary(e) => unary_len(line_len(e.expr.node())),
        Node::Binary(e) => {
            let left = line_len(e.lhs.node());
            binary_len(left, e.op, &e.modifier, line_len(e.rhs.node()))
        }
        Node::Paren(e) => paren_len(line_len(e.expr.node())),
        Node::Subquery(e) => subquery_len(line_len(e.expr.node()), e),
        Node::NumberLiteral(e) => number_printed_len(&e.val),
        Node::StringLiteral(e) => quoted_printed_len(e.val.as_str()),
        Node::VectorSelector(e) => e.printed_len(),
        Node::MatrixSelector(e) => e.printed_len(),
        Node::Call(e) => call_len(e.func.name, args_len(e.args.args.as_slice())),
        Node::Extension(e) => call_len(e.name.as_str(), children_len(e.children.as_slice())),
    }
}

/// The bytes of an aggregation's parameter and the comma after it.
#[cycle(line_len)]
fn maybe_len(param: &Option<Box<Expr>>) -> usize
    ensures { result ≡ printed_len (param_text (maybe_text (option_tree param.now))) }
{
    match param {
        Some(param) => param_len(line_len(param.node())),
        None => 0,
    }
}

/// The bytes of arguments with commas between them.
#[cycle(line_len)]
pub(super) fn args_len(args: &[Box<Expr>]) -> usize
    ensures { result ≡ printed_len (joined_text (codes ", ") (texts (trees_of args.now))) }
{
    let mut total = 0usize;
    for (i, arg) in args.iter().enumerate() {
        total = total
            .saturating_add(separator_printed_len(", ", i))
            .saturating_add(line_len(arg.node()));
    }
    total
}

#[cycle(line_len)]
fn children_len(children: &[Expr]) -> usize
    ensures { result ≡ printed_len (joined_text (codes ", ") (texts (children_of children.now))) }
{
    let mut total = 0usize;
    for (i, child) in children.iter().enumerate() {
        total = total
            .saturating_add(separator_printed_len(", ", i))
            .saturating_add(line_len(child.node()));
    }
    total
}
