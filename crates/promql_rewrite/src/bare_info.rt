//! Calls of `info` that read series which no selector selects: docs/guide/rewriting.md, "Enforcing".

ghost use Rattle.std.specs.Prelude.{◌≡◌};
ghost use Rattle.std.specs.List.{list_any};
ghost use Rattle.promql_kind.specs.Functions.{signature_of};
ghost use Rattle.promql_ast.specs.View.{call_tree, tree_of};
ghost use Rattle.promql_rewrite.specs.Collecting.{nodes_of};
ghost use Rattle.promql_rewrite.specs.Enforcing.{has_bare_info, is_bare_info, is_info};

use crate::some_node::{NodeTest, has_node};
use promql_ast::{Call, Expr};
use promql_kind::Function;

/// Whether the function is `info`, whose second argument selects the series that its labels come from.
pub(crate) fn is_info(func: &Function) -> bool
    ensures { result ≡ is_info (signature_of func.now) }
{
    func.name == "info"
}

/// Whether the call is one of `info` without a second argument.
fn is_bare(call: &Call) -> bool
    ensures { result ≡ is_bare_info (call_tree call.now) }
{
    is_info(&call.func) && call.args.len() <= 1
}

/// The test whether a node is a call of `info` without a second argument.
#[derive(Clone, Copy)]
struct BareInfo;

impl NodeTest for BareInfo {
    ghost passing = { λ _ t. is_bare_info t };

    #[tactic(auto, using(promql_ast::proofs::nodes::NodeParts::tree_of_call, promql_ast::proofs::nodes::NodeParts::tree_of_extension, promql_ast::proofs::nodes::NodeParts::tree_of_aggregate))]
    fn passes(&self, node: &Expr) -> bool {
        match node {
            Expr::Call(call) => is_bare(call),
            Expr::Aggregate(_)
            | Expr::Unary(_)
            | Expr::Binary(_)
            | Expr::Paren(_)
            | Expr::Subquery(_)
            | Expr::NumberLiteral(_)
            | Expr::StringLiteral(_)
            | Expr::VectorSelector(_)
            | Expr::MatrixSelector(_)
            | Expr::Extension(_) => false,
        }
    }
}

/// Whether a node of the expression is a call of `info` without a second argument.
pub(crate) fn has_bare_info(expr: &Expr) -> bool
    ensures { result ≡ has_bare_info (tree_of expr.now) }
{
    has_node(expr, &BareInfo)
}
