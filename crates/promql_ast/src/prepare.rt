//! Compiling the patterns of a tree ahead: docs/reference/matchers.md, "Compiling".

ghost use Rattle.std.specs.Prelude.{◌≡◌, map};
ghost use Rattle.promql_ast.specs.View.{aggregate_tree, binary_tree, call_tree, extension_tree, tree_of};

use crate::aggregate::AggregateExpr;
use crate::binary::BinaryExpr;
use crate::call::Call;
use crate::expr::Expr;
use crate::extension::Extension;
use std::alloc::{AllocError, Global};

impl Expr {
    /// Compiles the patterns of all matchers in the expression, so that each match after it only searches. The expression is
    /// the same in any case.
    ///
    /// # Errors
    ///
    /// `AllocError` if an allocation fails; some patterns may then be compiled.
    #[cycle(prepare)]
    pub fn prepare_patterns(&mut self, alloc: Global) -> Result<(), AllocError>
        ensures { tree_of self.new ≡ tree_of self.old }
    {
        match self {
            Expr::Aggregate(e) => prepare_aggregate(alloc, e),
            Expr::Unary(e) => e.expr.prepare_patterns(alloc),
            Expr::Binary(e) => prepare_binary(alloc, e),
            Expr::Paren(e) => e.expr.prepare_patterns(alloc),
            Expr::Subquery(e) => e.expr.prepare_patterns(alloc),
            Expr::NumberLiteral(_) => Ok(()),
            Expr::StringLiteral(_) => Ok(()),
            Expr::VectorSelector(e) => e.matchers.prepare(alloc),
            Expr::MatrixSelector(e) => e.vs.matchers.prepare(alloc),
            Expr::Call(e) => prepare_call(alloc, e),
            Expr::Extension(e) => prepare_extension(alloc, e),
        }
    }
}

#[cycle(prepare)]
fn prepare_aggregate(alloc: Global, node: &mut AggregateExpr) -> Result<(), AllocError>
    ensures { aggregate_tree node.new ≡ aggregate_tree node.old }
{
    if let Some(param) = &mut node.param {
        param.prepare_patterns(alloc)?;
    }
    node.expr.prepare_patterns(alloc)
}

#[cycle(prepare)]
fn prepare_binary(alloc: Global, node: &mut BinaryExpr) -> Result<(), AllocError>
    ensures { binary_tree node.new ≡ binary_tree node.old }
{
    node.lhs.prepare_patterns(alloc)?;
    node.rhs.prepare_patterns(alloc)
}

#[cycle(prepare)]
fn prepare_call(alloc: Global, node: &mut Call) -> Result<(), AllocError>
    ensures { call_tree node.new ≡ call_tree node.old }
{
    prepare_args(alloc, node.args.args.as_mut_slice())
}

#[cycle(prepare)]
fn prepare_args(alloc: Global, args: &mut [Box<Expr>]) -> Result<(), AllocError>
    ensures { map (λ b. tree_of b.value) args.new ≡ map (λ b. tree_of b.value) args.old }
{
    for i in 0..args.len() {
        args[i].prepare_patterns(alloc)?;
    }
    Ok(())
}

#[cycle(prepare)]
fn prepare_extension(alloc: Global, node: &mut Extension) -> Result<(), AllocError>
    ensures { extension_tree node.new ≡ extension_tree node.old }
{
    prepare_children(alloc, node.children.as_mut_slice())
}

#[cycle(prepare)]
fn prepare_children(alloc: Global, children: &mut [Expr]) -> Result<(), AllocError>
    ensures { map tree_of children.new ≡ map tree_of children.old }
{
    for i in 0..children.len() {
        children[i].prepare_patterns(alloc)?;
    }
    Ok(())
}
