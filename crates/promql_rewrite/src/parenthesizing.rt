//! Parentheses where the text of a tree needs them: docs/guide/rewriting.md, "Parentheses".

ghost use Rattle.std.specs.Prelude.{◌≡◌, IfOk, OnOk, map};
ghost use Rattle.promql_ast.specs.Tree.{paren};
ghost use Rattle.promql_ast.specs.View.{aggregate_tree, binary_tree, call_tree, extension_tree, subquery_tree, tree_of, unary_tree};
ghost use Rattle.promql_rewrite.specs.Parenthesizing as spec;
ghost use Rattle.promql_rewrite.specs.PrintableConditions as printable;

use promql_ast::{AggregateExpr, BinaryExpr, Call, Expr, Extension, SubqueryExpr, UnaryExpr};
use promql_grammar::precedence::precedence;
use promql_text::Number;
use promql_token::TokenId;
use promql_token::ids::T_POW;
use std::alloc::{AllocError, Global};
use std::mem;

/// The openness of an expression that ends in no operand: every operator may follow it.
const CLOSED: usize = 7;

/// The openness of a signed operand: a power cannot follow it.
const SIGNED: usize = 5;

/// The expression with parentheses where its printed text needs them, and nowhere else: around a side of an operator
/// that binds too loosely, around the operand of a minus sign, and around what a subquery is of.
///
/// Without the parentheses that were added it is the expression, and with fewer of them an operand would bind too
/// loosely for its place (law `parentheses_are_fewest`). What is well typed is printable then, if its names, operators,
/// functions, times and matchers are (law `parenthesized_trees_are_printable`).
///
/// # Errors
///
/// `AllocError` where an allocation failed.
pub fn parenthesized(alloc: Global, expr: Expr) -> Result<Expr, AllocError>
    ensures { IfOk result (λ e. tree_of e ≡ spec.parenthesized (tree_of expr)) }
{
    let mut expr = expr;
    match parenthesize(alloc, &mut expr) {
        Ok(()) => Ok(expr),
        Err(error) => {
            drop(expr);
            Err(error)
        }
    }
}

/// Puts parentheses where they are needed. Where an allocation fails, some may be there.
#[cycle(parenthesize)]
#[tactic(auto, using(promql_ast::proofs::nodes::NodeParts::tree_of_call, promql_ast::proofs::nodes::NodeParts::tree_of_extension, promql_ast::proofs::nodes::NodeParts::tree_of_aggregate))]
fn parenthesize(alloc: Global, expr: &mut Expr) -> Result<(), AllocError>
    ensures { OnOk result (tree_of expr.new ≡ spec.parenthesized (tree_of expr.old)) }
{
    match expr {
        Expr::Aggregate(e) => parenthesize_aggregate(alloc, e),
        Expr::Unary(e) => parenthesize_unary(alloc, e),
        Expr::Binary(e) => parenthesize_binary(alloc, e),
        Expr::Paren(e) => parenthesize(alloc, &mut e.expr),
        Expr::Subquery(e) => parenthesize_subquery(alloc, e),
        Expr::NumberLiteral(_) => Ok(()),
        Expr::StringLiteral(_) => Ok(()),
        Expr::VectorSelector(_) => Ok(()),
        Expr::MatrixSelector(_) => Ok(()),
        Expr::Call(e) => parenthesize_call(alloc, e),
        Expr::Extension(e) => parenthesize_extension(alloc, e),
    }
}

#[cycle(parenthesize)]
fn parenthesize_aggregate(alloc: Global, node: &mut AggregateExpr) -> Result<(), AllocError>
    ensures { OnOk result (aggregate_tree node.new ≡ spec.parenthesized (aggregate_tree node.old)) }
{
    if let Some(param) = &mut node.param {
        parenthesize(alloc, param)?;
    }
    parenthesize(alloc, &mut node.expr)
}

#[cycle(parenthesize)]
fn parenthesize_unary(alloc: Global, node: &mut UnaryExpr) -> Result<(), AllocError>
    ensures { OnOk result (unary_tree node.new ≡ spec.parenthesized (unary_tree node.old)) }
{
    parenthesize(alloc, &mut node.expr)?;
    place_operand(alloc, &mut node.expr)
}

#[cycle(parenthesize)]
fn parenthesize_binary(alloc: Global, node: &mut BinaryExpr) -> Result<(), AllocError>
    ensures { OnOk result (binary_tree node.new ≡ spec.parenthesized (binary_tree node.old)) }
{
    let op = node.op.id();
    parenthesize(alloc, &mut node.lhs)?;
    place_left(alloc, op, &mut node.lhs)?;
    parenthesize(alloc, &mut node.rhs)?;
    place_right(alloc, op, &mut node.rhs)
}

#[cycle(parenthesize)]
fn parenthesize_subquery(alloc: Global, node: &mut SubqueryExpr) -> Result<(), AllocError>
    ensures { OnOk result (subquery_tree node.new ≡ spec.parenthesized (subquery_tree node.old)) }
{
    parenthesize(alloc, &mut node.expr)?;
    place_ranged(alloc, &mut node.expr)
}

#[cycle(parenthesize)]
fn parenthesize_call(alloc: Global, node: &mut Call) -> Result<(), AllocError>
    ensures { OnOk result (call_tree node.new ≡ spec.parenthesized (call_tree node.old)) }
{
    parenthesize_args(alloc, node.args.args.as_mut_slice())
}

#[cycle(parenthesize)]
fn parenthesize_args(alloc: Global, args: &mut [Box<Expr>]) -> Result<(), AllocError>
    ensures { OnOk result (map (λ b. tree_of b.value) args.new
        ≡ map (λ b. spec.parenthesized (tree_of b.value)) args.old) }
{
    for i in 0..args.len() {
        parenthesize(alloc, &mut args[i])?;
    }
    Ok(())
}

#[cycle(parenthesize)]
fn parenthesize_extension(alloc: Global, node: &mut Extension) -> Result<(), AllocError>
    ensures { OnOk result (extension_tree node.new ≡ spec.parenthesized (extension_tree node.old)) }
{
    parenthesize_children(alloc, node.children.as_mut_slice())
}

#[cycle(parenthesize)]
fn parenthesize_children(alloc: Global, children: &mut [Expr]) -> Result<(), AllocError>
    ensures { OnOk result (map tree_of children.new
        ≡ map (λ e. spec.parenthesized (tree_of e)) children.old) }
{
    for i in 0..children.len() {
        parenthesize(alloc, &mut children[i])?;
    }
    Ok(())
}

/// Makes the expression the operand of a minus sign.
fn place_operand(alloc: Global, expr: &mut Expr) -> Result<(), AllocError>
    ensures { OnOk result (tree_of expr.new ≡ spec.at_place spec.fits_sign (tree_of expr.old)) }
{
    if fits_sign(expr) {
        return Ok(());
    }
    wrap(alloc, expr)
}

/// Makes the expression the left side of the operator.
fn place_left(alloc: Global, op: TokenId, expr: &mut Expr) -> Result<(), AllocError>
    ensures { OnOk result (tree_of expr.new ≡ spec.at_place (spec.fits_left op) (tree_of expr.old)) }
{
    if fits_left(op, expr) {
        return Ok(());
    }
    wrap(alloc, expr)
}

/// Makes the expression the right side of the operator.
fn place_right(alloc: Global, op: TokenId, expr: &mut Expr) -> Result<(), AllocError>
    ensures { OnOk result (tree_of expr.new ≡ spec.at_place (spec.fits_right op) (tree_of expr.old)) }
{
    if fits_right(op, expr) {
        return Ok(());
    }
    wrap(alloc, expr)
}

/// Makes the expression what a subquery is of.
fn place_ranged(alloc: Global, expr: &mut Expr) -> Result<(), AllocError>
    ensures { OnOk result (tree_of expr.new ≡ spec.at_place spec.fits_range (tree_of expr.old)) }
{
    if fits_range(expr) {
        return Ok(());
    }
    wrap(alloc, expr)
}

/// Puts the expression into parentheses.
fn wrap(alloc: Global, expr: &mut Expr) -> Result<(), AllocError>
    ensures { OnOk result (tree_of expr.new ≡ paren (tree_of expr.old)) }
{
    let inner = mem::replace(expr, Expr::from(Number::from_i64(0)));
    *expr = Expr::new_paren_expr(alloc, inner)?;
    Ok(())
}

/// Whether the expression may be the left side of the operator as it is.
pub(crate) fn fits_left(op: TokenId, expr: &Expr) -> bool
    ensures { result ≡ spec.fits_left op (tree_of expr.now) }
{
    let least = if op == T_POW { CLOSED } else { precedence(op) };
    least <= openness(expr)
}

/// Whether the expression may be the right side of the operator as it is.
#[tactic(auto, using(promql_ast::proofs::nodes::NodeParts::tree_of_call, promql_ast::proofs::nodes::NodeParts::tree_of_extension, promql_ast::proofs::nodes::NodeParts::tree_of_aggregate))]
pub(crate) fn fits_right(op: TokenId, expr: &Expr) -> bool
    ensures { result ≡ spec.fits_right op (tree_of expr.now) }
{
    match expr {
        Expr::Aggregate(_) => true,
        Expr::Unary(_) => true,
        Expr::Binary(e) => binds_right(op, e.op.id()),
        Expr::Paren(_) => true,
        Expr::Subquery(_) => true,
        Expr::NumberLiteral(_) => true,
        Expr::StringLiteral(_) => true,
        Expr::VectorSelector(_) => true,
        Expr::MatrixSelector(_) => true,
        Expr::Call(_) => true,
        Expr::Extension(_) => true,
    }
}

/// Whether the operator inside the right side of another one binds more tightly, or both are powers.
fn binds_right(op: TokenId, inner: TokenId) -> bool
    ensures { result ≡ spec.binds_right op inner }
{
    precedence(op) < precedence(inner) || (op == T_POW && inner == T_POW)
}

/// Whether the expression may follow a minus sign as it is.
#[tactic(auto, using(promql_ast::proofs::nodes::NodeParts::tree_of_call, promql_ast::proofs::nodes::NodeParts::tree_of_extension, promql_ast::proofs::nodes::NodeParts::tree_of_aggregate))]
pub(crate) fn fits_sign(expr: &Expr) -> bool
    ensures { result ≡ spec.fits_sign (tree_of expr.now) }
{
    match expr {
        Expr::Aggregate(_) => true,
        Expr::Unary(_) => true,
        Expr::Binary(e) => e.op.id() == T_POW,
        Expr::Paren(_) => true,
        Expr::Subquery(_) => true,
        Expr::NumberLiteral(_) => false,
        Expr::StringLiteral(_) => true,
        Expr::VectorSelector(_) => true,
        Expr::MatrixSelector(_) => true,
        Expr::Call(_) => true,
        Expr::Extension(_) => true,
    }
}

/// Whether the range of a subquery may follow the expression as it is.
#[tactic(auto, using(promql_ast::proofs::nodes::NodeParts::tree_of_call, promql_ast::proofs::nodes::NodeParts::tree_of_extension, promql_ast::proofs::nodes::NodeParts::tree_of_aggregate))]
pub(crate) fn fits_range(expr: &Expr) -> bool
    ensures { result ≡ spec.fits_range (tree_of expr.now) }
{
    match expr {
        Expr::Aggregate(_) => true,
        Expr::Unary(_) => false,
        Expr::Binary(_) => false,
        Expr::Paren(_) => true,
        Expr::Subquery(_) => true,
        Expr::NumberLiteral(e) => !e.val.is_negative(),
        Expr::StringLiteral(_) => true,
        Expr::VectorSelector(_) => true,
        Expr::MatrixSelector(_) => true,
        Expr::Call(_) => true,
        Expr::Extension(_) => true,
    }
}

/// The highest precedence of an operator that may follow the expression and take all of it as its left side.
#[tactic(auto, using(promql_ast::proofs::nodes::NodeParts::tree_of_call, promql_ast::proofs::nodes::NodeParts::tree_of_extension, promql_ast::proofs::nodes::NodeParts::tree_of_aggregate))]
fn openness(expr: &Expr) -> usize
    ensures { result ≡ printable.openness (tree_of expr.now) }
{
    match expr {
        Expr::Aggregate(_) => CLOSED,
        Expr::Unary(e) => SIGNED.min(openness(&e.expr)),
        Expr::Binary(e) => precedence(e.op.id()).min(openness(&e.rhs)),
        Expr::Paren(_) => CLOSED,
        Expr::Subquery(_) => CLOSED,
        Expr::NumberLiteral(e) => { if e.val.is_negative() { SIGNED } else { CLOSED } }
        Expr::StringLiteral(_) => CLOSED,
        Expr::VectorSelector(_) => CLOSED,
        Expr::MatrixSelector(_) => CLOSED,
        Expr::Call(_) => CLOSED,
        Expr::Extension(_) => CLOSED,
    }
}
