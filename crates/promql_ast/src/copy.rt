//! Copies of trees, in boxes. A kind of node has a function that is not inlined: a tree is copied node below node, and what all kinds
//! need together would be held at each.

ghost use Rattle.std.specs.Prelude.{◌≡◌, IfOk, string_bytes};
ghost use Rattle.promql_ast.specs.Tree.{number, string};
ghost use Rattle.promql_ast.specs.View.{aggregate_tree, binary_tree, call_tree, extension_tree, matrix_tree, paren_tree, subquery_tree, tree_of, unary_tree, vector_tree};

use crate::aggregate::AggregateExpr;
use crate::binary::BinaryExpr;
use crate::call::Call;
use crate::expr::Expr;
use crate::extension::Extension;
use crate::matrix_selector::MatrixSelector;
use crate::number_literal::NumberLiteral;
use crate::paren::ParenExpr;
use crate::string_literal::StringLiteral;
use crate::subquery::SubqueryExpr;
use crate::unary::UnaryExpr;
use crate::vector_selector::VectorSelector;
use std::alloc::{AllocError, Global};

/// A copy of the tree.
#[cycle(copy)]
pub(crate) fn clone_box(alloc: Global, expr: &Expr) -> Result<Box<Expr>, AllocError>
    ensures { IfOk result (λ b. tree_of b.value ≡ tree_of expr.now) }
{
    match expr {
        Expr::Aggregate(e) => clone_aggregate(alloc, e),
        Expr::Unary(e) => clone_unary(alloc, e),
        Expr::Binary(e) => clone_binary(alloc, e),
        Expr::Paren(e) => clone_paren(alloc, e),
        Expr::Subquery(e) => clone_subquery(alloc, e),
        Expr::NumberLiteral(e) => clone_number(alloc, e),
        Expr::StringLiteral(e) => clone_string(alloc, e),
        Expr::VectorSelector(e) => clone_vector(alloc, e),
        Expr::MatrixSelector(e) => clone_matrix(alloc, e),
        Expr::Call(e) => clone_call(alloc, e),
        Expr::Extension(e) => clone_extension(alloc, e),
    }
}

#[inline(never)]
#[cycle(copy)]
fn clone_aggregate(alloc: Global, node: &AggregateExpr) -> Result<Box<Expr>, AllocError>
    ensures { IfOk result (λ b. tree_of b.value ≡ aggregate_tree node.now) }
{
    Ok(Box::new(alloc, Expr::Aggregate(node.try_clone(alloc)?))?)
}

#[inline(never)]
#[cycle(copy)]
fn clone_unary(alloc: Global, node: &UnaryExpr) -> Result<Box<Expr>, AllocError>
    ensures { IfOk result (λ b. tree_of b.value ≡ unary_tree node.now) }
{
    Ok(Box::new(alloc, Expr::Unary(node.try_clone(alloc)?))?)
}

#[inline(never)]
#[cycle(copy)]
fn clone_binary(alloc: Global, node: &BinaryExpr) -> Result<Box<Expr>, AllocError>
    ensures { IfOk result (λ b. tree_of b.value ≡ binary_tree node.now) }
{
    Ok(Box::new(alloc, Expr::Binary(node.try_clone(alloc)?))?)
}

#[inline(never)]
#[cycle(copy)]
fn clone_paren(alloc: Global, node: &ParenExpr) -> Result<Box<Expr>, AllocError>
    ensures { IfOk result (λ b. tree_of b.value ≡ paren_tree node.now) }
{
    Ok(Box::new(alloc, Expr::Paren(node.try_clone(alloc)?))?)
}

#[inline(never)]
#[cycle(copy)]
fn clone_subquery(alloc: Global, node: &SubqueryExpr) -> Result<Box<Expr>, AllocError>
    ensures { IfOk result (λ b. tree_of b.value ≡ subquery_tree node.now) }
{
    Ok(Box::new(alloc, Expr::Subquery(node.try_clone(alloc)?))?)
}

#[inline(never)]
fn clone_number(alloc: Global, node: &NumberLiteral) -> Result<Box<Expr>, AllocError>
    ensures { IfOk result (λ b. tree_of b.value ≡ number node.now.val) }
{
    Ok(Box::new(alloc, Expr::NumberLiteral(*node))?)
}

#[inline(never)]
fn clone_string(alloc: Global, node: &StringLiteral) -> Result<Box<Expr>, AllocError>
    ensures { IfOk result (λ b. tree_of b.value ≡ string (string_bytes node.now.val)) }
{
    Ok(Box::new(alloc, Expr::StringLiteral(node.try_clone(alloc)?))?)
}

#[inline(never)]
fn clone_vector(alloc: Global, node: &VectorSelector) -> Result<Box<Expr>, AllocError>
    ensures { IfOk result (λ b. tree_of b.value ≡ vector_tree node.now) }
{
    Ok(Box::new(alloc, Expr::VectorSelector(node.try_clone(alloc)?))?)
}

#[inline(never)]
fn clone_matrix(alloc: Global, node: &MatrixSelector) -> Result<Box<Expr>, AllocError>
    ensures { IfOk result (λ b. tree_of b.value ≡ matrix_tree node.now) }
{
    Ok(Box::new(alloc, Expr::MatrixSelector(node.try_clone(alloc)?))?)
}

#[inline(never)]
#[cycle(copy)]
fn clone_call(alloc: Global, node: &Call) -> Result<Box<Expr>, AllocError>
    ensures { IfOk result (λ b. tree_of b.value ≡ call_tree node.now) }
{
    Ok(Box::new(alloc, Expr::Call(node.try_clone(alloc)?))?)
}

#[inline(never)]
#[cycle(copy)]
fn clone_extension(alloc: Global, node: &Extension) -> Result<Box<Expr>, AllocError>
    ensures { IfOk result (λ b. tree_of b.value ≡ extension_tree node.now) }
{
    Ok(Box::new(alloc, Expr::Extension(node.try_clone(alloc)?))?)
}
