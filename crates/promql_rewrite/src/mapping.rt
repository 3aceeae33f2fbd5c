//! Selectors that a mapper changes: docs/guide/rewriting.md, "Mapping selectors".

ghost use Rattle.std.specs.Prelude.{◌≡◌, Err, IfErr, IfOk, List, Ok, OnOk, Result, map};
ghost use Rattle.promql_kind.specs.Functions.{signature_of};
ghost use Rattle.promql_ast.specs.Selectors.{Selector};
ghost use Rattle.promql_ast.specs.View.{aggregate_tree, binary_tree, call_tree, children_of, extension_tree, selector_of, tree_of, trees_of};
ghost use Rattle.promql_rewrite.specs.MappedSelectors.{MapsOrFails, arg_selectors, kind_after, kind_at, selectors_in};
ghost use Rattle.promql_rewrite.specs.Mapping.{KindedSelector, Maps, MapsBy, outline, selectors_of};
ghost use Rattle.promql_rewrite.specs.declared.mapping.SelectorKind.{SelectorKind};

use crate::bare_info::is_info;
use promql_ast::{AggregateExpr, BinaryExpr, Call, Expr, Extension, VectorSelector};
use promql_kind::Function;
use std::alloc::Global;

/// What a selector selects.
#[derive(Clone, Copy, PartialEq, Eq, Debug)]
pub enum SelectorKind {
    /// Series.
    Series,
    /// Series whose labels are added to others: the selector is in an argument of `info` after the first.
    DataLabels,
}

/// Is called at each selector of an expression, and may change it.
///
/// Contracts see what a call may do as a relation between the mapper and the selector before, the kind of the selector, the
/// result, and both after.
pub trait SelectorMapper {
    /// What a call may fail with.
    type Error;

    /// What a call may do.
    ghost map_gives: { Self → SelectorKind → Selector
        → Result (Unit {0}) Self.Error → Self → Selector → Type 0 };

    /// May change all of the selector: its name, its matchers, `offset` and `@`. An error ends the mapping.
    fn map_selector(
        &mut self,
        alloc: Global,
        kind: SelectorKind,
        selector: &mut VectorSelector,
    ) -> Result<(), Self::Error>
        ensures { map_gives self.old kind (selector_of selector.old)
            result self.new (selector_of selector.new) };
}

/// The expression with each selector as the mapper leaves it, wherever selectors stand: in arguments, parameters, subqueries
/// and matrix selectors, on both sides of operators, under aggregations, in the children of an `Extension`. The mapper is called
/// once for each, in the order of the text; nothing else changes. Nothing is checked: `Expr::checked` and `is_printable` do
/// that.
///
/// # Errors
///
/// What a call of the mapper failed with, which is the last call then.
pub fn map_selectors<V: SelectorMapper>(
    alloc: Global,
    expr: Expr,
    mapper: &mut V,
) -> Result<Expr, V::Error>
    ensures selectors { IfOk result (λ e. Maps V.map_gives
        (selectors_of (tree_of expr)) (selectors_of (tree_of e)) mapper.old (Ok tt) mapper.new) }
    ensures outline { IfOk result (λ e. outline (tree_of e) ≡ outline (tree_of expr)) }
    ensures by_function { IfOk result (λ e. (f : SelectorKind → Selector → Selector)
        → MapsBy V.map_gives f → selectors_of (tree_of e)
        ≡ map (λ (x : KindedSelector). (x.0, f x.0 x.1)) (selectors_of (tree_of expr))) }
    ensures unchanged { IfOk result (λ e.
        MapsBy V.map_gives (λ _ s. s) → tree_of e ≡ tree_of expr) }
    ensures fails { IfErr result (λ error. (left : List KindedSelector)
        × Maps V.map_gives (selectors_of (tree_of expr)) left mapper.old (Err error) mapper.new) }
{
    let mut expr = expr;
    match map_expr(alloc, &mut expr, SelectorKind::Series, mapper) {
        Ok(()) => Ok(expr),
        Err(error) => {
            drop(expr);
            Err(error)
        }
    }
}

/// Maps each selector. Where a call fails, those before it may be changed.
#[cycle(map)]
#[tactic(auto, using(promql_ast::proofs::nodes::NodeParts::tree_of_call, promql_ast::proofs::nodes::NodeParts::tree_of_extension, promql_ast::proofs::nodes::NodeParts::tree_of_aggregate))]
pub(crate) fn map_expr<V: SelectorMapper>(
    alloc: Global,
    expr: &mut Expr,
    kind: SelectorKind,
    mapper: &mut V,
) -> Result<(), V::Error>
    ensures selectors { MapsOrFails V.map_gives (selectors_in kind (tree_of expr.old))
        (selectors_in kind (tree_of expr.new)) mapper.old result mapper.new }
    ensures outline { OnOk result (outline (tree_of expr.new) ≡ outline (tree_of expr.old)) }
{
    match expr {
        Expr::Aggregate(e) => map_aggregate(alloc, e, kind, mapper),
        Expr::Unary(e) => map_expr(alloc, &mut e.expr, kind, mapper),
        Expr::Binary(e) => map_binary(alloc, e, kind, mapper),
        Expr::Paren(e) => map_expr(alloc, &mut e.expr, kind, mapper),
        Expr::Subquery(e) => map_expr(alloc, &mut e.expr, kind, mapper),
        Expr::NumberLiteral(_) => Ok(()),
        Expr::StringLiteral(_) => Ok(()),
        Expr::VectorSelector(e) => mapper.map_selector(alloc, kind, e),
        Expr::MatrixSelector(e) => mapper.map_selector(alloc, kind, &mut e.vs),
        Expr::Call(e) => map_call(alloc, e, kind, mapper),
        Expr::Extension(e) => map_extension(alloc, e, kind, mapper),
    }
}

#[cycle(map)]
fn map_aggregate<V: SelectorMapper>(
    alloc: Global,
    node: &mut AggregateExpr,
    kind: SelectorKind,
    mapper: &mut V,
) -> Result<(), V::Error>
    ensures selectors { MapsOrFails V.map_gives (selectors_in kind (aggregate_tree node.old))
        (selectors_in kind (aggregate_tree node.new)) mapper.old result mapper.new }
    ensures outline { OnOk result
        (outline (aggregate_tree node.new) ≡ outline (aggregate_tree node.old)) }
{
    match &mut node.param {
        Some(param) => match map_expr(alloc, param, kind, mapper) {
            Ok(()) => map_expr(alloc, &mut node.expr, kind, mapper),
            Err(error) => Err(error),
        },
        None => map_expr(alloc, &mut node.expr, kind, mapper),
    }
}

#[cycle(map)]
fn map_binary<V: SelectorMapper>(
    alloc: Global,
    node: &mut BinaryExpr,
    kind: SelectorKind,
    mapper: &mut V,
) -> Result<(), V::Error>
    ensures selectors { MapsOrFails V.map_gives (selectors_in kind (binary_tree node.old))
        (selectors_in kind (binary_tree node.new)) mapper.old result mapper.new }
    ensures outline { OnOk result
        (outline (binary_tree node.new) ≡ outline (binary_tree node.old)) }
{
    match map_expr(alloc, &mut node.lhs, kind, mapper) {
        Ok(()) => map_expr(alloc, &mut node.rhs, kind, mapper),
        Err(error) => Err(error),
    }
}

#[cycle(map)]
fn map_call<V: SelectorMapper>(
    alloc: Global,
    node: &mut Call,
    kind: SelectorKind,
    mapper: &mut V,
) -> Result<(), V::Error>
    ensures selectors { MapsOrFails V.map_gives (selectors_in kind (call_tree node.old))
        (selectors_in kind (call_tree node.new)) mapper.old result mapper.new }
    ensures outline { OnOk result (outline (call_tree node.new) ≡ outline (call_tree node.old)) }
{
    let others = kind_after(&node.func, kind);
    map_args(alloc, node.args.args.as_mut_slice(), kind, others, mapper)
}

/// Of what kind selectors are in the arguments of a call after the first.
fn kind_after(func: &Function, kind: SelectorKind) -> SelectorKind
    ensures { result ≡ kind_after (signature_of func.now) kind }
{
    if is_info(func) {
        SelectorKind::DataLabels
    } else {
        kind
    }
}

/// Of what kind selectors are in the argument of this number.
fn kind_at(i: usize, kind: SelectorKind, others: SelectorKind) -> SelectorKind
    ensures { result ≡ kind_at i kind others }
{
    if i == 0 { kind } else { others }
}

/// Maps the selectors in the first argument, which are of one kind, and in the others, which are of another one.
#[cycle(map)]
fn map_args<V: SelectorMapper>(
    alloc: Global,
    args: &mut [Box<Expr>],
    kind: SelectorKind,
    others: SelectorKind,
    mapper: &mut V,
) -> Result<(), V::Error>
    ensures selectors { MapsOrFails V.map_gives (arg_selectors kind others (trees_of args.old))
        (arg_selectors kind others (trees_of args.new)) mapper.old result mapper.new }
    ensures outline { OnOk result (map (λ b. outline (tree_of b.value)) args.new
        ≡ map (λ b. outline (tree_of b.value)) args.old) }
{
    for i in 0..args.len() {
        match map_expr(alloc, &mut args[i], kind_at(i, kind, others), mapper) {
            Ok(()) => {}
            Err(error) => return Err(error),
        }
    }
    Ok(())
}

#[cycle(map)]
fn map_extension<V: SelectorMapper>(
    alloc: Global,
    node: &mut Extension,
    kind: SelectorKind,
    mapper: &mut V,
) -> Result<(), V::Error>
    ensures selectors { MapsOrFails V.map_gives (selectors_in kind (extension_tree node.old))
        (selectors_in kind (extension_tree node.new)) mapper.old result mapper.new }
    ensures outline { OnOk result
        (outline (extension_tree node.new) ≡ outline (extension_tree node.old)) }
{
    map_children(alloc, node.children.as_mut_slice(), kind, mapper)
}

#[cycle(map)]
fn map_children<V: SelectorMapper>(
    alloc: Global,
    children: &mut [Expr],
    kind: SelectorKind,
    mapper: &mut V,
) -> Result<(), V::Error>
    ensures selectors { MapsOrFails V.map_gives (arg_selectors kind kind (children_of children.old))
        (arg_selectors kind kind (children_of children.new)) mapper.old result mapper.new }
    ensures outline { OnOk result (map (λ e. outline (tree_of e)) children.new
        ≡ map (λ e. outline (tree_of e)) children.old) }
{
    for i in 0..children.len() {
        match map_expr(alloc, &mut children[i], kind, mapper) {
            Ok(()) => {}
            Err(error) => return Err(error),
        }
    }
    Ok(())
}
