//! The places of a tree's nodes and of their parts. The tree tells how its tokens nest, so they are gone over once.

ghost use Rattle.std.specs.Prelude.{◌≡◌, ◌++◌, ◌∷◌, [], List, IfOk, OnOk, length, map};
ghost use Rattle.promql_ast.specs.View.{aggregate_tree, binary_tree, call_tree, option_tree, paren_tree, subquery_tree, tree_of, trees_of, unary_tree};
ghost use Rattle.promql_places.specs.declared.parts.Part.{Part};
ghost use Rattle.promql_span.specs.declared.span.Span.{Span};
ghost use Rattle.promql_span.specs.PlacedTokens.{placed_tokens};
ghost use Rattle.promql_places.specs.CursorTokens.{first_start, kinds_left, lexeme_kind, lexemes_left};
ghost use Rattle.promql_places.specs.PartSteps.{Takes};
ghost use Rattle.promql_places.specs.Passing.{IsPlacing, Passes, front_of_call, inside, lists_of, pass, pass_all, pass_param};

use crate::parts::Part;
use crate::token_cursor::TokenCursor;
use promql_ast::{AggregateExpr, BinaryExpr, Call, Expr, ParenExpr, SubqueryExpr, UnaryExpr};
use promql_span::Span;
use std::alloc::{AllocError, Global};

/// The places and parts that were found, and the tokens that are left.
#[derive(Drop)]
pub struct Placing<'a> {
    alloc: Global,
    tokens: TokenCursor<'a>,
    pub places: Vec<Span>,
    pub parts: Vec<Vec<Part>>,
}

impl<'a> Placing<'a> {
    /// Before the first token of a text.
    pub fn new(alloc: Global, text: &'a str) -> Placing<'a>
        ensures all { kinds_left result.tokens ≡ map lexeme_kind (placed_tokens text.now) }
        ensures over { IsPlacing text.now result }
        ensures none { result.places.items ≡ [] }
        ensures bare { result.parts.items ≡ [] }
    {
        Placing {
            alloc,
            tokens: TokenCursor::new(text),
            places: Vec::new(alloc),
            parts: Vec::new(alloc),
        }
    }

    /// Begins a node at the first token. Returns its index.
    fn begin(&mut self) -> Result<usize, AllocError>
        ensures index { IfOk result (λ i. i ≡ length self.old.places.items) }
        ensures place { OnOk result (self.new.places.items ≡ self.old.places.items
            ++ record { start = first_start (lexemes_left self.old.tokens); end = 0 } ∷ []) }
        ensures parts { OnOk result
            (lists_of self.new.parts.items ≡ lists_of self.old.parts.items ++ [] ∷ []) }
        ensures tokens { OnOk result (self.new.tokens ≡ self.old.tokens) }
    {
        let index = self.places.len();
        let start = self.tokens.start();
        self.places.push(Span { start, end: 0 })?;
        self.parts.push(Vec::new(self.alloc))?;
        Ok(index)
    }

    /// Ends the place of this index after the last token that was taken.
    fn end_place(&mut self, index: usize)
        ensures place { (before after : List Span) (place : Span)
            → self.old.places.items ≡ before ++ place ∷ after → index ≡ length before
            → self.new.places.items
            ≡ before ++ record { start = place.start; end = self.old.tokens.end } ∷ after }
        ensures tokens { self.new.tokens ≡ self.old.tokens }
        ensures parts { self.new.parts ≡ self.old.parts }
    {
        if let Some(place) = self.places.get_mut(index) {
            place.end = self.tokens.end();
        }
    }

    /// These are the parts of the node of this index.
    fn set_parts(&mut self, index: usize, parts: Vec<Part>)
        ensures parts { (before after : List (List Part)) (none : List Part)
            → lists_of self.old.parts.items ≡ before ++ none ∷ after → index ≡ length before
            → lists_of self.new.parts.items ≡ before ++ parts.items ∷ after }
        ensures tokens { self.new.tokens ≡ self.old.tokens }
        ensures places { self.new.places ≡ self.old.places }
    {
        if let Some(list) = self.parts.get_mut(index) {
            *list = parts;
        }
    }
}

/// Adds the places of the expression's nodes with their parts, each before those of its children, and goes past its tokens.
///
/// # Errors
///
/// `AllocError` where an allocation failed.
#[cycle(placing)]
pub fn place_expr(expr: &Expr, placing: &mut Placing<'_>) -> Result<(), AllocError>
    ensures { OnOk result (Passes (pass (tree_of expr.now) (kinds_left placing.old.tokens))
        placing.old placing.new [] []) }
{
    let mut parts = Vec::new(placing.alloc);
    let index = placing.begin()?;
    place_inside(expr, &mut parts, placing)?;
    placing.end_place(index);
    placing.set_parts(index, parts);
    Ok(())
}

/// The nodes below the expression's own, and its parts.
#[cycle(placing)]
#[tactic(auto, using(promql_ast::proofs::nodes::NodeParts::tree_of_call, promql_ast::proofs::nodes::NodeParts::tree_of_aggregate))]
fn place_inside(
    expr: &Expr,
    parts: &mut Vec<Part>,
    placing: &mut Placing<'_>,
) -> Result<(), AllocError>
    ensures { OnOk result (Passes (inside (tree_of expr.now) (kinds_left placing.old.tokens))
        placing.old placing.new parts.old.items parts.new.items) }
{
    match expr {
        Expr::Aggregate(e) => place_aggregate(e, parts, placing),
        Expr::Unary(e) => place_operand(e, parts, placing),
        Expr::Binary(e) => place_sides(e, parts, placing),
        Expr::Paren(e) => place_paren(e, placing),
        Expr::Subquery(e) => place_subquery(e, parts, placing),
        Expr::NumberLiteral(_) | Expr::StringLiteral(_) => {
            placing.tokens.skip_signed();
            Ok(())
        }
        Expr::VectorSelector(_) => placing.tokens.take_vector(parts),
        Expr::MatrixSelector(_) => {
            placing.tokens.take_ranged(parts)?;
            placing.tokens.take_range(parts)
        }
        Expr::Call(e) => place_call(e, parts, placing),
        Expr::Extension(_) => Ok(()),
    }
}

#[cycle(placing)]
fn place_aggregate(
    node: &AggregateExpr,
    parts: &mut Vec<Part>,
    placing: &mut Placing<'_>,
) -> Result<(), AllocError>
    ensures { OnOk result (Passes (inside (aggregate_tree node.now) (kinds_left placing.old.tokens))
        placing.old placing.new parts.old.items parts.new.items) }
{
    placing.tokens.take_aggregate(parts)?;
    place_param(&node.param, placing)?;
    place_expr(&node.expr, placing)?;
    placing.tokens.take_aggregate_end(parts)
}

/// The parameter of an aggregation, if there is one, and the comma after it.
#[cycle(placing)]
fn place_param(param: &Option<Box<Expr>>, placing: &mut Placing<'_>) -> Result<(), AllocError>
    ensures { OnOk result (Passes (pass_param (option_tree param.now) (kinds_left placing.old.tokens))
        placing.old placing.new [] []) }
{
    if let Some(param) = param {
        place_expr(param, placing)?;
        placing.tokens.bump();
    }
    Ok(())
}

#[cycle(placing)]
fn place_operand(
    node: &UnaryExpr,
    parts: &mut Vec<Part>,
    placing: &mut Placing<'_>,
) -> Result<(), AllocError>
    ensures { OnOk result (Passes (inside (unary_tree node.now) (kinds_left placing.old.tokens))
        placing.old placing.new parts.old.items parts.new.items) }
{
    placing.tokens.take_minus(parts)?;
    place_expr(&node.expr, placing)
}

#[cycle(placing)]
fn place_sides(
    node: &BinaryExpr,
    parts: &mut Vec<Part>,
    placing: &mut Placing<'_>,
) -> Result<(), AllocError>
    ensures { OnOk result (Passes (inside (binary_tree node.now) (kinds_left placing.old.tokens))
        placing.old placing.new parts.old.items parts.new.items) }
{
    placing.tokens.skip_power_signs(node.op.id());
    place_expr(&node.lhs, placing)?;
    placing.tokens.take_operator(parts)?;
    place_expr(&node.rhs, placing)
}

#[cycle(placing)]
fn place_paren(node: &ParenExpr, placing: &mut Placing<'_>) -> Result<(), AllocError>
    ensures { OnOk result (Passes (inside (paren_tree node.now) (kinds_left placing.old.tokens))
        placing.old placing.new [] []) }
{
    placing.tokens.skip_signed();
    place_expr(&node.expr, placing)?;
    placing.tokens.bump();
    Ok(())
}

#[cycle(placing)]
fn place_subquery(
    node: &SubqueryExpr,
    parts: &mut Vec<Part>,
    placing: &mut Placing<'_>,
) -> Result<(), AllocError>
    ensures { OnOk result (Passes (inside (subquery_tree node.now) (kinds_left placing.old.tokens))
        placing.old placing.new parts.old.items parts.new.items) }
{
    placing.tokens.skip_signs();
    place_expr(&node.expr, placing)?;
    placing.tokens.take_range(parts)
}

#[cycle(placing)]
fn place_call(
    node: &Call,
    parts: &mut Vec<Part>,
    placing: &mut Placing<'_>,
) -> Result<(), AllocError>
    ensures { OnOk result (Passes (inside (call_tree node.now) (kinds_left placing.old.tokens))
        placing.old placing.new parts.old.items parts.new.items) }
{
    let args = node.args.args.as_slice();
    take_called(args, parts, &mut placing.tokens)?;
    place_args(args, placing)
}

/// Through the opening parenthesis of a call, and the closing one where it has no arguments.
#[tactic(auto, using(crate::proofs::PlaceSteps::empty_skipped))]
fn take_called(
    args: &[Box<Expr>],
    parts: &mut Vec<Part>,
    tokens: &mut TokenCursor<'_>,
) -> Result<(), AllocError>
    ensures { OnOk result (Takes (front_of_call (trees_of args.now) (kinds_left tokens.old))
        tokens.old tokens.new parts.old.items parts.new.items) }
{
    tokens.take_called(parts)?;
    if args.is_empty() {
        tokens.bump();
    }
    Ok(())
}

/// Arguments, each with the comma or the parenthesis after it.
#[cycle(placing)]
fn place_args(args: &[Box<Expr>], placing: &mut Placing<'_>) -> Result<(), AllocError>
    ensures { OnOk result (Passes (pass_all (trees_of args.now) (kinds_left placing.old.tokens))
        placing.old placing.new [] []) }
{
    for arg in args {
        place_expr(arg, placing)?;
        placing.tokens.bump();
    }
    Ok(())
}
