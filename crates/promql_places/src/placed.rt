//! From a text to its tree, with the places of the tree's nodes.

ghost use Rattle.std.specs.Prelude.{IfErr, IfOk, Ok, map};
ghost use Rattle.std.specs.Result.{result_map_both};
ghost use Rattle.promql_ast.specs.View.{tree_of};
ghost use Rattle.promql_span.specs.ErrorPlaces.{IsPlaceOf};
ghost use Rattle.promql_syntax.specs.ParseAnswers.{IsAnswerTo, plain_error_of};
ghost use Rattle.promql_places.specs.NodeParts.{parts_of};
ghost use Rattle.promql_places.specs.NodePlaces.{AreOfNodes, place_of};
ghost use Rattle.promql_places.specs.Passing.{lists_of};

use crate::parts::Part;
use crate::placing::{Placing, place_expr};
use promql_ast::{Expr, drop_expr};
use promql_span::Span;
use promql_span::diagnosis::{Diagnosis, diagnose};
use promql_syntax::parser::ParseError;
use std::alloc::{AllocError, Global};

/// A tree, with the places of its nodes and of their parts.
#[derive(Debug, Drop)]
pub struct PlacedExpr {
    /// The tree, as `parse` returns it.
    pub expr: Expr,
    /// The part of the text that each node takes, in bytes, in the order in which `walk_expr` calls `pre_visit`: a node
    /// before its children.
    pub places: Vec<Span>,
    /// The parts of each node, in the same order: its name, its matchers, what shifts it. Those of one node are in the order in
    /// which they end.
    pub parts: Vec<Vec<Part>>,
}

/// The tree of a text with the places of its nodes, or its error with the place (docs/reference/walks.md, "Places"). The text
/// is lexed once more than by `parse`, and the lists of places and parts are allocated.
///
/// # Errors
///
/// Those of `diagnose`, when it has them.
pub fn parse_placed(alloc: Global, text: &str) -> Result<PlacedExpr, Diagnosis>
    ensures answer { IsAnswerTo text.now (result_map_both (λ p. tree_of p.expr) (λ d. plain_error_of d.error) result) }
    ensures place { IfErr result (λ d. IsPlaceOf text.now d.error d.span) }
    ensures places { IfOk result (λ p. AreOfNodes (place_of text.now) text.now (tree_of p.expr) p.places.items) }
    ensures parts { IfOk result (λ p. AreOfNodes (parts_of text.now) text.now
        (tree_of p.expr) (map (λ ps. ps.items) p.parts.items)) }
{
    let expr = diagnose(alloc, text)?;
    match placed_nodes(alloc, text, &expr) {
        Ok(placing) => Ok(PlacedExpr {
            expr,
            places: placing.places,
            parts: placing.parts,
        }),
        Err(AllocError) => {
            drop_expr(expr);
            Err(Diagnosis {
                error: ParseError::Memory,
                span: None,
            })
        }
    }
}

/// The places of the nodes of this text's tree, in the order of a walk: what `parse_placed` returns beside the tree, for one that was
/// parsed before.
///
/// # Errors
///
/// `AllocError` where an allocation failed.
pub fn find_places(alloc: Global, text: &str, expr: &Expr) -> Result<Vec<Span>, AllocError>
    ensures { IfOk result (λ places. IsAnswerTo text.now (Ok (tree_of expr.now))
        → AreOfNodes (place_of text.now) text.now (tree_of expr.now) places.items) }
{
    let placing = placed_nodes(alloc, text, expr)?;
    Ok(placing.places)
}

/// The parts of the nodes of this text's tree, in the same order: what `parse_placed` returns of them.
///
/// # Errors
///
/// `AllocError` where an allocation failed.
pub fn find_parts(alloc: Global, text: &str, expr: &Expr) -> Result<Vec<Vec<Part>>, AllocError>
    ensures { IfOk result (λ parts. IsAnswerTo text.now (Ok (tree_of expr.now))
        → AreOfNodes (parts_of text.now) text.now (tree_of expr.now) (map (λ ps. ps.items) parts.items)) }
{
    let placing = placed_nodes(alloc, text, expr)?;
    Ok(placing.parts)
}

/// The nodes of this text's tree.
pub(crate) fn placed_nodes<'a>(
    alloc: Global,
    text: &'a str,
    expr: &Expr,
) -> Result<Placing<'a>, AllocError>
    ensures places { IfOk result (λ p. IsAnswerTo text.now (Ok (tree_of expr.now))
        → AreOfNodes (place_of text.now) text.now (tree_of expr.now) p.places.items) }
    ensures parts { IfOk result (λ p. IsAnswerTo text.now (Ok (tree_of expr.now))
        → AreOfNodes (parts_of text.now) text.now (tree_of expr.now) (lists_of p.parts.items)) }
{
    promql_span::laws::tokens_are_placed();
    let mut placing = Placing::new(alloc, text);
    place_expr(expr, &mut placing)?;
    Ok(placing)
}
