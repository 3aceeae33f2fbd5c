//! Visitors that are given the places of nodes (docs/reference/walks.md, "Visitors with places").

use crate::tests::{Failed, is_so};
use promql_ast::Expr;
use promql_places::{Part, PlacedVisitor, WithPlaces, parse_placed};
use promql_span::Span;
use promql_walk::walk_expr;
use std::alloc::{AllocError, Global};

/// Queries as they are printed, so each of their nodes prints as the text at its place; and how many nodes and parts they have.
const PRINTED: [(&str, usize, usize); 6] = [
    ("1", 1, 0),
    ("a + -b * (c)", 7, 6),
    ("topk by (x) (5, rate(a[5m]))", 4, 6),
    ("max_over_time(a[1h:5m] offset 1h) > bool 2", 5, 5),
    ("label_replace(a, \"b\", \"c\", \"d\", \"e\")", 6, 2),
    ("time()", 1, 1),
];

/// Counts the nodes up to the first that does not print as the text at its place, their parts, and the calls after nodes, each of
/// which is for the node that was entered last and is not left.
#[derive(Drop)]
struct Printed {
    alloc: Global,
    query: String,
    nodes: usize,
    parts: usize,
    entered: Vec<String>,
    left: usize,
}

impl PlacedVisitor for Printed {
    type Error = AllocError;

    ghost pre_gives = { λ _ _ _ _ _ _. Unit {0} };

    ghost post_gives = { λ _ _ _ _. Unit {0} };

    fn pre_visit(&mut self, expr: &Expr, place: Span, parts: &[Part]) -> Result<bool, AllocError> {
        let text = expr.to_string(self.alloc)?;
        if text_at(self.query.as_str(), place) != text.as_str() {
            return Ok(false);
        }
        self.nodes = self.nodes.saturating_add(1);
        self.parts = self.parts.saturating_add(parts.len());
        self.entered.push(text)?;
        Ok(true)
    }

    fn post_visit(&mut self, expr: &Expr) -> Result<bool, AllocError> {
        let text = expr.to_string(self.alloc)?;
        let is_last = self.entered.pop() == Some(text);
        self.left = self.left.saturating_add(usize::from(is_last));
        Ok(is_last)
    }
}

#[test]
fn nodes_print_as_their_places(rt: HostRuntime) {
    for (query, nodes, parts) in &PRINTED {
        is_so(&rt, finds(rt.alloc(), query, *nodes, *parts), query);
    }
}

/// Whether so many nodes print as the text at their places and have so many parts, and one call came after each node.
fn finds(alloc: Global, query: &str, nodes: usize, parts: usize) -> Result<bool, Failed> {
    let placed = Box::new(alloc, parse_placed(alloc, query)?)?;
    let printed = Printed {
        alloc,
        query: String::from_str(alloc, query)?,
        nodes: 0,
        parts: 0,
        entered: Vec::new(alloc),
        left: 0,
    };
    let mut visitor = WithPlaces::new(printed, placed.places.as_slice(), placed.parts.as_slice());
    walk_expr(&mut visitor, &placed.expr)?;
    let found = &visitor.visitor;
    Ok(found.nodes == nodes && found.parts == parts && found.left == nodes)
}

fn text_at(query: &str, place: Span) -> &str {
    query.get(place.start..place.end).unwrap_or("")
}
