//! Visitors that are given the place of each node: docs/reference/walks.md, "Visitors with places".

ghost use Rattle.std.specs.Prelude.{◌≡◌, Bool, List, Result};
ghost use Rattle.promql_ast.specs.Tree.{Tree};
ghost use Rattle.promql_ast.specs.View.{tree_of};
ghost use Rattle.promql_span.specs.declared.span.Span.{Span};
ghost use Rattle.promql_walk.specs.WalkSteps.{IdlesOr};
ghost use Rattle.promql_places.specs.PlacedWalks.{next_after, parts_at, place_at};
ghost use Rattle.promql_places.specs.declared.parts.Part.{Part};

use crate::parts::Part;
use promql_ast::Expr;
use promql_span::Span;
use promql_walk::ExprVisitor;

/// Is called at each node of a tree, as `ExprVisitor` is: before the node's children with the node's place and its parts, and
/// after them.
///
/// Contracts see what a call may do as a relation between the visitor before, the node, its place and its parts, the result,
/// and the visitor after. A visitor without a `post_visit` of its own leaves `post_gives` out as well.
pub trait PlacedVisitor {
    /// What a call may fail with.
    type Error;

    /// What `pre_visit` may do.
    ghost pre_gives: { Self → Tree → Span → List Part → Result Bool Self.Error → Self → Type 0 };

    /// What a `post_visit` may do, beside leaving the visitor as it is.
    ghost post_gives: { Self → Tree → Result Bool Self.Error → Self → Type 0 } = { λ _ _ _ _. ⊥ };

    /// Is called before a node's children. `Ok(true)` goes on; everything else ends the walk.
    fn pre_visit(&mut self, expr: &Expr, place: Span, parts: &[Part]) -> Result<bool, Self::Error>
        ensures { pre_gives self.old (tree_of expr.now) place parts.now result self.new };

    /// Is called after a node's children. `Ok(true)` goes on; everything else ends the walk. By default it does nothing
    /// and goes on.
    fn post_visit(&mut self, expr: &Expr) -> Result<bool, Self::Error>
        ensures { IdlesOr post_gives self.old (tree_of expr.now) result self.new }
    {
        let _ = expr;
        Ok(true)
    }
}

/// A visitor for `walk_expr` of the tree that these places and parts are of: it calls the visitor that it has with those of each
/// node.
#[derive(Drop)]
pub struct WithPlaces<'a, V: PlacedVisitor + Drop> {
    pub visitor: V,
    pub places: &'a [Span],
    pub parts: &'a [Vec<Part>],
    /// How many nodes it was called for: the index of the next one's place and parts.
    pub next: usize,
}

impl<'a, V: PlacedVisitor + Drop> WithPlaces<'a, V> {
    /// Before the first node of a tree, with what `parse_placed` returned beside it.
    pub fn new(visitor: V, places: &'a [Span], parts: &'a [Vec<Part>]) -> WithPlaces<'a, V>
        ensures visitor { result.visitor ≡ visitor }
        ensures places { result.places.now ≡ places.now }
        ensures parts { result.parts.now ≡ parts.now }
        ensures next { result.next ≡ 0 }
    {
        WithPlaces {
            visitor,
            places,
            parts,
            next: 0,
        }
    }
}

impl<'a, V: PlacedVisitor + Drop> ExprVisitor for WithPlaces<'a, V> {
    type Error = V::Error;

    ghost pre_gives = { λ s e r t. (t.places ≡ s.places) × (t.parts ≡ s.parts)
        × (t.next ≡ next_after s.places.now s.next)
        × V.pre_gives s.visitor e (place_at s.places.now s.next) (parts_at s.parts.now s.next) r t.visitor };

    ghost post_gives = { λ s e r t. (t.places ≡ s.places) × (t.parts ≡ s.parts) × (t.next ≡ s.next)
        × V.post_gives s.visitor e r t.visitor };

    fn pre_visit(&mut self, expr: &Expr) -> Result<bool, V::Error> {
        let place = place_at(self.places, self.next);
        let parts = parts_at(self.parts, self.next);
        if self.next < self.places.len() {
            self.next += 1;
        }
        self.visitor.pre_visit(expr, place, parts)
    }

    fn post_visit(&mut self, expr: &Expr) -> Result<bool, V::Error> {
        self.visitor.post_visit(expr)
    }
}

/// The place of this index, or an empty one.
fn place_at(places: &[Span], index: usize) -> Span
    ensures { result ≡ place_at places.now index }
{
    match places.get(index) {
        Some(place) => *place,
        None => Span { start: 0, end: 0 },
    }
}

/// The parts of this index, or none.
fn parts_at<'a>(lists: &'a [Vec<Part>], index: usize) -> &'a [Part]
    ensures { result.now ≡ parts_at lists.now index }
{
    match lists.get(index) {
        Some(parts) => parts.as_slice(),
        None => &[],
    }
}
