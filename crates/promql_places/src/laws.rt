//! Laws: the contracts of functions that do nothing.

ghost use Rattle.std.specs.Prelude.{ℕ, ◌+◌, ◌≤◌, ◌⊎◌, Ok, length};
ghost use Rattle.std.specs.List.{AllByRecursion, AllPairs};
ghost use Rattle.promql_ast.specs.Tree.{Tree};
ghost use Rattle.promql_grammar.specs.Grammar.{Derivation, yield};
ghost use Rattle.promql_syntax.specs.Asking.{EndsIn};
ghost use Rattle.promql_syntax.specs.Building.{build};
ghost use Rattle.promql_places.specs.NodeParts.{parts};
ghost use Rattle.promql_places.specs.NodePlaces.{BuildEach, LieWithin, nodes, nodes_below, tree_nodes};

/// The expressions of a derivation that are nodes build the nodes of its tree, in the order of a walk.
pub fn nodes_are_built()
    ensures { (k : ℕ) (d : Derivation) (t : Tree) → EndsIn (build d) (Ok t)
        → BuildEach (nodes k d) (tree_nodes t) }
{}

/// The nodes below an expression have tokens, which lie within those of the expression.
pub fn nodes_lie_within()
    ensures { (k : ℕ) (d : Derivation)
        → AllByRecursion (λ sub. LieWithin k (length (yield d) + k) (length (yield sub.1)) sub.0)
        (nodes_below k d) }
{}

/// Of two nodes the one that comes later in a walk lies within the other, or begins after it.
pub fn nodes_nest()
    ensures { (k : ℕ) (d : Derivation) → AllPairs (λ a b.
        LieWithin a.0 (length (yield a.1) + a.0) (length (yield b.1)) b.0
        ⊎ (length (yield b.1) + b.0 ≤ a.0)) (nodes k d) }
{}

/// The parts of an expression have tokens, which lie within those of the expression.
pub fn parts_lie_within()
    ensures { (k : ℕ) (d : Derivation)
        → AllByRecursion (λ p. LieWithin k (length (yield d) + k) p.1 p.2) (parts k d) }
{}

/// Of two parts of an expression the one that comes later begins after the other, or has its tokens and ends after it or with it.
pub fn parts_are_ordered()
    ensures { (k : ℕ) (d : Derivation) → AllPairs (λ p q.
        (q.1 + q.2 ≤ p.2) ⊎ ((q.2 ≤ p.2) × (p.1 + p.2 ≤ q.1 + q.2))) (parts k d) }
{}
