//! Which nodes are split, from the root on. A node that fits drops the decisions of its operands.

ghost use Rattle.std.specs.Prelude.{◌≡◌, ◌++◌, ◌∷◌, Bool, List, false, length};
ghost use Rattle.std.specs.Slice.Iter.{iter_rest};
ghost use Rattle.promql_ast.specs.Decisions.{node_decisions, decision, later};

use std::slice;

/// Keeps a node's decision at an index, and what follows if the node is split.
pub fn decide(decisions: &mut Vec<bool>, index: usize, longer: bool)
    ensures { (front parts : List Bool) → index ≡ length front
        → decisions.old.items ≡ front ++ false ∷ parts
        → decisions.new.items ≡ front ++ node_decisions longer parts }
{
    if longer {
        if index < decisions.len() {
            decisions[index] = true;
        }
    } else if index < decisions.len() {
        decisions.truncate(index + 1);
    }
}

/// Drops the decisions from an index on.
pub fn forget(decisions: &mut Vec<bool>, index: usize)
    ensures { (front parts : List Bool) → index ≡ length front
        → decisions.old.items ≡ front ++ parts → decisions.new.items ≡ front }
{
    if index < decisions.len() {
        decisions.truncate(index);
    }
}

/// The next decision; false after the last.
pub fn next_decision(decisions: &mut slice::Iter<bool>) -> bool
    ensures decision { result ≡ decision (iter_rest decisions.old) }
    ensures later { iter_rest decisions.new ≡ later (iter_rest decisions.old) }
{
    match decisions.next() {
        Some(split) => *split,
        None => false,
    }
}
