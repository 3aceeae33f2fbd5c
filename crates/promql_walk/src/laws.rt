//! Laws on the definitions alone. Each is the contract of a function that does nothing.

ghost use Rattle.std.specs.Prelude.{◌≡◌, List};
ghost use Rattle.std.specs.List.{flat_map};
ghost use Rattle.promql_ast.specs.Tree.{Tree};
ghost use Rattle.promql_ast.specs.View.{trees};
ghost use Rattle.promql_json.specs.Events.{around, events};
ghost use Rattle.promql_walk.specs.Children.{children, with_children};

pub use promql_json::laws::{equal_errors, forms_without_faults, forms_without_floats};

/// Between the events of a node are those of its children, in their order.
pub fn events_of_children()
    ensures { (t : Tree) (ts : List Tree) → children t ≡ trees ts → events t ≡ around t (flat_map events ts) }
{}

/// A node with its own children in their places is the node.
pub fn own_children()
    ensures { (t : Tree) → with_children t (children t) ≡ t }
{}
