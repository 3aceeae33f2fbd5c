//! Laws on the definitions alone. Each is the contract of a function that does nothing.

ghost use Rattle.std.specs.Prelude.{◌≡◌, ◌↔◌, Ok, false};
ghost use Rattle.promql_text.specs.Equalities.{IsSameBy};
ghost use Rattle.promql_ast.specs.Tree.{Tree};
ghost use Rattle.serde_json.specs.Data.{Data};
ghost use Rattle.serde_json.specs.Written.{has_float};
ghost use Rattle.promql_json.specs.Json.{AtEachNode, json, own_fault};

use crate::error::JsonError;

/// A tree has a JSON form exactly where none of its nodes is at fault.
pub fn forms_without_faults()
    ensures { (t : Tree) → ((d : Data) × (json t ≡ Ok d)) ↔ AtEachNode (λ n. own_fault n ≡ None) t }
{}

/// No JSON form has a floating point number, so `to_string` of a `Value` is known to the byte.
pub fn forms_without_floats()
    ensures { (t : Tree) (d : Data) → json t ≡ Ok d → has_float d ≡ false }
{}

/// Errors are equal exactly if they are of one kind.
pub fn equal_errors()
    ensures { IsSameBy (λ e. e) ⟦<JsonError as PartialEq>⟧.eq }
{}
