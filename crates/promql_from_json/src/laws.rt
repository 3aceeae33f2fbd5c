//! A law on the definitions alone, the contract of a function that does nothing.

ghost use Rattle.std.specs.Prelude.{◌≡◌, ◌≢◌, ◌⊎◌, Err, IfErr, IfOk, Ok, Result};
ghost use Rattle.promql_ast.specs.Tree.{Tree};
ghost use Rattle.promql_ast.specs.View.{tree_of};
ghost use Rattle.promql_ast.specs.declared.expr.Expr.{Expr};
ghost use Rattle.serde_json.specs.Data.{Data};
ghost use Rattle.promql_json.specs.Json.{json};
ghost use Rattle.promql_from_json.specs.Readable.{IsNoForm, IsReadable};
ghost use Rattle.promql_from_json.specs.declared.from_error.FromJsonError.{FromJsonError};
ghost use Rattle.promql_from_json.specs.declared.from_error.FromJsonError.TheVariants.{Memory};

/// The form of a readable tree is read back: whatever `from_json` gives for it under its contract, it is a tree with the same form,
/// unless an allocation fails.
pub fn forms_read_back()
    ensures { (t : Tree) (d : Data) (read : Result Expr FromJsonError) → IsReadable t → json t ≡ Ok d
        → IfOk read (λ e. json (tree_of e) ≡ Ok d) → IfErr read (λ e. e ≢ Memory → IsNoForm d)
        → (read ≡ Err Memory) ⊎ ((e : Expr) × (read ≡ Ok e) × (json (tree_of e) ≡ json t)) }
{}
