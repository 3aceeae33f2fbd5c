//! The text of the JSON form of a query's tree with places: docs/reference/json.md, "Places".

ghost use Rattle.std.specs.Prelude.{Ok, string_bytes};
ghost use Rattle.promql_grammar.specs.Results.{on_result};
ghost use Rattle.promql_ast.specs.View.{tree_of};
ghost use Rattle.promql_syntax.specs.ParseAnswers.{IsAnswerTo};
ghost use Rattle.promql_query.specs.QueryErrors.{Prints};
ghost use Rattle.promql_query.specs.declared.mode.Mode.TheVariants.{Placed};

use crate::output::output_within;
use crate::query_error::QueryError;
use promql_ast::Expr;
use promql_json::JsonError;
use promql_places::placed_json_text;
use promql_span::limits::Limits;
use std::alloc::Global;

/// The text of the JSON form of this query's tree, with places.
///
/// # Errors
///
/// `NoForm` where the tree has no form, `LongOutput` where the text is not within the limits, `Memory` where an allocation failed.
pub fn placed_text(
    alloc: Global,
    limits: &Limits,
    query: &str,
    expr: &Expr,
) -> Result<String, QueryError>
    ensures { IsAnswerTo query.now (Ok (tree_of expr.now))
        → Prints limits.now query.now Placed (tree_of expr.now) (on_result (λ s. string_bytes s) result) }
{
    match placed_json_text(alloc, query, expr) {
        Ok(text) => output_within(limits, text),
        Err(JsonError::Memory) => Err(QueryError::Memory),
        Err(error) => Err(QueryError::NoForm(error)),
    }
}
