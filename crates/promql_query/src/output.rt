//! What is printed, within the limits: docs/reference/programs.md, "Limits of a query".

ghost use Rattle.std.specs.Prelude.{string_bytes};
ghost use Rattle.promql_grammar.specs.Results.{on_result};
ghost use Rattle.promql_query.specs.QueryErrors.{IsOutput};

use crate::query_error::QueryError;
use promql_span::limits::{Limits, check_output};

/// The text, if it is within the limits.
///
/// # Errors
///
/// `LongOutput` where it is not.
pub fn output_within(limits: &Limits, text: String) -> Result<String, QueryError>
    ensures { IsOutput limits.now (string_bytes text) (on_result (λ s. string_bytes s) result) }
{
    match check_output(text.as_str(), limits) {
        Ok(()) => Ok(text),
        Err(fault) => Err(QueryError::LongOutput(fault)),
    }
}
