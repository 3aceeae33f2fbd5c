//! Why a query is rejected: docs/guide/bindings.md, "Why a query is rejected".

ghost use Rattle.std.specs.Prelude.{IfOk, string_bytes};
ghost use Rattle.promql_grammar.specs.Results.{on_result};
ghost use Rattle.promql_query.specs.Rejecting.{IsRejection};
ghost use Rattle.promql_span.specs.declared.limits.Limits as spans;
ghost use Rattle.promql_query.specs.QueryErrors.{Gives};
ghost use Rattle.promql_c.specs.Calls.{Explains, IsExplainOf};

use promql_ast::drop_expr;
use promql_query::query_error::QueryError;
use promql_query::rejected_query::RejectedQuery;
use promql_query::rejection::{Rejection, read_query};
use promql_span::limits::Limits;
use std::alloc::{AllocError, Global};

/// What is said of a query that is rejected: the message, or an object of JSON that has it.
fn explanation(
    alloc: Global,
    query: &str,
    rejection: Rejection,
    as_json: bool,
) -> Result<String, AllocError>
    ensures { (limits : spans.Limits) → IsRejection limits query.now rejection
        → IfOk result (λ s. Explains limits as_json query.now (string_bytes s)) }
{
    let rejected = RejectedQuery::new(alloc, query, rejection)?;
    let message = rejected.message(alloc)?;
    if as_json {
        rejected.text(alloc, message.as_str())
    } else {
        Ok(message)
    }
}

/// The same of a query that may be accepted: then it is nothing.
fn explain_text(
    alloc: Global,
    limits: &Limits,
    text: &str,
    as_json: bool,
) -> Result<String, QueryError>
    ensures { Gives (Explains limits.now as_json text.now) (λ e. ⊥) (on_result (λ s. string_bytes s) result) }
{
    match read_query(alloc, limits, text)? {
        Ok(expr) => {
            drop_expr(expr);
            Ok(String::new(alloc))
        }
        Err(rejection) => Ok(explanation(alloc, text, rejection, as_json)?),
    }
}

/// The same of a query in bytes.
pub(crate) fn explain_query(
    alloc: Global,
    limits: &Limits,
    query: &[u8],
    as_json: bool,
) -> Result<String, QueryError>
    ensures { IsExplainOf limits.now as_json query.now (on_result (λ s. string_bytes s) result) }
{
    let Ok(text) = str::from_utf8(query) else {
        return Err(QueryError::NotUtf8);
    };
    explain_text(alloc, limits, text, as_json)
}
