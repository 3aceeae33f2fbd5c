//! A query, laid out for people with its comments.

ghost use Rattle.std.specs.Prelude.{string_bytes};
ghost use Rattle.promql_grammar.specs.Results.{on_result};
ghost use Rattle.promql_c.specs.Calls.{IsFormattedOf};

use promql_formatter::FormatOptions;
use promql_query::formatted_query::formatted_query;
use promql_query::query_error::QueryError;
use promql_span::limits::Limits;
use std::alloc::Global;

/// The query, laid out for people.
pub(crate) fn format_bytes(
    alloc: Global,
    limits: &Limits,
    options: &FormatOptions,
    query: &[u8],
) -> Result<String, QueryError>
    ensures { IsFormattedOf limits.now options.now query.now (on_result (λ s. string_bytes s) result) }
{
    let Ok(text) = str::from_utf8(query) else {
        return Err(QueryError::NotUtf8);
    };
    formatted_query(alloc, limits, options, text)
}
