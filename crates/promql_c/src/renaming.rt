//! A query with another name for a metric or a label.

ghost use Rattle.std.specs.Prelude.{◌≡◌, Some, string_bytes};
ghost use Rattle.promql_grammar.specs.Results.{on_result};
ghost use Rattle.promql_c.specs.Calls.{IsRenameOf};
ghost use Rattle.promql_c.specs.Formats.{named_numbered};

use promql_query::query_error::QueryError;
use promql_query::renamed_line::{Named, renamed_line};
use promql_span::limits::Limits;
use std::alloc::Global;

/// What is renamed, by its number; `None` where there is nothing of this number.
pub(crate) fn named_of(kind: u32) -> Option<Named>
    ensures { result ≡ named_numbered kind }
{
    match kind {
        0 => Some(Named::Metric),
        1 => Some(Named::Label),
        _ => None,
    }
}

/// The line of a text's query with the new name.
fn rename_text(
    alloc: Global,
    limits: &Limits,
    query: &str,
    named: Named,
    from: &str,
    to: &str,
) -> Result<String, QueryError>
    ensures { IsRenameOf limits.now query.now from.now to.now (Some named) (on_result (λ s. string_bytes s) result) }
{
    renamed_line(alloc, limits, query, named, from, to)
}

/// The line of a query with the new name, if something that is renamed was asked for.
pub(crate) fn rename_query(
    alloc: Global,
    limits: &Limits,
    query: &[u8],
    asked: Option<Named>,
    from: &[u8],
    to: &[u8],
) -> Result<String, QueryError>
    ensures { IsRenameOf limits.now query.now from.now to.now asked (on_result (λ s. string_bytes s) result) }
{
    let Some(named) = asked else {
        return Err(QueryError::UnknownMode);
    };
    let (Ok(query), Ok(from), Ok(to)) = (
        str::from_utf8(query),
        str::from_utf8(from),
        str::from_utf8(to),
    ) else {
        return Err(QueryError::NotUtf8);
    };
    rename_text(alloc, limits, query, named, from, to)
}
