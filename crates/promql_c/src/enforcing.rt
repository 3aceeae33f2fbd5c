//! A query with a matcher in its selectors.

ghost use Rattle.std.specs.Prelude.{Err, string_bytes};
ghost use Rattle.std.specs.Str.{IsUtf8};
ghost use Rattle.promql_text.specs.Texts.{Text};
ghost use Rattle.promql_grammar.specs.Results.{on_result};
ghost use Rattle.promql_c.specs.Calls.{IsEnforceOf};
ghost use Rattle.promql_c.specs.CallSteps.{EnforcesBytes};

use promql_query::enforced_line::enforced_line;
use promql_query::query_error::QueryError;
use promql_query::query_tree::query_tree;
use promql_rewrite::MatcherError;
use promql_span::limits::Limits;
use std::alloc::Global;

/// Why a text's query has no line with a matcher that is not valid UTF-8: the query is read before its matcher.
fn error_of_broken_matcher(alloc: Global, limits: &Limits, query: &str) -> QueryError
    ensures { (matcher : Text) → ¬ IsUtf8 matcher → EnforcesBytes limits.now query.now matcher (Err result) }
{
    match query_tree(alloc, limits, query) {
        Ok(_) => QueryError::Matcher(MatcherError::NotAMatcher),
        Err(error) => error,
    }
}

/// The line of a text's query with the matcher in every selector.
fn enforce_text(
    alloc: Global,
    limits: &Limits,
    query: &str,
    matcher: &[u8],
) -> Result<String, QueryError>
    ensures { EnforcesBytes limits.now query.now matcher.now (on_result (λ s. string_bytes s) result) }
{
    match str::from_utf8(matcher) {
        Ok(matcher) => enforced_line(alloc, limits, query, matcher),
        Err(_) => Err(error_of_broken_matcher(alloc, limits, query)),
    }
}

/// The line of a query with the matcher in every selector.
pub(crate) fn enforce_query(
    alloc: Global,
    limits: &Limits,
    query: &[u8],
    matcher: &[u8],
) -> Result<String, QueryError>
    ensures { IsEnforceOf limits.now query.now matcher.now (on_result (λ s. string_bytes s) result) }
{
    let Ok(query) = str::from_utf8(query) else {
        return Err(QueryError::NotUtf8);
    };
    enforce_text(alloc, limits, query, matcher)
}
