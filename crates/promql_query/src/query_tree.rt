//! The tree of a query that is within its limits.

ghost use Rattle.std.specs.Prelude.{◌≡◌, Err, IfErr, IfOk, None};
ghost use Rattle.promql_ast.specs.View.{tree_of};
ghost use Rattle.promql_query.specs.Rejecting.{IsRead};
ghost use Rattle.promql_query.specs.QueryErrors.{ReadsQuery};

use crate::query_error::QueryError;
use crate::rejection::read_query;
use promql_ast::Expr;
use promql_span::limits::Limits;
use std::alloc::Global;

/// The tree of a query, as `read_query` reads it.
///
/// # Errors
///
/// `Rejected` where the query is not within its limits, or the parser rejects it; `Memory` where an allocation failed.
pub fn query_tree(alloc: Global, limits: &Limits, query: &str) -> Result<Expr, QueryError>
    ensures ok { IfOk result (λ e. IsRead limits.now query.now (tree_of e)) }
    ensures err { IfErr result (λ e. ReadsQuery (λ r. r.expectation ≡ None) limits.now query.now (Err e)) }
{
    match read_query(alloc, limits, query)? {
        Ok(expr) => Ok(expr),
        Err(rejection) => Err(QueryError::rejected(rejection)),
    }
}
