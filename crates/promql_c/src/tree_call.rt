//! What a call tells of a query's tree: the query is read once, and its tree is dropped at the end.

ghost use Rattle.std.specs.Prelude.{Result, string_bytes};
ghost use Rattle.std.specs.Str.{IsUtf8};
ghost use Rattle.promql_text.specs.Texts.{Text};
ghost use Rattle.promql_grammar.specs.Results.{on_result};
ghost use Rattle.promql_ast.specs.Tree.{Tree};
ghost use Rattle.promql_ast.specs.View.{tree_of};
ghost use Rattle.promql_query.specs.Rejecting.{IsRead};
ghost use Rattle.promql_query.specs.QueryErrors.{OfTree};
ghost use Rattle.promql_c.specs.Calls.{OfTexts};

use promql_ast::{Expr, drop_expr};
use promql_query::query_error::QueryError;
use promql_query::query_tree::query_tree;
use promql_span::limits::Limits;
use std::alloc::Global;

/// A call that tells something of a query's tree.
pub(crate) trait TreeCall {
    ghost use Rattle.promql_span.specs.declared.limits.Limits as bounds;
    ghost use Rattle.promql_query.specs.declared.query_error.QueryError as errors;

    ghost tells: { Self → bounds.Limits → Text → Tree → Result Text errors.QueryError → Type 0 };

    /// What it tells of the tree of this query.
    fn tell(
        &self,
        alloc: Global,
        limits: &Limits,
        query: &str,
        expr: &Expr,
    ) -> Result<String, QueryError>
        requires { IsRead limits.now query.now (tree_of expr.now) }
        ensures { tells self.now limits.now query.now (tree_of expr.now) (on_result (λ s. string_bytes s) result) };
}

/// What a call tells of a text's query.
fn tell_text<C: TreeCall>(
    call: &C,
    alloc: Global,
    limits: &Limits,
    query: &str,
) -> Result<String, QueryError>
    ensures { OfTree limits.now query.now (C.tells call.now limits.now query.now) (on_result (λ s. string_bytes s) result) }
{
    let expr = match query_tree(alloc, limits, query) {
        Ok(expr) => expr,
        Err(error) => return Err(error),
    };
    let told = call.tell(alloc, limits, query, &expr);
    drop_expr(expr);
    told
}

/// What a call tells of a query.
pub(crate) fn tell_query<C: TreeCall>(
    call: &C,
    alloc: Global,
    limits: &Limits,
    query: &[u8],
) -> Result<String, QueryError>
    ensures { OfTexts (IsUtf8 query.now) (OfTree limits.now query.now (C.tells call.now limits.now query.now))
        (on_result (λ s. string_bytes s) result) }
{
    let Ok(query) = str::from_utf8(query) else {
        return Err(QueryError::NotUtf8);
    };
    tell_text(call, alloc, limits, query)
}
