//! The layout of a query for people: docs/reference/formatting.md.

ghost use Rattle.std.specs.Prelude.{◌≡◌, Err, IfErr, IfOk, Ok, string_bytes};
ghost use Rattle.promql_ast.specs.View.{tree_of};
ghost use Rattle.promql_formatter.specs.Formats.{IsLayoutOf};
ghost use Rattle.promql_query.specs.FormattedQueries.{HasNoLayout, IsFormattedQuery, layout_limits};
ghost use Rattle.promql_query.specs.QueryErrors.{Gives};
ghost use Rattle.promql_syntax.specs.ParseAnswers.{IsAnswerTo};

use crate::query_error::QueryError;
use crate::query_tree::query_tree;
use promql_ast::{Expr, drop_expr};
use promql_formatter::{FormatError, FormatOptions, format_tree};
use promql_span::limits::Limits;
use std::alloc::Global;

/// The limits of a query to lay out: a layout that keeps what is written is read as the query is. Another one may sort matchers.
fn layout_limits(options: &FormatOptions, limits: &Limits) -> Limits
    ensures { result ≡ layout_limits options.now limits.now }
{
    if options.keep_spelling {
        limits.for_rules()
    } else {
        limits.for_layout(options.sort_matchers)
    }
}

/// The layout of a query that is within its limits.
///
/// # Errors
///
/// `Rejected` where the query is not within its limits, or the parser rejects it; else `WideLayout` where an option asks for more than
/// it may, `LongOutput` where the layout has more bytes than it may have, `NotFormatted` where the layout that was made does not read
/// back; `Memory` where an allocation failed.
pub fn formatted_query(
    alloc: Global,
    limits: &Limits,
    options: &FormatOptions,
    query: &str,
) -> Result<String, QueryError>
    ensures ok { IfOk result (λ s. IsFormattedQuery limits.now options.now query.now (Ok (string_bytes s))) }
    ensures err { IfErr result (λ e. IsFormattedQuery limits.now options.now query.now (Err e)) }
{
    let expr = query_tree(alloc, &layout_limits(options, limits), query)?;
    let layout = layout_of_tree(alloc, options, query, &expr);
    drop_expr(expr);
    layout
}

/// The layout of a query that has this tree.
fn layout_of_tree(
    alloc: Global,
    options: &FormatOptions,
    query: &str,
    expr: &Expr,
) -> Result<String, QueryError>
    requires { IsAnswerTo query.now (Ok (tree_of expr.now)) }
    ensures ok { IfOk result (λ s. IsLayoutOf options.now query.now (string_bytes s)) }
    ensures err { IfErr result (λ e. Gives (IsLayoutOf options.now query.now) (HasNoLayout options.now) (Err e)) }
{
    match format_tree(alloc, query, expr, options) {
        Ok(layout) => Ok(layout),
        Err(FormatError::Memory) => Err(QueryError::Memory),
        Err(FormatError::TooWide(wide)) => Err(QueryError::WideLayout(wide)),
        Err(FormatError::TooLong(long)) => Err(QueryError::LongOutput(long)),
        Err(FormatError::Rejected(_)) => Err(QueryError::NotFormatted),
        Err(FormatError::Unfaithful) => Err(QueryError::NotFormatted),
    }
}
