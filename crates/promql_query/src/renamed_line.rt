//! The line of a query with another name for a metric or a label: docs/guide/rewriting.md, "Renaming".

ghost use Rattle.std.specs.Prelude.{◌≡◌, ◌≤◌, Err, IfErr, IfOk, Ok, length, string_bytes};
ghost use Rattle.promql_ast.specs.View.{tree_of};
ghost use Rattle.promql_query.specs.RenamedLines.{IsRenamedLine, Renames, renaming};
ghost use Rattle.promql_query.specs.LinesWithin.{HasLine};
ghost use Rattle.promql_query.specs.QueryErrors.{Then};
ghost use Rattle.promql_query.specs.declared.query_error.Measured.TheVariants as measured;
ghost use Rattle.promql_query.specs.declared.query_error.QueryError.TheVariants as errors;
ghost use Rattle.promql_span.specs.declared.limits.LimitFault.TheVariants as limit;

use crate::line_within::line_within;
use crate::query_error::{Measured, QueryError};
use crate::query_tree::query_tree;
use promql_ast::{Expr, drop_expr};
use promql_rewrite::{RenameLabelError, RenameMetricError, rename_label, rename_metric};
use promql_span::limits::{LimitFault, Limits};
use std::alloc::Global;

/// What gets another name.
#[derive(Clone, Copy, PartialEq, Eq, Debug)]
pub enum Named {
    /// A metric: before braces, and in equal matchers of `__name__`.
    Metric,
    /// A label: in matchers, and in the lists of aggregations and operators.
    Label,
}

/// The most bytes of a new name, which is copied to each place of the old one.
pub const MAX_NEW_NAME: usize = 1_024;

/// The expression with the new name, which is short.
fn renamed_tree(
    alloc: Global,
    expr: Expr,
    named: Named,
    from: &str,
    to: &str,
) -> Result<Expr, QueryError>
    requires { length to.now ≤ MAX_NEW_NAME }
    ensures ok { IfOk result (λ e. Renames (renaming named from.now to.now) (tree_of expr) (Ok (tree_of e))) }
    ensures err { IfErr result (λ e. Renames (renaming named from.now to.now) (tree_of expr) (Err e)) }
{
    match named {
        Named::Metric => match rename_metric(alloc, expr, from, to) {
            Ok(expr) => Ok(expr),
            Err(RenameMetricError::Memory) => Err(QueryError::Memory),
            Err(RenameMetricError::NotAName) => Err(QueryError::NotAName),
        },
        Named::Label => match rename_label(alloc, expr, from, to) {
            Ok(expr) => Ok(expr),
            Err(RenameLabelError::Memory) => Err(QueryError::Memory),
            Err(RenameLabelError::MetricName) => Err(QueryError::MetricName),
            Err(RenameLabelError::Clash) => Err(QueryError::Clash),
        },
    }
}

/// The error of a new name of so many bytes, which are too many.
fn long_name(len: usize) -> QueryError
    ensures { result ≡ errors.Large measured.NewName (limit.TooLong len MAX_NEW_NAME) }
{
    let most = MAX_NEW_NAME;
    QueryError::Large(Measured::NewName, LimitFault::TooLong { len, most })
}

/// The line of an expression with the new name. The line is within the limits, is read again, and means the renamed tree.
fn show_renamed(
    alloc: Global,
    limits: &Limits,
    expr: Expr,
    named: Named,
    from: &str,
    to: &str,
) -> Result<String, QueryError>
    ensures ok { IfOk result (λ s. Then (Renames (renaming named from.now to.now) (tree_of expr))
        (HasLine Measured.RenamedLine limits.now) (Ok (string_bytes s))) }
    ensures err { IfErr result (λ e. Then (Renames (renaming named from.now to.now) (tree_of expr))
        (HasLine Measured.RenamedLine limits.now) (Err e)) }
{
    if to.len() > MAX_NEW_NAME {
        drop_expr(expr);
        return Err(long_name(to.len()));
    }
    let renamed = renamed_tree(alloc, expr, named, from, to)?;
    let line = line_within(alloc, limits, Measured::RenamedLine, &renamed);
    drop_expr(renamed);
    line
}

/// The line of a query with another name for a metric or a label. The line is within the limits, too; it is read again, and means
/// the renamed tree of the query.
///
/// # Errors
///
/// `Rejected` where the query is not within the limits, or the parser rejects it; else `Large` where the new name has more than
/// `MAX_NEW_NAME` bytes; else of a metric `NotAName` where the new name is
/// none of a metric, and of a label `MetricName` where one of the names is `__name__`, else `Clash` where a list has both; else
/// `Large` where the line is not within the limits; `Unfaithful` where it would not mean the renamed tree; `Memory` where an
/// allocation failed.
pub fn renamed_line(
    alloc: Global,
    limits: &Limits,
    query: &str,
    named: Named,
    from: &str,
    to: &str,
) -> Result<String, QueryError>
    ensures ok { IfOk result (λ s. IsRenamedLine limits.now query.now (renaming named from.now to.now) (Ok (string_bytes s))) }
    ensures err { IfErr result (λ e. IsRenamedLine limits.now query.now (renaming named from.now to.now) (Err e)) }
{
    let expr = query_tree(alloc, limits, query)?;
    show_renamed(alloc, limits, expr, named, from, to)
}
