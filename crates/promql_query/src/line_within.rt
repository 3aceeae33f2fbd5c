//! The line of a changed tree: docs/guide/rewriting.md, "Faithful texts"; docs/reference/programs.md, "Limits of a query".

ghost use Rattle.std.specs.Prelude.{◌≡◌, Err, IfErr, IfOk, Ok, string_bytes};
ghost use Rattle.promql_ast.specs.Text.{text as line_text};
ghost use Rattle.promql_ast.specs.View.{tree_of};
ghost use Rattle.promql_query.specs.LinesWithin.{HasLine};
ghost use Rattle.promql_rewrite.specs.Faithful.{Means};
ghost use Rattle.promql_span.specs.QueryLimits.{IsWithin};

use crate::limit_checks::limit_fault;
use crate::query_error::{Measured, QueryError};
use promql_ast::Expr;
use promql_rewrite::{NotFaithful, check_meaning};
use promql_span::limits::Limits;
use std::alloc::Global;

/// The line of an expression, where it is within the limits. `measured` is what it is.
fn short_line(
    alloc: Global,
    limits: &Limits,
    measured: Measured,
    expr: &Expr,
) -> Result<String, QueryError>
    ensures ok { IfOk result (λ s. (string_bytes s ≡ line_text (tree_of expr.now)) × IsWithin (string_bytes s) limits.now) }
    ensures err { IfErr result (λ e. HasLine measured limits.now (tree_of expr.now) (Err e)) }
{
    let line = expr.to_string(alloc)?;
    match limit_fault(alloc, limits, line.as_str())? {
        None => Ok(line),
        Some(fault) => Err(QueryError::Large(measured, fault)),
    }
}

/// The line of an expression that its line means, where it is within the limits. `measured` is what it is.
pub(crate) fn meant_line(
    alloc: Global,
    limits: &Limits,
    measured: Measured,
    expr: &Expr,
) -> Result<String, QueryError>
    requires { Means (line_text (tree_of expr.now)) (tree_of expr.now) }
    ensures ok { IfOk result (λ s. HasLine measured limits.now (tree_of expr.now) (Ok (string_bytes s))) }
    ensures err { IfErr result (λ e. HasLine measured limits.now (tree_of expr.now) (Err e)) }
{
    short_line(alloc, limits, measured, expr)
}

/// The line of an expression, which is read again where it is within the limits, and means the expression. `measured` is what it is.
pub(crate) fn line_within(
    alloc: Global,
    limits: &Limits,
    measured: Measured,
    expr: &Expr,
) -> Result<String, QueryError>
    ensures ok { IfOk result (λ s. HasLine measured limits.now (tree_of expr.now) (Ok (string_bytes s))) }
    ensures err { IfErr result (λ e. HasLine measured limits.now (tree_of expr.now) (Err e)) }
{
    let line = short_line(alloc, limits, measured, expr)?;
    match check_meaning(alloc, line.as_str(), expr) {
        Ok(()) => Ok(line),
        Err(NotFaithful::Memory) => Err(QueryError::Memory),
        Err(NotFaithful::IndentTooWide) => unreachable!(),
        Err(NotFaithful::Rejected(error)) => {
            Err(QueryError::Unfaithful(NotFaithful::Rejected(error)))
        }
        Err(NotFaithful::OtherTree) => Err(QueryError::Unfaithful(NotFaithful::OtherTree)),
    }
}
