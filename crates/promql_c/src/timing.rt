//! When a query reads, and the line of a query with numbers for `@ start()` and `@ end()`: docs/guide/bindings.md, "When a query reads".

ghost use Rattle.std.specs.Prelude.{string_bytes};
ghost use Rattle.promql_grammar.specs.Results.{on_result};
ghost use Rattle.promql_ast.specs.View.{tree_of};
ghost use Rattle.promql_query.specs.QueryErrors.{Gives};
ghost use Rattle.promql_query.specs.WindowsText.{GivesWindows, IsConstantText};
ghost use Rattle.promql_c.specs.Calls.{GivesLastRead, Pins};

use crate::tree_call::TreeCall;
use promql_ast::{Expr, drop_expr};
use promql_query::finite_json::value_text;
use promql_query::output::output_within;
use promql_query::query_error::QueryError;
use promql_query::windows_text::{error_of, last_text, windows_text};
use promql_span::limits::Limits;
use promql_when::{PinError, Times, is_constant, last_read, pinned};
use serde_json::Value;
use std::alloc::Global;

/// `calls::windows`.
#[derive(Clone, Copy)]
pub(crate) struct WindowsCall<'a> {
    pub(crate) times: &'a Times,
}

impl TreeCall for WindowsCall<'_> {
    ghost tells = { λ call limits query. GivesWindows query call.times.now };

    fn tell(
        &self,
        alloc: Global,
        _limits: &Limits,
        query: &str,
        expr: &Expr,
    ) -> Result<String, QueryError> {
        windows_text(alloc, query, self.times, expr)
    }
}

/// The JSON of the last millisecond that an expression reads at a time.
fn text_of_last_read(
    alloc: Global,
    times: &Times,
    time: i64,
    expr: &Expr,
) -> Result<String, QueryError>
    ensures { GivesLastRead times.now time (tree_of expr.now) (on_result (λ s. string_bytes s) result) }
{
    match last_read(alloc, expr, time, times) {
        Ok(last) => Ok(last_text(alloc, last)?),
        Err(error) => Err(error_of(alloc, error)),
    }
}

/// `calls::last_read`.
#[derive(Clone, Copy)]
pub(crate) struct LastReadCall<'a> {
    pub(crate) times: &'a Times,
    /// When the query is evaluated, in milliseconds since the epoch.
    pub(crate) time: i64,
}

impl TreeCall for LastReadCall<'_> {
    ghost tells = { λ call limits query. GivesLastRead call.times.now call.time };

    fn tell(
        &self,
        alloc: Global,
        _limits: &Limits,
        _query: &str,
        expr: &Expr,
    ) -> Result<String, QueryError> {
        text_of_last_read(alloc, self.times, self.time, expr)
    }
}

/// The line of a pinned expression.
fn line_of_pinned(
    alloc: Global,
    limits: &Limits,
    start: i64,
    end: i64,
    expr: &Expr,
) -> Result<String, QueryError>
    ensures { Pins limits.now start end (tree_of expr.now) (on_result (λ s. string_bytes s) result) }
{
    let pinned = match pinned(alloc, expr, start, end) {
        Ok(pinned) => pinned,
        Err(PinError::GridFunction) => return Err(QueryError::GridFunction),
        Err(PinError::Memory) => return Err(QueryError::Memory),
    };
    let line = pinned.to_string(alloc);
    drop_expr(pinned);
    output_within(limits, line?)
}

/// `calls::pinned`.
#[derive(Clone, Copy)]
pub(crate) struct PinnedCall {
    /// The time for `@ start()`, in milliseconds since the epoch.
    pub(crate) start: i64,
    /// The time for `@ end()`.
    pub(crate) end: i64,
}

impl TreeCall for PinnedCall {
    ghost tells = { λ call limits query. Pins limits call.start call.end };

    fn tell(
        &self,
        alloc: Global,
        limits: &Limits,
        _query: &str,
        expr: &Expr,
    ) -> Result<String, QueryError> {
        line_of_pinned(alloc, limits, self.start, self.end, expr)
    }
}

/// `calls::is_constant`.
#[derive(Clone, Copy)]
pub(crate) struct ConstantCall;

impl TreeCall for ConstantCall {
    ghost tells = { λ call limits query t. Gives (IsConstantText t) (λ e. ⊥) };

    fn tell(
        &self,
        alloc: Global,
        _limits: &Limits,
        _query: &str,
        expr: &Expr,
    ) -> Result<String, QueryError> {
        Ok(value_text(alloc, Value::Bool(is_constant(expr)))?)
    }
}
