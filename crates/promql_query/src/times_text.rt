//! When a query reads, as an answer of a batch tells it: docs/reference/programs.md, "Answers".

ghost use Rattle.std.specs.Prelude.{◌≡◌, IfOk, option_map, string_bytes};
ghost use Rattle.serde_json.specs.View.{view};
ghost use Rattle.promql_grammar.specs.Results.{on_result};
ghost use Rattle.promql_ast.specs.View.{tree_of};
ghost use Rattle.promql_when.specs.Found.{found_of};
ghost use Rattle.promql_when.specs.Reads as reads;
ghost use Rattle.promql_when.specs.Windows.{asked};
ghost use Rattle.promql_query.specs.TimesSteps.{IsOfTree};
ghost use Rattle.promql_query.specs.TimesText as spec;
ghost use Rattle.promql_query.specs.TimesText.{IsTold, MayHavePlaces, TellsTimes};

use crate::finite_json::value_text;
use crate::output::output_within;
use crate::query_error::QueryError;
use crate::windows_text::{error_of, query_places, time_value, windows_value};
use promql_ast::{Expr, drop_expr};
use promql_span::Span;
use promql_span::limits::Limits;
use promql_when::{PinError, SelectorWindow, Times, is_constant, last_of, pinned, windows};
use serde_json::{Value, json};
use std::alloc::{AllocError, Global};

/// The line of an expression with the first and the last time for `@ start()` and `@ end()`; null where it is not pinned.
fn line_value(alloc: Global, times: &Times, expr: &Expr) -> Result<Value, AllocError>
    ensures { IfOk result (λ v. view v ≡ spec.line_value times.now (tree_of expr.now)) }
{
    match pinned(alloc, expr, times.start, times.end) {
        Ok(expr) => {
            let line = expr.to_string(alloc);
            drop_expr(expr);
            Ok(Value::String(line?))
        }
        Err(PinError::GridFunction) => Ok(Value::Null),
        Err(PinError::Memory) => Err(AllocError),
    }
}

/// What is told of an expression with these windows, whose selectors have these places.
fn times_value(
    alloc: Global,
    times: &Times,
    expr: &Expr,
    found: &[SelectorWindow<'_>],
    places: &[Option<Span>],
) -> Result<Value, AllocError>
    ensures { IfOk result (λ v. view v ≡ spec.times_value times.now (tree_of expr.now) (found_of found.now) places.now) }
{
    let line = line_value(alloc, times, expr)?;
    let rows = windows_value(alloc, found, places)?;
    json!(in alloc; {
        "constant": is_constant(expr),
        "last_read": time_value(last_of(found)),
        "line": line,
        "windows": rows
    })
}

/// The places of the selectors of an expression; none where it is not that of a query.
fn places_of(
    alloc: Global,
    query: Option<&str>,
    expr: &Expr,
) -> Result<Vec<Option<Span>>, AllocError>
    ensures { IsOfTree (option_map (λ s. s.now) query.entry) (tree_of expr.now)
        → IfOk result (λ places. MayHavePlaces (option_map (λ s. s.now) query.entry) (tree_of expr.now) places.items) }
{
    match query {
        Some(query) => query_places(alloc, query, expr),
        None => Ok(Vec::new(alloc)),
    }
}

/// The text of what is told of an expression with these windows.
fn told_text(
    alloc: Global,
    query: Option<&str>,
    times: &Times,
    expr: &Expr,
    found: &[SelectorWindow<'_>],
) -> Result<String, AllocError>
    requires { found_of found.now ≡ reads.windows times.now (tree_of expr.now) (asked times.now) }
    ensures { IsOfTree (option_map (λ s. s.now) query.entry) (tree_of expr.now) → IfOk result (λ s.
        IsTold (option_map (λ s. s.now) query.entry) times.now (tree_of expr.now) (string_bytes s)) }
{
    let places = places_of(alloc, query, expr)?;
    let value = times_value(alloc, times, expr, found, places.as_slice())?;
    value_text(alloc, value)
}

/// When an expression reads, as JSON. It is that of the query, if there is one, whose selectors have places.
///
/// # Errors
///
/// `TimeOverflow` where 64 bits do not hold a time of a node, `LongOutput` where the text is not within the limits, `Memory` where an
/// allocation failed.
pub(crate) fn times_text(
    alloc: Global,
    limits: &Limits,
    query: Option<&str>,
    times: &Times,
    expr: &Expr,
) -> Result<String, QueryError>
    ensures { IsOfTree (option_map (λ s. s.now) query.entry) (tree_of expr.now)
        → TellsTimes (option_map (λ s. s.now) query.entry) limits.now times.now (tree_of expr.now)
        (on_result (λ s. string_bytes s) result) }
{
    match windows(alloc, expr, times) {
        Ok(found) => match told_text(alloc, query, times, expr, found.as_slice()) {
            Ok(text) => output_within(limits, text),
            Err(_) => Err(QueryError::Memory),
        },
        Err(error) => Err(error_of(alloc, error)),
    }
}
