//! When a query reads, as JSON: docs/guide/bindings.md, "When a query reads".

ghost use Rattle.std.specs.Prelude.{◌≡◌, ◌⊎◌, IfOk, Ok, Option, drop, option_map, string_bytes};
ghost use Rattle.std.specs.Option.{option_map_or};
ghost use Rattle.serde_json.specs.Data.{number, unsigned};
ghost use Rattle.serde_json.specs.View.{view};
ghost use Rattle.serde_json.specs.Written.{compact_text};
ghost use Rattle.promql_grammar.specs.Results.{on_result};
ghost use Rattle.promql_ast.specs.Text.{text};
ghost use Rattle.promql_ast.specs.Tree.{Tree, vector};
ghost use Rattle.promql_ast.specs.View.{selector_of, tree_of};
ghost use Rattle.promql_json.specs.JsonParts.{list, or_null, whole};
ghost use Rattle.promql_syntax.specs.ParseAnswers.{IsAnswerTo};
ghost use Rattle.promql_when.specs.Found.{IsErrorAt, found_of, timed_tree};
ghost use Rattle.promql_when.specs.Reads.{target_info};
ghost use Rattle.promql_query.specs.WindowsText as spec;
ghost use Rattle.promql_query.specs.WindowsText.{ArePlaced, GivesWindows, HavePlaces, Overflows};

use crate::finite_json::value_text;
use crate::query_error::QueryError;
use crate::selector_places::selector_places;
use promql_ast::{Expr, VectorSelector};
use promql_places::find_places;
use promql_span::Span;
use promql_when::{SelectorWindow, TimedNode, Times, Window, WindowsError, windows};
use serde_json::{Value, json};
use std::alloc::{AllocError, Global};

/// A selector without its range, as it prints.
pub fn selector_text(alloc: Global, selector: Option<&VectorSelector>) -> Result<String, AllocError>
    ensures { IfOk result (λ s. string_bytes s ≡ text (vector (option_map_or (λ v. selector_of v.now) selector.entry target_info))) }
{
    match selector {
        Some(selector) => selector.to_string(alloc),
        None => String::from_str(alloc, "target_info"),
    }
}

/// A time; null where there is none.
pub(crate) fn time_value(time: Option<i64>) -> Value
    ensures { view result ≡ or_null whole time }
{
    match time {
        Some(time) => Value::from(time),
        None => Value::Null,
    }
}

/// The first millisecond of a window; null where there is none.
fn first_value(window: Option<Window>) -> Value
    ensures { view result ≡ or_null (λ w. whole w.first) window }
{
    match window {
        Some(window) => Value::from(window.first),
        None => Value::Null,
    }
}

/// The last millisecond of a window; null where there is none.
fn last_value(window: Option<Window>) -> Value
    ensures { view result ≡ or_null (λ w. whole w.last) window }
{
    match window {
        Some(window) => Value::from(window.last),
        None => Value::Null,
    }
}

/// The byte with which a place begins; null where there is none.
fn start_value(place: Option<Span>) -> Value
    ensures { view result ≡ or_null (λ p. number (unsigned p.start)) place }
{
    match place {
        Some(place) => Value::from(place.start),
        None => Value::Null,
    }
}

/// The byte before which a place ends; null where there is none.
fn end_value(place: Option<Span>) -> Value
    ensures { view result ≡ or_null (λ p. number (unsigned p.end)) place }
{
    match place {
        Some(place) => Value::from(place.end),
        None => Value::Null,
    }
}

/// A selector, the ends of its window, and those of its place.
fn window_value(
    alloc: Global,
    found: &SelectorWindow<'_>,
    place: Option<Span>,
) -> Result<Value, AllocError>
    ensures { IfOk result (λ v. view v
        ≡ spec.window_value (option_map_or (λ v. selector_of v.now) found.now.selector target_info, found.now.window) place) }
{
    json!(in alloc; [
        selector_text(alloc, found.selector)?,
        first_value(found.window),
        last_value(found.window),
        start_value(place),
        end_value(place)
    ])
}

/// The place that comes next.
fn first_place(places: &[Option<Span>]) -> Option<Span>
    ensures { result ≡ spec.first_of places.now }
{
    match places {
        [place, ..] => *place,
        [] => None,
    }
}

/// Those after it.
fn after_first(places: &[Option<Span>]) -> &[Option<Span>]
    ensures { result.now ≡ drop 1 places.now }
{
    match places {
        [_, left @ ..] => left,
        [] => places,
    }
}

/// A list of these.
pub(crate) fn windows_value(
    alloc: Global,
    found: &[SelectorWindow<'_>],
    places: &[Option<Span>],
) -> Result<Value, AllocError>
    ensures { IfOk result (λ v. view v ≡ list (spec.window_values (found_of found.now) places.now)) }
{
    let mut list = Vec::with_capacity(alloc, found.len())?;
    let mut rest = places;
    for selector in found {
        let place = first_place(rest);
        list.push(window_value(alloc, selector, place)?)?;
        rest = after_first(rest);
    }
    Ok(Value::Array(list))
}

/// The places of the selectors of this query's expression, one for each of its windows.
pub(crate) fn query_places(
    alloc: Global,
    query: &str,
    expr: &Expr,
) -> Result<Vec<Option<Span>>, AllocError>
    ensures { IsAnswerTo query.now (Ok (tree_of expr.now))
        → IfOk result (λ places. HavePlaces query.now (tree_of expr.now) places.items) }
{
    let nodes = find_places(alloc, query, expr)?;
    selector_places(alloc, nodes.as_slice(), expr)
}

/// The windows of this query's expression, with the places of their selectors.
fn text_of_windows(
    alloc: Global,
    query: &str,
    expr: &Expr,
    found: &[SelectorWindow<'_>],
) -> Result<String, AllocError>
    ensures { IsAnswerTo query.now (Ok (tree_of expr.now))
        → IfOk result (λ s. ArePlaced query.now (tree_of expr.now) (found_of found.now) (string_bytes s)) }
{
    let places = query_places(alloc, query, expr)?;
    let value = windows_value(alloc, found, places.as_slice())?;
    value_text(alloc, value)
}

/// A time as JSON.
///
/// # Errors
///
/// `AllocError` where an allocation failed.
pub fn last_text(alloc: Global, last: Option<i64>) -> Result<String, AllocError>
    ensures { IfOk result (λ s. string_bytes s ≡ compact_text (or_null whole last)) }
{
    value_text(alloc, time_value(last))
}

/// The text of a node.
fn node_text(alloc: Global, node: TimedNode<'_>) -> Result<String, AllocError>
    ensures { IfOk result (λ s. string_bytes s ≡ text (timed_tree node.entry)) }
{
    match node {
        TimedNode::Vector(node) => node.to_string(alloc),
        TimedNode::Matrix(node) => node.to_string(alloc),
        TimedNode::Subquery(node) => node.to_string(alloc),
        TimedNode::Info(node) => node.to_string(alloc),
    }
}

/// The error of a query that has no windows.
pub fn error_of(alloc: Global, error: WindowsError<'_>) -> QueryError
    ensures { (found : Option Tree) → IsErrorAt found error.entry → Overflows found result ⊎ (result ≡ QueryError.Memory) }
{
    match error {
        WindowsError::TimeOverflow(node) => match node_text(alloc, node) {
            Ok(text) => QueryError::TimeOverflow(text),
            Err(_) => QueryError::Memory,
        },
        WindowsError::Memory => QueryError::Memory,
    }
}

/// The windows of this query's expression as JSON, with the places of their selectors.
///
/// # Errors
///
/// `TimeOverflow` where 64 bits do not hold a time of a node, `Memory` where an allocation failed.
pub fn windows_text(
    alloc: Global,
    query: &str,
    times: &Times,
    expr: &Expr,
) -> Result<String, QueryError>
    ensures { IsAnswerTo query.now (Ok (tree_of expr.now))
        → GivesWindows query.now times.now (tree_of expr.now) (on_result (λ s. string_bytes s) result) }
{
    match windows(alloc, expr, times) {
        Ok(found) => match text_of_windows(alloc, query, expr, found.as_slice()) {
            Ok(text) => Ok(text),
            Err(_) => Err(QueryError::Memory),
        },
        Err(error) => Err(error_of(alloc, error)),
    }
}
