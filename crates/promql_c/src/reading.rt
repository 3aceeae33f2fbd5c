//! Whether a query may read a series: docs/guide/bindings.md, "Series that a query may read".

ghost use Rattle.std.specs.Prelude.{◌≡◌, ◌⊎◌, IfErr, IfOk, Some, option_map, string_bytes};
ghost use Rattle.serde_json.specs.Data.{boolean};
ghost use Rattle.serde_json.specs.Read.{read};
ghost use Rattle.serde_json.specs.View.{members_view, view};
ghost use Rattle.serde_json.specs.Written.{compact_text};
ghost use Rattle.promql_grammar.specs.Results.{on_result};
ghost use Rattle.promql_ast.specs.View.{tree_of};
ghost use Rattle.promql_when.specs.MayRead.{may_read, series_of};
ghost use Rattle.promql_c.specs.Calls.{GivesMayRead, IsMayReadOf};
ghost use Rattle.promql_c.specs.SeriesText as spec;
ghost use Rattle.promql_c.specs.SeriesText.{AreNoLabels};

use crate::tree_call::{TreeCall, tell_query};
use promql_ast::Expr;
use promql_query::finite_json::value_text;
use promql_query::labels_fault::LabelsFault;
use promql_query::query_error::QueryError;
use promql_span::limits::Limits;
use promql_when::{SeriesLabel, may_read};
use serde_json::{Category, Map, Value};
use std::alloc::{AllocError, Global};

/// The labels that the members of an object are; `None` where one is no text.
fn labels_of<'a>(
    alloc: Global,
    members: &'a Map<String, Value>,
) -> Result<Option<Vec<SeriesLabel<'a>>>, AllocError>
    ensures { IfOk result (λ found. option_map (λ ls. series_of ls.items) found ≡ spec.series_of_members (members_view members.now.entries)) }
{
    let mut labels = Vec::with_capacity(alloc, members.len())?;
    for (name, value) in members.iter() {
        let Some(value) = value.as_str() else {
            return Ok(None);
        };
        labels.push(SeriesLabel {
            name: name.as_str(),
            value,
        })?;
    }
    Ok(Some(labels))
}

/// The labels that a value has; `None` where it is no object, or a member is no text.
fn labels_in<'a>(
    alloc: Global,
    value: &'a Value,
) -> Result<Option<Vec<SeriesLabel<'a>>>, AllocError>
    ensures { IfOk result (λ found. option_map (λ ls. series_of ls.items) found ≡ spec.series_in (view value.now)) }
{
    match value.as_object() {
        Some(members) => labels_of(alloc, members),
        None => Ok(None),
    }
}

/// Whether an expression may read the series with the labels of a value; `None` where that has none.
fn value_may_read(alloc: Global, value: &Value, expr: &Expr) -> Result<Option<bool>, AllocError>
    ensures { IfOk result (λ found. found ≡ option_map (λ series. may_read series (tree_of expr.now)) (spec.series_in (view value.now))) }
{
    match labels_in(alloc, value)? {
        Some(labels) => Ok(Some(may_read(alloc, expr, labels.as_slice())?)),
        None => Ok(None),
    }
}

/// The value of labels as JSON. Its frame holds what reads JSON, 16 kB.
#[inline(never)]
fn read_labels(alloc: Global, labels: &str) -> Result<Value, QueryError>
    ensures ok { IfOk result (λ value. read labels.now ≡ Some (view value)) }
    ensures err { IfErr result (λ e. AreNoLabels labels.now e ⊎ (e ≡ QueryError.Memory)) }
{
    match Value::from_str(alloc, labels) {
        Ok(value) => Ok(value),
        Err(error) if error.classify() == Category::Memory => Err(QueryError::Memory),
        Err(_) => Err(QueryError::NotLabels(LabelsFault::NotJson)),
    }
}

/// A truth value as JSON.
fn bool_text(alloc: Global, value: bool) -> Result<String, QueryError>
    ensures ok { IfOk result (λ s. string_bytes s ≡ compact_text (boolean value)) }
    ensures err { IfErr result (λ e. e ≡ QueryError.Memory) }
{
    Ok(value_text(alloc, Value::Bool(value))?)
}

/// Whether an expression may read the series with these labels, as JSON.
fn text_of_may_read(alloc: Global, labels: &str, expr: &Expr) -> Result<String, QueryError>
    ensures { GivesMayRead labels.now (tree_of expr.now) (on_result (λ s. string_bytes s) result) }
{
    let value = match read_labels(alloc, labels) {
        Ok(value) => value,
        Err(error) => return Err(error),
    };
    let may = value_may_read(alloc, &value, expr);
    drop(value);
    match may {
        Ok(Some(may)) => bool_text(alloc, may),
        Ok(None) => Err(QueryError::NotLabels(LabelsFault::NotTexts)),
        Err(_) => Err(QueryError::Memory),
    }
}

/// `calls::may_read`.
#[derive(Clone, Copy)]
pub(crate) struct MayReadCall<'a> {
    pub(crate) labels: &'a str,
}

impl TreeCall for MayReadCall<'_> {
    ghost tells = { λ call limits query. GivesMayRead call.labels.now };

    fn tell(
        &self,
        alloc: Global,
        _limits: &Limits,
        _query: &str,
        expr: &Expr,
    ) -> Result<String, QueryError> {
        text_of_may_read(alloc, self.labels, expr)
    }
}

/// Whether a query may read the series with these labels, as JSON.
pub(crate) fn may_read_query(
    alloc: Global,
    limits: &Limits,
    query: &[u8],
    labels: &[u8],
) -> Result<String, QueryError>
    ensures { IsMayReadOf limits.now query.now labels.now (on_result (λ s. string_bytes s) result) }
{
    match str::from_utf8(labels) {
        Ok(labels) => tell_query(&MayReadCall { labels }, alloc, limits, query),
        Err(_) => Err(QueryError::NotUtf8),
    }
}
