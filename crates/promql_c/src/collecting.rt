//! What a query names, as JSON: docs/guide/bindings.md, "What a query names".

ghost use Rattle.std.specs.Prelude.{◌≡◌, IfOk, map, option_map, string_bytes};
ghost use Rattle.std.specs.Duration.{as_nanos};
ghost use Rattle.serde_json.specs.View.{view};
ghost use Rattle.promql_ast.specs.Shifts.{moment_of, shift_of};
ghost use Rattle.promql_ast.specs.View.{tree_of};
ghost use Rattle.promql_rewrite.specs.Collecting.{selected_of};
ghost use Rattle.promql_query.specs.QueryErrors.{Gives};
ghost use Rattle.promql_c.specs.CollectedJson as spec;
ghost use Rattle.promql_query.specs.Batch as batch;
ghost use Rattle.promql_c.specs.CollectedParts as part;
ghost use Rattle.promql_c.specs.CollectedTexts.{IsCollectedText};

use crate::tree_call::TreeCall;
use promql_ast::{AtModifier, Expr, Offset};
use promql_query::finite_json::value_text;
use promql_query::query_error::QueryError;
use promql_rewrite::{Collected, CollectedSelector, collect};
use promql_span::limits::Limits;
use promql_text::display_duration;
use serde_json::{Value, json};
use std::alloc::{AllocError, Global};
use std::time::Duration;

/// A list of texts.
fn texts_value(alloc: Global, texts: &[String]) -> Result<Value, AllocError>
    ensures { IfOk result (λ v. view v ≡ batch.texts (map string_bytes texts.now)) }
{
    let mut list = Vec::with_capacity(alloc, texts.len())?;
    for text in texts {
        list.push(Value::try_from_str(alloc, text.as_str())?)?;
    }
    Ok(Value::Array(list))
}

fn name_value(alloc: Global, name: &Option<String>) -> Result<Value, AllocError>
    ensures { IfOk result (λ v. view v ≡ part.maybe_text (option_map string_bytes name.now)) }
{
    match name {
        Some(name) => Value::try_from_str(alloc, name.as_str()),
        None => Ok(Value::Null),
    }
}

fn range_value(alloc: Global, range: &Option<Duration>) -> Result<Value, AllocError>
    ensures { IfOk result (λ v. view v ≡ part.range_value (option_map as_nanos range.now)) }
{
    match range {
        Some(range) => Ok(Value::String(display_duration(alloc, range)?)),
        None => Ok(Value::Null),
    }
}

fn offset_value(alloc: Global, offset: &Option<Offset>) -> Result<Value, AllocError>
    ensures { IfOk result (λ v. view v ≡ part.offset_value (option_map shift_of offset.now)) }
{
    match offset {
        Some(offset) => Ok(Value::String(offset.to_string(alloc)?)),
        None => Ok(Value::Null),
    }
}

fn at_value(alloc: Global, at: &Option<AtModifier>) -> Result<Value, AllocError>
    ensures { IfOk result (λ v. view v ≡ part.at_value (option_map moment_of at.now)) }
{
    match at {
        Some(at) => Ok(Value::String(at.to_string(alloc)?)),
        None => Ok(Value::Null),
    }
}

/// An object of a selector's name, matchers and times, each as it prints.
fn selector_value(alloc: Global, selector: &CollectedSelector) -> Result<Value, AllocError>
    ensures { IfOk result (λ v. view v ≡ spec.selector_value (selected_of selector.now)) }
{
    json!(in alloc; {
        "at": at_value(alloc, &selector.at)?,
        "matchers": selector.matchers.as_str(),
        "name": name_value(alloc, &selector.name)?,
        "offset": offset_value(alloc, &selector.offset)?,
        "range": range_value(alloc, &selector.range)?
    })
}

fn selectors_value(alloc: Global, selectors: &[CollectedSelector]) -> Result<Value, AllocError>
    ensures { IfOk result (λ v. view v ≡ part.selectors (map selected_of selectors.now)) }
{
    let mut list = Vec::with_capacity(alloc, selectors.len())?;
    for selector in selectors {
        list.push(selector_value(alloc, selector)?)?;
    }
    Ok(Value::Array(list))
}

/// An object of what a query names.
fn collected_value(alloc: Global, found: &Collected) -> Result<Value, AllocError>
    ensures { IfOk result (λ v. view v ≡ spec.collected_value
        (map string_bytes found.now.functions.items)
        (map string_bytes found.now.label_names.items)
        (map string_bytes found.now.metric_names.items)
        (map selected_of found.now.selectors.items)) }
{
    json!(in alloc; {
        "functions": texts_value(alloc, found.functions.as_slice())?,
        "labels": texts_value(alloc, found.label_names.as_slice())?,
        "metrics": texts_value(alloc, found.metric_names.as_slice())?,
        "selectors": selectors_value(alloc, found.selectors.as_slice())?
    })
}

/// The JSON of what an expression names, without a space.
fn collected_text(alloc: Global, expr: &Expr) -> Result<String, AllocError>
    ensures { IfOk result (λ s. IsCollectedText (tree_of expr.now) (string_bytes s)) }
{
    let found = collect(alloc, expr)?;
    let value = collected_value(alloc, &found);
    drop(found);
    value_text(alloc, value?)
}

/// `calls::collect`.
#[derive(Clone, Copy)]
pub(crate) struct CollectCall;

impl TreeCall for CollectCall {
    ghost tells = { λ call limits query t. Gives (IsCollectedText t) (λ e. ⊥) };

    fn tell(
        &self,
        alloc: Global,
        _limits: &Limits,
        _query: &str,
        expr: &Expr,
    ) -> Result<String, QueryError> {
        Ok(collected_text(alloc, expr)?)
    }
}
