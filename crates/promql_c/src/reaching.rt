//! How far from the time of evaluation a query reads: docs/guide/bindings.md, "When a query reads".

ghost use Rattle.std.specs.Prelude.{◌≡◌, IfOk, string_bytes};
ghost use Rattle.std.specs.Option.{option_map_or};
ghost use Rattle.serde_json.specs.View.{view};
ghost use Rattle.serde_json.specs.Written.{compact_text};
ghost use Rattle.promql_grammar.specs.Results.{on_result};
ghost use Rattle.promql_ast.specs.View.{selector_of, tree_of};
ghost use Rattle.promql_when.specs.ReachFound.{reaches_of};
ghost use Rattle.promql_when.specs.Reads.{target_info};
ghost use Rattle.promql_c.specs.Calls.{GivesReaches};
ghost use Rattle.promql_c.specs.ReachesText as spec;

use crate::tree_call::TreeCall;
use promql_ast::Expr;
use promql_query::finite_json::value_text;
use promql_query::query_error::QueryError;
use promql_query::windows_text::{error_of, selector_text};
use promql_span::limits::Limits;
use promql_when::{SelectorReach, Times, reaches};
use serde_json::{Value, json};
use std::alloc::{AllocError, Global};

/// A selector, the ends of its reach, and whether they are the same at every time.
fn reach_value(alloc: Global, found: &SelectorReach<'_>) -> Result<Value, AllocError>
    ensures { IfOk result (λ v. view v
        ≡ spec.reach_value (option_map_or (λ v. selector_of v.now) found.now.selector target_info, found.now.reach)) }
{
    json!(in alloc; [
        selector_text(alloc, found.selector)?,
        found.reach.window.first,
        found.reach.window.last,
        found.reach.is_fixed
    ])
}

/// A list of these.
fn reaches_value(alloc: Global, found: &[SelectorReach<'_>]) -> Result<Value, AllocError>
    ensures { IfOk result (λ v. view v ≡ spec.reaches_value (reaches_of found.now)) }
{
    let mut list = Vec::with_capacity(alloc, found.len())?;
    for selector in found {
        list.push(reach_value(alloc, selector)?)?;
    }
    Ok(Value::Array(list))
}

fn reaches_text(alloc: Global, found: &[SelectorReach<'_>]) -> Result<String, AllocError>
    ensures { IfOk result (λ s. string_bytes s ≡ compact_text (spec.reaches_value (reaches_of found.now))) }
{
    let value = reaches_value(alloc, found)?;
    value_text(alloc, value)
}

/// The JSON of how far an expression reads.
fn text_of_reaches(alloc: Global, times: &Times, expr: &Expr) -> Result<String, QueryError>
    ensures { GivesReaches times.now (tree_of expr.now) (on_result (λ s. string_bytes s) result) }
{
    match reaches(alloc, expr, times) {
        Ok(found) => Ok(reaches_text(alloc, found.as_slice())?),
        Err(error) => Err(error_of(alloc, error)),
    }
}

/// `calls::reaches`.
#[derive(Clone, Copy)]
pub(crate) struct ReachesCall<'a> {
    pub(crate) times: &'a Times,
}

impl TreeCall for ReachesCall<'_> {
    ghost tells = { λ call limits query. GivesReaches call.times.now };

    fn tell(
        &self,
        alloc: Global,
        _limits: &Limits,
        _query: &str,
        expr: &Expr,
    ) -> Result<String, QueryError> {
        text_of_reaches(alloc, self.times, expr)
    }
}
