//! The places of the nodes of a query's tree and of their parts, as JSON: docs/guide/bindings.md, "Places of nodes" and "Parts of
//! nodes".

ghost use Rattle.std.specs.Prelude.{◌≡◌, IfOk, Ok, map, string_bytes};
ghost use Rattle.serde_json.specs.View.{view};
ghost use Rattle.serde_json.specs.Written.{compact_text};
ghost use Rattle.promql_ast.specs.View.{tree_of};
ghost use Rattle.promql_json.specs.JsonParts.{list};
ghost use Rattle.promql_syntax.specs.ParseAnswers.{IsAnswerTo};
ghost use Rattle.promql_query.specs.QueryErrors.{Gives};
ghost use Rattle.promql_c.specs.PartsText.{IsPartsText, part_name, part_value, parts_value};
ghost use Rattle.promql_c.specs.PlacesText.{IsPlacesText, span_value};

use crate::tree_call::TreeCall;
use promql_ast::Expr;
use promql_places::{Part, PartKind, find_parts, find_places};
use promql_query::finite_json::value_text;
use promql_query::query_error::QueryError;
use promql_span::Span;
use promql_span::limits::Limits;
use serde_json::{Value, json};
use std::alloc::{AllocError, Global};

fn place_value(alloc: Global, place: Span) -> Result<Value, AllocError>
    ensures { IfOk result (λ v. view v ≡ span_value place) }
{
    json!(in alloc; [place.start, place.end])
}

/// A list of places.
fn places_value(alloc: Global, places: &[Span]) -> Result<Value, AllocError>
    ensures { IfOk result (λ v. view v ≡ list (map span_value places.now)) }
{
    let mut list = Vec::with_capacity(alloc, places.len())?;
    for place in places {
        list.push(place_value(alloc, *place)?)?;
    }
    Ok(Value::Array(list))
}

fn places_text(alloc: Global, places: &[Span]) -> Result<String, AllocError>
    ensures { IfOk result (λ s. string_bytes s ≡ compact_text (list (map span_value places.now))) }
{
    let value = places_value(alloc, places)?;
    value_text(alloc, value)
}

/// The JSON of the places of the nodes of a text's tree.
fn text_of_places(alloc: Global, query: &str, expr: &Expr) -> Result<String, AllocError>
    ensures { IfOk result (λ s. IsAnswerTo query.now (Ok (tree_of expr.now)) → IsPlacesText query.now (tree_of expr.now) (string_bytes s)) }
{
    let places = find_places(alloc, query, expr)?;
    places_text(alloc, places.as_slice())
}

/// `calls::places`.
#[derive(Clone, Copy)]
pub(crate) struct PlacesCall;

impl TreeCall for PlacesCall {
    ghost tells = { λ call limits query t. Gives (IsPlacesText query t) (λ e. ⊥) };

    fn tell(
        &self,
        alloc: Global,
        _limits: &Limits,
        query: &str,
        expr: &Expr,
    ) -> Result<String, QueryError> {
        Ok(text_of_places(alloc, query, expr)?)
    }
}

/// The name of a kind of part.
fn part_name(kind: PartKind) -> &'static str
    ensures { result.now ≡ part_name kind }
{
    match kind {
        PartKind::Name => "name",
        PartKind::Operator => "operator",
        PartKind::Selector => "selector",
        PartKind::Matcher => "matcher",
        PartKind::Label => "label",
        PartKind::GroupLabel => "groupLabel",
        PartKind::Range => "range",
        PartKind::Offset => "offset",
        PartKind::At => "at",
        PartKind::Mode => "mode",
    }
}

/// The kind of a part, and where it begins and ends, in bytes.
fn part_value(alloc: Global, part: Part) -> Result<Value, AllocError>
    ensures { IfOk result (λ v. view v ≡ part_value part) }
{
    json!(in alloc; [part_name(part.kind), part.span.start, part.span.end])
}

/// A list of the parts of a node.
fn parts_value(alloc: Global, parts: &[Part]) -> Result<Value, AllocError>
    ensures { IfOk result (λ v. view v ≡ parts_value parts.now) }
{
    let mut list = Vec::with_capacity(alloc, parts.len())?;
    for part in parts {
        list.push(part_value(alloc, *part)?)?;
    }
    Ok(Value::Array(list))
}

/// A list of the lists of the parts of nodes.
fn part_lists_value(alloc: Global, lists: &[Vec<Part>]) -> Result<Value, AllocError>
    ensures { IfOk result (λ v. view v ≡ list (map parts_value (map (λ ps. ps.items) lists.now))) }
{
    let mut list = Vec::with_capacity(alloc, lists.len())?;
    for parts in lists {
        list.push(parts_value(alloc, parts.as_slice())?)?;
    }
    Ok(Value::Array(list))
}

fn part_lists_text(alloc: Global, lists: &[Vec<Part>]) -> Result<String, AllocError>
    ensures { IfOk result (λ s. string_bytes s ≡ compact_text (list (map parts_value (map (λ ps. ps.items) lists.now)))) }
{
    let value = part_lists_value(alloc, lists)?;
    value_text(alloc, value)
}

/// The JSON of the parts of the nodes of a text's tree.
fn text_of_parts(alloc: Global, query: &str, expr: &Expr) -> Result<String, AllocError>
    ensures { IfOk result (λ s. IsAnswerTo query.now (Ok (tree_of expr.now)) → IsPartsText query.now (tree_of expr.now) (string_bytes s)) }
{
    let lists = find_parts(alloc, query, expr)?;
    part_lists_text(alloc, lists.as_slice())
}

/// `calls::parts`.
#[derive(Clone, Copy)]
pub(crate) struct PartsCall;

impl TreeCall for PartsCall {
    ghost tells = { λ call limits query t. Gives (IsPartsText query t) (λ e. ⊥) };

    fn tell(
        &self,
        alloc: Global,
        _limits: &Limits,
        query: &str,
        expr: &Expr,
    ) -> Result<String, QueryError> {
        Ok(text_of_parts(alloc, query, expr)?)
    }
}
