//! The JSON form of a tree with the places of its nodes and matchers: docs/reference/json.md, "Places".

ghost use Rattle.std.specs.Prelude.{◌≡◌, ◌≢◌, ◌∷◌, [], None, Some, Ok, Err, IfErr, IfNone, IfOk, IfSome, OnOk, codes, drop, string_bytes};
ghost use Rattle.serde_json.specs.Data.{Data, put as with_member};
ghost use Rattle.serde_json.specs.View.{members_view, view};
ghost use Rattle.promql_ast.specs.View.{aggregate_tree, binary_tree, option_tree, tree_of, trees_of};
ghost use Rattle.promql_json.specs.Json.{json, json_value};
ghost use Rattle.promql_json.specs.JsonFaults.{args_fault, json_fault, param_fault};
ghost use Rattle.promql_json.specs.JsonParts.{list};
ghost use Rattle.promql_json.specs.declared.error.JsonError.TheVariants.{Memory};
ghost use Rattle.promql_syntax.specs.ParseAnswers.{IsAnswerTo};
ghost use Rattle.promql_places.specs.PlacedForms as spec;
ghost use Rattle.promql_places.specs.PlacedForms.{IsPlacedForm};
ghost use Rattle.serde_json.specs.Written.{compact_text};
ghost use Rattle.promql_places.specs.PlacedFormSteps.{args_count, left, inner_fault, inner_count, node_count, param_count, placed_value};

use crate::matcher_places::put_matchers;
use crate::parts::Part;
use crate::placed::placed_nodes;
use promql_ast::{AggregateExpr, BinaryExpr, Expr};
use promql_json::JsonError;
use promql_span::Span;
use promql_walk::{ToJson, members_without_nodes};
use serde_json::{Map, Value, put};
use std::alloc::{AllocError, Global};

/// The places and the parts of the nodes that are left, in the order of a walk.
#[derive(Drop)]
struct NodesLeft<'a> {
    places: &'a [Span],
    parts: &'a [Vec<Part>],
}

impl<'a> NodesLeft<'a> {
    /// Those of the next node, if there is one.
    fn next(&mut self) -> Option<(Span, &'a [Part])>
        ensures some { IfSome result (λ node. left self.old ≡ (node.0, node.1.now) ∷ left self.new) }
        ensures none { IfNone result (left self.old ≡ []) }
        ensures ended { IfNone result (left self.new ≡ []) }
    {
        let [place, places @ ..] = self.places else {
            return None;
        };
        let [parts, lists @ ..] = self.parts else {
            return None;
        };
        self.places = places;
        self.parts = lists;
        Some((*place, parts.as_slice()))
    }
}

/// Puts where an object is in the text.
fn put_place(members: &mut Map<String, Value>, alloc: Global, place: Span) -> Result<(), AllocError>
    ensures { OnOk result (members_view members.new.entries
        ≡ spec.with_place place (members_view members.old.entries)) }
{
    put(members, alloc, "end", Value::from(place.end))?;
    put(members, alloc, "start", Value::from(place.start))
}

/// The object of an expression with the places of its nodes.
#[cycle(placed_form)]
#[tactic(auto, using(crate::proofs::PlacedFormSteps::from_plain, crate::proofs::PlacedFormSteps::fault_inside, crate::proofs::PlacedFormSteps::own_first, crate::proofs::PlacedFormSteps::form_is, crate::proofs::PlacedFormSteps::fault_is))]
fn node_value(alloc: Global, expr: &Expr, nodes: &mut NodesLeft<'_>) -> Result<Value, JsonError>
    ensures ok { IfOk result (λ v. view v ≡ placed_value (tree_of expr.now) (left nodes.old)) }
    ensures rest { OnOk result
        (left nodes.new ≡ drop (node_count (tree_of expr.now)) (left nodes.old)) }
    ensures fits { OnOk result (json_fault (tree_of expr.now) ≡ None) }
    ensures err { IfErr result (λ e. e ≢ Memory → json_fault (tree_of expr.now) ≡ Some e) }
{
    let Some((place, parts)) = nodes.next() else {
        return expr.to_json(alloc);
    };
    let mut members = members_without_nodes(alloc, expr)?;
    put_inside(expr, &mut members, alloc, parts, nodes)?;
    put_place(&mut members, alloc, place)?;
    Ok(Value::Object(members))
}

// A recursion is seen to end by its first parameter of a recursive type: the expression comes before the members.

/// Puts the members that hold matchers or other nodes.
#[cycle(placed_form)]
#[tactic(auto, using(promql_ast::proofs::nodes::NodeParts::tree_of_call, promql_ast::proofs::nodes::NodeParts::tree_of_extension, promql_ast::proofs::nodes::NodeParts::tree_of_aggregate))]
fn put_inside(
    expr: &Expr,
    members: &mut Map<String, Value>,
    alloc: Global,
    parts: &[Part],
    nodes: &mut NodesLeft<'_>,
) -> Result<(), JsonError>
    ensures ok { OnOk result (members_view members.new.entries
        ≡ spec.with_placed (tree_of expr.now) (spec.matcher_places parts.now) (left nodes.old)
        (members_view members.old.entries)) }
    ensures rest { OnOk result
        (left nodes.new ≡ drop (inner_count (tree_of expr.now)) (left nodes.old)) }
    ensures fits { OnOk result (inner_fault (tree_of expr.now) ≡ None) }
    ensures err { IfErr result (λ e. e ≢ Memory → inner_fault (tree_of expr.now) ≡ Some e) }
{
    match expr {
        Expr::Aggregate(e) => put_aggregated(e, members, alloc, nodes),
        Expr::Unary(e) => put_node(&e.expr, members, alloc, "expr", nodes),
        Expr::Binary(e) => put_sides(e, members, alloc, nodes),
        Expr::Paren(e) => put_node(&e.expr, members, alloc, "expr", nodes),
        Expr::Subquery(e) => put_node(&e.expr, members, alloc, "expr", nodes),
        Expr::VectorSelector(e) => Ok(put_matchers(members, alloc, &e.matchers, parts)?),
        Expr::MatrixSelector(e) => Ok(put_matchers(members, alloc, &e.vs.matchers, parts)?),
        Expr::Call(e) => put_args(e.args.args.as_slice(), members, alloc, nodes),
        Expr::NumberLiteral(_) | Expr::StringLiteral(_) => Ok(()),
        Expr::Extension(_) => Err(JsonError::Extension),
    }
}

#[cycle(placed_form)]
fn put_node(
    expr: &Expr,
    members: &mut Map<String, Value>,
    alloc: Global,
    name: &str,
    nodes: &mut NodesLeft<'_>,
) -> Result<(), JsonError>
    ensures ok { OnOk result (members_view members.new.entries
        ≡ with_member name.now (placed_value (tree_of expr.now) (left nodes.old))
        (members_view members.old.entries)) }
    ensures rest { OnOk result
        (left nodes.new ≡ drop (node_count (tree_of expr.now)) (left nodes.old)) }
    ensures fits { OnOk result (json_fault (tree_of expr.now) ≡ None) }
    ensures err { IfErr result (λ e. e ≢ Memory → json_fault (tree_of expr.now) ≡ Some e) }
{
    let value = node_value(alloc, expr, nodes)?;
    put(members, alloc, name, value)?;
    Ok(())
}

#[cycle(placed_form)]
fn param_value(
    alloc: Global,
    param: &Option<Box<Expr>>,
    nodes: &mut NodesLeft<'_>,
) -> Result<Value, JsonError>
    ensures ok { IfOk result (λ v. view v ≡ spec.placed_param (option_tree param.now) (left nodes.old)) }
    ensures rest { OnOk result
        (left nodes.new ≡ drop (param_count (option_tree param.now)) (left nodes.old)) }
    ensures fits { OnOk result (param_fault (option_tree param.now) ≡ None) }
    ensures err { IfErr result (λ e. e ≢ Memory → param_fault (option_tree param.now) ≡ Some e) }
{
    match param {
        Some(param) => node_value(alloc, param, nodes),
        None => Ok(Value::Null),
    }
}

#[cycle(placed_form)]
fn put_aggregated(
    node: &AggregateExpr,
    members: &mut Map<String, Value>,
    alloc: Global,
    nodes: &mut NodesLeft<'_>,
) -> Result<(), JsonError>
    ensures ok { OnOk result (members_view members.new.entries
        ≡ spec.with_placed (aggregate_tree node.now) [] (left nodes.old)
        (members_view members.old.entries)) }
    ensures rest { OnOk result
        (left nodes.new ≡ drop (inner_count (aggregate_tree node.now)) (left nodes.old)) }
    ensures fits { OnOk result (json_fault (aggregate_tree node.now) ≡ None) }
    ensures err { IfErr result (λ e. e ≢ Memory → json_fault (aggregate_tree node.now) ≡ Some e) }
{
    let param = param_value(alloc, &node.param, nodes)?;
    put(members, alloc, "param", param)?;
    put_node(&node.expr, members, alloc, "expr", nodes)
}

#[cycle(placed_form)]
fn put_sides(
    node: &BinaryExpr,
    members: &mut Map<String, Value>,
    alloc: Global,
    nodes: &mut NodesLeft<'_>,
) -> Result<(), JsonError>
    ensures ok { OnOk result (members_view members.new.entries
        ≡ spec.with_placed (binary_tree node.now) [] (left nodes.old)
        (members_view members.old.entries)) }
    ensures rest { OnOk result
        (left nodes.new ≡ drop (inner_count (binary_tree node.now)) (left nodes.old)) }
    ensures fits { OnOk result (json_fault (binary_tree node.now) ≡ None) }
    ensures err { IfErr result (λ e. e ≢ Memory → json_fault (binary_tree node.now) ≡ Some e) }
{
    put_node(&node.lhs, members, alloc, "lhs", nodes)?;
    put_node(&node.rhs, members, alloc, "rhs", nodes)
}

/// The objects of arguments.
#[cycle(placed_form)]
fn args_value(
    alloc: Global,
    args: &[Box<Expr>],
    nodes: &mut NodesLeft<'_>,
) -> Result<Value, JsonError>
    ensures ok { IfOk result (λ v. view v ≡ list (spec.placed_args (trees_of args.now) (left nodes.old))) }
    ensures rest { OnOk result
        (left nodes.new ≡ drop (args_count (trees_of args.now)) (left nodes.old)) }
    ensures fits { OnOk result (args_fault (trees_of args.now) ≡ None) }
    ensures err { IfErr result (λ e. e ≢ Memory → args_fault (trees_of args.now) ≡ Some e) }
{
    let mut list = Vec::with_capacity(alloc, args.len())?;
    for arg in args {
        list.push(node_value(alloc, arg, nodes)?)?;
    }
    Ok(Value::Array(list))
}

#[cycle(placed_form)]
fn put_args(
    args: &[Box<Expr>],
    members: &mut Map<String, Value>,
    alloc: Global,
    nodes: &mut NodesLeft<'_>,
) -> Result<(), JsonError>
    ensures ok { OnOk result (members_view members.new.entries
        ≡ with_member (codes "args") (list (spec.placed_args (trees_of args.now) (left nodes.old)))
        (members_view members.old.entries)) }
    ensures rest { OnOk result
        (left nodes.new ≡ drop (args_count (trees_of args.now)) (left nodes.old)) }
    ensures fits { OnOk result (args_fault (trees_of args.now) ≡ None) }
    ensures err { IfErr result (λ e. e ≢ Memory → args_fault (trees_of args.now) ≡ Some e) }
{
    let value = args_value(alloc, args, nodes)?;
    put(members, alloc, "args", value)?;
    Ok(())
}

/// The JSON form of this text's tree, where each object of a node or a matcher has its place: `start` and `end`, in bytes.
///
/// # Errors
///
/// Those of `to_json`.
pub fn placed_json(alloc: Global, text: &str, expr: &Expr) -> Result<Value, JsonError>
    ensures form { IfOk result (λ v. IsAnswerTo text.now (Ok (tree_of expr.now))
        → IsPlacedForm text.now (tree_of expr.now) (view v)) }
    ensures fits { OnOk result (json (tree_of expr.now) ≡ Ok (json_value (tree_of expr.now))) }
    ensures err { IfErr result (λ e. e ≢ Memory → json (tree_of expr.now) ≡ Err e) }
{
    let placing = placed_nodes(alloc, text, expr)?;
    let mut nodes = NodesLeft {
        places: placing.places.as_slice(),
        parts: placing.parts.as_slice(),
    };
    node_value(alloc, expr, &mut nodes)
}

/// Its text, without a space.
///
/// # Errors
///
/// Those of `to_json`.
pub fn placed_json_text(alloc: Global, text: &str, expr: &Expr) -> Result<String, JsonError>
    ensures form { IfOk result (λ s. IsAnswerTo text.now (Ok (tree_of expr.now))
        → (d : Data) × IsPlacedForm text.now (tree_of expr.now) d × (string_bytes s ≡ compact_text d)) }
    ensures fits { OnOk result (json (tree_of expr.now) ≡ Ok (json_value (tree_of expr.now))) }
    ensures err { IfErr result (λ e. e ≢ Memory → json (tree_of expr.now) ≡ Err e) }
{
    let value = placed_json(alloc, text, expr)?;
    let text = value.to_string(alloc);
    drop(value);
    Ok(text?)
}
