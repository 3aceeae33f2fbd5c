//! The JSON form of nodes: docs/reference/json.md, "Nodes".

ghost use Rattle.std.specs.Prelude.{◌≡◌, ◌≢◌, None, Some, IfErr, IfOk, codes, string_bytes};
ghost use Rattle.serde_json.specs.Data.{no_members, object, put as with_member, string as text};
ghost use Rattle.serde_json.specs.View.{items_view, members_view, view};
ghost use Rattle.promql_ast.specs.Tree.{number, string};
ghost use Rattle.promql_ast.specs.View.{aggregate_tree, binary_tree, call_tree, matrix_tree, option_tree, paren_tree, selector_of, subquery_tree, tree_of, trees_of, unary_tree};
ghost use Rattle.promql_json.specs.Json.{args_items, json_value, own_fault, param_json as param_value, selector_members as selector_parts};
ghost use Rattle.promql_json.specs.FormNames.{node_members, selector_fault};
ghost use Rattle.promql_json.specs.JsonFaults.{args_fault, args_members as args_parts, json_fault, param_fault};
ghost use Rattle.promql_json.specs.declared.error.JsonError.TheVariants.{Memory};
ghost use Rattle.promql_walk.specs.PlainMembers.{plain_members, typed_members};

use crate::json_parts::{
    function_json, group_json, length_json, modifier_json, name_json, number_json,
    optional_labels_json, put_groups, put_mode, start_or_end_json, step_json, timestamp_json,
    token_type_json, whole_json,
};
use promql_ast::{
    AggregateExpr, BinaryExpr, Call, Expr, FunctionArgs, MatrixSelector, NumberLiteral, ParenExpr,
    StringLiteral, SubqueryExpr, UnaryExpr, VectorSelector,
};
use promql_json::{JsonError, is_without, offset_millis};
use serde_json::{Map, Value, put};
use std::alloc::{AllocError, Global};

// Each function gives the members of a node's object, without `type`.

pub(crate) fn number_members(
    alloc: Global,
    node: &NumberLiteral,
) -> Result<Map<String, Value>, AllocError>
    ensures { IfOk result (λ m. members_view m.entries ≡ node_members (number node.now.val)) }
{
    let mut members = Map::new(alloc);
    put(&mut members, alloc, "val", number_json(alloc, &node.val)?)?;
    Ok(members)
}

pub(crate) fn string_members(
    alloc: Global,
    node: &StringLiteral,
) -> Result<Map<String, Value>, AllocError>
    ensures { IfOk result
        (λ m. members_view m.entries ≡ node_members (string (string_bytes node.now.val))) }
{
    let mut members = Map::new(alloc);
    put(
        &mut members,
        alloc,
        "val",
        Value::try_from_str(alloc, node.val.as_str())?,
    )?;
    Ok(members)
}

pub(crate) fn selector_members(
    alloc: Global,
    node: &VectorSelector,
) -> Result<Map<String, Value>, JsonError>
    ensures ok { IfOk result (λ m. members_view m.entries ≡ selector_parts (selector_of node.now)) }
    ensures fits { IfOk result (λ _. selector_fault (selector_of node.now) ≡ None) }
    ensures err { IfErr result (λ e. e ≢ Memory → selector_fault (selector_of node.now) ≡ Some e) }
{
    let mut members = Map::new(alloc);
    put(&mut members, alloc, "name", name_json(alloc, &node.name)?)?;
    put(
        &mut members,
        alloc,
        "matchers",
        group_json(alloc, &node.matchers.matchers)?,
    )?;
    put(
        &mut members,
        alloc,
        "offset",
        whole_json(offset_millis(node.offset))?,
    )?;
    put(
        &mut members,
        alloc,
        "startOrEnd",
        start_or_end_json(alloc, node.at)?,
    )?;
    put(&mut members, alloc, "timestamp", timestamp_json(node.at))?;
    put_groups(&mut members, alloc, &node.matchers.or_matchers)?;
    Ok(members)
}

pub(crate) fn matrix_members(
    alloc: Global,
    node: &MatrixSelector,
) -> Result<Map<String, Value>, JsonError>
    ensures ok { IfOk result (λ m. members_view m.entries ≡ node_members (matrix_tree node.now)) }
    ensures fits { IfOk result (λ _. json_fault (matrix_tree node.now) ≡ None) }
    ensures err { IfErr result (λ e. e ≢ Memory → json_fault (matrix_tree node.now) ≡ Some e) }
{
    let mut members = selector_members(alloc, &node.vs)?;
    put(&mut members, alloc, "range", length_json(node.range)?)?;
    put_mode(&mut members, alloc, node.mode)?;
    Ok(members)
}

/// Those that hold no nodes.
fn aggregate_parts(alloc: Global, node: &AggregateExpr) -> Result<Map<String, Value>, AllocError>
    ensures { IfOk result (λ m. members_view m.entries ≡ plain_members (aggregate_tree node.now)) }
{
    let mut members = Map::new(alloc);
    put(&mut members, alloc, "op", token_type_json(alloc, node.op)?)?;
    put(
        &mut members,
        alloc,
        "grouping",
        optional_labels_json(alloc, &node.modifier)?,
    )?;
    put(
        &mut members,
        alloc,
        "without",
        Value::Bool(is_without(&node.modifier)),
    )?;
    Ok(members)
}

#[cycle(json)]
pub(crate) fn aggregate_members(
    alloc: Global,
    node: &AggregateExpr,
) -> Result<Map<String, Value>, JsonError>
    ensures ok { IfOk result (λ m. members_view m.entries
        ≡ node_members (aggregate_tree node.now)) }
    ensures fits { IfOk result (λ _. json_fault (aggregate_tree node.now) ≡ None) }
    ensures err { IfErr result (λ e. e ≢ Memory → json_fault (aggregate_tree node.now) ≡ Some e) }
{
    let mut members = aggregate_parts(alloc, node)?;
    put(
        &mut members,
        alloc,
        "param",
        param_json(alloc, &node.param)?,
    )?;
    put(&mut members, alloc, "expr", expr_json(alloc, &node.expr)?)?;
    Ok(members)
}

#[cycle(json)]
fn param_json(alloc: Global, param: &Option<Box<Expr>>) -> Result<Value, JsonError>
    ensures ok { IfOk result (λ v. view v ≡ param_value (option_tree param.now)) }
    ensures fits { IfOk result (λ _. param_fault (option_tree param.now) ≡ None) }
    ensures err { IfErr result (λ e. e ≢ Memory → param_fault (option_tree param.now) ≡ Some e) }
{
    match param {
        Some(param) => expr_json(alloc, param),
        None => Ok(Value::Null),
    }
}

/// That of a unary expression that holds no node.
fn unary_parts(alloc: Global) -> Result<Map<String, Value>, AllocError>
    ensures { IfOk result (λ m. members_view m.entries ≡ with_member (codes "op") (text (codes "-")) no_members) }
{
    let mut members = Map::new(alloc);
    put(&mut members, alloc, "op", Value::try_from_str(alloc, "-")?)?;
    Ok(members)
}

#[cycle(json)]
pub(crate) fn unary_members(
    alloc: Global,
    node: &UnaryExpr,
) -> Result<Map<String, Value>, JsonError>
    ensures ok { IfOk result (λ m. members_view m.entries ≡ node_members (unary_tree node.now)) }
    ensures fits { IfOk result (λ _. json_fault (unary_tree node.now) ≡ None) }
    ensures err { IfErr result (λ e. e ≢ Memory → json_fault (unary_tree node.now) ≡ Some e) }
{
    let mut members = unary_parts(alloc)?;
    put(&mut members, alloc, "expr", expr_json(alloc, &node.expr)?)?;
    Ok(members)
}

/// Those that hold no nodes.
fn binary_parts(alloc: Global, node: &BinaryExpr) -> Result<Map<String, Value>, AllocError>
    ensures { IfOk result (λ m. members_view m.entries ≡ plain_members (binary_tree node.now)) }
{
    let mut members = Map::new(alloc);
    put(&mut members, alloc, "op", token_type_json(alloc, node.op)?)?;
    put(&mut members, alloc, "bool", Value::Bool(node.return_bool()))?;
    put(
        &mut members,
        alloc,
        "matching",
        modifier_json(alloc, &node.modifier)?,
    )?;
    Ok(members)
}

#[cycle(json)]
pub(crate) fn binary_members(
    alloc: Global,
    node: &BinaryExpr,
) -> Result<Map<String, Value>, JsonError>
    ensures ok { IfOk result (λ m. members_view m.entries ≡ node_members (binary_tree node.now)) }
    ensures fits { IfOk result (λ _. json_fault (binary_tree node.now) ≡ None) }
    ensures err { IfErr result (λ e. e ≢ Memory → json_fault (binary_tree node.now) ≡ Some e) }
{
    let mut members = binary_parts(alloc, node)?;
    put(&mut members, alloc, "lhs", expr_json(alloc, &node.lhs)?)?;
    put(&mut members, alloc, "rhs", expr_json(alloc, &node.rhs)?)?;
    Ok(members)
}

#[cycle(json)]
pub(crate) fn paren_members(
    alloc: Global,
    node: &ParenExpr,
) -> Result<Map<String, Value>, JsonError>
    ensures ok { IfOk result (λ m. members_view m.entries ≡ node_members (paren_tree node.now)) }
    ensures fits { IfOk result (λ _. json_fault (paren_tree node.now) ≡ None) }
    ensures err { IfErr result (λ e. e ≢ Memory → json_fault (paren_tree node.now) ≡ Some e) }
{
    let mut members = Map::new(alloc);
    put(&mut members, alloc, "expr", expr_json(alloc, &node.expr)?)?;
    Ok(members)
}

/// Those that hold no nodes.
fn subquery_parts(alloc: Global, node: &SubqueryExpr) -> Result<Map<String, Value>, JsonError>
    ensures ok { IfOk result (λ m. members_view m.entries ≡ plain_members (subquery_tree node.now)) }
    ensures fits { IfOk result (λ _. own_fault (subquery_tree node.now) ≡ None) }
    ensures err { IfErr result (λ e. e ≢ Memory → own_fault (subquery_tree node.now) ≡ Some e) }
{
    let mut members = Map::new(alloc);
    put(
        &mut members,
        alloc,
        "offset",
        whole_json(offset_millis(node.offset))?,
    )?;
    put(
        &mut members,
        alloc,
        "startOrEnd",
        start_or_end_json(alloc, node.at)?,
    )?;
    put(&mut members, alloc, "timestamp", timestamp_json(node.at))?;
    put(&mut members, alloc, "range", length_json(node.range)?)?;
    put(&mut members, alloc, "step", step_json(node.step)?)?;
    Ok(members)
}

#[cycle(json)]
pub(crate) fn subquery_members(
    alloc: Global,
    node: &SubqueryExpr,
) -> Result<Map<String, Value>, JsonError>
    ensures ok { IfOk result (λ m. members_view m.entries ≡ node_members (subquery_tree node.now)) }
    ensures fits { IfOk result (λ _. json_fault (subquery_tree node.now) ≡ None) }
    ensures err { IfErr result (λ e. e ≢ Memory → json_fault (subquery_tree node.now) ≡ Some e) }
{
    let mut members = subquery_parts(alloc, node)?;
    put(&mut members, alloc, "expr", expr_json(alloc, &node.expr)?)?;
    Ok(members)
}

/// That of a call that holds no nodes.
fn call_parts(alloc: Global, node: &Call) -> Result<Map<String, Value>, AllocError>
    ensures { IfOk result (λ m. members_view m.entries ≡ plain_members (call_tree node.now)) }
{
    let mut members = Map::new(alloc);
    put(
        &mut members,
        alloc,
        "func",
        function_json(alloc, &node.func)?,
    )?;
    Ok(members)
}

#[cycle(json)]
pub(crate) fn call_members(alloc: Global, node: &Call) -> Result<Map<String, Value>, JsonError>
    ensures ok { IfOk result (λ m. members_view m.entries ≡ node_members (call_tree node.now)) }
    ensures fits { IfOk result (λ _. json_fault (call_tree node.now) ≡ None) }
    ensures err { IfErr result (λ e. e ≢ Memory → json_fault (call_tree node.now) ≡ Some e) }
{
    let mut members = call_parts(alloc, node)?;
    let args = args_json(alloc, node.args.args.as_slice())?;
    put(&mut members, alloc, "args", Value::Array(args))?;
    Ok(members)
}

#[cycle(json)]
fn args_json(alloc: Global, args: &[Box<Expr>]) -> Result<Vec<Value>, JsonError>
    ensures ok { IfOk result (λ v. items_view v.items ≡ args_items (trees_of args.now)) }
    ensures fits { IfOk result (λ _. args_fault (trees_of args.now) ≡ None) }
    ensures err { IfErr result (λ e. e ≢ Memory → args_fault (trees_of args.now) ≡ Some e) }
{
    let mut list = Vec::with_capacity(alloc, args.len())?;
    for arg in args {
        list.push(expr_json(alloc, arg)?)?;
    }
    Ok(list)
}

/// The members of the object of arguments by themselves.
pub(crate) fn args_members(
    alloc: Global,
    args: &FunctionArgs,
) -> Result<Map<String, Value>, JsonError>
    ensures ok { IfOk result
        (λ m. members_view m.entries ≡ args_parts (trees_of args.now.args.items)) }
    ensures fits { IfOk result (λ _. args_fault (trees_of args.now.args.items) ≡ None) }
    ensures err { IfErr result (λ e. e ≢ Memory
        → args_fault (trees_of args.now.args.items) ≡ Some e) }
{
    let args = args_json(alloc, args.args.as_slice())?;
    let mut members = Map::new(alloc);
    put(&mut members, alloc, "args", Value::Array(args))?;
    Ok(members)
}

/// A node's members, and its `type`.
fn typed(
    alloc: Global,
    type_name: &str,
    members: Map<String, Value>,
) -> Result<Map<String, Value>, JsonError>
    ensures ok { IfOk result (λ m. members_view m.entries
        ≡ with_member (codes "type") (text type_name.now) (members_view members.entries)) }
    ensures err { IfErr result (λ e. e ≡ Memory) }
{
    let mut members = members;
    put(
        &mut members,
        alloc,
        "type",
        Value::try_from_str(alloc, type_name)?,
    )?;
    Ok(members)
}

/// A node's object.
fn with_type(
    alloc: Global,
    type_name: &str,
    members: Map<String, Value>,
) -> Result<Value, JsonError>
    ensures ok { IfOk result (λ v. view v
        ≡ object (with_member (codes "type") (text type_name.now) (members_view members.entries))) }
    ensures err { IfErr result (λ e. e ≡ Memory) }
{
    Ok(Value::Object(typed(alloc, type_name, members)?))
}

/// The object of an expression.
#[cycle(json)]
#[tactic(auto, using(promql_ast::proofs::nodes::NodeParts::tree_of_call, promql_ast::proofs::nodes::NodeParts::tree_of_extension, promql_ast::proofs::nodes::NodeParts::tree_of_aggregate))]
pub(crate) fn expr_json(alloc: Global, expr: &Expr) -> Result<Value, JsonError>
    ensures ok { IfOk result (λ v. view v ≡ json_value (tree_of expr.now)) }
    ensures fits { IfOk result (λ _. json_fault (tree_of expr.now) ≡ None) }
    ensures err { IfErr result (λ e. e ≢ Memory → json_fault (tree_of expr.now) ≡ Some e) }
{
    match expr {
        Expr::Aggregate(e) => with_type(alloc, "aggregation", aggregate_members(alloc, e)?),
        Expr::Unary(e) => with_type(alloc, "unaryExpr", unary_members(alloc, e)?),
        Expr::Binary(e) => with_type(alloc, "binaryExpr", binary_members(alloc, e)?),
        Expr::Paren(e) => with_type(alloc, "parenExpr", paren_members(alloc, e)?),
        Expr::Subquery(e) => with_type(alloc, "subquery", subquery_members(alloc, e)?),
        Expr::NumberLiteral(e) => with_type(alloc, "numberLiteral", number_members(alloc, e)?),
        Expr::StringLiteral(e) => with_type(alloc, "stringLiteral", string_members(alloc, e)?),
        Expr::VectorSelector(e) => {
            with_type(alloc, "vectorSelector", selector_members(alloc, e)?)
        }
        Expr::MatrixSelector(e) => { with_type(alloc, "matrixSelector", matrix_members(alloc, e)?) }
        Expr::Call(e) => with_type(alloc, "call", call_members(alloc, e)?),
        Expr::Extension(_) => Err(JsonError::Extension),
    }
}

/// The members of an expression's object that hold no nodes, and its `type`: what a caller begins with that makes the objects of the nodes
/// below by itself.
///
/// # Errors
///
/// `NumberTooWide` where a number of milliseconds of the node itself has no form, and `Extension` where it is an extension. `Memory`
/// where an allocation failed.
#[tactic(auto, using(promql_ast::proofs::nodes::NodeParts::tree_of_call, promql_ast::proofs::nodes::NodeParts::tree_of_extension, promql_ast::proofs::nodes::NodeParts::tree_of_aggregate))]
pub fn members_without_nodes(alloc: Global, expr: &Expr) -> Result<Map<String, Value>, JsonError>
    ensures ok { IfOk result (λ m. members_view m.entries ≡ typed_members (tree_of expr.now)) }
    ensures fits { IfOk result (λ _. own_fault (tree_of expr.now) ≡ None) }
    ensures err { IfErr result (λ e. e ≢ Memory → own_fault (tree_of expr.now) ≡ Some e) }
{
    match expr {
        Expr::Aggregate(e) => typed(alloc, "aggregation", aggregate_parts(alloc, e)?),
        Expr::Unary(_) => typed(alloc, "unaryExpr", unary_parts(alloc)?),
        Expr::Binary(e) => typed(alloc, "binaryExpr", binary_parts(alloc, e)?),
        Expr::Paren(_) => typed(alloc, "parenExpr", Map::new(alloc)),
        Expr::Subquery(e) => typed(alloc, "subquery", subquery_parts(alloc, e)?),
        Expr::NumberLiteral(e) => typed(alloc, "numberLiteral", number_members(alloc, e)?),
        Expr::StringLiteral(e) => typed(alloc, "stringLiteral", string_members(alloc, e)?),
        Expr::VectorSelector(e) => typed(alloc, "vectorSelector", selector_members(alloc, e)?),
        Expr::MatrixSelector(e) => typed(alloc, "matrixSelector", matrix_members(alloc, e)?),
        Expr::Call(e) => typed(alloc, "call", call_parts(alloc, e)?),
        Expr::Extension(_) => Err(JsonError::Extension),
    }
}
