//! The text of the JSON form of a tree, without a value of it: docs/reference/json.md, "Text".

ghost use Rattle.std.specs.Prelude.{◌≡◌, ◌≢◌, [], ◌∷◌, ◌++◌, None, Ok, Err, IfErr, IfOk, OnOk, codes, option_map, string_bytes};
ghost use Rattle.std.specs.Duration.{as_nanos};
ghost use Rattle.json.specs.Token as token;
ghost use Rattle.serde_json.specs.Data.{Data};
ghost use Rattle.serde_json.specs.Written.{compact_text};
ghost use Rattle.promql_kind.specs.ModifierViews.{clause_of};
ghost use Rattle.promql_ast.specs.Shifts.{moment_of, shift_of};
ghost use Rattle.promql_ast.specs.Tree.{number, string};
ghost use Rattle.promql_ast.specs.View.{aggregate_tree, binary_tree, call_tree, matrix_tree, option_tree, paren_tree, selector_of, subquery_tree, tree_of, trees_of, unary_tree, vector_tree};
ghost use Rattle.promql_json.specs.Json as spec;
ghost use Rattle.promql_json.specs.FormNames.{optional_labels, selector_fault, token_json};
ghost use Rattle.promql_json.specs.JsonFaults.{args_fault, json_fault, param_fault};
ghost use Rattle.promql_json.specs.JsonParts.{labels_json};
ghost use Rattle.promql_json.specs.JsonTokens.{begin_of, end_of_subquery, member, param_tokens, rest_of_args, tree_tokens};
ghost use Rattle.promql_json.specs.declared.error.JsonError.TheVariants.{Memory};

use crate::check::check_expr;
use crate::error::JsonError;
use crate::parts::{
    end_aggregate, write_at, write_clause, write_function, write_group, write_groups,
    write_matching, write_mode, write_name, write_number, write_offset, write_op,
    write_start_or_end, write_step, write_timestamp,
};
use crate::writer::JsonWriter;
use promql_ast::{
    AggregateExpr, BinaryExpr, Call, Expr, MatrixSelector, NumberLiteral, ParenExpr, StringLiteral,
    SubqueryExpr, UnaryExpr, VectorSelector,
};
use promql_kind::LabelModifier;
use promql_token::TokenType;
use std::alloc::{AllocError, Global};

/// The text of the expression's JSON form, without a space: what `to_string` of the value that `to_json` returns gives,
/// without making that value.
///
/// # Errors
///
/// Those of `to_json`: `NumberTooWide` where a number of milliseconds is below -2^63 or above 2^64 - 1, and `Extension`
/// where there is an extension: of these the one that a walk comes to first. `Memory` where an allocation failed.
pub fn json_text(alloc: Global, expr: &Expr) -> Result<String, JsonError>
    ensures ok { IfOk result (λ s. (d : Data) × (spec.json (tree_of expr.now) ≡ Ok d)
        × (string_bytes s ≡ compact_text d)) }
    ensures err { IfErr result (λ e. e ≢ Memory → spec.json (tree_of expr.now) ≡ Err e) }
{
    check_expr(expr)?;
    let mut out = JsonWriter::new(alloc);
    write_expr(&mut out, alloc, expr)?;
    Ok(out.into_string())
}

fn write_number_literal(
    out: &mut JsonWriter,
    alloc: Global,
    node: &NumberLiteral,
) -> Result<(), AllocError>
    ensures { OnOk result (out.new ≡ out.old ++ tree_tokens (number node.now.val)) }
{
    out.begin_object()?;
    out.string_member("type", "numberLiteral")?;
    write_number(out, alloc, "val", &node.val)?;
    out.end_object()
}

fn write_string_literal(out: &mut JsonWriter, node: &StringLiteral) -> Result<(), AllocError>
    ensures { OnOk result (out.new ≡ out.old ++ tree_tokens (string (string_bytes node.now.val))) }
{
    out.begin_object()?;
    out.string_member("type", "stringLiteral")?;
    out.string_member("val", node.val.as_str())?;
    out.end_object()
}

/// The keys of a selector up to `or_matchers`.
fn begin_selector(out: &mut JsonWriter, node: &VectorSelector) -> Result<(), AllocError>
    requires { selector_fault (selector_of node.now) ≡ None }
    ensures { OnOk result (out.new ≡ out.old ++ begin_of (selector_of node.now)) }
{
    out.begin_with("matchers")?;
    write_group(out, &node.matchers.matchers)?;
    write_name(out, &node.name)?;
    write_offset(out, node.offset)?;
    write_groups(out, &node.matchers.or_matchers)
}

fn write_selector(out: &mut JsonWriter, node: &VectorSelector) -> Result<(), AllocError>
    requires { json_fault (vector_tree node.now) ≡ None }
    ensures { OnOk result (out.new ≡ out.old ++ tree_tokens (vector_tree node.now)) }
{
    begin_selector(out, node)?;
    write_at(out, node.at)?;
    out.end_node("vectorSelector")
}

#[tactic(auto, using(crate::proofs::JsonTokens::no_fault_in))]
fn write_matrix(out: &mut JsonWriter, node: &MatrixSelector) -> Result<(), AllocError>
    requires { json_fault (matrix_tree node.now) ≡ None }
    ensures { OnOk result (out.new ≡ out.old ++ tree_tokens (matrix_tree node.now)) }
{
    begin_selector(out, &node.vs)?;
    out.whole_member("range", node.range.as_millis() as i128)?;
    write_mode(out, node.mode)?;
    write_at(out, node.vs.at)?;
    out.end_node("matrixSelector")
}

/// The keys of an aggregation from `grouping` to `param`.
fn write_grouping(
    out: &mut JsonWriter,
    clause: &Option<LabelModifier>,
    op: TokenType,
) -> Result<(), AllocError>
    ensures { OnOk result (out.new ≡ out.old ++ (member (codes "grouping")
        (labels_json (optional_labels (option_map clause_of clause.now)))
        ++ (member (codes "op") (token_json op) ++ token.key (codes "param") ∷ []))) }
{
    write_clause(out, "grouping", clause)?;
    write_op(out, op)?;
    out.key("param")
}

#[cycle(text)]
#[tactic(auto, using(crate::proofs::JsonTokens::no_fault_in))]
fn write_aggregate(
    out: &mut JsonWriter,
    alloc: Global,
    node: &AggregateExpr,
) -> Result<(), AllocError>
    requires { json_fault (aggregate_tree node.now) ≡ None }
    ensures { OnOk result (out.new ≡ out.old ++ tree_tokens (aggregate_tree node.now)) }
{
    out.begin_with("expr")?;
    write_expr(out, alloc, &node.expr)?;
    write_grouping(out, &node.modifier, node.op)?;
    write_param(out, alloc, &node.param)?;
    end_aggregate(out, &node.modifier)
}

#[cycle(text)]
fn write_param(
    out: &mut JsonWriter,
    alloc: Global,
    param: &Option<Box<Expr>>,
) -> Result<(), AllocError>
    requires { param_fault (option_tree param.now) ≡ None }
    ensures { OnOk result (out.new ≡ out.old ++ param_tokens (option_tree param.now)) }
{
    match param {
        Some(param) => write_expr(out, alloc, param),
        None => out.null(),
    }
}

#[cycle(text)]
fn write_unary(out: &mut JsonWriter, alloc: Global, node: &UnaryExpr) -> Result<(), AllocError>
    requires { json_fault (unary_tree node.now) ≡ None }
    ensures { OnOk result (out.new ≡ out.old ++ tree_tokens (unary_tree node.now)) }
{
    out.begin_with("expr")?;
    write_expr(out, alloc, &node.expr)?;
    out.string_member("op", "-")?;
    out.end_node("unaryExpr")
}

#[cycle(text)]
#[tactic(auto, using(crate::proofs::JsonTokens::no_fault_in))]
fn write_binary(out: &mut JsonWriter, alloc: Global, node: &BinaryExpr) -> Result<(), AllocError>
    requires { json_fault (binary_tree node.now) ≡ None }
    ensures { OnOk result (out.new ≡ out.old ++ tree_tokens (binary_tree node.now)) }
{
    out.begin_object()?;
    out.bool_member("bool", node.return_bool())?;
    out.key("lhs")?;
    write_expr(out, alloc, &node.lhs)?;
    write_matching(out, alloc, &node.modifier)?;
    write_op(out, node.op)?;
    out.key("rhs")?;
    write_expr(out, alloc, &node.rhs)?;
    out.end_node("binaryExpr")
}

#[cycle(text)]
fn write_paren(out: &mut JsonWriter, alloc: Global, node: &ParenExpr) -> Result<(), AllocError>
    requires { json_fault (paren_tree node.now) ≡ None }
    ensures { OnOk result (out.new ≡ out.old ++ tree_tokens (paren_tree node.now)) }
{
    out.begin_with("expr")?;
    write_expr(out, alloc, &node.expr)?;
    out.end_node("parenExpr")
}

/// The keys of a subquery after `expr`, and the end.
#[tactic(auto, using(crate::proofs::JsonTokens::no_fault_in))]
fn end_subquery(out: &mut JsonWriter, node: &SubqueryExpr) -> Result<(), AllocError>
    requires { spec.own_fault (subquery_tree node.now) ≡ None }
    ensures { OnOk result (out.new ≡ out.old ++ end_of_subquery (option_map shift_of node.now.offset)
        (option_map moment_of node.now.at) (as_nanos node.now.range)
        (option_map as_nanos node.now.step)) }
{
    write_offset(out, node.offset)?;
    out.whole_member("range", node.range.as_millis() as i128)?;
    write_start_or_end(out, node.at)?;
    write_step(out, node.step)?;
    write_timestamp(out, node.at)?;
    out.end_node("subquery")
}

#[cycle(text)]
#[tactic(auto, using(crate::proofs::JsonTokens::no_fault_in))]
fn write_subquery(
    out: &mut JsonWriter,
    alloc: Global,
    node: &SubqueryExpr,
) -> Result<(), AllocError>
    requires { json_fault (subquery_tree node.now) ≡ None }
    ensures { OnOk result (out.new ≡ out.old ++ tree_tokens (subquery_tree node.now)) }
{
    out.begin_with("expr")?;
    write_expr(out, alloc, &node.expr)?;
    end_subquery(out, node)
}

#[cycle(text)]
fn write_call(out: &mut JsonWriter, alloc: Global, node: &Call) -> Result<(), AllocError>
    requires { json_fault (call_tree node.now) ≡ None }
    ensures { OnOk result (out.new ≡ out.old ++ tree_tokens (call_tree node.now)) }
{
    out.begin_with("args")?;
    write_args(out, alloc, node.args.args.as_slice())?;
    write_function(out, &node.func)?;
    out.end_node("call")
}

#[cycle(text)]
#[tactic(auto, using(crate::proofs::JsonTokens::no_fault_in))]
fn write_args(out: &mut JsonWriter, alloc: Global, args: &[Box<Expr>]) -> Result<(), AllocError>
    requires { args_fault (trees_of args.now) ≡ None }
    ensures { OnOk result (out.new
        ≡ out.old ++ token.begin_array ∷ rest_of_args (trees_of args.now)) }
{
    out.begin_array()?;
    for arg in args {
        write_expr(out, alloc, arg)?;
    }
    out.end_array()
}

#[cycle(text)]
#[tactic(auto, using(promql_ast::proofs::nodes::NodeParts::tree_of_call, promql_ast::proofs::nodes::NodeParts::tree_of_extension, promql_ast::proofs::nodes::NodeParts::tree_of_aggregate))]
fn write_expr(out: &mut JsonWriter, alloc: Global, expr: &Expr) -> Result<(), AllocError>
    requires { json_fault (tree_of expr.now) ≡ None }
    ensures { OnOk result (out.new ≡ out.old ++ tree_tokens (tree_of expr.now)) }
{
    match expr {
        Expr::Aggregate(e) => write_aggregate(out, alloc, e),
        Expr::Unary(e) => write_unary(out, alloc, e),
        Expr::Binary(e) => write_binary(out, alloc, e),
        Expr::Paren(e) => write_paren(out, alloc, e),
        Expr::Subquery(e) => write_subquery(out, alloc, e),
        Expr::NumberLiteral(e) => write_number_literal(out, alloc, e),
        Expr::StringLiteral(e) => write_string_literal(out, e),
        Expr::VectorSelector(e) => write_selector(out, e),
        Expr::MatrixSelector(e) => write_matrix(out, e),
        Expr::Call(e) => write_call(out, alloc, e),
        Expr::Extension(_) => unreachable!(),
    }
}
