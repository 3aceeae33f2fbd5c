//! From the JSON form to a tree: docs/reference/json.md, "From JSON to a tree".

ghost use Rattle.std.specs.Prelude.{◌≡◌, ◌≢◌, ◌+◌, ℕ, true, None, Ok, Option, Some, IfErr, IfOk, codes, option_map, string_bytes};
ghost use Rattle.std.specs.Duration.{as_nanos};
ghost use Rattle.std.specs.Option.{option_or};
ghost use Rattle.serde_json.specs.Data.{Data, array, object};
ghost use Rattle.serde_json.specs.Find.{get};
ghost use Rattle.serde_json.specs.Read.{read as read_text};
ghost use Rattle.serde_json.specs.View.{items_view, members_view, view};
ghost use Rattle.promql_text.specs.Texts.{Text};
ghost use Rattle.promql_text.specs.Values.{IsNumber};
ghost use Rattle.promql_text.specs.declared.number.Number.{Number as AnyNumber};
ghost use Rattle.promql_token.specs.Ids.{is_one_of};
ghost use Rattle.promql_kind.specs.Functions.{Signature, function_named, name_of};
ghost use Rattle.promql_kind.specs.Modifiers.{Clause, Matching};
ghost use Rattle.promql_ast.specs.Shifts.{Moment, Shift, moment_of, shift_of};
ghost use Rattle.promql_ast.specs.Tree.{MaybeTree, Tree, Trees, aggregate, binary, call, number, paren, string, subquery, unary};
ghost use Rattle.promql_ast.specs.View.{aggregate_tree, binary_tree, call_tree, option_tree, paren_tree, subquery_tree, tree_of, trees_of, unary_tree};
ghost use Rattle.promql_from_json.specs.FormMembers.{aggregate_members, binary_members, subquery_members};
ghost use Rattle.promql_json.specs.Json.{args_items, json, json_value, param_json, width_fault};
ghost use Rattle.promql_json.specs.FormNames.{step_fault, type_name};
ghost use Rattle.promql_json.specs.JsonParts.{millis, shift_millis};
ghost use Rattle.promql_from_json.specs.Readable.{IsNoForm, ReadableMoment};
ghost use Rattle.promql_from_json.specs.ReadableBelow.{AllReadableBelow, MaybeReadableBelow, ReadableBelow, ReadableMatching};
ghost use Rattle.promql_from_json.specs.declared.read_values.TheConstants.{AGGREGATORS as AGGREGATOR_IDS, OPERATORS as OPERATOR_IDS};
ghost use Rattle.promql_json.specs.JsonFaults.{args_fault, json_fault, param_fault};
ghost use Rattle.promql_from_json.specs.FormFaults.{node as node_faults};
ghost use Rattle.promql_from_json.specs.FormMisfits.{AsksOf, Form, list_of, node as node_form, node_named};
ghost use Rattle.promql_from_json.specs.MembersLeft.{IsIn, IsTypeIn, IsTyped};
ghost use Rattle.promql_from_json.specs.declared.from_error.Expected.TheVariants.{List as ListThere};
ghost use Rattle.promql_from_json.specs.declared.from_error.FromJsonError.TheVariants as surface;
ghost use Rattle.promql_from_json.specs.declared.from_error.Misfit.{Misfit as Fault};
ghost use Rattle.promql_from_json.specs.declared.from_error.ReadError.{ReadError as Fails};
ghost use Rattle.promql_from_json.specs.declared.from_error.ReadError.TheVariants.{Memory};

use crate::fields::Fields;
use crate::from_error::{Expected, FromJsonError, ReadError, member};
use crate::read_labels::read_label;
use crate::read_modifiers::{read_function, read_grouping, read_matching};
use crate::read_selectors::{read_at, read_matrix, read_vector};
use crate::read_values::{
    AGGREGATORS, OPERATORS, expect_text, read_flag, read_id, read_length, read_list, read_number,
    read_object, read_offset, read_step,
};
use promql_ast::{
    AggregateExpr, AtModifier, BinaryExpr, Call, Expr, FunctionArgs, NumberLiteral, Offset,
    ParenExpr, StringLiteral, SubqueryExpr, UnaryExpr,
};
use promql_token::TokenType;
use serde_json::{Category, Map, Value};
use std::alloc::Global;
use std::time::Duration;

/// The most nodes above one another.
const MAX_HEIGHT: usize = 512;

/// The expression whose JSON form a value is.
///
/// The order of members is free. A function is one of the table. An offset of 0 is none, and a modifier or a clause that a form
/// doesn't tell from none is none (docs/reference/json.md, "From JSON to a tree").
///
/// # Errors
///
/// `Misfit` where the value is no such form, with the first place at fault; `Memory` where an allocation failed.
#[tactic(auto, using(crate::proofs::ReadForms::has_form))]
pub fn from_json(alloc: Global, value: &Value) -> Result<Expr, FromJsonError>
    ensures ok { IfOk result (λ e. json (tree_of e) ≡ Ok (view value.now)) }
    ensures err { IfErr result (λ e. e ≢ surface.Memory → IsNoForm (view value.now)) }
    ensures kind { IfErr result (λ e. e ≢ surface.NotJson) }
    ensures place { IfErr result (λ e. (m : Fault) → e ≡ surface.Misfit m
        → node_faults 512 (Some (view value.now)) (string_bytes m.path) m.expected) }
{
    Ok(read_expr(alloc, value, MAX_HEIGHT)?)
}

/// The expression whose JSON form a text is: `from_json` of the value of the text.
///
/// # Errors
///
/// `NotJson` where the text is not JSON, or has arrays and objects more than 127 deep in one another; else those of `from_json`.
pub fn from_json_text(alloc: Global, text: &str) -> Result<Expr, FromJsonError>
    ensures ok { IfOk result (λ e. (d : Data) × (read_text text.now ≡ Some d) × (json (tree_of e) ≡ Ok d)) }
    ensures misfit { IfErr result (λ e. e ≢ surface.Memory → e ≢ surface.NotJson
        → (d : Data) × (read_text text.now ≡ Some d) × IsNoForm d) }
    ensures not_json { IfErr result (λ e. e ≡ surface.NotJson → read_text text.now ≡ None) }
    ensures place { IfErr result (λ e. (m : Fault) → e ≡ surface.Misfit m
        → (d : Data) × (read_text text.now ≡ Some d) × node_faults 512 (Some d) (string_bytes m.path) m.expected) }
{
    match Value::from_str(alloc, text) {
        Ok(value) => from_json(alloc, &value),
        Err(error) => match error.classify() {
            Category::Memory => Err(FromJsonError::Memory),
            _ => Err(FromJsonError::NotJson),
        },
    }
}

/// The operand of a node, which is the member of this name.
#[cycle(read)]
fn read_child(
    alloc: Global,
    name: &str,
    value: &Value,
    depth: usize,
) -> Result<Box<Expr>, ReadError>
    ensures ok { IfOk result (λ b. view value.now ≡ json_value (tree_of b.value)) }
    ensures fits { IfOk result (λ b. json_fault (tree_of b.value) ≡ None) }
    ensures err { IfErr result (λ e. e ≢ Memory → (t : Tree) → ReadableBelow depth t → view value.now ≢ json_value t) }
    ensures place { IfErr result (λ e. (f g : Form) (d : Data) → AsksOf f d name.now g → get name.now d ≡ Some (view value.now)
        → ((e : Fails) → IsIn (node_form depth) (view value.now) e → IsIn g (view value.now) e) → IsIn f d e) }
{
    match read_expr(alloc, value, depth) {
        Ok(expr) => Ok(Box::new(alloc, expr)?),
        Err(error) => Err(error.inside(alloc, name)),
    }
}

/// The values of an aggregation's members but `type`.
#[derive(Clone, Copy)]
struct AggregateParts<'v> {
    expr: &'v Value,
    grouping: &'v Value,
    op: &'v Value,
    param: &'v Value,
    without: &'v Value,
}

fn aggregate_parts<'v>(
    alloc: Global,
    members: &'v Map<String, Value>,
) -> Result<AggregateParts<'v>, ReadError>
    ensures ok { IfOk result (λ p. members_view members.now.entries
        ≡ aggregate_members (view p.expr.now) (view p.grouping.now) (view p.op.now) (view p.param.now) (view p.without.now)) }
    ensures err { IfErr result (λ e. e ≢ Memory → (expr grouping op param without : Data)
        → members_view members.now.entries ≢ aggregate_members expr grouping op param without) }
    ensures place { IfErr result (λ e. (n : ℕ) → IsTyped (object (members_view members.now.entries)) (codes "aggregation")
        → IsIn (node_named (codes "aggregation") n) (object (members_view members.now.entries)) e) }
{
    let mut fields = Fields::new(members);
    let (expr, grouping, op) = fields.three(alloc, "expr", "grouping", "op")?;
    let (param, node, without) = fields.three(alloc, "param", "type", "without")?;
    fields.end_of_node(alloc, node, "aggregation")?;
    Ok(AggregateParts {
        expr,
        grouping,
        op,
        param,
        without,
    })
}

#[cycle(read)]
fn read_param(alloc: Global, value: &Value, depth: usize) -> Result<Option<Box<Expr>>, ReadError>
    ensures ok { IfOk result (λ p. view value.now ≡ param_json (option_tree p)) }
    ensures fits { IfOk result (λ p. param_fault (option_tree p) ≡ None) }
    ensures err { IfErr result (λ e. e ≢ Memory → (p : MaybeTree) → MaybeReadableBelow depth p → view value.now ≢ param_json p) }
    ensures place { IfErr result (λ e. (d : Data) → get (codes "param") d ≡ Some (view value.now)
        → IsIn (node_named (codes "aggregation") depth) d e) }
{
    match value {
        Value::Null => Ok(None),
        _ => Ok(Some(read_child(alloc, "param", value, depth)?)),
    }
}

#[cycle(read)]
fn read_aggregate(
    alloc: Global,
    members: &Map<String, Value>,
    depth: usize,
) -> Result<AggregateExpr, ReadError>
    ensures ok { IfOk result (λ a. object (members_view members.now.entries)
        ≡ json_value (aggregate_tree a)) }
    ensures fits { IfOk result (λ a. json_fault (aggregate_tree a) ≡ None) }
    ensures err { IfErr result (λ e. e ≢ Memory → (op : ℕ) (t : Tree) (p : MaybeTree) (m : Option Clause)
        → is_one_of AGGREGATOR_IDS op ≡ true → MaybeReadableBelow depth p → ReadableBelow depth t
        → object (members_view members.now.entries) ≢ json_value (aggregate op t p m)) }
    ensures place { IfErr result (λ e. IsTyped (object (members_view members.now.entries)) (codes "aggregation")
        → IsIn (node_named (codes "aggregation") depth) (object (members_view members.now.entries)) e) }
{
    let parts = aggregate_parts(alloc, members)?;
    let op = member!(
        alloc,
        "op",
        read_id(alloc, parts.op, &AGGREGATORS, Expected::Aggregator)
    );
    let modifier = read_grouping(alloc, parts.grouping, parts.without)?;
    let param = read_param(alloc, parts.param, depth)?;
    let expr = read_child(alloc, "expr", parts.expr, depth)?;
    Ok(AggregateExpr {
        op: TokenType::new(op),
        expr,
        param,
        modifier,
    })
}

#[cycle(read)]
fn read_unary(
    alloc: Global,
    members: &Map<String, Value>,
    depth: usize,
) -> Result<UnaryExpr, ReadError>
    ensures ok { IfOk result (λ u. object (members_view members.now.entries)
        ≡ json_value (unary_tree u)) }
    ensures fits { IfOk result (λ u. json_fault (unary_tree u) ≡ None) }
    ensures err { IfErr result (λ e. e ≢ Memory → (t : Tree) → ReadableBelow depth t
        → object (members_view members.now.entries) ≢ json_value (unary t)) }
    ensures place { IfErr result (λ e. IsTyped (object (members_view members.now.entries)) (codes "unaryExpr")
        → IsIn (node_named (codes "unaryExpr") depth) (object (members_view members.now.entries)) e) }
{
    let mut fields = Fields::new(members);
    let (expr, op, node) = fields.three(alloc, "expr", "op", "type")?;
    fields.end_of_node(alloc, node, "unaryExpr")?;
    member!(alloc, "op", expect_text(alloc, op, "-", Expected::Minus));
    let expr = read_child(alloc, "expr", expr, depth)?;
    Ok(UnaryExpr { expr })
}

/// The values of a binary expression's members but `type`.
#[derive(Clone, Copy)]
struct BinaryParts<'v> {
    is_bool: &'v Value,
    lhs: &'v Value,
    matching: &'v Value,
    op: &'v Value,
    rhs: &'v Value,
}

fn binary_parts<'v>(
    alloc: Global,
    members: &'v Map<String, Value>,
) -> Result<BinaryParts<'v>, ReadError>
    ensures ok { IfOk result (λ p. members_view members.now.entries
        ≡ binary_members (view p.is_bool.now) (view p.lhs.now) (view p.matching.now) (view p.op.now) (view p.rhs.now)) }
    ensures err { IfErr result (λ e. e ≢ Memory → (is_bool lhs matching op rhs : Data)
        → members_view members.now.entries ≢ binary_members is_bool lhs matching op rhs) }
    ensures place { IfErr result (λ e. (n : ℕ) → IsTyped (object (members_view members.now.entries)) (codes "binaryExpr")
        → IsIn (node_named (codes "binaryExpr") n) (object (members_view members.now.entries)) e) }
{
    let mut fields = Fields::new(members);
    let (is_bool, lhs, matching) = fields.three(alloc, "bool", "lhs", "matching")?;
    let (op, rhs, node) = fields.three(alloc, "op", "rhs", "type")?;
    fields.end_of_node(alloc, node, "binaryExpr")?;
    Ok(BinaryParts {
        is_bool,
        lhs,
        matching,
        op,
        rhs,
    })
}

#[cycle(read)]
fn read_binary(
    alloc: Global,
    members: &Map<String, Value>,
    depth: usize,
) -> Result<BinaryExpr, ReadError>
    ensures ok { IfOk result (λ b. object (members_view members.now.entries)
        ≡ json_value (binary_tree b)) }
    ensures fits { IfOk result (λ b. json_fault (binary_tree b) ≡ None) }
    ensures err { IfErr result (λ e. e ≢ Memory → (op : ℕ) (l r : Tree) (m : Option Matching)
        → is_one_of OPERATOR_IDS op ≡ true → ReadableMatching m → ReadableBelow depth l → ReadableBelow depth r
        → object (members_view members.now.entries) ≢ json_value (binary op l r m)) }
    ensures place { IfErr result (λ e. IsTyped (object (members_view members.now.entries)) (codes "binaryExpr")
        → IsIn (node_named (codes "binaryExpr") depth) (object (members_view members.now.entries)) e) }
{
    let parts = binary_parts(alloc, members)?;
    let is_bool = member!(alloc, "bool", read_flag(alloc, parts.is_bool));
    let op = member!(
        alloc,
        "op",
        read_id(alloc, parts.op, &OPERATORS, Expected::Operator)
    );
    let modifier = member!(
        alloc,
        "matching",
        read_matching(alloc, parts.matching, is_bool)
    );
    let lhs = read_child(alloc, "lhs", parts.lhs, depth)?;
    let rhs = read_child(alloc, "rhs", parts.rhs, depth)?;
    Ok(BinaryExpr {
        op: TokenType::new(op),
        lhs,
        rhs,
        modifier,
    })
}

#[cycle(read)]
fn read_paren(
    alloc: Global,
    members: &Map<String, Value>,
    depth: usize,
) -> Result<ParenExpr, ReadError>
    ensures ok { IfOk result (λ p. object (members_view members.now.entries)
        ≡ json_value (paren_tree p)) }
    ensures fits { IfOk result (λ p. json_fault (paren_tree p) ≡ None) }
    ensures err { IfErr result (λ e. e ≢ Memory → (t : Tree) → ReadableBelow depth t
        → object (members_view members.now.entries) ≢ json_value (paren t)) }
    ensures place { IfErr result (λ e. IsTyped (object (members_view members.now.entries)) (codes "parenExpr")
        → IsIn (node_named (codes "parenExpr") depth) (object (members_view members.now.entries)) e) }
{
    let mut fields = Fields::new(members);
    let (expr, node) = fields.two(alloc, "expr", "type")?;
    fields.end_of_node(alloc, node, "parenExpr")?;
    let expr = read_child(alloc, "expr", expr, depth)?;
    Ok(ParenExpr { expr })
}

/// What a subquery has beside its expression.
#[derive(Clone, Copy)]
struct SubqueryParts<'v> {
    expr: &'v Value,
    offset: Option<Offset>,
    at: Option<AtModifier>,
    range: Duration,
    step: Option<Duration>,
}

fn subquery_parts<'v>(
    alloc: Global,
    members: &'v Map<String, Value>,
) -> Result<SubqueryParts<'v>, ReadError>
    ensures ok { IfOk result (λ p. members_view members.now.entries ≡ subquery_members (view p.expr.now)
        (option_map shift_of p.offset) (option_map moment_of p.at) (as_nanos p.range) (option_map as_nanos p.step)) }
    ensures fits { IfOk result (λ p. option_or (width_fault (shift_millis (option_map shift_of p.offset)))
        (option_or (width_fault (millis (as_nanos p.range))) (step_fault (option_map as_nanos p.step))) ≡ None) }
    ensures err { IfErr result (λ e. e ≢ Memory
        → (expr : Data) (offset : Option Shift) (at : Option Moment) (range : ℕ) (step : Option ℕ) → ReadableMoment at
        → members_view members.now.entries ≢ subquery_members expr offset at range step) }
    ensures place { IfErr result (λ e. (n : ℕ) → IsTyped (object (members_view members.now.entries)) (codes "subquery")
        → IsIn (node_named (codes "subquery") n) (object (members_view members.now.entries)) e) }
{
    let mut fields = Fields::new(members);
    let (expr, offset, range) = fields.three(alloc, "expr", "offset", "range")?;
    let (start_or_end, step, timestamp) = fields.three(alloc, "startOrEnd", "step", "timestamp")?;
    let node = fields.next(alloc, "type")?;
    fields.end_of_node(alloc, node, "subquery")?;
    let offset = member!(alloc, "offset", read_offset(alloc, offset));
    let range = member!(alloc, "range", read_length(alloc, range));
    let step = member!(alloc, "step", read_step(alloc, step));
    let at = read_at(alloc, start_or_end, timestamp)?;
    Ok(SubqueryParts {
        expr,
        offset,
        at,
        range,
        step,
    })
}

#[cycle(read)]
fn read_subquery(
    alloc: Global,
    members: &Map<String, Value>,
    depth: usize,
) -> Result<SubqueryExpr, ReadError>
    ensures ok { IfOk result (λ s. object (members_view members.now.entries)
        ≡ json_value (subquery_tree s)) }
    ensures fits { IfOk result (λ s. json_fault (subquery_tree s) ≡ None) }
    ensures err { IfErr result (λ e. e ≢ Memory
        → (t : Tree) (offset : Option Shift) (at : Option Moment) (range : ℕ) (step : Option ℕ) → ReadableMoment at → ReadableBelow depth t
        → object (members_view members.now.entries) ≢ json_value (subquery t offset at range step)) }
    ensures place { IfErr result (λ e. IsTyped (object (members_view members.now.entries)) (codes "subquery")
        → IsIn (node_named (codes "subquery") depth) (object (members_view members.now.entries)) e) }
{
    let parts = subquery_parts(alloc, members)?;
    let expr = read_child(alloc, "expr", parts.expr, depth)?;
    Ok(SubqueryExpr {
        expr,
        offset: parts.offset,
        at: parts.at,
        range: parts.range,
        step: parts.step,
    })
}

fn read_number_literal(
    alloc: Global,
    members: &Map<String, Value>,
) -> Result<NumberLiteral, ReadError>
    ensures ok { IfOk result (λ n. object (members_view members.now.entries)
        ≡ json_value (number n.val)) }
    ensures err { IfErr result (λ e. e ≢ Memory → (n : AnyNumber) → IsNumber n
        → object (members_view members.now.entries) ≢ json_value (number n)) }
    ensures place { IfErr result (λ e. (n : ℕ) → IsTyped (object (members_view members.now.entries)) (codes "numberLiteral")
        → IsIn (node_named (codes "numberLiteral") n) (object (members_view members.now.entries)) e) }
{
    let mut fields = Fields::new(members);
    let (node, val) = fields.two(alloc, "type", "val")?;
    fields.end_of_node(alloc, node, "numberLiteral")?;
    Ok(NumberLiteral {
        val: member!(alloc, "val", read_number(alloc, val)),
    })
}

fn read_string_literal(
    alloc: Global,
    members: &Map<String, Value>,
) -> Result<StringLiteral, ReadError>
    ensures ok { IfOk result (λ s. object (members_view members.now.entries)
        ≡ json_value (string (string_bytes s.val))) }
    ensures err { IfErr result (λ e. e ≢ Memory → (s : Text)
        → object (members_view members.now.entries) ≢ json_value (string s)) }
    ensures place { IfErr result (λ e. (n : ℕ) → IsTyped (object (members_view members.now.entries)) (codes "stringLiteral")
        → IsIn (node_named (codes "stringLiteral") n) (object (members_view members.now.entries)) e) }
{
    let mut fields = Fields::new(members);
    let (node, val) = fields.two(alloc, "type", "val")?;
    fields.end_of_node(alloc, node, "stringLiteral")?;
    Ok(StringLiteral {
        val: member!(alloc, "val", read_label(alloc, val)),
    })
}

#[cycle(read)]
fn read_arg_list(alloc: Global, list: &[Value], depth: usize) -> Result<Vec<Box<Expr>>, ReadError>
    ensures ok { IfOk result (λ args. items_view list.now ≡ args_items (trees_of args.items)) }
    ensures fits { IfOk result (λ args. args_fault (trees_of args.items) ≡ None) }
    ensures err { IfErr result (λ e. e ≢ Memory → (ts : Trees) → AllReadableBelow depth ts → items_view list.now ≢ args_items ts) }
    ensures place { IfErr result (IsIn (list_of ListThere (node_form depth)) (array (items_view list.now))) }
{
    let mut args = Vec::with_capacity(alloc, list.len())?;
    for i in 0..list.len() {
        match read_expr(alloc, &list[i], depth) {
            Ok(arg) => args.push(Box::new(alloc, arg)?)?,
            Err(error) => return Err(error.inside_item(alloc, i)),
        }
    }
    Ok(args)
}

#[cycle(read)]
fn read_args(alloc: Global, value: &Value, depth: usize) -> Result<Vec<Box<Expr>>, ReadError>
    ensures ok { IfOk result (λ args. view value.now ≡ array (args_items (trees_of args.items))) }
    ensures fits { IfOk result (λ args. args_fault (trees_of args.items) ≡ None) }
    ensures err { IfErr result (λ e. e ≢ Memory → (ts : Trees) → AllReadableBelow depth ts → view value.now ≢ array (args_items ts)) }
    ensures place { IfErr result (IsIn (list_of ListThere (node_form depth)) (view value.now)) }
{
    let list = read_list(alloc, value)?;
    read_arg_list(alloc, list, depth)
}

#[cycle(read)]
fn read_call(alloc: Global, members: &Map<String, Value>, depth: usize) -> Result<Call, ReadError>
    ensures ok { IfOk result (λ c. object (members_view members.now.entries)
        ≡ json_value (call_tree c)) }
    ensures fits { IfOk result (λ c. json_fault (call_tree c) ≡ None) }
    ensures err { IfErr result (λ e. e ≢ Memory → (f : Signature) (ts : Trees) → function_named (name_of f) ≡ Some f → AllReadableBelow depth ts
        → object (members_view members.now.entries) ≢ json_value (call f ts)) }
    ensures place { IfErr result (λ e. IsTyped (object (members_view members.now.entries)) (codes "call")
        → IsIn (node_named (codes "call") depth) (object (members_view members.now.entries)) e) }
{
    let mut fields = Fields::new(members);
    let (args, func, node) = fields.three(alloc, "args", "func", "type")?;
    fields.end_of_node(alloc, node, "call")?;
    let func = member!(alloc, "func", read_function(alloc, func));
    let args = member!(alloc, "args", read_args(alloc, args, depth));
    Ok(Call {
        func,
        args: FunctionArgs { args },
    })
}

/// The text of the member `type`; empty where there is none.
fn type_of_node(value: &Value) -> &str
    ensures { IsTypeIn (view value.now) result.now }
{
    match value.get("type") {
        Some(Value::String(name)) => name.as_str(),
        _ => "",
    }
}

/// The expression of an object.
#[cycle(read)]
#[tactic(auto, using(promql_ast::proofs::nodes::NodeParts::tree_of_call, promql_ast::proofs::nodes::NodeParts::tree_of_extension, promql_ast::proofs::nodes::NodeParts::tree_of_aggregate))]
fn read_node(
    alloc: Global,
    node: &str,
    members: &Map<String, Value>,
    depth: usize,
) -> Result<Expr, ReadError>
    requires { IsTypeIn (object (members_view members.now.entries)) node.now }
    ensures ok { IfOk result (λ e. object (members_view members.now.entries)
        ≡ json_value (tree_of e)) }
    ensures fits { IfOk result (λ e. json_fault (tree_of e) ≡ None) }
    ensures err { IfErr result (λ e. e ≢ Memory → (t : Tree) → ReadableBelow (depth + 1) t
        → object (members_view members.now.entries) ≢ json_value t) }
    ensures place { IfErr result (IsIn (node_form (depth + 1)) (object (members_view members.now.entries))) }
{
    match node {
        "aggregation" => Ok(Expr::Aggregate(read_aggregate(alloc, members, depth)?)),
        "unaryExpr" => Ok(Expr::Unary(read_unary(alloc, members, depth)?)),
        "binaryExpr" => Ok(Expr::Binary(read_binary(alloc, members, depth)?)),
        "parenExpr" => Ok(Expr::Paren(read_paren(alloc, members, depth)?)),
        "subquery" => Ok(Expr::Subquery(read_subquery(alloc, members, depth)?)),
        "numberLiteral" => Ok(Expr::NumberLiteral(read_number_literal(alloc, members)?)),
        "stringLiteral" => Ok(Expr::StringLiteral(read_string_literal(alloc, members)?)),
        "vectorSelector" => Ok(Expr::VectorSelector(read_vector(alloc, members)?)),
        "matrixSelector" => Ok(Expr::MatrixSelector(read_matrix(alloc, members)?)),
        "call" => Ok(Expr::Call(read_call(alloc, members, depth)?)),
        _ => Err(ReadError::at(alloc, "type", Expected::Node)),
    }
}

/// The expression of a value, of at most so many nodes above one another.
#[cycle(read)]
fn read_expr(alloc: Global, value: &Value, depth: usize) -> Result<Expr, ReadError>
    ensures ok { IfOk result (λ e. view value.now ≡ json_value (tree_of e)) }
    ensures fits { IfOk result (λ e. json_fault (tree_of e) ≡ None) }
    ensures err { IfErr result (λ e. e ≢ Memory → (t : Tree) → ReadableBelow depth t → view value.now ≢ json_value t) }
    ensures place { IfErr result (IsIn (node_form depth) (view value.now)) }
{
    if depth == 0 {
        return Err(ReadError::here(alloc, Expected::LowTree));
    }
    let members = read_object(alloc, value)?;
    read_node(alloc, type_of_node(value), members, depth - 1)
}
