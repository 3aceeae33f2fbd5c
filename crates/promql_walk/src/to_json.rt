//! The JSON form of a tree, its nodes and their parts: docs/reference/json.md.

ghost use Rattle.std.specs.Prelude.{◌≡◌, ◌≢◌, Err, IfErr, IfOk, Ok, Result, string_bytes};
ghost use Rattle.serde_json.specs.Data.{Data, string as text};
ghost use Rattle.serde_json.specs.View.{view};
ghost use Rattle.promql_kind.specs.Functions.{signature_of};
ghost use Rattle.promql_kind.specs.ModifierViews.{cardinality_of, fills_of};
ghost use Rattle.promql_kind.specs.ValueTypes.{type_text};
ghost use Rattle.promql_ast.specs.Tree.{number, string};
ghost use Rattle.promql_ast.specs.View.{aggregate_tree, binary_tree, call_tree, matrix_tree, paren_tree, subquery_tree, tree_of, trees_of, unary_tree, vector_tree};
ghost use Rattle.promql_json.specs.Json as spec;
ghost use Rattle.promql_json.specs.JsonParts.{cardinality_json as cardinality_value, fills_json as fills_value, function_json as function_value};
ghost use Rattle.promql_json.specs.declared.error.JsonError.{JsonError};
ghost use Rattle.promql_json.specs.declared.error.JsonError.TheVariants.{Memory};

use crate::json_nodes::{
    aggregate_members, args_members, binary_members, call_members, expr_json, matrix_members,
    number_members, paren_members, selector_members, string_members, subquery_members,
    unary_members,
};
use crate::json_parts::{cardinality_json, fills_json, function_json, type_json};
use promql_ast::{
    AggregateExpr, BinaryExpr, Call, Expr, FunctionArgs, MatrixSelector, NumberLiteral, ParenExpr,
    StringLiteral, SubqueryExpr, UnaryExpr, VectorSelector,
};
use promql_json::JsonError;
use promql_kind::{Function, ValueType, VectorMatchCardinality, VectorMatchFillValues};
use serde_json::Value;
use std::alloc::Global;

/// What has a form in JSON. The keys of an object are in byte order. An expression's object has a key `type`; that of
/// a node by itself has none.
pub trait ToJson {
    /// The JSON form, or why there is none.
    ghost json: { Self → Result Data JsonError };

    /// The JSON form.
    ///
    /// # Errors
    ///
    /// `NumberTooWide` where a number of milliseconds is below -2^63 or above 2^64 - 1, and `Extension` where there is
    /// an extension: of these the one that a walk comes to first. `Memory` where an allocation failed.
    fn to_json(&self, alloc: Global) -> Result<Value, JsonError>
        ensures ok { IfOk result (λ v. json self.now ≡ Ok (view v)) }
        ensures err { IfErr result (λ e. e ≢ Memory → json self.now ≡ Err e) };
}

impl ToJson for Expr {
    ghost json = { λ e. spec.json (tree_of e) };

    #[tactic(auto, using(promql_json::proofs::FaultOrder::first_met))]
    fn to_json(&self, alloc: Global) -> Result<Value, JsonError> {
        expr_json(alloc, self)
    }
}

impl ToJson for AggregateExpr {
    ghost json = { λ e. spec.node_json (aggregate_tree e) };

    fn to_json(&self, alloc: Global) -> Result<Value, JsonError> {
        Ok(Value::Object(aggregate_members(alloc, self)?))
    }
}

impl ToJson for UnaryExpr {
    ghost json = { λ e. spec.node_json (unary_tree e) };

    fn to_json(&self, alloc: Global) -> Result<Value, JsonError> {
        Ok(Value::Object(unary_members(alloc, self)?))
    }
}

impl ToJson for BinaryExpr {
    ghost json = { λ e. spec.node_json (binary_tree e) };

    fn to_json(&self, alloc: Global) -> Result<Value, JsonError> {
        Ok(Value::Object(binary_members(alloc, self)?))
    }
}

impl ToJson for ParenExpr {
    ghost json = { λ e. spec.node_json (paren_tree e) };

    fn to_json(&self, alloc: Global) -> Result<Value, JsonError> {
        Ok(Value::Object(paren_members(alloc, self)?))
    }
}

impl ToJson for SubqueryExpr {
    ghost json = { λ e. spec.node_json (subquery_tree e) };

    fn to_json(&self, alloc: Global) -> Result<Value, JsonError> {
        Ok(Value::Object(subquery_members(alloc, self)?))
    }
}

impl ToJson for NumberLiteral {
    ghost json = { λ e. spec.node_json (number e.val) };

    #[tactic(auto, using(promql_json::proofs::FaultOrder::first_met))]
    fn to_json(&self, alloc: Global) -> Result<Value, JsonError> {
        Ok(Value::Object(number_members(alloc, self)?))
    }
}

impl ToJson for StringLiteral {
    ghost json = { λ e. spec.node_json (string (string_bytes e.val)) };

    #[tactic(auto, using(promql_json::proofs::FaultOrder::first_met))]
    fn to_json(&self, alloc: Global) -> Result<Value, JsonError> {
        Ok(Value::Object(string_members(alloc, self)?))
    }
}

impl ToJson for VectorSelector {
    ghost json = { λ e. spec.node_json (vector_tree e) };

    #[tactic(auto, using(promql_json::proofs::FaultOrder::first_met))]
    fn to_json(&self, alloc: Global) -> Result<Value, JsonError> {
        Ok(Value::Object(selector_members(alloc, self)?))
    }
}

impl ToJson for MatrixSelector {
    ghost json = { λ e. spec.node_json (matrix_tree e) };

    #[tactic(auto, using(promql_json::proofs::FaultOrder::first_met))]
    fn to_json(&self, alloc: Global) -> Result<Value, JsonError> {
        Ok(Value::Object(matrix_members(alloc, self)?))
    }
}

impl ToJson for Call {
    ghost json = { λ e. spec.node_json (call_tree e) };

    fn to_json(&self, alloc: Global) -> Result<Value, JsonError> {
        Ok(Value::Object(call_members(alloc, self)?))
    }
}

impl ToJson for FunctionArgs {
    ghost json = { λ a. spec.args_json (trees_of a.args.items) };

    fn to_json(&self, alloc: Global) -> Result<Value, JsonError> {
        Ok(Value::Object(args_members(alloc, self)?))
    }
}

impl ToJson for Function {
    ghost json = { λ f. Ok (function_value (signature_of f)) };

    fn to_json(&self, alloc: Global) -> Result<Value, JsonError> {
        Ok(function_json(alloc, self)?)
    }
}

impl ToJson for ValueType {
    ghost json = { λ t. Ok (text (type_text t)) };

    fn to_json(&self, alloc: Global) -> Result<Value, JsonError> {
        Ok(type_json(alloc, *self)?)
    }
}

impl ToJson for VectorMatchCardinality {
    ghost json = { λ c. Ok (cardinality_value (cardinality_of c)) };

    fn to_json(&self, alloc: Global) -> Result<Value, JsonError> {
        Ok(cardinality_json(alloc, self)?)
    }
}

impl ToJson for VectorMatchFillValues {
    ghost json = { λ f. Ok (fills_value (fills_of f)) };

    fn to_json(&self, alloc: Global) -> Result<Value, JsonError> {
        Ok(fills_json(alloc, self)?)
    }
}
