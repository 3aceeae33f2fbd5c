//! The JSON form of each kind of node, of nodes and parts by themselves, and what has none.

use super::trees::{extension, read};
use super::{Failed, columns, holds, is_so, prints};
use promql_ast::{Expr, FunctionArgs};
use promql_kind::{ValueType, VectorMatchCardinality, VectorMatchFillValues, get_function};
use promql_label::{Labels, MatchOp, Matcher, Matchers};
use promql_parser::json::{
    JsonError, ToJson, json_text, labels_json, match_op_json, matcher_json, matchers_json,
    token_type_json,
};
use promql_parser::parser::parse;
use promql_text::Number;
use promql_token::TokenType;
use promql_token::ids::{T_ADD, T_TOPK};
use serde_json::Value;
use std::alloc::{AllocError, Global};
use std::process::Abort;
use std::time::Duration;

/// The compact JSON of a value that has one.
fn line<T: ToJson>(alloc: Global, value: &T) -> Result<String, JsonError> {
    let json = value.to_json(alloc)?;
    let text = json.to_string(alloc);
    drop(json);
    Ok(text?)
}

/// Nodes by themselves and their objects, in the order of the variants of `Expr`.
const NODES: &str =
    r#"sum(a) => {"expr":{"matchers":[],"name":"a","offset":0,"startOrEnd":null,"timestamp":null,"type":"vectorSelector"},"grouping":[],"op":"sum","param":null,"without":false}
-a => {"expr":{"matchers":[],"name":"a","offset":0,"startOrEnd":null,"timestamp":null,"type":"vectorSelector"},"op":"-"}
1 + 2 => {"bool":false,"lhs":{"type":"numberLiteral","val":"1"},"matching":null,"op":"+","rhs":{"type":"numberLiteral","val":"2"}}
(1) => {"expr":{"type":"numberLiteral","val":"1"}}
a[1m:] => {"expr":{"matchers":[],"name":"a","offset":0,"startOrEnd":null,"timestamp":null,"type":"vectorSelector"},"offset":0,"range":60000,"startOrEnd":null,"step":null,"timestamp":null}
2 => {"val":"2"}
"s" => {"val":"s"}
a => {"matchers":[],"name":"a","offset":0,"startOrEnd":null,"timestamp":null}
a[5m] => {"matchers":[],"name":"a","offset":0,"range":300000,"startOrEnd":null,"timestamp":null}
abs(a) => {"args":[{"matchers":[],"name":"a","offset":0,"startOrEnd":null,"timestamp":null,"type":"vectorSelector"}],"func":{"argTypes":["vector"],"experimental":false,"name":"abs","returnType":"vector","variadic":0}}"#;

/// The object of a node by itself; an extension has none.
fn node_line(alloc: Global, expr: &Expr) -> Result<String, JsonError> {
    match expr {
        Expr::Aggregate(e) => line(alloc, e),
        Expr::Unary(e) => line(alloc, e),
        Expr::Binary(e) => line(alloc, e),
        Expr::Paren(e) => line(alloc, e),
        Expr::Subquery(e) => line(alloc, e),
        Expr::NumberLiteral(e) => line(alloc, e),
        Expr::StringLiteral(e) => line(alloc, e),
        Expr::VectorSelector(e) => line(alloc, e),
        Expr::MatrixSelector(e) => line(alloc, e),
        Expr::Call(e) => line(alloc, e),
        Expr::Extension(_) => Ok(String::new(alloc)),
    }
}

/// The object of a text's node by itself.
fn object_of(alloc: Global, text: &str) -> Result<String, Failed> {
    Ok(node_line(alloc, &*read(alloc, text)?)?)
}

/// Whether the text of the form of a text's tree is that of its value.
fn is_one_form(alloc: Global, text: &str) -> Result<bool, Failed> {
    let expr = read(alloc, text)?;
    Ok(json_text(alloc, &expr)? == line(alloc, &*expr)?)
}

#[test]
fn nodes_by_themselves_have_no_type(rt: HostRuntime) {
    for row in NODES.split('\n') {
        let (text, object) = columns(row);
        prints(&rt, object_of(rt.alloc(), text), object);
        is_so(&rt, is_one_form(rt.alloc(), text), text);
    }
}

/// The compact JSON of a value that was made.
fn compact(alloc: Global, value: Result<Value, AllocError>) -> Result<String, AllocError> {
    let value = value?;
    let text = value.to_string(alloc);
    drop(value);
    text
}

/// The JSON of a list of labels.
fn labels_line(alloc: Global, labels: &[&str]) -> Result<String, AllocError> {
    let labels = Labels::new(alloc, labels.to_vec(alloc)?)?;
    compact(alloc, labels_json(alloc, &labels))
}

#[test]
fn tokens_and_labels_are_texts(rt: HostRuntime) {
    let alloc = rt.alloc();
    let topk = token_type_json(alloc, TokenType::new(T_TOPK));
    prints(&rt, compact(alloc, topk), r#""topk""#);
    let op = match_op_json(alloc, &MatchOp::NotEqual);
    prints(&rt, compact(alloc, op), r#""!=""#);
    prints(&rt, labels_line(alloc, &["a", "é"]), r#"["a","é"]"#);
}

/// The matcher `a="1"`
fn equal(alloc: Global) -> Result<Matcher, AllocError> {
    Matcher::new(alloc, MatchOp::Equal, "a", "1")
}

/// The JSON of a matcher.
fn matcher_line(alloc: Global) -> Result<String, AllocError> {
    compact(alloc, matcher_json(alloc, &equal(alloc)?))
}

/// The JSON of matchers.
fn matchers_line(
    alloc: Global,
    matchers: Result<Matchers, AllocError>,
) -> Result<String, AllocError> {
    compact(alloc, matchers_json(alloc, &matchers?))
}

/// `{a="1"}`
fn plain(alloc: Global) -> Result<Matchers, AllocError> {
    Matchers::one(alloc, equal(alloc)?)
}

/// `{a="1" or b!="2"}`
fn groups(alloc: Global) -> Result<Matchers, AllocError> {
    let not_equal = Matcher::new(alloc, MatchOp::NotEqual, "b", "2")?;
    plain(alloc)?.append_or(alloc, not_equal)
}

#[test]
fn matchers_are_objects(rt: HostRuntime) {
    let alloc = rt.alloc();
    let want = r#"{"name":"a","type":"=","value":"1"}"#;
    prints(&rt, matcher_line(alloc), want);
    let want = r#"{"matchers":[{"name":"a","type":"=","value":"1"}]}"#;
    prints(&rt, matchers_line(alloc, plain(alloc)), want);
    let want =
        r#"{"matchers":[],"or_matchers":[[{"name":"a","type":"=","value":"1"}],[{"name":"b","type":"!=","value":"2"}]]}"#;
    prints(&rt, matchers_line(alloc, groups(alloc)), want);
}

/// The form of a function.
fn function_line(alloc: Global, name: &str) -> Result<String, JsonError> {
    match get_function(alloc, name)? {
        Some(function) => line(alloc, &function),
        None => Ok(String::new(alloc)),
    }
}

/// The form of the argument of this text.
fn argument_line(alloc: Global, text: &str) -> Result<String, Failed> {
    let args = FunctionArgs::new_args(alloc, parse(alloc, text)?)?;
    Ok(line(alloc, &args)?)
}

#[test]
fn types_functions_and_arguments_have_forms(rt: HostRuntime) {
    let alloc = rt.alloc();
    prints(&rt, line(alloc, &ValueType::Matrix), r#""matrix""#);
    let signature =
        r#"{"argTypes":["vector","string","string","string"],"experimental":false,"name":"label_join","returnType":"vector","variadic":-1}"#;
    prints(&rt, function_line(alloc, "label_join"), signature);
    let list = r#"{"args":[{"type":"numberLiteral","val":"1"}]}"#;
    prints(&rt, argument_line(alloc, "1"), list);
}

/// The form of `group_right` with the label `k`.
fn one_to_many(alloc: Global) -> Result<String, JsonError> {
    let card = VectorMatchCardinality::one_to_many(alloc, ["k"].to_vec(alloc)?)?;
    line(alloc, &card)
}

#[test]
fn cardinalities_and_fill_values_have_forms(rt: HostRuntime) {
    let alloc = rt.alloc();
    let one = line(alloc, &VectorMatchCardinality::OneToOne);
    prints(&rt, one, r#""one-to-one""#);
    prints(&rt, one_to_many(alloc), r#"{"one-to-many":["k"]}"#);
    let many = line(alloc, &VectorMatchCardinality::ManyToMany);
    prints(&rt, many, r#""many-to-many""#);
    let fills = VectorMatchFillValues::new(Number::Inf, Number::from_i64(16));
    prints(&rt, line(alloc, &fills), r#"{"lhs":"Inf","rhs":"16"}"#);
}

const WIDE: &str = "number too wide for JSON";

const NONE: &str = "extension has no JSON form";

/// The form, or the message why there is none.
fn answer(alloc: Global, form: Result<String, JsonError>) -> Result<String, AllocError> {
    match form {
        Ok(text) => Ok(text),
        Err(error) => error.to_string(alloc),
    }
}

/// A range of 2^64 milliseconds.
const TOO_LONG: &str = "foo[18446744073709551.616]";

/// The expression has no object and no text, but this message.
fn check_formless(rt: &impl Abort, alloc: Global, expr: &Expr, message: &str) {
    prints(rt, answer(alloc, line(alloc, expr)), message);
    prints(rt, answer(alloc, json_text(alloc, expr)), message);
}

/// What was built has no object and no text, but this message.
fn has_no_form(rt: &impl Abort, alloc: Global, built: Result<Box<Expr>, Failed>, message: &str) {
    match built {
        Ok(expr) => check_formless(rt, alloc, &expr, message),
        Err(_) => holds(rt, false, message),
    }
}

/// The sum of two expressions.
fn sum(alloc: Global, lhs: Box<Expr>, rhs: Box<Expr>) -> Result<Box<Expr>, AllocError> {
    let (lhs, rhs) = (Box::into_inner(lhs), Box::into_inner(rhs));
    Ok(Box::new(alloc, Expr::new_binary_expr(alloc, lhs, T_ADD, None, rhs)?)?)
}

/// A range that is too wide, and an extension after it.
fn wide_first(alloc: Global) -> Result<Box<Expr>, Failed> {
    let wide = read(alloc, TOO_LONG)?;
    Ok(sum(alloc, wide, extension(alloc, &["a", "a"])?)?)
}

/// An extension, and a range after it that is too wide.
fn extension_first(alloc: Global) -> Result<Box<Expr>, Failed> {
    let wide = read(alloc, TOO_LONG)?;
    Ok(sum(alloc, extension(alloc, &["a", "a"])?, wide)?)
}

/// An extension and a range, in a subquery whose own range is too wide.
fn wide_outside(alloc: Global) -> Result<Box<Expr>, Failed> {
    let inside = Box::into_inner(extension_first(alloc)?);
    let range = Duration::from_secs(u64::MAX);
    Ok(Box::new(alloc, Expr::new_subquery_expr(alloc, inside, range, None)?)?)
}

#[test]
fn the_first_node_without_a_form_counts(rt: HostRuntime) {
    let alloc = rt.alloc();
    has_no_form(&rt, alloc, extension(alloc, &[TOO_LONG, "1"]), NONE);
    has_no_form(&rt, alloc, wide_first(alloc), WIDE);
    has_no_form(&rt, alloc, extension_first(alloc), NONE);
    has_no_form(&rt, alloc, wide_outside(alloc), WIDE);
}
