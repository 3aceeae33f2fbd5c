//! Allocations that fail: bin/test_memory makes each fail in turn.

use super::check_value;
use promql_parser::parser::{Expr, ParseError, parse};
use promql_walk::{JsonError, json_text};
use std::alloc::Global;
use std::fmt::Display;
use std::process::Abort;

const QUERY: &str =
    "topk(5, sum by (l) (rate(a{b=~\"c|d\",e!=\"f\"}[5m])) + on (l) group_left (m) g)";

const JSON: &str =
    r#"{"expr":{"bool":false,"lhs":{"expr":{"args":[{"matchers":[{"name":"b","type":"=~","value":"c|d"},{"name":"e","type":"!=","value":"f"}],"name":"a","offset":0,"range":300000,"startOrEnd":null,"timestamp":null,"type":"matrixSelector"}],"func":{"argTypes":["matrix"],"experimental":false,"name":"rate","returnType":"vector","variadic":0},"type":"call"},"grouping":["l"],"op":"sum","param":null,"type":"aggregation","without":false},"matching":{"card":{"many-to-one":["m"]},"fillValues":{"lhs":null,"rhs":null},"include":[],"labels":["l"],"on":true},"op":"+","rhs":{"matchers":[],"name":"g","offset":0,"startOrEnd":null,"timestamp":null,"type":"vectorSelector"},"type":"binaryExpr"},"grouping":[],"op":"topk","param":{"type":"numberLiteral","val":"5"},"type":"aggregation","without":false}"#;

/// The expression has this JSON form, unless an allocation failed.
fn has_json(rt: &impl Abort, alloc: Global, expr: &Expr, want: &str) {
    match json_text(alloc, expr) {
        Ok(text) => assert_eq!(rt; text.as_str(), want),
        Err(error) => assert!(rt; error == JsonError::Memory),
    }
}

#[test]
fn a_text_runs_out_of_memory_or_has_its_form(rt: HostRuntime) {
    let alloc = rt.alloc();
    match parse(alloc, QUERY) {
        Ok(expr) => {
            has_json(&rt, alloc, &expr, JSON);
            drop(expr);
        }
        Err(error) => check_value(&rt, error, ParseError::Memory, &QUERY),
    }
}

/// Each text with what is printed of it, or the message of its rejection.
const ROWS: [(&str, &str); 6] = [
    (
        "http_requests_total{\nenvironment=~\"staging|testing|development\",\nmethod!=\"GET\"\n} offset 5m",
        "http_requests_total{environment=~\"staging|testing|development\",method!=\"GET\"} offset 5m",
    ),
    (
        "a * on (l) group_left (x) + y",
        "a * on (l) group_left (x) y",
    ),
    (
        "{a=\"1\" or or=\"2\", c=\"3\"}",
        "{a=\"1\" or or=\"2\", c=\"3\"}",
    ),
    (
        "{a='1', 'b'=~'2' or c!='3', d!~'4' or 'e'}",
        "{a=\"1\", b=~\"2\" or c!=\"3\", d!~\"4\" or __name__=\"e\"}",
    ),
    ("{a=~`x\\d{b}`}", "{a=~\"x\\\\d{b}\"}"),
    (
        "{a=~\".*\"}",
        "vector selector must contain at least one non-empty matcher",
    ),
];

/// Whether the value prints this text, unless an allocation failed.
fn has_text<T: Display>(alloc: Global, value: &T, want: &str) -> Result<bool, ParseError> {
    Ok(value.to_string(alloc)?.as_str() == want)
}

/// Whether the text has this answer, unless an allocation failed.
fn has_answer(alloc: Global, text: &str, want: &str) -> Result<bool, ParseError> {
    match parse(alloc, text) {
        Ok(expr) => {
            let has_line = has_text(alloc, &expr, want);
            drop(expr);
            has_line
        }
        Err(ParseError::Memory) => Err(ParseError::Memory),
        Err(error) => {
            let has_message = has_text(alloc, &error, want);
            drop(error);
            has_message
        }
    }
}

#[test]
fn one_failed_allocation_takes_one_answer(rt: HostRuntime) {
    let alloc = rt.alloc();
    let mut has_failed = false;
    for (text, want) in &ROWS {
        match has_answer(alloc, text, want) {
            Ok(held) => assert!(rt; held, "at {text:?}"),
            Err(_) => {
                assert!(rt; !has_failed, "again at {text:?}");
                has_failed = true;
            }
        }
    }
}
