//! The texts of trees that are given as JSON, and why some have none.

use super::prints;
use promql_query::query_error::QueryError;
use promql_query::read_form::MAX_TREE;
use promql_query::tree_text::tree_text;
use promql_run::format::{Format, Layout};
use promql_span::limits::Limits;
use promql_span::{Printed, Target};
use std::alloc::{AllocError, Global};

/// The form of `a + on (b) sum(c)`.
const FORM: &str =
    r#"{"bool":false,"lhs":{"matchers":[],"name":"a","offset":0,"startOrEnd":null,"timestamp":null,"type":"vectorSelector"},"matching":{"card":"one-to-one","fillValues":{"lhs":null,"rhs":null},"include":[],"labels":["b"],"on":true},"op":"+","rhs":{"expr":{"matchers":[],"name":"c","offset":0,"startOrEnd":null,"timestamp":null,"type":"vectorSelector"},"grouping":[],"op":"sum","param":null,"type":"aggregation","without":false},"type":"binaryExpr"}"#;

/// The text of a tree's form, or its error's message and number.
fn told(
    alloc: Global,
    limits: &Limits,
    max_tree: usize,
    format: Format,
    form: &str,
) -> Result<String, AllocError> {
    match tree_text(alloc, limits, max_tree, format, false, form) {
        Ok(text) => Ok(text),
        Err(error) => error_text(alloc, error),
    }
}

fn error_text(alloc: Global, error: QueryError) -> Result<String, AllocError> {
    let text = format!(in alloc; "{} {error}", error.number());
    drop::<QueryError>(error);
    text
}

/// The text of a tree's form within the limits that hold where nothing else is asked for.
fn default_text(alloc: Global, format: Format, form: &str) -> Result<String, AllocError> {
    told(alloc, &Limits::default(), MAX_TREE, format, form)
}

#[test]
fn lines_and_forms_of_trees(rt: HostRuntime) {
    prints(
        &rt,
        default_text(rt.alloc(), Format::Line, FORM),
        "a + on (b) sum(c)",
    );
    prints(&rt, default_text(rt.alloc(), Format::Json, FORM), FORM);
}

/// Widths, and the layout from the first column in lines of so many bytes at most.
const LAYOUTS: [(usize, &str); 6] = [
    (0, "  a\n+ on (b)\n  sum(\n    c\n  )"),
    (5, "  a\n+ on (b)\n  sum(\n    c\n  )"),
    (6, "  a\n+ on (b)\n  sum(c)"),
    (16, "  a\n+ on (b)\n  sum(c)"),
    (17, "a + on (b) sum(c)"),
    (usize::MAX, "a + on (b) sum(c)"),
];

const LEVELS: [u16; 5] = [0, 1, 255, 256, 512];

/// The lines of a layout, each after so many indentations.
fn indented(alloc: Global, text: &str, level: u16) -> Result<String, AllocError> {
    let mut made = String::new(alloc);
    for line in text.split_inclusive('\n') {
        for _ in 0..level {
            made.push_str("  ")?;
        }
        made.push_str(line)?;
    }
    Ok(made)
}

fn is_laid(alloc: Global, level: u16, width: usize, want: &str) -> Result<bool, AllocError> {
    let laid = default_text(alloc, Format::Pretty(Layout { level, width }), FORM)?;
    Ok(laid == indented(alloc, want, level)?)
}

#[test]
fn layouts_of_trees(rt: HostRuntime) {
    for (width, want) in LAYOUTS {
        for level in LEVELS {
            super::is_so(&rt, is_laid(rt.alloc(), level, width, want), want);
        }
    }
}

/// Forms of the left side of an operator, and what is at fault in each.
const MISFITS: &str = r#"1 => : an object
{"type":"number"} => .type: the type of a node
{"type":"numberLiteral"} => .val: a member that is missing
{"type":"numberLiteral","val":"1","x":1} => .x: no such member
{"type":"numberLiteral","val":".5"} => .val: the text of a number
{"type":"stringLiteral","val":1} => .val: a text
{"expr":1,"op":"+","type":"unaryExpr"} => .op: the operator -
{"expr":1,"op":"-","type":"unaryExpr"} => .expr: an object
{"expr":1,"grouping":[],"op":"+","param":null,"type":"aggregation","without":false} => .op: an aggregator
{"expr":1,"grouping":[],"op":"sum","param":null,"type":"aggregation","without":1} => .without: true or false
{"expr":1,"grouping":["a",1],"op":"sum","param":null,"type":"aggregation","without":true} => .grouping[1]: a text
{"bool":false,"lhs":1,"matching":null,"op":"=~","rhs":1,"type":"binaryExpr"} => .op: an operator between two expressions
{"bool":false,"lhs":1,"matching":{"card":"one","fillValues":{"lhs":null,"rhs":null},"include":[],"labels":[],"on":false},"op":"+","rhs":1,"type":"binaryExpr"} => .matching.card: a cardinality
{"bool":false,"lhs":1,"matching":{"card":"one-to-one","fillValues":{"lhs":null,"rhs":null},"include":["a"],"labels":[],"on":false},"op":"+","rhs":1,"type":"binaryExpr"} => .matching.include: an empty list
{"args":1,"func":{"argTypes":[],"experimental":false,"name":"time","returnType":"scalar","variadic":0},"type":"call"} => .args: a list
{"args":[],"func":{"argTypes":[],"experimental":false,"name":"tim","returnType":"scalar","variadic":0},"type":"call"} => .func.name: the name of a function
{"args":[],"func":{"argTypes":[],"experimental":true,"name":"time","returnType":"scalar","variadic":0},"type":"call"} => .func.experimental: what the function has
{"matchers":[{"name":"a","type":"==","value":"b"}],"name":"a","offset":0,"startOrEnd":null,"timestamp":null,"type":"vectorSelector"} => .matchers[0].type: =, !=, =~ or !~
{"matchers":[{"name":"a","type":"=~","value":"("}],"name":"a","offset":0,"startOrEnd":null,"timestamp":null,"type":"vectorSelector"} => .matchers[0].value: a pattern
{"matchers":[],"name":"a","offset":0.5,"startOrEnd":null,"timestamp":null,"type":"vectorSelector"} => .offset: a whole number of milliseconds
{"matchers":[],"name":"a","offset":0,"or_matchers":[],"startOrEnd":null,"timestamp":null,"type":"vectorSelector"} => .or_matchers: a list that is not empty
{"matchers":[],"name":"a","offset":0,"startOrEnd":"now","timestamp":null,"type":"vectorSelector"} => .startOrEnd: start, end or null
{"matchers":[],"name":"a","offset":0,"startOrEnd":"end","timestamp":1,"type":"vectorSelector"} => .timestamp: null, since startOrEnd is there
{"matchers":[],"name":"a","offset":0,"range":-1,"startOrEnd":null,"timestamp":null,"type":"matrixSelector"} => .range: a whole number of milliseconds, not below zero
{"matchers":[],"name":"a","offset":0,"range":1,"rangeMode":"plain","startOrEnd":null,"timestamp":null,"type":"matrixSelector"} => .rangeMode: smoothed or anchored"#;

/// What is told of the sum of a number and a tree of this form.
fn misfit_text(alloc: Global, form: &str) -> Result<String, AllocError> {
    let sum = format!(in alloc;
        "{{\"bool\":false,\"lhs\":{form},\"matching\":null,\"op\":\"+\",\"rhs\":{{\"type\":\"numberLiteral\",\"val\":\"1\"}},\"type\":\"binaryExpr\"}}"
    )?;
    default_text(alloc, Format::Line, sum.as_str())
}

fn is_misfit(alloc: Global, form: &str, want: &str) -> Result<bool, AllocError> {
    let found = misfit_text(alloc, form)?;
    Ok(found == format!(in alloc; "17 $.lhs{want}")?)
}

#[test]
fn misfits_have_the_path(rt: HostRuntime) {
    for row in MISFITS.split('\n') {
        let (form, want) = row.split_once(" => ").unwrap_or((row, "no column"));
        super::is_so(&rt, is_misfit(rt.alloc(), form, want), row);
    }
}

/// Limits of a line of 5 bytes, and of patterns that measure 18 together.
const SMALL: Limits = Limits {
    max_len: 5,
    max_pattern_size: 18,
    max_output: 5,
    target: Target::Rules,
    printed: Printed::Tree,
};

/// Forms that are not within the limits, and others.
const LARGE: &str =
    r#"{"type":"numberLiteral","val":"123456789"} => 14 tree is too long: 42 bytes, at most 41
[{"type":"=~","value":"aaaaaaaaaaaaaaaa"}] => 14 tree is too long: 42 bytes, at most 41
0123456789 123456789 123456789 123456789 1 => 14 tree is too long: 42 bytes, at most 41
[{"type":"=~","value":"aaaaaaaaaaaaaaa"}] => 14 patterns are too large: 21, at most 18
[{"type":"!~","value":"\\w\\w"}] => 14 patterns are too large: 54, at most 18
[{"type":"!~","value":"\\w"}] => 14 patterns are too large: 30, at most 18
[{"type":"=~","value":"aaaaaaaaaaaa"}] => 17 $: an object
[{"type":"=","value":"\\w\\w\\w"}] => 17 $: an object
0123456789 123456789 123456789 123456789  => 17 not JSON
{"type":"numberLiteral","val":"12345678"} => 14 query is too long: 8 bytes, at most 5
{"type":"numberLiteral","val":"12345"} => 12345"#;

#[test]
fn limits_of_trees(rt: HostRuntime) {
    for row in LARGE.split('\n') {
        let (form, want) = row.split_once(" => ").unwrap_or((row, "no column"));
        prints(&rt, told(rt.alloc(), &SMALL, 41, Format::Line, form), want);
    }
}
