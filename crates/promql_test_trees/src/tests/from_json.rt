//! Trees that are read from their form, and values that are the form of none.

use super::trees::{new_box, read};
use super::{Failed, columns, is_so, prints};
use promql_ast::Expr;
use promql_from_json::{FromJsonError, from_json_text};
use promql_json::{JsonError, json_text};
use std::alloc::{AllocError, Global};

/// Queries on one line, of each kind of node and part.
const LINES: &str = r#"1.5
-Inf
"a\n\"é"
foo
{"a b"="1",c!=""} @ start() offset 5m
foo{a=~"b.*",c!~"d"}[5m] smoothed @ -1.000 offset -1h
{a="1" or b="2", c="3"}[1d] anchored
-foo
(foo)[1h:5m] @ end()
foo[30m:]
sum(foo)
topk by (a, b) (5, foo)
quantile without () (0.9, rate(foo[5m]))
a >= bool b
a > bool on (x) group_left (y) fill_left (0) b
a and ignoring (x) b or c unless d
a + ignoring () group_left () b
a * ignoring () group_right () b
a / on () group_right (x, y) fill (1) b
label_replace(foo, "a", "$1", "b", "(.*)")
time() ^ atan2_total * pi() atan2 1"#;

impl From<JsonError> for Failed {
    fn from(_error: JsonError) -> Failed {
        Failed
    }
}

impl From<FromJsonError> for Failed {
    fn from(_error: FromJsonError) -> Failed {
        Failed
    }
}

/// The form of a line's tree.
fn line_form(alloc: Global, line: &str) -> Result<String, Failed> {
    Ok(json_text(alloc, &*read(alloc, line)?)?)
}

/// Whether the tree of a line's form has this form and prints the line.
fn is_form(alloc: Global, line: &str) -> Result<bool, Failed> {
    let form = line_form(alloc, line)?;
    let made = new_box(alloc, from_json_text(alloc, form.as_str())?)?;
    let again = json_text(alloc, &made)?;
    Ok(again == form && made.to_string(alloc)?.as_str() == line)
}

#[test]
fn forms_of_lines_are_read(rt: HostRuntime) {
    for line in LINES.split('\n') {
        is_so(&rt, is_form(rt.alloc(), line), line);
    }
}

/// Texts, and the error of each.
const ERRORS: &str = r#" => not JSON
{} 1 => not JSON
1 => $: an object
{} => $.type: the type of a node
{"type":"number"} => $.type: the type of a node
{"type":"numberLiteral"} => $.val: a member that is missing
{"type":"numberLiteral","val":1} => $.val: a text
{"type":"numberLiteral","val":".5"} => $.val: the text of a number
{"type":"numberLiteral","val":"1","x":2} => $.x: no such member
{"a":0,"type":"numberLiteral","val":"1"} => $.a: no such member
{"type":"unaryExpr","op":"+","expr":{"type":"numberLiteral","val":"1"}} => $.op: the operator -
{"type":"unaryExpr","op":"-","expr":{"type":"parenExpr","expr":[]}} => $.expr.expr: an object
{"matchers":[],"name":"a","offset":0.5,"startOrEnd":null,"timestamp":null,"type":"vectorSelector"} => $.offset: a whole number of milliseconds
{"matchers":[],"name":"a","offset":0,"startOrEnd":"start","timestamp":1,"type":"vectorSelector"} => $.timestamp: null, since startOrEnd is there
{"matchers":[{"name":"a","type":"=","value":"1"},{"kind":1,"name":"a","type":"=","value":"1"}],"name":null,"offset":0,"startOrEnd":null,"timestamp":null,"type":"vectorSelector"} => $.matchers[1].kind: no such member
{"matchers":[{"name":"a","type":"=~","value":"("}],"name":null,"offset":0,"startOrEnd":null,"timestamp":null,"type":"vectorSelector"} => $.matchers[0].value: a pattern
{"matchers":[],"name":"a","offset":0,"or_matchers":[],"startOrEnd":null,"timestamp":null,"type":"vectorSelector"} => $.or_matchers: a list that is not empty
{"matchers":[],"name":"a","offset":0,"range":-1,"startOrEnd":null,"timestamp":null,"type":"matrixSelector"} => $.range: a whole number of milliseconds, not below zero
{"matchers":[],"name":"a","offset":0,"range":1,"rangeMode":"plain","startOrEnd":null,"timestamp":null,"type":"matrixSelector"} => $.rangeMode: smoothed or anchored
{"args":[],"func":{"argTypes":["scalar"],"experimental":false,"name":"time","returnType":"scalar","variadic":0},"type":"call"} => $.func.argTypes: what the function has
{"args":[],"func":{"argTypes":[],"experimental":false,"name":"tim","returnType":"scalar","variadic":0},"type":"call"} => $.func.name: the name of a function
{"args":[1],"func":{"argTypes":[],"experimental":false,"name":"time","returnType":"scalar","variadic":0},"type":"call"} => $.args[0]: an object
{"bool":true,"lhs":{"type":"numberLiteral","val":"1"},"matching":null,"op":"+","rhs":{"type":"numberLiteral","val":"2"},"type":"binaryExpr"} => $.matching: an object"#;

/// Why a text is the form of no tree.
fn error_of(alloc: Global, text: &str) -> Result<String, AllocError> {
    match from_json_text(alloc, text) {
        Ok(expr) => {
            drop::<Expr>(expr);
            Ok(String::new(alloc))
        }
        Err(error) => {
            let message = error.to_string(alloc);
            drop::<FromJsonError>(error);
            message
        }
    }
}

#[test]
fn errors_have_the_place(rt: HostRuntime) {
    for row in ERRORS.split('\n') {
        let (text, want) = columns(row);
        prints(&rt, error_of(rt.alloc(), text), want);
    }
}

/// What comes before the cardinality in the form of a binary expression, and what comes after it.
const AROUND_CARDINALITY: [&str; 2] = [
    r#"{"bool":false,"lhs":{"type":"stringLiteral","val":"a"},"matching":{"card":"#,
    r#","fillValues":{"lhs":null,"rhs":null},"include":[],"labels":[],"on":false},"op":"+","rhs":{"type":"stringLiteral","val":"b"},"type":"binaryExpr"}"#,
];

/// Cardinalities with a fault or two, and what the error says.
const CARDINALITIES: &str = r#"null => $.matching.card: a cardinality
1 => $.matching.card: a cardinality
[] => $.matching.card: a cardinality
"one-to-many" => $.matching.card: a cardinality
{} => $.matching.card.many-to-one: a member that is missing
{"many-to-one":1} => $.matching.card.many-to-one: a list
{"one-to-many":1} => $.matching.card.one-to-many: a list
{"many-to-one":[1]} => $.matching.card.many-to-one[0]: a text
{"one-to-many":[1]} => $.matching.card.one-to-many[0]: a text
{"many-to-one":["a",null,1]} => $.matching.card.many-to-one[1]: a text
{"one-to-many":["a",null,1]} => $.matching.card.one-to-many[1]: a text
{"many-to-one":[1],"z":0} => $.matching.card.z: no such member
{"one-to-many":[1],"z":0} => $.matching.card.z: no such member
{"a":0,"many-to-one":[1]} => $.matching.card.a: no such member
{"a":0,"one-to-many":[1]} => $.matching.card.a: no such member
{"o":0,"one-to-many":[1]} => $.matching.card.o: no such member
{"many-to-one":[1],"one-to-many":[1]} => $.matching.card.many-to-one: no such member
{"z":0} => $.matching.card.many-to-one: a member that is missing"#;

fn cardinality_error(alloc: Global, cardinality: &str) -> Result<String, AllocError> {
    let [before, after] = AROUND_CARDINALITY;
    let form = format!(in alloc; "{before}{cardinality}{after}")?;
    error_of(alloc, form.as_str())
}

#[test]
fn cardinalities_have_their_own_faults(rt: HostRuntime) {
    for row in CARDINALITIES.split('\n') {
        let (cardinality, want) = columns(row);
        prints(&rt, cardinality_error(rt.alloc(), cardinality), want);
    }
}

/// Lists of lines: what is before the items, what each has before and after its number, what is between them, and what is after them.
const LISTS: [[&str; 5]; 4] = [
    ["sum by (", "l", "", ", ", ") (foo)"],
    ["{", "l", "=~\"x\"", ",", "}"],
    ["{a=\"1\" or ", "l", "=\"x\"", " or ", "}"],
    ["label_join(foo, \"a\", \"b\", ", "\"l", "\"", ", ", ")"],
];

/// How many items a list has.
const SIZES: [u32; 2] = [21, 1_000];

/// The line of a list with so many items, which are in byte order.
fn list_line(alloc: Global, list: &[&str; 5], size: u32) -> Result<String, AllocError> {
    let [start, before, after, between, end] = *list;
    let mut line = format!(in alloc; "{start}{before}1000{after}")?;
    for number in 1..size {
        let item = format!(in alloc; "{between}{before}{}{after}", 1_000u32.wrapping_add(number))?;
        line.push_str(item.as_str())?;
    }
    line.push_str(end)?;
    Ok(line)
}

fn is_list_form(alloc: Global, list: &[&str; 5], size: u32) -> Result<bool, Failed> {
    let line = list_line(alloc, list, size)?;
    is_form(alloc, line.as_str())
}

#[test]
fn forms_of_long_lists_are_read(rt: HostRuntime) {
    for list in &LISTS {
        for size in SIZES {
            is_so(&rt, is_list_form(rt.alloc(), list, size), list[0]);
        }
    }
}
