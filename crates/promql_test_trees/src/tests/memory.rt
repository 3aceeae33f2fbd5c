//! Allocations that fail: bin/test_memory makes each fail in turn. Then a call runs out of memory or does what it does with
//! memory, and what it was called on is what it was.

use super::trees::{
    call, equal, five_minutes, grouped, include, is_copy, is_read, name, new_box, read,
};
use promql_ast::{CheckError, Expr, FunctionArgs, VectorSelector};
use promql_label::{Labels, Matchers};
use promql_parser::parser::{ParseError, Prettier, PrettyError};
use promql_token::ids::{T_ADD, T_SUM};
use promql_walk::{JsonError, ToJson};
use std::alloc::{AllocError, Global};

const TEXT: &str = r#"foo{a="1"} + on (a) group_left (b) sum by (c) (rate(x[5m]))"#;

/// `foo{a="1"}`
fn foo(alloc: Global) -> Result<VectorSelector, CheckError> {
    let matchers = Matchers::one(alloc, equal(alloc, "a", "1")?)?;
    Ok(VectorSelector::new(Some(String::from_str(alloc, "foo")?), matchers))
}

/// `sum by (c) (rate(x[5m]))`
fn sum_of_rate(alloc: Global) -> Result<Expr, CheckError> {
    let rate = call(alloc, "rate", five_minutes(name(alloc, "x")?)?)?;
    let args = FunctionArgs::new_args(alloc, rate)?;
    Expr::new_aggregate_expr(alloc, T_SUM, Some(include(alloc, &["c"])?), args)
}

/// The expression of `TEXT`.
fn built(alloc: Global) -> Result<Box<Expr>, CheckError> {
    let modifier = grouped(alloc, &["a"], &["b"])?;
    let foo = foo(alloc)?;
    let sum = sum_of_rate(alloc)?;
    let expr = Expr::new_binary_expr(alloc, Expr::from(foo), T_ADD, Some(modifier), sum)?;
    Ok(new_box(alloc, Expr::checked(alloc, expr)?)?)
}

/// Whether the expression prints `TEXT`, or there is no memory to print it.
fn is_printed(alloc: Global, expr: &Expr) -> bool {
    match expr.to_string(alloc) {
        Ok(text) => text.as_str() == TEXT,
        Err(_) => true,
    }
}

/// Whether a copy is the expression, or there is no memory for one.
fn is_copied(alloc: Global, expr: &Expr) -> bool {
    is_copy(expr, expr.try_clone(alloc)).unwrap_or(true)
}

#[test]
fn building_runs_out_of_memory_or_gives_the_tree(rt: HostRuntime) {
    let alloc = rt.alloc();
    match built(alloc) {
        Ok(expr) => {
            assert!(rt; is_printed(alloc, &expr));
            assert!(rt; is_copied(alloc, &expr));
            assert!(rt; is_printed(alloc, &expr));
        }
        Err(error) => assert!(rt; error == CheckError::Memory),
    }
}

/// The expression over lines of so many bytes; None if an allocation failed.
fn layout(alloc: Global, text: &str, max: usize) -> Result<Option<String>, PrettyError> {
    match read(alloc, text) {
        Ok(expr) => Ok(Some(expr.pretty(alloc, 0, max)?)),
        Err(ParseError::Memory) => Ok(None),
        Err(_) => Err(PrettyError::IndentTooWide),
    }
}

/// Expressions in lines of so many bytes.
const LAYOUTS: [(&str, usize, &str); 2] = [
    ("time()", 3, "time(\n\n)"),
    (
        "sum by (b) (a) / c",
        10,
        "  sum by (b) (\n    a\n  )\n/\n  c",
    ),
];

#[test]
fn layouts_run_out_of_memory_or_are_whole(rt: HostRuntime) {
    let alloc = rt.alloc();
    for (text, max, want) in &LAYOUTS {
        match layout(alloc, text, *max) {
            Ok(Some(found)) => assert_eq!(rt; found.as_str(), *want),
            Ok(None) => {}
            Err(error) => assert!(rt; error == PrettyError::Memory),
        }
    }
}

const TOPK: &str =
    r#"{"expr":{"matchers":[],"name":"a","offset":0,"startOrEnd":null,"timestamp":null,"type":"vectorSelector"},"grouping":[],"op":"topk","param":{"type":"numberLiteral","val":"5"},"type":"aggregation","without":false}"#;

/// The compact JSON of a text's expression, `Memory` where there is none.
fn form(alloc: Global, text: &str) -> Result<String, JsonError> {
    match read(alloc, text) {
        Ok(expr) => Ok(expr.to_json(alloc)?.to_string(alloc)?),
        Err(_) => Err(JsonError::Memory),
    }
}

#[test]
fn a_form_runs_out_of_memory_or_is_whole(rt: HostRuntime) {
    match form(rt.alloc(), "topk(5, a)") {
        Ok(text) => assert_eq!(rt; text.as_str(), TOPK),
        Err(error) => assert!(rt; error == JsonError::Memory),
    }
}

/// Expressions with patterns, groups of matchers, fill values and each kind of modifier.
const TEXTS: [&str; 8] = [
    "http_requests_total{\nenvironment=~\"staging|testing|development\",\nmethod!=\"GET\"\n} offset 5m",
    "a * on (l) group_left (x) + y",
    r#"{a="1" or or="2", c="3"}"#,
    r"{a=~`x\d{b}`}",
    "time()",
    "sum by (b) (a) / c",
    r#"sum by (l, "m n") (rate(a{b!~"c|d"}[5m] smoothed @ start() offset -1m)) == bool on (l) group_right (k) fill_left (1) fill_right (-2) topk without (l) (5, max_over_time((b @ 1.5 offset 2h)[1h:5m] @ end() offset 3s))"#,
    r#"label_replace(a, "b", "$1", "c", `d\.(.*)`) and ignoring (e) -(f ^ 2) unless g + fill (0) rate(h[1m] anchored)"#,
];

/// Whether the layout is read as the expression, or there is no memory for it.
fn is_laid_out(alloc: Global, expr: &Expr) -> bool {
    match expr.prettify(alloc) {
        Ok(laid) => is_read_again(alloc, expr, laid.as_str()),
        Err(error) => error == PrettyError::Memory,
    }
}

/// Whether the text gives this expression, or there is no memory to read it.
fn is_read_again(alloc: Global, expr: &Expr, text: &str) -> bool {
    match is_read(alloc, expr, text) {
        Ok(is_read) => is_read,
        Err(error) => error == ParseError::Memory,
    }
}

/// Whether copying and laying out give what they should or run out of memory, and leave the expression of the text.
fn is_left(alloc: Global, text: &str) -> Result<bool, ParseError> {
    let expr = read(alloc, text)?;
    Ok(is_copied(alloc, &expr) && is_laid_out(alloc, &expr) && is_read_again(alloc, &expr, text))
}

#[test]
fn calls_on_expressions_leave_them(rt: HostRuntime) {
    for text in &TEXTS {
        match is_left(rt.alloc(), text) {
            Ok(is_left) => assert!(rt; is_left, "{text}"),
            Err(error) => assert!(rt; error == ParseError::Memory, "{text}"),
        }
    }
}

/// The matchers of a selector.
fn matchers_of(expr: &Expr) -> Option<&Matchers> {
    match expr {
        Expr::VectorSelector(e) => Some(&e.matchers),
        _ => None,
    }
}

/// Whether the two matchers of `a` are found, or there is no memory for them.
fn finds_both(alloc: Global, expr: &Expr) -> bool {
    let Some(matchers) = matchers_of(expr) else {
        return false;
    };
    match matchers.find_matchers(alloc, "a") {
        Ok(found) => found.len() == 2,
        Err(_) => true,
    }
}

/// A selector with two matchers of `a`, one of them a pattern.
const TWICE: &str = r#"{a="1",b="2" or c!="3",a=~"4|5"}"#;

#[test]
fn finding_matchers_leaves_them(rt: HostRuntime) {
    let alloc = rt.alloc();
    match read(alloc, TWICE) {
        Ok(expr) => {
            assert!(rt; finds_both(alloc, &expr));
            assert!(rt; is_read_again(alloc, &expr, TWICE));
        }
        Err(error) => assert!(rt; error == ParseError::Memory),
    }
}

/// Whether these are the labels.
fn has_labels(labels: &Labels, texts: &[&str]) -> bool {
    labels.labels.len() == texts.len()
        && labels
            .labels
            .iter()
            .zip(texts)
            .all(|(label, text)| label.as_str() == *text)
}

/// Whether the common labels of the lists are these, or there is no memory for them.
fn has_common(alloc: Global, left: &Labels, right: &Labels, texts: &[&str]) -> bool {
    match left.intersect(alloc, right) {
        Ok(both) => has_labels(&both, texts),
        Err(_) => true,
    }
}

/// Whether common labels are found, or there is no memory for them, and the lists are as they were.
fn intersects_well(alloc: Global) -> Result<bool, AllocError> {
    let left = Labels::new(alloc, ["foo", "bar", "foo"].to_vec(alloc)?)?;
    match Labels::new(alloc, ["bar", "foo"].to_vec(alloc)?) {
        Ok(right) => Ok(
            has_common(alloc, &left, &right, &["foo", "bar"])
                && has_labels(&left, &["foo", "bar", "foo"])
                && has_labels(&right, &["bar", "foo"]),
        ),
        Err(error) => Err(error),
    }
}

#[test]
fn intersecting_labels_leaves_them(rt: HostRuntime) {
    if let Ok(is_left) = intersects_well(rt.alloc()) {
        assert!(rt; is_left);
    }
}
