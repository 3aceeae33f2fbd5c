//! Metrics and labels by other names.

use crate::tests::{Failed, columns, holds, is_so, prints};
use promql_ast::Expr;
use promql_rewrite::{RenameLabelError, RenameMetricError, rename_label, rename_metric};
use promql_syntax::parser::parse;
use std::alloc::{AllocError, Global};
use std::process::Abort;

/// Each query with a label and its new name, and the line once it is renamed, or the message of the error. A metric of that name,
/// and strings, are no labels. Labels clash in one node alone. The label of the metric's name stays.
const LABEL_ROWS: &str = r#"a => b => c => a
a{b="1"} => b => c => a{c="1"}
a{b="1",d!="2"}[5m] => d => c => a{b="1",c!="2"}[5m]
a{b="1" or b=~"2",d="3"} => b => c => a{c="1" or c=~"2", d="3"}
sum by (b) (a) => b => c => sum by (c) (a)
sum without (d, b) (a) => b => c => sum without (d, c) (a)
a * on (b) group_left (d) e => d => c => a * on (b) group_left (c) e
a * ignoring (b) group_right (d) e => b => c => a * ignoring (c) group_right (d) e
topk(scalar(k{b="1"}), -(rate(a{b="2"}[5m:1m]))) => b => c => topk(scalar(k{c="1"}), -(rate(a{c="2"}[5m:1m])))
b{b="b"} => b => c => b{c="b"}
label_replace(a, "b", "$1", "b", ".*") => b => c => label_replace(a, "b", "$1", "b", ".*")
a{b="1"} => b => c d => a{"c d"="1"}
a{b="1",c="2"} => b => c => both labels are in one list
a * on (b) group_left (c) e => b => c => both labels are in one list
sum by (c) (a{b="1"}) => b => c => sum by (c) (a{c="1"})
a{b="1"} => b => b => a{b="1"}
a{b="1"} => b => __name__ => the label of the metric name cannot be renamed
a => __name__ => b => the label of the metric name cannot be renamed"#;

/// Each query with a metric and its new name, and the line once it is renamed, or the message of the error.
const METRIC_ROWS: &str = r#"a => a => b => b
a + c => a => b => b + c
rate(a{a="a"}[5m]) => a => b => rate(b{a="a"}[5m])
{__name__="a"} => a => b => {__name__="b"}
{__name__="a" or c="a",__name__="a"} => a => b => {__name__="b" or c="a", __name__="b"}
{__name__=~"a"} => a => b => {__name__=~"a"}
{__name__!="a",c="d"} => a => b => {__name__!="a",c="d"}
sum by (a) (a) => a => by => sum by (a) (by)
a => a => b:c => b:c
a => a => b.c => the new name is no name of a metric
a => a => bool => the new name is no name of a metric
a => a =>  b => the new name is no name of a metric"#;

fn line_of(alloc: Global, expr: Expr) -> Result<String, AllocError> {
    let line = expr.to_string(alloc);
    drop(expr);
    line
}

fn label_message(alloc: Global, error: RenameLabelError) -> Result<String, AllocError> {
    let message = error.to_string(alloc);
    drop(error);
    message
}

fn metric_message(alloc: Global, error: RenameMetricError) -> Result<String, AllocError> {
    let message = error.to_string(alloc);
    drop(error);
    message
}

fn label_line(alloc: Global, query: &str, from: &str, to: &str) -> Result<String, Failed> {
    let expr = parse(alloc, query)?;
    match rename_label(alloc, expr, from, to) {
        Ok(expr) => Ok(line_of(alloc, expr)?),
        Err(error) => Ok(label_message(alloc, error)?),
    }
}

fn metric_line(alloc: Global, query: &str, from: &str, to: &str) -> Result<String, Failed> {
    let expr = parse(alloc, query)?;
    match rename_metric(alloc, expr, from, to) {
        Ok(expr) => Ok(line_of(alloc, expr)?),
        Err(error) => Ok(metric_message(alloc, error)?),
    }
}

#[test]
fn labels_have_other_names(rt: HostRuntime) {
    for row in LABEL_ROWS.split('\n') {
        let (query, others) = columns(row);
        let (from, others) = columns(others);
        let (to, want) = columns(others);
        prints(&rt, label_line(rt.alloc(), query, from, to), want);
    }
}

#[test]
fn metrics_have_other_names(rt: HostRuntime) {
    for row in METRIC_ROWS.split('\n') {
        let (query, others) = columns(row);
        let (from, others) = columns(others);
        let (to, want) = columns(others);
        prints(&rt, metric_line(rt.alloc(), query, from, to), want);
    }
}

/// A name of 10,000 letters.
fn long_name(alloc: Global) -> Result<String, AllocError> {
    let mut name = String::new(alloc);
    for _ in 0..10_000 {
        name.push_str("x")?;
    }
    Ok(name)
}

/// Whether a label of this name is put in a query.
fn is_label(alloc: Global, name: &str) -> Result<bool, Failed> {
    let label = label_line(alloc, "sum by (b) (a)", "b", name)?;
    Ok(label == format!(in alloc; "sum by ({name}) (a)")?)
}

/// Long names of metrics and labels.
fn check_long_name(rt: &impl Abort, alloc: Global, name: &str) {
    prints(rt, metric_line(alloc, name, name, "b"), "b");
    prints(rt, metric_line(alloc, "b", "b", name), name);
    is_so(rt, is_label(alloc, name), "a long label");
}

#[test]
fn long_names_too(rt: HostRuntime) {
    match long_name(rt.alloc()) {
        Ok(name) => check_long_name(&rt, rt.alloc(), name.as_str()),
        Err(_) => holds(&rt, false, "a long name"),
    }
}
