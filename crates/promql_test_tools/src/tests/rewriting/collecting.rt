//! What queries name.

use crate::tests::{Failed, columns, prints};
use promql_ast::{AtModifier, Expr, Offset};
use promql_rewrite::{CollectedSelector, collect};
use promql_syntax::parser::parse;
use std::alloc::{AllocError, Global};

/// Each query with its metric names, its label names, its functions, and its selectors with their times. Aggregators are no
/// functions, and parameters come first. The range of a subquery is none of its selectors'. Strings name no label. The metric's
/// name may be among the matchers, in or-groups too. The second argument of `info` is a selector like any other. Names are in byte
/// order.
const ROWS: &str = r#"foo => foo |  |  | foo{} |
1 + 2 =>  |  |  |  |
b + a => a, b |  |  | b{}, a{} |
a + a => a |  |  | a{}, a{} |
sum by (job) (rate(a{b="c"}[5m])) / on (job) d offset 1h => a, d | b, job | rate | a{b="c"} over 300s, d{} offset 3600s |
a * on (b, c) group_left (d, e) f{g="h"} => a, f | b, c, d, e, g |  | a{}, f{g="h"} |
a{b="c"} * ignoring (d) group_right (e) f => a, f | b, d, e |  | a{b="c"}, f{} |
topk(scalar(k), a) => a, k |  | scalar | k{}, a{} |
quantile without (le, b) (0.9, a) => a | b, le |  | a{} |
abs(abs(a)) => a |  | abs | a{} |
time() - vector(1) =>  |  | time, vector |  |
max_over_time(rate(a[5m])[1h:1m] @ start()) => a |  | max_over_time, rate | a{} over 300s |
rate(a[5m] offset -1m @ end()) + b @ 1.5 => a, b |  | rate | a{} over 300s offset -60s at end, b{} at 1500 |
label_replace(a, "b", "c", "d", "e") => a |  | label_replace | a{} |
count_values("b", a) => a |  |  | a{} |
{__name__="a",b!="c"} => a | b |  | {__name__="a",b!="c"} |
{"a.b", "c d"="e"} => a.b | c d |  | {"c d"="e",__name__="a.b"} |
{__name__=~"a|b"} =>  |  |  | {__name__=~"a|b"} |
{__name__!="a",b="c"} =>  | b |  | {__name__!="a",b="c"} |
{__name__="a" or b="c",__name__="d"} => a, d | b |  | {__name__="a" or b="c", __name__="d"} |
a{b="1" or c="2"}[5m] => a | b, c |  | a{b="1" or c="2"} over 300s |
info(a, {b="c"}) => a | b | info | a{}, {b="c"} |
sum by (__name__) (a) => a | __name__ |  | a{} |
a_b + ab + B + a:b => B, a:b, a_b, ab |  |  | a_b{}, ab{}, B{}, a:b{} |"#;

/// The tree of a query.
fn read(alloc: Global, query: &str) -> Result<Box<Expr>, Failed> {
    Ok(Box::new(alloc, parse(alloc, query)?)?)
}

/// The texts, with a comma between each two.
fn push_all(text: &mut String, parts: &[String]) -> Result<(), AllocError> {
    for (i, part) in parts.iter().enumerate() {
        if i > 0 {
            text.push_str(", ")?;
        }
        text.push_str(part.as_str())?;
    }
    Ok(())
}

fn name_of(selector: &CollectedSelector) -> &str {
    match &selector.name {
        Some(name) => name.as_str(),
        None => "",
    }
}

fn range_text(alloc: Global, selector: &CollectedSelector) -> Result<String, AllocError> {
    match selector.range {
        Some(range) => format!(in alloc; " over {}s", range.as_secs()),
        None => Ok(String::new(alloc)),
    }
}

fn offset_text(alloc: Global, selector: &CollectedSelector) -> Result<String, AllocError> {
    match selector.offset {
        Some(Offset::Pos(by)) => format!(in alloc; " offset {}s", by.as_secs()),
        Some(Offset::Neg(by)) => format!(in alloc; " offset -{}s", by.as_secs()),
        None => Ok(String::new(alloc)),
    }
}

fn at_text(alloc: Global, selector: &CollectedSelector) -> Result<String, AllocError> {
    match selector.at {
        Some(AtModifier::Start) => String::from_str(alloc, " at start"),
        Some(AtModifier::End) => String::from_str(alloc, " at end"),
        Some(AtModifier::At(millis)) => format!(in alloc; " at {}", millis),
        None => Ok(String::new(alloc)),
    }
}

/// The selector with its times.
fn push_selector(
    alloc: Global,
    text: &mut String,
    selector: &CollectedSelector,
) -> Result<(), AllocError> {
    text.push_str(name_of(selector))?;
    text.push_str("{")?;
    text.push_str(selector.matchers.as_str())?;
    text.push_str("}")?;
    text.push_str(range_text(alloc, selector)?.as_str())?;
    text.push_str(offset_text(alloc, selector)?.as_str())?;
    text.push_str(at_text(alloc, selector)?.as_str())
}

fn push_selectors(
    alloc: Global,
    text: &mut String,
    selectors: &[CollectedSelector],
) -> Result<(), AllocError> {
    for (i, selector) in selectors.iter().enumerate() {
        if i > 0 {
            text.push_str(", ")?;
        }
        push_selector(alloc, text, selector)?;
    }
    Ok(())
}

/// What the expression names, as in the rows.
fn push_names(alloc: Global, text: &mut String, expr: &Expr) -> Result<(), AllocError> {
    let found = collect(alloc, expr)?;
    push_all(text, &found.metric_names)?;
    text.push_str(" | ")?;
    push_all(text, &found.label_names)?;
    text.push_str(" | ")?;
    push_all(text, &found.functions)?;
    text.push_str(" | ")?;
    push_selectors(alloc, text, &found.selectors)
}

fn names_of(alloc: Global, query: &str) -> Result<String, Failed> {
    let expr = read(alloc, query)?;
    let mut text = String::new(alloc);
    push_names(alloc, &mut text, &expr)?;
    text.push_str(" |")?;
    Ok(text)
}

#[test]
fn each_query_names_these(rt: HostRuntime) {
    for row in ROWS.split('\n') {
        let (query, want) = columns(row);
        prints(&rt, names_of(rt.alloc(), query), want);
    }
}
