//! A matcher in every selector.

use crate::tests::{Failed, columns, is_so, prints};
use promql_label::{MatchOp, Matcher};
use promql_rewrite::{EnforceError, EnforceWithinError, enforce_query, enforce_text_within};
use promql_syntax::parser::parse;
use std::alloc::{AllocError, Global};

/// Each query with its line once `namespace="team-a"` is enforced, or the message of its rejection. In groups the matcher is in
/// each, unless it is there. Of the matchers of its label only an equal one makes a difference. The second argument of `info`
/// selects series like any other, and has to be there.
const ROWS: &str = r#"foo => foo{namespace="team-a"}
foo{} => foo{namespace="team-a"}
a + b => a{namespace="team-a"} + b{namespace="team-a"}
sum by (job) (rate(a{b="c"}[5m])) / on (job) d offset 1h => sum by (job) (rate(a{b="c",namespace="team-a"}[5m])) / on (job) d{namespace="team-a"} offset 1h
absent(a) => absent(a{namespace="team-a"})
max_over_time(rate(a[5m])[1h:1m] @ start()) => max_over_time(rate(a{namespace="team-a"}[5m])[1h:1m] @ start())
topk(scalar(k), a) => topk(scalar(k{namespace="team-a"}), a{namespace="team-a"})
-a ^ 2 => -a{namespace="team-a"} ^ 2
(a) offset 5m => offset modifier must be preceded by an vector selector or matrix selector or a subquery
a[5m] anchored => a{namespace="team-a"}[5m] anchored
1 + 2 => 1 + 2
label_replace(a, "b", "c", "d", "e") => label_replace(a{namespace="team-a"}, "b", "c", "d", "e")
{a="1" or b="2"} => {a="1", namespace="team-a" or b="2", namespace="team-a"}
{a="1" or namespace="team-a" or b="2"} => {a="1", namespace="team-a" or namespace="team-a" or b="2", namespace="team-a"}
a{namespace="team-a"} => a{namespace="team-a"}
a{namespace="team-a",b="c"} => a{b="c",namespace="team-a"}
a{namespace="team-b"} => a{namespace="team-a",namespace="team-b"}
a{namespace!="team-a"} => a{namespace!="team-a",namespace="team-a"}
a{namespace=~"team-a"} => a{namespace="team-a",namespace=~"team-a"}
a{namespace=""} => a{namespace="",namespace="team-a"}
{"a.b", "c d"="e"} => {"c d"="e",__name__="a.b",namespace="team-a"}
{__name__=~"a|b"} => {__name__=~"a|b",namespace="team-a"}
info(a, {b="c"}) => info(a{namespace="team-a"}, {b="c",namespace="team-a"})
info(a) => info without a selector reads series that no matcher limits
topk(scalar(info(a)), b) => info without a selector reads series that no matcher limits
a + info(b, -info(c)) => info without a selector reads series that no matcher limits
{} => vector selector must contain at least one non-empty matcher
a + => invalid promql query
rate(a) => expected type matrix in call to function 'rate', got vector"#;

fn tenant(alloc: Global) -> Result<Box<Matcher>, AllocError> {
    let matcher = Matcher::new(alloc, MatchOp::Equal, "namespace", "team-a")?;
    Ok(Box::new(alloc, matcher)?)
}

/// The line of the query once the matcher is enforced, or the message of the error.
fn enforced(alloc: Global, query: &str, matcher: &Matcher) -> Result<String, AllocError> {
    match enforce_query(alloc, query, matcher) {
        Ok(line) => Ok(line),
        Err(error) => {
            let message = error.to_string(alloc);
            drop(error);
            message
        }
    }
}

/// The line of the query once `namespace="team-a"` is enforced, or the message of the error.
fn tenants_line(alloc: Global, query: &str) -> Result<String, AllocError> {
    let matcher = tenant(alloc)?;
    enforced(alloc, query, &matcher)
}

#[test]
fn each_selector_has_the_matcher(rt: HostRuntime) {
    for row in ROWS.split('\n') {
        let (query, want) = columns(row);
        prints(&rt, tenants_line(rt.alloc(), query), want);
    }
}

/// A text that is repeated between two others: the front, the text and the back.
type Parts = (&'static str, &'static str, &'static str);

/// Long queries and their lines once `namespace="team-a"` is enforced, with how often the text in the middle is repeated.
const LONG_ROWS: [(usize, Parts, Parts); 3] = [
    (
        500,
        ("a", " + a", ""),
        (
            r#"a{namespace="team-a"}"#,
            r#" + a{namespace="team-a"}"#,
            "",
        ),
    ),
    (
        300,
        (r#"{a="1""#, r#" or b="2""#, "}"),
        (
            r#"{a="1", namespace="team-a""#,
            r#" or b="2", namespace="team-a""#,
            "}",
        ),
    ),
    (
        600,
        (r#"a{b="1""#, r#",b="1""#, "}"),
        (r#"a{b="1""#, r#",b="1""#, r#",namespace="team-a"}"#),
    ),
];

fn repeated(alloc: Global, parts: &Parts, times: usize) -> Result<String, AllocError> {
    let (front, text, back) = *parts;
    let mut made = String::from_str(alloc, front)?;
    for _ in 0..times {
        made.push_str(text)?;
    }
    made.push_str(back)?;
    Ok(made)
}

/// Whether the query of these parts has the line of those, once `namespace="team-a"` is enforced.
fn is_long_line(
    alloc: Global,
    query: &Parts,
    want: &Parts,
    times: usize,
) -> Result<bool, AllocError> {
    let query = repeated(alloc, query, times)?;
    let line = tenants_line(alloc, query.as_str())?;
    Ok(line == repeated(alloc, want, times)?)
}

#[test]
fn long_queries_too(rt: HostRuntime) {
    for (times, query, want) in &LONG_ROWS {
        is_so(&rt, is_long_line(rt.alloc(), query, want, *times), want.1);
    }
}

/// Whether a matcher with a value of so many letters is in both selectors of a query.
fn is_in_both(alloc: Global, size: usize) -> Result<bool, AllocError> {
    let value = repeated(alloc, &("", "x", ""), size)?;
    let matcher = Matcher::new(alloc, MatchOp::Equal, "a", value.as_str())?;
    let line = enforced(alloc, "sum(b) / c", &matcher)?;
    let want = format!(in alloc; "sum(b{{a=\"{value}\"}}) / c{{a=\"{value}\"}}")?;
    Ok(line == want)
}

#[test]
fn long_matchers_too(rt: HostRuntime) {
    for size in [31, 1_000, 10_000] {
        is_so(&rt, is_in_both(rt.alloc(), size), "a long value");
    }
}

/// Each query with its line once `b="c"` is enforced.
const BOUNDED: &str = r#"a => a{b="c"}
a{d="e"} + a{b="c"} => a{b="c",d="e"} + a{b="c"}
{d="e" or b="c" or f="g"} => {d="e", b="c" or b="c" or f="g", b="c"}
time() => time()"#;

/// Whether the query has this line, which is not made where it may have one byte less.
fn is_bounded(alloc: Global, query: &str, want: &str) -> Result<bool, Failed> {
    let len = want.len();
    let enforced = enforce_text_within(alloc, parse(alloc, query)?, "b=\"c\"", len);
    let less = enforce_text_within(
        alloc,
        parse(alloc, query)?,
        "b=\"c\"",
        len.saturating_sub(1),
    );
    let is_long = matches!(less, Err(EnforceWithinError::TooLong(found)) if found == len);
    drop(less);
    match enforced {
        Ok(enforced) => {
            let line = enforced.expr.to_string(alloc);
            drop(enforced.expr);
            Ok(line?.as_str() == want && is_long && !enforced.has_pattern)
        }
        Err(_) => Ok(false),
    }
}

#[test]
fn lines_are_bounded(rt: HostRuntime) {
    for row in BOUNDED.split('\n') {
        let (query, want) = columns(row);
        is_so(&rt, is_bounded(rt.alloc(), query, want), query);
    }
}

/// Whether a matcher of the metric's name is rejected for that.
fn is_rejected(alloc: Global, query: &str) -> Result<bool, AllocError> {
    let matcher = Matcher::new(alloc, MatchOp::Equal, "__name__", "a")?;
    Ok(matches!(
        enforce_query(alloc, query, &matcher),
        Err(EnforceError::MetricName)
    ))
}

#[test]
fn the_metric_name_is_rejected(rt: HostRuntime) {
    // Before the query is looked at.
    for query in ["b", "b +", "info(b)"] {
        is_so(&rt, is_rejected(rt.alloc(), query), query);
    }
}
