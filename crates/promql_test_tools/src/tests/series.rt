//! Which series a query may read (docs/reference/when.md, "Series that a query may read").

use super::{Failed, columns, holds};
use promql_ast::Expr;
use promql_syntax::parser::parse;
use promql_when::{SeriesLabel, may_read};
use std::alloc::Global;

/// Queries, whether they may read `up{job="api",team=""}`, and whether `target_info`.
const READS: &str = "up => yes no
down => no no
{__name__=\"up\"} => yes no
{__name__=~\"u.\"} => yes no
{__name__!=\"up\",job=\"api\"} => no no
up{job=\"api\"} => yes no
up{job=\"web\"} => no no
up{job!=\"web\",job=~\"a.*\"} => yes no
up{job=~\"a\"} => no no
up{job!~\"a.*\"} => no no
up{env=\"\"} => yes no
up{env=~\".+\"} => no no
up{team=\"\"} => yes no
up{job=\"web\" or job=\"api\"} => yes no
up{job=\"web\" or env=\"x\"} => no no
{job=\"web\" or job=\"api\",env=\"x\" or job=\"api\",env=\"\"} => yes no
up{job=\"api\"}[5m] => yes no
down[5m] => no no
down + up => yes no
up + down => yes no
-(up) => yes no
max_over_time(up[5m:1m] offset 1y) => yes no
topk(scalar(up), down) => yes no
topk(scalar(down), up) => yes no
sum by (job) (down) => no no
label_replace(down, \"a\", \"up\", \"b\", \"\") => no no
info(down) => no yes
info(up) => yes yes
info(down, {job=\"api\"}) => yes no
info(down, {job=\"web\"}) => no no
target_info => no yes
1 => no no
\"up\" => no no
time() => no no";

/// The labels of `up`. The second `job` does not count.
const UP: [SeriesLabel<'static>; 4] = [
    SeriesLabel {
        name: "job",
        value: "api",
    },
    SeriesLabel {
        name: "__name__",
        value: "up",
    },
    SeriesLabel {
        name: "job",
        value: "web",
    },
    SeriesLabel {
        name: "team",
        value: "",
    },
];

/// The labels of `target_info`.
const INFO: [SeriesLabel<'static>; 1] = [SeriesLabel {
    name: "__name__",
    value: "target_info",
}];

/// The tree of a query.
fn read(alloc: Global, query: &str) -> Result<Box<Expr>, Failed> {
    Ok(Box::new(alloc, parse(alloc, query)?)?)
}

/// Whether the query may read the one series, and whether the other.
fn reads(alloc: Global, query: &str) -> Result<(bool, bool), Failed> {
    let expr = read(alloc, query)?;
    let up = may_read(alloc, &expr, &UP)?;
    let info = may_read(alloc, &expr, &INFO)?;
    Ok((up, info))
}

/// What a row says of the two.
fn said(words: &str) -> (bool, bool) {
    let (up, info) = words.split_once(' ').unwrap_or((words, ""));
    (up == "yes", info == "yes")
}

#[test]
fn series_that_are_read(rt: HostRuntime) {
    for row in READS.lines() {
        let (query, words) = columns(row);
        let is = match reads(rt.alloc(), query) {
            Ok(found) => found == said(words),
            Err(_) => false,
        };
        holds(&rt, is, row);
    }
}
