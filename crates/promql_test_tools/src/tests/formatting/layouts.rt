//! Where lines are broken (docs/reference/formatting.md, "Lines", "Chains").

use crate::tests::{is_so, prints};
use promql_formatter::{FormatError, FormatOptions, format_query};
use promql_span::limits::MAX_OUTPUT;
use std::alloc::Global;

/// A query, a width, and the layout.
const LAYOUTS: [(&str, usize, &str); 37] = [
    ("a", 100, "a"),
    ("a", 0, "a"),
    ("a+b", 100, "a + b"),
    ("a+b", 5, "a + b"),
    ("aaa+bbb", 5, "aaa\n+ bbb"),
    ("sum(a)+sum(b)", 10, "sum(a)\n+ sum(b)"),
    ("sum(a)*60>1", 9, "sum(a)\n* 60 > 1"),
    ("sum(a)*60>1", 11, "sum(\n  a\n) * 60 > 1"),
    ("sum(a)*60>1", 10, "sum(\n  a\n) * 60 > 1"),
    ("f{a='1'}*60>1", 13, "f{a=\"1\"} * 60\n> 1"),
    ("sum(aaa)>bool-1", 14, "sum(\n  aaa\n) > bool -1"),
    ("sum(aaa)>time()", 14, "sum(\n  aaa\n) > time()"),
    ("sum(aaa)or vector(0)", 19, "sum(\n  aaa\n) or vector(0)"),
    ("sum(aaa)>sum(b)", 14, "sum(aaa)\n> sum(b)"),
    ("f{a='1'}/g{a='1'}>1", 14, "f{a=\"1\"}\n/ g{a=\"1\"} > 1"),
    ("sum(a)/sum(b)>1", 14, "sum(a)\n/ sum(b) > 1"),
    ("1-sum(a+b)", 9, "1 - sum(\n  a + b\n)"),
    ("1-sum(a)/sum(b)", 12, "1\n- sum(a)\n  / sum(b)"),
    (
        "sum(rate(foo{a='b'}[5m]))*60>1",
        24,
        "sum(\n  rate(foo{a=\"b\"}[5m])\n) * 60 > 1",
    ),
    ("f{a='1',b='2'}", 13, "f{\n  a=\"1\",\n  b=\"2\",\n}"),
    (
        "f{b='1',a='2',d='3',c='4'}",
        14,
        "f{\n  b=\"1\",a=\"2\",\n  d=\"3\",c=\"4\",\n}",
    ),
    ("sum(f{a='1',b='2'})", 16, "sum(\n  f{a=\"1\",b=\"2\"}\n)"),
    ("sum(f{a='1',b='2'})", 15, "sum(f{\n  a=\"1\",b=\"2\",\n})"),
    (
        "sum((f{a='1',b='2'}))",
        16,
        "sum(\n  (\n    f{\n      a=\"1\",\n      b=\"2\",\n    }\n  )\n)",
    ),
    (
        "sum(rate(f{a='1'}[5m]))",
        16,
        "sum(rate(\n  f{a=\"1\"}[5m]\n))",
    ),
    ("sum(a)by(bb,cc)>1", 18, "sum by (bb, cc) (\n  a\n) > 1"),
    (
        "topk(1,sum(f{a='1'}))",
        16,
        "topk(\n  1, sum(\n    f{a=\"1\"}\n  )\n)",
    ),
    (
        "topk(1,sum(a)+sum(b))",
        17,
        "topk(\n  1,\n  sum(a) + sum(b)\n)",
    ),
    (
        "label_replace(f,'aa','bb','cc','dd')",
        23,
        "label_replace(\n  f,\n  \"aa\", \"bb\", \"cc\",\n  \"dd\"\n)",
    ),
    ("{a='1' or b='2'}", 12, "{\n  a=\"1\"\n  or b=\"2\",\n}"),
    (
        "sum by(aaaaaaa,bbbbbbb)(c)",
        12,
        "sum by (\n  aaaaaaa,\n  bbbbbbb,\n) (c)",
    ),
    ("a or b or c", 8, "a\nor b\nor c"),
    ("a or b unless c", 8, "a\nor b\n  unless c"),
    (
        "sum(a)*bool_c+on(x)group_left(y)sum(d)",
        30,
        "sum(a) * bool_c\n+ on (x) group_left (y) sum(d)",
    ),
    (
        "sum(a)+on(x)group_left(y)sum(d)",
        28,
        "sum(a)\n+ on (x)\n  group_left (y) sum(d)",
    ),
    (
        "sum(a)+on(x)group_left(y)sum(d)",
        22,
        "sum(a)\n+ on (x)\n  group_left (y) sum(\n    d\n  )",
    ),
    (
        "(sum(a)+sum(b)-sum(c))/d",
        18,
        "(\n  sum(a)\n  + sum(b)\n  - sum(c)\n) / d",
    ),
];

/// The layout at this width.
fn at_width(alloc: Global, query: &str, width: usize) -> Result<String, FormatError> {
    let mut options = FormatOptions::new();
    options.width = width;
    format_query(alloc, query, &options)
}

#[test]
fn lines_are_broken_by_width(rt: HostRuntime) {
    let alloc = rt.alloc();
    for (query, width, layout) in &LAYOUTS {
        prints(&rt, at_width(alloc, query, *width), layout);
        prints(&rt, at_width(alloc, layout, *width), layout);
    }
}

/// So many operands with `or` between them.
fn alternatives(alloc: Global, count: usize, separator: &str) -> Result<String, FormatError> {
    let mut query = String::new(alloc);
    for index in 0..count {
        if index > 0 {
            query.push_str(separator)?;
        }
        query.push_str("sum(a)")?;
    }
    Ok(query)
}

/// Whether so many operands are laid out with a line for each.
fn is_flat(alloc: Global, count: usize) -> Result<bool, FormatError> {
    let query = alternatives(alloc, count, " or ")?;
    let layout = alternatives(alloc, count, "\nor ")?;
    Ok(at_width(alloc, &query, 100)? == layout)
}

#[test]
fn a_long_chain_is_flat(rt: HostRuntime) {
    is_so(&rt, is_flat(rt.alloc(), 500), "500 operands");
}

#[test]
fn indentation_has_its_width(rt: HostRuntime) {
    let options = FormatOptions {
        width: 8,
        indent_width: 4,
        keep_spelling: false,
        sort_matchers: false,
        max_output: MAX_OUTPUT,
    };
    let layout = format_query(rt.alloc(), "sum(sum(aaaa))", &options);
    prints(&rt, layout, "sum(sum(\n    aaaa\n))");
}
