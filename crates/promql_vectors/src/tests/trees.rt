//! Texts that have one tree.

use super::{Failed, check_value, is_so, read};
use promql_parser::parser::{ParseError, parse};
use std::alloc::Global;

/// Texts, and whether their trees are equal.
const PAIRS: [(&str, &str, bool); 2] = [
    (
        "1-(2-foo{b=\"1\",a=\"2\"})",
        "1 - (2 - foo{b=\"1\", a=\"2\"})",
        true,
    ),
    (
        "1-(2-foo{b=\"1\",a=\"2\"})",
        "1 - 2 - foo{b=\"1\",a=\"2\"}",
        false,
    ),
];

/// Whether the texts give one tree, if they should, or two.
fn is_equal(alloc: Global, one: &str, other: &str, want: bool) -> Result<bool, Failed> {
    let is_one = *read(alloc, one)? == *read(alloc, other)?;
    Ok(is_one == want)
}

#[test]
fn equal_trees(rt: HostRuntime) {
    for (one, other, want) in &PAIRS {
        is_so(&rt, is_equal(rt.alloc(), one, other, *want), other);
    }
}

#[test]
fn rejections_are_equal(rt: HostRuntime) {
    let found = parse(rt.alloc(), "1 -");
    check_value(&rt, found, Err(ParseError::Syntax), &"1 -");
}
