//! Queries of many nodes, and of many tokens in one node.

use crate::tests::{Failed, is_so};
use promql_places::parse_placed;
use std::alloc::{AllocError, Global};

/// How a query begins, what comes after that again and again, and how it ends.
type Parts = (&'static str, &'static str, &'static str);

const SUM: Parts = ("1", " + 1", "");

const SELECTOR: Parts = ("{a='b'", ", a='c'", "}");

/// How often ` + 1` comes after a 1, and how many nodes there are: each time two more.
const SUMS: [(usize, usize); 5] = [(0, 1), (1, 3), (15, 31), (40, 81), (500, 1_001)];

#[test]
fn each_node_has_a_place(rt: HostRuntime) {
    for (size, places) in &SUMS {
        is_so(&rt, has_places(rt.alloc(), &SUM, *size, *places), "a sum");
    }
}

#[test]
fn long_nodes_have_one_place(rt: HostRuntime) {
    for size in [1, 16, 1_000, 20_000] {
        is_so(&rt, has_places(rt.alloc(), &SELECTOR, size, 1), "matchers");
    }
}

/// Whether a query with so many copies of its middle part has so many places.
fn has_places(alloc: Global, parts: &Parts, size: usize, want: usize) -> Result<bool, Failed> {
    let query = repeated(alloc, parts, size)?;
    let placed = Box::new(alloc, parse_placed(alloc, query.as_str())?)?;
    Ok(placed.places.len() == want)
}

fn repeated(alloc: Global, parts: &Parts, count: usize) -> Result<String, AllocError> {
    let (first, more, last) = *parts;
    let mut text = String::from_str(alloc, first)?;
    for _ in 0..count {
        text.push_str(more)?;
    }
    text.push_str(last)?;
    Ok(text)
}
