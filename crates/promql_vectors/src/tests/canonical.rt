//! Printed texts are read again: as one line and laid out, each gives the tree of the line and prints the line.

use super::dashboards::QUERIES;
use super::{Failed, is_so, read, repeated};
use promql_parser::parser::{Expr, Prettier};
use std::alloc::Global;

const LEVELS: [usize; 2] = [0, 3];

const WIDTHS: [usize; 3] = [0, 10, 100];

/// Whether the text gives this tree, and prints this line.
fn is_read_as(alloc: Global, text: &str, tree: &Expr, line: &str) -> Result<bool, Failed> {
    let expr = read(alloc, text)?;
    Ok(*expr == *tree && expr.to_string(alloc)?.as_str() == line)
}

/// Whether what is printed of the expression at each level and width gives this tree, and prints this line.
fn are_read_as(alloc: Global, expr: &Expr, tree: &Expr, line: &str) -> Result<bool, Failed> {
    for level in LEVELS {
        for most in WIDTHS {
            let laid = expr.pretty(alloc, level, most)?;
            if !is_read_as(alloc, laid.as_str(), tree, line)? {
                return Ok(false);
            }
        }
    }
    Ok(true)
}

/// Whether the line, and what is laid out of the expression, are read as one tree with this line.
fn is_line_of(alloc: Global, expr: &Expr, line: &str) -> Result<bool, Failed> {
    let tree = read(alloc, line)?;
    Ok(is_read_as(alloc, line, &tree, line)? && are_read_as(alloc, expr, &tree, line)?)
}

/// Whether what is printed of the text's tree, at each level and width, is read as one tree with one line.
fn is_read_again(alloc: Global, text: &str) -> Result<bool, Failed> {
    let expr = read(alloc, text)?;
    let line = expr.to_string(alloc)?;
    is_line_of(alloc, &expr, line.as_str())
}

#[test]
fn queries_of_dashboards(rt: HostRuntime) {
    for text in QUERIES.split('\n') {
        is_so(&rt, is_read_again(rt.alloc(), text), text);
    }
}

/// Whether a sum of the greatest height is read again.
fn is_sum_read(alloc: Global) -> Result<bool, Failed> {
    let sum = repeated(alloc, "1", " + 1", 511, "")?;
    is_read_again(alloc, sum.as_str())
}

/// Whether parentheses of the greatest height are read again.
fn is_nest_read(alloc: Global) -> Result<bool, Failed> {
    let opened = repeated(alloc, "", "(", 511, "1")?;
    let nest = repeated(alloc, opened.as_str(), ")", 511, "")?;
    is_read_again(alloc, nest.as_str())
}

#[test]
fn greatest_heights(rt: HostRuntime) {
    is_so(&rt, is_sum_read(rt.alloc()), "a sum");
    is_so(&rt, is_nest_read(rt.alloc()), "parentheses");
}
