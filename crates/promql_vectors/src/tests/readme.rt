//! The example of the README.

use super::{check_value, prints};
use promql_parser::parser::{ParseError, parse};
use std::alloc::Global;

/// The query on one line, as it is printed.
fn canonical(alloc: Global, query: &str) -> Result<String, ParseError> {
    let expr = parse(alloc, query)?;
    let line = format!(in alloc; "{expr}");
    drop(expr);
    Ok(line?)
}

#[test]
fn the_example(rt: HostRuntime) {
    let alloc = rt.alloc();
    prints(&rt, canonical(alloc, "1+(foo-2)"), "1 + (foo - 2)");
    let error = canonical(alloc, "1 +");
    check_value(&rt, error, Err(ParseError::Syntax), &"1 +");
    let message = ParseError::Syntax.to_string(alloc);
    prints(&rt, message, "invalid promql query");
}
