//! docs/guide/cookbook.md, "Parse and print".

use promql_parser::parser::{ParseError, parse};
use std::alloc::Global;
use std::test::Fail;

/// The query on one line.
fn one_line(alloc: Global, query: &str) -> Result<String, ParseError> {
    Ok(parse(alloc, query)?.to_string(alloc)?)
}

#[test]
fn a_query_on_one_line(rt: HostRuntime) -> Result<(), Fail> {
    let line = one_line(rt.alloc(), "sum(rate(foo{a='b',}[5m]))by(job)")?;
    assert_eq!(rt; line.as_str(), r#"sum by (job) (rate(foo{a="b"}[5m]))"#);
    Ok(())
}
