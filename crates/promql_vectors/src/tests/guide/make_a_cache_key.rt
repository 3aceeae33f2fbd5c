//! docs/guide/cookbook.md, "Make a cache key".

use promql_parser::parser::{ParseError, parse};
use std::alloc::Global;
use std::test::Fail;

/// The key of a tenant's query. The spellings of one query have one key.
fn cache_key(alloc: Global, tenant: &str, query: &str) -> Result<String, ParseError> {
    let expr = parse(alloc, query)?;
    Ok(format!(in alloc; "{tenant} {expr}")?)
}

#[test]
fn one_key_for_two_spellings(rt: HostRuntime) -> Result<(), Fail> {
    for query in [
        "sum(foo{b=\"1\",a=\"2\"}) > 0.50",
        "sum by () (foo { a = '2', b = '1', })>.5 # alert",
    ] {
        let key = cache_key(rt.alloc(), "t1", query)?;
        assert_eq!(rt; key.as_str(), "t1 sum(foo{a=\"2\",b=\"1\"}) > 0.5");
    }
    Ok(())
}
