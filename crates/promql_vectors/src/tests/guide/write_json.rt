//! docs/guide/cookbook.md, "Write JSON".

use promql_parser::json::{JsonError, ToJson};
use promql_parser::parser::{Expr, parse};
use std::alloc::Global;
use std::test::Fail;

/// The query's tree as JSON, without a space.
fn json(alloc: Global, expr: &Expr) -> Result<String, JsonError> {
    let value = expr.to_json(alloc)?;
    Ok(value.to_string(alloc)?)
}

#[test]
fn a_selector_as_an_object(rt: HostRuntime) -> Result<(), Fail> {
    let alloc = rt.alloc();
    let expr = parse(alloc, "foo offset 5m")?;
    assert_eq!(rt;
        json(alloc, &expr)?.as_str(),
        r#"{"matchers":[],"name":"foo","offset":300000,"startOrEnd":null,"timestamp":null,"type":"vectorSelector"}"#
    );
    Ok(())
}
