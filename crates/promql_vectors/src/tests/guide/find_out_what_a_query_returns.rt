//! docs/guide/cookbook.md, "Find out what a query returns".

use promql_parser::parser::value::ValueType;
use promql_parser::parser::{ParseError, parse};
use std::alloc::Global;
use std::test::Fail;

/// The type of what the query returns.
fn type_of(alloc: Global, query: &str) -> Result<ValueType, ParseError> {
    Ok(parse(alloc, query)?.value_type())
}

/// Whether a query of this type can be evaluated step by step over a time range.
fn has_steps(value_type: ValueType) -> bool {
    matches!(value_type, ValueType::Vector | ValueType::Scalar)
}

#[test]
fn types_of_queries(rt: HostRuntime) -> Result<(), Fail> {
    for (query, want, steps) in [
        ("rate(foo[5m])", ValueType::Vector, true),
        ("1 + scalar(foo)", ValueType::Scalar, true),
        ("foo[5m]", ValueType::Matrix, false),
        ("'foo'", ValueType::String, false),
    ] {
        let value_type = type_of(rt.alloc(), query)?;
        assert!(rt;
            value_type == want && has_steps(value_type) == steps,
            "{query}"
        );
    }
    Ok(())
}
