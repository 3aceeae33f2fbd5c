//! docs/guide/cookbook.md, "Format within a width".

use promql_parser::parser::{Expr, Prettier, PrettyError, parse};
use std::alloc::Global;
use std::test::Fail;

/// The query in lines of at most 40 bytes, beside their indentation.
fn in_lines(alloc: Global, expr: &Expr) -> Result<String, PrettyError> {
    expr.pretty(alloc, 0, 40)
}

const QUERY: &str =
    "sum by (job) (rate(errors_total[5m])) / sum by (job) (rate(requests_total[5m]))";

const LAID_OUT: &str = "  sum by (job) (rate(errors_total[5m]))
/
  sum by (job) (rate(requests_total[5m]))";

#[test]
fn a_long_query_over_several_lines(rt: HostRuntime) -> Result<(), Fail> {
    let expr = parse(rt.alloc(), QUERY)?;
    let laid_out = in_lines(rt.alloc(), &expr);
    drop(expr);
    assert_eq!(rt; laid_out?.as_str(), LAID_OUT);
    Ok(())
}
