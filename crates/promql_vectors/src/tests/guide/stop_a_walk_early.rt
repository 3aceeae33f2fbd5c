//! docs/guide/cookbook.md, "Stop a walk early".

use promql_parser::parser::{Expr, parse};
use promql_parser::util::duration::day_duration;
use promql_parser::util::visitor::{ExprVisitor, walk_expr};
use std::alloc::AllocError;
use std::test::Fail;
use std::time::Duration;

/// Goes on while each range is at most so long.
#[derive(Drop)]
struct AtMost(Duration);

impl ExprVisitor for AtMost {
    type Error = AllocError;

    ghost pre_gives = { λ _ _ _ _. Unit {0} };

    fn pre_visit(&mut self, expr: &Expr) -> Result<bool, AllocError> {
        match expr {
            Expr::MatrixSelector(e) => Ok(e.range <= self.0),
            Expr::Subquery(e) => Ok(e.range <= self.0),
            _ => Ok(true),
        }
    }
}

/// Whether no range of the query is longer than a day. Nothing is walked after the first that is.
fn is_within_a_day(expr: &Expr) -> bool {
    walk_expr(&mut AtMost(day_duration()), expr) == Ok(true)
}

#[test]
fn long_ranges_are_found(rt: HostRuntime) -> Result<(), Fail> {
    for (query, want) in [
        ("rate(a[5m]) + max_over_time(rate(b[1h])[1d:])", true),
        ("rate(a[5m]) + max_over_time(rate(b[25h])[1d:])", false),
    ] {
        assert_eq!(rt; is_within_a_day(&parse(rt.alloc(), query)?), want);
    }
    Ok(())
}
