//! Lines that a long matcher would make too long.

use super::is_so;
use promql_query::enforced_line::enforced_line;
use promql_query::query_error::{Measured, QueryError};
use promql_span::limits::{LimitFault, Limits};
use std::alloc::{AllocError, Global};

/// How many times ` + a` comes after the first `a`.
const SUMS: usize = 500;

/// The bytes of the value.
const SIZE: usize = 32_000;

/// The bytes of the line: `a{b="` and `"}` around each value, and ` + ` between.
const LINE: usize = 501 * (32_000 + 7) + 500 * 3;

/// Whether a query of so many selectors is not made with a matcher that is near the bound.
fn is_too_long(alloc: Global) -> Result<bool, AllocError> {
    let query = format!(in alloc; "a{}", " + a".repeat(alloc, SUMS)?)?;
    let matcher = format!(in alloc; "b=\"{}\"", "x".repeat(alloc, SIZE)?)?;
    let most = Limits::default().max_len;
    let fault = LimitFault::TooLong { len: LINE, most };
    let want = Err(QueryError::Large(Measured::EnforcedLine, fault));
    Ok(enforced_line(alloc, &Limits::default(), query.as_str(), matcher.as_str()) == want)
}

#[test]
fn long_matchers_make_lines_too_long(rt: HostRuntime) {
    is_so(&rt, is_too_long(rt.alloc()), "a long matcher");
}
