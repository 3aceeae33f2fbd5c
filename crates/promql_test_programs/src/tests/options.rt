//! Widths, precisions and flags of a placeholder, which no error of a run or of a line heeds.

use super::is_so;
use promql_parser::parser::ParseError;
use promql_query::query_error::{Measured, QueryError};
use promql_query::request_fault::RequestFault;
use promql_run::run::RunError;
use promql_span::limits::LimitFault;
use std::alloc::{AllocError, Global};
use std::fmt::Display;
use std::process::Abort;

/// Whether the error prints this text in each placeholder.
fn is_heedless<T: Display>(alloc: Global, error: &T, text: &str) -> Result<bool, AllocError> {
    let found = format!(in alloc; "{error:*>40}|{error:<40}|{error:#}|{error:.1}|{error:+09.1}")?;
    let want = format!(in alloc; "{text}|{text}|{text}|{text}|{text}")?;
    Ok(found == want)
}

/// The error prints this text in each placeholder.
fn heeds_none<T: Display>(rt: &impl Abort, alloc: Global, error: &T, text: &str) {
    is_so(rt, is_heedless(alloc, error, text), text);
}

#[test]
fn errors_heed_no_option(rt: HostRuntime) {
    let alloc = rt.alloc();
    let syntax = RunError::Parse(ParseError::Syntax);
    heeds_none(&rt, alloc, &syntax, "invalid promql query");
    heeds_none(&rt, alloc, &RunError::Read, "read failed");
    heeds_none(
        &rt,
        alloc,
        &QueryError::NotARequest(RequestFault::Enforce),
        "line is not a request: \"enforce\" is not a text",
    );
    let fault = LimitFault::TooLong { len: 9, most: 8 };
    heeds_none(
        &rt,
        alloc,
        &QueryError::Large(Measured::EnforcedLine, fault),
        "the enforced query is not within the limits: query is too long: 9 bytes, at most 8",
    );
}
