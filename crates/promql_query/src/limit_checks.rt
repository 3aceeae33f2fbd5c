//! The limits of texts that come of a query and a matcher: docs/reference/programs.md, "Limits of a query".

ghost use Rattle.std.specs.Prelude.{◌≡◌, Err, IfErr, IfOk, MatchOption, OnOk, string_bytes};
ghost use Rattle.promql_ast.specs.Tree.{Tree};
ghost use Rattle.promql_rewrite.specs.MatcherTexts.{selector_around};
ghost use Rattle.promql_span.specs.QueryLimits.{IsWithin};
ghost use Rattle.promql_query.specs.EnforcedLines.{Enforces, IsMatcherWithin};
ghost use Rattle.promql_query.specs.QueryErrors.{IsOver};

use crate::query_error::{Measured, QueryError};
use promql_span::limits::{LimitFault, Limits, check_limits};
use std::alloc::{AllocError, Global};

/// Why a text is not within the limits; `None` where it is.
pub(crate) fn limit_fault(
    alloc: Global,
    limits: &Limits,
    text: &str,
) -> Result<Option<LimitFault>, AllocError>
    ensures { IfOk result (λ fault. MatchOption fault (IsWithin text.now limits.now) (IsOver limits.now text.now)) }
{
    match check_limits(alloc, text, limits) {
        Ok(()) => Ok(None),
        Err(LimitFault::Memory) => Err(AllocError),
        Err(fault) => Ok(Some(fault)),
    }
}

/// The text that a matcher is read in (docs/guide/rewriting.md, "Matchers from texts").
fn selector_text(alloc: Global, matcher: &str) -> Result<String, AllocError>
    ensures { IfOk result (λ s. string_bytes s ≡ selector_around matcher.now) }
{
    let mut selector = String::new(alloc);
    selector.push_str("{x=\"y\",")?;
    selector.push_str(matcher)?;
    selector.push_str("\n}")?;
    Ok(selector)
}

/// How many bytes come before the matcher there.
const BEFORE_MATCHER: usize = 7;

/// Checks that the text that a matcher is read in is within the limits, and that their target reads no part of it otherwise. No
/// pattern of it is compiled.
///
/// # Errors
///
/// `Large` where it is not within them, else `MatcherOtherwise` where the target reads a part of it otherwise; `Memory` where an
/// allocation failed.
pub(crate) fn check_matcher(alloc: Global, limits: &Limits, matcher: &str) -> Result<(), QueryError>
    ensures within { OnOk result (IsMatcherWithin limits.now matcher.now) }
    ensures fault { (t : Tree) → IfErr result (λ e. Enforces limits.now matcher.now t (Err e)) }
{
    let selector = selector_text(alloc, matcher)?;
    if let Some(fault) = limit_fault(alloc, limits, selector.as_str())? {
        return Err(QueryError::Large(Measured::MatcherText, fault));
    }
    match limits.target.matcher_difference(selector.as_str()) {
        None => Ok(()),
        Some(span) => {
            let at = span.start.saturating_sub(BEFORE_MATCHER);
            Err(QueryError::MatcherOtherwise(at))
        }
    }
}
