//! A query with a matcher in every selector: docs/reference/programs.md, "One query, enforced".

ghost use Rattle.std.specs.Prelude.{Err, IfErr, IfOk, string_bytes};
ghost use Rattle.promql_query.specs.EnforcedLines.{IsEnforcedLine};
ghost use Rattle.promql_programs.specs.EnforcedAnswers.{IsEnforcedAnswer};

use crate::task::Task;
use promql_query::enforced_line::enforced_line;
use promql_query::matcher_reason::matcher_report;
use promql_query::query_error::QueryError;
use promql_rewrite::MatcherError;
use promql_span::Target;
use promql_span::limits::Limits;
use std::alloc::{AllocError, Global};

/// Puts a matcher into every selector of a query.
#[derive(Clone, Copy, Debug)]
pub struct Enforce<'a> {
    /// The limits of the query, of the matcher and of the line.
    pub limits: Limits,
    /// The matcher, as between the braces of a selector.
    pub matcher: &'a str,
}

impl<'a> Task for Enforce<'a> {
    ghost use Rattle.std.specs.Prelude.{Err};
    ghost use Rattle.promql_query.specs.EnforcedLines.{IsEnforcedLine};
    ghost use Rattle.promql_programs.specs.EnforcedAnswers.{IsEnforcedAnswer};

    ghost makes = { λ task. IsEnforcedAnswer task.limits task.matcher.now };

    ghost fails = { λ task e query. IsEnforcedLine task.limits query task.matcher.now (Err e) };

    ghost served = { λ task. task.limits.target };

    fn answer(&self, alloc: Global, query: &str) -> Result<String, QueryError> {
        enforced_answer(alloc, &self.limits, query, self.matcher)
    }

    fn target(&self) -> Target {
        self.limits.target
    }

    fn reason(&self, alloc: Global, error: &QueryError) -> Result<Option<String>, AllocError> {
        match error {
            QueryError::Matcher(MatcherError::NotAMatcher) => {
                Ok(Some(matcher_report(alloc, self.matcher)?))
            }
            _ => Ok(None),
        }
    }
}

/// The line of a query with the matcher in every selector, and a line feed.
fn enforced_answer(
    alloc: Global,
    limits: &Limits,
    query: &str,
    matcher: &str,
) -> Result<String, QueryError>
    ensures ok { IfOk result (λ s. IsEnforcedAnswer limits.now matcher.now query.now (string_bytes s)) }
    ensures err { IfErr result (λ e. IsEnforcedLine limits.now query.now matcher.now (Err e)) }
{
    let mut line = enforced_line(alloc, limits, query, matcher)?;
    line.push_str("\n")?;
    Ok(line)
}
