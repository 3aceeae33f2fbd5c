//! The line of a query with a matcher in its selectors: docs/guide/rewriting.md, "Enforcing".

ghost use Rattle.std.specs.Prelude.{◌≡◌, ◌<◌, ◌≤◌, Err, IfErr, IfOk, Ok, length, string_bytes};
ghost use Rattle.promql_ast.specs.Text.{text as line_text};
ghost use Rattle.promql_ast.specs.Tree.{Tree};
ghost use Rattle.promql_ast.specs.View.{tree_of};
ghost use Rattle.promql_query.specs.EnforcedLines.{Enforces, IsEnforcedLine};
ghost use Rattle.promql_query.specs.EnforceSteps.{IsNotEnforced};
ghost use Rattle.promql_query.specs.LinesWithin.{HasLine};
ghost use Rattle.promql_query.specs.QueryErrors.{Then};
ghost use Rattle.promql_rewrite.specs.EnforcedWithin.{IsEnforcedWith};
ghost use Rattle.promql_syntax.specs.ParseAnswers.{IsAnswerTo};
ghost use Rattle.promql_text.specs.Texts.{Text};

use crate::limit_checks::check_matcher;
use crate::line_within::{line_within, meant_line};
use crate::query_error::{Measured, QueryError};
use crate::query_tree::query_tree;
use promql_ast::{Expr, drop_expr};
use promql_rewrite::{EnforceWithinError, Enforced, enforce_text_within};
use promql_span::limits::{LimitFault, Limits};
use std::alloc::Global;

/// Why an expression has no tree with the matcher in every selector whose line is short enough.
#[derive(Drop)]
pub(crate) enum NotEnforced {
    /// There is no such tree.
    Query(QueryError),
    /// Its line would have so many bytes.
    TooLong(usize),
}

/// The expression with the matcher in every selector, where its line has at most `most` bytes then. The matcher is read only where its
/// text is within the limits, and their target reads no part of it otherwise. It is copied only where the line is so short.
pub(crate) fn enforced_within(
    alloc: Global,
    limits: &Limits,
    expr: Expr,
    matcher: &str,
    most: usize,
) -> Result<Enforced, NotEnforced>
    ensures ok { IfOk result (λ e. Enforces limits.now matcher.now (tree_of expr) (Ok (tree_of e.expr))) }
    ensures pattern { IfOk result (λ e. IsEnforcedWith matcher.now (tree_of expr) (tree_of e.expr) e.has_pattern) }
    ensures short { IfOk result (λ e. length (line_text (tree_of e.expr)) ≤ most) }
    ensures err { IfErr result (IsNotEnforced limits.now matcher.now (tree_of expr) most) }
{
    if let Err(error) = check_matcher(alloc, limits, matcher) {
        drop_expr(expr);
        return Err(NotEnforced::Query(error));
    }
    match enforce_text_within(alloc, expr, matcher, most) {
        Ok(enforced) => Ok(enforced),
        Err(EnforceWithinError::Memory) => Err(NotEnforced::Query(QueryError::Memory)),
        Err(EnforceWithinError::Matcher(error)) => {
            Err(NotEnforced::Query(QueryError::Matcher(error)))
        }
        Err(EnforceWithinError::Info) => Err(NotEnforced::Query(QueryError::Info)),
        Err(EnforceWithinError::TooLong(len)) => Err(NotEnforced::TooLong(len)),
    }
}

/// The error of an enforced line of so many bytes, which are too many.
fn long_line(limits: &Limits, len: usize) -> QueryError
    ensures { (u : Tree) → len ≡ length (line_text u) → limits.now.max_len < len
        → HasLine Measured.EnforcedLine limits.now u (Err result) }
{
    let most = limits.max_len;
    QueryError::Large(Measured::EnforcedLine, LimitFault::TooLong { len, most })
}

/// The line of an expression, that of a query, with the matcher in every selector. The line is within the limits, and means the enforced
/// tree: it is read again where the query or the matcher has a pattern.
fn show_enforced(
    alloc: Global,
    limits: &Limits,
    expr: Expr,
    matcher: &str,
) -> Result<String, QueryError>
    requires { (source : Text) × IsAnswerTo source (Ok (tree_of expr)) }
    ensures ok { IfOk result (λ s. Then (Enforces limits.now matcher.now (tree_of expr)) (HasLine Measured.EnforcedLine limits.now) (Ok (string_bytes s))) }
    ensures err { IfErr result (λ e. Then (Enforces limits.now matcher.now (tree_of expr)) (HasLine Measured.EnforcedLine limits.now) (Err e)) }
{
    let enforced = match enforced_within(alloc, limits, expr, matcher, limits.max_len) {
        Ok(enforced) => enforced,
        Err(NotEnforced::Query(error)) => return Err(error),
        Err(NotEnforced::TooLong(len)) => return Err(long_line(limits, len)),
    };
    promql_rewrite::laws::enforced_lines_without_patterns();
    let line = if enforced.has_pattern {
        line_within(alloc, limits, Measured::EnforcedLine, &enforced.expr)
    } else {
        meant_line(alloc, limits, Measured::EnforcedLine, &enforced.expr)
    };
    drop_expr(enforced.expr);
    line
}

/// The line of a query with a matcher, which is given as its text, in every selector. The line is within the limits, too, and means the
/// enforced tree of the query: it is read again where the query or the matcher has a pattern, and else by a law.
///
/// # Errors
///
/// `Rejected` where the query is not within the limits, the parser rejects it, or their target reads a part of it otherwise; else `Large`
/// where the text that the matcher is read in is not within them, `MatcherOtherwise` where the target reads a part of the matcher
/// otherwise; else `Matcher` where the text is no matcher, or one of the metric's name; else `Info`
/// where a call of `info` in the query has no second argument; else `Large` where the line is not within the limits;
/// `Unfaithful` where it would not mean the enforced tree; `Memory` where an allocation failed.
pub fn enforced_line(
    alloc: Global,
    limits: &Limits,
    query: &str,
    matcher: &str,
) -> Result<String, QueryError>
    ensures ok { IfOk result (λ s. IsEnforcedLine limits.now query.now matcher.now (Ok (string_bytes s))) }
    ensures err { IfErr result (λ e. IsEnforcedLine limits.now query.now matcher.now (Err e)) }
{
    let expr = query_tree(alloc, limits, query)?;
    show_enforced(alloc, limits, expr, matcher)
}
