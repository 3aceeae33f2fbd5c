//! Matchers that are given as texts: docs/guide/rewriting.md, "Matchers from texts".

ghost use Rattle.std.specs.Prelude.{◌≡◌, ◌≢◌, Err, IfErr, IfOk, IsErrOf, Ok, codes, option_map, string_bytes};
ghost use Rattle.promql_ast.specs.View.{tree_of};
ghost use Rattle.promql_label.specs.MatcherViews.{plain_matcher_of};
ghost use Rattle.promql_label.specs.PlainMatchers.{name_of};
ghost use Rattle.promql_rewrite.specs.MatcherTexts.{IsEnforcedBy, IsMatcherText, MeetsBareInfo, selector_around};
ghost use Rattle.promql_rewrite.specs.SecondMatchers.{HasMatcherAfter, IsCopyFault, IsSecondMatcher};

use crate::enforcing::{EnforceError, enforce};
use promql_ast::Expr;
use promql_label::{METRIC_NAME, Matcher};
use promql_syntax::parser::{ParseError, parse};
use std::alloc::{AllocError, Global};
use thiserror::Error;

/// Why a text gives no matcher to enforce.
#[derive(PartialEq, Eq, Debug, Drop, Error)]
pub enum MatcherError {
    /// An allocation failed.
    #[error("out of memory")]
    Memory,
    /// The text is not one matcher as it stands between braces.
    #[error("not a matcher")]
    NotAMatcher,
    /// The matcher is of the metric's name, which a selector has before its braces.
    #[error("a matcher of the metric name cannot be enforced")]
    MetricName,
}

impl From<AllocError> for MatcherError {
    ghost use Rattle.std.specs.Prelude.{◌≡◌};
    ghost use Rattle.promql_rewrite.specs.declared.matcher_text.MatcherError.TheVariants.{Memory};

    ghost from_gives = { λ _ e. e ≡ Memory };

    fn from(_e: AllocError) -> MatcherError {
        MatcherError::Memory
    }
}

/// Why the matcher of a text was not enforced.
#[derive(PartialEq, Eq, Debug, Drop, Error)]
pub enum EnforceTextError {
    /// An allocation failed.
    #[error("out of memory")]
    Memory,
    /// The text gives no matcher to enforce.
    #[error("{0}")]
    Matcher(MatcherError),
    /// A call of `info` has no second argument, so it reads series that no selector of the query selects.
    #[error("info without a selector reads series that no matcher limits")]
    Info,
}

/// The text between the braces of a selector, after a matcher: one that matches the empty text may not stand alone. The line feed
/// ends a comment.
fn selector_text(alloc: Global, text: &str) -> Result<String, AllocError>
    ensures { IfOk result (λ s. string_bytes s ≡ selector_around text.now) }
{
    let mut selector = String::new(alloc);
    selector.push_str("{x=\"y\",")?;
    selector.push_str(text)?;
    selector.push_str("\n}")?;
    Ok(selector)
}

/// The second matcher of a selector that has two, without or-groups, `offset` and `@`.
fn second_matcher(expr: &Expr) -> Option<&Matcher>
    ensures { IsSecondMatcher (tree_of expr.now) (option_map (λ m. plain_matcher_of m.now) result) }
{
    let Expr::VectorSelector(selector) = expr else {
        return None;
    };
    if selector.offset.is_some() || selector.at.is_some() {
        return None;
    }
    if !selector.matchers.or_matchers.as_slice().is_empty() {
        return None;
    }
    match selector.matchers.matchers.as_slice() {
        [_, matcher] => Some(matcher),
        _ => None,
    }
}

/// The matcher that a text is, as it stands between the braces of a selector: `namespace="team-a"`, say.
///
/// # Errors
///
/// `NotAMatcher` where the text is not one matcher: several of them, none, or no such text at all; `MetricName` where it is one
/// of the label `__name__`; `Memory` where an allocation failed.
pub fn read_matcher(alloc: Global, text: &str) -> Result<Matcher, MatcherError>
    ensures ok { IfOk result (λ m. IsMatcherText text.now (Ok (plain_matcher_of m))) }
    ensures name { IfOk result (λ m. name_of (plain_matcher_of m) ≢ codes "__name__") }
    ensures errors { IfErr result (λ e. e ≢ MatcherError.Memory → IsMatcherText text.now (Err e)) }
{
    let selector = selector_text(alloc, text)?;
    let expr = match parse(alloc, selector.as_str()) {
        Ok(expr) => expr,
        Err(ParseError::Memory) => return Err(MatcherError::Memory),
        Err(_) => return Err(MatcherError::NotAMatcher),
    };
    let matcher = copied_matcher(alloc, &expr);
    drop(expr);
    matcher
}

/// A copy of the second matcher of a selector.
fn copied_matcher(alloc: Global, expr: &Expr) -> Result<Matcher, MatcherError>
    ensures ok { IfOk result (λ m. HasMatcherAfter (tree_of expr.now) (plain_matcher_of m)) }
    ensures name { IfOk result (λ m. name_of (plain_matcher_of m) ≢ codes "__name__") }
    ensures errors { IfErr result (IsCopyFault (tree_of expr.now)) }
{
    let Some(matcher) = second_matcher(expr) else {
        return Err(MatcherError::NotAMatcher);
    };
    if matcher.name.as_str() == METRIC_NAME {
        return Err(MatcherError::MetricName);
    }
    Ok(matcher.try_clone(alloc)?)
}

/// The expression with the matcher of a text in every selector, as [`enforce`] puts it there.
///
/// # Errors
///
/// `Matcher` where [`read_matcher`] rejects the text; `Info` where the text is a matcher, and a call of `info` has no second
/// argument; `Memory` where an allocation failed.
pub fn enforce_text(alloc: Global, expr: Expr, text: &str) -> Result<Expr, EnforceTextError>
    ensures ok { IfOk result (λ e. IsEnforcedBy text.now (tree_of expr) (tree_of e)) }
    ensures matcher { (e : MatcherError) → IsErrOf result (EnforceTextError.Matcher e) → IsMatcherText text.now (Err e) }
    ensures info { IsErrOf result EnforceTextError.Info → MeetsBareInfo text.now (tree_of expr) }
{
    let matcher = match read_matcher(alloc, text) {
        Ok(matcher) => matcher,
        Err(MatcherError::Memory) => {
            drop(expr);
            return Err(EnforceTextError::Memory);
        }
        Err(error) => {
            drop(expr);
            return Err(EnforceTextError::Matcher(error));
        }
    };
    match enforce(alloc, expr, &matcher) {
        Ok(enforced) => Ok(enforced),
        Err(EnforceError::Memory) => Err(EnforceTextError::Memory),
        Err(EnforceError::Info) => Err(EnforceTextError::Info),
        Err(EnforceError::MetricName | EnforceError::Parse(_) | EnforceError::Unfaithful(_)) => {
            unreachable!()
        }
    }
}
