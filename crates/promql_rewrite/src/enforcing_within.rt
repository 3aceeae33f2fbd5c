//! A matcher in every selector of an expression whose line is short enough then: docs/guide/rewriting.md, "Matchers from texts".

ghost use Rattle.std.specs.Prelude.{◌≡◌, ◌<◌, ◌≤◌, ℕ, Err, IfErr, IfOk, IsErrOf, OnOk, true, false, length};
ghost use Rattle.promql_ast.specs.Text.{text as line_text};
ghost use Rattle.promql_ast.specs.View.{tree_of};
ghost use Rattle.promql_label.specs.MatcherViews.{plain_matcher_of};
ghost use Rattle.promql_rewrite.specs.EnforcedWithin.{IsEnforcedWith, IsLongEnforced, IsPlaceFault};
ghost use Rattle.promql_rewrite.specs.Enforcing.{enforced, has_bare_info};
ghost use Rattle.promql_rewrite.specs.MatcherTexts.{IsEnforcedBy, IsMatcherText, MeetsBareInfo};

use crate::bare_info::has_bare_info;
use crate::enforced_len::enforced_len;
use crate::enforcing::enforce_expr;
use crate::matcher_text::{MatcherError, read_matcher};
use crate::patterns::{has_pattern, is_regex};
use promql_ast::Expr;
use promql_label::Matcher;
use std::alloc::{AllocError, Global};
use thiserror::Error;

/// Why the matcher of a text was not enforced within a length.
#[derive(PartialEq, Eq, Debug, Drop, Error)]
pub enum EnforceWithinError {
    /// An allocation failed.
    #[error("out of memory")]
    Memory,
    /// The text gives no matcher to enforce.
    #[error("{0}")]
    Matcher(MatcherError),
    /// A call of `info` has no second argument, so it reads series that no selector of the query selects.
    #[error("info without a selector reads series that no matcher limits")]
    Info,
    /// The line would have so many bytes.
    #[error("query with the matcher is too long: {0} bytes")]
    TooLong(usize),
}

impl From<AllocError> for EnforceWithinError {
    ghost use Rattle.std.specs.Prelude.{◌≡◌};
    ghost use Rattle.promql_rewrite.specs.declared.enforcing_within.EnforceWithinError.TheVariants.{Memory};

    ghost from_gives = { λ _ e. e ≡ Memory };

    fn from(_e: AllocError) -> EnforceWithinError {
        EnforceWithinError::Memory
    }
}

/// An expression with a matcher in every selector.
#[derive(Drop)]
pub struct Enforced {
    /// The expression.
    pub expr: Expr,
    /// Whether the expression, as it was, or the matcher has a pattern. Where neither has one, and the expression is that of a text, its
    /// line means it (law `enforced_lines_without_patterns`), and need not be read again.
    pub has_pattern: bool,
}

/// Puts the matcher into every selector, where the line has at most `most` bytes then.
fn enforce_within(
    alloc: Global,
    expr: &mut Expr,
    matcher: &Matcher,
    most: usize,
) -> Result<(), EnforceWithinError>
    ensures ok { OnOk result (has_bare_info (tree_of expr.old) ≡ false) }
    ensures enforced { OnOk result (tree_of expr.new ≡ enforced (plain_matcher_of matcher.now) (tree_of expr.old)) }
    ensures short { OnOk result (length (line_text (tree_of expr.new)) ≤ most) }
    ensures err { IfErr result (IsPlaceFault most (plain_matcher_of matcher.now) (tree_of expr.old)) }
{
    if has_bare_info(expr) {
        return Err(EnforceWithinError::Info);
    }
    let len = enforced_len(alloc, expr, matcher)?;
    // A text of so many bytes is never made.
    if len == usize::MAX {
        return Err(EnforceWithinError::Memory);
    }
    if len > most {
        return Err(EnforceWithinError::TooLong(len));
    }
    enforce_expr(alloc, expr, matcher)?;
    Ok(())
}

/// The expression with the matcher of a text in every selector, as [`crate::enforce_text`] puts it there, where its line has at most
/// `most` bytes then. How long the line would be is known before the matcher is copied into a selector.
///
/// # Errors
///
/// `Matcher` where [`read_matcher`] rejects the text; else `Info` where a call of `info` has no second argument; else `TooLong` where
/// the line would have more bytes, with their number; `Memory` where an allocation failed.
pub fn enforce_text_within(
    alloc: Global,
    expr: Expr,
    text: &str,
    most: usize,
) -> Result<Enforced, EnforceWithinError>
    ensures ok { IfOk result (λ e. IsEnforcedBy text.now (tree_of expr) (tree_of e.expr)) }
    ensures pattern { IfOk result (λ e. IsEnforcedWith text.now (tree_of expr) (tree_of e.expr) e.has_pattern) }
    ensures short { IfOk result (λ e. length (line_text (tree_of e.expr)) ≤ most) }
    ensures matcher { (e : MatcherError) → IsErrOf result (EnforceWithinError.Matcher e) → IsMatcherText text.now (Err e) }
    ensures info { IsErrOf result EnforceWithinError.Info → MeetsBareInfo text.now (tree_of expr) }
    ensures long { (len : ℕ) → IsErrOf result (EnforceWithinError.TooLong len) → IsLongEnforced text.now (tree_of expr) most len }
{
    let matcher = match read_matcher(alloc, text) {
        Ok(matcher) => matcher,
        Err(MatcherError::Memory) => {
            drop(expr);
            return Err(EnforceWithinError::Memory);
        }
        Err(error) => {
            drop(expr);
            return Err(EnforceWithinError::Matcher(error));
        }
    };
    let has_pattern = is_regex(&matcher) || has_pattern(&expr);
    let mut expr = expr;
    match enforce_within(alloc, &mut expr, &matcher, most) {
        Ok(()) => Ok(Enforced { expr, has_pattern }),
        Err(error) => {
            drop(expr);
            Err(error)
        }
    }
}
