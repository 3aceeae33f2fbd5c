//! Trees whose texts mean them: docs/guide/rewriting.md, "Trees of your own".

ghost use Rattle.std.specs.Prelude.{◌≢◌, Err, IfOk, IfSome, is_none};
ghost use Rattle.promql_ast.specs.Text.{text};
ghost use Rattle.promql_ast.specs.View.{tree_of};
ghost use Rattle.promql_syntax.specs.ParseAnswers.{IsAnswerTo, plain_error_of};
ghost use Rattle.promql_syntax.specs.declared.parser.ParseError.{ParseError};
ghost use Rattle.promql_rewrite.specs.Faithful.{MeansOther};
ghost use Rattle.promql_rewrite.specs.Judged.{IsJudged};
ghost use Rattle.promql_rewrite.specs.Reasons.{IsReason};

use crate::faithful::{NotFaithful, faithful_line};
use crate::reasons::first_reason;
use promql_ast::Expr;
use promql_syntax::parser::ParseError;
use std::alloc::{AllocError, Global};
use thiserror::Error;

/// Why an expression is not printable.
#[derive(PartialEq, Eq, Debug, Drop, Error)]
pub enum NotPrintable {
    /// An aggregator that takes a parameter has none, or one that takes none has one.
    #[error("an aggregation has a parameter too few or too many")]
    Parameter,
    /// The token between the sides of a binary expression is no operator.
    #[error("a binary expression has no operator")]
    Operator,
    /// `group_left` or `group_right` has no `on` or `ignoring` before it.
    #[error("a grouping has no matching labels")]
    Grouping,
    /// Many elements match many at an operator that is no set operator.
    #[error("only set operators match many elements with many")]
    Cardinality,
    /// The left side of an operator binds too loosely: it needs parentheses.
    #[error("the left side of an operator needs parentheses")]
    LeftSide,
    /// The right side of an operator binds too loosely: it needs parentheses.
    #[error("the right side of an operator needs parentheses")]
    RightSide,
    /// The operand of a minus sign binds too loosely, or is a number, which would take the sign: it needs parentheses.
    #[error("the operand of a minus sign needs parentheses")]
    Operand,
    /// What a subquery is of has an operator or a sign outside: it needs parentheses.
    #[error("the expression of a subquery needs parentheses")]
    Subqueried,
    /// A range, a step or an offset is not longer than nothing.
    #[error("a time is zero")]
    Time,
    /// There is one or-group alone, one is empty, or there are matchers beside them.
    #[error("or-groups are not as they print")]
    Groups,
    /// A node is an extension, which the language lacks.
    #[error("an extension is not part of the language")]
    Extension,
    /// Nothing of this is so, and the parser rejects the line of the expression.
    #[error("the printed query is rejected: {0}")]
    Rejected(ParseError),
    /// Nothing of this is so, and the line of the expression has another tree.
    #[error("the printed query has another tree")]
    OtherTree,
}

/// Whether the expression is printable: its line, and each of its layouts, means it. That is exactly what the rules ask of
/// its nodes (law `printable_trees_are_those_that_read_back`): names are names, operators are operators, operands bind
/// tightly enough for their places or have parentheses, times print exactly, patterns are those of their values, and there
/// is no `Extension`. It is decided by reading the line again.
///
/// # Errors
///
/// `AllocError` where an allocation failed.
pub fn is_printable(alloc: Global, expr: &Expr) -> Result<bool, AllocError>
    ensures { IfOk result (λ yes. IsJudged yes (tree_of expr.now)) }
{
    Ok(why_not_printable(alloc, expr)?.is_none())
}

/// Why the expression is not printable; None exactly where it is. The reason is that of the first node, each before its
/// children in the order in which they print, that is not of the language or has an operand that needs parentheses, if
/// there is one; else what the parser says of the line.
///
/// # Errors
///
/// `AllocError` where an allocation failed.
pub fn why_not_printable(alloc: Global, expr: &Expr) -> Result<Option<NotPrintable>, AllocError>
    ensures judged { IfOk result (λ why. IsJudged (is_none why) (tree_of expr.now)) }
    ensures reason { IfOk result (λ why. IfSome why (λ r. IsReason r (tree_of expr.now))) }
{
    promql_ast::laws::checked_trees_are_typed();
    promql_syntax::laws::answers_are_trees();
    promql_syntax::laws::small_patterns_need_no_premise();
    match faithful_line(alloc, expr) {
        Ok(line) => {
            drop(line);
            Ok(None)
        }
        Err(NotFaithful::Memory) => Err(AllocError),
        Err(NotFaithful::IndentTooWide) => unreachable!(),
        Err(NotFaithful::Rejected(error)) => Ok(Some(reason_or(expr, error))),
        Err(NotFaithful::OtherTree) => Ok(Some(other_reason(expr))),
    }
}

/// Why the expression is not printable, if the parser rejects its line.
fn reason_or(expr: &Expr, error: ParseError) -> NotPrintable
    requires { IsAnswerTo (text (tree_of expr.now)) (Err (plain_error_of error)) × (error ≢ ParseError.Memory) }
    ensures { IsReason result (tree_of expr.now) }
{
    match first_reason(expr) {
        Some(reason) => {
            drop(error);
            reason
        }
        None => NotPrintable::Rejected(error),
    }
}

/// Why the expression is not printable, if its line has another tree.
fn other_reason(expr: &Expr) -> NotPrintable
    requires { MeansOther (text (tree_of expr.now)) (tree_of expr.now) }
    ensures { IsReason result (tree_of expr.now) }
{
    match first_reason(expr) {
        Some(reason) => reason,
        None => NotPrintable::OtherTree,
    }
}
