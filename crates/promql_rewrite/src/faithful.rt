//! Texts that mean the tree that they were printed of: docs/guide/rewriting.md, "Faithful texts".

ghost use Rattle.std.specs.Prelude.{◌≡◌, ◌≢◌, ◌↔◌, ◌<◌, ◌*◌, Err, IfOk, IsErrOf, IsTrue, OnOk, string_bytes};
ghost use Rattle.promql_text.specs.PrintedLen.{usize_max};
ghost use Rattle.promql_ast.specs.Layout.{deepest, layout_of};
ghost use Rattle.promql_ast.specs.Normal.{normal};
ghost use Rattle.promql_ast.specs.Text.{text as line_text};
ghost use Rattle.promql_ast.specs.View.{tree_of};
ghost use Rattle.promql_syntax.specs.ParseAnswers.{IsAnswerTo, plain_error_of};
ghost use Rattle.promql_syntax.specs.declared.parser.ParseError.{ParseError};
ghost use Rattle.promql_rewrite.specs.Faithful.{Means, MeansOther};

use promql_ast::{Expr, Prettier, PrettyError};
use promql_syntax::parser::{ParseError, parse};
use std::alloc::{AllocError, Global};
use thiserror::Error;

/// Why the text of a tree does not mean the tree.
#[derive(PartialEq, Eq, Debug, Drop, Error)]
pub enum NotFaithful {
    /// An allocation failed.
    #[error("out of memory")]
    Memory,
    /// An indentation has more bytes than a `usize` counts.
    #[error("indentation too wide")]
    IndentTooWide,
    /// The parser rejects the text.
    #[error("the printed query is rejected: {0}")]
    Rejected(ParseError),
    /// The text means another tree: a name is no name, say, or an operand needs parentheses.
    #[error("the printed query has another tree")]
    OtherTree,
}

impl From<AllocError> for NotFaithful {
    ghost use Rattle.std.specs.Prelude.{◌≡◌};
    ghost use Rattle.promql_rewrite.specs.declared.faithful.NotFaithful.TheVariants.{Memory};

    ghost from_gives = { λ _ e. e ≡ Memory };

    fn from(_e: AllocError) -> NotFaithful {
        NotFaithful::Memory
    }
}

impl From<PrettyError> for NotFaithful {
    ghost use Rattle.promql_rewrite.specs.FaithfulErrors.{error_of_layout};

    ghost from_gives = { λ error e. e ≡ error_of_layout error };

    fn from(error: PrettyError) -> NotFaithful {
        match error {
            PrettyError::Memory => NotFaithful::Memory,
            PrettyError::IndentTooWide => NotFaithful::IndentTooWide,
        }
    }
}

impl From<ParseError> for NotFaithful {
    ghost use Rattle.promql_rewrite.specs.FaithfulErrors.{IsRaised};

    ghost from_gives = { IsRaised };

    fn from(error: ParseError) -> NotFaithful {
        match error {
            ParseError::Memory => NotFaithful::Memory,
            own => NotFaithful::Rejected(own),
        }
    }
}

/// The expression on one line, as a text that means it: the text is read again, and has the expression's normal form.
///
/// # Errors
///
/// `Rejected` where the parser rejects the line, `OtherTree` where it reads another tree there, `Memory` where an
/// allocation failed. A tree that `parse` returned has none but the last (law `laid_reads_back`).
pub fn faithful_line(alloc: Global, expr: &Expr) -> Result<String, NotFaithful>
    ensures line { IfOk result (λ s. string_bytes s ≡ line_text (tree_of expr.now)) }
    ensures means { IfOk result (λ s. Means (string_bytes s) (tree_of expr.now)) }
    ensures rejected { (e : ParseError) → IsErrOf result (NotFaithful.Rejected e)
        → IsAnswerTo (line_text (tree_of expr.now)) (Err (plain_error_of e)) × (e ≢ ParseError.Memory) }
    ensures other { IsErrOf result NotFaithful.OtherTree
        → MeansOther (line_text (tree_of expr.now)) (tree_of expr.now) }
    ensures no_indent { ¬ (IsErrOf result NotFaithful.IndentTooWide) }
{
    let line = expr.to_string(alloc)?;
    match check_meaning(alloc, &line, expr) {
        Ok(()) => Ok(line),
        Err(error) => Err(error),
    }
}

/// The expression laid out as `Expr::pretty` does, as a text that means it.
///
/// # Errors
///
/// Those of [`faithful_line`], of the laid out text; `IndentTooWide` as `Expr::pretty`.
pub fn faithful_pretty(
    alloc: Global,
    expr: &Expr,
    level: usize,
    width: usize,
) -> Result<String, NotFaithful>
    ensures laid { IfOk result (λ s. string_bytes s ≡ layout_of (tree_of expr.now) level width) }
    ensures means { IfOk result (λ s. Means (string_bytes s) (tree_of expr.now)) }
    ensures rejected { (e : ParseError) → IsErrOf result (NotFaithful.Rejected e)
        → IsAnswerTo (layout_of (tree_of expr.now) level width) (Err (plain_error_of e)) × (e ≢ ParseError.Memory) }
    ensures other { IsErrOf result NotFaithful.OtherTree
        → MeansOther (layout_of (tree_of expr.now) level width) (tree_of expr.now) }
    ensures wide { IsErrOf result NotFaithful.IndentTooWide
        → usize_max < 2 * deepest (tree_of expr.now) level width }
{
    let laid = expr.pretty(alloc, level, width)?;
    match check_meaning(alloc, &laid, expr) {
        Ok(()) => Ok(laid),
        Err(error) => Err(error),
    }
}

/// Checks that a text means an expression: the text is read, and has the expression's normal form.
///
/// # Errors
///
/// `Rejected` where the parser rejects the text, `OtherTree` where it reads another tree there, `Memory` where an
/// allocation failed.
pub fn check_meaning(alloc: Global, text: &str, expr: &Expr) -> Result<(), NotFaithful>
    ensures means { OnOk result (Means text.now (tree_of expr.now)) }
    ensures rejected { (e : ParseError) → IsErrOf result (NotFaithful.Rejected e)
        → IsAnswerTo text.now (Err (plain_error_of e)) × (e ≢ ParseError.Memory) }
    ensures other { IsErrOf result NotFaithful.OtherTree → MeansOther text.now (tree_of expr.now) }
    ensures no_indent { ¬ (IsErrOf result NotFaithful.IndentTooWide) }
{
    let read = parse(alloc, text)?;
    let verdict = is_normal_of(alloc, &read, expr);
    drop(read);
    if verdict? {
        Ok(())
    } else {
        Err(NotFaithful::OtherTree)
    }
}

/// Whether a tree is the normal form of another one.
fn is_normal_of(alloc: Global, read: &Expr, expr: &Expr) -> Result<bool, AllocError>
    ensures { IfOk result (λ b. IsTrue b ↔ (tree_of read.now ≡ normal (tree_of expr.now))) }
{
    promql_ast::laws::equal_expressions();
    let normal = expr.normalized(alloc)?;
    let same = *read == normal;
    drop(normal);
    Ok(same)
}
