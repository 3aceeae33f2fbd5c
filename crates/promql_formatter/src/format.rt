//! A query over several lines, with its comments: docs/reference/formatting.md.

ghost use Rattle.std.specs.Prelude.{◌≡◌, ◌≢◌, ◌↔◌, Err, Ok, IfOk, IsErrOf, IsTrue, string_bytes};
ghost use Rattle.promql_ast.specs.Normal.{normal};
ghost use Rattle.promql_ast.specs.View.{tree_of};
ghost use Rattle.promql_span.specs.ErrorPlaces.{IsPlaceOf};
ghost use Rattle.promql_span.specs.declared.diagnosis.Diagnosis.{Diagnosis};
ghost use Rattle.promql_span.specs.declared.limits.LongOutput.{LongOutput};
ghost use Rattle.promql_syntax.specs.ParseAnswers.{IsAnswerTo, plain_error_of};
ghost use Rattle.promql_formatter.specs.Comments.{comment_lines};
ghost use Rattle.promql_formatter.specs.Formats.{IsFormatOf, IsKept, IsLayoutOf, IsQuery, IsRejected};
ghost use Rattle.promql_formatter.specs.Options.{IsTooLong, IsTooWide};
ghost use Rattle.promql_formatter.specs.declared.options.WideOption.{WideOption};
ghost use Rattle.promql_formatter.specs.declared.format_error.FormatError.TheVariants as errors;

use crate::comments::comment_lines;
use crate::format_error::FormatError;
use crate::layout::laid_out;
use crate::options::FormatOptions;
use promql_ast::{Expr, drop_expr};
use promql_span::diagnosis::{Diagnosis, diagnose};
use promql_syntax::parser::{ParseError, parse};
use std::alloc::{AllocError, Global};

/// A query over several lines, with its comments (docs/reference/formatting.md).
///
/// What is returned was read again: it has the query's tree, up to its normal form unless the spelling is kept, and its
/// comments.
///
/// # Errors
///
/// `Rejected` exactly where the text is no query; else `TooWide` where an option asks for more than it may, `TooLong` where the
/// layout has more bytes than it may have, `Unfaithful` where it does not read back. `Memory` where an allocation failed.
pub fn format_query(
    alloc: Global,
    text: &str,
    options: &FormatOptions,
) -> Result<String, FormatError>
    ensures formats { IfOk result (λ out. IsLayoutOf options.now text.now (string_bytes out)) }
    ensures rejected { (d : Diagnosis) → IsErrOf result (errors.Rejected d) → IsRejected text.now d }
    ensures unfaithful { IsErrOf result errors.Unfaithful → IsQuery text.now }
    ensures too_wide { (w : WideOption) → IsErrOf result (errors.TooWide w) → IsQuery text.now × IsTooWide options.now w }
    ensures too_long { (long : LongOutput) → IsErrOf result (errors.TooLong long) → IsQuery text.now × IsTooLong options.now long }
{
    match diagnose(alloc, text) {
        Ok(expr) => {
            let layout = format_tree(alloc, text, &expr, options);
            drop_expr(expr);
            layout
        }
        Err(diagnosis) => Err(rejected(text, diagnosis)),
    }
}

/// The same of a query that was read, whose tree is given.
///
/// # Errors
///
/// Those of `format_query` but for `Rejected`.
pub fn format_tree(
    alloc: Global,
    text: &str,
    expr: &Expr,
    options: &FormatOptions,
) -> Result<String, FormatError>
    requires { IsAnswerTo text.now (Ok (tree_of expr.now)) }
    ensures formats { IfOk result (λ out. IsLayoutOf options.now text.now (string_bytes out)) }
    ensures rejected { (d : Diagnosis) → ¬ IsErrOf result (errors.Rejected d) }
    ensures too_wide { (w : WideOption) → IsErrOf result (errors.TooWide w) → IsTooWide options.now w }
    ensures too_long { (long : LongOutput) → IsErrOf result (errors.TooLong long) → IsTooLong options.now long }
{
    if let Err(wide) = options.check() {
        return Err(FormatError::TooWide(wide));
    }
    let bytes = laid_out(alloc, text, options)?;
    let Ok(out) = String::from_utf8(bytes) else {
        return Err(FormatError::Unfaithful);
    };
    if is_format(alloc, text, expr, &out, options.keep_spelling)? {
        Ok(out)
    } else {
        Err(FormatError::Unfaithful)
    }
}

/// The error of a text that was not read.
fn rejected(text: &str, diagnosis: Diagnosis) -> FormatError
    requires answer { IsAnswerTo text.now (Err (plain_error_of diagnosis.error)) }
    requires place { IsPlaceOf text.now diagnosis.error diagnosis.span }
    ensures rejected { (d : Diagnosis) → result ≡ errors.Rejected d → IsRejected text.now d }
    ensures unfaithful { result ≢ errors.Unfaithful }
    ensures too_wide { (w : WideOption) → result ≢ errors.TooWide w }
    ensures too_long { (long : LongOutput) → result ≢ errors.TooLong long }
{
    match diagnosis.error {
        ParseError::Memory => FormatError::Memory,
        _ => FormatError::Rejected(diagnosis),
    }
}

/// Whether a text has the tree and the comments of a query.
fn is_format(
    alloc: Global,
    text: &str,
    expr: &Expr,
    out: &str,
    keep_spelling: bool,
) -> Result<bool, AllocError>
    requires { IsAnswerTo text.now (Ok (tree_of expr.now)) }
    ensures { IfOk result (λ b. IsTrue b → IsFormatOf keep_spelling text.now out.now) }
{
    let read = match parse(alloc, out) {
        Ok(read) => read,
        Err(ParseError::Memory) => return Err(AllocError),
        Err(_) => return Ok(false),
    };
    let is_kept = is_kept(alloc, expr, &read, keep_spelling)?;
    Ok(is_kept && has_same_comments(alloc, text, out)?)
}

/// Whether a tree is kept by another one.
fn is_kept(alloc: Global, expr: &Expr, read: &Expr, keep_spelling: bool) -> Result<bool, AllocError>
    ensures { IfOk result (λ b. IsTrue b → IsKept keep_spelling (tree_of expr.now) (tree_of read.now)) }
{
    promql_ast::laws::equal_expressions();
    if keep_spelling {
        return Ok(*read == *expr);
    }
    let normal = expr.normalized(alloc)?;
    let read_normal = read.normalized(alloc)?;
    Ok(read_normal == normal)
}

/// Whether two texts have the same comments.
fn has_same_comments(alloc: Global, text: &str, out: &str) -> Result<bool, AllocError>
    ensures { IfOk result (λ b. IsTrue b ↔ (comment_lines out.now ≡ comment_lines text.now)) }
{
    let comments = comment_lines(alloc, text)?;
    let kept = comment_lines(alloc, out)?;
    Ok(kept == comments)
}
