//! What is made of an expression: its text in a format.

ghost use Rattle.std.specs.Prelude.{◌≡◌, ◌++◌, ◌∷◌, ◌≤◌, [], Ok, Err, IfOk, IfErr, IfNone, IfSome, IsErrOf, string_bytes};
ghost use Rattle.promql_text.specs.Texts.{Text};
ghost use Rattle.promql_ast.specs.Height.{height};
ghost use Rattle.promql_ast.specs.Layout.{layout_of};
ghost use Rattle.promql_ast.specs.View.{tree_of};
ghost use Rattle.promql_syntax.specs.declared.parser.TheConstants.{MAX_DEPTH};
ghost use Rattle.promql_json.specs.declared.error.JsonError.TheVariants.{NumberTooWide};
ghost use Rattle.promql_run.specs.Extensions.{HasNoExtension};
ghost use Rattle.promql_run.specs.Running.{format_text};
ghost use Rattle.promql_run.specs.StepErrors.{IsShowError};

use crate::format::Format;
use crate::run::RunError;
use promql_ast::{Expr, Prettier, PrettyError};
use promql_json::JsonError;
use std::alloc::{AllocError, Global};

/// The expression, laid out at a level of two spaces each, in lines of at most `width` bytes (docs/reference/printing.md). An
/// expression that was read is low enough for each indentation.
///
/// # Errors
///
/// `AllocError` where an allocation failed.
pub fn pretty_text(
    alloc: Global,
    level: u16,
    width: usize,
    expr: &Expr,
) -> Result<String, AllocError>
    requires { height (tree_of expr.now) ≤ MAX_DEPTH }
    ensures { IfOk result (λ s. string_bytes s ≡ layout_of (tree_of expr.now) level width) }
{
    match expr.pretty(alloc, level as usize, width) {
        Ok(text) => Ok(text),
        Err(PrettyError::Memory) => Err(AllocError),
        Err(PrettyError::IndentTooWide) => unreachable!(),
    }
}

/// The JSON form of the expression, without a space; `None` where a number of milliseconds is too wide for it. An expression
/// that was read has no extension.
///
/// # Errors
///
/// `AllocError` where an allocation failed.
pub fn json_text(alloc: Global, expr: &Expr) -> Result<Option<String>, AllocError>
    requires { HasNoExtension (tree_of expr.now) }
    ensures text { IfOk result (λ form.
        IfSome form (λ s. format_text Format.Json (tree_of expr.now) ≡ Ok (string_bytes s))) }
    ensures wide { IfOk result (λ form.
        IfNone form (format_text Format.Json (tree_of expr.now) ≡ Err NumberTooWide)) }
{
    match promql_json::json_text(alloc, expr) {
        Ok(text) => Ok(Some(text)),
        Err(JsonError::Memory) => Err(AllocError),
        Err(JsonError::NumberTooWide) => Ok(None),
        Err(JsonError::Extension) => unreachable!(),
    }
}

/// The text of an expression in a format; `None` where a number of milliseconds is too wide for JSON. An expression that was
/// read is low enough for a layout, and has no extension.
///
/// # Errors
///
/// `AllocError` where an allocation failed.
pub fn shown_text(alloc: Global, format: Format, expr: &Expr) -> Result<Option<String>, AllocError>
    requires low { height (tree_of expr.now) ≤ MAX_DEPTH }
    requires plain { HasNoExtension (tree_of expr.now) }
    ensures text { IfOk result (λ shown.
        IfSome shown (λ s. format_text format (tree_of expr.now) ≡ Ok (string_bytes s))) }
    ensures wide { IfOk result (λ shown.
        IfNone shown (format_text format (tree_of expr.now) ≡ Err NumberTooWide)) }
{
    match format {
        Format::Pretty(layout) => Ok(Some(pretty_text(alloc, layout.level, layout.width, expr)?)),
        Format::Line => Ok(Some(expr.to_string(alloc)?)),
        Format::Json => json_text(alloc, expr),
    }
}

/// The text of an expression in a format, with a line feed after it.
pub(crate) fn render_line(alloc: Global, format: Format, expr: &Expr) -> Result<String, RunError>
    requires low { height (tree_of expr.now) ≤ MAX_DEPTH }
    requires plain { HasNoExtension (tree_of expr.now) }
    ensures ok { IfOk result (λ s. (body : Text) × (format_text format (tree_of expr.now) ≡ Ok body)
        × (string_bytes s ≡ body ++ 10 ∷ [])) }
    ensures json { IsErrOf result RunError.Json →
        format_text format (tree_of expr.now) ≡ Err NumberTooWide }
    ensures errors { IfErr result IsShowError }
{
    let Some(mut line) = shown_text(alloc, format, expr)? else {
        return Err(RunError::Json);
    };
    line.push_str("\n")?;
    Ok(line)
}
