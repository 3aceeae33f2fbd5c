//! The text of a tree that is given as JSON: docs/reference/json.md, "From JSON to a text".

ghost use Rattle.std.specs.Prelude.{◌≡◌, Err, IfErr, IfOk, Ok, if◌then◌else◌, string_bytes};
ghost use Rattle.promql_ast.specs.View.{tree_of};
ghost use Rattle.promql_query.specs.TreeTexts.{HasLineWithin, PrintsForm, PrintsTree};
ghost use Rattle.promql_query.specs.BatchSteps.{IsFormatOf, IsLineWithin};
ghost use Rattle.promql_rewrite.specs.Parenthesizing as spec;
ghost use Rattle.promql_run.specs.declared.format.Format as formats;
ghost use Rattle.promql_span.specs.declared.limits.Limits as spans;

use crate::limit_checks::limit_fault;
use crate::query_error::QueryError;
use crate::read_form::read_form;
use promql_ast::{Expr, drop_expr};
use promql_json::{JsonError, json_text};
use promql_rewrite::{NotFaithful, faithful_pretty, parenthesized, why_not_printable};
use promql_run::format::Format;
use promql_span::limits::Limits;
use std::alloc::Global;

/// The same tree, or with parentheses where it needs them.
fn with_parens(alloc: Global, expr: Expr, parens: bool) -> Result<Expr, QueryError>
    ensures ok { IfOk result (λ e. tree_of e ≡ (if parens then spec.parenthesized (tree_of expr) else tree_of expr)) }
    ensures err { IfErr result (λ e. e ≡ QueryError.Memory) }
{
    if parens {
        Ok(parenthesized(alloc, expr)?)
    } else {
        Ok(expr)
    }
}

/// The line of a tree, which is within the limits and means the tree.
#[tactic(auto, using(crate::proofs::TreeMeans::line_means))]
fn line_of_tree(alloc: Global, limits: &Limits, expr: &Expr) -> Result<String, QueryError>
    ensures ok { IfOk result (λ s. IsLineWithin limits.now (tree_of expr.now) (string_bytes s)) }
    ensures err { (format : formats.Format) → IfErr result (λ e. PrintsTree limits.now format (tree_of expr.now) (Err e)) }
{
    let line = expr.to_string(alloc)?;
    if let Some(fault) = limit_fault(alloc, limits, line.as_str())? {
        return Err(QueryError::LargeTree(fault));
    }
    match why_not_printable(alloc, expr)? {
        None => Ok(line),
        Some(reason) => Err(QueryError::NotPrintable(reason)),
    }
}

/// The layout of a tree that has a line, which means the tree.
fn layout_of_tree(
    alloc: Global,
    level: u16,
    width: usize,
    expr: &Expr,
) -> Result<String, QueryError>
    ensures ok { IfOk result (λ s. IsFormatOf (Format.Pretty (record { level = level; width = width })) (tree_of expr.now) (string_bytes s)) }
    ensures err { (limits : spans.Limits) (format : formats.Format) → HasLineWithin limits (tree_of expr.now)
        → IfErr result (λ e. PrintsTree limits format (tree_of expr.now) (Err e)) }
{
    match faithful_pretty(alloc, expr, level as usize, width) {
        Ok(text) => Ok(text),
        Err(NotFaithful::Memory) => Err(QueryError::Memory),
        Err(error) => Err(QueryError::Unfaithful(error)),
    }
}

/// The form of a tree that has a line.
fn form_of_tree(alloc: Global, expr: &Expr) -> Result<String, QueryError>
    ensures ok { IfOk result (λ s. IsFormatOf Format.Json (tree_of expr.now) (string_bytes s)) }
    ensures err { (limits : spans.Limits) (format : formats.Format) → HasLineWithin limits (tree_of expr.now)
        → IfErr result (λ e. PrintsTree limits format (tree_of expr.now) (Err e)) }
{
    match json_text(alloc, expr) {
        Ok(text) => Ok(text),
        Err(JsonError::Memory) => Err(QueryError::Memory),
        Err(JsonError::NumberTooWide) => Err(QueryError::NoForm(JsonError::NumberTooWide)),
        Err(JsonError::Extension) => Err(QueryError::NoForm(JsonError::Extension)),
    }
}

/// The text of a tree in a format.
fn show_tree(
    alloc: Global,
    limits: &Limits,
    format: Format,
    expr: &Expr,
) -> Result<String, QueryError>
    ensures ok { IfOk result (λ s. PrintsTree limits.now format (tree_of expr.now) (Ok (string_bytes s))) }
    ensures err { IfErr result (λ e. PrintsTree limits.now format (tree_of expr.now) (Err e)) }
{
    let line = line_of_tree(alloc, limits, expr)?;
    match format {
        Format::Line => Ok(line),
        Format::Pretty(layout) => layout_of_tree(alloc, layout.level, layout.width, expr),
        Format::Json => form_of_tree(alloc, expr),
    }
}

/// The text of the tree whose JSON form a text is, in a format; with parentheses where the tree needs them, if they are asked
/// for. The line of the tree is within the limits of a query; it is read again, and means the tree. So does the laid out text.
///
/// # Errors
///
/// `LargeForm` where the text has more than `max_tree` bytes, or its patterns are larger than those of a query may be; else
/// `NotATree` where the text is the form of no tree; else `LargeTree` where the line of the tree is not within the limits;
/// `NotPrintable` where the line would not mean the tree, with the reason; `Unfaithful` where the laid out text would not;
/// `NoForm` where the tree has no form; `Memory` where an allocation failed.
pub fn tree_text(
    alloc: Global,
    limits: &Limits,
    max_tree: usize,
    format: Format,
    parens: bool,
    form: &str,
) -> Result<String, QueryError>
    ensures ok { IfOk result (λ s. PrintsForm limits.now max_tree format parens form.now (Ok (string_bytes s))) }
    ensures err { IfErr result (λ e. PrintsForm limits.now max_tree format parens form.now (Err e)) }
{
    let expr = with_parens(alloc, read_form(alloc, limits, max_tree, form)?, parens)?;
    let text = show_tree(alloc, limits, format, &expr);
    drop_expr(expr);
    text
}
