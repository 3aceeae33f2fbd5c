//! The text of a tree that is given as JSON.

ghost use Rattle.std.specs.Prelude.{string_bytes};
ghost use Rattle.promql_grammar.specs.Results.{on_result};
ghost use Rattle.promql_c.specs.Calls.{IsTreePrintOf};
ghost use Rattle.promql_query.specs.QueryErrors.{IsOutput, Then};
ghost use Rattle.promql_query.specs.TreeTexts.{PrintsForm};

use promql_query::output::output_within;
use promql_query::query_error::QueryError;
use promql_query::tree_text::tree_text;
use promql_run::format::Format;
use promql_span::limits::Limits;
use std::alloc::Global;

/// The text of the tree whose form a text is, in a format.
fn print_text(
    alloc: Global,
    limits: &Limits,
    max_tree: usize,
    format: Format,
    parens: bool,
    form: &str,
) -> Result<String, QueryError>
    ensures { Then (PrintsForm limits.now max_tree format parens form.now) (IsOutput limits.now) (on_result (λ s. string_bytes s) result) }
{
    match tree_text(alloc, limits, max_tree, format, parens, form) {
        Ok(text) => output_within(limits, text),
        Err(error) => Err(error),
    }
}

/// The text of the tree whose form is given, in the format that was asked for.
pub(crate) fn print_form(
    alloc: Global,
    limits: &Limits,
    max_tree: usize,
    asked: Option<Format>,
    parens: bool,
    form: &[u8],
) -> Result<String, QueryError>
    ensures { IsTreePrintOf limits.now max_tree form.now parens asked (on_result (λ s. string_bytes s) result) }
{
    let Some(format) = asked else {
        return Err(QueryError::UnknownMode);
    };
    let Ok(form) = str::from_utf8(form) else {
        return Err(QueryError::NotUtf8);
    };
    print_text(alloc, limits, max_tree, format, parens, form)
}
