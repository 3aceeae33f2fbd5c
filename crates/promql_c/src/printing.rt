//! What a call makes of a query: its text in a mode, nothing where it is accepted, or its line with a mark.

ghost use Rattle.std.specs.Prelude.{◌≡◌, ◌≤◌, [], Ok, string_bytes};
ghost use Rattle.promql_grammar.specs.Results.{on_result};
ghost use Rattle.promql_ast.specs.Height.{height};
ghost use Rattle.promql_ast.specs.View.{tree_of};
ghost use Rattle.promql_syntax.specs.ParseAnswers.{IsAnswerTo};
ghost use Rattle.promql_syntax.specs.declared.parser.TheConstants.{MAX_DEPTH};
ghost use Rattle.promql_run.specs.Extensions.{HasNoExtension};
ghost use Rattle.promql_query.specs.QueryErrors.{Gives, Prints};
ghost use Rattle.promql_c.specs.Calls.{IsPrintOf, IsSnippetOf};

use crate::tree_call::{TreeCall, tell_query};
use promql_ast::Expr;
use promql_json::JsonError;
use promql_query::mode::Mode;
use promql_query::output::output_within;
use promql_query::placed_text::placed_text;
use promql_query::query_error::QueryError;
use promql_run::format::Format;
use promql_run::rendering::shown_text;
use promql_span::Span;
use promql_span::limits::Limits;
use std::alloc::Global;

/// The text of a tree in a format.
fn print_tree(
    alloc: Global,
    limits: &Limits,
    format: Format,
    expr: &Expr,
) -> Result<String, QueryError>
    requires low { height (tree_of expr.now) ≤ MAX_DEPTH }
    requires plain { HasNoExtension (tree_of expr.now) }
    ensures { Prints limits.now [] (Mode.Plain format) (tree_of expr.now) (on_result (λ s. string_bytes s) result) }
{
    match shown_text(alloc, format, expr)? {
        Some(text) => output_within(limits, text),
        None => Err(QueryError::NoForm(JsonError::NumberTooWide)),
    }
}

/// The text of a query's tree in a mode.
fn print_in(
    alloc: Global,
    limits: &Limits,
    mode: Mode,
    text: &str,
    expr: &Expr,
) -> Result<String, QueryError>
    requires low { height (tree_of expr.now) ≤ MAX_DEPTH }
    requires plain { HasNoExtension (tree_of expr.now) }
    requires answer { IsAnswerTo text.now (Ok (tree_of expr.now)) }
    ensures { Prints limits.now text.now mode (tree_of expr.now) (on_result (λ s. string_bytes s) result) }
{
    match mode {
        Mode::Plain(format) => print_tree(alloc, limits, format, expr),
        Mode::Placed => placed_text(alloc, limits, text, expr),
    }
}

/// `calls::print` in a mode that there is.
#[derive(Clone, Copy)]
struct PrintCall {
    mode: Mode,
}

impl TreeCall for PrintCall {
    ghost tells = { λ call limits query. Prints limits query call.mode };

    fn tell(
        &self,
        alloc: Global,
        limits: &Limits,
        query: &str,
        expr: &Expr,
    ) -> Result<String, QueryError> {
        print_in(alloc, limits, self.mode, query, expr)
    }
}

/// The text of a query in the mode that was asked for.
pub(crate) fn print_query(
    alloc: Global,
    limits: &Limits,
    asked: Option<Mode>,
    query: &[u8],
) -> Result<String, QueryError>
    ensures { IsPrintOf limits.now query.now asked (on_result (λ s. string_bytes s) result) }
{
    match asked {
        Some(mode) => tell_query(&PrintCall { mode }, alloc, limits, query),
        None => Err(QueryError::UnknownMode),
    }
}

/// `calls::check`: nothing, where the query is accepted.
#[derive(Clone, Copy)]
pub(crate) struct CheckCall;

impl TreeCall for CheckCall {
    ghost tells = { λ call limits query t. Gives (λ text. text ≡ []) (λ e. ⊥) };

    fn tell(
        &self,
        alloc: Global,
        _limits: &Limits,
        _query: &str,
        _expr: &Expr,
    ) -> Result<String, QueryError> {
        Ok(String::new(alloc))
    }
}

/// The line of a query where a part of it begins, with a mark below it.
pub(crate) fn mark_query(alloc: Global, query: &[u8], span: Span) -> Result<String, QueryError>
    ensures { IsSnippetOf query.now span (on_result (λ s. string_bytes s) result) }
{
    let Ok(text) = str::from_utf8(query) else {
        return Err(QueryError::NotUtf8);
    };
    Ok(promql_span::snippet(alloc, text, span)?)
}
