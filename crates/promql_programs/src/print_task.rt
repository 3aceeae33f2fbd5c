//! A query that is printed: docs/reference/programs.md, "Modes".

ghost use Rattle.std.specs.Prelude.{◌≡◌, ◌≢◌, ◌++◌, ◌∷◌, ◌≤◌, [], Err, IfErr, IfOk, Ok, string_bytes};
ghost use Rattle.promql_text.specs.Texts.{Text};
ghost use Rattle.promql_ast.specs.Height.{height};
ghost use Rattle.promql_ast.specs.View.{tree_of};
ghost use Rattle.promql_run.specs.Extensions.{HasNoExtension};
ghost use Rattle.promql_run.specs.Running.{format_text};
ghost use Rattle.promql_run.specs.declared.format.Format as formats;
ghost use Rattle.promql_query.specs.declared.query_error.QueryError.TheVariants as errors;
ghost use Rattle.promql_span.specs.ErrorPlaces.{IsPlaceOf};
ghost use Rattle.promql_syntax.specs.ParseAnswers.{IsAnswerTo, plain_error_of};
ghost use Rattle.promql_syntax.specs.declared.parser.TheConstants.{MAX_DEPTH};
ghost use Rattle.promql_programs.specs.Tasks.{FailsToPrint, HasNoLine};

use crate::task::Task;
use promql_ast::{Expr, drop_expr};
use promql_json::JsonError;
use promql_query::query_error::QueryError;
use promql_query::rejected_query::RejectedQuery;
use promql_query::rejection::{Reason, Rejection};
use promql_run::format::Format;
use promql_run::rendering::shown_text;
use promql_span::Target;
use promql_span::diagnosis::{Diagnosis, diagnose};
use std::alloc::Global;

/// Prints a query in a format.
#[derive(Clone, Copy, Debug)]
pub struct Print {
    /// How it is printed.
    pub format: Format,
}

impl Task for Print {
    ghost use Rattle.promql_run.specs.Running.{IsPrinted};
    ghost use Rattle.promql_programs.specs.Tasks.{FailsToPrint};
    ghost use Rattle.promql_span.specs.declared.target.Target.TheVariants.{Rules};

    ghost makes = { λ task. IsPrinted task.format };

    ghost fails = { λ task. FailsToPrint task.format };

    ghost served = { λ _. Rules };

    fn answer(&self, alloc: Global, query: &str) -> Result<String, QueryError> {
        match diagnose(alloc, query) {
            Ok(expr) => {
                let line = print_line(alloc, self.format, &expr);
                drop_expr(expr);
                line
            }
            Err(diagnosis) => Err(rejected(query, diagnosis)),
        }
    }

    fn target(&self) -> Target {
        Target::Rules
    }
}

/// The text of an expression in a format, with a line feed after it.
fn print_line(alloc: Global, format: Format, expr: &Expr) -> Result<String, QueryError>
    requires low { height (tree_of expr.now) ≤ MAX_DEPTH }
    requires plain { HasNoExtension (tree_of expr.now) }
    ensures ok { IfOk result (λ s. (body : Text) × (format_text format (tree_of expr.now) ≡ Ok body) × (string_bytes s ≡ body ++ 10 ∷ [])) }
    ensures err { IfErr result (HasNoLine format (tree_of expr.now)) }
{
    let Some(mut line) = shown_text(alloc, format, expr)? else {
        return Err(QueryError::NoForm(JsonError::NumberTooWide));
    };
    line.push_str("\n")?;
    Ok(line)
}

/// The error of a query that the parser rejects so.
fn rejected(query: &str, diagnosis: Diagnosis) -> QueryError
    requires answer { IsAnswerTo query.now (Err (plain_error_of diagnosis.error)) }
    requires place { IsPlaceOf query.now diagnosis.error diagnosis.span }
    ensures fails { (format : formats.Format) → FailsToPrint format result query.now }
    ensures text { result ≢ errors.NotUtf8 }
{
    let Diagnosis { error, span } = diagnosis;
    match span {
        Some(span) => QueryError::Rejected(RejectedQuery {
            rejection: Rejection::new(query, Reason::Parse(error), span),
            expectation: None,
        }),
        None => QueryError::Memory,
    }
}
