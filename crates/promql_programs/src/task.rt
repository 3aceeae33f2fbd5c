//! One query of an input, and what is made of it: docs/reference/programs.md, "A run".

ghost use Rattle.std.specs.Prelude.{◌≡◌, ◌≢◌, ◌⊎◌, false, true, IfErr, IfOk, option_map, string_bytes};
ghost use Rattle.std.specs.Io.KnownBytes.{Appends};
ghost use Rattle.promql_text.specs.Texts.{Text};
ghost use Rattle.promql_run.specs.Ended.{AppendsBeginning};
ghost use Rattle.promql_run.specs.Programs.{AnswersQuery};
ghost use Rattle.promql_query.specs.QueryErrors.{query_error_number};
ghost use Rattle.promql_query.specs.declared.query_error.QueryError as query_error;
ghost use Rattle.promql_query.specs.declared.query_error.QueryError.TheVariants as errors;
ghost use Rattle.promql_span.specs.declared.target.Target as targets;
ghost use Rattle.promql_programs.specs.Tasks.{FailsInput, IsInputAnswer, Warns};
ghost use Rattle.promql_programs.specs.Warnings.{IsSaid};

use crate::reports::{say, say_error, warning_of};
use crate::source::Source;
use promql_query::query_error::QueryError;
use promql_run::ended::Ended;
use promql_run::output::write_answer;
use promql_run::run::read_text;
use promql_run::writing::write_text;
use promql_span::Target;
use std::alloc::{AllocError, Global};
use std::io::{Read, Write};

/// What is made of a query.
pub trait Task {
    ghost makes: { Self → Text → Text → Type 0 };

    ghost fails: { Self → query_error.QueryError → Text → Type 0 };

    ghost served: { Self → targets.Target };

    /// What is written of a query, or why there is nothing.
    fn answer(&self, alloc: Global, query: &str) -> Result<String, QueryError>
        ensures made { IfOk result (λ s. makes self.now query.now (string_bytes s)) }
        ensures failed { IfErr result (λ e. fails self.now e query.now) }
        ensures text { IfErr result (λ e. e ≢ errors.NotUtf8) };

    /// The server that the answer is for.
    fn target(&self) -> Target
        ensures { result ≡ served self.now };

    /// Why that is, for people, where it is no fault of the query.
    fn reason(&self, _alloc: Global, _error: &QueryError) -> Result<Option<String>, AllocError> {
        Ok(None)
    }
}

/// Writes an answer, and then the warning of it, if there is one. Returns the status, as `write_answer` does. A warning that cannot be
/// written is lost.
fn write_warned<W: Write, E: Write>(
    writer: &mut Ended<W>,
    errors: &mut Ended<E>,
    answer: &str,
    warning: Option<String>,
) -> u8
    ensures text { result ≡ 0
        → Appends (W.contents writer.old.inner) (W.contents writer.new.inner) answer.now }
    ensures flushed { result ≡ 0 → writer.new.pending ≡ false }
    ensures said { result ≡ 0 → IsSaid E.contents (option_map string_bytes warning) errors.old errors.new }
    ensures known { (result ≡ 0) ⊎ (result ≡ 5) }
    ensures write { result ≡ 5 → writer.new.failed ≡ true }
    ensures begun { result ≡ 5
        → AppendsBeginning (W.contents writer.old.inner) (W.contents writer.new.inner) answer.now }
    ensures closed { result ≡ 5 → writer.new.closed ≡ true → errors.new ≡ errors.old }
{
    let status = write_answer(writer, errors, answer);
    if let (0, Some(warning)) = (status, warning) {
        let _ = write_text(errors, warning.as_str());
    }
    status
}

/// Writes what a task makes of the query of the input, with a warning of what its target rejects of that, and returns the status.
///
/// A warning, or the message of an error and a line feed, go to `errors`; what cannot be written is lost, and the status tells the error
/// all the same.
pub fn answer_query<T: Task, R: Read, W: Write, E: Write>(
    alloc: Global,
    task: &T,
    source: &Source,
    reader: &mut Ended<R>,
    writer: &mut Ended<W>,
    errors: &mut Ended<E>,
) -> u8
    ensures answers { AnswersQuery R.remaining W.contents (IsInputAnswer source.now.is_file (T.makes task.now)) query_error_number
        (FailsInput source.now.is_file (T.fails task.now))
        (Warns E.contents source.now.is_file (string_bytes source.now.prefix) (T.served task.now))
        reader.old reader.new writer.old writer.new errors.old errors.new result }
    // Where nobody reads what is written, nothing is said.
    ensures closed { result ≡ 5 → writer.new.closed ≡ true → errors.new ≡ errors.old }
{
    let input = match read_text(alloc, reader) {
        Ok(input) => input,
        Err(error) => {
            say(errors, source, &error);
            return error.number();
        }
    };
    let query = source.text_in(input.as_str());
    match task.answer(alloc, query) {
        Ok(answer) => {
            let text = answer.as_str();
            match warning_of(alloc, source, task.target(), text) {
                Ok(warning) => write_warned(writer, errors, text, warning),
                Err(_) => {
                    say(errors, source, &QueryError::Memory);
                    1
                }
            }
        }
        Err(error) => {
            match task.reason(alloc, &error) {
                Ok(Some(reason)) => {
                    let _ = write_text(errors, reason.as_str());
                }
                _ => say_error(alloc, errors, source, query, &error),
            }
            error.number()
        }
    }
}
