//! What is said of a query that is rejected, for people: docs/reference/programs.md, "One query, checked".

ghost use Rattle.std.specs.Prelude.{◌≡◌, ◌⊎◌, ◌++◌, [], if◌then◌else◌, IfOk, codes, encode_utf8_all, option_map, string_bytes};
ghost use Rattle.std.specs.Str.{chars};
ghost use Rattle.promql_text.specs.Texts.{Text};
ghost use Rattle.promql_span.specs.Visible.{visible};
ghost use Rattle.promql_programs.specs.CheckedInputs.{IsReport};
ghost use Rattle.promql_programs.specs.Reports.{report_text};
ghost use Rattle.promql_programs.specs.Tasks as spec;
ghost use Rattle.promql_programs.specs.Warnings.{IsWarning};

use crate::check::query_in;
use crate::source::Source;
use promql_query::query_error::QueryError;
use promql_query::rejection::{Reason, Rejection};
use promql_run::colors::{BOLD, GREEN, push_marked, push_painted};
use promql_run::ended::Ended;
use promql_run::writing::write_text;
use promql_span::{Location, Span, Target, end_of_text, snippet, visible};
use promql_target::{Refusal, first_refusal};
use std::alloc::{AllocError, Global};
use std::fmt;
use std::io::Write;

/// What is said first of a query that has an answer all the same.
pub(crate) const WARNING: &str = "warning: ";

/// What is said of the error of a query that begins with a byte order mark.
pub(crate) const BYTE_ORDER_MARK: &str = ", a byte order mark at the start of the text";

/// Writes the message of an error after the name of the file that it is of. What cannot be written is lost.
pub(crate) fn say<E: Write, M: fmt::Display>(errors: &mut Ended<E>, source: &Source, message: &M) {
    if source.is_file {
        let _ = writeln!(errors, "{} {message}", source.prefix);
    } else {
        let _ = writeln!(errors, "{message}");
    }
}

/// Writes why there is no answer to a query: where it is rejected, with the place, and the line of the query with a mark. What cannot
/// be written is lost.
pub(crate) fn say_error<E: Write>(
    alloc: Global,
    errors: &mut Ended<E>,
    source: &Source,
    text: &str,
    error: &QueryError,
) {
    match error_report(alloc, source, text, error) {
        Ok(Some(report)) => {
            let _ = write_text(errors, report.as_str());
        }
        _ => say(errors, source, error),
    }
}

/// Why and where the query of a text is rejected; `None` of another error.
fn error_report(
    alloc: Global,
    source: &Source,
    text: &str,
    error: &QueryError,
) -> Result<Option<String>, AllocError> {
    let Some(rejected) = error.rejected_query() else {
        return Ok(None);
    };
    let query = query_in(text);
    let rejection = &rejected.rejection;
    let span = span_within(query, rejection.span);
    let message = rejection.message(alloc, text)?;
    let report = report_visibly(
        alloc,
        false,
        source,
        query,
        Location::line_column(query, span.start),
        span,
        message.as_str(),
    )?;
    Ok(Some(report))
}

/// The part of a text as a part of its query: what begins after the query is its end.
fn span_within(query: &str, span: Span) -> Span {
    if span.start < query.len() {
        span
    } else {
        end_of_text(query)
    }
}

/// What is said of a part of the query, for people: where it is from, the line and the column, the message, and the line of the query with
/// a mark.
pub(crate) fn report(
    alloc: Global,
    colors: bool,
    source: &Source,
    query: &str,
    location: Location,
    span: Span,
    message: &str,
) -> Result<String, AllocError>
    ensures { IfOk result (λ s. string_bytes s ≡ report_text colors (string_bytes source.now.prefix) query.now location span message.now) }
{
    let mut place = String::from_str(alloc, source.prefix.as_str())?;
    place.push_str(location.to_string(alloc)?.as_str())?;
    place.push_str(":")?;
    let marked = snippet(alloc, query, span)?;
    let mut report = String::new(alloc);
    push_painted(&mut report, colors, BOLD, place.as_str())?;
    report.push_str(" ")?;
    report.push_str(message)?;
    report.push_str("\n")?;
    push_marked(&mut report, colors, GREEN, marked.as_str())?;
    report.push_str("\n")?;
    Ok(report)
}

/// The same of a message in which characters without a picture of their own become escapes: docs/reference/texts.md, "Visible texts".
fn report_visibly(
    alloc: Global,
    colors: bool,
    source: &Source,
    query: &str,
    location: Location,
    span: Span,
    message: &str,
) -> Result<String, AllocError>
    ensures { IfOk result (λ s. string_bytes s
        ≡ report_text colors (string_bytes source.now.prefix) query.now location span (encode_utf8_all (visible (chars message.now)))) }
{
    let shown = visible(alloc, message)?;
    report(alloc, colors, source, query, location, span, shown.as_str())
}

/// Why and where the query is rejected.
pub(crate) fn report_rejection(
    alloc: Global,
    colors: bool,
    source: &Source,
    query: &str,
    rejection: &Rejection,
) -> Result<String, AllocError>
    ensures { IfOk result (λ s. IsReport colors (string_bytes source.now.prefix) query.now rejection.now (string_bytes s)) }
{
    let message = with_note(query, rejection.message(alloc, query)?)?;
    report_visibly(
        alloc,
        colors,
        source,
        query,
        rejection.location,
        rejection.span,
        message.as_str(),
    )
}

/// A message, and what is said of a byte order mark where the query begins with one.
fn with_note(query: &str, message: String) -> Result<String, AllocError>
    ensures { IfOk result (λ s. (string_bytes s ≡ string_bytes message)
        ⊎ (string_bytes s ≡ string_bytes message ++ BYTE_ORDER_MARK.now)) }
{
    let mut said = message;
    if query.starts_with('\u{feff}') {
        said.push_str(BYTE_ORDER_MARK)?;
    }
    Ok(said)
}

/// What a message begins with that has no place in its source: the name of a file and a space.
fn opening(alloc: Global, source: &Source) -> Result<String, AllocError>
    ensures { IfOk result (λ s. string_bytes s
        ≡ if source.now.is_file then string_bytes source.now.prefix ++ codes " " else []) }
{
    let mut opening = String::new(alloc);
    if source.is_file {
        opening.push_str(source.prefix.as_str())?;
        opening.push_str(" ")?;
    }
    Ok(opening)
}

/// A warning of this part of an answer.
fn warning_text(
    alloc: Global,
    source: &Source,
    answer: &str,
    span: Span,
    message: &str,
) -> Result<String, AllocError>
    ensures { IfOk result (λ s. string_bytes s ≡ spec.warning_text source.now.is_file (string_bytes source.now.prefix) answer.now span message.now) }
{
    let mut warning = opening(alloc, source)?;
    let marked = snippet(alloc, answer, span)?;
    warning.push_str(WARNING)?;
    warning.push_str(message)?;
    warning.push_str("\n")?;
    warning.push_str(marked.as_str())?;
    warning.push_str("\n")?;
    Ok(warning)
}

/// The warning of an answer of which this target rejects a part.
fn refusal_warning(
    alloc: Global,
    source: &Source,
    target: Target,
    answer: &str,
    refusal: Refusal,
) -> Result<String, AllocError>
    ensures { IfOk result (λ s. (message : Text)
        × (string_bytes s ≡ spec.warning_text source.now.is_file (string_bytes source.now.prefix) answer.now refusal.span message)) }
{
    let Refusal { kind, span } = refusal;
    let message = Reason::Refused(target, kind).to_string(alloc)?;
    warning_text(alloc, source, answer, span, message.as_str())
}

/// The warning of an answer for this target; `None` where the target is not known to reject a part of it.
pub(crate) fn warning_of(
    alloc: Global,
    source: &Source,
    target: Target,
    answer: &str,
) -> Result<Option<String>, AllocError>
    ensures { IfOk result (λ warning. IsWarning source.now.is_file (string_bytes source.now.prefix) target answer.now (option_map string_bytes warning)) }
{
    match target {
        Target::Rules => Ok(None),
        Target::Prometheus2 | Target::Prometheus3 => match first_refusal(target, answer) {
            Some(refusal) => {
                let warning = refusal_warning(alloc, source, target, answer, refusal)?;
                Ok(Some(warning))
            }
            None => Ok(None),
        },
    }
}
