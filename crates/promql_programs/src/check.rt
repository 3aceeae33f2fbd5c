//! Why and where a query is rejected: docs/reference/programs.md, "One query, checked".

ghost use Rattle.std.specs.Prelude.{◌≡◌, ◌≢◌, ◌⊎◌, false, true, None, Some, IfErr, IfNone, IfOk, IfSome, IsErrOf, MatchResult, string_bytes};
ghost use Rattle.std.specs.Io.KnownBytes.{Appends};
ghost use Rattle.promql_text.specs.Texts.{Text};
ghost use Rattle.promql_span.specs.ByteEscapes.{byte_escape};
ghost use Rattle.promql_span.specs.Locations.{location_of};
ghost use Rattle.promql_span.specs.declared.span.Span.{Span};
ghost use Rattle.promql_programs.specs.Checking.{HasQuery, IsRejected, IsReported, IsSilent, IsWarned};
ghost use Rattle.promql_programs.specs.CheckedInputs.{IsChecked, warning_text};
ghost use Rattle.promql_programs.specs.Reports.{report_text};
ghost use Rattle.promql_programs.specs.Sources.{IsLineIn, IsQueryIn};
ghost use Rattle.promql_run.specs.Programs.{Reads};
ghost use Rattle.promql_run.specs.Inputs.{IsInput, IsNotUtf8};
ghost use Rattle.promql_run.specs.StepErrors.{IsInputError};

use crate::check_settings::CheckSettings;
use crate::reports::{WARNING, report, report_rejection, say};
use crate::source::Source;
use promql_ast::drop_expr;
use promql_query::rejection::read_query;
use promql_run::colors::{MAGENTA, push_painted};
use promql_run::ended::Ended;
use promql_run::run::{RunError, read_text};
use promql_run::writing::write_text;
use promql_span::{Location, byte_escape};
use std::alloc::{AllocError, Global};
use std::io::{Read, Write};

/// The status where the parser rejects the query.
pub const REJECTED_STATUS: u8 = 4;

/// The status where the query is not within its limits.
pub const LIMIT_STATUS: u8 = 14;

/// The status where the target reads the query otherwise.
pub const OTHERWISE_STATUS: u8 = 23;

/// The status where the target rejects the query.
pub const REFUSED_STATUS: u8 = 24;

/// What is said of a byte escape: docs/reference/texts.md, "Byte escapes".
const BYTE_ESCAPE: &str = "this escape is a character here, and a byte in Prometheus";

/// What a check found of a query.
#[derive(Drop)]
enum Checked {
    /// It is accepted.
    Accepted,
    /// It is accepted, with this warning.
    Warned(String),
    /// It is rejected, with this status and this report.
    Rejected(u8, String),
}

/// What a warning says.
fn warning_message(alloc: Global, colors: bool) -> Result<String, AllocError>
    ensures { IfOk result (λ s. string_bytes s ≡ warning_text colors) }
{
    let mut message = String::new(alloc);
    push_painted(&mut message, colors, MAGENTA, WARNING)?;
    message.push_str(BYTE_ESCAPE)?;
    Ok(message)
}

/// The warning of the first byte escape of an accepted query, or None where it has none.
fn warning(
    alloc: Global,
    colors: bool,
    source: &Source,
    query: &str,
) -> Result<Option<String>, AllocError>
    ensures none { IfOk result (λ o. IfNone o (byte_escape query.now ≡ None)) }
    ensures some { IfOk result (λ o. IfSome o (λ s. (span : Span) × (byte_escape query.now ≡ Some span)
        × (string_bytes s ≡ report_text colors (string_bytes source.now.prefix) query.now (location_of query.now span.start) span (warning_text colors)))) }
{
    match byte_escape(query) {
        Some(span) => {
            let location = Location::line_column(query, span.start);
            let message = warning_message(alloc, colors)?;
            let warning = report(
                alloc,
                colors,
                source,
                query,
                location,
                span,
                message.as_str(),
            )?;
            Ok(Some(warning))
        }
        None => Ok(None),
    }
}

/// The text without the line end at its end.
pub(crate) fn query_in(text: &str) -> &str
    ensures { IsQueryIn text.now result.now }
{
    match text.strip_suffix('\n') {
        Some(line) => without_return(line),
        None => text,
    }
}

/// A line without the carriage return at its end.
fn without_return(line: &str) -> &str
    ensures { IsLineIn line.now result.now }
{
    match line.strip_suffix('\r') {
        Some(query) => query,
        None => line,
    }
}

/// Checks the query of an input.
fn check_text(
    alloc: Global,
    settings: &CheckSettings,
    source: &Source,
    input: &str,
) -> Result<Checked, AllocError>
    ensures { IfOk result (IsChecked settings.now source.now input.now) }
{
    let query = query_in(source.text_in(input));
    match read_query(alloc, &settings.limits, query)? {
        Ok(expr) => {
            drop_expr(expr);
            match warning(alloc, settings.colors, source, query)? {
                Some(warning) => Ok(Checked::Warned(warning)),
                None => Ok(Checked::Accepted),
            }
        }
        Err(rejection) => {
            let report = report_rejection(alloc, settings.colors, source, query, &rejection)?;
            Ok(Checked::Rejected(rejection.reason.number(), report))
        }
    }
}

/// Reads all of the input, and checks the query in it.
fn check_input<R: Read>(
    alloc: Global,
    settings: &CheckSettings,
    source: &Source,
    reader: &mut Ended<R>,
) -> Result<Checked, RunError>
    ensures ok { IfOk result (λ found. IsInput (λ input. IsChecked settings.now source.now input found)
        (R.remaining reader.old.inner) (R.remaining reader.new.inner)) }
    ensures quiet { MatchResult result (λ _. reader.new.failed ≡ reader.old.failed)
        (λ e. e ≢ RunError.Read → reader.new.failed ≡ reader.old.failed) }
    ensures read { IsErrOf result RunError.Read → reader.new.failed ≡ true }
    ensures not_utf8 { IsErrOf result RunError.NotUtf8
        → IsNotUtf8 (R.remaining reader.old.inner) (R.remaining reader.new.inner) }
    ensures errors { IfErr result IsInputError }
{
    let input = read_text(alloc, reader)?;
    Ok(check_text(alloc, settings, source, input.as_str())?)
}

/// Checks the query of the input, and returns the status (docs/reference/programs.md, "One query, checked").
///
/// A report, a warning, or the message of another error and a line feed, go to `errors`; what cannot be written is lost, and the status
/// tells the error all the same.
pub fn check<R: Read, E: Write>(
    alloc: Global,
    settings: &CheckSettings,
    source: &Source,
    reader: &mut Ended<R>,
    errors: &mut Ended<E>,
) -> u8
    ensures reads { Reads R.remaining reader.old reader.new result }
    // Where the query is accepted, nothing is written, or the warning of a byte escape; and the report where it is rejected.
    ensures accepted { result ≡ 0
        → (HasQuery source.now.is_file (IsSilent settings.now.limits) (R.remaining reader.old.inner) (R.remaining reader.new.inner)
        × (errors.new ≡ errors.old))
        ⊎ ((warning : Text)
        × HasQuery source.now.is_file (IsWarned settings.now (string_bytes source.now.prefix) warning) (R.remaining reader.old.inner) (R.remaining reader.new.inner)
        × (errors.new.failed ≡ false
        → Appends (E.contents errors.old.inner) (E.contents errors.new.inner) warning)) }
    ensures rejected { IsRejected result → (report : Text)
        × HasQuery source.now.is_file (IsReported settings.now (string_bytes source.now.prefix) result report) (R.remaining reader.old.inner) (R.remaining reader.new.inner)
        × (errors.new.failed ≡ false
        → Appends (E.contents errors.old.inner) (E.contents errors.new.inner) report) }
    // Each other status is that of an error.
    ensures known { (result ≡ 0) ⊎ (result ≡ 1) ⊎ (result ≡ 2) ⊎ (result ≡ 3) ⊎ IsRejected result }
{
    match check_input(alloc, settings, source, reader) {
        Ok(Checked::Accepted) => 0,
        Ok(Checked::Warned(warning)) => {
            let _ = write_text(errors, warning.as_str());
            0
        }
        Ok(Checked::Rejected(status, report)) => {
            let _ = write_text(errors, report.as_str());
            status
        }
        Err(error) => {
            say(errors, source, &error);
            error.number()
        }
    }
}
