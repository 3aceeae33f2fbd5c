//! From the bytes of a reader to the bytes of a writer.

ghost use Rattle.std.specs.Prelude.{◌≡◌, ◌≢◌, true, false, OnOk, IfOk, IfErr, IsErrOf, MatchResult, string_bytes};
ghost use Rattle.std.specs.Io.KnownBytes.{Appends};
ghost use Rattle.promql_syntax.specs.declared.parser.ParseError.{ParseError};
ghost use Rattle.promql_run.specs.Ended.{AppendsBeginning};
ghost use Rattle.promql_run.specs.Inputs.{AnswersInput, HasRead, IsInput, IsNotUtf8};
ghost use Rattle.promql_run.specs.Running.{FailsToPrint, IsPrinted, error_number};
ghost use Rattle.promql_run.specs.StepErrors.{IsInputError, IsAnswerError};

use crate::ended::Ended;
use crate::format::Format;
use crate::reading::{ReadFault, read_all};
use crate::rendering::render_line;
use crate::writing::{WriteFailed, write_text};
use promql_ast::drop_expr;
use promql_syntax::parser::{ParseError, parse};
use std::alloc::{AllocError, Global};
use std::io::{Read, Write};
use thiserror::Error;

/// Why a run ended without its answer (docs/reference/programs.md, "Statuses and messages").
#[derive(PartialEq, Eq, Debug, Drop, Error)]
pub enum RunError {
    /// An allocation failed.
    #[error("out of memory")]
    Memory,
    /// A read failed.
    #[error("read failed")]
    Read,
    /// The input is not valid UTF-8.
    #[error("input is not UTF-8")]
    NotUtf8,
    /// The parser rejects the text.
    #[error("{0}")]
    Parse(ParseError),
    /// A write failed, or took nothing. A beginning of the answer may have been written.
    #[error("write failed")]
    Write,
    /// The expression has no JSON form: a number of milliseconds is too wide.
    #[error("number too wide for JSON")]
    Json,
}

impl RunError {
    /// The error's number, with which the program ends.
    pub fn number(&self) -> u8
        ensures { result ≡ error_number self.now }
    {
        match self {
            RunError::Memory => 1,
            RunError::Read => 2,
            RunError::NotUtf8 => 3,
            RunError::Parse(_) => 4,
            RunError::Write => 5,
            RunError::Json => 6,
        }
    }
}

impl From<AllocError> for RunError {
    ghost use Rattle.std.specs.Prelude.{◌≡◌};
    ghost use Rattle.promql_run.specs.declared.run.RunError.TheVariants.{Memory};

    ghost from_gives = { λ _ e. e ≡ Memory };

    fn from(_e: AllocError) -> RunError {
        RunError::Memory
    }
}

impl From<WriteFailed> for RunError {
    ghost use Rattle.std.specs.Prelude.{◌≡◌};
    ghost use Rattle.promql_run.specs.declared.run.RunError.TheVariants.{Write};

    ghost from_gives = { λ _ e. e ≡ Write };

    fn from(_e: WriteFailed) -> RunError {
        RunError::Write
    }
}

/// Reads all that the reader has, as a text. Each read but the last adds a byte, so an endless input ends in `Memory`.
///
/// # Errors
///
/// `Read` where a read failed, `NotUtf8` where the input is not valid UTF-8, `Memory` where an allocation failed.
pub fn read_text<R: Read>(alloc: Global, reader: &mut Ended<R>) -> Result<String, RunError>
    ensures read { IfOk result (λ text. HasRead (R.remaining reader.old.inner)
        (R.remaining reader.new.inner) (string_bytes text)) }
    ensures not_utf8 { IsErrOf result RunError.NotUtf8
        → IsNotUtf8 (R.remaining reader.old.inner) (R.remaining reader.new.inner) }
    ensures quiet { MatchResult result (λ _. reader.new.failed ≡ reader.old.failed)
        (λ e. e ≢ RunError.Read → reader.new.failed ≡ reader.old.failed) }
    ensures failed { IsErrOf result RunError.Read → reader.new.failed ≡ true }
    ensures errors { IfErr result IsInputError }
{
    let bytes = match read_all(alloc, reader) {
        Ok(bytes) => bytes,
        Err(ReadFault::Memory) => return Err(RunError::Memory),
        Err(ReadFault::Read) => return Err(RunError::Read),
    };
    match String::from_utf8(bytes) {
        Ok(text) => Ok(text),
        Err(_) => Err(RunError::NotUtf8),
    }
}

/// The whole answer to a text, with a line feed after it.
fn render_query(alloc: Global, format: Format, text: &str) -> Result<String, RunError>
    ensures ok { IfOk result (λ answer. IsPrinted format text.now (string_bytes answer)) }
    ensures json { IsErrOf result RunError.Json → FailsToPrint format RunError.Json text.now }
    ensures parse { (e : ParseError) → IsErrOf result (RunError.Parse e) → FailsToPrint format (RunError.Parse e) text.now }
    ensures errors { IfErr result IsAnswerError }
{
    let expr = match parse(alloc, text) {
        Ok(expr) => expr,
        Err(ParseError::Memory) => return Err(RunError::Memory),
        Err(error) => return Err(RunError::Parse(error)),
    };
    let line = render_line(alloc, format, &expr);
    drop_expr(expr);
    line
}

/// Reads all of the input, and writes what the format makes of it, with a line feed after it.
///
/// The whole answer is made before the first byte of it is written (docs/reference/programs.md, "A run").
pub fn run<R: Read, W: Write>(
    alloc: Global,
    format: Format,
    reader: &mut Ended<R>,
    writer: &mut Ended<W>,
) -> Result<(), RunError>
    // All of the input was read, and what was written is the answer's text and a line feed, flushed.
    ensures ok { OnOk result (AnswersInput (IsPrinted format) (R.remaining reader.old.inner)
        (R.remaining reader.new.inner) (Appends (W.contents writer.old.inner) (W.contents writer.new.inner))) }
    ensures flushed { OnOk result (writer.new.pending ≡ false) }
    // No read failed but for `Read`, and no write but for `Write`.
    ensures quiet_reader { MatchResult result (λ _. reader.new.failed ≡ reader.old.failed)
        (λ e. e ≢ RunError.Read → reader.new.failed ≡ reader.old.failed) }
    ensures quiet_writer { OnOk result (writer.new.failed ≡ writer.old.failed) }
    ensures read { IsErrOf result RunError.Read → reader.new.failed ≡ true }
    ensures write { IsErrOf result RunError.Write → writer.new.failed ≡ true }
    // The input's own faults, in this order, where all of it was read.
    ensures not_utf8 { IsErrOf result RunError.NotUtf8
        → IsNotUtf8 (R.remaining reader.old.inner) (R.remaining reader.new.inner) }
    ensures parse { (e : ParseError) → IsErrOf result (RunError.Parse e) →
        IsInput (FailsToPrint format (RunError.Parse e)) (R.remaining reader.old.inner) (R.remaining reader.new.inner) }
    ensures json { IsErrOf result RunError.Json → IsInput (FailsToPrint format RunError.Json)
        (R.remaining reader.old.inner) (R.remaining reader.new.inner) }
    // Nothing was written before the whole answer was made, and nothing but a beginning of it where a write failed.
    ensures unwritten { IfErr result (λ e. e ≢ RunError.Write → writer.new ≡ writer.old) }
    ensures begun { IsErrOf result RunError.Write → AnswersInput (IsPrinted format) (R.remaining reader.old.inner)
        (R.remaining reader.new.inner) (AppendsBeginning (W.contents writer.old.inner) (W.contents writer.new.inner)) }
{
    let text = read_text(alloc, reader)?;
    let answer = render_query(alloc, format, text.as_str())?;
    write_text(writer, answer.as_str())?;
    Ok(())
}
