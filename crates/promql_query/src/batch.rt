//! Many queries, a line each: docs/reference/programs.md.

ghost use Rattle.std.specs.Prelude.{◌≡◌, ◌≢◌, ◌⊎◌, ◌++◌, [], ◌∷◌, false, true, IfOk, OnOk, IfErr, OnErr, IsErrOf, MatchResult};
ghost use Rattle.std.specs.Io.KnownBytes.{Appends, Keeps};
ghost use Rattle.promql_run.specs.Ended.{AppendsBeginning, has_feed};
ghost use Rattle.promql_query.specs.Batch.{AnswersBefore, AnswersLines, IsCutShort};
ghost use Rattle.promql_query.specs.BatchSteps.{IsLineRead, IsPartRead, IsAnswered, IsPartlyAnswered, IsReadingError, IsBatchError};

use crate::line::answer_line;
use crate::settings::Settings;
use promql_run::ahead::ReadsAhead;
use promql_run::ended::Ended;
use promql_run::reading::ReadFault;
use promql_run::run::RunError;
use promql_run::writing::{WriteFailed, flush, write_whole};
use std::alloc::Global;
use std::io::{BufRead, Write};

/// The answer to a line for which an allocation failed.
const MEMORY_ANSWER: &str = "{\"code\":1,\"error\":\"out of memory\"}";

/// How a line that was read ends.
#[derive(Clone, Copy, PartialEq, Eq, Debug)]
pub(crate) enum LineEnd {
    /// With a line feed.
    Feed,
    /// With the input.
    Input,
}

/// Reads the next line into `line`, without its line feed; `None` at the end of the input.
fn read_line<R: BufRead>(
    reader: &mut Ended<R>,
    line: &mut Vec<u8>,
) -> Result<Option<LineEnd>, RunError>
    ensures ok { IfOk result (IsLineRead (R.remaining reader.old.inner) (R.remaining reader.new.inner) line.new.items) }
    ensures err { OnErr result (IsPartRead (R.remaining reader.old.inner) (R.remaining reader.new.inner)) }
    ensures quiet { MatchResult result (λ _. reader.new.failed ≡ reader.old.failed)
        (λ e. e ≢ RunError.Read → reader.new.failed ≡ reader.old.failed) }
    ensures failed { IsErrOf result RunError.Read → reader.new.failed ≡ true }
    ensures errors { IfErr result IsReadingError }
{
    line.clear();
    match reader.read_until(b'\n', line) {
        Ok(_) => match line.last() {
            None => Ok(None),
            Some(b'\n') => {
                line.pop();
                Ok(Some(LineEnd::Feed))
            }
            Some(_) => Ok(Some(LineEnd::Input)),
        },
        Err(ReadFault::Memory) => Err(RunError::Memory),
        Err(ReadFault::Read) => Err(RunError::Read),
    }
}

/// Writes a text and a line feed.
fn write_line<W: Write>(writer: &mut Ended<W>, text: &str) -> Result<(), WriteFailed>
    ensures ok { OnOk result (Appends (W.contents writer.old.inner)
        (W.contents writer.new.inner) (text.now ++ 10 ∷ [])) }
    ensures quiet { OnOk result (writer.new.failed ≡ writer.old.failed) }
    ensures begun { OnErr result (AppendsBeginning (W.contents writer.old.inner)
        (W.contents writer.new.inner) (text.now ++ 10 ∷ [])) }
    ensures failed { OnErr result (writer.new.failed ≡ true) }
{
    write_whole(writer, text)?;
    write_whole(writer, "\n")
}

/// Writes the answer to a line and a line feed; returns whether the answer is an `ok`.
fn write_answer<W: Write>(
    alloc: Global,
    settings: &Settings,
    line: &[u8],
    writer: &mut Ended<W>,
) -> Result<bool, WriteFailed>
    ensures ok { IfOk result (IsAnswered settings.now line.now (W.contents writer.old.inner)
        (W.contents writer.new.inner)) }
    ensures quiet { OnOk result (writer.new.failed ≡ writer.old.failed) }
    ensures begun { OnErr result (IsPartlyAnswered settings.now line.now (W.contents writer.old.inner)
        (W.contents writer.new.inner)) }
    ensures failed { OnErr result (writer.new.failed ≡ true) }
{
    match answer_line(alloc, settings, line) {
        Ok(answer) => {
            write_line(writer, answer.text.as_str())?;
            Ok(answer.is_ok)
        }
        Err(_) => {
            write_line(writer, MEMORY_ANSWER)?;
            Ok(false)
        }
    }
}

/// Flushes the writer, unless the reader has read the next line ahead: what reads the answers may write that line only then.
fn flush_before_wait<R: ReadsAhead, W: Write>(
    reader: &Ended<R>,
    writer: &mut Ended<W>,
) -> Result<(), WriteFailed>
    ensures bytes { Keeps (W.contents writer.old.inner) (W.contents writer.new.inner) }
    ensures quiet { OnOk result (writer.new.failed ≡ writer.old.failed) }
    ensures flushed { OnOk result
        ((writer.new.pending ≡ false) ⊎ (has_feed (R.ahead reader.now.inner) ≡ true)) }
    ensures failed { OnErr result (writer.new.failed ≡ true) }
{
    if reader.has_line_ahead() {
        Ok(())
    } else {
        flush(writer)
    }
}

/// Reads lines until the input ends, and writes the answer to each, in order. Returns whether each answer is an `ok`. What was
/// written is flushed before more input is waited for.
///
/// # Errors
///
/// `Memory` where an allocation failed while a line was read, or the lines are more than a `u64` counts, and `Read` where a read
/// failed: the lines before were answered. `Write` where a call of the writer failed: then a beginning of the answers was written.
pub fn run_batch<R: ReadsAhead, W: Write>(
    alloc: Global,
    settings: &Settings,
    reader: &mut Ended<R>,
    writer: &mut Ended<W>,
) -> Result<bool, RunError>
    ensures ok { IfOk result (AnswersLines settings.now (R.remaining reader.old.inner)
        (R.remaining reader.new.inner) (W.contents writer.old.inner) (W.contents writer.new.inner)) }
    ensures flushed { OnOk result (writer.new.pending ≡ false) }
    ensures quiet { OnOk result (writer.new.failed ≡ writer.old.failed) }
    ensures quiet_reader { MatchResult result (λ _. reader.new.failed ≡ reader.old.failed)
        (λ e. e ≢ RunError.Read → reader.new.failed ≡ reader.old.failed) }
    ensures read { IsErrOf result RunError.Read → reader.new.failed ≡ true }
    ensures before { IfErr result (λ e. e ≢ RunError.Write → AnswersBefore settings.now (R.remaining reader.old.inner)
        (R.remaining reader.new.inner) (W.contents writer.old.inner) (W.contents writer.new.inner)) }
    ensures write { IsErrOf result RunError.Write → writer.new.failed ≡ true }
    ensures begun { IsErrOf result RunError.Write → IsCutShort settings.now (R.remaining reader.old.inner)
        (R.remaining reader.new.inner) (W.contents writer.old.inner) (W.contents writer.new.inner) }
    ensures errors { IfErr result IsBatchError }
{
    let mut line = Vec::new(alloc);
    let mut all_ok = true;
    'lines: for _ in 0..u64::MAX {
        let end = match read_line(reader, &mut line)? {
            Some(end) => end,
            None => {
                flush(writer)?;
                return Ok(all_ok);
            }
        };
        let is_ok = write_answer(alloc, settings, line.as_slice(), writer)?;
        all_ok = all_ok && is_ok;
        match end {
            LineEnd::Feed => flush_before_wait(reader, writer)?,
            LineEnd::Input => {
                flush(writer)?;
                return Ok(all_ok);
            }
        }
    }
    // No input has so many lines.
    Err(RunError::Memory)
}
