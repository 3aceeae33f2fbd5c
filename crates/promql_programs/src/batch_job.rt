//! Many queries of an input, a line each: docs/reference/programs.md, "Many queries".

ghost use Rattle.std.specs.Prelude.{◌≡◌, ◌⊎◌, false, true};
ghost use Rattle.promql_query.specs.Batch.{AnswersBefore, AnswersLines, IsCutShort};
ghost use Rattle.promql_run.specs.Programs.{Reads};

use crate::reports::say;
use crate::source::Source;
use promql_query::batch::run_batch;
use promql_query::settings::Settings;
use promql_run::ahead::ReadsAhead;
use promql_run::ended::Ended;
use std::alloc::Global;
use std::io::Write;

/// The status where each line was read and some line has an error.
pub const ERRORS_STATUS: u8 = 4;

/// Writes the answer to each line of the input, and returns the status (docs/reference/programs.md, "Statuses of a batch").
///
/// The message of an error and a line feed go to `errors`, but where nobody reads what is written; a message that cannot be written is
/// lost, and the status tells the error all the same.
pub fn answer_lines<R: ReadsAhead, W: Write, E: Write>(
    alloc: Global,
    settings: &Settings,
    source: &Source,
    reader: &mut Ended<R>,
    writer: &mut Ended<W>,
    errors: &mut Ended<E>,
) -> u8
    ensures reads { Reads R.remaining reader.old reader.new result }
    // Each line is answered, and the status tells whether each with an `ok`.
    ensures ok { result ≡ 0 → AnswersLines settings.now (R.remaining reader.old.inner)
        (R.remaining reader.new.inner) (W.contents writer.old.inner) (W.contents writer.new.inner) true }
    ensures errors { result ≡ ERRORS_STATUS → AnswersLines settings.now
        (R.remaining reader.old.inner) (R.remaining reader.new.inner)
        (W.contents writer.old.inner) (W.contents writer.new.inner) false }
    ensures flushed { (result ≡ 0) ⊎ (result ≡ ERRORS_STATUS) → writer.new.pending ≡ false }
    ensures silent { (result ≡ 0) ⊎ (result ≡ ERRORS_STATUS) → errors.new ≡ errors.old }
    // Each other status is that of an error, under the conditions of `run_batch`.
    ensures known { (result ≡ 0) ⊎ (result ≡ 1) ⊎ (result ≡ 2) ⊎ (result ≡ ERRORS_STATUS) ⊎ (result ≡ 5) }
    ensures before { (result ≡ 1) ⊎ (result ≡ 2) → AnswersBefore settings.now
        (R.remaining reader.old.inner) (R.remaining reader.new.inner)
        (W.contents writer.old.inner) (W.contents writer.new.inner) }
    ensures write { result ≡ 5 → writer.new.failed ≡ true }
    ensures closed { writer.new.closed ≡ true → errors.new ≡ errors.old }
    ensures begun { result ≡ 5 → IsCutShort settings.now (R.remaining reader.old.inner)
        (R.remaining reader.new.inner) (W.contents writer.old.inner) (W.contents writer.new.inner) }
{
    match run_batch(alloc, settings, reader, writer) {
        Ok(true) => 0,
        Ok(false) => ERRORS_STATUS,
        Err(error) => {
            if !writer.is_closed() {
                say(errors, source, &error);
            }
            error.number()
        }
    }
}
