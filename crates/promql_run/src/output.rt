//! What the programs write: a text that their arguments ask for, the answer to their input, or how they are used.

ghost use Rattle.std.specs.Prelude.{◌≡◌, ◌⊎◌, false, true, if◌then◌else◌};
ghost use Rattle.std.specs.Io.KnownBytes.{Appends};
ghost use Rattle.promql_run.specs.Ended.{AppendsBeginning};

use crate::ended::Ended;
use crate::writing::write_text;
use std::io::Write;

/// The status for arguments that ask for nothing known.
pub const USAGE_STATUS: u8 = 64;

/// Writes a text that the arguments ask for, the help or the version. Returns the status: 5 where a write or the flush failed.
pub fn show_text<W: Write>(writer: &mut Ended<W>, text: &str) -> u8
    ensures text { result ≡ 0
        → Appends (W.contents writer.old.inner) (W.contents writer.new.inner) text.now }
    ensures flushed { result ≡ 0 → writer.new.pending ≡ false }
    ensures known { (result ≡ 0) ⊎ (result ≡ 5) }
    ensures write { result ≡ 5 → writer.new.failed ≡ true }
    ensures begun { result ≡ 5
        → AppendsBeginning (W.contents writer.old.inner) (W.contents writer.new.inner) text.now }
{
    match write_text(writer, text) {
        Ok(()) => 0,
        Err(_) => 5,
    }
}

/// The status with which a process ends where nobody reads what it writes: a shell tells that of a program that SIGPIPE ended.
pub const CLOSED_STATUS: u8 = 141;

/// The status with which the process of a program ends, where the program has this one.
pub fn exit_status<W>(status: u8, writer: &Ended<W>) -> u8
    ensures { result ≡ if writer.now.closed then CLOSED_STATUS else status }
{
    if writer.is_closed() {
        CLOSED_STATUS
    } else {
        status
    }
}

/// Writes the answer to an input, or else the message of a failed write to `errors`, but where nobody reads. Returns the status: 5
/// where a write or the flush failed.
pub fn write_answer<W: Write, E: Write>(
    writer: &mut Ended<W>,
    errors: &mut Ended<E>,
    answer: &str,
) -> u8
    ensures text { result ≡ 0
        → Appends (W.contents writer.old.inner) (W.contents writer.new.inner) answer.now }
    ensures flushed { result ≡ 0 → writer.new.pending ≡ false }
    ensures silent { result ≡ 0 → errors.new ≡ errors.old }
    ensures known { (result ≡ 0) ⊎ (result ≡ 5) }
    ensures write { result ≡ 5 → writer.new.failed ≡ true }
    ensures begun { result ≡ 5
        → AppendsBeginning (W.contents writer.old.inner) (W.contents writer.new.inner) answer.now }
    ensures closed { writer.new.closed ≡ true → errors.new ≡ errors.old }
{
    match write_text(writer, answer) {
        Ok(()) => 0,
        Err(error) => {
            if !writer.is_closed() {
                let _ = writeln!(errors, "{error}");
            }
            5
        }
    }
}

/// Writes how a program is used, and returns the status of that. What cannot be written is lost.
pub fn show_usage<E: Write>(errors: &mut Ended<E>, usage: &str) -> u8
    ensures status { result ≡ USAGE_STATUS }
    ensures line { errors.new.failed ≡ false
        → Appends (E.contents errors.old.inner) (E.contents errors.new.inner) usage.now }
{
    let _ = write_text(errors, usage);
    USAGE_STATUS
}
