//! Writing whole texts.

ghost use Rattle.std.specs.Prelude.{◌≡◌, true, false, OnOk, OnErr};
ghost use Rattle.std.specs.Io.KnownBytes.{Appends, Keeps};
ghost use Rattle.promql_run.specs.Ended.{AppendsBeginning};

use crate::ended::Ended;
use std::io::Write;
use thiserror::Error;

/// A write failed, or took nothing. A beginning of the text may have been written.
#[derive(Clone, Copy, Debug, Error)]
#[error("write failed")]
pub struct WriteFailed;

/// Writes the whole text. No call that failed is made again.
///
/// # Errors
///
/// `WriteFailed` where a call failed: then a beginning of the text was written, and nothing else.
pub fn write_whole<W: Write>(writer: &mut Ended<W>, text: &str) -> Result<(), WriteFailed>
    ensures ok { OnOk result (Appends (W.contents writer.old.inner)
        (W.contents writer.new.inner) text.now) }
    ensures quiet { OnOk result (writer.new.failed ≡ writer.old.failed) }
    ensures begun { OnErr result (AppendsBeginning (W.contents writer.old.inner)
        (W.contents writer.new.inner) text.now) }
    ensures failed { OnErr result (writer.new.failed ≡ true) }
{
    let mut rest = text.as_bytes();
    while !rest.is_empty() {
        match writer.write(rest) {
            Ok(0) => return Err(WriteFailed),
            Ok(count) => rest = &rest[count..],
            Err(_) => return Err(WriteFailed),
        }
    }
    Ok(())
}

/// Flushes the writer.
///
/// # Errors
///
/// `WriteFailed` where that fails.
pub fn flush<W: Write>(writer: &mut Ended<W>) -> Result<(), WriteFailed>
    ensures bytes { Keeps (W.contents writer.old.inner) (W.contents writer.new.inner) }
    ensures quiet { OnOk result (writer.new.failed ≡ writer.old.failed) }
    ensures flushed { OnOk result (writer.new.pending ≡ false) }
    ensures failed { OnErr result (writer.new.failed ≡ true) }
{
    match writer.flush() {
        Ok(()) => Ok(()),
        Err(_) => Err(WriteFailed),
    }
}

/// Writes the whole text, and flushes.
///
/// # Errors
///
/// `WriteFailed` where a call failed: then a beginning of the text was written, and nothing else.
pub fn write_text<W: Write>(writer: &mut Ended<W>, text: &str) -> Result<(), WriteFailed>
    ensures ok { OnOk result (Appends (W.contents writer.old.inner)
        (W.contents writer.new.inner) text.now) }
    ensures quiet { OnOk result (writer.new.failed ≡ writer.old.failed) }
    ensures flushed { OnOk result (writer.new.pending ≡ false) }
    ensures begun { OnErr result (AppendsBeginning (W.contents writer.old.inner)
        (W.contents writer.new.inner) text.now) }
    ensures failed { OnErr result (writer.new.failed ≡ true) }
{
    write_whole(writer, text)?;
    flush(writer)
}
