//! A reader or a writer that records what its calls did.

ghost use Rattle.std.specs.Prelude.{◌≡◌, ◌&&◌, ◌||◌, ◌+◌, ◌++◌, false, is_err, length, true, IfOk, IfSome, IsErrOf, OnOk};
ghost use Rattle.std.specs.Io.{ReadsAtMost, StartsWith, StopsAt, WritesAtMost, appended_bytes};
ghost use Rattle.std.specs.Io.BufRead.{DropsThrough, take_through};
ghost use Rattle.std.specs.Io.KnownBytes.{Consumes, IsAtEnd, Keeps, ReadConsumes, WriteAppends};
ghost use Rattle.promql_run.specs.Ended.{IsClosedBy, has_feed};

use crate::ahead::ReadsAhead;
use crate::reading::ReadFault;
use std::io;
use std::io::{BufRead, ErrorKind, Read, Write};

/// A reader or a writer that records what its calls did (docs/reference/programs.md, "Reading and writing").
///
/// Only the calls below change its fields, so no caller can claim a failure that did not happen.
#[derive(Drop)]
pub struct Ended<T> {
    inner: T,
    failed: bool,
    pending: bool,
    closed: bool,
}

impl<T> Ended<T> {
    /// Wraps a reader or a writer on which no call has failed yet.
    pub fn new(inner: T) -> Ended<T>
        ensures inner { result.inner ≡ inner }
        ensures failed { result.failed ≡ false }
        ensures pending { result.pending ≡ false }
        ensures closed { result.closed ≡ false }
    {
        Ended {
            inner,
            failed: false,
            pending: false,
            closed: false,
        }
    }

    /// The reader or writer within.
    pub fn inner(&self) -> &T
        ensures { result.now ≡ self.now.inner }
    {
        &self.inner
    }

    /// Whether a call has failed. A write that takes no byte of a text that is not empty counts as failed.
    pub fn has_failed(&self) -> bool
        ensures { result ≡ self.now.failed }
    {
        self.failed
    }

    /// Whether bytes that were written wait for a flush.
    pub fn is_pending(&self) -> bool
        ensures { result ≡ self.now.pending }
    {
        self.pending
    }

    /// Whether a write or a flush has failed because nobody reads what is written, as after the end of a pipe was closed.
    pub fn is_closed(&self) -> bool
        ensures { result ≡ self.now.closed }
    {
        self.closed
    }
}

impl<T> Ended<T> {
    /// Notes that a write or a flush failed so.
    fn note_failure(&mut self, error: &io::Error)
        ensures inner { self.new.inner ≡ self.old.inner }
        ensures failed { self.new.failed ≡ true }
        ensures pending { self.new.pending ≡ self.old.pending }
        ensures closed { IsClosedBy error.now self.old.closed self.new.closed }
    {
        self.failed = true;
        if error.kind() == ErrorKind::BrokenPipe {
            self.closed = true;
        }
    }
}

impl<R: ReadsAhead> Ended<R> {
    /// Whether the reader has read ahead to the end of a line, so that no read is needed for the next one.
    pub fn has_line_ahead(&self) -> bool
        ensures { result ≡ has_feed (R.ahead self.now.inner) }
    {
        self.inner.ahead().contains(&b'\n')
    }
}

impl<R: BufRead> Ended<R> {
    /// Reads up to and with the next byte of this value, or to the end of the input, and appends what it read to `buf`. Returns how
    /// many bytes these are. A read that was interrupted is made again by the reader within.
    ///
    /// # Errors
    ///
    /// `Read` where a read failed, which alone sets `failed`; `Memory` where an allocation failed.
    pub fn read_until(&mut self, byte: u8, buf: &mut Vec<u8>) -> Result<usize, ReadFault>
        ensures appends { StartsWith buf.new.items buf.old.items }
        ensures stops { StopsAt (appended_bytes buf.old.items buf.new.items) byte }
        ensures bytes { OnOk result (IfSome (R.remaining self.old.inner)
            (λ xs. buf.new.items ≡ buf.old.items ++ take_through byte xs)) }
        ensures rest { OnOk result (DropsThrough (R.remaining self.old.inner)
            (R.remaining self.new.inner) byte) }
        ensures count { IfOk result (λ n. length buf.new.items ≡ length buf.old.items + n) }
        ensures end { IfOk result (λ n. n ≡ 0 → IsAtEnd (R.remaining self.old.inner)) }
        ensures none_lost { Consumes (R.remaining self.old.inner) (R.remaining self.new.inner)
            (appended_bytes buf.old.items buf.new.items) }
        ensures quiet { OnOk result (self.new.failed ≡ self.old.failed) }
        ensures memory { IsErrOf result ReadFault.Memory → self.new.failed ≡ self.old.failed }
        ensures failed { IsErrOf result ReadFault.Read → self.new.failed ≡ true }
        ensures pending { self.new.pending ≡ self.old.pending }
        ensures closed { self.new.closed ≡ self.old.closed }
    {
        match self.inner.read_until(byte, buf) {
            Ok(count) => Ok(count),
            Err(error) if error.kind() == ErrorKind::OutOfMemory => Err(ReadFault::Memory),
            Err(_) => {
                self.failed = true;
                Err(ReadFault::Read)
            }
        }
    }
}

impl<R: Read> Read for Ended<R> {
    ghost remaining = { λ ended. R.remaining ended.inner };

    /// One call of the reader within. `failed` is set exactly where that call fails.
    fn read(&mut self, buf: &mut [u8]) -> io::Result<usize>
        ensures bound { ReadsAtMost result buf.new }
        ensures bytes { ReadConsumes (R.remaining self.old.inner)
            (R.remaining self.new.inner) result buf.new }
        ensures failed { self.new.failed ≡ (self.old.failed || is_err result) }
        ensures pending { self.new.pending ≡ self.old.pending }
        ensures closed { self.new.closed ≡ self.old.closed }
    {
        let result = self.inner.read(buf);
        if result.is_err() {
            self.failed = true;
        }
        result
    }
}

impl<W: Write> Write for Ended<W> {
    ghost use Rattle.std.specs.Prelude.{MatchResult};
    ghost use Rattle.promql_run.specs.Ended.{IsClosedBy, takes_bytes, takes_nothing};

    ghost contents = { λ ended. W.contents ended.inner };

    /// One call of the writer within. `failed` is set exactly where that call fails or takes nothing of a
    /// text that is not empty, `pending` exactly where it takes a byte, and `closed` exactly where it fails since nobody reads.
    fn write(&mut self, buf: &[u8]) -> io::Result<usize>
        ensures bound { WritesAtMost result buf.now }
        ensures bytes { WriteAppends (W.contents self.old.inner)
            (W.contents self.new.inner) result buf.now }
        ensures failed { self.new.failed ≡ (self.old.failed || takes_nothing result buf.now) }
        ensures pending { self.new.pending ≡ (self.old.pending || takes_bytes result) }
        ensures closed { MatchResult result (λ _. self.new.closed ≡ self.old.closed)
            (λ e. IsClosedBy e self.old.closed self.new.closed) }
    {
        let result = self.inner.write(buf);
        match &result {
            Ok(0) => {
                if !buf.is_empty() {
                    self.failed = true;
                }
            }
            Ok(_) => self.pending = true,
            Err(error) => self.note_failure(error),
        }
        result
    }

    /// One flush of the writer within. A flush that fails sets `failed`, and `closed` where nobody reads; one that succeeds clears
    /// `pending`.
    fn flush(&mut self) -> io::Result<()>
        ensures bytes { Keeps (W.contents self.old.inner) (W.contents self.new.inner) }
        ensures failed { self.new.failed ≡ (self.old.failed || is_err result) }
        ensures pending { self.new.pending ≡ (self.old.pending && is_err result) }
        ensures closed { MatchResult result (λ _. self.new.closed ≡ self.old.closed)
            (λ e. IsClosedBy e self.old.closed self.new.closed) }
    {
        let result = self.inner.flush();
        match &result {
            Ok(()) => self.pending = false,
            Err(error) => self.note_failure(error),
        }
        result
    }
}
