//! Readers that tell what they have read ahead.

ghost use Rattle.std.specs.Prelude.{◌≡◌, ℕ, List};

use std::io::{BufRead, BufReader, Read};

/// A reader that tells which bytes it has read ahead: they are taken without a read.
pub trait ReadsAhead: BufRead {
    ghost ahead: { Self → List ℕ };

    /// These bytes.
    fn ahead(&self) -> &[u8]
        ensures { result.now ≡ ahead self.now };
}

impl<R: Read> ReadsAhead for BufReader<R> {
    ghost use Rattle.std.specs.Io.Buffered.{reader_buffer};

    ghost ahead = { reader_buffer };

    fn ahead(&self) -> &[u8] {
        self.buffer()
    }
}

impl<'a> ReadsAhead for &'a [u8] {
    ghost ahead = { λ bytes. bytes.now };

    fn ahead(&self) -> &[u8] {
        self
    }
}
