//! Readers and writers that fail at one of their calls.

use std::alloc::Global;
use std::io;
use std::io::{ErrorKind, Read, Write};

// Gives two bytes at a time, and fails at one of its calls.
#[derive(Drop)]
pub struct FlakyReader<'a> {
    pub left: &'a [u8],
    pub calls: usize,
    pub fails_at: usize,
}

impl<'a> Read for FlakyReader<'a> {
    fn read(&mut self, buf: &mut [u8]) -> io::Result<usize> {
        self.calls = self.calls.saturating_add(1);
        if self.calls == self.fails_at {
            return Err(io::Error::from(ErrorKind::Interrupted));
        }
        let count = self.left.len().min(buf.len()).min(2);
        let (front, back) = self.left.split_at(count);
        buf[..count].copy_from_slice(front);
        self.left = back;
        Ok(count)
    }
}

// Takes three bytes at a time, and fails at one of its calls, or takes nothing there.
#[derive(Drop)]
pub struct FlakyWriter {
    pub held: Vec<u8>,
    pub calls: usize,
    fails_at: usize,
    takes_none_at: usize,
}

impl FlakyWriter {
    pub fn new(alloc: Global, fails_at: usize, takes_none_at: usize) -> FlakyWriter {
        FlakyWriter {
            held: Vec::new(alloc),
            calls: 0,
            fails_at,
            takes_none_at,
        }
    }

    fn fails(&mut self) -> bool {
        self.calls = self.calls.saturating_add(1);
        self.calls == self.fails_at
    }
}

impl Write for FlakyWriter {
    fn write(&mut self, buf: &[u8]) -> io::Result<usize> {
        if self.fails() {
            return Err(io::Error::from(ErrorKind::Interrupted));
        }
        if self.calls == self.takes_none_at {
            return Ok(0);
        }
        let count = buf.len().min(3);
        self.held.extend_from_slice(&buf[..count])?;
        Ok(count)
    }

    fn flush(&mut self) -> io::Result<()> {
        if self.fails() {
            return Err(io::Error::from(ErrorKind::Interrupted));
        }
        Ok(())
    }
}
