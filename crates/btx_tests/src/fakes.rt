//! Devices that fail.
use std::alloc::Global;
use std::io;
use std::io::{ErrorKind, Write};

/// What a writer does at the write where it fails.
#[derive(Clone, Copy)]
pub enum Failing {
    /// It doesn't fail.
    Never,
    /// It answers an error.
    Error,
    /// It takes nothing.
    Zero,
    /// It answers that it was interrupted.
    Interrupted,
}

/// A writer that takes few bytes at a time, and fails at one write.
#[derive(Drop)]
pub struct FakeWriter {
    /// What it has taken.
    pub bytes: Vec<u8>,
    /// The most bytes that it takes at a write.
    pub most: usize,
    /// How it fails.
    pub how: Failing,
    /// The number of the write at which it fails, counted from 0.
    pub fails_at: u64,
    /// How often it was written to.
    pub writes: u64,
}

impl FakeWriter {
    /// Makes a writer that takes at most `most` bytes at a time, and fails at the write `fails_at`, counted from 0, in the way `how`.
    pub fn new(alloc: Global, most: usize, how: Failing, fails_at: u64) -> Self {
        FakeWriter {
            bytes: Vec::new(alloc),
            most,
            how,
            fails_at,
            writes: 0,
        }
    }
}

impl Write for FakeWriter {
    fn write(&mut self, buf: &[u8]) -> io::Result<usize> {
        let failing = if self.writes == self.fails_at {
            self.how
        } else {
            Failing::Never
        };
        self.writes = self.writes.saturating_add(1);
        match failing {
            Failing::Never => {
                let count = self.most.min(buf.len());
                self.bytes.extend_from_slice(&buf[..count])?;
                Ok(count)
            }
            Failing::Error => Err(io::Error::from(ErrorKind::Other)),
            Failing::Zero => Ok(0),
            Failing::Interrupted => Err(io::Error::from(ErrorKind::Interrupted)),
        }
    }

    fn flush(&mut self) -> io::Result<()> {
        Ok(())
    }
}
