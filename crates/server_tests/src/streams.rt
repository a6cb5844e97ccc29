//! A reader and a writer that fail or are interrupted, and a sink that takes one byte per call.

ghost use Rattle.std.specs.Prelude.{[], Some};
ghost use Rattle.std.proofs.lemmas.List.{append-nil};

use sessions::{Sink, TransferFailed, count_failure};
use std::alloc::Global;
use std::io::{self, ErrorKind, Read, Write};
use std::sync::Wait;

/// Which calls fail. Calls are counted from 1.
#[derive(Clone, Copy)]
pub(crate) enum Failing {
    Never,
    /// The call with this number.
    At(u64),
    /// Every other call is interrupted, the first one too.
    EveryOther,
}

impl Failing {
    /// Fails if the call with this number does.
    fn at(self, call: u64) -> io::Result<()> {
        match self {
            Failing::At(failing) if failing == call => Err(io::Error::from(ErrorKind::Other)),
            Failing::EveryOther if call % 2 == 1 => Err(io::Error::from(ErrorKind::Interrupted)),
            _ => Ok(()),
        }
    }
}

/// A reader over bytes that gives at most `most` bytes per call and counts its calls.
#[derive(Drop)]
pub(crate) struct CountingReader<'a> {
    pub(crate) bytes: &'a [u8],
    pub(crate) most: usize,
    pub(crate) failing: Failing,
    pub(crate) calls: &'a mut u64,
}

impl Read for CountingReader<'_> {
    fn read(&mut self, buffer: &mut [u8]) -> io::Result<usize> {
        *self.calls = self.calls.wrapping_add(1);
        self.failing.at(*self.calls)?;
        let len = self.bytes.len().min(self.most).min(buffer.len());
        buffer[..len].copy_from_slice(&self.bytes[..len]);
        self.bytes = &self.bytes[len..];
        Ok(len)
    }
}

/// A writer into a vector that takes at most `most` bytes per call and counts its writes and its
/// flushes.
#[derive(Drop)]
pub(crate) struct CountingWriter<'a> {
    pub(crate) bytes: &'a mut Vec<u8>,
    pub(crate) most: usize,
    pub(crate) writing: Failing,
    pub(crate) writes: &'a mut u64,
    pub(crate) flushing: Failing,
    pub(crate) flushes: u64,
}

impl Write for CountingWriter<'_> {
    fn write(&mut self, bytes: &[u8]) -> io::Result<usize> {
        *self.writes = self.writes.wrapping_add(1);
        self.writing.at(*self.writes)?;
        let len = bytes.len().min(self.most);
        self.bytes.extend_from_slice(&bytes[..len])?;
        Ok(len)
    }

    fn flush(&mut self) -> io::Result<()> {
        self.flushes = self.flushes.wrapping_add(1);
        self.flushing.at(self.flushes)
    }
}

/// A sink that takes one byte per call.
#[derive(Drop)]
pub(crate) struct OneByteSink {
    pub(crate) bytes: Vec<u8>,
    calls_left: u64,
    failures: u64,
}

impl OneByteSink {
    /// Returns a sink that fails after `calls` calls.
    pub(crate) fn new(alloc: Global, calls: u64) -> OneByteSink {
        OneByteSink {
            bytes: Vec::new(alloc),
            calls_left: calls,
            failures: 0,
        }
    }
}

impl Sink for OneByteSink {
    ghost written = { λ s. Some s.bytes.items };

    ghost sent = { λ s. Some s.bytes.items };

    ghost failures = { λ s. s.failures };

    fn write<R: Wait>(&mut self, rt: &R, bytes: &[u8]) -> Result<usize, TransferFailed> {
        if self.calls_left == 0 || self.bytes.push(bytes[0]).is_err() {
            self.failures = count_failure(rt, self.failures);
            return Err(TransferFailed);
        }
        self.calls_left -= 1;
        Ok(1)
    }

    fn send<R: Wait>(&mut self, rt: &R) -> Result<(), TransferFailed> {
        let _ = rt;
        Ok(())
    }

    ghost begins = { λ s. ([], append-nil s.bytes.items) };
}
