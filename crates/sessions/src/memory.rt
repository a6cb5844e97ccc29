//! A source and a sink over memory.
ghost use Rattle.std.specs.Prelude.{◌≡◌, ◌≤◌, ℕ, List, [], drop, Some, vec_len};
ghost use Rattle.std.proofs.lemmas.List.{append-nil};

use crate::counting::count_failure;
use crate::ends::{Sink, Source, TransferFailed};
use std::alloc::Global;
use std::sync::Wait;

/// A source of bytes in memory. It never fails.
#[derive(Drop)]
pub struct MemorySource {
    bytes: Vec<u8>,
    at: usize,
    ghost within: { at ≤ vec_len bytes },
}

impl MemorySource {
    /// Creates a source of these bytes.
    pub fn new(bytes: Vec<u8>) -> MemorySource
        ensures { ⟦<MemorySource as Source>⟧.left result ≡ Some bytes.items }
    {
        MemorySource { bytes, at: 0 }
    }
}

impl Source for MemorySource {
    ghost left = { λ s. Some (drop s.at s.bytes.items) };

    ghost failures = { λ _. 0 };

    fn read<R: Wait>(&mut self, rt: &R, buffer: &mut [u8]) -> Result<usize, TransferFailed> {
        let _ = rt; // for the proof
        let len = buffer.len().min(self.bytes.len() - self.at);
        buffer[..len].copy_from_slice(&self.bytes[self.at..self.at + len]);
        self.at += len;
        Ok(len)
    }
}

/// A sink that keeps the written bytes in memory. It fails if an allocation fails.
#[derive(Drop)]
pub struct MemorySink {
    bytes: Vec<u8>,
    failures: u64,
}

impl MemorySink {
    /// Creates an empty sink.
    pub fn new(alloc: Global) -> MemorySink
        ensures written { ⟦<MemorySink as Sink>⟧.written result ≡ Some [] }
        ensures failures { ⟦<MemorySink as Sink>⟧.failures result ≡ 0 }
    {
        MemorySink {
            bytes: Vec::new(alloc),
            failures: 0,
        }
    }

    /// Returns the written bytes.
    pub fn bytes(&self) -> &[u8]
        ensures { ⟦<MemorySink as Sink>⟧.written self.now ≡ Some result.now }
    {
        self.bytes.as_slice()
    }
}

impl Sink for MemorySink {
    ghost written = { λ s. Some s.bytes.items };

    ghost sent = { λ s. Some s.bytes.items };

    ghost failures = { λ s. s.failures };

    fn write<R: Wait>(&mut self, rt: &R, bytes: &[u8]) -> Result<usize, TransferFailed> {
        if self.bytes.extend_from_slice(bytes).is_err() {
            self.failures = count_failure(rt, self.failures);
            return Err(TransferFailed);
        }
        Ok(bytes.len())
    }

    fn send<R: Wait>(&mut self, rt: &R) -> Result<(), TransferFailed> {
        let _ = rt; // for the proof
        Ok(())
    }

    ghost begins = { λ s. ([], append-nil s.bytes.items) };
}
