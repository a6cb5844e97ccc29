//! A source over a reader, and a sink over a writer.
ghost use Rattle.std.specs.Prelude.{◌≡◌, ◌≤◌, ◌<◌, ◌++◌, length, take, drop, IfOk, OnOk, OnErr};
ghost use Rattle.std.specs.Io.KnownBytes.{Consumes, Appends, Keeps, IsAtEnd, append_known};
ghost use Rattle.sessions.specs.Pending.{buffered_bytes, sent_begins};

use crate::counting::count_failure;
use crate::ends::{Sink, Source, TransferFailed};
use std::io::{ErrorKind, Read, Write};
use std::sync::Wait;

/// The largest number of buffered bytes.
const BUFFER: usize = 4096;

/// Reads once. Tries again if the read was interrupted.
fn read_some<R: Wait, I: Read>(
    rt: &R,
    reader: &mut I,
    buffer: &mut [u8],
) -> Result<usize, TransferFailed>
    requires { 0 < length buffer.old }
    ensures count { IfOk result (λ n. n ≤ length buffer.new) }
    ensures bytes { IfOk result
        (λ n. Consumes (I.remaining reader.old) (I.remaining reader.new) (take n buffer.new)) }
    ensures end { IfOk result (λ n. n ≡ 0 → IsAtEnd (I.remaining reader.new)) }
    ensures err { OnErr result (Keeps (I.remaining reader.old) (I.remaining reader.new)) }
{
    for _ in rt.forever() {
        match reader.read(buffer) {
            Ok(count) => return Ok(count),
            Err(error) => {
                if error.kind() != ErrorKind::Interrupted {
                    return Err(TransferFailed);
                }
            }
        }
    }
    unreachable!()
}

/// Writes once. Tries again if the write was interrupted. A write of 0 bytes is a failure.
fn write_some<R: Wait, O: Write>(
    rt: &R,
    writer: &mut O,
    bytes: &[u8],
) -> Result<usize, TransferFailed>
    ensures count { IfOk result (λ n. (0 < n) × (n ≤ length bytes.now)) }
    ensures bytes { IfOk result
        (λ n. Appends (O.contents writer.old) (O.contents writer.new) (take n bytes.now)) }
    ensures err { OnErr result (Keeps (O.contents writer.old) (O.contents writer.new)) }
{
    for _ in rt.forever() {
        match writer.write(bytes) {
            Ok(count) => {
                if count == 0 {
                    return Err(TransferFailed);
                }
                return Ok(count);
            }
            Err(error) => {
                if error.kind() != ErrorKind::Interrupted {
                    return Err(TransferFailed);
                }
            }
        }
    }
    unreachable!()
}

/// Writes once, from the bytes from index `start` on.
fn write_from<R: Wait, O: Write>(
    rt: &R,
    writer: &mut O,
    bytes: &[u8],
    start: usize,
) -> Result<usize, TransferFailed>
    requires { start ≤ length bytes.now }
    ensures count { IfOk result (λ n. (0 < n) × (n ≤ length (drop start bytes.now))) }
    ensures bytes { IfOk result
        (λ n. Appends (O.contents writer.old) (O.contents writer.new)
        (take n (drop start bytes.now))) }
    ensures err { OnErr result (Keeps (O.contents writer.old) (O.contents writer.new)) }
{
    write_some(rt, writer, &bytes[start..])
}

/// Flushes once. Tries again if the flush was interrupted.
fn flush_all<R: Wait, O: Write>(rt: &R, writer: &mut O) -> Result<(), TransferFailed>
    ensures { Keeps (O.contents writer.old) (O.contents writer.new) }
{
    for _ in rt.forever() {
        match writer.flush() {
            Ok(()) => return Ok(()),
            Err(error) => {
                if error.kind() != ErrorKind::Interrupted {
                    return Err(TransferFailed);
                }
            }
        }
    }
    unreachable!()
}

/// A source over a reader. An interrupted read is tried again; any other failure is counted.
#[derive(Drop)]
pub struct ReadSource<I: Read + Drop> {
    pub(crate) inner: I,
    failures: u64,
}

impl<I: Read + Drop> ReadSource<I> {
    /// Creates a source over a reader.
    pub fn new(inner: I) -> ReadSource<I>
        ensures left { ⟦<ReadSource<I> as Source>⟧.left result ≡ I.remaining inner }
        ensures failures { ⟦<ReadSource<I> as Source>⟧.failures result ≡ 0 }
    {
        ReadSource { inner, failures: 0 }
    }
}

impl<I: Read + Drop> Source for ReadSource<I> {
    ghost left = { λ s. I.remaining s.inner };

    ghost failures = { λ s. s.failures };

    fn read<R: Wait>(&mut self, rt: &R, buffer: &mut [u8]) -> Result<usize, TransferFailed> {
        match read_some(rt, &mut self.inner, buffer) {
            Ok(count) => Ok(count),
            Err(TransferFailed) => {
                self.failures = count_failure(rt, self.failures);
                Err(TransferFailed)
            }
        }
    }
}

/// A sink over a writer, which buffers up to 4,096 bytes. An interrupted write is tried again; any
/// other failure is counted, and so is a write of 0 bytes.
#[derive(Drop)]
pub struct WriteSink<O: Write + Drop> {
    pub(crate) inner: O,
    buffer: [u8; BUFFER],
    start: usize,
    end: usize,
    failures: u64,
    ghost order: { start ≤ end },
    ghost within: { end ≤ 4096 },
}

impl<O: Write + Drop> WriteSink<O> {
    /// Creates a sink over a writer.
    pub fn new(inner: O) -> WriteSink<O>
        ensures written { Keeps (O.contents inner) (⟦<WriteSink<O> as Sink>⟧.written result) }
        ensures sent { ⟦<WriteSink<O> as Sink>⟧.sent result ≡ O.contents inner }
        ensures failures { ⟦<WriteSink<O> as Sink>⟧.failures result ≡ 0 }
    {
        WriteSink {
            inner,
            buffer: [0u8; BUFFER],
            start: 0,
            end: 0,
            failures: 0,
        }
    }

    /// Writes some of the buffered bytes.
    fn hand_on<R: Wait>(&mut self, rt: &R) -> Result<(), TransferFailed>
        requires { self.old.start < self.old.end }
        ensures kept { Keeps (append_known (O.contents self.old.inner)
            (buffered_bytes self.old.buffer self.old.start self.old.end))
            (append_known (O.contents self.new.inner)
            (buffered_bytes self.new.buffer self.new.start self.new.end)) }
        ensures end { self.new.end ≡ self.old.end }
        ensures ok { OnOk result ((self.old.start < self.new.start)
            × (self.new.failures ≡ self.old.failures)) }
        ensures failed { OnErr result (self.old.failures < self.new.failures) }
    {
        match write_from(rt, &mut self.inner, &self.buffer[..self.end], self.start) {
            Ok(count) => {
                self.start += count;
                Ok(())
            }
            Err(TransferFailed) => {
                self.failures = count_failure(rt, self.failures);
                Err(TransferFailed)
            }
        }
    }

    /// Writes all buffered bytes.
    fn empty<R: Wait>(&mut self, rt: &R) -> Result<(), TransferFailed>
        ensures kept { Keeps (append_known (O.contents self.old.inner)
            (buffered_bytes self.old.buffer self.old.start self.old.end))
            (append_known (O.contents self.new.inner)
            (buffered_bytes self.new.buffer self.new.start self.new.end)) }
        ensures ok { OnOk result ((self.new.start ≡ 0) × (self.new.end ≡ 0)
            × (self.new.failures ≡ self.old.failures)) }
        ensures failed { OnErr result (self.old.failures < self.new.failures) }
    {
        while self.start < self.end {
            self.hand_on(rt)?;
        }
        self.start = 0;
        self.end = 0;
        Ok(())
    }

    /// Ensures that the buffer is not full.
    fn make_room<R: Wait>(&mut self, rt: &R) -> Result<(), TransferFailed>
        ensures kept { Keeps (append_known (O.contents self.old.inner)
            (buffered_bytes self.old.buffer self.old.start self.old.end))
            (append_known (O.contents self.new.inner)
            (buffered_bytes self.new.buffer self.new.start self.new.end)) }
        ensures ok { OnOk result ((self.new.end < 4096) × (self.new.failures ≡ self.old.failures)) }
        ensures failed { OnErr result (self.old.failures < self.new.failures) }
    {
        if self.end < BUFFER {
            return Ok(());
        }
        self.empty(rt)
    }

    /// Buffers as many of the bytes as fit, and returns their number.
    fn buffer_some(&mut self, bytes: &[u8]) -> usize
        requires room { self.old.end < 4096 }
        requires some { 0 < length bytes.now }
        ensures count { (0 < result) × (result ≤ length bytes.now) }
        ensures buffered { buffered_bytes self.new.buffer self.new.start self.new.end ≡
            buffered_bytes self.old.buffer self.old.start self.old.end ++ take result bytes.now }
        ensures inner { self.new.inner ≡ self.old.inner }
        ensures failures { self.new.failures ≡ self.old.failures }
    {
        let count = bytes.len().min(BUFFER - self.end);
        self.buffer[self.end..self.end + count].copy_from_slice(&bytes[..count]);
        self.end += count;
        count
    }
}

impl<O: Write + Drop> Sink for WriteSink<O> {
    ghost written = { λ s.
        append_known (O.contents s.inner) (buffered_bytes s.buffer s.start s.end) };

    ghost sent = { λ s. O.contents s.inner };

    ghost failures = { λ s. s.failures };

    fn write<R: Wait>(&mut self, rt: &R, bytes: &[u8]) -> Result<usize, TransferFailed> {
        self.make_room(rt)?;
        Ok(self.buffer_some(bytes))
    }

    fn send<R: Wait>(&mut self, rt: &R) -> Result<(), TransferFailed> {
        self.empty(rt)?;
        match flush_all(rt, &mut self.inner) {
            Ok(()) => Ok(()),
            Err(TransferFailed) => {
                self.failures = count_failure(rt, self.failures);
                Err(TransferFailed)
            }
        }
    }

    ghost begins = { λ s.
        sent_begins (O.contents s.inner) (buffered_bytes s.buffer s.start s.end) };
}
