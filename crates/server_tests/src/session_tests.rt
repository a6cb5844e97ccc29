//! Tests of sessions over a book whose reads and writes fail, are interrupted, or are counted.

use crate::fixtures::{LIMIT, REPLIES, REQUESTS};
use crate::streams::{CountingReader, CountingWriter, Failing, OneByteSink};
use sequencer::Book;
use sessions::{Ended, MemorySource, ReadSource, ServeFault, Sink, Source, WriteSink, serve_book};
use std::hash::RandomState;
use std::process::Abort;
use std::random::RandomSource;
use std::sync::Wait;
use std::test::*;
use trace_model::Fault;

/// How a session ended, the number of events in its book, and whether the book has a question.
#[derive(Drop)]
struct Session {
    ended: Result<Ended, ServeFault>,
    events: usize,
    opened: bool,
}

// A large value is dropped by a call: a drop in place makes the proof long.
/// Serves a session over a new book.
fn serve_new_book<S: Source, K: Sink>(
    rt: &(impl RandomSource + AllocGlobal + Wait),
    source: &mut S,
    sink: &mut K,
) -> Result<Session, Fail> {
    let mut book = Book::new(rt.alloc(), RandomState::new(rt)?, LIMIT)?;
    let ended = serve_book(rt, rt.alloc(), source, sink, &mut book);
    let session = Session {
        ended,
        events: book.len(),
        opened: book.status(0).is_ok(),
    };
    drop(book);
    Ok(session)
}

/// The most bytes of a read and of a write, and which calls fail.
#[derive(Clone, Copy)]
struct Streams {
    most_read: usize,
    reads: Failing,
    most_written: usize,
    writes: Failing,
    flushes: Failing,
}

/// Streams that do not fail and move all bytes in one call.
const WHOLE: Streams = Streams {
    most_read: 4096,
    reads: Failing::Never,
    most_written: 4096,
    writes: Failing::Never,
    flushes: Failing::Never,
};

/// What a session must end with and write, and the numbers of its reads and writes if they matter.
#[derive(Clone, Copy)]
struct Wanted<'a> {
    ended: Result<Ended, ServeFault>,
    written: &'a [u8],
    calls: Option<(u64, u64)>,
}

/// A session over `REQUESTS` that ends with the input.
const COMPLETE: Wanted<'static> = Wanted {
    ended: Ok(Ended::Input),
    written: &REPLIES,
    calls: None,
};

/// Serves a session over these bytes by these streams. Asserts that it ends as wanted.
fn serves(
    rt: &(impl RandomSource + AllocGlobal + Wait + Abort),
    case: &str,
    bytes: &[u8],
    streams: Streams,
    wanted: Wanted<'_>,
) -> Result<(), Fail> {
    let mut written = Vec::new(rt.alloc());
    let mut reads = 0u64;
    let mut writes = 0u64;
    let mut source = ReadSource::new(CountingReader {
        bytes,
        most: streams.most_read,
        failing: streams.reads,
        calls: &mut reads,
    });
    let mut sink = WriteSink::new(CountingWriter {
        bytes: &mut written,
        most: streams.most_written,
        writing: streams.writes,
        writes: &mut writes,
        flushing: streams.flushes,
        flushes: 0,
    });
    let session = serve_new_book(rt, &mut source, &mut sink)?;
    drop(source);
    drop(sink);
    assert_eq!(rt; session.ended, wanted.ended, "{case}");
    assert_eq!(rt; written.as_slice(), wanted.written, "{case}");
    let calls = (reads, writes);
    assert_eq!(rt; calls, wanted.calls.unwrap_or(calls), "{case}");
    Ok(())
}

/// Asserts that a session whose source gives one byte per call, and fails at this one, writes this
/// number of bytes.
fn fails_at_read(
    rt: &(impl RandomSource + AllocGlobal + Wait + Abort),
    call: u64,
    len: usize,
) -> Result<(), Fail> {
    let case = format!(in rt.alloc(); "read {call}")?;
    let written = REPLIES.get(..len).ok_or("a number of bytes")?;
    let streams = Streams {
        most_read: 1,
        reads: Failing::At(call),
        ..WHOLE
    };
    let wanted = Wanted {
        ended: Err(ServeFault::Read),
        written,
        ..COMPLETE
    };
    serves(rt, &case, &REQUESTS, streams, wanted)
}

#[test]
fn one_failing_read(rt: HostRuntime) -> Result<(), Fail> {
    for call in 1..112u64 {
        // The session answers each frame that was read completely, before the next read.
        let len = 9 * ((call - 1) / 11) as usize;
        fails_at_read(&rt, call, len)?;
    }
    fails_at_read(&rt, 122, REPLIES.len())
}

/// Asserts that a session whose sink takes one byte per call, and fails at this one, ends as it
/// must.
fn fails_at_write(
    rt: &(impl RandomSource + AllocGlobal + Wait + Abort),
    call: u64,
) -> Result<(), Fail> {
    let mut source = MemorySource::new(Vec::from_slice(rt.alloc(), &REQUESTS)?);
    let mut sink = OneByteSink::new(rt.alloc(), call.wrapping_sub(1));
    let session = serve_new_book(rt, &mut source, &mut sink)?;
    // Every placed event except the last has a complete reply.
    let events = call.saturating_add(8).min(98) / 9;
    let len = call.wrapping_sub(1) as usize;
    assert_eq!(rt; session.ended, Err(ServeFault::Write), "write {call}");
    assert_eq!(rt;
        Some(sink.bytes.as_slice()),
        REPLIES.get(..len),
        "write {call}"
    );
    assert_eq!(rt; session.events as u64, events, "write {call}");
    assert_eq!(rt; session.opened, call > 90, "write {call}");
    Ok(())
}

#[test]
fn one_failing_write(rt: HostRuntime) -> Result<(), Fail> {
    for call in 1..=107u64 {
        fails_at_write(&rt, call)?;
    }
    Ok(())
}

#[test]
fn interrupted_calls_are_repeated(rt: HostRuntime) -> Result<(), Fail> {
    let streams = Streams {
        most_read: 10,
        reads: Failing::EveryOther,
        most_written: 5,
        writes: Failing::EveryOther,
        flushes: Failing::EveryOther,
    };
    serves(&rt, "interrupted", &REQUESTS, streams, COMPLETE)
}

#[test]
fn a_failing_flush_ends_a_session(rt: HostRuntime) -> Result<(), Fail> {
    // The first flush is before the first read.
    let streams = Streams {
        flushes: Failing::At(2),
        ..WHOLE
    };
    let wanted = Wanted {
        ended: Err(ServeFault::Write),
        ..COMPLETE
    };
    serves(&rt, "flush 2", &REQUESTS, streams, wanted)
}

#[test]
fn buffered_frames_need_one_read_and_one_write(rt: HostRuntime) -> Result<(), Fail> {
    // The second read returns the end of the input.
    let wanted = Wanted {
        calls: Some((2, 1)),
        ..COMPLETE
    };
    serves(&rt, "whole frames", &REQUESTS, WHOLE, wanted)
}

/// A name, bytes that show a fault, the fault, and its reply.
#[rattlefmt::skip]
const FAULTS: [(&str, &[u8], Fault, [u8; 6]); 5] = [
    ("no body", &[0, 0], Fault::BadLength, [0, 0, 0, 2, 71, 2]),
    ("kind 200", &[0, 1, 200], Fault::BadKind, [0, 0, 0, 2, 71, 1]),
    ("kind 0", &[0, 9, 0], Fault::BadKind, [0, 0, 0, 2, 71, 1]),
    ("a fork of two bytes", &[0, 2, 1], Fault::BadLength, [0, 0, 0, 2, 71, 2]),
    ("an ask of nine bytes", &[0, 9, 7], Fault::BadLength, [0, 0, 0, 2, 71, 2]),
];

#[test]
fn nothing_is_read_after_a_fault(rt: HostRuntime) -> Result<(), Fail> {
    for (case, bytes, fault, reply) in FAULTS {
        let wanted = Wanted {
            ended: Ok(Ended::Frame(fault)),
            written: &reply,
            calls: Some((1, 1)),
        };
        serves(&rt, case, bytes, WHOLE, wanted)?;
    }
    Ok(())
}
