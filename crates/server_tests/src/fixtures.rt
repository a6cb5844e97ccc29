//! The trace of two threads that nest two locks in opposite orders: its events, a session that asks
//! about it, and its report.

use std::alloc::{AllocError, Global};
use trace_model::{Event, Op};

/// The greatest limit of a book: `MAX_EVENTS`.
pub(crate) const LIMIT: u32 = 1_048_576;

/// The whole trace: the forks of the two threads, and then their sections.
pub(crate) const OPPOSITE_ORDERS: &str = "0f1 0f2 1a10 1a20 1r20 1r10 2a20 2a10 2r10 2r20";

/// Returns the text of the trace with its sections `times` times.
pub(crate) fn rounds(alloc: Global, times: u32) -> Result<Vec<u8>, AllocError> {
    let mut text = Vec::from_slice(alloc, b"0f1 0f2")?;
    for _ in 0..times {
        text.extend_from_slice(&OPPOSITE_ORDERS.as_bytes()[7..])?;
    }
    Ok(text)
}

macro_rules! events {
    ($($thread:literal $op:ident $object:literal),+) => {
        [$(Event { thread: $thread, op: Op::$op($object) }),+]
    };
}

/// The events of the trace.
pub(crate) const OPPOSITE_EVENTS: [Event; 10] = events!(
    0 Fork 1, 0 Fork 2,
    1 Acquire 10, 1 Acquire 20, 1 Release 20, 1 Release 10,
    2 Acquire 20, 2 Acquire 10, 2 Release 10, 2 Release 20
);

/// The requests of a session: the ten events, an ask with the bound 2, and an answer of question 0.
#[rattlefmt::skip]
pub(crate) const REQUESTS: [u8; 121] = [
    0, 9, 1, 0, 0, 0, 0, 0, 0, 0, 1,
    0, 9, 1, 0, 0, 0, 0, 0, 0, 0, 2,
    0, 9, 3, 0, 0, 0, 1, 0, 0, 0, 10,
    0, 9, 3, 0, 0, 0, 1, 0, 0, 0, 20,
    0, 9, 4, 0, 0, 0, 1, 0, 0, 0, 20,
    0, 9, 4, 0, 0, 0, 1, 0, 0, 0, 10,
    0, 9, 3, 0, 0, 0, 2, 0, 0, 0, 20,
    0, 9, 3, 0, 0, 0, 2, 0, 0, 0, 10,
    0, 9, 4, 0, 0, 0, 2, 0, 0, 0, 10,
    0, 9, 4, 0, 0, 0, 2, 0, 0, 0, 20,
    0, 2, 7, 2,
    0, 5, 8, 0, 0, 0, 0,
];

/// The number of bytes of `REQUESTS` up to the ask.
pub(crate) const ASKED: usize = 114;

/// The replies to `REQUESTS`: the events are placed, the question has 2 tasks, and its answer is
/// pending.
#[rattlefmt::skip]
pub(crate) const REPLIES: [u8; 124] = [
    0, 0, 0, 5, 65, 0, 0, 0, 0,
    0, 0, 0, 5, 65, 0, 0, 0, 1,
    0, 0, 0, 5, 65, 0, 0, 0, 2,
    0, 0, 0, 5, 65, 0, 0, 0, 3,
    0, 0, 0, 5, 65, 0, 0, 0, 4,
    0, 0, 0, 5, 65, 0, 0, 0, 5,
    0, 0, 0, 5, 65, 0, 0, 0, 6,
    0, 0, 0, 5, 65, 0, 0, 0, 7,
    0, 0, 0, 5, 65, 0, 0, 0, 8,
    0, 0, 0, 5, 65, 0, 0, 0, 9,
    0, 0, 0, 13, 67, 0, 0, 0, 0, 0, 0, 0, 10, 0, 0, 0, 2,
    0, 0, 0, 13, 68, 0, 0, 0, 0, 0, 0, 0, 0, 0, 0, 0, 2,
];

/// The number of bytes of `REPLIES` up to the reply to the ask.
pub(crate) const OPENED: usize = 107;

/// The frame of a write by thread 0.
pub(crate) const WRITE: [u8; 11] = [0, 9, 6, 0, 0, 0, 0, 0, 0, 0, 7];

/// The frame that asks for the answer of question 0.
pub(crate) const ANSWER: [u8; 7] = [0, 5, 8, 0, 0, 0, 0];

/// The frame that asks for the status of question 0.
pub(crate) const STATUS: [u8; 7] = [0, 5, 9, 0, 0, 0, 0];

/// The first nine bytes of the reply with the report. The text of the report follows them.
pub(crate) const REPORT_HEAD: [u8; 9] = [0, 0, 0, 165, 69, 0, 0, 0, 0];

/// The reply with the status of question 0 after both tasks are delivered.
pub(crate) const SETTLED: [u8; 46] = [
    0, 0, 0, 42, 70, 0, 0, 0, 0, 0, 0, 0, 10, 0, 0, 0, 1, 0, 0, 0, 10, 2, 0, 0, 0, 2, 0, 0, 0, 2,
    0, 0, 0, 0, 0, 0, 0, 1, 0, 0, 0, 0, 0, 0, 0, 1,
];

/// The report of the trace with the bound 2.
pub(crate) const REPORT: &str = "question 0 length 10 bound 2 cycles 1 confirmed 1
cycle 0 1 confirmed
  thread 1 lock 20 holds 10 place 3
  thread 2 lock 10 holds 20 place 7
  witness 0 1 2 6
";
