//! Refusals, their numbers and their names.

use std::alloc::AllocError;
use thiserror::Error;

/// Why a request, an event or a finding is refused.
#[derive(Clone, Copy, Debug, PartialEq, Eq)]
pub enum Refusal {
    /// The trace has as many events as its limit allows.
    Full,
    /// The thread of the event is not 0, and the trace has no fork of it.
    Unforked,
    /// The trace has a join of the thread of the event.
    Ended,
    /// A fork of thread 0, or of a thread that the trace has a fork of.
    AlreadyForked,
    /// A fork, and the trace has `MAX_FORKS` forks.
    TooManyThreads,
    /// A join of the thread itself.
    JoinsItself,
    /// A join of thread 0, or of a thread that the trace has no fork of.
    JoinUnknown,
    /// A join of a thread that the trace has a join of.
    JoinedTwice,
    /// An acquire of a lock that the thread holds at depth `MAX_DEPTH`.
    TooNested,
    /// An acquire of a lock that another thread holds.
    HeldByOther,
    /// An outermost acquire, and the thread holds `MAX_HELD` locks.
    TooDeep,
    /// A release of a lock that the thread does not hold.
    NotHeld,
    /// An allocation failed, and no other refusal applies.
    NoMemory,
    /// An ask with a bound outside `MIN_BOUND` to `MAX_BOUND`.
    BadBound,
    /// An ask, and the book has `MAX_QUESTIONS` questions.
    TooManyQuestions,
    /// No question has this number.
    NoSuchQuestion,
    /// The text of the report would have more than `MAX_REPORT` bytes.
    ReportTooLong,
    /// A finding of a task that its question does not have.
    NoSuchTask,
    /// A finding of a task whose finding was delivered.
    Double,
    /// A finding with another bound than its question.
    OtherBound,
    /// A finding over another trace than its question.
    OtherTrace,
    /// A status, and the board could not be read.
    BoardBusy,
    /// A task has more than `MAX_CYCLES` cycles.
    TooManyCycles,
}

/// An allocation failed. `?` converts an `AllocError` to it.
#[derive(Debug, Drop, PartialEq, Eq, Error)]
#[error("no memory")]
pub struct NoMemory(#[from(alloc)] AllocError);

impl Refusal {
    ghost use Rattle.std.specs.Prelude.{◌≡◌};
    ghost use Rattle.trace_model.specs.Protocol.Refusals.{number_of};

    /// Returns the number of the refusal.
    pub fn number(self) -> u8
        ensures { result ≡ number_of self }
    {
        match self {
            Refusal::Full => 1,
            Refusal::Unforked => 2,
            Refusal::Ended => 3,
            Refusal::AlreadyForked => 4,
            Refusal::TooManyThreads => 5,
            Refusal::JoinsItself => 6,
            Refusal::JoinUnknown => 7,
            Refusal::JoinedTwice => 8,
            Refusal::TooNested => 9,
            Refusal::HeldByOther => 10,
            Refusal::TooDeep => 11,
            Refusal::NotHeld => 12,
            Refusal::NoMemory => 13,
            Refusal::BadBound => 20,
            Refusal::TooManyQuestions => 21,
            Refusal::NoSuchQuestion => 22,
            Refusal::ReportTooLong => 23,
            Refusal::NoSuchTask => 30,
            Refusal::Double => 31,
            Refusal::OtherBound => 32,
            Refusal::OtherTrace => 33,
            Refusal::BoardBusy => 40,
            Refusal::TooManyCycles => 41,
        }
    }
}

ghost use Rattle.std.specs.Prelude.{◌≡◌, option_map};
ghost use Rattle.trace_model.specs.Protocol.Refusals.{refusal_name};

/// Returns the name of the refusal with this number, or `None` if no refusal has it.
pub fn refusal_name(number: u8) -> Option<&'static str>
    ensures { option_map (λ s. s.now) result ≡ refusal_name number }
{
    match number {
        1 => Some("Full"),
        2 => Some("Unforked"),
        3 => Some("Ended"),
        4 => Some("AlreadyForked"),
        5 => Some("TooManyThreads"),
        6 => Some("JoinsItself"),
        7 => Some("JoinUnknown"),
        8 => Some("JoinedTwice"),
        9 => Some("TooNested"),
        10 => Some("HeldByOther"),
        11 => Some("TooDeep"),
        12 => Some("NotHeld"),
        13 => Some("NoMemory"),
        20 => Some("BadBound"),
        21 => Some("TooManyQuestions"),
        22 => Some("NoSuchQuestion"),
        23 => Some("ReportTooLong"),
        30 => Some("NoSuchTask"),
        31 => Some("Double"),
        32 => Some("OtherBound"),
        33 => Some("OtherTrace"),
        40 => Some("BoardBusy"),
        41 => Some("TooManyCycles"),
        _ => None,
    }
}
