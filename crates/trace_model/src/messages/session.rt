//! The requests and the replies of a session.

use crate::messages::batch::EventBatch;
use crate::messages::report::ReportText;
use crate::messages::status::QuestionStatus;
use crate::refusal::Refusal;
use crate::traces::event::Event;
use crate::traces::place::Place;

/// A request of a session.
#[derive(Debug, Drop)]
pub enum Request {
    /// Offers one event.
    Offer(Event),
    /// Asks for the cycles of the present trace with at most this many members.
    Ask(u8),
    /// Asks for the report of the question with this number.
    Answer(u32),
    /// Asks for the status of the question with this number.
    Status(u32),
    /// Offers several events.
    Batch(EventBatch),
}

/// What is wrong with the bytes of a session.
#[derive(Clone, Copy, Debug, PartialEq, Eq)]
pub enum Fault {
    /// No request has this kind.
    BadKind,
    /// No request of this kind has this length.
    BadLength,
    /// The bytes end within a frame.
    Truncated,
    /// The count of a batch differs from its length, or one of its events has an unknown kind.
    BadBatch,
}

/// A reply to a session.
#[derive(Debug, Drop)]
pub enum Reply {
    /// The event was accepted, at this place.
    Placed(Place),
    /// The request was refused, and changed nothing.
    Refused(Refusal),
    /// A question was opened.
    Opened {
        /// The number of the question.
        question: u32,
        /// The number of events that the question covers.
        length: u32,
        /// The number of tasks of the question.
        total: u32,
    },
    /// Some task of the question has no delivered finding.
    Pending {
        /// The number of the question.
        question: u32,
        /// The number of delivered findings.
        delivered: u32,
        /// The number of tasks of the question.
        total: u32,
    },
    /// Every task of the question has a delivered finding.
    Report {
        /// The number of the question.
        question: u32,
        /// The report: one line for each cycle.
        text: ReportText,
    },
    /// The status of a question.
    Status(QuestionStatus),
    /// The bytes are not a request. This is the last reply of the session.
    Fault(Fault),
    /// The result of a batch.
    Batched {
        /// The number of accepted events, counted from the first event of the batch.
        accepted: u8,
        /// The refusal of the next event, or `None` if all events were accepted.
        refusal: Option<Refusal>,
        /// The number of accepted events before the batch, which is the place of its first event.
        length: u32,
    },
}
