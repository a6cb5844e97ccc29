//! The status of a question.

use crate::traces::bound::Bound;

/// The counts of the trace and of one question.
#[derive(Clone, Copy, Debug, PartialEq, Eq)]
pub struct QuestionStatus {
    /// The number of the question.
    pub question: u32,
    /// The number of accepted events.
    pub accepted: u32,
    /// The number of questions.
    pub opened: u32,
    /// The number of events that the question covers.
    pub length: u32,
    /// The greatest number of members of its cycles.
    pub bound: Bound,
    /// The number of its tasks.
    pub total: u32,
    /// The number of delivered findings.
    pub delivered: u32,
    /// The number of cycles in the delivered findings.
    pub cycles: u64,
    /// The number of confirmed cycles in the delivered findings.
    pub confirmed: u64,
}
