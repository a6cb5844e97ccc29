//! The steps of the machine that a board publishes.

use crate::messages::batch::EventBatch;
use crate::traces::bound::Bound;

/// The step that one commit publishes.
#[derive(Debug, Drop, PartialEq, Eq)]
pub enum BoardStep {
    /// These events were accepted.
    Accept(EventBatch),
    /// A question about the present trace was opened.
    Open {
        /// The greatest number of members of its cycles.
        bound: Bound,
        /// The number of its tasks: one for each dependency of the trace.
        total: u32,
    },
    /// The finding of a task was delivered.
    Deliver {
        /// The number of its question.
        question: u32,
        /// The number of the task, which is the number of a dependency.
        task: u32,
        /// The number of cycles whose least member is this dependency.
        cycles: u32,
        /// The number of confirmed ones among them.
        confirmed: u32,
    },
}
