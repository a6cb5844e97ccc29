//! The board: a summary of the published steps that readers read without a lock and without
//! waiting. One writer publishes steps. Each reader sees the summary of a prefix of the published
//! steps, never an older one than before, and never one that lacks a step of a receipt that it
//! learned. The list of steps, the history, exists in proofs only. The main contract is
//! [`BoardReader::status`]; start reading at `rule`, which states the rule of the board.
#![tactic(auto)]

mod board_state;
mod entry;
mod history;
mod reader;
mod rule;
mod summary;
mod writer;

pub use board_state::{BoardState, StepDelta};
pub use entry::{Busy, FailedEntries};
pub use history::{HistoryId, HistoryPrefix, LengthWord, NewHistory};
pub use reader::{BoardReader, Receipt};
pub use rule::{BoardValue, SeenSteps};
pub use summary::{QuestionSummary, Summary, Unsettled};
pub use writer::{BoardWriter, NotMade, new_board};
