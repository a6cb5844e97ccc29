//! The report on a whole list of events, computed without a book.
//!
//! [`offline`] returns exactly the report that a book would give for question 0 on all events. One
//! pass tests that the trace is well formed, one builds the tables, and the tasks are computed by
//! as many threads as there are processors. Start reading at `opening.rt`.
#![tactic(auto)]

mod gathering;
mod opening;
mod parts;
mod printing;
mod refused;
mod reporting;
mod task_rows;
mod tasks;

pub use opening::Offline;
pub use parts::ReportRows;
pub use printing::RowPrinter;
pub use refused::OfflineRefused;
pub use reporting::{offline, offline_with};
