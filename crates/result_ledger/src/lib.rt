//! The rows of a question's tasks. Each task is accepted once.
//!
//! A [`Ledger`] allocates all its memory when it is opened. [`Ledger::accept`] stores the rows of a
//! task, or returns them with the reason why it refuses them. When no task is missing,
//! [`Ledger::settled`] returns all rows in the order of the tasks.
#![tactic(auto)]

mod ledger;

pub use ledger::{Ledger, LedgerRefused, SharedTasks};
