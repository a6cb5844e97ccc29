//! The desk: one book behind a lock, shared by threads, and the board that shows its summary.
//! Whenever the lock is free, the published steps are a legal run, the book is the machine's state
//! after that run, and the board shows its summary; the type [`Locked`] states this. Each call
//! returns a receipt, which names the steps published so far. Start reading at `locked`.
#![tactic(auto)]

mod client;
mod desk;
mod locked;
mod own;
mod shared;
mod task_jobs;
mod worker;

pub use client::Client;
pub use desk::Desk;
pub use findings::Hold;
pub use locked::{DeskRefused, Locked};
pub use worker::{Turn, TurnFailure, Worker};
