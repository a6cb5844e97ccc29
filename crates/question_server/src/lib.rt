//! The server: one desk, a thread for each session over a TCP socket, and a thread for each worker.
//! The crate also exports the session loop, the client and the offline report, which are in crates
//! below. Start reading at [`run_server`].
#![tactic(auto)]

mod accepting;
mod backoff;
mod closing;
mod connections;
mod handle_pool;
mod question_log;
mod seats;
mod server_tasks;
mod service;
mod serving;
mod session_log;

pub use closing::close_at_end;
pub use desk::Client;
pub use offline_report::{offline, offline_with};
pub use sequencer::Calls;
pub use service::{ServerError, Service};
pub use serving::run_server;
pub use sessions::{Ended, ServeFault, Sink, Source, serve};
