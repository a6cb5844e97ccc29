//! The parameters of a server, and how it may end early.

/// Why a server ended early.
#[derive(Clone, Copy, Debug, PartialEq, Eq)]
pub enum ServerError {
    /// The listener accepts nothing any more.
    Listen,
    /// The desk, the claimants or the worker threads could not be created.
    NotMade,
}

/// The number of workers (1 to 16), the number of sessions to take (0: no end), the largest number
/// of events that the book accepts, and the seconds after which an idle session is closed (0:
/// never).
#[derive(Clone, Copy)]
pub struct Service {
    pub workers: u32,
    pub sessions: u32,
    pub limit: u32,
    pub idle: u32,
}
