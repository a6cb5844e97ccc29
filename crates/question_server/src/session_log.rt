//! The part of the log that is about sessions.

use crate::seats::MAX_SEATS;
use log::{Log, info, warn};
use sessions::{Ended, ServeFault};
use std::io;
use std::net::TcpStream;

/// Logs that a session begins.
pub fn log_beginning<L: Log>(log: &L, session: u64, stream: &TcpStream) {
    match stream.peer_addr() {
        Ok(peer) => info!(log; "session {session} begins, from {peer}"),
        Err(_) => info!(log; "session {session} begins"),
    }
}

/// Logs how a session ended. `idle` is the number of seconds after which it is closed, or 0.
pub fn log_end<L: Log>(log: &L, session: u64, idle: u32, ended: Result<Ended, ServeFault>) {
    match ended {
        Ok(Ended::Input) => info!(log; "session {session} ends with its input"),
        Ok(Ended::Frame(fault)) => warn!(log; "session {session} ends with a fault: {fault:?}"),
        Err(ServeFault::Read) if idle > 0 => {
            warn!(log; "session {session} ends: a read failed, or no byte came for {idle} s");
        }
        Err(fault) => warn!(log; "session {session} ends: {fault}"),
    }
}

/// Logs that a connection is closed without a session.
pub fn log_turned_away<L: Log>(log: &L) {
    warn!(log; "a connection is closed: {MAX_SEATS} sessions are open, or memory is short");
}

/// Logs that an accept failed.
pub fn log_failed_accept<L: Log>(log: &L, error: &io::Error) {
    warn!(log; "an accept failed, and is tried again: {error}");
}
