//! The seats of the open sessions.
ghost use Rattle.std.specs.Prelude.{◌≡◌, IfOk, length};
ghost use Rattle.question_server.specs.declared.seats.TheConstants.{MAX_SEATS};

use std::alloc::{AllocError, Global};
use std::net::{Shutdown, TcpStream};
use std::sync::Arc;

/// The largest number of sessions at a time.
pub const MAX_SEATS: usize = 16;

/// The stream of each open session, by seat.
#[derive(Drop)]
pub struct Seats {
    streams: Vec<Option<Arc<TcpStream, Global>>>,
}

impl Seats {
    /// Returns `MAX_SEATS` free seats.
    ///
    /// # Errors
    ///
    /// If an allocation fails.
    pub fn new(alloc: Global) -> Result<Seats, AllocError>
        ensures { IfOk result (λ seats. length seats.streams.items ≡ MAX_SEATS) }
    {
        let mut streams = Vec::with_capacity(alloc, MAX_SEATS)?;
        for _ in 0..MAX_SEATS {
            streams.push(None)?;
        }
        Ok(Seats { streams })
    }

    /// Gives the session of this stream a seat. Returns `None` if no seat is free.
    pub fn take(&mut self, stream: Arc<TcpStream, Global>) -> Option<usize> {
        let seat = self.streams.iter().position(|stream| stream.is_none())?;
        self.streams[seat] = Some(stream);
        Some(seat)
    }

    /// Frees a seat.
    pub fn leave(&mut self, seat: usize) {
        if let Some(stream) = self.streams.get_mut(seat) {
            *stream = None;
        }
    }

    /// Returns whether each seat is free.
    pub fn are_free(&self) -> bool {
        self.streams.iter().all(|stream| stream.is_none())
    }

    /// Shuts down the streams of the open sessions, which then end.
    pub fn shut_down(&self) {
        for stream in self.streams.iter() {
            if let Some(stream) = stream {
                let _ = stream.shutdown(Shutdown::Both);
            }
        }
    }
}
