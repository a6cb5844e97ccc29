//! Claimants and board readers that no thread uses.
ghost use Rattle.question_server.specs.Service.{IsWorkers};

use crate::service::ServerError;
use board::{BoardReader, HistoryId};
use claims::{Claimant, claimants};
use std::alloc::Global;

/// The claimants that no worker uses, and the readers that no worker or session uses.
pub struct HandlePool<N: HistoryId> {
    claimants: Vec<Claimant>,
    readers: Vec<BoardReader<N>>,
}

impl<N: HistoryId> Drop for HandlePool<N> {
    fn drop(self) {
        let HandlePool {
            claimants: _,
            readers: _,
        } = self;
    }
}

impl<N: HistoryId> HandlePool<N> {
    /// Creates a claimant for each worker, next to these readers.
    pub fn new(
        alloc: Global,
        workers: u32,
        readers: Vec<BoardReader<N>>,
    ) -> Result<HandlePool<N>, ServerError>
        requires { IsWorkers workers }
    {
        match claimants(alloc, workers as usize) {
            Ok(claimants) => Ok(HandlePool { claimants, readers }),
            Err(_) => {
                drop(readers);
                Err(ServerError::NotMade)
            }
        }
    }

    /// Takes a claimant and a reader for a worker.
    pub fn take_for_worker(&mut self) -> Option<(Claimant, BoardReader<N>)> {
        let claimant = self.claimants.pop()?;
        let reader = self.readers.pop()?;
        Some((claimant, reader))
    }

    /// Takes a reader for a session.
    pub fn take_reader(&mut self) -> Option<BoardReader<N>> {
        self.readers.pop()
    }

    /// Gives back the reader of a session.
    pub fn give_back(&mut self, reader: BoardReader<N>) {
        // The list once held all readers, so it has memory for this one.
        let _ = self.readers.push(reader);
    }
}
