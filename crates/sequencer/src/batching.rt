//! Batches: several events offered in one request.
ghost use Rattle.std.specs.Prelude.{◌≡◌, ◌≤◌, length, slice_get, Some, None};
ghost use Rattle.trace_model.specs.Protocol.Batches.{IsBatch};
ghost use Rattle.trace_model.specs.Theory.Lawful.{refusal_of};
ghost use Rattle.sequencer.specs.Batched.{IsBatched, FirstIsReserved};

use crate::book::Book;
use trace_model::{Event, Refusal};

/// The outcome of a batch.
#[derive(Clone, Copy, Debug, PartialEq, Eq)]
pub struct Batched {
    /// The number of accepted events, from the first one on.
    pub accepted: u8,
    /// The refusal of the next event, or `None` if all were accepted.
    pub refusal: Option<Refusal>,
    /// The number of events accepted before the batch, which is the place of its first event.
    pub length: u32,
}

impl Book {
    /// Appends the events of a batch (1 to `MAX_BATCH`) up to the first one that is not lawful, or
    /// for which an allocation fails. That event and those after it change nothing.
    pub fn offer_batch(&mut self, events: &[Event]) -> Batched
        requires { IsBatch events.now }
        ensures { IsBatched self.old.state events.now result self.new.state }
    {
        match self.reserve_event(&events[0]) {
            Ok(()) => self.record_batch(events),
            Err(refusal) => Batched {
                accepted: 0,
                refusal: Some(refusal),
                length: self.accepted(),
            },
        }
    }

    /// Offers a batch like `offer_batch`. `reserve_event` must have succeeded for its first event
    /// on this state, so that event is accepted without an allocation.
    pub fn record_batch(&mut self, events: &[Event]) -> Batched
        requires batch { IsBatch events.now }
        requires admitted { FirstIsReserved self.old events.now }
        ensures batched { IsBatched self.old.state events.now result self.new.state }
        ensures some { 1 ≤ result.accepted }
    {
        let length = self.accepted();
        self.record_event(&events[0]);
        let mut accepted = 1;
        while accepted < events.len() {
            let event = &events[accepted];
            if let Err(refusal) = self.reserve_event(event) {
                return Batched {
                    accepted: accepted as u8,
                    refusal: Some(refusal),
                    length,
                };
            }
            self.record_event(event);
            accepted += 1;
        }
        Batched {
            accepted: accepted as u8,
            refusal: None,
            length,
        }
    }
}
