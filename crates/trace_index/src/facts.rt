//! All facts of a place, by one look-up.

ghost use Rattle.std.specs.Prelude.{◌≡◌, None, slice_get, MatchOption};
ghost use Rattle.trace_index.specs.Links.{written_by, begun_at_depth, taken_before};
ghost use Rattle.trace_index.specs.Facts.{ArePlaceFacts, AreRowFacts};

use crate::row::{IndexRow, place_of};
use crate::{TraceIndex, begun_in, taken_in, writer_in};
use trace_model::{Event, Place};

/// The event at a place, and what the look-ups of an index return for the place.
#[derive(Clone, Copy)]
pub struct PlaceFacts {
    /// The event.
    pub event: Event,
    /// The number of earlier events of its thread.
    pub number: u32,
    /// The previous place of its thread.
    pub thread_before: Option<Place>,
    /// The lock on which a critical section begins.
    pub begun: Option<u32>,
    /// The previous outermost acquire of that lock.
    pub acquire_before: Option<Place>,
    /// The writer of a read.
    pub writer: Option<Place>,
}

/// Returns the facts in a row.
#[inline(always)]
fn facts_in(row: &IndexRow) -> PlaceFacts
    ensures { AreRowFacts row.now result }
{
    PlaceFacts {
        event: row.event,
        number: row.number,
        thread_before: place_of(row.thread),
        begun: begun_in(row),
        acquire_before: taken_in(row),
        writer: writer_in(row),
    }
}

impl TraceIndex {
    /// Returns the event at `place`, and what `number`, `thread_before`, `begun`, `acquire_before`
    /// and `writer` return for it, by one look-up. Returns `None` if the trace has no such place.
    /// Does not allocate.
    #[inline(always)]
    pub fn facts(&self, place: Place) -> Option<PlaceFacts>
        ensures { MatchOption result (slice_get self.now.events place ≡ None)
            (ArePlaceFacts self.now.events place) }
    {
        match self.parts.rows.get(place.get() as usize) {
            Some(row) => Some(facts_in(&row)),
            None => None,
        }
    }
}
