//! Batches: events that one request offers.

ghost use Rattle.std.specs.Prelude.{◌≡◌, ◌<◌, ◌≤◌, ◌↔◌, ◌∷◌, ◌++◌, [], IfSome, IsSome, length, take};

use crate::traces::event::Event;
use arrayvec::ArrayVec;
use std::marker::Model;
use std::slice;

/// The greatest number of events in a batch.
pub const MAX_BATCH: usize = 64;

/// The events of a batch. Most batches have one event, which is stored without the array.
#[derive(Debug, Drop, PartialEq, Eq)]
enum Events {
    One(Event),
    Many(ArrayVec<Event, MAX_BATCH>),
}

/// A batch: 1 to `MAX_BATCH` events that one request offers.
///
/// Contracts see the list of the events.
#[derive(Debug, Drop, PartialEq, Eq)]
pub struct EventBatch {
    events: Events,
}

impl Model for EventBatch {
    ghost use Rattle.std.specs.Prelude.{List};
    ghost use Rattle.std.proofs.Common.{ap};
    ghost use Rattle.trace_model.specs.declared.traces.event.Event.{Event};
    ghost use Rattle.trace_model.specs.Protocol.EventLists.{events_in, events_back, events_come_back, IsProper};

    ghost Value = { List Event };

    ghost view = { λ b. events_in b.events };

    ghost invariant = { λ b. IsProper b.events };

    ghost inverse = { λ events. record { events = events_back events } };

    ghost inverse_ok = { λ b proper. ap (λ events. record { events = events })
        (events_come_back b.events proper) };
}

impl EventBatch {
    /// Returns the batch of one event.
    pub fn of(event: Event) -> EventBatch
        ensures { result ≡ event ∷ [] }
    {
        EventBatch {
            events: Events::One(event),
        }
    }

    /// Returns the batch of `events`, or `None` if there are none or more than `MAX_BATCH`.
    pub fn new(events: &[Event]) -> Option<EventBatch>
        ensures value { IfSome result (λ batch. batch ≡ events.now) }
        ensures in_range { IsSome result ↔ ((1 ≤ length events.now) × (length events.now ≤ 64)) }
    {
        match events {
            [] => None,
            [event] => Some(EventBatch::of(*event)),
            _ => {
                let mut many = ArrayVec::new();
                match many.try_extend_from_slice(events) {
                    Ok(()) => Some(EventBatch {
                        events: Events::Many(many),
                    }),
                    Err(_) => None,
                }
            }
        }
    }

    /// Adds an event at the end. The batch must have fewer than `MAX_BATCH` events.
    pub fn push(&mut self, event: Event)
        requires { length self.old < 64 }
        ensures { self.new ≡ self.old ++ event ∷ [] }
    {
        match &mut self.events {
            Events::Many(events) => events.push(event),
            Events::One(first) => {
                let mut events = ArrayVec::new();
                events.push(*first);
                events.push(event);
                self.events = Events::Many(events);
            }
        }
    }

    /// Keeps the first `len` events, at least one, and drops the others.
    pub fn truncate(&mut self, len: usize)
        requires { 1 ≤ len }
        ensures { self.new ≡ take len self.old }
    {
        if let Events::Many(events) = &mut self.events {
            if len > 1 {
                events.truncate(len);
            } else {
                let first = events[0];
                self.events = Events::One(first);
            }
        }
    }

    /// Returns the events, in order.
    pub fn events(&self) -> &[Event]
        ensures value { result.now ≡ self.now }
        ensures some { 1 ≤ length result.now }
        ensures few { length result.now ≤ 64 }
    {
        match &self.events {
            Events::One(event) => slice::from_ref(event),
            Events::Many(events) => events.as_slice(),
        }
    }
}
