//! The gate with its list of events.

ghost use Rattle.std.specs.Prelude.{◌≡◌, ◌≢◌, ◌≤◌, length, None, Some, [], OnErr, OnOk};
ghost use Rattle.std.specs.Result.{result_err};
ghost use Rattle.trace_model.specs.declared.limits.TheConstants.{MAX_EVENTS};
ghost use Rattle.trace_model.specs.Theory.Lawful.{refusal_of, IsWellFormed};
ghost use Rattle.wellformed.specs.Gate.{admitted_with};

use crate::AdmissionTables;
use std::alloc::Global;
use std::hash::RandomState;
use std::marker::Model;
use trace_model::{Event, NoMemory, Refusal};

/// The recorded events, each lawful after the events before it, and the reserved event. Part of the
/// public API; not called by the program, which uses [`AdmissionTables`].
///
/// Contracts see the limit, the events and the reserved event.
#[derive(Drop)]
pub struct Gate {
    limit: usize,
    events: Vec<Event>,
    reserved: Option<Event>,
    tables: AdmissionTables,
}

impl Model for Gate {
    ghost use Rattle.std.specs.Prelude.{vec_len, vec_capacity};
    ghost use Rattle.wellformed.specs.Gate.{GateView};
    ghost use Rattle.wellformed.specs.Tables.{IsRightGate};

    ghost Value = { GateView };

    ghost view = { λ g. record {
      limit = g.limit;
      events = g.events.items;
      reserved = g.reserved;
    } };

    ghost invariant = { λ g. IsRightGate g.limit g.events.items g.reserved
        (vec_len g.events, vec_capacity g.events) g.tables };
}

impl Gate {
    /// Returns a gate without events that accepts at most `max_events`, which is at most
    /// `MAX_EVENTS`. Does not allocate.
    pub fn new(alloc: Global, state: RandomState, max_events: usize) -> Gate
        requires { max_events ≤ MAX_EVENTS }
        ensures { result ≡ record { limit = max_events; events = []; reserved = None } }
    {
        Gate {
            limit: max_events,
            events: Vec::new(alloc),
            reserved: None,
            tables: AdmissionTables::new(alloc, state),
        }
    }

    /// Tests whether `event` may follow the recorded events. Does not allocate.
    ///
    /// # Errors
    ///
    /// The first refusal that applies.
    pub fn check(&self, event: &Event) -> Result<(), Refusal>
        ensures { result_err result ≡ refusal_of self.now.limit self.now.events event.now }
    {
        self.tables.check(self.limit, event)
    }

    /// Returns the recorded events.
    pub fn events(&self) -> &[Event]
        ensures value { result.now ≡ self.now.events }
        ensures well_formed { IsWellFormed self.now.events }
        ensures within { length self.now.events ≤ self.now.limit }
    {
        &self.events
    }

    /// Reserves memory for `event`, instead of an event that was reserved before.
    ///
    /// # Errors
    ///
    /// `NoMemory` if an allocation fails, which does not happen if this event is reserved already.
    /// The gate is unchanged, and so is an earlier reservation.
    pub fn reserve(&mut self, event: &Event) -> Result<(), NoMemory>
        ensures events { (self.new.events ≡ self.old.events) × (self.new.limit ≡ self.old.limit) }
        ensures ok { OnOk result (self.new.reserved ≡ Some event.now) }
        ensures err { OnErr result (self.new ≡ self.old) }
        ensures wanting { OnErr result (self.old.reserved ≢ Some event.now) }
    {
        self.events.reserve(1)?;
        self.tables.reserve(event)?;
        self.reserved = Some(*event);
        Ok(())
    }

    /// Records `event`. The event must be lawful and must be the reserved one. Does not allocate.
    pub fn record(&mut self, event: &Event)
        requires reserved { self.old.reserved ≡ Some event.now }
        requires lawful { refusal_of self.old.limit self.old.events event.now ≡ None }
        ensures { self.new ≡ admitted_with self.old event.now }
    {
        self.tables.record(event);
        self.events.push_reserved(*event);
        self.reserved = None;
    }
}
