//! The recorded trace with its gate, index and lock tables.

ghost use Rattle.std.specs.Prelude.{◌≡◌, ◌+◌, ◌≤◌, ◌<◌, [], ◌∷◌, ◌++◌, length, take, slice_get, Some, None, IfOk, OnOk};
ghost use Rattle.std.specs.Arc.{arc_value};
ghost use Rattle.std.specs.Result.{result_err};
ghost use Rattle.trace_model.specs.declared.limits.TheConstants.{MAX_EVENTS};
ghost use Rattle.trace_model.specs.Theory.Dependencies.{dependencies};
ghost use Rattle.trace_model.specs.Theory.Lawful.{refusal_of, IsWellFormed};
ghost use Rattle.wellformed.specs.Gate.{admitted_with};

use lock_tables::LockTables;
use snapshots::Snapshot;
use std::alloc::Global;
use std::collections::hash_map::RandomState;
use std::marker::{Brand, Model};
use std::sync::Arc;
use std::sync::ledger::{Blank, Ledger};
use trace_index::{Steps, TraceIndex};
use trace_model::{Event, NoMemory, Place, Refusal};
use wellformed::AdmissionTables;

/// A well-formed trace with its gate tables, index and lock tables, and the event for which memory
/// is reserved. Contracts see it as a gate.
#[derive(Drop)]
pub struct Recorder {
    alloc: Global,
    limit: usize,
    admission: AdmissionTables,
    index: TraceIndex,
    tables: LockTables,
    ready: Option<Event>,
}

impl Model for Recorder {
    ghost use Rattle.wellformed.specs.Gate.{GateView};
    ghost use Rattle.sequencer.specs.Recording.{IsRecording};

    ghost Value = { GateView };

    ghost view = { λ r. record { limit = r.limit; events = r.index.events; reserved = r.ready } };

    ghost invariant = { λ r. IsRecording r.limit r.admission r.index r.tables r.ready };
}

/// Records the event in the index, with a new count of copies. Memory must be reserved for it.
fn record_in<L: Ledger>(index: &mut TraceIndex, event: &Event, blank: Blank)
    requires name { blank.name ≡ L.name }
    requires parts { blank.parts ≡ L.parts }
    requires some { 0 < L.parts }
    requires reserved { index.old.reserved ≡ Some event.now }
    requires lawful { refusal_of MAX_EVENTS index.old.events event.now ≡ None }
    ensures { index.new.events ≡ index.old.events ++ event.now ∷ [] }
{
    let mut copies = Steps::<L>::new(blank);
    index.record(event, &mut copies);
}

impl Recorder {
    /// Creates an empty recorder for at most `max_events` events (at most `MAX_EVENTS`). Does not
    /// allocate.
    pub fn new(alloc: Global, state: RandomState, max_events: usize) -> Recorder
        requires { max_events ≤ MAX_EVENTS }
        ensures { result ≡ record { limit = max_events; events = []; reserved = None } }
    {
        Recorder {
            alloc,
            limit: max_events,
            admission: AdmissionTables::new(alloc, state),
            index: TraceIndex::new(alloc, state),
            tables: LockTables::new(alloc, state),
            ready: None,
        }
    }

    /// Checks whether the event is lawful after the recorded ones. Does not allocate.
    ///
    /// # Errors
    ///
    /// The first refusal that applies.
    pub fn check(&self, event: &Event) -> Result<(), Refusal>
        ensures { result_err result ≡ refusal_of self.now.limit self.now.events event.now }
    {
        self.admission.check(self.limit, event)
    }

    /// Returns the number of recorded events. Does not allocate.
    pub fn len(&self) -> usize
        ensures length { result ≡ length self.now.events }
        ensures well_formed { IsWellFormed self.now.events }
        ensures within { length self.now.events ≤ self.now.limit }
    {
        self.index.len()
    }

    /// Returns the event at a place, or `None` if it is not in the trace. Does not allocate.
    pub fn event(&self, place: Place) -> Option<Event>
        ensures { result ≡ slice_get self.now.events place }
    {
        self.index.event(place)
    }

    /// Returns the number of dependencies of the recorded events. Does not allocate.
    pub fn dependencies(&self) -> usize
        ensures { result ≡ length (dependencies self.now.events) }
    {
        let _ = &self.index; // for the proof
        self.tables.len()
    }

    /// Makes every allocation for this event, in gate, index and tables. An earlier reservation is
    /// dropped.
    ///
    /// # Errors
    ///
    /// `NoMemory` if an allocation fails. No look-up changes.
    pub fn reserve(&mut self, event: &Event) -> Result<(), NoMemory>
        ensures events { (self.new.events ≡ self.old.events) × (self.new.limit ≡ self.old.limit) }
        ensures ok { OnOk result (self.new.reserved ≡ Some event.now) }
    {
        self.ready = None;
        self.admission.reserve(event)?;
        self.index.reserve(event)?;
        self.tables.reserve(event)?;
        self.ready = Some(*event);
        Ok(())
    }

    /// Adds all dependencies to the graph, so that snapshots share it until the next event. An
    /// earlier reservation is dropped.
    ///
    /// # Errors
    ///
    /// `NoMemory` if an allocation fails. No look-up changes.
    pub fn catch_up(&mut self) -> Result<(), NoMemory>
        ensures { (self.new.events ≡ self.old.events) × (self.new.limit ≡ self.old.limit) }
    {
        self.ready = None;
        self.tables.catch_up()
    }

    /// Records the event. It must be lawful, and the last one reserved. Does not allocate.
    pub fn record(&mut self, event: &Event)
        requires reserved { self.old.reserved ≡ Some event.now }
        requires lawful { refusal_of self.old.limit self.old.events event.now ≡ None }
        ensures { self.new ≡ admitted_with self.old event.now }
    {
        self.ready = None;
        record_in::<Brand>(&mut self.index, event, Blank::new(1));
        self.tables.record(event);
        self.admission.record(event);
    }

    /// Returns a snapshot of the first `count` events, which have `total` dependencies. Full
    /// segments are shared, and at most one is copied; `copies` counts the copied events.
    ///
    /// # Errors
    ///
    /// `NoMemory` if an allocation fails.
    pub fn snapshot<L: Ledger>(
        &self,
        count: u32,
        total: u32,
        copies: &mut Steps<L>,
    ) -> Result<Arc<Snapshot, Global>, NoMemory>
        requires within { count ≤ length self.now.events }
        requires total { total ≡ length (dependencies (take count self.now.events)) }
        ensures events { IfOk result (λ shared. arc_value shared ≡ take count self.now.events) }
        ensures copies { copies.new ≤ copies.old + 4096 }
    {
        let parts = self.tables.share(total, count)?;
        match self.index.share(count as usize, copies) {
            Ok(index) => {
                let snapshot = Snapshot::of(index, parts);
                Ok(Arc::new(self.alloc, snapshot)?)
            }
            Err(refused) => {
                drop(parts);
                Err(refused)
            }
        }
    }
}
