//! A trace with its tables.

ghost use Rattle.std.specs.Prelude.{◌≡◌, ◌≤◌, length, slice_get, IfOk};
ghost use Rattle.trace_model.specs.declared.limits.TheConstants.{MAX_EVENTS};
ghost use Rattle.trace_model.specs.Theory.Dependencies.{dependencies};
ghost use Rattle.trace_model.specs.Theory.Lawful.{IsWellFormed};
ghost use Rattle.dependencies.specs.Tables.{HasDependenciesOf};
ghost use Rattle.lock_graph.specs.Graph.{HasGraphOf};
ghost use Rattle.lock_tables.specs.Tables.{AreLockPartsOf};

use crate::SnapshotBuilder;
use dependencies::DepTable;
use lock_graph::LockGraph;
use lock_tables::LockParts;
use std::alloc::Global;
use std::collections::hash_map::RandomState;
use std::marker::Model;
use std::sync::Arc;
use std::thread::Threads;
use trace_index::TraceIndex;
use trace_model::{Event, NoMemory, Place};

/// A well-formed trace with its index, its dependencies and their graph, which agree by type.
/// Contracts see it as the trace.
pub struct Snapshot {
    index: TraceIndex,
    dependencies: DepTable,
    graph: Arc<LockGraph, Global>,
}

impl Drop for Snapshot {
    fn drop(self) {
        let Snapshot {
            index: _,
            dependencies: _,
            graph: _,
        } = self;
    }
}

impl Model for Snapshot {
    ghost use Rattle.trace_model.specs.Theory.Trace.{Trace};
    ghost use Rattle.std.specs.Arc.{arc_value};
    ghost use Rattle.snapshots.specs.Parts.{AreOf};

    ghost Value = { Trace };

    ghost view = { λ s. s.index.events };

    ghost invariant = { λ s. AreOf s.index.events s.dependencies (arc_value s.graph) };
}

impl Snapshot {
    /// Builds the snapshot of a well-formed trace. One thread builds the index, another the tables;
    /// each makes one pass over the events. Part of the public API; not called by the program,
    /// which uses [`SnapshotBuilder`].
    ///
    /// # Errors
    /// `NoMemory` if an allocation fails.
    pub fn build<R: Threads>(
        rt: &R,
        alloc: Global,
        state: RandomState,
        events: &[Event],
    ) -> Result<Snapshot, NoMemory>
        requires { IsWellFormed events.now }
        ensures { IfOk result (λ snapshot. snapshot ≡ events.now) }
    {
        SnapshotBuilder::new(alloc, state)
            .extended(rt, events)?
            .into_snapshot()
    }

    /// Returns the snapshot of the index's trace with these dependencies and this graph. Does not
    /// allocate.
    ///
    /// The caller passes the tables of the index's trace.
    pub fn of(index: TraceIndex, parts: LockParts) -> Snapshot
        requires { AreLockPartsOf parts index.events }
        ensures { result ≡ index.events }
    {
        let LockParts {
            dependencies,
            graph,
        } = parts;
        Snapshot {
            index,
            dependencies,
            graph,
        }
    }

    /// Returns the number of dependencies of the trace: the number of tasks of a question on it.
    /// Does not allocate.
    pub fn tasks(&self) -> u32
        ensures { result ≡ length (dependencies self.now) }
    {
        let _events = self.index.len(); // for the proof
        self.dependencies.len() as u32
    }

    /// Returns the number of events, at most `MAX_EVENTS`. Does not allocate.
    pub fn len(&self) -> usize
        ensures length { result ≡ length self.now }
        ensures well_formed { IsWellFormed self.now }
        ensures short { length self.now ≤ MAX_EVENTS }
    {
        self.index.len()
    }

    /// Returns the event at `place`, or `None` past the end. Does not allocate.
    pub fn event(&self, place: Place) -> Option<Event>
        ensures { result ≡ slice_get self.now place }
    {
        self.index.event(place)
    }

    /// Returns the index of the trace. Does not allocate.
    pub fn index(&self) -> &TraceIndex
        ensures { result.now.events ≡ self.now }
    {
        &self.index
    }

    /// Returns the dependencies of the trace, with their places. Does not allocate.
    pub fn table(&self) -> &DepTable
        ensures { HasDependenciesOf result.now self.now (length self.now) }
    {
        &self.dependencies
    }

    /// Returns the graph from each lock to the dependencies that hold it. Does not allocate.
    pub fn graph(&self) -> &LockGraph
        ensures { HasGraphOf (dependencies self.now) result.now }
    {
        &self.graph
    }
}
