//! Snapshots that are built one block of events after another.

ghost use Rattle.std.specs.Prelude.{◌≡◌, ◌++◌, [], IfOk};
ghost use Rattle.trace_model.specs.Theory.Lawful.{IsWellFormed};
ghost use Rattle.lock_tables.specs.Tables.{AreLawfulForTables};
ghost use Rattle.snapshots.specs.Parts.{AreExtended};

use crate::Snapshot;
use lock_tables::LockTables;
use std::alloc::Global;
use std::collections::hash_map::RandomState;
use std::marker::Model;
use std::thread::{Threads, join};
use trace_index::TraceIndex;
use trace_model::{Event, NoMemory};

/// The lock tables and the index of a well-formed trace, to which events are added. Contracts see
/// it as the trace.
#[derive(Drop)]
pub struct SnapshotBuilder {
    tables: LockTables,
    index: TraceIndex,
}

impl Model for SnapshotBuilder {
    ghost use Rattle.trace_model.specs.Theory.Trace.{Trace};
    ghost use Rattle.lock_tables.specs.Tables.{FollowTrace};

    ghost Value = { Trace };

    ghost view = { λ b. b.index.events };

    ghost invariant = { λ b. FollowTrace b.tables b.index.events };
}

/// Returns the tables with these events added, each of which must be lawful after the events before
/// it.
///
/// # Errors
/// `NoMemory` if an allocation fails.
fn tables_with(tables: LockTables, events: &[Event]) -> Result<LockTables, NoMemory>
    requires { AreLawfulForTables tables events.now }
    ensures { IfOk result (AreExtended tables events.now) }
{
    let mut more = tables;
    more.extend(events)?;
    Ok(more)
}

/// Returns the index with these events added, each of which must be lawful after the events before
/// it.
///
/// # Errors
/// `NoMemory` if an allocation fails.
fn index_with(index: TraceIndex, events: &[Event]) -> Result<TraceIndex, NoMemory>
    requires { IsWellFormed (index.events ++ events.now) }
    ensures { IfOk result (λ more. more.events ≡ index.events ++ events.now) }
{
    let mut more = index;
    more.extend(events)?;
    Ok(more)
}

impl SnapshotBuilder {
    /// Returns the builder of the empty trace. `state` is the hash state of its tables. Does not
    /// allocate.
    pub fn new(alloc: Global, state: RandomState) -> SnapshotBuilder
        ensures { result ≡ [] }
    {
        SnapshotBuilder {
            tables: LockTables::new(alloc, state),
            index: TraceIndex::new(alloc, state),
        }
    }

    /// Returns the builder with these events added, each of which must be lawful after the events
    /// before it. One thread adds them to the lock tables, another to the index.
    ///
    /// # Errors
    /// `NoMemory` if an allocation fails.
    pub fn extended<R: Threads>(self, rt: &R, events: &[Event]) -> Result<SnapshotBuilder, NoMemory>
        requires { IsWellFormed (self ++ events.now) }
        ensures { IfOk result (λ builder. builder ≡ self ++ events.now) }
    {
        let SnapshotBuilder { tables, index } = self;
        let (tables, index) = join(
            rt,
            move || -> Result<LockTables, NoMemory>
                requires { AreLawfulForTables tables events.now }
                ensures { IfOk result (AreExtended tables events.entry.now) }
            { tables_with(tables, events) },
            move || -> Result<TraceIndex, NoMemory>
                requires { IsWellFormed (index.events ++ events.now) }
                ensures { IfOk result
                    (λ more. more.events ≡ index.events ++ events.entry.now) }
            { index_with(index, events) },
        );
        match (tables, index) {
            (Ok(tables), Ok(index)) => Ok(SnapshotBuilder { tables, index }),
            (Ok(tables), Err(refused)) => {
                drop(tables);
                Err(refused)
            }
            (Err(refused), Ok(index)) => {
                drop(index);
                Err(refused)
            }
            (Err(refused), Err(_)) => Err(refused),
        }
    }

    /// Returns the snapshot of the trace.
    ///
    /// # Errors
    /// `NoMemory` if an allocation fails.
    pub fn into_snapshot(self) -> Result<Snapshot, NoMemory>
        ensures { IfOk result (λ snapshot. snapshot ≡ self) }
    {
        let SnapshotBuilder { tables, index } = self;
        match tables.into_parts() {
            Ok(parts) => Ok(Snapshot::of(index, parts)),
            Err(refused) => {
                drop(index);
                Err(refused)
            }
        }
    }
}
