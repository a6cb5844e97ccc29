//! One more event, for each of the tables.

ghost use Rattle.std.specs.Prelude.{◌≡◌, ℕ, ◌++◌, ◌∷◌, [], length, OnOk};
ghost use Rattle.trace_model.specs.declared.traces.event.Op.TheVariants.{Acquire};
ghost use Rattle.trace_model.specs.Theory.Trace.{Trace};
ghost use Rattle.held_sets.specs.Tables as Held;
ghost use Rattle.dependencies.specs.Tables.{HasDependenciesOf, AllBelow};
ghost use Rattle.lock_tables.specs.Tables.{HasEntryFor, HasPlaceFor};

use dependencies::laws::tables_follow;
use dependencies::{DepTable, next_dependency};
use held_sets::HeldTable;
use held_sets::laws::held_follows;
use trace_model::{Event, NoMemory, Op, Place};

/// Reserves an entry for the thread of the event, if it acquires a lock.
pub(crate) fn reserve_locks(held: &mut HeldTable, event: &Event) -> Result<(), NoMemory>
    ensures shown { (t : ℕ) → Held.holding_in held.new t ≡ Held.holding_in held.old t }
    ensures ok { OnOk result (HasEntryFor held.new event.now) }
{
    match event.op {
        Op::Acquire(lock) => held.reserve(event.thread, lock),
        _ => Ok(()),
    }
}

/// Reserves memory for the place of the event, if it has a dependency.
pub(crate) fn reserve_place(
    table: &mut DepTable,
    held: &HeldTable,
    event: &Event,
    place: Place,
) -> Result<(), NoMemory>
    ensures shown { table.new.shown ≡ table.old.shown }
    ensures ok { OnOk result (HasPlaceFor table.new held.now event.now) }
{
    match next_dependency(held, *event) {
        Some(dependency) => table.reserve(place, &dependency),
        None => Ok(()),
    }
}

/// Records the place of the event, if it has a dependency.
pub(crate) fn record_place(table: &mut DepTable, held: &HeldTable, event: &Event, place: Place)
    requires room { HasPlaceFor table.old held.now event.now }
    requires below { AllBelow table.old place }
    ensures { (s : Trace) → place ≡ length s → Held.HasHeldSetsOf held.now s (length s) →
        HasDependenciesOf table.old s (length s)
        → HasDependenciesOf table.new (s ++ event.now ∷ []) (length (s ++ event.now ∷ [])) }
{
    tables_follow(); // for the proof
    if let Some(dependency) = next_dependency(held, *event) {
        table.record(place, &dependency);
    }
}

/// Records the event in the held locks.
pub(crate) fn record_locks(held: &mut HeldTable, event: &Event)
    requires entry { HasEntryFor held.old event.now }
    requires fits { (lock : ℕ) → event.now.op ≡ Acquire lock →
        Held.Fits held.old event.now.thread lock }
    ensures { (s : Trace) → Held.HasHeldSetsOf held.old s (length s) →
        Held.HasHeldSetsOf held.new (s ++ event.now ∷ []) (length (s ++ event.now ∷ [])) }
{
    held_follows(); // for the proof
    match event.op {
        Op::Acquire(lock) => held.record(event.thread, lock),
        Op::Release(lock) => held.release(event.thread, lock),
        _ => {}
    }
}

/// Notes the place of the event, if it has a dependency.
#[inline(always)]
pub(crate) fn note_place(
    table: &mut DepTable,
    held: &HeldTable,
    event: &Event,
    place: Place,
) -> Result<(), NoMemory>
    requires { AllBelow table.old place }
    ensures { OnOk result ((s : Trace) → place ≡ length s →
        Held.HasHeldSetsOf held.now s (length s) → HasDependenciesOf table.old s (length s) →
        HasDependenciesOf table.new (s ++ event.now ∷ []) (length (s ++ event.now ∷ []))) }
{
    tables_follow(); // for the proof
    if let Some(dependency) = next_dependency(held, *event) {
        table.note(place, &dependency)?;
    }
    Ok(())
}

/// Records the event in the held locks, and allocates memory for it.
#[inline(always)]
pub(crate) fn append_locks(held: &mut HeldTable, event: &Event) -> Result<(), NoMemory>
    requires { (lock : ℕ) → event.now.op ≡ Acquire lock →
        Held.Fits held.old event.now.thread lock }
    ensures { OnOk result ((s : Trace) → Held.HasHeldSetsOf held.old s (length s) →
        Held.HasHeldSetsOf held.new (s ++ event.now ∷ []) (length (s ++ event.now ∷ []))) }
{
    held_follows(); // for the proof
    match event.op {
        Op::Acquire(lock) => held.acquire(event.thread, lock)?,
        Op::Release(lock) => held.release(event.thread, lock),
        _ => {}
    }
    Ok(())
}
