//! Hash maps to the last visited place of a kind.

ghost use Rattle.std.specs.Prelude.{◌≡◌, ◌==◌, ℕ, nat_eq, OnOk, Some, if◌then◌else◌};
ghost use Rattle.std.specs.HashMap.{get};
ghost use Rattle.trace_model.specs.declared.traces.event.Op.{Op};
ghost use Rattle.trace_model.specs.declared.traces.event.Op.TheVariants.{Fork, Write};
ghost use Rattle.replay.specs.Walking.{entry_after, noted_begun};

use std::collections::HashMap;
use std::collections::hash_map::RandomState;
use trace_model::{NoMemory, Op, Place};

/// The last visited place for each key.
pub(crate) type LastPlaces = HashMap<u32, Place, RandomState>;

/// Sets the last place of a thread.
pub(crate) fn note_thread(lasts: &mut LastPlaces, thread: u32, place: Place) -> Result<(), NoMemory>
    ensures { OnOk result ((key : ℕ) →
        get nat_eq lasts.new key ≡
        (if thread == key then Some place else get nat_eq lasts.old key)) }
{
    lasts.insert(thread, place)?;
    Ok(())
}

/// Sets the last fork of a thread, if the operation is a fork.
pub(crate) fn note_fork(forks: &mut LastPlaces, op: Op, place: Place) -> Result<(), NoMemory>
    ensures { OnOk result ((key : ℕ) →
        get nat_eq forks.new key ≡ entry_after Fork op place key (get nat_eq forks.old key)) }
{
    if let Op::Fork(thread) = op {
        forks.insert(thread, place)?;
    }
    Ok(())
}

/// Sets the last write to a variable, if the operation is a write.
pub(crate) fn note_write(writes: &mut LastPlaces, op: Op, place: Place) -> Result<(), NoMemory>
    ensures { OnOk result ((key : ℕ) →
        get nat_eq writes.new key ≡ entry_after Write op place key (get nat_eq writes.old key)) }
{
    if let Op::Write(variable) = op {
        writes.insert(variable, place)?;
    }
    Ok(())
}

/// Sets the last outermost acquire of a lock, if a section begins at the place.
pub(crate) fn note_begun(
    acquires: &mut LastPlaces,
    begun: Option<u32>,
    place: Place,
) -> Result<(), NoMemory>
    ensures { OnOk result ((key : ℕ) →
        get nat_eq acquires.new key ≡ noted_begun begun place key (get nat_eq acquires.old key)) }
{
    if let Some(lock) = begun {
        acquires.insert(lock, place)?;
    }
    Ok(())
}

/// Returns the last place of the key, or `None` if there is none.
pub(crate) fn last(table: &LastPlaces, key: u32) -> Option<Place>
    ensures { result ≡ get nat_eq table.now key }
{
    table.get(&key).copied()
}
