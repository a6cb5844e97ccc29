//! The number of the dependency of each place.

ghost use Rattle.std.specs.Prelude.{◌≡◌, ℕ, ◌≤◌, suc, length, None, Some, IfOk, OnOk, MatchOption};
ghost use Rattle.trace_model.specs.declared.traces.event.Op.TheVariants.{Acquire};
ghost use Rattle.trace_model.specs.declared.limits.TheConstants.{MAX_EVENTS};
ghost use Rattle.trace_model.specs.Theory.Trace.{Trace, At};
ghost use Rattle.trace_model.specs.Theory.Dependencies.{Dependency as Triple};
ghost use Rattle.trace_model.specs.Theory.Lawful.{IsWellFormed};
ghost use Rattle.held_sets.specs.Tables as Held;
ghost use Rattle.dependencies.specs.Tables.{AllBelow, IsNoted, next_of};
ghost use Rattle.replay.specs.Numbers.{AreNumbersByPlace, IsFirstWith};

use dependencies::laws::tables_follow;
use dependencies::{DepTable, next_dependency};
use held_sets::HeldTable;
use held_sets::laws::{acquires_fit, held_follows};
use std::alloc::Global;
use std::collections::hash_map::RandomState;
use trace_model::{Event, NoMemory, Op, Place};

/// Adds the place of the event, if it has a dependency, and returns the number of the dependency.
///
/// # Errors
/// `NoMemory` if an allocation fails.
fn note_place(
    table: &mut DepTable,
    held: &HeldTable,
    event: Event,
    place: Place,
) -> Result<Option<u32>, NoMemory>
    requires { AllBelow table.old place }
    ensures { IfOk result (λ number. MatchOption number
        ((next_of held.now event ≡ None) × (table.new.shown ≡ table.old.shown))
        (λ m. (d : Triple) × (next_of held.now event ≡ Some d)
        × IsNoted table.old place d m table.new)) }
{
    match next_dependency(held, event) {
        Some(dependency) => {
            let number = table.note(place, &dependency)?;
            Ok(Some(number))
        }
        None => Ok(None),
    }
}

/// Updates the held locks after the event.
///
/// # Errors
/// `NoMemory` if an allocation fails.
fn note_locks(held: &mut HeldTable, event: Event) -> Result<(), NoMemory>
    requires { (lock : ℕ) → event.op ≡ Acquire lock → Held.Fits held.old event.thread lock }
    ensures { OnOk result ((s : Trace) (n : ℕ) → Held.HasHeldSetsOf held.old s n → At s n event →
        Held.HasHeldSetsOf held.new s (suc n)) }
{
    held_follows(); // for the proof
    match event.op {
        Op::Acquire(lock) => held.acquire(event.thread, lock),
        Op::Release(lock) => {
            held.release(event.thread, lock);
            Ok(())
        }
        _ => Ok(()),
    }
}

/// Returns for each place the number of its dependency, or `None` if it has none.
///
/// # Errors
/// `NoMemory` if an allocation fails.
pub(crate) fn numbers_of(
    alloc: Global,
    state: RandomState,
    trace: &[Event],
) -> Result<Vec<Option<u32>>, NoMemory>
    requires { IsWellFormed trace.now }
    ensures numbers { IfOk result (λ made. AreNumbersByPlace trace.now made.items) }
    ensures sized { IfOk result (λ made. length made.items ≡ length trace.now) }
{
    tables_follow(); // for the proof
    acquires_fit(); // for the proof
    let mut held = HeldTable::new(alloc, state);
    let mut table = DepTable::new(alloc, state);
    let mut numbers = Vec::with_capacity(alloc, trace.len())?;
    for index in 0..trace.len() {
        let event = trace[index];
        let number = note_place(&mut table, &held, event, Place::new(index as u32))?;
        numbers.push_reserved(number);
        note_locks(&mut held, event)?;
    }
    Ok(numbers)
}

/// Returns the first place from `start` on whose dependency has this number, or `None`.
pub(crate) fn place_from(numbers: &[Option<u32>], number: u32, start: usize) -> Option<Place>
    requires { length numbers.now ≤ MAX_EVENTS }
    ensures { IsFirstWith numbers.now number start result }
{
    for index in start..numbers.len() {
        if numbers[index] == Some(number) {
            return Some(Place::new(index as u32));
        }
    }
    None
}
