//! The refutation of a cycle.

ghost use Rattle.std.specs.Prelude.{◌≡◌, ℕ, ◌<◌, ◌≤◌, suc, [], length, slice_get, vec_capacity, Some, None, IfOk, MatchOption};
ghost use Rattle.std.specs.List.{Contains};
ghost use Rattle.std.specs.List.Sorted.{IsStrictlyIncreasing};
ghost use Rattle.trace_model.specs.Theory.Cycles.{IsConfirmed};
ghost use Rattle.trace_model.specs.Theory.Dependencies.{dependencies};
ghost use Rattle.trace_model.specs.Theory.Reordering.{AreReached};
ghost use Rattle.trace_model.specs.Theory.Refutation.{Derives, IsRefutation};
ghost use Rattle.dependencies.specs.Tables.{table_dependencies, dependency_places, NumbersWholeTrace};
ghost use Rattle.explain.specs.Moving.{HaveFirst};

use crate::extract::derivation_of;
use crate::search::DerivationSearch;
use dependencies::DepTable;
use std::alloc::Global;
use trace_index::TraceIndex;
use trace_model::{Cycle, Derivation, NoMemory, Place, Refutation, RefutationStep};

/// Returns a refutation of the cycle exactly if the cycle is not confirmed, or `None` if some
/// reordering reaches an instance of it. The derivation of each step has the entries that its place
/// needs in a search. Allocates in proportion to the refutation. `search` serves all steps. It may
/// have searched before, also in another trace. It grows to the threads and locks that its searches
/// meet, and to the ranges of places and the entries of one search.
///
/// The caller passes the table of the dependencies of the index's trace, and numbers below its
/// length.
///
/// # Errors
/// `NoMemory` if an allocation fails.
pub fn refutation_of(
    alloc: Global,
    search: &mut DerivationSearch,
    index: &TraceIndex,
    table: &DepTable,
    cycle: &Cycle,
) -> Result<Option<Refutation>, NoMemory>
    requires one_trace { NumbersWholeTrace table.now index.now.events }
    requires known { (m : ℕ) → Contains cycle.now m →
        m < length (dependencies index.now.events) }
    ensures { IfOk result (λ answer. MatchOption answer
        (IsConfirmed index.now.events cycle.now)
        (IsRefutation index.now.events cycle.now)) }
{
    let members = cycle.numbers();
    let mut places = Vec::with_capacity(alloc, members.len())?;
    first_places(table, members, &mut places);
    let mut entries = vec![in alloc; 0; members.len()]?;
    let mut steps = Vec::new(alloc);
    for _count in 0..usize::MAX {
        let Some(step) = step_at(alloc, search, index, places.as_slice())? else {
            return Ok(None);
        };
        let member = step.member;
        steps.push(step)?;
        let Some(next) = place_after(table, members[member], entries[member]) else {
            return Ok(Some(Refutation { steps }));
        };
        places[member] = next.1;
        entries[member] = next.0;
    }
    Ok(None)
}

/// Adds the first place of each member's dependency to `places`.
fn first_places(table: &DepTable, members: &[u32], places: &mut Vec<Place>)
    requires empty { places.old.items ≡ [] }
    requires room { length members.now ≤ vec_capacity places.old }
    requires known { (i m : ℕ) → slice_get members.now i ≡ Some m →
        m < length (table_dependencies table.now) }
    requires some { (m : ℕ) → m < length (table_dependencies table.now) →
        0 < length (dependency_places table.now m) }
    ensures sized { length places.new.items ≡ length members.now }
    ensures first { HaveFirst table.now members.now places.new.items (length members.now) }
{
    for number in members {
        let list = table.places(*number);
        let _len = list.len(); // for the proof
        places.push_reserved(list.get(0));
    }
}

/// Returns the next entry of the places of the dependency with this number, and its place, or
/// `None`.
fn place_after(table: &DepTable, number: u32, entry: usize) -> Option<(usize, Place)>
    requires known { number < length (table_dependencies table.now) }
    requires entry { entry < length (dependency_places table.now number) }
    ensures next { MatchOption result (slice_get (dependency_places table.now number) (suc entry)
        ≡ None)
        (λ next. (next.0 ≡ suc entry)
        × (slice_get (dependency_places table.now number) (suc entry) ≡ Some next.1)) }
    ensures ascends { IsStrictlyIncreasing (dependency_places table.now number) }
{
    let places = table.places(number);
    let count = places.len();
    if entry + 1 < count {
        Some((entry + 1, places.get(entry + 1)))
    } else {
        None
    }
}

/// Returns a step that derives the present place of a member, or `None` if some reordering reaches
/// the places.
///
/// # Errors
/// `NoMemory` if an allocation fails.
fn step_at(
    alloc: Global,
    search: &mut DerivationSearch,
    index: &TraceIndex,
    places: &[Place],
) -> Result<Option<RefutationStep>, NoMemory>
    ensures { IfOk result (λ step. MatchOption step
        (AreReached index.now.events places.now)
        (Derives index.now.events places.now)) }
{
    let Some(member) = search.run(index, places)? else {
        return Ok(None);
    };
    let place = places[member];
    search.add_entry(index, place)?;
    let entries = derivation_of(alloc, search, place)?;
    Ok(Some(RefutationStep {
        member,
        derivation: Derivation { entries },
    }))
}
