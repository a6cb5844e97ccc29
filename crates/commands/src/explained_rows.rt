//! Compares the rows of explained cycles with the dependencies of a trace.
ghost use Rattle.std.specs.Prelude.{◌≡◌, ℕ, ◌<◌, ◌≤◌, ◌↔◌, length, slice_get, Some, Contains, IsTrue, MatchOption};
ghost use Rattle.trace_model.specs.declared.limits.TheConstants.{MAX_MEMBERS};
ghost use Rattle.trace_model.specs.Theory.Trace.{Trace};
ghost use Rattle.trace_model.specs.Theory.Cycles.{IsCycle};
ghost use Rattle.dependencies.specs.Tables.{HasDependenciesOf, table_dependencies, dependency_places};
ghost use Rattle.event_files.specs.ExplainedText.{IsStatedCycle, stated_member, stated_cycle};
ghost use Rattle.commands.specs.ExplainedRows.{AreDistinctMembers, FailsFirst, FitsAt, HasPlaceAt, HoldsAtEach, IsApart, IsDependencyNumber, IsLinked, IsPlaced, IsRowFault, IsRowOf, States, stated_dependency};

use dependencies::laws::tables_follow;
use dependencies::{DepTable, Dependency, PlacesOf};
use event_files::{Explained, ExplainedMember};
use trace_model::Place;

/// Why a row is not one of the trace. The tests are made in this order.
#[derive(Clone, Copy, Debug, PartialEq, Eq)]
pub enum RowFault {
    /// The trace has no dependency with this number.
    UnknownNumber(u32),
    /// The line of this member does not state its dependency.
    OtherMember(u32),
    /// The numbers are not a cycle.
    NoCycle,
    /// This place of a confirmed cycle is not one of its member's dependency.
    OtherPlace(Place),
}

/// Returns the first number that is not that of a dependency.
fn unknown_number(table: &DepTable, numbers: &[u32]) -> Option<u32>
    ensures { MatchOption result (HoldsAtEach numbers.now (IsDependencyNumber
        (table_dependencies table.now)))
        (λ m. (i : ℕ)
        × FailsFirst numbers.now (IsDependencyNumber (table_dependencies table.now)) i m) }
{
    for number in numbers {
        if *number as usize >= table.len() {
            return Some(*number);
        }
    }
    None
}

/// Returns whether the line of the member states the dependency.
fn states(member: &ExplainedMember, dependency: &Dependency) -> bool
    ensures { IsTrue result ↔ (stated_dependency (stated_member member.now) ≡ dependency.now) }
{
    member.thread == dependency.thread
        && member.lock == dependency.lock
        && member.held.as_slice() == dependency.held.locks()
}

/// Returns the first number whose member's line does not state its dependency.
fn other_member(table: &DepTable, explained: &Explained) -> Option<u32>
    requires row { IsStatedCycle (stated_cycle explained.now) }
    requires known { HoldsAtEach explained.now.cycle (IsDependencyNumber
        (table_dependencies table.now)) }
    ensures { MatchOption result
        (HoldsAtEach explained.now.cycle (States (table_dependencies table.now)
        (stated_cycle explained.now)))
        (λ m. (i : ℕ) ×
        FailsFirst explained.now.cycle (States (table_dependencies table.now)
        (stated_cycle explained.now)) i m) }
{
    let numbers = explained.cycle.numbers();
    let members = explained.members.as_slice();
    for index in 0..numbers.len() {
        let number = numbers[index];
        if !states(&members[index], table.get(number)) {
            return Some(number);
        }
    }
    None
}

/// Returns whether two members of a cycle have different threads and locks, and no held lock in
/// common.
fn are_apart(first: &Dependency, second: &Dependency) -> bool
    ensures { IsTrue result ↔ AreDistinctMembers first.now second.now }
{
    if first.thread == second.thread || first.lock == second.lock {
        return false;
    }
    first.held.is_disjoint(&second.held)
}

/// Returns whether the member with this index is apart from each earlier one.
fn is_apart(table: &DepTable, numbers: &[u32], index: usize) -> bool
    requires known { HoldsAtEach numbers.now (IsDependencyNumber (table_dependencies table.now)) }
    requires within { index < length numbers.now }
    ensures { IsTrue result ↔ IsApart (table_dependencies table.now) numbers.now index }
{
    let member = table.get(numbers[index]);
    for earlier in 0..index {
        if !are_apart(table.get(numbers[earlier]), member) {
            return false;
        }
    }
    true
}

/// Returns whether the next member of the cycle holds the lock of the member with this index.
fn is_linked(table: &DepTable, numbers: &[u32], index: usize) -> bool
    requires known { HoldsAtEach numbers.now (IsDependencyNumber (table_dependencies table.now)) }
    requires within { index < length numbers.now }
    ensures { IsTrue result ↔ IsLinked (table_dependencies table.now) numbers.now index }
{
    let next = if index + 1 == numbers.len() {
        0
    } else {
        index + 1
    };
    let lock = table.get(numbers[index]).lock;
    table.get(numbers[next]).held.contains(lock)
}

/// Returns whether the member with this index fits into the cycle.
fn fits(table: &DepTable, numbers: &[u32], index: usize) -> bool
    requires known { HoldsAtEach numbers.now (IsDependencyNumber (table_dependencies table.now)) }
    requires within { index < length numbers.now }
    ensures { IsTrue result ↔ FitsAt (table_dependencies table.now) numbers.now index }
{
    if numbers[index] < numbers[0] {
        return false;
    }
    if !is_linked(table, numbers, index) {
        return false;
    }
    is_apart(table, numbers, index)
}

/// Returns whether the numbers are a cycle.
fn is_cycle(table: &DepTable, numbers: &[u32]) -> bool
    requires known { HoldsAtEach numbers.now (IsDependencyNumber (table_dependencies table.now)) }
    requires some { 2 ≤ length numbers.now }
    requires few { length numbers.now ≤ MAX_MEMBERS }
    ensures { IsTrue result ↔ IsCycle (table_dependencies table.now) MAX_MEMBERS numbers.now }
{
    for index in 0..numbers.len() {
        if !fits(table, numbers, index) {
            return false;
        }
    }
    true
}

/// Returns whether the list contains the place, by binary search.
fn has_place(places: &PlacesOf<'_>, place: Place) -> bool
    ensures { IsTrue result ↔ Contains places.now place }
{
    let wanted = place.get();
    let mut low = 0usize;
    let mut high = places.len();
    while low < high {
        let middle = low + (high - low) / 2;
        let found = places.get(middle).get();
        if found == wanted {
            return true;
        }
        if found < wanted {
            low = middle + 1;
        } else {
            high = middle;
        }
    }
    false
}

/// Returns the first place of the members that is not one of its dependency.
fn other_place(table: &DepTable, explained: &Explained) -> Option<Place>
    requires row { IsStatedCycle (stated_cycle explained.now) }
    requires known { HoldsAtEach explained.now.cycle (IsDependencyNumber
        (table_dependencies table.now)) }
    ensures { (s : Trace) → HasDependenciesOf table.now s (length s) → MatchOption result
        (HoldsAtEach explained.now.cycle (IsPlaced s (stated_cycle explained.now)))
        (λ p. (i m : ℕ) × HasPlaceAt (stated_cycle explained.now) i p ×
        FailsFirst explained.now.cycle (IsPlaced s (stated_cycle explained.now)) i m) }
{
    tables_follow(); // for the proof
    let numbers = explained.cycle.numbers();
    let members = explained.members.as_slice();
    for index in 0..numbers.len() {
        let member = &members[index];
        match member.place {
            Some(place) => {
                if !has_place(&table.places(numbers[index]), place) {
                    return Some(place);
                }
            }
            None => {}
        }
    }
    None
}

/// Returns the first test that fails: each number is that of a dependency, which the line of its
/// member states, the numbers are a cycle, and each place of a member is one of its dependency.
///
/// The caller passes the table of a whole trace.
pub(crate) fn row_fault(table: &DepTable, explained: &Explained) -> Option<RowFault>
    requires { IsStatedCycle (stated_cycle explained.now) }
    ensures { (s : Trace) → HasDependenciesOf table.now s (length s) → MatchOption result
        (IsRowOf s (stated_cycle explained.now)) (IsRowFault s (stated_cycle explained.now)) }
{
    let numbers = explained.cycle.numbers();
    if let Some(number) = unknown_number(table, numbers) {
        return Some(RowFault::UnknownNumber(number));
    }
    if let Some(number) = other_member(table, explained) {
        return Some(RowFault::OtherMember(number));
    }
    if !is_cycle(table, numbers) {
        return Some(RowFault::NoCycle);
    }
    match other_place(table, explained) {
        Some(place) => Some(RowFault::OtherPlace(place)),
        None => None,
    }
}
