//! The tests of the reasons of a derivation.

ghost use Rattle.std.specs.Prelude.{◌≡◌, ℕ, ◌<◌, ◌↔◌, List, length, slice_get, true, IsTrue, Some, MatchOption};
ghost use Rattle.std.specs.List.{Contains};
ghost use Rattle.trace_model.specs.declared.traces.event.Op.TheVariants.{Fork};
ghost use Rattle.trace_model.specs.Theory.Trace.{Trace, EarlierInThread};
ghost use Rattle.trace_model.specs.Theory.Lookups.{release};
ghost use Rattle.trace_model.specs.Theory.Reordering.{ForkOrJoin};
ghost use Rattle.trace_model.specs.Theory.Refutation.{BeginOnOneLock, Justifies, IsDerivation, derived_places};
ghost use Rattle.replay.specs.Facts.{AreFacts};
ghost use Rattle.replay.specs.Refuting.{AreMarksOf, IsUnmarked, IsUnjustified};

use crate::facts::Facts;
use trace_model::{Derived, Event, Op, Place, Reason};

/// Returns the event at the place, or `None` if the place is not in the trace.
fn event_at(trace: &[Event], place: Place) -> Option<Event>
    ensures { result ≡ slice_get trace.now place }
{
    trace.get(place.get() as usize).copied()
}

/// Returns whether the first place is earlier in the thread of the second.
fn is_earlier(trace: &[Event], place: Place, later: Place) -> bool
    ensures { IsTrue result ↔ EarlierInThread trace.now place later }
{
    let Some(first) = event_at(trace, place) else {
        return false;
    };
    let Some(second) = event_at(trace, later) else {
        return false;
    };
    first.thread == second.thread && place.get() < later.get()
}

/// Returns whether the operation is the fork of the thread.
fn is_fork_of(op: Op, thread: u32) -> bool
    ensures { IsTrue result ↔ (op ≡ Fork thread) }
{
    match op {
        Op::Fork(forked) => forked == thread,
        _ => false,
    }
}

/// Returns whether the second place requires the first: as its fork, or as the fork or a place of
/// the thread that it joins.
fn is_fork_or_join(trace: &[Event], place: Place, later: Place) -> bool
    ensures { IsTrue result ↔ ForkOrJoin trace.now place later }
{
    let Some(first) = event_at(trace, place) else {
        return false;
    };
    let Some(second) = event_at(trace, later) else {
        return false;
    };
    if is_fork_of(first.op, second.thread) {
        return true;
    }
    match second.op {
        Op::Join(thread) => is_fork_of(first.op, thread) || first.thread == thread,
        _ => false,
    }
}

/// Returns whether the entry of the place `at` in the table is `place`.
fn has_entry(table: &[Option<Place>], at: Place, place: Place) -> bool
    ensures { IsTrue result ↔ (slice_get table.now at ≡ Some (Some place)) }
{
    match table.get(at.get() as usize) {
        Some(Some(entry)) => *entry == place,
        _ => false,
    }
}

/// Returns whether critical sections on one lock begin at both places.
fn begin_on_one_lock(begins: &[Option<u32>], first: Place, second: Place) -> bool
    ensures { IsTrue result ↔ ((l : ℕ) × (slice_get begins.now first ≡ Some (Some l))
        × (slice_get begins.now second ≡ Some (Some l))) }
{
    let Some(Some(lock)) = begins.get(first.get() as usize) else {
        return false;
    };
    let Some(Some(other)) = begins.get(second.get() as usize) else {
        return false;
    };
    *lock == *other
}

/// Returns whether the place is one of these.
fn has_place(places: &[Place], place: Place) -> bool
    ensures { IsTrue result ↔ Contains places.now place }
{
    for other in places {
        if *other == place {
            return true;
        }
    }
    false
}

/// Returns whether the place is marked.
fn is_marked(marks: &[bool], place: Place) -> bool
    ensures { IsTrue result ↔ (slice_get marks.now place ≡ Some true) }
{
    match marks.get(place.get() as usize) {
        Some(marked) => *marked,
        None => false,
    }
}

/// Returns whether critical sections on one lock begin at the first place and at the second, later
/// one, and the place is the release of the first.
fn ends_first(facts: &Facts, first: Place, second: Place, place: Place) -> bool
    ensures { (s : Trace) → AreFacts s facts.now → first < length s → second < length s →
        IsTrue result ↔ ((first < second) × BeginOnOneLock s first second
        × (release s first ≡ Some place)) }
{
    if first.get() >= second.get() {
        return false;
    }
    if !begin_on_one_lock(&facts.begins, first, second) {
        return false;
    }
    has_entry(&facts.releases, first, place)
}

/// Returns whether the reason of the entry holds. The earlier places of the derivation are marked.
fn is_justified(
    trace: &[Event],
    facts: &Facts,
    places: &[Place],
    marks: &[bool],
    entry: &Derived,
) -> bool
    requires facts { AreFacts trace.now facts.now }
    requires sized { length marks.now ≡ length trace.now }
    ensures { (derived : List ℕ) → AreMarksOf marks.now derived →
        IsTrue result ↔ Justifies trace.now places.now derived entry.now.reason entry.now.place }
{
    let place = entry.place;
    match entry.reason {
        Reason::BeforeMember(member) => {
            has_place(places, member) && is_earlier(trace, place, member)
        }
        Reason::ThreadOrder(later) => { is_marked(marks, later) && is_earlier(trace, place, later) }
        Reason::ForkJoin(later) => {
            is_marked(marks, later) && is_fork_or_join(trace, place, later)
        }
        Reason::ReadsFrom(read) => {
            is_marked(marks, read) && has_entry(&facts.writers, read, place)
        }
        Reason::Sections(first, second) => {
            is_marked(marks, first)
                && is_marked(marks, second)
                && ends_first(facts, first, second, place)
        }
    }
}

/// Marks the places of the entries, in order, and returns the first entry whose reason does not
/// hold, or `None`. No place may be marked before.
pub(crate) fn first_unjustified(
    trace: &[Event],
    facts: &Facts,
    places: &[Place],
    entries: &[Derived],
    marks: &mut Vec<bool>,
) -> Option<Derived>
    requires facts { AreFacts trace.now facts.now }
    requires sized { length marks.old.items ≡ length trace.now }
    requires unmarked { IsUnmarked marks.old.items }
    ensures sized { length marks.new.items ≡ length trace.now }
    ensures first { MatchOption result
        (IsDerivation trace.now places.now entries.now
        × AreMarksOf marks.new.items (derived_places entries.now))
        (IsUnjustified trace.now places.now entries.now) }
{
    for entry in entries {
        if !is_justified(trace, facts, places, marks, entry) {
            return Some(*entry);
        }
        marks[entry.place.get() as usize] = true;
    }
    None
}

/// Removes the marks, which are those of the places of the entries.
pub(crate) fn unmark(marks: &mut Vec<bool>, entries: &[Derived])
    requires { AreMarksOf marks.old.items (derived_places entries.now) }
    ensures sized { length marks.new.items ≡ length marks.old.items }
    ensures unmarked { IsUnmarked marks.new.items }
{
    for entry in entries {
        marks[entry.place.get() as usize] = false;
    }
}
