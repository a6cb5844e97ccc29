//! Tests of public calls that no command makes: the least reached instance of a cycle, its witness,
//! the closure of places, and the test for inner acquires.

ghost use Rattle.std.specs.Prelude.{◌≡◌, ℕ, ◌<◌, length, IsTrue};
ghost use Rattle.std.specs.List.{Contains};
ghost use Rattle.trace_model.specs.Theory.Dependencies.{dependencies};
ghost use Rattle.trace_model.specs.Theory.Lawful.{IsWellFormed};
ghost use Rattle.dependencies.specs.Tables.{table_dependencies, HasDependenciesOf};

use crate::fixtures::OPPOSITE_ORDERS;
use crate::table_tests::{LATER_INSTANCE, index_of_text, table_of};
use crate::traces::gate_of;
use cycle_search::Cycle;
use dependencies::DepTable;
use sp_closure::{Steps, close, least_instance};
use std::alloc::Global;
use std::hash::RandomState;
use std::marker::Brand;
use std::process::Abort;
use std::sync::ledger::{Blank, Ledger};
use trace_index::TraceIndex;
use trace_model::{Event, Instance, NoMemory, Place};
use wellformed::flat;
use witness::write_witness;

/// An instance, and the places of its witness.
type Found = (Instance, Vec<Place>);

/// Returns whether each number is that of a dependency of the table.
fn are_known(table: &DepTable, numbers: &[u32]) -> bool
    ensures { IsTrue result → (m : ℕ) → Contains numbers.now m →
        m < length (table_dependencies table.now) }
{
    for number in numbers {
        if *number as usize >= table.len() {
            return false;
        }
    }
    true
}

/// Returns the least reached instance of the cycle, and its witness.
fn found_from<L: Ledger>(
    alloc: Global,
    index: &TraceIndex,
    table: &DepTable,
    cycle: &Cycle,
    blank: Blank,
) -> Result<Option<Found>, NoMemory>
    requires name { blank.name ≡ L.name }
    requires parts { blank.parts ≡ L.parts }
    requires some { 0 < L.parts }
    requires one_trace { HasDependenciesOf table.now index.now.events (length index.now.events) }
    requires known { (m : ℕ) → Contains cycle.now m →
        m < length (dependencies index.now.events) }
{
    let mut steps = Steps::<L>::new(blank);
    let least = least_instance(alloc, index, table, cycle, &mut steps);
    drop(steps);
    match least? {
        Some((places, fronts)) => {
            let witness = write_witness(alloc, index, &fronts);
            drop(fronts);
            Ok(Some((places, witness?)))
        }
        None => Ok(None),
    }
}

/// Returns what `found_from` returns for the cycle of the dependencies 0 and 1. Returns `None` if
/// an allocation fails, or there are fewer dependencies.
fn found_of(alloc: Global, index: &TraceIndex, table: &DepTable) -> Option<Option<Found>>
    requires { HasDependenciesOf table.now index.now.events (length index.now.events) }
{
    let cycle = Cycle::new(&[0, 1])?;
    if are_known(table, cycle.numbers()) {
        found_from::<Brand>(alloc, index, table, &cycle, Blank::new(1)).ok()
    } else {
        None
    }
}

/// Returns what `found_of` returns for these events and their dependencies.
fn found_over(
    alloc: Global,
    state: RandomState,
    events: &[Event],
    table: &DepTable,
) -> Option<Option<Found>>
    requires well_formed { IsWellFormed events.now }
    requires one_trace { HasDependenciesOf table.now events.now (length events.now) }
{
    match TraceIndex::build(alloc, state, events) {
        Ok(index) => {
            let found = found_of(alloc, &index, table);
            drop(index);
            found
        }
        Err(_) => None,
    }
}

/// Returns what `found_of` returns for the trace of these events.
fn found_in(alloc: Global, state: RandomState, events: &[Event]) -> Option<Option<Found>>
    requires { IsWellFormed events.now }
{
    match table_of(alloc, state, events) {
        Ok(table) => {
            let found = found_over(alloc, state, events, &table);
            drop(table);
            found
        }
        Err(_) => None,
    }
}

/// Asserts that these are exactly the wanted places, in order.
fn are_places(rt: &impl Abort, places: &[Place], wanted: &[u32]) {
    assert_eq!(rt; places.len(), wanted.len());
    for index in 0..wanted.len() {
        assert_eq!(rt; places[index].get(), wanted[index], "number {index}");
    }
}

/// Asserts that the instance is at these two places, and has this witness.
fn is_found(rt: &impl Abort, found: &Found, (first, second): (u32, u32), witness: &[u32]) {
    let (places, order) = found;
    let members = (places.len(), places.get(0), places.get(1));
    assert_eq!(rt;
        members,
        (2, Some(Place::new(first)), Some(Place::new(second)))
    );
    are_places(rt, order.as_slice(), witness);
}

/// Two threads nest two locks in opposite orders, with a write and a read between them.
const READ_NEEDS_EARLIER_SECTION: &str = "0f1 0f2 1a10 1a20 1r20 1r10 1w7 2d7 2a20 2a10";

/// Returns what `found_of` returns for the trace of this text.
fn found_in_text(rt: &HostRuntime, text: &str) -> Option<Option<Found>> {
    let state = RandomState::new(rt).ok()?;
    let gate = gate_of(rt, text.as_bytes())?;
    let found = found_in(rt.alloc(), state, gate.events());
    drop(gate);
    found
}

#[test]
fn least_instances(rt: HostRuntime) {
    let found = found_in_text(&rt, LATER_INSTANCE).expect(&rt, "an answer");
    let found = found.expect(&rt, "an instance");
    is_found(&rt, &found, (13, 9), &[0, 1, 2, 3, 4, 5, 6, 7, 8, 12]);
    let found = found_in_text(&rt, READ_NEEDS_EARLIER_SECTION).expect(&rt, "an answer");
    assert!(rt; found.is_none(), "a read needs the earlier section");
}

fn are_in_trace(index: &TraceIndex, places: &[Place]) -> bool
    ensures { IsTrue result → (p : ℕ) → Contains places.now p → p < length index.now.events }
{
    for place in places {
        if place.get() as usize >= index.len() {
            return false;
        }
    }
    true
}

/// Whether a closure has place 0, and its places, ascending.
type Closure = (bool, Vec<Place>);

/// Returns the closure of these places.
fn closure_from<L: Ledger>(
    alloc: Global,
    index: &TraceIndex,
    places: &[Place],
    blank: Blank,
) -> Result<Closure, NoMemory>
    requires name { blank.name ≡ L.name }
    requires parts { blank.parts ≡ L.parts }
    requires some { 0 < L.parts }
    requires in_trace { (p : ℕ) → Contains places.now p → p < length index.now.events }
{
    let mut steps = Steps::<L>::new(blank);
    let closed = close(alloc, index, places, &mut steps);
    drop(steps);
    let fronts = closed?;
    let has_start = fronts.has(Place::new(0));
    let witness = write_witness(alloc, index, &fronts);
    drop(fronts);
    Ok((has_start, witness?))
}

/// Returns what `closure_from` returns, or `None` if a place is not one of the trace.
fn closure_of(alloc: Global, index: &TraceIndex, places: &[Place]) -> Option<Closure> {
    if are_in_trace(index, places) {
        closure_from::<Brand>(alloc, index, places, Blank::new(1)).ok()
    } else {
        None
    }
}

#[test]
fn closure_of_two_places(rt: HostRuntime) {
    let index = index_of_text(&rt, OPPOSITE_ORDERS).expect(&rt, "an index");
    let closure = closure_of(rt.alloc(), &index, &[Place::new(3), Place::new(7)]);
    drop(index);
    let (has_start, places) = closure.expect(&rt, "a closure");
    assert!(rt; has_start, "the fork of thread 1");
    are_places(&rt, &places, &[0, 1, 2, 6]);
}

#[test]
fn flat_traces_have_no_inner_acquire(rt: HostRuntime) {
    for (text, wanted) in [(OPPOSITE_ORDERS, true), ("0a5 0a7 0w1 0a5 0r5 0r5", false)] {
        let gate = gate_of(&rt, text.as_bytes()).expect(&rt, "a gate");
        assert_eq!(rt; flat(gate.events()), wanted, "{text}");
        drop(gate);
    }
}
