//! Tests of the tables of a trace: its dependencies with their places, and its index.

ghost use Rattle.std.specs.Prelude.{length, IfOk};
ghost use Rattle.trace_model.specs.Theory.Lawful.{IsWellFormed};
ghost use Rattle.dependencies.specs.Tables.{HasDependenciesOf};

use crate::fixtures::{OPPOSITE_ORDERS, rounds};
use crate::traces::gate_of;
use dependencies::{DepTable, PlacesOf};
use lock_tables::{LockParts, LockTables};
use std::alloc::Global;
use std::hash::RandomState;
use std::process::Abort;
use std::test::*;
use trace_index::{KeyPlaces, TraceIndex};
use trace_model::{Event, NoMemory, Op, Place};

/// Returns the dependencies of these events.
pub(crate) fn table_of(
    alloc: Global,
    state: RandomState,
    events: &[Event],
) -> Result<DepTable, NoMemory>
    requires { IsWellFormed events.now }
    ensures { IfOk result (λ table. HasDependenciesOf table events.now (length events.now)) }
{
    let tables = LockTables::of(alloc, state, events)?;
    let LockParts {
        dependencies,
        graph,
    } = tables.into_parts()?;
    drop(graph);
    Ok(dependencies)
}

/// Returns the dependencies of the events of `text`.
pub(crate) fn table_of_text(rt: &HostRuntime, text: &[u8]) -> Option<DepTable> {
    let state = RandomState::new(rt).ok()?;
    let gate = gate_of(rt, text)?;
    let table = table_of(rt.alloc(), state, gate.events());
    drop(gate);
    table.ok()
}

/// The thread, the lock and the held locks of a dependency.
type Wanted = (u32, u32, &'static [u32]);

/// Asserts that these are exactly the dependencies of the table.
fn lists(rt: &impl Abort, case: &str, table: &DepTable, wanted: &[Wanted]) {
    assert_eq!(rt; table.len(), wanted.len(), "{case}");
    for number in 0..table.len() {
        let found = table.get(number as u32);
        let row = (found.thread, found.lock, found.held.locks());
        assert_eq!(rt; row, wanted[number], "{case}, dependency {number}");
    }
}

/// Traces with their dependencies: two threads nest two locks in opposite orders, alone or while
/// each of them holds a third lock.
const TABLES: [(&str, &str, &[Wanted]); 2] = [
    (
        "two locks",
        OPPOSITE_ORDERS,
        &[(1, 20, &[10]), (2, 10, &[20])],
    ),
    (
        "a third lock",
        "0f1 0f2 1a5 1a10 1a20 1r20 1r10 1r5 2a5 2a20 2a10 2r10 2r20 2r5",
        &[
            (1, 10, &[5]),
            (1, 20, &[5, 10]),
            (2, 20, &[5]),
            (2, 10, &[5, 20]),
        ],
    ),
];

#[test]
fn dependencies_of_traces(rt: HostRuntime) -> Result<(), Fail> {
    for (case, text, wanted) in TABLES {
        let table = table_of_text(&rt, text.as_bytes()).ok_or(case)?;
        lists(&rt, case, &table, wanted);
        drop(table);
    }
    Ok(())
}

/// Asserts that these are the 200 places `first`, `first + 8` and so on, read one by one and
/// copied.
fn are_every_eighth(rt: &impl Abort, places: PlacesOf<'_>, first: u32, copy: &mut Vec<Place>) {
    assert_eq!(rt; places.len(), 200);
    assert_eq!(rt; places.copy_to(copy).is_ok(), true);
    assert_eq!(rt; copy.len(), 200);
    for index in 0..200u32 {
        let wanted = u64::from(first) + 8 * u64::from(index);
        let place = places.get(index as usize).get();
        assert_eq!(rt; u64::from(place), wanted, "place {index}");
        assert_eq!(rt;
            u64::from(copy[index as usize].get()),
            wanted,
            "copied place {index}"
        );
    }
}

/// Asserts that both dependencies are at 200 places.
fn repeats(rt: &impl Abort, alloc: Global, table: &DepTable) {
    assert_eq!(rt; table.len(), 2);
    let mut copy = Vec::new(alloc);
    are_every_eighth(rt, table.places(0), 3, &mut copy);
    are_every_eighth(rt, table.places(1), 7, &mut copy);
    drop(copy);
}

#[test]
fn places_of_two_hundred_repetitions(rt: HostRuntime) -> Result<(), Fail> {
    let text = rounds(rt.alloc(), 200)?;
    let table = table_of_text(&rt, &text).ok_or("a table")?;
    drop(text);
    repeats(&rt, rt.alloc(), &table);
    drop(table);
    Ok(())
}

/// Returns the index of the events of `text`.
pub(crate) fn index_of_text(rt: &HostRuntime, text: &str) -> Option<TraceIndex> {
    let state = RandomState::new(rt).ok()?;
    let gate = gate_of(rt, text.as_bytes())?;
    let index = TraceIndex::build(rt.alloc(), state, gate.events());
    drop(gate);
    index.ok()
}

/// Two threads nest two locks in opposite orders, with a write and a read between them, and the
/// first thread then nests them once more.
pub(crate) const LATER_INSTANCE: &str =
    "0f1 0f2 1a10 1a20 1r20 1r10 1w7 2d7 2a20 2a10 2r10 2r20 1a10 1a20";

/// Asserts that these are exactly the wanted places, in order.
fn are_places(rt: &impl Abort, case: &str, places: KeyPlaces<'_>, wanted: &[u32]) {
    assert_eq!(rt; places.len(), wanted.len(), "{case}");
    for index in 0..places.len() {
        assert_eq!(rt;
            places.get(index).get(),
            wanted[index],
            "{case}, number {index}"
        );
    }
}

/// Asserts the look-ups of single places in the trace `LATER_INSTANCE`.
fn has_links(rt: &impl Abort, index: &TraceIndex) {
    let event = Event {
        thread: 1,
        op: Op::Write(7),
    };
    assert_eq!(rt; index.event(Place::new(6)), Some(event));
    assert_eq!(rt;
        index.writer(Place::new(7)),
        Some(Place::new(6)),
        "the write that 7 reads"
    );
    for (acquire, release) in [(2, Some(5)), (8, Some(11)), (13, None)] {
        let found = index.release_of(Place::new(acquire));
        assert_eq!(rt; found, release.map(Place::new), "the release of {acquire}");
    }
    for (thread, fork) in [(2, Some(1)), (0, None)] {
        assert_eq!(rt;
            index.fork_of(thread),
            fork.map(Place::new),
            "the fork of {thread}"
        );
    }
}

/// Asserts the look-ups of lists of places in the trace `LATER_INSTANCE`.
fn has_lists(rt: &impl Abort, index: &TraceIndex) {
    are_places(rt, "acquires of 10", index.acquires(10), &[2, 9, 12]);
    let places = index.thread_places(1);
    are_places(rt, "thread 1", places, &[2, 3, 4, 5, 6, 12, 13]);
    are_places(rt, "thread 3", index.thread_places(3), &[]);
}

#[test]
fn look_ups_of_an_index(rt: HostRuntime) {
    let index = index_of_text(&rt, LATER_INSTANCE).expect(&rt, "an index");
    has_links(&rt, &index);
    has_lists(&rt, &index);
    drop(index);
}
