//! Calls of public functions that no other test makes, each by the crate that must export it. The
//! answers are those for a few values, or for the trace of opposite orders. The tests do not
//! compile if a function moves or is renamed.

use crate::book_tests::{FIRST, FindingSource};
use crate::fixtures::{LIMIT, OPPOSITE_EVENTS, OPPOSITE_ORDERS, REPORT};
use crate::table_tests::table_of_text;
use crate::traces::gate_of;
use board::{BoardState, BoardWriter, HistoryId, new_board};
use cycle_search::{
    Components, SearchInput, SearchRefused, cycles_from, has_few_cycles, has_no_cycle,
};
use dependencies::{DepTable, Dependency};
use desk::{Desk, Locked};
use event_frames::{FrameReader, encode_reply};
use findings::{Analysis, Finding, Snapshot};
use fronts::Requirements;
use guards::compatible;
use held_sets::HeldTable;
use lock_graph::LockGraph;
use question_server::{Calls, Client, Ended, ServeFault, Sink, Source, offline, serve};
use replay::{Verdict, check};
use result_ledger::{Ledger, LedgerRefused};
use sequencer::{Batched, Book, NoSuchQuestion};
use std::alloc::Global;
use std::hash::RandomState;
use std::process::Abort;
use std::sync::atomic::AtomicBool;
use std::sync::ledger::Ledger as Count;
use std::sync::{Arc, Wait};
use std::test::*;
use std::thread::Threads;
use trace_index::TraceIndex;
use trace_model::{Bound, Cycle, Event, Instance, NoMemory, Place, Reply, Request};
use wellformed::Gate;
use witness::report_text;

/// Returns the bound of the next request if that is an ask.
fn next_ask(reader: &mut FrameReader) -> Option<u8> {
    match reader.next() {
        Ok(Some(Request::Ask(bound))) => Some(bound),
        _ => None,
    }
}

#[test]
fn frames(rt: HostRuntime) -> Result<(), Fail> {
    let mut reader = FrameReader::new(rt.alloc());
    reader.feed(&[0, 2, 7, 2])?;
    assert_eq!(rt; next_ask(&mut reader), Some(2), "an ask");
    reader.finish();
    assert_eq!(rt; next_ask(&mut reader), None, "the end");
    drop(reader);
    let frame = encode_reply(rt.alloc(), &Reply::Placed(Place::new(258)))?;
    assert_eq!(rt; frame.as_slice(), [0, 0, 0, 5, 65, 0, 0, 1, 2].as_slice());
    Ok(())
}

/// Acquires two locks in a new table, and releases the first. Asserts the held locks.
fn holds(rt: &impl Abort, table: &mut HeldTable) -> Result<(), Fail> {
    assert_eq!(rt; (table.held(1).locks().len(), table.depth(1, 10)), (0, 0));
    table.acquire(1, 10)?;
    table.reserve(1, 20)?;
    assert_eq!(rt; (table.held(1).locks().len(), table.depth(1, 20)), (1, 0));
    table.record(1, 20);
    assert_eq!(rt; table.held(1).locks(), [10, 20].as_slice());
    table.release(1, 10);
    assert_eq!(rt; table.held(1).locks(), [20].as_slice());
    assert_eq!(rt; (table.depth(1, 10), table.depth(1, 20)), (0, 1));
    Ok(())
}

#[test]
fn held_locks(rt: HostRuntime) -> Result<(), Fail> {
    let mut table = HeldTable::new(rt.alloc(), RandomState::new(&rt)?);
    let held = holds(&rt, &mut table);
    drop(table);
    held
}

/// Returns the dependency of thread 1, which acquires lock 20 while it holds lock 10.
fn dependency(alloc: Global, state: RandomState) -> Result<Dependency, Fail> {
    let mut table = HeldTable::new(alloc, state);
    let acquired = table.acquire(1, 10);
    let held = table.held(1);
    drop(table);
    acquired?;
    Ok(Dependency {
        thread: 1,
        lock: 20,
        held,
    })
}

#[test]
fn first_dependency(rt: HostRuntime) -> Result<(), Fail> {
    let state = RandomState::new(&rt)?;
    let mut table = DepTable::new(rt.alloc(), state);
    let number = table.note(Place::new(3), &dependency(rt.alloc(), state)?)?;
    assert_eq!(rt; number, 0);
    drop(table);
    Ok(())
}

/// Asserts the dependencies whose held locks have a lock, after one is added and one recorded.
fn lists_holders(
    rt: &impl Abort,
    graph: &mut LockGraph,
    dependency: &Dependency,
) -> Result<(), Fail> {
    graph.add(0, dependency)?;
    assert_eq!(rt; graph.successors(10), [0].as_slice());
    graph.reserve(1, dependency)?;
    graph.record(1, dependency);
    assert_eq!(rt; graph.successors(10), [0, 1].as_slice());
    assert_eq!(rt; graph.successors(20), [].as_slice());
    Ok(())
}

#[test]
fn graph_of_locks(rt: HostRuntime) -> Result<(), Fail> {
    let state = RandomState::new(&rt)?;
    let dependency = dependency(rt.alloc(), state)?;
    let mut graph = LockGraph::new(rt.alloc(), state);
    let listed = lists_holders(&rt, &mut graph, &dependency);
    drop(graph);
    drop(dependency);
    listed
}

#[test]
fn opposite_orders_are_compatible(rt: HostRuntime) -> Result<(), Fail> {
    let table = table_of_text(&rt, OPPOSITE_ORDERS.as_bytes()).ok_or("a table")?;
    assert_eq!(rt; table.len(), 2);
    assert!(rt;
        compatible(&table, &[0], 1),
        "two threads without a common lock"
    );
    assert!(rt; !compatible(&table, &[0], 0), "one thread");
    drop(table);
    Ok(())
}

#[test]
fn ledger_of_two_tasks(rt: HostRuntime) -> Result<(), Fail> {
    let mut ledger = Ledger::open(rt.alloc(), 2)?;
    assert_eq!(rt; (ledger.delivered(), ledger.missing()), (0, Some(0)));
    assert_eq!(rt; ledger.test(2), Err(LedgerRefused::NoSuchTask));
    assert!(rt; ledger.accept(0, Vec::new(rt.alloc())).is_ok());
    assert_eq!(rt; ledger.test(0), Err(LedgerRefused::Double));
    assert_eq!(rt; (ledger.delivered(), ledger.missing()), (1, Some(1)));
    assert!(rt; ledger.settled().is_none());
    drop(ledger);
    Ok(())
}

#[test]
fn report_of_no_cycle(rt: HostRuntime) -> Result<(), Fail> {
    let two = Bound::new(2).ok_or("a bound")?;
    let text = report_text(rt.alloc(), 0, 10, two, &[])?;
    let wanted = "question 0 length 10 bound 2 cycles 0 confirmed 0\n";
    assert_eq!(rt; str::from_utf8(&text).ok(), Some(wanted));
    Ok(())
}

#[test]
fn report_by_the_server(rt: HostRuntime) -> Result<(), Fail> {
    let two = Bound::new(2).ok_or("a bound")?;
    let events = Vec::from_slice(rt.alloc(), &OPPOSITE_EVENTS)?;
    let text = offline(&rt, rt.alloc(), RandomState::new(&rt)?, events, two)?;
    assert_eq!(rt; str::from_utf8(&text).ok(), Some(REPORT));
    Ok(())
}

#[test]
fn witness_of_opposite_orders(rt: HostRuntime) -> Result<(), Fail> {
    let instance = Instance::new(&[Place::new(3), Place::new(7)]).ok_or("an instance")?;
    let order = [Place::new(0), Place::new(1), Place::new(2), Place::new(6)];
    let state = RandomState::new(&rt)?;
    let gate = gate_of(&rt, OPPOSITE_ORDERS.as_bytes()).ok_or("a gate")?;
    let verdict = check(rt.alloc(), state, gate.events(), &order, &instance);
    drop(gate);
    drop(instance);
    assert_eq!(rt; verdict?, Verdict::Reaches);
    Ok(())
}

/// Returns the snapshot of the trace of opposite orders.
fn build_snapshot<R: Threads>(
    rt: &R,
    alloc: Global,
    state: RandomState,
    gate: &Gate,
) -> Result<Snapshot, NoMemory> {
    Snapshot::build(rt, alloc, state, gate.events())
}

#[test]
fn snapshot_of_opposite_orders(rt: HostRuntime) -> Result<(), Fail> {
    let gate = gate_of(&rt, OPPOSITE_ORDERS.as_bytes()).ok_or("a gate")?;
    let snapshot = build_snapshot(&rt, rt.alloc(), RandomState::new(&rt)?, &gate);
    drop(gate);
    let snapshot = snapshot?;
    assert_eq!(rt; (snapshot.len(), snapshot.tasks()), (10, 2));
    assert_eq!(rt; snapshot.event(Place::new(9)), Some(OPPOSITE_EVENTS[9]));
    drop(snapshot);
    Ok(())
}

/// Returns the cycles of at most two members from the first dependency.
fn cycles_from_first(alloc: Global, snapshot: &Snapshot) -> Result<Vec<Cycle>, SearchRefused> {
    let (table, graph) = (snapshot.table(), snapshot.graph());
    if table.len() == 0 {
        return Ok(Vec::new(alloc));
    }
    let components = Components::new(alloc, table, graph)?;
    let search_input = SearchInput::new(table, graph, &components);
    let cycles = cycles_from(alloc, &search_input, 0, Bound::least());
    drop(components);
    cycles
}

#[test]
fn cycle_of_opposite_orders(rt: HostRuntime) -> Result<(), Fail> {
    let gate = gate_of(&rt, OPPOSITE_ORDERS.as_bytes()).ok_or("a gate")?;
    let snapshot = build_snapshot(&rt, rt.alloc(), RandomState::new(&rt)?, &gate);
    drop(gate);
    let snapshot = snapshot?;
    let cycles = cycles_from_first(rt.alloc(), &snapshot);
    drop(snapshot);
    let cycles = cycles?;
    assert_eq!(rt; cycles.len(), 1);
    assert_eq!(rt; cycles[0].numbers(), [0, 1].as_slice());
    Ok(())
}

/// Opposite orders of locks 10 and 20 under the gate lock 30.
const GATED_ORDERS: &str = "0f1 0f2
1a30 1a10 1a20 1r20 1r10 1r30
2a30 2a20 2a10 2r10 2r20 2r30
";

/// Returns whether a search that visits at most `visits` members finds that there is no cycle, and
/// whether it finds at most `most`.
fn short_searches(
    alloc: Global,
    snapshot: &Snapshot,
    most: usize,
    visits: u64,
) -> Result<(bool, bool), NoMemory> {
    let (table, graph) = (snapshot.table(), snapshot.graph());
    let components = Components::new(alloc, table, graph)?;
    let search_input = SearchInput::new(table, graph, &components);
    let finds_none = has_no_cycle(alloc, &search_input, Bound::least(), visits);
    let finds_few = has_few_cycles(alloc, &search_input, Bound::least(), most, visits);
    drop(components);
    Ok((finds_none, finds_few))
}

/// Only the dependency of lock 20 in the first thread has a member to visit: that of lock 10 in the
/// second thread.
#[test]
fn no_cycle_of_gated_orders(rt: HostRuntime) -> Result<(), Fail> {
    let gate = gate_of(&rt, GATED_ORDERS.as_bytes()).ok_or("a gate")?;
    let snapshot = build_snapshot(&rt, rt.alloc(), RandomState::new(&rt)?, &gate);
    drop(gate);
    let snapshot = snapshot?;
    let without_visits = short_searches(rt.alloc(), &snapshot, 0, 0);
    let with_one = short_searches(rt.alloc(), &snapshot, 0, 1);
    drop(snapshot);
    assert_eq!(rt; without_visits?, (false, false), "no visit");
    assert_eq!(rt; with_one?, (true, true), "one visit");
    Ok(())
}

/// Opposite orders have one cycle. A search for it visits one member.
#[test]
fn few_cycles_of_opposite_orders(rt: HostRuntime) -> Result<(), Fail> {
    let gate = gate_of(&rt, OPPOSITE_ORDERS.as_bytes()).ok_or("a gate")?;
    let snapshot = build_snapshot(&rt, rt.alloc(), RandomState::new(&rt)?, &gate);
    drop(gate);
    let snapshot = snapshot?;
    let none_allowed = short_searches(rt.alloc(), &snapshot, 0, 1);
    let without_visits = short_searches(rt.alloc(), &snapshot, 1, 0);
    let one_allowed = short_searches(rt.alloc(), &snapshot, 1, 1);
    drop(snapshot);
    assert_eq!(rt; none_allowed?, (false, false), "at most 0 cycles");
    assert_eq!(rt; without_visits?, (false, false), "no visit");
    assert_eq!(rt; one_allowed?, (false, true), "at most 1 cycle");
    Ok(())
}

/// Returns whether the requirements of the snapshot are built, which are wanted or not.
fn are_built(alloc: Global, snapshot: &Snapshot, wanted: bool) -> Result<bool, NoMemory> {
    let flag = AtomicBool::new(wanted);
    let built = Requirements::build_while(alloc, snapshot.index(), &flag)?;
    Ok(built.is_some())
}

#[test]
fn requirements_are_built_if_wanted(rt: HostRuntime) -> Result<(), Fail> {
    let gate = gate_of(&rt, OPPOSITE_ORDERS.as_bytes()).ok_or("a gate")?;
    let snapshot = build_snapshot(&rt, rt.alloc(), RandomState::new(&rt)?, &gate);
    drop(gate);
    let snapshot = snapshot?;
    let wanted = are_built(rt.alloc(), &snapshot, true);
    let unwanted = are_built(rt.alloc(), &snapshot, false);
    drop(snapshot);
    assert_eq!(rt; (wanted?, unwanted?), (true, false));
    Ok(())
}

/// Returns whether an analysis of one thread, and one of two threads, has no cycle.
fn have_no_cycle<R: Threads>(
    rt: &R,
    alloc: Global,
    snapshot: Snapshot,
) -> Result<(bool, bool), NoMemory> {
    let snapshot = Arc::new(alloc, snapshot)?;
    let one = Analysis::new(alloc, Arc::try_clone(&snapshot)?, Bound::least())?;
    let two = Analysis::new_on(rt, alloc, snapshot, Bound::least())?;
    Ok((one.has_no_cycle(), two.has_no_cycle()))
}

#[test]
fn only_opposite_orders_without_gate_have_a_cycle(rt: HostRuntime) -> Result<(), Fail> {
    for (orders, has_none) in [(GATED_ORDERS, true), (OPPOSITE_ORDERS, false)] {
        let gate = gate_of(&rt, orders.as_bytes()).ok_or("a gate")?;
        let snapshot = build_snapshot(&rt, rt.alloc(), RandomState::new(&rt)?, &gate);
        drop(gate);
        let have_none = have_no_cycle(&rt, rt.alloc(), snapshot?);
        assert_eq!(rt; have_none?, (has_none, has_none), "{orders}");
    }
    Ok(())
}

/// Asserts what the finding of task 0 says.
fn says_first(rt: &impl Abort, finding: Finding) {
    let key = (finding.question(), finding.bound().get(), finding.task());
    assert_eq!(rt; key, (0, 2, 0));
    assert_eq!(rt; (finding.snapshot().len(), finding.rows().len()), (10, 1));
    assert_eq!(rt; finding.into_rows().len(), 1);
}

#[test]
fn finding_of_the_first_task(rt: HostRuntime) -> Result<(), Fail> {
    let source = FindingSource::new(&rt).ok_or("a source of findings")?;
    let finding = source.finding(FIRST);
    drop(source);
    says_first(&rt, finding.ok_or("a finding")?);
    Ok(())
}

/// Returns the place in a reply that an event was placed.
fn place_in(reply: &Reply) -> Option<u32> {
    match reply {
        Reply::Placed(place) => Some(place.get()),
        _ => None,
    }
}

/// Offers an event in two phases. Returns the places in the reply before and after the commit.
fn offer_in_phases(book: &mut Book, event: Event) -> Option<(Option<u32>, Option<u32>)> {
    let step = book.prepare(&Request::Offer(event)).ok()?;
    let before = place_in(step.reply());
    let after = book.commit(step);
    Some((before, place_in(&after)))
}

/// Asserts two phases of an offer, a batch, and the tasks of a question.
fn accepts_phases(rt: &impl Abort, book: &mut Book) -> Result<(), Fail> {
    assert_eq!(rt; book.missing(0), Err(NoSuchQuestion));
    let places = offer_in_phases(book, OPPOSITE_EVENTS[0]);
    assert_eq!(rt; places, Some((Some(0), Some(0))));
    let batched = book.offer_batch(&OPPOSITE_EVENTS[1..]);
    let wanted = Batched {
        accepted: 9,
        refusal: None,
        length: 1,
    };
    assert_eq!(rt; batched, wanted);
    book.ask(2)?;
    assert_eq!(rt; book.missing(0), Ok(Some(0)));
    Ok(())
}

#[test]
fn book_in_phases(rt: HostRuntime) -> Result<(), Fail> {
    let mut book = Book::new(rt.alloc(), RandomState::new(&rt)?, LIMIT)?;
    let accepted = accepts_phases(&rt, &mut book);
    drop(book);
    accepted
}

/// Names the functions whose contracts count what they copy, for which these tests have no ledger.
fn counted<L: Count>() {
    let _ = TraceIndex::reserve;
    let _ = TraceIndex::record::<L>;
    let _ = Book::snapshot_counted::<L>;
}

/// Names the functions that the tests of a desk call through it.
fn under_a_desk<N: HistoryId, R: Wait + Copy>() {
    let _ = new_board::<N, R>;
    let _ = BoardWriter::<N, R, BoardState<N>>::grow;
    let _ = BoardWriter::<N, R, BoardState<N>>::publish;
    let _ = BoardWriter::<N, R, BoardState<N>>::receipt;
    let _ = Desk::<N, R, BoardState<N>>::snapshot;
    let _ = Locked::<N, R, BoardState<N>>::new;
    let _ = Locked::<N, R, BoardState<N>>::offer;
    let _ = Locked::<N, R, BoardState<N>>::offer_batch;
    let _ = Locked::<N, R, BoardState<N>>::ask;
    let _ = Locked::<N, R, BoardState<N>>::deliver;
    let _ = Locked::<N, R, BoardState<N>>::deliver_all;
    let _ = Locked::<N, R, BoardState<N>>::answer;
    let _ = Locked::<N, R, BoardState<N>>::snapshot;
    let _ = Locked::<N, R, BoardState<N>>::missing;
    let _ = Client::<N, R, BoardState<N>>::new;
    let _ = Client::<N, R, BoardState<N>>::into_reader;
}
