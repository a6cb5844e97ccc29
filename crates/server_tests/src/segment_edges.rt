//! Tests of a book that fills several segments while at most one allocation fails. The test offers
//! an event again after `NoMemory`. It passes if no allocation fails; `tests/failing_allocations`
//! makes each allocation fail in turn.

use crate::fixtures::LIMIT;
use findings::Snapshot;
use sequencer::{AskRefused, Book, Opened};
use std::alloc::Global;
use std::hash::RandomState;
use std::process::Abort;
use std::sync::Arc;
use std::test::*;
use trace_model::{Event, Op, Place, Refusal};

/// The number of forked threads, and the number of locks that each of them nests: each lock in each
/// other lock.
const FORKED: u32 = 8;

const LOCKS: u32 = 24;

/// The number of dependencies, each at one place, and the number of events. Events, places and
/// dependencies each need more than one segment of 4,096.
const DEPENDENCIES: u32 = FORKED * LOCKS * (LOCKS - 1);

const EVENTS: u32 = FORKED + 4 * DEPENDENCIES;

/// Offers an event, and once more after `NoMemory`. Asserts that the failed offer adds no event.
fn offers_with_retry(rt: &impl Abort, book: &mut Book, thread: u32, op: Op) {
    let event = Event { thread, op };
    let before = book.len();
    let Err(refused) = book.offer(event) else {
        return;
    };
    assert_eq!(rt; refused, Refusal::NoMemory, "{event:?}");
    assert_eq!(rt; book.len(), before, "{event:?}");
    assert_eq!(rt; book.offer(event).err(), None, "{event:?}");
}

/// Offers the events of a thread that nests each lock in each other one.
fn nests_all(rt: &impl Abort, book: &mut Book, thread: u32) {
    for outer in 0..LOCKS {
        for inner in 0..LOCKS {
            if inner != outer {
                offers_with_retry(rt, book, thread, Op::Acquire(outer));
                offers_with_retry(rt, book, thread, Op::Acquire(inner));
                offers_with_retry(rt, book, thread, Op::Release(inner));
                offers_with_retry(rt, book, thread, Op::Release(outer));
            }
        }
    }
}

/// Offers the forks of the threads, and the events in which each of them nests all locks.
fn fills_book(rt: &impl Abort, book: &mut Book) {
    for thread in 1..=FORKED {
        offers_with_retry(rt, book, 0, Op::Fork(thread));
    }
    for thread in 1..=FORKED {
        nests_all(rt, book, thread);
    }
}

/// Asks with the bound 2, and once more after `NoMemory`.
fn ask_with_retry(book: &mut Book) -> Option<Opened> {
    match book.ask(2) {
        Err(AskRefused::NoMemory) => book.ask(2).ok(),
        opened => opened.ok(),
    }
}

/// Returns the snapshot of question 0. Requests it once more after `NoMemory`.
fn snapshot_with_retry(book: &Book) -> Option<Arc<Snapshot, Global>> {
    let first = book.snapshot(0);
    if matches!(first, Err(Refusal::NoMemory)) {
        drop(first);
        return book.snapshot(0).ok();
    }
    first.ok()
}

/// Asserts that the snapshot has exactly the events of the book.
fn has_events(rt: &impl Abort, snapshot: &Snapshot, book: &Book) {
    assert_eq!(rt; snapshot.len(), book.len());
    for index in 0..EVENTS {
        let place = Place::new(index);
        assert_eq!(rt; snapshot.event(place), book.event(place), "place {index}");
    }
}

/// Asserts that the snapshot of question 0 has exactly the events of the book.
fn shares_events(rt: &impl Abort, book: &Book) -> Result<(), Fail> {
    let snapshot = snapshot_with_retry(book).ok_or("a snapshot")?;
    has_events(rt, &snapshot, book);
    drop(snapshot);
    Ok(())
}

/// Fills the book, asks question 0, and asserts the events of its snapshot.
fn fills_and_shares(rt: &impl Abort, book: &mut Book) -> Result<(), Fail> {
    fills_book(rt, book);
    assert_eq!(rt; book.len(), EVENTS as usize);
    let opened = ask_with_retry(book).ok_or("a question")?;
    assert_eq!(rt; (opened.length, opened.total), (EVENTS, DEPENDENCIES));
    shares_events(rt, book)
}

#[test]
fn a_book_grows_over_segments(rt: HostRuntime) -> Result<(), Fail> {
    let mut book = Book::new(rt.alloc(), RandomState::new(&rt)?, LIMIT)?;
    let grown = fills_and_shares(&rt, &mut book);
    drop(book);
    grown
}
