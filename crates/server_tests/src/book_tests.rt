//! Tests of a book by its own calls, and findings for other tests.

use crate::fixtures::{LIMIT, OPPOSITE_EVENTS, REPORT};
use crate::test_desk::in_memory;
use findings::{Finding, Snapshot};
use sequencer::{Answer, AnswerRefused, Book, Delivered};
use std::alloc::{AllocError, Global};
use std::hash::RandomState;
use std::process::Abort;
use std::random::RandomSource;
use std::sync::Arc;
use std::test::*;
use trace_model::{Bound, Event, Op, Refusal};

/// The question, the bound and the task of a finding. If `has_other_end`, the finding covers events
/// that differ from the trace in the last one.
#[derive(Clone, Copy)]
pub(crate) struct FindingKey {
    pub(crate) question: u32,
    pub(crate) bound: u8,
    pub(crate) task: u32,
    pub(crate) has_other_end: bool,
}

/// The finding of task 0 of question 0.
pub(crate) const FIRST: FindingKey = FindingKey {
    question: 0,
    bound: 2,
    task: 0,
    has_other_end: false,
};

/// The finding of task 1 of question 0.
pub(crate) const SECOND: FindingKey = FindingKey { task: 1, ..FIRST };

/// Adds the events to the book and asks question 0. Returns its snapshot.
fn ask_over(book: &mut Book, events: &[Event]) -> Option<Arc<Snapshot, Global>> {
    for event in events {
        book.offer(*event).ok()?;
    }
    book.ask(2).ok()?;
    book.snapshot(0).ok()
}

/// Returns a snapshot of these events from a new book.
fn snapshot_of(
    rt: &(impl RandomSource + AllocGlobal),
    events: &[Event],
) -> Option<Arc<Snapshot, Global>> {
    let state = RandomState::new(rt).ok()?;
    let mut book = Book::new(rt.alloc(), state, LIMIT).ok()?;
    let snapshot = ask_over(&mut book, events);
    drop(book);
    snapshot
}

/// Returns the finding with this key over a snapshot, or `None` if an allocation fails.
fn finding_over(
    alloc: Global,
    snapshot: &Arc<Snapshot, Global>,
    key: FindingKey,
) -> Option<Finding> {
    let bound = Bound::new(key.bound)?;
    let shared = Arc::try_clone(snapshot).ok()?;
    findings::compute(alloc, shared, key.question, bound, key.task).ok()
}

/// A source of findings over the trace of opposite orders, and over the same trace with a write of
/// 20 as its last event.
#[derive(Drop)]
pub(crate) struct FindingSource {
    pub(crate) alloc: Global,
    same: Arc<Snapshot, Global>,
    other: Arc<Snapshot, Global>,
}

impl FindingSource {
    /// Returns a source of findings, or `None` if an allocation fails.
    pub(crate) fn new(rt: &(impl RandomSource + AllocGlobal)) -> Option<FindingSource> {
        let mut others = OPPOSITE_EVENTS;
        others[9] = Event {
            thread: 2,
            op: Op::Write(20),
        };
        let same = snapshot_of(rt, &OPPOSITE_EVENTS);
        let (same, other) = same.zip(snapshot_of(rt, &others))?;
        Some(FindingSource {
            alloc: rt.alloc(),
            same,
            other,
        })
    }

    /// Returns the finding with this key, or `None` if an allocation fails.
    pub(crate) fn finding(&self, key: FindingKey) -> Option<Finding> {
        if key.has_other_end {
            finding_over(self.alloc, &self.other, key)
        } else {
            finding_over(self.alloc, &self.same, key)
        }
    }

    /// Returns the findings with these keys, or `None` if an allocation fails.
    pub(crate) fn findings(&self, keys: &[FindingKey]) -> Option<Vec<Finding>> {
        let mut findings = Vec::new(self.alloc);
        self.push_findings(keys, &mut findings).and(Some(findings))
    }

    fn push_findings(&self, keys: &[FindingKey], findings: &mut Vec<Finding>) -> Option<()> {
        for key in keys {
            findings.push(self.finding(*key)?).ok()?;
        }
        Some(())
    }
}

/// Returns the text of the report. If there is none, returns the refusal, or `None` if tasks are
/// missing.
pub(crate) fn report_in(
    answer: &Result<Answer, AnswerRefused>,
) -> Result<&str, Option<AnswerRefused>> {
    match answer {
        Ok(Answer::Settled(text)) => str::from_utf8(text.as_slice()).map_err(|_| None),
        Ok(Answer::Pending { .. }) => Err(None),
        Err(refused) => Err(Some(*refused)),
    }
}

/// Returns the refusal of a finding, or `None` if it is accepted.
pub(crate) fn refusal_in(outcome: &Delivered) -> Option<Refusal> {
    match outcome {
        Ok(()) => None,
        Err((refusal, _)) => Some(*refusal),
    }
}

/// Asserts that the book accepts the findings of both tasks, the second one in two phases.
fn delivers_both(
    rt: &impl Abort,
    alloc: Global,
    book: &mut Book,
    snapshot: &Arc<Snapshot, Global>,
) -> Result<(), Fail> {
    let first = finding_over(alloc, snapshot, FIRST).ok_or("the first finding")?;
    let outcome = book.deliver(first);
    assert_eq!(rt; refusal_in(&outcome), None);
    drop(outcome);
    let second = finding_over(alloc, snapshot, SECOND).ok_or("the second finding")?;
    book.admits(&second)?;
    book.take(second);
    Ok(())
}

/// Asserts that the book accepts the trace, a question, and the findings of its tasks, and then
/// answers with the report.
fn reports(rt: &impl Abort, alloc: Global, book: &mut Book) -> Result<(), Fail> {
    let snapshot = ask_over(book, &OPPOSITE_EVENTS).ok_or("a snapshot")?;
    let delivered = delivers_both(rt, alloc, book, &snapshot);
    drop(snapshot);
    delivered?;
    assert_eq!(rt; report_in(&book.answer(0)), Ok(REPORT));
    Ok(())
}

#[test]
fn opposite_orders_by_calls_of_a_book(rt: HostRuntime) -> Result<(), Fail> {
    let mut book = Book::new(rt.alloc(), RandomState::new(&rt)?, LIMIT)?;
    let reported = reports(&rt, rt.alloc(), &mut book);
    drop(book);
    reported
}

/// Returns the trace of two opposite orders in which thread 1 first takes and releases a lock 600
/// times, so its witness has a run of more than 1,200 places.
fn events_with_a_long_run(alloc: Global) -> Result<Vec<Event>, AllocError> {
    let mut events = Vec::new(alloc);
    events.extend_from_slice(&OPPOSITE_EVENTS[..2])?;
    for _ in 0..600u32 {
        for op in [Op::Acquire(10), Op::Release(10)] {
            events.push(Event { thread: 1, op })?;
        }
    }
    events.extend_from_slice(&OPPOSITE_EVENTS[2..])?;
    Ok(events)
}

/// Asserts that the pieces of the answer to question 0 are the text of its report, which is longer
/// than a piece.
fn answers_in_pieces(rt: &impl Abort, alloc: Global, book: &mut Book) -> Result<(), Fail> {
    let whole = book.answer(0);
    let pieces = in_memory(book.share_answer(0)?.reply(alloc, 0)?);
    assert_eq!(rt; report_in(&pieces), report_in(&whole));
    let text = report_in(&whole).map_err(|_| "a report")?;
    assert!(rt; text.len() > 4096, "a long report");
    Ok(())
}

#[test]
fn pieces_of_a_long_report_are_its_text(rt: HostRuntime) -> Result<(), Fail> {
    let events = events_with_a_long_run(rt.alloc())?;
    let mut book = Book::new(rt.alloc(), RandomState::new(&rt)?, LIMIT)?;
    let snapshot = ask_over(&mut book, &events).ok_or("a snapshot")?;
    let delivered = delivers_both(&rt, rt.alloc(), &mut book, &snapshot);
    drop(snapshot);
    let outcome = delivered.and_then(|()| answers_in_pieces(&rt, rt.alloc(), &mut book));
    drop(book);
    outcome
}
