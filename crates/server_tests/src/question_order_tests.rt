//! Tests of a worker that works on two questions in turn.

use crate::desk_scripts::{Script, run_at_desk};
use crate::test_desk::{TestDesk, TestReader, TestWorker, ask, offer_all};
use crate::workers::workers_at;
use board::QuestionSummary;
use desk::Turn;
use event_files::read_events;
use findings::Hold;
use sequencer::Opened;
use std::alloc::Global;
use std::process::Abort;
use std::sync::atomic::{AtomicU64, Ordering};
use std::test::*;

/// A ring of six locks. For each lock, two threads acquire the next one while they hold it. So 32
/// cycles of six members begin with each of the tasks 0 and 1, and there are no others.
const DOUBLE_RING: &[u8] = b"0f1 0f2 0f3 0f4 0f5 0f6 0f7 0f8 0f9 0f10 0f11 0f12 \
      1a10 1a11 1r11 1r10 2a10 2a11 2r11 2r10 \
      3a11 3a12 3r12 3r11 4a11 4a12 4r12 4r11 \
      5a12 5a13 5r13 5r12 6a12 6a13 6r13 6r12 \
      7a13 7a14 7r14 7r13 8a13 8a14 8r14 8r13 \
      9a14 9a15 9r15 9r14 10a14 10a15 10r15 10r14 \
      11a15 11a10 11r10 11r15 12a15 12a10 12r10 12r15";

/// The number of tasks of each question: one for each thread.
const TASKS: u64 = 12;

/// The question with the bound 6. The search of its tasks 0 and 1 visits more than 32 members.
const LONG_QUESTION: Opened = Opened {
    question: 0,
    length: 60,
    total: 12,
};

/// The question with the bound 2. The search of each task visits at most the two members that may
/// follow it.
const SHORT_QUESTION: Opened = Opened {
    question: 1,
    length: 60,
    total: 12,
};

/// The number of members that a turn visits.
const VISITS: u64 = 8;

/// A hold that counts the tasks that were computed, and those of them that are not the next in
/// order: all tasks of question 1, and then all of question 0.
#[derive(Drop)]
struct InOrder {
    computed: AtomicU64,
    misplaced: AtomicU64,
}

impl InOrder {
    fn new() -> InOrder {
        InOrder {
            computed: AtomicU64::new(0),
            misplaced: AtomicU64::new(0),
        }
    }

    /// Returns how many tasks were computed, and how many of them not in order.
    fn counts(&self) -> (u64, u64) {
        (
            self.computed.load(Ordering::SeqCst),
            self.misplaced.load(Ordering::SeqCst),
        )
    }
}

impl Hold for InOrder {
    fn hold(&self, question: u32, task: u32) {
        let before = self.computed.fetch_add(1, Ordering::SeqCst);
        let is_next = if before < TASKS {
            question == 1 && u64::from(task) == before
        } else {
            question == 0 && u64::from(task) == before - TASKS
        };
        if !is_next {
            self.misplaced.fetch_add(1, Ordering::SeqCst);
        }
    }
}

#[test]
fn a_short_question_is_computed_beside_a_long_one(rt: HostRuntime) -> Result<(), Fail> {
    run_at_desk(rt, Script::TwoQuestions)
}

/// Asserts that a worker pauses the search of a long question, computes a later question meanwhile,
/// and resumes the search until all of its cycles are found.
pub(crate) fn questions_take_turns<D: TestDesk, R: Abort>(
    rt: &R,
    alloc: Global,
    desk: &D,
    reader: &mut D::Reader,
    others: &mut Vec<D::Reader>,
) -> Result<(), Fail> {
    let events = read_events(alloc, DOUBLE_RING)?;
    assert_eq!(rt; offer_all(desk, reader, &events), None);
    assert_eq!(rt; ask(desk, 6), Ok(LONG_QUESTION));
    assert_eq!(rt; ask(desk, 2), Ok(SHORT_QUESTION));
    let hold = InOrder::new();
    let pauses = works_until_idle(rt, alloc, desk, others, &hold).ok_or("a worker")?;
    assert!(rt; pauses > 2, "no search is paused and resumed");
    assert_eq!(rt; hold.counts(), (24, 0));
    assert_eq!(rt; rows_shown(reader, 0), Some((64, 64)));
    assert_eq!(rt; rows_shown(reader, 1), Some((0, 0)));
    Ok(())
}

/// Lets a worker take turns until it is idle. Returns how often it paused a search, or `None` if
/// an allocation for the worker fails.
fn works_until_idle<D: TestDesk, R: Abort>(
    rt: &R,
    alloc: Global,
    desk: &D,
    readers: &mut Vec<D::Reader>,
    hold: &InOrder,
) -> Option<u32> {
    let mut workers = workers_at(alloc, desk, readers, 1)?;
    let worker = workers.pop();
    drop(workers);
    let mut worker = worker?;
    let pauses = pauses_until_idle(rt, &mut worker, hold);
    drop(worker);
    Some(pauses)
}

/// Asserts that the first turn pauses a search, and that the worker is idle within 1,000 turns.
/// Returns the number of further turns that paused one.
fn pauses_until_idle(rt: &impl Abort, worker: &mut impl TestWorker, hold: &InOrder) -> u32 {
    assert_eq!(rt; worker.turn_within(hold, VISITS), Turn::Paused);
    let mut pauses = 0u32;
    let mut last = Turn::Paused;
    for _ in 0..1000u32 {
        last = worker.turn_within(hold, VISITS);
        match last {
            Turn::Paused => pauses = pauses.saturating_add(1),
            Turn::Delivered => {}
            _ => break,
        }
    }
    assert_eq!(rt; last, Turn::Idle);
    pauses
}

/// Returns the numbers of rows and of confirmed rows of a question that the board shows, or `None`
/// if it is busy.
fn rows_shown(reader: &mut impl TestReader, question: u32) -> Option<(u64, u64)> {
    let summary = reader.status()?;
    let QuestionSummary {
        cycles,
        confirmed,
        ..
    } = summary.question(question)?;
    Some((cycles, confirmed))
}
