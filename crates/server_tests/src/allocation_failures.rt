//! Tests in which at most one allocation fails: each call that fails with `NoMemory` is repeated.
//! The tests pass if no allocation fails; `tests/failing_allocations` makes each allocation fail in
//! turn.

use crate::book_tests::{FIRST, FindingSource, SECOND, refusal_in, report_in};
use crate::desk_scripts::{Script, try_run_at_desk};
use crate::fixtures::{
    ANSWER, ASKED, LIMIT, OPENED, OPPOSITE_EVENTS, REPLIES, REPORT, REPORT_HEAD, REQUESTS,
};
use crate::test_desk::{OPPOSITE_QUESTION, TestDesk, TestReader, TestWorker, ask, offer};
use crate::workers::workers_at;
use board::QuestionSummary;
use desk::{Turn, TurnFailure};
use findings::{Finding, RunOn};
use sequencer::{AnswerRefused, AskRefused, Input, PlayRefused, Played, Session, play};
use std::alloc::Global;
use std::hash::RandomState;
use std::process::Abort;
use std::random::RandomSource;
use std::test::*;
use trace_model::{Event, Refusal};

/// Returns the findings of both tasks.
fn findings(rt: &(impl RandomSource + AllocGlobal)) -> Option<Vec<Finding>> {
    let source = FindingSource::new(rt)?;
    let findings = source.findings(&[FIRST, SECOND]);
    drop(source);
    findings
}

fn push_findings(rt: &(impl RandomSource + AllocGlobal), inputs: &mut Vec<Input>) -> Option<()> {
    for finding in findings(rt)? {
        inputs.push(Input::Finding(finding)).ok()?;
    }
    Some(())
}

fn push_inputs(
    rt: &(impl RandomSource + AllocGlobal),
    session: Session,
    inputs: &mut Vec<Input>,
) -> Option<()> {
    push_piece(rt.alloc(), inputs, session, &REQUESTS[..ASKED])?;
    push_findings(rt, inputs)?;
    push_piece(rt.alloc(), inputs, session, &ANSWER)
}

/// Adds a piece of these bytes. Returns `None` if an allocation fails.
fn push_piece(
    alloc: Global,
    inputs: &mut Vec<Input>,
    session: Session,
    bytes: &[u8],
) -> Option<()> {
    let bytes = Vec::from_slice(alloc, bytes).ok()?;
    inputs.push(Input::Piece(session, bytes)).ok()
}

/// Returns the inputs of a run with one session: the frames of the events and of a question, the
/// findings of both tasks, and the frame of an answer. Returns `None` if an allocation fails.
fn inputs(rt: &(impl RandomSource + AllocGlobal), session: Session) -> Option<Vec<Input>> {
    let mut inputs = Vec::new(rt.alloc());
    push_inputs(rt, session, &mut inputs).and(Some(inputs))
}

/// Asserts that all events were placed, the question was opened with two tasks, both findings were
/// accepted, and the answer is the report.
fn is_full(rt: &impl Abort, run: &Played, session: Session) {
    let sent = run.sent(session);
    assert_eq!(rt; sent.get(..OPENED), Some(&REPLIES[..OPENED]));
    assert_eq!(rt; sent.get(107..116), Some(REPORT_HEAD.as_slice()));
    assert_eq!(rt; sent.get(116..), Some(REPORT.as_bytes()));
    assert_eq!(rt; run.book().len(), 10);
    assert_eq!(rt; run.deliveries().len(), 2);
    for outcome in run.deliveries() {
        assert_eq!(rt; refusal_in(outcome), None);
    }
}

#[test]
fn play_answers_all_or_no_memory(rt: HostRuntime) -> Result<(), Fail> {
    let alloc = rt.alloc();
    let state = RandomState::new(&rt)?;
    let session = Session::new(0).ok_or("a session")?;
    for _ in 0..2u32 {
        let Some(inputs) = inputs(&rt, session) else {
            continue;
        };
        match play(alloc, state, LIMIT, inputs) {
            Ok(run) => {
                is_full(&rt, &run, session);
                drop(run);
                return Ok(());
            }
            Err(error) => assert_eq!(rt; error, PlayRefused::NoMemory),
        }
    }
    Err(Fail::from("refused again"))
}

/// What the board shows: the numbers of accepted events and of opened questions, and question 0.
type BoardState = (u32, u32, Option<QuestionSummary>);

fn board_state(reader: &mut impl TestReader) -> Option<BoardState> {
    let summary = reader.status()?;
    Some((summary.accepted, summary.opened, summary.question(0)))
}

/// Offers the event, and once more after `NoMemory`. Asserts that a failed offer does not change
/// the board.
fn offers_with_retry<D: TestDesk, R: Abort>(
    rt: &R,
    desk: &D,
    reader: &mut D::Reader,
    event: Event,
) {
    let before = board_state(reader);
    let first = offer(desk, reader, event);
    if first.is_ok() {
        return;
    }
    assert_eq!(rt; first.err(), Some(Refusal::NoMemory), "{event:?}");
    assert_eq!(rt; board_state(reader), before, "{event:?}");
    assert_eq!(rt; offer(desk, reader, event).err(), None, "{event:?}");
}

/// Asks question 0, and once more after `NoMemory`. Asserts that a failed call does not change the
/// board.
fn asks_with_retry<D: TestDesk, R: Abort>(rt: &R, desk: &D, reader: &mut D::Reader) {
    let before = board_state(reader);
    let mut asked = ask(desk, 2);
    if asked == Err(AskRefused::NoMemory) {
        assert_eq!(rt; board_state(reader), before);
        asked = ask(desk, 2);
    }
    assert_eq!(rt; asked, Ok(OPPOSITE_QUESTION));
}

/// Returns whether a turn of the worker delivers a task. Asserts that after a turn that fails with
/// `NoMemory`, the board is unchanged and the task is missing.
fn delivers<D: TestDesk, R: Abort>(
    rt: &R,
    desk: &D,
    reader: &mut D::Reader,
    worker: &mut D::Worker,
    done: u32,
) -> bool {
    let before = board_state(reader);
    let turn = worker.turn(&RunOn);
    if turn == Turn::Delivered {
        return true;
    }
    assert_eq!(rt; turn, Turn::Failed(TurnFailure::NoMemory));
    assert_eq!(rt; board_state(reader), before);
    assert_eq!(rt; desk.missing(), Some(Some(done)));
    false
}

/// Asserts that the worker delivers both tasks within three turns, so a later turn repeats a task
/// whose turn failed.
fn works_with_retry<D: TestDesk, R: Abort>(
    rt: &R,
    desk: &D,
    reader: &mut D::Reader,
    worker: &mut D::Worker,
) {
    let mut done = 0u32;
    for _ in 0..3u32 {
        if done == 2 {
            break;
        }
        if delivers(rt, desk, reader, worker, done) {
            done = done.saturating_add(1);
        }
    }
    assert_eq!(rt; done, 2);
    assert_eq!(rt; worker.turn(&RunOn), Turn::Idle);
}

/// Gets the report, with a second call after `NoMemory`. Asserts that a failed call does not change
/// the board.
fn answers_with_retry<D: TestDesk, R: Abort>(rt: &R, desk: &D, reader: &mut D::Reader) {
    let before = board_state(reader);
    let mut first = desk.answer();
    if matches!(first, Err(AnswerRefused::NoMemory)) {
        assert_eq!(rt; board_state(reader), before);
        first = desk.answer();
    }
    assert_eq!(rt; report_in(&first), Ok(REPORT));
}

#[test]
fn a_desk_continues_after_a_failed_allocation(rt: HostRuntime) -> Result<(), Fail> {
    for _ in 0..2u32 {
        if let Some(done) = try_run_at_desk(rt, Script::AllocationFailure) {
            return done;
        }
    }
    Err(Fail::from("refused again"))
}

/// Runs a question with one worker, from the first event to the report. Returns `None` if an
/// allocation for the worker fails.
pub(crate) fn completes_despite_failure<D: TestDesk, R: Abort>(
    rt: &R,
    alloc: Global,
    desk: &D,
    reader: &mut D::Reader,
    others: &mut Vec<D::Reader>,
) -> Option<()> {
    let mut workers = workers_at(alloc, desk, others, 1)?;
    let worker = workers.pop();
    drop(workers);
    let mut worker = worker?;
    completes_question(rt, desk, reader, &mut worker);
    drop(worker);
    Some(())
}

/// Offers the events, asks question 0, computes its tasks, and gets the report.
fn completes_question<D: TestDesk, R: Abort>(
    rt: &R,
    desk: &D,
    reader: &mut D::Reader,
    worker: &mut D::Worker,
) {
    for event in OPPOSITE_EVENTS {
        offers_with_retry(rt, desk, reader, event);
    }
    asks_with_retry(rt, desk, reader);
    works_with_retry(rt, desk, reader, worker);
    answers_with_retry(rt, desk, reader);
}
