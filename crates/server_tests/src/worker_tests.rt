//! Tests of workers at a desk.

use crate::book_tests::report_in;
use crate::desk_scripts::{Script, run_at_desk};
use crate::fixtures::REPORT;
use crate::meeting::Meeting;
use crate::test_desk::{TestDesk, TestWorker, asks_about_opposite_orders};
use crate::workers::{TasksMeet, delivers_two, worker, workers_at};
use claims::{Claimant, claimants};
use desk::Turn;
use findings::Hold;
use std::alloc::Global;
use std::process::Abort;
use std::test::*;
use std::thread;
use std::thread::Threads;

#[test]
fn two_workers_compute_concurrently(rt: HostRuntime) -> Result<(), Fail> {
    run_at_desk(rt, Script::TwoWorkers)
}

/// Asserts that two workers deliver a task each, both computing at the same time, and a later
/// worker is idle.
pub(crate) fn two_workers_deliver<D: TestDesk, R: Threads + Abort + Sync>(
    rt: &R,
    alloc: Global,
    desk: &D,
    reader: &mut D::Reader,
    others: &mut Vec<D::Reader>,
) -> Result<(), Fail> {
    asks_about_opposite_orders(rt, desk, reader);
    let meeting = meeting_of_two(rt, alloc, desk, others)?;
    assert_eq!(rt; meeting.came(), (1, 1));
    assert!(rt; !meeting.gave_up(), "a worker waits in vain");
    assert_eq!(rt; report_in(&desk.answer()), Ok(REPORT));
    Ok(())
}

/// Runs two workers, and then a third one. Returns the meeting of the first two.
fn meeting_of_two<D: TestDesk, R: Threads + Abort + Sync>(
    rt: &R,
    alloc: Global,
    desk: &D,
    others: &mut Vec<D::Reader>,
) -> Result<Meeting, Fail> {
    let hold = TasksMeet {
        meeting: Meeting::new(),
    };
    let workers = workers_at(alloc, desk, others, 2).ok_or("workers")?;
    all_deliver(rt, workers, &hold)?;
    let late = workers_at(alloc, desk, others, 1).ok_or("a late worker")?;
    all_are_idle(rt, late, &hold);
    Ok(hold.meeting)
}

/// Asserts that each worker delivers a task. Each runs on its own thread.
pub(crate) fn all_deliver<W: TestWorker + Send, R: Threads + Abort + Sync>(
    rt: &R,
    workers: Vec<W>,
    hold: &(impl Hold + Sync),
) -> Result<(), Fail> {
    let turns = thread::map_vec(rt, workers, &|worker| turn_of(worker, hold))?;
    for turn in &turns {
        assert_eq!(rt; *turn, Turn::Delivered);
    }
    Ok(())
}

/// Asserts that each worker is idle.
fn all_are_idle<W: TestWorker>(rt: &impl Abort, workers: Vec<W>, hold: &impl Hold) {
    for worker in workers {
        assert_eq!(rt; turn_of(worker, hold), Turn::Idle);
    }
}

fn turn_of<W: TestWorker>(mut worker: W, hold: &impl Hold) -> Turn {
    worker.turn(hold)
}

#[test]
fn abandoned_tasks_are_computed(rt: HostRuntime) -> Result<(), Fail> {
    run_at_desk(rt, Script::AbandonedTasks)
}

/// Asserts that question 0 is answered although a claimant draws both tasks and delivers none.
pub(crate) fn reports_abandoned_tasks<D: TestDesk, R: Abort>(
    rt: &R,
    alloc: Global,
    desk: &D,
    reader: &mut D::Reader,
    others: &mut Vec<D::Reader>,
) -> Result<(), Fail> {
    asks_about_opposite_orders(rt, desk, reader);
    delivers_abandoned(rt, alloc, desk, others)?;
    assert_eq!(rt; report_in(&desk.answer()), Ok(REPORT));
    Ok(())
}

/// Asserts that a worker delivers both tasks after another claimant drew them.
fn delivers_abandoned<D: TestDesk, R: Abort>(
    rt: &R,
    alloc: Global,
    desk: &D,
    readers: &mut Vec<D::Reader>,
) -> Result<(), Fail> {
    let mut claims = claimants(alloc, 2)?;
    let absent = claims.pop();
    let worker = worker(desk, &mut claims, readers);
    drop(claims);
    let (mut absent, mut worker) = absent.zip(worker).ok_or("a claimant and a worker")?;
    delivers_drawn_tasks(rt, &mut absent, &mut worker);
    drop(absent);
    drop(worker);
    Ok(())
}

fn delivers_drawn_tasks(rt: &impl Abort, absent: &mut Claimant, worker: &mut impl TestWorker) {
    for task in 0..2u64 {
        assert_eq!(rt; absent.draw(0).ok(), Some(task));
    }
    delivers_two(rt, worker);
}
