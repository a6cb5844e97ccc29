//! Makes workers at a desk, and a hold that lets two workers meet.

ghost use Rattle.std.specs.Prelude.{◌≤◌};

use crate::meeting::Meeting;
use crate::test_desk::{TestDesk, TestWorker};
use claims::{Claimant, claimants};
use desk::Turn;
use findings::{Hold, RunOn};
use std::alloc::Global;
use std::process::Abort;

/// Returns a worker with the last of the claims and the last of the readers. Returns `None` if
/// there is none of them, or an allocation fails.
pub(crate) fn worker<D: TestDesk>(
    desk: &D,
    claims: &mut Vec<Claimant>,
    readers: &mut Vec<D::Reader>,
) -> Option<D::Worker> {
    let (claimant, reader) = claims.pop().zip(readers.pop())?;
    desk.worker(claimant, reader)
}

/// Returns `count` workers at the desk, which use the last of the readers. Returns `None` if there
/// are fewer readers, or an allocation fails.
pub(crate) fn workers_at<D: TestDesk>(
    alloc: Global,
    desk: &D,
    readers: &mut Vec<D::Reader>,
    count: usize,
) -> Option<Vec<D::Worker>>
    requires some { 1 ≤ count }
    requires few { count ≤ 64 }
{
    let mut claims = claimants(alloc, count).ok()?;
    let mut workers = Vec::new(alloc);
    let pushed = push_workers(desk, &mut claims, readers, &mut workers);
    drop(claims);
    pushed.and(Some(workers))
}

/// Adds a worker for each claimant.
fn push_workers<D: TestDesk>(
    desk: &D,
    claims: &mut Vec<Claimant>,
    readers: &mut Vec<D::Reader>,
    workers: &mut Vec<D::Worker>,
) -> Option<()> {
    for _ in 0..claims.len() {
        let worker = worker(desk, claims, readers)?;
        workers.push(worker).ok()?;
    }
    Some(())
}

/// Asserts that the worker delivers two tasks and is then idle.
pub(crate) fn delivers_two(rt: &impl Abort, worker: &mut impl TestWorker) {
    for turn in [Turn::Delivered, Turn::Delivered, Turn::Idle] {
        assert_eq!(rt; worker.turn(&RunOn), turn);
    }
}

/// A hold that blocks task 0 until another task is held, and each other task until task 0 is held.
/// It gives up after a million yields.
#[derive(Drop)]
pub(crate) struct TasksMeet {
    pub(crate) meeting: Meeting,
}

impl Hold for TasksMeet {
    fn hold(&self, _question: u32, task: u32) {
        self.meeting.come(task == 0, 1_000_000);
    }
}
