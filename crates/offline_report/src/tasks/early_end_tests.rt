//! Tests that the tasks end early, by the calls of their hold.
ghost use Rattle.std.specs.Prelude.{◌≡◌, length};
ghost use Rattle.std.specs.Arc.{arc_value};

use super::{About, Piece, Question, parts_within};
use crate::gathering::Computes;
use crate::opening::Offline;
use crate::parts::are_whole;
use crate::refused::OfflineRefused;
use findings::{Analysis, Hold};
use std::alloc::{AllocError, Global};
use std::hash::RandomState;
use std::marker::{Brand, PhantomData};
use std::random::RandomSource;
use std::sync::Arc;
use std::sync::atomic::{AtomicBool, AtomicU64, Ordering};
use std::test::*;
use std::thread::Threads;
use trace_model::{Bound, Event, Op};

/// A hold that notes its calls: the sum of two to the power of each task.
#[derive(Drop)]
struct Notes {
    tasks: AtomicU64,
}

impl Notes {
    fn new() -> Notes {
        Notes {
            tasks: AtomicU64::new(0),
        }
    }

    fn tasks(&self) -> u64 {
        self.tasks.load(Ordering::SeqCst)
    }
}

impl Hold for Notes {
    fn hold(&self, _question: u32, task: u32) {
        let power = 1u64.checked_shl(task).unwrap_or(0);
        self.tasks.fetch_add(power, Ordering::SeqCst);
    }
}

/// Adds a section of `inner` in a section of `outer`.
fn push_nested(
    events: &mut Vec<Event>,
    thread: u32,
    outer: u32,
    inner: u32,
) -> Result<(), AllocError> {
    let ops = [
        Op::Acquire(outer),
        Op::Acquire(inner),
        Op::Release(inner),
        Op::Release(outer),
    ];
    for op in ops {
        events.push(Event { thread, op })?;
    }
    Ok(())
}

/// Returns a trace in which thread 0 acquires each of the locks 2 to 5 while it holds lock 1, and
/// then thread 1 acquires lock 1 while it holds each of them. It has eight tasks. Tasks 0 to 3 have
/// one row each. These are the first two, of 106 and 72 bytes:
///
/// ```text
/// cycle 0 4 confirmed
///   thread 0 lock 2 holds 1 place 2
///   thread 1 lock 1 holds 2 place 18
///   witness 0 1 17
/// cycle 1 5 potential
///   thread 0 lock 3 holds 1
///   thread 1 lock 1 holds 3
/// ```
fn eight_tasks(alloc: Global) -> Result<Vec<Event>, AllocError> {
    let mut events = Vec::new(alloc);
    events.push(Event {
        thread: 0,
        op: Op::Fork(1),
    })?;
    for lock in 2..6u32 {
        push_nested(&mut events, 0, 1, lock)?;
    }
    for lock in 2..6u32 {
        push_nested(&mut events, 1, lock, 1)?;
    }
    Ok(events)
}

fn opened(rt: &(impl RandomSource + AllocGlobal + Threads)) -> Result<Offline, Fail> {
    let two = Bound::new(2).ok_or("a bound is 2 to 8")?;
    let state = RandomState::new(rt)?;
    let events = eight_tasks(rt.alloc())?;
    Ok(Offline::open(rt, rt.alloc(), state, events, two)?)
}

#[test]
fn no_task_goes_on_over_the_limit(rt: HostRuntime) -> Result<(), Fail> {
    let offline = opened(&rt)?;
    // The limit in bytes, and the noted calls: 1 for task 0, 2 for task 1, and so on.
    for (limit, tasks) in [
        (0u64, 0u64),
        (105, 0),
        (106, 1),
        (177, 1),
        (178, 3),
        (u64::MAX, 255),
    ] {
        let notes = Notes::new();
        let total = offline.tasks();
        let parts = parts_within(&rt, rt.alloc(), &offline.analysis, total, &notes, limit)?;
        assert_eq!(rt; parts.len(), 8, "limit {limit}");
        assert_eq!(rt; are_whole(&parts), tasks == 255, "limit {limit}");
        assert_eq!(rt; notes.tasks(), tasks, "limit {limit}");
    }
    Ok(())
}

/// Computes task 0 on a piece without a job, as if the memory for it was refused, and then task 1
/// on a piece with one. Returns both refusals, `None` for a task that is computed.
fn refusals_without_memory<A: About + Send + Sync>(
    alloc: Global,
    analysis: &Arc<Analysis, Global>,
    hold: &Notes,
    limit: u64,
) -> [Option<OfflineRefused>; 2]
    requires events { (arc_value analysis.now).events ≡ A.events }
    requires bound { (arc_value analysis.now).bound ≡ A.bound }
    requires limit { limit ≡ A.limit }
{
    let question: Question<'_, A, Notes> = Question {
        alloc,
        analysis,
        hold,
        lacks_memory: AtomicBool::new(false),
        written: AtomicU64::new(0),
        limit,
        name: PhantomData,
    };
    let mut without_job: Piece<A> = Piece {
        alloc,
        job: None,
        name: PhantomData,
    };
    let mut piece = question.piece();
    let first = question.compute(&mut without_job, 0);
    let second = question.compute(&mut piece, 1);
    [first.err(), second.err()]
}

#[test]
fn no_task_begins_after_a_failed_allocation(rt: HostRuntime) -> Result<(), Fail> {
    let offline = opened(&rt)?;
    let notes = Notes::new();
    let refused = refusals_without_memory::<Brand>(rt.alloc(), &offline.analysis, &notes, u64::MAX);
    assert_eq!(rt;
        refused,
        [
            Some(OfflineRefused::NoMemory),
            Some(OfflineRefused::NoMemory)
        ]
    );
    assert_eq!(rt; notes.tasks(), 0);
    Ok(())
}
