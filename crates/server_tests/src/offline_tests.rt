//! Tests of an offline report whose tasks are computed by several threads.

use crate::meeting::Meeting;
use event_files::read_events;
use findings::Hold;
use question_server::offline_with;
use std::alloc::Global;
use std::hash::RandomState;
use std::io::{self, Write};
use std::process::Abort;
use std::random::RandomSource;
use std::sync::atomic::{AtomicU64, Ordering};
use std::test::*;
use std::thread::{self, Threads};
use trace_model::Bound;

/// The last of 2,100 locks. Two threads nest each of them with lock 1.
const LAST: u32 = 2_101;

/// Returns a trace in which thread 0 acquires each of 2,100 locks while it holds lock 1. Then
/// thread 1 acquires lock 1 while it holds each of them. Each two opposite pairs form a cycle. Only
/// the first cycle is confirmed: the others need another order of the sections of lock 1.
fn opposite_pairs(alloc: Global) -> io::Result<Vec<u8>> {
    let mut text = Vec::from_slice(alloc, b"0f1\n")?;
    for lock in 2..=LAST {
        writeln!(text, "0a1 0a{lock} 0r{lock} 0r1")?;
    }
    for lock in 2..=LAST {
        writeln!(text, "1a{lock} 1a1 1r1 1r{lock}")?;
    }
    Ok(text)
}

/// The beginning of the report on `opposite_pairs`. It does not depend on which thread computes
/// which task.
const FIRST: &[u8] = b"question 0 length 16801 bound 2 cycles 2100 confirmed 1
cycle 0 2100 confirmed
  thread 0 lock 2 holds 1 place 2
  thread 1 lock 1 holds 2 place 8402
  witness 0 1 8401
cycle 1 2101 potential
";

/// The number of tasks, one for each dependency.
const TASKS: u64 = 4_200;

// Enough for a thread that must compute fewer than a hundred tasks before a late one.
const YIELDS: u32 = 1_000_000;

/// The least late task: more tasks than a thread takes at once.
const LATE: u32 = 64;

/// A hold that blocks task 0 until a late task is held, and each late task until task 0 is held. It
/// adds up its calls, their questions, and their tasks.
#[derive(Drop)]
struct MeetLateTasks {
    meeting: Meeting,
    calls: AtomicU64,
    questions: AtomicU64,
    tasks: AtomicU64,
}

impl Hold for MeetLateTasks {
    fn hold(&self, question: u32, task: u32) {
        self.calls.fetch_add(1, Ordering::SeqCst);
        self.questions
            .fetch_add(u64::from(question), Ordering::SeqCst);
        self.tasks.fetch_add(u64::from(task), Ordering::SeqCst);
        if task == 0 || task >= LATE {
            self.meeting.come(task == 0, YIELDS);
        }
    }
}

/// Returns the report on `opposite_pairs`, computed with this hold.
fn report_with_hold(
    rt: &(impl RandomSource + AllocGlobal + Abort + Threads + Sync),
    hold: &MeetLateTasks,
) -> Result<Vec<u8>, Fail> {
    let events = read_events(rt.alloc(), &opposite_pairs(rt.alloc())?)?;
    let two = Bound::new(2).expect(rt, "a bound is 2 to 8");
    let report = offline_with(rt, rt.alloc(), RandomState::new(rt)?, events, two, hold)?;
    Ok(report)
}

#[test]
fn tasks_on_two_threads(rt: HostRuntime) -> Result<(), Fail> {
    // With one processor there may be only one thread, which would wait for itself.
    if thread::available_parallelism(&rt)?.get() < 2 {
        return Ok(());
    }
    let hold = MeetLateTasks {
        meeting: Meeting::new(),
        calls: AtomicU64::new(0),
        questions: AtomicU64::new(0),
        tasks: AtomicU64::new(0),
    };
    let report = report_with_hold(&rt, &hold)?;
    assert_eq!(rt; report.get(..FIRST.len()), Some(FIRST));
    drop(report);
    assert_eq!(rt; hold.meeting.came().0, 1, "task 0");
    assert!(rt; !hold.meeting.gave_up(), "a task waits in vain");
    let calls = hold.calls.load(Ordering::SeqCst);
    let questions = hold.questions.load(Ordering::SeqCst);
    let tasks = hold.tasks.load(Ordering::SeqCst);
    assert_eq!(rt;
        (calls, questions, tasks),
        (TASKS, 0, TASKS * (TASKS - 1) / 2)
    );
    Ok(())
}
