//! Tests that each task is computed once, whichever threads compute the tasks.
ghost use Rattle.std.specs.Prelude.{◌≡◌, Ok};

use super::{Computes, gather};
use crate::refused::OfflineRefused;
use std::sync::atomic::{AtomicU64, Ordering};
use std::test::*;

/// Squares the number of each task, and counts the calls.
#[derive(Drop)]
struct Squares {
    calls: AtomicU64,
    short: bool,
}

/// Returns the square of the number of a task.
fn square(task: u32) -> u64 {
    u64::from(task).saturating_mul(u64::from(task))
}

impl Computes for Squares {
    ghost use Rattle.std.specs.Prelude.{ℕ, Result, ⊤};

    type Piece = ();

    type Given = u64;

    ghost may_give = { λ task result. ⊤ };

    fn are_short(&self) -> bool {
        self.short
    }

    fn piece(&self) {}

    fn compute(&self, _piece: &mut (), task: u32) -> Result<u64, OfflineRefused> {
        self.calls.fetch_add(1, Ordering::SeqCst);
        Ok(square(task))
    }
}

#[test]
fn each_task_is_computed_once(rt: HostRuntime) -> Result<(), Fail> {
    // Around the tasks that a thread takes at once, and the least number of tasks of two threads.
    for tasks in [0u32, 1, 7, 8, 9, 31, 32, 33, 1000] {
        for short in [false, true] {
            let squares = Squares {
                calls: AtomicU64::new(0),
                short,
            };
            let all = gather(&rt, rt.alloc(), tasks, &squares)??;
            assert_eq!(rt; all.len(), tasks as usize, "{tasks} tasks, short: {short}");
            for task in 0..tasks {
                assert_eq!(rt;
                    all.get(task as usize).copied(),
                    Some(square(task)),
                    "of {tasks} tasks, short: {short}"
                );
            }
            let calls = squares.calls.load(Ordering::SeqCst);
            assert_eq!(rt; calls, u64::from(tasks), "{tasks} tasks, short: {short}");
        }
    }
    Ok(())
}

/// Refuses one task.
#[derive(Drop)]
struct Refuses {
    task: u32,
}

impl Computes for Refuses {
    ghost use Rattle.std.specs.Prelude.{ℕ, Result, ⊤};

    type Piece = ();

    type Given = u64;

    ghost may_give = { λ task result. ⊤ };

    fn are_short(&self) -> bool {
        false
    }

    fn piece(&self) {}

    fn compute(&self, _piece: &mut (), task: u32) -> Result<u64, OfflineRefused> {
        if task == self.task {
            Err(OfflineRefused::TooManyCycles)
        } else {
            Ok(square(task))
        }
    }
}

#[test]
fn the_error_of_a_task_is_returned(rt: HostRuntime) -> Result<(), Fail> {
    for tasks in [1u32, 31, 32, 1000] {
        for task in [0, tasks / 2, tasks - 1] {
            let gathered = gather(&rt, rt.alloc(), tasks, &Refuses { task })?;
            let refused = gathered.err();
            assert_eq!(rt;
                refused,
                Some(OfflineRefused::TooManyCycles),
                "{task} of {tasks}"
            );
        }
    }
    Ok(())
}
