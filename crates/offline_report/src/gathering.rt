//! Computes the tasks on several threads.
ghost use Rattle.std.specs.Prelude.{◌≡◌, ℕ, length, Result, IfOk};
ghost use Rattle.std.specs.List.{All};
ghost use Rattle.offline_report.specs.Gathering.{AreGiven, AreGathered, AreTaken, HoldGiven};
ghost use Rattle.offline_report.specs.declared.refused.OfflineRefused.{OfflineRefused};

use crate::refused::OfflineRefused;
use rayon::current_num_threads;
use rayon::prelude::*;
use std::alloc::{AllocError, Global};
use std::sync::atomic::{AtomicU64, Ordering};
use std::thread::Threads;

#[cfg(test)]
mod computed_once_tests;

/// The least number of tasks for each thread. A thread has scratch memory of its own.
const LEAST_TASKS: usize = 16;

/// How many tasks a thread takes at once. The tasks differ much in length.
const TAKEN: u32 = 8;

/// Computes tasks, from several threads.
pub(crate) trait Computes: Sync {
    /// What the tasks of one thread share.
    type Piece: Send + Drop;
    /// The result of a task.
    type Given: Send + Drop;

    /// The results that a task may have.
    ghost may_give: { ℕ → Result Self.Given OfflineRefused → Type 0 };

    /// Returns whether the tasks are too short for several threads. No result depends on it.
    fn are_short(&self) -> bool;

    /// Returns a piece of which no task is computed.
    fn piece(&self) -> Self::Piece;

    /// Computes a task of the piece.
    fn compute(&self, piece: &mut Self::Piece, task: u32) -> Result<Self::Given, OfflineRefused>
        ensures { may_give task result };
}

/// A computed task.
#[derive(Drop)]
pub(crate) struct Done<T: Drop> {
    task: u32,
    given: T,
}

/// Computes tasks that no other thread has taken, until all are taken or one fails. `next` is the
/// first task that is not taken.
///
/// # Errors
/// `AllocError` if an allocation fails. In the result, the error of a task.
fn take_tasks<C: Computes>(
    alloc: Global,
    tasks: u32,
    next: &AtomicU64,
    computer: &C,
) -> Result<Result<Vec<Done<C::Given>>, OfflineRefused>, AllocError>
    ensures { IfOk result (AreTaken C.may_give tasks) }
{
    let mut piece = computer.piece();
    let mut done = Vec::new(alloc);
    for _turn in 0..tasks {
        let first = next.fetch_add(u64::from(TAKEN), Ordering::SeqCst);
        if first >= u64::from(tasks) {
            break;
        }
        let first = first as u32;
        for task in first..tasks.min(first.saturating_add(TAKEN)) {
            match computer.compute(&mut piece, task) {
                Ok(given) => done.push(Done { task, given })?,
                Err(refused) => return Ok(Err(refused)),
            }
        }
    }
    Ok(Ok(done))
}

/// Computes the tasks on this number of threads. Returns the computed tasks of each thread, or the
/// error of one of them.
///
/// # Errors
/// `AllocError` if an allocation fails.
fn take_all<R: Threads + Sync, C: Computes>(
    rt: &R,
    alloc: Global,
    tasks: u32,
    threads: usize,
    computer: &C,
) -> Result<Vec<Result<Vec<Done<C::Given>>, OfflineRefused>>, AllocError>
    ensures { IfOk result (λ lists. All (AreTaken C.may_give tasks) lists.items) }
{
    let next = AtomicU64::new(0);
    let lists: Result<Vec<Result<Vec<Done<C::Given>>, OfflineRefused>>, AllocError> = (0..threads)
        .into_par_iter()
        .with_min_len(1)
        .map(
            |_thread: usize| -> Result<Result<Vec<Done<C::Given>>, OfflineRefused>, AllocError>
                ensures { IfOk result (AreTaken C.may_give tasks) }
            { take_tasks(alloc, tasks, &next, computer) },
        )
        .collect(rt, alloc)?;
    lists
}

/// Returns a slot without a result for each task.
///
/// # Errors
/// `AllocError` if an allocation fails.
fn no_results<C: Computes>(alloc: Global, tasks: u32) -> Result<Vec<Option<C::Given>>, AllocError>
    ensures each { IfOk result (λ slots. length slots.items ≡ tasks) }
    ensures held { IfOk result (λ slots. HoldGiven C.may_give slots.items) }
{
    let mut slots = Vec::with_capacity(alloc, tasks as usize)?;
    for _task in 0..tasks {
        slots.push(None)?;
    }
    Ok(slots)
}

/// Puts each result at its task.
fn put_results<C: Computes>(
    _tasks: u32,
    slots: &mut Vec<Option<C::Given>>,
    done: Vec<Done<C::Given>>,
)
    requires held { HoldGiven C.may_give slots.old.items }
    requires given { AreGiven C.may_give _tasks done }
    ensures length { length slots.new.items ≡ length slots.old.items }
    ensures held { HoldGiven C.may_give slots.new.items }
{
    for one in done {
        let Done { task, given } = one;
        if (task as usize) < slots.len() {
            slots[task as usize] = Some(given);
        }
    }
}

/// Returns the results of all tasks in their order, or the error of one of them. Computes those
/// that `slots` lacks.
///
/// # Errors
/// `AllocError` if an allocation fails.
fn in_order<C: Computes>(
    alloc: Global,
    tasks: u32,
    computer: &C,
    slots: &mut [Option<C::Given>],
) -> Result<Result<Vec<C::Given>, OfflineRefused>, AllocError>
    requires each { length slots.old ≡ tasks }
    requires held { HoldGiven C.may_give slots.old }
    ensures { IfOk result (AreGathered C.may_give tasks) }
{
    let mut piece = computer.piece();
    let mut all = Vec::with_capacity(alloc, tasks as usize)?;
    for task in 0..tasks {
        let known = slots[task as usize].take();
        let result = match known {
            Some(given) => Ok(given),
            None => computer.compute(&mut piece, task),
        };
        match result {
            Ok(given) => all.push(given)?,
            Err(refused) => return Ok(Err(refused)),
        }
    }
    Ok(Ok(all))
}

/// Returns the results of `tasks` tasks, in their order, or the error of one of them.
///
/// # Errors
/// `AllocError` if an allocation fails.
pub(crate) fn gather<R: Threads + Sync, C: Computes>(
    rt: &R,
    alloc: Global,
    tasks: u32,
    computer: &C,
) -> Result<Result<Vec<C::Given>, OfflineRefused>, AllocError>
    ensures { IfOk result (AreGathered C.may_give tasks) }
{
    let mut slots = no_results::<C>(alloc, tasks)?;
    let threads = current_num_threads(rt).min(tasks as usize / LEAST_TASKS);
    if threads > 1 && !computer.are_short() {
        for taken in take_all(rt, alloc, tasks, threads, computer)? {
            match taken {
                Ok(done) => put_results::<C>(tasks, &mut slots, done),
                Err(refused) => return Ok(Err(refused)),
            }
        }
    }
    in_order(alloc, tasks, computer, &mut slots)
}
