//! Computes the parts of all tasks.
ghost use Rattle.std.specs.Prelude.{◌≡◌, ℕ, ◌-◌, ◌^◌, [], length, true, IfOk, IfSome};
ghost use Rattle.std.specs.Arc.{arc_value};
ghost use Rattle.std.proofs.Props.{props};
ghost use Rattle.trace_model.specs.Theory.Dependencies.{dependencies};
ghost use Rattle.trace_model.specs.Theory.Trace.{Trace};
ghost use Rattle.offline_report.specs.Offline.{AreAllParts, ArePartsWithin, IsTask, IsTaskWithin};

use crate::gathering::{Computes, gather};
use crate::parts::{Part, are_too_long, are_whole};
use crate::refused::OfflineRefused;
use crate::task_rows::{EarlyEnd, TaskRows};
use findings::{Analysis, Hold, Job, RowsRefused};
use std::alloc::{AllocError, Global};
use std::marker::{Brand, PhantomData};
use std::sync::Arc;
use std::sync::atomic::{AtomicBool, AtomicU64, Ordering};
use std::thread::Threads;
use trace_model::MAX_REPORT;

#[cfg(test)]
mod early_end_tests;

/// The number of the question that is asked about a file.
const QUESTION: u32 = 0;

/// The events and the bound of a question, and the limit of its texts, as ghost members. Only
/// proofs read them.
pub trait About {
    ghost events: { Trace };

    ghost bound: { ℕ };

    ghost limit: { ℕ };
}

impl About for Brand {
    ghost events = { [] };

    ghost bound = { 0 };

    ghost limit = { 0 };
}

/// What the tasks of one piece share: their job, if there is one. The type says that it is for the
/// named question.
#[derive(Drop)]
struct Piece<A: About> {
    alloc: Global,
    job: Option<Job>,
    name: PhantomData<A>,
    ghost about: { IfSome job (λ job. (job.events ≡ A.events)
        × (job.bound ≡ A.bound)) } by { Prim.hlevel props },
}

impl<A: About> Piece<A> {
    /// Returns a piece of which no task is computed. It has no job if the analysis cannot be shared
    /// once more.
    fn new(alloc: Global, analysis: &Arc<Analysis, Global>) -> Piece<A>
        requires events { (arc_value analysis.now).events ≡ A.events }
        requires bound { (arc_value analysis.now).bound ≡ A.bound }
    {
        let job = match Arc::try_clone(analysis) {
            Ok(analysis) => Some(Job::new(alloc, analysis, QUESTION)),
            Err(_) => None,
        };
        Piece {
            alloc,
            job,
            name: PhantomData,
        }
    }

    /// Returns the part of a task. It has all rows, unless the tasks have written more bytes than
    /// `limit` by then. Calls the hold when all rows are computed.
    ///
    /// # Errors
    /// `NoMemory` if an allocation fails, or the piece has no job.
    fn part<H: Hold>(
        &mut self,
        hold: &H,
        task: u32,
        written: &AtomicU64,
        limit: u64,
    ) -> Result<Part, OfflineRefused>
        ensures task { IsTask A.events A.bound task result }
        ensures whole { limit ≡ 2 ^ 64 - 1 → IfOk result (λ part. part.is_whole ≡ true) }
    {
        let Some(job) = &mut self.job else {
            return Err(OfflineRefused::NoMemory);
        };
        match job.collect(task, TaskRows::new(self.alloc, written, limit)) {
            Ok(mut rows) => {
                let Ok(part) = rows.part(true) else {
                    return Err(OfflineRefused::NoMemory);
                };
                hold.hold(QUESTION, task);
                Ok(part)
            }
            Err(RowsRefused::Refused(EarlyEnd::Over(part))) => Ok(part),
            Err(_) => Err(OfflineRefused::NoMemory),
        }
    }
}

/// The named question, with its analysis, and what the threads tell each other.
#[derive(Drop)]
struct Question<'a, A: About, H: Hold> {
    alloc: Global,
    analysis: &'a Arc<Analysis, Global>,
    hold: &'a H,
    /// Whether an allocation failed. Then no further task is computed.
    lacks_memory: AtomicBool,
    /// The number of bytes that the tasks have written.
    written: AtomicU64,
    /// The number of bytes after which no task goes on.
    limit: u64,
    name: PhantomData<A>,
    ghost events: { (arc_value analysis.now).events ≡ A.events },
    ghost bounded: { (arc_value analysis.now).bound ≡ A.bound },
    ghost limited: { limit ≡ A.limit },
}

impl<'a, A: About, H: Hold> Question<'a, A, H> {
    /// Notes that an allocation failed, if it did.
    fn note(&self, part: &Result<Part, OfflineRefused>) {
        if let Err(OfflineRefused::NoMemory) = part {
            self.lacks_memory.store(true, Ordering::SeqCst);
        }
    }
}

impl<'a, A: About + Send + Sync, H: Hold + Sync> Computes for Question<'a, A, H> {
    type Piece = Piece<A>;

    type Given = Part;

    ghost may_give = { IsTaskWithin A.events A.bound A.limit };

    fn are_short(&self) -> bool {
        self.analysis.has_no_cycle()
    }

    fn piece(&self) -> Piece<A> {
        Piece::new(self.alloc, self.analysis)
    }

    fn compute(&self, piece: &mut Piece<A>, task: u32) -> Result<Part, OfflineRefused> {
        if self.lacks_memory.load(Ordering::SeqCst) {
            return Err(OfflineRefused::NoMemory);
        }
        if self.written.load(Ordering::SeqCst) > self.limit {
            return Ok(Part::not_computed());
        }
        let part = piece.part(self.hold, task, &self.written, self.limit);
        self.note(&part);
        part
    }
}

/// Returns the parts of all tasks of the named question, in the order of the tasks.
///
/// # Errors
/// `AllocError` if an allocation fails.
fn compute_all<A: About + Send + Sync, R: Threads + Sync, H: Hold + Sync>(
    rt: &R,
    alloc: Global,
    analysis: &Arc<Analysis, Global>,
    tasks: u32,
    hold: &H,
    limit: u64,
) -> Result<Result<Vec<Part>, OfflineRefused>, AllocError>
    requires events { (arc_value analysis.now).events ≡ A.events }
    requires bound { (arc_value analysis.now).bound ≡ A.bound }
    requires limit { limit ≡ A.limit }
    requires tasks { tasks ≡ length (dependencies A.events) }
    ensures { IfOk result (ArePartsWithin A.events A.bound A.limit) }
{
    let question: Question<'_, A, H> = Question {
        alloc,
        analysis,
        hold,
        lacks_memory: AtomicBool::new(false),
        written: AtomicU64::new(0),
        limit,
        name: PhantomData,
    };
    gather(rt, alloc, tasks, &question)
}

/// Returns the parts of all tasks of the analysis, in the order of the tasks. No task goes on when
/// the tasks have written more than `limit` bytes. Each task calls the hold when all its rows are
/// computed.
///
/// The caller passes the number of all tasks.
///
/// # Errors
/// `NoMemory` if an allocation fails. Tasks that were not begun by then are not computed.
fn parts_within<R: Threads + Sync, H: Hold + Sync>(
    rt: &R,
    alloc: Global,
    analysis: &Arc<Analysis, Global>,
    tasks: u32,
    hold: &H,
    limit: u64,
) -> Result<Vec<Part>, OfflineRefused>
    requires { tasks ≡ length (dependencies (arc_value analysis.now).events) }
    ensures { ArePartsWithin (arc_value analysis.now).events (arc_value analysis.now).bound limit
        result }
{
    match compute_all::<Brand, R, H>(rt, alloc, analysis, tasks, hold, limit) {
        Ok(computed) => computed,
        Err(_) => Err(OfflineRefused::NoMemory),
    }
}

/// Returns the parts of all tasks of the analysis, in the order of the tasks. Each has all rows of
/// its task, unless the texts of the parts are too long together for a report: then the tasks end
/// as soon as this is so. Each task calls the hold when all its rows are computed.
///
/// The caller passes the number of all tasks.
///
/// # Errors
/// `NoMemory` if an allocation fails. Tasks that were not begun by then are not computed.
pub(crate) fn parts_of<R: Threads + Sync, H: Hold + Sync>(
    rt: &R,
    alloc: Global,
    analysis: &Arc<Analysis, Global>,
    tasks: u32,
    hold: &H,
) -> Result<Vec<Part>, OfflineRefused>
    requires { tasks ≡ length (dependencies (arc_value analysis.now).events) }
    ensures { AreAllParts (arc_value analysis.now).events (arc_value analysis.now).bound result }
{
    let parts = parts_within(rt, alloc, analysis, tasks, hold, MAX_REPORT as u64)?;
    // The count of the bytes decides when the tasks end. The texts decide what is right.
    if are_whole(&parts) || are_too_long(&parts) {
        return Ok(parts);
    }
    parts_within(rt, alloc, analysis, tasks, hold, u64::MAX)
}
