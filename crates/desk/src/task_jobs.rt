//! Jobs with a task, and those that a worker keeps while their search is paused.

ghost use Rattle.std.specs.Prelude.{◌≡◌, ◌<◌, ◌≤◌, ◌↔◌, ℕ, [], length, nat_eq, IfSome, IsTrue, None, OnOk, Some, if◌then◌else◌};
ghost use Rattle.std.specs.Option.{ForSome};
ghost use Rattle.findings.specs.TaskSearches.{IsTaskSearch};
ghost use Rattle.desk.specs.Questions.{IsJobOf};
ghost use Rattle.desk.specs.Turns.{KeepsNone, paused_at};

use crate::desk::Desk;
use crate::own::OwnJob;
use board::{BoardValue, HistoryId};
use findings::TaskSearch;
use std::alloc::Global;
use std::marker::Model;
use std::mem;
use std::sync::Wait;
use trace_model::{Bound, NoMemory};

/// A job with the search of one of its tasks, before its first step or paused. Contracts see both.
pub(crate) struct TaskJob<N: HistoryId> {
    job: OwnJob<N>,
    search: TaskSearch,
    /// Whether all tasks of its question were drawn before.
    all_drawn: bool,
}

impl<N: HistoryId> Drop for TaskJob<N> {
    fn drop(self) {
        let TaskJob {
            job: _,
            search: _,
            all_drawn: _,
        } = self;
    }
}

impl<N: HistoryId> Model for TaskJob<N> {
    ghost use Rattle.findings.specs.TaskSearches.{IsTaskSearch};
    ghost use Rattle.desk.specs.Turns.{TaskJobView};

    ghost Value = { TaskJobView };

    ghost view = { λ j. record { asked = j.job; search = j.search } };

    ghost invariant = { λ j. IsTaskSearch j.job.events j.job.bound j.search };
}

impl<N: HistoryId> TaskJob<N> {
    /// Returns the job with this search, which must be one of its events and bound.
    pub(crate) fn new(job: OwnJob<N>, search: TaskSearch, all_drawn: bool) -> TaskJob<N>
        requires search { IsTaskSearch job.events job.bound search }
        ensures { result ≡ record { asked = job; search = search } }
    {
        TaskJob {
            job,
            search,
            all_drawn,
        }
    }

    /// Returns whether this is a job of the question with this number and bound.
    pub(crate) fn is_of(&self, question: u32, bound: Bound) -> bool
        ensures { IsTrue result ↔ IsJobOf question bound self.now.asked }
    {
        self.job.is_of(question, bound)
    }

    /// Returns the task.
    pub(crate) fn task(&self) -> u32
        ensures { result ≡ self.now.search.task }
    {
        self.search.task()
    }

    /// Returns whether all tasks of the question were drawn when this one was picked.
    pub(crate) fn all_drawn(&self) -> bool {
        self.all_drawn
    }

    /// Returns the job and the search.
    pub(crate) fn into_parts(self) -> (OwnJob<N>, TaskSearch)
        ensures job { result.0 ≡ self.asked }
        ensures search { result.1 ≡ self.search }
        ensures searches { IsTaskSearch result.0.events result.0.bound result.1 }
    {
        let TaskJob {
            job,
            search,
            all_drawn: _,
        } = self;
        (job, search)
    }
}

/// The jobs whose search is paused, at most one for each question. Contracts see them as a list,
/// by the number of the question.
pub(crate) struct TaskJobs<N: HistoryId> {
    alloc: Global,
    jobs: Vec<Option<TaskJob<N>>>,
}

impl<N: HistoryId> Drop for TaskJobs<N> {
    fn drop(self) {
        let TaskJobs { alloc: _, jobs: _ } = self;
    }
}

impl<N: HistoryId> Model for TaskJobs<N> {
    ghost use Rattle.std.specs.Prelude.{List, Option};
    ghost use Rattle.desk.specs.Turns.{TaskJobView};

    ghost Value = { List (Option TaskJobView) };

    ghost view = { λ j. j.jobs.items };
}

impl<N: HistoryId> TaskJobs<N> {
    /// Keeps no job. Does not allocate.
    pub(crate) fn new(alloc: Global) -> TaskJobs<N>
        ensures { result ≡ [] }
    {
        TaskJobs {
            alloc,
            jobs: Vec::new(alloc),
        }
    }

    /// Reserves memory for a job of the question with this number.
    ///
    /// # Errors
    ///
    /// `NoMemory` if an allocation fails.
    pub(crate) fn reserve(&mut self, question: u8) -> Result<(), NoMemory>
        ensures same { (other : ℕ) → paused_at self.new other ≡ paused_at self.old other }
        ensures room { OnOk result (question < length self.new) }
    {
        grow(&mut self.jobs, usize::from(question) + 1)
    }

    /// Removes the job of the question with this number and bound.
    pub(crate) fn take(&mut self, question: u8, bound: Bound) -> Option<TaskJob<N>>
        ensures taken { IfSome result (λ job. (paused_at self.old question ≡ Some job)
            × IsJobOf question bound job.asked) }
        ensures none { result ≡ None → ForSome (paused_at self.old question)
            (λ job. IsJobOf question bound job.asked → ⊥) }
        ensures jobs { (other : ℕ) → paused_at self.new other ≡
            (if nat_eq question other then None else paused_at self.old other) }
        ensures room { length self.new ≡ length self.old }
    {
        taken_at(&mut self.jobs, question, bound)
    }

    /// Keeps a job of the question with this number, for which there is room.
    pub(crate) fn put(&mut self, question: u8, job: TaskJob<N>)
        requires room { question < length self.old }
        ensures { (other : ℕ) → paused_at self.new other ≡
            (if nat_eq question other then Some job else paused_at self.old other) }
    {
        self.jobs[usize::from(question)] = Some(job);
    }

    /// Returns whether no job is kept.
    pub(crate) fn is_empty(&self) -> bool
        ensures { IsTrue result → KeepsNone self.now }
    {
        self.jobs.iter().all(|job| job.is_none())
    }

    /// Ends all jobs.
    pub(crate) fn end<R: Wait + Copy, T: BoardValue<N>>(&mut self, desk: &Desk<N, R, T>)
        ensures { self.new ≡ [] }
    {
        let jobs = mem::replace(&mut self.jobs, Vec::new(self.alloc));
        for job in jobs {
            if let Some(job) = job {
                let (job, search) = job.into_parts();
                drop(search);
                desk.end_job(job);
            }
        }
    }
}

/// Makes the list at least this long.
#[tactic(auto, using(crate::proofs::PausedAt::paused_push))]
fn grow<N: HistoryId>(jobs: &mut Vec<Option<TaskJob<N>>>, len: usize) -> Result<(), NoMemory>
    ensures same { (number : ℕ) →
        paused_at jobs.new.items number ≡ paused_at jobs.old.items number }
    ensures grown { OnOk result (len ≤ length jobs.new.items) }
{
    for _ in jobs.len()..len {
        jobs.push(None)?;
    }
    Ok(())
}

/// Removes the job of the question with this number and bound. A job of another one at its place
/// is dropped.
fn taken_at<N: HistoryId>(
    jobs: &mut Vec<Option<TaskJob<N>>>,
    question: u8,
    bound: Bound,
) -> Option<TaskJob<N>>
    ensures taken { IfSome result (λ job. (paused_at jobs.old.items question ≡ Some job)
        × IsJobOf question bound job.asked) }
    ensures none { result ≡ None → ForSome (paused_at jobs.old.items question)
        (λ job. IsJobOf question bound job.asked → ⊥) }
    ensures jobs { (other : ℕ) → paused_at jobs.new.items other ≡
        (if nat_eq question other then None else paused_at jobs.old.items other) }
    ensures room { length jobs.new.items ≡ length jobs.old.items }
{
    let job = removed_at(jobs, question)?;
    if job.is_of(u32::from(question), bound) {
        Some(job)
    } else {
        None
    }
}

/// Removes the job at the place of the question with this number.
fn removed_at<N: HistoryId>(jobs: &mut Vec<Option<TaskJob<N>>>, question: u8) -> Option<TaskJob<N>>
    ensures removed { result ≡ paused_at jobs.old.items question }
    ensures jobs { (other : ℕ) → paused_at jobs.new.items other ≡
        (if nat_eq question other then None else paused_at jobs.old.items other) }
    ensures room { length jobs.new.items ≡ length jobs.old.items }
{
    let number = usize::from(question);
    if number >= jobs.len() {
        return None;
    }
    mem::replace(&mut jobs[number], None)
}
