//! Computes tasks of one question one after another.

ghost use Rattle.std.specs.Prelude.{◌≡◌, ℕ, ◌<◌, ◌≤◌, length, IfOk, IfErr, IfSome, OnOk, Err};
ghost use Rattle.std.specs.Arc.{arc_value};
ghost use Rattle.std.specs.List.{All, Contains};
ghost use Rattle.std.specs.Option.{ForSome};
ghost use Rattle.trace_model.specs.declared.limits.TheConstants.{MAX_CYCLES};
ghost use Rattle.trace_model.specs.Theory.Dependencies.{dependencies};
ghost use Rattle.cycle_search.specs.CycleSearch.{CycleFrom, MoreThan};
ghost use Rattle.snapshots.specs.Found.{AreRowsOf};
ghost use Rattle.findings.specs.Analyses.{IsScratchOf};
ghost use Rattle.findings.specs.Collecting.{AcceptsRows, TookRows, RefusesRows};
ghost use Rattle.findings.specs.TaskSearches.{AdvancesTo, IsTaskSearch};

use crate::analysis::Analysis;
use crate::collecting::{RowsRefused, collect_by};
use crate::computing::ComputeRefused;
use crate::rows::{SearchedRows, rows_of, rows_within};
use crate::task_search::{Advanced, TaskSearch};
use cycle_search::Collector;
use reports::Row;
use snapshots::Finding;
use sp_closure::ClosureScratch;
use std::alloc::Global;
use std::marker::Model;
use std::sync::Arc;
use trace_model::Bound;

/// A question with its analysis, and the scratch memory of one thread. Contracts see it as the
/// question.
pub struct Job {
    alloc: Global,
    analysis: Arc<Analysis, Global>,
    question: u32,
    /// In a box, since it is large and each [`Job::collect`] moves it.
    scratch: Option<Box<ClosureScratch>>,
}

impl Drop for Job {
    fn drop(self) {
        let Job {
            alloc: _,
            analysis: _,
            question: _,
            scratch: _,
        } = self;
    }
}

impl Model for Job {
    ghost use Rattle.std.specs.Arc.{arc_value};
    ghost use Rattle.std.specs.Option.{ForSome};
    ghost use Rattle.findings.specs.Analyses.{IsScratchOf};
    ghost use Rattle.findings.specs.Found.{AskedQuestion};

    ghost Value = { AskedQuestion };

    ghost view = { λ j. record {
      question = j.question;
      bound = (arc_value j.analysis).bound;
      events = (arc_value j.analysis).events;
    } };

    ghost invariant = { λ j. ForSome j.scratch
        (IsScratchOf (arc_value j.analysis).events (arc_value j.analysis).requirements) };
}

impl Job {
    /// Returns a job for the question with this number. The number is only copied into findings.
    /// Does not allocate.
    pub fn new(alloc: Global, analysis: Arc<Analysis, Global>, question: u32) -> Job
        ensures { result ≡ record {
          question = question;
          bound = (arc_value analysis).bound;
          events = (arc_value analysis).events;
        } }
    {
        Job {
            alloc,
            analysis,
            question,
            scratch: None,
        }
    }

    /// Returns the number of the question. Does not allocate.
    pub fn question(&self) -> u32
        ensures { result ≡ self.now.question }
    {
        self.question
    }

    /// Returns the bound of the question. Does not allocate.
    pub fn bound(&self) -> Bound
        ensures { result ≡ self.now.bound }
    {
        self.analysis.bound()
    }

    /// Computes the rows of a task: one for each cycle of at most `bound` members whose first
    /// member is the task's dependency. A task past the last one has no rows. The job can compute
    /// further tasks after any result.
    ///
    /// # Errors
    /// - `TooManyCycles` only if the task has more than `MAX_CYCLES` cycles.
    /// - `NoMemory` if an allocation fails.
    pub fn compute(&mut self, task: u32) -> Result<Finding, ComputeRefused>
        ensures same { self.new ≡ self.old }
        ensures asked { IfOk result (λ f. (f.question ≡ self.old.question)
            × (f.bound ≡ self.old.bound) × (f.task ≡ task) × (f.events ≡ self.old.events)) }
        ensures too_many { result ≡ Err ComputeRefused.TooManyCycles →
            MoreThan (CycleFrom (dependencies self.old.events) self.old.bound task) MAX_CYCLES }
    {
        finding_of(
            self.alloc,
            &self.analysis,
            self.question,
            &mut self.scratch,
            task,
        )
    }

    /// Continues the search of a task. Returns its finding, as [`Job::compute`] does, or after
    /// `visits` visited members the search, paused: later than before, if `visits` is not 0. The
    /// job can compute further tasks after any result.
    ///
    /// The caller passes a new search, or one that a job with the same events and bound paused.
    ///
    /// # Errors
    /// - `TooManyCycles` only if the task has more than `MAX_CYCLES` cycles.
    /// - `NoMemory` if an allocation fails. The search is dropped.
    pub fn advance(&mut self, search: TaskSearch, visits: u64) -> Result<Advanced, ComputeRefused>
        requires search { IsTaskSearch self.old.events self.old.bound search }
        ensures same { self.new ≡ self.old }
        ensures advanced { IfOk result (AdvancesTo self.old visits search) }
        ensures too_many { result ≡ Err ComputeRefused.TooManyCycles →
            MoreThan (CycleFrom (dependencies self.old.events) self.old.bound search.task)
            MAX_CYCLES }
    {
        advanced_by(
            self.alloc,
            &self.analysis,
            self.question,
            &mut self.scratch,
            search,
            visits,
        )
    }

    /// Gives the rows of a task to the collector, in their order, and returns it. They are those of
    /// [`Job::compute`], but no row is kept. The job can compute further tasks after any result.
    ///
    /// The caller passes a collector that accepts each row.
    ///
    /// # Errors
    /// - `Refused` if the collector refuses a row.
    /// - `NoMemory` if an allocation fails.
    pub fn collect<C: Collector<Row> + Drop>(
        &mut self,
        task: u32,
        rows: C,
    ) -> Result<C, RowsRefused<C::Refused>>
        requires accepts { AcceptsRows C.taking rows }
        ensures same { self.new ≡ self.old }
        ensures rows { IfOk result (TookRows C.taking self.old.events
            (CycleFrom (dependencies self.old.events) self.old.bound task) rows) }
        ensures refused { IfErr result (RefusesRows C.taking self.old.events
            (CycleFrom (dependencies self.old.events) self.old.bound task) rows) }
    {
        collected_by(&self.analysis, &mut self.scratch, self.alloc, task, rows)
    }
}

/// Returns the finding of a task.
///
/// # Errors
/// - `TooManyCycles` only if the task has more than `MAX_CYCLES` cycles.
/// - `NoMemory` if an allocation fails.
fn finding_of(
    alloc: Global,
    analysis: &Analysis,
    question: u32,
    scratch: &mut Option<Box<ClosureScratch>>,
    task: u32,
) -> Result<Finding, ComputeRefused>
    requires scratch { ForSome scratch.old
        (IsScratchOf analysis.now.events analysis.now.requirements) }
    ensures scratch { ForSome scratch.new
        (IsScratchOf analysis.now.events analysis.now.requirements) }
    ensures asked { IfOk result (λ f. (f.question ≡ question) × (f.bound ≡ analysis.now.bound)
        × (f.task ≡ task) × (f.events ≡ analysis.now.events)) }
    ensures too_many { result ≡ Err ComputeRefused.TooManyCycles →
        MoreThan (CycleFrom (dependencies analysis.now.events) analysis.now.bound task)
        MAX_CYCLES }
{
    let Ok(snapshot) = Arc::try_clone(&analysis.snapshot) else {
        return Err(ComputeRefused::NoMemory);
    };
    let rows = rows_of(
        alloc,
        &snapshot,
        &analysis.tables,
        scratch,
        analysis.bound,
        task,
    )?;
    Ok(Finding::of(snapshot, question, analysis.bound, task, rows))
}

/// Continues the search of a task. See [`Job::advance`].
///
/// # Errors
/// Those of [`Job::advance`].
fn advanced_by(
    alloc: Global,
    analysis: &Analysis,
    question: u32,
    scratch: &mut Option<Box<ClosureScratch>>,
    search: TaskSearch,
    visits: u64,
) -> Result<Advanced, ComputeRefused>
    requires scratch { ForSome scratch.old
        (IsScratchOf analysis.now.events analysis.now.requirements) }
    requires search { IsTaskSearch analysis.now.events analysis.now.bound search }
    ensures scratch { ForSome scratch.new
        (IsScratchOf analysis.now.events analysis.now.requirements) }
    ensures advanced { IfOk result (AdvancesTo (record {
      question = question;
      bound = analysis.now.bound;
      events = analysis.now.events;
    }) visits search) }
    ensures too_many { result ≡ Err ComputeRefused.TooManyCycles →
        MoreThan (CycleFrom (dependencies analysis.now.events) analysis.now.bound search.task)
        MAX_CYCLES }
{
    let Ok(snapshot) = Arc::try_clone(&analysis.snapshot) else {
        return Err(ComputeRefused::NoMemory);
    };
    let task = search.task;
    let bound = analysis.bound;
    let searched = rows_within(
        alloc,
        &snapshot,
        &analysis.tables,
        scratch,
        bound,
        search,
        visits,
    )?;
    match searched {
        SearchedRows::All(rows) => Ok(Advanced::Finished(Finding::of(
            snapshot, question, bound, task, rows,
        ))),
        SearchedRows::Paused(later) => Ok(Advanced::Paused(later)),
    }
}

/// Gives the rows of a task to the collector. See [`Job::collect`].
///
/// # Errors
/// Those of [`Job::collect`].
fn collected_by<C: Collector<Row> + Drop>(
    analysis: &Analysis,
    scratch: &mut Option<Box<ClosureScratch>>,
    alloc: Global,
    task: u32,
    rows: C,
) -> Result<C, RowsRefused<C::Refused>>
    requires scratch { ForSome scratch.old
        (IsScratchOf analysis.now.events analysis.now.requirements) }
    requires accepts { AcceptsRows C.taking rows }
    ensures scratch { ForSome scratch.new
        (IsScratchOf analysis.now.events analysis.now.requirements) }
    ensures rows { IfOk result (TookRows C.taking analysis.now.events
        (CycleFrom (dependencies analysis.now.events) analysis.now.bound task) rows) }
    ensures refused { IfErr result (RefusesRows C.taking analysis.now.events
        (CycleFrom (dependencies analysis.now.events) analysis.now.bound task) rows) }
{
    collect_by(
        alloc,
        &analysis.snapshot,
        &analysis.tables,
        scratch,
        analysis.bound(),
        task,
        rows,
    )
}
