//! Jobs and findings that were made from a snapshot of the desk. A receipt shows that their events
//! are those of the question, so they are not compared again under the lock.

ghost use Rattle.std.specs.Prelude.{◌≡◌, ◌↔◌, Err, IfErr, IfOk, IsTrue};
ghost use Rattle.std.specs.Arc.{arc_value};
ghost use Rattle.desk.specs.Published.{Afterwards};
ghost use Rattle.desk.specs.Questions.{IsAboutEvents, IsJobOf};
ghost use Rattle.trace_model.specs.declared.limits.TheConstants.{MAX_CYCLES};
ghost use Rattle.trace_model.specs.Theory.Dependencies.{dependencies};
ghost use Rattle.cycle_search.specs.CycleSearch.{CycleFrom, MoreThan};
ghost use Rattle.findings.specs.TaskSearches.{ContinuesSearch, IsTaskSearch};

use board::{HistoryId, Receipt};
use findings::{Advanced, Analysis, ComputeRefused, Finding, Job, TaskSearch};
use std::alloc::Global;
use std::marker::Model;
use std::sync::Arc;
use trace_model::Bound;

/// A job for a question of the desk, with a receipt after which the question was open. Contracts
/// see it as the job.
pub(crate) struct OwnJob<N: HistoryId> {
    job: Job,
    receipt: Receipt<N>,
}

impl<N: HistoryId> Drop for OwnJob<N> {
    fn drop(self) {
        let OwnJob { job: _, receipt: _ } = self;
    }
}

impl<N: HistoryId> Model for OwnJob<N> {
    ghost use Rattle.findings.specs.Found.{AskedQuestion};
    ghost use Rattle.desk.specs.Published.{Afterwards};
    ghost use Rattle.desk.specs.Questions.{IsAboutEvents};

    ghost Value = { AskedQuestion };

    ghost view = { λ own. own.job };

    ghost invariant = { λ own.
        Afterwards N.limit own.receipt
        (λ state. IsAboutEvents state own.job.question own.job.events) };
}

impl<N: HistoryId> OwnJob<N> {
    /// Returns a job for a question. After the receipt's steps the question must cover exactly the
    /// analysis's events.
    pub(crate) fn new(
        alloc: Global,
        analysis: Arc<Analysis, Global>,
        question: u32,
        receipt: Receipt<N>,
    ) -> OwnJob<N>
        requires known { Afterwards N.limit receipt
            (λ state. IsAboutEvents state question (arc_value analysis).events) }
        ensures question { result.question ≡ question }
        ensures bound { result.bound ≡ (arc_value analysis).bound }
    {
        let job = Job::new(alloc, analysis, question);
        OwnJob { job, receipt }
    }

    /// Returns the number of the question.
    pub(crate) fn question(&self) -> u32
        ensures { result ≡ self.now.question }
    {
        self.job.question()
    }

    /// Returns a receipt after which the question covered exactly the job's events.
    pub(crate) fn receipt(&self) -> Receipt<N>
        ensures { Afterwards N.limit result
            (λ state. IsAboutEvents state self.now.question self.now.events) }
    {
        self.receipt.again()
    }

    /// Returns whether this is a job of the question with this number and bound.
    pub(crate) fn is_of(&self, question: u32, bound: Bound) -> bool
        ensures { IsTrue result ↔ IsJobOf question bound self.now }
    {
        self.job.question() == question && self.job.bound() == bound
    }

    /// Continues the search of a task, like `Job::advance`. The inner `Err` is the paused search.
    ///
    /// # Errors
    ///
    /// As of `Job::advance`.
    pub(crate) fn advance(
        &mut self,
        search: TaskSearch,
        visits: u64,
    ) -> Result<Result<OwnFinding<N>, TaskSearch>, ComputeRefused>
        requires search { IsTaskSearch self.old.events self.old.bound search }
        ensures same { self.new ≡ self.old }
        ensures found { IfOk result (λ advanced. IfOk advanced
            (λ own. (own.question ≡ self.old.question)
            × (own.bound ≡ self.old.bound) × (own.task ≡ search.task))) }
        ensures paused { IfOk result (λ advanced. IfErr advanced
            (ContinuesSearch self.old.events self.old.bound visits search)) }
        ensures too_many { result ≡ Err ComputeRefused.TooManyCycles →
            MoreThan (CycleFrom (dependencies self.old.events) self.old.bound search.task)
            MAX_CYCLES }
    {
        match self.job.advance(search, visits)? {
            Advanced::Finished(finding) => {
                let receipt = self.receipt.again();
                Ok(Ok(OwnFinding { finding, receipt }))
            }
            Advanced::Paused(later) => Ok(Err(later)),
        }
    }
}

/// A finding for a question of the desk, with a receipt after which the question was open.
/// Contracts see it as the finding.
pub(crate) struct OwnFinding<N: HistoryId> {
    finding: Finding,
    receipt: Receipt<N>,
}

impl<N: HistoryId> Drop for OwnFinding<N> {
    fn drop(self) {
        let OwnFinding {
            finding: _,
            receipt: _,
        } = self;
    }
}

impl<N: HistoryId> Model for OwnFinding<N> {
    ghost use Rattle.snapshots.specs.Found.{RowsOfTask};
    ghost use Rattle.desk.specs.Published.{Afterwards};
    ghost use Rattle.desk.specs.Questions.{IsAboutEvents};

    ghost Value = { RowsOfTask };

    ghost view = { λ own. own.finding };

    ghost invariant = { λ own.
        Afterwards N.limit own.receipt
        (λ state. IsAboutEvents state own.finding.question own.finding.events) };
}

impl<N: HistoryId> OwnFinding<N> {
    /// Returns the finding, and a receipt after which its question was open.
    pub(crate) fn into_parts(self) -> (Finding, Receipt<N>)
        ensures finding { result.0 ≡ self }
        ensures known { Afterwards N.limit result.1
            (λ state. IsAboutEvents state self.question self.events) }
    {
        let OwnFinding { finding, receipt } = self;
        (finding, receipt)
    }
}
