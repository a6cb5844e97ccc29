//! The state of a question: its tasks and their rows.

ghost use Rattle.std.specs.Prelude.{◌≡◌, ℕ, ◌+◌, ◌<◌, ◌≤◌, ◌^◌, length, map, replicate, slice_get, slice_set, None, Some, IfOk, OnErr, MatchOption};
ghost use Rattle.std.specs.Result.{result_err};
ghost use Rattle.trace_model.specs.declared.limits.TheConstants.{MIN_BOUND, MAX_BOUND};
ghost use Rattle.trace_model.specs.Protocol.Machine.{cycles_of, confirmed_of, task_refused};
ghost use Rattle.result_ledger.specs.Tasks.{AreShared, IsMissing, IsLeastMissing};
ghost use Rattle.sequencer.specs.QuestionState.{question_of};

use reports::{Row, confirmed_in};
use result_ledger::{Ledger, LedgerRefused, SharedTasks};
use std::alloc::Global;
use std::marker::Model;
use trace_model::{Bound, NoMemory, Refusal};

/// A question about the first `length` events of the trace, its bound, and the rows of its
/// delivered tasks.
pub struct QuestionState {
    length: u32,
    bound: Bound,
    total: u32,
    cycles: u64,
    confirmed: u64,
    ledger: Ledger,
}

impl Drop for QuestionState {
    fn drop(self) {
        let QuestionState {
            length: _,
            bound: _,
            total: _,
            cycles: _,
            confirmed: _,
            ledger: _,
        } = self;
    }
}

impl Model for QuestionState {
    ghost use Rattle.sequencer.specs.QuestionState.{QuestionView, HasRightCounters};

    ghost Value = { QuestionView };

    ghost view = { λ a. record { length = a.length; bound = a.bound; tasks = a.ledger } };

    ghost invariant = { λ a. HasRightCounters
        (record {
          length = a.length;
          bound = a.bound;
          tasks = a.ledger;
        }) a.total a.cycles a.confirmed };
}

impl QuestionState {
    ghost use Rattle.trace_model.specs.Protocol.Machine.{delivered_count};

    /// Creates a question about the first `length` events with `total` missing tasks.
    ///
    /// # Errors
    ///
    /// `NoMemory` if an allocation fails.
    pub(crate) fn new(
        alloc: Global,
        length: u32,
        bound: Bound,
        total: u32,
    ) -> Result<QuestionState, NoMemory>
        ensures { IfOk result (λ asked. asked ≡
            record { length = length; bound = bound; tasks = replicate total None }) }
    {
        let ledger = Ledger::open(alloc, total)?;
        Ok(QuestionState {
            length,
            bound,
            total,
            cycles: 0,
            confirmed: 0,
            ledger,
        })
    }

    /// Returns the number of events that the question covers.
    pub(crate) fn length(&self) -> u32
        ensures { result ≡ self.now.length }
    {
        self.length
    }

    /// Returns its bound.
    pub fn bound(&self) -> Bound
        ensures { result ≡ self.now.bound }
    {
        self.bound
    }

    /// Returns the number of tasks.
    pub(crate) fn total(&self) -> u32
        ensures { result ≡ length self.now.tasks }
    {
        self.total
    }

    /// Returns the number of delivered tasks.
    pub(crate) fn delivered(&self) -> u32
        ensures { result ≡ delivered_count (question_of self.now) }
    {
        self.ledger.delivered()
    }

    /// Returns the number of rows of the delivered tasks.
    pub(crate) fn cycles(&self) -> u64
        ensures { result ≡ cycles_of (question_of self.now) }
    {
        self.cycles
    }

    /// Returns the number of confirmed rows among them.
    pub(crate) fn confirmed(&self) -> u64
        ensures { result ≡ confirmed_of (question_of self.now) }
    {
        self.confirmed
    }

    /// Returns the least missing task, or `None` if all are delivered.
    pub(crate) fn missing(&self) -> Option<u32>
        ensures { MatchOption result ((task : ℕ) → IsMissing self.now.tasks task → ⊥)
            (IsLeastMissing self.now.tasks) }
    {
        self.ledger.missing()
    }

    /// Returns the rows of each task, shared, or `None` if a task is missing.
    ///
    /// # Errors
    ///
    /// `NoMemory` if an allocation fails; never while a task is missing. Nothing changes.
    pub(crate) fn share(&mut self) -> Result<Option<SharedTasks>, NoMemory>
        ensures same { self.new ≡ self.old }
        ensures shared { IfOk result (AreShared self.old.tasks) }
        ensures refused { OnErr result ((task : ℕ) → IsMissing self.old.tasks task → ⊥) }
    {
        self.ledger.share()
    }

    /// Returns the rows of each task, or `None` if a task is missing.
    pub(crate) fn settled(&self) -> Option<&[Vec<Row>]>
        ensures { MatchOption result ((task : ℕ) × IsMissing self.now.tasks task)
            (λ rows. self.now.tasks ≡ map (λ task. Some task.items) rows.now) }
    {
        self.ledger.settled()
    }

    /// Checks whether the rows of the task may be delivered.
    pub(crate) fn check(&self, task: u32) -> Result<(), Refusal>
        ensures { result_err result ≡ task_refused (slice_get (question_of self.now).tasks task) }
    {
        match self.ledger.test(task) {
            Ok(()) => Ok(()),
            Err(LedgerRefused::NoSuchTask) => Err(Refusal::NoSuchTask),
            Err(LedgerRefused::Double) => Err(Refusal::Double),
        }
    }

    /// Records the rows of a missing task. Does not allocate.
    pub(crate) fn record(&mut self, task: u32, rows: Vec<Row>)
        requires missing { IsMissing self.old.tasks task }
        requires few { cycles_of (question_of self.old) + length rows.items < 2 ^ 64 }
        ensures { self.new ≡ record
            (self.old) { tasks = slice_set self.old.tasks task (Some rows.items) } }
    {
        self.cycles += rows.len() as u64;
        self.confirmed += confirmed_in(rows.as_slice()) as u64;
        let Ok(()) = self.ledger.accept(task, rows) else {
            unreachable!()
        };
    }
}
