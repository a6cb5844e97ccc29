//! A ledger of delivered tasks.

ghost use Rattle.std.specs.Prelude.{◌≡◌, ℕ, ◌<◌, ◌≤◌, ◌^◌, Some, None, replicate, length, map, slice_get, slice_set, is_some, count_by, true, false, IfOk, OnErr, MatchResult, MatchOption};

use reports::Row;
use std::alloc::{AllocError, Global};
use std::marker::Model;
use std::mem;
use std::sync::Arc;
use thiserror::Error;
use trace_model::NoMemory;

/// Why the rows of a task are refused.
#[derive(Clone, Copy, Debug, PartialEq, Eq, Error)]
pub enum LedgerRefused {
    /// The question has no task with this number.
    #[error("no such task")]
    NoSuchTask,
    /// The task was delivered before.
    #[error("delivered before")]
    Double,
}

/// The rows of all tasks of a question, in the order of the tasks, which others may share.
pub type SharedTasks = Arc<Vec<Vec<Row>>, Global>;

/// The tasks of a question, numbered from 0, with the rows of those that are delivered. Only `open`
/// and `share` allocate.
pub struct Ledger {
    /// The rows of each task; empty if it is not delivered. Not used once the rows are shared.
    rows: Vec<Vec<Row>>,
    /// The rows of each task, once they are shared. Then all tasks are delivered.
    shared: Option<SharedTasks>,
    /// Whether each task is delivered.
    marks: Vec<bool>,
    /// The number of delivered tasks.
    delivered: u32,
    /// The least task that is not delivered, or the number of tasks.
    missing: u32,
}

impl Drop for Ledger {
    fn drop(self) {
        let Ledger {
            rows: _,
            shared: _,
            marks: _,
            delivered: _,
            missing: _,
        } = self;
    }
}

impl Model for Ledger {
    ghost use Rattle.std.specs.Prelude.{List, Option};
    ghost use Rattle.reports.specs.Printed.{PrintedRow};
    ghost use Rattle.result_ledger.specs.Inside.{IsLedger, current_rows, tasks_of};

    ghost Value = { List (Option (List PrintedRow)) };

    ghost view = { λ l. tasks_of l.marks.items (current_rows l.rows.items l.shared) };

    ghost invariant = { λ l. IsLedger l.marks.items l.rows.items l.shared l.delivered l.missing };
}

impl Ledger {
    ghost use Rattle.result_ledger.specs.Tasks.{AreShared, IsMissing, IsLeastMissing, IsLedgerRefusal};

    /// Returns a ledger of `total` tasks, none of them delivered.
    ///
    /// # Errors
    /// `NoMemory` if an allocation fails.
    pub fn open(alloc: Global, total: u32) -> Result<Ledger, NoMemory>
        ensures { IfOk result (λ ledger. ledger ≡ replicate total None) }
    {
        let mut rows = Vec::with_capacity(alloc, total as usize)?;
        let mut marks = Vec::with_capacity(alloc, total as usize)?;
        for _task in 0..total {
            rows.push_reserved(Vec::new(alloc));
            marks.push_reserved(false);
        }
        Ok(Ledger {
            rows,
            shared: None,
            marks,
            delivered: 0,
            missing: 0,
        })
    }

    /// Returns what `accept` would return for rows of the task, without storing anything. Does not
    /// allocate.
    ///
    /// # Errors
    /// - `NoSuchTask` if the question has no such task.
    /// - `Double` if the task was delivered before.
    pub fn test(&self, task: u32) -> Result<(), LedgerRefused>
        ensures { MatchResult result (λ _. IsMissing self.now task)
            (IsLedgerRefusal self.now task) }
    {
        match mark_of(self.marks.as_slice(), task) {
            None => Err(LedgerRefused::NoSuchTask),
            Some(true) => Err(LedgerRefused::Double),
            Some(false) => Ok(()),
        }
    }

    /// Returns the number of delivered tasks. Does not allocate.
    pub fn delivered(&self) -> u32
        ensures { result ≡ count_by is_some self.now }
    {
        self.delivered
    }

    /// Returns the least task that is not delivered, or `None` if all are. Does not allocate.
    pub fn missing(&self) -> Option<u32>
        ensures { MatchOption result ((task : ℕ) → IsMissing self.now task → ⊥)
            (IsLeastMissing self.now) }
    {
        if (self.missing as usize) < self.marks.len() {
            Some(self.missing)
        } else {
            None
        }
    }

    /// Returns the rows of each task in the order of the tasks, or `None` if a task is missing.
    /// Does not allocate.
    pub fn settled(&self) -> Option<&[Vec<Row>]>
        ensures { MatchOption result ((task : ℕ) × IsMissing self.now task)
            (λ rows. self.now ≡ map (λ task. Some task.items) rows.now) }
    {
        if self.missing as usize != self.marks.len() {
            return None;
        }
        match &self.shared {
            Some(shared) => Some(shared.as_slice()),
            None => Some(self.rows.as_slice()),
        }
    }

    /// Returns the rows of each task like `settled`, shared: the result keeps them without the
    /// ledger. The first such call moves them to shared memory. No row is copied.
    ///
    /// # Errors
    /// `NoMemory` if an allocation fails; never while a task is missing. Nothing changes.
    pub fn share(&mut self) -> Result<Option<SharedTasks>, NoMemory>
        ensures same { self.new ≡ self.old }
        ensures shared { IfOk result (AreShared self.old) }
        ensures refused { OnErr result ((task : ℕ) → IsMissing self.old task → ⊥) }
    {
        if (self.missing as usize) < self.marks.len() {
            return Ok(None);
        }
        if let Some(shared) = &self.shared {
            return Ok(Some(Arc::try_clone(shared)?));
        }
        let alloc = *self.rows.allocator();
        let rows = mem::replace(&mut self.rows, Vec::new(alloc));
        match Arc::new(alloc, rows) {
            Ok(shared) => {
                let copy = Arc::try_clone(&shared);
                self.shared = Some(shared);
                Ok(Some(copy?))
            }
            Err(refused) => {
                self.rows = refused.value;
                Err(NoMemory::from(AllocError))
            }
        }
    }

    /// Stores the rows of a task. Does not allocate.
    ///
    /// # Errors
    /// The rows are returned with the reason, and the ledger is unchanged.
    /// - `NoSuchTask` if the question has no such task.
    /// - `Double` if the task was delivered before.
    pub fn accept(&mut self, task: u32, rows: Vec<Row>) -> Result<(), (LedgerRefused, Vec<Row>)>
        ensures { MatchResult result
            (λ _. IsMissing self.old task × (self.new ≡ slice_set self.old task (Some rows.items)))
            (λ refused. IsLedgerRefusal self.old task refused.0 × (refused.1 ≡ rows)
            × (self.new ≡ self.old)) }
    {
        match self.test(task) {
            Err(refused) => Err((refused, rows)),
            Ok(()) => {
                self.rows[task as usize] = rows;
                self.marks[task as usize] = true;
                self.delivered += 1;
                self.missing = first_false(self.marks.as_slice(), self.missing);
                Ok(())
            }
        }
    }
}

/// Returns the index of the first unset mark from `from` on, or the number of marks if there is
/// none.
fn first_false(marks: &[bool], from: u32) -> u32
    requires from { from ≤ length marks.now }
    requires long { length marks.now < 2 ^ 32 }
    ensures within { (from ≤ result) × (result ≤ length marks.now) }
    ensures before { (k : ℕ) → from ≤ k → k < result → slice_get marks.now k ≡ Some true }
    ensures first { result < length marks.now → slice_get marks.now result ≡ Some false }
{
    let mut place = from;
    while (place as usize) < marks.len() && marks[place as usize] {
        place += 1;
    }
    place
}

/// Returns the mark of a task, or `None` if there is no such task.
fn mark_of(marks: &[bool], task: u32) -> Option<bool>
    ensures { result ≡ slice_get marks.now task }
{
    marks.get(task as usize).copied()
}
