//! The finding of one task.

ghost use Rattle.std.specs.Prelude.{◌≡◌};
ghost use Rattle.std.specs.Arc.{arc_value};
ghost use Rattle.snapshots.specs.Found.{AreRowsOf};

use crate::snapshot::Snapshot;
use reports::Row;
use std::alloc::Global;
use std::marker::Model;
use std::sync::Arc;
use trace_model::Bound;

/// The rows of one task of a question. They are exactly the rows of the snapshot's events, the
/// bound and the task: each value of this type has this property.
pub struct Finding {
    snapshot: Arc<Snapshot, Global>,
    question: u32,
    bound: Bound,
    task: u32,
    rows: Vec<Row>,
}

impl Drop for Finding {
    fn drop(self) {
        let Finding {
            snapshot: _,
            question: _,
            bound: _,
            task: _,
            rows: _,
        } = self;
    }
}

impl Model for Finding {
    ghost use Rattle.std.specs.Arc.{arc_value};
    ghost use Rattle.snapshots.specs.Found.{AreRowsOf, RowsOfTask};

    ghost Value = { RowsOfTask };

    ghost view = { λ f. record {
      question = f.question;
      bound = f.bound;
      task = f.task;
      events = arc_value f.snapshot;
      rows = f.rows.items;
    } };

    ghost invariant = { λ f. AreRowsOf (arc_value f.snapshot) f.bound f.task f.rows.items };
}

impl Finding {
    /// Returns the finding of a task with these rows. Does not allocate.
    ///
    /// The caller passes exactly the rows of the snapshot's events, the bound and the task.
    pub fn of(
        snapshot: Arc<Snapshot, Global>,
        question: u32,
        bound: Bound,
        task: u32,
        rows: Vec<Row>,
    ) -> Finding
        requires { AreRowsOf (arc_value snapshot) bound task rows.items }
        ensures { result ≡ record {
          question = question;
          bound = bound;
          task = task;
          events = arc_value snapshot;
          rows = rows.items;
        } }
    {
        Finding {
            snapshot,
            question,
            bound,
            task,
            rows,
        }
    }

    /// Returns the number of the question. Does not allocate.
    pub fn question(&self) -> u32
        ensures { result ≡ self.now.question }
    {
        self.question
    }

    /// Returns the bound of the question. Does not allocate.
    pub fn bound(&self) -> Bound
        ensures { result ≡ self.now.bound }
    {
        self.bound
    }

    /// Returns the number of the task. Does not allocate.
    pub fn task(&self) -> u32
        ensures { result ≡ self.now.task }
    {
        self.task
    }

    /// Returns the snapshot from which the rows were computed. Does not allocate.
    pub fn snapshot(&self) -> &Snapshot
        ensures { result.now ≡ self.now.events }
    {
        &self.snapshot
    }

    /// Returns the rows: exactly those of the events, the bound and the task. Does not allocate.
    pub fn rows(&self) -> &[Row]
        ensures rows { result.now ≡ self.now.rows }
        ensures exact { AreRowsOf self.now.events self.now.bound self.now.task self.now.rows }
    {
        self.rows.as_slice()
    }

    /// Returns the rows by value. Does not allocate.
    pub fn into_rows(self) -> Vec<Row>
        ensures rows { result.items ≡ self.rows }
        ensures exact { AreRowsOf self.events self.bound self.task self.rows }
    {
        let Finding {
            snapshot: _,
            question: _,
            bound: _,
            task: _,
            rows,
        } = self;
        rows
    }
}
