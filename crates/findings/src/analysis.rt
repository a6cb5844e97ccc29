//! An analysis: a snapshot and a bound, with tables that threads share.

ghost use Rattle.std.specs.Prelude.{◌≡◌, IfOk, IsTrue};
ghost use Rattle.std.specs.Arc.{arc_value};
ghost use Rattle.findings.specs.Analyses.{AreAnalysisTables, HasNoCycle, IsAnalysisOf};

use crate::tables::Tables;
use snapshots::Snapshot;
use std::alloc::Global;
use std::marker::Model;
use std::sync::Arc;
use std::thread::Threads;
use trace_model::{Bound, NoMemory};

/// A snapshot and a bound, with the tables that all tasks of a question read. It is immutable, so
/// threads share it. Contracts see it as the events and the bound.
pub struct Analysis {
    pub(crate) snapshot: Arc<Snapshot, Global>,
    pub(crate) bound: Bound,
    pub(crate) tables: Tables,
}

impl Drop for Analysis {
    fn drop(self) {
        let Analysis {
            snapshot: _,
            bound: _,
            tables: _,
        } = self;
    }
}

impl Model for Analysis {
    ghost use Rattle.std.specs.Arc.{arc_value};
    ghost use Rattle.findings.specs.Analyses.{AnalysisView, AreAnalysisTables};

    ghost Value = { AnalysisView };

    ghost view = { λ a. record {
      events = arc_value a.snapshot;
      bound = a.bound;
      requirements = a.tables.requirements;
    } };

    ghost invariant = { λ a. AreAnalysisTables (arc_value a.snapshot) a.bound a.tables };
}

impl Analysis {
    /// Computes the tables of a question with this bound on the snapshot's events.
    ///
    /// # Errors
    /// `NoMemory` if an allocation fails.
    pub fn new(
        alloc: Global,
        snapshot: Arc<Snapshot, Global>,
        bound: Bound,
    ) -> Result<Arc<Analysis, Global>, NoMemory>
        ensures { IfOk result (λ a. IsAnalysisOf (arc_value snapshot) bound (arc_value a)) }
    {
        let tables = Tables::new(alloc, &snapshot, bound)?;
        Analysis::shared(alloc, snapshot, bound, tables)
    }

    /// Computes the tables as [`Analysis::new`] does, on two threads.
    ///
    /// # Errors
    /// `NoMemory` if an allocation fails.
    pub fn new_on<R: Threads>(
        rt: &R,
        alloc: Global,
        snapshot: Arc<Snapshot, Global>,
        bound: Bound,
    ) -> Result<Arc<Analysis, Global>, NoMemory>
        ensures { IfOk result (λ a. IsAnalysisOf (arc_value snapshot) bound (arc_value a)) }
    {
        let tables = Tables::new_on(rt, alloc, &snapshot, bound)?;
        Analysis::shared(alloc, snapshot, bound, tables)
    }

    /// Returns the shared analysis with these tables.
    ///
    /// # Errors
    /// `NoMemory` if an allocation fails.
    fn shared(
        alloc: Global,
        snapshot: Arc<Snapshot, Global>,
        bound: Bound,
        tables: Tables,
    ) -> Result<Arc<Analysis, Global>, NoMemory>
        requires { AreAnalysisTables (arc_value snapshot) bound tables }
        ensures { IfOk result (λ a. IsAnalysisOf (arc_value snapshot) bound (arc_value a)) }
    {
        let analysis = Analysis {
            snapshot,
            bound,
            tables,
        };
        Ok(Arc::new(alloc, analysis)?)
    }

    /// Returns the bound. Does not allocate.
    pub fn bound(&self) -> Bound
        ensures { result ≡ self.now.bound }
    {
        self.bound
    }

    /// Returns `true` only if there is no cycle up to the bound. `false` says nothing. Does not
    /// allocate.
    pub fn has_no_cycle(&self) -> bool
        ensures { IsTrue result → HasNoCycle self.now.events self.now.bound }
    {
        self.tables.requirements.is_none()
    }

    /// Returns the snapshot. Does not allocate.
    pub fn snapshot(&self) -> &Snapshot
        ensures { result.now ≡ self.now.events }
    {
        &self.snapshot
    }
}
