//! Gives the rows of a task to a collector, one by one.

ghost use Rattle.std.specs.Prelude.{IfErr, IfOk};
ghost use Rattle.std.specs.Option.{ForSome};
ghost use Rattle.trace_model.specs.Theory.Dependencies.{dependencies};
ghost use Rattle.cycle_search.specs.CycleSearch.{CycleFrom};
ghost use Rattle.findings.specs.Analyses.{AreAnalysisTables, IsScratchOf};
ghost use Rattle.findings.specs.Collecting.{AcceptsRows, TookRows, RefusesRows};

use crate::rows::row_by;
use crate::tables::Tables;
use cycle_search::{Collector, Cycle};
use reports::Row;
use snapshots::Snapshot;
use sp_closure::ClosureScratch;
use std::alloc::Global;
use std::marker::Model;
use trace_model::Bound;

/// Why the rows of a task end early.
#[derive(Drop)]
pub enum RowsRefused<E: Drop> {
    /// The collector refused a row.
    Refused(E),
    /// An allocation failed.
    NoMemory,
}

/// A collector of cycles up to the bound: it computes the row of each and gives it to a collector
/// of rows.
#[derive(Drop)]
struct RowsOf<'a, C: Drop> {
    alloc: Global,
    snapshot: &'a Snapshot,
    tables: &'a Tables,
    bound: Bound,
    scratch: Option<Box<ClosureScratch>>,
    rows: C,
}

impl<'a, C: Drop> Model for RowsOf<'a, C> {
    ghost use Rattle.std.specs.Option.{ForSome};
    ghost use Rattle.findings.specs.Analyses.{AreAnalysisTables, IsScratchOf};
    ghost use Rattle.findings.specs.Collecting.{RowsView};

    ghost Value = { RowsView C };

    ghost view = { λ r. record {
      events = r.snapshot.now;
      bound = r.bound;
      requirements = r.tables.now.requirements;
      rows = r.rows;
    } };

    ghost invariant = { λ r. AreAnalysisTables r.snapshot.now r.bound r.tables.now
        × ForSome r.scratch (IsScratchOf r.snapshot.now r.tables.now.requirements) };
}

impl<'a, C: Collector<Row> + Drop> Collector<Cycle> for RowsOf<'a, C> {
    ghost use Rattle.findings.specs.Collecting.{rows_taking};

    type Refused = RowsRefused<C::Refused>;

    ghost taking = { rows_taking C.taking };

    fn take(&mut self, cycle: Cycle) -> Result<(), RowsRefused<C::Refused>> {
        let Ok(row) = row_by(
            self.alloc,
            self.snapshot,
            self.tables,
            &mut self.scratch,
            self.bound,
            cycle,
        ) else {
            return Err(RowsRefused::NoMemory);
        };
        match self.rows.take(row) {
            Ok(()) => Ok(()),
            Err(refused) => Err(RowsRefused::Refused(refused)),
        }
    }
}

/// Gives the rows of the task to the collector, in their order, and returns it. Keeps no row.
///
/// # Errors
/// - `Refused` if the collector refuses a row.
/// - `NoMemory` if an allocation fails.
pub(crate) fn collect_by<C: Collector<Row> + Drop>(
    alloc: Global,
    snapshot: &Snapshot,
    tables: &Tables,
    scratch: &mut Option<Box<ClosureScratch>>,
    bound: Bound,
    task: u32,
    rows: C,
) -> Result<C, RowsRefused<C::Refused>>
    requires tables { AreAnalysisTables snapshot.now bound tables.now }
    requires scratch { ForSome scratch.old (IsScratchOf snapshot.now tables.now.requirements) }
    requires accepts { AcceptsRows C.taking rows }
    ensures scratch { ForSome scratch.new (IsScratchOf snapshot.now tables.now.requirements) }
    ensures rows { IfOk result (TookRows C.taking snapshot.now
        (CycleFrom (dependencies snapshot.now) bound task) rows) }
    ensures refused { IfErr result (RefusesRows C.taking snapshot.now
        (CycleFrom (dependencies snapshot.now) bound task) rows) }
{
    let mut collector = RowsOf {
        alloc,
        snapshot,
        tables,
        bound,
        scratch: scratch.take(),
        rows,
    };
    match tables.collect(alloc, snapshot, bound, task, &mut collector) {
        Ok(Ok(())) => {
            let RowsOf {
                alloc: _,
                snapshot: _,
                tables: _,
                bound: _,
                scratch: kept,
                rows,
            } = collector;
            *scratch = kept;
            Ok(rows)
        }
        Ok(Err(refused)) => Err(refused),
        Err(_) => Err(RowsRefused::NoMemory),
    }
}
