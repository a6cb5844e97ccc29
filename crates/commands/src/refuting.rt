//! Refutations of the cycles of potential rows, computed on all processors.
ghost use Rattle.std.specs.Prelude.{◌≡◌, ℕ, ◌<◌, length, IfOk};
ghost use Rattle.std.specs.List.{All, Contains};
ghost use Rattle.trace_model.specs.Theory.Cycles.{IsConfirmed};
ghost use Rattle.trace_model.specs.Theory.Dependencies.{dependencies};
ghost use Rattle.trace_model.specs.Theory.Refutation.{IsRefutation};
ghost use Rattle.commands.specs.Explain.{AreRefuted, HasRefutation, IsKnownRow, IsRefutedRow, all_rows};

use explain::{DerivationSearch, refutation_of};
use findings::Snapshot;
use rayon::prelude::*;
use reports::{BareRow, Found};
use std::alloc::Global;
use std::hash::RandomState;
use std::marker::Model;
use std::mem;
use std::thread::Threads;
use trace_model::{Cycle, NoMemory, Refutation};

/// Computes refutations for the rows of a snapshot, also from several threads. Contracts see the
/// events.
#[derive(Drop)]
pub(crate) struct Refuter<'a> {
    alloc: Global,
    state: RandomState,
    snapshot: &'a Snapshot,
}

impl<'a> Model for Refuter<'a> {
    ghost use Rattle.trace_model.specs.Theory.Trace.{Trace};

    ghost Value = { Trace };

    ghost view = { λ r. r.snapshot.now };
}

/// A row, and if it is potential a refutation of its cycle.
#[derive(Drop)]
pub(crate) struct RefutedRow {
    pub(crate) row: BareRow,
    pub(crate) refutation: Option<Refutation>,
}

impl<'a> Refuter<'a> {
    /// Returns a refuter for the rows of a snapshot. Does not allocate.
    pub(crate) fn new(alloc: Global, state: RandomState, snapshot: &'a Snapshot) -> Refuter<'a>
        ensures { result ≡ snapshot.now }
    {
        Refuter {
            alloc,
            state,
            snapshot,
        }
    }

    /// Returns a search for refutations, which serves one after another. Does not allocate.
    pub(crate) fn search(&self) -> DerivationSearch {
        DerivationSearch::new(self.alloc, self.state)
    }

    /// Returns a refutation of a cycle that is not confirmed.
    ///
    /// # Errors
    /// `NoMemory` if an allocation fails.
    pub(crate) fn refute(
        &self,
        search: &mut DerivationSearch,
        cycle: &Cycle,
    ) -> Result<Refutation, NoMemory>
        requires known { (m : ℕ) → Contains cycle.now m → m < length (dependencies self.now) }
        requires not_confirmed { IsConfirmed self.now cycle.now → ⊥ }
        ensures { IfOk result (IsRefutation self.now cycle.now) }
    {
        let (index, table) = (self.snapshot.index(), self.snapshot.table());
        match refutation_of(self.alloc, search, index, table, cycle)? {
            Some(refutation) => Ok(refutation),
            None => unreachable!(), // the cycle is not confirmed
        }
    }

    /// Returns a refutation of a row's cycle if the row is potential.
    ///
    /// # Errors
    /// `NoMemory` if an allocation fails.
    pub(crate) fn refutation(
        &self,
        search: &mut DerivationSearch,
        cycle: &Cycle,
        found: &Option<Found>,
    ) -> Result<Option<Refutation>, NoMemory>
        requires { IsKnownRow self.now (record { cycle = cycle.now; found = found.now }) }
        ensures { IfOk result
            (HasRefutation self.now (record { cycle = cycle.now; found = found.now })) }
    {
        match found {
            Some(_) => Ok(None),
            None => Ok(Some(self.refute(search, cycle)?)),
        }
    }

    /// Returns the row with a refutation if it is potential.
    ///
    /// # Errors
    /// `NoMemory` if an allocation fails.
    fn refuted(&self, search: &mut DerivationSearch, row: BareRow) -> Result<RefutedRow, NoMemory>
        requires { IsKnownRow self.now row }
        ensures { IfOk result (λ refuted. (refuted.row ≡ row) × IsRefutedRow self.now refuted) }
    {
        let refutation = if row.is_confirmed() {
            None
        } else {
            Some(self.refute(search, &row.cycle)?)
        };
        Ok(RefutedRow { row, refutation })
    }

    /// Returns the rows, each with a refutation if it is potential. They are computed on all
    /// processors, and the rows of one piece by one search.
    ///
    /// # Errors
    /// `NoMemory` if an allocation fails.
    pub(crate) fn refute_all<R: Threads + Sync>(
        &self,
        rt: &R,
        rows: Vec<BareRow>,
    ) -> Result<Vec<RefutedRow>, NoMemory>
        requires { All (IsKnownRow self.now) rows.items }
        ensures { IfOk result (λ refuted. AreRefuted self.now rows.items refuted.items) }
    {
        rows.into_par_iter()
            .with_min_len(LEAST_PIECE)
            .map_init(
                || -> DerivationSearch { self.search() },
                |search: &mut DerivationSearch, row: BareRow| -> Result<RefutedRow, NoMemory>
                    requires { IsKnownRow self.now row }
                    ensures { IfOk result (λ refuted.
                        (refuted.row ≡ row) × IsRefutedRow self.entry.now refuted) }
                { self.refuted(search, row) },
            )
            .collect(rt, self.alloc)?
    }

    /// Returns the snapshot.
    pub(crate) fn snapshot(&self) -> &'a Snapshot
        ensures { result.now ≡ self.now }
    {
        self.snapshot
    }
}

/// The least number of rows of a piece. A piece has a search of its own, which looks up the threads
/// and locks anew.
const LEAST_PIECE: usize = 16;

/// The number of rows whose refutations are in memory together.
const BATCH: usize = 256;

/// Returns the rows in batches, in their order.
///
/// # Errors
/// `NoMemory` if an allocation fails.
pub(crate) fn batches_of(
    alloc: Global,
    tasks: Vec<Vec<BareRow>>,
) -> Result<Vec<Vec<BareRow>>, NoMemory>
    ensures { IfOk result (λ batches. all_rows batches.items ≡ all_rows tasks.items) }
{
    let mut batches = Vec::new(alloc);
    let mut batch = Vec::new(alloc);
    for rows in tasks {
        for row in rows {
            if batch.len() == BATCH {
                batches.push(mem::replace(&mut batch, Vec::new(alloc)))?;
            }
            batch.push(row)?;
        }
    }
    batches.push(batch)?;
    Ok(batches)
}
