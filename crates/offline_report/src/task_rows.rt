//! The rows of a task, measured while they are computed.
ghost use Rattle.std.specs.Prelude.{◌≡◌, ◌-◌, ◌<◌, ◌^◌, ◌++◌, ◌∷◌, [], List, cond, IfOk, IsTrue, OnOk};
ghost use Rattle.reports.specs.Printed.{PrintedRow};
ghost use Rattle.reports.specs.Text.{is_confirmed_row};
ghost use Rattle.offline_report.specs.Offline.{IsPartOf};
ghost use Rattle.offline_report.specs.TaskRows.{AreRowsSoFar, HasNoRows};

use crate::parts::{KeptRows, Part};
use findings::Collector;
use reports::{BareRow, Row, row_size};
use std::alloc::Global;
use std::mem;
use std::sync::atomic::{AtomicU64, Ordering};
use trace_model::NoMemory;

/// The rows of one task so far, without the dependencies of their members.
#[derive(Drop)]
pub(crate) struct TaskRows<'a> {
    alloc: Global,
    pub(crate) rows: Vec<BareRow>,
    /// The number of bytes of their texts.
    pub(crate) bytes: u64,
    /// The number of bytes of the longest one.
    longest: u64,
    pub(crate) confirmed: u64,
    /// The number of bytes of the texts of the confirmed rows.
    confirmed_bytes: u64,
    /// The number of bytes of the texts of all tasks.
    written: &'a AtomicU64,
    /// The number of bytes after which no task goes on.
    pub(crate) limit: u64,
}

/// Why a task ends early.
#[derive(Drop)]
pub(crate) enum EarlyEnd {
    /// The texts of the tasks have more bytes than the limit. The part has the rows so far.
    Over(Part),
    /// An allocation failed.
    NoMemory,
}

impl<'a> TaskRows<'a> {
    /// Returns the rows of which there are none yet. Does not allocate.
    pub(crate) fn new(alloc: Global, written: &'a AtomicU64, limit: u64) -> TaskRows<'a>
        ensures empty { HasNoRows result }
        ensures limit { result.limit ≡ limit }
    {
        TaskRows {
            alloc,
            rows: Vec::new(alloc),
            bytes: 0,
            longest: 0,
            confirmed: 0,
            confirmed_bytes: 0,
            written,
            limit,
        }
    }

    /// Returns the rows as a part, in memory of their size, and has none then. Does not allocate if
    /// they are all rows of the task and there is none.
    ///
    /// # Errors
    /// `NoMemory` if an allocation fails.
    pub(crate) fn part(&mut self, is_whole: bool) -> Result<Part, NoMemory>
        ensures rows { IfOk result (λ part. (rows : List PrintedRow) → AreRowsSoFar rows self.old →
            IsPartOf rows part) }
        ensures is_whole { IfOk result (λ part. part.is_whole ≡ is_whole) }
    {
        if is_whole && self.rows.is_empty() {
            return Ok(Part::empty());
        }
        let mut rows = mem::replace(&mut self.rows, Vec::new(self.alloc));
        rows.shrink_to_fit();
        let kept = KeptRows {
            rows,
            bytes: self.bytes,
            longest: self.longest,
            confirmed: self.confirmed,
            confirmed_bytes: self.confirmed_bytes,
            is_whole,
        };
        Part::of(self.alloc, kept)
    }

    /// Counts `added` more bytes. Returns whether the texts of the tasks have more than the limit.
    fn is_over(&self, added: u64) -> bool
        ensures { IsTrue result → self.now.limit < 2 ^ 64 - 1 }
    {
        let written = self.written.fetch_add(added, Ordering::SeqCst);
        written.saturating_add(added) > self.limit
    }
}

impl<'a> Collector<Row> for TaskRows<'a> {
    ghost use Rattle.offline_report.specs.TaskRows.{keeps_rows};

    type Refused = EarlyEnd;

    ghost taking = { keeps_rows };

    fn take(&mut self, row: Row) -> Result<(), EarlyEnd> {
        let size = row_size(&row);
        let certain = confirmed_of(&row);
        let Ok(bare) = row.into_bare(self.alloc) else {
            return Err(EarlyEnd::NoMemory);
        };
        let Ok(()) = add_row(self.alloc, &mut self.rows, bare) else {
            return Err(EarlyEnd::NoMemory);
        };
        self.bytes = self.bytes.saturating_add(size);
        self.longest = self.longest.max(size);
        self.confirmed = self.confirmed.saturating_add(certain);
        let witnessed = size.saturating_mul(certain);
        self.confirmed_bytes = self.confirmed_bytes.saturating_add(witnessed);
        if !self.is_over(size) {
            return Ok(());
        }
        match self.part(false) {
            Ok(part) => Err(EarlyEnd::Over(part)),
            Err(_) => Err(EarlyEnd::NoMemory),
        }
    }
}

/// Returns 1 for a confirmed row, else 0.
fn confirmed_of(row: &Row) -> u64
    ensures { result ≡ cond (is_confirmed_row row.now) 1 0 }
{
    u64::from(row.found.is_some())
}

/// Adds a row. Most tasks with rows have one, so the first row gets memory of its size.
///
/// # Errors
/// `NoMemory` if an allocation fails.
fn add_row(alloc: Global, rows: &mut Vec<BareRow>, row: BareRow) -> Result<(), NoMemory>
    ensures { OnOk result (rows.new.items ≡ rows.old.items ++ row ∷ []) }
{
    if rows.is_empty() {
        *rows = Vec::with_capacity(alloc, 1)?;
    }
    rows.push(row)?;
    Ok(())
}
