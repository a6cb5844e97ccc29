//! The part of each task in the report.
ghost use Rattle.std.specs.Prelude.{◌≡◌, ◌+◌, ◌<◌, ◌^◌, List, [], length, map, true, false, sum_by, IfOk, IsTrue, MatchOption};
ghost use Rattle.std.specs.List.{All, AllZip};
ghost use Rattle.trace_model.specs.declared.limits.TheConstants.{MAX_REPORT};
ghost use Rattle.reports.specs.Printed.{PrintedRow};
ghost use Rattle.offline_report.specs.Offline.{AreReportRowsOf, IsPartOf, part_rows, rows_by_task, size_of};
ghost use Rattle.offline_report.specs.Parts.{kept_part};

use reports::{BareRow, head_text};
use std::alloc::Global;
use std::marker::Model;
use trace_model::{Bound, MAX_REPORT, NoMemory};

/// Rows of a task in the report, without the dependencies of their members.
#[derive(Drop)]
pub(crate) struct KeptRows {
    pub(crate) rows: Vec<BareRow>,
    /// The number of bytes of their texts.
    pub(crate) bytes: u64,
    /// The number of bytes of the longest one.
    pub(crate) longest: u64,
    /// The number of confirmed rows.
    pub(crate) confirmed: u64,
    /// The number of bytes of their texts, as a hint.
    pub(crate) confirmed_bytes: u64,
    /// Whether these are all rows of the task.
    pub(crate) is_whole: bool,
}

/// What is known of the rows of a task. Most tasks have none, and then nothing is allocated.
#[derive(Drop)]
enum Known {
    /// The task has no row.
    Empty,
    /// The task is not computed.
    NotComputed,
    /// Rows of the task.
    Kept(Box<KeptRows, Global>),
}

/// The rows of a task. Contracts see the rows, the number of bytes of their texts, the number of
/// confirmed rows, and whether these are all rows of the task.
#[derive(Drop)]
pub(crate) struct Part {
    known: Known,
}

impl Model for Part {
    ghost use Rattle.offline_report.specs.Parts.{PartView, known_part};

    ghost Value = { PartView };

    ghost view = { λ p. known_part p.known };
}

/// The rows of a report, with its first line. They are without the dependencies of their members,
/// which [`RowPrinter`](crate::RowPrinter) takes from the snapshot.
#[derive(Drop)]
pub struct ReportRows {
    /// The first line, with its end.
    pub first_line: Vec<u8>,
    /// The rows of each task, in the order of the tasks.
    pub tasks: Vec<Vec<BareRow>>,
    /// The number of bytes of the texts of the confirmed rows, as a hint for reserving memory.
    pub confirmed_bytes: u64,
    /// The number of bytes of the longest one, as a hint for reserving memory.
    pub longest: u64,
}

impl Part {
    /// Returns the part with these rows.
    ///
    /// # Errors
    /// `NoMemory` if an allocation fails. The rows are dropped.
    pub(crate) fn of(alloc: Global, kept: KeptRows) -> Result<Part, NoMemory>
        ensures { IfOk result (λ part. part ≡ kept_part kept) }
    {
        let known = Known::Kept(Box::new(alloc, kept)?);
        Ok(Part { known })
    }

    /// Returns the part of a task that has no row. Does not allocate.
    pub(crate) fn empty() -> Part
        ensures part { IsPartOf [] result }
        ensures whole { result.is_whole ≡ true }
    {
        Part {
            known: Known::Empty,
        }
    }

    /// Returns the part of a task that is not computed. Does not allocate.
    pub(crate) fn not_computed() -> Part
        ensures part { IsPartOf [] result }
        ensures whole { result.is_whole ≡ false }
    {
        Part {
            known: Known::NotComputed,
        }
    }

    /// Returns the number of rows.
    fn count(&self) -> u64
        ensures { result ≡ length self.now.rows }
    {
        match &self.known {
            Known::Kept(kept) => kept.rows.len() as u64,
            Known::Empty | Known::NotComputed => 0,
        }
    }

    /// Returns the number of bytes of the texts of the rows.
    fn bytes(&self) -> u64
        ensures { result ≡ self.now.bytes }
    {
        match &self.known {
            Known::Kept(kept) => kept.bytes,
            Known::Empty | Known::NotComputed => 0,
        }
    }

    /// Returns the number of bytes of the longest text of a row.
    fn longest(&self) -> u64 {
        match &self.known {
            Known::Kept(kept) => kept.longest,
            Known::Empty | Known::NotComputed => 0,
        }
    }

    /// Returns the number of bytes of the texts of the confirmed rows, as a hint.
    fn confirmed_bytes(&self) -> u64 {
        match &self.known {
            Known::Kept(kept) => kept.confirmed_bytes,
            Known::Empty | Known::NotComputed => 0,
        }
    }

    /// Returns the number of confirmed rows.
    fn confirmed(&self) -> u64
        ensures { result ≡ self.now.confirmed }
    {
        match &self.known {
            Known::Kept(kept) => kept.confirmed,
            Known::Empty | Known::NotComputed => 0,
        }
    }

    /// Returns whether these are all rows of the task.
    fn is_whole(&self) -> bool
        ensures { result ≡ self.now.is_whole }
    {
        match &self.known {
            Known::Kept(kept) => kept.is_whole,
            Known::Empty => true,
            Known::NotComputed => false,
        }
    }

    /// Returns the rows. Does not allocate.
    fn into_rows(self, alloc: Global) -> Vec<BareRow>
        ensures { result.items ≡ self.rows }
    {
        let Part { known } = self;
        match known {
            Known::Kept(kept) => {
                let KeptRows {
                    rows,
                    bytes: _,
                    longest: _,
                    confirmed: _,
                    confirmed_bytes: _,
                    is_whole: _,
                } = Box::into_inner(kept);
                rows
            }
            Known::Empty | Known::NotComputed => Vec::new(alloc),
        }
    }
}

/// Returns what the texts of the parts leave of `MAX_REPORT` bytes, or `None` if they are longer.
fn after_parts(parts: &[Part]) -> Option<u64>
    ensures { MatchOption result (MAX_REPORT < sum_by size_of parts.now)
        (λ rest. rest + sum_by size_of parts.now ≡ MAX_REPORT) }
{
    let mut left = MAX_REPORT as u64;
    for part in parts {
        left = left.checked_sub(part.bytes())?;
    }
    Some(left)
}

/// Returns whether each part has all rows of its task.
pub(crate) fn are_whole(parts: &[Part]) -> bool
    ensures { IsTrue result → All (λ part. part.is_whole ≡ true) parts.now }
{
    parts.iter().all(|part| part.is_whole())
}

/// Returns whether the texts of the parts have more than `MAX_REPORT` bytes.
pub(crate) fn are_too_long(parts: &[Part]) -> bool
    ensures { IsTrue result → MAX_REPORT < sum_by size_of parts.now }
{
    after_parts(parts).is_none()
}

/// Returns the number of rows of the parts.
fn cycles_in(parts: &[Part]) -> u64
    requires { sum_by (λ part. length (part_rows part)) parts.now < 2 ^ 64 }
    ensures { result ≡ sum_by (λ part. length (part_rows part)) parts.now }
{
    let mut count = 0;
    for part in parts {
        count += part.count();
    }
    count
}

/// Returns the number of confirmed rows of the parts.
fn confirmed_among(parts: &[Part]) -> u64
    requires { sum_by (λ part. part.confirmed) parts.now < 2 ^ 64 }
    ensures { result ≡ sum_by (λ part. part.confirmed) parts.now }
{
    let mut count = 0;
    for part in parts {
        count += part.confirmed();
    }
    count
}

/// Returns the number of bytes of the longest text of a row.
fn longest_of(parts: &[Part]) -> u64 {
    parts
        .iter()
        .fold(0, |most: u64, part| most.max(part.longest()))
}

/// Returns the number of bytes of the texts of the confirmed rows of the parts, as a hint.
fn confirmed_bytes_of(parts: &[Part]) -> u64 {
    parts.iter().fold(0, |bytes: u64, part| {
        bytes.saturating_add(part.confirmed_bytes())
    })
}

/// Returns the rows of each part, in order.
///
/// # Errors
/// `NoMemory` if an allocation fails.
fn rows_of_parts(alloc: Global, parts: Vec<Part>) -> Result<Vec<Vec<BareRow>>, NoMemory>
    ensures { IfOk result (λ tasks. rows_by_task tasks.items ≡ map part_rows parts.items) }
{
    let mut tasks = Vec::with_capacity(alloc, parts.len())?;
    for part in parts {
        tasks.push_reserved(part.into_rows(alloc));
    }
    Ok(tasks)
}

/// Returns the rows of the report of question 0 with this bound on the first `events` events, or
/// `None` if it has more than `MAX_REPORT` bytes.
///
/// # Errors
/// `NoMemory` if an allocation fails.
pub(crate) fn report_rows(
    alloc: Global,
    events: u32,
    bound: Bound,
    parts: Vec<Part>,
) -> Result<Option<ReportRows>, NoMemory>
    requires { (tasks : List (List PrintedRow)) × AllZip IsPartOf tasks parts.items }
    ensures { IfOk result
        (λ found. (tasks : List (List PrintedRow)) → AllZip IsPartOf tasks parts.items →
        AreReportRowsOf events bound tasks found) }
{
    let Some(rest) = after_parts(&parts) else {
        return Ok(None);
    };
    let (cycles, confirmed) = (cycles_in(&parts), confirmed_among(&parts));
    let first_line = head_text(alloc, 0, events, bound, cycles, confirmed)?;
    if rest < first_line.len() as u64 {
        return Ok(None);
    }
    let longest = longest_of(&parts);
    let confirmed_bytes = confirmed_bytes_of(&parts);
    let tasks = rows_of_parts(alloc, parts)?;
    Ok(Some(ReportRows {
        first_line,
        tasks,
        confirmed_bytes,
        longest,
    }))
}
