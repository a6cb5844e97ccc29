//! The text of a report.

ghost use Rattle.std.specs.Prelude.{◌≡◌, ℕ, ◌<◌, ◌≤◌, ◌+◌, ◌↔◌, ◌++◌, ◌^◌, length, flat_map, IfOk, IsErrOf, IsTrue, MatchResult};
ghost use Rattle.trace_model.specs.declared.limits.TheConstants.{MAX_REPORT};
ghost use Rattle.reports.specs.Text.{report, about, counts, row_text, IsPlan};

use crate::buffer::TextBuffer;
use crate::measure::{Counter, TooLong, count_confirmed, count_rows};
use crate::row::Row;
use crate::write::{write_about, write_counts, write_rows, write_tasks};
use std::alloc::Global;
use thiserror::Error;
use trace_model::{Bound, MAX_REPORT, NoMemory};

/// Why a text is not written.
#[derive(Debug, Drop, PartialEq, Eq, Error)]
pub enum TextRefused {
    /// The text has more than `MAX_REPORT` bytes.
    #[error("the report is too long")]
    TooLong,
    /// An allocation failed.
    #[error("no memory")]
    NoMemory,
}

impl From<TooLong> for TextRefused {
    ghost use Rattle.std.specs.Prelude.{◌≡◌};
    ghost use Rattle.reports.specs.declared.report.TextRefused.TheVariants.{TooLong};

    ghost from_gives = { λ _ e. e ≡ TooLong };

    fn from(_why: TooLong) -> TextRefused {
        TextRefused::TooLong
    }
}

impl From<NoMemory> for TextRefused {
    ghost use Rattle.std.specs.Prelude.{◌≡◌};
    ghost use Rattle.reports.specs.declared.report.TextRefused.TheVariants.{NoMemory};

    ghost from_gives = { λ _ e. e ≡ NoMemory };

    fn from(_why: NoMemory) -> TextRefused {
        TextRefused::NoMemory
    }
}

/// The length of a report's text and the numbers in its first line.
#[derive(Drop)]
struct Plan {
    length: u64,
    cycles: u64,
    confirmed: u64,
}

/// Measures the text and counts its rows.
///
/// # Errors
/// `TooLong` exactly if the text has more than `MAX_REPORT` bytes.
fn plan_of(question: u32, events: u32, bound: u8, tasks: &[Vec<Row>]) -> Result<Plan, TooLong>
    ensures { MatchResult result
        (λ plan. IsPlan question events bound (flat_map (λ task. task.items) tasks.now) plan
        × (plan.length ≤ MAX_REPORT))
        (λ _. MAX_REPORT < length (report question events bound
        (flat_map (λ task. task.items) tasks.now))) }
{
    let mut counter = Counter::new();
    write_tasks(&mut counter, tasks)?;
    write_about(&mut counter, question, events, bound)?;
    let cycles = count_rows(tasks) as u64;
    let confirmed = count_confirmed(tasks) as u64;
    write_counts(&mut counter, cycles, confirmed)?;
    Ok(Plan {
        length: MAX_REPORT as u64 - counter.left,
        cycles,
        confirmed,
    })
}

/// Returns whether the report has more than `MAX_REPORT` bytes. Does not allocate.
pub fn is_too_long(question: u32, events: u32, bound: Bound, tasks: &[Vec<Row>]) -> bool
    ensures { IsTrue result ↔ (MAX_REPORT < length (report question events bound
        (flat_map (λ task. task.items) tasks.now))) }
{
    plan_of(question, events, bound.get(), tasks).is_err()
}

/// Returns the text of the report for question `question` with this bound on the first `events`
/// events. `tasks` has the rows of each task, in the order of the tasks.
///
/// # Errors
/// - `TooLong` exactly if the text has more than `MAX_REPORT` bytes. This is known before any of it
///   is written.
/// - `NoMemory` if an allocation fails.
pub fn report_text(
    alloc: Global,
    question: u32,
    events: u32,
    bound: Bound,
    tasks: &[Vec<Row>],
) -> Result<Vec<u8>, TextRefused>
    ensures text { IfOk result
        (λ text. text.items ≡ report question events bound
        (flat_map (λ task. task.items) tasks.now)) }
    ensures too_long { IsErrOf result TextRefused.TooLong ↔
        (MAX_REPORT < length (report question events bound
        (flat_map (λ task. task.items) tasks.now))) }
{
    let most = bound.get();
    let plan = plan_of(question, events, most, tasks)?;
    let mut buffer = TextBuffer::with_room(alloc, plan.length as u32, events, plan.length)?;
    write_about(&mut buffer, question, events, most)?;
    write_counts(&mut buffer, plan.cycles, plan.confirmed)?;
    write_tasks(&mut buffer, tasks)?;
    Ok(buffer.finish())
}

/// The beginning of a report: the number of bytes of its text, and its first line.
#[derive(Drop)]
pub struct ReportStart {
    pub bytes: u32,
    pub first_line: Vec<u8>,
}

/// Measures a report and prints its first line. The text of its rows is not in memory: a
/// [`RowCursor`](crate::RowCursor) gives it in pieces.
///
/// # Errors
/// - `TooLong` exactly if the report has more than `MAX_REPORT` bytes.
/// - `NoMemory` if an allocation fails.
pub fn begin_report(
    alloc: Global,
    question: u32,
    events: u32,
    bound: Bound,
    tasks: &[Vec<Row>],
) -> Result<ReportStart, TextRefused>
    ensures text { IfOk result (λ start. start.first_line.items ++
        flat_map (λ task. flat_map row_text task.items) tasks.now ≡
        report question events bound (flat_map (λ task. task.items) tasks.now)) }
    ensures measured { IfOk result (λ start. (start.bytes ≤ MAX_REPORT)
        × (start.bytes ≡ length (report question events bound
        (flat_map (λ task. task.items) tasks.now)))) }
    ensures too_long { IsErrOf result TextRefused.TooLong ↔
        (MAX_REPORT < length (report question events bound
        (flat_map (λ task. task.items) tasks.now))) }
{
    let plan = plan_of(question, events, bound.get(), tasks)?;
    let first_line = head_text(alloc, question, events, bound, plan.cycles, plan.confirmed)?;
    Ok(ReportStart {
        bytes: plan.length as u32,
        first_line,
    })
}

/// Returns the first line of a report: the number, length and bound of its question, and the
/// numbers of rows and of confirmed rows.
///
/// # Errors
/// `NoMemory` if an allocation fails.
pub fn head_text(
    alloc: Global,
    question: u32,
    events: u32,
    bound: Bound,
    cycles: u64,
    confirmed: u64,
) -> Result<Vec<u8>, NoMemory>
    ensures { IfOk result (λ text. text.items ≡ about question events bound ++
        counts cycles confirmed) }
{
    let mut buffer = TextBuffer::new(alloc);
    write_about(&mut buffer, question, events, bound.get())?;
    write_counts(&mut buffer, cycles, confirmed)?;
    Ok(buffer.finish())
}
