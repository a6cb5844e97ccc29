//! Measures a text before it is written.

ghost use Rattle.std.specs.Prelude.{◌≡◌, ◌<◌, ◌≤◌, ◌^◌, ◌+◌, length, [], count_by, min, sum_by, MatchResult};
ghost use Rattle.trace_model.specs.declared.limits.TheConstants.{MAX_REPORT};
ghost use Rattle.reports.specs.Text.{is_confirmed_row, row_text};

use crate::row::Row;
use crate::run_measure::{RunMeasure, digits};
use crate::sink::Sink;
use crate::write::write_row;
use trace_model::MAX_REPORT;

/// The text has more than `MAX_REPORT` bytes.
#[derive(Drop)]
pub(crate) struct TooLong;

/// A sink that counts the bytes of a text, up to `MAX_REPORT`.
#[derive(Drop)]
pub(crate) struct Counter {
    pub(crate) left: u64,
    run_measure: RunMeasure,
    ghost within: { left ≤ MAX_REPORT },
}

impl Counter {
    /// Returns a counter of an empty text.
    pub(crate) fn new() -> Counter
        ensures { ⟦<Counter as Sink>⟧.room.has result [] }
    {
        Counter {
            left: MAX_REPORT as u64,
            run_measure: RunMeasure::new(),
        }
    }

    /// Counts `bytes` more bytes.
    ///
    /// # Errors
    /// `TooLong` exactly if fewer are left; the count is unchanged.
    fn count(&mut self, bytes: u64) -> Result<(), TooLong>
        ensures { MatchResult result (λ _. self.new.left + bytes ≡ self.old.left)
            (λ _. (self.old.left < bytes) × (self.new.left ≡ self.old.left)) }
    {
        self.left = self.left.checked_sub(bytes).ok_or(TooLong)?;
        Ok(())
    }
}

impl Sink for Counter {
    ghost use Rattle.std.specs.Prelude.{◌≡◌, ◌+◌, length};
    ghost use Rattle.trace_model.specs.declared.limits.TheConstants.{MAX_REPORT};

    type Refused = TooLong;

    ghost room = { record {
      has = λ c written. c.left + length written ≡ MAX_REPORT;
      least = MAX_REPORT + 1;
    } };

    fn put(&mut self, bytes: &[u8]) -> Result<(), TooLong> {
        self.count(bytes.len() as u64)
    }

    fn put_number(&mut self, before: &[u8], number: u64) -> Result<(), TooLong> {
        self.count(before.len() as u64 + digits(number))
    }

    fn put_run(&mut self, first: u32, count: usize) -> Result<(), TooLong> {
        let bytes = self.run_measure.run(first, count);
        self.count(bytes)
    }
}

/// Returns the number of bytes of the text of a row, or `MAX_REPORT + 1` if it has more than
/// `MAX_REPORT`. Does not allocate.
pub fn row_size(row: &Row) -> u64
    ensures { result ≡ min (length (row_text row.now)) (MAX_REPORT + 1) }
{
    let mut counter = Counter::new();
    match write_row(&mut counter, row) {
        Ok(()) => MAX_REPORT as u64 - counter.left,
        Err(TooLong) => MAX_REPORT as u64 + 1,
    }
}

/// Returns the number of confirmed rows.
pub fn confirmed_in(rows: &[Row]) -> usize
    ensures { result ≡ count_by is_confirmed_row rows.now }
{
    let mut count = 0;
    for row in rows {
        count += usize::from(row.found.is_some());
    }
    count
}

/// Returns the number of rows of all tasks.
pub(crate) fn count_rows(tasks: &[Vec<Row>]) -> usize
    requires { sum_by (λ task. length task.items) tasks.now < 2 ^ 64 }
    ensures { result ≡ sum_by (λ task. length task.items) tasks.now }
{
    let mut count = 0;
    for task in tasks {
        count += task.len();
    }
    count
}

/// Returns the number of confirmed rows of all tasks.
pub(crate) fn count_confirmed(tasks: &[Vec<Row>]) -> usize
    requires { sum_by (λ task. count_by is_confirmed_row task.items) tasks.now < 2 ^ 64 }
    ensures { result ≡ sum_by (λ task. count_by is_confirmed_row task.items) tasks.now }
{
    let mut count = 0;
    for task in tasks {
        count += confirmed_in(task.as_slice());
    }
    count
}
