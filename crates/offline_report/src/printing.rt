//! The texts of the rows of a report, one after another.
ghost use Rattle.std.specs.Prelude.{◌≡◌, ◌++◌, List, ℕ, flat_map, option_to_list, slice_get, IfOk, OnOk};
ghost use Rattle.trace_model.specs.Theory.Dependencies.{dependencies};
ghost use Rattle.dependencies.specs.Tables.{table_dependencies};
ghost use Rattle.reports.specs.Printed.{with_dependencies};
ghost use Rattle.reports.specs.Text.{row_text};
ghost use Rattle.offline_report.specs.Offline.{rows_text, tasks_rows_text};

use crate::parts::ReportRows;
use dependencies::{DepTable, Dependency};
use reports::{BareRow, Row, TextBuffer};
use snapshots::Snapshot;
use std::alloc::Global;
use std::marker::Model;
use std::mem;
use trace_model::{MAX_MEMBERS, NoMemory};

/// Prints rows one after another, in memory that is allocated before the first one. Contracts see
/// it as the text of the last row.
pub struct RowPrinter {
    alloc: Global,
    members: Vec<Dependency>,
    buffer: TextBuffer,
}

impl Drop for RowPrinter {
    fn drop(self) {
        let RowPrinter {
            alloc: _,
            members: _,
            buffer: _,
        } = self;
    }
}

impl Model for RowPrinter {
    ghost use Rattle.std.specs.Prelude.{ℕ, List};

    ghost Value = { List ℕ };

    ghost view = { λ p. p.buffer };
}

/// Appends the dependencies with these numbers. A number that none has is left out.
///
/// # Errors
/// `NoMemory` if an allocation fails.
fn push_members(
    table: &DepTable,
    numbers: &[u32],
    members: &mut Vec<Dependency>,
) -> Result<(), NoMemory>
    ensures { OnOk result (members.new.items ≡ members.old.items ++
        flat_map (λ m. option_to_list (slice_get (table_dependencies table.now) m)) numbers.now) }
{
    for number in numbers {
        if (*number as usize) < table.len() {
            members.push(table.get(*number).copied())?;
        }
    }
    Ok(())
}

impl RowPrinter {
    /// Returns a printer with memory for the texts of these rows, which are those of a trace with
    /// `events` events. So printing them does not allocate.
    ///
    /// # Errors
    /// `NoMemory` if an allocation fails.
    pub fn new(alloc: Global, events: u32, rows: &ReportRows) -> Result<RowPrinter, NoMemory> {
        let longest = rows.longest.min(u64::from(u32::MAX)) as u32;
        // One witness has each place once, so it alone is no reason for a cache.
        let others = rows.confirmed_bytes.saturating_sub(rows.longest);
        Ok(RowPrinter {
            alloc,
            members: Vec::with_capacity(alloc, MAX_MEMBERS)?,
            buffer: TextBuffer::with_room(alloc, longest, events, others)?,
        })
    }

    /// Prints a row with the snapshot's dependencies, and returns it with them. It has the memory
    /// of the printer: give it back by [`RowPrinter::keep`].
    ///
    /// # Errors
    /// `NoMemory` if an allocation fails, which does not happen for the rows for which it has
    /// memory.
    pub fn print(&mut self, snapshot: &Snapshot, row: BareRow) -> Result<Row, NoMemory>
        ensures row { IfOk result
            (λ printed. printed ≡ with_dependencies (dependencies snapshot.now) row) }
        ensures text { IfOk result (λ printed. self.new ≡ row_text printed) }
    {
        let mut members = mem::replace(&mut self.members, Vec::new(self.alloc));
        members.clear();
        push_members(snapshot.table(), row.cycle.numbers(), &mut members)?;
        let row = row.with(members);
        self.buffer.clear();
        self.buffer.push_row(&row)?;
        Ok(row)
    }

    /// Returns the text of the last row. Does not allocate.
    pub fn text(&self) -> &[u8]
        ensures { result.now ≡ self.now }
    {
        self.buffer.bytes()
    }

    /// Takes back the memory of a printed row. Does not allocate.
    pub fn keep(&mut self, row: Row)
        ensures { self.new ≡ self.old }
    {
        self.members = row.into_dependencies();
    }
}

/// Appends the texts of the rows of a task.
///
/// # Errors
/// `NoMemory` if an allocation fails.
fn push_rows(
    snapshot: &Snapshot,
    rows: Vec<BareRow>,
    printer: &mut RowPrinter,
    text: &mut Vec<u8>,
) -> Result<(), NoMemory>
    ensures { OnOk result (text.new.items ≡ text.old.items ++ rows_text snapshot.now rows.items) }
{
    for row in rows {
        let row = printer.print(snapshot, row)?;
        text.extend_from_slice(printer.text())?;
        printer.keep(row);
    }
    Ok(())
}

/// Returns the first line and the texts of the rows as one text.
///
/// # Errors
/// `NoMemory` if an allocation fails.
pub(crate) fn report_text(
    alloc: Global,
    snapshot: &Snapshot,
    found: ReportRows,
) -> Result<Vec<u8>, NoMemory>
    ensures { IfOk result (λ text. text.items ≡
        found.first_line.items ++ tasks_rows_text snapshot.now found.tasks.items) }
{
    let mut printer = RowPrinter::new(alloc, snapshot.len() as u32, &found)?;
    let mut text = found.first_line;
    for rows in found.tasks {
        push_rows(snapshot, rows, &mut printer, &mut text)?;
    }
    Ok(text)
}
