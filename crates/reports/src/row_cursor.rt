//! The text of rows in pieces, which needs no memory for the text.

ghost use Rattle.std.specs.Prelude.{◌≡◌, ◌-◌, ◌<◌, ◌≤◌, ◌++◌, [], length, drop, flat_map, List, Vec, false};
ghost use Rattle.std.specs.declared.alloc.Global.{Global};
ghost use Rattle.trace_model.specs.declared.limits.TheConstants.{MAX_REPORT};
ghost use Rattle.reports.specs.Printed.{PrintedRow};
ghost use Rattle.reports.specs.Text.{row_front, row_text, run_text};
ghost use Rattle.reports.specs.Remaining.{after_part, after_run, rest_of_row, rest_of_rows, rest_of_witness, rest_text};

use crate::piece::{PIECE, Piece};
use crate::row::{Found, Row};
use crate::write::write_front;

/// The largest number of numbers that are put into a piece at once. They fit: each takes at most 11
/// bytes.
const MOST: u32 = 372;

/// Consecutive places of a witness that are to be written, from `next` up to but not including
/// `end`. Then those after `end` follow.
#[derive(Clone, Copy)]
pub(crate) struct Run {
    pub(crate) next: u32,
    pub(crate) end: u32,
}

/// What is to be written of a row: its front from an index on, or its witness.
#[derive(Clone, Copy)]
pub(crate) enum Part {
    Front(usize),
    Witness(Run),
}

/// How far the text of the rows of all tasks is written.
#[derive(Clone, Copy)]
pub struct RowCursor {
    pub(crate) task: usize,
    pub(crate) row: usize,
    pub(crate) part: Part,
}

/// Puts the next numbers of a run into the piece, and returns the rest of the run.
fn put_numbers(piece: &mut Piece, run: Run) -> Run
    requires { run.next < run.end }
    ensures numbers { run_text run.next (run.end - run.next) ≡
        piece.new.text.items ++ run_text result.next (result.end - result.next) }
    ensures end { result.end ≡ run.end }
{
    let count = (run.end - run.next).min(MOST);
    piece.begin(0);
    piece.take_run(run.next, count as usize);
    Run {
        next: run.next + count,
        end: run.end,
    }
}

/// Puts the next part of a witness into the piece, and returns what is left, or `None` at its end.
fn put_witness(piece: &mut Piece, found: &Found, run: Run) -> Option<Run>
    ensures { rest_of_witness found.now run ≡ piece.new.text.items ++ after_run found.now result }
{
    if run.next < run.end {
        return Some(put_numbers(piece, run));
    }
    match found.witness.range_from(run.end) {
        Some(range) => {
            let later = Run {
                next: range.start,
                end: range.end,
            };
            Some(put_numbers(piece, later))
        }
        None => {
            piece.begin(0);
            piece.take(b"\n");
            None
        }
    }
}

/// Puts the front of a row from an index on into the piece, and returns what is left of the row, or
/// `None` at its end.
fn put_front(piece: &mut Piece, row: &Row, from: usize) -> Option<Part>
    requires { length (row_front row.now) ≤ MAX_REPORT }
    ensures { rest_of_row row.now (Part.Front from) ≡
        piece.new.text.items ++ after_part row.now result }
{
    piece.begin(from);
    match write_front(piece, row) {
        Ok(()) => {}
    }
    if piece.is_full() {
        return Some(Part::Front(from + PIECE));
    }
    match &row.found {
        Some(_) => Some(Part::Witness(Run { next: 0, end: 0 })),
        None => None,
    }
}

/// Puts the next part of a row into the piece, and returns what is left of the row, or `None` at
/// its end.
fn put_part(piece: &mut Piece, row: &Row, part: Part) -> Option<Part>
    requires { length (row_front row.now) ≤ MAX_REPORT }
    ensures { rest_of_row row.now part ≡ piece.new.text.items ++ after_part row.now result }
{
    match part {
        Part::Front(from) => put_front(piece, row, from),
        Part::Witness(run) => match &row.found {
            Some(found) => {
                let later = put_witness(piece, found, run)?;
                Some(Part::Witness(later))
            }
            None => {
                piece.begin(0);
                None
            }
        },
    }
}

impl RowCursor {
    /// Returns the cursor before the first row.
    pub fn new() -> RowCursor
        ensures { (tasks : List (Vec PrintedRow Global)) → rest_text tasks result ≡
            flat_map (λ task. flat_map row_text task.items) tasks }
    {
        RowCursor {
            task: 0,
            row: 0,
            part: Part::Front(0),
        }
    }

    /// Puts the next part of its row into the piece.
    fn put_next(&mut self, rows: &[Row], piece: &mut Piece)
        requires there { self.old.row < length rows.now }
        requires few { length (flat_map row_text rows.now) ≤ MAX_REPORT }
        ensures text { rest_of_rows (drop self.old.row rows.now) self.old.part ≡
            piece.new.text.items ++ rest_of_rows (drop self.new.row rows.now) self.new.part }
        ensures task { self.new.task ≡ self.old.task }
    {
        match put_part(piece, &rows[self.row], self.part) {
            Some(part) => self.part = part,
            None => {
                self.row += 1;
                self.part = Part::Front(0);
            }
        }
    }

    /// Puts the next part of the text of the rows into the piece, and returns whether there is one.
    /// Does not allocate.
    pub fn next(&mut self, tasks: &[Vec<Row>], piece: &mut Piece) -> bool
        requires { length (flat_map (λ task. flat_map row_text task.items) tasks.now)
            ≤ MAX_REPORT }
        ensures text { rest_text tasks.now self.old ≡
            piece.new.text.items ++ rest_text tasks.now self.new }
        ensures end { result ≡ false → rest_text tasks.now self.old ≡ [] }
    {
        while self.task < tasks.len() {
            let rows = tasks[self.task].as_slice();
            if self.row < rows.len() {
                self.put_next(rows, piece);
                return true;
            }
            *self = RowCursor {
                task: self.task + 1,
                row: 0,
                part: Part::Front(0),
            };
        }
        piece.begin(0);
        false
    }
}
