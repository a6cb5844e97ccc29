//! The text of the rows of a settled question, in pieces.

ghost use Rattle.std.specs.Prelude.{◌≡◌, ◌≤◌, ◌++◌, [], length, flat_map, false};
ghost use Rattle.std.specs.Arc.{arc_value};
ghost use Rattle.trace_model.specs.declared.limits.TheConstants.{MAX_REPORT};
ghost use Rattle.reports.specs.Text.{row_text};

use reports::{Piece, RowCursor};
use result_ledger::SharedTasks;
use std::marker::Model;

/// The text of the rows of all tasks of a question, which it shares, without the pieces that were
/// taken. Contracts see it as the bytes that are left.
#[derive(Drop)]
pub struct RowText {
    tasks: SharedTasks,
    cursor: RowCursor,
}

impl Model for RowText {
    ghost use Rattle.std.specs.Prelude.{◌≤◌, ℕ, List, length, flat_map};
    ghost use Rattle.std.specs.Arc.{arc_value};
    ghost use Rattle.trace_model.specs.declared.limits.TheConstants.{MAX_REPORT};
    ghost use Rattle.reports.specs.Text.{row_text};
    ghost use Rattle.reports.specs.Remaining.{rest_text};

    ghost Value = { List ℕ };

    ghost view = { λ t. rest_text (arc_value t.tasks).items t.cursor };

    ghost invariant = { λ t. length (flat_map (λ task. flat_map row_text task.items)
        (arc_value t.tasks).items) ≤ MAX_REPORT };
}

impl RowText {
    /// Returns the whole text of these rows.
    pub(crate) fn new(tasks: SharedTasks) -> RowText
        requires { length (flat_map (λ task. flat_map row_text task.items)
            (arc_value tasks).items) ≤ MAX_REPORT }
        ensures { result ≡ flat_map (λ task. flat_map row_text task.items)
            (arc_value tasks).items }
    {
        RowText {
            tasks,
            cursor: RowCursor::new(),
        }
    }

    /// Takes the next bytes of the text into the piece, and returns whether there are any left to
    /// take. Does not allocate.
    pub fn next(&mut self, piece: &mut Piece) -> bool
        ensures text { self.old ≡ piece.new.text.items ++ self.new }
        ensures end { result ≡ false → self.old ≡ [] }
    {
        self.cursor.next(self.tasks.as_slice(), piece)
    }
}
