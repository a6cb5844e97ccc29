//! The linked list of a number.

ghost use Rattle.std.specs.Prelude.{length};
ghost use Rattle.segments.specs.Notes.{is_of_number, pairs_of, AreNotes};

use crate::Segments;
use crate::links::{Link, Linked};
use crate::numbered::note::Note;

/// The list of all notes, in which the notes of one number pass.
#[derive(Drop)]
pub(crate) struct NumberList<'a> {
    pub(crate) notes: &'a Segments<Note>,
    pub(crate) number: u32,
    ghost linked: { AreNotes notes.now.0 },
}

impl<'a> Linked for NumberList<'a> {
    ghost matches = { λ list. is_of_number (pairs_of list.notes.now.0) list.number };

    ghost size = { λ list. length list.notes.now.0 };

    fn link_at(&self, index: u32) -> Link {
        let Some(note) = self.notes.get(index as usize) else {
            unreachable!()
        };
        note.link
    }
}
