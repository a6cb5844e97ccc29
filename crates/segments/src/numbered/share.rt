//! Prefixes of the notes and of the heads.

ghost use Rattle.std.specs.Prelude.{◌≡◌, ◌≤◌, ◌<◌, ℕ, length, take, slice_get, IfOk};
ghost use Rattle.std.specs.Option.{option_flatten};
ghost use Rattle.trace_model.specs.Theory.Trace.{last_place};
ghost use Rattle.segments.specs.Notes.{is_of_number, pairs_of, notes_below, Ascend, AreNotes, AreHeads};

use crate::Segments;
use crate::links::last_below;
use crate::numbered::heads::head;
use crate::numbered::note::Note;
use crate::numbered::number_list::NumberList;
use std::alloc::Global;
use trace_model::NoMemory;

/// Returns the number of notes with a place below `bound`, by binary search.
pub(crate) fn count_below(notes: &Segments<Note>, bound: u32) -> usize
    requires ascend { Ascend (pairs_of notes.now.0) }
    requires few { length notes.now.0 ≤ 4294967296 }
    ensures within { result ≤ length notes.now.0 }
    ensures first { take result (pairs_of notes.now.0) ≡ notes_below bound (pairs_of notes.now.0) }
{
    let mut low = 0;
    let mut high = notes.len();
    while low < high {
        let middle = low + (high - low) / 2;
        let Some(note) = notes.get(middle) else {
            unreachable!()
        };
        if note.place.get() < bound {
            low = middle + 1;
        } else {
            high = middle;
        }
    }
    low
}

/// Returns the first `count` notes. Sealed segments are shared, and at most one segment is copied.
pub(crate) fn copy_notes(all: &Segments<Note>, count: usize) -> Result<Segments<Note>, NoMemory>
    requires within { count ≤ length all.now.0 }
    requires short { length all.now.0 ≤ 4294967296 }
    ensures { IfOk result (λ part. part.0 ≡ take count all.now.0) }
{
    let mut part = all.share(count)?;
    for index in part.len()..count {
        let Some(note) = all.get(index) else {
            unreachable!()
        };
        part.reserve()?;
        part.put(note);
    }
    Ok(part)
}

/// Returns the last note of each number among the first `count` notes.
pub(crate) fn heads_below(
    alloc: Global,
    notes: &Segments<Note>,
    heads: &[Option<u32>],
    count: usize,
) -> Result<Vec<Option<u32>>, NoMemory>
    requires notes { AreNotes notes.now.0 }
    requires heads { AreHeads notes.now.0 heads.now }
    requires within { count ≤ length notes.now.0 }
    requires few { length heads.now ≤ 4294967296 }
    ensures len { IfOk result (λ below. length below.items ≡ length heads.now) }
    ensures heads { IfOk result (λ below. (m : ℕ) → m < length heads.now →
        slice_get below.items m ≡ Some (last_place (is_of_number (pairs_of notes.now.0) m) count)) }
{
    let mut below = Vec::with_capacity(alloc, heads.len())?;
    for number in 0..heads.len() {
        let list = NumberList {
            notes,
            number: number as u32,
        };
        let last = head(heads, list.number);
        below.push(last_below(&list, last, count))?;
    }
    Ok(below)
}
