//! The places of each number, in shared segments.
mod heads;
mod list;
mod note;
mod number_list;
mod share;

ghost use Rattle.std.specs.Prelude.{◌≡◌, ◌≤◌, ◌<◌, ◌+◌, ◌++◌, ◌∷◌, [], ℕ, length, take, true, nat_eq, OnOk, IfOk, if◌then◌else◌};
ghost use Rattle.std.specs.List.Sorted.{IsStrictlyIncreasing};
ghost use Rattle.segments.specs.Notes.{noted_places, notes_below, Ascend};

use crate::Segments;
use crate::links::link_after;
use heads::{head, set_head};
pub use list::PlacesOf;
use note::Note;
use number_list::NumberList;
use share::{copy_notes, count_below, heads_below};
use std::alloc::Global;
use std::marker::Model;
use trace_model::{NoMemory, Place};

/// The places of numbers 0, 1, .., recorded in ascending order of places.
///
/// Contracts see the notes, which are pairs of a number and a place, the count of numbers, and
/// whether memory is reserved for one more note.
#[derive(Drop)]
pub struct NumberedPlaces {
    alloc: Global,
    notes: Segments<Note>,
    heads: Vec<Option<u32>>,
}

impl Model for NumberedPlaces {
    ghost use Rattle.std.specs.Prelude.{vec_len};
    ghost use Rattle.segments.specs.Notes.{NumberedPlacesView, pairs_of, has_room, IsNumberedTable};

    ghost Value = { NumberedPlacesView };

    ghost view = { λ p. record {
      notes = pairs_of p.notes.0;
      numbers = vec_len p.heads;
      room = has_room p.notes.1 p.heads;
    } };

    ghost invariant = { λ p. IsNumberedTable p.notes.0 p.heads.items };
}

impl NumberedPlaces {
    /// Returns the empty table. Does not allocate.
    pub fn new(alloc: Global) -> NumberedPlaces
        ensures notes { result.notes ≡ [] }
        ensures numbers { result.numbers ≡ 0 }
    {
        NumberedPlaces {
            alloc,
            notes: Segments::new(alloc),
            heads: Vec::new(alloc),
        }
    }

    /// Reserves memory for one note. Seals a full segment.
    ///
    /// # Errors
    ///
    /// `NoMemory` if an allocation fails. The notes do not change.
    pub fn reserve(&mut self) -> Result<(), NoMemory>
        ensures notes { self.new.notes ≡ self.old.notes }
        ensures numbers { self.new.numbers ≡ self.old.numbers }
        ensures ok { OnOk result (self.new.room ≡ true) }
    {
        self.heads.reserve(1)?;
        self.notes.reserve()?;
        Ok(())
    }

    /// Adds a place of `number`, which is a known number or the next one. Memory must be reserved.
    /// Does not allocate.
    pub fn record(&mut self, number: u32, place: Place)
        requires room { self.old.room ≡ true }
        requires number { number ≤ self.old.numbers }
        requires few { length self.old.notes < 4294967296 }
        ensures notes { self.new.notes ≡ self.old.notes ++ (number, place) ∷ [] }
        ensures numbers { self.new.numbers ≡
            (if nat_eq number self.old.numbers then self.old.numbers + 1 else self.old.numbers) }
    {
        let index = self.notes.len() as u32;
        let list = NumberList {
            notes: &self.notes,
            number,
        };
        let link = link_after(&list, head(&self.heads, number), index);
        self.notes.put(Note {
            number,
            place,
            link,
        });
        set_head(&mut self.heads, number, index);
    }

    /// Returns the places of `number`, which must ascend.
    pub fn places(&self, number: u32) -> PlacesOf<'_>
        requires { IsStrictlyIncreasing (noted_places self.now.notes number) }
        ensures { result ≡ noted_places self.now.notes number }
    {
        let list = NumberList {
            notes: &self.notes,
            number,
        };
        PlacesOf {
            list,
            last: head(&self.heads, number),
        }
    }

    /// Returns the table of the places below `bound`. Sealed segments are shared, and at most one
    /// segment is copied. Takes one look-up for each number.
    ///
    /// # Errors
    ///
    /// `NoMemory` if an allocation fails.
    pub fn share(&self, bound: u32) -> Result<NumberedPlaces, NoMemory>
        requires { Ascend self.now.notes }
        ensures notes { IfOk result (λ part. part.notes ≡ notes_below bound self.now.notes) }
        ensures numbers { IfOk result (λ part. part.numbers ≡ self.now.numbers) }
    {
        let count = count_below(&self.notes, bound);
        let notes = copy_notes(&self.notes, count)?;
        let heads = heads_below(self.alloc, &self.notes, &self.heads, count)?;
        Ok(NumberedPlaces {
            alloc: self.alloc,
            notes,
            heads,
        })
    }
}
