//! The places of a number, read by index.

use crate::links::{count_passing, entry_at};
use crate::numbered::number_list::NumberList;
use std::marker::Model;
use trace_model::{NoMemory, Place};

/// The places of a number, ascending, read by index. A read follows links back from the last place.
#[derive(Drop)]
pub struct PlacesOf<'a> {
    pub(crate) list: NumberList<'a>,
    pub(crate) last: Option<u32>,
}

impl<'a> Model for PlacesOf<'a> {
    ghost use Rattle.std.specs.Prelude.{List, ℕ};
    ghost use Rattle.segments.specs.Notes.{noted_places, pairs_of, IsPlacesOf};

    ghost Value = { List ℕ };

    ghost view = { λ v. noted_places (pairs_of v.list.notes.now.0) v.list.number };

    ghost invariant = { λ v. IsPlacesOf v.list.notes.now.0 v.list.number v.last };
}

impl<'a> PlacesOf<'a> {
    ghost use Rattle.std.specs.Prelude.{◌≡◌, ◌<◌, Some, length, nat_eq, slice_get, OnOk};
    ghost use Rattle.std.specs.List.Sorted.{IsStrictlyIncreasing};

    /// Returns the number of places.
    pub fn len(&self) -> usize
        ensures length { result ≡ length self.now }
        ensures ascends { IsStrictlyIncreasing self.now }
    {
        count_passing(&self.list, self.last)
    }

    /// Returns whether there is no place.
    pub fn is_empty(&self) -> bool
        ensures { result ≡ nat_eq (length self.now) 0 }
    {
        self.len() == 0
    }

    /// Returns the place at the 0-based `index`, which must be below the length.
    pub fn get(&self, index: usize) -> Place
        requires { index < length self.now }
        ensures { slice_get self.now index ≡ Some result }
    {
        let found = entry_at(&self.list, self.last, index);
        let Some(note) = self.list.notes.get(found as usize) else {
            unreachable!()
        };
        note.place
    }

    /// Sets `places` to the places. Follows one link for each of them.
    ///
    /// # Errors
    ///
    /// `NoMemory` if an allocation fails.
    pub fn copy_to(&self, places: &mut Vec<Place>) -> Result<(), NoMemory>
        ensures { OnOk result (places.new.items ≡ self.now) }
    {
        places.clear();
        places.resize(self.len(), Place::new(0))?;
        let mut at = self.last;
        while let Some(index) = at {
            let Some(note) = self.list.notes.get(index as usize) else {
                unreachable!()
            };
            places[note.link.number as usize] = note.place;
            at = note.link.earlier.get();
        }
        Ok(())
    }
}
