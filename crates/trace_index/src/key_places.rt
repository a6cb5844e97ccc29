//! The places of a key, read by index.

use crate::key_list::KeyList;
use std::marker::Model;
use trace_model::Place;

/// The places of a key, ascending, read by index. A read follows links back from the last place:
/// its time is in proportion to the places after the one that it returns, and for a lock to all
/// places.
#[derive(Drop)]
pub struct KeyPlaces<'a> {
    pub(crate) list: KeyList<'a>,
    pub(crate) last: Option<u32>,
}

impl<'a> Model for KeyPlaces<'a> {
    ghost use Rattle.std.specs.Prelude.{List, ℕ, length};
    ghost use Rattle.trace_model.specs.Theory.Closure.{ascending_places};
    ghost use Rattle.trace_index.specs.Links.{matches, trace_of};
    ghost use Rattle.trace_index.specs.Room.{IsKeyPlaces};

    ghost Value = { List ℕ };

    ghost view = { λ v. ascending_places (matches (trace_of v.list.rows.now.0) v.list.key)
        (length v.list.rows.now.0) };

    ghost invariant = { λ v. IsKeyPlaces v.list.rows.now.0 v.list.key v.last };
}

impl<'a> KeyPlaces<'a> {
    ghost use Rattle.std.specs.Prelude.{◌≡◌, ◌<◌, Some, length, nat_eq, slice_get};
    ghost use Rattle.std.specs.List.Sorted.{IsStrictlyIncreasing};

    /// Returns the number of places. Takes one step for a thread, and for a lock one step for each
    /// place.
    pub fn len(&self) -> usize
        ensures length { result ≡ length self.now }
        ensures ascends { IsStrictlyIncreasing self.now }
    {
        self.list.count(self.last)
    }

    /// Returns whether there is no place.
    pub fn is_empty(&self) -> bool
        ensures { result ≡ nat_eq (length self.now) 0 }
    {
        self.len() == 0
    }

    /// Returns the place at the 0-based `index`, which must be below the length.
    pub fn get(&self, index: usize) -> Place
        requires { index < length self.now }
        ensures { slice_get self.now index ≡ Some result }
    {
        let count = self.list.count(self.last);
        Place::new(self.list.place_at(self.last, count, index))
    }
}
