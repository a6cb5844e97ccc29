//! Places of a trace, and lists of places.

use std::marker::Model;

/// A place: a 0-based index into a trace.
#[derive(Clone, Copy, Debug, Default, PartialEq, Eq, PartialOrd, Ord, Hash)]
pub struct Place(u32);

impl Model for Place {
    ghost use Rattle.std.specs.Prelude.{ℕ};

    ghost Value = { ℕ };

    ghost view = { λ p. p.0 };

    ghost inverse = { λ n. record { 0 = n } };
}

impl Place {
    ghost use Rattle.std.specs.Prelude.{◌≡◌};

    /// Returns the place with this index.
    pub fn new(index: u32) -> Place
        ensures { result ≡ index }
    {
        Place(index)
    }

    /// Returns the index.
    pub fn get(self) -> u32
        ensures { result ≡ self }
    {
        self.0
    }
}

/// A list of places, ascending, that is read by index.
#[derive(Drop)]
pub struct PlaceList<'a> {
    places: &'a [Place],
}

impl<'a> Model for PlaceList<'a> {
    ghost use Rattle.std.specs.Prelude.{List, ℕ};
    ghost use Rattle.std.specs.List.Sorted.{IsStrictlyIncreasing};

    ghost Value = { List ℕ };

    ghost view = { λ p. p.places.now };

    ghost invariant = { λ p. IsStrictlyIncreasing p.places.now };
}

impl<'a> PlaceList<'a> {
    ghost use Rattle.std.specs.Prelude.{◌≡◌, ◌<◌, [], Some, length, nat_eq, slice_get};
    ghost use Rattle.std.specs.List.Sorted.{IsStrictlyIncreasing};

    /// Returns the list of these places, which must ascend.
    pub fn new(places: &'a [Place]) -> PlaceList<'a>
        requires { IsStrictlyIncreasing places.now }
        ensures { result ≡ places.now }
    {
        PlaceList { places }
    }

    /// Returns the empty list.
    pub fn none() -> PlaceList<'a>
        ensures { result ≡ [] }
    {
        PlaceList { places: &[] }
    }

    /// Returns the number of places.
    pub fn len(&self) -> usize
        ensures length { result ≡ length self.now }
        ensures ascends { IsStrictlyIncreasing self.now }
    {
        self.places.len()
    }

    /// Returns whether the list is empty.
    pub fn is_empty(&self) -> bool
        ensures { result ≡ nat_eq (length self.now) 0 }
    {
        self.places.is_empty()
    }

    /// Returns the place with this 0-based index, which must be below the length.
    pub fn get(&self, index: usize) -> Place
        requires { index < length self.now }
        ensures { slice_get self.now index ≡ Some result }
    {
        let Some(place) = self.places.get(index) else {
            unreachable!()
        };
        *place
    }
}
