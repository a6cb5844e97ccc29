//! The entries of the table: `reserve` allocates, and `record` writes into reserved memory.

ghost use Rattle.std.specs.Prelude.{◌≡◌, ◌≤◌, ◌<◌, [], length, Some, slice_get, true, OnOk, IfOk};
ghost use Rattle.std.specs.List.Sorted.{IsStrictlyIncreasing};
ghost use Rattle.dependencies.specs.Tables.{listing_dependencies, listing_places, IsListing, EndBelow, HaveOneMore, IsPart, IsTotal};
ghost use Rattle.dependencies.specs.Entries.{listing_of, shown_by, AreRightEntries};

use crate::Dependency;
use crate::keys::Keys;
use segments::{NumberedPlaces, PlacesOf};
use std::alloc::Global;
use std::collections::hash_map::RandomState;
use trace_model::{NoMemory, Place};

/// The dependencies in order of first appearance, and the places of each number.
#[derive(Drop)]
pub(crate) struct Entries {
    keys: Keys,
    places: NumberedPlaces,
}

impl Entries {
    /// Returns the empty entries.
    pub(crate) fn new(alloc: Global, state: RandomState) -> Entries
        ensures shown { listing_of result ≡ [] }
        ensures kept { AreRightEntries result }
    {
        Entries {
            keys: Keys::new(alloc, state),
            places: NumberedPlaces::new(alloc),
        }
    }

    /// Returns the number of dependencies.
    pub(crate) fn len(&self) -> usize
        requires { length (listing_of self.now) ≤ 4294967296 }
        ensures { result ≡ length (listing_of self.now) }
    {
        self.keys.len()
    }

    /// Returns the dependency with this number.
    pub(crate) fn dependency(&self, number: usize) -> &Dependency
        requires { number < length (listing_of self.now) }
        ensures { slice_get (listing_dependencies (listing_of self.now)) number ≡ Some result.now }
    {
        self.keys.get(number)
    }

    /// Returns the places of a number.
    pub(crate) fn places(&self, number: u32) -> PlacesOf<'_>
        requires known { number < length (listing_of self.now) }
        requires ascends { IsStrictlyIncreasing (listing_places (listing_of self.now) number) }
        ensures { result ≡ listing_places (listing_of self.now) number }
    {
        self.places.places(number)
    }

    /// Reserves memory for one more place, of a known or a new dependency.
    #[inline(always)]
    pub(crate) fn reserve(&mut self) -> Result<(), NoMemory>
        requires { length (listing_of self.old) ≤ 4294967296 }
        ensures shown { listing_of self.new ≡ listing_of self.old }
        ensures kept { AreRightEntries self.old → AreRightEntries self.new }
        ensures ok { OnOk result ((shown_by self.new).room ≡ true) }
    {
        self.keys.reserve()?;
        self.places.reserve()?;
        Ok(())
    }

    /// Frees the hash map of the numbers, which `reserve` fills anew. Does not allocate.
    pub(crate) fn free_numbers(&mut self)
        ensures shown { listing_of self.new ≡ listing_of self.old }
        ensures kept { AreRightEntries self.old → AreRightEntries self.new }
    {
        self.keys.free_numbers();
    }

    /// Adds a place of the dependency, and returns its number. Memory must be reserved.
    #[inline(always)]
    pub(crate) fn record(&mut self, place: Place, dependency: &Dependency) -> usize
        requires room { (shown_by self.old).room ≡ true }
        requires kept { AreRightEntries self.old }
        requires listing { IsListing (listing_of self.old) }
        requires below { EndBelow (listing_of self.old) place }
        ensures noted { HaveOneMore (listing_of self.old) place dependency.now result
            (listing_of self.new) }
        ensures kept { AreRightEntries self.new }
    {
        let _index = place.get(); // for the proof: the range of a place bounds the numbers
        let number = self.keys.record(dependency);
        self.places.record(number as u32, place);
        number
    }

    /// Returns the dependencies below `total`, with their places below `bound`.
    pub(crate) fn share(&self, total: usize, bound: u32) -> Result<Entries, NoMemory>
        requires kept { AreRightEntries self.now }
        requires listing { IsListing (listing_of self.now) }
        requires total { IsTotal (listing_of self.now) total bound }
        ensures part { IfOk result (λ part.
            IsPart (listing_of self.now) total bound (listing_of part)) }
        ensures listing { IfOk result (λ part. IsListing (listing_of part)) }
        ensures kept { IfOk result AreRightEntries }
    {
        Ok(Entries {
            keys: self.keys.share(total)?,
            places: self.places.share(bound)?,
        })
    }
}
