//! The dependencies of a trace that grows, numbered by first appearance.

ghost use Rattle.std.specs.Prelude.{◌≡◌, ◌<◌, ◌≤◌, [], nat_eq, length, Some, slice_get, true, IfOk, OnOk, OnErr};
ghost use Rattle.dependencies.specs.Tables.{table_dependencies, dependency_places, AllBelow, IsNoted, IsPart, IsTotal};

use crate::Dependency;
use crate::entries::Entries;
use segments::PlacesOf;
use std::alloc::Global;
use std::collections::hash_map::RandomState;
use std::marker::Model;
use trace_model::{NoMemory, Place};

/// The dependencies by number, from 0 by first appearance, each with its places.
#[derive(Drop)]
pub struct DepTable {
    entries: Entries,
}

impl Model for DepTable {
    ghost use Rattle.dependencies.specs.Tables.{DependencyTable, IsListing};
    ghost use Rattle.dependencies.specs.Entries.{shown_by, listing_of, AreRightEntries};

    ghost Value = { DependencyTable };

    ghost view = { λ t. shown_by t.entries };

    ghost invariant = { λ t. IsListing (listing_of t.entries) × AreRightEntries t.entries };
}

impl DepTable {
    /// Returns the table without dependencies. Does not allocate.
    pub fn new(alloc: Global, state: RandomState) -> DepTable
        ensures { result.shown ≡ [] }
    {
        DepTable {
            entries: Entries::new(alloc, state),
        }
    }

    /// Returns the number of dependencies. Does not allocate.
    pub fn len(&self) -> usize
        ensures value { result ≡ length (table_dependencies self.now) }
        ensures few { length (table_dependencies self.now) ≤ 4294967296 }
    {
        self.entries.len()
    }

    /// Returns whether there is no dependency. Does not allocate.
    pub fn is_empty(&self) -> bool
        ensures { result ≡ nat_eq (length (table_dependencies self.now)) 0 }
    {
        self.len() == 0
    }

    /// Returns the dependency with this number, which must be below `len()`. Does not allocate.
    pub fn get(&self, number: u32) -> &Dependency
        requires { number < length (table_dependencies self.now) }
        ensures { slice_get (table_dependencies self.now) number ≡ Some result.now }
    {
        self.entries.dependency(number as usize)
    }

    /// Returns the places of the dependency with this number, which must be below `len()`:
    /// ascending, read by index. Does not allocate.
    pub fn places(&self, number: u32) -> PlacesOf<'_>
        requires { number < length (table_dependencies self.now) }
        ensures { result ≡ dependency_places self.now number }
    {
        self.entries.places(number)
    }

    /// Adds a place of `dependency`, and returns its number: the one that it has, or the next one.
    /// The place must be later than all recorded places.
    ///
    /// # Errors
    ///
    /// `NoMemory` if an allocation fails. The dependencies and places do not change.
    #[inline(always)]
    pub fn note(&mut self, place: Place, dependency: &Dependency) -> Result<u32, NoMemory>
        requires { AllBelow self.old place }
        ensures ok { IfOk result (λ number. IsNoted self.old place dependency.now number self.new) }
        ensures err { OnErr result (self.new.shown ≡ self.old.shown) }
    {
        self.reserve(place, dependency)?;
        Ok(self.record(place, dependency))
    }

    /// Reserves memory for one more place of `dependency`. The dependencies and places do not
    /// change.
    ///
    /// # Errors
    ///
    /// `NoMemory` if an allocation fails.
    #[inline(always)]
    pub fn reserve(&mut self, _place: Place, _dependency: &Dependency) -> Result<(), NoMemory>
        ensures shown { self.new.shown ≡ self.old.shown }
        ensures ok { OnOk result (self.new.room ≡ true) }
    {
        self.entries.reserve()
    }

    /// Adds a place of `dependency`, as `note` does, and returns its number. Memory must be
    /// reserved, and the place must be later than all recorded places. Does not allocate.
    #[inline(always)]
    pub fn record(&mut self, place: Place, dependency: &Dependency) -> u32
        requires room { self.old.room ≡ true }
        requires below { AllBelow self.old place }
        ensures { IsNoted self.old place dependency.now result self.new }
    {
        let _index = place.get(); // for the proof: the range of a place bounds the numbers
        self.entries.record(place, dependency) as u32
    }

    /// Frees the memory by which the numbers of dependencies are found, for a table that is only
    /// read from now on. The dependencies and places do not change. A later `reserve` allocates it
    /// anew. Does not allocate.
    pub fn free_numbers(&mut self)
        ensures { self.new.shown ≡ self.old.shown }
    {
        self.entries.free_numbers();
    }

    /// Returns the table of a prefix of the trace: the first `total` dependencies, with their
    /// places below `events`. `total` must be the number of dependencies with such a place.
    ///
    /// Copies at most 4,096 dependencies and 4,096 places, and shares the full segments.
    ///
    /// # Errors
    ///
    /// `NoMemory` if an allocation fails.
    pub fn share(&self, total: u32, events: u32) -> Result<DepTable, NoMemory>
        requires { IsTotal self.now.shown total events }
        ensures { IfOk result (λ part. IsPart self.now.shown total events part.shown) }
    {
        let entries = self.entries.share(total as usize, events)?;
        Ok(DepTable { entries })
    }
}
