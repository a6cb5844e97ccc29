//! The releases in one segment, by the acquires whose critical sections they end.

ghost use Rattle.std.specs.Prelude.{◌≡◌, ◌<◌, ◌≤◌, ◌+◌, vec_len, vec_capacity, ℕ, None, Some, OnOk, nat_eq, if◌then◌else◌};
ghost use Rattle.std.specs.HashMap.{spare};
ghost use Rattle.trace_index.specs.Links.{is_place};
ghost use Rattle.trace_index.specs.Releases.{near_release, release_in, HasReleaseRoom};

use crate::row::place_of;
use indexmap::IndexMap;
use segments::MaybeIndex;
use std::alloc::Global;
use std::collections::hash_map::RandomState;
use trace_model::{NoMemory, Place};

/// The releases in a segment, by acquire. An acquire in the same segment is an index into `near`;
/// only an acquire of an earlier segment is hashed.
#[derive(Drop)]
pub(crate) struct Releases {
    first: usize,
    near: Vec<MaybeIndex>,
    far: IndexMap<u32, Place, RandomState>,
}

impl Releases {
    /// Returns the releases of a segment that begins at place `first` and has no event.
    pub(crate) fn new(alloc: Global, state: RandomState, first: usize) -> Releases
        ensures { (a : ℕ) → release_in result a ≡ None }
    {
        Releases {
            first,
            near: Vec::new(alloc),
            far: IndexMap::with_hasher(alloc, state),
        }
    }

    /// Returns the release of an acquire in the segment itself.
    #[inline(always)]
    fn near_release(&self, acquire: Place) -> Option<Place>
        ensures { result ≡ near_release self.now acquire }
    {
        let index = (acquire.get() as usize).checked_sub(self.first)?;
        match self.near.get(index) {
            Some(end) => place_of(*end),
            None => None,
        }
    }

    /// Returns the release of an acquire, or `None`.
    #[inline(always)]
    pub(crate) fn of(&self, acquire: Place) -> Option<Place>
        ensures { result ≡ release_in self.now acquire }
    {
        match self.near_release(acquire) {
            Some(release) => Some(release),
            None => self.far.get(&acquire.get()).copied(),
        }
    }

    /// Reserves memory for `count` more places.
    pub(crate) fn reserve(&mut self, count: usize) -> Result<(), NoMemory>
        ensures same { (a : ℕ) → release_in self.new a ≡ release_in self.old a }
        ensures ok { OnOk result (HasReleaseRoom self.new count) }
    {
        self.near.reserve(count)?;
        self.far.reserve(count)?;
        Ok(())
    }

    /// Sets the release of an acquire.
    fn release_at(&mut self, acquire: Place, place: Place)
        requires room { 0 < spare self.old.far }
        requires small { place < 4294967295 }
        ensures releases { (a : ℕ) → release_in self.new a ≡
            (if nat_eq acquire a then Some place else release_in self.old a) }
        ensures near_len { vec_len self.new.near ≡ vec_len self.old.near }
        ensures near_room { vec_capacity self.new.near ≡ vec_capacity self.old.near }
        ensures far_room { spare self.old.far ≤ spare self.new.far + 1 }
    {
        if let Some(index) = (acquire.get() as usize).checked_sub(self.first)
            && index < self.near.len()
        {
            self.near[index] = MaybeIndex::at(place.get());
            return;
        }
        let Ok(_before) = self.far.insert(acquire.get(), place) else {
            unreachable!()
        };
    }

    /// Records one more place of the segment, and the acquire whose critical section it ends, if
    /// any.
    #[inline(always)]
    pub(crate) fn record(&mut self, ended: Option<Place>, place: Place)
        requires room { HasReleaseRoom self.old 1 }
        requires small { place < 4294967295 }
        ensures releases { (a : ℕ) → release_in self.new a ≡
            (if is_place ended a then Some place else release_in self.old a) }
        ensures room { (n : ℕ) → HasReleaseRoom self.old (n + 1) → HasReleaseRoom self.new n }
    {
        self.near.push_reserved(MaybeIndex::none());
        if let Some(acquire) = ended {
            self.release_at(acquire, place);
        }
    }
}
