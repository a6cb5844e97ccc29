//! The dependencies in order of first appearance, in shared segments, and the look-up of their
//! numbers.

ghost use Rattle.std.specs.Prelude.{◌≡◌, ◌≤◌, ◌<◌, ◌+◌, [], ◌∷◌, ◌++◌, length, take, Some, None, slice_get, true, OnOk, IfOk, position};
ghost use Rattle.trace_model.specs.Theory.Dependencies.{same_dependency, with_new};
ghost use Rattle.dependencies.specs.Hashing.{dependency_hash};
ghost use Rattle.dependencies.specs.HashedNumbers.{passes_at};

use crate::Dependency;
use crate::hashed_numbers::HashedNumbers;
use crate::hashing::hash_of;
use number_map::PositionCache;
use segments::Segments;
use std::alloc::Global;
use std::collections::hash_map::RandomState;
use std::marker::Model;
use trace_model::NoMemory;

/// Distinct dependencies in order, and a hash map from the hash of each to its number. The map has
/// no dependency: a look-up compares with the listed ones. A shared copy fills its hash map in
/// `reserve`. A position cache by thread and lock finds recent dependencies without hashing them.
#[derive(Drop)]
pub(crate) struct Keys {
    alloc: Global,
    state: RandomState,
    list: Segments<Dependency>,
    numbers: HashedNumbers,
    cache: PositionCache,
}

/// Returns the key of `dependency` in the position cache: a mix of its lock and its thread.
fn cache_key(dependency: &Dependency) -> u32 {
    dependency
        .lock
        .wrapping_add(dependency.thread.wrapping_mul(31))
}

impl Model for Keys {
    ghost use Rattle.dependencies.specs.Keys.{KeysView, listed_by, AreListed};

    ghost Value = { KeysView };

    ghost view = { λ k. listed_by k.list k.numbers k.state };

    ghost invariant = { λ k. AreListed k.list.0 k.numbers.hashes k.state };
}

impl Keys {
    /// Returns the empty list.
    pub(crate) fn new(alloc: Global, state: RandomState) -> Keys
        ensures { result.keys ≡ [] }
    {
        Keys {
            alloc,
            state,
            list: Segments::new(alloc),
            numbers: HashedNumbers::new(alloc),
            cache: PositionCache::new(),
        }
    }

    /// Returns the number of dependencies.
    pub(crate) fn len(&self) -> usize
        requires { length self.now.keys ≤ 4294967296 }
        ensures { result ≡ length self.now.keys }
    {
        self.list.len()
    }

    /// Returns the dependency with this number.
    pub(crate) fn get(&self, number: usize) -> &Dependency
        requires { number < length self.now.keys }
        ensures { slice_get self.now.keys number ≡ Some result.now }
    {
        let Some(dependency) = self.list.item(number) else {
            unreachable!()
        };
        dependency
    }

    /// Returns whether `dependency` has this number.
    #[inline(always)]
    fn is_at(&self, number: usize, dependency: &Dependency) -> bool
        ensures there { result ≡ passes_at (same_dependency dependency.now) self.now.keys number }
        ensures first { result ≡ true →
            position (same_dependency dependency.now) self.now.keys ≡ Some number }
    {
        match self.list.item(number) {
            Some(known) => *dependency == *known,
            None => false,
        }
    }

    /// Returns the number of `dependency`, which has this hash, or `None` if it has none. Memory
    /// must be reserved, so that the hash map is complete.
    fn number_of(&self, hash: u32, dependency: &Dependency) -> Option<usize>
        requires hash { hash ≡ dependency_hash self.now.state dependency.now }
        requires room { self.now.room ≡ true }
        ensures { result ≡ position (same_dependency dependency.now) self.now.keys }
    {
        let mut at = self.numbers.last(hash);
        while let Some(number) = at {
            if self.is_at(number as usize, dependency) {
                return Some(number as usize);
            }
            at = self.numbers.earlier(number);
        }
        None
    }

    /// Returns the number of `dependency`. A new one is added at the end. Memory must be reserved,
    /// and its number must have 32 bits.
    #[inline(always)]
    pub(crate) fn record(&mut self, dependency: &Dependency) -> usize
        requires room { self.old.room ≡ true }
        requires few { length self.old.keys < 4294967296 }
        ensures keys { self.new.keys ≡ with_new self.old.keys (Some dependency.now) }
        ensures number { position (same_dependency dependency.now) self.new.keys ≡ Some result }
    {
        let key = cache_key(dependency);
        let candidate = self.cache.candidate(key);
        if self.is_at(candidate, dependency) {
            return candidate;
        }
        let hash = hash_of(&self.state, dependency);
        let number = self.record_hashed(hash, dependency);
        self.cache.record(key, number);
        number
    }

    /// Returns the number of `dependency`, which has this hash. A new one is added at the end.
    fn record_hashed(&mut self, hash: u32, dependency: &Dependency) -> usize
        requires hash { hash ≡ dependency_hash self.old.state dependency.now }
        requires room { self.old.room ≡ true }
        requires few { length self.old.keys < 4294967296 }
        ensures keys { self.new.keys ≡ with_new self.old.keys (Some dependency.now) }
        ensures number { position (same_dependency dependency.now) self.new.keys ≡ Some result }
    {
        match self.number_of(hash, dependency) {
            Some(number) => number,
            None => self.add(hash, dependency),
        }
    }

    /// Frees the hash map, which `reserve` fills anew. Does not allocate.
    pub(crate) fn free_numbers(&mut self)
        ensures { self.new.keys ≡ self.old.keys }
    {
        self.numbers = HashedNumbers::new(self.alloc);
    }

    /// Completes the hash map, and reserves memory for one more dependency.
    pub(crate) fn reserve(&mut self) -> Result<(), NoMemory>
        requires { length self.old.keys ≤ 4294967296 }
        ensures shown { self.new.keys ≡ self.old.keys }
        ensures ok { OnOk result (self.new.room ≡ true) }
    {
        for number in self.numbers.len()..self.list.len() {
            self.number_next(number)?;
        }
        self.numbers.reserve()?;
        self.list.reserve()?;
        Ok(())
    }

    /// Adds a new dependency, which has this hash, at the end, and returns its number.
    fn add(&mut self, hash: u32, dependency: &Dependency) -> usize
        requires hash { hash ≡ dependency_hash self.old.state dependency.now }
        requires new { position (same_dependency dependency.now) self.old.keys ≡ None }
        requires room { self.old.room ≡ true }
        requires few { length self.old.keys < 4294967296 }
        ensures keys { self.new.keys ≡ self.old.keys ++ dependency.now ∷ [] }
        ensures number { position (same_dependency dependency.now) self.new.keys ≡ Some result }
    {
        let number = self.numbers.len();
        self.numbers.push(hash);
        self.list.put(dependency.copied());
        number
    }

    /// Returns the first `total` dependencies. Sealed segments are shared, and at most 4,096
    /// dependencies are copied.
    pub(crate) fn share(&self, total: usize) -> Result<Keys, NoMemory>
        requires within { total ≤ length self.now.keys }
        requires few { length self.now.keys ≤ 4294967296 }
        ensures { IfOk result (λ part. part.keys ≡ take total self.now.keys) }
    {
        let mut list = self.list.share(total)?;
        for number in list.len()..total {
            list.reserve()?;
            list.put(self.get(number).copied());
        }
        Ok(Keys {
            alloc: self.alloc,
            state: self.state,
            list,
            numbers: HashedNumbers::new(self.alloc),
            cache: PositionCache::new(),
        })
    }

    /// Adds the next dependency to the hash map.
    fn number_next(&mut self, number: usize) -> Result<(), NoMemory>
        requires next { self.old.numbered ≡ number }
        requires within { number < length self.old.keys }
        requires few { length self.old.keys ≤ 4294967296 }
        ensures shown { self.new.keys ≡ self.old.keys }
        ensures ok { OnOk result (self.new.numbered ≡ self.old.numbered + 1) }
    {
        let hash = hash_of(&self.state, self.get(number));
        self.numbers.reserve()?;
        self.numbers.push(hash);
        Ok(())
    }
}
