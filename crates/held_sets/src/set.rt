//! Held sets: ascending sets of locks.

ghost use Rattle.std.specs.Prelude.{◌≡◌, ℕ, ◌<◌, ◌≤◌, ◌↔◌, ◌==◌, [], length, false, slice_index, IsTrue};
ghost use Rattle.std.specs.List.{list_any};
ghost use Rattle.std.specs.List.Sorted.{IsStrictlyIncreasing};
ghost use Rattle.trace_model.specs.declared.limits.TheConstants.{MAX_HELD};
ghost use Rattle.trace_model.specs.Theory.Held.{has, with_lock};
ghost use Rattle.held_sets.specs.Tables.{AreDisjoint, locks_of};

use crate::holding::LockDepth;
use arrayvec::ArrayVec;
use std::marker::Model;
use trace_model::MAX_HELD;

/// A set of locks, ascending: at most `MAX_HELD`, the limit of a thread. Contracts see the list of
/// the locks.
#[derive(Debug, Drop, Clone, PartialEq, Eq, Hash)]
pub struct HeldSet {
    locks: ArrayVec<u32, MAX_HELD>,
}

impl Model for HeldSet {
    ghost use Rattle.std.specs.Prelude.{List, ℕ};
    ghost use Rattle.std.specs.List.Sorted.{IsStrictlyIncreasing};

    ghost Value = { List ℕ };

    ghost view = { λ s. s.locks.items };

    ghost invariant = { λ s. IsStrictlyIncreasing s.locks.items };

    ghost inverse = { λ locks. record { locks = record { items = locks } } };
}

impl HeldSet {
    /// Returns the empty set.
    pub fn new() -> HeldSet
        ensures { result ≡ [] }
    {
        HeldSet {
            locks: ArrayVec::new(),
        }
    }

    /// Returns the locks of a holding.
    #[inline(always)]
    pub(crate) fn of(holding: &[LockDepth]) -> HeldSet
        requires ascends { IsStrictlyIncreasing (locks_of holding.now) }
        requires few { length holding.now ≤ MAX_HELD }
        ensures { result ≡ locks_of holding.now }
    {
        let mut locks = ArrayVec::new();
        for held in holding {
            locks.push(held.lock);
        }
        HeldSet { locks }
    }

    /// Returns the locks, ascending.
    pub fn locks(&self) -> &[u32]
        ensures value { result.now ≡ self.now }
        ensures ascends { IsStrictlyIncreasing result.now }
        ensures few { length result.now ≤ MAX_HELD }
    {
        self.locks.as_slice()
    }

    /// Returns whether `lock` is in the set.
    pub fn contains(&self, lock: u32) -> bool
        ensures { result ≡ has lock self.now }
    {
        self.locks().contains(&lock)
    }

    /// Returns whether the two sets have no lock in common.
    pub fn is_disjoint(&self, other: &HeldSet) -> bool
        ensures { IsTrue result ↔ AreDisjoint self.now other.now }
    {
        for lock in self.locks() {
            if other.contains(*lock) {
                return false;
            }
        }
        true
    }

    /// Returns a copy of the set. Does not allocate.
    #[inline(always)]
    pub fn copied(&self) -> HeldSet
        ensures { result ≡ self.now }
    {
        let mut locks = ArrayVec::new();
        for lock in self.locks() {
            locks.push(*lock);
        }
        HeldSet { locks }
    }

    /// Adds `lock`, which must not be in the set. The set must have fewer than `MAX_HELD` locks.
    ///
    /// Part of the public API; not called by the program.
    pub fn insert(&mut self, lock: u32)
        requires new { has lock self.old ≡ false }
        requires room { length self.old < MAX_HELD }
        ensures { self.new ≡ with_lock lock self.old }
    {
        let index = index_above(self.locks.as_slice(), lock);
        self.locks.insert(index, lock);
    }
}

/// Returns the index of the first lock above `lock`, or the length if there is none.
fn index_above(locks: &[u32], lock: u32) -> usize
    ensures within { result ≤ length locks.now }
    ensures below { (k : ℕ) → k < result → slice_index locks.now k ≤ lock }
    ensures above { result < length locks.now → lock < slice_index locks.now result }
{
    for (index, other) in locks.iter().enumerate() {
        if lock < *other {
            return index;
        }
    }
    locks.len()
}
