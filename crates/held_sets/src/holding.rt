//! The held locks of one thread, with their depths.

ghost use Rattle.std.specs.Prelude.{◌≡◌, ◌<◌, ◌≤◌, ◌==◌, [], length, zero, if◌then◌else◌};
ghost use Rattle.trace_model.specs.declared.traces.event.Op.TheVariants.{Acquire, Release};
ghost use Rattle.trace_model.specs.declared.limits.TheConstants.{MAX_HELD, MAX_DEPTH};
ghost use Rattle.held_sets.specs.Tables.{locks_of, depth_of, outer_locks, index_for, depth_at, HasDepth, IsHeldAfter};

use crate::set::HeldSet;
use arrayvec::ArrayVec;
use std::marker::Model;
use trace_model::MAX_HELD;

/// A held lock and its depth: the acquires of it less its releases.
#[derive(Clone, Copy, Default)]
pub(crate) struct LockDepth {
    pub(crate) lock: u32,
    pub(crate) depth: u8,
}

/// The locks that a thread holds, ascending, each once with its depth: at most `MAX_HELD`.
#[derive(Drop)]
pub(crate) struct Holding {
    locks: ArrayVec<LockDepth, MAX_HELD>,
}

impl Model for Holding {
    ghost use Rattle.std.specs.Prelude.{List};
    ghost use Rattle.held_sets.specs.declared.holding.LockDepth.{LockDepth};
    ghost use Rattle.held_sets.specs.Tables.{IsHolding};

    ghost Value = { List LockDepth };

    ghost view = { λ h. h.locks.items };

    ghost invariant = { λ h. IsHolding h.locks.items };
}

impl Holding {
    /// Returns the holding without locks.
    pub(crate) fn new() -> Holding
        ensures { result ≡ [] }
    {
        Holding {
            locks: ArrayVec::new(),
        }
    }

    /// Returns the locks.
    #[inline(always)]
    pub(crate) fn locks(&self) -> HeldSet
        ensures { result ≡ locks_of self.now }
    {
        HeldSet::of(self.locks.as_slice())
    }

    /// Returns the locks, or `None` if there is none or `lock` is one.
    #[inline(always)]
    pub(crate) fn outer_locks(&self, lock: u32) -> Option<HeldSet>
        ensures { result ≡ outer_locks lock (locks_of self.now) }
    {
        if self.locks.is_empty() || self.depth(lock) > 0 {
            return None;
        }
        Some(self.locks())
    }

    /// Returns the depth of `lock`, 0 if it is not held.
    #[inline(always)]
    pub(crate) fn depth(&self, lock: u32) -> u8
        ensures { result ≡ depth_of self.now lock }
    {
        let locks = self.locks.as_slice();
        found_depth(locks, index_for(locks, lock), lock)
    }

    /// Adds one to the depth of `lock`.
    pub(crate) fn acquire(&mut self, lock: u32)
        requires nested { depth_of self.old lock < MAX_DEPTH }
        requires room { depth_of self.old lock ≡ 0 → length (locks_of self.old) < MAX_HELD }
        ensures { IsHeldAfter self.old (Acquire lock) self.new }
    {
        let depth = self.depth(lock);
        self.set_depth(lock, depth + 1);
    }

    /// Takes one from the depth of `lock`. A lock that is not held stays so.
    pub(crate) fn release(&mut self, lock: u32)
        ensures { IsHeldAfter self.old (Release lock) self.new }
    {
        let depth = self.depth(lock);
        self.set_depth(lock, depth.saturating_sub(1));
    }

    /// Sets the depth of `lock`. At depth 0 the lock is removed.
    fn set_depth(&mut self, lock: u32, depth: u8)
        requires room { 0 < depth → depth_of self.old lock ≡ 0 →
            length (locks_of self.old) < MAX_HELD }
        ensures { HasDepth self.old lock depth self.new }
    {
        let locks = self.locks.as_slice();
        let index = index_for(locks, lock);
        let is_held = found_depth(locks, index, lock) > 0;
        if depth == 0 {
            if is_held {
                self.locks.remove(index);
            }
        } else if is_held {
            self.locks.as_mut_slice()[index] = LockDepth { lock, depth };
        } else {
            self.locks.insert(index, LockDepth { lock, depth });
        }
    }
}

/// Returns the index of `lock`, or the index at which it is to be inserted.
#[inline(always)]
fn index_for(locks: &[LockDepth], lock: u32) -> usize
    ensures { result ≡ index_for lock locks.now }
{
    for (index, held) in locks.iter().enumerate() {
        if lock <= held.lock {
            return index;
        }
    }
    locks.len()
}

/// Returns the depth of `lock` if it is at `index`, else 0.
#[inline(always)]
fn found_depth(locks: &[LockDepth], index: usize, lock: u32) -> u8
    ensures { result ≡ depth_at lock locks.now index }
{
    match locks.get(index) {
        Some(held) if held.lock == lock => held.depth,
        _ => 0,
    }
}
