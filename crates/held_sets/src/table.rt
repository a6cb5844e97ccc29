//! The held locks of each thread.

ghost use Rattle.std.specs.Prelude.{◌≡◌, ℕ, ◌<◌, [], length, OnOk, OnErr};
ghost use Rattle.trace_model.specs.declared.traces.event.Op.TheVariants.{Acquire, Release};
ghost use Rattle.trace_model.specs.declared.limits.TheConstants.{MAX_HELD, MAX_DEPTH};
ghost use Rattle.held_sets.specs.Tables.{holding_in, held_in, holding_depth, outer_locks, HasThreadEntry, IsAfter};

use crate::holding::Holding;
use crate::set::HeldSet;
use number_map::NumberMap;
use std::alloc::Global;
use std::collections::hash_map::RandomState;
use std::marker::Model;
use trace_model::NoMemory;

/// The locks that each thread holds, and their depths. A thread without an entry holds no lock.
#[derive(Drop)]
pub struct HeldTable {
    threads: NumberMap<Holding>,
}

impl Model for HeldTable {
    ghost use Rattle.held_sets.specs.Tables.{HoldingTable};

    ghost Value = { HoldingTable };

    ghost view = { λ t. t.threads };
}

impl HeldTable {
    /// Returns the table in which no thread holds a lock. Does not allocate.
    pub fn new(alloc: Global, state: RandomState) -> HeldTable
        ensures { (t : ℕ) → holding_in result t ≡ [] }
    {
        HeldTable {
            threads: NumberMap::new(alloc, state),
        }
    }

    /// Returns the locks that `thread` holds. Does not allocate. Part of the public API; not called
    /// by the program, which calls `outer_locks`.
    pub fn held(&self, thread: u32) -> HeldSet
        ensures { result ≡ held_in self.now thread }
    {
        match self.threads.get_ref(thread) {
            Some(holding) => holding.locks(),
            None => HeldSet::new(),
        }
    }

    /// Returns the locks that `thread` holds, or `None` if it holds none or holds `lock`. Does not
    /// allocate.
    #[inline(always)]
    pub fn outer_locks(&self, thread: u32, lock: u32) -> Option<HeldSet>
        ensures { result ≡ outer_locks lock (held_in self.now thread) }
    {
        match self.threads.get_ref(thread) {
            Some(holding) => holding.outer_locks(lock),
            None => None,
        }
    }

    /// Returns the depth at which `thread` holds `lock`: its acquires less its releases, 0 if it
    /// does not hold the lock. Does not allocate. Part of the public API; not called by the
    /// program.
    pub fn depth(&self, thread: u32, lock: u32) -> u8
        ensures { result ≡ holding_depth self.now thread lock }
    {
        match self.threads.get_ref(thread) {
            Some(holding) => holding.depth(lock),
            None => 0,
        }
    }

    /// Records that `thread` acquires `lock`. The depth must be below `MAX_DEPTH`, and a thread
    /// that does not hold the lock must hold fewer than `MAX_HELD` locks.
    ///
    /// # Errors
    ///
    /// `NoMemory` if an allocation fails. The held locks do not change.
    #[inline(always)]
    pub fn acquire(&mut self, thread: u32, lock: u32) -> Result<(), NoMemory>
        requires nested { holding_depth self.old thread lock < MAX_DEPTH }
        requires room { holding_depth self.old thread lock ≡ 0 →
            length (held_in self.old thread) < MAX_HELD }
        ensures ok { OnOk result (IsAfter self.old thread (Acquire lock) self.new) }
        ensures err { OnErr result ((t : ℕ) → holding_in self.new t ≡ holding_in self.old t) }
    {
        self.reserve(thread, lock)?;
        self.record(thread, lock);
        Ok(())
    }

    /// Reserves memory for an acquire of a lock by `thread`: its entry, which has room for all
    /// locks. The held locks do not change: an empty entry reads like no entry.
    ///
    /// # Errors
    ///
    /// `NoMemory` if the thread has no entry and an allocation fails.
    #[inline(always)]
    pub fn reserve(&mut self, thread: u32, _lock: u32) -> Result<(), NoMemory>
        ensures shown { (t : ℕ) → holding_in self.new t ≡ holding_in self.old t }
        ensures ok { OnOk result (HasThreadEntry self.new thread) }
        ensures wanting { OnErr result (¬ HasThreadEntry self.old thread) }
    {
        if !self.threads.find(thread) {
            self.threads.reserve(thread, Holding::new())?;
        }
        Ok(())
    }

    /// Records that `thread` acquires `lock`, as `acquire` does. The thread must have an entry.
    /// Does not allocate.
    #[inline(always)]
    pub fn record(&mut self, thread: u32, lock: u32)
        requires entry { HasThreadEntry self.old thread }
        requires nested { holding_depth self.old thread lock < MAX_DEPTH }
        requires room { holding_depth self.old thread lock ≡ 0 →
            length (held_in self.old thread) < MAX_HELD }
        ensures { IsAfter self.old thread (Acquire lock) self.new }
    {
        if let Some(holding) = self.threads.get_mut(thread) {
            holding.acquire(lock);
        }
    }

    /// Records that `thread` releases `lock`: the depth falls by one, and the thread holds the lock
    /// no longer at depth 0. A release of a lock that is not held changes nothing. Does not
    /// allocate.
    #[inline(always)]
    pub fn release(&mut self, thread: u32, lock: u32)
        ensures { IsAfter self.old thread (Release lock) self.new }
    {
        if let Some(holding) = self.threads.get_mut(thread) {
            holding.release(lock);
        }
    }
}
