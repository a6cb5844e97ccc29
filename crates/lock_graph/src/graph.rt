//! The reverse index from locks to the dependencies that hold them.

ghost use Rattle.std.specs.Prelude.{◌≡◌, ℕ, List, [], ◌∷◌, ◌++◌, length, nat_lt, IfOk, OnOk, OnErr};
ghost use Rattle.std.specs.List.{filter};
ghost use Rattle.std.specs.List.Sorted.{IsStrictlyIncreasing};
ghost use Rattle.trace_model.specs.Theory.Dependencies.{Dependency as Triple};
ghost use Rattle.lock_graph.specs.Lists.{listed_with};
ghost use Rattle.lock_graph.specs.Graph.{IsGraphOf, HasGraphRoom, holders, holders_at, holders_below};

use crate::lists::{Lists, add, record, reserve};
use dependencies::Dependency;
use indexmap::IndexMap;
use std::alloc::Global;
use std::collections::hash_map::RandomState;
use trace_model::NoMemory;

/// For each lock, the numbers of the dependencies that hold it, ascending.
#[derive(Drop)]
pub struct LockGraph {
    lists: Lists,
    alloc: Global,
}

impl LockGraph {
    /// Returns the graph without dependencies. Does not allocate.
    pub fn new(alloc: Global, state: RandomState) -> LockGraph
        ensures graph { IsGraphOf [] (holders result) }
        ensures empty { (lock : ℕ) → holders result lock ≡ [] }
    {
        LockGraph {
            lists: IndexMap::with_hasher(alloc, state),
            alloc,
        }
    }

    /// Adds a dependency at each lock that it holds. Dependencies must be added in the order of
    /// their numbers, from 0.
    ///
    /// # Errors
    ///
    /// `NoMemory` if an allocation fails. The successors of each lock do not change.
    pub fn add(&mut self, number: u32, dependency: &Dependency) -> Result<(), NoMemory>
        ensures lists { OnOk result ((lock : ℕ) →
            holders self.new lock ≡ listed_with dependency.now.held number lock
            (holders self.old lock)) }
        ensures graph { OnOk result ((ds : List Triple) → number ≡ length ds →
            IsGraphOf ds (holders self.old) →
            IsGraphOf (ds ++ dependency.now ∷ []) (holders self.new)) }
        ensures err { OnErr result ((lock : ℕ) → holders self.new lock ≡ holders self.old lock) }
    {
        add(&mut self.lists, self.alloc, dependency.held.locks(), number)
    }

    /// Reserves memory for one more number at each lock that `dependency` holds. The successors of
    /// each lock do not change. Part of the public API; not called by the program, which calls
    /// `add`.
    ///
    /// # Errors
    ///
    /// `NoMemory` if an allocation fails.
    pub fn reserve(&mut self, _number: u32, dependency: &Dependency) -> Result<(), NoMemory>
        ensures shown { (lock : ℕ) → holders self.new lock ≡ holders self.old lock }
        ensures ok { OnOk result (HasGraphRoom self.new dependency.now.held) }
    {
        reserve(&mut self.lists, self.alloc, dependency.held.locks())
    }

    /// Adds a dependency at each lock that it holds, as `add` does. Memory must be reserved. Does
    /// not allocate. Part of the public API; not called by the program, which calls `add`.
    pub fn record(&mut self, number: u32, dependency: &Dependency)
        requires { HasGraphRoom self.old dependency.now.held }
        ensures lists { (lock : ℕ) →
            holders self.new lock ≡ listed_with dependency.now.held number lock
            (holders self.old lock) }
        ensures graph { (ds : List Triple) → number ≡ length ds → IsGraphOf ds (holders self.old) →
            IsGraphOf (ds ++ dependency.now ∷ []) (holders self.new) }
    {
        record(&mut self.lists, dependency.held.locks(), number);
    }

    /// Returns the numbers of the dependencies that hold `lock`, ascending. Does not allocate.
    pub fn successors(&self, lock: u32) -> &[u32]
        ensures { result.now ≡ holders self.now lock }
    {
        match self.lists.get(&lock) {
            Some(list) => list.as_slice(),
            None => &[],
        }
    }

    /// Returns the numbers below `total` of the dependencies that hold `lock`, ascending: the
    /// successors when the graph had `total` dependencies. They are a prefix of the list, found by
    /// binary search. Does not allocate.
    pub fn successors_below(&self, lock: u32, total: usize) -> &[u32]
        requires { IsStrictlyIncreasing (holders self.now lock) }
        ensures { result.now ≡ holders_below self.now total lock }
    {
        below(self.successors(lock), total)
    }

    /// Returns the same as `successors_below(lock, total)`, without hashing if `lock` is at
    /// `position`. A position stays valid when dependencies are added. Does not allocate.
    pub fn successors_at(&self, position: u32, lock: u32, total: usize) -> &[u32]
        requires { IsStrictlyIncreasing (holders self.now lock) }
        ensures { result.now ≡ holders_below self.now total lock }
    {
        match self.lists.get_index(position as usize) {
            Some((key, list)) if *key == lock => below(list.as_slice(), total),
            _ => self.successors_below(lock, total),
        }
    }

    /// Returns the numbers below `total` of the dependencies that hold the lock at `position`,
    /// ascending, or none if no lock is there. Does not allocate.
    pub fn at(&self, position: u32, total: usize) -> &[u32]
        requires { (lock : ℕ) → IsStrictlyIncreasing (holders self.now lock) }
        ensures { result.now ≡ holders_at self.now total position }
    {
        match self.lists.get_index(position as usize) {
            Some((_, list)) => below(list.as_slice(), total),
            None => &[],
        }
    }

    /// Returns the number of locks that dependencies hold. Their positions are below it. Does not
    /// allocate.
    pub fn lock_count(&self) -> usize {
        self.lists.len()
    }

    /// Returns whether `lock` is at `position`.
    fn is_at(&self, position: u32, lock: u32) -> bool {
        match self.lists.get_index(position as usize) {
            Some((key, _)) => *key == lock,
            None => false,
        }
    }

    /// Returns the position of `lock`, a dense number: below the number of locks that dependencies
    /// hold, or 4,294,967,295 if no dependency holds it. First tries the two positions that it has
    /// if dependencies hold the locks in the order of their numbers, from 1 or from 0, and hashes
    /// it only if it is at neither. Does not allocate.
    pub fn position(&self, lock: u32) -> u32
        ensures { result ≡ 4294967295 → holders self.now lock ≡ [] }
    {
        let from_one = lock.saturating_sub(1);
        if self.is_at(from_one, lock) {
            return from_one;
        }
        if lock < u32::MAX && self.is_at(lock, lock) {
            return lock;
        }
        match self.lists.get_index_of(&lock) {
            Some(position) if position < u32::MAX as usize => position as u32,
            // There are fewer locks, so this is not reached. `successors_at` tests positions.
            Some(_) => 0,
            None => u32::MAX,
        }
    }

    /// Returns a copy of the graph.
    ///
    /// # Errors
    ///
    /// `NoMemory` if an allocation fails.
    pub fn copied(&self) -> Result<LockGraph, NoMemory>
        ensures { IfOk result (λ copy. (lock : ℕ) → holders copy lock ≡ holders self.now lock) }
    {
        let lists = self.lists.clone()?;
        Ok(LockGraph {
            lists,
            alloc: self.alloc,
        })
    }
}

/// Returns the numbers below `total`: a prefix of the numbers, found by binary search unless it is
/// all of them. `numbers` is ascending.
fn below(numbers: &[u32], total: usize) -> &[u32]
    requires { IsStrictlyIncreasing numbers.now }
    ensures { result.now ≡ filter (λ n. nat_lt n total) numbers.now }
{
    match numbers.last() {
        Some(last) if (*last as usize) < total => numbers,
        _ => &numbers[..numbers.partition_point(|number| (*number as usize) < total)],
    }
}
