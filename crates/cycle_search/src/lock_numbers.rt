//! The lock of each dependency with two numbers, so that a search hashes no lock.

ghost use Rattle.std.specs.Prelude.{◌≡◌, ◌<◌, Some, length, map, slice_get, IfOk, IsTrue};
ghost use Rattle.dependencies.specs.Tables.{table_dependencies};
ghost use Rattle.lock_graph.specs.Graph.{HasGraphOf};
ghost use Rattle.cycle_search.specs.LockNumbers.{AreLockNumbers};

use dependencies::DepTable;
use lock_graph::LockGraph;
use std::alloc::Global;
use trace_model::NoMemory;

/// The lock that each dependency acquires, its position in the graph, 4,294,967,295 if no
/// dependency holds it, and the first dependency that acquires it. No contract says more of the
/// numbers: they are tested where they are used.
#[derive(Drop)]
pub(crate) struct LockNumbers {
    locks: Vec<u32>,
    positions: Vec<u32>,
    firsts: Vec<u32>,
}

impl LockNumbers {
    /// Looks up the lock of each dependency of `table` in `graph`.
    ///
    /// # Errors
    /// `NoMemory` if an allocation fails.
    pub(crate) fn new(
        alloc: Global,
        table: &DepTable,
        graph: &LockGraph,
    ) -> Result<LockNumbers, NoMemory>
        requires { HasGraphOf (table_dependencies table.now) graph.now }
        ensures locks { IfOk result (λ numbers.
            numbers.locks.items ≡ map (λ d. d.lock) (table_dependencies table.now)) }
        ensures positions { IfOk result (λ numbers. AreLockNumbers
            (table_dependencies table.now) numbers.positions.items) }
    {
        let mut locks = Vec::with_capacity(alloc, table.len())?;
        let mut positions = Vec::with_capacity(alloc, table.len())?;
        let mut firsts = Vec::with_capacity(alloc, table.len())?;
        let mut first_at = vec![in alloc; u32::MAX; graph.lock_count()]?;
        for number in 0..table.len() {
            let number = number as u32;
            let lock = table.get(number).lock;
            let position = graph.position(lock);
            locks.push_reserved(lock);
            positions.push_reserved(position);
            firsts.push_reserved(first_of(&mut first_at, position, number));
        }
        Ok(LockNumbers {
            locks,
            positions,
            firsts,
        })
    }

    /// Returns the lock that the dependency `number` acquires.
    #[inline(always)]
    pub(crate) fn lock(&self, number: u32) -> u32
        requires { number < length self.now.locks.items }
        ensures { slice_get self.now.locks.items number ≡ Some result }
    {
        self.locks[number as usize]
    }

    /// Returns the lock that each dependency acquires.
    pub(crate) fn locks(&self) -> &[u32]
        ensures { result.now ≡ self.now.locks.items }
    {
        self.locks.as_slice()
    }

    /// Returns the position in the graph of the lock of each dependency.
    pub(crate) fn positions(&self) -> &[u32] {
        self.positions.as_slice()
    }

    /// Returns the position in the graph of the lock that the dependency `number` acquires.
    pub(crate) fn position(&self, number: u32) -> u32 {
        at(&self.positions, number)
    }

    /// Returns whether no dependency holds the lock that the dependency `number` acquires.
    pub(crate) fn is_unheld(&self, number: u32) -> bool
        ensures { IsTrue result → slice_get self.now.positions.items number ≡ Some 4294967295 }
    {
        match self.positions.get(number as usize) {
            Some(position) => *position == u32::MAX,
            None => false,
        }
    }

    /// Returns the first dependency that acquires the same lock as the dependency `number`.
    pub(crate) fn first(&self, number: u32) -> u32 {
        at(&self.firsts, number)
    }
}

/// Returns the number of a dependency.
fn at(numbers: &[u32], number: u32) -> u32 {
    numbers.get(number as usize).copied().unwrap_or(u32::MAX)
}

/// Returns the first dependency with the lock at `position`: `number` if there is none before. All
/// dependencies with a lock that none holds are the first ones.
fn first_of(first_at: &mut [u32], position: u32, number: u32) -> u32 {
    match first_at.get_mut(position as usize) {
        Some(first) => {
            *first = (*first).min(number);
            *first
        },
        None => number,
    }
}
