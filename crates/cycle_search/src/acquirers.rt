//! An index from locks to the dependencies that acquire them.

ghost use Rattle.std.specs.Prelude.{◌≡◌, ◌<◌, ◌↔◌, ℕ, length, IfOk, Some};
ghost use Rattle.std.specs.List.Sorted.{IsNonDecreasing};
ghost use Rattle.dependencies.specs.Tables.{table_dependencies};
ghost use Rattle.cycle_search.specs.Acquirers.{key_of, Acquires, AreAcquirers, IsListed, IsLeastAbove, least_of};

use dependencies::DepTable;
use std::alloc::Global;
use trace_model::NoMemory;

/// For each lock the numbers of the dependencies that acquire it: ascending keys, found by binary
/// search. The key of a lock and a number has the lock in its upper half and the number in its
/// lower half.
#[derive(Drop)]
pub(crate) struct Acquirers {
    keys: Vec<u64>,
}

impl Acquirers {
    /// Builds the index of the dependencies of `table`.
    ///
    /// # Errors
    /// `NoMemory` if an allocation fails.
    pub(crate) fn new(alloc: Global, table: &DepTable) -> Result<Acquirers, NoMemory>
        ensures { IfOk result (AreAcquirers (table_dependencies table.now)) }
    {
        let mut keys = Vec::with_capacity(alloc, table.len())?;
        for number in 0..table.len() {
            let number = number as u32;
            keys.push_reserved(key(table.get(number).lock, number));
        }
        // It merges runs that ascend: dependencies often ascend with their locks.
        keys.sort()?;
        Ok(Acquirers { keys })
    }

    /// Returns the total number of dependencies that acquire one of the locks.
    pub(crate) fn count(&self, locks: &[u32]) -> usize {
        let mut count = 0usize;
        for lock in locks {
            let first = key(*lock, 0);
            let last = key(*lock, u32::MAX);
            let start = self.keys.partition_point(|key| *key < first);
            let end = self.keys.partition_point(|key| *key <= last);
            count = count.saturating_add(end.saturating_sub(start));
        }
        count
    }

    /// Returns the least dependency above `bound` that acquires one of the locks.
    pub(crate) fn next(&self, locks: &[u32], bound: u32) -> Option<u32>
        requires { IsNonDecreasing self.now.keys.items }
        ensures { IsLeastAbove bound (IsListed (Acquires self.now) locks.now
            (length locks.now)) result }
    {
        let mut least = None;
        for lock in locks {
            least = lesser(least, self.next_of(*lock, bound));
        }
        least
    }

    /// Returns the least dependency above `bound` that acquires `lock`.
    fn next_of(&self, lock: u32, bound: u32) -> Option<u32>
        requires { IsNonDecreasing self.now.keys.items }
        ensures { IsLeastAbove bound (Acquires self.now lock) result }
    {
        let keys = self.keys.as_slice();
        let first = key(lock, bound);
        let index = keys.partition_point(|key| *key <= first);
        if index >= keys.len() {
            return None;
        }
        number_of(keys[index], lock)
    }
}

/// Returns the key of a lock and a number.
pub(crate) fn key(lock: u32, number: u32) -> u64
    ensures { result ≡ key_of lock number }
{
    u64::from(lock) * 4_294_967_296 + u64::from(number)
}

/// Returns the number of a key of `lock`, or `None` for a key of another lock.
fn number_of(key: u64, lock: u32) -> Option<u32>
    ensures { (number : ℕ) → result ≡ Some number ↔
        ((number < 4294967296) × (key ≡ key_of lock number)) }
{
    let number = key.checked_sub(u64::from(lock) * 4_294_967_296)?;
    if number > u64::from(u32::MAX) {
        return None;
    }
    Some(number as u32)
}

/// Returns the lesser of two optional numbers.
fn lesser(first: Option<u32>, second: Option<u32>) -> Option<u32>
    ensures { result ≡ least_of first second }
{
    match (first, second) {
        (Some(a), Some(b)) => Some(a.min(b)),
        (Some(a), None) => Some(a),
        (None, other) => other,
    }
}
