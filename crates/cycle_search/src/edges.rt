//! The edges between dependencies: from each one to those that hold the lock that it acquires.
//!
//! Dependencies that acquire one lock have the same edges, so one of them stands for all, the first
//! one, and the edges of all dependencies are read in time in proportion to the locks that they
//! hold.

ghost use Rattle.std.specs.Prelude.{◌≡◌, ◌<◌, ◌≤◌, ℕ, length, slice_get, slice_index, Some, true, IfOk, IsTrue};
ghost use Rattle.std.specs.List.{Contains};
ghost use Rattle.dependencies.specs.Tables.{table_dependencies};
ghost use Rattle.lock_graph.specs.Graph.{HasGraphOf};
ghost use Rattle.cycle_search.specs.LockNumbers.{AreLockNumbers};
ghost use Rattle.cycle_search.specs.Edges.{AreHolders, AreSuccessorsMarked, FallAtMost, IsRepeated};

use crate::lock_numbers::LockNumbers;
use dependencies::DepTable;
use lock_graph::LockGraph;
use std::alloc::Global;
use trace_model::NoMemory;

/// Returns the dependencies of `table` that hold the lock which the dependency `number` acquires,
/// ascending: one indexed look-up. Does not allocate.
pub(crate) fn successors<'a>(
    table: &DepTable,
    graph: &'a LockGraph,
    locks: &LockNumbers,
    number: u32,
) -> &'a [u32]
    requires graph { HasGraphOf (table_dependencies table.now) graph.now }
    requires locks { AreLockNumbers (table_dependencies table.now) locks.now.positions.items }
    requires number { number < length (table_dependencies table.now) }
    ensures { AreHolders (table_dependencies table.now) number result.now }
{
    if locks.is_unheld(number) {
        return &[];
    }
    let lock = table.get(number).lock;
    graph.successors_at(locks.position(number), lock, table.len())
}

/// Returns whether an earlier dependency acquires the same lock and has the same value.
fn is_repeated(table: &DepTable, locks: &LockNumbers, values: &[u32], number: u32) -> bool
    requires number { number < length (table_dependencies table.now) }
    requires each { length values.now ≡ length (table_dependencies table.now) }
    ensures { IsTrue result → IsRepeated (table_dependencies table.now) values.now number }
{
    let first = locks.first(number);
    first < number
        && table.get(first).lock == table.get(number).lock
        && values[first as usize] == values[number as usize]
}

/// Returns whether along each edge to a dependency from `from` on, the value falls by at most
/// `step`.
pub(crate) fn fall_at_most(
    table: &DepTable,
    graph: &LockGraph,
    locks: &LockNumbers,
    values: &[u32],
    from: u32,
    step: u32,
) -> bool
    requires graph { HasGraphOf (table_dependencies table.now) graph.now }
    requires locks { AreLockNumbers (table_dependencies table.now) locks.now.positions.items }
    requires each { length values.now ≡ length (table_dependencies table.now) }
    ensures { IsTrue result → FallAtMost (table_dependencies table.now) values.now from step }
{
    for number in 0..table.len() {
        let number = number as u32;
        let least = values[number as usize].saturating_sub(step);
        if !is_repeated(table, locks, values, number)
            && !are_at_least(values, successors(table, graph, locks, number), from, least)
        {
            return false;
        }
    }
    true
}

/// Returns whether the value of each of the dependencies from `from` on is at least `least`.
fn are_at_least(values: &[u32], numbers: &[u32], from: u32, least: u32) -> bool
    requires { (n : ℕ) → Contains numbers.now n → n < length values.now }
    ensures { IsTrue result → (n : ℕ) → Contains numbers.now n → from ≤ n →
        least ≤ slice_index values.now n }
{
    for number in numbers {
        if *number >= from && values[*number as usize] < least {
            return false;
        }
    }
    true
}

/// Returns for each dependency whether one with the same value has an edge to it.
///
/// # Errors
/// `NoMemory` if an allocation fails.
pub(crate) fn same_along_edge(
    alloc: Global,
    table: &DepTable,
    graph: &LockGraph,
    locks: &LockNumbers,
    values: &[u32],
) -> Result<Vec<bool>, NoMemory>
    requires graph { HasGraphOf (table_dependencies table.now) graph.now }
    requires locks { AreLockNumbers (table_dependencies table.now) locks.now.positions.items }
    requires each { length values.now ≡ length (table_dependencies table.now) }
    ensures { IfOk result (λ marks. AreSuccessorsMarked
        (table_dependencies table.now) values.now marks.items) }
{
    let mut marks = vec![in alloc; false; table.len()]?;
    for number in 0..table.len() {
        let number = number as u32;
        if !is_repeated(table, locks, values, number) {
            let numbers = successors(table, graph, locks, number);
            mark(&mut marks, values, numbers, values[number as usize]);
        }
    }
    Ok(marks)
}

/// Marks those of the dependencies that have the value.
fn mark(marks: &mut Vec<bool>, values: &[u32], numbers: &[u32], value: u32)
    requires each { length marks.old.items ≡ length values.now }
    requires known { (n : ℕ) → Contains numbers.now n → n < length values.now }
    ensures each { length marks.new.items ≡ length marks.old.items }
    ensures kept { (n : ℕ) → slice_get marks.old.items n ≡ Some true →
        slice_get marks.new.items n ≡ Some true }
    ensures marked { (n : ℕ) → Contains numbers.now n → slice_index values.now n ≡ value →
        slice_get marks.new.items n ≡ Some true }
{
    for number in numbers {
        if values[*number as usize] == value {
            marks[*number as usize] = true;
        }
    }
}
