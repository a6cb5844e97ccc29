//! Distances from each dependency back to the root of a search, by breadth-first search.

ghost use Rattle.std.specs.Prelude.{◌≡◌, ◌<◌, length, slice_index, IfOk, IsTrue};
ghost use Rattle.cycle_search.specs.Distances.{AreDistances, AreZeroAtRoot};

use crate::SearchInput;
use crate::ascending::above;
use crate::edges::fall_at_most;
use std::alloc::Global;
use trace_model::NoMemory;

/// Returns for each dependency the least number of members that must follow it in a cycle of
/// `root`: the last member acquires a lock that the root holds, and no member is below the root.
/// Distances of `most` and more are not distinguished. An empty list stands for no information.
///
/// # Errors
/// `NoMemory` if an allocation fails.
pub(crate) fn distances_to(
    alloc: Global,
    search_input: &SearchInput<'_>,
    root: u32,
    most: u32,
) -> Result<Vec<u32>, NoMemory>
    requires { root < length search_input.now }
    ensures { IfOk result (λ distances. AreDistances search_input.now root distances.items) }
{
    let distances = breadth_first(alloc, search_input, root, most)?;
    if are_distances(search_input, root, &distances) {
        return Ok(distances);
    }
    Ok(Vec::new(alloc))
}

/// Computes the distances by breadth-first search backwards from the root. No contract says what
/// they are: the caller tests them.
fn breadth_first(
    alloc: Global,
    search_input: &SearchInput<'_>,
    root: u32,
    most: u32,
) -> Result<Vec<u32>, NoMemory>
    requires { root < length search_input.now }
{
    let home = search_input.table.get(root);
    let mut distances = Vec::new(alloc);
    for number in 0..search_input.table.len() {
        let lock = search_input.table.get(number as u32).lock;
        distances.push(if home.held.contains(lock) { 0 } else { most })?;
    }
    for distance in 1..most {
        expand(search_input, root, &mut distances, distance);
    }
    Ok(distances)
}

/// Sets the distance of each dependency with a greater one that has an edge to one with a lesser
/// distance.
fn expand(search_input: &SearchInput<'_>, root: u32, distances: &mut [u32], distance: u32) {
    let locks = search_input.components.locks();
    for number in 0..search_input.table.len() {
        let number = number as u32;
        let first = locks.first(number);
        if first < number {
            set(distances, number, distance_of(distances, first));
        } else if distance < distance_of(distances, number)
            && is_near(search_input, distances, root, number, distance)
        {
            set(distances, number, distance);
        }
    }
}

/// Returns the distance of a dependency.
fn distance_of(distances: &[u32], number: u32) -> u32
    ensures { result ≡ slice_index distances.now number }
{
    distances.get(number as usize).copied().unwrap_or(0)
}

/// Sets the distance of a dependency.
fn set(distances: &mut [u32], number: u32, distance: u32) {
    if let Some(old) = distances.get_mut(number as usize) {
        *old = distance;
    }
}

/// Returns whether the dependency `number` has an edge to one above the root with a lesser
/// distance.
fn is_near(
    search_input: &SearchInput<'_>,
    distances: &[u32],
    root: u32,
    number: u32,
    distance: u32,
) -> bool
    requires { number < length search_input.now }
{
    for next in above(search_input.successors(number), root) {
        if distance_of(distances, *next) < distance {
            return true;
        }
    }
    false
}

/// Returns whether the distances are valid lower bounds: 0 if the root holds the acquired lock, and
/// for each other dependency at most one more than for those that hold the lock that it acquires.
fn are_distances(search_input: &SearchInput<'_>, root: u32, distances: &[u32]) -> bool
    requires { root < length search_input.now }
    ensures { IsTrue result → AreDistances search_input.now root distances.now }
{
    let table = search_input.table;
    let locks = search_input.components.locks();
    distances.len() == table.len()
        && are_zero_at_root(search_input, root, distances)
        && fall_at_most(table, search_input.graph, locks, distances, root, 1)
}

/// Returns whether the distance of each dependency that acquires a lock of the root is 0.
fn are_zero_at_root(search_input: &SearchInput<'_>, root: u32, distances: &[u32]) -> bool
    requires { root < length search_input.now }
    ensures { IsTrue result → AreZeroAtRoot search_input.now root distances.now }
{
    let home = search_input.table.get(root);
    for number in 0..search_input.table.len() {
        let lock = search_input.table.get(number as u32).lock;
        if home.held.contains(lock) && distance_of(distances, number as u32) > 0 {
            return false;
        }
    }
    true
}
