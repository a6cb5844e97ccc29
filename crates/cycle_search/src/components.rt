//! The component of each dependency, by which a search is pruned.

ghost use Rattle.std.specs.Prelude.{◌≡◌, ◌<◌, ◌≤◌, ℕ, List, length, nat_eq, slice_get, slice_index, Some, false, IfOk, IsTrue};
ghost use Rattle.std.specs.List.{All, Contains};
ghost use Rattle.std.specs.List.Sorted.{IsNonDecreasing};
ghost use Rattle.dependencies.specs.Tables.{table_dependencies};
ghost use Rattle.lock_graph.specs.Graph.{HasGraphOf};
ghost use Rattle.trace_model.specs.Theory.Cycles.{IsCycle};
ghost use Rattle.trace_model.specs.Theory.Dependencies.{Dependency};
ghost use Rattle.cycle_search.specs.ComponentThreads.{AreDistinct, HasComponentThread};
ghost use Rattle.cycle_search.specs.Components.{AreComponents};
ghost use Rattle.cycle_search.specs.Edges.{FallAtMost};
ghost use Rattle.cycle_search.specs.LockNumbers.{AreLockNumbers};

use crate::acquirers::Acquirers;
use crate::component_threads::ComponentThreads;
use crate::edges::{fall_at_most, same_along_edge};
use crate::lock_numbers::LockNumbers;
use crate::tarjan::lock_components;
use dependencies::DepTable;
use lock_graph::LockGraph;
use std::alloc::Global;
use trace_model::NoMemory;

/// The strongly connected components of a table's dependencies, and an index from each lock to the
/// dependencies that acquire it.
///
/// Each dependency has the number of its lock's component. The number never decreases from a
/// dependency to one that holds its lock, so all members of a cycle have the same number. The
/// search skips dependencies of other components. It looks up the last member of a cycle in the
/// index.
///
/// A dependency is cyclic if it holds a lock of its own component. Each member of a cycle is. The
/// members have different threads, so a cycle has at most as many members as the cyclic
/// dependencies of its component have threads.
pub struct Components {
    numbers: Vec<u32>,
    cyclic: Vec<bool>,
    threads: ComponentThreads,
    acquirers: Acquirers,
    locks: LockNumbers,
}

impl Drop for Components {
    fn drop(self) {
        let Components {
            numbers: _,
            cyclic: _,
            threads: _,
            acquirers: _,
            locks: _,
        } = self;
    }
}

impl Components {
    /// Computes the components of the dependencies of `table`. `graph` must contain their edges; it
    /// may contain edges of later dependencies, which are ignored. Takes time in proportion to the
    /// number of locks that the dependencies hold, and to sort the dependencies. Keeps at most 33
    /// bytes for each dependency. Hashes the lock of each dependency at most once.
    ///
    /// # Errors
    /// `NoMemory` if an allocation fails.
    pub fn new(alloc: Global, table: &DepTable, graph: &LockGraph) -> Result<Components, NoMemory>
        requires { HasGraphOf (table_dependencies table.now) graph.now }
        ensures { IfOk result (λ components. AreComponents
            (table_dependencies table.now) components) }
    {
        let locks = LockNumbers::new(alloc, table, graph)?;
        let found = component_numbers(alloc, table, graph, &locks)?;
        let numbers = topological_or_one(alloc, table, graph, &locks, found)?;
        let cyclic = same_along_edge(alloc, table, graph, &locks, &numbers)?;
        let threads = ComponentThreads::new(alloc, table, &numbers, &cyclic)?;
        let acquirers = Acquirers::new(alloc, table)?;
        Ok(Components {
            numbers,
            cyclic,
            threads,
            acquirers,
            locks,
        })
    }

    /// Returns for each dependency whether it is cyclic. Does not allocate.
    pub fn cyclic(&self) -> &[bool]
        ensures { result.now ≡ self.now.cyclic.items }
    {
        self.cyclic.as_slice()
    }

    /// Returns whether the dependency `number` is cyclic. Only a cyclic dependency is a member of a
    /// cycle. Does not allocate.
    pub(crate) fn is_cyclic(&self, number: u32) -> bool
        requires { number < length self.now.cyclic.items }
        ensures { slice_get self.now.cyclic.items number ≡ Some result }
    {
        self.cyclic[number as usize]
    }

    /// Returns whether no dependency is cyclic. Then there is no cycle. Does not allocate.
    pub fn are_acyclic(&self) -> bool
        ensures { IsTrue result → (ds : List Dependency) (bound : ℕ) (numbers : List ℕ) →
            AreComponents ds self.now → IsCycle ds bound numbers → ⊥ }
    {
        are_unset(self.cyclic.as_slice())
    }

    /// Returns whether the dependencies `first` and `second` are in the same component.
    pub fn in_same(&self, first: u32, second: u32) -> bool
        requires first { first < length self.now.numbers.items }
        requires second { second < length self.now.numbers.items }
        ensures { result ≡ nat_eq (slice_index self.now.numbers.items first)
            (slice_index self.now.numbers.items second) }
    {
        self.numbers[first as usize] == self.numbers[second as usize]
    }

    /// Returns the number of threads of the cyclic dependencies of the component of the dependency
    /// `number`. A cycle has at most one member of each. Does not allocate.
    pub(crate) fn thread_count(&self, number: u32) -> usize
        requires number { number < length self.now.numbers.items }
        requires ascends { IsNonDecreasing self.now.threads.keys.items }
        ensures { (threads : List ℕ) → AreDistinct threads →
            ((thread : ℕ) → Contains threads thread →
            HasComponentThread self.now.threads (slice_index self.now.numbers.items number) thread)
            → length threads ≤ result }
    {
        self.threads.count(self.numbers[number as usize])
    }

    /// Returns the index from locks to the dependencies that acquire them.
    pub(crate) fn acquirers(&self) -> &Acquirers
        ensures { result.now ≡ self.now.acquirers }
    {
        &self.acquirers
    }

    /// Returns the numbers of the locks.
    pub(crate) fn locks(&self) -> &LockNumbers
        ensures { result.now ≡ self.now.locks }
    {
        &self.locks
    }
}

/// Returns whether all flags are `false`.
fn are_unset(flags: &[bool]) -> bool
    ensures { IsTrue result → All (λ flag. flag ≡ false) flags.now }
{
    for flag in flags {
        if *flag {
            return false;
        }
    }
    true
}

/// Returns for each dependency the number of the component of the lock that it acquires.
///
/// # Errors
/// `NoMemory` if an allocation fails.
fn component_numbers(
    alloc: Global,
    table: &DepTable,
    graph: &LockGraph,
    locks: &LockNumbers,
) -> Result<Vec<u32>, NoMemory>
    requires { HasGraphOf (table_dependencies table.now) graph.now }
    ensures { IfOk result (λ numbers. length numbers.items
        ≡ length (table_dependencies table.now)) }
{
    let components = lock_components(alloc, locks.positions(), graph)?;
    let mut numbers = Vec::with_capacity(alloc, table.len())?;
    for number in 0..table.len() {
        // A lock that no dependency holds has no edges, and is in no component of `components`.
        let component = components.get(locks.position(number as u32) as usize);
        numbers.push_reserved(component.copied().unwrap_or(u32::MAX));
    }
    Ok(numbers)
}

/// Returns `numbers` if they are in topological order, else one component for all dependencies.
///
/// # Errors
/// `NoMemory` if an allocation fails.
fn topological_or_one(
    alloc: Global,
    table: &DepTable,
    graph: &LockGraph,
    locks: &LockNumbers,
    numbers: Vec<u32>,
) -> Result<Vec<u32>, NoMemory>
    requires graph { HasGraphOf (table_dependencies table.now) graph.now }
    requires locks { AreLockNumbers (table_dependencies table.now) locks.now.positions.items }
    requires each { length numbers.items ≡ length (table_dependencies table.now) }
    ensures each { IfOk result (λ numbers. length numbers.items
        ≡ length (table_dependencies table.now)) }
    ensures ascend { IfOk result (λ numbers. FallAtMost
        (table_dependencies table.now) numbers.items 0 0) }
{
    if fall_at_most(table, graph, locks, &numbers, 0, 0) {
        return Ok(numbers);
    }
    Ok(vec![in alloc; 0u32; table.len()]?)
}
