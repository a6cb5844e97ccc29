//! The threads of each component, which bound the number of members of a cycle.

ghost use Rattle.std.specs.Prelude.{◌≡◌, ◌≤◌, ℕ, List, length, IfOk, OnOk};
ghost use Rattle.std.specs.List.{Contains};
ghost use Rattle.std.specs.List.Sorted.{IsNonDecreasing};
ghost use Rattle.dependencies.specs.Tables.{table_dependencies};
ghost use Rattle.cycle_search.specs.ComponentThreads.{AreComponentThreads, AreDistinct, HasComponentThread};

use crate::acquirers::key;
use dependencies::DepTable;
use std::alloc::Global;
use trace_model::NoMemory;

/// The threads of the cyclic dependencies of each component: ascending keys, each once. The key of
/// a component and a thread has the component in its upper half and the thread in its lower half.
#[derive(Drop)]
pub(crate) struct ComponentThreads {
    keys: Vec<u64>,
}

impl ComponentThreads {
    /// Lists the threads of the cyclic dependencies of `table`, each with its component. `cyclic`
    /// marks these dependencies.
    ///
    /// # Errors
    /// `NoMemory` if an allocation fails.
    pub(crate) fn new(
        alloc: Global,
        table: &DepTable,
        components: &[u32],
        cyclic: &[bool],
    ) -> Result<ComponentThreads, NoMemory>
        requires each { length components.now ≡ length (table_dependencies table.now) }
        requires marked { length cyclic.now ≡ length (table_dependencies table.now) }
        ensures { IfOk result (AreComponentThreads (table_dependencies table.now)
            components.now cyclic.now) }
    {
        let mut keys = Vec::new(alloc);
        for number in 0..table.len() {
            if cyclic[number] {
                let thread = table.get(number as u32).thread;
                add(&mut keys, key(components[number], thread))?;
            }
        }
        keys.sort_unstable();
        keys.dedup();
        Ok(ComponentThreads { keys })
    }

    /// Returns the number of threads of the cyclic dependencies of a component.
    pub(crate) fn count(&self, component: u32) -> usize
        requires { IsNonDecreasing self.now.keys.items }
        ensures { (threads : List ℕ) → AreDistinct threads →
            ((thread : ℕ) → Contains threads thread →
            HasComponentThread self.now component thread) → length threads ≤ result }
    {
        let first = key(component, 0);
        let last = key(component, u32::MAX);
        let keys = self.keys.as_slice();
        let start = keys.partition_point(|key| *key < first);
        let end = keys.partition_point(|key| *key <= last);
        end.saturating_sub(start)
    }
}

/// Adds the key, unless it is the last one: successive dependencies are often of one thread.
fn add(keys: &mut Vec<u64>, key: u64) -> Result<(), NoMemory>
    ensures kept { (other : ℕ) → Contains keys.old.items other → Contains keys.new.items other }
    ensures added { OnOk result (Contains keys.new.items key) }
{
    if keys.last() != Some(&key) {
        keys.push(key)?;
    }
    Ok(())
}
