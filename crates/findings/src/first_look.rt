//! A first look at the lock graph: of most traces it finds that they have no cycle.

ghost use Rattle.std.specs.Prelude.{IfOk, IsTrue};
ghost use Rattle.trace_model.specs.Theory.Dependencies.{dependencies};
ghost use Rattle.cycle_search.specs.Components.{AreComponents};
ghost use Rattle.findings.specs.Analyses.{HasNoCycle, IsFirstLook};

use cycle_search::{Components, SearchInput, has_no_cycle};
use snapshots::Snapshot;
use std::alloc::Global;
use std::sync::atomic::{AtomicBool, Ordering};
use trace_model::{Bound, NoMemory};

/// The components of a snapshot's dependencies, and whether there is no cycle.
#[derive(Drop)]
pub(crate) struct FirstLook {
    pub(crate) components: Components,
    /// `true` only if there is no cycle up to the bound.
    pub(crate) has_no_cycle: bool,
}

impl FirstLook {
    /// Computes the components of the snapshot's dependencies, and whether there is no cycle up to
    /// the bound.
    ///
    /// # Errors
    /// `NoMemory` if an allocation fails.
    pub(crate) fn new(
        alloc: Global,
        snapshot: &Snapshot,
        bound: Bound,
    ) -> Result<FirstLook, NoMemory>
        ensures { IfOk result (IsFirstLook snapshot.now bound) }
    {
        let components = Components::new(alloc, snapshot.table(), snapshot.graph())?;
        let has_no_cycle = is_without_cycles(alloc, snapshot, &components, bound);
        Ok(FirstLook {
            components,
            has_no_cycle,
        })
    }

    /// Computes the same. Sets `wanted` to `false` unless there may be a cycle, so that another
    /// thread stops building what only cycles need.
    ///
    /// # Errors
    /// `NoMemory` if an allocation fails.
    pub(crate) fn new_for(
        alloc: Global,
        snapshot: &Snapshot,
        bound: Bound,
        wanted: &AtomicBool,
    ) -> Result<FirstLook, NoMemory>
        ensures { IfOk result (IsFirstLook snapshot.now bound) }
    {
        let look = FirstLook::new(alloc, snapshot, bound);
        let may_have_cycles = match &look {
            Ok(look) => !look.has_no_cycle,
            Err(_) => false,
        };
        if !may_have_cycles {
            wanted.store(false, Ordering::SeqCst);
        }
        look
    }
}

/// Returns `true` only if there is no cycle up to the bound: the graph has none, or a search that
/// visits at most as many members as the trace has events finds none. `false` says nothing.
fn is_without_cycles(
    alloc: Global,
    snapshot: &Snapshot,
    components: &Components,
    bound: Bound,
) -> bool
    requires { AreComponents (dependencies snapshot.now) components.now }
    ensures { IsTrue result → HasNoCycle snapshot.now bound }
{
    if components.are_acyclic() {
        return true;
    }
    let search_input = SearchInput::new(snapshot.table(), snapshot.graph(), components);
    has_no_cycle(alloc, &search_input, bound, snapshot.len() as u64)
}
