//! The tables that a search reads.

use crate::Components;
use crate::edges::successors;
use dependencies::DepTable;
use lock_graph::LockGraph;
use std::marker::Model;

/// A table of dependencies with its graph and its components, which agree by type. Contracts see it
/// as the list of dependencies.
#[derive(Drop)]
pub struct SearchInput<'a> {
    pub(crate) table: &'a DepTable,
    pub(crate) graph: &'a LockGraph,
    pub(crate) components: &'a Components,
}

impl<'a> Model for SearchInput<'a> {
    ghost use Rattle.std.specs.Prelude.{List};
    ghost use Rattle.trace_model.specs.Theory.Dependencies.{Dependency};
    ghost use Rattle.dependencies.specs.Tables.{table_dependencies};
    ghost use Rattle.cycle_search.specs.SearchInput.{AreSearchInputs};

    ghost Value = { List Dependency };

    ghost view = { λ s. table_dependencies s.table.now };

    ghost invariant = { λ s.
        AreSearchInputs (table_dependencies s.table.now) s.graph.now s.components.now };
}

impl<'a> SearchInput<'a> {
    ghost use Rattle.std.specs.Prelude.{◌≡◌, ◌<◌, Some, length, map, slice_get};
    ghost use Rattle.trace_model.specs.Theory.Dependencies.{Dependency};
    ghost use Rattle.dependencies.specs.Tables.{table_dependencies};
    ghost use Rattle.lock_graph.specs.Graph.{HasGraphOf};
    ghost use Rattle.cycle_search.specs.Components.{AreComponents};
    ghost use Rattle.cycle_search.specs.Edges.{AreHolders};

    /// Combines the three tables. Does not allocate.
    ///
    /// The caller passes the components of `table`, and a graph that contains the edges of its
    /// dependencies. Edges of later dependencies are ignored.
    pub fn new(
        table: &'a DepTable,
        graph: &'a LockGraph,
        components: &'a Components,
    ) -> SearchInput<'a>
        requires graph { HasGraphOf (table_dependencies table.now) graph.now }
        requires components { AreComponents (table_dependencies table.now) components.now }
        ensures { result ≡ table_dependencies table.now }
    {
        SearchInput {
            table,
            graph,
            components,
        }
    }

    /// Returns the lock that the dependency `number` acquires. Does not allocate.
    #[inline(always)]
    pub(crate) fn lock(&self, number: u32) -> u32
        requires { number < length self.now }
        ensures { (d : Dependency) → slice_get self.now number ≡ Some d → result ≡ d.lock }
    {
        self.components.locks().lock(number)
    }

    /// Returns the lock that each dependency acquires. Does not allocate.
    pub(crate) fn locks(&self) -> &'a [u32]
        ensures { result.now ≡ map (λ d. d.lock) self.now }
    {
        self.components.locks().locks()
    }

    /// Returns the dependencies that hold the lock which the dependency `number` acquires,
    /// ascending: one indexed look-up. Does not allocate.
    pub(crate) fn successors(&self, number: u32) -> &'a [u32]
        requires { number < length self.now }
        ensures { AreHolders self.now number result.now }
    {
        successors(self.table, self.graph, self.components.locks(), number)
    }
}
