//! The lock tables of a trace that grows.

ghost use Rattle.std.specs.Prelude.{◌≡◌, ℕ, ◌+◌, ◌<◌, ◌≤◌, ◌++◌, ◌∷◌, [], List, length, take, slice_get, true, Some, IfOk, OnOk, OnErr};
ghost use Rattle.std.specs.Arc.{arc_value};
ghost use Rattle.trace_model.specs.Theory.Trace.{Trace};
ghost use Rattle.trace_model.specs.Theory.Lawful.{IsWellFormed};
ghost use Rattle.trace_model.specs.Theory.Dependencies.{Dependency as Triple};
ghost use Rattle.dependencies.specs.Tables.{table_dependencies};
ghost use Rattle.lock_graph.specs.Graph.{IsGraphOf, HasGraphOf, holders};
ghost use Rattle.lock_tables.specs.Tables.{shared_holders, FollowTrace, HasLockTableRoom, IsLawfulForTables, AreLawfulForTables, HasTotal, CountsBelow, AreLockPartsOf};

use crate::parts::LockParts;
use crate::steps::{
    append_locks, note_place, record_locks, record_place, reserve_locks, reserve_place,
};
use dependencies::laws::tables_follow;
use dependencies::{DepTable, Dependency};
use held_sets::HeldTable;
use held_sets::laws::acquires_fit;
use lock_graph::LockGraph;
use std::alloc::Global;
use std::collections::hash_map::RandomState;
use std::sync::Arc;
use trace_model::{Event, NoMemory, Place};

/// The held locks of each thread, the dependencies with their places, and the graph of the
/// dependencies.
///
/// Snapshots share the graph. Therefore a new dependency is added to it when memory for the next
/// event is reserved, in a copy if the graph is shared: at most one copy for each snapshot.
#[derive(Drop)]
pub struct LockTables {
    alloc: Global,
    state: RandomState,
    held: HeldTable,
    dependencies: DepTable,
    /// `None` as long as the graph has no dependency.
    graph: Option<Arc<LockGraph, Global>>,
    /// The number of dependencies in the graph.
    graphed: usize,
    /// The number of events.
    events: u32,
}

impl LockTables {
    /// Returns the tables of the empty trace. Does not allocate.
    pub fn new(alloc: Global, state: RandomState) -> LockTables
        ensures { FollowTrace result [] }
    {
        LockTables {
            alloc,
            state,
            held: HeldTable::new(alloc, state),
            dependencies: DepTable::new(alloc, state),
            graph: None,
            graphed: 0,
            events: 0,
        }
    }

    /// Returns the tables of a well-formed trace, made in one pass over its events.
    ///
    /// # Errors
    ///
    /// `NoMemory` if an allocation fails.
    pub fn of(alloc: Global, state: RandomState, events: &[Event]) -> Result<LockTables, NoMemory>
        requires { IsWellFormed events.now }
        ensures { IfOk result (λ tables. FollowTrace tables events.now) }
    {
        let mut tables = LockTables::new(alloc, state);
        tables.extend(events)?;
        Ok(tables)
    }

    /// Adds `events`, which must be lawful one after the other after those of the tables, and
    /// allocates memory for them.
    ///
    /// # Errors
    ///
    /// `NoMemory` if an allocation fails. The tables can then only be dropped.
    pub fn extend(&mut self, events: &[Event]) -> Result<(), NoMemory>
        requires { AreLawfulForTables self.old events.now }
        ensures { OnOk result ((s : Trace) → FollowTrace self.old s →
            FollowTrace self.new (s ++ events.now)) }
    {
        for event in events {
            self.append(event)?;
        }
        self.catch_up()
    }

    /// Returns the number of dependencies. Does not allocate.
    pub fn len(&self) -> usize
        ensures { result ≡ length (table_dependencies self.now.dependencies) }
    {
        self.dependencies.len()
    }

    /// Reserves memory for `event`. The trace of the tables does not change.
    ///
    /// # Errors
    ///
    /// `NoMemory` if an allocation fails.
    pub fn reserve(&mut self, event: &Event) -> Result<(), NoMemory>
        ensures follow { (s : Trace) → FollowTrace self.old s → FollowTrace self.new s }
        ensures ok { OnOk result (HasLockTableRoom self.new event.now) }
    {
        tables_follow(); // for the proof
        self.catch_up()?;
        reserve_locks(&mut self.held, event)?;
        let place = Place::new(self.events);
        reserve_place(&mut self.dependencies, &self.held, event, place)
    }

    /// Records `event`, which must be the next lawful event. Memory must be reserved for it. Does
    /// not allocate.
    pub fn record(&mut self, event: &Event)
        requires room { HasLockTableRoom self.old event.now }
        requires lawful { IsLawfulForTables self.old event.now }
        ensures { (s : Trace) → FollowTrace self.old s →
            FollowTrace self.new (s ++ event.now ∷ []) }
    {
        tables_follow(); // for the proof
        acquires_fit(); // for the proof
        record_place(
            &mut self.dependencies,
            &self.held,
            event,
            Place::new(self.events),
        );
        record_locks(&mut self.held, event);
        self.events += 1;
    }

    /// Adds new dependencies to the graph. The trace of the tables does not change. After this
    /// call, `share` copies no graph until the next event.
    ///
    /// # Errors
    ///
    /// `NoMemory` if an allocation fails.
    pub fn catch_up(&mut self) -> Result<(), NoMemory>
        ensures follow { (s : Trace) → FollowTrace self.old s → FollowTrace self.new s }
        ensures all { OnOk result (length
            (table_dependencies self.new.dependencies) ≤ self.new.graphed) }
    {
        while self.graphed < self.dependencies.len() {
            self.graph_next()?;
        }
        Ok(())
    }

    /// Returns the dependencies and the graph of the first `events` events, which have `total`
    /// dependencies.
    ///
    /// Copies at most 4,096 dependencies and 4,096 places, and shares the full segments. Copies the
    /// graph only if it lacks one of these dependencies.
    ///
    /// # Errors
    ///
    /// `NoMemory` if an allocation fails.
    pub fn share(&self, total: u32, events: u32) -> Result<LockParts, NoMemory>
        requires { HasTotal self.now total events }
        ensures { IfOk result (λ parts. (s : Trace) → FollowTrace self.now s →
            CountsBelow s total events → AreLockPartsOf parts (take events s)) }
    {
        tables_follow(); // for the proof
        let dependencies = self.dependencies.share(total, events)?;
        let graph = graph_of(
            self.alloc,
            self.state,
            &self.dependencies,
            &self.graph,
            self.graphed,
            total as usize,
        )?;
        Ok(LockParts {
            dependencies,
            graph,
        })
    }

    /// Returns the dependencies and the graph of the whole trace, without the memory that only
    /// later events need.
    ///
    /// # Errors
    ///
    /// `NoMemory` if an allocation fails.
    pub fn into_parts(self) -> Result<LockParts, NoMemory>
        ensures { IfOk result (λ parts. (s : Trace) → FollowTrace self s → AreLockPartsOf parts s) }
    {
        let mut tables = self;
        match tables.catch_up() {
            Ok(()) => tables.parts(),
            Err(refused) => {
                drop(tables);
                Err(refused)
            }
        }
    }

    /// Returns the dependencies and the graph, which must have all of them.
    fn parts(self) -> Result<LockParts, NoMemory>
        requires { length (table_dependencies self.dependencies) ≤ self.graphed }
        ensures { IfOk result (λ parts. (s : Trace) → FollowTrace self s → AreLockPartsOf parts s) }
    {
        let LockTables {
            alloc,
            state,
            held,
            mut dependencies,
            graph,
            graphed: _,
            events: _,
        } = self;
        drop(held);
        dependencies.free_numbers();
        match graph_or_new(alloc, state, graph) {
            Ok(graph) => Ok(LockParts {
                dependencies,
                graph,
            }),
            Err(refused) => {
                drop(dependencies);
                Err(refused)
            }
        }
    }

    /// Records `event`, which must be the next lawful event, and allocates memory for it. The graph
    /// does not change.
    #[inline(always)]
    fn append(&mut self, event: &Event) -> Result<(), NoMemory>
        requires { IsLawfulForTables self.old event.now }
        ensures { OnOk result ((s : Trace) → FollowTrace self.old s →
            FollowTrace self.new (s ++ event.now ∷ [])) }
    {
        tables_follow(); // for the proof
        acquires_fit(); // for the proof
        let place = Place::new(self.events);
        note_place(&mut self.dependencies, &self.held, event, place)?;
        append_locks(&mut self.held, event)?;
        self.events += 1;
        Ok(())
    }

    /// Adds the next dependency to the graph.
    fn graph_next(&mut self) -> Result<(), NoMemory>
        requires { self.old.graphed < length (table_dependencies self.old.dependencies) }
        ensures follow { (s : Trace) → FollowTrace self.old s → FollowTrace self.new s }
        ensures ok { OnOk result (self.new.graphed ≡ self.old.graphed + 1) }
        ensures dependencies { self.new.dependencies ≡ self.old.dependencies }
    {
        let _total = self.dependencies.len(); // for the proof: bounds the numbers
        let number = self.graphed as u32;
        let dependency = self.dependencies.get(number);
        add_to(self.alloc, self.state, &mut self.graph, number, dependency)?;
        self.graphed += 1;
        Ok(())
    }
}

/// Returns the graph, or a new one if there is none.
fn graph_or_new(
    alloc: Global,
    state: RandomState,
    graph: Option<Arc<LockGraph, Global>>,
) -> Result<Arc<LockGraph, Global>, NoMemory>
    ensures { IfOk result (λ own. (lock : ℕ) →
        holders (arc_value own) lock ≡ shared_holders graph lock) }
{
    match graph {
        Some(own) => Ok(own),
        None => Ok(Arc::new(alloc, LockGraph::new(alloc, state))?),
    }
}

/// Returns a copy of the graph.
fn copy_of(
    alloc: Global,
    state: RandomState,
    graph: &Option<Arc<LockGraph, Global>>,
) -> Result<LockGraph, NoMemory>
    ensures { IfOk result (λ copy. (lock : ℕ) → holders copy lock ≡ shared_holders graph.now lock) }
{
    match graph {
        Some(shared) => shared.copied(),
        None => Ok(LockGraph::new(alloc, state)),
    }
}

/// Adds a dependency to the graph, or to a copy of it if it is shared.
fn add_to(
    alloc: Global,
    state: RandomState,
    graph: &mut Option<Arc<LockGraph, Global>>,
    number: u32,
    dependency: &Dependency,
) -> Result<(), NoMemory>
    ensures ok { OnOk result ((ds : List Triple) → number ≡ length ds →
        IsGraphOf ds (shared_holders graph.old) →
        IsGraphOf (ds ++ dependency.now ∷ []) (shared_holders graph.new)) }
    ensures err { OnErr result ((lock : ℕ) →
        shared_holders graph.new lock ≡ shared_holders graph.old lock) }
{
    if let Some(shared) = graph
        && let Some(own) = Arc::get_mut(shared)
    {
        return own.add(number, dependency);
    }
    let mut copy = copy_of(alloc, state, graph)?;
    copy.add(number, dependency)?;
    let shared = Arc::new(alloc, copy)?;
    *graph = Some(shared);
    Ok(())
}

/// Returns a graph with the first `total` dependencies: the present one, or a copy with those that
/// it lacks.
fn graph_of(
    alloc: Global,
    state: RandomState,
    table: &DepTable,
    graph: &Option<Arc<LockGraph, Global>>,
    graphed: usize,
    total: usize,
) -> Result<Arc<LockGraph, Global>, NoMemory>
    requires total { total ≤ length (table_dependencies table.now) }
    requires graphed { graphed ≤ length (table_dependencies table.now) }
    requires graph { IsGraphOf (take graphed (table_dependencies table.now))
        (shared_holders graph.now) }
    ensures { IfOk result (λ shared. HasGraphOf (take total (table_dependencies table.now))
        (arc_value shared)) }
{
    if let Some(shared) = graph
        && total <= graphed
    {
        return Ok(Arc::try_clone(shared)?);
    }
    let mut copy = copy_of(alloc, state, graph)?;
    if graphed < total {
        extend(&mut copy, table, graphed, total)?;
    }
    Ok(Arc::new(alloc, copy)?)
}

/// Adds the dependencies from number `from` up to `to` to the graph.
fn extend(graph: &mut LockGraph, table: &DepTable, from: usize, to: usize) -> Result<(), NoMemory>
    requires order { from ≤ to }
    requires within { to ≤ length (table_dependencies table.now) }
    requires graph { IsGraphOf (take from (table_dependencies table.now)) (holders graph.old) }
    ensures { OnOk result (IsGraphOf (take to (table_dependencies table.now)) (holders graph.new)) }
{
    let _total = table.len(); // for the proof: bounds the numbers
    for number in from..to {
        let number = number as u32;
        graph.add(number, table.get(number))?;
    }
    Ok(())
}
