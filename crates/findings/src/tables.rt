//! The tables that all tasks of a question read, computed once from its snapshot.

ghost use Rattle.std.specs.Prelude.{◌≡◌, ◌<◌, ◌≤◌, length, IfOk, IsTrue, MatchOption};
ghost use Rattle.std.specs.Option.{ForSome};
ghost use Rattle.trace_model.specs.declared.limits.TheConstants.{MAX_CYCLES};
ghost use Rattle.trace_model.specs.Theory.Cycles.{AreCyclesFrom};
ghost use Rattle.trace_model.specs.Theory.Dependencies.{dependencies};
ghost use Rattle.cycle_search.specs.Collecting.{AcceptsAll, TakesAll};
ghost use Rattle.cycle_search.specs.CycleSearch.{CycleFrom, MoreThan, IfTooMany};
ghost use Rattle.cycle_search.specs.Components.{AreComponents};
ghost use Rattle.fronts.specs.Requirements.{AreRequirements};
ghost use Rattle.sp_closure.specs.Timestamps.{AreTimestamps};
ghost use Rattle.findings.specs.Analyses.{IsFirstLook, AreAnalysisTables, HasNoCycleFrom};
ghost use Rattle.findings.specs.TaskSearches.{IsTaskSearch, AreSearchedCycles};

use crate::first_look::FirstLook;
use crate::task_search::TaskSearch;
use cycle_search::{
    Collector, Components, Cycle, PausedSearch, SearchInput, SearchRefused, Searched,
    collect_cycles, cycles_from, has_few_cycles,
};
use snapshots::Snapshot;
use sp_closure::{Requirements, Steps, Timestamps};
use std::alloc::Global;
use std::marker::Brand;
use std::sync::atomic::AtomicBool;
use std::sync::ledger::{Blank, Ledger};
use std::thread::{Threads, join};
use trace_model::{Bound, NoMemory};

/// The components, and if there may be cycles the requirements and the timestamps.
#[derive(Drop)]
pub(crate) struct Tables {
    pub(crate) components: Components,
    /// `None` if there is no cycle up to the bound.
    pub(crate) requirements: Option<Requirements>,
    /// `None` if they do not pay. No result depends on them.
    pub(crate) timestamps: Option<Timestamps>,
}

impl Tables {
    /// Computes the tables of the snapshot for cycles up to the bound.
    ///
    /// # Errors
    /// `NoMemory` if an allocation fails.
    pub(crate) fn new(alloc: Global, snapshot: &Snapshot, bound: Bound) -> Result<Tables, NoMemory>
        ensures { IfOk result (AreAnalysisTables snapshot.now bound) }
    {
        let look = FirstLook::new(alloc, snapshot, bound)?;
        Tables::after(alloc, snapshot, bound, look, None)
    }

    /// Computes the tables as `new` does, on two threads. The second one builds the requirements
    /// until the first look finds no cycle.
    ///
    /// # Errors
    /// `NoMemory` if an allocation fails.
    pub(crate) fn new_on<R: Threads>(
        rt: &R,
        alloc: Global,
        snapshot: &Snapshot,
        bound: Bound,
    ) -> Result<Tables, NoMemory>
        ensures { IfOk result (AreAnalysisTables snapshot.now bound) }
    {
        let wanted = AtomicBool::new(true);
        // `join` runs its first closure on the other thread. The first look stays on this one: it
        // is short for most traces, and ends the other.
        let (early, look) = join(
            rt,
            || -> Option<Requirements>
                ensures { ForSome result (AreRequirements snapshot.entry.now) }
            { early_requirements(alloc, snapshot, &wanted) },
            || -> Result<FirstLook, NoMemory>
                ensures { IfOk result (IsFirstLook snapshot.entry.now bound) }
            { FirstLook::new_for(alloc, snapshot, bound, &wanted) },
        );
        Tables::after(alloc, snapshot, bound, look?, early)
    }

    /// Computes the other tables after a first look. `early` are the requirements, if they are
    /// built.
    ///
    /// # Errors
    /// `NoMemory` if an allocation fails.
    fn after(
        alloc: Global,
        snapshot: &Snapshot,
        bound: Bound,
        look: FirstLook,
        early: Option<Requirements>,
    ) -> Result<Tables, NoMemory>
        requires look { IsFirstLook snapshot.now bound look }
        requires early { ForSome early (AreRequirements snapshot.now) }
        ensures { IfOk result (AreAnalysisTables snapshot.now bound) }
    {
        let FirstLook {
            components,
            has_no_cycle,
        } = look;
        if has_no_cycle {
            return Ok(Tables {
                components,
                requirements: None,
                timestamps: None,
            });
        }
        let requirements = match early {
            Some(requirements) => requirements,
            None => Requirements::build(alloc, snapshot.index())?,
        };
        let timestamps = timestamps_of(alloc, snapshot, &components, &requirements, bound)?;
        Ok(Tables {
            components,
            requirements: Some(requirements),
            timestamps,
        })
    }

    /// Returns the cycles of a task: those that begin with its dependency. A task past the last one
    /// has none.
    ///
    /// The caller passes the snapshot from which the tables were computed.
    ///
    /// # Errors
    /// - `TooMany` only if the task has more than `MAX_CYCLES` cycles.
    /// - `NoMemory` if an allocation fails.
    pub(crate) fn cycles(
        &self,
        alloc: Global,
        snapshot: &Snapshot,
        bound: Bound,
        task: u32,
    ) -> Result<Vec<Cycle>, SearchRefused>
        requires { AreAnalysisTables snapshot.now bound self.now }
        ensures ok { IfOk result (λ cycles.
            AreCyclesFrom (dependencies snapshot.now) bound task cycles.items) }
        ensures few { IfOk result (λ cycles. length cycles.items ≤ MAX_CYCLES) }
        ensures too_many { IfTooMany result
            (MoreThan (CycleFrom (dependencies snapshot.now) bound task) MAX_CYCLES) }
    {
        match self.search_input(snapshot, bound, task) {
            Some(search_input) => cycles_from(alloc, &search_input, task, bound),
            None => Ok(Vec::new(alloc)),
        }
    }

    /// Continues the search of a task until all its cycles are found or `visits` members were
    /// visited. A task past the last one has no cycles.
    ///
    /// The caller passes the snapshot from which the tables were computed, and a search of it with
    /// this bound.
    ///
    /// # Errors
    /// - `TooMany` only if the task has more than `MAX_CYCLES` cycles.
    /// - `NoMemory` if an allocation fails.
    pub(crate) fn go_on(
        &self,
        alloc: Global,
        snapshot: &Snapshot,
        bound: Bound,
        search: TaskSearch,
        visits: u64,
    ) -> Result<Searched, SearchRefused>
        requires tables { AreAnalysisTables snapshot.now bound self.now }
        requires search { IsTaskSearch snapshot.now bound search }
        ensures searched { IfOk result (AreSearchedCycles snapshot.now bound visits search) }
        ensures too_many { IfTooMany result
            (MoreThan (CycleFrom (dependencies snapshot.now) bound search.task) MAX_CYCLES) }
    {
        let TaskSearch { task, search } = search;
        let Some(search_input) = self.search_input(snapshot, bound, task) else {
            return Ok(Searched::All(Vec::new(alloc)));
        };
        let begun = match search {
            Some(begun) => begun,
            None => PausedSearch::new(alloc, &search_input, task, bound)?,
        };
        begun.go_on(&search_input, visits)
    }

    /// Gives the cycles of a task to the collector, in lexicographic order, until it refuses one.
    /// Returns the refusal, if there is one.
    ///
    /// The caller passes the snapshot from which the tables were computed, and a collector that
    /// accepts the cycles.
    ///
    /// # Errors
    /// `NoMemory` if an allocation of the search fails.
    pub(crate) fn collect<C: Collector<Cycle>>(
        &self,
        alloc: Global,
        snapshot: &Snapshot,
        bound: Bound,
        task: u32,
        collector: &mut C,
    ) -> Result<Result<(), C::Refused>, NoMemory>
        requires tables { AreAnalysisTables snapshot.now bound self.now }
        requires accepts { AcceptsAll C.taking (CycleFrom (dependencies snapshot.now) bound task)
            collector.old }
        ensures { IfOk result (λ taken. TakesAll C.taking
            (CycleFrom (dependencies snapshot.now) bound task) collector.old taken collector.new) }
    {
        match self.search_input(snapshot, bound, task) {
            Some(search_input) => collect_cycles(alloc, &search_input, task, bound, collector),
            None => Ok(Ok(())),
        }
    }

    /// Returns what a search for the cycles of a task reads, or `None` if the task has none.
    fn search_input<'a>(
        &'a self,
        snapshot: &'a Snapshot,
        _bound: Bound,
        task: u32,
    ) -> Option<SearchInput<'a>>
        requires { AreAnalysisTables snapshot.now _bound self.now }
        ensures { MatchOption result (HasNoCycleFrom (dependencies snapshot.now) _bound task)
            (λ search_input. (search_input ≡ dependencies snapshot.now)
            × (task < length (dependencies snapshot.now))) }
    {
        let Some(_requirements) = &self.requirements else {
            return None;
        };
        if task as usize >= snapshot.table().len() {
            return None;
        }
        Some(SearchInput::new(snapshot.table(), snapshot.graph(), &self.components))
    }
}

/// Returns the requirements of the snapshot's events. Returns `None` if `wanted` becomes `false`, or
/// if an allocation fails.
fn early_requirements(
    alloc: Global,
    snapshot: &Snapshot,
    wanted: &AtomicBool,
) -> Option<Requirements>
    ensures { ForSome result (AreRequirements snapshot.now) }
{
    match Requirements::build_while(alloc, snapshot.index(), wanted) {
        Ok(built) => built,
        Err(_) => None,
    }
}

/// Returns the timestamps of the cyclic dependencies, if there are enough cycles and the timestamps
/// are not costly. They take at most the time of one closure for each thread, and save at most that
/// of one for each cycle.
///
/// # Errors
/// `NoMemory` if an allocation fails.
fn timestamps_of(
    alloc: Global,
    snapshot: &Snapshot,
    components: &Components,
    requirements: &Requirements,
    bound: Bound,
) -> Result<Option<Timestamps>, NoMemory>
    requires components { AreComponents (dependencies snapshot.now) components.now }
    requires requirements { AreRequirements snapshot.now requirements.now }
    ensures { IfOk result (λ made. ForSome made (AreTimestamps snapshot.now)) }
{
    let search_input = SearchInput::new(snapshot.table(), snapshot.graph(), components);
    let threads = requirements.threads.count as usize;
    if has_few_cycles(alloc, &search_input, bound, threads, snapshot.len() as u64) {
        return Ok(None);
    }
    make_timestamps::<Brand>(
        alloc,
        snapshot,
        requirements,
        components.cyclic(),
        Blank::new(1),
    )
}

/// Computes the timestamps, counted by a new count of steps.
///
/// # Errors
/// `NoMemory` if an allocation fails.
fn make_timestamps<L: Ledger>(
    alloc: Global,
    snapshot: &Snapshot,
    requirements: &Requirements,
    cyclic: &[bool],
    blank: Blank,
) -> Result<Option<Timestamps>, NoMemory>
    requires name { blank.name ≡ L.name }
    requires parts { blank.parts ≡ L.parts }
    requires some { 0 < L.parts }
    requires requirements { AreRequirements snapshot.now requirements.now }
    ensures { IfOk result (λ made. ForSome made (AreTimestamps snapshot.now)) }
{
    let mut steps = Steps::<L>::new(blank);
    Timestamps::new(
        alloc,
        snapshot.index(),
        requirements,
        snapshot.table(),
        cyclic,
        &mut steps,
    )
}
