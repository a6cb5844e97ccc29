//! The depth-first search for the cycles with a given least member.
//!
//! A path is a list of dependencies in which each one holds the lock that the one before it
//! acquires. A path grows by one successor at a time. It is a cycle if its first member holds the
//! lock that its last member acquires.

ghost use Rattle.std.specs.Prelude.{◌≡◌, ◌<◌, ◌≤◌, ◌↔◌, ◌+◌, ◌++◌, ◌∷◌, [], ℕ, List, false, slice_index, length, map, IsTrue, IfOk, OnOk, Err};
ghost use Rattle.trace_model.specs.declared.limits.TheConstants.{MAX_CYCLES};
ghost use Rattle.trace_model.specs.Theory.Cycles.{AreCyclesFrom, ListBelow};
ghost use Rattle.guards.specs.Compatible.{IsCompatible};
ghost use Rattle.cycle_search.specs.Acquirers.{IsLeastAbove};
ghost use Rattle.cycle_search.specs.Collecting.{AcceptsAll, TakesAll};
ghost use Rattle.cycle_search.specs.Distances.{AreDistances};
ghost use Rattle.cycle_search.specs.CycleSearch.{IsPath, CompletesCycle, AboveFirst, LinksTo, CompletesAsLast, AreNexts, MoreThan, CycleFrom, HasTables, IsTooFar, SearchedAfter, SearchedThrough, IfTooMany};
ghost use Rattle.cycle_search.specs.LockFilters.{MarksHeld};
ghost use Rattle.cycle_search.specs.Pausing.{CanContinue, IfPaused, PausesAfter, PausesAt, SearchedFrom, TakesUntil, position_at};

use crate::ascending::above;
use crate::collector::Collector;
use crate::costs::{closing_visits_after, is_long, is_worth_closing};
use crate::distances::distances_to;
use crate::kept::Kept;
use crate::lock_filter::LockFilter;
use crate::pace::{Halt, Pace, Unpaused};
use crate::{Components, SearchInput, SearchRefused};
use arrayvec::ArrayVec;
use guards::compatible;
use std::alloc::Global;
use trace_model::{Bound, Cycle, MAX_CYCLES, MAX_MEMBERS, NoMemory};

/// The numbers of a path that may grow into a cycle.
pub(crate) type Path = ArrayVec<u32, MAX_MEMBERS>;

/// The parameters of one search.
#[derive(Clone, Copy)]
pub(crate) struct CycleSearch<'a> {
    pub(crate) search_input: &'a SearchInput<'a>,
    /// The least number of members that must follow each dependency, or an empty list if distances
    /// were not computed.
    pub(crate) distances: &'a [u32],
    /// The maximum number of members of a cycle.
    pub(crate) members: usize,
    /// If the last member is missing and a path of two or more members has more successors than
    /// this, the search looks up the last member by the locks that it acquires.
    pub(crate) successors: usize,
    /// The filter of the locks that the first member of a path holds.
    pub(crate) filter: LockFilter,
}

/// Returns all cycles with at most `bound` members whose first member is `root`, each once, in
/// lexicographic order. The first member of a cycle is its least number, so each cycle is found
/// from exactly one root.
///
/// The caller passes a number of a dependency of `search_input` as `root`.
///
/// # Errors
/// - `TooMany` only if there are more than 4,294,967,295 such cycles.
/// - `NoMemory` if an allocation fails.
pub fn cycles_from(
    alloc: Global,
    search_input: &SearchInput<'_>,
    root: u32,
    bound: Bound,
) -> Result<Vec<Cycle>, SearchRefused>
    requires root { root < length search_input.now }
    ensures ok { IfOk result (λ cycles. AreCyclesFrom search_input.now bound root cycles.items) }
    ensures few { IfOk result (λ cycles. length cycles.items ≤ MAX_CYCLES) }
    ensures too_many { result ≡ Err SearchRefused.TooMany →
        MoreThan (CycleFrom search_input.now bound root) MAX_CYCLES }
{
    cycles_within(alloc, search_input, root, bound, MAX_CYCLES)
}

/// Returns the same as [`cycles_from`], with a limit of `most` cycles instead of 4,294,967,295.
/// Tests call it with small limits.
///
/// # Errors
/// - `TooMany` only if there are more than `most` such cycles.
/// - `NoMemory` if an allocation fails.
pub fn cycles_within(
    alloc: Global,
    search_input: &SearchInput<'_>,
    root: u32,
    bound: Bound,
    most: usize,
) -> Result<Vec<Cycle>, SearchRefused>
    requires root { root < length search_input.now }
    ensures ok { IfOk result (λ cycles. AreCyclesFrom search_input.now bound root cycles.items) }
    ensures few { IfOk result (λ cycles. length cycles.items ≤ most) }
    ensures too_many { IfTooMany result (MoreThan (CycleFrom search_input.now bound root) most) }
{
    let mut kept = Kept::new(alloc, most);
    collect_cycles(alloc, search_input, root, bound, &mut kept)??;
    Ok(kept.cycles)
}

/// Gives to the collector all cycles with at most `bound` members whose first member is `root`,
/// each once, in lexicographic order, until it refuses one. Returns the refusal, if there is one.
/// Keeps no cycle.
///
/// The caller passes a number of a dependency of `search_input` as `root`, and a collector that
/// accepts these cycles.
///
/// # Errors
/// `NoMemory` if an allocation of the search fails. Then the collector was given no cycle.
pub fn collect_cycles<C: Collector<Cycle>>(
    alloc: Global,
    search_input: &SearchInput<'_>,
    root: u32,
    bound: Bound,
    collector: &mut C,
) -> Result<Result<(), C::Refused>, NoMemory>
    requires root { root < length search_input.now }
    requires accepts { AcceptsAll C.taking (CycleFrom search_input.now bound root) collector.old }
    ensures { IfOk result (λ taken. TakesAll C.taking (CycleFrom search_input.now bound root)
        collector.old taken collector.new) }
{
    let members = most_members(search_input, root, bound);
    if members < 2 {
        return Ok(Ok(()));
    }
    let mut path = Path::new();
    path.push(root);
    let distances = distances_of(alloc, search_input, &path, members)?;
    let search = CycleSearch {
        search_input,
        distances: &distances,
        members,
        successors: closing_visits_after(search_input, root, members),
        filter: filter_of(search_input, root),
    };
    match extend(&search, &mut path, root, collector, &mut Unpaused) {
        Ok(()) => Ok(Ok(())),
        Err(Halt::Refused(refused)) => Ok(Err(refused)),
        Err(Halt::Paused(_)) => unreachable!(),
    }
}

/// Returns the most members that a cycle of `root` up to the bound can have: no more than its
/// component has threads. Returns 0 if `root` is in no cycle of the graph.
pub(crate) fn most_members(search_input: &SearchInput<'_>, root: u32, bound: Bound) -> usize
    requires { root < length search_input.now }
    ensures within { result ≤ bound }
    ensures eight { result ≤ 8 }
    ensures all { (numbers : List ℕ) → CycleFrom search_input.now bound root numbers →
        length numbers ≤ result }
{
    if !search_input.components.is_cyclic(root) {
        return 0;
    }
    let threads = search_input.components.thread_count(root);
    threads.min(bound.get() as usize)
}

/// Returns the filter of the locks that `root` holds.
pub(crate) fn filter_of(search_input: &SearchInput<'_>, root: u32) -> LockFilter
    requires { root < length search_input.now }
    ensures { MarksHeld search_input.now root result }
{
    LockFilter::of(&search_input.table.get(root).held)
}

/// Returns the distances to the path's one member if a search from it is long, else an empty list.
pub(crate) fn distances_of(
    alloc: Global,
    search_input: &SearchInput<'_>,
    path: &Path,
    members: usize,
) -> Result<Vec<u32>, NoMemory>
    requires path { IsPath search_input.now path.now.items }
    requires members { members ≤ 8 }
    ensures { IfOk result (λ distances. AreDistances search_input.now (slice_index path.now.items 0)
        distances.items) }
{
    if !is_long(search_input, path, members) {
        return Ok(Vec::new(alloc));
    }
    distances_to(
        alloc,
        search_input,
        path[0],
        members.saturating_sub(1) as u32,
    )
}

/// Gives to the collector all cycles of the path's first member that are not before the position
/// of the path and `last`.
pub(crate) fn extend_from<C: Collector<Cycle>, P: Pace>(
    search: &CycleSearch<'_>,
    path: &mut Path,
    last: u32,
    collector: &mut C,
    pace: &mut P,
) -> Result<(), Halt<C::Refused>>
    requires path { IsPath search.now.search_input.now path.old.items }
    requires room { length path.old.items < search.now.members }
    requires members { search.now.members ≤ 8 }
    requires above { slice_index path.old.items 0 ≤ last }
    requires tables { HasTables search.now path.old.items }
    requires accepts { AcceptsAll C.taking (SearchedFrom search.now path.old last) collector.old }
    ensures all { TakesUntil C.taking (SearchedFrom search.now path.old last)
        collector.old result path.new.items collector.new }
    ensures paused { IfPaused result (CanContinue search.now path.new.items) }
    ensures first { IfPaused result (λ _.
        slice_index path.new.items 0 ≡ slice_index path.old.items 0) }
    ensures kept { IfPaused result (λ now.
        ListBelow (position_at path.new.items now) (position_at path.old.items last) → ⊥) }
    ensures later { IfPaused result (λ now. (P.pauses pace.old → ⊥) →
        ListBelow (position_at path.old.items last) (position_at path.new.items now)) }
{
    extend(search, path, last, collector, pace)?;
    while path.len() > 1 {
        let Some(last) = path.pop() else {
            unreachable!()
        };
        extend(search, path, last, collector, pace)?;
    }
    Ok(())
}

/// Gives to the collector all cycles that begin with the path followed by a number above `after`.
#[cycle(search)]
pub(crate) fn extend<C: Collector<Cycle>, P: Pace>(
    search: &CycleSearch<'_>,
    path: &mut Path,
    after: u32,
    collector: &mut C,
    pace: &mut P,
) -> Result<(), Halt<C::Refused>>
    requires path { IsPath search.now.search_input.now path.old.items }
    requires room { length path.old.items < search.now.members }
    requires members { search.now.members ≤ 8 }
    requires above { slice_index path.old.items 0 ≤ after }
    requires tables { HasTables search.now path.old.items }
    requires accepts { AcceptsAll C.taking (SearchedAfter search.now path.old after) collector.old }
    ensures path { OnOk result (path.new.items ≡ path.old.items) }
    ensures all { TakesUntil C.taking (SearchedAfter search.now path.old after)
        collector.old result path.new.items collector.new }
    ensures paused { IfPaused result (PausesAfter search.now path.old after path.new) }
    ensures later { IfPaused result (λ last. (P.pauses pace.old → ⊥) →
        ListBelow (position_at path.old.items after) (position_at path.new.items last)) }
    ensures pauses { IfPaused result (λ last. (some : P) × P.pauses some) }
{
    let nexts = successors(search.search_input, path, after);
    let is_last = path.len() + 1 == search.members;
    // The path may have many successors although few dependencies close it.
    if is_last && is_worth_closing(search, path, nexts.len()) {
        return close(search, path, after, collector, pace);
    }
    let locks = search.search_input.locks();
    for next in nexts {
        if !pace.visits() {
            return Err(Halt::Paused(*next - 1));
        }
        if !is_excluded(search, path, *next, is_last, locks) && may_follow(search, path, *next) {
            follow(search, path, *next, collector, pace)?;
        }
    }
    Ok(())
}

/// Gives to the collector all cycles that consist of the path and one more member above `after`. It
/// looks up that member by the locks that the first member holds.
#[cycle(search)]
fn close<C: Collector<Cycle>, P: Pace>(
    search: &CycleSearch<'_>,
    path: &mut Path,
    after: u32,
    collector: &mut C,
    pace: &mut P,
) -> Result<(), Halt<C::Refused>>
    requires path { IsPath search.now.search_input.now path.old.items }
    requires room { length path.old.items + 1 ≡ search.now.members }
    requires members { search.now.members ≤ 8 }
    requires above { slice_index path.old.items 0 ≤ after }
    requires tables { HasTables search.now path.old.items }
    requires accepts { AcceptsAll C.taking (SearchedAfter search.now path.old after) collector.old }
    ensures path { OnOk result (path.new.items ≡ path.old.items) }
    ensures all { TakesUntil C.taking (SearchedAfter search.now path.old after)
        collector.old result path.new.items collector.new }
    ensures paused { IfPaused result (PausesAfter search.now path.old after path.new) }
    ensures later { IfPaused result (λ last. (P.pauses pace.old → ⊥) →
        ListBelow (position_at path.old.items after) (position_at path.new.items last)) }
    ensures pauses { IfPaused result (λ last. (some : P) × P.pauses some) }
{
    let mut last = after;
    while let Some(next) = next_completing(search.search_input, path, last) {
        if links(search.search_input, path, next) {
            visit(search, path, next, collector, pace)?;
        }
        last = next;
    }
    Ok(())
}

/// Gives to the collector all cycles that begin with the path followed by `next`.
#[cycle(search)]
#[inline(always)]
fn visit<C: Collector<Cycle>, P: Pace>(
    search: &CycleSearch<'_>,
    path: &mut Path,
    next: u32,
    collector: &mut C,
    pace: &mut P,
) -> Result<(), Halt<C::Refused>>
    requires path { IsPath search.now.search_input.now path.old.items }
    requires room { length path.old.items < search.now.members }
    requires members { search.now.members ≤ 8 }
    requires tables { HasTables search.now path.old.items }
    requires known { next < length search.now.search_input.now }
    requires above { slice_index path.old.items 0 < next }
    requires linked { LinksTo search.now.search_input.now path.old.items next }
    requires accepts { AcceptsAll C.taking (SearchedThrough search.now path.old next)
        collector.old }
    ensures path { OnOk result (path.new.items ≡ path.old.items) }
    ensures all { TakesUntil C.taking (SearchedThrough search.now path.old next)
        collector.old result path.new.items collector.new }
    ensures paused { IfPaused result (PausesAt search.now path.old next path.new) }
    ensures later { IfPaused result (λ last. (P.pauses pace.old → ⊥) →
        ListBelow (path.old.items ++ next ∷ []) (position_at path.new.items last)) }
    ensures pauses { IfPaused result (λ last. (some : P) × P.pauses some) }
{
    if !pace.visits() {
        return Err(Halt::Paused(next - 1));
    }
    if !may_follow(search, path, next) {
        return Ok(());
    }
    follow(search, path, next, collector, pace)
}

/// Gives to the collector all cycles that begin with the path followed by `next`, which is
/// compatible with it.
#[cycle(search)]
fn follow<C: Collector<Cycle>, P: Pace>(
    search: &CycleSearch<'_>,
    path: &mut Path,
    next: u32,
    collector: &mut C,
    pace: &mut P,
) -> Result<(), Halt<C::Refused>>
    requires path { IsPath search.now.search_input.now path.old.items }
    requires room { length path.old.items < search.now.members }
    requires members { search.now.members ≤ 8 }
    requires tables { HasTables search.now path.old.items }
    requires known { next < length search.now.search_input.now }
    requires above { slice_index path.old.items 0 < next }
    requires linked { LinksTo search.now.search_input.now path.old.items next }
    requires follows { IsCompatible search.now.search_input.now path.old.items next }
    requires accepts { AcceptsAll C.taking (SearchedThrough search.now path.old next)
        collector.old }
    ensures path { OnOk result (path.new.items ≡ path.old.items) }
    ensures all { TakesUntil C.taking (SearchedThrough search.now path.old next)
        collector.old result path.new.items collector.new }
    ensures paused { IfPaused result (PausesAt search.now path.old next path.new) }
    ensures later { IfPaused result (λ last.
        ListBelow (path.old.items ++ next ∷ []) (position_at path.new.items last)) }
    ensures pauses { IfPaused result (λ last. (some : P) × P.pauses some) }
{
    let is_cycle = closes(search, path, next);
    path.push(next);
    if is_cycle {
        if let Err(refused) = collector.take(cycle_of(path)) {
            return Err(Halt::Refused(refused));
        }
    } else if path.len() < search.members {
        extend(search, path, path[0], collector, pace)?;
    }
    path.pop();
    Ok(())
}

/// Returns whether `next` would be the last member that the bound allows, and the filter shows that
/// it does not close the path. Most members that a search visits are such ones.
///
/// The caller passes whether the next member would be the last one, and the lock that each
/// dependency acquires.
#[inline(always)]
fn is_excluded(
    search: &CycleSearch<'_>,
    _path: &Path,
    next: u32,
    is_last: bool,
    locks: &[u32],
) -> bool
    requires path { IsPath search.now.search_input.now _path.now.items }
    requires next { next < length search.now.search_input.now }
    requires tables { HasTables search.now _path.now.items }
    requires last { IsTrue is_last → search.now.members ≤ length _path.now.items + 1 }
    requires locks { locks.now ≡ map (λ d. d.lock) search.now.search_input.now }
    ensures { IsTrue result → (numbers : List ℕ) →
        SearchedThrough search.now _path.now next numbers → ⊥ }
{
    is_last && search.filter.excludes(locks[next as usize])
}

/// Returns whether a cycle of the search may begin with the path followed by `next`.
#[inline(always)]
fn may_follow(search: &CycleSearch<'_>, path: &Path, next: u32) -> bool
    requires path { IsPath search.now.search_input.now path.now.items }
    requires room { length path.now.items < search.now.members }
    requires tables { HasTables search.now path.now.items }
    requires known { next < length search.now.search_input.now }
    ensures follows { IsTrue result → IsCompatible search.now.search_input.now path.now.items next }
    ensures none { result ≡ false → (numbers : List ℕ) →
        SearchedThrough search.now path.now next numbers → ⊥ }
{
    let search_input = search.search_input;
    if ends_open(search, path, next) {
        return false;
    }
    if !same_component(search_input.components, path, next) {
        return false;
    }
    if is_too_far(search, path, next) {
        return false;
    }
    fits(search_input, path, next)
}

/// Returns whether `next` is in the component of the path's first member.
fn same_component(components: &Components, path: &Path, next: u32) -> bool
    requires begun { 0 < length path.now.items }
    requires first { slice_index path.now.items 0 < length components.now.numbers.items }
    requires next { next < length components.now.numbers.items }
    ensures { IsTrue result ↔
        (slice_index components.now.numbers.items (slice_index path.now.items 0) ≡
        slice_index components.now.numbers.items next) }
{
    components.in_same(path[0], next)
}

/// Returns whether each cycle that begins with the path and `next` has too many members.
fn is_too_far(search: &CycleSearch<'_>, path: &Path, next: u32) -> bool
    requires { length path.now.items < search.now.members }
    ensures { IsTrue result → IsTooFar search.now path.now.items next }
{
    match search.distances.get(next as usize) {
        Some(distance) => path.len() + *distance as usize >= search.members,
        None => false,
    }
}

/// Returns whether `next` would be the last member that the bound allows, and does not close the
/// path.
#[inline(always)]
fn ends_open(search: &CycleSearch<'_>, path: &Path, next: u32) -> bool
    requires path { IsPath search.now.search_input.now path.now.items }
    requires next { next < length search.now.search_input.now }
    requires tables { HasTables search.now path.now.items }
    ensures last { IsTrue result → search.now.members ≤ length path.now.items + 1 }
    ensures is_open { IsTrue result →
        ¬ CompletesCycle search.now.search_input.now (path.now.items ++ next ∷ []) }
{
    path.len() + 1 >= search.members && !closes(search, path, next)
}

/// Returns whether `next` is compatible with all members of the path.
fn fits(search_input: &SearchInput<'_>, path: &Path, next: u32) -> bool
    requires path { IsPath search_input.now path.now.items }
    requires next { next < length search_input.now }
    ensures { IsTrue result ↔ IsCompatible search_input.now path.now.items next }
{
    compatible(search_input.table, path.as_slice(), next)
}

/// Returns the path as a cycle.
fn cycle_of(path: &Path) -> Cycle
    requires { 2 ≤ length path.now.items }
    ensures { result ≡ path.now.items }
{
    let Some(cycle) = Cycle::new(path.as_slice()) else {
        unreachable!()
    };
    cycle
}

/// Returns whether `next` closes the path: the path's first member holds the lock that `next`
/// acquires.
#[inline(always)]
fn closes(search: &CycleSearch<'_>, path: &Path, next: u32) -> bool
    requires path { IsPath search.now.search_input.now path.now.items }
    requires next { next < length search.now.search_input.now }
    requires tables { HasTables search.now path.now.items }
    ensures { IsTrue result
        ↔ CompletesCycle search.now.search_input.now (path.now.items ++ next ∷ []) }
{
    let search_input = search.search_input;
    let lock = search_input.lock(next);
    if search.filter.excludes(lock) {
        return false;
    }
    let first = search_input.table.get(path[0]);
    first.held.contains(lock)
}

/// Returns the dependencies above `after` that hold the lock of the path's last member, ascending.
pub(crate) fn successors<'a>(search_input: &SearchInput<'a>, path: &Path, after: u32) -> &'a [u32]
    requires { IsPath search_input.now path.now.items }
    ensures { AreNexts search_input.now path.now.items after result.now }
{
    let holders = search_input.successors(path[path.len() - 1]);
    above(holders, after)
}

/// Returns the least dependency above `bound` that acquires a lock which the path's first member
/// holds.
fn next_completing(search_input: &SearchInput<'_>, path: &Path, bound: u32) -> Option<u32>
    requires { IsPath search_input.now path.now.items }
    ensures { IsLeastAbove bound (CompletesAsLast search_input.now path.now.items) result }
{
    let first = search_input.table.get(path[0]);
    search_input
        .components
        .acquirers()
        .next(first.held.locks(), bound)
}

/// Returns whether `next` holds the lock of the path's last member.
fn links(search_input: &SearchInput<'_>, path: &Path, next: u32) -> bool
    requires path { IsPath search_input.now path.now.items }
    requires next { next < length search_input.now }
    ensures { IsTrue result ↔ LinksTo search_input.now path.now.items next }
{
    let last = search_input.table.get(path[path.len() - 1]);
    search_input.table.get(next).held.contains(last.lock)
}
