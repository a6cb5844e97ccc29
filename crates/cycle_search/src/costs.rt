//! Estimates of the cost of a search, for choosing between two ways to search. No result depends on
//! them.

ghost use Rattle.std.specs.Prelude.{ℕ, ◌<◌, length};
ghost use Rattle.std.specs.List.{Contains};
ghost use Rattle.cycle_search.specs.CycleSearch.{IsPath};

use crate::SearchInput;
use crate::search::{CycleSearch, Path, successors};

/// The number of visited successors that cost as much as one binary search for the acquirers of a
/// lock.
const VISITS_PER_SEARCH: usize = 4;

/// For each dependency, the number of visited successors that cost as much as computing the
/// distances of all locks.
const VISITS_PER_DISTANCES: usize = 16;

/// The least number of members for which distances are worth computing. With fewer members at most
/// one member is between the successors of the root and the last member, which is looked up from
/// both sides.
const LEAST_MEMBERS: usize = 4;

/// The least cost, in visited successors for each lock of the root, of looking up the last member:
/// two binary searches count the acquirers of the lock, and one or more find them.
const LEAST_VISITS: usize = 3 * VISITS_PER_SEARCH;

/// Returns whether looking up the last member of a path costs less than visiting its `successors`.
pub(crate) fn is_worth_closing(search: &CycleSearch<'_>, path: &Path, successors: usize) -> bool
    requires { IsPath search.now.search_input.now path.now.items }
{
    if path.len() > 1 {
        return search.successors < successors;
    }
    // A root comes here once, so the cost is estimated only if it may be worth it.
    let search_input = search.search_input;
    let locks = search_input.table.get(path[0]).held.locks();
    LEAST_VISITS.saturating_mul(locks.len()) < successors
        && closing_visits(search_input, path[0]) < successors
}

/// Returns the cost, in visited successors, of looking up all members that may close a path of
/// `root` and other members. Returns 0 if a cycle of up to `members` members has no such path.
pub(crate) fn closing_visits_after(
    search_input: &SearchInput<'_>,
    root: u32,
    members: usize,
) -> usize
    requires { root < length search_input.now }
{
    if members < 3 {
        return 0;
    }
    closing_visits(search_input, root)
}

/// Returns the cost, in visited successors, of looking up all members that may close a path of
/// `root`.
fn closing_visits(search_input: &SearchInput<'_>, root: u32) -> usize
    requires { root < length search_input.now }
{
    let locks = search_input.table.get(root).held.locks();
    let acquirers = search_input.components.acquirers();
    let searches = acquirers.count(locks).saturating_mul(locks.len());
    searches.saturating_mul(VISITS_PER_SEARCH)
}

/// Returns whether a search from the path's one member for cycles of up to `members` members costs
/// more than computing the distances of all locks to it.
pub(crate) fn is_long(search_input: &SearchInput<'_>, path: &Path, members: usize) -> bool
    requires { IsPath search_input.now path.now.items }
{
    if members < LEAST_MEMBERS {
        return false;
    }
    let nexts = successors(search_input, path, path[0]);
    let third = third_members(search_input, path[0], nexts);
    let each = third / nexts.len().max(1);
    let mut paths = third;
    for _member in LEAST_MEMBERS..members {
        paths = paths.saturating_mul(each);
    }
    paths / VISITS_PER_DISTANCES > search_input.table.len()
}

/// Returns the total number of successors of `nexts`, the successors of the root. A dependency is
/// counted once for each predecessor.
fn third_members(search_input: &SearchInput<'_>, root: u32, nexts: &[u32]) -> usize
    requires root { root < length search_input.now }
    requires nexts { (next : ℕ) → Contains nexts.now next → next < length search_input.now }
{
    let mut count = 0usize;
    for next in nexts {
        count = count.saturating_add(successors_after(search_input, root, *next));
    }
    count
}

/// Returns the number of successors of `next`, a successor of the root, that the search visits.
fn successors_after(search_input: &SearchInput<'_>, root: u32, next: u32) -> usize
    requires root { root < length search_input.now }
    requires next { next < length search_input.now }
{
    let lock = search_input.table.get(next).lock;
    if !search_input.components.in_same(root, next)
        || search_input.table.get(root).held.contains(lock)
    {
        return 0;
    }
    search_input.successors(next).len()
}
