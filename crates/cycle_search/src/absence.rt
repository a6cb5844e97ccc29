//! Short searches, which tell of most traces whether they have no cycle, or few.

ghost use Rattle.std.specs.Prelude.{◌≡◌, ◌<◌, ℕ, List, length, IsTrue};
ghost use Rattle.trace_model.specs.Theory.Cycles.{IsCycle};
ghost use Rattle.cycle_search.specs.CycleSearch.{CycleFrom};

use crate::SearchInput;
use crate::costs::closing_visits_after;
use crate::kept::Kept;
use crate::pace::Visits;
use crate::search::{CycleSearch, Path, extend, filter_of, most_members};
use std::alloc::Global;
use trace_model::Bound;

/// Returns `true` only if there is no cycle with at most `bound` members. `false` says nothing: the
/// search ends at the first cycle, or when it has visited `visits` members. Does not allocate.
pub fn has_no_cycle(
    alloc: Global,
    search_input: &SearchInput<'_>,
    bound: Bound,
    visits: u64,
) -> bool
    ensures { IsTrue result → (numbers : List ℕ) →
        IsCycle search_input.now bound numbers → ⊥ }
{
    let mut pace = Visits { left: visits };
    for root in 0..search_input.table.len() {
        if !begins_no_cycle(alloc, search_input, root as u32, bound, &mut pace) {
            return false;
        }
    }
    true
}

/// Returns whether a search finds that there are at most `most` cycles with at most `bound` members.
/// `false` if it visits `visits` members without an end, or an allocation fails. An estimate of the
/// work for the cycles: no result may depend on it.
pub fn has_few_cycles(
    alloc: Global,
    search_input: &SearchInput<'_>,
    bound: Bound,
    most: usize,
    visits: u64,
) -> bool {
    let mut kept = Kept::new(alloc, most);
    let mut pace = Visits { left: visits };
    for root in 0..search_input.table.len() {
        if !keep_cycles(search_input, root as u32, bound, &mut kept, &mut pace) {
            return false;
        }
    }
    true
}

/// Returns `true` only if no cycle with at most `bound` members begins with `root`.
fn begins_no_cycle(
    alloc: Global,
    search_input: &SearchInput<'_>,
    root: u32,
    bound: Bound,
    pace: &mut Visits,
) -> bool
    requires { root < length search_input.now }
    ensures { IsTrue result → (numbers : List ℕ) →
        CycleFrom search_input.now bound root numbers → ⊥ }
{
    let mut none = Kept::new(alloc, 0);
    keep_cycles(search_input, root, bound, &mut none, pace)
}

/// Keeps the cycles with at most `bound` members that begin with `root`. Returns `false` if they are
/// too many, an allocation fails, or the search is paused.
fn keep_cycles(
    search_input: &SearchInput<'_>,
    root: u32,
    bound: Bound,
    kept: &mut Kept,
    pace: &mut Visits,
) -> bool
    requires { root < length search_input.now }
    ensures most { IsTrue result → kept.new.most ≡ kept.old.most }
    ensures each { IsTrue result → (numbers : List ℕ) →
        CycleFrom search_input.now bound root numbers →
        length kept.old.cycles.items < length kept.new.cycles.items }
{
    let members = most_members(search_input, root, bound);
    if members < 2 {
        return true;
    }
    let mut path = Path::new();
    path.push(root);
    let search = CycleSearch {
        search_input,
        distances: &[],
        members,
        successors: closing_visits_after(search_input, root, members),
        filter: filter_of(search_input, root),
    };
    match extend(&search, &mut path, root, kept, pace) {
        Ok(()) => true,
        Err(_) => false,
    }
}
