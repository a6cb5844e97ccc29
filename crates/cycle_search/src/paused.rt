//! A search that can be paused and continued.

ghost use Rattle.std.specs.Prelude.{◌≡◌, ◌<◌, length, IfOk, Err};
ghost use Rattle.trace_model.specs.declared.limits.TheConstants.{MAX_CYCLES};
ghost use Rattle.cycle_search.specs.CycleSearch.{MoreThan, CycleFrom};
ghost use Rattle.cycle_search.specs.Pausing.{IsSearchOf, GoesOnTo};

use crate::costs::closing_visits_after;
use crate::kept::Kept;
use crate::pace::{Halt, Visits};
use crate::search::{CycleSearch, Path, distances_of, extend_from, filter_of, most_members};
use crate::{SearchInput, SearchRefused};
use std::alloc::Global;
use trace_model::{Bound, Cycle, MAX_CYCLES, NoMemory};

/// The number of members that a worker lets a search visit before it is paused.
pub const MAX_VISITS: u64 = 1 << 20;

/// A search for the cycles of one root, paused after some of them.
#[derive(Drop)]
pub struct PausedSearch {
    /// The first member of the cycles.
    pub root: u32,
    /// The largest number of members of a cycle.
    pub bound: Bound,
    pub(crate) kept: Kept,
    pub(crate) distances: Vec<u32>,
    pub(crate) members: usize,
    pub(crate) successors: usize,
    pub(crate) path: Path,
    /// The search continues with the path and a number above this.
    pub(crate) last: u32,
}

/// What a search found until it ended or was paused.
#[derive(Drop)]
pub enum Searched {
    /// All cycles, each once, in lexicographic order.
    All(Vec<Cycle>),
    /// The search was paused.
    Paused(PausedSearch),
}

impl PausedSearch {
    /// Returns the search for the cycles with at most `bound` members whose first member is `root`,
    /// before its first step.
    ///
    /// The caller passes a number of a dependency of `search_input` as `root`.
    ///
    /// # Errors
    /// `NoMemory` if an allocation fails.
    pub fn new(
        alloc: Global,
        search_input: &SearchInput<'_>,
        root: u32,
        bound: Bound,
    ) -> Result<PausedSearch, NoMemory>
        requires root { root < length search_input.now }
        ensures search { IfOk result (IsSearchOf search_input.now bound root) }
    {
        let members = most_members(search_input, root, bound);
        let mut path = Path::new();
        path.push(root);
        let distances = distances_of(alloc, search_input, &path, members)?;
        Ok(PausedSearch {
            root,
            bound,
            kept: Kept::new(alloc, MAX_CYCLES),
            distances,
            members,
            successors: closing_visits_after(search_input, root, members),
            path,
            last: root,
        })
    }

    /// Searches on until all cycles are found, or `visits` members were visited. A search that is
    /// paused is later than before, if `visits` is not 0.
    ///
    /// The caller passes the input with which the search was made.
    ///
    /// # Errors
    /// Those of [`cycles_from`](crate::cycles_from).
    pub fn go_on(
        self,
        search_input: &SearchInput<'_>,
        visits: u64,
    ) -> Result<Searched, SearchRefused>
        requires search { IsSearchOf search_input.now self.bound self.root self }
        ensures searched { IfOk result (GoesOnTo search_input.now self visits) }
        ensures too_many { result ≡ Err SearchRefused.TooMany →
            MoreThan (CycleFrom search_input.now self.bound self.root) MAX_CYCLES }
    {
        let PausedSearch {
            root,
            bound,
            mut kept,
            distances,
            members,
            successors,
            mut path,
            last,
        } = self;
        if members < 2 {
            return Ok(Searched::All(kept.cycles));
        }
        let search = CycleSearch {
            search_input,
            distances: &distances,
            members,
            successors,
            filter: filter_of(search_input, root),
        };
        let mut pace = Visits { left: visits };
        match extend_from(&search, &mut path, last, &mut kept, &mut pace) {
            Ok(()) => Ok(Searched::All(kept.cycles)),
            Err(Halt::Refused(refused)) => Err(refused),
            Err(Halt::Paused(last)) => Ok(Searched::Paused(PausedSearch {
                root,
                bound,
                kept,
                distances,
                members,
                successors,
                path,
                last,
            })),
        }
    }
}
