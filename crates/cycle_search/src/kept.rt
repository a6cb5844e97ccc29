//! A collector that keeps the cycles.

ghost use Rattle.std.specs.Prelude.{◌≡◌, ◌≤◌, [], vec_len};

use crate::collector::Collector;
use crate::refused::SearchRefused;
use std::alloc::Global;
use trace_model::Cycle;

/// The cycles of a search, at most `most`.
#[derive(Drop)]
pub(crate) struct Kept {
    pub(crate) cycles: Vec<Cycle>,
    pub(crate) most: usize,
    pub(crate) ghost within: { vec_len cycles ≤ most },
}

impl Kept {
    /// Returns a collector that has no cycles. Does not allocate.
    pub(crate) fn new(alloc: Global, most: usize) -> Kept
        ensures cycles { result.cycles.items ≡ [] }
        ensures most { result.most ≡ most }
    {
        Kept {
            cycles: Vec::new(alloc),
            most,
        }
    }
}

impl Collector<Cycle> for Kept {
    ghost use Rattle.cycle_search.specs.Keeping.{keeps};

    type Refused = SearchRefused;

    ghost taking = { keeps };

    fn take(&mut self, cycle: Cycle) -> Result<(), SearchRefused> {
        if self.cycles.len() >= self.most {
            return Err(SearchRefused::TooMany);
        }
        self.cycles.push(cycle)?;
        Ok(())
    }
}
