//! A direct-mapped cache of the items of each thread.

ghost use Rattle.std.specs.Prelude.{◌<◌};
ghost use Rattle.fronts.specs.declared.item_cache.TheConstants.{ENTRIES};

/// How many entries the cache has.
const ENTRIES: usize = 4096;

/// A direct-mapped cache: for pairs of threads the index of the last item by which the first one
/// requires a prefix of the second one. Pairs of up to 64 threads share no entry.
///
/// A cached index is a candidate: several pairs may share an entry, so the caller checks the item.
#[derive(Drop)]
pub(crate) struct ItemCache {
    indices: [u32; ENTRIES],
}

impl ItemCache {
    /// Returns a cache in which every pair has the candidate 0.
    pub(crate) fn new() -> ItemCache {
        ItemCache {
            indices: [0; ENTRIES],
        }
    }

    /// Returns the index, in the items of the thread with slot `from`, of the item that may require
    /// the longest prefix of the thread with slot `to`.
    pub(crate) fn candidate(&self, from: u32, to: u32) -> usize {
        self.indices[entry(from, to)] as usize
    }

    /// Records the index of an item. An index above `u32::MAX` is not recorded.
    pub(crate) fn record(&mut self, from: u32, to: u32, index: usize) {
        if let Ok(index) = u32::try_from(index) {
            self.indices[entry(from, to)] = index;
        }
    }
}

/// Returns the entry of a pair of slots.
fn entry(from: u32, to: u32) -> usize
    ensures { result < ENTRIES }
{
    (from as usize * 64 + to as usize) % ENTRIES
}
