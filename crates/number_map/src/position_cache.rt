//! A direct-mapped cache of positions.

/// How many entries the cache has.
const ENTRIES: usize = 2048;

/// A direct-mapped cache: for each of 2,048 key residues, the position at which a key was last
/// found.
///
/// A cached position is a candidate: several keys share an entry, so the caller checks that its
/// key is at the position. A caller with keys that are not numbers passes a number made of the key.
#[derive(Clone, Copy)]
pub struct PositionCache {
    positions: [u32; ENTRIES],
}

impl PositionCache {
    /// Returns a cache in which every key has the candidate 0.
    pub fn new() -> PositionCache {
        PositionCache {
            positions: [0; ENTRIES],
        }
    }

    /// Returns the position at which `key` may be.
    #[inline(always)]
    pub fn candidate(&self, key: u32) -> usize {
        self.positions[key as usize % ENTRIES] as usize
    }

    /// Records the position at which `key` was found. A position above `u32::MAX` is not recorded.
    #[inline(always)]
    pub fn record(&mut self, key: u32, position: usize) {
        if let Ok(position) = u32::try_from(position) {
            self.positions[key as usize % ENTRIES] = position;
        }
    }
}
