//! A direct-mapped cache of positions that grows with its map.

use std::alloc::{AllocError, Global};

/// How many entries the cache has at first, for up to half as many numbers.
const FIRST_ENTRIES: usize = 256;

/// How many entries the cache has at most: 256 KiB. A larger one would not stay in the caches of a
/// processor, where a look-up in it costs about as much as a hash.
const MAX_ENTRIES: usize = 65_536;

/// A direct-mapped cache on the heap: for each residue of a number, the position at which a number
/// was last found. The count of residues is a power of two, and grows with the map.
///
/// A cached position is a candidate: several numbers share an entry, so the caller checks that its
/// number is at the position. A caller with keys that are not numbers passes a number made of the
/// key.
#[derive(Drop)]
pub struct GrowingCache {
    positions: Vec<u32>,
}

impl GrowingCache {
    /// Returns a cache in which every number has the candidate 0. Does not allocate.
    pub fn new(alloc: Global) -> GrowingCache {
        GrowingCache {
            positions: Vec::new(alloc),
        }
    }

    /// Returns the position at which `number` may be.
    #[inline(always)]
    pub fn candidate(&self, number: u32) -> usize {
        match self.positions.get(self.entry_of(number)) {
            Some(position) => *position as usize,
            None => 0,
        }
    }

    /// Records the position at which `number` was found. A position above `u32::MAX` is not
    /// recorded.
    #[inline(always)]
    pub fn record(&mut self, number: u32, position: usize) {
        let entry = self.entry_of(number);
        if let Ok(position) = u32::try_from(position)
            && let Some(known) = self.positions.get_mut(entry)
        {
            *known = position;
        }
    }

    /// Grows the cache if the map has `count` numbers and the cache fewer than twice as many
    /// entries.
    ///
    /// # Errors
    ///
    /// `AllocError` if an allocation fails. The cache is unchanged.
    pub fn fit(&mut self, count: usize) -> Result<(), AllocError> {
        let entries = self.positions.len();
        if count > entries / 2 && entries < MAX_ENTRIES {
            self.positions
                .resize(FIRST_ENTRIES.max(entries.saturating_mul(4)), 0)?;
        }
        Ok(())
    }

    /// Returns the index of the entry of `number`: the last bits of the number. It is past the end
    /// if the cache has no entry.
    #[inline(always)]
    fn entry_of(&self, number: u32) -> usize {
        number as usize & self.positions.len().wrapping_sub(1)
    }
}
