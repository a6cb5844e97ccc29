//! A filter of held locks, by which a search tests whether a member closes a path without reading
//! a held set.

ghost use Rattle.std.specs.Prelude.{ℕ, IsTrue};
ghost use Rattle.std.specs.List.{Contains};
ghost use Rattle.cycle_search.specs.LockFilters.{MarksLock};

use held_sets::HeldSet;

/// The number of marks of a filter.
const MARKS: usize = 64;

/// A filter of the locks of a held set: it marks each of them, and few others (Bloom 1970, with one
/// hash function).
#[derive(Clone, Copy)]
pub(crate) struct LockFilter {
    /// Whether a lock of the set has this residue modulo 64.
    pub(crate) marks: [bool; MARKS],
}

impl LockFilter {
    /// Returns the filter of the locks of `held`. Does not allocate.
    pub(crate) fn of(held: &HeldSet) -> LockFilter
        ensures { (lock : ℕ) → Contains held.now lock → MarksLock result lock }
    {
        let mut marks = [false; MARKS];
        for lock in held.locks() {
            marks[*lock as usize % MARKS] = true;
        }
        LockFilter { marks }
    }

    /// Returns whether `lock` is not marked. Then it is not in the held set.
    #[inline(always)]
    pub(crate) fn excludes(&self, lock: u32) -> bool
        ensures { IsTrue result → ¬ MarksLock self.now lock }
    {
        !self.marks[lock as usize % MARKS]
    }
}
