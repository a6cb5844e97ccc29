//! Slots of places: the dense numbers of threads and of locks.

ghost use Rattle.std.specs.Prelude.{◌≡◌, ◌+◌, ◌<◌, ◌^◌};
ghost use Rattle.fronts.specs.Slots.{slots_of};
ghost use Rattle.fronts.specs.Firsts.{slot_count_after};

use crate::positions::Positions;
use segments::MaybeIndex;
use std::alloc::Global;
use std::sync::Arc;
use trace_model::Place;

/// For each place its thread's slot and its number in the thread, and the number of threads.
#[derive(Drop)]
pub struct SlotTable {
    /// For each place the prefix of its thread that is before it. Shared with the fronts.
    pub positions: Arc<Positions, Global>,
    /// The number of threads.
    pub count: u32,
}

impl SlotTable {
    /// Returns the slot of the thread of `place`, or `None` if the trace has no such place.
    #[inline(always)]
    pub(crate) fn get(&self, place: Place) -> Option<u32>
        ensures { result ≡ slots_of self.now place }
    {
        match self.positions.get(place) {
            Some(prefix) => Some(prefix.slot),
            None => None,
        }
    }
}

/// Returns the number of slots after a place that may have a slot: one more if `slot` is new.
#[inline(always)]
pub(crate) fn next_count(slot: MaybeIndex, count: u32) -> u32
    requires { count + 1 < 2 ^ 32 }
    ensures { result ≡ slot_count_after slot count }
{
    match slot.get() {
        Some(slot) if slot == count => count + 1,
        _ => count,
    }
}
