//! The indices of entries by place.

ghost use Rattle.std.specs.Prelude.{◌≡◌, ℕ, [], ◌∷◌, ◌++◌, true, false, slice_get, Some, OnOk, MatchOption};
ghost use Rattle.std.specs.List.{Contains};
ghost use Rattle.trace_model.specs.Theory.Refutation.{derived_places};
ghost use Rattle.explain.specs.EntryTable.{AreIndices, IsSlotTaken, slot_of};

use crate::tables::{PositionTable, position_of_key, put_position};
use number_map::NumberMap;
use std::alloc::Global;
use std::collections::hash_map::RandomState;
use trace_model::{Derived, NoMemory, Place};

/// How many slots the table has: 8 KiB. A derivation has mostly fewer entries.
const SLOTS: usize = 1024;

/// For each place the index at which its entry may be. The index counts only if the entry there is
/// about the place, so the table is empty once the list of entries is.
#[derive(Drop)]
pub(crate) struct EntryTable {
    /// The index of the first entry with a place of this residue.
    pub(crate) slots: Vec<usize>,
    /// The indices of the entries whose slot is taken by another one.
    pub(crate) others: PositionTable,
}

/// Returns the slot of a place.
fn slot_of(place: Place) -> usize
    ensures { result ≡ slot_of place }
{
    place.get() as usize % SLOTS
}

/// Returns whether the entry at an index is about the place.
fn is_about(entries: &[Derived], index: usize, place: Place) -> bool
    ensures about { result ≡ true → slice_get (derived_places entries.now) index ≡ Some place }
    ensures other { result ≡ false →
        slice_get (derived_places entries.now) index ≡ Some place → ⊥ }
{
    match entries.get(index) {
        Some(entry) => entry.place == place,
        None => false,
    }
}

impl EntryTable {
    /// Returns a table without indices. Does not allocate.
    pub(crate) fn new(alloc: Global, state: RandomState) -> EntryTable {
        EntryTable {
            slots: Vec::new(alloc),
            others: NumberMap::new(alloc, state),
        }
    }

    /// Allocates the slots, unless there are some. The table must be empty.
    ///
    /// # Errors
    /// `NoMemory` if an allocation fails.
    pub(crate) fn reserve(&mut self) -> Result<(), NoMemory> {
        if self.slots.is_empty() {
            self.slots.resize(SLOTS, 0)?;
        }
        Ok(())
    }

    /// Returns whether the slot of a place is taken. It is if there are no slots.
    fn is_taken(&self, entries: &[Derived], place: Place) -> bool
        ensures taken { result ≡ true → IsSlotTaken self.now (derived_places entries.now) place }
        ensures free { result ≡ false →
            (i : ℕ) × (slice_get self.now.slots.items (slot_of place) ≡ Some i)
            × ((q : ℕ) → slice_get (derived_places entries.now) i ≡ Some q →
            slot_of q ≡ slot_of place → ⊥) }
    {
        match self.slots.get(slot_of(place)) {
            Some(slot) => match entries.get(*slot) {
                Some(entry) => slot_of(entry.place) == slot_of(place),
                None => false,
            },
            None => true,
        }
    }

    /// Returns the index of the entry of a place, or `None` if it has none.
    pub(crate) fn get(&self, entries: &[Derived], place: Place) -> Option<usize>
        ensures { MatchOption result (AreIndices self.now (derived_places entries.now) →
            Contains (derived_places entries.now) place → ⊥)
            (λ i. slice_get (derived_places entries.now) i ≡ Some place) }
    {
        if let Some(slot) = self.slots.get(slot_of(place))
            && is_about(entries, *slot, place)
        {
            return Some(*slot);
        }
        if !self.is_taken(entries, place) {
            return None;
        }
        match position_of_key(&self.others, place.get()) {
            Some(index) if is_about(entries, index, place) => Some(index),
            _ => None,
        }
    }

    /// Sets the index of a place that has no entry to the index of the next entry.
    ///
    /// # Errors
    /// `NoMemory` if an allocation fails.
    pub(crate) fn put(&mut self, entries: &[Derived], place: Place) -> Result<(), NoMemory>
        ensures { OnOk result (AreIndices self.old (derived_places entries.now) →
            (Contains (derived_places entries.now) place → ⊥) →
            AreIndices self.new (derived_places entries.now ++ place ∷ [])) }
    {
        if self.is_taken(entries, place) {
            return put_position(&mut self.others, place.get(), entries.len());
        }
        self.slots[slot_of(place)] = entries.len();
        Ok(())
    }
}
