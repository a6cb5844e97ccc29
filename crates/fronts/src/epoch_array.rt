//! Arrays that are cleared in constant time.

ghost use Rattle.std.specs.Prelude.{◌≡◌, ℕ, ◌≤◌, length, slice_get, Some};

use std::alloc::Global;
use trace_model::NoMemory;

/// An array of optional values, cleared in constant time: an entry has a value only if its epoch is
/// the current one.
#[derive(Drop)]
pub(crate) struct EpochArray<T> {
    values: Vec<T>,
    epochs: Vec<u32>,
    epoch: u32,
    ghost same_length: { length epochs.items ≡ length values.items },
    ghost bounded: { (e x : ℕ) → slice_get epochs.items e ≡ Some x → x ≤ epoch },
}

impl<T: Copy + Drop> EpochArray<T> {
    ghost use Rattle.std.specs.Prelude.{◌<◌, IfOk};
    ghost use Rattle.fronts.specs.EpochArrays.{value_at, size, IsBlankArray, Sets};

    /// Returns an array of `count` entries without values. `blank` fills the memory.
    ///
    /// # Errors
    /// `NoMemory` if an allocation fails.
    pub(crate) fn new(alloc: Global, count: usize, blank: T) -> Result<EpochArray<T>, NoMemory>
        ensures { IfOk result (IsBlankArray count) }
    {
        let epochs = vec![in alloc; 0; count]?;
        let values = vec![in alloc; blank; count]?;
        Ok(EpochArray {
            values,
            epochs,
            epoch: 1,
        })
    }

    /// Returns the value of an entry, or `None` if it has none.
    pub(crate) fn get(&self, entry: u32) -> Option<T>
        ensures { result ≡ value_at self.now entry }
    {
        let entry = entry as usize;
        if entry < self.epochs.len() && self.epochs[entry] == self.epoch {
            Some(self.values[entry])
        } else {
            None
        }
    }

    /// Sets the value of an entry.
    pub(crate) fn set(&mut self, entry: u32, value: T)
        requires { entry < size self.old }
        ensures { Sets self.old entry value self.new }
    {
        let entry = entry as usize;
        self.values[entry] = value;
        self.epochs[entry] = self.epoch;
    }

    /// Removes all values by starting a new epoch.
    pub(crate) fn clear(&mut self)
        ensures { IsBlankArray (size self.old) self.new }
    {
        if self.epoch == u32::MAX {
            reset(self.epochs.as_mut_slice());
            self.epoch = 0;
        }
        self.epoch += 1;
    }
}

/// Sets all epochs to 0.
fn reset(epochs: &mut [u32])
    ensures length { length epochs.new ≡ length epochs.old }
    ensures zero { (e x : ℕ) → slice_get epochs.new e ≡ Some x → x ≡ 0 }
{
    for entry in 0..epochs.len() {
        epochs[entry] = 0;
    }
}
