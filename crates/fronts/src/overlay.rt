//! The state of a propagation, as a set of changes over another state.

ghost use Rattle.std.specs.Prelude.{◌≡◌, ◌+◌, ◌^◌, ◌<◌, max, IfOk, Some};
ghost use Rattle.fronts.specs.EpochArrays.{size};
ghost use Rattle.fronts.specs.Overlays.{front_of, done_of, last_of, Changes, IsEmptyOverlay, IsEmptyFor};

use crate::epoch_array::EpochArray;
use crate::fronts::Front;
use crate::requirements::{Requirements, Section, ThreadPrefix};
use segments::Steps;
use std::alloc::Global;
use std::sync::ledger::Ledger;
use trace_model::{NoMemory, Place};

/// The changes over the overlay under it: for each thread slot its front and the number of its
/// requirements that were processed, and for each lock slot the last section that has begun.
#[derive(Drop)]
pub struct Overlay {
    pub(crate) fronts: EpochArray<Front>,
    pub(crate) done: EpochArray<usize>,
    pub(crate) last: EpochArray<Section>,
}

impl Overlay {
    /// Returns an overlay without changes, with memory for these threads and locks.
    ///
    /// # Errors
    /// `NoMemory` if an allocation fails.
    pub fn new(alloc: Global, requirements: &Requirements) -> Result<Overlay, NoMemory>
        ensures { IfOk result (IsEmptyFor requirements.now) }
    {
        let threads = requirements.threads.count as usize;
        let blank = Section {
            place: Place::new(0),
            end: ThreadPrefix { slot: 0, count: 0 },
        };
        Ok(Overlay {
            fronts: EpochArray::new(alloc, threads, Front::new())?,
            done: EpochArray::new(alloc, threads, 0)?,
            last: EpochArray::new(alloc, requirements.lock_count as usize, blank)?,
        })
    }

    /// Removes all changes, in constant time.
    pub fn clear(&mut self)
        requires { size self.old.done ≡ size self.old.fronts }
        ensures { IsEmptyOverlay (size self.old.fronts) (size self.old.last) self.new }
    {
        self.fronts.clear();
        self.done.clear();
        self.last.clear();
    }

    /// Returns the front of the thread with this slot.
    pub fn front(&self, under: &Overlay, slot: u32) -> Front
        ensures { result ≡ front_of under.now self.now slot }
    {
        match self.fronts.get(slot) {
            Some(front) => front,
            None => under.fronts.get(slot).unwrap_or(Front::new()),
        }
    }

    /// Returns the number of the thread's requirements that were processed.
    pub(crate) fn done(&self, under: &Overlay, slot: u32) -> usize
        ensures { result ≡ done_of under.now self.now slot }
    {
        match self.done.get(slot) {
            Some(done) => done,
            None => under.done.get(slot).unwrap_or(0),
        }
    }

    /// Returns the last section on the lock that has begun.
    pub(crate) fn last(&self, under: &Overlay, lock: u32) -> Option<Section>
        ensures { result ≡ last_of under.now self.now lock }
    {
        match self.last.get(lock) {
            Some(section) => Some(section),
            None => under.last.get(lock),
        }
    }

    /// Raises the front of a thread to include the prefix.
    pub(crate) fn raise_front<L: Ledger>(
        &mut self,
        under: &Overlay,
        prefix: ThreadPrefix,
        steps: &mut Steps<L>,
    )
        requires room { prefix.slot < size self.old.fronts }
        ensures front { Changes (front_of under.now self.old) prefix.slot
            (max (front_of under.now self.old prefix.slot) prefix.count)
            (front_of under.now self.new) }
        ensures done { self.new.done ≡ self.old.done }
        ensures last { self.new.last ≡ self.old.last }
        ensures size { size self.new.fronts ≡ size self.old.fronts }
        ensures steps { steps.new + front_of under.now self.old prefix.slot ≡ steps.old +
            front_of under.now self.new prefix.slot }
    {
        let front = self.front(under, prefix.slot).raised(prefix.count, steps);
        self.fronts.set(prefix.slot, front);
    }

    /// Counts one more requirement of the thread as processed.
    pub(crate) fn count_met(&mut self, under: &Overlay, slot: u32)
        requires room { slot < size self.old.done }
        requires fits { done_of under.now self.old slot + 1 < 2 ^ 64 }
        ensures done { Changes (done_of under.now self.old) slot
            (done_of under.now self.old slot + 1) (done_of under.now self.new) }
        ensures fronts { self.new.fronts ≡ self.old.fronts }
        ensures last { self.new.last ≡ self.old.last }
        ensures size { size self.new.done ≡ size self.old.done }
    {
        let done = self.done(under, slot);
        self.done.set(slot, done + 1);
    }

    /// Sets the last section on the lock that has begun.
    pub(crate) fn set_last(&mut self, under: &Overlay, lock: u32, section: Section)
        requires room { lock < size self.old.last }
        ensures last { Changes (last_of under.now self.old) lock (Some section)
            (last_of under.now self.new) }
        ensures fronts { self.new.fronts ≡ self.old.fronts }
        ensures done { self.new.done ≡ self.old.done }
        ensures size { size self.new.last ≡ size self.old.last }
    {
        let _ = under; // for the proof
        self.last.set(lock, section);
    }
}
