//! What is known of the places that a walk along the list has passed.

ghost use Rattle.std.specs.Prelude.{◌≡◌, ℕ, ◌<◌, ◌↔◌, length, slice_set, slice_index_or, nat_eq, replicate, false, true, IsTrue, IfOk, Option};
ghost use Rattle.std.specs.HashMap.{get};
ghost use Rattle.std.specs.List.{Contains};
ghost use Rattle.std.specs.Result.{OnOk};
ghost use Rattle.trace_model.specs.declared.traces.event.Op.{Op};
ghost use Rattle.replay.specs.Walking.{entry_after, noted_begun};

use crate::last_places::{LastPlaces, note_begun, note_fork, note_write};
use std::alloc::Global;
use std::collections::HashMap;
use std::collections::hash_map::RandomState;
use trace_model::{NoMemory, Op, Place};

/// The passed places of a walk along the list.
#[derive(Drop)]
pub(crate) struct Walked {
    /// For each place of the trace, whether it was passed.
    pub(crate) inside: Vec<bool>,
    /// The last passed fork of each thread.
    pub(crate) forks: LastPlaces,
    /// The last passed write to each variable.
    pub(crate) writes: LastPlaces,
    /// The last passed outermost acquire of each lock.
    pub(crate) acquires: LastPlaces,
}

impl Walked {
    /// Returns the state at the start of the list, for a trace with `places` places.
    ///
    /// # Errors
    /// `NoMemory` if an allocation fails.
    pub(crate) fn new(alloc: Global, state: RandomState, places: usize) -> Result<Walked, NoMemory>
        ensures inside { IfOk result (λ w. w.inside.items ≡ replicate places false) }
        ensures forks { IfOk result (λ w. (key : ℕ) → get nat_eq w.forks key ≡ Option.None) }
        ensures writes { IfOk result (λ w. (key : ℕ) → get nat_eq w.writes key ≡ Option.None) }
        ensures acquires { IfOk result (λ w. (key : ℕ) → get nat_eq w.acquires key ≡ Option.None) }
    {
        Ok(Walked {
            inside: vec![in alloc; false; places]?,
            forks: HashMap::with_hasher(alloc, state),
            writes: HashMap::with_hasher(alloc, state),
            acquires: HashMap::with_hasher(alloc, state),
        })
    }

    /// Passes `place`. Its operation is `op`, and a section begins there on the lock `begun`, if
    /// any.
    ///
    /// # Errors
    /// `NoMemory` if an allocation fails.
    pub(crate) fn push(&mut self, place: Place, op: Op, begun: Option<u32>) -> Result<(), NoMemory>
        requires { place < length self.old.inside.items }
        ensures inside { OnOk result (self.new.inside.items ≡
            slice_set self.old.inside.items place true) }
        ensures forks { OnOk result ((key : ℕ) →
            get nat_eq self.new.forks key ≡
            entry_after Op.Fork op place key (get nat_eq self.old.forks key)) }
        ensures writes { OnOk result ((key : ℕ) →
            get nat_eq self.new.writes key ≡
            entry_after Op.Write op place key (get nat_eq self.old.writes key)) }
        ensures acquires { OnOk result ((key : ℕ) →
            get nat_eq self.new.acquires key ≡
            noted_begun begun place key (get nat_eq self.old.acquires key)) }
    {
        note_fork(&mut self.forks, op, place)?;
        note_write(&mut self.writes, op, place)?;
        note_begun(&mut self.acquires, begun, place)?;
        self.inside[place.get() as usize] = true;
        Ok(())
    }

    /// Returns whether the place was passed.
    pub(crate) fn has(&self, place: Place) -> bool
        requires { place < length self.now.inside.items }
        ensures { result ≡ slice_index_or self.now.inside.items place false }
    {
        self.inside[place.get() as usize]
    }
}
