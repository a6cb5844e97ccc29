//! The least reached instances of many cycles of one trace.

ghost use Rattle.std.specs.Prelude.{Option, ◌≡◌, ℕ, ◌+◌, ◌<◌, ◌≤◌, [], length, OnOk, IfOk, IfSome};
ghost use Rattle.std.specs.List.{Contains};
ghost use Rattle.trace_model.specs.Theory.Closure.{IsClosure};
ghost use Rattle.trace_model.specs.Theory.Trace.{Trace};
ghost use Rattle.trace_model.specs.Theory.Dependencies.{dependencies};
ghost use Rattle.dependencies.specs.Tables.{dependency_places, AreDependencyNumbers, NumbersWholeTrace};
ghost use Rattle.fronts.specs.declared.requirements.ThreadPrefix.{ThreadPrefix};
ghost use Rattle.fronts.specs.Requirements.{AreRequirements};
ghost use Rattle.fronts.specs.Overlays.{IsEmptyFor};
ghost use Rattle.fronts.specs.Slots.{slots_of, HasPlaces, HasFronts};
ghost use Rattle.sp_closure.specs.Entering.{IsFirstMember};
ghost use Rattle.sp_closure.specs.Pointers.{IsFirstPlace};
ghost use Rattle.sp_closure.specs.Reaching.{FindsPlaces, FindsLeast};
ghost use Rattle.fronts.specs.State.{included_set, size_in};
ghost use Rattle.sp_closure.specs.Scratches.{IsScratch, IsOnPrefix, IsBaseFor, HasBase, kept_places, KeepsFor, KeepsNothing, CountsBut, PlacesStay, base_total, upper_front, upper_places, upper_total};

use crate::add_member::first_member;
use crate::base::{Base, make_base, new_propagation, over_base};
use crate::reach::reach_all;
use dependencies::DepTable;
use fronts::{
    Context, Fronts, Member, Overlay, Propagation, Requirements, Steps, ThreadPrefix, gathered,
};
use std::alloc::Global;
use std::mem;
use std::sync::Arc;
use std::sync::ledger::Ledger;
use trace_index::TraceIndex;
use trace_model::{Cycle, Instance, NoMemory, Place};

/// The maximum number of kept bases besides the present one, at most one for each thread.
pub(crate) const MAX_BASES: usize = 63;

/// Finds the least reached instances of cycles of one trace, one after another.
///
/// It is scratch memory of one thread: its size depends on the numbers of threads and locks. For
/// several threads it keeps a base: the closure of the places before the first place of a cycle's
/// first member. A base is extended if a later cycle begins at a later place of that thread.
///
/// The caller of each method passes the index and the requirements of one trace, always the same.
pub struct ClosureScratch {
    pub(crate) alloc: Global,
    pub(crate) none: Overlay,
    pub(crate) base: Propagation,
    pub(crate) base_of: Option<ThreadPrefix>,
    pub(crate) others: Vec<Base>,
    pub(crate) upper: Propagation,
}

impl Drop for ClosureScratch {
    fn drop(self) {
        let ClosureScratch {
            alloc: _,
            none: _,
            base: _,
            base_of: _,
            others: _,
            upper: _,
        } = self;
    }
}

/// Returns the index of the first base whose prefix is of this thread.
fn base_of_slot(bases: &[Base], slot: u32) -> Option<usize>
    ensures { IfSome result (λ at. at < length bases.now) }
{
    for (at, base) in bases.iter().enumerate() {
        if let Some(prefix) = base.of
            && prefix.slot == slot
        {
            return Some(at);
        }
    }
    None
}

impl ClosureScratch {
    /// Returns a scratch for the trace with these requirements.
    ///
    /// # Errors
    /// `NoMemory` if an allocation fails.
    pub fn new(alloc: Global, requirements: &Requirements) -> Result<ClosureScratch, NoMemory>
        ensures scratch { IfOk result (λ scratch. (s : Trace) → AreRequirements s requirements.now →
            IsScratch s requirements.now scratch) }
        ensures empty { IfOk result KeepsNothing }
    {
        let none = Overlay::new(alloc, requirements)?;
        let base = new_propagation(alloc, requirements)?;
        let upper = new_propagation(alloc, requirements)?;
        Ok(ClosureScratch {
            alloc,
            none,
            base,
            base_of: None,
            others: Vec::new(alloc),
            upper,
        })
    }

    /// Returns the index of the kept base to exchange for one of this thread: the thread's own, a
    /// new one if there are fewer than `MAX_BASES`, or else any.
    ///
    /// # Errors
    /// `NoMemory` if an allocation fails.
    fn place_of(
        &mut self,
        index: &TraceIndex,
        requirements: &Requirements,
        slot: u32,
    ) -> Result<usize, NoMemory>
        requires scratch { IsScratch index.now.events requirements.now self.old }
        ensures scratch { IsScratch index.now.events requirements.now self.new }
        ensures same { self.new ≡ record self.old { others = self.new.others } }
        ensures others { (of : Option ThreadPrefix) → (n : ℕ) →
            HasBase requirements.now self.new of n → HasBase requirements.now self.old of n }
        ensures within { IfOk result (λ at. at < length self.new.others.items) }
    {
        let _ = index; // for the proof
        if let Some(at) = base_of_slot(self.others.as_slice(), slot) {
            return Ok(at);
        }
        let count = self.others.len();
        if count >= MAX_BASES {
            return Ok(slot as usize % count);
        }
        let propagation = new_propagation(self.alloc, requirements)?;
        self.others.push(Base {
            propagation,
            of: None,
        })?;
        Ok(count)
    }

    /// Makes the kept base of this thread the present one.
    ///
    /// # Errors
    /// `NoMemory` if an allocation fails.
    pub(crate) fn turn_to(
        &mut self,
        index: &TraceIndex,
        requirements: &Requirements,
        slot: u32,
    ) -> Result<(), NoMemory>
        requires scratch { IsScratch index.now.events requirements.now self.old }
        ensures scratch { IsScratch index.now.events requirements.now self.new }
        ensures same { self.new ≡
            record self.old {
              base = self.new.base;
              base_of = self.new.base_of;
              others = self.new.others;
            } }
        ensures has { HasBase requirements.now self.old self.new.base_of
            (base_total requirements.now self.new) }
    {
        match self.base_of {
            Some(prefix) if prefix.slot != slot => {}
            _ => return Ok(()),
        }
        let at = self.place_of(index, requirements, slot)?;
        let other = &mut self.others[at];
        mem::swap(&mut self.base, &mut other.propagation);
        mem::swap(&mut self.base_of, &mut other.of);
        Ok(())
    }

    /// Makes the present base the closure of the prefix.
    ///
    /// # Errors
    /// `NoMemory` if an allocation fails.
    pub(crate) fn base_on<L: Ledger>(
        &mut self,
        index: &TraceIndex,
        requirements: &Requirements,
        prefix: ThreadPrefix,
        steps: &mut Steps<L>,
    ) -> Result<(), NoMemory>
        requires scratch { IsScratch index.now.events requirements.now self.old }
        requires reach { HasPlaces index.now.events
            (slots_of requirements.now.threads) prefix }
        ensures scratch { IsScratch index.now.events requirements.now self.new }
        ensures base { OnOk result (IsOnPrefix index.now.events requirements.now self.new prefix) }
        ensures counted { steps.new + kept_places self.old.base_of prefix
            (base_total requirements.now self.old) ≡ steps.old +
            base_total requirements.now self.new }
    {
        let base_of = self.base_of;
        self.base_of = None;
        make_base(
            index,
            requirements,
            &self.none,
            &mut self.base,
            base_of,
            prefix,
            steps,
        )?;
        self.base_of = Some(prefix);
        Ok(())
    }

    /// Makes the present base the closure of the places before the first place of the dependency,
    /// at which `first` is.
    ///
    /// # Errors
    /// `NoMemory` if an allocation fails.
    pub(crate) fn rebase<L: Ledger>(
        &mut self,
        index: &TraceIndex,
        requirements: &Requirements,
        table: &DepTable,
        number: u32,
        first: &Member<'_>,
        steps: &mut Steps<L>,
    ) -> Result<(), NoMemory>
        requires scratch { IsScratch index.now.events requirements.now self.old }
        requires one_trace { NumbersWholeTrace table.now index.now.events }
        requires member { IsFirstMember index.now.events (slots_of requirements.now.threads)
            (dependency_places table.now number) first.now }
        requires first { IsFirstPlace index.now.events number first.now.place }
        ensures scratch { IsScratch index.now.events requirements.now self.new }
        ensures base { OnOk result
            (IsBaseFor index.now.events requirements.now self.new.none number
            self.new.base.overlay) }
        ensures counted { CountsBut (PlacesStay index.now.events requirements.now self.old number)
            steps.old steps.new (base_total requirements.now self.new) }
    {
        let _ = table; // for the proof
        let _ = number; // for the proof
        let prefix = ThreadPrefix {
            slot: first.slot,
            count: first.number,
        };
        self.base_on(index, requirements, prefix, steps)
    }

    /// Returns the places of the least reached instance, or `None`. The upper overlay then includes
    /// its closure.
    ///
    /// # Errors
    /// `NoMemory` if an allocation fails.
    fn places<L: Ledger>(
        &mut self,
        index: &TraceIndex,
        requirements: &Requirements,
        table: &DepTable,
        numbers: &[u32],
        steps: &mut Steps<L>,
    ) -> Result<Option<Vec<Place>>, NoMemory>
        requires scratch { IsScratch index.now.events requirements.now self.old }
        requires one_trace { NumbersWholeTrace table.now index.now.events }
        requires known { AreDependencyNumbers index.now.events numbers.now }
        requires some { 0 < length numbers.now }
        ensures scratch { IsScratch index.now.events requirements.now self.new }
        ensures least { IfOk result (FindsPlaces index.now.events numbers.now
            (upper_places index.now.events requirements.now self.new)) }
        ensures fronts { OnOk result (HasFronts index.now.events
            (slots_of requirements.now.threads) (upper_front self.new)) }
        ensures at_most { steps.new ≤ steps.old + length index.now.events }
        ensures counted { OnOk result (CountsBut
            (KeepsFor index.now.events requirements.now self.old numbers.now)
            steps.old steps.new (upper_total requirements.now self.new)) }
    {
        let _len = index.len(); // for the proof
        let first = first_member(index, &requirements.threads, table, numbers[0]);
        self.turn_to(index, requirements, first.slot)?;
        self.rebase(index, requirements, table, numbers[0], &first, steps)?;
        over_base(
            self.alloc,
            index,
            requirements,
            &self.none,
            &self.base.overlay,
            &mut self.upper,
            table,
            numbers,
            steps,
        )
    }

    /// Returns the least reached instance of a cycle with the closure of its thread predecessors,
    /// or `None` if no reordering reaches an instance. Each place of the least instance is at or
    /// before the same member's place in every other reached instance.
    ///
    /// `steps` counts the places that this call includes: at most the number of events of the
    /// trace. If the call does not fail, it counts exactly the included places, except those of the
    /// base that was kept. If an instance is returned, the included places are those of its fronts.
    ///
    /// The caller passes the index over which the scratch was made, the table of the dependencies
    /// of its trace, and numbers below the table's length.
    ///
    /// # Errors
    /// `NoMemory` if an allocation fails.
    pub fn least<L: Ledger>(
        &mut self,
        index: &TraceIndex,
        requirements: &Requirements,
        table: &DepTable,
        cycle: &Cycle,
        steps: &mut Steps<L>,
    ) -> Result<Option<(Instance, Fronts)>, NoMemory>
        requires scratch { IsScratch index.now.events requirements.now self.old }
        requires one_trace { NumbersWholeTrace table.now index.now.events }
        requires known { (m : ℕ) → Contains cycle.now m →
            m < length (dependencies index.now.events) }
        ensures scratch { IsScratch index.now.events requirements.now self.new }
        ensures least { IfOk result (FindsLeast index.now.events cycle.now) }
        ensures size { IfOk result
            (λ answer. IfSome answer (λ found. size_in index.now.events found.1 ≡
            upper_total requirements.now self.new)) }
        ensures counted { OnOk result (CountsBut
            (KeepsFor index.now.events requirements.now self.old cycle.now)
            steps.old steps.new (upper_total requirements.now self.new)) }
        ensures at_most { steps.new ≤ steps.old + length index.now.events }
    {
        match self.places(index, requirements, table, cycle.numbers(), steps)? {
            Some(places) => Ok(Some(self.answer(index, requirements, places.as_slice())?)),
            None => Ok(None),
        }
    }

    /// Returns the instance at these places, with the closure that the upper overlay includes.
    ///
    /// # Errors
    /// `NoMemory` if an allocation fails.
    fn answer(
        &self,
        index: &TraceIndex,
        requirements: &Requirements,
        places: &[Place],
    ) -> Result<(Instance, Fronts), NoMemory>
        requires scratch { IsScratch index.now.events requirements.now self.now }
        requires low { 2 ≤ length places.now }
        requires high { length places.now ≤ 8 }
        requires closure { IsClosure index.now.events places.now
            (upper_places index.now.events requirements.now self.now) }
        requires fronts { HasFronts index.now.events (slots_of requirements.now.threads)
            (upper_front self.now) }
        ensures instance { IfOk result (λ found. found.0 ≡ places.now) }
        ensures closure { IfOk result
            (λ found. IsClosure index.now.events places.now (included_set found.1)) }
        ensures size { IfOk result
            (λ found. size_in index.now.events found.1 ≡ upper_total requirements.now self.now) }
    {
        let _len = index.len(); // for the proof
        let instance = Instance::new(places).unwrap();
        let positions = Arc::try_clone(&requirements.threads.positions)?;
        let fronts = gathered(
            self.alloc,
            positions,
            &self.base.overlay,
            &self.upper.overlay,
            requirements.threads.count,
            places,
        )?;
        Ok((instance, fronts))
    }
}

/// Returns the same as [`ClosureScratch::least`], with a new scratch: the least reached instance of
/// the cycle with its closure, or `None`. If an instance is returned, `steps` counts exactly the
/// places of its fronts. Part of the public API; not called by the program.
///
/// # Errors
/// `NoMemory` if an allocation fails.
pub fn least_instance<L: Ledger>(
    alloc: Global,
    index: &TraceIndex,
    table: &DepTable,
    cycle: &Cycle,
    steps: &mut Steps<L>,
) -> Result<Option<(Instance, Fronts)>, NoMemory>
    requires one_trace { NumbersWholeTrace table.now index.now.events }
    requires known { (m : ℕ) → Contains cycle.now m → m < length (dependencies index.now.events) }
    ensures least { IfOk result (FindsLeast index.now.events cycle.now) }
    ensures counted { IfOk result
        (λ answer. IfSome answer (λ found. steps.new ≡ steps.old +
        size_in index.now.events found.1)) }
    ensures at_most { steps.new ≤ steps.old + length index.now.events }
{
    let requirements = Requirements::build(alloc, index)?;
    let mut scratch = ClosureScratch::new(alloc, &requirements)?;
    scratch.least(index, &requirements, table, cycle, steps)
}

/// Returns the closure of the thread predecessors of the places. It is the least set that contains
/// the places before each given place in its thread, and that is closed under these rules:
/// - with a place, the earlier places of its thread;
/// - with a place, its writer if it is a read, and what its fork or join requires;
/// - with two acquires of one lock, the release of the earlier one.
///
/// `steps` counts the included places: exactly those of the result, and in any case at most the
/// number of events of the trace. Part of the public API; not called by the program.
///
/// The caller passes places of the trace.
///
/// # Errors
/// `NoMemory` if an allocation fails.
pub fn close<L: Ledger>(
    alloc: Global,
    index: &TraceIndex,
    places: &[Place],
    steps: &mut Steps<L>,
) -> Result<Fronts, NoMemory>
    requires in_trace { (p : ℕ) → Contains places.now p → p < length index.now.events }
    ensures closure { IfOk result
        (λ fronts. IsClosure index.now.events places.now (included_set fronts)) }
    ensures counted { IfOk result
        (λ fronts. steps.new ≡ steps.old + size_in index.now.events fronts) }
    ensures at_most { steps.new ≤ steps.old + length index.now.events }
{
    let requirements = Requirements::build(alloc, index)?;
    let none = Overlay::new(alloc, &requirements)?;
    let mut propagation = new_propagation(alloc, &requirements)?;
    close_over(
        alloc,
        index,
        &requirements,
        &none,
        &mut propagation,
        places,
        steps,
    )
}

/// Returns the closure, computed with these tables and an empty propagation.
///
/// # Errors
/// `NoMemory` if an allocation fails.
fn close_over<L: Ledger>(
    alloc: Global,
    index: &TraceIndex,
    requirements: &Requirements,
    none: &Overlay,
    propagation: &mut Propagation,
    places: &[Place],
    steps: &mut Steps<L>,
) -> Result<Fronts, NoMemory>
    requires requirements { AreRequirements index.now.events requirements.now }
    requires none { IsEmptyFor requirements.now none.now }
    requires empty { IsEmptyFor requirements.now propagation.old.overlay }
    requires pending { propagation.old.pending.items ≡ [] }
    requires in_trace { (p : ℕ) → Contains places.now p → p < length index.now.events }
    ensures closure { IfOk result
        (λ fronts. IsClosure index.now.events places.now (included_set fronts)) }
    ensures counted { IfOk result
        (λ fronts. steps.new ≡ steps.old + size_in index.now.events fronts) }
    ensures at_most { steps.new ≤ steps.old + length index.now.events }
{
    let _len = index.len(); // for the proof
    let context = Context {
        index,
        requirements,
        under: none,
    };
    reach_all(&context, propagation, places, steps)?;
    let positions = Arc::try_clone(&requirements.threads.positions)?;
    gathered(
        alloc,
        positions,
        none,
        &propagation.overlay,
        requirements.threads.count,
        places,
    )
}
