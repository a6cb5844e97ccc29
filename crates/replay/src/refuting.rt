//! Checks the evidence of cycles, witnesses and refutations, against a trace.

ghost use Rattle.std.specs.Prelude.{◌≡◌, ◌<◌, ◌≤◌, ◌↔◌, [], drop, length, replicate, slice_get, vec_capacity, false, IfNone, IfOk, IsTrue, MatchOption};
ghost use Rattle.trace_model.specs.declared.limits.TheConstants.{MAX_EVENTS};
ghost use Rattle.trace_model.specs.Theory.Trace.{Trace};
ghost use Rattle.trace_model.specs.Theory.Lawful.{IsWellFormed};
ghost use Rattle.trace_model.specs.Theory.Refutation.{AreFirstPlaces, Derives, EndsAt, IsNextPlace, IsRefutation};
ghost use Rattle.replay.specs.declared.refutation_verdict.RefutationVerdict.{RefutationVerdict};
ghost use Rattle.replay.specs.declared.verdict.Verdict.{Verdict};
ghost use Rattle.replay.specs.Laws.{IsWitnessFor};
ghost use Rattle.replay.specs.Verdict.{IsVerdict};
ghost use Rattle.replay.specs.Facts.{AreFacts};
ghost use Rattle.replay.specs.Numbers.{AreNumbersByPlace};
ghost use Rattle.replay.specs.Refuting.{IsFault, IsFirstUnknown, IsEndVerdict, IsVerdictFrom, IsRefutationVerdict, IsUnmarked};
ghost use Rattle.dependencies.specs.Tables.{AreDependencyNumbers};

use crate::checking::walk;
use crate::facts::{Facts, facts_of};
use crate::numbers::{numbers_of, place_from};
use crate::reasons::{first_unjustified, unmark};
use crate::refutation_verdict::{RefutationFault, RefutationVerdict};
use crate::verdict::Verdict;
use crate::walked::Walked;
use std::alloc::Global;
use std::collections::hash_map::RandomState;
use std::marker::Model;
use trace_model::{Cycle, Derived, Event, Instance, NoMemory, Place, Refutation, RefutationStep};

/// A trace, with the tables by which witnesses and refutations are checked against it. Contracts
/// see it as the trace.
#[derive(Drop)]
pub struct EvidenceChecker<'a> {
    alloc: Global,
    state: RandomState,
    trace: &'a [Event],
    facts: Facts,
    numbers: Vec<Option<u32>>,
}

impl<'a> Model for EvidenceChecker<'a> {
    ghost use Rattle.trace_model.specs.Theory.Trace.{Trace};
    ghost use Rattle.replay.specs.Refuting.{AreRefutationTables};

    ghost Value = { Trace };

    ghost view = { λ c. c.trace.now };

    ghost invariant = { λ c. AreRefutationTables c.trace.now c.facts c.numbers.items };
}

impl<'a> EvidenceChecker<'a> {
    /// Computes the tables, by a few passes over the trace.
    ///
    /// The caller passes a well-formed trace.
    ///
    /// # Errors
    /// `NoMemory` if an allocation fails.
    pub fn new(
        alloc: Global,
        state: RandomState,
        trace: &'a [Event],
    ) -> Result<EvidenceChecker<'a>, NoMemory>
        requires { IsWellFormed trace.now }
        ensures { IfOk result (λ checker. checker ≡ trace.now) }
    {
        let numbers = numbers_of(alloc, state, trace)?;
        let facts = facts_of(alloc, state, trace)?;
        Ok(EvidenceChecker {
            alloc,
            state,
            trace,
            facts,
            numbers,
        })
    }

    /// Returns the trace. Does not allocate.
    pub fn trace(&self) -> &[Event]
        ensures value { result.now ≡ self.now }
        ensures well_formed { IsWellFormed self.now }
    {
        self.trace
    }

    /// Returns the verdict of [`check`](crate::check) on a list of places and an instance. Takes
    /// one pass over the list.
    ///
    /// # Errors
    /// `NoMemory` if an allocation fails.
    pub fn check_witness(&self, order: &[Place], instance: &Instance) -> Result<Verdict, NoMemory>
        ensures verdict { IfOk result (λ v. IsVerdict self.now order.now instance.now v) }
        ensures exact { IfOk result (λ v.
            (v ≡ Verdict.Reaches) ↔ IsWitnessFor self.now order.now instance.now) }
    {
        let mut walked = Walked::new(self.alloc, self.state, self.trace.len())?;
        walk(self.trace, order, instance, &self.facts, &mut walked)
    }

    /// Follows the steps of a refutation from the first places of the cycle's members on. Returns
    /// the first step that is wrong, with the reason, or `Valid`.
    ///
    /// `Valid` is returned exactly if the steps are a refutation of the cycle. Then no
    /// sync-preserving reordering of the trace reaches an instance of the cycle. The cycle and the
    /// refutation may contain any numbers. Takes one pass over the refutation.
    ///
    /// # Errors
    /// `NoMemory` if an allocation fails.
    pub fn check_refutation(
        &self,
        cycle: &Cycle,
        refutation: &Refutation,
    ) -> Result<RefutationVerdict, NoMemory>
        ensures verdict { IfOk result (λ v.
            IsRefutationVerdict self.now cycle.now refutation.now v) }
        ensures exact { IfOk result (λ v.
            (v ≡ RefutationVerdict.Valid) ↔ IsRefutation self.now cycle.now refutation.now) }
    {
        let mut marks = no_marks(self.alloc, self.trace.len())?;
        let mut places = Vec::with_capacity(self.alloc, cycle.numbers().len())?;
        if let Some(unknown) = first_places(&self.numbers, cycle.numbers(), &mut places) {
            return Ok(RefutationVerdict::UnknownNumber(unknown));
        }
        Ok(follow(
            self.trace,
            &self.facts,
            &self.numbers,
            cycle.numbers(),
            refutation.steps(),
            &mut places,
            &mut marks,
        ))
    }
}

/// Returns that none of these many places is marked.
///
/// # Errors
/// `NoMemory` if an allocation fails.
fn no_marks(alloc: Global, places: usize) -> Result<Vec<bool>, NoMemory>
    ensures { IfOk result (λ marks. marks.items ≡ replicate places false) }
{
    Ok(vec![in alloc; false; places]?)
}

/// Adds the first place of each member's dependency to `places`. Returns the first member that is
/// not the number of a dependency, or `None`.
fn first_places(numbers: &[Option<u32>], members: &[u32], places: &mut Vec<Place>) -> Option<u32>
    requires few { length numbers.now ≤ MAX_EVENTS }
    requires empty { places.old.items ≡ [] }
    requires room { length members.now ≤ vec_capacity places.old }
    ensures { (s : Trace) → AreNumbersByPlace s numbers.now → MatchOption result
        (AreFirstPlaces s members.now places.new.items) (IsFirstUnknown s members.now) }
{
    for number in members {
        match place_from(numbers, *number, 0) {
            Some(place) => places.push_reserved(place),
            None => return Some(*number),
        }
    }
    None
}

/// Returns the present place of the member with this index, or `None` if there is no such member.
fn present_of(places: &[Place], member: usize) -> Option<Place>
    ensures { result ≡ slice_get places.now member }
{
    places.get(member).copied()
}

/// Returns whether the last entry is about the place.
fn ends_at(entries: &[Derived], place: Place) -> bool
    ensures { IsTrue result ↔ EndsAt entries.now place }
{
    match entries.last() {
        Some(last) => last.place == place,
        None => false,
    }
}

/// Returns the first test of the step that fails at these present places, or `None`.
fn step_fault(
    trace: &[Event],
    facts: &Facts,
    places: &[Place],
    step: &RefutationStep,
    marks: &mut Vec<bool>,
) -> Option<RefutationFault>
    requires facts { AreFacts trace.now facts.now }
    requires sized { length marks.old.items ≡ length trace.now }
    requires unmarked { IsUnmarked marks.old.items }
    ensures sized { length marks.new.items ≡ length trace.now }
    ensures unmarked { IfNone result (IsUnmarked marks.new.items) }
    ensures fault { MatchOption result
        (Derives trace.now places.now step.now) (IsFault trace.now places.now step.now) }
{
    let Some(present) = present_of(places, step.member) else {
        return Some(RefutationFault::NoSuchMember);
    };
    let entries = step.derivation.entries();
    if let Some(entry) = first_unjustified(trace, facts, places, entries, marks) {
        return Some(RefutationFault::Unjustified(entry));
    }
    unmark(marks, entries);
    if !ends_at(entries, present) {
        return Some(RefutationFault::NotDerived(present));
    }
    None
}

/// Returns the next place of the dependency of the member with this index, or `None`.
fn next_place(
    numbers: &[Option<u32>],
    members: &[u32],
    places: &[Place],
    member: usize,
) -> Option<Place>
    requires few { length numbers.now ≤ MAX_EVENTS }
    requires as_many { length places.now ≡ length members.now }
    requires within { member < length places.now }
    ensures { (s : Trace) → AreNumbersByPlace s numbers.now → AreDependencyNumbers s members.now →
        IsNextPlace s members.now places.now member result }
{
    place_from(numbers, members[member], places[member].get() as usize + 1)
}

/// Returns the verdict if no member may move after the first `count` steps.
fn end_verdict(steps: &[RefutationStep], count: usize) -> RefutationVerdict
    requires { count ≤ length steps.now }
    ensures { IsEndVerdict (drop count steps.now) count result }
{
    if count == steps.len() {
        RefutationVerdict::Valid
    } else {
        RefutationVerdict::AfterEnd(count)
    }
}

/// Returns the verdict on the steps, from the given present places on.
fn follow(
    trace: &[Event],
    facts: &Facts,
    numbers: &[Option<u32>],
    members: &[u32],
    steps: &[RefutationStep],
    places: &mut Vec<Place>,
    marks: &mut Vec<bool>,
) -> RefutationVerdict
    requires facts { AreFacts trace.now facts.now }
    requires numbers { AreNumbersByPlace trace.now numbers.now }
    requires few { length numbers.now ≤ MAX_EVENTS }
    requires known { AreDependencyNumbers trace.now members.now }
    requires as_many { length places.old.items ≡ length members.now }
    requires sized { length marks.old.items ≡ length trace.now }
    requires unmarked { IsUnmarked marks.old.items }
    ensures { IsVerdictFrom trace.now members.now places.old.items steps.now 0 result }
{
    for k in 0..steps.len() {
        let step = &steps[k];
        if let Some(fault) = step_fault(trace, facts, places, step, marks) {
            return RefutationVerdict::WrongStep(k, fault);
        }
        match next_place(numbers, members, places, step.member) {
            Some(next) => places[step.member] = next,
            None => return end_verdict(steps, k + 1),
        }
    }
    RefutationVerdict::PlaceLeft
}
