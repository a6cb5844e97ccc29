//! The worklist algorithm that includes all required places.

ghost use Rattle.std.specs.Prelude.{◌≡◌, ℕ, ◌+◌, ◌<◌, ◌≤◌, ◌^◌, [], Some, None, IfSome};
ghost use Rattle.fronts.specs.declared.requirements.Section.{Section};
ghost use Rattle.fronts.specs.declared.requirements.Item.{Item};
ghost use Rattle.fronts.specs.Context.{IsReadyContext, HoldsEnd, Any, Carries, IfGoes, fronts, items, last, processed_count, stage, thread_count, context_events, slots, state};
ghost use Rattle.fronts.specs.Propagation.{IsFit, AreUpTo, Raises, BeginsSection, Meets, IsConsistent, AreKnownSlots};
ghost use Rattle.fronts.specs.Slots.{HasPlaces, HoldsPlaces};
ghost use Rattle.fronts.specs.Requirements.{AreRequirements};

use crate::members::{Member, advance_members};
use crate::overlay::Overlay;
use crate::requirements::{Item, Requirement, Requirements, Section, ThreadPrefix};
use segments::Steps;
use std::sync::ledger::Ledger;
use trace_index::TraceIndex;
use trace_model::NoMemory;

/// What does not change during a propagation.
#[derive(Clone, Copy)]
pub struct Context<'a> {
    /// The index of the trace.
    pub index: &'a TraceIndex,
    /// The requirements of the trace's places.
    pub requirements: &'a Requirements,
    /// The overlay under the one that grows.
    pub under: &'a Overlay,
}

/// An overlay that grows, with the worklist of thread slots that may have unprocessed requirements.
#[derive(Drop)]
pub struct Propagation {
    /// The included places, as changes over the overlay under it.
    pub overlay: Overlay,
    /// The worklist. A slot may occur more than once.
    pub pending: Vec<u32>,
}

impl Propagation {
    /// Advances the members of the prefix's thread past the prefix, and includes all places before
    /// them. Returns `false` if a member has no further place.
    ///
    /// The caller passes requirements and members of the context's trace, and a prefix that is not
    /// shorter than the front.
    ///
    /// # Errors
    /// `NoMemory` if an allocation fails.
    pub fn raise_to<L: Ledger>(
        &mut self,
        context: &Context<'_>,
        members: &mut [Member<'_>],
        prefix: ThreadPrefix,
        steps: &mut Steps<L>,
    ) -> Result<bool, NoMemory>
        requires sound { AreRequirements (context_events context.now) context.now.requirements.now }
        requires fits { IsFit (context_events context.now) context.now.requirements.now
            context.now.under.now self.old }
        requires members { AreUpTo (context_events context.now) (slots context.now)
            (fronts context.now self.old) prefix members.old }
        requires slot { prefix.slot < thread_count context.now }
        requires reach { HasPlaces (context_events context.now) (slots context.now) prefix }
        requires further { fronts context.now self.old prefix.slot ≤ prefix.count }
        ensures raises { IfGoes result (Raises (thread_count context.now) prefix
            (state context.now self.old) (state context.now self.new)) }
        ensures carries { Carries context.now (HoldsPlaces (context_events context.now)
            (slots context.now) prefix)
            (stage self.old members.old steps.old) (stage self.new members.new steps.new) result }
    {
        match advance_members(
            context.index,
            &context.requirements.threads,
            members,
            prefix,
        ) {
            Some(prefix) => {
                self.overlay.raise_front(context.under, prefix, steps);
                self.pending.push(prefix.slot)?;
                Ok(true)
            }
            None => Ok(false),
        }
    }

    /// Includes the prefix, if it is not included. Returns `false` if a member has no further
    /// place.
    ///
    /// The caller passes requirements and members of the context's trace, with each member at the
    /// front of its thread.
    ///
    /// # Errors
    /// `NoMemory` if an allocation fails.
    pub fn include<L: Ledger>(
        &mut self,
        context: &Context<'_>,
        members: &mut [Member<'_>],
        prefix: ThreadPrefix,
        steps: &mut Steps<L>,
    ) -> Result<bool, NoMemory>
        requires ready { IsReadyContext context.now self.old members.old }
        requires reach { HasPlaces (context_events context.now) (slots context.now) prefix }
        ensures raises { IfGoes result (Raises (thread_count context.now) prefix
            (state context.now self.old) (state context.now self.new)) }
        ensures carries { Carries context.now (HoldsPlaces (context_events context.now)
            (slots context.now) prefix)
            (stage self.old members.old steps.old) (stage self.new members.new steps.new) result }
    {
        if prefix.count <= self.overlay.front(context.under, prefix.slot).count() {
            return Ok(true);
        }
        self.raise_to(context, members, prefix, steps)
    }

    /// Processes the begin of `section`: of it and the lock's last section, the earlier one must
    /// have ended, so its end is included.
    fn begin<L: Ledger>(
        &mut self,
        context: &Context<'_>,
        members: &mut [Member<'_>],
        lock: u32,
        section: Section,
        steps: &mut Steps<L>,
    ) -> Result<bool, NoMemory>
        requires ready { IsReadyContext context.now self.old members.old }
        requires lock { lock < context.now.requirements.now.lock_count }
        requires end { HasPlaces (context_events context.now) (slots context.now) section.end }
        requires last_end { (d : Section) → last context.now self.old lock ≡ Some d →
            HasPlaces (context_events context.now) (slots context.now) d.end }
        ensures begins { IfGoes result (BeginsSection (thread_count context.now) lock section
            (state context.now self.old) (state context.now self.new)) }
        ensures carries { Carries context.now (HoldsEnd context.now self.old lock section)
            (stage self.old members.old steps.old) (stage self.new members.new steps.new) result }
    {
        match self.overlay.last(context.under, lock) {
            None => {
                self.overlay.set_last(context.under, lock, section);
                Ok(true)
            }
            Some(last) => {
                if last.place.get() < section.place.get() {
                    self.overlay.set_last(context.under, lock, section);
                    self.include(context, members, last.end, steps)
                } else if section.place.get() < last.place.get() {
                    self.include(context, members, section.end, steps)
                } else {
                    Ok(true)
                }
            }
        }
    }

    /// Returns the next unprocessed requirement of the thread's included places.
    fn next_item(&self, context: &Context<'_>, slot: u32) -> Option<Item>
        requires sound { AreRequirements (context_events context.now) context.now.requirements.now }
        requires slot { slot < thread_count context.now }
        ensures next { IfSome result
            (λ i. (items context.now slot (processed_count context.now self.now slot) ≡ Some i)
            × (i.number < fronts context.now self.now slot)
            × (processed_count context.now self.now slot + 1 < 2 ^ 64)) }
        ensures none { result ≡ None → (j : ℕ) (i : Item) → items context.now slot j ≡ Some i →
            i.number < fronts context.now self.now slot →
            j < processed_count context.now self.now slot }
    {
        let done = self.overlay.done(context.under, slot);
        let front = self.overlay.front(context.under, slot).count();
        match context.requirements.item(slot, done) {
            Some(item) => {
                if item.number < front {
                    Some(item)
                } else {
                    None
                }
            }
            None => None,
        }
    }

    /// Processes one requirement of the thread.
    fn meet<L: Ledger>(
        &mut self,
        context: &Context<'_>,
        members: &mut [Member<'_>],
        slot: u32,
        item: Item,
        steps: &mut Steps<L>,
    ) -> Result<bool, NoMemory>
        requires ready { IsReadyContext context.now self.old members.old }
        requires consistent { IsConsistent (items context.now) (state context.now self.old) }
        requires slot { slot < thread_count context.now }
        requires next { items context.now slot (processed_count context.now self.old slot)
            ≡ Some item }
        requires number { item.number < fronts context.now self.old slot }
        requires few { processed_count context.now self.old slot + 1 < 2 ^ 64 }
        ensures meets { IfGoes result (Meets (items context.now) (thread_count context.now) slot
            (state context.now self.old) (state context.now self.new)) }
        ensures carries { Carries context.now Any
            (stage self.old members.old steps.old) (stage self.new members.new steps.new) result }
    {
        self.overlay.count_met(context.under, slot);
        match item.requirement {
            Requirement::Reach(prefix) => self.include(context, members, prefix, steps),
            Requirement::Begin(lock, section) => self.begin(context, members, lock, section, steps),
        }
    }

    /// Processes requirements until the worklist is empty: a fixpoint, at which all requirements of
    /// included places are met. Returns `false` if a member has no further place.
    ///
    /// The caller passes requirements and members of the context's trace, with each member at the
    /// front of its thread.
    ///
    /// # Errors
    /// `NoMemory` if an allocation fails.
    pub fn run<L: Ledger>(
        &mut self,
        context: &Context<'_>,
        members: &mut [Member<'_>],
        steps: &mut Steps<L>,
    ) -> Result<bool, NoMemory>
        requires ready { IsReadyContext context.now self.old members.old }
        requires consistent { IsConsistent (items context.now) (state context.now self.old) }
        requires known { AreKnownSlots (thread_count context.now) self.old.pending.items }
        ensures consistent { IfGoes result (IsConsistent (items context.now)
            (state context.now self.new)) }
        ensures nothing { IfGoes result (self.new.pending.items ≡ []) }
        ensures grows { IfGoes result ((a : ℕ) →
            fronts context.now self.old a ≤ fronts context.now self.new a) }
        ensures carries { Carries context.now Any
            (stage self.old members.old steps.old) (stage self.new members.new steps.new) result }
    {
        while let Some(slot) = self.pending.last().copied() {
            match self.next_item(context, slot) {
                Some(item) => {
                    if !self.meet(context, members, slot, item, steps)? {
                        return Ok(false);
                    }
                }
                None => {
                    self.pending.pop();
                }
            }
        }
        Ok(true)
    }
}
