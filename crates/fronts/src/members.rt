//! Pointers into the places of dependencies, one for each member of a cycle.

ghost use Rattle.std.specs.Prelude.{◌≡◌, ℕ, ◌<◌, ◌≤◌, max, length, slice_get, Some, None, IfSome, IsTrue, MatchOption};
ghost use Rattle.trace_model.specs.Theory.Closure.{Places};
ghost use Rattle.trace_index.specs.Numbers.{number_at};
ghost use Rattle.fronts.specs.Slots.{slots_of, AreThreadSlots, HoldsFirst, HoldsPlaces, HasPlaces};
ghost use Rattle.fronts.specs.declared.members.Member.{Member};
ghost use Rattle.fronts.specs.Members.{Each, IsMember, IsAhead, AreMoved, IsWithinCount, ArePassed, Advances, MovesTo, AreAdvanced};

use crate::requirements::ThreadPrefix;
use crate::slot_table::SlotTable;
use segments::PlacesOf;
use trace_index::TraceIndex;
use trace_model::Place;

/// A member of a cycle: the places of its dependency, and the current one of them.
#[derive(Drop)]
pub struct Member<'a> {
    /// The places of its dependency.
    pub places: PlacesOf<'a>,
    /// The index of the current place in `places`.
    pub entry: usize,
    /// The current place.
    pub place: Place,
    /// The slot of the place's thread.
    pub slot: u32,
    /// The number of the place in its thread.
    pub number: u32,
}

/// Returns the index of the first member of the prefix's thread whose place is in the prefix.
fn behind(members: &[Member<'_>], prefix: ThreadPrefix) -> Option<usize>
    ensures some { IfSome result (λ k. (m : Member) × (slice_get members.now k ≡ Some m)
        × (m.slot ≡ prefix.slot) × (m.number < prefix.count)) }
    ensures none { result ≡ None →
        Each (λ m. m.slot ≡ prefix.slot → prefix.count ≤ m.number) members.now }
{
    for (k, member) in members.iter().enumerate() {
        if member.slot == prefix.slot && member.number < prefix.count {
            return Some(k);
        }
    }
    None
}

impl<'a> Member<'a> {
    /// Returns whether the place at index `entry` is among the first `count` of its thread.
    fn is_passed(&self, index: &TraceIndex, entry: usize, count: u32) -> bool
        requires { entry < length self.now.places }
        ensures { IsTrue result → (q n : ℕ) → slice_get self.now.places entry ≡ Some q →
            number_at index.now.events q ≡ Some n → n < count }
    {
        match index.number(self.places.get(entry)) {
            Some(number) => number < count,
            None => false,
        }
    }

    /// Returns the index of the first place after the current one that is not among the first
    /// `count` of the thread, or the number of places if there is none. Takes longer and longer
    /// steps, and then a binary search.
    fn first_past(&self, index: &TraceIndex, threads: &SlotTable, count: u32) -> usize
        requires slots { AreThreadSlots index.now.events threads.now }
        requires member { IsMember index.now.events (slots_of threads.now) self.now }
        ensures later { self.now.entry < result }
        ensures passed { ArePassed index.now.events count self.now.places self.now.entry result }
        ensures within { result ≤ length self.now.places }
    {
        let _ = threads; // for the proof
        let places = self.places.len();
        let mut low = self.entry;
        let mut step = 1;
        while step < places - low && self.is_passed(index, low + step, count) {
            low += step;
            step = low - self.entry + 1;
        }
        let mut high = low + step.min(places - low);
        while high - low > 1 {
            let middle = low + (high - low) / 2;
            if self.is_passed(index, middle, count) {
                low = middle;
            } else {
                high = middle;
            }
        }
        high
    }

    /// Advances to the first later place of the dependency that is not among the first `count` of
    /// the thread. Returns `false` if there is none.
    fn advance(&mut self, index: &TraceIndex, threads: &SlotTable, count: u32) -> bool
        requires slots { AreThreadSlots index.now.events threads.now }
        requires member { IsMember index.now.events (slots_of threads.now) self.old }
        ensures { Advances index.now.events (slots_of threads.now) count result self.old self.new }
    {
        let entry = self.first_past(index, threads, count);
        if entry < self.places.len() {
            let place = self.places.get(entry);
            self.entry = entry;
            self.place = place;
            self.number = index.number(place).unwrap();
            true
        } else {
            false
        }
    }
}

/// Advances member `k` past the first `count` places of its thread, and returns the number of its
/// new place in the thread, or `None` if it has no further place.
fn move_one(
    index: &TraceIndex,
    threads: &SlotTable,
    members: &mut [Member<'_>],
    k: usize,
    count: u32,
) -> Option<u32>
    requires slots { AreThreadSlots index.now.events threads.now }
    requires members { Each (IsMember index.now.events (slots_of threads.now)) members.old }
    requires within { k < length members.old }
    ensures { MovesTo (Advances index.now.events (slots_of threads.now) count)
        members.old k members.new result }
{
    let member = &mut members[k];
    if member.advance(index, threads, count) {
        Some(member.number)
    } else {
        None
    }
}

/// Returns the greater of two numbers.
pub fn greater(a: u32, b: u32) -> u32
    ensures { result ≡ max a b }
{
    if a < b { b } else { a }
}

/// Advances the members of the prefix's thread until none of them is in the prefix. If a member
/// advances, the prefix is extended to end before it. Returns the resulting prefix, or `None` if a
/// member has no further place.
pub(crate) fn advance_members(
    index: &TraceIndex,
    threads: &SlotTable,
    members: &mut [Member<'_>],
    prefix: ThreadPrefix,
) -> Option<ThreadPrefix>
    requires slots { AreThreadSlots index.now.events threads.now }
    requires members { Each (IsMember index.now.events (slots_of threads.now)) members.old }
    requires within { Each (IsWithinCount prefix.slot prefix.count) members.old }
    requires has { HasPlaces index.now.events (slots_of threads.now) prefix }
    ensures members { Each (IsMember index.now.events (slots_of threads.now)) members.new }
    ensures moved { AreMoved prefix.slot members.old members.new }
    ensures advanced { IfSome result
        (AreAdvanced index.now.events (slots_of threads.now) prefix members.new) }
    ensures ahead { (set : Places) → IsAhead index.now.events members.old set →
        HoldsPlaces index.now.events (slots_of threads.now) prefix set →
        MatchOption result ⊥ (λ new. IsAhead index.now.events members.new set
        × HoldsFirst index.now.events (slots_of threads.now) set prefix.slot new.count) }
{
    let mut count = prefix.count;
    while let Some(k) = behind(
        members,
        ThreadPrefix {
            slot: prefix.slot,
            count,
        },
    ) {
        let Some(number) = move_one(index, threads, members, k, count) else {
            return None;
        };
        count = greater(count, number);
    }
    Some(ThreadPrefix {
        slot: prefix.slot,
        count,
    })
}
