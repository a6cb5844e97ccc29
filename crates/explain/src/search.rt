//! The search for derived places.

ghost use Rattle.std.specs.Prelude.{◌≡◌, ℕ, ◌<◌, ◌≤◌, ◌⊎◌, List, [], ◌∷◌, ◌++◌, true, false, Some, OnOk, IfOk, IfSome, MatchOption};
ghost use Rattle.std.specs.List.{Contains};
ghost use Rattle.trace_model.specs.Theory.Trace.{Trace, At};
ghost use Rattle.trace_model.specs.Theory.Reordering.{AreReached};
ghost use Rattle.trace_model.specs.Theory.Held.{BeginsOn};
ghost use Rattle.trace_model.specs.Theory.Lookups.{release, writer};
ghost use Rattle.trace_model.specs.Theory.Refutation.{Justifies};
ghost use Rattle.explain.specs.DerivationSearch.{derived_by, IsBlankSearch, IsSearch, IsDerived, Gives, IsIn, AddsEntry, CoversAll, Extends, AddsFollowed, HasAlso, IsUpTo, IsJoined, IsBefore, IsBeforeSome, HasFork, HasLastPlaces, HasFollowed, IsCaughtAt, IsCaughtIn, IsCaughtNowhere, Postpones};

use crate::entry_table::EntryTable;
use crate::forks::{ForkTable, fork_of};
use crate::tables::{Prefix, PrefixTable, prefix_at, put_prefix};
use fronts::last_place;
use number_map::NumberMap;
use std::alloc::Global;
use std::collections::hash_map::RandomState;
use trace_index::TraceIndex;
use trace_model::{Derived, Event, NoMemory, Op, Place, Reason};

/// How many places of a range are followed at first, before those of the next range. What derives
/// the place of a member is mostly near the end of a range.
const FIRST_SLICE: usize = 16;

/// The places of a prefix after `after`, which an earlier range of the thread ends with.
#[derive(Clone, Copy)]
pub(crate) struct Range {
    pub(crate) prefix: Prefix,
    pub(crate) after: Option<Place>,
    /// How many of the places are followed before those of the next range.
    pub(crate) slice: usize,
}

/// The state of a search. Its derived places are a prefix of each thread. Only those that others
/// need get entries; of all others the reason is known. One after another, a search serves any
/// places of any traces: it is emptied in constant time, and keeps its memory.
#[derive(Drop)]
pub struct DerivationSearch {
    /// Derived places with their reasons.
    pub(crate) entries: Vec<Derived>,
    /// The index of each entry's place in `entries`.
    pub(crate) indices: EntryTable,
    /// The places at which forks of threads were found. They stay when the search is emptied.
    pub(crate) forks: ForkTable,
    /// The derived places of each thread.
    pub(crate) threads: PrefixTable,
    /// The derived places in the order in which they were found. The search follows the ranges in
    /// this order, each from its last place back, a slice at a time.
    pub(crate) ranges: Vec<Range>,
    /// For each lock the last place that was followed at which a section on it begins.
    pub(crate) locks: PrefixTable,
}

/// Returns whether `place` is not after the place `after`. Returns `false` if there is none.
fn is_past(after: &Option<Place>, place: Place) -> bool
    ensures past { result ≡ true → (a : ℕ) × (after.now ≡ Some a) × (place ≤ a) }
    ensures not_past { result ≡ false → (a : ℕ) → after.now ≡ Some a → a < place }
{
    match after {
        Some(after) => place.get() <= after.get(),
        None => false,
    }
}

/// Returns the greatest of the places, or `None` if there is none.
fn greatest(places: &[Place]) -> Option<Place>
    ensures member { (m : ℕ) → result ≡ Some m → Contains places.now m }
    ensures greatest { (p : ℕ) → Contains places.now p → (m : ℕ) × (result ≡ Some m) × (p ≤ m) }
{
    let mut greatest: Option<Place> = None;
    for k in 0..places.len() {
        if !is_past(&greatest, places[k]) {
            greatest = Some(places[k]);
        }
    }
    greatest
}

impl DerivationSearch {
    /// Returns a search without derived places. Does not allocate.
    pub fn new(alloc: Global, state: RandomState) -> DerivationSearch
        ensures { IsBlankSearch result }
    {
        DerivationSearch {
            entries: Vec::new(alloc),
            indices: EntryTable::new(alloc, state),
            forks: NumberMap::new(alloc, state),
            threads: PrefixTable::new(alloc, state),
            ranges: Vec::new(alloc),
            locks: PrefixTable::new(alloc, state),
        }
    }

    /// Removes all derived places, and keeps the memory.
    fn clear(&mut self)
        ensures { IsBlankSearch self.new }
    {
        self.entries.clear();
        self.threads.clear();
        self.ranges.clear();
        self.locks.clear();
    }

    /// Returns the prefix of derived places that contains the place, or `None` if it is not
    /// derived.
    fn prefix_of(&self, index: &TraceIndex, place: Place) -> Option<Prefix>
        ensures { MatchOption result (IsDerived index.now.events self.now place → ⊥)
            (Gives index.now.events self.now place) }
    {
        let event = index.event(place)?;
        match prefix_at(&self.threads, event.thread) {
            Some(prefix) if place.get() <= prefix.last.get() => Some(prefix),
            _ => None,
        }
    }

    /// Adds an entry, unless the place has one.
    ///
    /// # Errors
    /// `NoMemory` if an allocation fails.
    fn add(&mut self, place: Place, reason: &Reason) -> Result<(), NoMemory>
        ensures locks { self.new.locks ≡ self.old.locks }
        ensures added { OnOk result ((s : Trace) (places : List ℕ) → IsSearch s places self.old →
            Contains (derived_by self.old) place
            ⊎ Justifies s places (derived_by self.old) reason.now place →
            AddsEntry s places self.old place self.new) }
    {
        match self.indices.get(&self.entries, place) {
            Some(_) => Ok(()),
            None => {
                self.indices.put(&self.entries, place)?;
                self.entries.push(Derived {
                    place,
                    reason: *reason,
                })?;
                Ok(())
            }
        }
    }

    /// Derives the places of a thread up to `last`, which have this reason or entries.
    ///
    /// # Errors
    /// `NoMemory` if an allocation fails.
    fn cover(
        &mut self,
        index: &TraceIndex,
        last: Option<Place>,
        reason: &Reason,
    ) -> Result<(), NoMemory>
        ensures locks { self.new.locks ≡ self.old.locks }
        ensures covered { OnOk result ((places : List ℕ) →
            IsSearch index.now.events places self.old →
            ((p : ℕ) → IsUpTo index.now.events p last → Contains (derived_by self.old) p
            ⊎ Justifies index.now.events places (derived_by self.old) reason.now p) →
            CoversAll index.now.events places self.old
            (λ p. IsUpTo index.now.events p last) self.new) }
    {
        let Some(place) = last else {
            return Ok(());
        };
        let Some(event) = index.event(place) else {
            return Ok(());
        };
        let known = prefix_at(&self.threads, event.thread);
        let after = match known {
            Some(prefix) => Some(prefix.last),
            None => None,
        };
        if is_past(&after, place) {
            return Ok(());
        }
        let range = Range {
            prefix: Prefix {
                last: place,
                reason: *reason,
            },
            after,
            slice: FIRST_SLICE,
        };
        put_prefix(&mut self.threads, event.thread, &range.prefix)?;
        self.ranges.push(range)?;
        Ok(())
    }

    /// Derives the place, if there is one, with its thread up to it. The last places of `first` and
    /// `second` get entries, and the reason names these.
    ///
    /// # Errors
    /// `NoMemory` if an allocation fails.
    fn require(
        &mut self,
        index: &TraceIndex,
        place: Option<Place>,
        first: &Prefix,
        second: &Prefix,
        reason: &Reason,
    ) -> Result<(), NoMemory>
        ensures locks { self.new.locks ≡ self.old.locks }
        ensures required { OnOk result ((places : List ℕ) →
            IsSearch index.now.events places self.old →
            IsIn index.now.events places self.old first.now →
            IsIn index.now.events places self.old second.now →
            ((p : ℕ) → place ≡ Some p → (xs : List ℕ) → Contains xs first.now.last →
            Contains xs second.now.last → Justifies index.now.events places xs reason.now p) →
            CoversAll index.now.events places self.old (λ p. place ≡ Some p) self.new) }
    {
        let Some(needed) = place else {
            return Ok(());
        };
        if let Some(_) = self.prefix_of(index, needed) {
            return Ok(());
        }
        self.add(first.last, &first.reason)?;
        self.add(second.last, &second.reason)?;
        self.add(needed, reason)?;
        self.cover(index, place, &Reason::ThreadOrder(needed))
    }

    /// Derives what a join requires: the fork and the places of the joined thread. `event` is the
    /// event at the last place of `here`.
    ///
    /// # Errors
    /// `NoMemory` if an allocation fails.
    fn add_joined(
        &mut self,
        index: &TraceIndex,
        here: &Prefix,
        event: Event,
    ) -> Result<(), NoMemory>
        ensures locks { self.new.locks ≡ self.old.locks }
        ensures joined { OnOk result ((places : List ℕ) →
            IsSearch index.now.events places self.old →
            IsIn index.now.events places self.old here.now →
            At index.now.events here.now.last event →
            CoversAll index.now.events places self.old
            (IsJoined index.now.events here.now.last) self.new) }
    {
        let Op::Join(child) = event.op else {
            return Ok(());
        };
        let reason = Reason::ForkJoin(here.last);
        let fork = fork_of(&mut self.forks, index, child)?;
        self.require(index, fork, here, here, &reason)?;
        self.add(here.last, &here.reason)?;
        self.cover(index, last_place(index, child), &reason)
    }

    /// Derives the writer that a read requires. `event` is the event at the last place of `here`.
    ///
    /// # Errors
    /// `NoMemory` if an allocation fails.
    fn add_writer(
        &mut self,
        index: &TraceIndex,
        here: &Prefix,
        event: Event,
    ) -> Result<(), NoMemory>
        ensures locks { self.new.locks ≡ self.old.locks }
        ensures written { OnOk result ((places : List ℕ) →
            IsSearch index.now.events places self.old →
            IsIn index.now.events places self.old here.now →
            At index.now.events here.now.last event →
            CoversAll index.now.events places self.old
            (λ p. writer index.now.events here.now.last ≡ Some p) self.new) }
    {
        let Op::Read(_) = event.op else {
            return Ok(());
        };
        let reason = Reason::ReadsFrom(here.last);
        self.require(index, index.writer(here.last), here, here, &reason)
    }

    /// Derives the release of the section that begins at the last place of `here`, which is before
    /// the section on the same lock that begins at the last place of `later`. `end` is a derived
    /// place of its thread that is not before it: most releases are not after `end`, so that they
    /// are derived already.
    ///
    /// # Errors
    /// `NoMemory` if an allocation fails.
    fn add_release(
        &mut self,
        index: &TraceIndex,
        here: &Prefix,
        later: &Prefix,
        end: Place,
    ) -> Result<(), NoMemory>
        ensures locks { self.new.locks ≡ self.old.locks }
        ensures released { OnOk result ((places : List ℕ) →
            IsSearch index.now.events places self.old →
            IsIn index.now.events places self.old here.now →
            IsIn index.now.events places self.old later.now →
            IsUpTo index.now.events here.now.last (Some end) →
            IsDerived index.now.events self.old end →
            here.now.last < later.now.last → (l : ℕ) →
            BeginsOn index.now.events here.now.last l →
            BeginsOn index.now.events later.now.last l →
            CoversAll index.now.events places self.old
            (λ r. release index.now.events here.now.last ≡ Some r) self.new) }
    {
        let Some(release) = index.release_of(here.last) else {
            return Ok(());
        };
        if release.get() <= end.get() {
            return Ok(());
        }
        let reason = Reason::Sections(here.last, later.last);
        self.require(index, Some(release), here, later, &reason)
    }

    /// Derives the release of the earlier of two sections on one lock: the one that begins at the
    /// last place of `here`, if one does, and the last one that was followed. `event` is the event at
    /// the last place of `here`, and `end` a derived place of its thread that is not before it.
    ///
    /// # Errors
    /// `NoMemory` if an allocation fails.
    fn add_section(
        &mut self,
        index: &TraceIndex,
        here: &Prefix,
        event: Event,
        end: Place,
    ) -> Result<(), NoMemory>
        ensures { OnOk result ((places followed : List ℕ) →
            IsSearch index.now.events places self.old →
            IsIn index.now.events places self.old here.now →
            At index.now.events here.now.last event →
            IsUpTo index.now.events here.now.last (Some end) →
            IsDerived index.now.events self.old end →
            HasLastPlaces index.now.events followed self.old →
            IsSearch index.now.events places self.new
            × Extends index.now.events self.old self.new
            × HasLastPlaces index.now.events (followed ++ here.now.last ∷ []) self.new) }
    {
        let Op::Acquire(_) = event.op else {
            return Ok(());
        };
        let Some(lock) = index.begun(here.last) else {
            return Ok(());
        };
        let Some(last) = prefix_at(&self.locks, lock) else {
            return put_prefix(&mut self.locks, lock, here);
        };
        if here.last.get() < last.last.get() {
            return self.add_release(index, here, &last, end);
        }
        if last.last.get() < here.last.get() {
            let reason = Reason::Sections(last.last, here.last);
            self.require(index, index.release_of(last.last), &last, here, &reason)?;
        }
        put_prefix(&mut self.locks, lock, here)
    }

    /// Follows the last place of `here`, whose thread's fork is derived: derives all places that it
    /// requires. `end` is a derived place of its thread that is not before it.
    ///
    /// # Errors
    /// `NoMemory` if an allocation fails.
    fn follow(&mut self, index: &TraceIndex, here: &Prefix, end: Place) -> Result<(), NoMemory>
        ensures { OnOk result ((places followed : List ℕ) →
            IsSearch index.now.events places self.old →
            IsIn index.now.events places self.old here.now →
            IsUpTo index.now.events here.now.last (Some end) →
            IsDerived index.now.events self.old end →
            HasFork index.now.events self.old here.now.last →
            HasFollowed index.now.events followed self.old →
            AddsFollowed index.now.events places self.old
            (followed ++ here.now.last ∷ []) self.new) }
    {
        let Some(event) = index.event(here.last) else {
            return Ok(());
        };
        self.add_joined(index, here, event)?;
        self.add_writer(index, here, event)?;
        self.add_section(index, here, event, end)
    }

    /// Adds the places of a range from `next` back as a range at the end, if there is a next place.
    /// Its slice is twice as long, so a range has few slices.
    ///
    /// # Errors
    /// `NoMemory` if an allocation fails.
    fn postpone(&mut self, range: &Range, next: Option<Place>) -> Result<(), NoMemory>
        ensures locks { self.new.locks ≡ self.old.locks }
        ensures postponed { OnOk result ((s : Trace) (places : List ℕ) (n : ℕ) → next ≡ Some n →
            IsSearch s places self.old →
            IsIn s places self.old (record { last = n; reason = range.now.prefix.reason }) →
            Postpones s places self.old range.now n self.new) }
        ensures none { OnOk result (next ≡ None → self.new ≡ self.old) }
    {
        let Some(place) = next else {
            return Ok(());
        };
        self.ranges.push(Range {
            prefix: Prefix {
                last: place,
                reason: range.prefix.reason,
            },
            after: range.after,
            slice: range.slice.saturating_mul(2),
        })?;
        Ok(())
    }

    /// Follows the last places of a range, from the last one back, and adds the others as a range
    /// at the end. Returns the index of a member as soon as its place is derived, or `None`.
    ///
    /// # Errors
    /// `NoMemory` if an allocation fails.
    fn walk(
        &mut self,
        index: &TraceIndex,
        range: &Range,
        places: &[Place],
    ) -> Result<Option<usize>, NoMemory>
        ensures { IfOk result (λ caught. (followed : List ℕ) →
            IsSearch index.now.events places.now self.old →
            IsIn index.now.events places.now self.old range.now.prefix →
            HasFollowed index.now.events followed self.old →
            MatchOption caught
            ((all : List ℕ) × AddsFollowed index.now.events places.now self.old all self.new
            × HasAlso index.now.events followed range.now self.old self.new all)
            (IsCaughtIn index.now.events places.now self.new)) }
    {
        let prefix = &range.prefix;
        let Some(event) = index.event(prefix.last) else {
            return Ok(None);
        };
        let before = self.ranges.len();
        let fork = fork_of(&mut self.forks, index, event.thread)?;
        self.require(index, fork, prefix, prefix, &Reason::ForkJoin(prefix.last))?;
        if let Some(member) = self.caught_since(index, places, before) {
            return Ok(Some(member));
        }
        let mut next = Some(prefix.last);
        for _count in 0..range.slice {
            let Some(place) = next else {
                return Ok(None);
            };
            if is_past(&range.after, place) {
                return Ok(None);
            }
            let here = Prefix {
                last: place,
                reason: prefix.reason,
            };
            let count = self.ranges.len();
            self.follow(index, &here, prefix.last)?;
            if let Some(member) = self.caught_since(index, places, count) {
                return Ok(Some(member));
            }
            next = index.thread_before(place);
        }
        self.postpone(range, next)?;
        Ok(None)
    }

    /// Derives the places before the place of a member, if there is one.
    ///
    /// # Errors
    /// `NoMemory` if an allocation fails.
    fn cover_before(&mut self, index: &TraceIndex, member: Option<Place>) -> Result<(), NoMemory>
        ensures locks { self.new.locks ≡ self.old.locks }
        ensures covered { OnOk result ((places : List ℕ) →
            IsSearch index.now.events places self.old →
            ((m : ℕ) → member ≡ Some m → Contains places m) →
            CoversAll index.now.events places self.old
            (IsBeforeSome index.now.events member) self.new) }
    {
        let Some(place) = member else {
            return Ok(());
        };
        self.cover(
            index,
            index.thread_before(place),
            &Reason::BeforeMember(place),
        )
    }

    /// Derives the places before the places of the members, first those before the greatest one:
    /// what they require is often past the place of another member.
    ///
    /// # Errors
    /// `NoMemory` if an allocation fails.
    fn begin(&mut self, index: &TraceIndex, places: &[Place]) -> Result<(), NoMemory>
        requires { IsSearch index.now.events places.now self.old }
        ensures locks { self.new.locks ≡ self.old.locks }
        ensures covered { OnOk result (CoversAll index.now.events places.now self.old
            (IsBefore index.now.events places.now) self.new) }
    {
        self.cover_before(index, greatest(places))?;
        for k in 0..places.len() {
            self.cover_before(index, Some(places[k]))?;
        }
        Ok(())
    }

    /// Returns the first member whose place is derived, or `None`.
    fn caught(&self, index: &TraceIndex, places: &[Place]) -> Option<usize>
        ensures { MatchOption result (IsCaughtNowhere index.now.events self.now places.now)
            (IsCaughtAt index.now.events self.now places.now) }
    {
        for k in 0..places.len() {
            if let Some(_) = self.prefix_of(index, places[k]) {
                return Some(k);
            }
        }
        None
    }

    /// Returns the first member whose place is derived, or `None` if none is or if there are no
    /// more than `count` ranges.
    fn caught_since(&self, index: &TraceIndex, places: &[Place], count: usize) -> Option<usize>
        ensures { IfSome result (IsCaughtAt index.now.events self.now places.now) }
    {
        if self.ranges.len() > count {
            self.caught(index, places)
        } else {
            None
        }
    }

    /// Adds an entry for a derived place.
    ///
    /// # Errors
    /// `NoMemory` if an allocation fails.
    pub(crate) fn add_entry(&mut self, index: &TraceIndex, place: Place) -> Result<(), NoMemory>
        ensures { OnOk result ((places : List ℕ) → IsSearch index.now.events places self.old →
            IsDerived index.now.events self.old place →
            AddsEntry index.now.events places self.old place self.new) }
    {
        match self.prefix_of(index, place) {
            Some(prefix) => self.add(place, &prefix.reason),
            None => Ok(()),
        }
    }

    /// Searches anew until the place of a member is derived, and returns the index of that member.
    /// Returns `None` if none is; then some reordering reaches the places.
    ///
    /// # Errors
    /// `NoMemory` if an allocation fails.
    pub(crate) fn run(
        &mut self,
        index: &TraceIndex,
        places: &[Place],
    ) -> Result<Option<usize>, NoMemory>
        ensures search { OnOk result (IsSearch index.now.events places.now self.new) }
        ensures caught { IfOk result (λ caught. MatchOption caught
            (AreReached index.now.events places.now)
            (IsCaughtAt index.now.events self.new places.now)) }
    {
        let _len = index.len(); // for the proof
        self.clear();
        self.indices.reserve()?;
        self.begin(index, places)?;
        for k in 0..usize::MAX {
            if let Some(member) = self.caught(index, places) {
                return Ok(Some(member));
            }
            if k >= self.ranges.len() {
                return Ok(None);
            }
            let range = self.ranges[k];
            if let Some(member) = self.walk(index, &range, places)? {
                return Ok(Some(member));
            }
        }
        Ok(None)
    }
}
