//! Timestamps of the places of each dependency, by which cycles are excluded.
//!
//! The timestamp of a place is a vector clock (PLDI 2023): for each thread, how many of its places
//! are in the closure of the places before this one in its thread. If a place is in the closure of
//! another member's place, no reordering stops at both.

ghost use Rattle.std.specs.Prelude.{◌≡◌, ℕ, ◌⊎◌, ◌<◌, ◌≤◌, IsTrue, length, Option, Some, MatchOption, IfSome};
ghost use Rattle.trace_model.specs.Theory.Trace.{Trace};
ghost use Rattle.trace_model.specs.Theory.Cycles.{IsConfirmed};
ghost use Rattle.dependencies.specs.Tables.{AreDependencyNumbers};
ghost use Rattle.fronts.specs.Members.{Each};
ghost use Rattle.sp_closure.specs.declared.timelines.Timestamp.{Timestamp};
ghost use Rattle.sp_closure.specs.Timestamps.{AreTimestamps, AllFrom, AllHold, ClockCounts, HasNoEntryFrom, HasEntry, HasEntryAt, HasTimeline, Moves, StayFrom};

use fronts::ThreadPrefix;
use trace_model::MAX_MEMBERS;

/// A place of a dependency: the places before it in its thread, and the index at which its vector
/// clock begins, if that was computed.
#[derive(Clone, Copy)]
pub(crate) struct Timestamp {
    pub(crate) prefix: ThreadPrefix,
    pub(crate) clock: Option<u32>,
}

/// The places of a dependency in order: the index of the first one's entry, and their number. All
/// are of one thread.
#[derive(Clone, Copy)]
pub(crate) struct Timeline {
    pub(crate) first: u32,
    pub(crate) count: u32,
}

/// The timelines of the wanted dependencies, by number. All entries are in one list, and all vector
/// clocks in another one: for each clock one number for each thread.
pub struct Timestamps {
    pub(crate) threads: u32,
    pub(crate) timelines: Vec<Option<Timeline>>,
    pub(crate) entries: Vec<Timestamp>,
    pub(crate) fronts: Vec<u32>,
}

impl Drop for Timestamps {
    fn drop(self) {
        let Timestamps {
            threads: _,
            timelines: _,
            entries: _,
            fronts: _,
        } = self;
    }
}

/// A member of a cycle: its dependency, and the index of the first place at which a reordering may
/// stop.
#[derive(Clone, Copy)]
pub(crate) struct Pointer {
    pub(crate) number: u32,
    pub(crate) entry: usize,
}

/// The timestamp of an unknown place.
const UNKNOWN: Timestamp = Timestamp {
    prefix: ThreadPrefix { slot: 0, count: 0 },
    clock: None,
};

/// The maximum number of rounds in which all members of a cycle are advanced.
const MAX_ROUNDS: usize = 4096;

impl Timestamps {
    /// Returns the timeline of the dependency, or `None` if it is unknown.
    fn timeline(&self, number: u32) -> Option<Timeline>
        ensures { IfSome result (HasTimeline self.now number) }
    {
        match self.timelines.get(number as usize) {
            Some(timeline) => *timeline,
            None => None,
        }
    }

    /// Returns entry `entry` of the timeline, or `None` if it has no more entries.
    fn entry_of(&self, timeline: Timeline, entry: usize) -> Option<Timestamp>
        ensures { MatchOption result (HasNoEntryFrom self.now.entries.items timeline entry)
            (HasEntry self.now.entries.items timeline entry) }
    {
        if entry >= timeline.count as usize {
            return None;
        }
        match self.entries.get(timeline.first as usize + entry) {
            Some(timestamp) => Some(*timestamp),
            None => None,
        }
    }

    /// Returns the timestamp of the place at `at`, or `None` if it is unknown.
    fn entry(&self, at: Pointer) -> Option<Timestamp>
        ensures { IfSome result (HasEntryAt self.now at) }
    {
        match self.timeline(at.number) {
            Some(timeline) => self.entry_of(timeline, at.entry),
            None => None,
        }
    }

    /// Returns the first index from `entry` on whose place has at least `count` places of its
    /// thread before it, or `None` if there is none.
    fn next(&self, timeline: Timeline, entry: usize, count: u32) -> Option<usize>
        ensures { (k : ℕ) (x : Timestamp) →
            HasEntry self.now.entries.items timeline k x → entry ≤ k →
            count ≤ x.prefix.count → MatchOption result ⊥ (λ e. e ≤ k) }
    {
        for next in entry..timeline.count as usize {
            let Some(timestamp) = self.entry_of(timeline, next) else {
                return None;
            };
            if count <= timestamp.prefix.count {
                return Some(next);
            }
        }
        None
    }

    /// Returns the number of places of the slot's thread in the clock of the timestamp, or 0 if it
    /// is unknown.
    fn count_of(&self, timestamp: Timestamp, slot: u32) -> u32
        ensures { (result ≡ 0) ⊎
            ClockCounts self.now.threads self.now.fronts.items timestamp slot result }
    {
        let Some(clock) = timestamp.clock else {
            return 0;
        };
        if slot >= self.threads {
            return 0;
        }
        match self.fronts.get(clock as usize + slot as usize) {
            Some(front) => *front,
            None => 0,
        }
    }

    /// Returns the index of the first place of `of` that is not in the clock of `by`, or `None` if
    /// there is none.
    fn moved(&self, by: Timestamp, of: Pointer) -> Option<usize>
        ensures { Moves self.now by of result }
    {
        let Some(timeline) = self.timeline(of.number) else {
            return Some(of.entry);
        };
        let Some(timestamp) = self.entry_of(timeline, of.entry) else {
            return Some(of.entry);
        };
        let count = self.count_of(by, timestamp.prefix.slot);
        self.next(timeline, of.entry, count)
    }

    /// Advances member `j` past the clock of `by`. Returns whether it advanced, or `None` if it has
    /// no further place.
    fn advance(
        &self,
        numbers: &[u32],
        entries: &mut [usize],
        by: Timestamp,
        j: usize,
    ) -> Option<bool>
        requires of { (j < length numbers.now) × (j < length entries.old) }
        requires from { AllFrom self.now numbers.now entries.old }
        requires held { AllHold self.now numbers.now by }
        ensures length { length entries.new ≡ length entries.old }
        ensures from { StayFrom self.now numbers.now entries.new result }
    {
        let of = Pointer {
            number: numbers[j],
            entry: entries[j],
        };
        let entry = self.moved(by, of)?;
        entries[j] = entry;
        Some(entry != of.entry)
    }

    /// Sets the timestamp of member `j` to the one of its entry, if that is known.
    fn stamp(&self, numbers: &[u32], entries: &[usize], stamps: &mut [Timestamp], j: usize)
        requires of { (j < length numbers.now) × (j < length entries.now) }
        requires room { j < length stamps.old }
        requires from { AllFrom self.now numbers.now entries.now }
        requires held { Each (AllHold self.now numbers.now) stamps.old }
        ensures length { length stamps.new ≡ length stamps.old }
        ensures held { Each (AllHold self.now numbers.now) stamps.new }
    {
        let at = Pointer {
            number: numbers[j],
            entry: entries[j],
        };
        if let Some(timestamp) = self.entry(at) {
            stamps[j] = timestamp;
        }
    }

    /// Sets the timestamps of all members to those of their entries, as far as they are known.
    fn stamp_all(&self, numbers: &[u32], entries: &[usize], stamps: &mut [Timestamp])
        requires members { length numbers.now ≤ length entries.now }
        requires room { length numbers.now ≤ length stamps.old }
        requires from { AllFrom self.now numbers.now entries.now }
        requires held { Each (AllHold self.now numbers.now) stamps.old }
        ensures length { length stamps.new ≡ length stamps.old }
        ensures held { Each (AllHold self.now numbers.now) stamps.new }
    {
        for j in 0..numbers.len() {
            self.stamp(numbers, entries, stamps, j);
        }
    }

    /// Advances member `j` past the clock of `by`, if that counts its place. Returns whether it
    /// advanced, or `None` if it has no further place.
    fn move_one(
        &self,
        numbers: &[u32],
        entries: &mut [usize],
        stamps: &mut [Timestamp],
        by: Timestamp,
        j: usize,
    ) -> Option<bool>
        requires of { (j < length numbers.now) × (j < length entries.old) }
        requires room { j < length stamps.old }
        requires from { AllFrom self.now numbers.now entries.old }
        requires by { AllHold self.now numbers.now by }
        requires held { Each (AllHold self.now numbers.now) stamps.old }
        ensures length { (length entries.new ≡ length entries.old)
            × (length stamps.new ≡ length stamps.old) }
        ensures from { StayFrom self.now numbers.now entries.new result }
        ensures held { Each (AllHold self.now numbers.now) stamps.new }
    {
        let prefix = stamps[j].prefix;
        if self.count_of(by, prefix.slot) <= prefix.count {
            return Some(false);
        }
        let went = self.advance(numbers, entries, by, j)?;
        self.stamp(numbers, entries, stamps, j);
        Some(went)
    }

    /// Advances each member past the clock of `by`. Returns whether one advanced, or `None` if one
    /// has no further place.
    fn move_past(
        &self,
        numbers: &[u32],
        entries: &mut [usize],
        stamps: &mut [Timestamp],
        by: Timestamp,
    ) -> Option<bool>
        requires members { length numbers.now ≤ length entries.old }
        requires room { length numbers.now ≤ length stamps.old }
        requires from { AllFrom self.now numbers.now entries.old }
        requires by { AllHold self.now numbers.now by }
        requires held { Each (AllHold self.now numbers.now) stamps.old }
        ensures length { (length entries.new ≡ length entries.old)
            × (length stamps.new ≡ length stamps.old) }
        ensures from { StayFrom self.now numbers.now entries.new result }
        ensures held { Each (AllHold self.now numbers.now) stamps.new }
    {
        let mut went = false;
        for j in 0..numbers.len() {
            if self.move_one(numbers, entries, stamps, by, j)? {
                went = true;
            }
        }
        Some(went)
    }

    /// Advances each member past the timestamp of each other member. Returns whether one advanced,
    /// or `None` if one has no further place.
    fn move_all(
        &self,
        numbers: &[u32],
        entries: &mut [usize],
        stamps: &mut [Timestamp],
    ) -> Option<bool>
        requires members { length numbers.now ≤ length entries.old }
        requires room { length numbers.now ≤ length stamps.old }
        requires from { AllFrom self.now numbers.now entries.old }
        requires held { Each (AllHold self.now numbers.now) stamps.old }
        ensures length { (length entries.new ≡ length entries.old)
            × (length stamps.new ≡ length stamps.old) }
        ensures from { StayFrom self.now numbers.now entries.new result }
        ensures held { Each (AllHold self.now numbers.now) stamps.new }
    {
        let mut went = false;
        for i in 0..numbers.len() {
            let by = stamps[i];
            if self.move_past(numbers, entries, stamps, by)? {
                went = true;
            }
        }
        Some(went)
    }

    /// Returns `true` only if no reordering reaches an instance of the cycle of these dependencies.
    /// It advances each member past the places that are in the timestamp of another member, until a
    /// member has no place left. `false` says nothing. Does not allocate.
    pub fn excludes(&self, numbers: &[u32]) -> bool
        ensures { IsTrue result → (s : Trace) → AreTimestamps s self.now →
            AreDependencyNumbers s numbers.now →
            IsConfirmed s numbers.now → ⊥ }
    {
        let mut entries = [0; MAX_MEMBERS];
        let mut stamps = [UNKNOWN; MAX_MEMBERS];
        if numbers.len() > MAX_MEMBERS {
            return false;
        }
        self.stamp_all(numbers, &entries, &mut stamps);
        for _round in 0..MAX_ROUNDS {
            match self.move_all(numbers, &mut entries, &mut stamps) {
                None => return true,
                Some(false) => return false,
                Some(true) => {}
            }
        }
        false
    }
}
