//! Computes the timestamps of all places of the dependencies.

ghost use Rattle.std.specs.Prelude.{◌≡◌, ℕ, ◌<◌, ◌≤◌, length, IfOk, OnOk, OnErr, IfSome};
ghost use Rattle.std.specs.Option.{ForSome};
ghost use Rattle.dependencies.specs.Tables.{table_dependencies, NumbersWholeTrace};
ghost use Rattle.fronts.specs.Slots.{slots_of, AreThreadSlots, HasPlaces};
ghost use Rattle.fronts.specs.Overlays.{front_of};
ghost use Rattle.fronts.specs.Requirements.{AreRequirements};
ghost use Rattle.fronts.specs.declared.requirements.ThreadPrefix.{ThreadPrefix};
ghost use Rattle.sp_closure.specs.Timestamps.{AddsFronts, AddsTimeline, AreTimestamps, AreTimelines, HasPrefix, MayPut};
ghost use Rattle.sp_closure.specs.Scratches.{IsScratch, IsOnPrefix};
ghost use Rattle.sp_closure.specs.Filling.{IsFilling};

use crate::scratch::{ClosureScratch, MAX_BASES};
use crate::timelines::{Timeline, Timestamp, Timestamps};
use dependencies::DepTable;
use fronts::{Overlay, Requirements, SlotTable, Steps, ThreadPrefix, prefix_before};
use std::alloc::Global;
use std::sync::ledger::Ledger;
use trace_index::TraceIndex;
use trace_model::{NoMemory, Place};

/// The maximum number of entries of all clocks of a trace together.
const MAX_TIMESTAMP_ENTRIES: usize = 4_194_304;

/// The maximum number of places of a timeline, and of those before it.
const MAX_PLACES: usize = 2_147_483_647;

/// Returns the key of a place and its entry: keys are ordered by place.
fn key(place: Place, entry: u32) -> u64 {
    u64::from(place.get()) * 4_294_967_296 + u64::from(entry)
}

/// Returns the entry of a key.
fn entry_of(key: u64) -> usize {
    (key % 4_294_967_296) as usize
}

/// Adds an entry without a clock for each place of the dependency `number`, and its key to `order`.
/// Returns the timeline of these entries, or `None` if there are too many. Sets `places` to the
/// places.
///
/// # Errors
/// `NoMemory` if an allocation fails.
fn add_places(
    index: &TraceIndex,
    threads: &SlotTable,
    table: &DepTable,
    number: u32,
    places: &mut Vec<Place>,
    entries: &mut Vec<Timestamp>,
    order: &mut Vec<u64>,
) -> Result<Option<Timeline>, NoMemory>
    requires slots { AreThreadSlots index.now.events threads.now }
    requires one_trace { NumbersWholeTrace table.now index.now.events }
    requires known { number < length (table_dependencies table.now) }
    ensures { IfOk result (AddsTimeline index.now.events (slots_of threads.now) number
        entries.old.items entries.new.items) }
{
    let list = table.places(number);
    let count = list.len();
    list.copy_to(places)?;
    let first = entries.len();
    if first > MAX_PLACES || count > MAX_PLACES {
        return Ok(None);
    }
    for entry in 0..count {
        let place = places[entry];
        let prefix = prefix_before(index, threads, place);
        order.push(key(place, (first + entry) as u32))?;
        entries.push(Timestamp {
            prefix,
            clock: None,
        })?;
    }
    Ok(Some(Timeline {
        first: first as u32,
        count: count as u32,
    }))
}

/// Does the same if `wanted` says that the dependency is wanted. Else it returns `None`.
///
/// # Errors
/// `NoMemory` if an allocation fails.
fn add_wanted(
    index: &TraceIndex,
    threads: &SlotTable,
    table: &DepTable,
    wanted: &[bool],
    number: u32,
    places: &mut Vec<Place>,
    entries: &mut Vec<Timestamp>,
    order: &mut Vec<u64>,
) -> Result<Option<Timeline>, NoMemory>
    requires slots { AreThreadSlots index.now.events threads.now }
    requires one_trace { NumbersWholeTrace table.now index.now.events }
    requires known { number < length (table_dependencies table.now) }
    ensures { IfOk result (AddsTimeline index.now.events (slots_of threads.now) number
        entries.old.items entries.new.items) }
{
    match wanted.get(number as usize) {
        Some(true) => add_places(index, threads, table, number, places, entries, order),
        _ => Ok(None),
    }
}

/// Returns the timelines of the wanted dependencies, without clocks. Sets `order` to the keys of
/// their entries, by place: clocks are computed in this order, so that each one extends an earlier
/// one. The results do not depend on the order.
///
/// # Errors
/// `NoMemory` if an allocation fails.
fn timelines_of(
    alloc: Global,
    index: &TraceIndex,
    threads: &SlotTable,
    table: &DepTable,
    wanted: &[bool],
    order: &mut Vec<u64>,
) -> Result<Timestamps, NoMemory>
    requires slots { AreThreadSlots index.now.events threads.now }
    requires one_trace { NumbersWholeTrace table.now index.now.events }
    ensures { IfOk result (AreTimelines index.now.events (slots_of threads.now)) }
{
    let mut places = Vec::new(alloc);
    let mut entries = Vec::new(alloc);
    let mut timelines = Vec::with_capacity(alloc, table.len())?;
    for number in 0..table.len() {
        let number = number as u32;
        let timeline = add_wanted(
            index,
            threads,
            table,
            wanted,
            number,
            &mut places,
            &mut entries,
            order,
        )?;
        timelines.push_reserved(timeline);
    }
    // It merges the runs, one for each dependency.
    order.sort()?;
    Ok(Timestamps {
        threads: threads.count,
        timelines,
        entries,
        fronts: Vec::new(alloc),
    })
}

/// Adds the fronts of the overlay, by slot.
///
/// # Errors
/// `NoMemory` if an allocation fails. `fronts` does not change.
fn add_fronts(
    none: &Overlay,
    overlay: &Overlay,
    count: u32,
    fronts: &mut Vec<u32>,
) -> Result<(), NoMemory>
    ensures ok { OnOk result
        (AddsFronts fronts.old.items (front_of none.now overlay.now) count fronts.new.items) }
    ensures err { OnErr result (fronts.new.items ≡ fronts.old.items) }
{
    fronts.reserve(count as usize)?;
    for slot in 0..count {
        fronts.push_reserved(overlay.front(none, slot).count());
    }
    Ok(())
}

impl Timestamps {
    /// Returns the prefix before the place of the entry, if there is one and there is room for its
    /// clock.
    fn prefix(&self, entry: usize) -> Option<ThreadPrefix>
        ensures { IfSome result (HasPrefix self.now entry) }
    {
        let room = MAX_TIMESTAMP_ENTRIES.checked_sub(self.threads as usize)?;
        if self.fronts.len() > room {
            return None;
        }
        match self.entries.get(entry) {
            Some(timestamp) => Some(timestamp.prefix),
            None => None,
        }
    }

    /// Sets the clock of the entry to the fronts of the overlay.
    ///
    /// # Errors
    /// `NoMemory` if an allocation fails. No entry changes.
    fn put(&mut self, entry: usize, none: &Overlay, overlay: &Overlay) -> Result<(), NoMemory>
        requires { (prefix : ThreadPrefix) × HasPrefix self.old entry prefix }
        ensures { MayPut self.old entry (front_of none.now overlay.now) self.new }
    {
        let clock = self.fronts.len() as u32;
        add_fronts(none, overlay, self.threads, &mut self.fronts)?;
        self.entries[entry].clock = Some(clock);
        Ok(())
    }
}

/// Returns whether the timestamps of these dependencies are cheap to compute and small: the trace
/// has no more threads than bases, and the first places of all dependencies need at most
/// `MAX_TIMESTAMP_ENTRIES` entries.
fn are_small(requirements: &Requirements, table: &DepTable) -> bool {
    let threads = requirements.threads.count as usize;
    threads <= MAX_BASES + 1 && table.len() <= MAX_TIMESTAMP_ENTRIES / (MAX_BASES + 1)
}

impl ClosureScratch {
    /// Makes the present base the closure of the prefix, kept for its thread.
    ///
    /// # Errors
    /// `NoMemory` if an allocation fails.
    fn close_prefix<L: Ledger>(
        &mut self,
        index: &TraceIndex,
        requirements: &Requirements,
        prefix: ThreadPrefix,
        steps: &mut Steps<L>,
    ) -> Result<(), NoMemory>
        requires scratch { IsScratch index.now.events requirements.now self.old }
        requires reach { HasPlaces index.now.events
            (slots_of requirements.now.threads) prefix }
        ensures scratch { IsScratch index.now.events requirements.now self.new }
        ensures base { OnOk result (IsOnPrefix index.now.events requirements.now self.new prefix) }
    {
        self.turn_to(index, requirements, prefix.slot)?;
        self.base_on(index, requirements, prefix, steps)
    }

    /// Computes the clock of an entry, if there is room for it.
    ///
    /// # Errors
    /// `NoMemory` if an allocation fails.
    fn fill<L: Ledger>(
        &mut self,
        index: &TraceIndex,
        requirements: &Requirements,
        timestamps: &mut Timestamps,
        entry: usize,
        steps: &mut Steps<L>,
    ) -> Result<(), NoMemory>
        requires { IsFilling index.now.events requirements.now self.old timestamps.old }
        ensures { IsFilling index.now.events requirements.now self.new timestamps.new }
    {
        let Some(prefix) = timestamps.prefix(entry) else {
            return Ok(());
        };
        self.close_prefix(index, requirements, prefix, steps)?;
        timestamps.put(entry, &self.none, &self.base.overlay)
    }

    /// Computes the clocks of the entries in this order, as far as there is room.
    ///
    /// # Errors
    /// `NoMemory` if an allocation fails.
    fn fill_all<L: Ledger>(
        &mut self,
        index: &TraceIndex,
        requirements: &Requirements,
        timestamps: &mut Timestamps,
        order: &[u64],
        steps: &mut Steps<L>,
    ) -> Result<(), NoMemory>
        requires { IsFilling index.now.events requirements.now self.old timestamps.old }
        ensures { IsFilling index.now.events requirements.now self.new timestamps.new }
    {
        for key in order {
            self.fill(index, requirements, timestamps, entry_of(*key), steps)?;
        }
        Ok(())
    }

    /// Computes the timestamps of the places of the wanted dependencies, up to
    /// `MAX_TIMESTAMP_ENTRIES` entries.
    ///
    /// # Errors
    /// `NoMemory` if an allocation fails.
    fn timestamps<L: Ledger>(
        &mut self,
        index: &TraceIndex,
        requirements: &Requirements,
        table: &DepTable,
        wanted: &[bool],
        steps: &mut Steps<L>,
    ) -> Result<Timestamps, NoMemory>
        requires scratch { IsScratch index.now.events requirements.now self.old }
        requires one_trace { NumbersWholeTrace table.now index.now.events }
        ensures { IfOk result (AreTimestamps index.now.events) }
    {
        let mut order = Vec::new(self.alloc);
        let threads = &requirements.threads;
        let mut timestamps = timelines_of(self.alloc, index, threads, table, wanted, &mut order)?;
        self.fill_all(
            index,
            requirements,
            &mut timestamps,
            order.as_slice(),
            steps,
        )?;
        Ok(timestamps)
    }
}

impl Timestamps {
    /// Computes the timestamps of the places of those dependencies whose entry of `wanted` is
    /// `true`: for each place one number for each thread. Returns `None` if they are costly: the
    /// trace has more than 64 threads, or more than 65,536 dependencies. Else it takes at most the
    /// time of one closure of the whole trace for each thread, and keeps at most 4,194,304 numbers.
    ///
    /// The caller passes the requirements of the index's trace, and the table of its dependencies.
    ///
    /// # Errors
    /// `NoMemory` if an allocation fails.
    pub fn new<L: Ledger>(
        alloc: Global,
        index: &TraceIndex,
        requirements: &Requirements,
        table: &DepTable,
        wanted: &[bool],
        steps: &mut Steps<L>,
    ) -> Result<Option<Timestamps>, NoMemory>
        requires requirements { AreRequirements index.now.events requirements.now }
        requires one_trace { NumbersWholeTrace table.now index.now.events }
        ensures { IfOk result (λ made. ForSome made (AreTimestamps index.now.events)) }
    {
        if !are_small(requirements, table) {
            return Ok(None);
        }
        let mut scratch = ClosureScratch::new(alloc, requirements)?;
        let timestamps = scratch.timestamps(index, requirements, table, wanted, steps)?;
        Ok(Some(timestamps))
    }
}
