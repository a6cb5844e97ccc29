//! An index of a trace: writers of reads, releases of acquires, forks, and the places of a thread
//! or of a lock.
//!
//! [`TraceIndex`] grows with the trace: `reserve` allocates for the next event, `record` adds it
//! without allocating, and `share` returns the index of a prefix and copies at most one segment.
//! Its contract: each look-up returns what the definition of the same name in `trace_model` says of
//! the events. The events are rows in shared segments, and the rows of one key (a thread, a forked
//! thread, a lock or a variable) are a linked list. Start reading at [`TraceIndex`].
#![tactic(auto)]

mod depths;
mod facts;
mod growing;
mod key_cache;
mod key_filter;
mod key_list;
mod key_places;
mod last_places;
mod places;
mod releases;
mod row;
mod segment_tables;
mod share;

ghost use Rattle.std.specs.Prelude.{◌≡◌, ℕ, ◌<◌, ◌≤◌, ◌↔◌, ◌++◌, ◌∷◌, [], length, take, slice_get, Some, IfOk, OnOk};
ghost use Rattle.trace_model.specs.declared.limits.TheConstants.{MAX_EVENTS};
ghost use Rattle.trace_model.specs.declared.traces.event.Op.TheVariants.{Fork};
ghost use Rattle.trace_model.specs.Theory.Trace.{Does};
ghost use Rattle.trace_model.specs.Theory.Held.{begins_on, begun_lock};
ghost use Rattle.trace_model.specs.Theory.Closure.{ascending_places};
ghost use Rattle.trace_model.specs.Theory.Lawful.{IsWellFormed};
ghost use Rattle.trace_model.specs.Theory.Lookups.{writer, release};
ghost use Rattle.trace_index.specs.Numbers.{of_thread, number_at, thread_before, acquire_before};
ghost use Rattle.trace_index.specs.Links.{matches, written_by, begun_at_depth, taken_before};

pub use facts::PlaceFacts;
use growing::IndexParts;
use key_list::KeyList;
pub use key_places::KeyPlaces;
use last_places::LastPlaces;
use number_map::PositionCache;
use row::{IndexRow, Key, Ready, index_of, place_of};
use segment_tables::{SegmentTables, last_in_segments, release_in_segments};
use segments::Segments;
pub use segments::Steps;
use std::alloc::Global;
use std::collections::hash_map::RandomState;
use std::marker::{Brand, Model};
use std::sync::ledger::{Blank, Ledger};
use trace_model::{Event, NoMemory, Op, Place};

/// Returns the writer in a row: that of a read.
fn writer_in(row: &IndexRow) -> Option<Place>
    ensures { result ≡ written_by row.now.event.op row.now.object }
{
    if let Op::Read(_) = row.event.op {
        place_of(row.object)
    } else {
        None
    }
}

/// Returns the lock on which a critical section begins at a row: that of an outermost acquire.
fn begun_in(row: &IndexRow) -> Option<u32>
    ensures { result ≡ begun_at_depth row.now.event.op row.now.depth }
{
    match row.event.op {
        Op::Acquire(lock) => { if row.depth == 0 { Some(lock) } else { None } }
        _ => None,
    }
}

/// Returns the previous outermost acquire of the lock in a row: that of an outermost acquire.
fn taken_in(row: &IndexRow) -> Option<Place>
    ensures { result ≡ taken_before row.now.event.op row.now.depth row.now.object }
{
    match begun_in(row) {
        Some(_) => place_of(row.object),
        None => None,
    }
}

/// An index of a well-formed trace, which grows by `reserve` and `record`. Look-ups do not
/// allocate. For a place that is not in the trace they return `None` or an empty list. Indices may
/// share full segments.
///
/// Contracts see the events, and the reserved event.
#[derive(Drop)]
pub struct TraceIndex {
    parts: IndexParts,
    next: Option<Ready>,
}

impl Model for TraceIndex {
    ghost use Rattle.std.specs.Option.{option_map};
    ghost use Rattle.trace_index.specs.Links.{trace_of};
    ghost use Rattle.trace_index.specs.Room.{IndexView, IsWhole};

    ghost Value = { IndexView };

    ghost view = { λ i. record {
      events = trace_of i.parts.rows.0;
      reserved = option_map (λ ready. ready.row.event) i.next;
    } };

    ghost invariant = { λ i. IsWhole i.parts i.next };
}

impl TraceIndex {
    /// Returns the index of `events`, which must be a well-formed trace. `state` is the hash state
    /// of the tables. Part of the public API; not called by the program, which uses `extend`.
    ///
    /// # Errors
    ///
    /// `NoMemory` if an allocation fails.
    pub fn build(
        alloc: Global,
        state: RandomState,
        events: &[Event],
    ) -> Result<TraceIndex, NoMemory>
        requires { IsWellFormed events.now }
        ensures { IfOk result (λ index. index.events ≡ events.now) }
    {
        let mut index = TraceIndex::new(alloc, state);
        index.extend(events)?;
        Ok(index)
    }

    /// Adds events, each of which must be lawful after the events before it. An event that is
    /// reserved is reserved no longer.
    ///
    /// # Errors
    ///
    /// `NoMemory` if an allocation fails. Some of the events may have been added.
    pub fn extend(&mut self, events: &[Event]) -> Result<(), NoMemory>
        requires { IsWellFormed (self.old.events ++ events.now) }
        ensures { OnOk result (self.new.events ≡ self.old.events ++ events.now) }
    {
        self.extend_counted::<Brand>(events, Blank::new(1))
    }

    /// Adds events as `extend` does, and counts them.
    fn extend_counted<L: Ledger>(&mut self, events: &[Event], blank: Blank) -> Result<(), NoMemory>
        requires lawful { IsWellFormed (self.old.events ++ events.now) }
        requires name { blank.name ≡ L.name }
        requires parts { blank.parts ≡ L.parts }
        requires some { 0 < L.parts }
        ensures { OnOk result (self.new.events ≡ self.old.events ++ events.now) }
    {
        let mut copies = Steps::<L>::new(blank);
        self.next = None;
        self.parts.extend(events, &mut copies)
    }

    /// Returns the number of events, at most `MAX_EVENTS`.
    pub fn len(&self) -> usize
        ensures length { result ≡ length self.now.events }
        ensures well_formed { IsWellFormed self.now.events }
        ensures short { length self.now.events ≤ MAX_EVENTS }
    {
        self.parts.rows.len()
    }

    /// Returns the event at `place`, or `None` if the trace has no such place.
    #[inline(always)]
    pub fn event(&self, place: Place) -> Option<Event>
        ensures { result ≡ slice_get self.now.events place }
    {
        match self.parts.rows.get(place.get() as usize) {
            Some(row) => Some(row.event),
            None => None,
        }
    }

    /// Returns the writer of the read at `place`: the last write to its variable before it. Returns
    /// `None` if there is none, or if the event is not a read.
    #[inline(always)]
    pub fn writer(&self, place: Place) -> Option<Place>
        ensures { result ≡ writer self.now.events place }
    {
        match self.parts.rows.get(place.get() as usize) {
            Some(row) => writer_in(&row),
            None => None,
        }
    }

    /// Returns the number of earlier events of the same thread, which is the index of `place` in
    /// `thread_places`.
    #[inline(always)]
    pub fn number(&self, place: Place) -> Option<u32>
        ensures { result ≡ number_at self.now.events place }
    {
        match self.parts.rows.get(place.get() as usize) {
            Some(row) => Some(row.number),
            None => None,
        }
    }

    /// Returns the previous place of the same thread, or `None`.
    #[inline(always)]
    pub fn thread_before(&self, place: Place) -> Option<Place>
        ensures { result ≡ thread_before self.now.events place }
    {
        match self.parts.rows.get(place.get() as usize) {
            Some(row) => place_of(row.thread),
            None => None,
        }
    }

    /// Returns the lock on which a critical section begins at `place`, or `None` unless the event
    /// is an outermost acquire.
    #[inline(always)]
    pub fn begun(&self, place: Place) -> Option<u32>
        ensures { result ≡ begun_lock self.now.events place }
    {
        match self.parts.rows.get(place.get() as usize) {
            Some(row) => begun_in(&row),
            None => None,
        }
    }

    /// Returns the previous outermost acquire of the same lock. Returns `None` if there is none, or
    /// if the event is not an outermost acquire.
    #[inline(always)]
    pub fn acquire_before(&self, place: Place) -> Option<Place>
        ensures { result ≡ acquire_before self.now.events place }
    {
        match self.parts.rows.get(place.get() as usize) {
            Some(row) => taken_in(&row),
            None => None,
        }
    }

    /// Returns the release that ends the critical section that begins at `place`: the next
    /// outermost release of the lock by the same thread. Returns `None` if there is none, or if the
    /// event is not an outermost acquire.
    #[inline(always)]
    pub fn release_of(&self, place: Place) -> Option<Place>
        ensures { result ≡ release self.now.events place }
    {
        let Some(row) = self.parts.rows.get(place.get() as usize) else {
            return None;
        };
        match begun_in(&row) {
            Some(_) => release_in_segments(
                &self.parts.tables.sealed,
                &self.parts.tables.tail,
                place,
            ),
            None => None,
        }
    }

    /// Returns the place of the fork of `thread`, or `None` for thread 0 and for a thread that is
    /// not forked.
    pub fn fork_of(&self, thread: u32) -> Option<Place>
        ensures { (p : ℕ) → (result ≡ Some p) ↔ Does self.now.events p (Fork thread) }
    {
        last_in_segments(
            &self.parts.tables.sealed,
            &self.parts.tables.tail,
            Key::ForkOf(thread),
        )
    }

    /// Returns the places of a key, ascending.
    fn places_of(&self, key: Key) -> KeyPlaces<'_>
        ensures { result ≡ ascending_places (matches self.now.events key) (length self.now.events) }
    {
        let list = KeyList {
            rows: &self.parts.rows,
            key,
        };
        let last = index_of(last_in_segments(
            &self.parts.tables.sealed,
            &self.parts.tables.tail,
            key,
        ));
        KeyPlaces { list, last }
    }

    /// Returns the places of `thread`, ascending.
    pub fn thread_places(&self, thread: u32) -> KeyPlaces<'_>
        ensures { result
            ≡ ascending_places (of_thread self.now.events thread) (length self.now.events) }
    {
        self.places_of(Key::OfThread(thread))
    }

    /// Returns the places of the outermost acquires of `lock` by any thread, ascending. Part of the
    /// public API; not called by the program.
    pub fn acquires(&self, lock: u32) -> KeyPlaces<'_>
        ensures { result ≡ ascending_places (begins_on self.now.events lock)
            (length self.now.events) }
    {
        self.places_of(Key::AcquireOf(lock))
    }
}
