//! The tables of segments: last places of keys, and releases.

ghost use Rattle.std.specs.Prelude.{◌≡◌, ◌≤◌, ◌<◌, ◌+◌, ◌-◌, ◌*◌, ◌/◌, ℕ, length, vec_len, vec_capacity, None, Some, false, true, OnOk, IfSome, if◌then◌else◌};
ghost use Rattle.std.specs.HashMap.{get};
ghost use Rattle.trace_model.specs.Theory.Trace.{Trace, last_place};
ghost use Rattle.trace_index.specs.declared.row.Key.{Key as KeyValue};
ghost use Rattle.trace_index.specs.Links.{same_key, touches, matches, ends_acquire, ends_at};
ghost use Rattle.trace_index.specs.Releases.{release_in};
ghost use Rattle.trace_index.specs.SegmentTables.{AreAllTables, HasPlaceRoom, HasRoomAhead, IsSame};
ghost use Rattle.trace_index.specs.Positions.{AreKeyPositions};

use crate::growing::ended;
use crate::places::{Places, Positions, last, record, reserve};
use crate::releases::Releases;
use crate::row::{IndexRow, Key};
use number_map::PositionCache;
use segments::SEGMENT;
use std::alloc::{AllocError, Global};
use std::collections::hash_map::RandomState;
use std::mem;
use std::sync::Arc;
use trace_model::{NoMemory, Place};

/// For how many places memory is reserved at once.
const PLACES_AHEAD: usize = 16;

/// The tables of a segment: the last place of each key, and the releases by acquire. Memory is
/// reserved for `room` more places.
#[derive(Drop)]
pub(crate) struct SegmentTable {
    pub(crate) last: Places,
    pub(crate) releases: Releases,
    pub(crate) room: usize,
}

/// The tables of the sealed segments, and of the open one.
#[derive(Drop)]
pub(crate) struct SegmentTables {
    pub(crate) sealed: Vec<Arc<SegmentTable>>,
    pub(crate) tail: SegmentTable,
}

impl SegmentTable {
    /// Returns the empty tables of a segment that begins at place `first`.
    pub(crate) fn new(alloc: Global, state: RandomState, first: usize) -> SegmentTable
        ensures last { (q : KeyValue) → get same_key result.last q ≡ None }
        ensures releases { (a : ℕ) → release_in result.releases a ≡ None }
        ensures room { HasRoomAhead result }
    {
        SegmentTable {
            last: Places::new(alloc, state),
            releases: Releases::new(alloc, state, first),
            room: 0,
        }
    }

    /// Reserves memory for one more place, if none is reserved.
    #[inline(always)]
    pub(crate) fn reserve(&mut self) -> Result<(), NoMemory>
        requires { HasRoomAhead self.old }
        ensures same { IsSame self.new self.old }
        ensures room { HasRoomAhead self.new }
        ensures ok { OnOk result (HasPlaceRoom self.new) }
    {
        if self.room > 0 {
            return Ok(());
        }
        self.reserve_ahead()
    }

    /// Reserves memory for the next places.
    #[inline(never)]
    fn reserve_ahead(&mut self) -> Result<(), NoMemory>
        requires { self.old.room ≡ 0 }
        ensures same { IsSame self.new self.old }
        ensures room { HasRoomAhead self.new }
        ensures ok { OnOk result (HasPlaceRoom self.new) }
    {
        reserve(&mut self.last, 2 * PLACES_AHEAD)?;
        self.releases.reserve(PLACES_AHEAD)?;
        self.room = PLACES_AHEAD;
        Ok(())
    }

    /// Records one more place, with this row and these positions of its keys. Caches the positions
    /// of new keys.
    #[inline(always)]
    pub(crate) fn record(
        &mut self,
        cache: &mut PositionCache,
        row: &IndexRow,
        positions: Positions,
        place: Place,
    )
        requires positions { AreKeyPositions self.old.last row.now.event positions }
        requires room { HasPlaceRoom self.old }
        requires small { place < 4294967295 }
        ensures last { (q : KeyValue) → get same_key self.new.last q ≡
            (if touches row.now.event row.now.depth q then Some place
            else get same_key self.old.last q) }
        ensures releases { (a : ℕ) → release_in self.new.releases a ≡
            (if ends_acquire row.now a then Some place else release_in self.old.releases a) }
        ensures ahead { HasRoomAhead self.new }
    {
        record(
            &mut self.last,
            cache,
            row.event,
            row.depth,
            positions,
            place,
        );
        self.releases.record(ended(row), place);
        self.room -= 1;
    }
}

/// Returns the last place of a key in all segments.
pub(crate) fn last_in_segments(
    sealed: &[Arc<SegmentTable>],
    tail: &SegmentTable,
    key: Key,
) -> Option<Place>
    ensures { (s : Trace) (n : ℕ) → AreAllTables s n sealed.now tail.now →
        result ≡ last_place (matches s key) n }
{
    if let Some(place) = last(&tail.last, key) {
        return Some(place);
    }
    let mut index = sealed.len();
    while index > 0 {
        index -= 1;
        if let Some(place) = last(&sealed[index].last, key) {
            return Some(place);
        }
    }
    None
}

/// Returns the release of an acquire. Searches from the segment of the acquire on.
pub(crate) fn release_in_segments(
    sealed: &[Arc<SegmentTable>],
    tail: &SegmentTable,
    acquire: Place,
) -> Option<Place>
    ensures some { IfSome result (λ r. (s : Trace) (n : ℕ) → AreAllTables s n sealed.now tail.now →
        ends_at s acquire r ≡ true) }
    ensures none { result ≡ None → (s : Trace) (n u : ℕ) → AreAllTables s n sealed.now tail.now →
        acquire ≤ u → u < n →
        ends_at s acquire u ≡ false }
{
    for index in acquire.get() as usize / SEGMENT..sealed.len() {
        if let Some(release) = sealed[index].releases.of(acquire) {
            return Some(release);
        }
    }
    tail.releases.of(acquire)
}

impl SegmentTables {
    /// Seals the open segment if it is full.
    #[inline(always)]
    fn seal(&mut self, alloc: Global, state: RandomState, len: usize) -> Result<(), NoMemory>
        requires begun { 4096 * length self.old.sealed.items ≤ len }
        requires few { len ≤ 4096 * length self.old.sealed.items + 4096 }
        requires room { HasRoomAhead self.old.tail }
        ensures same { (s : Trace) → AreAllTables s len self.old.sealed.items self.old.tail →
            AreAllTables s len self.new.sealed.items self.new.tail }
        ensures more { length self.old.sealed.items ≤ length self.new.sealed.items }
        ensures ahead { HasRoomAhead self.new.tail }
        ensures ok { OnOk result (len < 4096 * length self.new.sealed.items + 4096) }
    {
        if len - SEGMENT * self.sealed.len() >= SEGMENT {
            self.sealed.reserve(1)?;
            self.close(alloc, state, len)?;
        }
        Ok(())
    }

    /// Seals the open segment, which is full, and opens the next one. Memory for the sealed one
    /// must be reserved.
    #[inline(never)]
    fn close(&mut self, alloc: Global, state: RandomState, len: usize) -> Result<(), NoMemory>
        requires room { vec_len self.old.sealed < vec_capacity self.old.sealed }
        requires full { 4096 ≤ len - 4096 * length self.old.sealed.items }
        requires ahead { HasRoomAhead self.old.tail }
        ensures same { (s : Trace) → AreAllTables s len self.old.sealed.items self.old.tail →
            AreAllTables s len self.new.sealed.items self.new.tail }
        ensures more { length self.old.sealed.items ≤ length self.new.sealed.items }
        ensures ahead { HasRoomAhead self.new.tail }
        ensures ok { OnOk result
            (length self.new.sealed.items ≡ length self.old.sealed.items + 1) }
    {
        let next = SegmentTable::new(alloc, state, len);
        let full = mem::replace(&mut self.tail, next);
        match Arc::new(alloc, full) {
            Ok(table) => {
                self.sealed.push_reserved(table);
                Ok(())
            }
            Err(refused) => {
                self.tail = refused.value;
                Err(NoMemory::from(AllocError))
            }
        }
    }

    /// Reserves memory for one more place. Seals the open segment if it is full.
    #[inline(always)]
    pub(crate) fn reserve(
        &mut self,
        alloc: Global,
        state: RandomState,
        len: usize,
    ) -> Result<(), NoMemory>
        requires begun { 4096 * length self.old.sealed.items ≤ len }
        requires few { len ≤ 4096 * length self.old.sealed.items + 4096 }
        requires room { HasRoomAhead self.old.tail }
        ensures same { (s : Trace) → AreAllTables s len self.old.sealed.items self.old.tail →
            AreAllTables s len self.new.sealed.items self.new.tail }
        ensures more { length self.old.sealed.items ≤ length self.new.sealed.items }
        ensures ahead { HasRoomAhead self.new.tail }
        ensures fits { OnOk result (len < 4096 * length self.new.sealed.items + 4096) }
        ensures room { OnOk result (HasPlaceRoom self.new.tail) }
    {
        self.seal(alloc, state, len)?;
        self.tail.reserve()?;
        Ok(())
    }
}
