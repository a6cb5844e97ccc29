//! The linked list of a key: its places, each with a link to the one before it.

ghost use Rattle.std.specs.Prelude.{◌≡◌, ◌<◌, ◌≤◌, length, true};
ghost use Rattle.trace_model.specs.declared.limits.TheConstants.{MAX_EVENTS};
ghost use Rattle.trace_model.specs.Theory.Trace.{last_place};
ghost use Rattle.segments.specs.Linking.{count_below};
ghost use Rattle.trace_index.specs.Numbers.{of_thread, earlier_events};
ghost use Rattle.trace_index.specs.Links.{matches as has_place, link_of, IsIndexRow, AreIndexRows, AreLastOf, trace_of};
ghost use Rattle.trace_index.specs.Positions.{AreKeyPositions};

use crate::last_places::LastPlaces;
use crate::places::{Places, Positions, last_of};
use crate::row::{IndexRow, Key, index_of, link_to, object_key};
use segments::Segments;
use trace_model::Event;

/// Returns the index of the row to which a row is linked for a key.
fn link_in(row: &IndexRow, key: Key) -> Option<u32>
    ensures { result ≡ link_of key row.now }
{
    match key {
        Key::OfThread(_) => row.thread.get(),
        Key::ForkOf(_) => row.object.get(),
        Key::AcquireOf(_) => row.object.get(),
        Key::WriteOf(_) => row.object.get(),
    }
}

/// All rows, of which those at the places of one key are a linked list.
#[derive(Drop)]
pub(crate) struct KeyList<'a> {
    pub(crate) rows: &'a Segments<IndexRow>,
    pub(crate) key: Key,
    ghost linked: { AreIndexRows rows.now.0 },
}

impl<'a> KeyList<'a> {
    /// Returns the place of the key before `place`, which is one of the key.
    fn before(&self, place: u32) -> Option<u32>
        requires within { place < length self.now.rows.now.0 }
        requires passing { has_place (trace_of self.now.rows.now.0) self.now.key place ≡ true }
        ensures { result ≡
            last_place (has_place (trace_of self.now.rows.now.0) self.now.key) place }
    {
        let Some(row) = self.rows.get(place as usize) else {
            unreachable!()
        };
        link_in(&row, self.key)
    }

    /// Returns the number of places of the key. `last` is the last of them. Follows the links of
    /// all places, but takes one step for a thread.
    pub(crate) fn count(&self, last: Option<u32>) -> usize
        requires last { last ≡ last_place (has_place (trace_of self.now.rows.now.0) self.now.key)
            (length self.now.rows.now.0) }
        requires short { length self.now.rows.now.0 ≤ MAX_EVENTS }
        ensures { result ≡ count_below (has_place (trace_of self.now.rows.now.0) self.now.key)
            (length self.now.rows.now.0) }
    {
        match self.key {
            Key::OfThread(thread) => number_after(self.rows, thread, last) as usize,
            _ => self.count_by_links(last),
        }
    }

    /// Returns the number of places of the key. `last` is the last of them. Follows all links.
    fn count_by_links(&self, last: Option<u32>) -> usize
        requires last { last ≡ last_place (has_place (trace_of self.now.rows.now.0) self.now.key)
            (length self.now.rows.now.0) }
        requires short { length self.now.rows.now.0 ≤ MAX_EVENTS }
        ensures { result ≡ count_below (has_place (trace_of self.now.rows.now.0) self.now.key)
            (length self.now.rows.now.0) }
    {
        let mut count = 0;
        let mut next = last;
        while let Some(place) = next {
            next = self.before(place);
            count += 1;
        }
        count
    }

    /// Returns the place that `number` places of the key precede. `last` is the last place of the
    /// key, and `count` the number of places. Follows the links of the places after it.
    pub(crate) fn place_at(&self, last: Option<u32>, count: usize, number: usize) -> u32
        requires last { last ≡ last_place (has_place (trace_of self.now.rows.now.0) self.now.key)
            (length self.now.rows.now.0) }
        requires count { count ≡ count_below
            (has_place (trace_of self.now.rows.now.0) self.now.key) (length self.now.rows.now.0) }
        requires number { number < count }
        requires short { length self.now.rows.now.0 ≤ MAX_EVENTS }
        ensures within { result < length self.now.rows.now.0 }
        ensures matches { has_place (trace_of self.now.rows.now.0) self.now.key result ≡ true }
        ensures number { count_below (has_place (trace_of self.now.rows.now.0) self.now.key)
            result ≡ number }
    {
        let Some(from) = last else { unreachable!() };
        let mut place = from;
        for _ in number + 1..count {
            let Some(earlier) = self.before(place) else {
                unreachable!()
            };
            place = earlier;
        }
        place
    }
}

/// Returns the number of events of a thread. `last` is the last place of the thread.
#[inline(always)]
fn number_after(rows: &Segments<IndexRow>, thread: u32, last: Option<u32>) -> u32
    requires rows { AreIndexRows rows.now.0 }
    requires last { last ≡ last_place (of_thread (trace_of rows.now.0) thread)
        (length rows.now.0) }
    requires short { length rows.now.0 ≤ MAX_EVENTS }
    ensures { result ≡ earlier_events (trace_of rows.now.0) thread (length rows.now.0) }
{
    let Some(last) = last else {
        return 0;
    };
    let Some(row) = rows.get(last as usize) else {
        unreachable!()
    };
    row.number + 1
}

/// Returns the row of the next place. `positions` are the positions of its keys among the places of
/// the open segment.
#[inline(always)]
pub(crate) fn row_after(
    rows: &Segments<IndexRow>,
    tail: &Places,
    positions: Positions,
    older: &LastPlaces,
    event: Event,
    depth: u8,
) -> IndexRow
    requires rows { AreIndexRows rows.now.0 }
    requires positions { AreKeyPositions tail.now event positions }
    requires last { AreLastOf (trace_of rows.now.0) (length rows.now.0) tail.now older.now.places }
    requires short { length rows.now.0 ≤ MAX_EVENTS }
    ensures event { result.event ≡ event }
    ensures depth { result.depth ≡ depth }
    ensures row { IsIndexRow (trace_of rows.now.0) (length rows.now.0) result }
{
    let last_own = last_of(tail, positions.thread, older, Key::OfThread(event.thread));
    let last_about = last_of(tail, positions.object, older, object_key(event.op));
    let own = index_of(last_own);
    IndexRow {
        event,
        depth,
        number: number_after(rows, event.thread, own),
        thread: link_to(own),
        object: link_to(index_of(last_about)),
    }
}
