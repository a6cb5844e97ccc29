//! What each place of a trace requires, in tables that are built once for the trace.

ghost use Rattle.std.specs.Prelude.{◌≡◌, ◌+◌, ◌<◌, ◌≤◌, ◌^◌, length, ◌++◌, slice_get, Some, IfSome, OnOk, IfOk, IsTrue};
ghost use Rattle.std.specs.Option.{ForSome};
ghost use Rattle.trace_index.specs.Numbers.{thread_before};
ghost use Rattle.trace_index.specs.Facts.{ArePlaceFacts};
ghost use Rattle.fronts.specs.Slots.{slots_of, AreThreadSlots, HasSlotPosition};
ghost use Rattle.fronts.specs.Requirements.{IsPrefixThrough, EndsSection};
ghost use Rattle.fronts.specs.Pushing.{IsRequired, IsRedundant, AddsReach, requirement_items, trace_with_slots, IsStart, IsFirstNeed, IsLastNeed, IsBegin, NeedsNone, AddsRequirements, AreAllBuilt};
ghost use Rattle.fronts.specs.Firsts.{thread_slot_at, lock_slot_at, threads_below, locks_below};
ghost use Rattle.fronts.specs.Tables.{AreSlotPositions, AreLockSlots};

use crate::item_cache::ItemCache;
use crate::positions::Positions;
use crate::slot_table::{SlotTable, next_count};
use segments::MaybeIndex;
use std::alloc::Global;
use std::sync::Arc;
use std::sync::atomic::{AtomicBool, Ordering};
use trace_index::{PlaceFacts, TraceIndex};
use trace_model::{NoMemory, Op, Place};

/// The first places of a thread.
#[derive(Clone, Copy)]
pub struct ThreadPrefix {
    /// The slot of the thread.
    pub slot: u32,
    /// The number of places.
    pub count: u32,
}

/// A critical section: its outermost acquire, and the prefix that ends with its release. The prefix
/// is empty if the section has no release.
#[derive(Clone, Copy)]
pub(crate) struct Section {
    pub(crate) place: Place,
    pub(crate) end: ThreadPrefix,
}

/// How many places are read between two looks at whether the tables are wanted.
const BLOCK: usize = 4096;

/// What a place requires.
#[derive(Clone, Copy)]
pub(crate) enum Requirement {
    /// The prefix is included.
    Reach(ThreadPrefix),
    /// A section on this lock begins: of all sections on the lock that have begun, all except the
    /// last one have ended.
    Begin(u32, Section),
}

/// A requirement of the place with this number in its thread.
#[derive(Clone, Copy)]
pub(crate) struct Item {
    pub(crate) number: u32,
    pub(crate) requirement: Requirement,
}

/// The requirements of the places of each thread, in the order of the places. Most of those that
/// thread order or an earlier item of the thread includes are left out. Threads and locks have
/// dense numbers, their slots.
#[derive(Drop)]
pub struct Requirements {
    /// The places of the threads.
    pub threads: SlotTable,
    pub(crate) lock_count: u32,
    pub(crate) items: Vec<Vec<Item>>,
}

/// The tables of the places so far.
#[derive(Drop)]
struct Tables {
    /// For each place the prefix of its thread that is before it.
    positions: Vec<ThreadPrefix>,
    /// For each place that begins a critical section the slot of its lock.
    locks: Vec<MaybeIndex>,
    /// The number of locks.
    lock_count: u32,
    /// The requirements of the places of each thread.
    items: Vec<Vec<Item>>,
    /// Finds redundant requirements.
    cache: ItemCache,
}

/// Returns the facts of `place`.
#[inline(always)]
fn facts_at(index: &TraceIndex, place: usize) -> PlaceFacts
    requires { place < length index.now.events }
    ensures { ArePlaceFacts index.now.events place result }
{
    let _len = index.len(); // for the proof
    index.facts(Place::new(place as u32)).unwrap()
}

/// Returns the thread slot of the next place after those listed: that of the place before it in its
/// thread, or a new one. `before` is that place, and `count` the number of threads so far.
#[inline(always)]
fn thread_slot(
    _index: &TraceIndex,
    positions: &[ThreadPrefix],
    before: Option<Place>,
    count: u32,
) -> u32
    requires positions { AreSlotPositions _index.now.events positions.now }
    requires within { length positions.now < length _index.now.events }
    requires before { thread_before _index.now.events (length positions.now) ≡ before }
    requires count { count ≡ threads_below _index.now.events (length positions.now) }
    ensures { thread_slot_at _index.now.events (length positions.now) ≡ Some result }
{
    match before {
        Some(before) => positions[before.get() as usize].slot,
        None => count,
    }
}

/// Returns the lock slot of the next place after those listed: that of the outermost acquire of the
/// lock before it, or a new one. `none` if the place does not begin a section. `facts` are those of
/// the place, and `count` is the number of locks so far.
#[inline(always)]
fn lock_slot(
    _index: &TraceIndex,
    locks: &[MaybeIndex],
    facts: &PlaceFacts,
    count: u32,
) -> MaybeIndex
    requires locks { AreLockSlots _index.now.events locks.now }
    requires facts { ArePlaceFacts _index.now.events (length locks.now) facts.now }
    requires count { count ≡ locks_below _index.now.events (length locks.now) }
    requires few { count < 4294967295 }
    ensures { lock_slot_at _index.now.events (length locks.now) ≡ result }
{
    let Some(_lock) = facts.begun else {
        return MaybeIndex::none();
    };
    match facts.acquire_before {
        Some(before) => locks[before.get() as usize],
        None => MaybeIndex::at(count),
    }
}

/// Returns the prefix of its thread that is before `place`.
///
/// The caller passes the thread slots of the index's trace, and a place of the trace.
pub fn prefix_before(index: &TraceIndex, threads: &SlotTable, place: Place) -> ThreadPrefix
    requires slots { AreThreadSlots index.now.events threads.now }
    requires in_trace { place < length index.now.events }
    ensures { HasSlotPosition index.now.events
        (slots_of threads.now) place result.slot result.count }
{
    ThreadPrefix {
        slot: threads.get(place).unwrap(),
        count: index.number(place).unwrap(),
    }
}

/// Returns the prefix of its thread that ends with the listed `place`.
#[inline(always)]
fn prefix_through(index: &TraceIndex, positions: &[ThreadPrefix], place: Place) -> ThreadPrefix
    requires positions { AreSlotPositions index.now.events positions.now }
    requires listed { place < length positions.now }
    ensures { IsPrefixThrough index.now.events (thread_slot_at index.now.events) result place }
{
    let _len = index.len(); // for the proof
    let before = positions[place.get() as usize];
    ThreadPrefix {
        slot: before.slot,
        count: before.count + 1,
    }
}

/// Returns whether the item at index `candidate` requires `prefix`, or a longer prefix of the same
/// thread.
fn is_required_at(items: &[Item], candidate: usize, prefix: ThreadPrefix) -> bool
    ensures { IsTrue result → IsRequired prefix items.now }
{
    match listed(items, candidate) {
        Some(item) => match item.requirement {
            Requirement::Reach(known) => known.slot == prefix.slot && prefix.count <= known.count,
            Requirement::Begin(_, _) => false,
        },
        None => false,
    }
}

/// Returns whether the place at `position` needs no item for `prefix`. `items` are those of its
/// thread. Thread order includes an earlier prefix of the same thread, and an item of an earlier
/// place often requires as much of another thread.
fn is_redundant(
    items: &[Item],
    cache: &ItemCache,
    position: ThreadPrefix,
    prefix: ThreadPrefix,
) -> bool
    ensures { IsTrue result → IsRedundant position prefix items.now }
{
    if prefix.slot == position.slot && prefix.count <= position.count {
        return true;
    }
    is_required_at(items, cache.candidate(position.slot, prefix.slot), prefix)
}

/// Appends the requirement of the place at `position` that `place` is included, unless the item is
/// redundant.
#[inline(never)]
fn push_place(
    index: &TraceIndex,
    positions: &[ThreadPrefix],
    items: &mut Vec<Item>,
    cache: &mut ItemCache,
    position: ThreadPrefix,
    place: Place,
) -> Result<(), NoMemory>
    requires positions { AreSlotPositions index.now.events positions.now }
    requires listed { place < length positions.now }
    ensures { OnOk result (AddsReach index.now.events (thread_slot_at index.now.events) position
        (Some place) items.old.items items.new.items) }
{
    let prefix = prefix_through(index, positions, place);
    if is_redundant(items.as_slice(), cache, position, prefix) {
        return Ok(());
    }
    cache.record(position.slot, prefix.slot, items.len());
    items.push(Item {
        number: position.count,
        requirement: Requirement::Reach(prefix),
    })?;
    Ok(())
}

/// Appends the requirement of the place at `position` that `place` is included, if there is a place
/// and the item is not redundant.
#[inline(always)]
fn push_reach(
    index: &TraceIndex,
    positions: &[ThreadPrefix],
    items: &mut Vec<Item>,
    cache: &mut ItemCache,
    position: ThreadPrefix,
    place: Option<Place>,
) -> Result<(), NoMemory>
    requires positions { AreSlotPositions index.now.events positions.now }
    requires listed { IfSome place (λ p. p < length positions.now) }
    ensures { OnOk result (AddsReach index.now.events (thread_slot_at index.now.events) position
        place items.old.items items.new.items) }
{
    match place {
        Some(place) => push_place(index, positions, items, cache, position, place),
        None => Ok(()),
    }
}

/// Returns the section that begins at `place`. `slot` is that of its thread, which also releases.
fn section_at(index: &TraceIndex, place: Place, slot: u32) -> Section
    requires slot { thread_slot_at index.now.events place ≡ Some slot }
    ensures place { result.place ≡ place }
    ensures end { EndsSection index.now.events (thread_slot_at index.now.events) result }
{
    let _len = index.len(); // for the proof
    let end = match index.release_of(place) {
        Some(release) => ThreadPrefix {
            slot,
            count: index.number(release).unwrap() + 1,
        },
        None => ThreadPrefix { slot: 0, count: 0 },
    };
    Section { place, end }
}

/// Returns the fork of the place's thread if `place` is the first of its thread. `facts` are those
/// of the place.
fn start_of(index: &TraceIndex, _place: Place, facts: &PlaceFacts) -> Option<Place>
    requires { ArePlaceFacts index.now.events _place facts.now }
    ensures { IsStart index.now.events _place result }
{
    if facts.number == 0 {
        index.fork_of(facts.event.thread)
    } else {
        None
    }
}

/// Returns the writer of a read, or the fork of a joined thread. `facts` are those of the place.
#[inline(always)]
fn first_need(index: &TraceIndex, _place: Place, facts: &PlaceFacts) -> Option<Place>
    requires { ArePlaceFacts index.now.events _place facts.now }
    ensures { IsFirstNeed index.now.events _place result }
{
    match facts.event.op {
        Op::Join(child) => index.fork_of(child),
        Op::Read(_) => facts.writer,
        _ => None,
    }
}

/// Returns the last place of a joined thread. `facts` are those of the place.
fn last_need(index: &TraceIndex, _place: Place, facts: &PlaceFacts) -> Option<Place>
    requires { ArePlaceFacts index.now.events _place facts.now }
    ensures { IsLastNeed index.now.events _place result }
{
    match facts.event.op {
        Op::Join(child) => crate::threads::last_place(index, child),
        _ => None,
    }
}

/// Returns the requirement of the section that begins at `place`, if one does. `slot` is that of
/// its thread, and `lock` that of its lock.
#[inline(always)]
fn begin_of(index: &TraceIndex, place: Place, slot: u32, lock: MaybeIndex) -> Option<Requirement>
    requires slot { thread_slot_at index.now.events place ≡ Some slot }
    requires lock { lock_slot_at index.now.events place ≡ lock }
    ensures { IsBegin (trace_with_slots index.now.events) place result }
{
    match lock.get() {
        Some(lock) => Some(Requirement::Begin(lock, section_at(index, place, slot))),
        None => None,
    }
}

/// Returns `true` only if the place needs no place but those before it in its thread: it is not the
/// first of its thread, and is no join or read. `facts` are those of the place.
#[inline(always)]
fn needs_none(_index: &TraceIndex, _place: Place, facts: &PlaceFacts) -> bool
    requires { ArePlaceFacts _index.now.events _place facts.now }
    ensures { IsTrue result → NeedsNone _index.now.events _place }
{
    match facts.event.op {
        Op::Fork(_) | Op::Acquire(_) | Op::Release(_) | Op::Write(_) => facts.number > 0,
        Op::Join(_) | Op::Read(_) => false,
    }
}

/// Appends the requirement, if there is one.
fn push_requirement(
    items: &mut Vec<Item>,
    number: u32,
    requirement: Option<Requirement>,
) -> Result<(), NoMemory>
    ensures { OnOk result (items.new.items ≡ items.old.items
        ++ requirement_items number requirement) }
{
    if let Some(requirement) = requirement {
        items.push(Item {
            number,
            requirement,
        })?;
    }
    Ok(())
}

/// Appends the requirements of `place`, which is at `position`. `positions` are those of the
/// earlier places, `lock` is the place's lock slot, and `cache` finds redundant requirements, which
/// are left out.
///
/// # Errors
/// `NoMemory` if an allocation fails; some may have been appended.
#[inline(never)]
fn push_requirements(
    index: &TraceIndex,
    positions: &[ThreadPrefix],
    items: &mut Vec<Item>,
    cache: &mut ItemCache,
    place: Place,
    position: ThreadPrefix,
    lock: MaybeIndex,
) -> Result<(), NoMemory>
    requires within { place < length index.now.events }
    requires positions { AreSlotPositions index.now.events positions.now }
    requires next { length positions.now ≡ place }
    requires position { HasSlotPosition index.now.events
        (thread_slot_at index.now.events) place position.slot position.count }
    requires lock { lock_slot_at index.now.events place ≡ lock }
    ensures { OnOk result (AddsRequirements (trace_with_slots index.now.events) place
        items.old.items items.new.items) }
{
    let _len = index.len(); // for the proof
    let facts = facts_at(index, place.get() as usize);
    let start = start_of(index, place, &facts);
    let first = first_need(index, place, &facts);
    let last = last_need(index, place, &facts);
    let begin = begin_of(index, place, position.slot, lock);
    push_reach(index, positions, items, cache, position, start)?;
    push_reach(index, positions, items, cache, position, first)?;
    push_reach(index, positions, items, cache, position, last)?;
    push_requirement(items, position.count, begin)
}

/// Appends the requirement of the section that begins at `place`, if one does. The place needs no
/// place but those before it in its thread. The other parameters are those of `push_requirements`.
///
/// # Errors
/// `NoMemory` if an allocation fails.
#[inline(always)]
fn push_begin(
    index: &TraceIndex,
    items: &mut Vec<Item>,
    place: Place,
    position: ThreadPrefix,
    lock: MaybeIndex,
) -> Result<(), NoMemory>
    requires needs { NeedsNone index.now.events place }
    requires position { HasSlotPosition index.now.events
        (thread_slot_at index.now.events) place position.slot position.count }
    requires lock { lock_slot_at index.now.events place ≡ lock }
    ensures { OnOk result (AddsRequirements (trace_with_slots index.now.events) place
        items.old.items items.new.items) }
{
    let begin = begin_of(index, place, position.slot, lock);
    push_requirement(items, position.count, begin)
}

/// Returns the item at index `j`.
fn listed(items: &[Item], j: usize) -> Option<Item>
    ensures item { result ≡ slice_get items.now j }
    ensures few { IfSome result (λ i. j + 1 < 2 ^ 64) }
{
    items.get(j).copied()
}

/// Appends an empty list if the thread slot of the next place is a new one.
///
/// # Errors
/// `NoMemory` if an allocation fails.
#[inline(always)]
fn push_list(
    alloc: Global,
    _index: &TraceIndex,
    lists: &mut Vec<Vec<Item>>,
    _place: usize,
    slot: u32,
) -> Result<(), NoMemory>
    requires slot { thread_slot_at _index.now.events _place ≡ Some slot }
    requires count { length lists.old.items ≡ threads_below _index.now.events _place }
    requires built { AreAllBuilt (trace_with_slots _index.now.events) _place lists.old.items }
    ensures count { OnOk result (length lists.new.items
        ≡ threads_below _index.now.events (_place + 1)) }
    ensures built { OnOk result (AreAllBuilt (trace_with_slots _index.now.events) _place
        lists.new.items) }
{
    if slot as usize == lists.len() {
        lists.push(Vec::new(alloc))?;
    }
    Ok(())
}

/// Appends the requirements of `place` to the list of its thread. `facts` are those of the place.
/// The other parameters are those of `push_requirements`.
///
/// # Errors
/// `NoMemory` if an allocation fails.
#[inline(always)]
fn fill_place(
    index: &TraceIndex,
    positions: &[ThreadPrefix],
    lists: &mut Vec<Vec<Item>>,
    cache: &mut ItemCache,
    place: Place,
    position: ThreadPrefix,
    lock: MaybeIndex,
    facts: &PlaceFacts,
) -> Result<(), NoMemory>
    requires within { place < length index.now.events }
    requires positions { AreSlotPositions index.now.events positions.now }
    requires next { length positions.now ≡ place }
    requires facts { ArePlaceFacts index.now.events place facts.now }
    requires position { HasSlotPosition index.now.events
        (thread_slot_at index.now.events) place position.slot position.count }
    requires lock { lock_slot_at index.now.events place ≡ lock }
    requires count { length lists.old.items ≡ threads_below index.now.events (place + 1) }
    requires built { AreAllBuilt (trace_with_slots index.now.events) place lists.old.items }
    ensures count { length lists.new.items ≡ threads_below index.now.events (place + 1) }
    ensures built { OnOk result (AreAllBuilt (trace_with_slots index.now.events) (place + 1)
        lists.new.items) }
{
    let items = &mut lists[position.slot as usize];
    if needs_none(index, place, facts) {
        return push_begin(index, items, place, position, lock);
    }
    push_requirements(index, positions, items, cache, place, position, lock)
}

impl Tables {
    ghost use Rattle.fronts.specs.Requirements.{AreRequirements};
    ghost use Rattle.fronts.specs.Tables.{AreRequirementTables};

    /// Returns the tables of no place, with room for the places of the trace.
    ///
    /// # Errors
    /// `NoMemory` if an allocation fails.
    fn new(alloc: Global, index: &TraceIndex) -> Result<Tables, NoMemory>
        ensures { IfOk result (AreRequirementTables index.now.events 0) }
    {
        Ok(Tables {
            positions: Vec::with_capacity(alloc, index.len())?,
            locks: Vec::with_capacity(alloc, index.len())?,
            lock_count: 0,
            items: Vec::new(alloc),
            cache: ItemCache::new(),
        })
    }

    /// Appends the places from `first` on, up to `end`.
    ///
    /// # Errors
    /// `NoMemory` if an allocation fails.
    fn extend(
        &mut self,
        alloc: Global,
        index: &TraceIndex,
        first: usize,
        end: usize,
    ) -> Result<(), NoMemory>
        requires within { end ≤ length index.now.events }
        requires order { first ≤ end }
        requires tables { AreRequirementTables index.now.events first self.old }
        ensures { OnOk result (AreRequirementTables index.now.events end self.new) }
    {
        for place in first..end {
            self.push(alloc, index, place)?;
        }
        Ok(())
    }

    /// Appends the next place.
    ///
    /// # Errors
    /// `NoMemory` if an allocation fails.
    #[inline(always)]
    fn push(&mut self, alloc: Global, index: &TraceIndex, place: usize) -> Result<(), NoMemory>
        requires within { place < length index.now.events }
        requires tables { AreRequirementTables index.now.events place self.old }
        ensures { OnOk result (AreRequirementTables index.now.events (place + 1) self.new) }
    {
        let _len = index.len(); // for the proof
        let facts = facts_at(index, place);
        let count = self.items.len() as u32;
        let slot = thread_slot(index, self.positions.as_slice(), facts.thread_before, count);
        let lock = lock_slot(index, self.locks.as_slice(), &facts, self.lock_count);
        let position = ThreadPrefix {
            slot,
            count: facts.number,
        };
        push_list(alloc, index, &mut self.items, place, slot)?;
        fill_place(
            index,
            self.positions.as_slice(),
            &mut self.items,
            &mut self.cache,
            Place::new(place as u32),
            position,
            lock,
            &facts,
        )?;
        self.positions.push_reserved(position);
        self.locks.push_reserved(lock);
        self.lock_count = next_count(lock, self.lock_count);
        Ok(())
    }

    /// Returns the requirements of the trace.
    ///
    /// # Errors
    /// `NoMemory` if an allocation fails.
    fn into_requirements(self, alloc: Global, index: &TraceIndex) -> Result<Requirements, NoMemory>
        requires { AreRequirementTables index.now.events (length index.now.events) self }
        ensures { IfOk result (AreRequirements index.now.events) }
    {
        let _len = index.len(); // for the proof
        let Tables {
            positions,
            locks,
            lock_count,
            items,
            ..
        } = self;
        drop(locks);
        let count = items.len() as u32;
        let positions = Positions::of(alloc, positions)?;
        Ok(Requirements {
            threads: SlotTable {
                positions: Arc::new(alloc, positions)?,
                count,
            },
            lock_count,
            items,
        })
    }
}

impl Requirements {
    ghost use Rattle.fronts.specs.Requirements.{item_at, AreRequirements};

    /// Returns the requirement at index `j` of the thread with this slot.
    pub(crate) fn item(&self, slot: u32, j: usize) -> Option<Item>
        ensures item { result ≡ item_at self.now slot j }
        ensures few { IfSome result (λ i. j + 1 < 2 ^ 64) }
    {
        match self.items.get(slot as usize) {
            Some(items) => listed(items.as_slice(), j),
            None => None,
        }
    }

    /// Builds the tables for the trace of `index`.
    ///
    /// # Errors
    /// `NoMemory` if an allocation fails.
    pub fn build(alloc: Global, index: &TraceIndex) -> Result<Requirements, NoMemory>
        ensures { IfOk result (AreRequirements index.now.events) }
    {
        let mut tables = Tables::new(alloc, index)?;
        tables.extend(alloc, index, 0, index.len())?;
        tables.into_requirements(alloc, index)
    }

    /// Builds the tables as `build` does, or returns `None` once `wanted` is `false`. Another thread
    /// may set it.
    ///
    /// # Errors
    /// `NoMemory` if an allocation fails.
    pub fn build_while(
        alloc: Global,
        index: &TraceIndex,
        wanted: &AtomicBool,
    ) -> Result<Option<Requirements>, NoMemory>
        ensures { IfOk result (λ built. ForSome built (AreRequirements index.now.events)) }
    {
        let mut tables = Tables::new(alloc, index)?;
        let mut end = 0;
        while end < index.len() {
            if !wanted.load(Ordering::SeqCst) {
                return Ok(None);
            }
            let first = end;
            end += BLOCK.min(index.len() - first);
            tables.extend(alloc, index, first, end)?;
        }
        let requirements = tables.into_requirements(alloc, index)?;
        Ok(Some(requirements))
    }
}
