//! The critical sections of the trace, found in one pass.

ghost use Rattle.std.specs.Prelude.{◌≡◌, ℕ, ◌<◌, length, slice_get, nat_eq, None, Some, IfOk, IfSome, OnOk, if◌then◌else◌};
ghost use Rattle.std.specs.HashMap.{get};
ghost use Rattle.trace_model.specs.declared.traces.event.Op.TheVariants.{Acquire};
ghost use Rattle.trace_model.specs.declared.limits.TheConstants.{MAX_DEPTH};
ghost use Rattle.trace_model.specs.Theory.Lookups.{release};
ghost use Rattle.trace_model.specs.Theory.Lawful.{IsWellFormed};
ghost use Rattle.trace_model.specs.Theory.Held as held_words;
ghost use Rattle.replay.specs.Facts.{each};
ghost use Rattle.replay.specs.OpenSections as words;

use std::alloc::Global;
use std::collections::HashMap;
use std::collections::hash_map::RandomState;
use trace_model::{Event, NoMemory, Op, Place};

/// A critical section that has not ended.
#[derive(Clone, Copy)]
pub(crate) struct Open {
    /// The outermost acquire, which begins the section.
    acquire: Place,
    /// The number of acquires of its lock that are not released.
    depth: u8,
}

/// The open section on each held lock.
type OpenSections = HashMap<u32, Open, RandomState>;

/// The critical sections of the trace.
#[derive(Drop)]
pub(crate) struct Sections {
    /// For each place the lock on which a section begins there.
    pub(crate) begins: Vec<Option<u32>>,
    /// For each outermost acquire the release that ends its section.
    pub(crate) releases: Vec<Option<Place>>,
}

/// Returns the open section on the lock.
fn section(opened: &OpenSections, lock: u32) -> Option<Open>
    ensures { result ≡ get nat_eq opened.now lock }
{
    opened.get(&lock).copied()
}

/// Returns the section after one more acquire of its lock at `place`.
fn deeper(section: Option<Open>, place: Place) -> Open
    requires { IfSome section (λ o. o.depth < MAX_DEPTH) }
    ensures { result ≡ words.deeper place section }
{
    match section {
        Some(section) => Open {
            acquire: section.acquire,
            depth: section.depth + 1,
        },
        None => Open {
            acquire: place,
            depth: 1,
        },
    }
}

/// Returns the section after one release of its lock, or `None` if that ends it.
fn shallower(section: Option<Open>) -> Option<Open>
    ensures { result ≡ words.shallower section }
{
    let section = section?;
    if section.depth <= 1 {
        return None;
    }
    Some(Open {
        acquire: section.acquire,
        depth: section.depth - 1,
    })
}

/// Sets or removes the open section on the lock.
///
/// # Errors
/// `NoMemory` if an allocation fails.
fn put(opened: &mut OpenSections, lock: u32, section: Option<Open>) -> Result<(), NoMemory>
    ensures { OnOk result ((key : ℕ) →
        get nat_eq opened.new key ≡
        (if nat_eq lock key then section else get nat_eq opened.old key)) }
{
    match section {
        Some(section) => {
            opened.insert(lock, section)?;
        },
        None => {
            opened.remove(&lock);
        },
    }
    Ok(())
}

/// Updates the open sections for an operation at `place`.
///
/// # Errors
/// `NoMemory` if an allocation fails.
fn note(opened: &mut OpenSections, op: Op, place: Place) -> Result<(), NoMemory>
    requires { (lock : ℕ) → op ≡ Acquire lock →
        IfSome (get nat_eq opened.old lock) (λ o. o.depth < MAX_DEPTH) }
    ensures { OnOk result ((key : ℕ) →
        get nat_eq opened.new key ≡ words.open_after op place (get nat_eq opened.old) key) }
{
    match op {
        Op::Acquire(lock) => {
            let begun = deeper(section(opened, lock), place);
            put(opened, lock, Some(begun))
        },
        Op::Release(lock) => {
            let left = shallower(section(opened, lock));
            put(opened, lock, left)
        },
        _ => Ok(()),
    }
}

/// Returns the lock on which the operation begins a section: an acquired lock that is not held.
fn begun_by(opened: &OpenSections, op: Op) -> Option<u32>
    ensures { result ≡ words.begun_section (get nat_eq opened.now) op }
{
    let Op::Acquire(lock) = op else { return None };
    match section(opened, lock) {
        Some(_) => None,
        None => Some(lock),
    }
}

/// Sets the release of the acquire, if one is given, to `place`.
fn ended_by(opened: &OpenSections, op: Op) -> Option<Place>
    ensures { result ≡ words.ended_section (get nat_eq opened.now) op }
{
    let Op::Release(lock) = op else { return None };
    let section = section(opened, lock)?;
    if section.depth <= 1 {
        Some(section.acquire)
    } else {
        None
    }
}

/// The section of the acquire, if one is given, ends at the place.
fn end(releases: &mut Vec<Option<Place>>, acquire: Option<Place>, place: Place)
    requires { IfSome acquire (λ a. a < length releases.old.items) }
    ensures { releases.new.items ≡ words.with_end releases.old.items acquire place }
{
    if let Some(acquire) = acquire {
        releases[acquire.get() as usize] = Some(place);
    }
}

/// Returns the critical sections of the trace.
///
/// # Errors
/// `NoMemory` if an allocation fails.
pub(crate) fn sections_of(
    alloc: Global,
    state: RandomState,
    trace: &[Event],
) -> Result<Sections, NoMemory>
    requires { IsWellFormed trace.now }
    ensures begins { IfOk result (λ made. made.begins.items ≡
        each (held_words.begun_lock trace.now) (length trace.now)) }
    ensures releases { IfOk result (λ made. (q : ℕ) → q < length trace.now →
        slice_get made.releases.items q ≡ Some (release trace.now q)) }
{
    let mut opened: OpenSections = HashMap::with_hasher(alloc, state);
    let mut begins = Vec::with_capacity(alloc, trace.len())?;
    let mut releases = vec![in alloc; None; trace.len()]?;
    for index in 0..trace.len() {
        let op = trace[index].op;
        let place = Place::new(index as u32);
        let begun = begun_by(&opened, op);
        begins.push_reserved(begun);
        let ended = ended_by(&opened, op);
        end(&mut releases, ended, place);
        note(&mut opened, op, place)?;
    }
    Ok(Sections { begins, releases })
}
