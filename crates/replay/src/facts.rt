//! Facts about each place of the trace, computed by a few passes over it.

ghost use Rattle.std.specs.Prelude.{◌≡◌, ℕ, ◌≤◌, length, nat_eq, IfOk};
ghost use Rattle.std.specs.HashMap.{get};
ghost use Rattle.trace_model.specs.declared.limits.TheConstants.{MAX_EVENTS};
ghost use Rattle.trace_model.specs.Theory.Trace.{last_place};
ghost use Rattle.trace_model.specs.Theory.Lawful.{IsWellFormed};
ghost use Rattle.trace_model.specs.Theory.Lookups.{writer};
ghost use Rattle.replay.specs.Facts as facts_words;
ghost use Rattle.replay.specs.Facts.{is_of_thread, each, of_read, AreFacts};

use crate::last_places::{LastPlaces, last, note_thread, note_write};
use crate::sections::{Sections, sections_of};
use std::alloc::Global;
use std::collections::HashMap;
use std::collections::hash_map::RandomState;
use trace_model::{Event, NoMemory, Op, Place};

/// Facts about each place of the trace.
#[derive(Drop)]
pub(crate) struct Facts {
    /// The previous place of its thread.
    pub(crate) previous: Vec<Option<Place>>,
    /// The writer of a read.
    pub(crate) writers: Vec<Option<Place>>,
    /// The lock on which a section begins at the place.
    pub(crate) begins: Vec<Option<u32>>,
    /// The release of an outermost acquire.
    pub(crate) releases: Vec<Option<Place>>,
    /// The last place of each thread.
    pub(crate) lasts: LastPlaces,
}

/// Returns the facts about each place of the trace.
///
/// # Errors
/// `NoMemory` if an allocation fails.
pub(crate) fn facts_of(
    alloc: Global,
    state: RandomState,
    trace: &[Event],
) -> Result<Facts, NoMemory>
    requires { IsWellFormed trace.now }
    ensures { IfOk result (λ facts. AreFacts trace.now facts) }
{
    let (previous, lasts) = previous_places(alloc, state, trace)?;
    let writers = writers_of(alloc, state, trace)?;
    let Sections { begins, releases } = sections_of(alloc, state, trace)?;
    Ok(Facts {
        previous,
        writers,
        begins,
        releases,
        lasts,
    })
}

/// Returns for each place the previous one of its thread, and the last place of each thread.
///
/// # Errors
/// `NoMemory` if an allocation fails.
fn previous_places(
    alloc: Global,
    state: RandomState,
    trace: &[Event],
) -> Result<(Vec<Option<Place>>, LastPlaces), NoMemory>
    requires { length trace.now ≤ MAX_EVENTS }
    ensures previous { IfOk result (λ made. made.0.items ≡
        each (facts_words.previous trace.now) (length trace.now)) }
    ensures lasts { IfOk result (λ made. (t : ℕ) →
        get nat_eq made.1 t ≡ last_place (is_of_thread trace.now t) (length trace.now)) }
{
    let mut lasts: LastPlaces = HashMap::with_hasher(alloc, state);
    let mut previous = Vec::with_capacity(alloc, trace.len())?;
    for index in 0..trace.len() {
        let thread = trace[index].thread;
        let before = last(&lasts, thread);
        previous.push_reserved(before);
        note_thread(&mut lasts, thread, Place::new(index as u32))?;
    }
    Ok((previous, lasts))
}

/// Returns the last write to the variable of a read, or `None` for another operation.
fn last_of_read(writes: &LastPlaces, op: Op) -> Option<Place>
    ensures { result ≡ of_read (get nat_eq writes.now) op }
{
    match op {
        Op::Read(variable) => last(writes, variable),
        _ => None,
    }
}

/// Returns the writer of each read.
///
/// # Errors
/// `NoMemory` if an allocation fails.
fn writers_of(
    alloc: Global,
    state: RandomState,
    trace: &[Event],
) -> Result<Vec<Option<Place>>, NoMemory>
    requires { length trace.now ≤ MAX_EVENTS }
    ensures { IfOk result (λ made. made.items ≡ each (writer trace.now) (length trace.now)) }
{
    let mut writes: LastPlaces = HashMap::with_hasher(alloc, state);
    let mut writers = Vec::with_capacity(alloc, trace.len())?;
    for index in 0..trace.len() {
        let op = trace[index].op;
        let writer = last_of_read(&writes, op);
        writers.push_reserved(writer);
        note_write(&mut writes, op, Place::new(index as u32))?;
    }
    Ok(writers)
}
