//! Whole lists of events through the admission check.

ghost use Rattle.std.specs.Prelude.{IfOk};
ghost use Rattle.wellformed.specs.FirstUnlawful.{IsPassage};

use crate::tables::AdmissionTables;
use std::alloc::Global;
use std::hash::RandomState;
use trace_model::{Event, NoMemory, Refusal};

/// The first event of a list that is not lawful after the events before it.
#[derive(Clone, Copy, Debug, PartialEq, Eq)]
pub struct FirstUnlawful {
    /// The 0-based index of the event.
    pub index: usize,
    /// The first refusal that applies to it.
    pub refusal: Refusal,
}

/// Returns the first of `events` that is not lawful after the events before it, or `None` if all
/// are lawful. At most `MAX_EVENTS` events are lawful.
///
/// # Errors
///
/// `NoMemory` if an allocation fails.
pub fn first_unlawful(
    alloc: Global,
    state: RandomState,
    events: &[Event],
) -> Result<Option<FirstUnlawful>, NoMemory>
    ensures { IfOk result (IsPassage events.now) }
{
    AdmissionTables::new(alloc, state).admit_all(events)
}
