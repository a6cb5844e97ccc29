//! The text of the report.
ghost use Rattle.std.specs.Prelude.{IfOk, IfErr};
ghost use Rattle.offline_report.specs.Offline.{IsOfflineRefusal, IsReport};

use crate::opening::Offline;
use crate::refused::OfflineRefused;
use findings::{Hold, RunOn};
use std::alloc::Global;
use std::hash::RandomState;
use std::thread::Threads;
use trace_model::{Bound, Event};

/// Returns the report of question 0 with this bound on all events. See [`Offline::open`] and
/// [`Offline::report`]. Each task calls the hold, with question 0, when its rows are computed. Part
/// of the public API; not called by the program.
///
/// # Errors
/// If several tasks fail, the error is that of one of them.
/// - `Unlawful` with the first event that is not lawful, if there is one.
/// - `TooLong` if the text is too long.
/// - `NoMemory` if an allocation fails.
pub fn offline_with<R: Threads + Sync, H: Hold + Sync>(
    rt: &R,
    alloc: Global,
    state: RandomState,
    events: Vec<Event>,
    bound: Bound,
    hold: &H,
) -> Result<Vec<u8>, OfflineRefused>
    ensures text { IfOk result (λ text. IsReport events.items bound text.items) }
    ensures refused { IfErr result (IsOfflineRefusal events.items bound) }
{
    Offline::open(rt, alloc, state, events, bound)?.report(rt, hold)
}

/// Returns the report of question 0 with this bound on all events, without a hold. See
/// [`offline_with`]. Part of the public API; not called by the program.
///
/// # Errors
/// Those of [`offline_with`].
pub fn offline<R: Threads + Sync>(
    rt: &R,
    alloc: Global,
    state: RandomState,
    events: Vec<Event>,
    bound: Bound,
) -> Result<Vec<u8>, OfflineRefused>
    ensures text { IfOk result (λ text. IsReport events.items bound text.items) }
    ensures refused { IfErr result (IsOfflineRefusal events.items bound) }
{
    offline_with(rt, alloc, state, events, bound, &RunOn)
}
