//! The position of each place in its thread, and the runs of consecutive places of one thread.

ghost use Rattle.std.specs.Prelude.{◌≡◌, ◌+◌, ◌<◌, ◌^◌, length, slice_get, None, Some, IsTrue, IfOk, MatchOption};
ghost use Rattle.fronts.specs.Runs.{IsThreadRun, IsPositionAfter};

use crate::requirements::ThreadPrefix;
use std::alloc::Global;
use std::marker::Model;
use trace_model::{NoMemory, Place};

/// The position of a place, and the end of the run in which it is.
#[derive(Clone, Copy)]
pub(crate) struct Run {
    pub(crate) prefix: ThreadPrefix,
    pub(crate) end: u32,
}

/// For each place of a trace the prefix of its thread that is before it. Consecutive places of one
/// thread are a run. A walk over the places takes up to 65,535 places of a run in one step.
///
/// Contracts see the list of the prefixes.
#[derive(Drop)]
pub struct Positions {
    prefixes: Vec<ThreadPrefix>,
    /// For each place the length of a run that begins with it. A run of more than 65,535 places is
    /// listed as several.
    lengths: Vec<u16>,
}

impl Model for Positions {
    ghost use Rattle.std.specs.Prelude.{List};
    ghost use Rattle.fronts.specs.declared.requirements.ThreadPrefix.{ThreadPrefix};
    ghost use Rattle.fronts.specs.Runs.{AreRunLengths};

    ghost Value = { List ThreadPrefix };

    ghost view = { λ p. p.prefixes.items };

    ghost invariant = { λ p. AreRunLengths p.prefixes.items p.lengths.items };
}

/// Returns whether `next` is the position after `here` in the same thread.
fn is_next(here: ThreadPrefix, next: ThreadPrefix) -> bool
    ensures { IsTrue result → IsPositionAfter here 1 next }
{
    next.slot == here.slot && here.count < next.count && next.count - here.count == 1
}

/// Returns the length of a run that begins with `place`. `later` is that of one that begins with the
/// next place, if there is one.
fn run_length(prefixes: &[ThreadPrefix], place: usize, later: u16) -> u16
    requires within { place < length prefixes.now }
    requires later { place + 1 < length prefixes.now →
        IsThreadRun prefixes.now (place + 1) (place + 1 + later) }
    ensures { IsThreadRun prefixes.now place (place + result) }
{
    match prefixes.get(place + 1) {
        Some(next) if later < u16::MAX && is_next(prefixes[place], *next) => later + 1,
        _ => 1,
    }
}

impl Positions {
    /// Returns the positions with their runs.
    ///
    /// # Errors
    /// `NoMemory` if an allocation fails.
    pub(crate) fn of(alloc: Global, prefixes: Vec<ThreadPrefix>) -> Result<Positions, NoMemory>
        requires { length prefixes.items < 2 ^ 32 }
        ensures { IfOk result (λ positions. positions ≡ prefixes.items) }
    {
        let mut lengths = vec![in alloc; 0u16; prefixes.len()]?;
        let mut place = prefixes.len();
        let mut length = 0;
        while place > 0 {
            place -= 1;
            length = run_length(prefixes.as_slice(), place, length);
            lengths[place] = length;
        }
        Ok(Positions { prefixes, lengths })
    }

    /// Returns the position of `place`, or `None` if it is past the end of the trace. Does not
    /// allocate.
    pub(crate) fn get(&self, place: Place) -> Option<ThreadPrefix>
        ensures { result ≡ slice_get self.now place }
    {
        self.prefixes.get(place.get() as usize).copied()
    }

    /// Returns the position and the run of `place`, or `None` if it is past the end of the trace.
    /// Does not allocate.
    pub(crate) fn run_at(&self, place: Place) -> Option<Run>
        ensures { MatchOption result (slice_get self.now place ≡ None)
            (λ run. (slice_get self.now place ≡ Some run.prefix)
            × IsThreadRun self.now place run.end) }
    {
        let index = place.get() as usize;
        match self.prefixes.get(index) {
            Some(prefix) => Some(Run {
                prefix: *prefix,
                end: place.get() + self.lengths[index] as u32,
            }),
            None => None,
        }
    }
}
