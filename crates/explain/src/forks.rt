//! Forks of threads.

ghost use Rattle.std.specs.Prelude.{◌≡◌, ◌↔◌, ℕ, Some, IfOk};
ghost use Rattle.trace_model.specs.declared.traces.event.Op.TheVariants.{Fork};
ghost use Rattle.trace_model.specs.Theory.Trace.{Does};

use number_map::NumberMap;
use trace_index::TraceIndex;
use trace_model::{NoMemory, Op, Place};

/// For each thread the place at which its fork may be.
pub(crate) type ForkTable = NumberMap<Place>;

/// Returns the place of the fork of `thread`, or `None` if it is not forked. Looks first at the
/// place in the table, since a look-up in the index takes a hash for each of its segments.
///
/// # Errors
/// `NoMemory` if an allocation fails.
pub(crate) fn fork_of(
    forks: &mut ForkTable,
    index: &TraceIndex,
    thread: u32,
) -> Result<Option<Place>, NoMemory>
    ensures { IfOk result (λ fork. (p : ℕ) →
        (fork ≡ Some p) ↔ Does index.now.events p (Fork thread)) }
{
    let _len = index.len(); // for the proof
    if thread == 0 {
        return Ok(None);
    }
    if let Some(place) = forks.get(thread)
        && let Some(event) = index.event(place)
        && let Op::Fork(child) = event.op
        && child == thread
    {
        return Ok(Some(place));
    }
    let fork = index.fork_of(thread);
    if let Some(place) = fork {
        forks.reserve(thread, place)?;
        forks.set(thread, place);
    }
    Ok(fork)
}
