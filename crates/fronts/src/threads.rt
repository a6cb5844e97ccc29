//! The last place of a thread.

ghost use Rattle.std.specs.Prelude.{ℕ, MatchOption};
ghost use Rattle.trace_model.specs.Theory.Trace.{OfThread};
ghost use Rattle.fronts.specs.Threads.{IsLastOfThread};

use trace_index::TraceIndex;
use trace_model::Place;

/// Returns the last place of `thread`, or `None` if it has no place.
pub fn last_place(index: &TraceIndex, thread: u32) -> Option<Place>
    ensures { MatchOption result ((p : ℕ) → OfThread index.now.events p thread → ⊥)
        (IsLastOfThread index.now.events thread) }
{
    let places = index.thread_places(thread);
    let count = places.len();
    if count == 0 {
        None
    } else {
        Some(places.get(count - 1))
    }
}
