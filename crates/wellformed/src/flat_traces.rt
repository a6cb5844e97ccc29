//! Traces without inner acquires.
ghost use Rattle.std.specs.Prelude.{◌≡◌, ◌↔◌, IsTrue};
ghost use Rattle.trace_model.specs.Theory.Lawful.{IsWellFormed};
ghost use Rattle.wellformed.specs.Flat.{acquires_taken, is_taken, AgreesWithFormer, IsFlat};

use trace_model::{Event, Op};

/// Returns whether each acquire of a well-formed trace is outermost: no thread acquires a lock that
/// it holds.
///
/// If it returns true, then the definitions without inner acquires agree with the present ones on
/// the trace: well-formedness, reorderings, dependencies and rows.
///
/// Does not allocate. For each acquire it looks back to the last event on the same lock. Part of
/// the public API; not called by the program.
pub fn flat(events: &[Event]) -> bool
    requires { IsWellFormed events.now }
    ensures exact { IsTrue result ↔ IsFlat events.now }
    ensures former { IsTrue result → AgreesWithFormer events.now }
{
    for (place, event) in events.iter().enumerate() {
        if acquires_taken(&events[..place], event.op) {
            return false;
        }
    }
    true
}

/// Returns whether the operation acquires a lock whose last event before it is an acquire.
fn acquires_taken(before: &[Event], op: Op) -> bool
    ensures { result ≡ acquires_taken before.now op }
{
    match op {
        Op::Acquire(lock) => is_taken(before, lock),
        _ => false,
    }
}

/// Returns whether the last event on the lock is an acquire. Searches from the end, since the event
/// is mostly near it.
fn is_taken(before: &[Event], lock: u32) -> bool
    ensures { result ≡ is_taken before.now lock }
{
    let mut rest = before;
    while let Some((last, front)) = rest.split_last() {
        match last.op {
            Op::Acquire(other) if other == lock => return true,
            Op::Release(other) if other == lock => return false,
            _ => rest = front,
        }
    }
    false
}
