//! A gate over the events of a text.

use event_files::read_events;
use std::hash::RandomState;
use trace_model::{Event, MAX_EVENTS};
use wellformed::Gate;

/// Returns whether the gate accepts these events in order.
fn accepts_all(gate: &mut Gate, events: &[Event]) -> bool {
    for event in events {
        if gate.check(event).is_err() || gate.reserve(event).is_err() {
            return false;
        }
        gate.record(event);
    }
    true
}

/// Returns a gate that accepted the events of `text`.
pub(crate) fn gate_of(rt: &HostRuntime, text: &[u8]) -> Option<Gate> {
    let state = RandomState::new(rt).ok()?;
    let events = read_events(rt.alloc(), text).ok()?;
    let mut gate = Gate::new(rt.alloc(), state, MAX_EVENTS);
    let accepted = accepts_all(&mut gate, &events);
    drop(events);
    if accepted {
        Some(gate)
    } else {
        drop(gate);
        None
    }
}
