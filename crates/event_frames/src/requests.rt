//! Requests as bytes.
ghost use Rattle.std.specs.Prelude.{◌≡◌, IfOk};
ghost use Rattle.trace_model.specs.Protocol.Batches.{IsBatch};
ghost use Rattle.trace_model.specs.Protocol.Frames.{frame};
ghost use Rattle.trace_model.specs.declared.messages.session.Request.TheVariants.{Offer, Ask, Answer, Status, Batch};

use crate::cells::event_bytes;
use std::alloc::Global;
use trace_model::{Event, NoMemory};

/// Returns the frame that offers `event`.
#[tactic(auto, unfolding(trace_model::specs::Protocol::Frames::frame))]
pub fn offer_frame(event: &Event) -> [u8; 11]
    ensures { result ≡ frame (Offer event.now) }
{
    let [kind, a, b, c, d, e, f, g, h] = event_bytes(event);
    [0, 9, kind, a, b, c, d, e, f, g, h]
}

/// Returns the frame that asks a question with this bound.
#[tactic(auto, unfolding(trace_model::specs::Protocol::Frames::frame))]
pub fn ask_frame(bound: u8) -> [u8; 4]
    ensures { result ≡ frame (Ask bound) }
{
    [0, 2, 7, bound]
}

/// Returns the frame that asks for the answer of `question`.
#[tactic(auto, unfolding(trace_model::specs::Protocol::Frames::frame))]
pub fn answer_frame(question: u32) -> [u8; 7]
    ensures { result ≡ frame (Answer question) }
{
    let [a, b, c, d] = question.to_be_bytes();
    [0, 5, 8, a, b, c, d]
}

/// Returns the frame that asks for the status of `question`.
#[tactic(auto, unfolding(trace_model::specs::Protocol::Frames::frame))]
pub fn status_frame(question: u32) -> [u8; 7]
    ensures { result ≡ frame (Status question) }
{
    let [a, b, c, d] = question.to_be_bytes();
    [0, 5, 9, a, b, c, d]
}

/// Returns the frame that offers `events` as one batch. There must be 1 to `MAX_BATCH` of them.
///
/// # Errors
///
/// `NoMemory` if an allocation fails.
pub fn batch_frame(alloc: Global, events: &[Event]) -> Result<Vec<u8>, NoMemory>
    requires { IsBatch events.now }
    ensures { IfOk result (λ bytes. bytes.items ≡ frame (Batch events.now)) }
{
    let mut out = Vec::new(alloc);
    let len = (2 + 9 * events.len()) as u16;
    out.extend_from_slice(&len.to_be_bytes())?;
    out.extend_from_slice(&[10, events.len() as u8])?;
    for event in events {
        out.extend_from_slice(&event_bytes(event))?;
    }
    Ok(out)
}
