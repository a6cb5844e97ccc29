//! The first frame in the bytes of a session.
ghost use Rattle.std.specs.Prelude.{◌≡◌, ◌+◌, ◌≤◌, length, true, IfNone, IfSome, None, Ok, Some};
ghost use Rattle.trace_model.specs.Protocol.Frames.{fields_fault, header_fault, is_event_kind, is_kind, is_length_of, request_of};
ghost use Rattle.trace_model.specs.declared.messages.session.Request.TheVariants.{Offer};
ghost use Rattle.event_frames.specs.Leading.{BeginsNoOffer, IsLeading};

use crate::cells::{batch_fault, is_event_kind, op_of, read_batch, word};
use trace_model::{Event, Fault, Request};

/// Returns whether the byte is the kind of a request.
fn is_kind(kind: u8) -> bool
    ensures { result ≡ is_kind kind }
{
    1 <= kind && kind <= 10
}

/// Returns whether a body of this kind may have this length.
fn is_length_of(kind: u8, len: u16) -> bool
    requires { is_kind kind ≡ true }
    ensures { result ≡ is_length_of kind len }
{
    match kind {
        1..=6 => len == 9,
        7 => len == 2,
        8 | 9 => len == 5,
        _ => 11 <= len && len <= 578 && len % 9 == 2,
    }
}

/// Returns the fault in the fields that have arrived, for a body of this kind and length.
fn fields_fault(kind: u8, len: u16, fields: &[u8]) -> Option<Fault>
    ensures { result ≡ fields_fault kind len fields.now }
{
    if kind == 10 {
        batch_fault(usize::from(len / 9), fields)
    } else {
        None
    }
}

/// Returns the fault that the bytes show in any continuation, or `None`.
#[tactic(auto, unfolding(trace_model::specs::Protocol::Frames::header_fault))]
fn header_fault(bytes: &[u8]) -> Option<Fault>
    ensures { result ≡ header_fault bytes.now }
{
    match bytes {
        [] => None,
        [_] => None,
        [high, low] => {
            if u16::from_be_bytes([*high, *low]) == 0 {
                Some(Fault::BadLength)
            } else {
                None
            }
        }
        [high, low, kind, fields @ ..] => {
            let len = u16::from_be_bytes([*high, *low]);
            if len == 0 {
                return Some(Fault::BadLength);
            }
            if !is_kind(*kind) {
                return Some(Fault::BadKind);
            }
            if !is_length_of(*kind, len) {
                return Some(Fault::BadLength);
            }
            fields_fault(*kind, len, fields)
        }
    }
}

/// Returns the event of this kind whose fields are at the start of the bytes.
#[inline(always)]
fn event_with(kind: u8, fields: &[u8]) -> Event
    requires kind { is_event_kind kind ≡ true }
    requires whole { 8 ≤ length fields.now }
    ensures { Offer result ≡ request_of kind fields.now }
{
    Event {
        thread: word(fields),
        op: op_of(kind, word(&fields[4..])),
    }
}

/// Returns the request of this kind whose fields are at the start of the bytes.
#[tactic(auto, unfolding(trace_model::specs::Protocol::Frames::request_of))]
fn request_of(kind: u8, len: u16, fields: &[u8]) -> Request
    requires kind { is_kind kind ≡ true }
    requires right { is_length_of kind len ≡ true }
    requires sound { fields_fault kind len fields.now ≡ None }
    requires whole { len ≤ length fields.now + 1 }
    ensures { result ≡ request_of kind fields.now }
{
    match kind {
        1..=6 => Request::Offer(event_with(kind, fields)),
        7 => Request::Ask(fields[0]),
        8 => Request::Answer(word(fields)),
        9 => Request::Status(word(fields)),
        _ => Request::Batch(read_batch(usize::from(fields[0]), &fields[1..])),
    }
}

/// Returns the event of the offer at the start of the bytes, and the length of its frame in bytes.
/// Returns `None` if the bytes do not begin with the whole frame of an offer.
#[inline(always)]
pub(crate) fn leading_offer(bytes: &[u8]) -> Option<(Event, usize)>
    ensures offer { IfSome result
        (λ found. IsLeading bytes.now (Ok (Some (Offer found.0, found.1)))) }
    ensures none { IfNone result (BeginsNoOffer bytes.now) }
{
    let [high, low, kind, fields @ ..] = bytes else {
        return None;
    };
    let len = u16::from_be_bytes([*high, *low]);
    if len != 9 || !is_event_kind(*kind) || fields.len() < 8 {
        return None;
    }
    Some((event_with(*kind, fields), 11))
}

/// Returns the first request and the length of its frame in bytes, or `None` if the bytes have no
/// whole frame.
///
/// # Errors
///
/// The fault that the bytes show in any continuation.
#[tactic(auto, unfolding(trace_model::specs::Protocol::Frames::leading_of, trace_model::specs::Protocol::Frames::whole_frame))]
pub fn leading(bytes: &[u8]) -> Result<Option<(Request, usize)>, Fault>
    ensures { IsLeading bytes.now result }
{
    if let Some(fault) = header_fault(bytes) {
        return Err(fault);
    }
    let [high, low, kind, fields @ ..] = bytes else {
        return Ok(None);
    };
    let len = u16::from_be_bytes([*high, *low]);
    if fields.len() + 1 < usize::from(len) {
        return Ok(None);
    }
    Ok(Some((request_of(*kind, len, fields), usize::from(len) + 2)))
}
