//! Replies as bytes.
ghost use Rattle.std.specs.Prelude.{◌≡◌, ◌^◌, ℕ, List, ◌+◌, ◌++◌, ◌≤◌, ◌<◌, ◌∷◌, length, slice_index, OnOk, OnErr, IfOk, IsOk, vec_len, vec_capacity};
ghost use Rattle.std.specs.Int.{w32, w64, to_be_bytes};
ghost use Rattle.event_frames.specs.Heads.{frame_text};
ghost use Rattle.trace_model.specs.declared.messages.session.Reply.TheVariants.{Report};
ghost use Rattle.trace_model.specs.Protocol.Replies.{reply_body, reply_frame, fault_number, refusal_number, three_words, status_fields, IsReply};

use std::alloc::{AllocError, Global};
use trace_model::{Fault, NoMemory, QuestionStatus, Refusal, Reply};

/// Returns the number of a fault.
fn fault_number(fault: Fault) -> u8
    ensures { result ≡ fault_number fault }
{
    match fault {
        Fault::BadKind => 1,
        Fault::BadLength => 2,
        Fault::Truncated => 3,
        Fault::BadBatch => 4,
    }
}

/// Returns the length of the body of a reply frame, in bytes.
#[tactic(auto, unfolding(trace_model::specs::Protocol::Replies::three_words, trace_model::specs::Protocol::Replies::status_fields))]
fn body_len(reply: &Reply) -> u32
    requires { IsReply reply.now }
    ensures { result ≡ length (reply_body reply.now) }
{
    match reply {
        Reply::Placed(_) => 5,
        Reply::Refused(_) => 2,
        Reply::Opened { .. } => 13,
        Reply::Pending { .. } => 13,
        Reply::Report { text, .. } => 5 + text.as_slice().len() as u32,
        Reply::Status(_) => 42,
        Reply::Fault(_) => 2,
        Reply::Batched { .. } => 7,
    }
}

/// Adds three numbers of four bytes each at the end.
fn put_words(out: &mut Vec<u8>, first: u32, second: u32, third: u32) -> Result<(), AllocError>
    ensures ok { OnOk result (out.new.items ≡ out.old.items ++ three_words first second third) }
    ensures room { vec_len out.old + 12 ≤ vec_capacity out.old → IsOk result }
    ensures kept { vec_capacity out.old ≤ vec_capacity out.new }
    ensures len { OnOk result (vec_len out.new ≡ vec_len out.old + 12) }
{
    out.extend_from_slice(&first.to_be_bytes())?;
    out.extend_from_slice(&second.to_be_bytes())?;
    out.extend_from_slice(&third.to_be_bytes())
}

/// Adds the counts of a question at the end.
fn put_counts(out: &mut Vec<u8>, status: &QuestionStatus) -> Result<(), AllocError>
    ensures ok { OnOk result (out.new.items ≡ out.old.items ++
        (to_be_bytes w32 status.now.total ++ to_be_bytes w32 status.now.delivered ++
        to_be_bytes w64 status.now.cycles ++ to_be_bytes w64 status.now.confirmed)) }
    ensures room { vec_len out.old + 24 ≤ vec_capacity out.old → IsOk result }
{
    out.extend_from_slice(&status.total.to_be_bytes())?;
    out.extend_from_slice(&status.delivered.to_be_bytes())?;
    out.extend_from_slice(&status.cycles.to_be_bytes())?;
    out.extend_from_slice(&status.confirmed.to_be_bytes())
}

/// Adds the fields of a status at the end.
fn put_status(out: &mut Vec<u8>, status: &QuestionStatus) -> Result<(), AllocError>
    ensures ok { OnOk result (out.new.items ≡ out.old.items ++ status_fields status.now) }
    ensures room { vec_len out.old + 41 ≤ vec_capacity out.old → IsOk result }
{
    put_words(out, status.question, status.accepted, status.opened)?;
    out.extend_from_slice(&status.length.to_be_bytes())?;
    out.push(status.bound.get())?;
    put_counts(out, status)
}

/// Returns the number of a refusal, or 0 for none.
fn refusal_number(refusal: Option<Refusal>) -> u8
    ensures { result ≡ refusal_number refusal }
{
    match refusal {
        None => 0,
        Some(refusal) => refusal.number(),
    }
}

/// Adds the fields of the result of a batch at the end.
fn put_batched(
    out: &mut Vec<u8>,
    accepted: u8,
    refusal: Option<Refusal>,
    length: u32,
) -> Result<(), AllocError>
    ensures ok { OnOk result (out.new.items ≡ out.old.items ++
        (accepted ∷ refusal_number refusal ∷ to_be_bytes w32 length)) }
    ensures room { vec_len out.old + 6 ≤ vec_capacity out.old → IsOk result }
{
    out.extend_from_slice(&[accepted, refusal_number(refusal)])?;
    out.extend_from_slice(&length.to_be_bytes())
}

/// Returns the kind byte of a reply, which is the first byte of its body.
fn kind_number(reply: &Reply) -> u8
    ensures { result ≡ slice_index (reply_body reply.now) 0 }
{
    match reply {
        Reply::Placed(_) => 65,
        Reply::Refused(_) => 66,
        Reply::Opened { .. } => 67,
        Reply::Pending { .. } => 68,
        Reply::Report { .. } => 69,
        Reply::Status(_) => 70,
        Reply::Fault(_) => 71,
        Reply::Batched { .. } => 72,
    }
}

/// Adds the body of a reply frame at the end.
fn put_body(out: &mut Vec<u8>, reply: &Reply) -> Result<(), AllocError>
    requires { IsReply reply.now }
    ensures ok { OnOk result (out.new.items ≡ out.old.items ++ reply_body reply.now) }
    ensures room { vec_len out.old + length (reply_body reply.now) ≤ vec_capacity out.old →
        IsOk result }
{
    out.extend_from_slice(&[kind_number(reply)])?;
    match reply {
        Reply::Placed(place) => out.extend_from_slice(&place.get().to_be_bytes()),
        Reply::Refused(refusal) => out.extend_from_slice(&[refusal.number()]),
        Reply::Opened {
            question,
            length,
            total,
        } => put_words(out, *question, *length, *total),
        Reply::Pending {
            question,
            delivered,
            total,
        } => put_words(out, *question, *delivered, *total),
        Reply::Report { question, text } => {
            out.extend_from_slice(&question.to_be_bytes())?;
            out.extend_from_slice(text.as_slice())
        }
        Reply::Status(status) => put_status(out, status),
        Reply::Fault(fault) => out.extend_from_slice(&[fault_number(*fault)]),
        Reply::Batched {
            accepted,
            refusal,
            length,
        } => put_batched(out, *accepted, *refusal, *length),
    }
}

/// Adds a reply frame at the end.
#[tactic(auto, unfolding(trace_model::specs::Protocol::Replies::reply_frame))]
fn put_frame(out: &mut Vec<u8>, reply: &Reply) -> Result<(), AllocError>
    requires { IsReply reply.now }
    ensures ok { OnOk result (out.new.items ≡ out.old.items ++ reply_frame reply.now) }
    ensures room { vec_len out.old + length (reply_frame reply.now) ≤ vec_capacity out.old →
        IsOk result }
{
    out.extend_from_slice(&body_len(reply).to_be_bytes())?;
    put_body(out, reply)
}

/// Adds the frame of `reply` at the end of `out`. The text of a report must have at most
/// `MAX_REPORT` bytes.
///
/// # Errors
///
/// `NoMemory` if an allocation fails. The bytes in `out` are unchanged.
#[tactic(auto, unfolding(trace_model::specs::Protocol::Replies::reply_frame))]
pub fn push_reply(out: &mut Vec<u8>, reply: &Reply) -> Result<(), NoMemory>
    requires { IsReply reply.now }
    ensures ok { OnOk result (out.new.items ≡ out.old.items ++ reply_frame reply.now) }
    ensures err { OnErr result (out.new.items ≡ out.old.items) }
    ensures full { OnErr result (vec_capacity out.old < vec_len out.old +
        length (reply_frame reply.now)) }
{
    out.reserve(body_len(reply) as usize + 4)?;
    let Ok(()) = put_frame(out, reply) else {
        unreachable!()
    };
    Ok(())
}

/// Returns the frame of `reply`. The text of a report must have at most `MAX_REPORT` bytes.
///
/// # Errors
///
/// `NoMemory` if an allocation fails.
pub fn encode_reply(alloc: Global, reply: &Reply) -> Result<Vec<u8>, NoMemory>
    requires { IsReply reply.now }
    ensures { IfOk result (λ bytes. bytes.items ≡ reply_frame reply.now) }
{
    let mut out = Vec::new(alloc);
    push_reply(&mut out, reply)?;
    Ok(out)
}

/// Returns the text of a report, with which its frame ends. The frame of another reply has none.
pub fn frame_text(reply: &Reply) -> &[u8]
    ensures { result.now ≡ frame_text reply.now }
{
    match reply {
        Reply::Report { text, .. } => text.as_slice(),
        _ => &[],
    }
}

/// Returns the frame of the report about a question, without its text of `bytes` bytes.
///
/// # Errors
///
/// `AllocError` if an allocation fails.
#[tactic(auto, unfolding(trace_model::specs::Protocol::Replies::reply_frame))]
pub fn report_head(alloc: Global, question: u32, bytes: u32) -> Result<Vec<u8>, AllocError>
    requires { bytes + 5 < 2 ^ 32 }
    ensures { IfOk result (λ head. (text : List ℕ) → length text ≡ bytes →
        head.items ++ text ≡ reply_frame (Report question text)) }
{
    let mut head = Vec::with_capacity(alloc, 9)?;
    head.extend_from_slice(&(bytes + 5).to_be_bytes())?;
    head.push(69)?;
    head.extend_from_slice(&question.to_be_bytes())?;
    Ok(head)
}

/// Returns the frame of `reply` without its [`frame_text`], which is not copied. The text of a
/// report must have at most `MAX_REPORT` bytes.
///
/// # Errors
///
/// `NoMemory` if an allocation fails.
pub fn encode_head(alloc: Global, reply: &Reply) -> Result<Vec<u8>, NoMemory>
    requires { IsReply reply.now }
    ensures { IfOk result (λ head. head.items ++ frame_text reply.now ≡ reply_frame reply.now) }
{
    match reply {
        Reply::Report { question, text } => {
            Ok(report_head(alloc, *question, text.as_slice().len() as u32)?)
        }
        _ => encode_reply(alloc, reply),
    }
}
