//! The lines that a script prints.
ghost use Rattle.std.specs.Prelude.{◌≡◌, ◌++◌, OnOk};
ghost use Rattle.commands.specs.Script.{opened_line, pending_line, batch_lines, refused_line, book_words, task_words, row_words, reply_text};

use crate::text::{push_last, push_number, push_refusal_line};
use trace_model::{NoMemory, QuestionStatus, Refusal, Reply};

fn push_opened(text: &mut Vec<u8>, question: u32, length: u32, total: u32) -> Result<(), NoMemory>
    ensures { OnOk result (text.new.items ≡ text.old.items ++ opened_line question length total) }
{
    push_number(text, b"opened ", question as u64)?;
    push_number(text, b" length ", length as u64)?;
    push_last(text, b" total ", total as u64)
}

fn push_pending(
    text: &mut Vec<u8>,
    question: u32,
    delivered: u32,
    total: u32,
) -> Result<(), NoMemory>
    ensures { OnOk result (text.new.items ≡ text.old.items ++
        pending_line question delivered total) }
{
    push_number(text, b"pending ", question as u64)?;
    push_number(text, b" delivered ", delivered as u64)?;
    push_last(text, b" total ", total as u64)
}

/// Appends the first part of a status line: the book, and the question's length and bound.
fn push_book(text: &mut Vec<u8>, status: &QuestionStatus) -> Result<(), NoMemory>
    ensures { OnOk result (text.new.items ≡ text.old.items ++ book_words status.now) }
{
    push_number(text, b"status ", status.question as u64)?;
    push_number(text, b" accepted ", status.accepted as u64)?;
    push_number(text, b" opened ", status.opened as u64)?;
    push_number(text, b" length ", status.length as u64)?;
    push_number(text, b" bound ", status.bound.get() as u64)
}

/// Appends the second part of a status line: the question's tasks.
fn push_tasks(text: &mut Vec<u8>, status: &QuestionStatus) -> Result<(), NoMemory>
    ensures { OnOk result (text.new.items ≡ text.old.items ++ task_words status.now) }
{
    push_number(text, b" total ", status.total as u64)?;
    push_number(text, b" delivered ", status.delivered as u64)
}

/// Appends the third part of a status line: the rows of the delivered tasks.
fn push_rows(text: &mut Vec<u8>, status: &QuestionStatus) -> Result<(), NoMemory>
    ensures { OnOk result (text.new.items ≡ text.old.items ++ row_words status.now) }
{
    push_number(text, b" cycles ", status.cycles)?;
    push_last(text, b" confirmed ", status.confirmed)?;
    Ok(())
}

/// Appends the line of a refusal, if there is one.
fn push_refused(text: &mut Vec<u8>, refusal: Option<Refusal>) -> Result<(), NoMemory>
    ensures { OnOk result (text.new.items ≡ text.old.items ++ refused_line refusal) }
{
    if let Some(refusal) = refusal {
        push_refusal_line(text, refusal)?;
    }
    Ok(())
}

/// Appends the reply to a batch.
fn push_batched(
    text: &mut Vec<u8>,
    accepted: u8,
    refusal: Option<Refusal>,
    length: u32,
) -> Result<(), NoMemory>
    ensures { OnOk result (text.new.items ≡ text.old.items ++ batch_lines accepted refusal length) }
{
    push_number(text, b"batch ", accepted as u64)?;
    push_last(text, b" at ", length as u64)?;
    push_refused(text, refusal)
}

/// Appends what a script prints for the reply: its lines, or the report.
///
/// # Errors
///
/// `NoMemory` if an allocation fails.
pub fn push_reply(text: &mut Vec<u8>, reply: &Reply) -> Result<(), NoMemory>
    ensures { OnOk result (text.new.items ≡ text.old.items ++ reply_text reply.now) }
{
    match reply {
        Reply::Placed(place) => push_last(text, b"placed ", place.get() as u64),
        Reply::Refused(refusal) => push_refusal_line(text, *refusal),
        Reply::Opened {
            question,
            length,
            total,
        } => push_opened(text, *question, *length, *total),
        Reply::Pending {
            question,
            delivered,
            total,
        } => push_pending(text, *question, *delivered, *total),
        Reply::Report { text: report, .. } => {
            text.extend_from_slice(report.as_slice())?;
            Ok(())
        }
        Reply::Status(status) => {
            push_book(text, status)?;
            push_tasks(text, status)?;
            push_rows(text, status)
        }
        Reply::Fault(_) => Ok(()),
        Reply::Batched {
            accepted,
            refusal,
            length,
        } => push_batched(text, *accepted, *refusal, *length),
    }
}
