//! Writes refutations as text: a line for each entry of a derivation, and one for its conclusion.
ghost use Rattle.std.specs.Prelude.{◌≡◌, ◌++◌, OnOk};
ghost use Rattle.std.specs.List.{All, flat_map};
ghost use Rattle.event_files.specs.Refutations.{label_and_number, reason_line, entry_text, conclusion_text, step_text, refutation_text, IsWritable};

use itoa::Buffer;
use trace_model::{Derived, NoMemory, Place, Reason, RefutationStep};

/// Appends a label and a number.
fn push_number(text: &mut Vec<u8>, label: &[u8], number: u32) -> Result<(), NoMemory>
    ensures { OnOk result (text.new.items ≡ text.old.items ++ label_and_number label.now number) }
{
    text.extend_from_slice(label)?;
    text.extend_from_slice(Buffer::new().format(number).as_bytes())?;
    Ok(())
}

/// Appends a label and a place.
fn push_place(text: &mut Vec<u8>, label: &[u8], place: Place) -> Result<(), NoMemory>
    ensures { OnOk result (text.new.items ≡ text.old.items ++ label_and_number label.now place) }
{
    push_number(text, label, place.get())
}

/// Appends the sentence that derives a place by the reason.
fn push_reason(text: &mut Vec<u8>, reason: Reason, place: Place) -> Result<(), NoMemory>
    ensures { OnOk result (text.new.items ≡ text.old.items ++ reason_line reason place) }
{
    match reason {
        Reason::BeforeMember(of) => {
            push_place(text, b"  before place ", of)?;
            push_place(text, b" its thread runs place ", place)?;
        }
        Reason::ThreadOrder(of) => {
            push_place(text, b"  place ", of)?;
            push_place(text, b" needs place ", place)?;
            text.extend_from_slice(b": earlier in its thread")?;
        }
        Reason::ForkJoin(of) => {
            push_place(text, b"  place ", of)?;
            push_place(text, b" needs place ", place)?;
            text.extend_from_slice(b": fork or join")?;
        }
        Reason::ReadsFrom(of) => {
            push_place(text, b"  place ", of)?;
            push_place(text, b" reads what place ", place)?;
            text.extend_from_slice(b" wrote")?;
        }
        Reason::Sections(first, second) => {
            push_place(text, b"  places ", first)?;
            push_place(text, b" and ", second)?;
            push_place(text, b" acquire one lock: place ", place)?;
            text.extend_from_slice(b" releases it between them")?;
        }
    }
    Ok(())
}

/// Appends the line of an entry of a derivation.
///
/// # Errors
///
/// `NoMemory` if an allocation fails. A part of the line may have been appended.
pub fn push_entry(text: &mut Vec<u8>, entry: &Derived) -> Result<(), NoMemory>
    ensures { OnOk result (text.new.items ≡ text.old.items ++ entry_text entry.now) }
{
    push_reason(text, entry.reason, entry.place)?;
    text.push(b'\n')?;
    Ok(())
}

/// Appends the lines of a derivation.
fn push_entries(text: &mut Vec<u8>, entries: &[Derived]) -> Result<(), NoMemory>
    ensures { OnOk result (text.new.items ≡ text.old.items ++ flat_map entry_text entries.now) }
{
    for entry in entries {
        push_entry(text, entry)?;
    }
    Ok(())
}

/// Appends the line of a conclusion: the thread cannot stop before the place.
fn push_conclusion(text: &mut Vec<u8>, thread: u32, place: Place) -> Result<(), NoMemory>
    ensures { OnOk result (text.new.items ≡ text.old.items ++ conclusion_text thread place) }
{
    push_place(text, b"  so place ", place)?;
    push_number(text, b" must run: thread ", thread)?;
    text.extend_from_slice(b" cannot stop before it")?;
    text.push(b'\n')?;
    Ok(())
}

/// Appends the lines of a step.
fn push_step(text: &mut Vec<u8>, threads: &[u32], step: &RefutationStep) -> Result<(), NoMemory>
    requires { IsWritable threads.now step.now }
    ensures { OnOk result (text.new.items ≡ text.old.items ++ step_text threads.now step.now) }
{
    let entries = step.derivation.entries();
    push_entries(text, entries)?;
    push_conclusion(text, threads[step.member], entries[entries.len() - 1].place)
}

/// Appends the text of a refutation of a cycle whose members have these threads.
///
/// The caller passes steps that name one of the threads and derive a place.
///
/// # Errors
///
/// `NoMemory` if an allocation fails. A part of the text may have been appended.
pub fn push_refutation(
    text: &mut Vec<u8>,
    threads: &[u32],
    steps: &[RefutationStep],
) -> Result<(), NoMemory>
    requires { All (IsWritable threads.now) steps.now }
    ensures { OnOk result (text.new.items ≡
        text.old.items ++ refutation_text threads.now steps.now) }
{
    for step in steps {
        push_step(text, threads, step)?;
    }
    Ok(())
}
