//! Parts of the lines that commands print.
ghost use Rattle.std.specs.Prelude.{◌≡◌, ◌++◌, OnOk};
ghost use Rattle.trace_model.specs.Protocol.Refusals.{name_of};
ghost use Rattle.commands.specs.Text.{labeled_line, refusal_line, refusal_words};
ghost use Rattle.event_files.specs.Refutations.{label_and_number};

use itoa::Buffer;
use trace_model::{NoMemory, Refusal, refusal_name};

#[tactic(auto, using(crate::proofs::RefusalNames::named))]
fn name_of(refusal: Refusal) -> &'static str
    ensures { result.now ≡ name_of refusal }
{
    let Some(name) = refusal_name(refusal.number()) else {
        unreachable!()
    };
    name
}

/// Appends `refused`, the number and the name of the refusal, without a line feed.
///
/// # Errors
///
/// `NoMemory` if an allocation fails.
pub fn push_refusal(text: &mut Vec<u8>, refusal: Refusal) -> Result<(), NoMemory>
    ensures { OnOk result (text.new.items ≡ text.old.items ++ refusal_words refusal) }
{
    text.extend_from_slice(b"refused ")?;
    text.extend_from_slice(Buffer::new().format(refusal.number()).as_bytes())?;
    text.push(b' ')?;
    text.extend_from_slice(name_of(refusal).as_bytes())?;
    Ok(())
}

/// Appends the refusal as a line.
///
/// # Errors
///
/// `NoMemory` if an allocation fails.
pub(crate) fn push_refusal_line(text: &mut Vec<u8>, refusal: Refusal) -> Result<(), NoMemory>
    ensures { OnOk result (text.new.items ≡ text.old.items ++ refusal_line refusal) }
{
    push_refusal(text, refusal)?;
    text.push(b'\n')?;
    Ok(())
}

/// Appends a label and a decimal number.
///
/// # Errors
///
/// `NoMemory` if an allocation fails.
pub(crate) fn push_number(text: &mut Vec<u8>, label: &[u8], number: u64) -> Result<(), NoMemory>
    ensures { OnOk result (text.new.items ≡ text.old.items ++ label_and_number label.now number) }
{
    text.extend_from_slice(label)?;
    text.extend_from_slice(Buffer::new().format(number).as_bytes())?;
    Ok(())
}

/// Appends a label, a decimal number and a line feed.
///
/// # Errors
///
/// `NoMemory` if an allocation fails.
pub(crate) fn push_last(text: &mut Vec<u8>, label: &[u8], number: u64) -> Result<(), NoMemory>
    ensures { OnOk result (text.new.items ≡ text.old.items ++ labeled_line label.now number) }
{
    push_number(text, label, number)?;
    text.push(b'\n')?;
    Ok(())
}
