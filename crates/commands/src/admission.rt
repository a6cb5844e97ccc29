//! Event files passed through the admission check.
ghost use Rattle.std.specs.Prelude.{◌≡◌, ◌++◌, IfErr, IfOk, OnOk};
ghost use Rattle.commands.specs.Admission.{AreLawfulEventsOf, HasBadLine, IsAdmissionOf, RefusesFile, refused_at_line};
ghost use Rattle.commands.specs.Output.{EndsWithStatus, EndsWithResult, IsJust};
ghost use Rattle.commands.specs.Replay.{UnlawfulPrints};
ghost use Rattle.commands.specs.declared.exit.Status.TheVariants.{Refused};

use crate::exit::{CommandError, Status, reported, write_text};
use crate::files::NamedFile;
use crate::text::{push_last, push_refusal};
use event_files::read_events;
use std::alloc::Global;
use std::hash::RandomState;
use std::io::Write;
use trace_model::{Event, NoMemory};
use wellformed::{FirstUnlawful, first_unlawful};

/// The events of a file after the admission check.
#[derive(Drop)]
pub enum Admission {
    /// A well-formed trace: all events of the file.
    Admitted(Vec<Event>),
    /// The first event that is not lawful after those before it.
    Refused(FirstUnlawful),
}

/// Parses an event file and passes its events through the admission check.
///
/// # Errors
///
/// `Line` with the first line that is not understood, or `Memory` if an allocation fails.
pub fn admit_file(alloc: Global, state: RandomState, file: &[u8]) -> Result<Admission, CommandError>
    ensures admission { IfOk result (IsAdmissionOf file.now) }
    ensures refused { IfErr result (RefusesFile file.now) }
{
    let events = read_events(alloc, file)?;
    match first_unlawful(alloc, state, &events)? {
        None => Ok(Admission::Admitted(events)),
        Some(first) => Ok(Admission::Refused(first)),
    }
}

/// Appends the line that reports the first unlawful event of a file.
///
/// # Errors
///
/// `NoMemory` if an allocation fails.
pub fn push_refused_at(text: &mut Vec<u8>, first: FirstUnlawful) -> Result<(), NoMemory>
    ensures { OnOk result (text.new.items ≡ text.old.items ++ refused_at_line first) }
{
    push_refusal(text, first.refusal)?;
    push_last(text, b" at ", first.index as u64)
}

/// Writes the line that reports the first unlawful event of a file.
pub(crate) fn write_unlawful<O: Write>(
    alloc: Global,
    first: FirstUnlawful,
    out: &mut O,
) -> Result<Status, CommandError>
    ensures { EndsWithResult (IsJust Refused (refused_at_line first)) ⊥ result
        (O.contents out.old) (O.contents out.new) }
{
    let mut text = Vec::new(alloc);
    push_refused_at(&mut text, first)?;
    write_text(out, &text, Status::Refused)
}

/// Returns the events of a trace, which are lawful.
///
/// # Errors
///
/// The status of the command: `Refused` after a line about the first unlawful event on `out`, or
/// another one after an error message about the trace on `err`.
pub(crate) fn admit<O: Write, E: Write>(
    alloc: Global,
    state: RandomState,
    trace: NamedFile<'_>,
    out: &mut O,
    err: &mut E,
) -> Result<Vec<Event>, Status>
    ensures admitted { IfOk result
        (λ events. AreLawfulEventsOf events.items trace.entry.bytes.now) }
    ensures kept { OnOk result (O.contents out.new ≡ O.contents out.old) }
    ensures refused { IfErr result (λ status. EndsWithStatus (UnlawfulPrints trace.entry.bytes.now)
        (HasBadLine trace.entry.bytes.now) status (O.contents out.old) (O.contents out.new)) }
{
    match admit_file(alloc, state, trace.bytes) {
        Ok(Admission::Admitted(events)) => Ok(events),
        Ok(Admission::Refused(first)) => {
            let ended = write_unlawful(alloc, first, out);
            Err(reported(ended, trace.name, err))
        }
        Err(error) => Err(error.report(trace.name, err)),
    }
}
