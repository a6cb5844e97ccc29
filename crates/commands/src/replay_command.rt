//! The command `replay`: the check of a witness against a trace.
ghost use Rattle.std.specs.Prelude.{◌≡◌, ◌++◌, OnOk};
ghost use Rattle.trace_model.specs.Theory.Lawful.{IsWellFormed};
ghost use Rattle.commands.specs.Output.{EndsWithResult};
ghost use Rattle.commands.specs.Replay.{HasWrongWitness, ReplayTells, VerdictPrints, verdict_line, verdict_status};

use crate::admission::admit;
use crate::exit::{CommandError, Status, reported, write_text};
use crate::files::{NamedFile, read_file};
use crate::text::push_last;
use event_files::read_witness;
use replay::{Verdict, check};
use std::alloc::Global;
use std::hash::RandomState;
use std::io::{self, Write};
use trace_model::{Event, NoMemory};

/// Appends the line of a verdict.
fn push_verdict(text: &mut Vec<u8>, verdict: &Verdict) -> Result<(), NoMemory>
    ensures { OnOk result (text.new.items ≡ text.old.items ++ verdict_line verdict.now) }
{
    match verdict {
        Verdict::Reaches => {
            text.extend_from_slice(b"reaches\n")?;
            Ok(())
        }
        Verdict::Fails(fault, place) => {
            text.extend_from_slice(b"fault ")?;
            text.extend_from_slice(fault.name().as_bytes())?;
            push_last(text, b" ", u64::from(place.get()))
        }
    }
}

/// Returns the exit status of a verdict.
fn status_of(verdict: &Verdict) -> Status
    ensures { result ≡ verdict_status verdict.now }
{
    match verdict {
        Verdict::Reaches => Status::Done,
        Verdict::Fails(_, _) => Status::Refused,
    }
}

/// Checks the witness against the events and writes the verdict.
fn write_verdict<O: Write>(
    alloc: Global,
    state: RandomState,
    events: &[Event],
    witness: &[u8],
    out: &mut O,
) -> Result<Status, CommandError>
    requires { IsWellFormed events.now }
    ensures { EndsWithResult (VerdictPrints events.now witness.now)
        (HasWrongWitness witness.now) result
        (O.contents out.old) (O.contents out.new) }
{
    let witness = read_witness(alloc, witness)?;
    let verdict = check(alloc, state, events, &witness.order, &witness.instance)?;
    let mut text = Vec::new(alloc);
    push_verdict(&mut text, &verdict)?;
    write_text(out, &text, status_of(&verdict))
}

/// Checks the witness against the trace. Writes one line to `out`: `reaches`; or the first test
/// that fails, with its place; or the first event of the trace that is not lawful, with its index.
/// An error message goes to `err`, with the name of the file at fault.
pub fn run_replay<O: Write, E: Write>(
    alloc: Global,
    state: RandomState,
    trace: NamedFile<'_>,
    witness: NamedFile<'_>,
    out: &mut O,
    err: &mut E,
) -> Status
    ensures { ReplayTells trace.entry.bytes.now witness.entry.bytes.now result
        (O.contents out.old) (O.contents out.new) }
{
    let events = match admit(alloc, state, trace, out, err) {
        Ok(events) => events,
        Err(status) => return status,
    };
    let ended = write_verdict(alloc, state, &events, witness.bytes, out);
    drop(events);
    reported(ended, witness.name, err)
}

/// Runs `replay` over the files with these names. The status is `Error` if one of them cannot be
/// read.
///
/// # Errors
///
/// If an allocation or a standard stream fails before the check begins.
pub fn replay_files(rt: &HostRuntime, trace: &str, witness: &str) -> io::Result<Status> {
    let Some(events) = read_file(rt, trace)? else {
        return Ok(Status::Error);
    };
    let Some(order) = read_file(rt, witness)? else {
        return Ok(Status::Error);
    };
    let trace = NamedFile {
        name: trace,
        bytes: &events,
    };
    let witness = NamedFile {
        name: witness,
        bytes: &order,
    };
    let state = RandomState::new(rt)?;
    let mut out = rt.stdout();
    let mut err = rt.stderr();
    Ok(run_replay(rt.alloc(), state, trace, witness, &mut out, &mut err))
}
