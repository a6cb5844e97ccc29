//! The command `check`: the check of explained cycles against a trace.
ghost use Rattle.std.specs.Prelude.{IfOk, length};
ghost use Rattle.trace_model.specs.Theory.Lawful.{IsWellFormed};
ghost use Rattle.dependencies.specs.Tables.{HasDependenciesOf};
ghost use Rattle.event_files.specs.ExplainedText.{IsContents, contents_of};
ghost use Rattle.commands.specs.Check.{CheckTells, ChecksAs, IsCheckOf, IsNotExplained};
ghost use Rattle.commands.specs.Output.{EndsWithResult};

use crate::admission::admit;
use crate::check_words::{push_head, push_rows};
use crate::exit::{CommandError, OUTPUT, Status, reported, write_text};
use crate::files::{NamedFile, read_file};
use dependencies::DepTable;
use event_files::{ExplainedFile, read_explained};
use lock_tables::{LockParts, LockTables};
use replay::EvidenceChecker;
use std::alloc::Global;
use std::hash::RandomState;
use std::io::{self, BufWriter, Write};
use std::thread::Threads;
use trace_model::{Event, NoMemory};

/// What the check of a file prints, and how it ends.
#[derive(Drop)]
struct Checked {
    text: Vec<u8>,
    status: Status,
}

/// Returns the dependencies of the events.
fn dependencies_of(
    alloc: Global,
    state: RandomState,
    events: &[Event],
) -> Result<DepTable, NoMemory>
    requires { IsWellFormed events.now }
    ensures { IfOk result (λ table. HasDependenciesOf table events.now (length events.now)) }
{
    let LockParts {
        dependencies,
        graph: _,
    } = LockTables::of(alloc, state, events)?.into_parts()?;
    Ok(dependencies)
}

/// Checks the contents of a file of explained cycles.
fn check_all<R: Threads + Sync>(
    rt: &R,
    alloc: Global,
    state: RandomState,
    events: &[Event],
    file: &ExplainedFile,
) -> Result<Checked, NoMemory>
    requires trace { IsWellFormed events.now }
    requires file { IsContents (contents_of file.now) }
    ensures { IfOk result (λ checked.
        IsCheckOf events.now (contents_of file.now) checked.status checked.text.items) }
{
    let table = dependencies_of(alloc, state, events)?;
    let checker = EvidenceChecker::new(alloc, state, events)?;
    let mut text = Vec::new(alloc);
    let is_head_valid = push_head(&mut text, events, file)?;
    let are_rows_valid = push_rows(rt, alloc, &checker, &table, &file.cycles, &mut text)?;
    let status = if is_head_valid && are_rows_valid {
        Status::Done
    } else {
        Status::Refused
    };
    Ok(Checked { text, status })
}

/// Parses the explained cycles, checks them, and writes the verdicts.
fn write_checked<R: Threads + Sync, O: Write>(
    rt: &R,
    alloc: Global,
    state: RandomState,
    events: &[Event],
    file: &[u8],
    out: &mut O,
) -> Result<Status, CommandError>
    requires { IsWellFormed events.now }
    ensures { EndsWithResult (ChecksAs events.now file.now) (IsNotExplained file.now) result
        (O.contents out.old) (O.contents out.new) }
{
    let explained = read_explained(alloc, file)?;
    let Checked { text, status } = check_all(rt, alloc, state, events, &explained)?;
    write_text(out, &text, status)
}

/// Checks the cycles in `file`, as `explain` or `offline` prints them, against the trace. Writes a
/// line for the first line of a report, if the file has it, and one for each cycle to `out`: that
/// it is valid, or the first test that fails. Or it writes one line with the first event of the
/// trace that is not lawful. An error message goes to `err`, with the name of the file at fault.
/// The status is `Done` if all lines are valid. One thread per processor checks the cycles.
pub fn run_check<R: Threads + Sync, O: Write, E: Write>(
    rt: &R,
    alloc: Global,
    state: RandomState,
    trace: NamedFile<'_>,
    file: NamedFile<'_>,
    out: &mut O,
    err: &mut E,
) -> Status
    ensures { CheckTells trace.entry.bytes.now file.entry.bytes.now result
        (O.contents out.old) (O.contents out.new) }
{
    let events = match admit(alloc, state, trace, out, err) {
        Ok(events) => events,
        Err(status) => return status,
    };
    let ended = write_checked(rt, alloc, state, &events, file.bytes, out);
    drop(events);
    reported(ended, file.name, err)
}

/// Runs `check` over the files with these names. The status is `Error` if one of them cannot be
/// read.
///
/// # Errors
///
/// If an allocation or a standard stream fails before the check begins.
pub fn check_files<T: Threads + Sync>(
    rt: &HostRuntime,
    threads: &T,
    trace: &str,
    file: &str,
) -> io::Result<Status> {
    let Some(events) = read_file(rt, trace)? else {
        return Ok(Status::Error);
    };
    let Some(cycles) = read_file(rt, file)? else {
        return Ok(Status::Error);
    };
    let trace = NamedFile {
        name: trace,
        bytes: &events,
    };
    let file = NamedFile {
        name: file,
        bytes: &cycles,
    };
    let state = RandomState::new(rt)?;
    let mut out = BufWriter::with_capacity(rt.alloc(), OUTPUT, rt.stdout())?;
    let mut err = rt.stderr();
    Ok(run_check(threads, rt.alloc(), state, trace, file, &mut out, &mut err))
}
