//! The command `offline`: the report on a file of events.
ghost use Rattle.std.specs.Prelude.{◌≡◌, ◌++◌, ◌≤◌, IfOk, IfErr, OnErr, OnOk};
ghost use Rattle.std.specs.Io.KnownBytes.{Appends};
ghost use Rattle.commands.specs.declared.exit.Status.TheVariants.{Done, Error, Refused};
ghost use Rattle.commands.specs.Admission.{HasBadLine};
ghost use Rattle.commands.specs.Exit.{error_status};
ghost use Rattle.commands.specs.Offline.{OfflinePrints, OfflineTells, ReportPrints, refused_line};
ghost use Rattle.commands.specs.Output.{AppendsPart, EndsWithResult, IsJust};
ghost use Rattle.offline_report.specs.Offline.{IsOfflineRefusal, IsReportRows, rows_text, tasks_rows_text};

use crate::admission::push_refused_at;
use crate::exit::{CommandError, OUTPUT, Status, reported, write_bytes, write_text};
use crate::files::read_file;
use crate::opening::{Opening, analyze, open_file};
use crate::progress::Progress;
use crate::progress_line::ProgressLine;
use crate::text::push_refusal_line;
use findings::Snapshot;
use offline_report::{Offline, OfflineRefused, ReportRows, RowPrinter};
use reports::BareRow;
use std::alloc::Global;
use std::hash::RandomState;
use std::io::{self, BufWriter, IsTerminal, Write};
use std::thread::Threads;
use trace_model::{Bound, NoMemory, Refusal};

/// Appends the line that says why there is no report. `NoMemory` has no line.
fn push_refused(text: &mut Vec<u8>, refused: OfflineRefused) -> Result<(), NoMemory>
    ensures { OnOk result (text.new.items ≡ text.old.items ++ refused_line refused) }
{
    match refused {
        OfflineRefused::Unlawful(first) => push_refused_at(text, first),
        OfflineRefused::TooLong => push_refusal_line(text, Refusal::ReportTooLong),
        OfflineRefused::TooManyCycles => push_refusal_line(text, Refusal::TooManyCycles),
        OfflineRefused::NoMemory => Ok(()),
    }
}

/// Returns the rows of the report, and reports the progress.
fn rows_of<R: Threads + Sync, P: Progress + Sync>(
    rt: &R,
    offline: &Offline,
    progress: &P,
) -> Result<ReportRows, OfflineRefused>
    ensures rows { IfOk result (IsReportRows offline.now.events offline.now.bound) }
    ensures refused { IfErr result (IsOfflineRefusal offline.now.events offline.now.bound) }
{
    progress.begin(offline.tasks());
    let found = offline.rows(rt, progress);
    progress.end();
    found
}

/// Writes the texts of the rows of a task.
fn write_rows<O: Write>(
    snapshot: &Snapshot,
    rows: Vec<BareRow>,
    printer: &mut RowPrinter,
    out: &mut O,
) -> Result<(), CommandError>
    ensures written { OnOk result (Appends (O.contents out.old) (O.contents out.new)
        (rows_text snapshot.now rows.items)) }
    ensures cut { OnErr result (AppendsPart (O.contents out.old) (O.contents out.new)
        (rows_text snapshot.now rows.items)) }
    ensures failed { IfErr result (λ error. error_status error ≡ Error) }
{
    for row in rows {
        let row = printer.print(snapshot, row)?;
        write_bytes(out, printer.text())?;
        printer.keep(row);
    }
    Ok(())
}

/// Writes the first line of a report and the texts of its rows. All memory is allocated before the
/// first byte is written.
fn write_report<O: Write>(
    alloc: Global,
    snapshot: &Snapshot,
    found: ReportRows,
    out: &mut O,
) -> Result<Status, CommandError>
    ensures { EndsWithResult (IsJust Done (found.first_line.items ++
        tasks_rows_text snapshot.now found.tasks.items)) ⊥ result
        (O.contents out.old) (O.contents out.new) }
{
    let mut printer = RowPrinter::new(alloc, snapshot.len() as u32, &found)?;
    write_bytes(out, &found.first_line)?;
    for rows in found.tasks {
        write_rows(snapshot, rows, &mut printer, out)?;
    }
    out.flush()?;
    Ok(Status::Done)
}

/// Writes the line that says why there is no report.
pub(crate) fn write_refused<O: Write>(
    alloc: Global,
    refused: OfflineRefused,
    out: &mut O,
) -> Result<Status, CommandError>
    ensures { EndsWithResult (IsJust Refused (refused_line refused)) ⊥ result
        (O.contents out.old) (O.contents out.new) }
{
    let mut text = Vec::new(alloc);
    push_refused(&mut text, refused)?;
    write_text(out, &text, Status::Refused)
}

/// Writes the report on the opened events, or why there is none.
fn report_on<R: Threads + Sync, P: Progress + Sync, O: Write>(
    rt: &R,
    alloc: Global,
    offline: &Offline,
    progress: &P,
    out: &mut O,
) -> Result<Status, CommandError>
    ensures { EndsWithResult (ReportPrints offline.now.events offline.now.bound) ⊥ result
        (O.contents out.old) (O.contents out.new) }
{
    match rows_of(rt, offline, progress) {
        Ok(found) => write_report(alloc, offline.snapshot(), found, out),
        Err(OfflineRefused::NoMemory) => Err(CommandError::Memory),
        Err(refused) => write_refused(alloc, refused, out),
    }
}

/// Writes the report on the events of the snapshot, or why there is none.
fn report_snapshot<R: Threads + Sync, P: Progress + Sync, O: Write>(
    rt: &R,
    alloc: Global,
    snapshot: Snapshot,
    bound: Bound,
    progress: &P,
    out: &mut O,
) -> Result<Status, CommandError>
    ensures { EndsWithResult (ReportPrints snapshot bound) ⊥ result
        (O.contents out.old) (O.contents out.new) }
{
    let offline = Offline::of(alloc, analyze(rt, alloc, snapshot, bound)?);
    report_on(rt, alloc, &offline, progress, out)
}

/// Writes the report on the events of the file, or why there is none. The bytes of the file are
/// freed when its events are read.
fn report<R: Threads + Sync, P: Progress + Sync, O: Write>(
    rt: &R,
    alloc: Global,
    state: RandomState,
    file: Vec<u8>,
    bound: Bound,
    progress: &P,
    out: &mut O,
) -> Result<Status, CommandError>
    ensures { EndsWithResult (OfflinePrints file.items bound) (HasBadLine file.items) result
        (O.contents out.old) (O.contents out.new) }
{
    match open_file(rt, alloc, state, &file)? {
        Opening::Opened(snapshot) => {
            drop(file);
            report_snapshot(rt, alloc, snapshot, bound, progress, out)
        }
        Opening::Refused(first) => write_refused(alloc, OfflineRefused::Unlawful(first), out),
    }
}

/// Writes the report on the events in `file` to `out`: question 0, cycles of at most `bound`
/// members. If an event is not lawful or there is no report, `out` gets one line that says so, and
/// the status is `Refused`. One thread per processor computes the tasks and calls `progress` after
/// each. An error message about the file `name` goes to `err`. The bytes of the file are freed when
/// its events are read.
pub fn run_offline<R: Threads + Sync, P: Progress + Sync, O: Write, E: Write>(
    rt: &R,
    alloc: Global,
    state: RandomState,
    name: &str,
    file: Vec<u8>,
    bound: Bound,
    progress: &P,
    out: &mut O,
    err: &mut E,
) -> Status
    ensures { OfflineTells file.items bound result (O.contents out.old) (O.contents out.new) }
{
    let ended = report(rt, alloc, state, file, bound, progress, out);
    reported(ended, name, err)
}

/// Runs `run_offline` over the bytes of a file, on the standard streams.
fn offline_bytes<T: Threads + Sync>(
    rt: &HostRuntime,
    threads: &T,
    file: &str,
    bytes: Vec<u8>,
    bound: u32,
    progress: &ProgressLine<'_, HostRuntime>,
) -> io::Result<Status>
    requires least { 2 ≤ bound }
    requires most { bound ≤ 8 }
{
    let Some(bound) = Bound::new(bound as u8) else {
        unreachable!()
    };
    let state = RandomState::new(rt)?;
    let mut out = BufWriter::with_capacity(rt.alloc(), OUTPUT, rt.stdout())?;
    let mut err = rt.stderr();
    Ok(run_offline(
        threads,
        rt.alloc(),
        state,
        file,
        bytes,
        bound,
        progress,
        &mut out,
        &mut err,
    ))
}

/// Runs `offline` over the file with this name. The status is `Error` if the file cannot be read.
///
/// # Errors
///
/// If an allocation or a standard stream fails before the report begins.
pub fn offline_file<T: Threads + Sync>(
    rt: &HostRuntime,
    threads: &T,
    file: &str,
    bound: u32,
) -> io::Result<Status>
    requires least { 2 ≤ bound }
    requires most { bound ≤ 8 }
{
    let progress = ProgressLine::new(rt, rt.stderr().is_terminal());
    let Some(bytes) = read_file(rt, file)? else {
        return Ok(Status::Error);
    };
    offline_bytes(rt, threads, file, bytes, bound, &progress)
}
