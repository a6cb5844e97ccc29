//! Snapshots of event files, each built while its file is read.
ghost use Rattle.std.specs.Prelude.{◌≡◌, ◌++◌, IfErr, IfOk, MatchResult, Ok, OnOk};
ghost use Rattle.std.specs.Arc.{arc_value};
ghost use Rattle.std.specs.Option.{option_copied};
ghost use Rattle.std.specs.Thread.{IsSync};
ghost use Rattle.trace_model.specs.Theory.Trace.{Trace};
ghost use Rattle.trace_model.specs.Theory.Lawful.{IsWellFormed};
ghost use Rattle.wellformed.specs.Tables.{FollowEvents};
ghost use Rattle.wellformed.specs.FirstUnlawful.{IsFirstUnlawful};
ghost use Rattle.event_files.specs.EventFile.{pieces_at, RefusesLines};
ghost use Rattle.event_files.specs.declared.refused.FileRefused.TheVariants as refusals;
ghost use Rattle.findings.specs.Analyses.{IsAnalysisOf};
ghost use Rattle.commands.specs.Admission.{AreLawfulEventsOf, HasBadLine, RefusesFile};
ghost use Rattle.commands.specs.AdmittedBlocks.{AreEventsBefore, IsBlockAfter, IsRefusedAfter};
ghost use Rattle.commands.specs.Opening.{IsOpeningOf};
ghost use Rattle.commands.specs.Output.{EndsWithStatus};
ghost use Rattle.commands.specs.Replay.{UnlawfulPrints};

use crate::admission::write_unlawful;
use crate::admitted_blocks::{AdmittedBlock, read_block};
use crate::exit::{CommandError, Status, reported};
use crate::files::NamedFile;
use event_files::{FileRefused, line_count, read_events, split_lines};
use findings::Analysis;
use snapshots::{Snapshot, SnapshotBuilder};
use std::alloc::Global;
use std::hash::RandomState;
use std::io::Write;
use std::sync::Arc;
use std::thread::{Threads, join};
use trace_model::{Bound, Event, NoMemory};
use wellformed::{AdmissionTables, FirstUnlawful};

/// The snapshot of a file's events after the admission check.
#[derive(Drop)]
pub(crate) enum Opening {
    /// The snapshot of all events of the file.
    Opened(Snapshot),
    /// The first event that is not lawful after those before it.
    Refused(FirstUnlawful),
}

/// The least number of bytes of the first block of lines of a file, unless it is the last one. It
/// is small, since nothing else is done while it is read.
const FIRST_BLOCK: usize = 16_384;

/// The same for a later block, at most.
const BLOCK: usize = 262_144;

/// How many times the least number of bytes of a block is that of the block before it, up to
/// `BLOCK`. A block is read in about half of the time in which it is added to a snapshot.
const GROWTH: usize = 2;

/// Returns both results, or one of the errors.
fn both_or_error(
    next: Result<AdmittedBlock, FileRefused>,
    built: Result<SnapshotBuilder, NoMemory>,
) -> Result<(AdmittedBlock, SnapshotBuilder), FileRefused>
    ensures ok { IfOk result (λ both. (next ≡ Ok both.0) × (built ≡ Ok both.1)) }
    ensures err { IfErr result (λ error. MatchResult next
        (λ _. error ≡ refusals.NoMemory) (λ refused. error ≡ refused)) }
{
    match (next, built) {
        (Ok(next), Ok(built)) => Ok((next, built)),
        (Ok(next), Err(refused)) => {
            drop(next);
            Err(FileRefused::from(refused))
        }
        (Err(refused), Ok(built)) => {
            drop(built);
            Err(refused)
        }
        (Err(refused), Err(_)) => Err(refused),
    }
}

/// Adds lawful events to the snapshot, while the block of lines after them is read. Returns that
/// block.
///
/// # Errors
/// - `Line` with the number of the block's first line that is not understood.
/// - `NoMemory` if an allocation fails.
fn add_and_read<R: Threads + Sync>(
    rt: &R,
    alloc: Global,
    built: SnapshotBuilder,
    events: Vec<Event>,
    admission: AdmissionTables,
    text: &[u8],
) -> Result<(AdmittedBlock, SnapshotBuilder), FileRefused>
    requires { FollowEvents admission (built ++ events.items) }
    ensures built { IfOk result (λ both. both.1 ≡ built ++ events.items) }
    ensures block { IfOk result
        (λ both. IsBlockAfter text.now (built ++ events.items) both.0) }
    ensures refused { IfErr result (RefusesLines (pieces_at 10 text.now)) }
{
    let (next, built) = join(
        rt,
        move || -> Result<AdmittedBlock, FileRefused>
            requires { (s : Trace) × FollowEvents admission s }
            ensures block { IfOk result (λ block. (s : Trace) → FollowEvents admission s →
                IsBlockAfter text.entry.now s block) }
            ensures refused { IfErr result (RefusesLines (pieces_at 10 text.entry.now)) }
        { read_block(alloc, text, admission) },
        move || -> Result<SnapshotBuilder, NoMemory>
            requires { IsSync R.row × IsWellFormed (built ++ events.items) }
            ensures { IfOk result (λ builder. builder ≡ built ++ events.items) }
        { built.extended(rt, &events) },
    );
    both_or_error(next, built)
}

/// Returns why a file is refused if its block `text`, which the rest follows, is refused: the number
/// of a line counts from the beginning of the file.
fn refused_in(file: &[u8], text: &[u8], rest: Option<&[u8]>, refused: FileRefused) -> FileRefused
    requires { IsRefusedAfter file.now text.now (option_copied rest) refused }
    ensures { RefusesLines (pieces_at 10 file.now) result }
{
    match refused {
        FileRefused::Line(number) => {
            let later = match rest {
                Some(rest) => line_count(rest),
                None => 0,
            };
            FileRefused::Line(line_count(file) - line_count(text) - later + number)
        }
        FileRefused::NoMemory => FileRefused::NoMemory,
    }
}

/// Returns the refusal of a file with an event that is not lawful. Reads the rest of the file, of
/// which a line may not be understood.
///
/// # Errors
/// - `Line` with the first line that is not understood.
/// - `NoMemory` if an allocation fails.
fn unlawful(
    alloc: Global,
    file: &[u8],
    rest: Option<&[u8]>,
    first: FirstUnlawful,
) -> Result<Opening, FileRefused>
    requires { (s : Trace) × AreEventsBefore file.now (option_copied rest) s
        × IsFirstUnlawful s first }
    ensures opening { IfOk result (IsOpeningOf file.now) }
    ensures refused { IfErr result (RefusesLines (pieces_at 10 file.now)) }
{
    let Some(text) = rest else {
        return Ok(Opening::Refused(first));
    };
    let Err(refused) = read_events(alloc, text) else {
        return Ok(Opening::Refused(first));
    };
    Err(refused_in(file, text, None, refused))
}

/// Opens a file block by block. See [`open_file`].
///
/// # Errors
/// - `Line` with the first line that is not understood.
/// - `NoMemory` if an allocation fails.
fn open_blocks<R: Threads + Sync>(
    rt: &R,
    alloc: Global,
    state: RandomState,
    file: &[u8],
) -> Result<Opening, FileRefused>
    ensures opening { IfOk result (IsOpeningOf file.now) }
    ensures refused { IfErr result (RefusesLines (pieces_at 10 file.now)) }
{
    let mut size = FIRST_BLOCK;
    let (text, mut rest) = split_lines(file, size);
    let mut built = SnapshotBuilder::new(alloc, state);
    let mut block = match read_block(alloc, text, AdmissionTables::new(alloc, state)) {
        Ok(block) => block,
        Err(refused) => return Err(refused_in(file, text, rest, refused)),
    };
    loop {
        match block {
            AdmittedBlock::Refused(first) => {
                drop(built);
                return unlawful(alloc, file, rest, first);
            }
            AdmittedBlock::Lawful(events, admission) => {
                let Some(more) = rest else {
                    let snapshot = built.extended(rt, &events)?.into_snapshot()?;
                    return Ok(Opening::Opened(snapshot));
                };
                size = BLOCK.min(size.saturating_mul(GROWTH));
                let (text, later) = split_lines(more, size);
                match add_and_read(rt, alloc, built, events, admission, text) {
                    Ok(next) => (block, built) = next,
                    Err(refused) => return Err(refused_in(file, text, later, refused)),
                }
                rest = later;
            }
        }
    }
}

/// Parses an event file, passes its events through the admission check, and returns their snapshot.
/// While one block of lines is read, the events of the block before it are added to the snapshot.
///
/// # Errors
/// `Line` with the first line that is not understood, or `Memory` if an allocation fails.
pub(crate) fn open_file<R: Threads + Sync>(
    rt: &R,
    alloc: Global,
    state: RandomState,
    file: &[u8],
) -> Result<Opening, CommandError>
    ensures opening { IfOk result (IsOpeningOf file.now) }
    ensures refused { IfErr result (RefusesFile file.now) }
{
    Ok(open_blocks(rt, alloc, state, file)?)
}

/// Returns the shared analysis of the snapshot with this bound.
///
/// # Errors
/// `NoMemory` if an allocation fails.
pub(crate) fn analyze<R: Threads>(
    rt: &R,
    alloc: Global,
    snapshot: Snapshot,
    bound: Bound,
) -> Result<Arc<Analysis, Global>, NoMemory>
    ensures { IfOk result (λ shared. IsAnalysisOf snapshot bound (arc_value shared)) }
{
    Analysis::new_on(rt, alloc, Arc::new(alloc, snapshot)?, bound)
}

/// Returns the snapshot of a trace, whose events are lawful.
///
/// # Errors
///
/// The status of the command: `Refused` after a line about the first unlawful event on `out`, or
/// another one after an error message about the trace on `err`.
pub(crate) fn open<R: Threads + Sync, O: Write, E: Write>(
    rt: &R,
    alloc: Global,
    state: RandomState,
    trace: NamedFile<'_>,
    out: &mut O,
    err: &mut E,
) -> Result<Snapshot, Status>
    ensures opened { IfOk result
        (λ snapshot. AreLawfulEventsOf snapshot trace.entry.bytes.now) }
    ensures kept { OnOk result (O.contents out.new ≡ O.contents out.old) }
    ensures refused { IfErr result (λ status. EndsWithStatus (UnlawfulPrints trace.entry.bytes.now)
        (HasBadLine trace.entry.bytes.now) status (O.contents out.old) (O.contents out.new)) }
{
    match open_file(rt, alloc, state, trace.bytes) {
        Ok(Opening::Opened(snapshot)) => Ok(snapshot),
        Ok(Opening::Refused(first)) => {
            let ended = write_unlawful(alloc, first, out);
            Err(reported(ended, trace.name, err))
        }
        Err(error) => Err(error.report(trace.name, err)),
    }
}
