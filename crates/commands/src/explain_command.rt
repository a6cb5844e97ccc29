//! The command `explain`: the cycles of a file of events, each with its evidence.
ghost use Rattle.std.specs.Prelude.{◌≡◌, ◌≢◌, ℕ, ◌<◌, ◌≤◌, ◌++◌, List, [], length, map, slice_get, vec_capacity, Some, None, IfErr, IfOk, IfSome, MatchOption, OnErr, OnOk};
ghost use Rattle.std.specs.List.{All};
ghost use Rattle.std.specs.Option.{ForSome, option_copied};
ghost use Rattle.std.specs.Arc.{arc_value};
ghost use Rattle.trace_model.specs.Theory.Trace.{Trace};
ghost use Rattle.trace_model.specs.Theory.Dependencies.{dependencies};
ghost use Rattle.trace_model.specs.Theory.Refutation.{IsRefutation};
ghost use Rattle.event_files.specs.Refutations.{refutation_text};
ghost use Rattle.reports.specs.Printed.{PrintedRow, with_dependencies};
ghost use Rattle.reports.specs.Text.{row_text};
ghost use Rattle.offline_report.specs.Offline.{IsReportRows, printed_rows};
ghost use Rattle.snapshots.specs.Found.{AreRowsOf};
ghost use Rattle.commands.specs.declared.exit.Status.TheVariants.{Error, NotUnderstood};
ghost use Rattle.event_files.specs.EventFile.{pieces_at};
ghost use Rattle.commands.specs.Explain.{ExplainTells, Explains, ExplainsSome, HasRefutation, IsExplanation, IsChosen, IsKnownRow, IsNamedRow, IsRefutedRow, IsTooMany, AreNumberWords, NamesCycle, NamesNone, PrintsAllOf, PrintsChosen, PrintsOneOf, all_rows, no_cycle_line, bare_rows};
ghost use Rattle.commands.specs.Exit.{error_status};
ghost use Rattle.commands.specs.Output.{EndsWithResult, IsCutShort, Writes};

use crate::exit::{CommandError, OUTPUT, Status, reported, write_bytes, write_text};
use crate::files::{NamedFile, read_file};
use crate::offline_command::write_refused;
use crate::opening::{analyze, open};
use crate::refuting::{RefutedRow, Refuter, batches_of};
use crate::text::{push_last, push_number};
use dependencies::Dependency;
use event_files::laws::refutations_are_writable;
use event_files::{parse_number, push_refutation};
use findings::{Analysis, ComputeRefused, Finding, Job, RunOn, Snapshot};
use offline_report::{Offline, OfflineRefused, ReportRows, RowPrinter};
use reports::{BareRow, Row, TextBuffer};
use std::alloc::{AllocError, Global};
use std::hash::RandomState;
use std::io::{self, BufWriter, Write};
use std::sync::Arc;
use std::thread::Threads;
use trace_model::{Bound, Cycle, NoMemory, Refutation};

/// The number of the question that is asked about a file.
const QUESTION: u32 = 0;

/// Returns the threads of the members of a cycle.
fn threads_of(alloc: Global, dependencies: &[Dependency]) -> Result<Vec<u32>, NoMemory>
    ensures { IfOk result (λ threads. threads.items ≡ map (λ d. d.thread) dependencies.now) }
{
    let mut threads = Vec::with_capacity(alloc, dependencies.len())?;
    for dependency in dependencies {
        threads.push(dependency.thread)?;
    }
    Ok(threads)
}

/// Appends the text of a refutation of the row's cycle.
fn push_reasons(
    alloc: Global,
    row: &Row,
    refutation: &Refutation,
    text: &mut Vec<u8>,
) -> Result<(), NoMemory>
    requires { (s : Trace) × IsNamedRow s row.now
        × IsRefutation s row.now.row.cycle refutation.now }
    ensures { OnOk result (text.new.items ≡ text.old.items ++
        refutation_text (map (λ d. d.thread) row.now.dependencies) refutation.now) }
{
    refutations_are_writable(); // for the proof
    let threads = threads_of(alloc, &row.dependencies)?;
    push_refutation(text, &threads, refutation.steps())
}

/// Returns the text of a row, which is `printed`, and after it the refutation, if there is one.
fn explanation_of(
    alloc: Global,
    row: &Row,
    refutation: &Option<Refutation>,
    printed: &[u8],
) -> Result<Vec<u8>, NoMemory>
    requires row { (s : Trace) × IsNamedRow s row.now × HasRefutation s row.now.row refutation.now }
    requires printed { printed.now ≡ row_text row.now }
    ensures { IfOk result (λ text. (s : Trace) → HasRefutation s row.now.row refutation.now →
        IsExplanation s row.now text.items) }
{
    let mut text = Vec::from_slice(alloc, printed)?;
    if let Some(refutation) = refutation {
        push_reasons(alloc, row, refutation, &mut text)?;
    }
    Ok(text)
}

/// Returns the text of the row with this index, and if its cycle is potential a refutation of it.
fn text_of(
    alloc: Global,
    refuter: &Refuter<'_>,
    finding: &Finding,
    index: usize,
) -> Result<Vec<u8>, NoMemory>
    requires events { refuter.now ≡ finding.now.events }
    requires index { index < length finding.now.rows }
    ensures { IfOk result (λ text. (row : PrintedRow) →
        slice_get finding.now.rows index ≡ Some row →
        IsExplanation finding.now.events row text.items) }
{
    let row = &finding.rows()[index];
    let mut search = refuter.search();
    let refutation = refuter.refutation(&mut search, &row.cycle, &row.found)?;
    let mut buffer = TextBuffer::new(alloc);
    buffer.push_row(row)?;
    explanation_of(alloc, row, &refutation, buffer.bytes())
}

/// Returns the text of a row of the trace, and if its cycle is potential a refutation of it.
fn text_of_row(
    alloc: Global,
    snapshot: &Snapshot,
    refuted: RefutedRow,
    printer: &mut RowPrinter,
) -> Result<Vec<u8>, NoMemory>
    requires { IsRefutedRow snapshot.now refuted }
    ensures { IfOk result (λ text. IsExplanation snapshot.now
        (with_dependencies (dependencies snapshot.now) refuted.row) text.items) }
{
    let row = printer.print(snapshot, refuted.row)?;
    let text = explanation_of(alloc, &row, &refuted.refutation, printer.text())?;
    printer.keep(row);
    Ok(text)
}

/// Writes the texts of some rows.
fn write_rows<O: Write>(
    alloc: Global,
    snapshot: &Snapshot,
    rows: Vec<RefutedRow>,
    printer: &mut RowPrinter,
    out: &mut O,
) -> Result<(), CommandError>
    requires { All (IsRefutedRow snapshot.now) rows.items }
    ensures written { OnOk result (Writes (O.contents out.old) (O.contents out.new)
        (Explains snapshot.now (printed_rows snapshot.now (bare_rows rows.items)))) }
    ensures cut { OnErr result (IsCutShort (O.contents out.old) (O.contents out.new)
        (ExplainsSome snapshot.now (printed_rows snapshot.now (bare_rows rows.items)))) }
    ensures failed { IfErr result (λ error. error_status error ≡ Error) }
{
    for row in rows {
        let text = text_of_row(alloc, snapshot, row, printer)?;
        write_bytes(out, &text)?;
    }
    Ok(())
}

/// Writes the texts of the rows of all batches. The refutations of a batch are computed on all
/// processors.
fn write_batches<R: Threads + Sync, O: Write>(
    rt: &R,
    alloc: Global,
    refuter: &Refuter<'_>,
    batches: Vec<Vec<BareRow>>,
    printer: &mut RowPrinter,
    out: &mut O,
) -> Result<(), CommandError>
    requires { All (λ batch. All (IsKnownRow refuter.now) batch.items) batches.items }
    ensures written { OnOk result (Writes (O.contents out.old) (O.contents out.new)
        (Explains refuter.now (printed_rows refuter.now (all_rows batches.items)))) }
    ensures cut { OnErr result (IsCutShort (O.contents out.old) (O.contents out.new)
        (ExplainsSome refuter.now (printed_rows refuter.now (all_rows batches.items)))) }
    ensures failed { IfErr result (λ error. error_status error ≡ Error) }
{
    for rows in batches {
        let refuted = refuter.refute_all(rt, rows)?;
        write_rows(alloc, refuter.snapshot(), refuted, printer, out)?;
    }
    Ok(())
}

/// Writes the line that says why a task has no rows. `NoMemory` has no line.
fn write_uncomputed<O: Write>(
    alloc: Global,
    refused: ComputeRefused,
    out: &mut O,
) -> Result<Status, CommandError>
    ensures { EndsWithResult (IsTooMany refused) ⊥ result (O.contents out.old)
        (O.contents out.new) }
{
    match refused {
        ComputeRefused::TooManyCycles => write_refused(alloc, OfflineRefused::TooManyCycles, out),
        ComputeRefused::NoMemory => Err(CommandError::Memory),
    }
}

/// Writes the first line of the report and the texts of its rows.
fn write_found<R: Threads + Sync, O: Write>(
    rt: &R,
    alloc: Global,
    state: RandomState,
    snapshot: &Snapshot,
    found: ReportRows,
    out: &mut O,
) -> Result<Status, CommandError>
    requires { (bound : ℕ) × IsReportRows snapshot.now bound found }
    ensures { (bound : ℕ) → IsReportRows snapshot.now bound found →
        EndsWithResult (PrintsAllOf snapshot.now bound) ⊥ result
        (O.contents out.old) (O.contents out.new) }
{
    let mut printer = RowPrinter::new(alloc, snapshot.len() as u32, &found)?;
    let refuter = Refuter::new(alloc, state, snapshot);
    let batches = batches_of(alloc, found.tasks)?;
    write_bytes(out, &found.first_line)?;
    write_batches(rt, alloc, &refuter, batches, &mut printer, out)?;
    out.flush()?;
    Ok(Status::Done)
}

/// Writes the first line of the report and the texts of all its cycles, or that the report is too
/// long. Nothing is written before all rows are computed.
fn write_report<R: Threads + Sync, O: Write>(
    rt: &R,
    alloc: Global,
    state: RandomState,
    offline: &Offline,
    out: &mut O,
) -> Result<Status, CommandError>
    ensures { EndsWithResult (PrintsAllOf offline.now.events offline.now.bound) ⊥ result
        (O.contents out.old) (O.contents out.new) }
{
    match offline.rows(rt, &RunOn) {
        Ok(found) => write_found(rt, alloc, state, offline.snapshot(), found, out),
        Err(OfflineRefused::NoMemory) => Err(CommandError::Memory),
        Err(refused) => write_refused(alloc, refused, out),
    }
}

/// Writes the first line of the report and the texts of all cycles of the analysis, or that the
/// report is too long.
fn write_all<R: Threads + Sync, O: Write>(
    rt: &R,
    alloc: Global,
    state: RandomState,
    analysis: Arc<Analysis, Global>,
    out: &mut O,
) -> Result<Status, CommandError>
    ensures { EndsWithResult (PrintsAllOf (arc_value analysis).events
        (arc_value analysis).bound) ⊥ result
        (O.contents out.old) (O.contents out.new) }
{
    let offline = Offline::of(alloc, analysis);
    write_report(rt, alloc, state, &offline, out)
}

/// Returns the line that says that the trace has no such cycle.
fn no_cycle(alloc: Global, cycle: &Cycle, bound: Bound) -> Result<Vec<u8>, NoMemory>
    ensures { IfOk result (λ text. text.items ≡ no_cycle_line cycle.now bound) }
{
    let mut text = Vec::new(alloc);
    text.extend_from_slice(b"no cycle")?;
    for number in cycle.numbers() {
        push_number(&mut text, b" ", u64::from(*number))?;
    }
    push_last(&mut text, b" with bound ", u64::from(bound.get()))?;
    Ok(text)
}

/// Returns the index of the row with this cycle, or `None` if no row has it.
fn index_of(finding: &Finding, cycle: &Cycle) -> Option<usize>
    ensures found { IfSome result (λ index. ForSome (slice_get finding.now.rows index)
        (λ row. row.row.cycle ≡ cycle.now)) }
    ensures within { IfSome result (λ index. index < length finding.now.rows) }
    ensures none { result ≡ None → All (λ row. row.row.cycle ≢ cycle.now) finding.now.rows }
    ensures exact { AreRowsOf finding.now.events finding.now.bound finding.now.task
        finding.now.rows }
{
    for index in 0..finding.rows().len() {
        let row = &finding.rows()[index];
        if row.cycle.numbers() == cycle.numbers() {
            return Some(index);
        }
    }
    None
}

/// Writes the text of one cycle of the analysis, or that there is no such cycle.
fn write_one<O: Write>(
    alloc: Global,
    state: RandomState,
    analysis: Arc<Analysis, Global>,
    cycle: &Cycle,
    out: &mut O,
) -> Result<Status, CommandError>
    ensures { EndsWithResult (PrintsOneOf (arc_value analysis).events
        (arc_value analysis).bound cycle.now)
        ⊥ result (O.contents out.old) (O.contents out.new) }
{
    let bound = analysis.bound();
    let finding = match Job::new(alloc, analysis, QUESTION).compute(cycle.numbers()[0]) {
        Ok(finding) => finding,
        Err(refused) => return write_uncomputed(alloc, refused, out),
    };
    match index_of(&finding, cycle) {
        Some(index) => {
            let refuter = Refuter::new(alloc, state, finding.snapshot());
            let text = text_of(alloc, &refuter, &finding, index)?;
            write_text(out, &text, Status::Done)
        }
        None => {
            let line = no_cycle(alloc, cycle, bound)?;
            write_text(out, &line, Status::Refused)
        }
    }
}

/// Returns the pieces of the words between commas.
fn pieces_of(alloc: Global, words: &[u8]) -> Result<Vec<&[u8]>, AllocError>
    ensures { IfOk result (λ pieces. map (λ piece. piece.now) pieces.items ≡
        pieces_at 44 words.now) }
{
    words.split(|byte| *byte == b',').collect(alloc)
}

/// Returns the numbers that the words denote, or `None` if one of them denotes none.
fn numbers_of(alloc: Global, words: &[&[u8]]) -> Result<Option<Vec<u32>>, AllocError>
    ensures { IfOk result (λ found. MatchOption found
        ((numbers : List ℕ) → AreNumberWords (map (λ word. word.now) words.now) numbers → ⊥)
        (λ numbers. AreNumberWords (map (λ word. word.now) words.now) numbers.items)) }
{
    let mut numbers = Vec::with_capacity(alloc, words.len())?;
    for word in words {
        let Some(number) = parse_number(word) else {
            return Ok(None);
        };
        numbers.push_reserved(number);
    }
    Ok(Some(numbers))
}

/// Returns the cycle with these numbers, which commas separate, or `None` unless there are 2 to 8.
///
/// # Errors
///
/// If an allocation fails.
pub fn cycle_of(alloc: Global, words: &[u8]) -> Result<Option<Cycle>, AllocError>
    ensures { IfOk result (λ named. MatchOption named
        (NamesNone words.now) (NamesCycle words.now)) }
{
    let pieces = pieces_of(alloc, words)?;
    match numbers_of(alloc, &pieces)? {
        Some(numbers) => Ok(Cycle::new(&numbers)),
        None => Ok(None),
    }
}

/// Writes the texts of the chosen cycles, or why there are none or no more.
fn write_chosen<R: Threads + Sync, O: Write>(
    rt: &R,
    alloc: Global,
    state: RandomState,
    snapshot: Snapshot,
    bound: Bound,
    cycle: &Option<Cycle>,
    out: &mut O,
) -> Result<Status, CommandError>
    ensures { EndsWithResult (PrintsChosen snapshot bound cycle.now) ⊥ result
        (O.contents out.old) (O.contents out.new) }
{
    let analysis = analyze(rt, alloc, snapshot, bound)?;
    match cycle {
        Some(cycle) => write_one(alloc, state, analysis, cycle, out),
        None => write_all(rt, alloc, state, analysis, out),
    }
}

/// Writes the cycles of at most `bound` members of the events in `file` to `out`, or the given one:
/// each as its row in the report, and if it is potential with a refutation. The first line of the
/// report comes before all cycles, and is left out before one. If an event is not lawful, the
/// report is too long, there is no such cycle or its task has too many, `out` gets only a line that
/// says so, and the status is `Refused`. An error message about the file goes to `err`.
pub fn run_explain<R: Threads + Sync, O: Write, E: Write>(
    rt: &R,
    alloc: Global,
    state: RandomState,
    file: NamedFile<'_>,
    bound: Bound,
    cycle: &Option<Cycle>,
    out: &mut O,
    err: &mut E,
) -> Status
    ensures { ExplainTells file.entry.bytes.now bound cycle.now result (O.contents out.old)
        (O.contents out.new) }
{
    let snapshot = match open(rt, alloc, state, file, out, err) {
        Ok(snapshot) => snapshot,
        Err(status) => return status,
    };
    let ended = write_chosen(rt, alloc, state, snapshot, bound, cycle, out);
    reported(ended, file.name, err)
}

/// Returns the cycle that the words of an option name, if it is given. Returns `Err` after an error
/// message if they name none.
fn chosen_cycle(rt: &HostRuntime, words: Option<&str>) -> io::Result<Result<Option<Cycle>, Status>>
    ensures { IfOk result (IsChosen (option_copied words.entry)) }
{
    let Some(words) = words else {
        return Ok(Ok(None));
    };
    match cycle_of(rt.alloc(), words.as_bytes())? {
        Some(cycle) => Ok(Ok(Some(cycle))),
        None => {
            eprintln!(rt; "--cycle {words} not understood")?;
            Ok(Err(Status::NotUnderstood))
        }
    }
}

/// Runs `explain` over the file with this name: all cycles of at most `bound` members, or the one
/// with these numbers, which commas separate. The status is `Error` if the file cannot be read, and
/// `NotUnderstood` if there are not 2 to 8 numbers.
///
/// # Errors
///
/// If an allocation or a standard stream fails before the first cycle.
pub fn explain_named<T: Threads + Sync>(
    rt: &HostRuntime,
    threads: &T,
    file: &str,
    bound: u32,
    numbers: Option<&str>,
) -> io::Result<Status>
    requires least { 2 ≤ bound }
    requires most { bound ≤ 8 }
    ensures { IfSome (option_copied numbers.entry) (λ words. NamesNone words →
        IfOk result (λ status. status ≡ NotUnderstood)) }
{
    let Some(bound) = Bound::new(bound as u8) else {
        unreachable!()
    };
    let cycle = match chosen_cycle(rt, numbers)? {
        Ok(cycle) => cycle,
        Err(status) => return Ok(status),
    };
    let Some(bytes) = read_file(rt, file)? else {
        return Ok(Status::Error);
    };
    let file = NamedFile {
        name: file,
        bytes: &bytes,
    };
    let alloc = rt.alloc();
    let state = RandomState::new(rt)?;
    let mut out = BufWriter::with_capacity(alloc, OUTPUT, rt.stdout())?;
    let mut err = rt.stderr();
    Ok(run_explain(
        threads, alloc, state, file, bound, &cycle, &mut out, &mut err,
    ))
}
