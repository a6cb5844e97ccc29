//! The lines that `check` prints.
ghost use Rattle.std.specs.Prelude.{◌≡◌, ◌++◌, length, map, IfOk, OnOk};
ghost use Rattle.std.specs.List.{All};
ghost use Rattle.dependencies.specs.Tables.{HasDependenciesOf};
ghost use Rattle.event_files.specs.ExplainedText.{IsStatedCycle, contents_of, stated_cycle};
ghost use Rattle.commands.specs.Check.{AddsHead, AddsRows, is_valid_head};
ghost use Rattle.commands.specs.CheckWords.{checked_line, head_verdict_line, refutation_words, row_words, sentence, step_words};

use crate::check_verdicts::{CycleVerdict, HeadVerdict, head_verdict, lines_on};
use crate::explained_rows::RowFault;
use crate::text::{push_last, push_number};
use dependencies::DepTable;
use event_files::{Explained, ExplainedFile, push_entry};
use replay::{EvidenceChecker, RefutationFault, RefutationVerdict, Verdict};
use std::alloc::Global;
use std::thread::Threads;
use trace_model::{Cycle, Derived, Event, NoMemory};

/// Appends the line of the verdict on the first line of a report.
fn push_head_verdict(text: &mut Vec<u8>, verdict: &HeadVerdict) -> Result<(), NoMemory>
    ensures { OnOk result (text.new.items ≡ text.old.items ++ head_verdict_line verdict.now) }
{
    match verdict {
        HeadVerdict::OtherLength(events) => {
            push_last(text, b"report has another length than ", *events as u64)
        }
        HeadVerdict::LongerCycle(bound) => {
            push_last(
                text,
                b"report has a cycle longer than bound ",
                u64::from(*bound),
            )
        }
        HeadVerdict::OtherCycles(cycles) => {
            push_last(
                text,
                b"report has another count of cycles than ",
                *cycles as u64,
            )
        }
        HeadVerdict::OtherConfirmed(confirmed) => push_last(
            text,
            b"report has another count of confirmed cycles than ",
            *confirmed as u64,
        ),
        HeadVerdict::Valid => {
            text.extend_from_slice(b"report valid\n")?;
            Ok(())
        }
    }
}

/// Appends the sentence of an entry, as a line.
fn push_sentence(text: &mut Vec<u8>, entry: &Derived) -> Result<(), NoMemory>
    ensures { OnOk result (text.new.items ≡ text.old.items ++ sentence entry.now) }
{
    let mut line = Vec::new(*text.allocator());
    push_entry(&mut line, entry)?;
    let Some(sentence) = line.get(1..) else {
        unreachable!()
    };
    text.extend_from_slice(sentence)?;
    Ok(())
}

/// Appends why a step is wrong.
fn push_step_fault(text: &mut Vec<u8>, fault: &RefutationFault) -> Result<(), NoMemory>
    ensures { OnOk result (text.new.items ≡ text.old.items ++ step_words fault.now) }
{
    match fault {
        RefutationFault::NoSuchMember => {
            text.extend_from_slice(b" has no such member\n")?;
            Ok(())
        }
        RefutationFault::Unjustified(entry) => {
            text.extend_from_slice(b" is wrong:")?;
            push_sentence(text, entry)
        }
        RefutationFault::NotDerived(place) => {
            push_last(text, b" does not derive place ", u64::from(place.get()))
        }
    }
}

/// Appends the verdict on a refutation.
fn push_refutation_verdict(text: &mut Vec<u8>, verdict: &RefutationVerdict) -> Result<(), NoMemory>
    ensures { OnOk result (text.new.items ≡ text.old.items ++ refutation_words verdict.now) }
{
    match verdict {
        RefutationVerdict::Valid => {
            text.extend_from_slice(b" valid\n")?;
            Ok(())
        }
        RefutationVerdict::UnknownNumber(number) => {
            push_last(text, b" unknown dependency ", u64::from(*number))
        }
        RefutationVerdict::WrongStep(step, fault) => {
            push_number(text, b" step ", *step as u64)?;
            push_step_fault(text, fault)
        }
        RefutationVerdict::AfterEnd(step) => {
            push_number(text, b" step ", *step as u64)?;
            text.extend_from_slice(b" comes after the end\n")?;
            Ok(())
        }
        RefutationVerdict::PlaceLeft => {
            text.extend_from_slice(b" ends with a place left\n")?;
            Ok(())
        }
    }
}

/// Appends why a row is not one of the trace.
fn push_row_fault(text: &mut Vec<u8>, fault: &RowFault) -> Result<(), NoMemory>
    ensures { OnOk result (text.new.items ≡ text.old.items ++ row_words fault.now) }
{
    match fault {
        RowFault::UnknownNumber(number) => {
            push_last(text, b" unknown dependency ", u64::from(*number))
        }
        RowFault::OtherMember(number) => {
            push_last(
                text,
                b" another member than dependency ",
                u64::from(*number),
            )
        }
        RowFault::NoCycle => {
            text.extend_from_slice(b" is no cycle\n")?;
            Ok(())
        }
        RowFault::OtherPlace(place) => {
            push_last(
                text,
                b" no acquire of its member at place ",
                u64::from(place.get()),
            )
        }
    }
}

/// Appends the line of a verdict.
pub(crate) fn push_verdict(
    text: &mut Vec<u8>,
    cycle: &Cycle,
    verdict: &CycleVerdict,
) -> Result<(), NoMemory>
    ensures { OnOk result
        (text.new.items ≡ text.old.items ++ checked_line cycle.now verdict.now) }
{
    text.extend_from_slice(b"cycle")?;
    for number in cycle.numbers() {
        push_number(text, b" ", u64::from(*number))?;
    }
    match verdict {
        CycleVerdict::Row(fault) => push_row_fault(text, fault),
        CycleVerdict::Witness(Verdict::Reaches) => {
            text.extend_from_slice(b" valid\n")?;
            Ok(())
        }
        CycleVerdict::Witness(Verdict::Fails(fault, place)) => {
            text.extend_from_slice(b" fault ")?;
            text.extend_from_slice(fault.name().as_bytes())?;
            push_last(text, b" ", u64::from(place.get()))
        }
        CycleVerdict::NoRefutation => {
            text.extend_from_slice(b" no refutation\n")?;
            Ok(())
        }
        CycleVerdict::Refutation(verdict) => push_refutation_verdict(text, verdict),
    }
}

/// Returns whether the verdict is that the first line of the report is right.
fn is_valid_head(verdict: &HeadVerdict) -> bool
    ensures { result ≡ is_valid_head verdict.now }
{
    matches!(verdict, HeadVerdict::Valid)
}

/// Appends the line on the first line of a report, if the file has it. Returns whether it is valid.
pub(crate) fn push_head(
    text: &mut Vec<u8>,
    events: &[Event],
    file: &ExplainedFile,
) -> Result<bool, NoMemory>
    ensures { IfOk result (λ valid.
        AddsHead events.now (contents_of file.now) valid text.old.items text.new.items) }
{
    let Some(head) = &file.head else {
        return Ok(true);
    };
    let verdict = head_verdict(events.len(), &file.cycles, head);
    push_head_verdict(text, &verdict)?;
    Ok(is_valid_head(&verdict))
}

/// Appends the line of each cycle. Returns whether all are valid. The verdicts are computed on all
/// processors.
pub(crate) fn push_rows<R: Threads + Sync>(
    rt: &R,
    alloc: Global,
    checker: &EvidenceChecker<'_>,
    table: &DepTable,
    cycles: &[Explained],
    text: &mut Vec<u8>,
) -> Result<bool, NoMemory>
    requires rows { All IsStatedCycle (map stated_cycle cycles.now) }
    requires table { HasDependenciesOf table.now checker.now (length checker.now) }
    ensures { IfOk result (λ valid. AddsRows checker.now (map stated_cycle cycles.now) valid
        text.old.items text.new.items) }
{
    let lines = lines_on(rt, alloc, checker, table, cycles)?;
    let mut are_valid = true;
    for line in lines.as_slice() {
        text.extend_from_slice(&line.text)?;
        are_valid = are_valid && line.is_valid;
    }
    Ok(are_valid)
}
