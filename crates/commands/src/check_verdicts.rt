//! The verdicts on a file of explained cycles.
ghost use Rattle.std.specs.Prelude.{◌≡◌, ◌≤◌, ◌==◌, count_by, is_some, length, map, position, nat_lt, true, Some, IfOk};
ghost use Rattle.std.specs.List.{All, list_any};
ghost use Rattle.dependencies.specs.Tables.{HasDependenciesOf};
ghost use Rattle.event_files.specs.ExplainedText.{IsStatedCycle, is_witness, stated_member, stated_cycle};
ghost use Rattle.commands.specs.Check.{AreVerdictLines, IsHeadVerdict, IsVerdictLine, IsVerdictFor, is_valid, step_in, steps_in};
ghost use Rattle.commands.specs.CheckWords.{checked_line};
ghost use Rattle.commands.specs.ExplainedRows.{IsRowOf};

use crate::check_words::push_verdict;
use crate::explained_rows::{RowFault, row_fault};
use dependencies::DepTable;
use event_files::{Evidence, Explained, ExplainedMember, ExplainedStep, ReportHead};
use rayon::prelude::*;
use replay::{EvidenceChecker, RefutationVerdict, Verdict};
use std::alloc::Global;
use std::thread::Threads;
use trace_model::{Cycle, Derivation, Instance, NoMemory, Refutation, RefutationStep};

/// The result of the check of the first line of a report. The tests are made in this order.
#[derive(Clone, Copy, Debug, PartialEq, Eq)]
pub(crate) enum HeadVerdict {
    /// The trace has this other number of events.
    OtherLength(usize),
    /// A cycle has more members than this bound of the line.
    LongerCycle(u32),
    /// The file has this other number of cycles.
    OtherCycles(usize),
    /// The file has this other number of confirmed cycles.
    OtherConfirmed(usize),
    /// None of these.
    Valid,
}

/// The result of the check of a cycle.
#[derive(Drop)]
pub(crate) enum CycleVerdict {
    /// The row is not one of the trace.
    Row(RowFault),
    /// The check of the witness of a confirmed cycle.
    Witness(Verdict),
    /// A potential cycle without steps.
    NoRefutation,
    /// The check of the steps of a potential cycle.
    Refutation(RefutationVerdict),
}

/// Returns whether the file gives the cycle as confirmed.
fn is_confirmed(explained: &Explained) -> bool
    ensures { result ≡ is_witness (stated_cycle explained.now).evidence }
{
    match &explained.evidence {
        Evidence::Witness(_) => true,
        Evidence::Refutation(_) => false,
    }
}

/// Returns the number of cycles that the file gives as confirmed.
fn confirmed_among(cycles: &[Explained]) -> usize
    ensures { result ≡ count_by (λ e. is_witness (stated_cycle e).evidence) cycles.now }
{
    cycles
        .iter()
        .filter(|explained| is_confirmed(explained))
        .count()
}

/// Returns whether a cycle has more members than the bound.
fn has_longer(cycles: &[Explained], bound: u32) -> bool
    ensures { result ≡ list_any (λ e. nat_lt bound (length e.cycle)) cycles.now }
{
    cycles.iter().any(|explained| explained.cycle.numbers().len() > bound as usize)
}

/// Returns the first test of the first line of a report that fails: its length is the number of
/// events of the trace, no cycle is longer than its bound, and it counts the cycles and the
/// confirmed ones.
pub(crate) fn head_verdict(events: usize, cycles: &[Explained], head: &ReportHead) -> HeadVerdict
    ensures { IsHeadVerdict events (map stated_cycle cycles.now) head.now result }
{
    let confirmed = confirmed_among(cycles);
    if head.length as usize != events {
        HeadVerdict::OtherLength(events)
    } else if has_longer(cycles, head.bound) {
        HeadVerdict::LongerCycle(head.bound)
    } else if head.cycles as usize != cycles.len() {
        HeadVerdict::OtherCycles(cycles.len())
    } else if head.confirmed as usize != confirmed {
        HeadVerdict::OtherConfirmed(confirmed)
    } else {
        HeadVerdict::Valid
    }
}

/// Returns the places of the members, which all have one.
fn instance_of(alloc: Global, members: &[ExplainedMember]) -> Result<Instance, NoMemory>
    requires low { 2 ≤ length members.now }
    requires high { length members.now ≤ 8 }
    requires placed { All (λ m. is_some m.place ≡ true) members.now }
    ensures { IfOk result (λ instance. map (λ m. m.place) members.now ≡ map Some instance) }
{
    let mut places = Vec::with_capacity(alloc, members.len())?;
    for member in members {
        let Some(place) = member.place else {
            unreachable!()
        };
        places.push_reserved(place);
    }
    let Some(instance) = Instance::new(&places) else {
        unreachable!()
    };
    Ok(instance)
}

/// Returns the index of the first member with this thread, if there is one.
fn position_of(members: &[ExplainedMember], thread: u32) -> Option<usize>
    ensures { result ≡ position (λ m. m.thread == thread) members.now }
{
    members.iter().position(|member| member.thread == thread)
}

/// Returns a copy of the derivation.
fn copy_of(alloc: Global, derivation: &Derivation) -> Result<Derivation, NoMemory>
    ensures { IfOk result (λ copy. copy ≡ derivation.now) }
{
    let mut entries = Vec::with_capacity(alloc, derivation.entries().len())?;
    for entry in derivation.entries() {
        entries.push_reserved(*entry);
    }
    Ok(Derivation { entries })
}

/// Returns a copy of the step, which is one of the first member with its thread. If there is none,
/// it has the index after the last member.
fn step_in(
    alloc: Global,
    members: &[ExplainedMember],
    step: &ExplainedStep,
) -> Result<RefutationStep, NoMemory>
    ensures { IfOk result (λ copy. copy ≡ step_in (map stated_member members.now) step.now) }
{
    let member = match position_of(members, step.thread) {
        Some(index) => index,
        None => members.len(),
    };
    let derivation = copy_of(alloc, &step.derivation)?;
    Ok(RefutationStep { member, derivation })
}

/// Returns the refutation with copies of these steps.
fn refutation_in(
    alloc: Global,
    members: &[ExplainedMember],
    explained: &[ExplainedStep],
) -> Result<Refutation, NoMemory>
    ensures { IfOk result
        (λ refutation. refutation ≡ steps_in (map stated_member members.now) explained.now) }
{
    let mut steps = Vec::with_capacity(alloc, explained.len())?;
    for step in explained {
        steps.push(step_in(alloc, members, step)?)?;
    }
    Ok(Refutation { steps })
}

/// Returns the verdict on the evidence of a cycle whose row is one of the trace.
fn evidence_verdict(
    alloc: Global,
    checker: &EvidenceChecker<'_>,
    explained: &Explained,
) -> Result<CycleVerdict, NoMemory>
    requires row { IsStatedCycle (stated_cycle explained.now) }
    requires of_trace { IsRowOf checker.now (stated_cycle explained.now) }
    ensures { IfOk result (IsVerdictFor checker.now (stated_cycle explained.now)) }
{
    match &explained.evidence {
        Evidence::Witness(order) => {
            let instance = instance_of(alloc, &explained.members)?;
            let verdict = checker.check_witness(order, &instance)?;
            Ok(CycleVerdict::Witness(verdict))
        }
        Evidence::Refutation(steps) => {
            if steps.as_slice().is_empty() {
                return Ok(CycleVerdict::NoRefutation);
            }
            let refutation = refutation_in(alloc, &explained.members, steps)?;
            let verdict = checker.check_refutation(&explained.cycle, &refutation)?;
            Ok(CycleVerdict::Refutation(verdict))
        }
    }
}

/// Returns the verdict on a cycle.
fn verdict_on(
    alloc: Global,
    checker: &EvidenceChecker<'_>,
    table: &DepTable,
    explained: &Explained,
) -> Result<CycleVerdict, NoMemory>
    requires row { IsStatedCycle (stated_cycle explained.now) }
    requires table { HasDependenciesOf table.now checker.now (length checker.now) }
    ensures { IfOk result (IsVerdictFor checker.now (stated_cycle explained.now)) }
{
    match row_fault(table, explained) {
        Some(fault) => Ok(CycleVerdict::Row(fault)),
        None => evidence_verdict(alloc, checker, explained),
    }
}

/// Returns whether the verdict is that the evidence is right.
fn is_valid(verdict: &CycleVerdict) -> bool
    ensures { result ≡ is_valid verdict.now }
{
    matches!(
        verdict,
        CycleVerdict::Witness(Verdict::Reaches) | CycleVerdict::Refutation(RefutationVerdict::Valid)
    )
}

/// The line of a cycle, and whether its verdict is `valid`.
#[derive(Drop)]
pub(crate) struct CheckedLine {
    pub(crate) text: Vec<u8>,
    pub(crate) is_valid: bool,
}

/// Returns the line of a cycle with this verdict.
fn line_of(alloc: Global, cycle: &Cycle, verdict: CycleVerdict) -> Result<CheckedLine, NoMemory>
    ensures text { IfOk result (λ line. line.text.items ≡ checked_line cycle.now verdict) }
    ensures valid { IfOk result (λ line. line.is_valid ≡ is_valid verdict) }
{
    let is_valid = is_valid(&verdict);
    let mut text = Vec::new(alloc);
    push_verdict(&mut text, cycle, &verdict)?;
    Ok(CheckedLine { text, is_valid })
}

/// Returns the line of a cycle with the verdict on it.
fn line_on(
    alloc: Global,
    checker: &EvidenceChecker<'_>,
    table: &DepTable,
    explained: &Explained,
) -> Result<CheckedLine, NoMemory>
    requires row { IsStatedCycle (stated_cycle explained.now) }
    requires table { HasDependenciesOf table.now checker.now (length checker.now) }
    ensures { IfOk result (λ line.
        IsVerdictLine checker.now (stated_cycle explained.now) line.is_valid line.text.items) }
{
    // The prover does not cover `?` on a result that holds this verdict.
    match verdict_on(alloc, checker, table, explained) {
        Ok(verdict) => line_of(alloc, &explained.cycle, verdict),
        Err(no_memory) => Err(no_memory),
    }
}

/// The least number of cycles of a piece. One thread computes the verdicts of a piece.
const LEAST_PIECE: usize = 16;

/// Returns the line of each cycle with the verdict on it, in the order of the cycles. The verdicts
/// are computed on all processors.
///
/// # Errors
/// `NoMemory` if an allocation fails.
pub(crate) fn lines_on<R: Threads + Sync>(
    rt: &R,
    alloc: Global,
    checker: &EvidenceChecker<'_>,
    table: &DepTable,
    cycles: &[Explained],
) -> Result<Vec<CheckedLine>, NoMemory>
    requires rows { All IsStatedCycle (map stated_cycle cycles.now) }
    requires table { HasDependenciesOf table.now checker.now (length checker.now) }
    ensures { IfOk result (λ lines.
        AreVerdictLines checker.now (map stated_cycle cycles.now) lines.items) }
{
    cycles
        .into_par_iter()
        .with_min_len(LEAST_PIECE)
        .map(
            |explained: &Explained| -> Result<CheckedLine, NoMemory>
                requires row { IsStatedCycle (stated_cycle explained.now) }
                requires table { HasDependenciesOf table.now checker.now (length checker.now) }
                ensures { IfOk result (λ line. IsVerdictLine checker.entry.now
                    (stated_cycle explained.now) line.is_valid line.text.items) }
            { line_on(alloc, checker, table, explained) },
        )
        .collect(rt, alloc)?
}
