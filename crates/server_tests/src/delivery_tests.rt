//! Tests of the delivery of valid and invalid findings: one by one, as lists, and by several
//! threads.

use crate::book_tests::{FIRST, FindingKey, FindingSource, SECOND, refusal_in, report_in};
use crate::desk_scripts::{Script, run_at_desk};
use crate::fixtures::REPORT;
use crate::test_desk::{TestDesk, TestReader, ask, asks_about_opposite_orders};
use findings::Finding;
use sequencer::AskRefused;
use std::alloc::{AllocError, Global};
use std::process::Abort;
use std::test::*;
use std::thread;
use std::thread::Threads;
use trace_model::Refusal;

const THREADS: usize = 8;

const PAST_THE_LAST: FindingKey = FindingKey { task: 2, ..FIRST };

const OTHER_BOUND: FindingKey = FindingKey { bound: 3, ..FIRST };

const OTHER_TRACE: FindingKey = FindingKey {
    has_other_end: true,
    ..FIRST
};

const OTHER_QUESTION: FindingKey = FindingKey {
    question: 1,
    ..FIRST
};

/// The way in which findings are delivered.
#[derive(Clone, Copy)]
pub(crate) enum Way {
    OneByOne,
    Together,
}

/// The refusal of each finding, `None` if it is accepted, and the receipts.
type Outcomes<D> = (Vec<Option<Refusal>>, Vec<<D as TestDesk>::Receipt>);

/// Delivers the findings with these keys. Returns `None` if an allocation fails.
fn deliver_keys<D: TestDesk>(
    desk: &D,
    source: &FindingSource,
    keys: &[FindingKey],
    way: Way,
) -> Option<Outcomes<D>> {
    let findings = source.findings(keys)?;
    let mut outcomes = (Vec::new(source.alloc), Vec::new(source.alloc));
    let delivered = match way {
        Way::OneByOne => deliver_one_by_one(desk, findings, &mut outcomes),
        Way::Together => deliver_together(desk, findings, &mut outcomes),
    };
    delivered.ok().and(Some(outcomes))
}

fn deliver_one_by_one<D: TestDesk>(
    desk: &D,
    findings: Vec<Finding>,
    outcomes: &mut Outcomes<D>,
) -> Result<(), AllocError> {
    for finding in findings {
        let (outcome, receipt) = desk.deliver(finding);
        let refusal = refusal_in(&outcome);
        drop(outcome);
        outcomes.0.push(refusal)?;
        outcomes.1.push(receipt)?;
    }
    Ok(())
}

fn deliver_together<D: TestDesk>(
    desk: &D,
    findings: Vec<Finding>,
    outcomes: &mut Outcomes<D>,
) -> Result<(), AllocError> {
    let Some((delivered, receipt)) = desk.deliver_all(findings) else {
        return Ok(());
    };
    for outcome in &delivered {
        outcomes.0.push(refusal_in(outcome))?;
    }
    drop(delivered);
    outcomes.1.push(receipt)?;
    Ok(())
}

#[test]
fn findings_delivered_one_by_one(rt: HostRuntime) -> Result<(), Fail> {
    run_at_desk(rt, Script::ListsInTurn(Way::OneByOne))
}

#[test]
fn findings_delivered_as_lists(rt: HostRuntime) -> Result<(), Fail> {
    run_at_desk(rt, Script::ListsInTurn(Way::Together))
}

/// A case: its name, findings, the outcome of each, and what the board shows of question 0
/// afterwards.
type Wanted = (
    &'static str,
    &'static [FindingKey],
    &'static [Option<Refusal>],
    Counts,
);

const LISTS: [Wanted; 4] = [
    (
        "task 1 with findings that are refused",
        &[
            SECOND,
            SECOND,
            PAST_THE_LAST,
            OTHER_BOUND,
            OTHER_TRACE,
            OTHER_QUESTION,
        ],
        &[
            None,
            Some(Refusal::Double),
            Some(Refusal::NoSuchTask),
            Some(Refusal::OtherBound),
            Some(Refusal::OtherTrace),
            Some(Refusal::NoSuchQuestion),
        ],
        (1, 0, 0),
    ),
    ("no finding", &[], &[], (1, 0, 0)),
    ("task 0", &[FIRST], &[None], (2, 1, 1)),
    (
        "findings that are refused after all tasks are delivered",
        &[OTHER_BOUND, FIRST],
        &[Some(Refusal::OtherBound), Some(Refusal::Double)],
        (2, 1, 1),
    ),
];

/// Asks question 0, delivers each list of `LISTS` in sequence, and gets the report. Asserts that
/// each call publishes its own step and no other, which its contract cannot exclude.
pub(crate) fn delivers_in_turn<D: TestDesk, R: Abort>(
    rt: &R,
    desk: &D,
    reader: &mut D::Reader,
    source: &FindingSource,
    way: Way,
) -> Result<(), Fail> {
    asks_about_opposite_orders(rt, desk, reader);
    // Without a receipt.
    board_shows(rt, "before the first list", reader, (0, 0, 0))?;
    delivers_lists(rt, desk, reader, source, way)?;
    assert_eq!(rt; desk.missing(), Some(None));
    assert_eq!(rt; report_in(&desk.answer()), Ok(REPORT));
    assert_eq!(rt; ask(desk, 1), Err(AskRefused::BadBound));
    board_shows(rt, "after the last list", reader, (2, 1, 1))
}

/// Delivers each list in sequence. Asserts the outcomes and what the board shows after it.
fn delivers_lists<D: TestDesk, R: Abort>(
    rt: &R,
    desk: &D,
    reader: &mut D::Reader,
    source: &FindingSource,
    way: Way,
) -> Result<(), Fail> {
    for wanted in LISTS {
        delivers_list(rt, desk, reader, source, way, wanted)?;
    }
    Ok(())
}

fn delivers_list<D: TestDesk, R: Abort>(
    rt: &R,
    desk: &D,
    reader: &mut D::Reader,
    source: &FindingSource,
    way: Way,
    wanted: Wanted,
) -> Result<(), Fail> {
    let (case, list, refusals, counts) = wanted;
    let (outcomes, receipts) = deliver_keys(desk, source, list, way).ok_or("findings")?;
    assert_eq!(rt; outcomes.as_slice(), refusals, "{case}");
    learn_all::<D>(reader, &receipts);
    drop(receipts);
    board_shows(rt, case, reader, counts)
}

fn learn_all<D: TestDesk>(reader: &mut D::Reader, receipts: &[D::Receipt]) {
    for receipt in receipts {
        D::learn(reader, receipt);
    }
}

/// The numbers of delivered tasks, of their cycles, and of their confirmed cycles.
type Counts = (u32, u64, u64);

/// Asserts that the board shows the ten events, one question, and these counts of it.
fn board_shows(
    rt: &impl Abort,
    case: &str,
    reader: &mut impl TestReader,
    counts: Counts,
) -> Result<(), Fail> {
    let summary = reader.status().ok_or("busy")?;
    assert_eq!(rt; (summary.accepted, summary.opened), (10, 1), "{case}");
    let question = summary.question(0).ok_or("a question")?;
    let asked = (question.length, question.bound.get(), question.total);
    assert_eq!(rt; asked, (10, 2, 2), "{case}");
    let shown = (question.delivered, question.cycles, question.confirmed);
    assert_eq!(rt; shown, counts, "{case}");
    Ok(())
}

#[test]
fn concurrent_deliveries(rt: HostRuntime) -> Result<(), Fail> {
    run_at_desk(rt, Script::ListsConcurrently(Way::OneByOne))
}

#[test]
fn concurrent_deliveries_of_lists(rt: HostRuntime) -> Result<(), Fail> {
    run_at_desk(rt, Script::ListsConcurrently(Way::Together))
}

/// Each of eight threads delivers both tasks, a finding with another bound, and one over other
/// events. Asserts that two findings are accepted, and each other one is refused for its reason.
pub(crate) fn delivers_concurrently<D: TestDesk, R: Threads + Abort + Sync>(
    rt: &R,
    desk: &D,
    reader: &mut D::Reader,
    source: &FindingSource,
    way: Way,
) -> Result<(), Fail> {
    asks_about_opposite_orders(rt, desk, reader);
    let outcomes = deliver_concurrently(rt, source.alloc, desk, reader, source, way)?;
    has_expected_outcomes(rt, &outcomes);
    board_shows(rt, "after all deliveries", reader, (2, 1, 1))
}

/// What each thread delivers.
const FOUR: [FindingKey; 4] = [FIRST, SECOND, OTHER_BOUND, OTHER_TRACE];

/// Delivers four findings on each of eight threads. Returns the outcomes of the findings.
fn deliver_concurrently<D: TestDesk, R: Threads + Abort + Sync>(
    rt: &R,
    alloc: Global,
    desk: &D,
    reader: &mut D::Reader,
    source: &FindingSource,
    way: Way,
) -> Result<Vec<Option<Refusal>>, Fail> {
    let done = thread::map_indices(
        rt,
        alloc,
        THREADS,
        &|_| deliver_keys(desk, source, &FOUR, way),
    )?;
    let mut refusals = Vec::new(alloc);
    for one in done {
        learn_outcomes::<D>(reader, one.ok_or("findings")?, &mut refusals)?;
    }
    Ok(refusals)
}

/// Learns the receipts, and adds the refusals to `before`.
fn learn_outcomes<D: TestDesk>(
    reader: &mut D::Reader,
    outcomes: Outcomes<D>,
    before: &mut Vec<Option<Refusal>>,
) -> Result<(), AllocError> {
    let (refusals, receipts) = outcomes;
    learn_all::<D>(reader, &receipts);
    drop(receipts);
    before.extend_from_slice(&refusals)
}

/// The number of findings with each outcome.
const OUTCOMES: [(Option<Refusal>, u32); 4] = [
    (None, 2),
    (Some(Refusal::Double), 14),
    (Some(Refusal::OtherBound), 8),
    (Some(Refusal::OtherTrace), 8),
];

fn has_expected_outcomes(rt: &impl Abort, outcomes: &[Option<Refusal>]) {
    assert_eq!(rt; outcomes.len(), 32);
    for (outcome, count) in OUTCOMES {
        assert_eq!(rt; count_of(outcomes, outcome), count, "{outcome:?}");
    }
}

/// Returns the number of outcomes that equal `wanted`.
fn count_of(outcomes: &[Option<Refusal>], wanted: Option<Refusal>) -> u32 {
    let mut count = 0u32;
    for outcome in outcomes {
        if *outcome == wanted {
            count = count.saturating_add(1);
        }
    }
    count
}
