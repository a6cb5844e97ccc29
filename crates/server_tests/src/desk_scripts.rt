//! Runs each test of a desk at a new desk.

ghost use Rattle.std.specs.Prelude.{◌≡◌};

use crate::allocation_failures::completes_despite_failure;
use crate::book_tests::FindingSource;
use crate::concurrent_offer_tests::{Offers, accepts_concurrent_offers};
use crate::delivery_tests::{Way, delivers_concurrently, delivers_in_turn};
use crate::desk_tests::{accepts_repetitions, places_or_refuses_each};
use crate::fixtures::LIMIT;
use crate::question_order_tests::questions_take_turns;
use crate::test_desk::{TestDesk, new_desk};
use crate::worker_order_tests::three_workers_deliver;
use crate::worker_tests::{reports_abandoned_tasks, two_workers_deliver};
use board::{HistoryId, NewHistory};
use std::hash::RandomState;
use std::marker::Brand;
use std::process::Abort;
use std::random::RandomSource;
use std::sync::Wait;
use std::test::*;
use std::thread::Threads;

/// What a test does at its desk.
#[derive(Clone, Copy)]
pub(crate) enum Script {
    Refusals,
    Repetitions,
    EightThreads(Offers),
    ListsInTurn(Way),
    ListsConcurrently(Way),
    AllocationFailure,
    TwoWorkers,
    AbandonedTasks,
    ThreeWorkers,
    TwoQuestions,
}

impl Script {
    /// Returns the number of board readers that the script needs.
    fn readers(self) -> usize {
        match self {
            Script::AllocationFailure | Script::AbandonedTasks | Script::TwoQuestions => 2,
            Script::TwoWorkers => 4,
            Script::ThreeWorkers => 5,
            _ => 1,
        }
    }
}

/// Runs the script at a new desk.
///
/// # Errors
/// Fails if the script fails, or an allocation for the desk or its workers fails.
pub(crate) fn run_at_desk<
    R: RandomSource + AllocGlobal + Threads + Wait + Abort + Copy + Send + Sync,
>(rt: R, script: Script) -> Result<(), Fail> {
    try_run_at_desk(rt, script).ok_or("a desk")?
}

/// Runs the script at a new desk. Returns `None` if an allocation for the desk, its workers or the
/// source of findings fails.
pub(crate) fn try_run_at_desk<
    R: RandomSource + AllocGlobal + Threads + Wait + Abort + Copy + Send + Sync,
>(rt: R, script: Script) -> Option<Result<(), Fail>> {
    let state = RandomState::new(&rt).ok()?;
    let source = FindingSource::new(&rt)?;
    let history = NewHistory::new();
    let done = run_with_history::<Brand, R>(rt, state, history, LIMIT, &source, script);
    drop(source);
    done
}

/// Runs the script at a new desk over the given history.
fn run_with_history<N: HistoryId + Send + Sync, R: Threads + Wait + Abort + Copy + Send + Sync>(
    rt: R,
    state: RandomState,
    history: NewHistory,
    limit: u32,
    source: &FindingSource,
    script: Script,
) -> Option<Result<(), Fail>>
    requires book { history.seen.book ≡ N.book }
    requires limit { limit ≡ N.limit }
{
    let count = script.readers();
    let (desk, readers) = new_desk::<N, R>(rt, source.alloc, state, history, limit, count)?;
    run_at_made_desk(rt, desk, readers, source, script)
}

/// Runs the script at this desk. Its readers are `readers`.
fn run_at_made_desk<D: TestDesk, R: Threads + Wait + Abort + Copy + Send + Sync>(
    rt: R,
    desk: D,
    readers: Vec<D::Reader>,
    source: &FindingSource,
    script: Script,
) -> Option<Result<(), Fail>> {
    let mut others = readers;
    let mut reader = others.pop()?;
    run(rt, &desk, &mut reader, &mut others, source, script)
}

fn run<D: TestDesk, R: Threads + Wait + Abort + Copy + Send + Sync>(
    rt: R,
    desk: &D,
    reader: &mut D::Reader,
    others: &mut Vec<D::Reader>,
    source: &FindingSource,
    script: Script,
) -> Option<Result<(), Fail>> {
    let alloc = source.alloc;
    Some(match script {
        Script::Refusals => places_or_refuses_each(&rt, desk, reader),
        Script::Repetitions => accepts_repetitions(&rt, alloc, desk, reader),
        Script::EightThreads(how) => accepts_concurrent_offers(&rt, alloc, desk, reader, how),
        Script::ListsInTurn(way) => delivers_in_turn(&rt, desk, reader, source, way),
        Script::ListsConcurrently(way) => delivers_concurrently(&rt, desk, reader, source, way),
        Script::AllocationFailure => Ok(completes_despite_failure(
            &rt, alloc, desk, reader, others,
        )?),
        Script::TwoWorkers => two_workers_deliver(&rt, alloc, desk, reader, others),
        Script::AbandonedTasks => reports_abandoned_tasks(&rt, alloc, desk, reader, others),
        Script::ThreeWorkers => three_workers_deliver(rt, alloc, desk, reader, others),
        Script::TwoQuestions => questions_take_turns(&rt, alloc, desk, reader, others),
    })
}
