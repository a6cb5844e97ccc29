//! Tests of a desk by its own calls: replies, receipts, and limits.

ghost use Rattle.std.specs.Prelude.{◌≡◌};

use crate::desk_scripts::{Script, run_at_desk};
use crate::fixtures::{LIMIT, rounds};
use crate::test_desk::{TestDesk, accepted, offer, offer_all};
use board::{BoardState, HistoryId, NewHistory};
use desk::{Desk, DeskRefused};
use event_files::read_events;
use std::alloc::Global;
use std::hash::RandomState;
use std::marker::Brand;
use std::process::Abort;
use std::sync::Wait;
use std::test::*;
use trace_model::{Event, Op, Refusal};

#[test]
fn each_refusal_once(rt: HostRuntime) -> Result<(), Fail> {
    run_at_desk(rt, Script::Refusals)
}

/// Asserts the reply to each event of `EVENTS`, and that the board shows the number of placed
/// events.
pub(crate) fn places_or_refuses_each<D: TestDesk, R: Abort>(
    rt: &R,
    desk: &D,
    reader: &mut D::Reader,
) -> Result<(), Fail> {
    for (thread, op, reply) in EVENTS {
        let event = Event { thread, op };
        assert_eq!(rt; placed(desk, reader, event), reply, "{event:?}");
    }
    assert_eq!(rt; accepted(reader), Some(6));
    Ok(())
}

/// Events, each with its place or its refusal.
const EVENTS: [(u32, Op, Result<u32, Refusal>); 16] = [
    (0, Op::Fork(1), Ok(0)),
    (0, Op::Fork(2), Ok(1)),
    (1, Op::Release(10), Err(Refusal::NotHeld)),
    (1, Op::Acquire(10), Ok(2)),
    (2, Op::Acquire(10), Err(Refusal::HeldByOther)),
    (1, Op::Acquire(10), Ok(3)),
    (0, Op::Join(0), Err(Refusal::JoinsItself)),
    (1, Op::Join(0), Err(Refusal::JoinUnknown)),
    (3, Op::Acquire(1), Err(Refusal::Unforked)),
    (0, Op::Fork(1), Err(Refusal::AlreadyForked)),
    (0, Op::Fork(0), Err(Refusal::AlreadyForked)),
    (0, Op::Join(2), Ok(4)),
    (1, Op::Join(2), Err(Refusal::JoinedTwice)),
    (2, Op::Write(1), Err(Refusal::Ended)),
    (0, Op::Join(9), Err(Refusal::JoinUnknown)),
    (1, Op::Release(10), Ok(5)),
];

/// Offers the event. Returns the number of its place, or the refusal.
fn placed<D: TestDesk>(desk: &D, reader: &mut D::Reader, event: Event) -> Result<u32, Refusal> {
    let place = offer(desk, reader, event)?;
    Ok(place.get())
}

#[test]
fn two_hundred_repetitions(rt: HostRuntime) -> Result<(), Fail> {
    run_at_desk(rt, Script::Repetitions)
}

/// Asserts that a reader reads all events whose receipts it learned.
pub(crate) fn accepts_repetitions<D: TestDesk, R: Abort>(
    rt: &R,
    alloc: Global,
    desk: &D,
    reader: &mut D::Reader,
) -> Result<(), Fail> {
    let events = read_events(alloc, &rounds(alloc, 200)?)?;
    assert_eq!(rt; offer_all(desk, reader, &events), None);
    assert_eq!(rt; accepted(reader), Some(1602));
    Ok(())
}

/// A limit, a number of readers, and why such a desk cannot be made.
const LIMITS: [(u32, usize, Option<DeskRefused>); 5] = [
    (0, 0, Some(DeskRefused::BadLimit)),
    (LIMIT + 1, 41, Some(DeskRefused::BadLimit)),
    (1, 0, Some(DeskRefused::BadCount)),
    (LIMIT, 41, Some(DeskRefused::BadCount)),
    (LIMIT, 40, None),
];

#[test]
fn limits_of_a_desk(rt: HostRuntime) -> Result<(), Fail> {
    let state = RandomState::new(&rt)?;
    for (limit, readers, refused) in LIMITS {
        let history = NewHistory::new();
        let made = refused_by::<Brand, _>(rt, rt.alloc(), state, history, limit, readers);
        assert_eq!(rt; made, refused, "limit {limit}, {readers} readers");
    }
    Ok(())
}

/// Returns why such a desk cannot be made, or `None` if it can.
fn refused_by<N: HistoryId, R: Wait + Copy>(
    rt: R,
    alloc: Global,
    state: RandomState,
    history: NewHistory,
    limit: u32,
    readers: usize,
) -> Option<DeskRefused>
    requires book { history.seen.book ≡ N.book }
    requires limit { limit ≡ N.limit }
{
    Desk::<N, R, BoardState<N>>::new(alloc, state, rt, history, limit, readers).err()
}
