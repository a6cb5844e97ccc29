//! Tests of a desk to which several threads offer single events or batches.

use crate::desk_scripts::{Script, run_at_desk};
use crate::test_desk::{TestDesk, accepted};
use std::alloc::{AllocError, Global};
use std::process::Abort;
use std::test::*;
use std::thread;
use std::thread::Threads;
use trace_model::{Event, MAX_BATCH, Op};

const THREADS: usize = 8;

type Offered<D> = (Vec<u32>, Vec<<D as TestDesk>::Receipt>);

/// How each thread offers its events.
#[derive(Clone, Copy)]
pub(crate) enum Offers {
    /// One hundred single events.
    Single,
    /// Ten batches of `MAX_BATCH`.
    Batches,
}

const WRITE: Event = Event {
    thread: 0,
    op: Op::Write(1),
};

impl Offers {
    /// Returns the number of offers of a thread, of events of an offer, and of events of all eight
    /// threads.
    fn numbers(self) -> (u32, u32, u32) {
        match self {
            Offers::Single => (100, 1, 800),
            Offers::Batches => (10, 64, 5_120),
        }
    }
}

/// Offers an event or a batch. Returns the place of its first event if all are accepted, and the
/// receipt.
fn offers_once<D: TestDesk>(desk: &D, how: Offers) -> (Option<u32>, D::Receipt) {
    match how {
        Offers::Single => {
            let (answer, receipt) = desk.offer(WRITE);
            match answer {
                Ok(place) => (Some(place.get()), receipt),
                Err(_) => (None, receipt),
            }
        }
        Offers::Batches => {
            let (batched, receipt) = desk.offer_batch(&[WRITE; MAX_BATCH]);
            let are_accepted = usize::from(batched.accepted) == MAX_BATCH;
            (are_accepted.then_some(batched.length), receipt)
        }
    }
}

/// Offers the events of one thread. Returns the places and the receipts.
fn offer_events<D: TestDesk>(
    alloc: Global,
    desk: &D,
    how: Offers,
) -> Result<Offered<D>, AllocError> {
    let mut places = Vec::new(alloc);
    let mut receipts = Vec::new(alloc);
    let (offers, _, _) = how.numbers();
    for _ in 0..offers {
        let (place, receipt) = offers_once(desk, how);
        receipts.push(receipt)?;
        if let Some(place) = place {
            places.push(place)?;
        }
    }
    Ok((places, receipts))
}

#[test]
fn eight_threads_offer_events(rt: HostRuntime) -> Result<(), Fail> {
    run_at_desk(rt, Script::EightThreads(Offers::Single))
}

#[test]
fn eight_threads_offer_batches(rt: HostRuntime) -> Result<(), Fail> {
    run_at_desk(rt, Script::EightThreads(Offers::Batches))
}

/// Returns the places of all threads, ascending. The reader learns their receipts.
fn places_of_all<D: TestDesk>(
    alloc: Global,
    reader: &mut D::Reader,
    all: Vec<Result<Offered<D>, AllocError>>,
) -> Result<Vec<u32>, AllocError> {
    let mut places = Vec::new(alloc);
    for one in all {
        learn_offered::<D>(reader, one?, &mut places)?;
    }
    places.sort()?;
    Ok(places)
}

/// Learns the receipts, and adds the places to `before`.
fn learn_offered<D: TestDesk>(
    reader: &mut D::Reader,
    offered: Offered<D>,
    before: &mut Vec<u32>,
) -> Result<(), AllocError> {
    let (given, receipts) = offered;
    for receipt in &receipts {
        D::learn(reader, receipt);
    }
    drop(receipts);
    before.extend_from_slice(&given)
}

/// Asserts that these are the places of all offers, ascending.
fn are_expected_places(rt: &impl Abort, places: &[u32], how: Offers) {
    let (_, size, total) = how.numbers();
    let mut expected = 0u32;
    for place in places {
        assert_eq!(rt; *place, expected);
        expected = expected.wrapping_add(size);
    }
    assert_eq!(rt; expected, total, "the number of events");
}

/// Offers events from eight threads concurrently. Returns the places, ascending. The reader learns
/// the receipts.
fn places_of_concurrent_offers<D: TestDesk, R: Threads + Sync>(
    rt: &R,
    alloc: Global,
    desk: &D,
    reader: &mut D::Reader,
    how: Offers,
) -> Result<Vec<u32>, Fail> {
    let all = thread::map_indices(rt, alloc, THREADS, &|_| offer_events(alloc, desk, how))?;
    let places = places_of_all::<D>(alloc, reader, all)?;
    Ok(places)
}

/// Asserts that eight threads that offer concurrently get each place exactly once.
pub(crate) fn accepts_concurrent_offers<D: TestDesk, R: Threads + Abort + Sync>(
    rt: &R,
    alloc: Global,
    desk: &D,
    reader: &mut D::Reader,
    how: Offers,
) -> Result<(), Fail> {
    let places = places_of_concurrent_offers(rt, alloc, desk, reader, how)?;
    are_expected_places(rt, &places, how);
    let (_, _, total) = how.numbers();
    assert_eq!(rt; accepted(reader), Some(total));
    Ok(())
}
