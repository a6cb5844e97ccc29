//! Tests of three workers that deliver in an order which the board gives them.

use crate::book_tests::report_in;
use crate::desk_scripts::{Script, run_at_desk};
use crate::test_desk::{TestDesk, TestReader, ask, offer_all};
use crate::worker_tests::all_deliver;
use crate::workers::workers_at;
use event_files::read_events;
use findings::Hold;
use sequencer::Opened;
use std::alloc::Global;
use std::process::Abort;
use std::sync::atomic::{AtomicU64, Ordering};
use std::sync::{Mutex, Wait};
use std::test::*;
use std::thread;
use std::thread::Threads;

const YIELDS: u32 = 1_000_000;

const REPORT: &str = "question 0 length 15 bound 3 cycles 1 confirmed 1
cycle 0 1 2 confirmed
  thread 1 lock 20 holds 10 place 4
  thread 2 lock 30 holds 20 place 8
  thread 3 lock 10 holds 30 place 12
  witness 0 1 2 3 7 11
";

/// Three threads nest three locks in a ring.
const RING_OF_THREE: &[u8] =
    b"0f1 0f2 0f3 1a10 1a20 1r20 1r10 2a20 2a30 2r30 2r20 3a30 3a10 3r10 3r30";

/// The question about these events.
const RING_QUESTION: Opened = Opened {
    question: 0,
    length: 15,
    total: 3,
};

/// A hold that blocks each task until all three tasks are held. Then it blocks task 0 until the
/// board shows two delivered tasks, and task 1 until it shows one.
#[derive(Drop)]
struct Order<B: TestReader, R: Wait + Copy> {
    rt: R,
    reader: Mutex<B>,
    called: [AtomicU64; 3],
    gave_up: AtomicU64,
}

impl<B: TestReader, R: Wait + Copy> Order<B, R> {
    fn new(rt: R, reader: B) -> Order<B, R> {
        Order {
            rt,
            reader: Mutex::new(reader),
            called: [AtomicU64::new(0), AtomicU64::new(0), AtomicU64::new(0)],
            gave_up: AtomicU64::new(0),
        }
    }

    fn was_called_for_all(&self) -> bool {
        let [first, second, third] = self.calls();
        first > 0 && second > 0 && third > 0
    }

    /// Returns how often each task was held.
    fn calls(&self) -> [u64; 3] {
        [
            self.called[0].load(Ordering::SeqCst),
            self.called[1].load(Ordering::SeqCst),
            self.called[2].load(Ordering::SeqCst),
        ]
    }

    /// Returns the number of delivered tasks of the question that the board shows; 0 if it is busy.
    fn delivered(&self, question: u32) -> u32 {
        let Some(summary) = self.reader.lock(&self.rt).status() else {
            return 0;
        };
        match summary.question(question) {
            Some(shown) => shown.delivered,
            None => 0,
        }
    }
}

impl<B: TestReader, R: Wait + Copy> Hold for Order<B, R> {
    fn hold(&self, question: u32, task: u32) {
        let Some(called) = self.called.get(task as usize) else {
            return;
        };
        called.fetch_add(1, Ordering::SeqCst);
        let earlier = 2u32.saturating_sub(task);
        for _ in 0..YIELDS {
            if self.was_called_for_all() && self.delivered(question) >= earlier {
                return;
            }
            thread::yield_now();
        }
        self.gave_up.store(1, Ordering::SeqCst);
    }
}

#[test]
fn three_workers_deliver_in_order(rt: HostRuntime) -> Result<(), Fail> {
    run_at_desk(rt, Script::ThreeWorkers)
}

/// Asserts that question 0 is opened, and its three tasks are delivered in the order 2, 1, 0.
pub(crate) fn three_workers_deliver<D: TestDesk, R: Threads + Wait + Abort + Copy + Send + Sync>(
    rt: R,
    alloc: Global,
    desk: &D,
    reader: &mut D::Reader,
    others: &mut Vec<D::Reader>,
) -> Result<(), Fail> {
    let events = read_events(alloc, RING_OF_THREE)?;
    assert_eq!(rt; offer_all(desk, reader, &events), None);
    assert_eq!(rt; ask(desk, 3), Ok(RING_QUESTION));
    let order = Order::new(rt, others.pop().ok_or("a reader")?);
    let delivered = deliver_in_order(&rt, alloc, desk, others, &order);
    drop(order);
    delivered
}

fn deliver_in_order<D: TestDesk, R: Threads + Wait + Abort + Copy + Send + Sync>(
    rt: &R,
    alloc: Global,
    desk: &D,
    readers: &mut Vec<D::Reader>,
    order: &Order<D::Reader, R>,
) -> Result<(), Fail> {
    let workers = workers_at(alloc, desk, readers, 3).ok_or("workers")?;
    all_deliver(rt, workers, order)?;
    assert_eq!(rt; order.calls(), [1, 1, 1]);
    assert_eq!(rt;
        order.gave_up.load(Ordering::SeqCst),
        0,
        "a task waits in vain"
    );
    assert_eq!(rt; report_in(&desk.answer()), Ok(REPORT));
    Ok(())
}
