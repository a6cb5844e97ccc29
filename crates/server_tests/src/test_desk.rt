//! A desk for a test, behind the trait `TestDesk`.

ghost use Rattle.std.specs.Prelude.{◌≡◌};
ghost use Rattle.trace_model.specs.Protocol.Batches.{IsBatch};

use crate::fixtures::OPPOSITE_EVENTS;
use board::{BoardReader, BoardState, HistoryId, NewHistory, Receipt, Summary};
use claims::Claimant;
use desk::{Desk, Turn, Worker};
use findings::{Finding, Hold};
use sequencer::{
    Answer, AnswerRefused, Answered, AskRefused, Batched, Delivered, Opened, Piece, ReportReply,
};
use std::alloc::{AllocError, Global};
use std::hash::RandomState;
use std::process::Abort;
use std::sync::{Arc, Wait};
use trace_model::{Event, Place, Refusal, Reply, ReportText};

/// A desk as tests use it. The proof of a function spells out the type of each value in it. The
/// types of a desk are long, so tests use these associated types.
pub(crate) trait TestDesk: Sized + Sync + Drop {
    type Receipt: Send + Drop;

    type Reader: TestReader + Send;

    type Worker: TestWorker + Send;

    fn offer(&self, event: Event) -> (Result<Place, Refusal>, Self::Receipt);

    fn offer_batch(&self, events: &[Event]) -> (Batched, Self::Receipt)
        requires { IsBatch events.now };

    fn ask(&self, bound: u8) -> (Result<Opened, AskRefused>, Self::Receipt);

    fn deliver(&self, finding: Finding) -> (Delivered, Self::Receipt);

    fn deliver_all(&self, findings: Vec<Finding>) -> Option<(Vec<Delivered>, Self::Receipt)>;

    /// Returns the answer of question 0.
    fn answer(&self) -> Result<Answer, AnswerRefused>;

    /// Returns the least missing task of question 0; the inner `None` if no task is missing.
    /// Returns `None` if there is no such question.
    fn missing(&self) -> Option<Option<u32>>;

    fn learn(reader: &mut Self::Reader, receipt: &Self::Receipt);

    /// Returns a worker at this desk, or `None` if there are too many references to it.
    fn worker(&self, claimant: Claimant, reader: Self::Reader) -> Option<Self::Worker>;
}

/// A reader of the board of a desk.
pub(crate) trait TestReader: Drop {
    /// Returns the summary, or `None` if the board is busy.
    fn status(&mut self) -> Option<Summary>;
}

impl<N: HistoryId> TestReader for BoardReader<N> {
    fn status(&mut self) -> Option<Summary> {
        BoardReader::status(self).ok()
    }
}

/// A worker that computes tasks of a desk.
pub(crate) trait TestWorker: Drop {
    fn turn(&mut self, hold: &impl Hold) -> Turn;

    /// Takes a turn whose search is paused after this number of visited members.
    fn turn_within(&mut self, hold: &impl Hold, visits: u64) -> Turn;
}

/// A worker at a [`SharedDesk`].
#[derive(Drop)]
pub(crate) struct DeskWorker<N: HistoryId, R: Wait + Copy> {
    worker: Worker<N, R, BoardState<N>>,
}

impl<N: HistoryId, R: Wait + Copy> TestWorker for DeskWorker<N, R> {
    fn turn(&mut self, hold: &impl Hold) -> Turn {
        self.worker.turn(hold)
    }

    fn turn_within(&mut self, hold: &impl Hold, visits: u64) -> Turn {
        self.worker.turn_within(hold, visits)
    }
}

/// A desk that its workers share.
#[derive(Drop)]
pub(crate) struct SharedDesk<N: HistoryId, R: Wait + Copy> {
    desk: Arc<Desk<N, R, BoardState<N>>>,
}

impl<N: HistoryId + Send + Sync, R: Wait + Copy + Send + Sync> TestDesk for SharedDesk<N, R> {
    type Receipt = Receipt<N>;

    type Reader = BoardReader<N>;

    type Worker = DeskWorker<N, R>;

    fn offer(&self, event: Event) -> (Result<Place, Refusal>, Receipt<N>) {
        Desk::offer(&self.desk, event)
    }

    fn offer_batch(&self, events: &[Event]) -> (Batched, Receipt<N>) {
        Desk::offer_batch(&self.desk, events)
    }

    fn ask(&self, bound: u8) -> (Result<Opened, AskRefused>, Receipt<N>) {
        Desk::ask(&self.desk, bound)
    }

    fn deliver(&self, finding: Finding) -> (Delivered, Receipt<N>) {
        Desk::deliver(&self.desk, finding)
    }

    fn deliver_all(&self, findings: Vec<Finding>) -> Option<(Vec<Delivered>, Receipt<N>)> {
        Desk::deliver_all(&self.desk, findings).ok()
    }

    fn answer(&self) -> Result<Answer, AnswerRefused> {
        let (answered, receipt) = Desk::answer(&self.desk, 0);
        drop(receipt);
        in_memory(answered?)
    }

    fn missing(&self) -> Option<Option<u32>> {
        let (missing, receipt) = Desk::missing(&self.desk, 0);
        drop(receipt);
        missing.ok()
    }

    fn learn(reader: &mut BoardReader<N>, receipt: &Receipt<N>) {
        reader.learn(receipt);
    }

    fn worker(&self, claimant: Claimant, reader: BoardReader<N>) -> Option<DeskWorker<N, R>> {
        let desk = Arc::try_clone(&self.desk).ok()?;
        Some(DeskWorker {
            worker: Worker::new(desk, claimant, reader),
        })
    }
}

/// Returns the answer with the whole text of its report.
pub(crate) fn in_memory(answered: Answered) -> Result<Answer, AnswerRefused> {
    match answered {
        Answered::Whole(
            Reply::Pending {
                question: _,
                delivered,
                total,
            },
        ) => Ok(Answer::Pending { delivered, total }),
        Answered::Whole(other) => {
            drop(other);
            Err(AnswerRefused::NoSuchQuestion)
        }
        Answered::Report(report) => match whole_text(report) {
            Ok(text) => Ok(Answer::Settled(ReportText::from_vec(text))),
            Err(_) => Err(AnswerRefused::NoMemory),
        },
    }
}

/// Returns the first line of the report and all pieces of its rows.
fn whole_text(report: ReportReply) -> Result<Vec<u8>, AllocError> {
    let mut text = report.first_line;
    let mut rows = report.rows;
    let mut piece = Piece::new();
    for _ in 0..u64::MAX {
        if !rows.next(&mut piece) {
            break;
        }
        text.extend_from_slice(piece.bytes())?;
    }
    Ok(text)
}

/// Returns the desk for sharing, or `None` if an allocation fails.
fn shared<N: HistoryId, R: Wait + Copy>(
    alloc: Global,
    desk: Desk<N, R, BoardState<N>>,
) -> Option<SharedDesk<N, R>> {
    let desk = Arc::new(alloc, desk).ok()?;
    Some(SharedDesk { desk })
}

/// A desk and its readers.
pub(crate) type NewDesk<N, R> = (SharedDesk<N, R>, Vec<BoardReader<N>>);

/// Returns a new desk with `readers` board readers. Returns `None` if the limit or the number of
/// readers is out of range, or an allocation fails.
pub(crate) fn new_desk<N: HistoryId, R: Wait + Copy>(
    rt: R,
    alloc: Global,
    state: RandomState,
    history: NewHistory,
    limit: u32,
    readers: usize,
) -> Option<NewDesk<N, R>>
    requires book { history.seen.book ≡ N.book }
    requires limit { limit ≡ N.limit }
{
    let made = Desk::<N, R, BoardState<N>>::new(alloc, state, rt, history, limit, readers);
    let (desk, readers) = made.ok()?;
    shared(alloc, desk).zip(Some(readers))
}

/// Offers the event. The reader learns the receipt.
pub(crate) fn offer<D: TestDesk>(
    desk: &D,
    reader: &mut D::Reader,
    event: Event,
) -> Result<Place, Refusal> {
    let (answer, receipt) = desk.offer(event);
    D::learn(reader, &receipt);
    answer
}

/// Offers these events up to the first that the desk refuses. Returns that event and its refusal.
pub(crate) fn offer_all<D: TestDesk>(
    desk: &D,
    reader: &mut D::Reader,
    events: &[Event],
) -> Option<(Event, Refusal)> {
    for event in events {
        if let Err(refusal) = offer(desk, reader, *event) {
            return Some((*event, refusal));
        }
    }
    None
}

/// Asks a question with this bound. No reader learns the receipt.
pub(crate) fn ask<D: TestDesk>(desk: &D, bound: u8) -> Result<Opened, AskRefused> {
    let (opened, receipt) = desk.ask(bound);
    drop(receipt);
    opened
}

/// The question with the bound 2 over the trace of opposite orders.
pub(crate) const OPPOSITE_QUESTION: Opened = Opened {
    question: 0,
    length: 10,
    total: 2,
};

/// Asserts that the desk accepts the trace of opposite orders and opens a question with the bound 2
/// over it.
pub(crate) fn asks_about_opposite_orders<D: TestDesk>(
    rt: &impl Abort,
    desk: &D,
    reader: &mut D::Reader,
) {
    assert_eq!(rt; offer_all(desk, reader, &OPPOSITE_EVENTS), None);
    assert_eq!(rt; ask(desk, 2), Ok(OPPOSITE_QUESTION));
}

/// Returns the number of accepted events that the board shows, or `None` if the board is busy.
pub(crate) fn accepted(reader: &mut impl TestReader) -> Option<u32> {
    let summary = reader.status()?;
    Some(summary.accepted)
}
