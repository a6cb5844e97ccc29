//! The value under the desk's lock.

ghost use Rattle.std.specs.Prelude.{◌≡◌, ◌<◌, [], ◌∷◌, ◌++◌, length, take, slice_get, IfOk, IfErr, OnOk, OnErr, None, Some};
ghost use Rattle.std.specs.Arc.{arc_value};
ghost use Rattle.std.specs.Result.{result_err};
ghost use Rattle.trace_model.specs.Protocol.Batches.{IsBatch};
ghost use Rattle.trace_model.specs.Protocol.Machine.{answer, opening, step};
ghost use Rattle.trace_model.specs.Protocol.Runs.{IsLegal};
ghost use Rattle.trace_model.specs.declared.messages.step.BoardStep.TheVariants as steps;
ghost use Rattle.trace_model.specs.declared.messages.session.Request.TheVariants as requests;
ghost use Rattle.trace_model.specs.declared.messages.session.Reply.TheVariants.{Placed, Refused};
ghost use Rattle.sequencer.specs.Batched.{IsBatched};
ghost use Rattle.sequencer.specs.Book.{IsBookLimit, Refuses, RefusesAnswer, RefusesSnapshot, answer_refusal, answer_reply, ask_refusal, finding_refused, opened_reply, shared_reply};
ghost use Rattle.sequencer.specs.Printing.{report_printer};
ghost use Rattle.board.specs.Totals.{Shows};
ghost use Rattle.desk.specs.Batches.{accept_steps};
ghost use Rattle.desk.specs.Deliveries.{WentSo};
ghost use Rattle.desk.specs.Published.{After, delivery_step};
ghost use Rattle.desk.specs.Questions.{IsAboutEvents, IsFirstMissing};
ghost use Rattle.desk.specs.Refused.{IsCount, RefusesDesk};
ghost use Rattle.desk.specs.Together.{AreOutcomes, taken_steps};

use crate::own::OwnFinding;
use board::{
    BoardReader, BoardState, BoardValue, BoardWriter, HistoryId, Receipt, Summary, new_board,
};
use findings::{Finding, Snapshot};
use reports::confirmed_in;
use sequencer::{
    Answer, AnswerRefused, AskRefused, Batched, Book, Delivered, NoSuchQuestion, Opened,
    SharedAnswer,
};
use std::alloc::Global;
use std::hash::RandomState;
use std::marker::Model;
use std::sync::{Arc, Wait};
use thiserror::Error;
use trace_model::{BoardStep, Event, EventBatch, Place, Refusal};

/// The largest number of readers of a desk.
const MAX_READERS: usize = 40;

/// Why a desk cannot be created.
#[derive(Clone, Copy, Debug, PartialEq, Eq, Error)]
pub enum DeskRefused {
    #[error("the limit is not 1 to 1048576")]
    BadLimit,
    #[error("the readers are not 1 to 40")]
    BadCount,
    #[error("no memory for the desk")]
    NotMade,
}

/// The book and the board's writer. Contracts see it as the published steps and the state of the
/// book, which is the machine's state after these steps.
pub struct Locked<N: HistoryId, R: Wait + Copy, T: BoardValue<N>> {
    book: Book,
    board: BoardWriter<N, R, T>,
}

impl<N: HistoryId, R: Wait + Copy, T: BoardValue<N>> Drop for Locked<N, R, T> {
    fn drop(self) {
        let Locked { book: _, board: _ } = self;
    }
}

impl<N: HistoryId, R: Wait + Copy, T: BoardValue<N>> Model for Locked<N, R, T> {
    ghost use Rattle.desk.specs.Published.{IsDesk, DeskView};

    ghost Value = { DeskView };

    ghost view = { λ l. record { published = l.board.published; state = l.book.state } };

    ghost invariant = { λ l. IsDesk N.limit l.board.published l.board.waiting l.book.state };
}

impl<N: HistoryId, R: Wait + Copy> Locked<N, R, BoardState<N>> {
    /// Creates an empty book that accepts at most `max_events` events, and an empty board with
    /// `readers` readers over a new history.
    ///
    /// # Errors
    ///
    /// As of `Desk::new`.
    pub fn new(
        alloc: Global,
        state: RandomState,
        rt: R,
        history: board::NewHistory,
        max_events: u32,
        readers: usize,
    ) -> Result<(Locked<N, R, BoardState<N>>, Vec<BoardReader<N>>), DeskRefused>
        requires book { history.seen.book ≡ N.book }
        requires limit { max_events ≡ N.limit }
        ensures published { IfOk result (λ made. made.0.published ≡ []) }
        ensures state { IfOk result (λ made. made.0.state ≡ opening max_events) }
        ensures readers { IfOk result (λ made. length made.1.items ≡ readers) }
        ensures allowed { IfOk result (λ _. IsBookLimit max_events × IsCount readers) }
        ensures refused { IfErr result (RefusesDesk max_events readers) }
    {
        let Ok(book) = Book::new(alloc, state, max_events) else {
            return Err(DeskRefused::BadLimit);
        };
        if readers == 0 || readers > MAX_READERS {
            drop(book);
            return Err(DeskRefused::BadCount);
        }
        match new_board(alloc, rt, history, readers) {
            Ok((board, all)) => Ok((Locked { book, board }, all)),
            Err(_) => {
                drop(book);
                Err(DeskRefused::NotMade)
            }
        }
    }
}

impl<N: HistoryId, R: Wait + Copy, T: BoardValue<N>> Locked<N, R, T> {
    /// Returns the summary of the published steps.
    pub fn summary(&self) -> &Summary
        ensures shown { Shows result.now self.now.published }
        ensures after { After N.limit self.now.published self.now.state }
    {
        self.board.summary()
    }

    /// Offers an event. An accepted event is published, and its place is returned.
    ///
    /// # Errors
    ///
    /// The machine's refusal, or `NoMemory` if the machine accepts but an allocation fails. Nothing
    /// changes.
    pub fn offer(&mut self, event: Event) -> (Result<Place, Refusal>, Receipt<N>)
        ensures before { After N.limit self.old.published self.old.state }
        ensures after { After N.limit self.new.published self.new.state }
        ensures placed { IfOk result.0
            (λ place. step report_printer self.old.state (requests.Offer event) ≡
            (Placed place, self.new.state)) }
        ensures published { OnOk result.0 (self.new.published ≡ self.old.published ++
            steps.Accept (event ∷ []) ∷ []) }
        ensures refused { IfErr result.0
            (λ refusal. Refuses self.old.state (requests.Offer event) (Refused refusal)) }
        ensures same { OnErr result.0 (self.new ≡ self.old) }
        ensures receipt { result.1 ≡ self.new.published }
        ensures legal { IsLegal self.new.published }
    {
        if let Err(refusal) = self.book.reserve_event(&event) {
            return (Err(refusal), self.board.receipt());
        }
        let Ok(()) = self.board.grow(BoardStep::Accept(EventBatch::of(event))) else {
            return (Err(Refusal::NoMemory), self.board.receipt());
        };
        let place = Place::new(self.book.len() as u32);
        self.book.record_event(&event);
        (Ok(place), publish(&mut self.board))
    }

    /// Offers a batch of 1 to `MAX_BATCH` events. The events before the first refused one are
    /// accepted and published as one step. If none is accepted, nothing changes.
    pub fn offer_batch(&mut self, events: &[Event]) -> (Batched, Receipt<N>)
        requires { IsBatch events.now }
        ensures before { After N.limit self.old.published self.old.state }
        ensures after { After N.limit self.new.published self.new.state }
        ensures batched { IsBatched self.old.state events.now result.0 self.new.state }
        ensures published { self.new.published ≡ self.old.published ++
            accept_steps (take result.0.accepted events.now) }
        ensures receipt { result.1 ≡ self.new.published }
        ensures legal { IsLegal self.new.published }
    {
        if let Err(refusal) = self.book.reserve_event(&events[0]) {
            return (none_of(&self.book, refusal), self.board.receipt());
        }
        let Some(batch) = EventBatch::new(events) else {
            unreachable!();
        };
        let Ok(()) = self.board.grow(BoardStep::Accept(batch)) else {
            return (none_of(&self.book, Refusal::NoMemory), self.board.receipt());
        };
        let batched = self.book.record_batch(events);
        self.board.truncate(usize::from(batched.accepted));
        (batched, publish(&mut self.board))
    }

    /// Opens a question about the accepted events, and publishes it.
    ///
    /// # Errors
    ///
    /// The machine's refusal, or `NoMemory` if the machine accepts but an allocation fails. Nothing
    /// changes.
    pub fn ask(&mut self, bound: u8) -> (Result<Opened, AskRefused>, Receipt<N>)
        ensures before { After N.limit self.old.published self.old.state }
        ensures after { After N.limit self.new.published self.new.state }
        ensures opened { IfOk result.0
            (λ opened. step report_printer self.old.state (requests.Ask bound) ≡
            (opened_reply opened, self.new.state)) }
        ensures published { IfOk result.0 (λ opened. self.new.published ≡ self.old.published ++
            steps.Open bound opened.total ∷ []) }
        ensures refused { IfErr result.0
            (λ refused. Refuses self.old.state (requests.Ask bound)
            (Refused (ask_refusal refused))) }
        ensures same { OnErr result.0 (self.new ≡ self.old) }
        ensures receipt { result.1 ≡ self.new.published }
        ensures legal { IsLegal self.new.published }
    {
        let asked = match self.book.reserve_question(bound) {
            Ok(asked) => asked,
            Err(refused) => return (Err(refused), self.board.receipt()),
        };
        let opened = self.book.preview(&asked);
        let step = BoardStep::Open {
            bound: asked.bound(),
            total: opened.total,
        };
        let Ok(()) = self.board.grow(step) else {
            return (Err(AskRefused::NoMemory), self.board.receipt());
        };
        self.book.record_question(asked);
        (Ok(opened), publish(&mut self.board))
    }

    /// Delivers the rows of one task, and publishes the delivery.
    ///
    /// # Errors
    ///
    /// The machine's refusal, or `NoMemory` if the machine accepts but an allocation fails. The
    /// finding is given back and nothing changes.
    pub fn deliver(&mut self, finding: Finding) -> (Result<(), (Refusal, Finding)>, Receipt<N>)
        ensures before { After N.limit self.old.published self.old.state }
        ensures after { After N.limit self.new.published self.new.state }
        ensures went { WentSo self.old self.new finding result.0 }
        ensures receipt { result.1 ≡ self.new.published }
        ensures legal { IsLegal self.new.published }
    {
        let admitted = self.book.admits(&finding);
        self.take_if(admitted, finding)
    }

    /// Delivers like `deliver`, for a finding that was computed from a snapshot of this desk. Its
    /// events are not compared again: its receipt states that they are the question's.
    ///
    /// # Errors
    ///
    /// As of `deliver`.
    pub(crate) fn deliver_own(
        &mut self,
        own: OwnFinding<N>,
    ) -> (Result<(), (Refusal, Finding)>, Receipt<N>)
        ensures before { After N.limit self.old.published self.old.state }
        ensures after { After N.limit self.new.published self.new.state }
        ensures went { WentSo self.old self.new own result.0 }
        ensures receipt { result.1 ≡ self.new.published }
        ensures legal { IsLegal self.new.published }
    {
        let (finding, receipt) = own.into_parts();
        // for the proof: both receipts are prefixes of one history, so the question covers the same
        // events after either
        let _later = receipt.later(&self.board.receipt());
        let admitted = self.book.admits_known(&finding);
        self.take_if(admitted, finding)
    }

    /// Takes the finding if the book admitted it, else gives it back with the refusal.
    fn take_if(
        &mut self,
        admitted: Result<(), Refusal>,
        finding: Finding,
    ) -> (Result<(), (Refusal, Finding)>, Receipt<N>)
        requires admitted { result_err admitted ≡ finding_refused self.old.state finding }
        ensures before { After N.limit self.old.published self.old.state }
        ensures after { After N.limit self.new.published self.new.state }
        ensures went { WentSo self.old self.new finding result.0 }
        ensures receipt { result.1 ≡ self.new.published }
        ensures legal { IsLegal self.new.published }
    {
        match admitted {
            Err(refusal) => (Err((refusal, finding)), self.board.receipt()),
            Ok(()) => match self.board.grow(step_of(&finding)) {
                Err(_) => (Err((Refusal::NoMemory, finding)), self.board.receipt()),
                Ok(()) => {
                    self.book.take(finding);
                    (Ok(()), publish(&mut self.board))
                }
            },
        }
    }

    /// Delivers the findings in order, each like `deliver`; each one that is taken is published as
    /// its own step. Returns the outcome of each, in the same order.
    ///
    /// # Errors
    ///
    /// All findings, if the list of outcomes cannot be allocated. Nothing changes. An empty list
    /// needs no allocation.
    pub fn deliver_all(
        &mut self,
        findings: Vec<Finding>,
    ) -> Result<(Vec<Delivered>, Receipt<N>), Vec<Finding>>
        ensures after { After N.limit self.new.published self.new.state }
        ensures outcomes { IfOk result
            (λ done. AreOutcomes N.limit self.old.published findings.items done.0.items) }
        ensures published { IfOk result (λ done. self.new.published ≡ self.old.published ++
            taken_steps findings.items done.0.items) }
        ensures receipt { IfOk result (λ done. done.1 ≡ self.new.published) }
        ensures back { IfErr result (λ all. all.items ≡ findings.items) }
        ensures same { OnErr result (self.new ≡ self.old) }
        ensures some { OnErr result (0 < length findings.items) }
        ensures legal { IsLegal self.new.published }
    {
        let _ = &self.book; // for the proof
        let Ok(mut outcomes) = Vec::with_capacity(*findings.allocator(), findings.len()) else {
            return Err(findings);
        };
        for finding in findings {
            let (outcome, _) = self.deliver(finding);
            outcomes.push_reserved(outcome);
        }
        Ok((outcomes, self.receipt()))
    }

    /// Returns the report of a question if all its tasks are delivered, else how many are. Nothing
    /// changes. Part of the public API; the program calls `share_answer`.
    ///
    /// # Errors
    ///
    /// The machine's refusal, or `NoMemory` if the machine answers but an allocation fails.
    pub fn answer(&mut self, question: u32) -> (Result<Answer, AnswerRefused>, Receipt<N>)
        ensures before { After N.limit self.old.published self.old.state }
        ensures response { IfOk result.0
            (λ response. step report_printer self.old.state (requests.Answer question) ≡
            (answer_reply question response, self.old.state)) }
        ensures refused { IfErr result.0
            (λ refused. Refuses self.old.state (requests.Answer question)
            (Refused (answer_refusal refused))) }
        ensures same { self.new ≡ self.old }
        ensures receipt { result.1 ≡ self.new.published }
        ensures legal { IsLegal self.new.published }
    {
        (self.book.answer(question), self.board.receipt())
    }

    /// Returns what the answer to a question is made of, without printing its report. Nothing
    /// changes.
    ///
    /// # Errors
    ///
    /// The machine's refusal, or `NoMemory` if the machine answers but an allocation fails.
    pub fn share_answer(
        &mut self,
        question: u32,
    ) -> (Result<SharedAnswer, AnswerRefused>, Receipt<N>)
        ensures before { After N.limit self.old.published self.old.state }
        ensures shared { IfOk result.0
            (λ shared. answer report_printer self.old.state question ≡
            shared_reply question shared) }
        ensures refused { IfErr result.0 (RefusesAnswer self.old.state question) }
        ensures same { self.new ≡ self.old }
        ensures receipt { result.1 ≡ self.new.published }
        ensures legal { IsLegal self.new.published }
    {
        (self.book.share_answer(question), self.board.receipt())
    }

    /// Returns a receipt for all published steps.
    pub fn receipt(&self) -> Receipt<N>
        ensures published { result ≡ self.now.published }
        ensures legal { IsLegal self.now.published }
    {
        self.board.receipt()
    }

    /// Returns a snapshot of exactly the events that the question covers.
    ///
    /// # Errors
    ///
    /// `NoSuchQuestion` if it is not open; `NoMemory` if an allocation fails.
    pub fn snapshot(&self, question: u32) -> Result<Arc<Snapshot, Global>, Refusal>
        ensures now { After N.limit self.now.published self.now.state }
        ensures ok { IfOk result (λ shared. IsAboutEvents self.now.state question
            (arc_value shared)) }
        ensures refused { IfErr result (RefusesSnapshot self.now.state question) }
    {
        self.book.snapshot(question)
    }

    /// Returns the least missing task of the question, or `None` if all are delivered. Does not
    /// allocate.
    ///
    /// # Errors
    ///
    /// `NoSuchQuestion` if it is not open.
    pub fn missing(&self, question: u32) -> Result<Option<u32>, NoSuchQuestion>
        ensures now { After N.limit self.now.published self.now.state }
        ensures ok { IfOk result (IsFirstMissing self.now.state question) }
        ensures refused { IfErr result (λ _. slice_get self.now.state.questions question ≡ None) }
    {
        self.book.missing(question)
    }
}

/// Returns the outcome of a batch whose first event has this refusal.
fn none_of(book: &Book, refusal: Refusal) -> Batched
    ensures accepted { result.accepted ≡ 0 }
    ensures refusal { result.refusal ≡ Some refusal }
    ensures length { result.length ≡ length book.now.state.accepted }
{
    Batched {
        accepted: 0,
        refusal: Some(refusal),
        length: book.len() as u32,
    }
}

/// Publishes the waiting step, and returns a receipt for all published steps.
fn publish<N: HistoryId, R: Wait + Copy, T: BoardValue<N>>(
    writer: &mut BoardWriter<N, R, T>,
) -> Receipt<N>
    requires waits { length writer.old.waiting ≡ 1 }
    requires legal { IsLegal (writer.old.published ++ writer.old.waiting) }
    ensures published { writer.new.published ≡ writer.old.published ++ writer.old.waiting }
    ensures waiting { writer.new.waiting ≡ [] }
    ensures receipt { result ≡ writer.new.published }
{
    writer.publish();
    writer.receipt()
}

/// Returns the step that publishes the finding.
fn step_of(finding: &Finding) -> BoardStep
    ensures { result ≡ delivery_step finding.now }
{
    let rows = finding.rows();
    BoardStep::Deliver {
        question: finding.question(),
        task: finding.task(),
        cycles: rows.len() as u32,
        confirmed: confirmed_in(rows) as u32,
    }
}
