//! The desk: a lock around the book and the board's writer.

ghost use Rattle.std.specs.Prelude.{◌≡◌, ◌<◌, ◌⊎◌, List, [], ◌∷◌, length, slice_get, IfOk, IfErr, OnErr, OnOk, None};
ghost use Rattle.std.specs.Arc.{arc_value};
ghost use Rattle.trace_model.specs.Protocol.Batches.{IsBatch};
ghost use Rattle.trace_model.specs.Protocol.Machine.{step};
ghost use Rattle.trace_model.specs.Protocol.Runs.{IsLegal};
ghost use Rattle.trace_model.specs.declared.messages.step.BoardStep.{BoardStep};
ghost use Rattle.trace_model.specs.declared.messages.step.BoardStep.TheVariants as steps;
ghost use Rattle.trace_model.specs.declared.messages.session.Request.TheVariants as requests;
ghost use Rattle.trace_model.specs.declared.messages.session.Reply.TheVariants.{Placed, Refused};
ghost use Rattle.snapshots.specs.Found.{AreRowsOf};
ghost use Rattle.sequencer.specs.Answered.{reply_in};
ghost use Rattle.sequencer.specs.Book.{IsBookLimit, Refuses, RefusesSnapshot, answer_refusal, ask_refusal, opened_reply};
ghost use Rattle.sequencer.specs.Printing.{report_printer};
ghost use Rattle.sequencer.specs.Deliveries.{delivery};
ghost use Rattle.desk.specs.Batches.{EndsByBatch};
ghost use Rattle.desk.specs.Published.{Afterwards, EndsBy, delivery_step};
ghost use Rattle.desk.specs.Questions.{IsAboutEvents, IsFirstMissing};
ghost use Rattle.desk.specs.Refused.{IsCount, RefusesDesk, RefusesFinding};
ghost use Rattle.desk.specs.Together.{EndsByAll};

use crate::locked::{DeskRefused, Locked};
use crate::own::{OwnFinding, OwnJob};
use crate::shared::SharedAnalysis;
use board::{BoardReader, BoardState, BoardValue, HistoryId, Receipt};
use findings::{Finding, Snapshot};
use sequencer::{AnswerRefused, Answered, AskRefused, Batched, Delivered, NoSuchQuestion, Opened};
use std::alloc::Global;
use std::hash::RandomState;
use std::sync::{Arc, Mutex, Wait};
use trace_model::{Bound, Event, Place, Refusal};

/// A book that threads share, with the board that shows it. Each call takes the lock once and may
/// wait for it. The rows of tasks are computed without the lock. Contracts see a receipt as the
/// steps that it names: `EndsBy` says that these end with the call's own step, `Afterwards` that
/// the answer is the machine's after all of them.
pub struct Desk<N: HistoryId, R: Wait + Copy, T: BoardValue<N>> {
    locked: Mutex<Locked<N, R, T>>,
    analysis: Mutex<SharedAnalysis>,
    rt: R,
    alloc: Global,
}

impl<N: HistoryId, R: Wait + Copy, T: BoardValue<N>> Drop for Desk<N, R, T> {
    fn drop(self) {
        let Desk {
            locked: _,
            analysis: _,
            rt: _,
            alloc: _,
        } = self;
    }
}

impl<N: HistoryId, R: Wait + Copy> Desk<N, R, BoardState<N>> {
    /// Creates a desk over a new history, and `readers` readers of its board. The book accepts at
    /// most `max_events` events.
    ///
    /// # Errors
    ///
    /// The first that applies:
    /// - `BadLimit` if `max_events` is not 1 to `MAX_EVENTS`.
    /// - `BadCount` if `readers` is not 1 to 40.
    /// - `NotMade` if an allocation fails.
    pub fn new(
        alloc: Global,
        state: RandomState,
        rt: R,
        history: board::NewHistory,
        max_events: u32,
        readers: usize,
    ) -> Result<(Desk<N, R, BoardState<N>>, Vec<BoardReader<N>>), DeskRefused>
        requires book { history.seen.book ≡ N.book }
        requires limit { max_events ≡ N.limit }
        ensures readers { IfOk result (λ made. length made.1.items ≡ readers) }
        ensures allowed { IfOk result (λ _. IsBookLimit max_events × IsCount readers) }
        ensures refused { IfErr result (RefusesDesk max_events readers) }
    {
        let (locked, all) = Locked::new(alloc, state, rt, history, max_events, readers)?;
        let desk = Desk {
            locked: Mutex::new(locked),
            analysis: Mutex::new(SharedAnalysis::new()),
            rt,
            alloc,
        };
        Ok((desk, all))
    }
}

impl<N: HistoryId, R: Wait + Copy, T: BoardValue<N>> Desk<N, R, T> {
    /// Returns the handle by which its calls wait.
    pub(crate) fn rt(&self) -> R {
        self.rt
    }

    /// Returns the allocator.
    pub(crate) fn alloc(&self) -> Global {
        self.alloc
    }

    /// Offers an event and returns its place. The receipt ends with the event's step.
    ///
    /// # Errors
    ///
    /// The machine's refusal after the receipt's steps, or `NoMemory` if the machine accepts but an
    /// allocation fails. Nothing changes.
    pub fn offer(&self, event: Event) -> (Result<Place, Refusal>, Receipt<N>)
        ensures placed { IfOk result.0
            (λ place. EndsBy N.limit result.1 (steps.Accept (event ∷ []))
            (λ state next. step report_printer state (requests.Offer event)
            ≡ (Placed place, next))) }
        ensures refused { IfErr result.0
            (λ refusal. Afterwards N.limit result.1
            (λ state. Refuses state (requests.Offer event) (Refused refusal))) }
        ensures legal { IsLegal result.1 }
    {
        self.locked.lock(&self.rt).offer(event)
    }

    /// Offers a batch of 1 to `MAX_BATCH` events while holding the lock once. The events before the
    /// first refused one are accepted as one step, and the receipt ends with that step. If none is
    /// accepted, nothing changes.
    pub fn offer_batch(&self, events: &[Event]) -> (Batched, Receipt<N>)
        requires { IsBatch events.now }
        ensures batched { EndsByBatch N.limit result.1 events.now result.0 }
        ensures legal { IsLegal result.1 }
    {
        self.locked.lock(&self.rt).offer_batch(events)
    }

    /// Opens a question about the events accepted so far. The receipt ends with the question's
    /// step.
    ///
    /// # Errors
    ///
    /// The machine's refusal after the receipt's steps, or `NoMemory` if the machine accepts but an
    /// allocation fails. Nothing changes.
    pub fn ask(&self, bound: u8) -> (Result<Opened, AskRefused>, Receipt<N>)
        ensures opened { IfOk result.0
            (λ opened. EndsBy N.limit result.1 (steps.Open bound opened.total)
            (λ state next. step report_printer state (requests.Ask bound) ≡
            (opened_reply opened, next))) }
        ensures refused { IfErr result.0
            (λ refused. Afterwards N.limit result.1
            (λ state. Refuses state (requests.Ask bound) (Refused (ask_refusal refused)))) }
        ensures legal { IsLegal result.1 }
    {
        self.locked.lock(&self.rt).ask(bound)
    }

    /// Delivers the rows of one task. The receipt ends with the delivery's step. Part of the public
    /// API; not called by the program.
    ///
    /// # Errors
    ///
    /// The machine's refusal after the receipt's steps, or `NoMemory` if the machine accepts but an
    /// allocation fails. The finding is given back and nothing changes.
    pub fn deliver(&self, finding: Finding) -> (Result<(), (Refusal, Finding)>, Receipt<N>)
        ensures taken { OnOk result.0
            (EndsBy N.limit result.1 (delivery_step finding)
            (λ state next. delivery state finding ≡ (None, next))) }
        ensures exact { OnOk result.0
            (AreRowsOf finding.events finding.bound finding.task finding.rows) }
        ensures refused { IfErr result.0
            (λ refused. Afterwards N.limit result.1
            (λ state. RefusesFinding state finding refused.0)) }
        ensures back { IfErr result.0 (λ refused. refused.1 ≡ finding) }
        ensures legal { IsLegal result.1 }
    {
        self.locked.lock(&self.rt).deliver(finding)
    }

    /// Returns a job that computes the tasks of a question with this bound. All jobs of a question
    /// share its analysis: the first call computes it while the others wait. Calls that only need
    /// the book do not wait for it.
    ///
    /// # Errors
    ///
    /// As of `snapshot`, or `NoMemory` if an allocation fails.
    pub(crate) fn own_job(&self, question: u32, bound: Bound) -> Result<OwnJob<N>, Refusal>
        ensures job { IfOk result (λ job. (job.question ≡ question) × (job.bound ≡ bound)) }
        ensures refused { IfErr result (λ refusal. (refusal ≡ Refusal.NoMemory)
            ⊎ ((run : List BoardStep) × Afterwards N.limit run
            (λ state. RefusesSnapshot state question refusal))) }
    {
        let (snapshot, receipt) = self.snapshot(question);
        let snapshot = snapshot?;
        let mut shared = self.analysis.lock(&self.rt);
        let Ok(analysis) = shared.get_or_make(self.alloc, question, snapshot, bound) else {
            return Err(Refusal::NoMemory);
        };
        Ok(OwnJob::new(self.alloc, analysis, question, receipt))
    }

    /// Ends a job, and with it the shared analysis of its question.
    pub(crate) fn end_job(&self, job: OwnJob<N>) {
        self.analysis.lock(&self.rt).end(job.question());
    }

    /// Delivers like `deliver`, for a finding that was computed from a snapshot of this desk. Its
    /// events are not compared again.
    ///
    /// # Errors
    ///
    /// As of `deliver`.
    pub(crate) fn deliver_own(
        &self,
        own: OwnFinding<N>,
    ) -> (Result<(), (Refusal, Finding)>, Receipt<N>)
        ensures taken { OnOk result.0
            (EndsBy N.limit result.1 (delivery_step own)
            (λ state next. delivery state own ≡ (None, next))) }
        ensures exact { OnOk result.0 (AreRowsOf own.events own.bound own.task own.rows) }
        ensures refused { IfErr result.0
            (λ refused. Afterwards N.limit result.1 (λ state. RefusesFinding state own refused.0)) }
        ensures back { IfErr result.0 (λ refused. refused.1 ≡ own) }
        ensures legal { IsLegal result.1 }
    {
        self.locked.lock(&self.rt).deliver_own(own)
    }

    /// Delivers the findings in order, each like `deliver`, while holding the lock once. Returns
    /// the outcome of each, in the same order. The receipt ends with the steps of those that were
    /// taken. Part of the public API; not called by the program.
    ///
    /// # Errors
    ///
    /// All findings, if the list of outcomes cannot be allocated. Nothing changes. An empty list
    /// needs no allocation.
    pub fn deliver_all(
        &self,
        findings: Vec<Finding>,
    ) -> Result<(Vec<Delivered>, Receipt<N>), Vec<Finding>>
        ensures outcomes { IfOk result
            (λ done. EndsByAll N.limit done.1 findings.items done.0.items) }
        ensures back { IfErr result (λ all. all.items ≡ findings.items) }
        ensures some { OnErr result (0 < length findings.items) }
        ensures legal { IfOk result (λ done. IsLegal done.1) }
    {
        self.locked.lock(&self.rt).deliver_all(findings)
    }

    /// Returns the reply to a request for the answer of a question: the report if all its tasks are
    /// delivered, else how many are. The lock is held until the rows are shared; the report is
    /// measured after it, and the text of its rows is not in memory.
    ///
    /// # Errors
    ///
    /// The machine's refusal after the receipt's steps, or `NoMemory` if the machine answers but an
    /// allocation fails.
    pub fn answer(&self, question: u32) -> (Result<Answered, AnswerRefused>, Receipt<N>)
        ensures response { IfOk result.0
            (λ answered. Afterwards N.limit result.1
            (λ state. step report_printer state (requests.Answer question) ≡
            (reply_in answered, state))) }
        ensures refused { IfErr result.0
            (λ refused. Afterwards N.limit result.1
            (λ state. Refuses state (requests.Answer question)
            (Refused (answer_refusal refused)))) }
        ensures legal { IsLegal result.1 }
    {
        let (shared, receipt) = self.locked.lock(&self.rt).share_answer(question);
        match shared {
            Ok(shared) => (shared.reply(self.alloc, question), receipt),
            Err(refused) => (Err(refused), receipt),
        }
    }

    /// Returns a snapshot of exactly the events that the question covers.
    ///
    /// # Errors
    ///
    /// `NoSuchQuestion` if it is not open after the receipt's steps; `NoMemory` if an allocation
    /// fails.
    pub fn snapshot(&self, question: u32) -> (Result<Arc<Snapshot, Global>, Refusal>, Receipt<N>)
        ensures ok { IfOk result.0
            (λ shared. Afterwards N.limit result.1
            (λ state. IsAboutEvents state question (arc_value shared))) }
        ensures refused { IfErr result.0
            (λ refusal. Afterwards N.limit result.1
            (λ state. RefusesSnapshot state question refusal)) }
        ensures legal { IsLegal result.1 }
    {
        let locked = self.locked.lock(&self.rt);
        (locked.snapshot(question), locked.receipt())
    }

    /// Returns the least missing task of the question, or `None` if all are delivered.
    ///
    /// # Errors
    ///
    /// `NoSuchQuestion` if it is not open after the receipt's steps.
    pub fn missing(&self, question: u32) -> (Result<Option<u32>, NoSuchQuestion>, Receipt<N>)
        ensures ok { IfOk result.0
            (λ found. Afterwards N.limit result.1 (λ state. IsFirstMissing state question found)) }
        ensures refused { IfErr result.0
            (λ _. Afterwards N.limit result.1 (λ state. slice_get state.questions question ≡
            None)) }
        ensures legal { IsLegal result.1 }
    {
        let locked = self.locked.lock(&self.rt);
        (locked.missing(question), locked.receipt())
    }
}
