//! Workers, which compute the rows of tasks without the lock.

ghost use Rattle.std.specs.Prelude.{◌≡◌, ◌≢◌, ◌<◌, ◌⊎◌, ℕ, false, length, nat_eq, true, replicate, slice_get, slice_set, None, Some, Err, IfErr, IfOk, IfSome, IsSomeAnd, IsTrue, MatchBool, MatchOption, OnErr, OnOk, if◌then◌else◌};
ghost use Rattle.std.specs.Option.{ForSome};
ghost use mathlib.Core.List.{IsPrefix};
ghost use Rattle.trace_model.specs.declared.limits.TheConstants.{MAX_QUESTIONS};
ghost use Rattle.cycle_search.specs.declared.paused.TheConstants.{MAX_VISITS};
ghost use Rattle.desk.specs.Published.{Afterwards, WasTaken};
ghost use Rattle.desk.specs.Questions.{IsFirstMissing, IsJobOf};
ghost use Rattle.desk.specs.Turns.{Chooses, Chose, ChoseInRound, ContinuesJob, LastStepDelivers, GivesUpOn, KeepsNone, PassesOver, PausesOn, QuestionHasTooMany, SameExcept, IsDrawn, IsIdle, IsRefusedTurn, IsTooMuch, paused_at};

use crate::desk::Desk;
use crate::own::{OwnFinding, OwnJob};
use crate::task_jobs::{TaskJob, TaskJobs};
use board::{BoardReader, BoardValue, Busy, HistoryId, QuestionSummary, Unsettled};
use claims::Claimant;
use findings::{ComputeRefused, Hold, MAX_VISITS, TaskSearch};
use sequencer::NoSuchQuestion;
use std::marker::Model;
use std::sync::{Arc, Wait};
use trace_model::{Bound, MAX_QUESTIONS, Refusal};

/// Why a turn failed.
#[derive(Clone, Copy, Debug, PartialEq, Eq)]
pub enum TurnFailure {
    NoMemory,
    BoardBusy,
    TooManyCycles,
}

impl TurnFailure {
    ghost use Rattle.desk.specs.Refused.{failure};

    /// Returns the refusal of this failure.
    pub fn refusal(self) -> Refusal
        ensures { result ≡ failure self }
    {
        match self {
            TurnFailure::NoMemory => Refusal::NoMemory,
            TurnFailure::BoardBusy => Refusal::BoardBusy,
            TurnFailure::TooManyCycles => Refusal::TooManyCycles,
        }
    }
}

/// The outcome of a turn.
#[derive(Clone, Copy, Debug, PartialEq, Eq)]
pub enum Turn {
    /// The rows of a task were computed and delivered.
    Delivered,
    /// The search of a task was paused. The worker keeps it.
    Paused,
    /// The desk refused the finding or the snapshot.
    Refused(Refusal),
    /// Memory, the board or the search failed.
    Failed(TurnFailure),
    /// No task is missing, except of questions that this worker gave up. It keeps no search.
    Idle,
}

/// A task to compute.
#[derive(Clone, Copy)]
struct Picked {
    task: u32,
    /// Whether all tasks of its question were drawn before.
    all_drawn: bool,
}

/// Computes tasks for a desk. It works on the questions in turn: a search that takes long is
/// paused, and its question waits until the others are settled or paused, too. Then a new round
/// begins. The worker keeps the job of a question while that is unsettled, and at most one paused
/// search for each question. It gives up a question whose least missing task has too many cycles.
/// Contracts see a worker as the steps that its reader has seen or learned, the questions that it
/// gave up or passes over in this round, and the paused searches.
pub struct Worker<N: HistoryId, R: Wait + Copy, T: BoardValue<N>> {
    desk: Arc<Desk<N, R, T>>,
    claimant: Claimant,
    reader: BoardReader<N>,
    job: Option<OwnJob<N>>,
    given_up: [bool; MAX_QUESTIONS],
    /// The questions that were given up, or paused in this round.
    passed_over: [bool; MAX_QUESTIONS],
    paused: TaskJobs<N>,
}

impl<N: HistoryId, R: Wait + Copy, T: BoardValue<N>> Drop for Worker<N, R, T> {
    fn drop(self) {
        let Worker {
            desk: _,
            claimant: _,
            reader: _,
            job: _,
            given_up: _,
            passed_over: _,
            paused: _,
        } = self;
    }
}

impl<N: HistoryId, R: Wait + Copy, T: BoardValue<N>> Model for Worker<N, R, T> {
    ghost use Rattle.desk.specs.Turns.{PassesOver, WorkerView};

    ghost Value = { WorkerView };

    ghost view = { λ w. record {
      known = w.reader.known;
      given_up = w.given_up;
      passed_over = w.passed_over;
      paused = w.paused;
    } };

    ghost invariant = { λ w. PassesOver w.given_up w.passed_over };
}

impl<N: HistoryId, R: Wait + Copy, T: BoardValue<N>> Worker<N, R, T> {
    /// Creates a worker. The reader must be of this desk.
    pub fn new(
        desk: Arc<Desk<N, R, T>>,
        claimant: Claimant,
        reader: BoardReader<N>,
    ) -> Worker<N, R, T>
        ensures known { result.known ≡ reader.known }
        ensures given_up { result.given_up ≡ replicate MAX_QUESTIONS false }
        ensures passed_over { result.passed_over ≡ replicate MAX_QUESTIONS false }
        ensures paused { KeepsNone result.paused }
    {
        let paused = TaskJobs::new(desk.alloc());
        Worker {
            desk,
            claimant,
            reader,
            job: None,
            given_up: [false; MAX_QUESTIONS],
            passed_over: [false; MAX_QUESTIONS],
            paused,
        }
    }

    /// Works on one task of a question. The question is the least unsettled one that was neither
    /// given up nor paused in this round; if there is none, a new round begins. The task is the one
    /// whose search is kept; or else a drawn number below the question's total, or the least
    /// missing task if all are drawn. Searches on without the lock. If the search ends, computes
    /// the rows, calls `hold`, delivers, and learns the receipt. If it visited `MAX_VISITS`
    /// members, keeps it. Gives the question up if its least missing task has too many cycles.
    pub fn turn(&mut self, hold: &impl Hold) -> Turn
        ensures later { IsPrefix self.old.known self.new.known }
        ensures delivered { result ≡ Turn.Delivered → Chose self.old self.new
            (LastStepDelivers N.limit self.old.paused self.new.known) }
        ensures paused { result ≡ Turn.Paused →
            ChoseInRound self.old self.new (PausesOn MAX_VISITS self.old self.new) }
        ensures keeps { (self.new.paused ≡ self.old.paused) ⊎ ((result ≡ Turn.Idle)
            ⊎ Chose self.old self.new
            (λ one. SameExcept one.number self.old.paused self.new.paused)) }
        ensures idle { result ≡ Turn.Idle → IsIdle N.limit self.old self.new }
        ensures refused { (refusal : Refusal) → result ≡ Turn.Refused refusal →
            Chose self.old self.new (λ one. IsRefusedTurn N.limit one.number refusal) }
        ensures too_many { result ≡ Turn.Failed TurnFailure.TooManyCycles →
            Chose self.old self.new (IsTooMuch N.limit self.new.known) }
        ensures gives_up { (self.new.given_up ≡ self.old.given_up)
            ⊎ ((result ≡ Turn.Failed TurnFailure.TooManyCycles)
            × Chose self.old self.new (GivesUpOn N.limit self.old self.new)) }
    {
        self.turn_within(hold, MAX_VISITS)
    }

    /// Like [`Worker::turn`], with a limit of `visits` visited members instead of `MAX_VISITS`.
    /// Tests call it with small limits.
    pub fn turn_within(&mut self, hold: &impl Hold, visits: u64) -> Turn
        ensures later { IsPrefix self.old.known self.new.known }
        ensures delivered { result ≡ Turn.Delivered → Chose self.old self.new
            (LastStepDelivers N.limit self.old.paused self.new.known) }
        ensures paused { result ≡ Turn.Paused →
            ChoseInRound self.old self.new (PausesOn visits self.old self.new) }
        ensures keeps { (self.new.paused ≡ self.old.paused) ⊎ ((result ≡ Turn.Idle)
            ⊎ Chose self.old self.new
            (λ one. SameExcept one.number self.old.paused self.new.paused)) }
        ensures idle { result ≡ Turn.Idle → IsIdle N.limit self.old self.new }
        ensures refused { (refusal : Refusal) → result ≡ Turn.Refused refusal →
            Chose self.old self.new (λ one. IsRefusedTurn N.limit one.number refusal) }
        ensures too_many { result ≡ Turn.Failed TurnFailure.TooManyCycles →
            Chose self.old self.new (IsTooMuch N.limit self.new.known) }
        ensures gives_up { (self.new.given_up ≡ self.old.given_up)
            ⊎ ((result ≡ Turn.Failed TurnFailure.TooManyCycles)
            × Chose self.old self.new (GivesUpOn N.limit self.old self.new)) }
    {
        let chosen = choose(&mut self.reader, &self.given_up, &mut self.passed_over);
        let Ok(found) = chosen else {
            return Turn::Failed(TurnFailure::BoardBusy);
        };
        match found {
            Some(unsettled) => self.work_on(unsettled, hold, visits),
            None => {
                end(&self.desk, &mut self.job);
                self.paused.end(&self.desk);
                Turn::Idle
            }
        }
    }

    /// Works on one task of this question.
    fn work_on(&mut self, unsettled: Unsettled, hold: &impl Hold, visits: u64) -> Turn
        ensures later { IsPrefix self.old.known self.new.known }
        ensures delivered { result ≡ Turn.Delivered →
            LastStepDelivers N.limit self.old.paused self.new.known unsettled }
        ensures paused { result ≡ Turn.Paused →
            PausesOn visits self.old self.new self.old.passed_over unsettled }
        ensures keeps { SameExcept unsettled.number self.old.paused self.new.paused }
        ensures idle { result ≡ Turn.Idle → Afterwards N.limit self.new.known
            (λ state. IsFirstMissing state unsettled.number None) }
        ensures none { result ≡ Turn.Idle → KeepsNone self.new.paused }
        ensures refused { (refusal : Refusal) → result ≡ Turn.Refused refusal →
            IsRefusedTurn N.limit unsettled.number refusal }
        ensures too_many { result ≡ Turn.Failed TurnFailure.TooManyCycles →
            IsTooMuch N.limit self.new.known unsettled }
        ensures gives_up { (self.new.given_up ≡ self.old.given_up)
            ⊎ ((result ≡ Turn.Failed TurnFailure.TooManyCycles)
            × GivesUpOn N.limit self.old self.new unsettled) }
    {
        let Unsettled { number, shown } = unsettled;
        let started = start(
            &self.desk,
            &mut self.reader,
            &mut self.claimant,
            &mut self.job,
            &mut self.paused,
            number,
            shown,
        );
        let job = match started {
            Ok(Some(job)) => job,
            Ok(None) => return none_missing(&self.paused),
            Err(turn) => return turn,
        };
        let task = job.task();
        let all_drawn = job.all_drawn();
        let searched = advance(
            &mut self.reader,
            &mut self.job,
            &mut self.paused,
            number,
            job,
            visits,
        );
        match searched {
            Ok(own) => {
                hold.hold(u32::from(number), task);
                deliver(&self.desk, &mut self.reader, own)
            }
            Err(turn) => {
                pass_over(
                    &self.desk,
                    &mut self.reader,
                    &mut self.given_up,
                    &mut self.passed_over,
                    number,
                    task,
                    all_drawn,
                    turn,
                );
                turn
            }
        }
    }
}

/// Returns the question whose turn it is: the least unsettled one that is not passed over. If there
/// is none, a new round begins, in which only those that were given up are passed over.
///
/// # Errors
///
/// As of `BoardReader::least_unsettled`.
fn choose<N: HistoryId>(
    reader: &mut BoardReader<N>,
    given_up: &[bool; MAX_QUESTIONS],
    passed_over: &mut [bool; MAX_QUESTIONS],
) -> Result<Option<Unsettled>, Busy>
    requires passed { PassesOver given_up.now passed_over.old }
    ensures later { IsPrefix reader.old.known reader.new.known }
    ensures passed { PassesOver given_up.now passed_over.new }
    ensures chosen { IfOk result (Chooses given_up.now passed_over.old reader.old.known
        reader.new.known passed_over.new) }
{
    let found = reader.least_unsettled(passed_over)?;
    if found.is_some() {
        return Ok(found);
    }
    *passed_over = *given_up;
    reader.least_unsettled(given_up)
}

/// Starts to work on a task of this question: resumes the kept search, or else begins that of a
/// picked task. Then there is room to keep it. `None` if no task is missing.
fn start<N: HistoryId, R: Wait + Copy, T: BoardValue<N>>(
    desk: &Desk<N, R, T>,
    reader: &mut BoardReader<N>,
    claimant: &mut Claimant,
    kept: &mut Option<OwnJob<N>>,
    paused: &mut TaskJobs<N>,
    question: u8,
    shown: QuestionSummary,
) -> Result<Option<TaskJob<N>>, Turn>
    ensures later { IsPrefix reader.old.known reader.new.known }
    ensures job { IfOk result (λ started. IfSome started
        (λ job. IsJobOf question shown.bound job.asked)) }
    ensures resumed { IfOk result (λ started. IfSome started
        (λ job. ForSome (paused_at paused.old question)
        (λ before. IsJobOf question shown.bound before.asked → before ≡ job))) }
    ensures none { IfOk result (λ started. started ≡ None →
        Afterwards N.limit reader.new.known (λ state. IsFirstMissing state question None)) }
    ensures err { IfErr result (λ turn. (turn ≢ Turn.Delivered) × (turn ≢ Turn.Paused)
        × (turn ≢ Turn.Idle) × (turn ≢ Turn.Failed TurnFailure.TooManyCycles)) }
    ensures refused { (refusal : Refusal) → result ≡ Err (Turn.Refused refusal) →
        IsRefusedTurn N.limit question refusal }
    ensures others { SameExcept question paused.old paused.new }
    ensures room { OnOk result (question < length paused.new) }
{
    let Ok(()) = paused.reserve(question) else {
        return Err(Turn::Failed(TurnFailure::NoMemory));
    };
    if let Some(job) = paused.take(question, shown.bound) {
        end(desk, kept);
        return Ok(Some(job));
    }
    begin(desk, reader, claimant, kept, question, shown)
}

/// Begins the search of a picked task of this question. `None` if no task is missing.
fn begin<N: HistoryId, R: Wait + Copy, T: BoardValue<N>>(
    desk: &Desk<N, R, T>,
    reader: &mut BoardReader<N>,
    claimant: &mut Claimant,
    kept: &mut Option<OwnJob<N>>,
    question: u8,
    shown: QuestionSummary,
) -> Result<Option<TaskJob<N>>, Turn>
    ensures later { IsPrefix reader.old.known reader.new.known }
    ensures job { IfOk result (λ started. IfSome started
        (λ job. IsJobOf question shown.bound job.asked)) }
    ensures none { IfOk result (λ started. started ≡ None →
        Afterwards N.limit reader.new.known (λ state. IsFirstMissing state question None)) }
    ensures err { IfErr result (λ turn. (turn ≢ Turn.Delivered) × (turn ≢ Turn.Paused)
        × (turn ≢ Turn.Idle) × (turn ≢ Turn.Failed TurnFailure.TooManyCycles)) }
    ensures refused { (refusal : Refusal) → result ≡ Err (Turn.Refused refusal) →
        IsRefusedTurn N.limit question refusal }
{
    let Ok(picked) = pick(desk, reader, claimant, question, shown.total) else {
        return Err(Turn::Refused(Refusal::NoSuchQuestion));
    };
    let Some(picked) = picked else {
        return Ok(None);
    };
    let Picked { task, all_drawn } = picked;
    match job_of(desk, kept, u32::from(question), shown.bound) {
        Ok(job) => Ok(Some(TaskJob::new(job, TaskSearch::new(task), all_drawn))),
        Err(turn) => Err(turn),
    }
}

/// Returns a task that no other worker drew, or the least missing one, or `None` if none is
/// missing. The reader learns the receipt of a look at the desk.
///
/// # Errors
///
/// `NoSuchQuestion` if the question is not open.
fn pick<N: HistoryId, R: Wait + Copy, T: BoardValue<N>>(
    desk: &Desk<N, R, T>,
    reader: &mut BoardReader<N>,
    claimant: &mut Claimant,
    question: u8,
    total: u32,
) -> Result<Option<Picked>, NoSuchQuestion>
    ensures later { IsPrefix reader.old.known reader.new.known }
    ensures picked { IfOk result (λ picked. MatchOption picked
        (Afterwards N.limit reader.new.known (λ state. IsFirstMissing state question None))
        (λ picked. MatchBool picked.all_drawn
        (Afterwards N.limit reader.new.known
        (λ state. IsFirstMissing state question (Some picked.task)))
        (IsDrawn question total claimant.old.draws claimant.new.draws picked.task))) }
    ensures unknown { OnErr result (Afterwards N.limit reader.new.known
        (λ state. slice_get state.questions question ≡ None)) }
{
    if let Ok(number) = claimant.draw(question)
        && number < u64::from(total)
    {
        return Ok(Some(Picked {
            task: number as u32,
            all_drawn: false,
        }));
    }
    let (missing, receipt) = desk.missing(u32::from(question));
    reader.catch_up(&desk.rt(), &receipt);
    match missing? {
        Some(task) => Ok(Some(Picked {
            task,
            all_drawn: true,
        })),
        None => Ok(None),
    }
}

/// Returns the job of the question: the kept one if it is that, or else a new one. Then none is
/// kept.
fn job_of<N: HistoryId, R: Wait + Copy, T: BoardValue<N>>(
    desk: &Desk<N, R, T>,
    kept: &mut Option<OwnJob<N>>,
    question: u32,
    bound: Bound,
) -> Result<OwnJob<N>, Turn>
    ensures job { IfOk result (IsJobOf question bound) }
    ensures err { IfErr result (λ turn. (turn ≢ Turn.Delivered) × (turn ≢ Turn.Paused)
        × (turn ≢ Turn.Idle) × (turn ≢ Turn.Failed TurnFailure.TooManyCycles)) }
    ensures refused { (refusal : Refusal) → result ≡ Err (Turn.Refused refusal) →
        IsRefusedTurn N.limit question refusal }
{
    if let Some(job) = kept.take() {
        if job.is_of(question, bound) {
            return Ok(job);
        }
        desk.end_job(job);
    }
    match desk.own_job(question, bound) {
        Ok(job) => Ok(job),
        Err(refusal) => Err(refused(refusal)),
    }
}

/// Ends the kept job, if there is one.
fn end<N: HistoryId, R: Wait + Copy, T: BoardValue<N>>(
    desk: &Desk<N, R, T>,
    kept: &mut Option<OwnJob<N>>,
) {
    if let Some(job) = kept.take() {
        desk.end_job(job);
    }
}

/// Searches on without the lock, and keeps the job. If the search ends, the finding is computed; if
/// it is paused, it is kept with the job. If the task has too many cycles, the reader learns a
/// receipt that names the events of the job.
fn advance<N: HistoryId>(
    reader: &mut BoardReader<N>,
    kept: &mut Option<OwnJob<N>>,
    paused: &mut TaskJobs<N>,
    question: u8,
    started: TaskJob<N>,
    visits: u64,
) -> Result<OwnFinding<N>, Turn>
    requires room { question < length paused.old }
    ensures later { IsPrefix reader.old.known reader.new.known }
    ensures computed { IfOk result (λ own. (own.question ≡ started.asked.question)
        × (own.bound ≡ started.asked.bound) × (own.task ≡ started.search.task)) }
    ensures err { IfErr result (λ turn. (turn ≢ Turn.Delivered) × (turn ≢ Turn.Idle)) }
    ensures refused { (refusal : Refusal) → result ≢ Err (Turn.Refused refusal) }
    ensures paused { result ≡ Err Turn.Paused → IsSomeAnd (paused_at paused.new question)
        (ContinuesJob visits started) }
    ensures others { SameExcept question paused.old paused.new }
    ensures too_many { result ≡ Err (Turn.Failed TurnFailure.TooManyCycles) →
        QuestionHasTooMany N.limit reader.new.known started.asked.question started.asked.bound
        started.search.task }
{
    let all_drawn = started.all_drawn();
    let (mut job, search) = started.into_parts();
    match job.advance(search, visits) {
        Ok(Ok(own)) => {
            *kept = Some(job);
            Ok(own)
        }
        Ok(Err(later)) => {
            paused.put(question, TaskJob::new(job, later, all_drawn));
            Err(Turn::Paused)
        }
        Err(ComputeRefused::TooManyCycles) => {
            reader.learn(&job.receipt());
            *kept = Some(job);
            Err(Turn::Failed(TurnFailure::TooManyCycles))
        }
        Err(ComputeRefused::NoMemory) => {
            *kept = Some(job);
            Err(Turn::Failed(TurnFailure::NoMemory))
        }
    }
}

/// Passes the question over: in this round if the search of its task was paused, and for ever if
/// the task has too many cycles and is the least missing one.
fn pass_over<N: HistoryId, R: Wait + Copy, T: BoardValue<N>>(
    desk: &Desk<N, R, T>,
    reader: &mut BoardReader<N>,
    given_up: &mut [bool; MAX_QUESTIONS],
    passed_over: &mut [bool; MAX_QUESTIONS],
    question: u8,
    task: u32,
    all_drawn: bool,
    turn: Turn,
)
    requires passed { PassesOver given_up.old passed_over.old }
    ensures later { IsPrefix reader.old.known reader.new.known }
    ensures passed { PassesOver given_up.new passed_over.new }
    ensures paused { turn ≡ Turn.Paused →
        passed_over.new ≡ slice_set passed_over.old question true }
    ensures gives_up { (given_up.new ≡ given_up.old)
        ⊎ ((turn ≡ Turn.Failed TurnFailure.TooManyCycles)
        × (given_up.new ≡ slice_set given_up.old question true)
        × Afterwards N.limit reader.new.known
        (λ state. IsFirstMissing state question (Some task))) }
{
    match turn {
        Turn::Paused => passed_over[usize::from(question)] = true,
        Turn::Failed(TurnFailure::TooManyCycles) if all_drawn => {
            if is_first_missing(desk, reader, question, task) {
                given_up[usize::from(question)] = true;
                passed_over[usize::from(question)] = true;
            }
        }
        _ => {}
    }
}

/// Returns whether the task is the least missing one of the question. The reader learns the receipt
/// of a look at the desk.
fn is_first_missing<N: HistoryId, R: Wait + Copy, T: BoardValue<N>>(
    desk: &Desk<N, R, T>,
    reader: &mut BoardReader<N>,
    question: u8,
    task: u32,
) -> bool
    ensures later { IsPrefix reader.old.known reader.new.known }
    ensures missing { IsTrue result → Afterwards N.limit reader.new.known
        (λ state. IsFirstMissing state question (Some task)) }
{
    let (least, receipt) = desk.missing(u32::from(question));
    reader.catch_up(&desk.rt(), &receipt);
    match least {
        Ok(Some(least)) => least == task,
        _ => false,
    }
}

/// Returns the turn of a worker that found no missing task of its question: if it keeps a search,
/// what the board showed was behind the desk.
fn none_missing<N: HistoryId>(paused: &TaskJobs<N>) -> Turn
    ensures none { result ≡ Turn.Idle → KeepsNone paused.now }
    ensures others { (result ≡ Turn.Idle) ⊎ (result ≡ Turn.Failed TurnFailure.BoardBusy) }
{
    if paused.is_empty() {
        Turn::Idle
    } else {
        Turn::Failed(TurnFailure::BoardBusy)
    }
}

/// Delivers the finding and learns the receipt.
fn deliver<N: HistoryId, R: Wait + Copy, T: BoardValue<N>>(
    desk: &Desk<N, R, T>,
    reader: &mut BoardReader<N>,
    own: OwnFinding<N>,
) -> Turn
    ensures later { IsPrefix reader.old.known reader.new.known }
    ensures delivered { result ≡ Turn.Delivered → WasTaken N.limit own reader.new.known }
    ensures others { (result ≢ Turn.Paused) × (result ≢ Turn.Idle)
        × (result ≢ Turn.Failed TurnFailure.TooManyCycles) }
    ensures refused { (refusal : Refusal) → result ≡ Turn.Refused refusal →
        IsRefusedTurn N.limit own.question refusal }
{
    let (delivered, receipt) = desk.deliver_own(own);
    reader.catch_up(&desk.rt(), &receipt);
    match delivered {
        Ok(()) => Turn::Delivered,
        Err((refusal, finding)) => {
            drop(finding);
            refused(refusal)
        }
    }
}

/// Returns the outcome of a turn that the desk refused.
fn refused(refusal: Refusal) -> Turn
    ensures others { (result ≢ Turn.Delivered) × (result ≢ Turn.Paused) × (result ≢ Turn.Idle)
        × (result ≢ Turn.Failed TurnFailure.TooManyCycles) }
    ensures refused { (other : Refusal) → result ≡ Turn.Refused other →
        (refusal ≡ other) × (other ≢ Refusal.NoMemory) }
{
    match refusal {
        Refusal::NoMemory => Turn::Failed(TurnFailure::NoMemory),
        _ => Turn::Refused(refusal),
    }
}
