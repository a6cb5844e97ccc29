//! Writing the board.
ghost use Rattle.std.specs.Prelude.{◌≡◌, ◌≤◌, [], ◌∷◌, ◌++◌, List, length, map, drop, None, Some, IfOk, OnErr};
ghost use Rattle.left_right.specs.Sides.{view};
ghost use Rattle.trace_model.specs.declared.messages.step.BoardStep.{BoardStep};
ghost use Rattle.trace_model.specs.Protocol.Runs.{IsLegal};
ghost use Rattle.board.specs.Fits.{truncated_step};
ghost use Rattle.board.specs.Totals.{Shows};

use crate::board_state::{BoardState, StepDelta};
use crate::history::{HistoryId, HistoryPrefix, LengthWord, NewHistory, wait_forever};
use crate::reader::{BoardReader, Receipt};
use crate::rule::{BoardValue, Publish, SeenSteps};
use crate::summary::Summary;
use core::mem::replace_with;
use left_right::writer::Writer;
use std::alloc::{AllocError, Global};
use std::marker::Model;
use std::sync::Wait;
use trace_model::{BoardStep, NoMemory};

/// The board was not made, since an allocation failed.
#[derive(Clone, Copy, Debug, PartialEq, Eq)]
pub struct NotMade;

/// The writer of the kit's board, under the rule of this crate. Its view is the published list.
type RuledWriter<N, T> = Writer<T, Option<StepDelta<N>>, SeenSteps, T>;

/// Appends the change to the queue, which has memory for it. If an allocation fails all the same,
/// it tries again: a committed step must be published.
fn append<N: HistoryId, R: Wait + Copy, T: BoardValue<N>>(
    rt: &R,
    publisher: &mut RuledWriter<N, T>,
    next: StepDelta<N>,
)
    requires { drop publisher.old.behind publisher.old.log.items ≡ None ∷ [] }
    ensures desk { publisher.new.desk ≡ publisher.old.desk }
    ensures pending { drop publisher.new.behind publisher.new.log.items ≡ None ∷ Some next ∷ [] }
{
    let mut change = Some(next);
    for _ in rt.forever() {
        match publisher.append(change) {
            Ok(()) => return,
            Err(back) => change = back,
        }
    }
    unreachable!()
}

/// Appends the change of the next step and publishes it.
fn show<N: HistoryId, R: Wait + Copy, T: BoardValue<N>>(
    rt: &R,
    mut publisher: RuledWriter<N, T>,
    next: StepDelta<N>,
) -> RuledWriter<N, T>
    requires room { drop publisher.behind publisher.log.items ≡ None ∷ [] }
    requires next { (step : BoardStep) × (next ≡ T.run publisher.desk.shown.value ++ step ∷ []) }
    requires legal { IsLegal next }
    ensures shown { T.run result.desk.shown.value ≡ next }
    ensures seen { view result.desk.place ≡ next }
    ensures rests { drop result.behind result.log.items ≡ [] }
{
    append(rt, &mut publisher, next);
    publisher.publish_as::<Publish<N>, R>(rt).0
}

fn show_in<N: HistoryId, R: Wait + Copy, T: BoardValue<N>>(
    rt: &R,
    publisher: &mut RuledWriter<N, T>,
    next: StepDelta<N>,
)
    requires room { drop publisher.old.behind publisher.old.log.items ≡ None ∷ [] }
    requires next { (step : BoardStep) ×
        (next ≡ T.run publisher.old.desk.shown.value ++ step ∷ []) }
    requires legal { IsLegal next }
    ensures shown { T.run publisher.new.desk.shown.value ≡ next }
    ensures seen { view publisher.new.desk.place ≡ next }
    ensures rests { drop publisher.new.behind publisher.new.log.items ≡ [] }
{
    replace_with(
        publisher,
        (),
        |publisher, _| (show(rt, publisher, next), ()),
    )
}

/// The writer of the board. Contracts see two lists of steps: `published`, which is its view under
/// the rule of the board, and `waiting`, the steps to be published next (at most one).
pub struct BoardWriter<N: HistoryId, R: Wait + Copy, T: BoardValue<N>> {
    publisher: RuledWriter<N, T>,
    word: LengthWord<N>,
    prefix: HistoryPrefix<N>,
    waiting: Option<BoardStep>,
    rt: R,
}

impl<N: HistoryId, R: Wait + Copy, T: BoardValue<N>> Drop for BoardWriter<N, R, T> {
    fn drop(self) {
        let BoardWriter {
            publisher,
            word: _,
            prefix: _,
            waiting: _,
            rt,
        } = self;
        drop(publisher.take(&rt));
    }
}

impl<N: HistoryId, R: Wait + Copy, T: BoardValue<N>> Model for BoardWriter<N, R, T> {
    ghost use Rattle.std.specs.Prelude.{◌≡◌, [], drop};
    ghost use Rattle.left_right.specs.Sides as sides;
    ghost use Rattle.board.specs.Fits.{WriterView, list_of, room_of};

    ghost Value = { WriterView };

    ghost view = { λ w. record {
      published = sides.view w.publisher.desk.place;
      waiting = list_of w.waiting;
    } };

    ghost invariant = { λ w.
        (T.run w.publisher.desk.shown.value ≡ sides.view w.publisher.desk.place)
        × (w.prefix ≡ sides.view w.publisher.desk.place)
        × (drop w.publisher.behind w.publisher.log.items ≡ room_of w.waiting) };
}

impl<N: HistoryId, R: Wait + Copy, T: BoardValue<N>> BoardWriter<N, R, T> {
    /// Reserves memory for publishing `step`, which then waits. No step may be waiting. The
    /// published steps do not change.
    ///
    /// # Errors
    ///
    /// `NoMemory` if an allocation fails. The writer does not change.
    pub fn grow(&mut self, step: BoardStep) -> Result<(), NoMemory>
        requires { self.old.waiting ≡ [] }
        ensures published { self.new.published ≡ self.old.published }
        ensures waiting { IfOk result (λ _. self.new.waiting ≡ step ∷ []) }
        ensures refused { OnErr result (self.new ≡ self.old) }
    {
        self.publisher.append(None).map_err(|_| AllocError)?;
        self.waiting = Some(step);
        Ok(())
    }

    /// Cuts the events of a waiting `Accept` step to the first `events`, at least 1. Other steps
    /// and the published steps do not change. Does not allocate.
    pub fn truncate(&mut self, events: usize)
        requires some { 1 ≤ events }
        ensures published { self.new.published ≡ self.old.published }
        ensures waiting { self.new.waiting ≡ map (truncated_step events) self.old.waiting }
    {
        let _ = &self.publisher; // for the proof
        if let Some(BoardStep::Accept(batch)) = &mut self.waiting {
            batch.truncate(events);
        }
    }

    /// Publishes the waiting step. There must be one, and the published steps must then be a legal
    /// run. May wait for readers.
    pub fn publish(&mut self)
        requires waits { length self.old.waiting ≡ 1 }
        requires legal { IsLegal (self.old.published ++ self.old.waiting) }
        ensures published { self.new.published ≡ self.old.published ++ self.old.waiting }
        ensures waiting { self.new.waiting ≡ [] }
    {
        let Some(step) = &self.waiting else {
            unreachable!();
        };
        let mut prefix = self.prefix.again();
        if !prefix.add(&self.word, step) {
            wait_forever(&self.rt, &self.prefix, &prefix);
        }
        let next = StepDelta::new(prefix.again(), &self.prefix, step);
        self.waiting = None;
        show_in(&self.rt, &mut self.publisher, next);
        self.prefix = prefix;
    }

    /// Returns the summary of the published steps.
    pub fn summary(&self) -> &Summary
        ensures { Shows result.now self.now.published }
    {
        self.publisher.published().summary()
    }

    /// Returns a receipt for all published steps. Does not allocate.
    pub fn receipt(&self) -> Receipt<N>
        ensures { result ≡ self.now.published }
    {
        Receipt::of(&self.prefix)
    }
}

/// Creates an empty board with `readers` readers (1 to 40) over a new history.
///
/// # Errors
///
/// `NotMade` if an allocation fails.
pub fn new_board<N: HistoryId, R: Wait + Copy>(
    alloc: Global,
    rt: R,
    history: NewHistory,
    readers: usize,
) -> Result<(BoardWriter<N, R, BoardState<N>>, Vec<BoardReader<N>>), NotMade>
    requires name { history.seen.book ≡ N.book }
    requires readers { (1 ≤ readers) × (readers ≤ 40) }
    ensures writer { IfOk result (λ r. (r.0.published ≡ []) × (r.0.waiting ≡ [])) }
    ensures readers { IfOk result (λ r. length r.1.items ≡ readers) }
{
    let (word, prefix) = history.named::<N>();
    let (first, second) = (BoardState::opening(&prefix), BoardState::opening(&prefix));
    let Ok(publisher) = RuledWriter::new(alloc, first, second, readers) else {
        return Err(NotMade);
    };
    let Ok(all) = make_readers(alloc, &publisher, &prefix, readers) else {
        drop(publisher.take(&rt));
        return Err(NotMade);
    };
    let writer = BoardWriter {
        publisher,
        word,
        prefix,
        waiting: None,
        rt,
    };
    Ok((writer, all))
}

fn make_readers<N: HistoryId>(
    alloc: Global,
    publisher: &RuledWriter<N, BoardState<N>>,
    prefix: &HistoryPrefix<N>,
    readers: usize,
) -> Result<Vec<BoardReader<N>>, NotMade>
    ensures { IfOk result (λ v. length v.items ≡ readers) }
{
    let mut all = Vec::new(alloc);
    for _ in 0..readers {
        let Ok(reader) = publisher.factory().reader() else {
            return Err(NotMade);
        };
        let Ok(()) = all.push(BoardReader::new(reader, prefix)) else {
            return Err(NotMade);
        };
    }
    Ok(all)
}
