//! The value on the board, and the change that a step makes to it.
ghost use Rattle.std.specs.Prelude.{◌≡◌, [], ◌∷◌, ◌++◌};
ghost use Rattle.board.specs.Totals.{Shows};
ghost use Rattle.board.specs.Fits.{longer_run};

use crate::history::{HistoryId, HistoryPrefix};
use crate::summary::{Count, Summary};
use left_right::Absorb;
use std::alloc::AllocError;
use std::marker::Model;
use trace_model::BoardStep;

/// The summary of a prefix of the history. Contracts see it as the list of these steps.
pub struct BoardState<N: HistoryId> {
    summary: Summary,
    prefix: HistoryPrefix<N>,
}

impl<N: HistoryId> Drop for BoardState<N> {
    fn drop(self) {
        let BoardState {
            summary: _,
            prefix: _,
        } = self;
    }
}

impl<N: HistoryId> Model for BoardState<N> {
    ghost use Rattle.std.specs.Prelude.{List};
    ghost use Rattle.trace_model.specs.declared.messages.step.BoardStep.{BoardStep};
    ghost use Rattle.board.specs.Totals.{Shows};

    ghost Value = { List BoardStep };

    ghost view = { λ s. s.prefix };

    ghost invariant = { λ s. Shows s.summary s.prefix };
}

/// The counts of one step, with the prefix of the history that ends with it. Contracts see it as
/// that prefix.
pub struct StepDelta<N: HistoryId> {
    count: Count,
    prefix: HistoryPrefix<N>,
}

impl<N: HistoryId> Drop for StepDelta<N> {
    fn drop(self) {
        let StepDelta {
            count: _,
            prefix: _,
        } = self;
    }
}

impl<N: HistoryId> Model for StepDelta<N> {
    ghost use Rattle.std.specs.Prelude.{List};
    ghost use Rattle.trace_model.specs.declared.messages.step.BoardStep.{BoardStep};
    ghost use Rattle.board.specs.Totals.{EndsCounted};

    ghost Value = { List BoardStep };

    ghost view = { λ s. s.prefix };

    ghost invariant = { λ s. EndsCounted s.prefix s.count };
}

impl<N: HistoryId> StepDelta<N> {
    /// Returns the change for the last step of `prefix`.
    pub(crate) fn new(
        prefix: HistoryPrefix<N>,
        before: &HistoryPrefix<N>,
        step: &BoardStep,
    ) -> StepDelta<N>
        requires { prefix ≡ before.now ++ step.now ∷ [] }
        ensures { result ≡ prefix }
    {
        let _ = before; // for the proof
        StepDelta {
            count: Count::of(step),
            prefix,
        }
    }
}

impl<N: HistoryId> BoardState<N> {
    /// Returns the value for the empty prefix.
    pub(crate) fn opening(prefix: &HistoryPrefix<N>) -> BoardState<N>
        requires { prefix.now ≡ [] }
        ensures { result ≡ prefix.now }
    {
        BoardState {
            summary: Summary::opening(),
            prefix: prefix.again(),
        }
    }

    /// Returns the summary of its steps.
    pub fn totals(&self) -> &Summary
        ensures { Shows result.now self.now }
    {
        &self.summary
    }

    /// Returns its steps as a prefix of the history.
    pub fn prefix(&self) -> &HistoryPrefix<N>
        ensures { result.now ≡ self.now }
    {
        &self.prefix
    }

    /// Adds the step if it is the next one.
    fn follow(&mut self, next: &StepDelta<N>)
        ensures { self.new ≡ longer_run self.old next.now }
    {
        let (ours, theirs) = (self.prefix.len(), next.prefix.len());
        if theirs > 0 && theirs - 1 == ours {
            // for the proof: one is a prefix of the other
            let _longer = self.prefix.longer(&next.prefix);
            self.summary.add(next.count);
            self.prefix = next.prefix.again();
        }
    }
}

impl<N: HistoryId> Absorb<Option<StepDelta<N>>> for BoardState<N> {
    ghost use Rattle.board.specs.Fits.{after_change};

    // A clause reads an array as a list, of any length.
    type State = [BoardStep; 0];

    ghost state = { λ s. s };

    ghost applied = { after_change };

    ghost never_fails = { Unit {0} };

    fn absorb_first(
        &mut self,
        operation: &Option<StepDelta<N>>,
        _other: &BoardState<N>,
    ) -> Result<(), AllocError> {
        if let Some(next) = operation {
            self.follow(next);
        }
        Ok(())
    }
}
