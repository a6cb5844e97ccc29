//! The rule of the board, and what a publish and an entry report.
ghost use Rattle.std.specs.Prelude.{◌≡◌, List, [], ℕ, refl, None, Some};
ghost use Rattle.trace_model.specs.declared.messages.step.BoardStep.{BoardStep};
ghost use Rattle.board.specs.Fits.{longer_run};
ghost use Rattle.board.specs.Rules.{IsBoard};
ghost use Rattle.board.specs.Totals.{Shows};

use crate::board_state::{BoardState, StepDelta};
use crate::history::HistoryId;
use crate::summary::Summary;
use crossbeam_utils::rule::{Outcome, Protocol};
use left_right::Absorb;
use std::collections::LinkedList;
use std::marker::{Brand, PhantomData};
use trace_model::BoardStep;

/// The view of the writer or of a reader: the steps that it has seen. No value of it exists at run
/// time.
pub type SeenSteps = LinkedList<BoardStep>;

/// A value on the board: it shows a run of steps, and absorbs the next step. It is published under
/// the rule of the board.
pub trait BoardValue<N: HistoryId>: Absorb<Option<StepDelta<N>>>
    + Protocol<Self, SeenSteps>
    + Drop {
    /// The run that the value shows.
    ghost run: { Self → List BoardStep };

    /// Returns the summary of the run.
    fn summary(&self) -> &Summary
        ensures { Shows result.now (run self.now) };

    /// A value that absorbed a step shows one step more.
    ghost follows: { (s t : Self) (next : List BoardStep) →
        Self.state t ≡ Self.applied (Self.state s) (Some next) → run t ≡ longer_run (run s) next };

    /// The empty change changes nothing.
    ghost idle: { (shown : Self.State) → Self.applied shown None ≡ shown };

    /// Absorbing never fails.
    ghost sure: { Self.never_fails };

    /// The protocol of the value is the rule of the board, in both directions.
    ghost ruled: { (x : Self) (views : List (List BoardStep)) → Self.holds x views →
        IsBoard (run x) views };

    ghost kept: { (x : Self) (views : List (List BoardStep)) → IsBoard (run x) views →
        Self.holds x views };

    /// A new view has seen no step.
    ghost unseen: { Self.first ≡ [] };
}

impl<N: HistoryId> BoardValue<N> for BoardState<N> {
    ghost run = { λ s. s };

    ghost follows = { λ s t next is. is };

    ghost idle = { λ shown. refl };

    ghost sure = { tt };

    ghost ruled = { λ x views rule. rule };

    ghost kept = { λ x views rule. rule };

    ghost unseen = { refl };

    fn summary(&self) -> &Summary {
        self.totals()
    }
}

/// The rule of the board. The writer's view is the list of published steps. A reader's view is a
/// prefix of that list.
impl<N: HistoryId> Protocol<BoardState<N>, SeenSteps> for BoardState<N> {
    ghost use Rattle.std.specs.Prelude.{[]};
    ghost use Rattle.board.specs.Rules.{IsBoard};

    ghost holds = { IsBoard };

    ghost first = { [] };
}

/// A publish: afterwards the writer has seen all published steps.
pub struct Publish<N: HistoryId> {
    name: PhantomData<N>,
}

impl<N: HistoryId, T: BoardValue<N>> Outcome<T, SeenSteps> for Publish<N> {
    ghost then = { λ _ _ y w. w ≡ T.run y };
}

/// The number of steps that a reader knows of. The caller of an entry picks it in its proof.
pub trait KnownCount {
    ghost count: { ℕ };
}

impl KnownCount for Brand {
    ghost count = { 0 };
}

/// An entry: afterwards the reader has seen all published steps, unless it knows of more.
pub struct Enter<N: HistoryId, K: KnownCount> {
    name: PhantomData<(N, K)>,
}

impl<N: HistoryId, K: KnownCount> Outcome<BoardState<N>, SeenSteps> for Enter<N, K> {
    ghost use Rattle.board.specs.Rules.{ReportsEntry};

    ghost then = { λ v x _ w. ReportsEntry K.count v x w };
}
