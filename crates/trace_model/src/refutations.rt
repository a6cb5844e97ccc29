//! Refutations: the reasons why a cycle is not confirmed (this project's profile).

use crate::traces::place::Place;
use std::marker::Model;

/// Why every reordering that reaches an instance contains a place. It names a place of the instance
/// or places that are derived earlier.
#[derive(Clone, Copy, Debug, PartialEq, Eq)]
pub enum Reason {
    /// The place is earlier in the thread of this place of the instance.
    BeforeMember(Place),
    /// The place is earlier in the thread of this derived place.
    ThreadOrder(Place),
    /// The place is the fork of the thread of this derived place. Or this derived place is a join,
    /// and the place is the fork or a place of the joined thread.
    ForkJoin(Place),
    /// This derived place is a read, and the place is its writer.
    ReadsFrom(Place),
    /// Critical sections on one lock begin at these two derived places, and the place is the
    /// release of the first, which is the earlier one.
    Sections(Place, Place),
}

/// A place, and the reason why every reordering that reaches the instance contains it.
#[derive(Clone, Copy, Debug, PartialEq, Eq)]
pub struct Derived {
    pub place: Place,
    pub reason: Reason,
}

/// A derivation: places, each with a reason that names the instance or earlier places of the list.
///
/// Contracts see the list of its entries.
#[derive(Drop)]
pub struct Derivation {
    pub entries: Vec<Derived>,
}

impl Model for Derivation {
    ghost use Rattle.std.specs.Prelude.{List};
    ghost use Rattle.trace_model.specs.declared.refutations.Derived.{Derived};

    ghost Value = { List Derived };

    ghost view = { λ d. d.entries.items };
}

impl Derivation {
    ghost use Rattle.std.specs.Prelude.{◌≡◌};

    /// Returns the entries, in order. Does not allocate.
    pub fn entries(&self) -> &[Derived]
        ensures { result.now ≡ self.now }
    {
        self.entries.as_slice()
    }
}

/// A step of a refutation: the derivation ends with the present place of the member with this
/// 0-based index, so the member moves to the next place of its dependency.
#[derive(Drop)]
pub struct RefutationStep {
    pub member: usize,
    pub derivation: Derivation,
}

/// A refutation of a cycle. It starts at the first place of each member's dependency, and ends when
/// a member has no next place.
///
/// Contracts see the list of its steps.
#[derive(Drop)]
pub struct Refutation {
    pub steps: Vec<RefutationStep>,
}

impl Model for Refutation {
    ghost use Rattle.std.specs.Prelude.{List};
    ghost use Rattle.trace_model.specs.declared.refutations.RefutationStep.{RefutationStep};

    ghost Value = { List RefutationStep };

    ghost view = { λ r. r.steps.items };
}

impl Refutation {
    ghost use Rattle.std.specs.Prelude.{◌≡◌};

    /// Returns the steps, in order. Does not allocate.
    pub fn steps(&self) -> &[RefutationStep]
        ensures { result.now ≡ self.now }
    {
        self.steps.as_slice()
    }
}
