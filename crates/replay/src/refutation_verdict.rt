//! The result of a check of a refutation.

use trace_model::{Derived, Place};

/// Why a step of a refutation is wrong. The tests are made in this order.
#[derive(Clone, Copy, Debug, PartialEq, Eq)]
pub enum RefutationFault {
    /// The cycle has no member with the index of the step.
    NoSuchMember,
    /// The reason of this entry of the derivation does not hold. It is the first such entry.
    Unjustified(Derived),
    /// The derivation does not end with this place, the present place of the member.
    NotDerived(Place),
}

/// The result of a check of a refutation. Steps are numbered from 0.
#[derive(Clone, Copy, Debug, PartialEq, Eq)]
pub enum RefutationVerdict {
    /// The steps are a refutation of the cycle, so it is not confirmed.
    Valid,
    /// The trace has no dependency with this number. It is the first such number of the cycle.
    UnknownNumber(u32),
    /// The step with this number is the first that is wrong.
    WrongStep(usize, RefutationFault),
    /// The member of the step before this one has no next place, so this step is one too many.
    AfterEnd(usize),
    /// All steps are right, but each of their members has a next place.
    PlaceLeft,
}
