//! The bound of a question.

use crate::limits::{MAX_BOUND, MIN_BOUND};
use std::marker::Model;

/// The greatest number of members of the cycles of a question: `MIN_BOUND` to `MAX_BOUND`.
#[derive(Clone, Copy, Debug, PartialEq, Eq)]
pub struct Bound(u8);

impl Model for Bound {
    ghost use Rattle.std.specs.Prelude.{ℕ, ◌≤◌};

    ghost Value = { ℕ };

    ghost view = { λ b. b.0 };

    ghost invariant = { λ b. (2 ≤ b.0) × (b.0 ≤ 8) };

    ghost inverse = { λ n. record { 0 = n } };
}

impl Bound {
    ghost use Rattle.std.specs.Prelude.{◌≡◌, ◌≤◌, ◌↔◌, IfSome, IsSome};
    ghost use Rattle.trace_model.specs.declared.limits.TheConstants.{MIN_BOUND, MAX_BOUND};

    /// Returns the bound `most`, or `None` unless it is 2 to 8.
    pub fn new(most: u8) -> Option<Bound>
        ensures value { IfSome result (λ b. b ≡ most) }
        ensures in_range { IsSome result ↔ ((MIN_BOUND ≤ most) × (most ≤ MAX_BOUND)) }
    {
        if MIN_BOUND <= most && most <= MAX_BOUND {
            Some(Bound(most))
        } else {
            None
        }
    }

    /// Returns the least bound, `MIN_BOUND`.
    pub fn least() -> Bound
        ensures { result ≡ MIN_BOUND }
    {
        Bound(MIN_BOUND)
    }

    /// Returns the bound as a number.
    pub fn get(self) -> u8
        ensures value { result ≡ self }
        ensures low { MIN_BOUND ≤ result }
        ensures high { result ≤ MAX_BOUND }
    {
        let Bound(most) = self;
        most
    }
}
