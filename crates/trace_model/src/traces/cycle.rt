//! Cycles of dependencies.

ghost use Rattle.std.specs.Prelude.{◌≡◌, ◌≤◌, ◌↔◌, List, length, ℕ, IfSome, IsSome, slice_get};

use crate::limits::MAX_MEMBERS;
use arrayvec::ArrayVec;
use std::marker::Model;

/// A cycle: the numbers of its 2 to 8 dependencies, the least number first. Each member acquires a
/// lock that the next member holds.
#[derive(Debug, Drop, Clone, PartialEq, Eq)]
pub struct Cycle {
    numbers: ArrayVec<u32, MAX_MEMBERS>,
}

impl Model for Cycle {
    ghost Value = { List ℕ };

    ghost view = { λ c. c.numbers.items };

    ghost invariant = { λ c. 2 ≤ length c.numbers.items };

    ghost inverse = { λ numbers. record { numbers = record { items = numbers } } };
}

impl Cycle {
    /// Returns the cycle with these numbers, or `None` unless there are 2 to 8. Does not allocate.
    pub fn new(numbers: &[u32]) -> Option<Cycle>
        ensures value { IfSome result (λ c. c ≡ numbers.now) }
        ensures in_range { IsSome result ↔ ((2 ≤ length numbers.now) × (length numbers.now ≤ 8)) }
    {
        if numbers.len() < 2 {
            return None;
        }
        let mut members = ArrayVec::new();
        match members.try_extend_from_slice(numbers) {
            Ok(()) => Some(Cycle { numbers: members }),
            Err(_) => None,
        }
    }

    /// Returns the numbers of the dependencies, the least first. Does not allocate.
    pub fn numbers(&self) -> &[u32]
        ensures value { result.now ≡ self.now }
        ensures low { 2 ≤ length self.now }
        ensures high { length self.now ≤ 8 }
    {
        self.numbers.as_slice()
    }
}
