//! Instances of cycles.

use crate::limits::MAX_MEMBERS;
use crate::traces::place::Place;
use arrayvec::ArrayVec;
use std::marker::Model;

/// An instance of a cycle: 2 to 8 places, the acquire of each member in the order of the cycle.
#[derive(Drop)]
pub struct Instance {
    places: ArrayVec<Place, MAX_MEMBERS>,
}

impl Model for Instance {
    ghost use Rattle.std.specs.Prelude.{List, ℕ, ◌≤◌};
    ghost use Rattle.arrayvec.specs.ArrayVec.{array_vec_len};

    ghost Value = { List ℕ };

    ghost view = { λ i. i.places.items };

    ghost invariant = { λ i. 2 ≤ array_vec_len i.places };
}

impl Instance {
    ghost use Rattle.std.specs.Prelude.{◌≡◌, ◌≤◌, ◌↔◌, IfSome, IsSome, length, slice_get};

    /// Returns the instance of these places, or `None` unless there are 2 to 8.
    pub fn new(places: &[Place]) -> Option<Instance>
        ensures value { IfSome result (λ i. i ≡ places.now) }
        ensures in_range { IsSome result ↔ ((2 ≤ length places.now) × (length places.now ≤ 8)) }
    {
        if places.len() < 2 {
            return None;
        }
        let mut found = ArrayVec::new();
        match found.try_extend_from_slice(places) {
            Ok(()) => Some(Instance { places: found }),
            Err(_) => None,
        }
    }

    /// Returns the number of places, 2 to 8.
    pub fn len(&self) -> usize
        ensures value { result ≡ length self.now }
        ensures low { 2 ≤ result }
        ensures high { result ≤ 8 }
    {
        self.places.len()
    }

    /// Returns the place of the member with this 0-based index, or `None` if there is no such
    /// member.
    pub fn get(&self, member: usize) -> Option<Place>
        ensures { result ≡ slice_get self.now member }
    {
        self.places.get(member).copied()
    }
}
