//! How long a search goes on before it is paused.

ghost use Rattle.std.specs.Prelude.{◌≡◌, ◌<◌, false, IsTrue};

/// Counts the members that a search visits, and may pause it.
pub(crate) trait Pace {
    /// The states in which it pauses the search.
    ghost pauses: { Self → Type 0 };

    /// Counts a member. Returns whether the search may visit it.
    fn visits(&mut self) -> bool
        ensures { result ≡ false → pauses self.old };
}

/// A search that is never paused.
#[derive(Drop)]
pub(crate) struct Unpaused;

impl Pace for Unpaused {
    ghost pauses = { λ _. ⊥ };

    fn visits(&mut self) -> bool {
        true
    }
}

/// A search that is paused after some members.
#[derive(Drop)]
pub(crate) struct Visits {
    /// The number of members that the search may still visit.
    pub(crate) left: u64,
}

impl Pace for Visits {
    ghost use Rattle.std.specs.Prelude.{◌≡◌};

    ghost pauses = { λ visits. visits.left ≡ 0 };

    fn visits(&mut self) -> bool {
        match self.left.checked_sub(1) {
            Some(left) => {
                self.left = left;
                true
            }
            None => false,
        }
    }
}

/// Why a search ends before it has all cycles.
#[derive(Drop)]
pub(crate) enum Halt<R: Drop> {
    /// The collector refused a cycle.
    Refused(R),
    /// The search was paused: the next member of the path is a number above this.
    Paused(u32),
}
