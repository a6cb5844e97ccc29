//! The inputs of a run of sessions.

use snapshots::Finding;
use std::marker::Model;

/// The largest number of sessions of a run.
pub const MAX_PLAYED: usize = 64;

/// The number of a session, from 0 to 63.
#[derive(Clone, Copy, Debug, PartialEq, Eq)]
pub struct Session(u8);

impl Model for Session {
    ghost use Rattle.std.specs.Prelude.{ℕ, ◌<◌};

    ghost Value = { ℕ };

    ghost view = { λ s. s.0 };

    ghost invariant = { λ s. s.0 < 64 };

    ghost inverse = { λ n. record { 0 = n } };
}

impl Session {
    ghost use Rattle.std.specs.Prelude.{◌≡◌, ◌<◌};
    ghost use Rattle.std.specs.Option.{SomeIff};

    /// Returns the session with this number, or `None` if the number is not 0 to 63.
    pub fn new(number: u8) -> Option<Session>
        ensures { SomeIff result (number < 64) number }
    {
        if number < 64 {
            Some(Session(number))
        } else {
            None
        }
    }

    /// Returns its number.
    pub fn index(self) -> usize
        ensures value { result ≡ self }
        ensures bound { result < 64 }
    {
        self.0 as usize
    }
}

/// One input of a run: a piece of the bytes of a session, the end of a session, or a finding.
#[derive(Drop)]
pub enum Input {
    Piece(Session, Vec<u8>),
    End(Session),
    Finding(Finding),
}
