//! How the server goes on after a failed accept.
ghost use Rattle.std.specs.Prelude.{◌≡◌, ◌*◌, min};
ghost use Rattle.question_server.specs.declared.accepting.TheConstants.{FIRST_MILLIS, MOST_MILLIS};

use std::time::{Clock, Duration};
use std::{io, thread};

/// The errors of a listener that accepts nothing any more, as Linux numbers them: EBADF, EINVAL,
/// ENOTSOCK and EOPNOTSUPP. Other errors are those of one connection, or end when descriptors and
/// memory are free again.
const OF_LISTENER: [i32; 4] = [9, 22, 88, 95];

/// The first pause after an accept that failed, in milliseconds.
const FIRST_MILLIS: u64 = 2;

/// The longest pause, in milliseconds.
const MOST_MILLIS: u64 = 1000;

/// Returns whether the error is that of the listener, so that no later accept can succeed.
pub fn is_of_listener(error: &io::Error) -> bool {
    match error.raw_os_error() {
        Some(number) => OF_LISTENER.iter().any(|other| *other == number),
        None => false,
    }
}

/// The pause after the next accept that fails.
#[derive(Clone, Copy)]
pub struct Pause {
    millis: u64,
}

impl Pause {
    /// Returns the pause after the first accept that fails.
    pub fn new() -> Pause
        ensures { result ≡ record { millis = FIRST_MILLIS } }
    {
        Pause {
            millis: FIRST_MILLIS,
        }
    }

    /// Pauses, and doubles the next pause, up to `MOST_MILLIS`.
    pub fn pause(&mut self, clock: &impl Clock)
        ensures { self.new.millis ≡ min (self.old.millis * 2) MOST_MILLIS }
    {
        thread::sleep(clock, Duration::from_millis(self.millis));
        self.millis = self.millis.saturating_mul(2).min(MOST_MILLIS);
    }
}
