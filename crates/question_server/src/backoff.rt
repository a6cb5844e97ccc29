//! How a worker waits between its turns.
ghost use Rattle.std.specs.Prelude.{◌≡◌, ◌+◌, ◌-◌, ◌*◌, min, nat_lt};
ghost use Rattle.question_server.specs.declared.backoff.TheConstants.{AWAKE, MOST_SLEEPS};

use std::thread;
use std::time::{Clock, Duration};

/// The number of successive turns without work before a worker sleeps.
const AWAKE: u32 = 64;

/// The length of one sleep, in milliseconds.
const SLEEP_MILLIS: u64 = 2;

/// The largest number of sleeps after one failed turn.
const MOST_SLEEPS: u32 = 1024;

/// The state of a worker between its turns.
#[derive(Clone, Copy)]
pub struct Backoff {
    /// The number of turns without work before the worker sleeps.
    awake: u32,
    /// The number of sleeps before the next turn.
    sleeps: u32,
    /// The number of sleeps after the last turn, if that failed for lack of memory; else 0.
    failed: u32,
}

impl Backoff {
    /// Returns the state of a new worker.
    pub fn new() -> Backoff
        ensures { result ≡ record { awake = AWAKE; sleeps = 0; failed = 0 } }
    {
        Backoff {
            awake: AWAKE,
            sleeps: 0,
            failed: 0,
        }
    }

    /// Starts to count again after a turn that delivered a task or searched on.
    pub fn worked(&mut self)
        ensures { self.new ≡ record { awake = AWAKE; sleeps = self.old.sleeps; failed = 0 } }
    {
        self.awake = AWAKE;
        self.failed = 0;
    }

    /// Counts a turn without work: yields to another thread, or sleeps once if there were
    /// `AWAKE` such turns.
    pub fn after_nothing(&mut self, clock: &impl Clock)
        ensures { self.new ≡ record {
          awake = self.old.awake - 1;
          sleeps = self.old.sleeps;
          failed = 0;
        } }
    {
        self.failed = 0;
        match self.awake.checked_sub(1) {
            Some(left) => {
                self.awake = left;
                thread::yield_now();
            }
            None => sleep(clock),
        }
    }

    /// Counts a turn that failed for lack of memory. The worker must sleep before its next turn:
    /// once after the first such turn, and about twice as often after each further one, at most
    /// `MOST_SLEEPS` times.
    pub fn after_failure(&mut self)
        ensures failed { self.new.failed ≡ min (self.old.failed * 2 + 1) MOST_SLEEPS }
        ensures sleeps { self.new.sleeps ≡ self.new.failed }
        ensures awake { self.new.awake ≡ self.old.awake }
    {
        let more = self.failed.saturating_mul(2).saturating_add(1);
        self.failed = more.min(MOST_SLEEPS);
        self.sleeps = self.failed;
    }

    /// Sleeps once if the worker must still sleep before its next turn. Returns whether it did.
    pub fn sleeps(&mut self, clock: &impl Clock) -> bool
        ensures slept { result ≡ nat_lt 0 self.old.sleeps }
        ensures left { self.new ≡ record {
          awake = self.old.awake;
          sleeps = self.old.sleeps - 1;
          failed = self.old.failed;
        } }
    {
        let Some(left) = self.sleeps.checked_sub(1) else {
            return false;
        };
        self.sleeps = left;
        sleep(clock);
        true
    }
}

fn sleep(clock: &impl Clock) {
    thread::sleep(clock, Duration::from_millis(SLEEP_MILLIS));
}
