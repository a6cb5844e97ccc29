//! A meeting of two threads: each waits for the other.

use std::sync::atomic::{AtomicU64, Ordering};
use std::thread;

/// A meeting of two sides. A caller of one side waits until a caller of the other side has come, or
/// gives up.
#[derive(Drop)]
pub(crate) struct Meeting {
    first: AtomicU64,
    second: AtomicU64,
    gave_up: AtomicU64,
}

impl Meeting {
    /// Returns a meeting to which no side has come.
    pub(crate) fn new() -> Meeting {
        Meeting {
            first: AtomicU64::new(0),
            second: AtomicU64::new(0),
            gave_up: AtomicU64::new(0),
        }
    }

    /// Comes to the meeting on the first or the second side, and yields at most `yields` times
    /// until the other side has come. If it has not, the meeting records that a caller gave up.
    pub(crate) fn come(&self, is_first: bool, yields: u32) {
        let (own, other) = if is_first {
            (&self.first, &self.second)
        } else {
            (&self.second, &self.first)
        };
        own.fetch_add(1, Ordering::SeqCst);
        for _ in 0..yields {
            if other.load(Ordering::SeqCst) > 0 {
                return;
            }
            thread::yield_now();
        }
        self.gave_up.store(1, Ordering::SeqCst);
    }

    /// Returns the number of callers of the first side, and of the second.
    pub(crate) fn came(&self) -> (u64, u64) {
        (
            self.first.load(Ordering::SeqCst),
            self.second.load(Ordering::SeqCst),
        )
    }

    /// Returns whether some caller gave up.
    pub(crate) fn gave_up(&self) -> bool {
        self.gave_up.load(Ordering::SeqCst) != 0
    }
}
