//! A progress line on standard error.
use crate::progress::Progress;
use findings::Hold;
use std::rt::Clock;
use std::sync::atomic::{AtomicU32, AtomicU64, Ordering};
use std::time::Instant;

/// How long the line stays hidden, in tenths of a second.
const DELAY: u64 = 20;

/// A line on standard error with the number of finished tasks. It appears after two seconds, is
/// rewritten at most ten times a second, and is erased at the end.
#[derive(Drop)]
pub struct ProgressLine<'a, R: Clock + Eprint> {
    rt: &'a R,
    /// The time of creation; `None` if nothing is to be shown.
    start: Option<Instant>,
    tasks: AtomicU32,
    done: AtomicU32,
    /// The time of the last write, in tenths of a second since `start`; 0 if there was none.
    written: AtomicU64,
}

impl<'a, R: Clock + Eprint> ProgressLine<'a, R> {
    /// Creates a line, which is shown only if standard error is a terminal and the clock works.
    pub fn new(rt: &'a R, is_terminal: bool) -> ProgressLine<'a, R> {
        let start = if is_terminal {
            Instant::now(rt).ok()
        } else {
            None
        };
        ProgressLine {
            rt,
            start,
            tasks: AtomicU32::new(0),
            done: AtomicU32::new(0),
            written: AtomicU64::new(0),
        }
    }

    /// Returns the time since `start`, in tenths of a second.
    fn now(&self) -> Option<u64> {
        let elapsed = self.start?.elapsed(self.rt).ok()?;
        let tenths = u64::from(elapsed.subsec_millis() / 100);
        Some(elapsed.as_secs().saturating_mul(10).saturating_add(tenths))
    }

    /// Writes the line if it is due and no other thread is writing it.
    fn show(&self) {
        let Some(now) = self.now() else {
            return;
        };
        let last = self.written.load(Ordering::SeqCst);
        if now < DELAY || now <= last {
            return;
        }
        let turn = self
            .written
            .compare_exchange(last, now, Ordering::SeqCst, Ordering::SeqCst);
        if turn.is_ok() {
            let done = self.done.load(Ordering::SeqCst);
            let tasks = self.tasks.load(Ordering::SeqCst);
            // A progress line that cannot be written is not an error.
            let _ = eprint!(self.rt; "\r{done} of {tasks} tasks");
        }
    }
}

impl<'a, R: Clock + Eprint> Hold for ProgressLine<'a, R> {
    fn hold(&self, _question: u32, _task: u32) {
        self.done.fetch_add(1, Ordering::SeqCst);
        self.show();
    }
}

impl<'a, R: Clock + Eprint> Progress for ProgressLine<'a, R> {
    fn begin(&self, tasks: u32) {
        self.tasks.store(tasks, Ordering::SeqCst);
        self.show();
    }

    fn end(&self) {
        if self.written.load(Ordering::SeqCst) > 0 {
            let _ = eprint!(self.rt; "\r{:30}\r", "");
        }
    }
}
