//! The state of each thread.
ghost use Rattle.std.specs.Prelude.{◌≡◌, ℕ, Some};
ghost use Rattle.number_map.specs.Positions.{HasNumberAt};
ghost use Rattle.wellformed.specs.Threads.{thread_in, unknown_thread};

use number_map::NumberMap;

/// The state of a thread: whether it was forked, whether it was joined, and how many locks it
/// holds.
#[derive(Clone, Copy)]
pub struct ThreadEntry {
    pub forked: bool,
    pub joined: bool,
    pub held: u32,
}

/// The state of each thread. A thread without an entry reads like one with `UNKNOWN`.
pub type Threads = NumberMap<ThreadEntry>;

/// The state of a thread that no event names.
pub const UNKNOWN: ThreadEntry = ThreadEntry {
    forked: false,
    joined: false,
    held: 0,
};

/// Returns the state of `thread`.
#[inline(always)]
pub fn thread_entry(threads: &Threads, thread: u32) -> ThreadEntry
    ensures { result ≡ thread_in threads.now thread }
{
    threads.get(thread).unwrap_or(UNKNOWN)
}

/// Returns the state of the thread at the position.
#[inline(always)]
pub fn thread_at(threads: &Threads, position: usize) -> ThreadEntry
    ensures { (t : ℕ) → HasNumberAt threads.now t (Some position) →
        result ≡ thread_in threads.now t }
{
    threads.get_at(position).unwrap_or(UNKNOWN)
}
