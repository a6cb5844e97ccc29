//! The owner of a lock.

/// The thread that holds a lock, and the depth: its acquires of the lock less its releases.
#[derive(Clone, Copy, Debug, PartialEq, Eq)]
pub struct Owner {
    /// The number of the thread.
    pub thread: u32,
    /// The depth, 1 to `MAX_DEPTH`.
    pub depth: u8,
}
