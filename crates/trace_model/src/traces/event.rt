//! Events and their operations.

/// The operation of an event.
#[derive(Clone, Copy, Debug, PartialEq, Eq)]
pub enum Op {
    /// Starts the thread with this number.
    Fork(u32),
    /// Waits for the end of the thread with this number.
    Join(u32),
    /// Acquires the lock with this number. The thread may hold it already.
    Acquire(u32),
    /// Releases the lock with this number once.
    Release(u32),
    /// Reads the variable with this number.
    Read(u32),
    /// Writes the variable with this number.
    Write(u32),
}

/// One event of the traced program.
#[derive(Clone, Copy, Debug, PartialEq, Eq)]
pub struct Event {
    /// The number of the thread.
    pub thread: u32,
    /// The operation.
    pub op: Op,
}

/// The event that fills the unused part of a list of a fixed size.
impl Default for Event {
    fn default() -> Event {
        Event {
            thread: 0,
            op: Op::Write(0),
        }
    }
}
