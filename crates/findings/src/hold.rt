//! A hook that is called when a task is computed.

/// A hook that is called when a task is computed, before its rows are used. A test may block in it.
pub trait Hold {
    /// Called when the task is computed.
    fn hold(&self, question: u32, task: u32);
}

/// A hold that returns immediately.
pub struct RunOn;

impl Hold for RunOn {
    fn hold(&self, _question: u32, _task: u32) {}
}
