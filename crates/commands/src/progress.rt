//! The progress of a report.
use findings::Hold;

/// Receives the progress of a report. Any thread calls `hold` once the rows of a task are computed.
pub trait Progress: Hold {
    /// Called once before the first task, with the number of tasks.
    fn begin(&self, tasks: u32);

    /// Called once after the last task.
    fn end(&self);
}

/// Ignores all progress.
pub struct NoProgress;

impl Hold for NoProgress {
    fn hold(&self, _question: u32, _task: u32) {}
}

impl Progress for NoProgress {
    fn begin(&self, _tasks: u32) {}

    fn end(&self) {}
}
