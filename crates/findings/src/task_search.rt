//! The search of a task, which can be paused.

ghost use Rattle.std.specs.Prelude.{◌≡◌, None};

use cycle_search::PausedSearch;
use snapshots::Finding;

/// The search of a task, before its first step or paused.
#[derive(Drop)]
pub struct TaskSearch {
    pub(crate) task: u32,
    /// `None` before the first step.
    pub(crate) search: Option<PausedSearch>,
}

impl TaskSearch {
    /// Returns the search of this task before its first step. Does not allocate.
    pub fn new(task: u32) -> TaskSearch
        ensures task { result.task ≡ task }
        ensures unbegun { result.search ≡ None }
    {
        TaskSearch { task, search: None }
    }

    /// Returns the task.
    pub fn task(&self) -> u32
        ensures { result ≡ self.now.task }
    {
        self.task
    }
}

/// How far a job came with the search of a task.
#[derive(Drop)]
pub enum Advanced {
    /// The search ended. This is the finding of the task.
    Finished(Finding),
    /// The search was paused.
    Paused(TaskSearch),
}
