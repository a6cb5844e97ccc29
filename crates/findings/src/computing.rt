//! Computes the finding of one task.

ghost use Rattle.std.specs.Prelude.{◌≡◌, IfOk, Err};
ghost use Rattle.std.specs.Arc.{arc_value};
ghost use Rattle.trace_model.specs.declared.limits.TheConstants.{MAX_CYCLES};
ghost use Rattle.trace_model.specs.Theory.Dependencies.{dependencies};
ghost use Rattle.cycle_search.specs.CycleSearch.{CycleFrom, MoreThan};

use crate::analysis::Analysis;
use crate::job::Job;
use snapshots::{Finding, Snapshot};
use std::alloc::Global;
use std::sync::Arc;
use thiserror::Error;
use trace_model::{Bound, NoMemory};

/// Why a task is not computed.
#[derive(Debug, Drop, PartialEq, Eq, Error)]
pub enum ComputeRefused {
    /// The task has more than `MAX_CYCLES` cycles.
    #[error("too many cycles")]
    TooManyCycles,
    /// An allocation failed.
    #[error("no memory")]
    NoMemory,
}

impl From<NoMemory> for ComputeRefused {
    ghost use Rattle.std.specs.Prelude.{◌≡◌};
    ghost use Rattle.findings.specs.declared.computing.ComputeRefused.TheVariants as refusals;

    ghost from_gives = { λ _ e. e ≡ refusals.NoMemory };

    fn from(_refused: NoMemory) -> ComputeRefused {
        ComputeRefused::NoMemory
    }
}

/// Returns the finding of a task, computed by an analysis and a job of its own. See
/// [`Job::compute`]. Part of the public API; not called by the program.
///
/// # Errors
/// - `TooManyCycles` only if the task has more than `MAX_CYCLES` cycles.
/// - `NoMemory` if an allocation fails.
pub fn compute(
    alloc: Global,
    snapshot: Arc<Snapshot, Global>,
    question: u32,
    bound: Bound,
    task: u32,
) -> Result<Finding, ComputeRefused>
    ensures asked { IfOk result (λ f. (f.question ≡ question) × (f.bound ≡ bound)
        × (f.task ≡ task) × (f.events ≡ arc_value snapshot)) }
    ensures too_many { result ≡ Err ComputeRefused.TooManyCycles →
        MoreThan (CycleFrom (dependencies (arc_value snapshot)) bound task) MAX_CYCLES }
{
    let analysis = Analysis::new(alloc, snapshot, bound)?;
    Job::new(alloc, analysis, question).compute(task)
}
