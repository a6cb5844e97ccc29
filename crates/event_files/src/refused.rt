//! Why a file was not read.
use thiserror::Error;
use trace_model::NoMemory;

/// Why a file was not read.
#[derive(Clone, Copy, Debug, PartialEq, Eq, Error)]
pub enum FileRefused {
    /// The first line that is not understood has this number, counted from 1.
    #[error("line {0} is not understood")]
    Line(usize),
    /// An allocation failed.
    #[error("no memory")]
    NoMemory,
}

impl From<NoMemory> for FileRefused {
    ghost use Rattle.std.specs.Prelude.{◌≡◌};
    ghost use Rattle.event_files.specs.declared.refused.FileRefused.TheVariants as refusals;

    ghost from_gives = { λ _ refused. refused ≡ refusals.NoMemory };

    fn from(_refused: NoMemory) -> FileRefused {
        FileRefused::NoMemory
    }
}

/// Why a file of explained cycles was not read.
#[derive(Clone, Copy, Debug, PartialEq, Eq, Error)]
pub enum ExplainedRefused {
    /// The first line that is not understood has this number, counted from 1.
    #[error("line {0} is not understood")]
    Line(usize),
    /// The line with this number, counted from 1, says that an agent merged cycles.
    #[error("line {0} is of a merged report")]
    Merged(usize),
    /// An allocation failed.
    #[error("no memory")]
    NoMemory,
}

impl From<NoMemory> for ExplainedRefused {
    ghost use Rattle.std.specs.Prelude.{◌≡◌};
    ghost use Rattle.event_files.specs.declared.refused.ExplainedRefused.TheVariants as explained;

    ghost from_gives = { λ _ refused. refused ≡ explained.NoMemory };

    fn from(_refused: NoMemory) -> ExplainedRefused {
        ExplainedRefused::NoMemory
    }
}
