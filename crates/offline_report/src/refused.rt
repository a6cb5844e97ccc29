//! Why there is no report.

use thiserror::Error;
use wellformed::FirstUnlawful;

/// Why there is no report.
#[derive(Clone, Copy, Debug, PartialEq, Eq, Error)]
pub enum OfflineRefused {
    /// An event is not lawful after those before it.
    #[error("an event is not lawful")]
    Unlawful(FirstUnlawful),
    /// The text has more than `MAX_REPORT` bytes.
    #[error("the report is too long")]
    TooLong,
    /// A task has more than `MAX_CYCLES` cycles. A report is refused as too long before that many
    /// are found, so only the command `explain` gives this reason.
    #[error("too many cycles")]
    TooManyCycles,
    /// An allocation failed.
    #[error("no memory")]
    NoMemory,
}
