//! Why a search fails.

use std::alloc::AllocFailed;
use thiserror::Error;
use trace_model::NoMemory;

/// Why a search returns no cycles.
#[derive(Debug, Drop, PartialEq, Eq, Error)]
pub enum SearchRefused {
    /// There are more than 4,294,967,295 cycles.
    #[error("more than 4294967295 cycles")]
    TooMany,
    /// An allocation failed.
    #[error("no memory")]
    NoMemory,
}

impl<T: Drop> From<AllocFailed<T>> for SearchRefused {
    ghost use Rattle.std.specs.Prelude.{◌≡◌};
    ghost use Rattle.cycle_search.specs.declared.refused.SearchRefused.TheVariants.{NoMemory};

    ghost from_gives = { λ _ e. e ≡ NoMemory };

    fn from(_value: AllocFailed<T>) -> SearchRefused {
        SearchRefused::NoMemory
    }
}

impl From<NoMemory> for SearchRefused {
    ghost use Rattle.std.specs.Prelude.{◌≡◌};
    ghost use Rattle.cycle_search.specs.declared.refused.SearchRefused.TheVariants as refusals;

    ghost from_gives = { λ _ e. e ≡ refusals.NoMemory };

    fn from(_refused: NoMemory) -> SearchRefused {
        SearchRefused::NoMemory
    }
}
