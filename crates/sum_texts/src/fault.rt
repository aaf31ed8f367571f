//! Why a text is not read as a totals.

use std::alloc::AllocError;
use thiserror::Error;

/// Why a text is not read as a totals.
#[derive(Clone, Copy, Debug, PartialEq, Eq, Error)]
pub enum TotalsFault {
    /// There was no memory.
    #[error("NoMemory")]
    NoMemory,
    /// It is not the totals of a well-formed sum. The number is that of a line, from 1.
    #[error("BadTotals {0}")]
    BadTotals(u64),
}

impl From<AllocError> for TotalsFault {
    ghost use Rattle.std.specs.Prelude.{◌≡◌};
    ghost use Rattle.sum_texts.specs.declared.fault.TotalsFault.TheVariants.{NoMemory};

    ghost from_gives = { λ _ fault. fault ≡ NoMemory };

    fn from(_: AllocError) -> TotalsFault {
        TotalsFault::NoMemory
    }
}
