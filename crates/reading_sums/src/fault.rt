//! Why a sum is refused.

use std::alloc::{AllocError, AllocFailed};
use thiserror::Error;

/// Why a sum is refused. The sum that was to change is unchanged.
#[derive(Clone, Copy, Debug, PartialEq, Eq, Error)]
pub enum SumsFault {
    /// There was no memory.
    #[error("NoMemory")]
    NoMemory = 1,
    /// A total would not fit: all units of a histogram, or a total of marks, of redundant counts or of images, would
    /// not fit 64 bits, or one of amounts 128; or a number of the notes or the least number of an image would not fit
    /// 64.
    #[error("TooMany")]
    TooMany = 2,
}

impl From<AllocError> for SumsFault {
    ghost use Rattle.std.specs.Prelude.{◌≡◌};
    ghost use Rattle.reading_sums.specs.declared.fault.SumsFault.TheVariants.{NoMemory};

    ghost from_gives = { λ _ fault. fault ≡ NoMemory };

    fn from(_: AllocError) -> SumsFault {
        SumsFault::NoMemory
    }
}

impl<T: Drop> From<AllocFailed<T>> for SumsFault {
    ghost use Rattle.std.specs.Prelude.{◌≡◌};
    ghost use Rattle.reading_sums.specs.declared.fault.SumsFault.TheVariants.{NoMemory};

    ghost from_gives = { λ _ fault. fault ≡ NoMemory };

    fn from(_: AllocFailed<T>) -> SumsFault {
        SumsFault::NoMemory
    }
}

/// Why it cannot be said what was counted since an earlier sum.
#[derive(Debug, PartialEq, Eq, Drop, Error)]
pub enum MinusFault {
    /// There was no memory.
    #[error("NoMemory")]
    NoMemory,
    /// An amount minus the earlier one would not fit 128 bits.
    #[error("TooMany")]
    TooMany,
    /// The later sum has less of this name than the earlier one: fewer units or marks of a key, a smaller redundant
    /// count, or nothing at all although the earlier one has something.
    #[error("Fell")]
    Fell(Vec<u8>),
    /// The earlier sum has this name under a spec under which the later one does not have it; the later one has it
    /// under another.
    #[error("OtherSpec")]
    OtherSpec(Vec<u8>),
}

impl From<AllocError> for MinusFault {
    ghost use Rattle.std.specs.Prelude.{◌≡◌};
    ghost use Rattle.reading_sums.specs.declared.fault.MinusFault.TheVariants.{NoMemory};

    ghost from_gives = { λ _ fault. fault ≡ NoMemory };

    fn from(_: AllocError) -> MinusFault {
        MinusFault::NoMemory
    }
}

impl<T: Drop> From<AllocFailed<T>> for MinusFault {
    ghost use Rattle.std.specs.Prelude.{◌≡◌};
    ghost use Rattle.reading_sums.specs.declared.fault.MinusFault.TheVariants.{NoMemory};

    ghost from_gives = { λ _ fault. fault ≡ NoMemory };

    fn from(_: AllocFailed<T>) -> MinusFault {
        MinusFault::NoMemory
    }
}
