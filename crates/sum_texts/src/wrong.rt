//! Why lines are not read.

use std::alloc::{AllocError, AllocFailed};

/// Why lines are not read.
#[derive(Clone, Copy, PartialEq, Eq)]
pub(crate) enum Wrong {
    /// There was no memory.
    NoMemory,
    /// The line at this index is wrong.
    Line(usize),
}

impl From<AllocError> for Wrong {
    ghost use Rattle.std.specs.Prelude.{◌≡◌};
    ghost use Rattle.sum_texts.specs.declared.wrong.Wrong.TheVariants.{NoMemory};

    ghost from_gives = { λ _ wrong. wrong ≡ NoMemory };

    fn from(_: AllocError) -> Wrong {
        Wrong::NoMemory
    }
}

impl<T: Drop> From<AllocFailed<T>> for Wrong {
    ghost use Rattle.std.specs.Prelude.{◌≡◌};
    ghost use Rattle.sum_texts.specs.declared.wrong.Wrong.TheVariants.{NoMemory};

    ghost from_gives = { λ _ wrong. wrong ≡ NoMemory };

    fn from(_: AllocFailed<T>) -> Wrong {
        Wrong::NoMemory
    }
}
