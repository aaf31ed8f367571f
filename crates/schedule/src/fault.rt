//! Why there is no schedule.

use segment_image::ReadFault;
use std::alloc::AllocError;
use thiserror::Error;

/// Why no schedule was read.
#[derive(Clone, Copy, Debug, PartialEq, Eq, Error)]
pub enum ScheduleFault {
    /// A read of the schedule failed.
    #[error("Read")]
    Read,
    /// The schedule has more than 16,777,216 bytes.
    #[error("TooLong")]
    TooLong,
    /// Memory ran out for the schedule.
    #[error("NoMemory")]
    NoMemory,
    /// The record of this number, from 1, has no valid form, or a number out of its type.
    #[error("BadLine {0}")]
    BadLine(u64),
}

impl From<AllocError> for ScheduleFault {
    ghost use Rattle.std.specs.Prelude.{◌≡◌};
    ghost use Rattle.schedule.specs.declared.fault.ScheduleFault.TheVariants.{NoMemory};

    ghost from_gives = { λ _ result. result ≡ NoMemory };

    fn from(_: AllocError) -> ScheduleFault {
        ScheduleFault::NoMemory
    }
}
