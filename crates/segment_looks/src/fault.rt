//! Why copies give no look.

use segment_image::ImageFault;
use std::alloc::AllocError;
use thiserror::Error;

/// Why copies give no look: the first of these that holds.
#[derive(Clone, Copy, Debug, PartialEq, Eq, Error)]
pub enum LookFault {
    /// The header of the third copy has this fault, or the copies have different lengths: `BadSize`.
    #[error("Image {0}")]
    Image(ImageFault),
    /// It is a segment of version 1, in which a unit that moves between two loads would be seen twice or not at all.
    #[error("OldVersion")]
    OldVersion,
    /// Memory ran out for the look.
    #[error("NoMemory")]
    NoMemory,
}

impl From<AllocError> for LookFault {
    ghost use Rattle.std.specs.Prelude.{◌≡◌};
    ghost use Rattle.segment_looks.specs.declared.fault.LookFault.TheVariants.{NoMemory};

    ghost from_gives = { λ _ fault. fault ≡ NoMemory };

    fn from(_error: AllocError) -> LookFault {
        LookFault::NoMemory
    }
}
