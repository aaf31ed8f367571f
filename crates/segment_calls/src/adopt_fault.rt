//! Why an image may not be adopted.

use segment_image::ImageFault;
use std::alloc::AllocError;
use thiserror::Error;

/// Why an image may not be adopted: the first of these that holds.
#[derive(Clone, Copy, Debug, PartialEq, Eq, Error)]
pub enum AdoptFault {
    /// The header has this fault.
    #[error("Image {0}")]
    Image(ImageFault),
    /// It is an image of version 1, in which units may be in transit for good.
    #[error("OldVersion")]
    OldVersion,
    /// Some thread found the segment corrupt.
    #[error("Corrupt")]
    Corrupt,
    /// No segment can have these words: the list stops before its end, a record is bad, blocks overlap, a word from the
    /// free pointer on is not 0, there is no room for a block in its page, the tail is not on the list, a sample that
    /// is not the first of its value has a count or a mark, a name is not padded with zeros, or there is a count or a
    /// mark where none is in use.
    #[error("Damaged")]
    Damaged,
    /// The histograms have used more than the 4,294,967,295 units that a segment has.
    #[error("NoUnits")]
    NoUnits,
    /// There are to be more than eight shared cursors.
    #[error("BadCursors")]
    BadCursors,
    /// There was no memory for the check.
    #[error("NoMemory")]
    NoMemory,
}

impl AdoptFault {
    ghost use Rattle.std.specs.Prelude.{◌≡◌};
    ghost use Rattle.segment_calls.specs.Faults.{adopt_fault_number};

    /// Returns the fault's number, from 1.
    pub fn number(&self) -> u32
        ensures { result ≡ adopt_fault_number self.now }
    {
        match self {
            AdoptFault::Image(_) => 1,
            AdoptFault::OldVersion => 2,
            AdoptFault::Corrupt => 3,
            AdoptFault::Damaged => 4,
            AdoptFault::NoUnits => 5,
            AdoptFault::BadCursors => 6,
            AdoptFault::NoMemory => 7,
        }
    }
}

impl From<AllocError> for AdoptFault {
    ghost use Rattle.std.specs.Prelude.{◌≡◌};
    ghost use Rattle.segment_calls.specs.declared.adopt_fault.AdoptFault.TheVariants.{NoMemory};

    ghost from_gives = { λ _ fault. fault ≡ NoMemory };

    fn from(_error: AllocError) -> AdoptFault {
        AdoptFault::NoMemory
    }
}
