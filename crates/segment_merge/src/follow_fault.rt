//! Why a follower does not follow a reading.

use std::alloc::AllocError;

/// Why a follower does not follow a reading: nothing has happened.
#[derive(Clone, Copy, Debug, PartialEq, Eq)]
pub enum FollowFault {
    /// The reading is of a segment with another id.
    OtherSegment,
    /// Something is less than what is noted: a key has fewer units, or a histogram is gone or has another spec.
    Fell,
    /// What came costs more than the caller allows.
    TooMany {
        /// The units that it costs, or 18,446,744,073,709,551,615 if it costs more.
        cost: u64,
    },
    /// There was no memory.
    NoMemory,
}

impl From<AllocError> for FollowFault {
    ghost use Rattle.std.specs.Prelude.{◌≡◌};
    ghost use Rattle.segment_merge.specs.declared.follow_fault.FollowFault.TheVariants.{NoMemory};

    ghost from_gives = { λ fault result. result ≡ NoMemory };

    fn from(_fault: AllocError) -> FollowFault {
        FollowFault::NoMemory
    }
}
