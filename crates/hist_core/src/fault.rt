//! Why a world does not make a move.

use segment_calls::AdoptFault;
use std::alloc::AllocError;
use thiserror::Error;

/// Why a world does not make a move, or cannot be made. The first of these that holds is returned, and the world is
/// unchanged.
#[derive(Clone, Copy, Debug, PartialEq, Eq, Error)]
pub enum WorldFault {
    /// The shape is not valid, the actors are not 1 to 64, or the version is neither 1 nor 2.
    #[error("BadShape")]
    BadShape,
    /// There is no such actor.
    #[error("NoActor")]
    NoActor,
    /// A call of this actor is running.
    #[error("Busy")]
    Busy,
    /// No call of this actor is running.
    #[error("Idle")]
    Idle,
    /// No `hist` of this actor returned a histogram of that name.
    #[error("Unknown")]
    Unknown,
    /// Memory ran out.
    #[error("NoMemory")]
    NoMemory,
    /// The image from which to continue has this fault, which is never `NoMemory`.
    #[error("Adopt {0}")]
    Adopt(AdoptFault),
}

impl WorldFault {
    ghost use Rattle.std.specs.Prelude.{◌≡◌};
    ghost use Rattle.hist_core.specs.WorldFault.{world_fault_number};

    /// Returns the fault's number, from 1.
    pub fn number(&self) -> u32
        ensures { result ≡ world_fault_number self.now }
    {
        match self {
            WorldFault::BadShape => 1,
            WorldFault::NoActor => 2,
            WorldFault::Busy => 3,
            WorldFault::Idle => 4,
            WorldFault::Unknown => 5,
            WorldFault::NoMemory => 6,
            WorldFault::Adopt(_) => 7,
        }
    }
}

impl From<AllocError> for WorldFault {
    ghost use Rattle.std.specs.Prelude.{◌≡◌};
    ghost use Rattle.hist_core.specs.declared.fault.WorldFault.TheVariants.{NoMemory};

    ghost from_gives = { λ _ fault. fault ≡ NoMemory };

    fn from(_: AllocError) -> WorldFault {
        WorldFault::NoMemory
    }
}

impl From<AdoptFault> for WorldFault {
    ghost use Rattle.std.specs.Prelude.{◌≡◌};
    ghost use Rattle.hist_core.specs.WorldFault.{fault_of_adoption};

    ghost from_gives = { λ fault result. result ≡ fault_of_adoption fault };

    fn from(fault: AdoptFault) -> WorldFault {
        match fault {
            AdoptFault::NoMemory => WorldFault::NoMemory,
            fault => WorldFault::Adopt(fault),
        }
    }
}
