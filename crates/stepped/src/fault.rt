//! Why a schedule is not replayed to its end.

ghost use Rattle.std.specs.Prelude.{◌≡◌};
ghost use Rattle.stepped.specs.Fault.{fault_of_read, fault_of_schedule, fault_of_world, replay_status};
ghost use Rattle.stepped.specs.declared.fault.ReplayFault.TheVariants.{NoMemory};

use hist_core::WorldFault;
use schedule::ScheduleFault;
use segment_image::ReadFault;
use std::alloc::AllocError;
use thiserror::Error;

/// Why a schedule is not replayed to its end, or what it leads to is not shown.
#[derive(Clone, Copy, Debug, Error)]
pub enum ReplayFault {
    /// The schedule or the image cannot be opened, or a read of it failed.
    #[error("Read")]
    Read,
    /// A write of what is shown failed, or its flush did. Some of it may have been written.
    #[error("Write")]
    Write,
    /// The schedule has more than 16,777,216 bytes, or the image more than 8,388,608.
    #[error("TooLong")]
    TooLong,
    /// The number of the image's bytes is no multiple of eight.
    #[error("NotWords")]
    NotWords,
    /// The record of this number, from 1, has no valid form, or a number out of its type.
    #[error("BadLine {0}")]
    BadLine(u64),
    /// The world is not made, or refuses a move of the record of this number; never because memory ran out.
    #[error("World {0} {1}")]
    World(u64, WorldFault),
    /// Memory ran out for the schedule, for the image, for the world, for a call, or for what is shown.
    #[error("NoMemory")]
    NoMemory,
}

impl ReplayFault {
    /// Returns the exit status: 3 if the bytes are no schedule or no words, or the world does not take it; 4 if a
    /// device failed; 5 if memory ran out.
    pub fn status(&self) -> u8
        ensures { result ≡ replay_status self.now }
    {
        match self {
            ReplayFault::TooLong
            | ReplayFault::NotWords
            | ReplayFault::BadLine(_)
            | ReplayFault::World(..) => 3,
            ReplayFault::Read | ReplayFault::Write => 4,
            ReplayFault::NoMemory => 5,
        }
    }

    /// Returns the fault of a replay for a fault of the world at the record of a number: `World` with that number, but
    /// out of memory is no fault of a record.
    pub fn of_world(number: u64, fault: WorldFault) -> ReplayFault
        ensures { result ≡ fault_of_world number fault }
    {
        match fault {
            WorldFault::NoMemory => ReplayFault::NoMemory,
            fault => ReplayFault::World(number, fault),
        }
    }
}

impl From<ScheduleFault> for ReplayFault {
    ghost from_gives = { λ fault result. result ≡ fault_of_schedule fault };

    fn from(fault: ScheduleFault) -> ReplayFault {
        match fault {
            ScheduleFault::Read => ReplayFault::Read,
            ScheduleFault::TooLong => ReplayFault::TooLong,
            ScheduleFault::NoMemory => ReplayFault::NoMemory,
            ScheduleFault::BadLine(number) => ReplayFault::BadLine(number),
        }
    }
}

impl From<ReadFault> for ReplayFault {
    ghost from_gives = { λ fault result. result ≡ fault_of_read fault };

    fn from(fault: ReadFault) -> ReplayFault {
        match fault {
            ReadFault::NoMemory => ReplayFault::NoMemory,
            ReadFault::Device => ReplayFault::Read,
            ReadFault::TooLong => ReplayFault::TooLong,
            ReadFault::NotWords => ReplayFault::NotWords,
        }
    }
}

impl From<AllocError> for ReplayFault {
    ghost from_gives = { λ _ result. result ≡ NoMemory };

    fn from(_: AllocError) -> ReplayFault {
        ReplayFault::NoMemory
    }
}
