//! Why a run stops.

ghost use Rattle.std.specs.Prelude.{◌∷◌, []};
ghost use Rattle.persist_commands.specs.Stop.{EndTogether};

use persist_report_core::CliFault;
use segment_calls::Refusal;
use std::alloc::AllocError;

/// Why nothing is written. If workers stop for several reasons, the first kind of these is reported, and of refusals
/// that of the record with the least number.
#[derive(Clone, Copy, PartialEq, Eq)]
pub(crate) enum Stop {
    /// A worker could not be started.
    NoThread,
    /// Memory ran out.
    NoMemory,
    /// The gate did not let a call be made.
    Gate,
    /// What the record of this number asks for was refused.
    Refused { number: u32, why: Refusal },
}

impl From<AllocError> for Stop {
    ghost use Rattle.std.specs.Prelude.{◌≡◌};
    ghost use Rattle.persist_commands.specs.declared.stop.Stop.TheVariants.{NoMemory};

    ghost from_gives = { λ _ result. result ≡ NoMemory };

    fn from(_: AllocError) -> Stop {
        Stop::NoMemory
    }
}

impl From<Stop> for CliFault {
    ghost use Rattle.std.specs.Prelude.{◌≡◌};
    ghost use Rattle.persist_commands.specs.Stop.{fault_of_stop};

    ghost from_gives = { λ stop result. result ≡ fault_of_stop stop };

    fn from(stop: Stop) -> CliFault {
        match stop {
            Stop::NoThread => CliFault::NoThread,
            Stop::NoMemory => CliFault::NoMemory,
            Stop::Gate => CliFault::Gate,
            Stop::Refused { number, why } => CliFault::Refused { number, why },
        }
    }
}

impl Stop {
    ghost use Rattle.std.specs.Prelude.{◌≡◌};
    ghost use Rattle.persist_commands.specs.Stop.{StopTellsWant, rank_of};

    /// Returns the stop for what a record asks for that was refused.
    pub(crate) fn refused(number: u32, why: Refusal) -> Stop
        ensures { StopTellsWant result }
    {
        match why {
            Refusal::NoMemory => Stop::NoMemory,
            why => Stop::Refused { number, why },
        }
    }

    // Those that are reported first are least.
    fn rank(&self) -> u64
        ensures { result ≡ rank_of self.now }
    {
        match self {
            Stop::NoThread => 0,
            Stop::NoMemory => 1,
            Stop::Gate => 2,
            Stop::Refused { number, .. } => 3 + u64::from(*number),
        }
    }
}

/// Returns how two workers ended together: well if both did, else with the stop that is reported first.
pub(crate) fn both(one: Result<(), Stop>, other: Result<(), Stop>) -> Result<(), Stop>
    ensures { EndTogether (one ∷ other ∷ []) result }
{
    match (one, other) {
        (Ok(()), other) => other,
        (one, Ok(())) => one,
        (Err(one), Err(other)) => Err(if other.rank() < one.rank() {
            other
        } else {
            one
        }),
    }
}
