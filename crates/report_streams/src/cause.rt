//! A fault, and the reason that the system gave for it.

ghost use Rattle.std.specs.Prelude.{◌≡◌};
ghost use Rattle.persist_report_core.specs.declared.fault.CliFault.TheVariants.{NoMemory};

use persist_report_core::CliFault;
use std::alloc::AllocError;
use std::io;

/// A fault, and the reason that the system gave for it, if it gave one.
#[derive(Drop)]
pub struct Cause {
    pub fault: CliFault,
    pub reason: Option<io::Error>,
}

impl Cause {
    /// Returns the cause with this fault, for which the system gave this reason.
    pub fn of(fault: CliFault, reason: io::Error) -> Cause
        ensures { result.fault ≡ fault }
    {
        Cause {
            fault,
            reason: Some(reason),
        }
    }

    /// Returns the cause of a write that failed for this reason.
    pub fn of_write(reason: io::Error) -> Cause
        ensures { result.fault ≡ CliFault.Write }
    {
        Cause::of(CliFault::Write, reason)
    }
}

impl From<CliFault> for Cause {
    ghost from_gives = { λ fault cause. cause.fault ≡ fault };

    fn from(fault: CliFault) -> Cause {
        Cause {
            fault,
            reason: None,
        }
    }
}

impl From<AllocError> for Cause {
    ghost from_gives = { λ _ cause. cause.fault ≡ NoMemory };

    fn from(_error: AllocError) -> Cause {
        Cause::from(CliFault::NoMemory)
    }
}
