//! Why there is no script.

use std::alloc::AllocError;
use thiserror::Error;

/// Why no script was read. The number is that of the faulty record, from 1.
#[derive(Clone, Copy, Debug, PartialEq, Eq, Error)]
pub enum ScriptFault {
    /// A read of the script failed.
    #[error("Read")]
    Read,
    /// The script has more than 16,777,216 bytes.
    #[error("TooLong")]
    TooLong,
    /// There was no memory for the script.
    #[error("NoMemory")]
    NoMemory,
    /// The record is malformed or out of order, or has a number out of range, an invalid shape or an unknown name.
    #[error("BadLine {0}")]
    BadLine(u32),
    /// The record adds no unit.
    #[error("ZeroCount {0}")]
    ZeroCount(u32),
    /// The record adds more units than the pool has left.
    #[error("NoUnits {0}")]
    NoUnits(u32),
}

impl ScriptFault {
    ghost use Rattle.std.specs.Prelude.{◌≡◌};
    ghost use Rattle.persist_report_core.specs.Script.{script_fault_number};

    /// Returns the fault's number, from 1; not that of a record.
    pub fn number(&self) -> u32
        ensures { result ≡ script_fault_number self.now }
    {
        match self {
            ScriptFault::Read => 1,
            ScriptFault::TooLong => 2,
            ScriptFault::NoMemory => 3,
            ScriptFault::BadLine(_) => 4,
            ScriptFault::ZeroCount(_) => 5,
            ScriptFault::NoUnits(_) => 6,
        }
    }
}

impl From<AllocError> for ScriptFault {
    ghost use Rattle.std.specs.Prelude.{◌≡◌};
    ghost use Rattle.persist_report_core.specs.declared.script.fault.ScriptFault.TheVariants.{NoMemory};

    ghost from_gives = { λ _ result. result ≡ NoMemory };

    fn from(_: AllocError) -> ScriptFault {
        ScriptFault::NoMemory
    }
}
