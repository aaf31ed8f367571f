//! Why the program did not do what it was asked to, and its exit status then.

ghost use Rattle.std.specs.Prelude.{◌≡◌};
ghost use Rattle.stepped.specs.Failure.{IsFailureOf, failure_status};
ghost use Rattle.stepped.specs.declared.failure.Failure.TheVariants.{Fault};
ghost use Rattle.stepped.specs.declared.fault.ReplayFault.TheVariants.{NoMemory};

use crate::fault::ReplayFault;
use clap::error::ErrorKind;
use std::alloc::AllocError;
use std::fmt;

/// Why the program did not do what it was asked to. Its text is whole lines for the error stream.
#[derive(Drop)]
pub enum Failure {
    /// The command line is not one that the program supports.
    Usage(clap::Error),
    /// What it asks for failed.
    Fault(ReplayFault),
    /// It failed, and these lines follow the line of the fault.
    Explained(ReplayFault, String),
}

impl Failure {
    /// Returns the exit status: 2 for `Usage`, else that of the fault.
    pub fn status(&self) -> u8
        ensures { result ≡ failure_status self.now }
    {
        match self {
            Failure::Usage(_) => 2,
            Failure::Fault(fault) | Failure::Explained(fault, _) => fault.status(),
        }
    }
}

impl From<ReplayFault> for Failure {
    ghost from_gives = { λ fault failure. failure ≡ Fault fault };

    fn from(fault: ReplayFault) -> Failure {
        Failure::Fault(fault)
    }
}

impl From<AllocError> for Failure {
    ghost from_gives = { λ _ failure. failure ≡ Fault NoMemory };

    fn from(_error: AllocError) -> Failure {
        Failure::Fault(ReplayFault::NoMemory)
    }
}

impl From<clap::Error> for Failure {
    ghost from_gives = { IsFailureOf };

    // Reading the command line takes memory too. If memory runs out, that is no mistake in the words.
    fn from(error: clap::Error) -> Failure {
        if error.kind() == ErrorKind::OutOfMemory {
            Failure::Fault(ReplayFault::NoMemory)
        } else {
            Failure::Usage(error)
        }
    }
}

impl fmt::Display for Failure {
    fn fmt<W: fmt::Write>(&self, f: &mut fmt::Formatter<W>) -> fmt::Result {
        match self {
            Failure::Usage(error) => write!(f, "{error}"),
            Failure::Fault(fault) => writeln!(f, "stepped: {fault}"),
            Failure::Explained(fault, lines) => {
                writeln!(f, "stepped: {fault}")?;
                f.write_str(lines.as_str())
            }
        }
    }
}
