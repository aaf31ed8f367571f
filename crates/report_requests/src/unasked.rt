//! Why a command line asks for nothing that is done.

ghost use Rattle.std.specs.Prelude.{◌≡◌};
ghost use Rattle.report_requests.specs.Mistakes.{IsUnaskedOf};
ghost use Rattle.report_requests.specs.declared.unasked.Unasked.TheVariants.{NoMemory};

use clap::Error;
use clap::error::ErrorKind;
use std::alloc::AllocError;

/// Why a command line asks for nothing that is done.
#[derive(Drop)]
pub enum Unasked {
    /// It asks for this text: the help, or the version.
    Help(Error),
    /// It has this mistake.
    Mistake(Error),
    /// Memory ran out while it was read.
    NoMemory,
}

impl From<Error> for Unasked {
    ghost from_gives = { IsUnaskedOf };

    // Reading the command line takes memory too. If memory runs out, that is no mistake in the words.
    fn from(error: Error) -> Unasked {
        match error.kind() {
            ErrorKind::OutOfMemory => Unasked::NoMemory,
            ErrorKind::DisplayHelp | ErrorKind::DisplayVersion => Unasked::Help(error),
            _ => Unasked::Mistake(error),
        }
    }
}

impl From<AllocError> for Unasked {
    ghost from_gives = { λ _ unasked. unasked ≡ NoMemory };

    fn from(_error: AllocError) -> Unasked {
        Unasked::NoMemory
    }
}
