//! Why a call is refused.

use bucket_ranges::SpecFault;
use std::alloc::AllocError;
use thiserror::Error;

/// Why a call is refused. The first seven are checked in this order before the first event of the call, and the first
/// that holds is returned.
#[derive(Clone, Copy, Debug, PartialEq, Eq, Error)]
pub enum Refusal {
    /// The name is not 1 to 128 bytes from 0x21 to 0x7E without `,` and `"`, or it begins with `!`.
    #[error("BadName")]
    BadName,
    /// The spec has this fault, which is never `NoMemory`.
    #[error("BadSpec {0}")]
    BadSpec(SpecFault),
    /// A count is 0.
    #[error("ZeroCount")]
    ZeroCount,
    /// The call takes more units than there are.
    #[error("NoUnits")]
    NoUnits,
    /// There already are as many recorders that are not joined as there may be.
    #[error("TooMany")]
    TooMany,
    /// There was no memory, and nothing has changed.
    #[error("NoMemory")]
    NoMemory,
    /// The histogram's record, or its block of counts, has more words than a page.
    #[error("TooLarge")]
    TooLarge,
    /// An allocation of this call found the segment corrupt.
    #[error("Corrupt")]
    Corrupt,
    /// An allocation of this call found no room.
    #[error("Full")]
    Full,
    /// The histogram of that name has another spec.
    #[error("OtherSpec")]
    OtherSpec,
}

impl Refusal {
    ghost use Rattle.std.specs.Prelude.{◌≡◌};
    ghost use Rattle.segment_calls.specs.Refusal.{refusal_number};

    /// Returns the refusal's number, from 1.
    pub fn number(&self) -> u32
        ensures { result ≡ refusal_number self.now }
    {
        match self {
            Refusal::BadName => 1,
            Refusal::BadSpec(_) => 2,
            Refusal::ZeroCount => 3,
            Refusal::NoUnits => 4,
            Refusal::TooMany => 5,
            Refusal::NoMemory => 6,
            Refusal::TooLarge => 7,
            Refusal::Corrupt => 8,
            Refusal::Full => 9,
            Refusal::OtherSpec => 10,
        }
    }
}

impl From<SpecFault> for Refusal {
    ghost use Rattle.std.specs.Prelude.{◌≡◌};
    ghost use Rattle.segment_calls.specs.Refusal.{refusal_of_spec};

    ghost from_gives = { λ fault result. result ≡ refusal_of_spec fault };

    fn from(fault: SpecFault) -> Refusal {
        match fault {
            SpecFault::NoMemory => Refusal::NoMemory,
            fault => Refusal::BadSpec(fault),
        }
    }
}

impl From<AllocError> for Refusal {
    ghost use Rattle.std.specs.Prelude.{◌≡◌};
    ghost use Rattle.segment_calls.specs.declared.refusal.Refusal.TheVariants.{NoMemory};

    ghost from_gives = { λ _ result. result ≡ NoMemory };

    fn from(_: AllocError) -> Refusal {
        Refusal::NoMemory
    }
}

/// Why a batch is refused, and how many of its items are counted all the same: its first ones. Then the sum is not
/// added, and the other items have changed nothing.
#[derive(Clone, Copy, Debug, PartialEq, Eq, Error)]
#[error("{added} {why}")]
pub struct BatchRefusal {
    /// How many items are counted.
    pub added: usize,
    /// Why the next one is not.
    pub why: Refusal,
}
