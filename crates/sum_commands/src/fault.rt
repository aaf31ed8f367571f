//! Why an input is left out of a sum.

use persist_report_core::CliFault;
use reading_sums::SumsFault;
use std::alloc::AllocError;
use sum_texts::TotalsFault;
use thiserror::Error;

/// Why an input is left out of a sum, or why there is no sum.
#[derive(Debug, PartialEq, Eq, Drop, Error)]
pub enum InputFault {
    /// Its bytes cannot be read, or are not those of an image; or memory ran out.
    #[error("{0}")]
    Image(CliFault),
    /// It is not the totals of a sum: the line with this number is wrong.
    #[error("BadTotals {0}")]
    BadTotals(u64),
    /// With it a total would not fit: 64 bits for all units of a histogram, the marks of a key, redundant counts,
    /// images and what they say apart from their histograms; 128 for amounts. Or it has a least number of 2^62 or more,
    /// or one that reaches 2^64 when it is raised by how many images there were.
    #[error("TooMany")]
    TooMany,
}

impl From<CliFault> for InputFault {
    ghost use Rattle.std.specs.Prelude.{◌≡◌};
    ghost use Rattle.sum_commands.specs.declared.fault.InputFault.TheVariants.{Image};

    ghost from_gives = { λ fault result. result ≡ Image fault };

    fn from(fault: CliFault) -> InputFault {
        InputFault::Image(fault)
    }
}

impl From<SumsFault> for InputFault {
    ghost use Rattle.std.specs.Prelude.{◌≡◌};
    ghost use Rattle.sum_commands.specs.Inputs.{fault_of_sums};

    ghost from_gives = { λ fault result. result ≡ fault_of_sums fault };

    fn from(fault: SumsFault) -> InputFault {
        match fault {
            SumsFault::NoMemory => InputFault::Image(CliFault::NoMemory),
            SumsFault::TooMany => InputFault::TooMany,
        }
    }
}

impl From<TotalsFault> for InputFault {
    ghost use Rattle.std.specs.Prelude.{◌≡◌};
    ghost use Rattle.sum_commands.specs.Inputs.{fault_of_totals};

    ghost from_gives = { λ fault result. result ≡ fault_of_totals fault };

    fn from(fault: TotalsFault) -> InputFault {
        match fault {
            TotalsFault::NoMemory => InputFault::Image(CliFault::NoMemory),
            TotalsFault::BadTotals(line) => InputFault::BadTotals(line),
        }
    }
}

impl From<AllocError> for InputFault {
    ghost use Rattle.std.specs.Prelude.{◌≡◌};
    ghost use Rattle.sum_commands.specs.declared.fault.InputFault.TheVariants.{Image};
    ghost use Rattle.persist_report_core.specs.declared.fault.CliFault.TheVariants.{NoMemory};

    ghost from_gives = { λ _ result. result ≡ Image NoMemory };

    fn from(_: AllocError) -> InputFault {
        InputFault::Image(CliFault::NoMemory)
    }
}

impl InputFault {
    ghost use Rattle.std.specs.Prelude.{◌≡◌, ◌↔◌, true};
    ghost use Rattle.sum_commands.specs.declared.fault.InputFault.TheVariants.{Image};
    ghost use Rattle.persist_report_core.specs.declared.fault.CliFault.TheVariants.{NoMemory};

    /// Returns whether memory ran out [is].
    pub fn is_no_memory(&self) -> bool
        ensures is { (result ≡ true) ↔ (self.now ≡ Image NoMemory) }
    {
        matches!(self, InputFault::Image(CliFault::NoMemory))
    }
}
