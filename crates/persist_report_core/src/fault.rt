//! Why a call of the program did not do its work.

use crate::shown::Shown;
use image_reader::RecordFault;
use segment_calls::{AdoptFault, Refusal};
use segment_image::{ImageFault, ReadFault};
use std::alloc::AllocError;
use std::fmt;
use thiserror::Error;

/// Why a call of the program did not do its work.
#[derive(Debug, PartialEq, Eq, Drop, Error)]
pub enum CliFault {
    /// A read of an image or of the script failed.
    #[error("Read")]
    Read,
    /// A write of an image or of a report failed, or its flush did. It is not known how much was written.
    #[error("Write")]
    Write,
    /// The image has more than 8,388,608 bytes, or the script more than 16,777,216; or 2^64 bytes
    /// were searched.
    #[error("TooLong")]
    TooLong,
    /// The number of the image's bytes is no multiple of eight.
    #[error("NotWords")]
    NotWords,
    /// The image's header has this fault.
    #[error("Image {0}")]
    Image(ImageFault),
    /// The record of the script with this number is malformed or out of place, or names no histogram.
    #[error("BadLine {0}")]
    BadLine(u32),
    /// What the record of the script with this number asks for is refused; if memory runs out, it is `NoMemory`.
    #[error("Refused {number} {why}")]
    Refused { number: u32, why: Refusal },
    /// The gate refused to let a worker continue.
    #[error("Gate")]
    Gate,
    /// The merge stopped at the histogram of this name; if memory runs out, it is `NoMemory`.
    #[error("Merge {letters} {why}", letters = Letters(.name))]
    Merge { name: Vec<u8>, why: Refusal },
    /// A worker could not be started.
    #[error("NoThread")]
    NoThread,
    /// There was no memory for what was read, for what was to be written, or for the work in between.
    #[error("NoMemory")]
    NoMemory,
    /// The image cannot be recorded into again, for this reason; if memory runs out, it is `NoMemory`.
    #[error("Adopt {0}")]
    Adopt(AdoptFault),
    /// The bytes that were searched have fewer segments than the number asked for.
    #[error("NoSegment")]
    NoSegment,
    /// The image has no histogram of this name; the text has the others that were asked for.
    #[error("NoHistogram {letters}", letters = Letters(.0))]
    NoHistogram(Vec<u8>),
    /// The record of the image at this word has this fault; the text has all that is valid.
    #[error("Bad {reference} {fault}")]
    Bad { reference: u64, fault: RecordFault },
    /// The list of the image's records stops before its end, for this reason; the text has all that comes before.
    #[error("Stopped {0}")]
    Stopped(ImageFault),
    /// Between the reads of a look, another segment took the place of the one in the file.
    #[error("Changed")]
    Changed,
    /// With a family of metrics for each histogram, those of these two names would have metrics of one name.
    #[error("Clash {one} {other}", one = Shown(.first), other = Shown(.second))]
    Clash { first: Vec<u8>, second: Vec<u8> },
}

// The bytes of a name as text on one line: ASCII blanks, letters, digits and signs unchanged, and any other byte as its
// number. A valid name has no such byte.
#[derive(Clone, Copy)]
struct Letters<'a>(&'a [u8]);

impl fmt::Display for Letters<'_> {
    fn fmt<W: fmt::Write>(&self, f: &mut fmt::Formatter<W>) -> fmt::Result {
        for byte in self.0 {
            match *byte {
                b' '..=b'~' => f.write_char(char::from(*byte))?,
                byte => write!(f, "\\x{byte:02x}")?,
            }
        }
        Ok(())
    }
}

impl CliFault {
    ghost use Rattle.std.specs.Prelude.{◌≡◌};
    ghost use Rattle.persist_report_core.specs.Fault.{cli_fault_number};

    /// Returns the fault's number, from 1.
    pub fn number(&self) -> u32
        ensures { result ≡ cli_fault_number self.now }
    {
        match self {
            CliFault::Read => 1,
            CliFault::Write => 2,
            CliFault::TooLong => 3,
            CliFault::NotWords => 4,
            CliFault::Image(_) => 5,
            CliFault::BadLine(_) => 6,
            CliFault::Refused { .. } => 7,
            CliFault::Gate => 8,
            CliFault::Merge { .. } => 9,
            CliFault::NoThread => 10,
            CliFault::NoMemory => 11,
            CliFault::Adopt(_) => 12,
            CliFault::NoSegment => 13,
            CliFault::NoHistogram(_) => 14,
            CliFault::Bad { .. } => 15,
            CliFault::Stopped(_) => 16,
            CliFault::Changed => 17,
            CliFault::Clash { .. } => 18,
        }
    }
}

impl From<ReadFault> for CliFault {
    ghost use Rattle.std.specs.Prelude.{◌≡◌};
    ghost use Rattle.persist_report_core.specs.Fault.{fault_of_read};

    ghost from_gives = { λ fault result. result ≡ fault_of_read fault };

    fn from(fault: ReadFault) -> CliFault {
        match fault {
            ReadFault::NoMemory => CliFault::NoMemory,
            ReadFault::Device => CliFault::Read,
            ReadFault::TooLong => CliFault::TooLong,
            ReadFault::NotWords => CliFault::NotWords,
        }
    }
}

impl From<ImageFault> for CliFault {
    ghost use Rattle.std.specs.Prelude.{◌≡◌};
    ghost use Rattle.persist_report_core.specs.Fault.{fault_of_image};

    ghost from_gives = { λ fault result. result ≡ fault_of_image fault };

    fn from(fault: ImageFault) -> CliFault {
        match fault {
            ImageFault::NoMemory => CliFault::NoMemory,
            fault => CliFault::Image(fault),
        }
    }
}

impl From<AdoptFault> for CliFault {
    ghost use Rattle.std.specs.Prelude.{◌≡◌};
    ghost use Rattle.persist_report_core.specs.Fault.{fault_of_adoption};

    ghost from_gives = { λ fault result. result ≡ fault_of_adoption fault };

    fn from(fault: AdoptFault) -> CliFault {
        match fault {
            AdoptFault::NoMemory => CliFault::NoMemory,
            fault => CliFault::Adopt(fault),
        }
    }
}

impl From<AllocError> for CliFault {
    ghost use Rattle.std.specs.Prelude.{◌≡◌};
    ghost use Rattle.persist_report_core.specs.declared.fault.CliFault.TheVariants.{NoMemory};

    ghost from_gives = { λ _ result. result ≡ NoMemory };

    fn from(_: AllocError) -> CliFault {
        CliFault::NoMemory
    }
}
