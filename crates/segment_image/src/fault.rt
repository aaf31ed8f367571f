//! What can be wrong with an image, and why its words could not be read.

use thiserror::Error;

/// What is wrong with an image. The header's faults are checked in this order, and the first that holds is returned.
#[derive(Clone, Copy, Debug, PartialEq, Eq, Error)]
pub enum ImageFault {
    /// There are fewer than 16 words.
    #[error("TooShort")]
    TooShort = 1,
    /// Word 0 is not the segment's cookie.
    #[error("BadCookie")]
    BadCookie = 2,
    /// Word 1 names a version of the format that is not read.
    #[error("BadVersion")]
    BadVersion = 3,
    /// Word 3 is no valid number of words of a page.
    #[error("BadPage")]
    BadPage = 4,
    /// Word 2 is no valid number of words of a segment, or not the number of words that there are.
    #[error("BadSize")]
    BadSize = 5,
    /// The segment was never made ready.
    #[error("NotReady")]
    NotReady = 6,
    /// The segment was deleted.
    #[error("Deleted")]
    Deleted = 7,
    /// The free pointer is in the header or beyond the end.
    #[error("BadFree")]
    BadFree = 8,
    /// The block from which the list of records starts has another header.
    #[error("BadQueue")]
    BadQueue = 9,
    /// A reference names no place of a block.
    #[error("BadRef")]
    BadRef = 10,
    /// There is no valid block at a reference.
    #[error("BadBlock")]
    BadBlock = 11,
    /// A reference was visited before on the list.
    #[error("Loop")]
    Loop = 12,
    /// There was no memory for the answer.
    #[error("NoMemory")]
    NoMemory = 13,
}

impl ImageFault {
    ghost use Rattle.std.specs.Prelude.{◌≡◌};
    ghost use Rattle.segment_image.specs.Fault.{image_fault_number};

    /// Returns the fault's number, from 1.
    pub fn number(&self) -> u32
        ensures { result ≡ image_fault_number self.now }
    {
        *self as u32
    }
}

/// Why the words of an image could not be read.
#[derive(Clone, Copy, Debug, PartialEq, Eq, Error)]
pub enum ReadFault {
    /// There was no memory for the words.
    #[error("NoMemory")]
    NoMemory = 1,
    /// A read failed.
    #[error("Device")]
    Device = 2,
    /// More bytes came than the limit allows.
    #[error("TooLong")]
    TooLong = 3,
    /// The number of bytes is no multiple of eight.
    #[error("NotWords")]
    NotWords = 4,
}

impl ReadFault {
    ghost use Rattle.std.specs.Prelude.{◌≡◌};
    ghost use Rattle.segment_image.specs.Fault.{read_fault_number};

    /// Returns the fault's number, from 1.
    pub fn number(&self) -> u32
        ensures { result ≡ read_fault_number self.now }
    {
        *self as u32
    }
}

/// Why words could not be written.
#[derive(Clone, Copy, Debug, PartialEq, Eq, Error)]
pub enum WriteFault {
    /// A write failed.
    #[error("Device")]
    Device = 1,
}
