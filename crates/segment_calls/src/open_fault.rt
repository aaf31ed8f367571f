//! Why there is no segment.

use thiserror::Error;

/// Why a segment was not made: the first of these that holds.
#[derive(Clone, Copy, Debug, PartialEq, Eq, Error)]
pub enum OpenFault {
    /// The page, the size or the version is not valid.
    #[error("BadShape")]
    BadShape = 1,
    /// There are to be more than eight shared cursors.
    #[error("BadCursors")]
    BadCursors = 2,
    /// There was no memory for the words.
    #[error("NoMemory")]
    NoMemory = 3,
}

impl OpenFault {
    ghost use Rattle.std.specs.Prelude.{◌≡◌};
    ghost use Rattle.segment_calls.specs.Faults.{open_fault_number};

    /// The fault's number, from 1.
    pub fn number(&self) -> u32
        ensures { result ≡ open_fault_number self.now }
    {
        *self as u32
    }
}
