//! What each export returns: 0, or the number of what went wrong.

ghost use Rattle.std.specs.Prelude.{◌≡◌};
ghost use Rattle.povundiri_c.specs.Looks.{status_of_look_fault};
ghost use Rattle.povundiri_c.specs.Recorders.{refused_with};
ghost use Rattle.povundiri_c.specs.Status.{status_of_refusal, status_of_open_fault, status_of_adopt_fault, status_of_image_fault, status_of_sums_fault};

use live_segment::{AdoptFault, OpenFault, Refusal};
use reading_sums::SumsFault;
use segment_image::ImageFault;
use segment_looks::LookFault;

/// The call did what it says.
pub(crate) const DONE: u32 = 0;

/// The handle holds nothing.
pub(crate) const EMPTY: u32 = 3;

/// The handle that is to be filled, or that is to take another's place, holds something.
pub(crate) const NOT_EMPTY: u32 = 4;

/// The handle is of another kind than the call needs: a segment's instead of a recorder's, and so on.
pub(crate) const OTHER_KIND: u32 = 5;

/// The recorder is one of another segment; of a follower, the image.
pub(crate) const OTHER_SEGMENT: u32 = 6;

/// The caller's array is too small.
pub(crate) const SHORT: u32 = 7;

/// The recorder has no histogram of that number.
pub(crate) const UNKNOWN: u32 = 8;

/// The segment has no shared cursor of that number.
pub(crate) const NO_CURSOR: u32 = 9;

/// No kind of histogram has that number.
pub(crate) const BAD_KIND: u32 = 10;

/// A recorder of the segment is left.
pub(crate) const IN_USE: u32 = 11;

/// The cursor is at the end of the list.
pub(crate) const LIST_ENDS: u32 = 12;

/// Out of memory.
pub(crate) const NO_MEMORY: u32 = 13;

/// The recorder's own segment took it, in a call of another thread, while it was passed to another segment.
pub(crate) const ELSEWHERE: u32 = 14;

/// Another thread passes a recorder of the same segment at this moment.
pub(crate) const BUSY: u32 = 15;

/// The image has more keys than the caller allows.
pub(crate) const TOO_MANY_KEYS: u32 = 17;

/// No name of a metric may begin with the prefix.
pub(crate) const BAD_PREFIX: u32 = 18;

/// A total of the sum would not fit.
pub(crate) const TOO_MANY: u32 = 19;

/// The totals are those of no well-formed sum.
pub(crate) const BAD_TOTALS: u32 = 20;

/// A segment of version 1, which cannot be looked at. The number is that of an image which is not adopted for this
/// reason.
const OLD_VERSION: u32 = 302;

/// A reading has less than was noted of it.
pub(crate) const FELL: u32 = 21;

/// What came of a reading costs more units than the caller allows.
pub(crate) const COSTS_MORE: u32 = 22;

/// Why a call is refused: its status, and a length: how much room is needed if the status is `SHORT`; of a batch, how
/// many items were counted; if the status is `BAD_TOTALS`, the number of a line; else 0.
#[derive(Clone, Copy)]
pub(crate) struct Refused {
    pub(crate) status: u32,
    pub(crate) length: usize,
}

impl Refused {
    pub(crate) fn of(status: u32) -> Refused
        ensures { result ≡ refused_with status }
    {
        Refused { status, length: 0 }
    }
}

/// The status of a refusal.
pub(crate) fn of_refusal(why: Refusal) -> u32
    ensures { result ≡ status_of_refusal why }
{
    match why {
        Refusal::BadSpec(fault) => 400 + fault.number(),
        other => 100 + other.number(),
    }
}

/// The status of a segment that was not made.
pub(crate) fn of_open_fault(fault: OpenFault) -> u32
    ensures { result ≡ status_of_open_fault fault }
{
    200 + fault.number()
}

/// The status of an image that was not adopted.
pub(crate) fn of_adopt_fault(fault: AdoptFault) -> u32
    ensures { result ≡ status_of_adopt_fault fault }
{
    match fault {
        AdoptFault::Image(fault) => of_image_fault(fault),
        other => 300 + other.number(),
    }
}

/// The status of a header with a fault.
pub(crate) fn of_image_fault(fault: ImageFault) -> u32
    ensures { result ≡ status_of_image_fault fault }
{
    500 + fault.number()
}

/// The status of copies that give no look.
pub(crate) fn of_look_fault(fault: LookFault) -> u32
    ensures { result ≡ status_of_look_fault fault }
{
    match fault {
        LookFault::Image(fault) => of_image_fault(fault),
        LookFault::OldVersion => OLD_VERSION,
        LookFault::NoMemory => NO_MEMORY,
    }
}

/// The status of a sum that was not added to.
pub(crate) fn of_sums_fault(fault: SumsFault) -> u32
    ensures { result ≡ status_of_sums_fault fault }
{
    match fault {
        SumsFault::NoMemory => NO_MEMORY,
        SumsFault::TooMany => TOO_MANY,
    }
}
