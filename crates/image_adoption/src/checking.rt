//! The check of an image.

ghost use Rattle.std.specs.Prelude.{◌≡◌, Ok};
ghost use Rattle.segment_image.specs.Head.{header_of};
ghost use Rattle.image_adoption.specs.Checking.{AdoptionOf};

use crate::damage::undamaged;
use crate::units::used_of;
use bucket_ranges::limits::MAX_UNITS;
use segment_calls::AdoptFault;
use segment_image::layout::VERSION_FROZEN;
use segment_image::{SegmentHead, header};
use std::alloc::Global;

/// The most shared cursors of a segment.
pub const MAX_CURSORS: usize = 8;

/// What is known of an image that may be adopted. No record of it is bad, and its list is complete.
#[derive(Drop)]
pub struct Adoptable {
    /// The references of all records on its list, in its order, including those that are passed over.
    pub references: Vec<u64>,
    /// The units that its histograms have used, of the 4,294,967,295 of a segment.
    pub used: u64,
}

/// Returns what is known of an image that may be adopted with `cursors` shared cursors, or why it may not be.
///
/// On `Ok` the image may be adopted with this many cursors, and the answer has its list and the units that it has used
/// by its reading. Otherwise the first fault that holds is returned, in this order: `Image` with the header's first
/// fault; `OldVersion`; `Corrupt`; `Damaged`; `NoUnits`; `BadCursors` if `cursors` is more than [`MAX_CURSORS`].
/// `NoMemory` means that memory ran out, and has no cause in the words [answer].
///
/// Any words may be given, and they are only read. Overlapping blocks are looked for before anything that the records
/// say, and the histograms are read one at a time, each freed before the next. So the check of an image takes at most
/// ten times the bytes of the image.
pub fn check(alloc: Global, words: &[u64], cursors: usize) -> Result<Adoptable, AdoptFault>
    ensures answer { AdoptionOf words.now cursors result }
{
    match header(words) {
        Ok(head) => check_behind_header(alloc, words, &head, cursors),
        Err(fault) => Err(AdoptFault::Image(fault)),
    }
}

// The check of words with the header `head`.
fn check_behind_header(
    alloc: Global,
    words: &[u64],
    head: &SegmentHead,
    cursors: usize,
) -> Result<Adoptable, AdoptFault>
    requires { header_of words.now ≡ Ok head.now }
    ensures { AdoptionOf words.now cursors result }
{
    if head.version != VERSION_FROZEN {
        return Err(AdoptFault::OldVersion);
    }
    if head.corrupt {
        return Err(AdoptFault::Corrupt);
    }
    let survey = undamaged(alloc, words, head)?;
    let used = used_of(alloc, words, head, &survey)?;
    if used > MAX_UNITS {
        return Err(AdoptFault::NoUnits);
    }
    if cursors > MAX_CURSORS {
        return Err(AdoptFault::BadCursors);
    }
    Ok(Adoptable {
        references: survey.references,
        used,
    })
}
