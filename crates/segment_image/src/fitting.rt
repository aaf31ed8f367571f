//! The shape that is chosen for a number of words.

use crate::fault::ImageFault;
use crate::layout::{MAX_SIZE, MIN_PAGE, PAGE_STEP};
use crate::shape::Shape;

/// The most words of a page that is chosen.
pub const FITTED_PAGE: u64 = 4096;

impl Shape {
    ghost use Rattle.std.specs.Prelude.{◌≡◌, ◌&&◌, ◌+◌, ◌*◌, ◌<◌, ◌≤◌, nat_le, if◌then◌else◌, Ok, Err, IfOk};
    ghost use Rattle.segment_image.specs.Fitting.{fitted, fitted_pages};

    /// Returns the shape of a segment of at most this many words, with its page chosen: the fewest pages that hold the
    /// words if none has over 4,096, all of one size [shape]. So it has at most these words, and fewer than 16 for each
    /// page are left over [most]. From 4,096 words on a page has 2,048 or more, so that a histogram of 1,000 buckets,
    /// whose counts take 2,004, fits; below that a page is the whole segment [page].
    ///
    /// The only fault is `BadSize`: the words are not from 64 to 1,048,576 [shape].
    pub fn fit(words: u64) -> Result<Shape, ImageFault>
        ensures shape { result ≡ (if nat_le MIN_PAGE words && nat_le words MAX_SIZE then Ok (fitted words) else Err ImageFault.BadSize) }
        ensures most { IfOk result (λ shape. (shape.size ≤ words) × (words < shape.size + PAGE_STEP * fitted_pages words)) }
        ensures page { IfOk result (λ shape. (4096 ≤ words → 2048 ≤ shape.page) × (words ≤ 4096 → shape.size ≡ shape.page)) }
    {
        if words < MIN_PAGE || words > MAX_SIZE {
            return Err(ImageFault::BadSize);
        }
        let pages = words.div_ceil(FITTED_PAGE);
        let page = words / pages / PAGE_STEP * PAGE_STEP;
        Shape::of(pages * page, page)
    }
}
