//! The shape of a segment.

use crate::fault::ImageFault;
use crate::layout::{MAX_PAGE, MAX_SIZE, MIN_PAGE, PAGE_STEP};
use std::marker::Model;

/// How many words a segment has, and how many each of its pages has. A clause sees both numbers.
#[derive(Clone, Copy, PartialEq, Eq)]
pub struct Shape {
    size: u64,
    page: u64,
}

impl Model for Shape {
    ghost use Rattle.std.specs.Prelude.{◌≡◌, true, ◌&&◌};
    ghost use Rattle.segment_image.specs.Shape.{Dimensions, is_page, is_size};

    ghost Value = { Dimensions };

    ghost view = { λ s. record { size = s.size; page = s.page } };

    ghost invariant = { λ s. (is_page s.page && is_size s.size s.page) ≡ true };

    ghost inverse = { λ d. record { size = d.size; page = d.page } };
}

impl Shape {
    ghost use Rattle.std.specs.Prelude.{◌≡◌, true, ◌&&◌};
    ghost use Rattle.segment_image.specs.Checks.{checked};
    ghost use Rattle.segment_image.specs.Shape.{shape_checks, is_page, is_size};

    /// Returns the shape of a segment of `size` words in pages of `page` words.
    ///
    /// The first fault is returned: `BadPage` if the page is no multiple of 16 from 64 to 65,536, then `BadSize` if
    /// the segment is no multiple of the page from one page to 1,048,576 words.
    pub fn of(size: u64, page: u64) -> Result<Shape, ImageFault>
        ensures { result ≡ checked (shape_checks size page) (record { size = size; page = page }) }
    {
        if !is_lawful_page(page) {
            return Err(ImageFault::BadPage);
        }
        if !is_lawful_size(size, page) {
            return Err(ImageFault::BadSize);
        }
        Ok(Shape { size, page })
    }

    /// Returns the number of words of the segment [value], which is a valid size for its page [lawful].
    pub fn size(&self) -> u64
        ensures value { result ≡ self.now.size }
        ensures lawful { is_size self.now.size self.now.page ≡ true }
    {
        self.size
    }

    /// Returns the number of words of a page [value], which is a valid page [lawful].
    pub fn page(&self) -> u64
        ensures value { result ≡ self.now.page }
        ensures lawful { is_page self.now.page ≡ true }
    {
        self.page
    }
}

ghost use Rattle.std.specs.Prelude.{◌≡◌, true};
ghost use Rattle.segment_image.specs.Shape.{is_page, is_size};

fn is_lawful_page(page: u64) -> bool
    ensures { result ≡ is_page page }
{
    page >= MIN_PAGE && page <= MAX_PAGE && page % PAGE_STEP == 0
}

fn is_lawful_size(size: u64, page: u64) -> bool
    requires { is_page page ≡ true }
    ensures { result ≡ is_size size page }
{
    size >= page && size <= MAX_SIZE && size % page == 0
}
