//! An image that a process holds whole.

use crate::fault::ImageFault;
use crate::layout::{
    HEADER_WORDS, QUEUE, QUEUE_COOKIE, QUEUE_SIZE, SEGMENT_COOKIE, STATE_DELETED, STATE_READY,
    STATE_WORD, TYPE_PURGED, VERSION_MOVING,
};
use crate::shape::Shape;
use std::alloc::{AllocError, Global};
use std::marker::Model;

/// The words of a segment. A clause sees the list of words.
#[derive(Drop)]
pub struct Image {
    words: Vec<u64>,
}

impl Model for Image {
    ghost use Rattle.std.specs.Prelude.{ℕ, ◌≤◌, List, length};

    ghost Value = { List ℕ };

    ghost view = { λ image. image.words.items };

    ghost invariant = { λ image. 16 ≤ length image.words.items };
}

impl Image {
    ghost use Rattle.std.specs.Prelude.{◌≡◌, true, is_ok, Err, MatchOption, MatchResult, slice_set};
    ghost use Rattle.segment_image.specs.Checks.{first_fault};
    ghost use Rattle.segment_image.specs.Shape.{shape_checks};
    ghost use Rattle.segment_image.specs.Head.{header_of};
    ghost use Rattle.segment_image.specs.Image.{blank_words};

    /// Returns a ready segment of `size` words in pages of `page` words without blocks.
    ///
    /// The first fault of the shape is returned, `BadPage` or `BadSize`; then `NoMemory` if memory runs out.
    pub fn blank(alloc: Global, size: u64, page: u64, id: u64) -> Result<Image, ImageFault>
        ensures { MatchOption (first_fault (shape_checks size page)) (MatchResult result (λ image. image ≡ blank_words size page id) (λ fault. fault ≡ ImageFault.NoMemory)) (λ fault. result ≡ Err fault) }
    {
        let shape = Shape::of(size, page)?;
        blank_of(alloc, shape, id).map_err(|_| ImageFault::NoMemory)
    }

    /// Returns the image that these words are. Their header is valid.
    pub fn of(words: Vec<u64>) -> Image
        requires { is_ok (header_of words.items) ≡ true }
        ensures { result ≡ words.items }
    {
        Image { words }
    }

    /// Returns the words.
    pub fn words(&self) -> &[u64]
        ensures { result.now ≡ self.now }
    {
        &self.words
    }

    /// Marks the segment as deleted: word 5 becomes 2, and nothing else changes. Nothing reads it from then on.
    pub fn set_deleted(&mut self)
        ensures { self.new ≡ slice_set self.old 5 2 }
    {
        self.words[STATE_WORD] = STATE_DELETED;
    }
}

ghost use Rattle.std.specs.Prelude.{◌≡◌, IfOk};
ghost use Rattle.segment_image.specs.Image.{blank_words, ready_header};

/// The words of the header of a ready segment without blocks, in this version of the format.
pub fn ready_header(shape: Shape, version: u64, id: u64) -> [u64; HEADER_WORDS]
    ensures { result ≡ ready_header version shape.size shape.page id }
{
    [
        SEGMENT_COOKIE,
        version,
        shape.size(),
        shape.page(),
        id,
        STATE_READY,
        0,
        HEADER_WORDS as u64,
        QUEUE,
        0,
        0,
        0,
        QUEUE_SIZE,
        QUEUE_COOKIE,
        TYPE_PURGED,
        QUEUE,
    ]
}

// The words of a ready segment without blocks.
fn blank_of(alloc: Global, shape: Shape, id: u64) -> Result<Image, AllocError>
    ensures { IfOk result (λ image. image ≡ blank_words shape.size shape.page id) }
{
    let size = shape.size();
    let mut words = Vec::with_capacity(alloc, size as usize)?;
    words.extend_from_slice(&ready_header(shape, VERSION_MOVING, id))?;
    words.resize(size as usize, 0)?;
    Ok(Image { words })
}

ghost use Rattle.std.specs.Prelude.{ℕ, Ok, true};
ghost use Rattle.segment_image.specs.Shape.{is_page, is_size};
ghost use Rattle.segment_image.specs.Head.{header_of, head_of};

/// A law: the words of a new segment of a valid shape have a valid header.
pub fn blank_is_ready()
    ensures { (size page id : ℕ) → is_page page ≡ true → is_size size page ≡ true
        → header_of (blank_words size page id) ≡ Ok (head_of (blank_words size page id)) }
{}
