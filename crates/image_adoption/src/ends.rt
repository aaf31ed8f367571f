//! The ends of what was claimed: the free pointer, the words after it, and the tail of the list.

ghost use Rattle.std.specs.Prelude.{◌≡◌, ◌==◌, ◌≤◌, length, Decides};
ghost use Rattle.std.specs.List.{list_all};
ghost use Rattle.alloc_core.specs.Planned.{is_pointer};
ghost use Rattle.list_core.specs.Chain.{IsStop};
ghost use Rattle.image_adoption.specs.Conditions.{AreZerosFrom};

use segment_image::Shape;
use segment_image::layout::{BLOCK_LEAST, HEADER_WORDS, QUEUE};

/// Whether all of these words are 0.
pub(crate) fn are_zeros(words: &[u64]) -> bool
    ensures { result ≡ list_all (λ word. word == 0) words.now }
{
    words.iter().all(|word| *word == 0)
}

/// Whether the words from the free pointer on are 0.
pub(crate) fn has_zeros(words: &[u64], free: usize) -> bool
    requires { free ≤ length words.now }
    ensures { Decides result (AreZerosFrom words.now free) }
{
    are_zeros(&words[free..])
}

/// Whether a free pointer lies after the header and within the segment, and has room for the smallest block in its
/// page.
pub(crate) fn has_room(shape: &Shape, free: u64) -> bool
    ensures { result ≡ is_pointer shape.now free }
{
    let page = shape.page();
    free >= HEADER_WORDS as u64 && free <= shape.size() && page - free % page >= BLOCK_LEAST as u64
}

/// Whether a tail is the queue block or one of the records of a list.
pub(crate) fn has_tail(references: &[u64], tail: u64) -> bool
    ensures { Decides result (IsStop references.now tail) }
{
    tail == QUEUE || references.contains(&tail)
}
