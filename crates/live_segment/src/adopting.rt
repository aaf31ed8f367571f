//! How a segment continues with the words of an image.

ghost use Rattle.std.specs.Prelude.{◌≡◌, ◌≤◌, ◌∷◌, ◌++◌, replicate, length, IfOk};
ghost use Rattle.segment_image.specs.declared.layout.TheConstants.{MAX_SIZE, QUEUE};
ghost use Rattle.live_segment.specs.Adopted as adopted;

use crate::opener::Opener;
use crate::rule::{Opening, Setting};
use crate::segment::Segment;
use bucket_ranges::limits::MAX_UNITS;
use image_adoption::{AdoptFault, Adoptable, check};
use segment_image::layout::QUEUE;
use segment_image::{SegmentHead, header};
use segment_memory::Memory;
use std::alloc::{AllocError, Global};

// The words of its table.
fn adopted_words(alloc: Global, words: &[u64], cursors: usize) -> Result<Vec<u64>, AllocError>
    requires lawful { length words.now ≤ MAX_SIZE }
    requires few { cursors ≤ 8 }
    ensures { IfOk result (λ all. all.items ≡ 0 ∷ words.now ++ replicate cursors QUEUE) }
{
    let mut all = Vec::with_capacity(alloc, words.len() + 1 + cursors)?;
    all.push(0)?;
    all.extend_from_slice(words)?;
    all.resize(words.len() + 1 + cursors, QUEUE)?;
    Ok(all)
}

// What an image with this header is opened as.
fn setting_of(head: &SegmentHead, cursors: usize) -> Setting
    ensures { result ≡ adopted.setting_of head.now cursors }
{
    Setting {
        shape: head.shape,
        version: head.version,
        id: head.id,
        cursors,
        full: head.full,
    }
}

impl Segment {
    ghost use Rattle.segment_image.specs.Head.{head_of};
    ghost use Rattle.bucket_ranges.specs.Reading.{IsListed, reading_along};
    ghost use Rattle.segment_promises.specs.Adoption.{IsAdoptable, used_of};
    ghost use Rattle.live_segment.specs.Adopted.{AnswersAdopt, IsAdopted};

    /// Returns a segment that continues from the words of an image, of its shape, version, id and full flag, and its
    /// opener. The segment is opened with these words, and its opener stands for all that they read as along their
    /// list: it has accepted the image's entries and spent the units that it used, and knows its histograms, their
    /// redundant counts and what deltas had taken of them. Or the first fault, in the order of [`AdoptFault`]: one that
    /// holds while none before it does; or `NoMemory`, also if memory ran out before all was looked at [answer].
    ///
    /// - `words`: those of an image of version 2. They are only borrowed, and may be any: they are checked first.
    /// - `cursors`: how many cursors along the list the recorders share, as for [`Segment::create`].
    pub fn adopt(
        alloc: Global,
        words: &[u64],
        cursors: usize,
    ) -> Result<(Segment, Opener), AdoptFault>
        ensures answer { AnswersAdopt words.now cursors result }
    {
        Segment::adopt_in(alloc, Memory::of_heap(alloc), words, cursors)
    }

    /// The same [answer], with the segment's words in this memory, as those of [`Segment::create_in`] are. The image is
    /// not in that memory.
    pub fn adopt_in(
        alloc: Global,
        memory: Memory,
        words: &[u64],
        cursors: usize,
    ) -> Result<(Segment, Opener), AdoptFault>
        ensures answer { AnswersAdopt words.now cursors result }
    {
        let Adoptable { references, used } = check(alloc, words, cursors)?;
        let made = Segment::adopted(alloc, memory, words, references, used, cursors)?;
        Ok(made)
    }

    // The segment that continues from the words of an image that may be adopted, and its opener, which has all units
    // except those that the image has used.
    fn adopted(
        alloc: Global,
        memory: Memory,
        words: &[u64],
        references: Vec<u64>,
        used: u64,
        cursors: usize,
    ) -> Result<(Segment, Opener), AllocError>
        requires few { cursors ≤ 8 }
        requires listed { IsListed words.now (head_of words.now) references.items }
        requires adoptable { IsAdoptable words.now references.items (reading_along words.now (head_of words.now) references.items) }
        requires used { used ≡ used_of (reading_along words.now (head_of words.now) references.items) }
        ensures { IfOk result (λ made. IsAdopted words.now cursors made.0 made.1) }
    {
        let Ok(head) = header(words) else {
            unreachable!()
        };
        let setting = setting_of(&head, cursors);
        let words = adopted_words(alloc, words, cursors)?;
        let opening = Opening {
            setting,
            words,
            references,
        };
        Segment::open(alloc, memory, opening, MAX_UNITS as u32 - used as u32)
    }
}
