//! The blocks of an image, and whether they overlap.

ghost use Rattle.std.specs.Prelude.{◌≡◌, ◌≤◌, ◌+◌, ◌||◌, ℕ, Ok, true, false, length, get_or, option_to_list, All, IfOk, IfSome, Decides};
ghost use Rattle.std.specs.Bool.{OnTrue};
ghost use Rattle.segment_image.specs.Head.{header_of};
ghost use Rattle.segment_image.specs.Blocks.{field_at, is_block};
ghost use Rattle.image_rules.specs.Adoption.{blocks_of as all_blocks, named_counts as named_counts_of};
ghost use Rattle.image_adoption.specs.Conditions.{AreApart};
ghost use Rattle.image_adoption.specs.Records.{HasApartBlocks, NamesBlock};
ghost use Rattle.image_adoption.specs.Runs.{is_in};

use segment_image::layout::{
    BLOCK_SIZE, BLOCK_TYPE, HISTOGRAM_COUNTS, HISTOGRAM_LEAST, TYPE_HISTOGRAM,
};
use segment_image::{SegmentHead, block};
use std::alloc::{AllocError, Global};

/// Whether each record of a histogram on a list has its fields and, if it names counts, names a block as such, and no
/// two of the blocks of records and counts overlap. It takes one byte for each word and 8 bytes for each block,
/// whatever else the records say.
pub(crate) fn has_apart_blocks(
    alloc: Global,
    words: &[u64],
    head: &SegmentHead,
    references: &[u64],
) -> Result<bool, AllocError>
    requires header { header_of words.now ≡ Ok head.now }
    requires lawful { All (λ at. is_block words.now head.now at ≡ true) references.now }
    ensures { IfOk result (λ apart. Decides apart (HasApartBlocks words.now head.now references.now)) }
{
    if !name_blocks(words, head, references) {
        return Ok(false);
    }
    let blocks = blocks_of(alloc, words, head, references)?;
    are_apart(alloc, words, head, &blocks)
}

// Whether each of these records names a block as counts, or none.
fn name_blocks(words: &[u64], head: &SegmentHead, references: &[u64]) -> bool
    requires header { header_of words.now ≡ Ok head.now }
    requires lawful { All (λ at. is_block words.now head.now at ≡ true) references.now }
    ensures { Decides result (All (NamesBlock words.now head.now) references.now) }
{
    for reference in references {
        if !names_block(words, head, *reference as usize) {
            return false;
        }
    }
    true
}

// Whether one record does: it is not a histogram's, or it has the fields of one, and its counts are a block or none.
fn names_block(words: &[u64], head: &SegmentHead, at: usize) -> bool
    requires header { header_of words.now ≡ Ok head.now }
    requires block { is_block words.now head.now at ≡ true }
    ensures { Decides result (NamesBlock words.now head.now at) }
{
    if words[at + BLOCK_TYPE] != TYPE_HISTOGRAM {
        return true;
    }
    if words[at + BLOCK_SIZE] < HISTOGRAM_LEAST as u64 {
        return false;
    }
    let counts = words[at + HISTOGRAM_COUNTS];
    counts == 0 || is_at_block(words, head, counts)
}

fn is_at_block(words: &[u64], head: &SegmentHead, reference: u64) -> bool
    requires { header_of words.now ≡ Ok head.now }
    ensures { result ≡ is_block words.now head.now reference }
{
    block(words, head, reference).is_ok()
}

// The blocks of an image: the records on its list, and the blocks that records of histograms name as counts.
fn blocks_of(
    alloc: Global,
    words: &[u64],
    head: &SegmentHead,
    references: &[u64],
) -> Result<Vec<u64>, AllocError>
    requires header { header_of words.now ≡ Ok head.now }
    requires named { All (NamesBlock words.now head.now) references.now }
    ensures blocks { IfOk result (λ blocks. blocks.items ≡ all_blocks words.now references.now) }
    ensures lawful { IfOk result (λ blocks. All (λ at. is_block words.now head.now at ≡ true) blocks.items) }
{
    let mut blocks = Vec::from_slice(alloc, references)?;
    for reference in references {
        let Some(counts) = named_counts(words, head, *reference as usize) else {
            continue;
        };
        blocks.push(counts)?;
    }
    Ok(blocks)
}

// The block that a record names as counts, if it is a histogram's record and names one.
fn named_counts(words: &[u64], head: &SegmentHead, at: usize) -> Option<u64>
    requires header { header_of words.now ≡ Ok head.now }
    requires names { NamesBlock words.now head.now at }
    ensures named { option_to_list result ≡ named_counts_of words.now at }
    ensures lawful { IfSome result (λ counts. is_block words.now head.now counts ≡ true) }
{
    if words[at + BLOCK_TYPE] != TYPE_HISTOGRAM {
        return None;
    }
    let counts = words[at + HISTOGRAM_COUNTS];
    if counts == 0 { None } else { Some(counts) }
}

// Whether no two of these blocks overlap. Each word that a block has is marked.
fn are_apart(
    alloc: Global,
    words: &[u64],
    head: &SegmentHead,
    blocks: &[u64],
) -> Result<bool, AllocError>
    requires header { header_of words.now ≡ Ok head.now }
    requires lawful { All (λ at. is_block words.now head.now at ≡ true) blocks.now }
    ensures { IfOk result (λ apart. Decides apart (AreApart words.now blocks.now)) }
{
    let mut taken = vec![in alloc; false; words.len()]?;
    Ok(take_all(&mut taken, words, head, blocks))
}

// Takes the words of these blocks, of which none is taken yet, and returns whether each word was taken once at most.
fn take_all(taken: &mut [bool], words: &[u64], head: &SegmentHead, blocks: &[u64]) -> bool
    requires header { header_of words.now ≡ Ok head.now }
    requires lawful { All (λ at. is_block words.now head.now at ≡ true) blocks.now }
    requires long { length taken.old ≡ length words.now }
    requires free { (word : ℕ) → get_or taken.old word false ≡ false }
    ensures { Decides result (AreApart words.now blocks.now) }
{
    for block in blocks {
        let at = *block as usize;
        if !take(taken, at, words[at + BLOCK_SIZE] as usize) {
            return false;
        }
    }
    true
}

// Takes a run of words, and returns whether none of them was taken before.
fn take(taken: &mut [bool], at: usize, size: usize) -> bool
    requires { at + size ≤ length taken.old }
    ensures free { Decides result ((word : ℕ) → is_in at size word ≡ true → get_or taken.old word false ≡ false) }
    ensures taken { OnTrue result ((word : ℕ) → get_or taken.new word false ≡ (get_or taken.old word false || is_in at size word)) }
{
    for word in at..at + size {
        if taken[word] {
            return false;
        }
        taken[word] = true;
    }
    true
}
