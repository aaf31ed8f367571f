//! The composition of a look.

ghost use Rattle.std.specs.Prelude.{◌≡◌, true, length, All, IfOk, MatchResult, Err};
ghost use Rattle.segment_image.specs.Blocks.{is_placed};
ghost use Rattle.segment_looks.specs.Patches.{IsPatched};
ghost use Rattle.bucket_ranges.specs.Listed.{before};
ghost use Rattle.segment_looks.specs.Looks.{AreCopies, IsLook, list_start, head_of_copies, list_patches, records_patches};

use crate::fault::LookFault;
use crate::following::followed_records;
use crate::patching::{put, put_zeros};
use crate::record::put_record;
use segment_image::layout::{BLOCK_NEXT, QUEUE, TAIL_WORD, VERSION_FROZEN};
use segment_image::{Image, ImageFault, SegmentHead, header};
use std::alloc::{AllocError, Global};

/// Returns the look that three copies of the words of a segment give, which were taken one after the other: exactly the
/// words that `specs/Looks.antt` defines. Any words may be given.
///
/// The first fault that holds is returned: `Image` with the first fault of the third copy's header; `Image` with
/// `BadSize` if the copies have different lengths; `OldVersion` if the segment is of version 1. If none holds and
/// memory runs out, the fault is `NoMemory`.
pub fn compose(alloc: Global, one: &[u64], two: &[u64], three: &[u64]) -> Result<Image, LookFault>
    ensures { MatchResult (head_of_copies one.now two.now three.now)
        (λ head. MatchResult result (λ image. IsLook head one.now two.now three.now image) (λ fault. fault ≡ LookFault.NoMemory))
        (λ fault. result ≡ Err fault) }
{
    let head = head_of(one, two, three)?;
    let records = followed_records(alloc, two, &head)?;
    let words = words_of(alloc, one, two, three, &head, &records)?;
    Ok(Image::of(words))
}

// The header of the third copy, or the first fault of the copies [value]. If there is none, `AreCopies` holds [copies].
fn head_of(one: &[u64], two: &[u64], three: &[u64]) -> Result<SegmentHead, LookFault>
    ensures value { result ≡ head_of_copies one.now two.now three.now }
    ensures copies { IfOk result (λ head. AreCopies head one.now two.now three.now) }
{
    let head = match header(three) {
        Ok(head) => head,
        Err(fault) => return Err(LookFault::Image(fault)),
    };
    if one.len() != three.len() || two.len() != three.len() {
        return Err(LookFault::Image(ImageFault::BadSize));
    }
    if head.version != VERSION_FROZEN {
        return Err(LookFault::OldVersion);
    }
    Ok(head)
}

// The words of the look that has this list of records.
fn words_of(
    alloc: Global,
    one: &[u64],
    two: &[u64],
    three: &[u64],
    head: &SegmentHead,
    records: &[u64],
) -> Result<Vec<u64>, AllocError>
    requires copies { AreCopies head.now one.now two.now three.now }
    requires placed { All (λ at. is_placed head.now at ≡ true) records.now }
    ensures { IfOk result (λ words. IsPatched (list_patches head.now one.now two.now three.now records.now) three.now words.items) }
{
    let mut words = Vec::from_slice(alloc, three)?;
    put_list(&mut words, one, two, three, head, records);
    Ok(words)
}

// Puts the patches of a list of records on the words of a look.
fn put_list(
    words: &mut [u64],
    one: &[u64],
    two: &[u64],
    three: &[u64],
    head: &SegmentHead,
    records: &[u64],
)
    requires long { length words.old ≡ length three.now }
    requires copies { AreCopies head.now one.now two.now three.now }
    requires placed { All (λ at. is_placed head.now at ≡ true) records.now }
    ensures { IsPatched (list_patches head.now one.now two.now three.now records.now) words.old words.new }
{
    let free = head.free as usize;
    put_zeros(words, free, three.len() - free);
    let first = put_records(words, one, two, three, head, records);
    put(words, TAIL_WORD, &[last_of(records)]);
    put(words, QUEUE as usize + BLOCK_NEXT, &[first]);
}

// The last of the records, or the queue block, which is the tail if there are no records.
fn last_of(records: &[u64]) -> u64
    ensures { result ≡ before records.now (length records.now) }
{
    records.last().copied().unwrap_or(QUEUE)
}

// Puts the patches of records on the words of a look, from the last record to the first, and returns the first record
// [first]. So if patches overlap, the first one stays [patched].
fn put_records(
    words: &mut [u64],
    one: &[u64],
    two: &[u64],
    three: &[u64],
    head: &SegmentHead,
    records: &[u64],
) -> u64
    requires long { length words.old ≡ length three.now }
    requires copies { AreCopies head.now one.now two.now three.now }
    requires placed { All (λ at. is_placed head.now at ≡ true) records.now }
    ensures first { result ≡ list_start records.now }
    ensures patched { IsPatched (records_patches head.now one.now two.now three.now records.now) words.old words.new }
{
    let mut next = QUEUE;
    let mut left = records.len();
    while left > 0 {
        left -= 1;
        let at = records[left];
        put_record(words, one, two, three, head, at as usize);
        put(words, at as usize + BLOCK_NEXT, &[next]);
        next = at;
    }
    next
}
