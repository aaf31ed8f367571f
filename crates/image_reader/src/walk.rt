//! The list of a segment's records.

ghost use Rattle.std.specs.Prelude.{◌≡◌, Ok, IfOk};
ghost use Rattle.segment_image.specs.Head.{header_of};
ghost use Rattle.bucket_ranges.specs.Reading.{IsListed, stop_of};

use segment_image::layout::{BLOCK_NEXT, QUEUE};
use segment_image::{ImageFault, SegmentHead, block};
use std::alloc::{AllocError, Global};

/// The list of a segment's records.
#[derive(Drop)]
pub struct Listed {
    /// The references of all records on the list, in its order.
    pub references: Vec<u64>,
    /// Why the list stops before its end: `BadRef`, `BadBlock` or `Loop`.
    pub stopped: Option<ImageFault>,
}

/// Returns the list of the segment whose header, read from the same words, is `head`: the references of its records
/// in order [listed], and why it stops [stopped]. The only error is that memory runs out. Each block is marked when it
/// is visited, so the walk ends.
pub fn list_of(alloc: Global, words: &[u64], head: &SegmentHead) -> Result<Listed, AllocError>
    requires { header_of words.now ≡ Ok head.now }
    ensures listed { IfOk result (λ list. IsListed words.now head.now list.references.items) }
    ensures stopped { IfOk result (λ list. list.stopped ≡ stop_of words.now head.now list.references.items) }
{
    let mut met = vec![in alloc; false; words.len()]?;
    let mut references = Vec::new(alloc);
    let mut next = words[QUEUE as usize + BLOCK_NEXT];
    while next != QUEUE {
        let found = match block(words, head, next) {
            Ok(found) => found,
            Err(fault) => {
                return Ok(Listed {
                    references,
                    stopped: Some(fault),
                });
            }
        };
        if met[next as usize] {
            return Ok(Listed {
                references,
                stopped: Some(ImageFault::Loop),
            });
        }
        met[next as usize] = true;
        references.push(next)?;
        next = found.next;
    }
    Ok(Listed {
        references,
        stopped: None,
    })
}
