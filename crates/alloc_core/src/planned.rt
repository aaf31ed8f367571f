//! What an allocation does from a free pointer on.

ghost use Rattle.std.specs.Prelude.{◌≡◌};
ghost use Rattle.alloc_core.specs.Planned.{planned, is_pointer as is_pointer_of};

use segment_image::Shape;
use segment_image::layout::{BLOCK_LEAST, HEADER_WORDS};

/// What an allocation does from a free pointer on (Chromium's persistent_memory_allocator).
#[derive(Clone, Copy, PartialEq, Eq)]
pub enum Planned {
    /// It claims `size` words from the free pointer on, which then goes to `next`. The size is more than what was
    /// asked for if one to four words of the page would be left: these become part of the block.
    Claim { size: u64, next: u64 },
    /// The page ends before that: its last `room` words are wasted.
    Waste { room: u64 },
    /// The segment ends before that.
    Full,
}

/// Returns what an allocation of `size` words, its header among them, does from the free pointer `free` on: it claims
/// them, it wastes the rest of the page, or the segment is full.
pub fn plan(free: u64, size: u64, shape: Shape) -> Planned
    ensures { result ≡ planned free size shape }
{
    if free > shape.size() || size > shape.size() - free {
        return Planned::Full;
    }
    let room = room_at(free, &shape);
    if size > room {
        Planned::Waste { room }
    } else if room - size < BLOCK_LEAST as u64 {
        Planned::Claim {
            size: room,
            next: free + room,
        }
    } else {
        Planned::Claim {
            size,
            next: free + size,
        }
    }
}

ghost use Rattle.alloc_core.specs.Planned.{room_at as room_of};

// The words from a free pointer to the end of its page.
fn room_at(free: u64, shape: &Shape) -> u64
    ensures { result ≡ room_of shape.now free }
{
    shape.page() - free % shape.page()
}

/// Whether a free pointer is valid: after the queue block, within the segment, and with room for a smallest block in
/// its page.
pub(crate) fn is_pointer(free: u64, shape: &Shape) -> bool
    ensures { result ≡ is_pointer_of shape.now free }
{
    free >= HEADER_WORDS as u64
        && free <= shape.size()
        && room_at(free, shape) >= BLOCK_LEAST as u64
}
