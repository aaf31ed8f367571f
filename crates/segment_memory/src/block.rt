//! Memory that is handed out.

ghost use Rattle.std.specs.Prelude.{◌≡◌, ◌^◌, ◌<◌, Bool, true, IfSome};
ghost use Rattle.segment_memory.specs.Blocks.{IsBlockSize, block_owns};

use crate::room::Room;
use std::alloc::{Allocator, Global};
use std::marker::Model;

/// How each block is aligned.
pub(crate) const UNIT: usize = 16;

/// `size` bytes in which nothing lies. If they are the heap's, it has the right to free them.
pub(crate) struct Block {
    pub(crate) ptr: *mut u8,
    pub(crate) size: usize,
    pub(crate) ghost of_heap: { Bool },
    ghost fits: { IsBlockSize size },
}

impl Model for Block {
    ghost also_owns = { λ block. block_owns block.of_heap block.size block.ptr };
}

impl Block {
    ghost use Rattle.segment_memory.specs.Rooms.{block_of, room_of};

    // A block of the heap. None if there is no memory.
    pub(crate) fn reserve(heap: &Global, size: usize) -> Option<Block>
        requires { IsBlockSize size × (size < 2 ^ 63) }
        ensures { IfSome result (λ block. (block.of_heap ≡ true) × (block.size ≡ size)) }
    {
        match heap.allocate(size, UNIT) {
            Ok(ptr) => Some(Block { ptr, size }),
            Err(_) => None,
        }
    }

    // Gives the block back to the heap.
    pub(crate) fn free(self, heap: &Global)
        requires { self.of_heap ≡ true }
    {
        let Block { ptr, size } = self;
        unsafe { heap.deallocate(ptr, size, UNIT) }
    }

    // The caller's room as a block, and its size.
    pub(crate) fn of_room(room: Room) -> (usize, Block)
        ensures { (result.0 ≡ room.size) × (result.1 ≡ block_of room) }
    {
        let Room { ptr, size } = room;
        (size, Block { ptr, size })
    }

    // The same bytes, which nobody can free any more.
    pub(crate) fn into_room(self) -> Room
        ensures { result ≡ room_of self }
    {
        let Block { ptr, size } = self;
        Room { ptr, size }
    }
}
