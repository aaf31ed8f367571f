//! The allocator, and who lends a room to it.

ghost use Rattle.std.specs.Prelude.{◌≡◌, ◌^◌, ◌<◌, ◌≤◌, false, true, IfErr, IfOk, IfSome, MatchOption, is_none};
ghost use Rattle.std.specs.Arc.{arc_value};
ghost use prog.Memory.{size as size_of_type};
ghost use Rattle.segment_memory.specs.Blocks.{block_token, IsBlockSize};

use crate::block::{Block, UNIT};
use crate::room::Room;
use crate::shelf::Shelf;
use std::alloc::{AllocError, Allocator, Global};
use std::sync::Arc;

/// What a table allocates from: the heap, or a room that is lent to it.
///
/// In a room it has one block at a time, of at most the room's size. Blocks of no bytes are the heap's.
#[derive(Drop)]
pub struct Memory {
    heap: Global,
    lent: Option<Arc<Shelf, Global>>,
}

/// The lender of a room. It has the room while no block is in it.
#[derive(Drop)]
pub struct Lender {
    shelf: Arc<Shelf, Global>,
    ghost fits: { IsBlockSize (arc_value shelf).size },
}

impl Lender {
    ghost use Rattle.segment_memory.specs.Memory.{IsRoomLent, lent_size};

    // A lender without a room as yet, and its memory.
    fn new(heap: Global, size: usize) -> Result<(Memory, Lender), AllocError>
        requires { IsBlockSize size }
        ensures { IfOk result (λ made. IsRoomLent size made.0 made.1) }
    {
        let shelf = Arc::new(heap, Shelf::new(heap, size)?)?;
        let lent = Some(Arc::try_clone(&shelf)?);
        Ok((Memory { heap, lent }, Lender { shelf }))
    }

    /// Lends a room: returns a memory that allocates in it, and its lender, which knows its size [ok]. If the heap has
    /// no memory for what these two share, the same room comes back [err].
    pub fn lend(heap: Global, room: Room) -> Result<(Memory, Lender), Room>
        ensures ok { IfOk result (λ made. IsRoomLent room.size made.0 made.1) }
        ensures err { IfErr result (λ back. back ≡ room) }
    {
        let (size, block) = Block::of_room(room);
        match Lender::new(heap, size) {
            Ok((memory, lender)) => {
                lender.shelf.replace(Some(block.into_room()));
                Ok((memory, lender))
            }
            Err(_) => Err(block.into_room()),
        }
    }

    /// Returns the room that was lent, with the size that it had then; none while a block is in it, or if it was taken
    /// back before.
    pub fn take_back(&self) -> Option<Room>
        ensures { IfSome result (λ room. room.size ≡ lent_size self.now) }
    {
        self.shelf.replace(None)
    }
}

impl Memory {
    ghost use Rattle.segment_memory.specs.Memory.{block_size, is_of_heap, room_size};

    /// Returns the memory of the heap.
    pub fn of_heap(heap: Global) -> Memory
        ensures { is_none result.lent ≡ true }
    {
        Memory { heap, lent: None }
    }

    // The room that is lent, if a request of `size` bytes is to lie in it.
    fn lent_for(&self, size: usize) -> Option<&Shelf>
        ensures { MatchOption result (is_of_heap self.now size ≡ true) (λ shelf. (is_of_heap self.now size ≡ false) × (shelf.now.size ≡ room_size self.now.lent)) }
    {
        match &self.lent {
            Some(shelf) if size != 0 => Some(shelf),
            _ => None,
        }
    }

    // How large the block for such a request is.
    fn block_size(&self, size: usize) -> usize
        requires { size < 2 ^ 63 }
        ensures { result ≡ block_size self.now size }
    {
        match self.lent_for(size) {
            None => size.max(UNIT).next_multiple_of(UNIT),
            Some(shelf) => shelf.size,
        }
    }

    fn take(&self, size: usize, align: usize) -> Option<Block>
        ensures { IfSome result (λ block. (block.of_heap ≡ is_of_heap self.now size) × (block.size ≡ block_size self.now size) × (size ≤ block.size) × (size < 2 ^ 63) × (align ≤ 16)) }
    {
        if align > UNIT || size > isize::MAX as usize - UNIT {
            return None;
        }
        match self.lent_for(size) {
            None => Block::reserve(&self.heap, self.block_size(size)),
            Some(shelf) if size <= shelf.size => Some(Block::of_room(shelf.replace(None)?).1),
            Some(_) => None,
        }
    }

    fn give(&self, size: usize, block: Block)
        requires { (block.of_heap ≡ is_of_heap self.now size) × (block.size ≡ block_size self.now size) }
    {
        match self.lent_for(size) {
            None => block.free(&self.heap),
            Some(shelf) => drop(shelf.replace(Some(block.into_room()))),
        }
    }
}

unsafe impl Allocator for Memory {
    ghost use Rattle.segment_memory.specs.Memory.{block_size, is_of_heap};

    ghost dealloc_token = { λ memory τ. block_token (is_of_heap memory (size_of_type τ)) (block_size memory (size_of_type τ)) τ };

    fn allocate(&self, size: usize, align: usize) -> Result<*mut u8, AllocError> {
        match self.take(size, align) {
            Some(Block { ptr, size: _ }) => Ok(ptr),
            None => Err(AllocError),
        }
    }

    unsafe fn deallocate(&self, ptr: *mut u8, size: usize, _align: usize) {
        let bytes = self.block_size(size);
        self.give(size, Block { ptr, size: bytes });
    }
}
