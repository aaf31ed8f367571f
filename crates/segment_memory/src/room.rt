//! Memory that the caller owns.

ghost use Rattle.segment_memory.specs.Blocks.{IsBlockSize, bytes_at};

use std::marker::Model;

/// `size` bytes in which nothing lies: a multiple of 16 that is not 0, aligned to 16. C may give one.
#[repr(C)]
#[derive(Drop)]
pub struct Room {
    pub(crate) ptr: *mut u8,
    pub(crate) size: usize,
    ghost fits: { IsBlockSize size },
}

impl Model for Room {
    ghost also_owns = { λ room. bytes_at room.ptr room.size };
}

unsafe impl Send for Room {}
