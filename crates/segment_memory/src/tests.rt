//! What no clause says: that a room is handed out, and comes back. Only C makes a room, so these tests make one by parts
//! of the crate that are private.

use crate::block::Block;
use crate::memory::Lender;
use crate::room::Room;
use std::alloc::{AllocError, Global};

// A room of `size` bytes. The heap does not get it back.
fn room(heap: Global, size: usize) -> Result<Room, AllocError> {
    if size < 16 || size % 16 != 0 || size > 4096 {
        return Err(AllocError);
    }
    Ok(Block::reserve(&heap, size).ok_or(AllocError)?.into_room())
}

// What threads may share and move compiles here.
fn crosses<T: Send + Sync>(_: &T) {}

#[test]
fn a_room_is_handed_out_once_and_comes_back(rt: HostRuntime) -> Result<(), AllocError> {
    let heap = rt.alloc();
    let Ok((memory, lender)) = Lender::lend(heap, room(heap, 64)?) else {
        return Err(AllocError);
    };
    let numbers = Vec::from_slice(&memory, &[1u64, 2, 3, 4, 5, 6, 7, 8])?;
    crosses(&memory);
    crosses(&lender);
    assert!(rt; lender.take_back().is_none());
    assert!(rt; Vec::from_slice(&memory, &[1u64]).is_err());
    assert_eq!(rt; numbers[7], 8);
    drop(numbers);
    assert!(rt; lender.take_back().is_some());
    assert!(rt; lender.take_back().is_none());
    assert!(rt; Vec::from_slice(&memory, &[1u64]).is_err());
    Ok(())
}

#[test]
fn what_is_larger_than_the_room_is_refused(rt: HostRuntime) -> Result<(), AllocError> {
    let heap = rt.alloc();
    let Ok((memory, lender)) = Lender::lend(heap, room(heap, 32)?) else {
        return Err(AllocError);
    };
    assert!(rt; Vec::from_slice(&memory, &[1u64, 2, 3, 4, 5]).is_err());
    assert!(rt; lender.take_back().is_some());
    Ok(())
}
