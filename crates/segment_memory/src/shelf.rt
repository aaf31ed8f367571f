//! A place for one room, which threads share.

ghost use Rattle.std.specs.Prelude.{◌≡◌, IfOk};
ghost use Rattle.segment_memory.specs.Shelf.{HasSize, IsShelf, IsRoomTaken};

use crate::room::Room;
use atomic_table::{Play, Refused, Table, TableRule};
use std::alloc::{AllocError, Global};

// The place is free to be reached into.
const FREE: u64 = 0;

const BUSY: u64 = 1;

// Its key is the number of bytes of each room that is put there.
pub(crate) struct ShelfRule;

impl TableRule<Option<Room>, usize, usize> for ShelfRule {
    ghost holds = { IsShelf };

    ghost first = { λ size. size };
}

// What is on the shelf is taken, if it is free.
struct Reach;

impl Play<Option<Room>, usize> for Reach {
    ghost then = { λ _ before found after. found ≡ 0 → IsRoomTaken before.0 after };
}

// Something is put there.
struct Put;

impl Play<Option<Room>, usize> for Put {
    ghost then = { λ _ _ _ _. Unit {0} };
}

/// Where a room of `size` bytes lies, or none.
#[derive(Drop)]
pub(crate) struct Shelf {
    table: Table<Option<Room>, usize, usize, ShelfRule, Global>,
    pub(crate) size: usize,
    ghost sized: { (table.shared.table_id.words ≡ 1) × (table.shared.table_id.slots ≡ 1) },
    ghost keyed: { table.shared.key ≡ size },
}

impl Shelf {
    // A shelf without a room.
    pub(crate) fn new(alloc: Global, size: usize) -> Result<Shelf, AllocError>
        ensures { IfOk result (λ shelf. shelf.size ≡ size) }
    {
        let mut slots = Vec::with_capacity(alloc, 1)?;
        slots.push_reserved(None);
        match Table::new(alloc, &[FREE], slots, &size) {
            Ok((table, _seat)) => Ok(Shelf { table, size }),
            Err(Refused { slots: _ }) => Err(AllocError),
        }
    }

    // Puts a room or none there, and takes what was there. If another thread is doing so, it does nothing, and
    // returns what it was to put there.
    pub(crate) fn replace(&self, room: Option<Room>) -> Option<Room>
        requires { HasSize self.now.size room }
        ensures { HasSize self.now.size result }
    {
        let shared = &self.table.shared;
        let (found, mut seat) = shared.swap_new_seat::<Reach>(0, BUSY);
        if found != FREE {
            return room;
        }
        let old = shared.exchange(&mut seat, 0, room);
        shared.store::<Put>(&mut seat, 0, FREE);
        old
    }
}
