//! The steps that fill a block of its own and put it on the list: a word of its payload, its next, the tail, and the
//! next by which it is linked.

ghost use Rattle.std.specs.Prelude.{◌+◌, ◌<◌, ◌≤◌};
ghost use Rattle.live_segment.specs.Steps.Prelude.{allocating_event, Does, DoesAt, Links, load_tail, move_tail, publishing_event, store_own_next, store_payload, StoresPayload};
ghost use Rattle.segment_image.specs.declared.layout.TheConstants.{QUEUE};

use crate::rule::{Announcement, Pass};
use crate::segment::Segment;
use crate::steps::FIRST;
use atomic_table::Play;
use segment_image::layout::{BLOCK_HEADER, BLOCK_NEXT, QUEUE, TAIL_WORD};
use segment_machine::Actor;

pub(crate) struct StorePayload;

impl Play<Announcement, Actor> for StorePayload {
    ghost then = { λ st. StoresPayload st.word st.first };
}

pub(crate) struct StoreOwnNext;

impl Play<Announcement, Actor> for StoreOwnNext {
    ghost then = { λ st. DoesAt (λ at. publishing_event (store_own_next at)) st.word };
}

pub(crate) struct LoadTail;

impl Play<Announcement, Actor> for LoadTail {
    ghost then = { λ st. Does (publishing_event load_tail) };
}

pub(crate) struct Link;

impl Play<Announcement, Actor> for Link {
    ghost then = { λ st. Links st.word st.second st.said };
}

pub(crate) struct MoveTail;

impl Play<Announcement, Actor> for MoveTail {
    ghost then = { λ st. Does (publishing_event (move_tail st.first st.second)) };
}

impl Segment {
    ghost use Rattle.std.specs.Prelude.{◌≡◌};
    ghost use Rattle.live_segment.specs.Steps.Prelude.{AreOwnBlocksApart, HasLinked, MayLink, MayReach, MayStep, Stepped};

    // It also shows that no two blocks of the recorder begin at one word.
    pub(crate) fn store_payload(&self, seat: &mut Pass, at: u64, index: usize, value: u64)
        requires may { MayStep self.now seat.old (allocating_event (store_payload at index value)) }
        requires room { at + 4 + index < self.now.setting.shape.size }
        ensures stepped { Stepped seat.old (allocating_event (store_payload at index value)) value seat.new }
        ensures apart { AreOwnBlocksApart seat.old.me.0 }
    {
        self.table
            .shared
            .store::<StorePayload>(seat, FIRST + at as usize + BLOCK_HEADER + index, value);
    }

    pub(crate) fn store_own_next(&self, seat: &mut Pass, at: u64)
        requires may { MayStep self.now seat.old (publishing_event (store_own_next at)) }
        requires room { at + 5 ≤ self.now.setting.shape.size }
        ensures { Stepped seat.old (publishing_event (store_own_next at)) QUEUE seat.new }
    {
        self.table
            .shared
            .store::<StoreOwnNext>(seat, FIRST + at as usize + BLOCK_NEXT, QUEUE);
    }

    pub(crate) fn load_tail(&self, seat: &mut Pass) -> u64
        requires { MayStep self.now seat.old (publishing_event load_tail) }
        ensures { Stepped seat.old (publishing_event load_tail) result seat.new }
    {
        self.table.shared.load::<LoadTail>(seat, FIRST + TAIL_WORD)
    }

    // The block at a word is to hold what is announced, and is linked after the tail if no other record is there.
    pub(crate) fn link(&self, seat: &mut Pass, tail: u64, at: u64, said: &Announcement) -> u64
        requires reach { MayReach self.now seat.old (tail + 5) }
        requires may { MayLink seat.old tail at said.now }
        ensures { HasLinked seat.old tail at said.now result seat.new }
    {
        self.table
            .shared
            .compare_exchange_with::<Link>(
                seat,
                FIRST + tail as usize + BLOCK_NEXT,
                QUEUE,
                at,
                said,
            )
    }

    pub(crate) fn move_tail(&self, seat: &mut Pass, old: u64, new: u64) -> u64
        requires { MayStep self.now seat.old (publishing_event (move_tail old new)) }
        ensures { Stepped seat.old (publishing_event (move_tail old new)) result seat.new }
    {
        self.table
            .shared
            .compare_exchange::<MoveTail>(seat, FIRST + TAIL_WORD, old, new)
    }
}
