//! The steps that pack units and make room for more: the single word, the counts reference, a lost block, and units on
//! their way.

ghost use Rattle.std.specs.Prelude.{◌≡◌, ◌+◌, ◌<◌, ◌≤◌};
ghost use Rattle.live_segment.specs.Steps.Prelude.{add_moved, AddsMoved, disable, DoesAt, load_single, mount_counts, off_word, packing_event, Packs, purge_block};

use crate::rule::{Announcement, Pass};
use crate::segment::Segment;
use crate::steps::FIRST;
use atomic_table::Play;
use segment_image::layout::{BLOCK_TYPE, HISTOGRAM_COUNTS, HISTOGRAM_SINGLE, TYPE_PURGED};
use segment_machine::Actor;

pub(crate) struct LoadSingle;

impl Play<Announcement, Actor> for LoadSingle {
    ghost then = { λ st. DoesAt (λ histogram. packing_event (load_single histogram)) st.word };
}

pub(crate) struct Pack;

impl Play<Announcement, Actor> for Pack {
    ghost then = { λ st. Packs st.word st.first st.second };
}

pub(crate) struct MountCounts;

impl Play<Announcement, Actor> for MountCounts {
    ghost then = { λ st. DoesAt (λ histogram. packing_event (mount_counts histogram st.second)) st.word };
}

pub(crate) struct PurgeBlock;

impl Play<Announcement, Actor> for PurgeBlock {
    ghost then = { λ st. DoesAt (λ at. packing_event (purge_block at)) st.word };
}

pub(crate) struct Disable;

impl Play<Announcement, Actor> for Disable {
    ghost then = { λ st. DoesAt (λ histogram. packing_event (disable histogram st.first)) st.word };
}

pub(crate) struct AddMoved;

impl Play<Announcement, Actor> for AddMoved {
    ghost then = { λ st. AddsMoved st.first };
}

impl Segment {
    ghost use Rattle.live_segment.specs.Steps.Prelude.{HasPacked, MayPack, MayReach, MayStep, Stepped};

    pub(crate) fn load_single(&self, seat: &mut Pass, histogram: u64) -> u64
        requires may { MayStep self.now seat.old (packing_event (load_single histogram)) }
        requires room { histogram + 15 ≤ self.now.setting.shape.size }
        ensures { Stepped seat.old (packing_event (load_single histogram)) result seat.new }
    {
        self.table
            .shared
            .load::<LoadSingle>(seat, FIRST + histogram as usize + HISTOGRAM_SINGLE)
    }

    pub(crate) fn pack(&self, seat: &mut Pass, histogram: u64, old: u64, new: u64) -> u64
        requires reach { MayReach self.now seat.old (histogram + 15) }
        requires may { MayPack seat.old histogram old new }
        ensures { HasPacked seat.old histogram old new result seat.new }
    {
        self.table.shared.compare_exchange::<Pack>(
            seat,
            FIRST + histogram as usize + HISTOGRAM_SINGLE,
            old,
            new,
        )
    }

    // A counts block of its own becomes the histogram's, if that has none.
    pub(crate) fn mount_counts(&self, seat: &mut Pass, histogram: u64, at: u64) -> u64
        requires may { MayStep self.now seat.old (packing_event (mount_counts histogram at)) }
        requires room { histogram + 15 ≤ self.now.setting.shape.size }
        ensures { Stepped seat.old (packing_event (mount_counts histogram at)) result seat.new }
    {
        self.table
            .shared
            .compare_exchange::<MountCounts>(
                seat,
                FIRST + histogram as usize + HISTOGRAM_COUNTS,
                0,
                at,
            )
    }

    pub(crate) fn purge_block(&self, seat: &mut Pass, at: u64)
        requires may { MayStep self.now seat.old (packing_event (purge_block at)) }
        requires room { at + 5 ≤ self.now.setting.shape.size }
        ensures { Stepped seat.old (packing_event (purge_block at)) TYPE_PURGED seat.new }
    {
        self.table
            .shared
            .store::<PurgeBlock>(seat, FIRST + at as usize + BLOCK_TYPE, TYPE_PURGED);
    }

    // The single word is disabled, or frozen: `off` is the word for that.
    pub(crate) fn disable(&self, seat: &mut Pass, histogram: u64, old: u64, off: u64) -> u64
        requires may { MayStep self.now seat.old (packing_event (disable histogram old)) }
        requires room { histogram + 15 ≤ self.now.setting.shape.size }
        requires off { off ≡ off_word self.now.setting.version old }
        ensures { Stepped seat.old (packing_event (disable histogram old)) result seat.new }
    {
        self.table.shared.compare_exchange::<Disable>(
            seat,
            FIRST + histogram as usize + HISTOGRAM_SINGLE,
            old,
            off,
        )
    }

    // Units of a bucket that were in transit are added to its count.
    pub(crate) fn add_moved(&self, seat: &mut Pass, counts: u64, bucket: u64, units: u64) -> u64
        requires may { MayStep self.now seat.old (packing_event (add_moved counts bucket units)) }
        requires room { counts + 4 + bucket < self.now.setting.shape.size }
        ensures { Stepped seat.old (packing_event (add_moved counts bucket units)) result seat.new }
    {
        self.table
            .shared
            .fetch_add::<AddMoved>(seat, FIRST + (counts + 4 + bucket) as usize, units)
    }
}
