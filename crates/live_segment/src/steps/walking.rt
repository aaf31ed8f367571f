//! The steps that walk along the list: the next of a block, and a word of a published record that never changes.

ghost use Rattle.std.specs.Prelude.{◌≡◌, ◌+◌, ◌<◌, ◌≤◌};
ghost use Rattle.live_segment.specs.Steps.Prelude.{load_next, load_published, LoadsNext, LoadsPublished, LoadsType, walking_event};
ghost use Rattle.segment_image.specs.declared.layout.TheConstants.{BLOCK_TYPE};

use crate::rule::{Announcement, Pass};
use crate::segment::Segment;
use crate::steps::FIRST;
use crate::steps::standing::Stance;
use atomic_table::Play;
use segment_image::layout::{BLOCK_NEXT, BLOCK_TYPE};
use segment_machine::Actor;
use std::marker::{Brand, PhantomData};

pub(crate) struct LoadNext<S> {
    of: PhantomData<S>,
}

impl<S: Stance> Play<Announcement, Actor> for LoadNext<S> {
    ghost then = { λ st. LoadsNext S.opening S.number st.word };
}

pub(crate) struct LoadType;

impl Play<Announcement, Actor> for LoadType {
    ghost then = { λ st. LoadsType st.word };
}

pub(crate) struct LoadPublished;

impl Play<Announcement, Actor> for LoadPublished {
    ghost then = { λ st. LoadsPublished st.word };
}

impl Segment {
    ghost use Rattle.std.specs.Prelude.{Some};
    ghost use Rattle.live_segment.specs.Steps.Prelude.{KnowsOwnNames, KnowsOwnSamples, MayStep, NoRepeats, opened_with, SeesNext, Stepped};
    ghost use Rattle.segment_promises.specs.Calls.{SamplesStandBehind};

    fn load_next_as<S: Stance>(&self, seat: &mut Pass, at: u64) -> u64
        requires may { MayStep self.now seat.old (walking_event (load_next at)) }
        requires room { at + 5 ≤ self.now.setting.shape.size }
        requires stance { (S.opening ≡ Some (opened_with self.now)) × (S.number ≡ seat.old.id) }
        ensures step { Stepped seat.old (walking_event (load_next at)) result seat.new }
        ensures once { NoRepeats seat.old.me.0.seen.chain }
        ensures own { KnowsOwnNames seat.old.me.0 }
        ensures samples { KnowsOwnSamples seat.old.me.0 }
        ensures sees { SeesNext (opened_with self.now) seat.new.id at result seat.new.me.0 }
    {
        self.table
            .shared
            .load::<LoadNext<S>>(seat, FIRST + at as usize + BLOCK_NEXT)
    }

    // The next of a block, in a state of the segment.
    pub(crate) fn load_next(&self, seat: &mut Pass, at: u64) -> u64
        requires may { MayStep self.now seat.old (walking_event (load_next at)) }
        requires room { at + 5 ≤ self.now.setting.shape.size }
        ensures step { Stepped seat.old (walking_event (load_next at)) result seat.new }
        ensures once { NoRepeats seat.old.me.0.seen.chain }
        ensures own { KnowsOwnNames seat.old.me.0 }
        ensures samples { KnowsOwnSamples seat.old.me.0 }
        ensures sees { SeesNext (opened_with self.now) seat.new.id at result seat.new.me.0 }
    {
        self.load_next_as::<Brand>(seat, at)
    }

    // The type of a record that was visited. It also shows that among the records that were visited no sample comes
    // before the record of its histogram, and none comes twice.
    pub(crate) fn load_type(&self, seat: &mut Pass, at: u64) -> u64
        requires may { MayStep self.now seat.old (walking_event (load_published at BLOCK_TYPE)) }
        requires room { at + BLOCK_TYPE < self.now.setting.shape.size }
        ensures step { Stepped seat.old (walking_event (load_published at BLOCK_TYPE)) result seat.new }
        ensures behind { SamplesStandBehind seat.old.me.0 }
        ensures once { NoRepeats seat.old.me.0.seen.chain }
    {
        self.table
            .shared
            .load::<LoadType>(seat, FIRST + at as usize + BLOCK_TYPE)
    }

    pub(crate) fn load_published(&self, seat: &mut Pass, at: u64, index: usize) -> u64
        requires may { MayStep self.now seat.old (walking_event (load_published at index)) }
        requires room { at + index < self.now.setting.shape.size }
        ensures { Stepped seat.old (walking_event (load_published at index)) result seat.new }
    {
        self.table
            .shared
            .load::<LoadPublished>(seat, FIRST + at as usize + index)
    }
}
