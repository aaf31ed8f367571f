//! The steps that load the count of a sample of a sparse histogram, and the sum of a histogram.

ghost use Rattle.std.specs.Prelude.{◌+◌, ◌<◌, ◌≤◌};
ghost use Rattle.live_segment.specs.Steps.Prelude.{load_count, load_sum, LoadsCountOfSample, LoadsSum, NoRepeats, SamplesAreFew, taking_event};
ghost use Rattle.live_segment.specs.List.SampleRecords.{SamplesStandBehind};

use crate::rule::{Announcement, Pass};
use crate::segment::Segment;
use crate::steps::FIRST;
use atomic_table::Play;
use segment_image::layout::HISTOGRAM_SUM;
use segment_machine::Actor;

pub(crate) struct LoadCountOfSample;

impl Play<Announcement, Actor> for LoadCountOfSample {
    ghost then = { λ st. LoadsCountOfSample st.word };
}

pub(crate) struct LoadSum;

impl Play<Announcement, Actor> for LoadSum {
    ghost then = { λ st. LoadsSum st.word };
}

impl Segment {
    ghost use Rattle.live_segment.specs.Steps.Prelude.{MayStep, Stepped};

    // It also shows that the samples that were visited have room in the segment.
    pub(crate) fn load_count_of_sample(&self, seat: &mut Pass, at: u64) -> u64
        requires may { MayStep self.now seat.old (taking_event (load_count at)) }
        requires room { at < self.now.setting.shape.size }
        ensures step { Stepped seat.old (taking_event (load_count at)) result seat.new }
        ensures few { SamplesAreFew seat.old.me.0 }
    {
        self.table
            .shared
            .load::<LoadCountOfSample>(seat, FIRST + at as usize)
    }

    // It also shows that among the records that were visited no sample comes before the record of its histogram, and
    // none comes twice.
    pub(crate) fn load_sum(&self, seat: &mut Pass, histogram: u64) -> u64
        requires may { MayStep self.now seat.old (taking_event (load_sum histogram)) }
        requires room { histogram + 15 ≤ self.now.setting.shape.size }
        ensures step { Stepped seat.old (taking_event (load_sum histogram)) result seat.new }
        ensures behind { SamplesStandBehind seat.old.me.0 }
        ensures once { NoRepeats seat.old.me.0.seen.chain }
    {
        self.table
            .shared
            .load::<LoadSum>(seat, FIRST + histogram as usize + HISTOGRAM_SUM)
    }
}
