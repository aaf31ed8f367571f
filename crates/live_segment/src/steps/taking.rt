//! The steps that take: how a delta and a snapshot begin and end, counts and marks, the sum and its mark, and the redundant count.

ghost use Rattle.std.specs.Prelude.{◌≡◌, ◌+◌, ◌<◌, ◌≤◌, ℕ};
ghost use Rattle.live_segment.specs.Steps.Prelude.{NotesAnswer, IsFirstOfDelta, IsFirstOfSnapshot, DoesAt, EndsDelta, load_count, load_next, load_published, load_redundant, load_single, packing_event, raise_mark, raise_single_mark, swap_sum_mark, taking_event, walking_event};
ghost use Rattle.segment_image.specs.declared.layout.TheConstants.{BLOCK_NEXT, BLOCK_TYPE, HISTOGRAM_SINGLE};

use crate::rule::{Announcement, Pass};
use crate::segment::Segment;
use crate::steps::FIRST;
use atomic_table::Play;
use segment_image::layout::{
    BLOCK_NEXT, BLOCK_TYPE, HISTOGRAM_REDUNDANT, HISTOGRAM_SINGLE, HISTOGRAM_SINGLE_MARK,
    HISTOGRAM_SUM_MARK,
};
use segment_machine::Actor;

pub(crate) struct TakeSingle;

impl Play<Announcement, Actor> for TakeSingle {
    ghost then = { λ st. IsFirstOfDelta HISTOGRAM_SINGLE (λ histogram. packing_event (load_single histogram)) st.word };
}

pub(crate) struct TakeNext;

impl Play<Announcement, Actor> for TakeNext {
    ghost then = { λ st. IsFirstOfDelta BLOCK_NEXT (λ histogram. walking_event (load_next histogram)) st.word };
}

pub(crate) struct TakeType;

impl Play<Announcement, Actor> for TakeType {
    ghost then = { λ st. IsFirstOfDelta BLOCK_TYPE (λ histogram. walking_event (load_published histogram BLOCK_TYPE)) st.word };
}

pub(crate) struct LookSingle;

impl Play<Announcement, Actor> for LookSingle {
    ghost then = { λ st. IsFirstOfSnapshot HISTOGRAM_SINGLE (λ histogram. packing_event (load_single histogram)) st.word };
}

pub(crate) struct LookNext;

impl Play<Announcement, Actor> for LookNext {
    ghost then = { λ st. IsFirstOfSnapshot BLOCK_NEXT (λ histogram. walking_event (load_next histogram)) st.word };
}

pub(crate) struct LookType;

impl Play<Announcement, Actor> for LookType {
    ghost then = { λ st. IsFirstOfSnapshot BLOCK_TYPE (λ histogram. walking_event (load_published histogram BLOCK_TYPE)) st.word };
}

pub(crate) struct LoadCount;

impl Play<Announcement, Actor> for LoadCount {
    ghost then = { λ st. DoesAt (λ at. taking_event (load_count at)) st.word };
}

pub(crate) struct RaiseMark;

impl Play<Announcement, Actor> for RaiseMark {
    ghost then = { λ st. DoesAt (λ at. taking_event (raise_mark at st.first)) st.word };
}

pub(crate) struct RaiseSingleMark;

impl Play<Announcement, Actor> for RaiseSingleMark {
    ghost then = { λ st. DoesAt (λ histogram. taking_event (raise_single_mark histogram st.first)) st.word };
}

pub(crate) struct SwapSumMark;

impl Play<Announcement, Actor> for SwapSumMark {
    ghost then = { λ st. EndsDelta st.word st.first };
}

pub(crate) struct LoadRedundant;

impl Play<Announcement, Actor> for LoadRedundant {
    ghost then = { λ st. DoesAt (λ histogram. taking_event (load_redundant histogram)) st.word };
}

pub(crate) struct Answering;

impl Play<Announcement, Actor> for Answering {
    ghost then = { NotesAnswer };
}

impl Segment {
    ghost use Rattle.std.specs.Prelude.{[], ◌∷◌};
    ghost use Rattle.live_segment.specs.Steps.Prelude.{has_taken, HasAnswered, HasBegunDelta, looks, MayAnswer, MayBeginDelta, MayDo, MayReach, MayStep, Noted, Stepped, table_of};

    // A delta of a histogram with buckets begins: its single word is loaded.
    pub(crate) fn take_single(&self, seat: &mut Pass, histogram: u64) -> u64
        requires reach { MayReach self.now seat.old (histogram + 15) }
        requires may { MayBeginDelta seat.old histogram (λ at. packing_event (load_single at)) }
        ensures { HasBegunDelta seat.old histogram (λ at. packing_event (load_single at)) result seat.new }
    {
        self.table
            .shared
            .load::<TakeSingle>(seat, FIRST + histogram as usize + HISTOGRAM_SINGLE)
    }

    // A delta of a sparse histogram begins: the next of its record is loaded.
    pub(crate) fn take_next(&self, seat: &mut Pass, histogram: u64) -> u64
        requires reach { MayReach self.now seat.old (histogram + 15) }
        requires may { MayBeginDelta seat.old histogram (λ at. walking_event (load_next at)) }
        ensures { HasBegunDelta seat.old histogram (λ at. walking_event (load_next at)) result seat.new }
    {
        self.table
            .shared
            .load::<TakeNext>(seat, FIRST + histogram as usize + BLOCK_NEXT)
    }

    // A delta of a sparse histogram whose samples were all visited begins: the type of its record is loaded, which
    // shows nothing new. So no more of the list is seen.
    pub(crate) fn take_type(&self, seat: &mut Pass, histogram: u64)
        requires reach { MayReach self.now seat.old (histogram + 15) }
        requires may { MayBeginDelta seat.old histogram (λ at. walking_event (load_published at BLOCK_TYPE)) }
        ensures { (found : ℕ) × HasBegunDelta seat.old histogram (λ at. walking_event (load_published at BLOCK_TYPE)) found seat.new }
    {
        self.table
            .shared
            .load::<TakeType>(seat, FIRST + histogram as usize + BLOCK_TYPE);
    }

    // The same for a snapshot.
    pub(crate) fn look_type(&self, seat: &mut Pass, histogram: u64)
        requires reach { MayReach self.now seat.old (histogram + 15) }
        requires may { MayDo seat.old (looks ∷ []) (walking_event (load_published histogram BLOCK_TYPE)) [] }
        ensures { (found : ℕ) × Noted seat.old (looks ∷ []) (walking_event (load_published histogram BLOCK_TYPE)) [] found seat.new }
    {
        self.table
            .shared
            .load::<LookType>(seat, FIRST + histogram as usize + BLOCK_TYPE);
    }

    // A snapshot begins as a delta does.
    pub(crate) fn look_single(&self, seat: &mut Pass, histogram: u64) -> u64
        requires reach { MayReach self.now seat.old (histogram + 15) }
        requires may { MayDo seat.old (looks ∷ []) (packing_event (load_single histogram)) [] }
        ensures { Noted seat.old (looks ∷ []) (packing_event (load_single histogram)) [] result seat.new }
    {
        self.table
            .shared
            .load::<LookSingle>(seat, FIRST + histogram as usize + HISTOGRAM_SINGLE)
    }

    pub(crate) fn look_next(&self, seat: &mut Pass, histogram: u64) -> u64
        requires reach { MayReach self.now seat.old (histogram + 15) }
        requires may { MayDo seat.old (looks ∷ []) (walking_event (load_next histogram)) [] }
        ensures { Noted seat.old (looks ∷ []) (walking_event (load_next histogram)) [] result seat.new }
    {
        self.table
            .shared
            .load::<LookNext>(seat, FIRST + histogram as usize + BLOCK_NEXT)
    }

    // The count of a bucket or of a sample.
    pub(crate) fn load_count(&self, seat: &mut Pass, at: u64) -> u64
        requires may { MayStep self.now seat.old (taking_event (load_count at)) }
        requires room { at < self.now.setting.shape.size }
        ensures { Stepped seat.old (taking_event (load_count at)) result seat.new }
    {
        self.table
            .shared
            .load::<LoadCount>(seat, FIRST + at as usize)
    }

    // The mark of a bucket or of a sample becomes the count that was loaded, if that is more.
    pub(crate) fn raise_mark(&self, seat: &mut Pass, at: u64, least: u64) -> u64
        requires may { MayStep self.now seat.old (taking_event (raise_mark at least)) }
        requires room { at < self.now.setting.shape.size }
        ensures { Stepped seat.old (taking_event (raise_mark at least)) result seat.new }
    {
        self.table
            .shared
            .fetch_max::<RaiseMark>(seat, FIRST + at as usize, least)
    }

    // The mark of the packed bucket becomes a total of it, if that is more.
    pub(crate) fn raise_single_mark(&self, seat: &mut Pass, histogram: u64, least: u64) -> u64
        requires may { MayStep self.now seat.old (taking_event (raise_single_mark histogram least)) }
        requires room { histogram + 15 ≤ self.now.setting.shape.size }
        ensures { Stepped seat.old (taking_event (raise_single_mark histogram least)) result seat.new }
    {
        self.table.shared.fetch_max::<RaiseSingleMark>(
            seat,
            FIRST + histogram as usize + HISTOGRAM_SINGLE_MARK,
            least,
        )
    }

    // The sum that was loaded becomes the sum mark, and the delta ends.
    pub(crate) fn swap_sum_mark(&self, seat: &mut Pass, histogram: u64, sum: i64) -> u64
        requires reach { MayReach self.now seat.old (histogram + 15) }
        requires may { MayDo seat.old [] (taking_event (swap_sum_mark histogram sum)) (has_taken ∷ []) }
        ensures { Noted seat.old [] (taking_event (swap_sum_mark histogram sum)) (has_taken ∷ []) result seat.new }
    {
        self.table.shared.swap::<SwapSumMark>(
            seat,
            FIRST + histogram as usize + HISTOGRAM_SUM_MARK,
            sum.cast_unsigned(),
        )
    }

    pub(crate) fn load_redundant(&self, seat: &mut Pass, histogram: u64) -> u64
        requires may { MayStep self.now seat.old (taking_event (load_redundant histogram)) }
        requires room { histogram + 15 ≤ self.now.setting.shape.size }
        ensures { Stepped seat.old (taking_event (load_redundant histogram)) result seat.new }
    {
        self.table
            .shared
            .load::<LoadRedundant>(seat, FIRST + histogram as usize + HISTOGRAM_REDUNDANT)
    }
    // What a snapshot saw is announced as its answer, and the snapshot ends.
    pub(crate) fn answer(&self, seat: &mut Pass, said: &Announcement)
        requires table { seat.old.table_id ≡ table_of self.now }
        requires may { MayAnswer seat.old said.now }
        ensures { HasAnswered seat.old said.now seat.new }
    {
        self.table
            .shared
            .compare_exchange_with::<Answering>(seat, 0, 0, 0, said);
    }
}
