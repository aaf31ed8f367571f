//! The steps that claim a block, store into it, and set flags.

ghost use Rattle.std.specs.Prelude.{ℕ, ◌+◌, ◌≤◌};
ghost use Rattle.live_segment.specs.Steps.Prelude.{allocating_event, Does, DoesAt, exchange_free, load_flags, load_free, LoadsFlags, Raises, set_corrupt, set_full, SetsFull, store_cookie, store_size, store_type};

use crate::rule::{Announcement, Pass};
use crate::segment::Segment;
use crate::steps::FIRST;
use atomic_table::Play;
use segment_image::layout::{
    BLOCK_COOKIE, BLOCK_SIZE, BLOCK_TYPE, FLAG_CORRUPT, FLAG_FULL, FLAGS_WORD, FREE_WORD,
};
use segment_machine::Actor;

pub(crate) struct LoadFlags;

impl Play<Announcement, Actor> for LoadFlags {
    ghost then = { λ st. LoadsFlags };
}

pub(crate) struct LoadFree;

impl Play<Announcement, Actor> for LoadFree {
    ghost then = { λ st. Does (allocating_event load_free) };
}

pub(crate) struct ExchangeFree;

impl Play<Announcement, Actor> for ExchangeFree {
    ghost then = { Raises };
}

pub(crate) struct StoreSize;

impl Play<Announcement, Actor> for StoreSize {
    ghost then = { λ st. DoesAt (λ at. allocating_event (store_size at st.first)) st.word };
}

pub(crate) struct StoreCookie;

impl Play<Announcement, Actor> for StoreCookie {
    ghost then = { λ st. DoesAt (λ at. allocating_event (store_cookie at st.first)) st.word };
}

pub(crate) struct StoreType;

impl Play<Announcement, Actor> for StoreType {
    ghost then = { λ st. DoesAt (λ at. allocating_event (store_type at st.first)) st.word };
}

pub(crate) struct SetCorrupt;

impl Play<Announcement, Actor> for SetCorrupt {
    ghost then = { λ st. Does (allocating_event set_corrupt) };
}

pub(crate) struct SetFull;

impl Play<Announcement, Actor> for SetFull {
    ghost then = { λ st. SetsFull };
}

impl Segment {
    ghost use Rattle.std.specs.Prelude.{[]};
    ghost use Rattle.live_segment.specs.Steps.Prelude.{flags_notes, MayGiveUp, MayStep, Noted, refusing_notes, Stepped};

    // A call that counts is refused if the corrupt flag is among them.
    pub(crate) fn load_flags(&self, seat: &mut Pass) -> u64
        requires may { MayStep self.now seat.old (allocating_event load_flags) }
        requires closes { MayGiveUp seat.old.me.0 }
        ensures { Noted seat.old [] (allocating_event load_flags) (flags_notes seat.old.me.0.entries.running result) result seat.new }
    {
        self.table
            .shared
            .load::<LoadFlags>(seat, FIRST + FLAGS_WORD)
    }

    pub(crate) fn load_free(&self, seat: &mut Pass) -> u64
        requires { MayStep self.now seat.old (allocating_event load_free) }
        ensures { Stepped seat.old (allocating_event load_free) result seat.new }
    {
        self.table.shared.load::<LoadFree>(seat, FIRST + FREE_WORD)
    }

    // The block that is claimed needs `words` words.
    pub(crate) fn exchange_free(&self, seat: &mut Pass, old: u64, new: u64, words: u64) -> u64
        requires { MayStep self.now seat.old (allocating_event (exchange_free old new words)) }
        ensures { Stepped seat.old (allocating_event (exchange_free old new words)) result seat.new }
    {
        let said = Announcement::Wanted(words);
        self.table
            .shared
            .compare_exchange_with::<ExchangeFree>(seat, FIRST + FREE_WORD, old, new, &said)
    }

    pub(crate) fn store_size(&self, seat: &mut Pass, at: u64, size: u64)
        requires may { MayStep self.now seat.old (allocating_event (store_size at size)) }
        requires room { at + 5 ≤ self.now.setting.shape.size }
        ensures { Stepped seat.old (allocating_event (store_size at size)) size seat.new }
    {
        self.table
            .shared
            .store::<StoreSize>(seat, FIRST + at as usize + BLOCK_SIZE, size);
    }

    pub(crate) fn store_cookie(&self, seat: &mut Pass, at: u64, cookie: u64)
        requires may { MayStep self.now seat.old (allocating_event (store_cookie at cookie)) }
        requires room { at + 5 ≤ self.now.setting.shape.size }
        ensures { Stepped seat.old (allocating_event (store_cookie at cookie)) cookie seat.new }
    {
        self.table
            .shared
            .store::<StoreCookie>(seat, FIRST + at as usize + BLOCK_COOKIE, cookie);
    }

    pub(crate) fn store_type(&self, seat: &mut Pass, at: u64, tag: u64)
        requires may { MayStep self.now seat.old (allocating_event (store_type at tag)) }
        requires room { at + 5 ≤ self.now.setting.shape.size }
        ensures { Stepped seat.old (allocating_event (store_type at tag)) tag seat.new }
    {
        self.table
            .shared
            .store::<StoreType>(seat, FIRST + at as usize + BLOCK_TYPE, tag);
    }

    pub(crate) fn set_corrupt(&self, seat: &mut Pass) -> u64
        requires { MayStep self.now seat.old (allocating_event set_corrupt) }
        ensures { Stepped seat.old (allocating_event set_corrupt) result seat.new }
    {
        self.table
            .shared
            .fetch_or::<SetCorrupt>(seat, FIRST + FLAGS_WORD, FLAG_CORRUPT)
    }

    // Sets the full flag, since too many words are needed; a call that counts is refused.
    pub(crate) fn set_full(&self, seat: &mut Pass) -> u64
        requires may { (wanted : ℕ) × MayStep self.now seat.old (allocating_event (set_full wanted)) }
        requires closes { MayGiveUp seat.old.me.0 }
        ensures { Noted seat.old [] (allocating_event (set_full 0)) (refusing_notes seat.old.me.0.entries.running) result seat.new }
    {
        self.table
            .shared
            .fetch_or::<SetFull>(seat, FIRST + FLAGS_WORD, FLAG_FULL)
    }
}
