//! How a recorder looks for the first record of a name: by its index, and from there on along the list.

ghost use Rattle.std.specs.Prelude.{◌≡◌, ◌<◌, ◌^◌, ℕ, Some};
ghost use Rattle.live_segment.specs.Hist.Prelude.{All, Dimensions, first_of, FoundEnd, HasSearched, IsAsked, IsNameKey, key_of, Searches, SearchesAt};

use crate::list::index::RecordIndex;
use crate::rule::Pass;
use crate::segment::Segment;
use list_index::next_key;
use segment_calls::Asked;
use segment_image::layout::{BLOCK_HEADER, HISTOGRAM_NAME, QUEUE};

// How a search ended.
pub(crate) enum Search {
    // At the first record of the name, which has the spec too.
    Met(u64),
    // At the first record of the name, which has another spec.
    OtherSpec,
    // At the end of the list, after this block: no record has the name.
    End(u64),
}

// The key of words.
fn key_of_words(words: &[u64]) -> u64
    ensures key { result ≡ key_of words.now }
    ensures small { All (λ word. word < 2 ^ 64) words.now }
{
    let mut key = 0;
    for word in words {
        key = next_key(key, *word);
    }
    key
}

// The key of the name that is asked for.
fn key_of_name(asked: &Asked) -> u64
    requires { (shape : Dimensions) × IsAsked shape asked.now }
    ensures { IsNameKey asked.now.name.items result }
{
    let first = HISTOGRAM_NAME - BLOCK_HEADER;
    key_of_words(&asked.payload[first..first + asked.letters])
}

impl Segment {
    ghost use Rattle.live_segment.specs.Hist.Prelude.{IsIndexed, IsSame, IsSeated, Name, WalksWith};

    // Continues a walk along the list from a block, up to the first record of the name that is asked for.
    pub(crate) fn find(&self, seat: &mut Pass, from: u64, asked: &Asked) -> Search
        requires seat { IsSeated self.now seat.old }
        requires asked { IsAsked self.now.setting.shape asked.now }
        requires walks { SearchesAt asked.now.name.items from seat.old.me.0 }
        ensures same { IsSame seat.old seat.new }
        ensures view { HasSearched seat.old.me.0 seat.new.me.0 }
        ensures outcome { Searches asked.now result seat.new.me.0 }
        ensures ended { FoundEnd result seat.old.me.0.seen seat.new.me.0.seen }
    {
        let mut at = from;
        loop {
            let next = self.load_next(seat, at);
            if next == QUEUE {
                return Search::End(at);
            }
            if self.shows_name(seat, next, asked) {
                return if self.shows_spec(seat, next, asked) {
                    Search::Met(next)
                } else {
                    Search::OtherSpec
                };
            }
            at = next;
        }
    }

    // The first record of the name that is asked for, by a walk from the first record with the same key on.
    fn search_at(&self, seat: &mut Pass, index: &RecordIndex, at: u64, asked: &Asked) -> Search
        requires walks { WalksWith Name self.now index.now seat.old }
        requires asked { IsAsked self.now.setting.shape asked.now }
        requires first { (key : ℕ) × IsNameKey asked.now.name.items key × (first_of index.now.firsts key ≡ Some at) }
        ensures same { IsSame seat.old seat.new }
        ensures view { HasSearched seat.old.me.0 seat.new.me.0 }
        ensures outcome { Searches asked.now result seat.new.me.0 }
        ensures ended { FoundEnd result seat.old.me.0.seen seat.new.me.0.seen }
    {
        if !self.shows_name(seat, at, asked) {
            return self.find(seat, QUEUE, asked);
        }
        if self.shows_spec(seat, at, asked) {
            Search::Met(at)
        } else {
            Search::OtherSpec
        }
    }

    // The first record of the name that is asked for: found by the index, or by a walk from its place on.
    pub(crate) fn search(&self, seat: &mut Pass, index: &mut RecordIndex, asked: &Asked) -> Search
        requires walks { WalksWith Name self.now index.old seat.old }
        requires asked { IsAsked self.now.setting.shape asked.now }
        ensures same { IsSame seat.old seat.new }
        ensures view { HasSearched seat.old.me.0 seat.new.me.0 }
        ensures outcome { Searches asked.now result seat.new.me.0 }
        ensures ended { FoundEnd result seat.old.me.0.seen seat.new.me.0.seen }
        ensures indexed { IsIndexed Name self.now.setting.shape.size seat.new.me.0.seen index.new }
    {
        let key = key_of_name(asked);
        self.look_for(seat, index, key);
        match index.firsts.first(key) {
            None => self.find(seat, index.place.at, asked),
            Some(at) => self.search_at(seat, index, at, asked),
        }
    }
}
