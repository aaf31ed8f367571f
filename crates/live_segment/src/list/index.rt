//! What a recorder keeps of the records that it visited along the list, so that it need not walk there again.

ghost use Rattle.std.specs.Prelude.{◌≡◌, ◌+◌, ◌*◌, ◌<◌, ◌≤◌, ◌^◌, true, false, ℕ, [], length, MatchOption};
ghost use Rattle.live_segment.specs.List.Prelude.{HasSearched, Holds, is_grouping, MayTurn, Sample};
ghost use Rattle.list_index.specs.Firsts.{limit_of};
ghost use Rattle.segment_image.specs.declared.layout.TheConstants.{BLOCK_LEAST, HEADER_WORDS};

use crate::list::walk::WalkPlace;
use crate::rule::Pass;
use crate::segment::Segment;
use list_index::Firsts;
use segment_image::layout::QUEUE;
use std::alloc::Global;

/// Which records an index finds, and by what.
#[derive(Clone, Copy)]
pub(crate) enum KeyKind {
    /// The records of histograms, by their names.
    Name,
    /// The samples of sparse histograms, by histogram and value.
    Sample,
}

/// The first record of each key on the list, up to a place.
#[derive(Drop)]
pub(crate) struct RecordIndex {
    /// What the keys are.
    pub(crate) kind: KeyKind,
    /// Up to where it has passed the list.
    pub(crate) place: WalkPlace,
    /// The first record of each key; for samples, also all those of each histogram.
    pub(crate) firsts: Firsts,
}

// What an index begins with: an index of samples groups them by their histograms.
fn firsts_for(alloc: Global, kind: KeyKind) -> Firsts
    ensures holds { Holds [] result }
    ensures grouping { kind ≡ Sample → is_grouping result ≡ true }
{
    match kind {
        KeyKind::Name => Firsts::new(alloc),
        KeyKind::Sample => Firsts::with_groups(alloc),
    }
}

impl RecordIndex {
    ghost use Rattle.live_segment.specs.declared.list.index.KeyKind.{KeyKind};
    ghost use Rattle.live_segment.specs.List.Prelude.{Enters, IsIndexed, own_samples, Seen};

    // It has passed nothing.
    pub(crate) fn new(alloc: Global, kind: KeyKind) -> RecordIndex
        ensures { (size : ℕ) (seen : Seen) → IsIndexed kind size seen result }
    {
        RecordIndex {
            kind,
            place: WalkPlace::start(),
            firsts: firsts_for(alloc, kind),
        }
    }

    // Sets how many records with keys it may pass in all. What it has passed stays.
    pub(crate) fn set_limit(&mut self, records: usize)
        ensures still { (kind : KeyKind) (size : ℕ) (seen : Seen) → IsIndexed kind size seen self.old → IsIndexed kind size seen self.new }
        ensures limit { limit_of self.new.firsts ≡ records }
    {
        self.firsts.set_limit(records);
    }

    // Passes the record after its place. False if it could not grow: then its place is unchanged.
    fn enter(&mut self, at: u64, key: Option<u64>) -> bool
        requires { self.old.place.given + 1 < 2 ^ 64 }
        ensures { Enters at key self.old result self.new }
    {
        if let Some(key) = key {
            if !self.firsts.enter(key, at) {
                return false;
            }
        }
        self.place = WalkPlace {
            given: self.place.given + 1,
            at,
        };
        true
    }

    /// The samples of a histogram, if it has passed the whole list.
    pub(crate) fn own(&self, has_passed_all: bool, histogram: u64) -> Option<&[u64]>
        ensures { MatchOption result (has_passed_all ≡ false) (λ samples. (has_passed_all ≡ true) × (samples.now ≡ own_samples self.now histogram)) }
    {
        if has_passed_all {
            Some(self.firsts.all(histogram))
        } else {
            None
        }
    }
}

impl Segment {
    ghost use Rattle.live_segment.specs.List.Prelude.{IsIndexed, IsSame, WalksWith};

    // Walks along the list from the place of the index on, and enters what it visits: to the end of the list, or to
    // where the index could not grow. True if it came to the end.
    pub(crate) fn look_on(&self, seat: &mut Pass, index: &mut RecordIndex) -> bool
        requires walks { WalksWith index.old.kind self.now index.old seat.old }
        ensures same { IsSame seat.old seat.new }
        ensures view { HasSearched seat.old.me.0 seat.new.me.0 }
        ensures free { MayTurn seat.new.me.0 }
        ensures indexed { IsIndexed index.old.kind self.now.setting.shape.size seat.new.me.0.seen index.new }
        ensures ended { result ≡ true → index.new.place.given ≡ length seat.new.me.0.seen.chain }
        ensures few { result ≡ true → BLOCK_LEAST * length seat.new.me.0.seen.chain + HEADER_WORDS ≤ self.now.setting.shape.size }
    {
        let kind = index.kind;
        loop {
            let next = self.load_next(seat, index.place.at);
            if next == QUEUE {
                return true;
            }
            let key = self.key_at(seat, kind, next);
            if !index.enter(next, key) {
                return false;
            }
        }
    }

    // Looks further along the list if the index has no record of a key. True if it came to the end.
    pub(crate) fn look_for(&self, seat: &mut Pass, index: &mut RecordIndex, key: u64) -> bool
        requires walks { WalksWith index.old.kind self.now index.old seat.old }
        ensures same { IsSame seat.old seat.new }
        ensures view { HasSearched seat.old.me.0 seat.new.me.0 }
        ensures free { MayTurn seat.new.me.0 }
        ensures indexed { IsIndexed index.old.kind self.now.setting.shape.size seat.new.me.0.seen index.new }
        ensures ended { result ≡ true → index.new.place.given ≡ length seat.new.me.0.seen.chain }
    {
        if index.firsts.first(key).is_some() {
            return false;
        }
        self.look_on(seat, index)
    }
}
