//! How a snapshot looks at what is counted in the samples of a sparse histogram: by a walk along the list, or by an
//! index that has them all.

use crate::recorder::KnownHistogram;
use crate::rule::Pass;
use crate::segment::Segment;
use segment_calls::{Snapshot, sort_by_key};
use segment_image::layout::QUEUE;

impl Segment {
    ghost use Rattle.std.specs.Prelude.{◌≡◌, ◌≤◌, ℕ, length, ◌-◌, ◌/◌, List, [], vec_capacity, IfSome, MatchOption};
    ghost use Rattle.live_segment.specs.Snapshot.Prelude.{AreFewKeys, AreOwn, AreUnits, ComesTo, HasSnapshot, IsReadyFor, IsSame, known_view, KnowsRight, ListsAlong, ListsIndexed, ListsThrough, LooksAtValues, OfSnapshot, opened_with, Sparse, Standing};
    ghost use Rattle.segment_image.specs.declared.layout.TheConstants.{QUEUE};

    // Lists the values of a sparse histogram that have units, from the first record after its own to the end of the
    // list, in their order there. There is room for as many as fit in a segment.
    fn look_at_values(
        &self,
        seat: &mut Pass,
        histogram: &KnownHistogram,
        first: u64,
        totals: &mut Vec<(i32, u64)>,
    )
        requires looks { LooksAtValues self.now (known_view histogram.now) seat.old }
        requires comes { ComesTo histogram.now.reference [] first seat.old.me.0 }
        requires room { (totals.old.items ≡ []) × ((self.now.setting.shape.size - 16) / 5 ≤ vec_capacity totals.old) }
        ensures { (passed : List ℕ) × ListsAlong OfSnapshot self.now (known_view histogram.now) passed QUEUE totals.new.items seat.old seat.new }
    {
        let mut at = first;
        while at != QUEUE {
            if let Some(total) = self.sample_at(seat, histogram, at) {
                totals.push_reserved(total);
            }
            at = self.load_next(seat, at);
        }
    }

    // Lists the values of a sparse histogram that have units, from its samples, which an index has, in their order
    // there. There is room for all of them.
    fn look_at_listed(
        &self,
        seat: &mut Pass,
        histogram: &KnownHistogram,
        samples: &[u64],
        totals: &mut Vec<(i32, u64)>,
    )
        requires looks { LooksAtValues self.now (known_view histogram.now) seat.old }
        requires right { KnowsRight self.now.setting seat.old.me.0 histogram.now }
        requires own { AreOwn self.now.setting.shape.size seat.old.me.0.seen histogram.now.reference samples.now }
        requires room { (totals.old.items ≡ []) × (length samples.now ≤ vec_capacity totals.old) }
        ensures { ListsIndexed OfSnapshot self.now (known_view histogram.now) samples.now totals.new.items seat.old seat.new }
    {
        for at in samples {
            if let Some(total) = self.sample_at(seat, histogram, *at) {
                totals.push_reserved(total);
            }
        }
    }

    // A snapshot of a sparse histogram begins and lists the values that have units: of the samples that an index has,
    // or else by a walk along the list. There is room for all of them, or for as many values as fit in a segment.
    fn look_at_samples(
        &self,
        seat: &mut Pass,
        histogram: &KnownHistogram,
        samples: Option<&[u64]>,
        totals: &mut Vec<(i32, u64)>,
    )
        requires ready { IsReadyFor self.now histogram.now seat.old }
        requires sparse { histogram.now.spec ≡ Sparse }
        requires own { IfSome samples (λ own. AreOwn self.now.setting.shape.size seat.old.me.0.seen histogram.now.reference own.now) }
        requires begins { totals.old.items ≡ [] }
        requires room { MatchOption samples ((self.now.setting.shape.size - 16) / 5 ≤ vec_capacity totals.old) (λ own. length own.now ≤ vec_capacity totals.old) }
        ensures { ListsThrough OfSnapshot self.now (known_view histogram.now) totals.new.items seat.old seat.new }
    {
        if let Some(own) = samples {
            self.look_type(seat, histogram.reference);
            self.look_at_listed(seat, histogram, own, totals);
        } else {
            let first = self.look_next(seat, histogram.reference);
            self.look_at_values(seat, histogram, first, totals);
        }
    }

    // What a sparse histogram has: the totals are empty, with room as for its samples.
    pub(crate) fn snapshot_of_samples(
        &self,
        seat: &mut Pass,
        histogram: &KnownHistogram,
        samples: Option<&[u64]>,
        mut totals: Vec<(i32, u64)>,
    ) -> Snapshot
        requires ready { IsReadyFor self.now histogram.now seat.old }
        requires sparse { histogram.now.spec ≡ Sparse }
        requires own { IfSome samples (λ own. AreOwn self.now.setting.shape.size seat.old.me.0.seen histogram.now.reference own.now) }
        requires begins { totals.items ≡ [] }
        requires room { MatchOption samples ((self.now.setting.shape.size - 16) / 5 ≤ vec_capacity totals) (λ own. length own.now ≤ vec_capacity totals) }
        ensures same { IsSame seat.old seat.new }
        ensures answer { HasSnapshot (known_view histogram.now) seat.old.me.0 result seat.new.me.0 }
        ensures stands { Standing (opened_with self.now) seat.new.id seat.new.me.0 }
        ensures units { AreUnits result.counts.items }
        ensures few { AreFewKeys self.now (known_view histogram.now) result.counts.items }
    {
        self.look_at_samples(seat, histogram, samples, &mut totals);
        sort_by_key(&mut totals);
        self.finish_snapshot(seat, histogram, totals)
    }
}
