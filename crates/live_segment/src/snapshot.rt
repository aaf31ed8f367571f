//! How a recorder takes a snapshot: it looks at all that is counted of a histogram, and notes what it saw.

mod buckets;
mod counts;
mod values;

ghost use Rattle.std.specs.Prelude.{◌≡◌, ℕ};
ghost use Rattle.live_segment.specs.Snapshot.Prelude.{Answer, Snapshot};

use crate::recorder::KnownHistogram;
use crate::rule::{Announcement, Pass};
use crate::segment::Segment;
use bucket_ranges::empty_buckets;
use segment_calls::Snapshot;
use std::alloc::{AllocError, Global};

// The snapshot that was announced as an answer.
fn snapshot_said(said: Announcement) -> Snapshot
    requires { (histogram : ℕ) × (snapshot : Snapshot) × (said ≡ Answer histogram snapshot) }
    ensures { (histogram : ℕ) (snapshot : Snapshot) → said ≡ Answer histogram snapshot → result ≡ snapshot }
{
    match said {
        Announcement::Answer {
            histogram: _,
            snapshot,
        } => snapshot,
        _ => unreachable!(),
    }
}

impl Segment {
    ghost use Rattle.std.specs.Prelude.{◌≤◌, length, IfOk, IfSome, MatchOption, ◌+◌, [], false, vec_capacity};
    ghost use Rattle.live_segment.specs.Snapshot.Prelude.{Actor, answered_as, answers, AreFewKeys, AreOwn, AreUnits, HasLookedAtAll, HasSnapshot, is_opener, IsAtRest, IsReadyFor, IsSame, known_view, KnowsAlone, KnowsRight, load_sum, MayNote, MayStep, NoRepeats, noted, opened_with, BeginsWithTotals, SamplesStandBehind, saw_sum, Setting, Sparse, Standing, table_of, taking_event};

    // The sum of a histogram, and its redundant count, which is loaded last. No sample that was visited comes before
    // the record of its histogram.
    fn look_at_sum(&self, seat: &mut Pass, histogram: u64) -> (i64, u64)
        requires may { MayStep self.now seat.old (taking_event (load_sum histogram)) }
        requires room { histogram + 15 ≤ self.now.setting.shape.size }
        ensures same { IsSame seat.old seat.new }
        ensures view { seat.new.me.0 ≡ saw_sum seat.old.me.0 histogram result.0 result.1 }
        ensures behind { SamplesStandBehind seat.old.me.0 }
        ensures once { NoRepeats seat.old.me.0.seen.chain }
    {
        let sum = self.load_sum(seat, histogram).cast_signed();
        let redundant = self.load_redundant(seat, histogram);
        (sum, redundant)
    }

    // What a snapshot of a histogram saw is its answer.
    fn answer_with(
        &self,
        seat: &mut Pass,
        histogram: &KnownHistogram,
        snapshot: Snapshot,
    ) -> Snapshot
        requires seat { (seat.old.table_id ≡ table_of self.now) × (is_opener seat.old.me.0.role ≡ false) }
        requires alone { KnowsAlone seat.old.me.0 (known_view histogram.now) }
        requires may { MayNote seat.old.me.0 (answers (answered_as seat.old.me.0 (known_view histogram.now) snapshot)) }
        ensures same { IsSame seat.old seat.new }
        ensures answer { result ≡ snapshot }
        ensures view { seat.new.me.0 ≡ noted seat.old.me.0 (answers (answered_as seat.old.me.0 (known_view histogram.now) snapshot)) }
        ensures stands { Standing (opened_with self.now) seat.new.id seat.new.me.0 }
    {
        let said = Announcement::Answer {
            histogram: histogram.reference,
            snapshot,
        };
        self.answer(seat, &said);
        self.stand(seat);
        snapshot_said(said)
    }

    // A snapshot that has looked at all buckets, or at all samples, loads the sum and the redundant count, and returns these with what
    // it listed.
    fn finish_snapshot(
        &self,
        seat: &mut Pass,
        histogram: &KnownHistogram,
        counts: Vec<(i32, u64)>,
    ) -> Snapshot
        requires table { seat.old.table_id ≡ table_of self.now }
        requires room { histogram.now.reference + 15 ≤ self.now.setting.shape.size }
        requires saw { (old : Actor) × IsAtRest old × KnowsAlone old (known_view histogram.now) × HasLookedAtAll (known_view histogram.now) old counts.items seat.old.me.0 }
        ensures same { IsSame seat.old seat.new }
        ensures counts { result.counts ≡ counts }
        ensures answer { (old : Actor) → KnowsAlone old (known_view histogram.now) → HasLookedAtAll (known_view histogram.now) old counts.items seat.old.me.0 → HasSnapshot (known_view histogram.now) old result seat.new.me.0 }
        ensures stands { Standing (opened_with self.now) seat.new.id seat.new.me.0 }
        ensures behind { SamplesStandBehind seat.old.me.0 }
        ensures once { NoRepeats seat.old.me.0.seen.chain }
    {
        let (sum, redundant) = self.look_at_sum(seat, histogram.reference);
        let snapshot = Snapshot {
            counts,
            sum,
            redundant,
        };
        self.answer_with(seat, histogram, snapshot)
    }

    // The totals with which a snapshot of a histogram begins. If an index has all samples of a sparse one, there is
    // room for these.
    pub(crate) fn opening_totals(
        &self,
        alloc: Global,
        histogram: &KnownHistogram,
        samples: Option<&[u64]>,
    ) -> Result<Vec<(i32, u64)>, AllocError>
        requires right { (setting : Setting) × (a : Actor) × KnowsRight setting a histogram.now }
        ensures { IfOk result (λ totals. MatchOption samples.entry (BeginsWithTotals self.now histogram.now totals) (λ own. (totals.items ≡ []) × (length own.now ≤ vec_capacity totals))) }
    {
        if samples.is_some() || histogram.ranges.len() == 0 {
            return Vec::with_capacity(alloc, self.most_keys(histogram, samples));
        }
        empty_buckets(alloc, &histogram.ranges)
    }

    // A snapshot of a histogram, with the totals with which it begins.
    pub(crate) fn take_snapshot(
        &self,
        seat: &mut Pass,
        histogram: &KnownHistogram,
        samples: Option<&[u64]>,
        totals: Vec<(i32, u64)>,
    ) -> Snapshot
        requires ready { IsReadyFor self.now histogram.now seat.old }
        requires own { IfSome samples (λ own. (histogram.now.spec ≡ Sparse) × AreOwn self.now.setting.shape.size seat.old.me.0.seen histogram.now.reference own.now) }
        requires totals { MatchOption samples (BeginsWithTotals self.now histogram.now totals) (λ own. (totals.items ≡ []) × (length own.now ≤ vec_capacity totals)) }
        ensures same { IsSame seat.old seat.new }
        ensures answer { HasSnapshot (known_view histogram.now) seat.old.me.0 result seat.new.me.0 }
        ensures stands { Standing (opened_with self.now) seat.new.id seat.new.me.0 }
        ensures units { histogram.now.spec ≡ Sparse → AreUnits result.counts.items }
        ensures few { AreFewKeys self.now (known_view histogram.now) result.counts.items }
    {
        if histogram.ranges.len() == 0 {
            self.snapshot_of_samples(seat, histogram, samples, totals)
        } else {
            self.snapshot_of_buckets(seat, histogram, totals)
        }
    }
}
