//! A recorder that C holds. Its calls are those of [`OwnedRecorder`], which take a histogram by its place.

ghost use Rattle.std.specs.Arc.{arc_value};
ghost use Rattle.std.specs.Prelude.{◌≡◌, Err, IfOk};
ghost use Rattle.live_segment.specs.RecorderState.{Knows};
ghost use Rattle.povundiri_c.specs.Following.{FollowsReading};
ghost use Rattle.povundiri_c.specs.Mailbox.{BelongsTo, cursors_of};
ghost use Rattle.povundiri_c.specs.Merging.{MergesForCost};
ghost use Rattle.povundiri_c.specs.Recorders.{Adds, AtPlace, AtPlaceInRoom, Batches, Finds, FindsHist, Limits, Marks, refused_with, TakesDelta, TakesNext, TakesSnapshot, WalksAll};

use crate::following::{FollowAsked, followed};
use crate::mailbox::Mailbox;
use crate::merging::{MergeAsked, merged};
use crate::status::{DONE, LIST_ENDS, NO_CURSOR, NO_MEMORY, Refused, SHORT, UNKNOWN, of_refusal};
use core::mem::replace_with;
use image_reader::Reading;
use live_segment::{Delta, Hist, Refusal, Snapshot, Spec};
use owned_recorder::OwnedRecorder;
use segment_merge::{FollowFault, FollowReport, Follower, MergeReport};
use std::alloc::Global;
use std::sync::Arc;

/// A recorder, and what joining it takes: the mailbox of its segment.
#[derive(Drop)]
pub struct JoinableRecorder {
    pub(crate) owned: OwnedRecorder,
    pub(crate) mailbox: Arc<Mailbox, Global>,
    // How many its segment has.
    pub(crate) cursors: usize,
    ghost fits: { BelongsTo owned (arc_value mailbox).table.shared.key },
    ghost counted: { cursors ≡ cursors_of (arc_value mailbox).table.shared.key },
}

impl JoinableRecorder {
    /// The place of the histogram of a name.
    pub(crate) fn hist(&mut self, name: &[u8], spec: &Spec) -> Result<usize, u32>
        ensures kept { self.new.mailbox ≡ self.old.mailbox }
        ensures answer { FindsHist name.now spec.now self.old.owned result self.new.owned }
    {
        match self.owned.hist(name, spec) {
            Ok(histogram) => Ok(histogram.place()),
            Err(why) => Err(of_refusal(why)),
        }
    }

    /// Adds a sample to the histogram at a place.
    pub(crate) fn add(&mut self, place: usize, value: i32, count: u32) -> u32
        ensures kept { self.new.mailbox ≡ self.old.mailbox }
        ensures answer { AtPlace 8 (Adds value count) place self.old.owned result self.new.owned }
    {
        let Some(histogram) = self.owned.hist_at(place) else {
            return UNKNOWN;
        };
        match self.owned.add(histogram, value, count) {
            Ok(()) => DONE,
            Err(why) => of_refusal(why),
        }
    }

    /// Counts a batch. If it is refused, the status comes with how many items are counted all the same.
    pub(crate) fn batch(
        &mut self,
        place: usize,
        items: &[(i32, u32)],
        sum: i64,
    ) -> Result<(), Refused>
        ensures kept { self.new.mailbox ≡ self.old.mailbox }
        ensures answer { AtPlace (Err (refused_with 8)) (Batches items.now sum) place self.old.owned result self.new.owned }
    {
        let Some(histogram) = self.owned.hist_at(place) else {
            return Err(Refused::of(UNKNOWN));
        };
        match self.owned.batch(histogram, items, sum) {
            Ok(()) => Ok(()),
            Err(refusal) => Err(Refused {
                status: of_refusal(refusal.why),
                length: refusal.added,
            }),
        }
    }

    // The histogram at a place, if there is room for all of its keys.
    fn hist_within(&self, place: usize, room: usize) -> Result<Hist, Refused>
        ensures known { IfOk result (Knows self.now.owned.state) }
        ensures answer { AtPlaceInRoom place room Finds self.now.owned result self.now.owned }
    {
        let Some(histogram) = self.owned.hist_at(place) else {
            return Err(Refused::of(UNKNOWN));
        };
        let length = self.owned.most_keys(histogram);
        if room < length {
            return Err(Refused {
                status: SHORT,
                length,
            });
        }
        Ok(histogram)
    }

    /// A delta, if there is room for all keys of the histogram.
    pub(crate) fn delta(&mut self, place: usize, room: usize) -> Result<Delta, Refused>
        ensures kept { self.new.mailbox ≡ self.old.mailbox }
        ensures answer { AtPlaceInRoom place room TakesDelta self.old.owned result self.new.owned }
    {
        let histogram = self.hist_within(place, room)?;
        match self.owned.delta(histogram) {
            Ok(delta) => Ok(delta),
            Err(why) => Err(Refused::of(of_refusal(why))),
        }
    }

    /// A snapshot, if there is room for all keys of the histogram.
    pub(crate) fn snapshot(&mut self, place: usize, room: usize) -> Result<Snapshot, Refused>
        ensures kept { self.new.mailbox ≡ self.old.mailbox }
        ensures answer { AtPlaceInRoom place room TakesSnapshot self.old.owned result self.new.owned }
    {
        let histogram = self.hist_within(place, room)?;
        match self.owned.snapshot(histogram) {
            Ok(snapshot) => Ok(snapshot),
            Err(why) => Err(Refused::of(of_refusal(why))),
        }
    }

    /// Adds what no delta took of a reading, if it may spend so many units, which is what that costs.
    pub(crate) fn merge(
        &mut self,
        alloc: Global,
        reading: &Reading,
        cost: u64,
    ) -> Result<MergeReport, u32>
        ensures kept { self.new.mailbox ≡ self.old.mailbox }
        ensures answer { MergesForCost reading.now cost self.old.owned result self.new.owned }
    {
        if u64::from(self.owned.units()) < cost {
            return Err(of_refusal(Refusal::NoUnits));
        }
        let asked = MergeAsked { alloc, reading };
        match replace_with(&mut self.owned, asked, merged) {
            Ok(report) => Ok(report),
            Err(_) => Err(NO_MEMORY),
        }
    }

    /// Adds what came of a reading, and returns the follower.
    pub(crate) fn follow(
        &mut self,
        asked: FollowAsked,
    ) -> (Follower, Result<FollowReport, FollowFault>)
        ensures kept { self.new.mailbox ≡ self.old.mailbox }
        ensures answer { FollowsReading asked.reading asked.most asked.follower self.old.owned result.1 result.0 self.new.owned }
    {
        replace_with(&mut self.owned, asked, followed)
    }

    /// Marks the segment as corrupt.
    pub(crate) fn set_corrupt(&mut self) -> u32
        ensures kept { self.new.mailbox ≡ self.old.mailbox }
        ensures answer { Marks self.old.owned result self.new.owned }
    {
        self.owned.set_corrupt();
        DONE
    }

    /// Sets how many entries each of its indexes may have.
    pub(crate) fn limit_indexes(&mut self, entries: usize) -> u32
        ensures kept { self.new.mailbox ≡ self.old.mailbox }
        ensures answer { Limits entries self.old.owned result self.new.owned }
    {
        self.owned.limit_indexes(entries);
        DONE
    }

    /// The references of all records of the list.
    pub(crate) fn records(&mut self) -> Result<Vec<u64>, u32>
        ensures kept { self.new.mailbox ≡ self.old.mailbox }
        ensures answer { WalksAll self.old.owned result self.new.owned }
    {
        match self.owned.records() {
            Ok(records) => Ok(records),
            Err(why) => Err(of_refusal(why)),
        }
    }

    /// The next record of a shared cursor.
    #[tactic(auto, using(crate::proofs::Holding::has_cursor))]
    pub(crate) fn next_shared(&mut self, cursor: usize) -> Result<u64, u32>
        ensures kept { self.new.mailbox ≡ self.old.mailbox }
        ensures answer { TakesNext cursor self.old.owned result self.new.owned }
    {
        if cursor >= self.cursors {
            return Err(NO_CURSOR);
        }
        self.owned.next_shared(cursor).ok_or(LIST_ENDS)
    }
}
