//! What came of a segment since an earlier reading of it is added to a live one.

use crate::costs::{above_all, units_of_all};
use crate::follow_fault::FollowFault;
use crate::following::{FollowReport, FollowStep, follow_all, report_for, steps_of};
use crate::marked::marked;
use crate::took::taken_of;
use image_reader::{HistReading, Reading};
use live_segment::Recorder;
use std::alloc::{AllocError, Global};

/// What was merged of one segment so far, by readings of it while it runs.
#[derive(Drop)]
pub struct Follower {
    alloc: Global,
    // The id of the segment, once a reading was followed.
    id: Option<u64>,
    // What is noted, by names: the units of each key and the sum.
    noted: Vec<HistReading>,
}

// What a merge needs, made before anything changes.
#[derive(Drop)]
struct Prepared {
    steps: Vec<FollowStep>,
    report: FollowReport,
    noted: Vec<HistReading>,
}

impl Follower {
    ghost use Rattle.std.specs.Prelude.{◌≡◌, [], None, Some, IfOk, IsPermutation, MatchResult, map};
    ghost use Rattle.image_reader.specs.Views.{histogram_view, reading_view};
    ghost use Rattle.live_segment.specs.Holders.{view_of_recorder};
    ghost use Rattle.live_segment.specs.RecorderState.{KnowsOn};
    ghost use Rattle.segment_merge.specs.Follow.{IsFollowed};
    ghost use Rattle.segment_merge.specs.Noted.{AreNotesInOrder, HasAll, HaveNotes, IsReadingInOrder};
    ghost use Rattle.segment_merge.specs.Taken.{taken};
    ghost use Rattle.segment_merge.specs.Follower.{IsNotFollowedFor, IsNotSkippedFor, IsOfSegment, IsPrepared, IsSkipped, followed_id, noted_of};

    /// Returns a follower that has followed nothing: nothing is noted [none], which is in order [order], and the first
    /// reading may be of any segment [any].
    pub fn new(alloc: Global) -> Follower
        ensures none { noted_of result ≡ [] }
        ensures any { followed_id result ≡ None }
        ensures order { AreNotesInOrder (noted_of result) }
    {
        Follower {
            alloc,
            id: None,
            noted: Vec::new(alloc),
        }
    }

    /// Returns a follower of a reading's segment that has noted what deltas took there: of each histogram, of each key its
    /// mark, or all its units if they are fewer, and the sum mark [taken]. So merges of the same reading add what no delta
    /// took: what the first could not add, the next ones do.
    ///
    /// The next reading has to be of the same segment [segment]. What is noted is in order, if the reading is [order], and
    /// the reading has all of it [within]. The only error is that there is no memory.
    pub fn of_marks(alloc: Global, reading: Reading) -> Result<Follower, AllocError>
        ensures taken { IfOk result (λ follower. IsPermutation (map taken (reading_view reading).hists) (noted_of follower)) }
        ensures segment { IfOk result (λ follower. followed_id follower ≡ Some reading.id) }
        ensures order { IfOk result (λ follower. IsReadingInOrder (reading_view reading).hists → AreNotesInOrder (noted_of follower)) }
        ensures within { IfOk result (λ follower. HasAll (noted_of follower) (reading_view reading).hists) }
    {
        let id = reading.id;
        let noted = taken_of(alloc, reading.hists)?;
        Ok(Follower {
            alloc,
            id: Some(id),
            noted,
        })
    }

    /// Adds what a reading has above what is noted, and notes that: of each histogram, in the order of their names, the
    /// units of each key above those that are noted of it, with the sum less the noted sum, by one `hist` and one
    /// `batch`. A histogram of which nothing is new is not asked for. The marks of the reading itself make no
    /// difference. Any reading may be given.
    ///
    /// A histogram is passed over for `BadName`, `BadSpec`, `TooLarge`, `OtherSpec` and `Full`, and the others go on;
    /// `NoUnits`, `Corrupt` and `NoMemory` stop the merge there. The first items of a batch that is cut short are added
    /// and noted, its sum is not. What is not added is not noted, so the next merge adds it.
    ///
    /// On `Ok`, each histogram that is noted is in the reading, with the same spec and no fewer units of any key. The
    /// report says how many units the reading has above what was noted, in all its histograms, and what it costs to add
    /// these with the sums, which is at most `most`: together what the batches cost. Each number is
    /// 18,446,744,073,709,551,615 if there is more. The log of the recorder grew by exactly the batches of what is new,
    /// one after the other, with the cuts that the report lists, each for its cause. Of each name and key what is noted
    /// grew by the units of these batches, so in all by those that the report lists, and of each name by their sums; of
    /// a histogram that is not listed, what is noted is what the reading has. On an error nothing has changed.
    /// `OtherSegment`: the reading has another id than the one that was followed before. `Fell`, for a reading in
    /// order, as those of words are, after readings in order: the reading has not all that is noted. `TooMany`: what is
    /// new costs more than `most`, and `cost` is what it costs, or 18,446,744,073,709,551,615. Or `NoMemory` [answer].
    ///
    /// On `Ok`, the reading is of the segment that was followed before, if there was one, and from then on that is the
    /// one that is followed [segment]; what is noted is in order, if the reading is [order], and the reading has all of it
    /// [within]. The recorder records into the same segment [kept], and each histogram that it knew it knows at the same
    /// place [same].
    pub fn merge(
        &mut self,
        recorder: &mut Recorder,
        reading: Reading,
        most: u64,
    ) -> Result<FollowReport, FollowFault>
        ensures kept { recorder.new.segment ≡ recorder.old.segment }
        ensures same { KnowsOn recorder.old.state recorder.new.state }
        ensures order { IfOk result (λ report. IsReadingInOrder (reading_view reading).hists → AreNotesInOrder (noted_of self.new)) }
        ensures within { IfOk result (λ report. HasAll (noted_of self.new) (reading_view reading).hists) }
        ensures segment { IfOk result (λ report. IsOfSegment self.old (reading_view reading) × (followed_id self.new ≡ Some reading.id)) }
        ensures answer { MatchResult result (λ report. IsFollowed (noted_of self.old) (reading_view reading) most report (noted_of self.new) (view_of_recorder recorder.old) (view_of_recorder recorder.new)) (λ fault. (self.new ≡ self.old) × (recorder.new ≡ recorder.old) × IsNotFollowedFor self.old (reading_view reading) most fault) }
    {
        let id = reading.id;
        let Prepared {
            steps,
            mut report,
            mut noted,
        } = self.prepared(reading, most)?;
        follow_all(recorder, steps, &mut report, &mut noted);
        self.id = Some(id);
        self.noted = noted;
        Ok(report)
    }

    /// Notes a reading, adds nothing, and returns the units that it has above what was noted, or
    /// 18,446,744,073,709,551,615 if there are more. On an error nothing has changed: `OtherSegment`, `Fell` and
    /// `NoMemory` come as from a merge, and `TooMany` never [answer].
    ///
    /// On `Ok`, the reading is of the segment that was followed before, if there was one, and from then on that is the
    /// one that is followed [segment]; what is noted is in order, if the reading is [order], and the reading has all of it
    /// [within].
    pub fn skip(&mut self, reading: Reading) -> Result<u64, FollowFault>
        ensures order { IfOk result (λ units. IsReadingInOrder (reading_view reading).hists → AreNotesInOrder (noted_of self.new)) }
        ensures within { IfOk result (λ units. HasAll (noted_of self.new) (reading_view reading).hists) }
        ensures segment { IfOk result (λ units. IsOfSegment self.old (reading_view reading) × (followed_id self.new ≡ Some reading.id)) }
        ensures answer { MatchResult result (λ units. IsSkipped (noted_of self.old) (reading_view reading) units (noted_of self.new)) (λ fault. (self.new ≡ self.old) × IsNotSkippedFor self.old (reading_view reading) fault) }
    {
        let id = reading.id;
        let noted = self.marked(reading)?;
        let units = units_of_all(&noted);
        self.id = Some(id);
        self.noted = noted;
        Ok(units)
    }

    // The histograms of a reading by their names, with what is noted of them as their marks.
    fn marked(&self, reading: Reading) -> Result<Vec<HistReading>, FollowFault>
        ensures segment { IfOk result (λ hists. IsOfSegment self.now (reading_view reading)) }
        ensures answer { MatchResult result (λ hists. HaveNotes (noted_of self.now) (reading_view reading).hists (map histogram_view hists.items)) (λ fault. IsNotSkippedFor self.now (reading_view reading) fault) }
    {
        if let Some(id) = self.id
            && id != reading.id
        {
            return Err(FollowFault::OtherSegment);
        }
        match marked(self.alloc, &self.noted, reading.hists)? {
            Some(hists) => Ok(hists),
            None => Err(FollowFault::Fell),
        }
    }

    // What a merge needs.
    fn prepared(&self, reading: Reading, most: u64) -> Result<Prepared, FollowFault>
        ensures segment { IfOk result (λ prepared. IsOfSegment self.now (reading_view reading)) }
        ensures answer { MatchResult result (λ prepared. IsPrepared (noted_of self.now) (reading_view reading) most prepared) (λ fault. IsNotFollowedFor self.now (reading_view reading) most fault) }
    {
        let hists = self.marked(reading)?;
        let above = above_all(&hists);
        if above.cost > most {
            return Err(FollowFault::TooMany { cost: above.cost });
        }
        let report = report_for(self.alloc, hists.len(), above)?;
        let noted = Vec::with_capacity(self.alloc, hists.len())?;
        Ok(Prepared {
            steps: steps_of(self.alloc, hists)?,
            report,
            noted,
        })
    }
}
