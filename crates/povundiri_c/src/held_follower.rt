//! A follower that C holds.

ghost use Rattle.std.specs.Prelude.{◌≡◌, MatchResult};
ghost use Rattle.povundiri_c.specs.Followers.{AreNotReadFor, FollowsWith, FollowsWords, IsFollowerOfMarks, IsHeadFor, IsNewFollower, IsNoFollowerOfMarks, IsNoHeadFor, IsReadFor, SkipsWords};

use crate::following::{FollowAsked, is_same, of_follow_fault, put_answer, totals_of_reading};
use crate::joinable_recorder::JoinableRecorder;
use crate::merging::read_within;
use crate::status::{NO_MEMORY, OTHER_SEGMENT, of_image_fault};
use crate::types::MergeTotals;
use core::mem::replace;
use image_reader::Reading;
use segment_image::{SegmentHead, header};
use segment_merge::{FollowFault, FollowReport, Follower};
use std::alloc::Global;

/// A follower; how many keys an image may have; and the header of the last image that it followed, once it has
/// followed one.
#[derive(Drop)]
pub struct HeldFollower {
    pub(crate) follower: Follower,
    pub(crate) most_keys: u64,
    pub(crate) head: Option<SegmentHead>,
}

impl HeldFollower {
    /// A follower that has followed nothing.
    pub(crate) fn new(alloc: Global, most_keys: u64) -> HeldFollower
        ensures { IsNewFollower most_keys result }
    {
        HeldFollower {
            follower: Follower::new(alloc),
            most_keys,
            head: None,
        }
    }

    /// A follower that has noted what deltas took of an image, and follows its segment; or the status says why not.
    pub(crate) fn of_marks(
        alloc: Global,
        most_keys: u64,
        words: &[u64],
    ) -> Result<HeldFollower, u32>
        ensures { MatchResult result (IsFollowerOfMarks words.now most_keys) (IsNoFollowerOfMarks words.now most_keys) }
    {
        let reading = read_within(alloc, words, most_keys)?;
        let head = match header(words) {
            Ok(head) => head,
            Err(fault) => return Err(of_image_fault(fault)),
        };
        match Follower::of_marks(alloc, reading) {
            Ok(follower) => Ok(HeldFollower {
                follower,
                most_keys,
                head: Some(head),
            }),
            Err(_) => Err(NO_MEMORY),
        }
    }

    // The header of the words, if they are of the segment that it follows; or the status says why not.
    fn head_for(&self, words: &[u64]) -> Result<SegmentHead, u32>
        ensures { MatchResult result (IsHeadFor self.now.head words.now) (IsNoHeadFor self.now.head words.now) }
    {
        let head = match header(words) {
            Ok(head) => head,
            Err(fault) => return Err(of_image_fault(fault)),
        };
        let Some(known) = &self.head else {
            return Ok(head);
        };
        if is_same(known, &head) {
            Ok(head)
        } else {
            Err(OTHER_SEGMENT)
        }
    }

    // What the words read as; or the status says why not.
    fn read(&self, alloc: Global, words: &[u64]) -> Result<(SegmentHead, Reading), u32>
        ensures { MatchResult result (λ read. IsReadFor self.now words.now read.0 read.1) (AreNotReadFor self.now words.now) }
    {
        let head = self.head_for(words)?;
        let reading = read_within(alloc, words, self.most_keys)?;
        Ok((head, reading))
    }

    // Adds what came of a reading by a recorder, and follows the segment of this header from then on.
    fn follow(
        &mut self,
        alloc: Global,
        joinable: &mut JoinableRecorder,
        head: SegmentHead,
        reading: Reading,
        most: u64,
    ) -> Result<FollowReport, FollowFault>
        ensures kept { joinable.new.mailbox ≡ joinable.old.mailbox }
        ensures answer { FollowsWith head reading most self.old joinable.old.owned result self.new joinable.new.owned }
    {
        let asked = FollowAsked {
            follower: replace(&mut self.follower, Follower::new(alloc)),
            reading,
            most,
        };
        let (follower, answer) = joinable.follow(asked);
        self.follower = follower;
        match answer {
            Ok(report) => {
                self.head = Some(head);
                Ok(report)
            }
            Err(fault) => Err(fault),
        }
    }

    /// Adds what came of an image by a recorder, and returns the status. What that may cost is the least of `most` and of
    /// what the recorder may spend.
    pub(crate) fn merge(
        &mut self,
        alloc: Global,
        joinable: &mut JoinableRecorder,
        words: &[u64],
        most: u64,
        name: &mut [u8],
        totals: &mut MergeTotals,
    ) -> u32
        ensures kept { joinable.new.mailbox ≡ joinable.old.mailbox }
        ensures answer { FollowsWords words.now most self.old joinable.old.owned result totals.old totals.new name.old name.new self.new joinable.new.owned }
    {
        let (head, reading) = match self.read(alloc, words) {
            Ok(read) => read,
            Err(status) => return status,
        };
        *totals = totals_of_reading(&reading);
        let affordable = most.min(u64::from(joinable.owned.units()));
        let answer = self.follow(alloc, joinable, head, reading, affordable);
        put_answer(answer, most, name, totals)
    }

    /// Notes an image, and returns the units that it has above what was noted; or the status says why not.
    pub(crate) fn skip(&mut self, alloc: Global, words: &[u64]) -> Result<u64, u32>
        ensures { SkipsWords words.now self.old result self.new }
    {
        let (head, reading) = self.read(alloc, words)?;
        match self.follower.skip(reading) {
            Ok(units) => {
                self.head = Some(head);
                Ok(units)
            }
            Err(fault) => Err(of_follow_fault(fault)),
        }
    }
}
