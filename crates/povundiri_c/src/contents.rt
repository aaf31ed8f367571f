//! What a handle holds.

ghost use Rattle.std.specs.Prelude.{◌≡◌, Err, None, MatchResult, option_map};
ghost use Rattle.std.specs.Fn.{FnOnceReturnsAtMut};
ghost use Rattle.povundiri_c.specs.Calls.{ByRecorder, OnRecorder, outstanding_in, units_of};
ghost use Rattle.povundiri_c.specs.Followers.{ByFollower, FollowsInto, SkipsWords};
ghost use Rattle.povundiri_c.specs.Joins.{BySegment, GivesRecorder, ServesContents, recorder_in};
ghost use Rattle.povundiri_c.specs.Looks.{IsLookIn};
ghost use Rattle.povundiri_c.specs.Recorders.{Adds, AtPlace, refused_with};
ghost use Rattle.povundiri_c.specs.Segments.{AnswersClose};
ghost use Rattle.povundiri_c.specs.Sums.{AddsImage, AddsOther, AddsTotalsText, AskedOfSums, BySums, IsSumExport, IsReportAsked, IsSumShow, IsTextOrStatus, IsTotalsOrStatus, sums_in};

use crate::held_follower::HeldFollower;
use crate::joinable_recorder::JoinableRecorder;
use crate::owned_segment::{JoinOrLend, OwnedSegment};
use crate::status::{IN_USE, OTHER_KIND, Refused, SHORT};
use crate::sums::{add_image, add_other, add_totals, text_of_sums, totals_of_sums};
use crate::texts::TextAsked;
use crate::types::MergeTotals;
use core::mem::replace_with;
use live_segment::Image;
use reading_sums::Sums;
use std::alloc::Global;

/// A segment, a recorder, a sum, or a follower; or nothing, while a call takes it out.
#[derive(Drop)]
pub enum Contents {
    Segment(OwnedSegment),
    Recorder(JoinableRecorder),
    Sums(Sums),
    Follower(HeldFollower),
    Nothing,
}

impl Contents {
    // Its image, if it is a segment that has no recorders and at most `room` words.
    fn closed(self, room: usize) -> (Contents, Result<Image, Refused>)
        ensures answer { AnswersClose room self result.1 }
        ensures after { MatchResult result.1 (λ _. result.0 ≡ Contents.Nothing) (λ _. result.0 ≡ self) }
    {
        match self {
            Contents::Segment(owned) => {
                let size = owned.size() as usize;
                if room < size {
                    return (
                        Contents::Segment(owned),
                        Err(Refused {
                            status: SHORT,
                            length: size,
                        }),
                    );
                }
                match owned.close() {
                    Ok(image) => (Contents::Nothing, Ok(image)),
                    Err(owned) => (Contents::Segment(owned), Err(Refused::of(IN_USE))),
                }
            }
            other => (other, Err(Refused::of(OTHER_KIND))),
        }
    }

    /// The box with this in it.
    pub(crate) fn put_into(self, mut place: Box<Contents>) -> Box<Contents>
        ensures { result.value ≡ self }
    {
        *place = self;
        place
    }

    // Its recorder, if it is one.
    fn parted(self, _nothing: ()) -> (Contents, Option<JoinableRecorder>)
        ensures { (result.1 ≡ recorder_in self) × (recorder_in self ≡ None → result.0 ≡ self) }
    {
        match self {
            Contents::Recorder(joinable) => (Contents::Nothing, Some(joinable)),
            other => (other, None),
        }
    }

    /// Calls the recorder that it is. Anything else returns `other`, and is unchanged.
    pub(crate) fn call_recorder<B, F: FnOnce(&mut JoinableRecorder) -> B>(
        &mut self,
        other: B,
        call: F,
    ) -> B
    where
        B: Drop,
        requires { F.IsAlwaysCallable call }
        ensures { OnRecorder other (FnOnceReturnsAtMut F.FnOnce call) self.old result self.new }
    {
        match self {
            Contents::Recorder(joinable) => call(joinable),
            _ => other,
        }
    }

    pub(crate) fn recorder(&mut self, units: u32) -> Result<JoinableRecorder, u32>
        ensures { BySegment (Err 5) (GivesRecorder units) self.old result self.new }
    {
        match self {
            Contents::Segment(owned) => owned.recorder(units),
            _ => Err(OTHER_KIND),
        }
    }

    /// Does what a recorder is passed to the segment for, in its box. Returns the status, and the box if it comes back.
    pub(crate) fn serve(
        &mut self,
        mut passed: Box<Contents>,
        request: JoinOrLend,
    ) -> (u32, Option<Box<Contents>>)
        ensures { ServesContents request passed.value self.old (result.0, option_map (λ back. back.value) result.1) self.new }
    {
        let Contents::Segment(owned) = self else {
            return (OTHER_KIND, Some(passed));
        };
        let Some(joinable) = replace_with(passed.as_mut(), (), Contents::parted) else {
            return (OTHER_KIND, Some(passed));
        };
        let (status, back) = owned.serve(joinable, request);
        match back {
            Some(joinable) => (status, Some(Contents::Recorder(joinable).put_into(passed))),
            None => (status, None),
        }
    }

    /// Ends the segment, and returns its image, if that has at most `room` words.
    pub(crate) fn close(&mut self, room: usize) -> Result<Image, Refused>
        ensures answer { AnswersClose room self.old result }
        ensures after { MatchResult result (λ _. self.new ≡ Contents.Nothing) (λ _. self.new ≡ self.old) }
    {
        replace_with(self, room, Contents::closed)
    }

    pub(crate) fn units(&mut self) -> Result<u32, u32>
        ensures { (result ≡ units_of self.old) × (self.new ≡ self.old) }
    {
        match self {
            Contents::Segment(owned) => Ok(owned.units()),
            Contents::Recorder(joinable) => Ok(joinable.owned.units()),
            _ => Err(OTHER_KIND),
        }
    }

    pub(crate) fn outstanding(&mut self) -> Result<u32, u32>
        ensures { (result ≡ outstanding_in self.old) × (self.new ≡ self.old) }
    {
        match self {
            Contents::Segment(owned) => Ok(owned.outstanding()),
            _ => Err(OTHER_KIND),
        }
    }

    /// Adds what came of an image to the segment of the recorder that others are, if it is a follower.
    pub(crate) fn follow(
        &mut self,
        alloc: Global,
        recorder: &mut Contents,
        words: &[u64],
        most: u64,
        name: &mut [u8],
        totals: &mut MergeTotals,
    ) -> u32
        ensures { FollowsInto words.now most self.old recorder.old result totals.old totals.new name.old name.new self.new recorder.new }
    {
        let Contents::Follower(held) = self else {
            return OTHER_KIND;
        };
        let Contents::Recorder(joinable) = recorder else {
            return OTHER_KIND;
        };
        held.merge(alloc, joinable, words, most, name, totals)
    }

    /// Notes an image, and returns the units that it has above what was noted, if it is a follower.
    pub(crate) fn skip(&mut self, alloc: Global, words: &[u64]) -> Result<u64, u32>
        ensures { ByFollower (Err 5) (SkipsWords words.now) self.old result self.new }
    {
        match self {
            Contents::Follower(held) => held.skip(alloc, words),
            _ => Err(OTHER_KIND),
        }
    }

    // A look at it, if it is a segment with at most `room` words.
    pub(crate) fn look(&mut self, alloc: Global, room: usize) -> Result<Image, Refused>
        ensures { IsLookIn room self.old result × (self.new ≡ self.old) }
    {
        match self {
            Contents::Segment(owned) => owned.look(alloc, room),
            _ => Err(Refused::of(OTHER_KIND)),
        }
    }

    pub(crate) fn add(&mut self, place: usize, value: i32, count: u32) -> u32
        ensures { ByRecorder 5 (AtPlace 8 (Adds value count) place) self.old result self.new }
    {
        match self {
            Contents::Recorder(joinable) => joinable.add(place, value, count),
            _ => OTHER_KIND,
        }
    }

    /// Adds an image to the sum, under a number.
    pub(crate) fn add_image(&mut self, alloc: Global, number: u64, words: &[u64]) -> u32
        ensures { BySums 5 (AddsImage number words.now) self.old result self.new }
    {
        match self {
            Contents::Sums(sums) => add_image(alloc, sums, number, words),
            _ => OTHER_KIND,
        }
    }

    /// Adds the sum that a text of totals says.
    pub(crate) fn add_totals(&mut self, alloc: Global, text: &[u8]) -> Result<(), Refused>
        ensures { BySums (Err (refused_with 5)) (AddsTotalsText text.now) self.old result self.new }
    {
        match self {
            Contents::Sums(sums) => add_totals(alloc, sums, text),
            _ => Err(Refused::of(OTHER_KIND)),
        }
    }

    /// Adds another sum to the sum.
    pub(crate) fn add_other(&mut self, other: &Contents) -> u32
        ensures { BySums 5 (AddsOther (sums_in other.now)) self.old result self.new }
    {
        match self {
            Contents::Sums(sums) => match other {
                Contents::Sums(more) => add_other(sums, more),
                _ => OTHER_KIND,
            },
            _ => OTHER_KIND,
        }
    }

    /// The report of the sum.
    pub(crate) fn sum_report(&mut self, alloc: Global) -> Result<Vec<u8>, u32>
        ensures { AskedOfSums (IsTextOrStatus IsReportAsked) self.old result × (self.new ≡ self.old) }
    {
        match self {
            Contents::Sums(sums) => text_of_sums(alloc, sums, TextAsked::Report),
            _ => Err(OTHER_KIND),
        }
    }

    /// The metrics of the sum, whose names begin with this prefix.
    pub(crate) fn sum_metrics(&mut self, alloc: Global, prefix: &[u8]) -> Result<Vec<u8>, u32>
        ensures { AskedOfSums (IsTextOrStatus (IsSumExport prefix.now)) self.old result × (self.new ≡ self.old) }
    {
        match self {
            Contents::Sums(sums) => text_of_sums(alloc, sums, TextAsked::Export { prefix }),
            _ => Err(OTHER_KIND),
        }
    }

    /// The text of the sum for people, in lines of this many cells.
    pub(crate) fn sum_shown(&mut self, alloc: Global, width: u16) -> Result<Vec<u8>, u32>
        ensures { AskedOfSums (IsTextOrStatus (IsSumShow width)) self.old result × (self.new ≡ self.old) }
    {
        match self {
            Contents::Sums(sums) => text_of_sums(alloc, sums, TextAsked::Show { width }),
            _ => Err(OTHER_KIND),
        }
    }

    // It, and the text of its totals, if it is a sum.
    fn with_totals(self, alloc: Global) -> (Contents, Result<Vec<u8>, u32>)
        ensures answer { AskedOfSums IsTotalsOrStatus self result.1 }
        ensures same { result.0 ≡ self }
    {
        match self {
            Contents::Sums(sums) => {
                let (sums, text) = totals_of_sums(alloc, sums);
                (Contents::Sums(sums), text)
            }
            other => (other, Err(OTHER_KIND)),
        }
    }

    /// The text of the totals of the sum.
    pub(crate) fn totals_of_sums(&mut self, alloc: Global) -> Result<Vec<u8>, u32>
        ensures { AskedOfSums IsTotalsOrStatus self.old result × (self.new ≡ self.old) }
    {
        replace_with(self, alloc, Contents::with_totals)
    }
}
