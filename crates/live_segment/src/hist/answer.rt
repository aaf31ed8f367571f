//! What a `hist` of a recorder returns.

ghost use Rattle.std.specs.Prelude.{◌≡◌, IfOk, MatchResult};
ghost use Rattle.live_segment.specs.Hist.Prelude.{IsAnnouncedOf, LooksUp, MakesFor, OtherSpec, SaysAsked, Settles};

use crate::hist::search::Search;
use crate::list::index::RecordIndex;
use crate::recorder::KnownHistogram;
use crate::rule::{Announcement, Pass};
use crate::segment::Segment;
use segment_calls::{Asked, Refusal};

impl Segment {
    ghost use Rattle.live_segment.specs.Hist.Prelude.{AsksFor, IsIndexed, IsSame, Name, opened_with, Standing};

    // The first record of the name that is asked for, which is made if there is none.
    //
    // `Corrupt` or `Full` if no block could be claimed for it, `OtherSpec` if the first record has another spec.
    fn first_named(
        &self,
        seat: &mut Pass,
        index: &mut RecordIndex,
        asked: &Asked,
        said: &Announcement,
    ) -> Result<u64, Refusal>
        requires asks { AsksFor self.now asked.now index.old seat.old }
        requires says { SaysAsked asked.now said.now }
        ensures same { IsSame seat.old seat.new }
        ensures indexed { IsIndexed Name self.now.setting.shape.size seat.new.me.0.seen index.new }
        ensures outcome { LooksUp asked.now seat.old.me.0 result seat.new.me.0 }
        ensures claims { MatchResult result (λ _. MakesFor asked.now seat.old.me.0 seat.new.me.0) (λ why. why ≡ OtherSpec → MakesFor asked.now seat.old.me.0 seat.new.me.0) }
    {
        let end = match self.search(seat, index, asked) {
            Search::Met(reference) => return Ok(reference),
            Search::OtherSpec => return Err(Refusal::OtherSpec),
            Search::End(at) => at,
        };
        self.make_record(seat, asked, said)?;
        match self.find(seat, end, asked) {
            Search::Met(reference) => Ok(reference),
            Search::OtherSpec => Err(Refusal::OtherSpec),
            Search::End(_) => unreachable!(),
        }
    }

    /// The record of what is asked for, as a recorder knows it from then on.
    ///
    /// `Corrupt` or `Full` if no block could be claimed for it, `OtherSpec` if the first record of the name has another
    /// spec.
    pub(crate) fn settle(
        &self,
        seat: &mut Pass,
        index: &mut RecordIndex,
        asked: &Asked,
        said: &Announcement,
    ) -> Result<u64, Refusal>
        requires asks { AsksFor self.now asked.now index.old seat.old }
        requires says { SaysAsked asked.now said.now }
        ensures same { IsSame seat.old seat.new }
        ensures indexed { IsIndexed Name self.now.setting.shape.size seat.new.me.0.seen index.new }
        ensures outcome { Settles asked.now seat.old.me.0 result seat.new.me.0 }
        ensures claims { MatchResult result (λ _. MakesFor asked.now seat.old.me.0 seat.new.me.0) (λ why. why ≡ OtherSpec → MakesFor asked.now seat.old.me.0 seat.new.me.0) }
        ensures stands { IfOk result (λ _. Standing (opened_with self.now) seat.new.id seat.new.me.0) }
    {
        match self.first_named(seat, index, asked, said) {
            Ok(reference) => {
                self.know(seat, reference, said);
                self.stand(seat);
                Ok(reference)
            }
            Err(why) => {
                self.decline(seat);
                Err(why)
            }
        }
    }

    /// The histogram that is asked for, as a recorder knows it from then on.
    ///
    /// `Corrupt` or `Full` if no block could be claimed for its record, `OtherSpec` if the first record of the name has
    /// another spec.
    pub(crate) fn ask(
        &self,
        seat: &mut Pass,
        index: &mut RecordIndex,
        asked: Asked,
    ) -> Result<KnownHistogram, Refusal>
        requires asks { AsksFor self.now asked index.old seat.old }
        ensures same { IsSame seat.old seat.new }
        ensures indexed { IsIndexed Name self.now.setting.shape.size seat.new.me.0.seen index.new }
        ensures outcome { IsAnnouncedOf asked seat.old.me.0 result seat.new.me.0 }
        ensures claims { MatchResult result (λ _. MakesFor asked seat.old.me.0 seat.new.me.0) (λ why. why ≡ OtherSpec → MakesFor asked seat.old.me.0 seat.new.me.0) }
        ensures stands { IfOk result (λ _. Standing (opened_with self.now) seat.new.id seat.new.me.0) }
    {
        let said = Announcement::Histogram(asked);
        let Announcement::Histogram(asked) = &said else {
            unreachable!()
        };
        let reference = self.settle(seat, index, asked, &said)?;
        Ok(KnownHistogram::of(said.into_asked(), reference))
    }
}
