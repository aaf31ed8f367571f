//! The opener, which makes recorders and takes them back.

ghost use Rattle.std.specs.Prelude.{◌≡◌, ◌≤◌, true, []};
ghost use Rattle.segment_machine.specs.declared.place.Place.TheVariants.{Idle};
ghost use Rattle.segment_machine.specs.Actor.{is_opener, offered_of, outstanding_of};

use crate::recorder::{Recorder, RecorderState};
use crate::rule::Pass;
use crate::segment::Segment;
use segment_calls::Refusal;
use std::alloc::Global;

/// The most recorders that are made and not joined.
const MAX_RECORDERS: u32 = 256;

/// Makes the recorders of a segment, and takes them back.
#[derive(Drop)]
pub struct Opener {
    // For the lists of its recorders.
    alloc: Global,
    seat: Pass,
    // The units that no recorder has.
    units: u32,
    outstanding: u32,
    ghost opens: { (seat.id ≡ 0) × (is_opener seat.me.0.role ≡ true) × (seat.me.0.hand.place ≡ Idle) × (outstanding_of seat.me.0.role ≤ 256) },
    ghost counted: { (units ≡ seat.me.0.units.share) × (outstanding ≡ outstanding_of seat.me.0.role) },
    ghost offers_none: { offered_of seat.me.0.role ≡ 0 },
}

impl Opener {
    ghost use Rattle.std.specs.Prelude.{Ok, Err, IfOk};
    ghost use Rattle.segment_machine.specs.Seats.{purse};
    ghost use Rattle.live_segment.specs.Opener.{AnswersRecorder, AnswersState, GetsUnits, MakesRecorder, GivesUnits, TakesBack, IsMadeWithSame, IsStateOf, LendsUnits, RecorderGetsUnits};
    ghost use Rattle.live_segment.specs.declared.segment.Segment.{Segment};
    ghost use Rattle.live_segment.specs.Holders.{IsMadeWith, IsRecorderOf, RecordsInto, view_of_opener, view_of_recorder};
    ghost use Rattle.live_segment.specs.RecorderState.{IsRecorderAt, view_of_state};

    // The opener of a segment that was just opened, which has these units.
    pub(crate) fn new(alloc: Global, seat: Pass, units: u32) -> Opener
        requires seat { (seat.id ≡ 0) × (is_opener seat.me.0.role ≡ true) × (seat.me.0.hand.place ≡ Idle) }
        requires new { (units ≡ seat.me.0.units.share) × (outstanding_of seat.me.0.role ≡ 0) × (offered_of seat.me.0.role ≡ 0) }
        ensures { result.seat ≡ seat }
    {
        Opener {
            alloc,
            seat,
            units,
            outstanding: 0,
        }
    }

    pub(crate) fn into_seat(self) -> Pass
        ensures { result ≡ self.seat }
    {
        let Opener { seat, .. } = self;
        seat
    }

    /// Returns the units that no recorder has.
    pub fn units(&self) -> u32
        ensures { result ≡ (view_of_opener self.now).units.share }
    {
        self.units
    }

    /// Returns how many recorders were made and are not joined.
    pub fn outstanding(&self) -> u32
        ensures { result ≡ outstanding_of (view_of_opener self.now).role }
    {
        self.outstanding
    }

    /// Makes a recorder with this many units, which may be 0. It may move to another thread. The opener was made with
    /// the segment, and stays that of the segment [made].
    ///
    /// The opener has these units no longer [mine]. The recorder has done nothing, knows no histogram, and has seen
    /// what the opener has [theirs]. It records into the segment [into]. `NoUnits` if the opener has fewer, then
    /// `TooMany` if 256 recorders are not joined, only for these causes; then the opener is unchanged [theirs, mine].
    /// It takes no memory.
    pub fn recorder<'a>(
        &mut self,
        segment: &'a Segment,
        units: u32,
    ) -> Result<Recorder<'a>, Refusal>
        requires { IsMadeWith segment.now self.old }
        ensures made { IsMadeWith segment.entry.now self.new }
        ensures into { IfOk result (RecordsInto segment.entry.now) }
        ensures mine { MakesRecorder units self.old result self.new }
        ensures theirs { AnswersRecorder segment.entry units self.old result }
    {
        let state = self.recorder_state(segment, units)?;
        Ok(Recorder { segment, state })
    }

    /// The same, for a caller that keeps the segment itself: the opener stays that of the segment [made] and has these
    /// units no longer, or is unchanged [mine]; the state is that of a recorder of the segment [at] that has done
    /// nothing, or the first cause is returned [theirs].
    pub fn recorder_state(
        &mut self,
        segment: &Segment,
        units: u32,
    ) -> Result<RecorderState, Refusal>
        requires { IsMadeWith segment.now self.old }
        ensures made { IsMadeWith segment.now self.new }
        ensures at { IfOk result (IsRecorderAt segment.now) }
        ensures mine { MakesRecorder units self.old result self.new }
        ensures theirs { AnswersState units self.old result }
    {
        if units > self.units {
            return Err(Refusal::NoUnits);
        }
        if self.outstanding == MAX_RECORDERS {
            return Err(Refusal::TooMany);
        }
        segment.offer(&mut self.seat, units);
        let seat = segment.split(&mut self.seat);
        self.units -= units;
        self.outstanding += 1;
        Ok(RecorderState::new(self.alloc, segment, seat, units))
    }

    // A purse with this many of its units, or why there is none.
    fn fill_purse(&mut self, segment: &Segment, units: u32) -> Result<Pass, Refusal>
        requires { self.old.seat.table_id ≡ segment.now.table.shared.table_id }
        ensures mine { GivesUnits units self.old result self.new }
        ensures filled { IfOk result (λ filled. (filled.table_id ≡ self.old.seat.table_id) × (filled.me ≡ (purse units, []))) }
        ensures why { LendsUnits units (view_of_opener self.old) result }
    {
        let Some(left) = self.units.checked_sub(units) else {
            return Err(Refusal::NoUnits);
        };
        segment.offer(&mut self.seat, units);
        let filled = segment.fill_purse(&mut self.seat);
        self.units = left;
        Ok(filled)
    }

    /// Lends a recorder of the same segment this many more units, which may be 0, while it runs, however many recorders
    /// are not joined.
    ///
    /// The opener has as many fewer [mine] and the recorder as many more, and nothing else that either has done and
    /// seen has changed; the recorder records into the same segment [kept] and knows the same histograms at their
    /// places [theirs]. `NoUnits` comes exactly if the opener has fewer [why]; then both are unchanged [mine, theirs].
    /// The recorder is still one of the opener's segment [of], and the opener that of its segment [made]. It takes no
    /// memory and no lock, and makes the same few steps each time.
    pub fn lend(&mut self, recorder: &mut Recorder, units: u32) -> Result<(), Refusal>
        requires { IsRecorderOf recorder.old self.old }
        ensures kept { recorder.new.segment ≡ recorder.old.segment }
        ensures mine { GivesUnits units self.old result self.new }
        ensures theirs { RecorderGetsUnits units recorder.old result recorder.new }
        ensures why { LendsUnits units (view_of_opener self.old) result }
        ensures of { IsRecorderOf recorder.new self.new }
        ensures made { IsMadeWithSame self.old self.new }
    {
        let filled = self.fill_purse(recorder.segment, units)?;
        recorder.state.get(recorder.segment, filled, units);
        Ok(())
    }

    /// The same, for a caller that keeps the segment itself: the state is still that of a recorder at the segment [at].
    /// The opener has this many fewer units [mine] and the state as many more [theirs]; `NoUnits` comes exactly if the
    /// opener has fewer, and then both are unchanged [why, mine, theirs]. The state is still one of the opener's
    /// segment [of], and the opener that of its segment [made].
    pub fn lend_state(
        &mut self,
        segment: &Segment,
        state: &mut RecorderState,
        units: u32,
    ) -> Result<(), Refusal>
        requires at { IsRecorderAt segment.now state.old }
        requires of { IsStateOf state.old self.old }
        ensures at { IsRecorderAt segment.now state.new }
        ensures mine { GivesUnits units self.old result self.new }
        ensures theirs { GetsUnits units state.old result state.new }
        ensures why { LendsUnits units (view_of_opener self.old) result }
        ensures of { IsStateOf state.new self.new }
        ensures made { IsMadeWithSame self.old self.new }
    {
        let filled = self.fill_purse(segment, units)?;
        state.get(segment, filled, units);
        Ok(())
    }

    /// Takes a recorder of the same segment back: its log, its deltas, its snapshots and what shared cursors gave it
    /// come after the opener's, and the rest of its units comes back [takes]. The opener stays that of its segment
    /// [made]. It takes no memory.
    pub fn join(&mut self, recorder: Recorder)
        requires { IsRecorderOf recorder self.old }
        ensures takes { TakesBack self.old (view_of_recorder recorder.entry) self.new }
        ensures made { IsMadeWithSame self.old self.new }
    {
        let Recorder { segment, state } = recorder;
        self.join_state(segment, state);
    }

    /// The same, for a caller that keeps the segment itself [takes]. The opener stays that of its segment [made].
    pub fn join_state(&mut self, segment: &Segment, state: RecorderState)
        requires at { IsRecorderAt segment.now state }
        requires of { IsStateOf state self.old }
        ensures takes { TakesBack self.old (view_of_state state) self.new }
        ensures made { IsMadeWithSame self.old self.new }
    {
        let RecorderState { seat, units, .. } = state;
        segment.join(&mut self.seat, seat);
        segment.bound(&mut self.seat);
        self.units += units;
        self.outstanding = self.outstanding.saturating_sub(1);
    }
}
