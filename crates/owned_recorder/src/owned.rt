//! A recorder that keeps its segment alive instead of borrowing it.

ghost use Rattle.std.specs.Prelude.{◌≡◌, ◌↔◌, ◌<◌, ◌++◌, IsTrue, IfOk};
ghost use Rattle.std.specs.Arc.{arc_value};
ghost use Rattle.std.proofs.Props.{props};
ghost use Rattle.live_segment.specs.Alloc.Allocation.{spoiled};
ghost use Rattle.live_segment.specs.Answers.{AreMostKeysOf, AnswersAdd, AnswersBatch, AnswersDelta, AnswersFirst, AnswersFresh, AnswersFront, AnswersHist, AnswersList, AnswersOpen, AnswersRecords, AnswersSnapshot, ClaimsAdd, ClaimsBatch, ClaimsHist, OpensFirst, ShowsEnough, ShowsFewKeys, ShowsNoMore, ShowsUnits, TakesEnough, TakesFewKeys};
ghost use Rattle.live_segment.specs.List.SharedCursors.{AnswersNext, gift};
ghost use Rattle.live_segment.specs.RecorderState.{HasLimit, IsFoundAt, IsKnownName, IsKnownSpec, IsNamed, IsRecorderAt, IsSameRecorder, Knows, KnowsOn};

use bucket_ranges::Spec;
use live_segment::{Hist, RecorderState, Segment};
use segment_calls::{BatchRefusal, Delta, Refusal, Snapshot};
use std::alloc::Global;
use std::sync::Arc;

/// Records for one thread, as a [`Recorder`](live_segment::Recorder) does, and keeps its segment alive. It may move to another thread.
///
/// Each call is the one of `Recorder` with the same name, with the same clauses and faults.
#[derive(Drop)]
pub struct OwnedRecorder {
    pub(crate) segment: Arc<Segment, Global>,
    pub(crate) state: RecorderState,
    ghost at: { IsRecorderAt (arc_value segment) state } by { Prim.hlevel props },
}

impl OwnedRecorder {
    ghost use Rattle.owned_recorder.specs.Holders.{view_of_owned};

    /// Returns the recorder of these parts, which [`into_parts`](OwnedRecorder::into_parts) returned [segment, state].
    pub fn of_parts(segment: Arc<Segment, Global>, state: RecorderState) -> OwnedRecorder
        requires { IsRecorderAt (arc_value segment) state }
        ensures segment { result.segment ≡ segment }
        ensures state { result.state ≡ state }
    {
        OwnedRecorder { segment, state }
    }

    /// Returns its segment [segment] and all else that it has [state], for a call of a
    /// [`Recorder`](live_segment::Recorder), which [`Recorder::of_state`](live_segment::Recorder::of_state) makes of these. The state is
    /// that of a recorder at the segment [at].
    pub fn into_parts(self) -> (Arc<Segment, Global>, RecorderState)
        ensures at { IsRecorderAt (arc_value result.0) result.1 }
        ensures segment { result.0 ≡ self.segment }
        ensures state { result.1 ≡ self.state }
    {
        let OwnedRecorder { segment, state } = self;
        (segment, state)
    }

    /// Returns the units that it may still spend.
    pub fn units(&self) -> u32
        ensures { result ≡ (view_of_owned self.now).units.share }
    {
        self.state.units()
    }

    /// Sets how many entries each of its three indexes may have in all: of the histograms that it knows, of the names on the list, and of the
    /// samples of sparse histograms. It is for a caller that has little memory. An index that is full finds what it has, and from there on
    /// the recorder searches the list, so calls take longer and return the same. What is entered already stays. There is no limit but memory
    /// before the first such call.
    ///
    /// An index keeps at most 80 bytes for each entry, and 1,000 bytes; that of samples also 110 bytes for each sparse histogram of which it
    /// has a sample. (Measured: `docs/PERFORMANCE.md`.)
    ///
    /// Each has that limit then [limits], and all else is unchanged: its segment [kept], what it has done and seen [view], and what it knows
    /// [same].
    pub fn limit_indexes(&mut self, entries: usize)
        ensures kept { self.new.segment ≡ self.old.segment }
        ensures same { IsSameRecorder self.old.state self.new.state }
        ensures view { view_of_owned self.new ≡ view_of_owned self.old }
        ensures limits { HasLimit entries self.new.state }
    {
        self.state.limit_indexes(entries);
    }

    /// Returns whether it knows a histogram: the calls that take one ask for that.
    pub fn knows(&self, histogram: Hist) -> bool
        ensures { IsTrue result ↔ Knows self.now.state histogram }
    {
        self.state.knows(histogram)
    }

    /// Returns the histogram that it knows at a place, as [`Hist::place`] has it, or none.
    pub fn hist_at(&self, place: usize) -> Option<Hist>
        ensures { IsFoundAt place self.now.state result }
    {
        self.state.hist_at(place)
    }

    /// Returns how many keys a histogram may have, as [`Recorder::most_keys`] does.
    pub fn most_keys(&self, histogram: Hist) -> usize
        requires { Knows self.now.state histogram }
        ensures { AreMostKeysOf (arc_value self.now.segment) self.now.state histogram result }
    {
        self.state.most_keys(&self.segment, histogram)
    }

    /// Returns the name of a histogram that it knows.
    pub fn name(&self, histogram: Hist) -> &[u8]
        requires { Knows self.now.state histogram }
        ensures { IsKnownName self.now.state histogram result.now }
    {
        self.state.name(histogram)
    }

    /// Returns the spec of a histogram that it knows, as the first `hist` of its name gave it.
    pub fn spec(&self, histogram: Hist) -> &Spec
        requires { Knows self.now.state histogram }
        ensures { IsKnownSpec self.now.state histogram result.now }
    {
        self.state.spec(histogram)
    }

    /// Returns the histogram of a name, as [`Recorder::hist`] does [same, named, answer, first, claims]. It keeps its
    /// segment [kept].
    pub fn hist(&mut self, name: &[u8], spec: &Spec) -> Result<Hist, Refusal>
        ensures kept { self.new.segment ≡ self.old.segment }
        ensures same { KnowsOn self.old.state self.new.state }
        ensures named { IfOk result (IsNamed name.now spec.now self.new.state) }
        ensures answer { AnswersHist name.now spec.now self.old.state result self.new.state }
        ensures first { AnswersFirst (arc_value self.new.segment) result self.new.state }
        ensures claims { ClaimsHist name.now spec.now self.old.state result self.new.state }
    {
        self.state.hist(&self.segment, name, spec)
    }

    /// Returns the histogram of the record that begins at a reference, as [`Recorder::open`] does [same, answer, first].
    /// It keeps its segment [kept].
    pub fn open(&mut self, reference: u64) -> Result<Option<Hist>, Refusal>
        ensures kept { self.new.segment ≡ self.old.segment }
        ensures same { KnowsOn self.old.state self.new.state }
        ensures answer { AnswersOpen reference self.old.state result self.new.state }
        ensures first { OpensFirst (arc_value self.new.segment) result self.new.state }
    {
        self.state.open(&self.segment, reference)
    }

    /// Adds a sample, as [`Recorder::add`] does [same, answer, claims]. It keeps its segment [kept].
    #[inline(always)]
    pub fn add(&mut self, histogram: Hist, value: i32, count: u32) -> Result<(), Refusal>
        requires { Knows self.old.state histogram }
        ensures kept { self.new.segment ≡ self.old.segment }
        ensures same { IsSameRecorder self.old.state self.new.state }
        ensures answer { AnswersAdd histogram value count self.old.state result self.new.state }
        ensures claims { ClaimsAdd histogram value self.old.state result self.new.state }
    {
        self.state.add(&self.segment, histogram, value, count)
    }

    /// Counts a batch, as [`Recorder::batch`] does [same, answer, claims]. It keeps its segment [kept].
    pub fn batch(
        &mut self,
        histogram: Hist,
        items: &[(i32, u32)],
        sum: i64,
    ) -> Result<(), BatchRefusal>
        requires { Knows self.old.state histogram }
        ensures kept { self.new.segment ≡ self.old.segment }
        ensures same { IsSameRecorder self.old.state self.new.state }
        ensures answer { AnswersBatch histogram items.now sum self.old.state result self.new.state }
        ensures claims { ClaimsBatch histogram items.now self.old.state result self.new.state }
    {
        self.state.batch(&self.segment, histogram, items, sum)
    }

    /// Takes a delta, as [`Recorder::delta`] does [same, taken, few, owed]. It keeps its segment [kept].
    pub fn delta(&mut self, histogram: Hist) -> Result<Delta, Refusal>
        requires { Knows self.old.state histogram }
        ensures kept { self.new.segment ≡ self.old.segment }
        ensures same { IsSameRecorder self.old.state self.new.state }
        ensures taken { AnswersDelta histogram self.old.state result self.new.state }
        ensures few { TakesFewKeys (arc_value self.old.segment) histogram self.old.state result }
        ensures owed { TakesEnough (arc_value self.new.segment) histogram self.old.state result self.new.state }
    {
        self.state.delta(&self.segment, histogram)
    }

    /// Returns what a histogram has, as [`Recorder::snapshot`] does [same, answer, few, owed, most, values]. It keeps
    /// its segment [kept].
    pub fn snapshot(&mut self, histogram: Hist) -> Result<Snapshot, Refusal>
        requires { Knows self.old.state histogram }
        ensures kept { self.new.segment ≡ self.old.segment }
        ensures same { IsSameRecorder self.old.state self.new.state }
        ensures answer { AnswersSnapshot histogram self.old.state result self.new.state }
        ensures few { ShowsFewKeys (arc_value self.old.segment) histogram self.old.state result }
        ensures owed { ShowsEnough histogram self.old.state result self.new.state }
        ensures most { ShowsNoMore (arc_value self.new.segment) histogram self.old.state result self.new.state }
        ensures values { ShowsUnits histogram self.old.state result }
    {
        self.state.snapshot(&self.segment, histogram)
    }

    /// Marks the segment as corrupt, as [`Recorder::set_corrupt`] does [same, flag]. It keeps its segment [kept].
    pub fn set_corrupt(&mut self)
        ensures kept { self.new.segment ≡ self.old.segment }
        ensures same { IsSameRecorder self.old.state self.new.state }
        ensures flag { view_of_owned self.new ≡ spoiled (view_of_owned self.old) }
    {
        self.state.set_corrupt(&self.segment);
    }

    /// Returns the references of all records of the list, as [`Recorder::records`] does [same, walked, all]. It keeps
    /// its segment [kept].
    pub fn records(&mut self) -> Result<Vec<u64>, Refusal>
        ensures kept { self.new.segment ≡ self.old.segment }
        ensures same { IsSameRecorder self.old.state self.new.state }
        ensures walked { AnswersRecords self.old.state result self.new.state }
        ensures all { AnswersList (arc_value self.new.segment) result self.new.state }
    {
        self.state.records(&self.segment)
    }

    /// Returns those that no earlier call gave, as [`Recorder::fresh_records`] does [fresh]. It keeps its segment
    /// [kept].
    pub fn fresh_records(&mut self) -> Result<Vec<u64>, Refusal>
        ensures kept { self.new.segment ≡ self.old.segment }
        ensures fresh { AnswersFresh self.old.state result self.new.state }
    {
        self.state.fresh_records(&self.segment)
    }

    /// Returns the next record of a shared cursor, as [`Recorder::next_shared`] does [same, answer, given, shared].
    /// It keeps its segment [kept].
    pub fn next_shared(&mut self, cursor: usize) -> Option<u64>
        requires { cursor < (view_of_owned self.old).segment.cursors }
        ensures kept { self.new.segment ≡ self.old.segment }
        ensures same { IsSameRecorder self.old.state self.new.state }
        ensures answer { AnswersNext cursor (view_of_owned self.old) result (view_of_owned self.new) }
        ensures given { (view_of_owned self.new).done.given ≡ (view_of_owned self.old).done.given ++ gift cursor result }
        ensures shared { AnswersFront (arc_value self.new.segment) cursor result self.new.state }
    {
        self.state.next_shared(&self.segment, cursor)
    }
}
