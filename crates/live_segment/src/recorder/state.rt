//! What a recorder has besides its segment, and its calls, each of which is passed the segment.

ghost use Rattle.std.specs.Prelude.{◌≡◌, []};
ghost use Rattle.segment_machine.specs.Seats.{getter, purse};
ghost use Rattle.live_segment.specs.Rule.{IsOf};
ghost use Rattle.live_segment.specs.Steps.{IsAtRest};
ghost use Rattle.live_segment.specs.RecorderState.{IsRecorderAt};

use super::{Hist, KnownHistogram, has_too_many_values};
use crate::add::cost::{price, units_of_items};
use crate::hist::known_names::KnownNames;
use crate::list::index::{KeyKind, RecordIndex};
use crate::list::walk::WalkPlace;
use crate::rule::Pass;
use crate::segment::Segment;
use bucket_ranges::{Spec, SpecFault};
use segment_calls::{Asked, BatchRefusal, Delta, Refusal, Snapshot};
use segment_image::layout::{BLOCK_LEAST, HEADER_WORDS};
use std::alloc::Global;

/// All that a recorder has except its segment. It is for a caller that keeps the segment alive by other means than a
/// borrow, and passes the segment to each call. The calls are those of [`Recorder`](super::Recorder), with its clauses
/// and faults.
#[derive(Drop)]
pub struct RecorderState {
    // For its lists.
    alloc: Global,
    pub(crate) seat: Pass,
    pub(crate) units: u32,
    known: Vec<KnownHistogram>,
    // Up to where it was given fresh records.
    fresh: WalkPlace,
    // The places of what it knows, by names.
    names: KnownNames,
    // What it visited along the list: the records of histograms, and the samples of sparse ones.
    index: RecordIndex,
    samples: RecordIndex,
}

impl RecorderState {
    ghost use Rattle.std.specs.Prelude.{◌↔◌, ◌≢◌, ◌<◌, ◌++◌, IsTrue, IfOk, MatchOption, MatchResult, length};
    ghost use Rattle.segment_machine.specs.declared.actor.Known.{Known};
    ghost use mathlib.Core.Option.{some};
    ghost use lib.ListN.{get_elem?};
    ghost use Rattle.live_segment.specs.Alloc.Allocation.{spoiled};
    ghost use Rattle.live_segment.specs.List.SharedCursors.{AnswersNext, gift};
    ghost use Rattle.live_segment.specs.Hist.Answer.{IsAnsweredWith, IsKnownAt, IsRefusedWith, NoneHasName};
    ghost use Rattle.live_segment.specs.RecorderState.{given_fresh, HasLimit, IsFoundAt, IsKnownName, IsKnownSpec, IsNamed, IsRecorderSomewhere, IsSameRecorder, Knows, KnowsOn, StaysRecorder, view_of_state};
    ghost use Rattle.live_segment.specs.Answers.{AreMostKeysOf, AnswersAdd, AnswersBatch, AnswersDelta, AnswersFirst, AnswersFresh, AnswersFront, AnswersHist, AnswersList, AnswersOpen, AnswersOpenAs, AnswersRecords, AnswersSnapshot, ClaimsAdd, ClaimsBatch, ClaimsHist, OpensFirst, ShowsEnough, ShowsFewKeys, ShowsNoMore, ShowsUnits, TakesEnough, TakesFewKeys};

    // That of a recorder that has done nothing, at a seat with these units.
    pub(crate) fn new(alloc: Global, segment: &Segment, seat: Pass, units: u32) -> RecorderState
        requires fits { (seat.table_id ≡ segment.now.table.shared.table_id) × (seat.me.1 ≡ []) }
        requires set { IsOf segment.now.setting seat.me.0 }
        requires rests { IsAtRest seat.me.0 × (units ≡ seat.me.0.units.share) × (seat.me.0.answers.names ≡ []) }
        ensures at { IsRecorderAt segment.now result }
        ensures new { (result.seat ≡ seat) × (given_fresh result ≡ 0) }
    {
        let names = KnownNames::new(alloc);
        let index = RecordIndex::new(alloc, KeyKind::Name);
        let samples = RecordIndex::new(alloc, KeyKind::Sample);
        RecorderState {
            alloc,
            seat,
            units,
            known: Vec::new(alloc),
            fresh: WalkPlace::start(),
            names,
            index,
            samples,
        }
    }

    // Gets the units of a purse of the segment.
    pub(crate) fn get(&mut self, segment: &Segment, filled: Pass, units: u32)
        requires at { IsRecorderAt segment.now self.old }
        requires filled { (filled.table_id ≡ self.old.seat.table_id) × (filled.me ≡ (purse units, [])) }
        ensures at { IsRecorderAt segment.now self.new }
        ensures view { IsSameRecorder self.old self.new × (view_of_state self.new ≡ getter (view_of_state self.old) units) }
    {
        segment.pour_out(&mut self.seat, &mut self.units, filled, units);
    }

    /// The units that it may still spend.
    pub fn units(&self) -> u32
        requires { IsRecorderSomewhere self.now }
        ensures { result ≡ (view_of_state self.now).units.share }
    {
        self.units
    }

    /// Sets how many entries each of its three indexes may have in all: of the histograms that it knows, of the names on the list, and of the
    /// samples of sparse histograms. For a caller that has little memory: an index that is full finds what it has, and from there on the
    /// recorder searches the list, so calls take longer and return the same. What is entered already stays. There is no limit but memory
    /// before the first such call. An index keeps at most 80 bytes for each entry, and 1,000 bytes; that of samples also 110 bytes for each
    /// sparse histogram of which it has a sample. (Measured: `docs/PERFORMANCE.md`.)
    ///
    /// Each has that limit then [limits], and all else is unchanged: what it has done and seen [view], and what it knows [same]. It stays one
    /// of each segment that it is of [at].
    pub fn limit_indexes(&mut self, entries: usize)
        ensures at { StaysRecorder self.old self.new }
        ensures same { IsSameRecorder self.old self.new }
        ensures view { view_of_state self.new ≡ view_of_state self.old }
        ensures limits { HasLimit entries self.new }
    {
        self.names.set_limit(entries);
        self.index.set_limit(entries);
        self.samples.set_limit(entries);
    }

    /// Whether it knows a histogram: the calls that take one ask for that.
    pub fn knows(&self, histogram: Hist) -> bool
        requires { IsRecorderSomewhere self.now }
        ensures { IsTrue result ↔ Knows self.now histogram }
    {
        histogram.index < self.known.len()
    }

    /// The histogram that it knows at a place.
    pub fn hist_at(&self, place: usize) -> Option<Hist>
        requires { IsRecorderSomewhere self.now }
        ensures { IsFoundAt place self.now result }
    {
        if place < self.known.len() {
            Some(Hist { index: place })
        } else {
            None
        }
    }

    /// How many keys a histogram may have, as [`Recorder::most_keys`](super::Recorder::most_keys) has it.
    pub fn most_keys(&self, segment: &Segment, histogram: Hist) -> usize
        requires at { IsRecorderAt segment.now self.now }
        requires knows { Knows self.now histogram }
        ensures { AreMostKeysOf segment.now self.now histogram result }
    {
        segment.keys_of(&self.known[histogram.index])
    }

    /// The name of a histogram, as [`Recorder::name`](super::Recorder::name) has it.
    pub fn name(&self, histogram: Hist) -> &[u8]
        requires at { IsRecorderSomewhere self.now }
        requires knows { Knows self.now histogram }
        ensures { IsKnownName self.now histogram result.now }
    {
        self.known[histogram.index].name.as_slice()
    }

    /// The spec of a histogram, as [`Recorder::spec`](super::Recorder::spec) has it.
    pub fn spec(&self, histogram: Hist) -> &Spec
        requires at { IsRecorderSomewhere self.now }
        requires knows { Knows self.now histogram }
        ensures { IsKnownSpec self.now histogram result.now }
    {
        &self.known[histogram.index].spec
    }

    // The place of the histogram of a name among those that it knows.
    fn index_of(&self, name: &[u8]) -> Option<usize>
        requires { IsRecorderSomewhere self.now }
        ensures { MatchOption result (NoneHasName self.now.known.items name.now) (IsKnownAt self.now.known.items name.now) }
    {
        let known = self.known.as_slice();
        self.names.find(known, name)
    }

    // What a `hist` of a name that it knows returns, by the histogram at a place. It takes memory only if the spec is
    // another one: then all of name and spec is checked, since `BadSpec` and `TooLarge` come first.
    fn known_at(
        &self,
        segment: &Segment,
        index: usize,
        name: &[u8],
        spec: &Spec,
    ) -> Result<Hist, Refusal>
        requires at { IsRecorderAt segment.now self.now }
        requires known { IsKnownAt self.now.known.items name.now index }
        ensures named { IfOk result (IsNamed name.now spec.now self.now) }
        ensures answer { MatchResult result (λ histogram. IsAnsweredWith name.now spec.now histogram (view_of_state self.now) (view_of_state self.now)) (λ why. IsRefusedWith name.now spec.now why (view_of_state self.now) (view_of_state self.now)) }
    {
        if !self.known[index].spec.is_same(spec) {
            Asked::of(self.alloc, segment.setting.shape, name, spec)?;
            return Err(Refusal::OtherSpec);
        }
        if has_too_many_values(spec) {
            return Err(Refusal::BadSpec(SpecFault::TooMany));
        }
        Ok(Hist { index })
    }

    /// The histogram of a name, as [`Recorder::hist`](super::Recorder::hist) returns it [same, named, answer, first,
    /// claims]. It is still the state of a recorder at the segment [at].
    pub fn hist(&mut self, segment: &Segment, name: &[u8], spec: &Spec) -> Result<Hist, Refusal>
        requires { IsRecorderAt segment.now self.old }
        ensures at { IsRecorderAt segment.now self.new }
        ensures same { KnowsOn self.old self.new }
        ensures named { IfOk result (IsNamed name.now spec.now self.new) }
        ensures answer { AnswersHist name.now spec.now self.old result self.new }
        ensures first { AnswersFirst segment.now result self.new }
        ensures claims { ClaimsHist name.now spec.now self.old result self.new }
    {
        if let Some(index) = self.index_of(name) {
            segment.stand(&mut self.seat);
            return self.known_at(segment, index, name, spec);
        }
        let asked = Asked::of(self.alloc, segment.setting.shape, name, spec)?;
        self.known.reserve(1)?;
        let known = segment.ask(&mut self.seat, &mut self.index, asked)?;
        let index = self.known.len();
        let before = self.known.as_slice();
        self.names.enter(before, name);
        self.known.push_reserved(known);
        Ok(Hist { index })
    }

    // The histogram that it knows at a place, if its record is this one.
    fn known_of(&self, index: usize, reference: u64) -> Option<Hist>
        requires at { IsRecorderSomewhere self.now }
        requires index { index < length self.now.known.items }
        ensures { (known : Known) → get_elem? (view_of_state self.now).answers.names index ≡ some known → MatchOption result (known.reference ≢ reference) (λ histogram. (histogram.index ≡ index) × (known.reference ≡ reference)) }
    {
        if self.known[index].reference != reference {
            return None;
        }
        Some(Hist { index })
    }

    // The histogram of a record that has this name and this spec, or none if these may not be asked for, or the record
    // is not the first of its name.
    fn open_as(
        &mut self,
        segment: &Segment,
        name: &[u8],
        spec: &Spec,
        reference: u64,
    ) -> Result<Option<Hist>, Refusal>
        requires { IsRecorderAt segment.now self.old }
        ensures at { IsRecorderAt segment.now self.new }
        ensures same { KnowsOn self.old self.new }
        ensures answer { AnswersOpenAs name.now spec.now reference self.old result self.new }
    {
        if let Some(index) = self.index_of(name) {
            return Ok(self.known_of(index, reference));
        }
        let asked = match Asked::of(self.alloc, segment.setting.shape, name, spec) {
            Ok(asked) => asked,
            Err(Refusal::NoMemory) => return Err(Refusal::NoMemory),
            Err(_) => return Ok(None),
        };
        self.known.reserve(1)?;
        let found = segment.recognize(&mut self.seat, &mut self.index, asked, reference);
        let Some(known) = found else {
            return Ok(None);
        };
        let index = self.known.len();
        let before = self.known.as_slice();
        self.names.enter(before, name);
        self.known.push_reserved(known);
        Ok(Some(Hist { index }))
    }

    // The histogram of a record, or none, by what the call has seen.
    fn find_record(&mut self, segment: &Segment, reference: u64) -> Result<Option<Hist>, Refusal>
        requires { IsRecorderAt segment.now self.old }
        ensures at { IsRecorderAt segment.now self.new }
        ensures same { KnowsOn self.old self.new }
        ensures answer { AnswersOpen reference self.old result self.new }
    {
        let Some((name, spec)) = segment.read_record(&mut self.seat, self.alloc, reference)? else {
            return Ok(None);
        };
        self.open_as(segment, &name, &spec, reference)
    }

    /// The histogram of a record, as [`Recorder::open`](super::Recorder::open) returns it [same, answer, first]. It is
    /// still the state of a recorder at the segment [at].
    pub fn open(&mut self, segment: &Segment, reference: u64) -> Result<Option<Hist>, Refusal>
        requires { IsRecorderAt segment.now self.old }
        ensures at { IsRecorderAt segment.now self.new }
        ensures same { KnowsOn self.old self.new }
        ensures answer { AnswersOpen reference self.old result self.new }
        ensures first { OpensFirst segment.now result self.new }
    {
        let found = self.find_record(segment, reference)?;
        segment.stand(&mut self.seat);
        Ok(found)
    }

    /// Adds a sample, as [`Recorder::add`](super::Recorder::add) does [same, answer, claims]. It is still the state
    /// of a recorder at the segment [at].
    // Inlined with the calls on its way: what a call keeps in memory, the next atomic step waits for.
    #[inline(always)]
    pub fn add(
        &mut self,
        segment: &Segment,
        histogram: Hist,
        value: i32,
        count: u32,
    ) -> Result<(), Refusal>
        requires at { IsRecorderAt segment.now self.old }
        requires knows { Knows self.old histogram }
        ensures at { IsRecorderAt segment.now self.new }
        ensures same { IsSameRecorder self.old self.new }
        ensures answer { AnswersAdd histogram value count self.old result self.new }
        ensures claims { ClaimsAdd histogram value self.old result self.new }
    {
        if count == 0 {
            return Err(Refusal::ZeroCount);
        }
        if count > self.units {
            return Err(Refusal::NoUnits);
        }
        let known = &self.known[histogram.index];
        segment.add_sample(&mut self.seat, &mut self.samples, known, value, count)?;
        self.units -= count;
        Ok(())
    }

    /// Counts a batch, as [`Recorder::batch`](super::Recorder::batch) does [same, answer, claims]. It is still the
    /// state of a recorder at the segment [at].
    pub fn batch(
        &mut self,
        segment: &Segment,
        histogram: Hist,
        items: &[(i32, u32)],
        sum: i64,
    ) -> Result<(), BatchRefusal>
        requires at { IsRecorderAt segment.now self.old }
        requires knows { Knows self.old histogram }
        ensures at { IsRecorderAt segment.now self.new }
        ensures same { IsSameRecorder self.old self.new }
        ensures answer { AnswersBatch histogram items.now sum self.old result self.new }
        ensures claims { ClaimsBatch histogram items.now self.old result self.new }
    {
        let cost = match price(items, sum, self.units) {
            Ok(cost) => cost,
            Err(why) => return Err(BatchRefusal { added: 0, why }),
        };
        let known = &self.known[histogram.index];
        let counted = segment.count_batch(&mut self.seat, &mut self.samples, known, items, sum);
        if let Err(refusal) = counted {
            self.units -= units_of_items(&items[..refusal.added]) as u32;
            return Err(refusal);
        }
        self.units -= cost;
        Ok(())
    }

    /// Takes a delta, as [`Recorder::delta`](super::Recorder::delta) does [same, taken, few, owed]. It is still the
    /// state of a recorder at the segment [at].
    pub fn delta(&mut self, segment: &Segment, histogram: Hist) -> Result<Delta, Refusal>
        requires at { IsRecorderAt segment.now self.old }
        requires knows { Knows self.old histogram }
        ensures at { IsRecorderAt segment.now self.new }
        ensures same { IsSameRecorder self.old self.new }
        ensures taken { AnswersDelta histogram self.old result self.new }
        ensures few { TakesFewKeys segment.now histogram self.old result }
        ensures owed { TakesEnough segment.now histogram self.old result self.new }
    {
        let known = &self.known[histogram.index];
        let has_all = segment.look_for_own(&mut self.seat, &mut self.samples, known);
        let own = self.samples.own(has_all, known.reference);
        let mut counts = Vec::with_capacity(self.alloc, segment.most_keys(known, own))?;
        let sum = segment.take_delta(&mut self.seat, known, own, &mut counts);
        Ok(Delta { counts, sum })
    }

    /// Returns what a histogram has, as [`Recorder::snapshot`](super::Recorder::snapshot) does [same, answer, few,
    /// owed, most, values]. It is still the state of a recorder at the segment [at].
    pub fn snapshot(&mut self, segment: &Segment, histogram: Hist) -> Result<Snapshot, Refusal>
        requires at { IsRecorderAt segment.now self.old }
        requires knows { Knows self.old histogram }
        ensures at { IsRecorderAt segment.now self.new }
        ensures same { IsSameRecorder self.old self.new }
        ensures answer { AnswersSnapshot histogram self.old result self.new }
        ensures few { ShowsFewKeys segment.now histogram self.old result }
        ensures owed { ShowsEnough histogram self.old result self.new }
        ensures most { ShowsNoMore segment.now histogram self.old result self.new }
        ensures values { ShowsUnits histogram self.old result }
    {
        let known = &self.known[histogram.index];
        let has_all = segment.look_for_own(&mut self.seat, &mut self.samples, known);
        let own = self.samples.own(has_all, known.reference);
        let totals = segment.opening_totals(self.alloc, known, own)?;
        let snapshot = segment.take_snapshot(&mut self.seat, known, own, totals);
        Ok(snapshot)
    }

    /// Marks the segment as corrupt, as [`Recorder::set_corrupt`](super::Recorder::set_corrupt) does [same, flag]. It
    /// is still the state of a recorder at the segment [at].
    pub fn set_corrupt(&mut self, segment: &Segment)
        requires { IsRecorderAt segment.now self.old }
        ensures at { IsRecorderAt segment.now self.new }
        ensures same { IsSameRecorder self.old self.new }
        ensures flag { view_of_state self.new ≡ spoiled (view_of_state self.old) }
    {
        segment.set_corrupt(&mut self.seat);
    }

    /// Returns the references of all records of the list, as [`Recorder::records`](super::Recorder::records) does
    /// [same, walked, all]. It is still the state of a recorder at the segment [at].
    pub fn records(&mut self, segment: &Segment) -> Result<Vec<u64>, Refusal>
        requires { IsRecorderAt segment.now self.old }
        ensures at { IsRecorderAt segment.now self.new }
        ensures same { IsSameRecorder self.old self.new }
        ensures walked { AnswersRecords self.old result self.new }
        ensures all { AnswersList segment.now result self.new }
    {
        let size = segment.setting.shape.size() as usize;
        let mut records = Vec::with_capacity(self.alloc, (size - HEADER_WORDS) / BLOCK_LEAST)?;
        segment.walk(&mut self.seat, &mut WalkPlace::start(), &mut records);
        Ok(records)
    }

    /// Returns those that no earlier call gave, as [`Recorder::fresh_records`](super::Recorder::fresh_records) does
    /// [fresh]. It is still the state of a recorder at the segment [at].
    pub fn fresh_records(&mut self, segment: &Segment) -> Result<Vec<u64>, Refusal>
        requires { IsRecorderAt segment.now self.old }
        ensures at { IsRecorderAt segment.now self.new }
        ensures fresh { AnswersFresh self.old result self.new }
    {
        let size = segment.setting.shape.size() as usize;
        let mut records = Vec::with_capacity(self.alloc, (size - HEADER_WORDS) / BLOCK_LEAST)?;
        segment.walk(&mut self.seat, &mut self.fresh, &mut records);
        Ok(records)
    }

    /// Returns the next record of a shared cursor, as [`Recorder::next_shared`](super::Recorder::next_shared) does
    /// [same, answer, given, shared]. It is still the state of a recorder at the segment [at].
    pub fn next_shared(&mut self, segment: &Segment, cursor: usize) -> Option<u64>
        requires at { IsRecorderAt segment.now self.old }
        requires cursor { cursor < (view_of_state self.old).segment.cursors }
        ensures at { IsRecorderAt segment.now self.new }
        ensures same { IsSameRecorder self.old self.new }
        ensures answer { AnswersNext cursor (view_of_state self.old) result (view_of_state self.new) }
        ensures given { (view_of_state self.new).done.given ≡ (view_of_state self.old).done.given ++ gift cursor result }
        ensures shared { AnswersFront segment.now cursor result self.new }
    {
        segment.next_shared(&mut self.seat, cursor)
    }
}
