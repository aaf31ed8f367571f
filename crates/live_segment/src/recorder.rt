//! What one thread records with.

ghost use Rattle.std.specs.Prelude.{◌≡◌};
ghost use Rattle.live_segment.specs.Known.{known_view};
ghost use Rattle.live_segment.specs.RecorderState.{IsRecorderAt};
ghost use Rattle.std.proofs.Props.{props};

mod state;

use crate::segment::Segment;
use bucket_ranges::limits::MAX_CUSTOM_VALUES;
use bucket_ranges::{Ranges, Spec};
use segment_calls::{Asked, BatchRefusal, Delta, Refusal, Snapshot};
pub use state::RecorderState;

/// A histogram that a recorder knows: its place in the list of those.
#[derive(Clone, Copy, PartialEq, Eq)]
pub struct Hist {
    index: usize,
}

impl Hist {
    /// Returns its place in that list, from 0. A recorder that knows it has it there for good.
    pub fn place(&self) -> usize
        ensures { result ≡ self.now.index }
    {
        self.index
    }
}

/// A histogram that a `hist` of a recorder returned.
#[derive(Drop)]
pub(crate) struct KnownHistogram {
    pub(crate) name: Vec<u8>,
    pub(crate) spec: Spec,
    pub(crate) ranges: Ranges,
    pub(crate) reference: u64,
}

impl KnownHistogram {
    ghost use Rattle.live_segment.specs.Hist.Search.{asked_at};

    // What was asked for, with its record.
    pub(crate) fn of(asked: Asked, reference: u64) -> KnownHistogram
        ensures view { known_view result ≡ asked_at asked reference }
        ensures ranges { result.ranges ≡ asked.ranges }
    {
        let Asked {
            name,
            spec,
            ranges,
            ..
        } = asked;
        KnownHistogram {
            name,
            spec,
            ranges,
            reference,
        }
    }
}

/// Records for one thread. It may move to another.
#[derive(Drop)]
pub struct Recorder<'a> {
    pub(crate) segment: &'a Segment,
    pub(crate) state: RecorderState,
    ghost at: { IsRecorderAt segment.now state } by { Prim.hlevel props },
}

ghost use Rattle.std.specs.Prelude.{true, false, Some, None};
ghost use Rattle.bucket_ranges.specs.Spec.{spec_fault, SameSpec};
ghost use Rattle.bucket_ranges.specs.declared.spec.Spec.{Spec as SomeSpec};
ghost use Rattle.bucket_ranges.specs.declared.spec.SpecFault.TheVariants.{TooMany};

// Whether a spec, which is the same as a valid one, has a fault: it may have too many values, of which some repeat.
fn has_too_many_values(spec: &Spec) -> bool
    ensures fault { result ≡ true → spec_fault spec.now ≡ Some TooMany }
    ensures lawful { result ≡ false → (other : SomeSpec) → spec_fault other ≡ None → SameSpec other spec.now → spec_fault spec.now ≡ None }
{
    match spec {
        Spec::Custom(values) => values.as_slice().len() > MAX_CUSTOM_VALUES,
        _ => false,
    }
}

impl<'a> Recorder<'a> {
    ghost use Rattle.std.specs.Prelude.{◌↔◌, ◌<◌, ◌++◌, IsTrue, IfOk};
    ghost use Rattle.live_segment.specs.Alloc.Allocation.{spoiled};
    ghost use Rattle.live_segment.specs.List.SharedCursors.{AnswersNext, gift};
    ghost use Rattle.live_segment.specs.Holders.{HasCursor, view_of_recorder};
    ghost use Rattle.live_segment.specs.RecorderState.{HasLimit, IsFoundAt, IsKnownName, IsKnownSpec, IsNamed, IsSameRecorder, Knows, KnowsOn};
    ghost use Rattle.live_segment.specs.Answers.{AreMostKeysOf, AnswersAdd, AnswersBatch, AnswersDelta, AnswersFirst, AnswersFresh, AnswersFront, AnswersHist, AnswersList, AnswersOpen, AnswersRecords, AnswersSnapshot, ClaimsAdd, ClaimsBatch, ClaimsHist, OpensFirst, ShowsEnough, ShowsFewKeys, ShowsNoMore, ShowsUnits, TakesEnough, TakesFewKeys};

    /// Returns the recorder whose state this is, for a caller that kept it with the segment [state]. It records into that
    /// segment [into].
    pub fn of_state(segment: &'a Segment, state: RecorderState) -> Recorder<'a>
        requires { IsRecorderAt segment.now state }
        ensures into { result.segment ≡ segment.entry }
        ensures state { result.state ≡ state }
    {
        Recorder { segment, state }
    }

    /// Returns the state of this recorder, for a caller that keeps it with the segment [state]. It is that of a recorder
    /// at the segment [at].
    pub fn into_state(self) -> RecorderState
        ensures at { IsRecorderAt self.entry.segment.now result }
        ensures state { result ≡ self.entry.state }
    {
        let Recorder { state, .. } = self;
        state
    }

    /// Returns the units that it may still spend.
    pub fn units(&self) -> u32
        ensures { result ≡ (view_of_recorder self.now).units.share }
    {
        self.state.units()
    }

    /// Sets how many entries each of its three indexes may have in all: of the histograms that it knows, of the names on the list, and of the
    /// samples of sparse histograms. For a caller that has little memory: an index that is full finds what it has, and from there on the
    /// recorder searches the list, so calls take longer and return the same. What is entered already stays. There is no limit but memory
    /// before the first such call. An index keeps at most 80 bytes for each entry, and 1,000 bytes; that of samples also 110 bytes for each
    /// sparse histogram of which it has a sample. (Measured: `docs/PERFORMANCE.md`.)
    ///
    /// Each has that limit then [limits], and all else is unchanged: its segment [kept], what it has done and seen [view], and what it knows
    /// [same].
    pub fn limit_indexes(&mut self, entries: usize)
        ensures kept { self.new.segment ≡ self.old.segment }
        ensures same { IsSameRecorder self.old.state self.new.state }
        ensures view { view_of_recorder self.new ≡ view_of_recorder self.old }
        ensures limits { HasLimit entries self.new.state }
    {
        self.state.limit_indexes(entries);
    }

    /// Returns whether it knows a histogram: the calls that take one ask for that.
    pub fn knows(&self, histogram: Hist) -> bool
        ensures { IsTrue result ↔ Knows self.now.state histogram }
    {
        self.state.knows(histogram)
    }

    /// Returns the histogram that it knows at a place, as [`Hist::place`] has it, or none.
    pub fn hist_at(&self, place: usize) -> Option<Hist>
        ensures { IsFoundAt place self.now.state result }
    {
        self.state.hist_at(place)
    }

    /// Returns how many keys a histogram that it knows may have, whatever others record meanwhile: as many as it has
    /// buckets, or of a sparse one as many records of five words as fit in the segment. It is the same each time.
    pub fn most_keys(&self, histogram: Hist) -> usize
        requires { Knows self.now.state histogram }
        ensures { AreMostKeysOf self.now.segment.now self.now.state histogram result }
    {
        self.state.most_keys(self.segment, histogram)
    }

    /// Returns the name of a histogram that it knows.
    pub fn name(&self, histogram: Hist) -> &[u8]
        requires { Knows self.now.state histogram }
        ensures { IsKnownName self.now.state histogram result.now }
    {
        self.state.name(histogram)
    }

    /// Returns the spec of a histogram that it knows, as the first `hist` of its name gave it.
    pub fn spec(&self, histogram: Hist) -> &Spec
        requires { Knows self.now.state histogram }
        ensures { IsKnownSpec self.now.state histogram result.now }
    {
        self.state.spec(histogram)
    }

    /// Returns the histogram of a name: that of the first record of the name on the list, which is made if there is
    /// none. The recorder records into the same segment [kept], and still knows each histogram that it knew, at the
    /// same place [same].
    ///
    /// On `Ok` it knows the histogram, which has that name and the same spec [named]. Either it knew that one before,
    /// and nothing has happened; or it knew none of the name, and has come to know, after what it knew, the first
    /// record of the name on the list, whose spec it saw to be the same [answer]. In a kept state of the segment, in
    /// which the recorder's seat has done and seen what it has, that histogram is the first of its name on the whole
    /// list, and has the same spec there [first].
    ///
    /// `BadName`, then `BadSpec`, then `TooLarge` if its record or its counts do not fit in a page, and `NoMemory` come
    /// before anything has happened; `NoMemory` only if it knew no histogram of the name, or one with another spec.
    /// `OtherSpec`: the histogram of the name that it knew has another spec, or the first record of the name has; a
    /// record that was made for this one stays on the list unused. `Corrupt` or `Full`: the call has found the end of
    /// the list after the last record that it has seen there, each of these records has another name, and no block
    /// could be claimed, as for [`Recorder::add`]. After a refusal it knows what it knew. Beyond that it has only seen
    /// more of the segment, claimed blocks, published a record or, unless it returned `Ok`, set the full flag. Each
    /// rise of the free pointer that a call refused with `Corrupt` or `Full` made wasted the rest of a page that is too
    /// short for the block that it needs [answer].
    ///
    /// On `Ok`, and on `OtherSpec`, it has claimed and published nothing; or it has claimed one block, of the words of
    /// the record or up to four more, and that is the one record that it published, of the name and the spec. It made
    /// the record when the list had none of the name: the records that it had visited, among them all that it had seen
    /// of the list before the call, were all of the list when the call loaded its end, and none of them has the name.
    /// It raises the free pointer only for that block, as [`Recorder::add`] does for its own. The full flag is
    /// unchanged [claims].
    ///
    /// A histogram that it knows with the same spec takes no memory. Else it asks for memory for the name, the values
    /// of a custom spec, the boundaries of the buckets and the words of a record, and if the list of the histograms
    /// that it knows is full, for one twice as long. It also lets its indexes of names grow: if memory runs out for
    /// that, later calls walk and search further.
    pub fn hist(&mut self, name: &[u8], spec: &Spec) -> Result<Hist, Refusal>
        ensures kept { self.new.segment ≡ self.old.segment }
        ensures same { KnowsOn self.old.state self.new.state }
        ensures named { IfOk result (IsNamed name.now spec.now self.new.state) }
        ensures answer { AnswersHist name.now spec.now self.old.state result self.new.state }
        ensures first { AnswersFirst self.new.segment.now result self.new.state }
        ensures claims { ClaimsHist name.now spec.now self.old.state result self.new.state }
    {
        self.state.hist(self.segment, name, spec)
    }

    /// Returns the histogram of the record that begins at a reference, as `records`, `fresh_records` and `next_shared`
    /// give them, without a name. The recorder records into the same segment [kept], and still knows each histogram
    /// that it knew, at the same place [same].
    ///
    /// On `Some` it knows the histogram of that record. It knew it before; or it has come to know it now, as by `hist`
    /// with the name and the spec of the record, and has claimed and published nothing. `None`: the record is not on
    /// the list, whose end it has found since; it is not one of a histogram; it has no name or no spec that may be
    /// asked for; or it is not the first of its name: that one is an earlier record or has another spec, or other bytes
    /// than zeros follow the name. `NoMemory` may come after loads. Beyond that it has only looked along the list and
    /// read the record [answer]. Unless it returned `NoMemory`, the segment came to a kept state in which the recorder's
    /// seat has done and seen what it has, so what it saw is so there; the histogram of `Some` is the first of its name
    /// on the whole list there, and has the same spec [first].
    pub fn open(&mut self, reference: u64) -> Result<Option<Hist>, Refusal>
        ensures kept { self.new.segment ≡ self.old.segment }
        ensures same { KnowsOn self.old.state self.new.state }
        ensures answer { AnswersOpen reference self.old.state result self.new.state }
        ensures first { OpensFirst self.new.segment.now result self.new.state }
    {
        self.state.open(self.segment, reference)
    }

    /// Adds a sample: `count` units of a value of a histogram that it knows. It records into the same segment [kept]
    /// and knows the same histograms [same].
    ///
    /// `ZeroCount` if `count` is 0, then `NoUnits` if the share has fewer, only for these causes, and nothing has
    /// happened. `Ok`: the one entry of the sample is at the end of the log, with the key of the value's bucket, or
    /// with the value if the histogram is sparse. The count was taken from the share and is spent for the histogram's
    /// name. `Corrupt` or `Full`: a block was needed for the sample and none could be claimed. Log and share are
    /// unchanged then, and the recorder has seen no further count, mark or redundant count. What its calls returned, took
    /// and were given is unchanged in any case, and it has seen and done no less [answer].
    ///
    /// - A block was needed: with buckets, the call has loaded a single word that could not take the units and a counts
    ///   reference of 0, and the recorder has seen no counts. Sparse, the call has found the end of the list after the
    ///   last record that the recorder has seen there, and none of these records after the histogram's is a sample of
    ///   the value.
    /// - None could be claimed: for `Full`, the words that it needs pass the end of the segment from the free pointer
    ///   that the call loaded last, and for that it has set the full flag. For `Corrupt`, the call has loaded flags
    ///   with the corrupt one. What an earlier call saw or set is no cause: between two calls a recorder holds no
    ///   free pointer. The call has claimed and published nothing, and each rise of the free pointer that it made
    ///   wasted the rest of a page that is too short for these words.
    ///
    /// On `Ok` it has claimed and published nothing, and has not raised the free pointer; or it has claimed one block,
    /// of the words that it needs or up to four more, and each rise before the one of that block wasted the rest of a
    /// page that is too short for these words. The full flag is unchanged. With buckets the block is for counts, the
    /// recorder had seen none before the call, the call has loaded a counts reference of 0, and it publishes nothing.
    /// The only other counts reference that the call saw is that block's; or another recorder's, which was first, and
    /// the block was purged. So a call that found counts claims none. Sparse, the block is the one record that it
    /// published, the sample of the value: the records that it had visited were all of the list when the call loaded
    /// its end, and none of those after the histogram's is such a sample [claims].
    ///
    /// It asks for no memory, except for its index of the samples of sparse histograms, which it lets grow: if memory
    /// runs out for that, it walks along the list, and so do later calls.
    // Inlined with the calls on its way: what a call keeps in memory, the next atomic step waits for.
    #[inline(always)]
    pub fn add(&mut self, histogram: Hist, value: i32, count: u32) -> Result<(), Refusal>
        requires { Knows self.old.state histogram }
        ensures kept { self.new.segment ≡ self.old.segment }
        ensures same { IsSameRecorder self.old.state self.new.state }
        ensures answer { AnswersAdd histogram value count self.old.state result self.new.state }
        ensures claims { ClaimsAdd histogram value self.old.state result self.new.state }
    {
        self.state.add(self.segment, histogram, value, count)
    }

    /// Counts a batch: units of values, in order, of a histogram that it knows, and then an amount that is added to
    /// the sum. The batch costs as many units as the items have, or ceil(|sum| / 2^31) if that is more. The recorder
    /// records into the same segment [kept] and knows the same histograms [same].
    ///
    /// `ZeroCount` if an item has no units, then `NoUnits` if the share has fewer than the batch costs, only for these
    /// causes, with no item counted and the recorder unchanged. `Ok`: an entry of amount 0 for each item, in order, and
    /// after them one of no units for the sum, unless that is 0, are at the end of the log. The cost is taken from the
    /// share. An empty batch with sum 0 does nothing. `Full` or `Corrupt`: the items before one are in the log, as many
    /// as the refusal says, their units are taken, and the sum is not added. That one needed a block, and none could be
    /// claimed, as for [`Recorder::add`]: since the items before it were counted, the call has loaded what an `add`
    /// has, and has claimed and published nothing; the items before it have claimed as on `Ok` [answer].
    ///
    /// On `Ok` it has claimed for each item, in order, what an `add` may claim, and nothing after: for an item that
    /// claims a block the call has found a counts reference of 0, or the end of the list, after the items before.
    /// With buckets that is one block at most for all items [claims]. It asks for memory as [`Recorder::add`] does.
    pub fn batch(
        &mut self,
        histogram: Hist,
        items: &[(i32, u32)],
        sum: i64,
    ) -> Result<(), BatchRefusal>
        requires { Knows self.old.state histogram }
        ensures kept { self.new.segment ≡ self.old.segment }
        ensures same { IsSameRecorder self.old.state self.new.state }
        ensures answer { AnswersBatch histogram items.now sum self.old.state result self.new.state }
        ensures claims { ClaimsBatch histogram items.now self.old.state result self.new.state }
    {
        self.state.batch(self.segment, histogram, items, sum)
    }

    /// Takes a delta of a histogram that it knows: of each of its keys the units that no delta has taken yet, and
    /// what is new of the sum. The recorder records into the same segment [kept] and knows the same histograms
    /// [same].
    ///
    /// `Ok`: it has taken all that it saw since the call began, of each bucket, or of each sample that it visited on
    /// the list, and of the sum. That comes after what its deltas took before. The result has only keys with units,
    /// each once and ascending, with as many units as were taken. Nothing else has changed, except that the recorder
    /// has seen more. Or `NoMemory`: then the recorder is unchanged; or the histogram is sparse, nothing was taken, and
    /// the recorder may have seen more of the list and of the words of its records [taken]. There are no more keys than
    /// [`Recorder::most_keys`] says [few].
    ///
    /// All deltas of all recorders together have then taken enough, in a kept state of the segment, in which the
    /// recorder's seat has done and seen what it has: for each key at least what was accepted before the call, by the
    /// recorder or before it was made, what it had seen in a single word, and each count that it had seen; in version 2
    /// a count and a single word together. One exception, in version 1: for the packed bucket, if the call found the
    /// single word off, at least each count that it had seen, and no more is promised. For each key they have taken, this
    /// one among them, at most what is counted in that state [owed].
    ///
    /// It asks for memory for as many keys as the histogram may have, of 16 bytes each: its buckets, or its samples on
    /// the list; and for its index of the samples of sparse histograms, which it lets grow: if memory runs out for
    /// that, it asks for as many keys as there may be samples in the segment, and walks along the list.
    pub fn delta(&mut self, histogram: Hist) -> Result<Delta, Refusal>
        requires { Knows self.old.state histogram }
        ensures kept { self.new.segment ≡ self.old.segment }
        ensures same { IsSameRecorder self.old.state self.new.state }
        ensures taken { AnswersDelta histogram self.old.state result self.new.state }
        ensures few { TakesFewKeys self.old.segment.now histogram self.old.state result }
        ensures owed { TakesEnough self.new.segment.now histogram self.old.state result self.new.state }
    {
        self.state.delta(self.segment, histogram)
    }

    /// Returns what a histogram that it knows has. The recorder records into the same segment [kept] and knows the
    /// same histograms [same].
    ///
    /// `Ok`: what it saw since the call began: the total of each bucket in order, or for each value that has units the
    /// count of its first sample; the sum; and the redundant count, which it loaded last. That comes after what its
    /// snapshots returned before. Or `NoMemory`, and what has changed is as for [`Recorder::delta`] [answer]. There are
    /// no more keys than [`Recorder::most_keys`] says [few]. Values of a sparse histogram ascend, each once and with
    /// units [values].
    ///
    /// For each key it has at least what the recorder had accepted, or seen, before, with the same exception as for
    /// [`Recorder::delta`]. The redundant count is at least the units that the recorder had accepted, and each
    /// redundant count that it had seen [owed]. The segment came to a kept state in which the recorder's seat has done
    /// and seen what it has, and for each key the snapshot has at most what is counted there; its redundant count is at
    /// most that of the opening and the units that are noted there [most]. It asks for memory as [`Recorder::delta`] does.
    pub fn snapshot(&mut self, histogram: Hist) -> Result<Snapshot, Refusal>
        requires { Knows self.old.state histogram }
        ensures kept { self.new.segment ≡ self.old.segment }
        ensures same { IsSameRecorder self.old.state self.new.state }
        ensures answer { AnswersSnapshot histogram self.old.state result self.new.state }
        ensures few { ShowsFewKeys self.old.segment.now histogram self.old.state result }
        ensures owed { ShowsEnough histogram self.old.state result self.new.state }
        ensures most { ShowsNoMore self.new.segment.now histogram self.old.state result self.new.state }
        ensures values { ShowsUnits histogram self.old.state result }
    {
        self.state.snapshot(self.segment, histogram)
    }

    /// Marks the segment as corrupt for good, so that no more blocks are claimed: from then on this recorder claims
    /// none, nor does any allocation that loads the flags later. It is never refused. The recorder has set the corrupt
    /// flag, and nothing else has changed [flag]; it records into the same segment [kept] and knows the same histograms
    /// [same].
    pub fn set_corrupt(&mut self)
        ensures kept { self.new.segment ≡ self.old.segment }
        ensures same { IsSameRecorder self.old.state self.new.state }
        ensures flag { view_of_recorder self.new ≡ spoiled (view_of_recorder self.old) }
    {
        self.state.set_corrupt(self.segment);
    }

    /// Returns the references of all records of the list in its order, each once and within the segment: first those
    /// that it had seen there, and among them each that it made, was given, or saw as the tail or where a shared cursor
    /// was. The call found the end of the list after the last of them. Nothing else has changed, except that a cursor
    /// that it had loaded may be let go. Or `NoMemory`, and nothing has changed [walked]. In a kept state of the
    /// segment, in which the recorder's seat has done and seen what it has, the list has exactly these records [all].
    /// The recorder records into the same segment [kept] and knows the same histograms [same].
    ///
    /// It asks for memory for as many references as fit in a segment, of eight bytes each, and for nothing else.
    pub fn records(&mut self) -> Result<Vec<u64>, Refusal>
        ensures kept { self.new.segment ≡ self.old.segment }
        ensures same { IsSameRecorder self.old.state self.new.state }
        ensures walked { AnswersRecords self.old.state result self.new.state }
        ensures all { AnswersList self.new.segment.now result self.new.state }
    {
        self.state.records(self.segment)
    }

    /// Returns the references of the records of the list that no earlier call gave, in its order: those of all calls,
    /// one after the other, are what [`Recorder::records`] would return now; from then on it was given all of the
    /// list. Or `NoMemory`, and nothing has changed: the next call gives them [fresh]. It records into the same
    /// segment [kept].
    ///
    /// It asks for memory for as many references as fit in a segment, of eight bytes each, and for nothing else.
    pub fn fresh_records(&mut self) -> Result<Vec<u64>, Refusal>
        ensures kept { self.new.segment ≡ self.old.segment }
        ensures fresh { AnswersFresh self.old.state result self.new.state }
    {
        self.state.fresh_records(self.segment)
    }

    /// Returns the next record of a cursor that all recorders share, which is at that record then: each record goes
    /// to one recorder alone. The recorder records into the same segment [kept] and knows the same histograms [same].
    /// The cursor is below the number that [`Segment::create`] was given.
    ///
    /// Some: a record within the segment, the next one on a chain after the place where the cursor was. That chain has
    /// each record that the recorder has seen on the list, made, been given, or seen as the tail or at a shared cursor,
    /// and what each cursor gave it is there in the order in which it was given. None: the call loaded the next of the
    /// block at which it had found the cursor, and that was the end of the list, where a chain ends that has all these
    /// records too; a later call may return a record. Before that its exchanges may have come too late [answer]. It was
    /// given that record by this cursor, or nothing [given].
    ///
    /// In a kept state of the segment, in which the recorder's seat has done and seen what it has, the cursor has given
    /// all recorders together a front of the list, each record once, and is at the end of that front; and what it gave
    /// one of them is in the order of the list. If the call returns None, this front is all of the list [shared].
    pub fn next_shared(&mut self, cursor: usize) -> Option<u64>
        requires { HasCursor self.old cursor }
        ensures kept { self.new.segment ≡ self.old.segment }
        ensures same { IsSameRecorder self.old.state self.new.state }
        ensures answer { AnswersNext cursor (view_of_recorder self.old) result (view_of_recorder self.new) }
        ensures given { (view_of_recorder self.new).done.given ≡ (view_of_recorder self.old).done.given ++ gift cursor result }
        ensures shared { AnswersFront self.new.segment.now cursor result self.new.state }
    {
        self.state.next_shared(self.segment, cursor)
    }
}
