//! What holds between any two events, the invariant, holds of a new segment and is kept by everything that happens; and
//! what follows from it.
//!
//! The functions do nothing. Each promises a law about the definitions in `specs/`: that the invariant is kept, in
//! `specs/Keeps.antt`; worked examples, in `specs/Examples.antt`, `specs/Accounts.antt` and `specs/Refused.antt`.

ghost use Rattle.segment_invariant.specs.Examples.{PackedThenMounted, StoppedInTransit, PackingLimit, DeltasAndMarks, TwoTakers, SparseSamples, MountedIsConsistent, ListBreaks, RecordsBreak, TotalsBreak, MarksBreak, SumsBreak, TransitBreaks, FlagsBreak, UnitsBreak};
ghost use Rattle.segment_invariant.specs.Accounts.{MountedAgrees, LimitAgrees, TakersAgree, SparseAgrees, BatchAgrees};
ghost use Rattle.segment_invariant.specs.Refused.{CountsLoaded, UnitsSpent, CountsOwe, WordsFormed, KindsRead};
ghost use Rattle.segment_invariant.specs.Keeps.{OpeningIsKept, NewIsOpening, OpeningsAreKept, AllocatingKeeps, PublishingKeeps, WalkingKeeps, CountingKeeps, PackingKeeps, TakingKeeps, CursorsKeep, EventsKeep, OffersKeep, SplitsKeep, JoinsKeep, LendsKeep, ReturnsKeep, FillsKeep, PoursKeep, AnnouncementsKeep, KeptFlagsAreSet, KeptIsChain, KeptUnitsAreKept, KeptTransitIsLocal, KeptSumsAreAmounts, KeptTotalsAreCounted, KeptMarksAreTaken, NotesKeep, KeptRecordsHold, KeptIsConsistent};

/// Two packed units are moved to the counts, and the next sample is counted there: the events lead to the words of the
/// segment that is mounted, and its totals, its sum and its redundant count are those of the entries.
pub fn packed_then_mounted()
    ensures { PackedThenMounted }
{}

/// At a stop between disabling and moving, the totals and the units in transit are together what was counted.
pub fn stopped_in_transit()
    ensures { StoppedInTransit }
{}

/// At most 65,535 units are packed; in version 2 a frozen word keeps them.
pub fn packing_limit()
    ensures { PackingLimit }
{}

/// Marks are what the deltas took; and which of these deltas are final.
pub fn deltas_and_marks()
    ensures { DeltasAndMarks }
{}

/// What one taker has taken, another does not take again.
pub fn two_takers()
    ensures { TwoTakers }
{}

/// The keys of a sparse histogram are its values.
pub fn sparse_samples()
    ensures { SparseSamples }
{}

/// The segment that was packed and then mounted is consistent, with the actor that recorded 1, 1 and 0.
pub fn mounted_is_consistent()
    ensures { MountedIsConsistent }
{}

/// The ledger of the segment that was packed and then mounted, settled and while its units are in transit: what the blocks hold and
/// what is in transit is what the actors counted.
pub fn mounted_agrees()
    ensures { MountedAgrees }
{}

/// The ledger at the packing limit.
pub fn limit_agrees()
    ensures { LimitAgrees }
{}

/// The ledger with deltas, of one taker and of two: the marks that blocks hold are what was taken.
pub fn takers_agree()
    ensures { TakersAgree }
{}

/// The ledger of a sparse histogram.
pub fn sparse_agrees()
    ensures { SparseAgrees }
{}

/// The ledger of a batch.
pub fn batch_agrees()
    ensures { BatchAgrees }
{}

/// If a word after the free pointer is not 0, the list is not a chain.
pub fn list_breaks()
    ensures { ListBreaks }
{}

/// A record that was published before its name was stored does not hold what it was given.
pub fn records_break()
    ensures { RecordsBreak }
{}

/// Totals are not what was counted if packed units were added to the counts while the single word still has them.
pub fn totals_break()
    ensures { TotalsBreak }
{}

/// Marks are not what was taken if two deltas took the same units.
pub fn marks_break()
    ensures { MarksBreak }
{}

/// Sums are not the amounts if a packed sample was left out.
pub fn sums_break()
    ensures { SumsBreak }
{}

/// Transit is not local if no bucket was packed.
pub fn transit_breaks()
    ensures { TransitBreaks }
{}

/// Flags are not set rightly if the corrupt flag is set and nobody has set it, or if somebody has seen it and it is not
/// set.
pub fn flags_break()
    ensures { FlagsBreak }
{}

/// Units are not kept if a unit was spent and is still in a share.
pub fn units_break()
    ensures { UnitsBreak }
{}

/// What was loaded as a count is the count of a bucket, or of a sample.
pub fn counts_loaded()
    ensures { CountsLoaded }
{}

/// A unit that is logged is spent.
pub fn units_spent()
    ensures { UnitsSpent }
{}

/// A count that was seen of a known record has at least what was accepted.
pub fn counts_owe()
    ensures { CountsOwe }
{}

/// A single word that was seen has a form.
pub fn words_formed()
    ensures { WordsFormed }
{}

/// A record's kind is one of those that are read.
pub fn kinds_read()
    ensures { KindsRead }
{}

/// A new segment with its opener is kept: the invariant holds of it.
pub fn opening_is_kept()
    ensures { OpeningIsKept }
{}

/// The words of a new segment of a valid shape, in version 1 or 2, are an opening: what a segment may be opened with.
pub fn new_is_opening()
    ensures { NewIsOpening }
{}

/// The invariant holds of a new segment with any number of recorders that its opener has made.
pub fn openings_are_kept()
    ensures { OpeningsAreKept }
{}

/// Each event that allocates a block, stores into it or sets a flag keeps the invariant, and what is published
/// continues. Its actor learns that the free pointer that it found is valid and no earlier than the one that it knew,
/// and that the corrupt flag is set if this actor has set it.
pub fn allocating_keeps()
    ensures { AllocatingKeeps }
{}

/// Each event that puts a record on the list keeps the invariant, and what is published continues. Its actor learns
/// that what it found is the end of the list or a record that lies within the segment. Links that come too late are
/// few: the list has one more record for each.
pub fn publishing_keeps()
    ensures { PublishingKeeps }
{}

/// Each event that walks along the list keeps the invariant, and what is published continues. Its actor learns that
/// what it found is the end of the list or a record, which with its name and its ranges lies within the segment; it is
/// what the actor found there before. At the end it has visited all records that it published, was given, or saw as
/// tail or cursor.
pub fn walking_keeps()
    ensures { WalkingKeeps }
{}

/// Each event that counts an entry keeps the invariant: loading a counts reference, and adding units to a count, an
/// amount to a sum, and units to a redundant count. What is published continues, and a sum changes by no more than 2^31
/// times what is spent on it. Its actor learns that counts lie within the segment, and that the units it adds fit.
pub fn counting_keeps()
    ensures { CountingKeeps }
{}

/// Each event that packs keeps the invariant: loading and packing a single word, mounting counts or purging a lost
/// block of them, disabling the word, and adding the units that it had. What is published continues. Its actor learns
/// what became of the word that it saw before, and that the units it adds fit.
pub fn packing_keeps()
    ensures { PackingKeeps }
{}

/// Each event of a delta or a snapshot keeps the invariant: loading a count, a sum or a redundant count, raising a mark
/// to what was seen, and swapping the sum mark for the sum. What is published continues. Its actor learns that what it
/// found is a number of units or a sum that fits, and that a later sample of a value counts nothing.
pub fn taking_keeps()
    ensures { TakingKeeps }
{}

/// Each event of a shared cursor keeps the invariant, and what is published continues. Its actor learns that the cursor
/// was at a record, or before the first one. Exchanges that come too late are few.
pub fn cursors_keep()
    ensures { CursorsKeep }
{}

/// Each event, of any family, keeps the invariant, in versions 1 and 2. What is published continues, a sum changes by
/// no more than 2^31 times what is spent on it, and the actor learns something about what it found.
pub fn events_keep()
    ensures { EventsKeep }
{}

/// The invariant is kept when an opener says how many units it hands out next, and what is published continues.
pub fn offers_keep()
    ensures { OffersKeep }
{}

/// The invariant is kept when an opener makes a recorder, and what is published continues.
pub fn splits_keep()
    ensures { SplitsKeep }
{}

/// The invariant is kept when an opener joins a recorder, and what is published continues.
pub fn joins_keep()
    ensures { JoinsKeep }
{}

/// The invariant is kept when an opener lends units to a recorder, and what is published continues.
pub fn lends_keep()
    ensures { LendsKeep }
{}

/// The invariant is kept when an opener takes units back from a recorder, and what is published continues.
pub fn returns_keep()
    ensures { ReturnsKeep }
{}

/// The invariant is kept when an opener puts the units that it offered into a purse, and what is published continues.
pub fn fills_keep()
    ensures { FillsKeep }
{}

/// The invariant is kept when a purse is poured out to a recorder, and what is published continues.
pub fn pours_keep()
    ensures { PoursKeep }
{}

/// The invariant is kept when a recorder writes ghost notes without an event, and what is published continues.
pub fn announcements_keep()
    ensures { AnnouncementsKeep }
{}

/// A flag of a kept state is set exactly if it was set at the opening or an actor has set it; the corrupt flag is set
/// if an actor has seen it.
pub fn kept_flags_are_set()
    ensures { KeptFlagsAreSet }
{}

/// The list of a kept state is the chain: the records of the opening, and after them those that actors linked.
pub fn kept_is_chain()
    ensures { KeptIsChain }
{}

/// The units of a kept state are kept, and its sums are bounded by what was spent.
pub fn kept_units_are_kept()
    ensures { KeptUnitsAreKept }
{}

/// In a kept state units are in transit in version 1 alone, and of the packed bucket alone.
pub fn kept_transit_is_local()
    ensures { KeptTransitIsLocal }
{}

/// The sums of a kept state are the amounts, and its redundant counts grew by the units; nothing is left out or counted
/// twice.
pub fn kept_sums_are_amounts()
    ensures { KeptSumsAreAmounts }
{}

/// The totals of a kept state, together with the units in transit, are what was counted.
pub fn kept_totals_are_counted()
    ensures { KeptTotalsAreCounted }
{}

/// The marks of a kept state are what was taken, and no more than was counted.
pub fn kept_marks_are_taken()
    ensures { KeptMarksAreTaken }
{}

/// Each ghost note of a recorder keeps the invariant, and what is published continues. Such a note says that a call
/// that counts begins, continues or ends, that an amount became known, that a delta or a snapshot begins or ends, what
/// a block of the recorder's own is to hold, or which histogram a `hist` returned.
pub fn notes_keep()
    ensures { NotesKeep }
{}

/// The records of a kept state hold what they were given, those of the opening what they held there, and all have valid
/// forms.
pub fn kept_records_hold()
    ensures { KeptRecordsHold }
{}

/// A kept state is consistent in all eight parts, whatever its segment was opened with.
pub fn kept_is_consistent()
    ensures { KeptIsConsistent }
{}
