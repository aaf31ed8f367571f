//! The laws of the machine alone, and what its definitions say of worked examples.
//!
//! The functions do nothing. What each promises is a law of the definitions in `specs/`.

ghost use Rattle.segment_machine.specs.Laws.{StepsChangeOne, KeysAreLeast};
ghost use Rattle.segment_machine.specs.Stages.{AllocationsAgree, PublishesAgree, WalksAgree};
ghost use Rattle.segment_machine.specs.Examples.{Keys, PackedRun, MountingRun, TakerRuns, TakingRun, BatchExamples};
ghost use Rattle.segment_machine.specs.Lives.{RecorderIsJoined};
ghost use Rattle.segment_machine.specs.Worked.{WorkedRun, FrozenRun};
ghost use Rattle.segment_machine.specs.Looks.{SnapshotRun, CursorRun};
ghost use Rattle.segment_machine.specs.Races.{StoppedRun, StalledRun, LostRun, RaceRun};
ghost use Rattle.segment_machine.specs.Refused.{ValuesApart, MovesFirst, RoomStays, CursorsThere, SamplesMet, WordsSince, SwapsAdd, RecordsAlone, EntriesEndFirst, OffersStay, PursesCarry, DebtsStay, TailsStay, CorruptStays, FirstEntriesApart, WordsOffFirst, UnitsRemembered, SumsStay, FirstSamplesCount, CountsBound, SingleMarksApart, MarksRise, HonestAnswers};

/// A step changes at most one word and one actor.
pub fn steps_change_one()
    ensures { StepsChangeOne }
{}

/// The key of a value is the least value of its bucket.
pub fn keys_are_least()
    ensures { KeysAreLeast }
{}

/// An actor follows an allocation that is stepped by itself: while the two agree, the actor may do the allocation's
/// next event, and afterwards they agree again.
pub fn allocations_agree()
    ensures { AllocationsAgree }
{}

/// An actor follows a publish in the same way. Such a publish never strays.
pub fn publishes_agree()
    ensures { PublishesAgree }
{}

/// An actor follows a walk from the start in the same way: what the walk has given is the front of the chain that the
/// actor has seen.
pub fn walks_agree()
    ensures { WalksAgree }
{}

/// The keys of values, with buckets and without.
pub fn keys()
    ensures { Keys }
{}

/// A sample that is packed goes through its events to the log.
pub fn packed_run()
    ensures { PackedRun }
{}

/// A sample of another bucket claims and mounts a counts block, disables the single word, moves its units and counts
/// its own, in this order; each event may be done when its turn comes.
pub fn mounting_run()
    ensures { MountingRun }
{}

/// A taker takes what is above the mark that it finds, and nothing if another taker came first.
pub fn taker_runs()
    ensures { TakerRuns }
{}

/// A delta of a packed word: each of its events may be done, and then it has taken all and may end.
pub fn taking_run()
    ensures { TakingRun }
{}

/// The entries of a batch and what it costs.
pub fn batches()
    ensures { BatchExamples }
{}

/// A recorder is made with the units that were offered, is lent more, gives one back, and is joined: then the opener
/// has all units again, and has seen what the recorder saw.
pub fn recorder_is_joined()
    ensures { RecorderIsJoined }
{}

/// Two numbers with the same word do not count in the same sample.
pub fn values_apart()
    ensures { ValuesApart }
{}

/// Nothing is counted while units are moving.
pub fn moves_first()
    ensures { MovesFirst }
{}

/// The rest of a page is not wasted for a block that it has room for.
pub fn room_stays()
    ensures { RoomStays }
{}

/// A cursor that does not exist is not loaded.
pub fn cursors_there()
    ensures { CursorsThere }
{}

/// The count of a sample is loaded only once the sample was visited.
pub fn samples_met()
    ensures { SamplesMet }
{}

/// A single mark is raised to what was seen since the delta began.
pub fn words_since()
    ensures { WordsSince }
{}

/// A delta that swaps the sum mark twice has taken both differences.
pub fn swaps_add()
    ensures { SwapsAdd }
{}

/// A record is published without counts.
pub fn records_alone()
    ensures { RecordsAlone }
{}

/// A call continues with one more entry only once all of its entries have ended.
pub fn entries_end_first()
    ensures { EntriesEndFirst }
{}

/// Units that are offered to the next recorder are not lent, and a recorder gives back none that it does not have.
pub fn offers_stay()
    ensures { OffersStay }
{}

/// A purse carries offered units from an opener to a recorder, also when 256 recorders are outstanding, and to nobody
/// else.
pub fn purses_carry()
    ensures { PursesCarry }
{}

/// A recorder that owes an answer is not joined.
pub fn debts_stay()
    ensures { DebtsStay }
{}

/// A join keeps the tails that were seen.
pub fn tails_stay()
    ensures { TailsStay }
{}

/// An actor that has loaded flags with the corrupt one has seen it for good; a join keeps that, and a new recorder
/// has it of its opener.
pub fn corrupt_stays()
    ensures { CorruptStays }
{}

/// First entries were accepted, and no redundant count that is kept has them.
pub fn first_entries_apart()
    ensures { FirstEntriesApart }
{}

/// Units are not moved before the word is disabled.
pub fn words_off_first()
    ensures { WordsOffFirst }
{}

/// An actor that disabled a word with units moves these before it does anything else.
pub fn units_remembered()
    ensures { UnitsRemembered }
{}

/// A packed sample does not end without its sum.
pub fn sums_stay()
    ensures { SumsStay }
{}

/// A unit of a value counts in its first sample alone.
pub fn first_samples_count()
    ensures { FirstSamplesCount }
{}

/// A mark is not raised past the count that was loaded.
pub fn counts_bound()
    ensures { CountsBound }
{}

/// The packed bucket is not marked in the counts block.
pub fn single_marks_apart()
    ensures { SingleMarksApart }
{}

/// A mark is not taken by a load and a store.
pub fn marks_rise()
    ensures { MarksRise }
{}

/// The honest answer of a sparse snapshot may be given.
pub fn honest_answers()
    ensures { HonestAnswers }
{}

/// Two recorders pack, mount, move, sample and count a batch, with deltas and their joins; a third takes the rest. In
/// version 1.
pub fn worked_run()
    ensures { WorkedRun }
{}

/// The same in version 2, where the frozen word keeps its units.
pub fn frozen_run()
    ensures { FrozenRun }
{}

/// If all stop between a disabling exchange and the addition, two units are in transit in version 1, and the words have
/// none of them; in version 2 the frozen word has them.
pub fn stopped_run()
    ensures { StoppedRun }
{}

/// A taker that stalls with a packed word, while another takes all, takes nothing. In both versions.
pub fn stalled_run()
    ensures { StalledRun }
{}

/// If two counts blocks are mounted at once, one is lost, and its type becomes 0.
pub fn lost_run()
    ensures { LostRun }
{}

/// If two samples of one value are made at once, the first on the list has all units. In both versions.
pub fn race_run()
    ensures { RaceRun }
{}

/// A snapshot of packed units that were moved returns what was counted.
pub fn snapshot_run()
    ensures { SnapshotRun }
{}

/// A shared cursor gives two recorders each record once.
pub fn cursor_run()
    ensures { CursorRun }
{}
