//! What follows for code that steps a segment, and what a delta and a snapshot owe in worked examples.
//!
//! The functions do nothing. What each promises is a law of the definitions in `specs/`.

ghost use Rattle.segment_promises.specs.States.{ReachedStatesFollow, StatesRise, StatesAreKept, StatesAreConsistent};
ghost use Rattle.segment_promises.specs.FreePointer.{FreePointerIsRaised};
ghost use Rattle.segment_promises.specs.Follows.{StepsFollow, TablesOpen, TablesClose, TablesFollow, TablesAnnounce, TablesOffer, TablesSplit, TablesJoin, TablesFill, TablesPour};
ghost use Rattle.segment_promises.specs.Tallies.{PartsAddUp, TalliesAreCounts};
ghost use Rattle.segment_promises.specs.Deltas.{FinalDeltasTakeAll, LoneDeltasTakeAll, FinalSnapshotsAreExact, SnapshotsStayBelow, DeltasTakeAccepted, SnapshotsSeeAccepted};
ghost use Rattle.segment_promises.specs.Reads.{WordsRead, StoppedReads, JoinedReads};
ghost use Rattle.segment_promises.specs.Refusals.{RefusedAddsFew};
ghost use Rattle.segment_promises.specs.Spoilers.{SpoilersClaimNothing};
ghost use Rattle.segment_promises.specs.Lists.{LinksAppend, ChainsAreLinks, WalksGiveAll, CursorsKeepOrder, CursorsGiveFronts, CursorsGiveAll, NamesAreFirst, OthersDiffer};
ghost use Rattle.segment_promises.specs.Adoption.{AdoptionOpens, KeptAreAdoptable};
ghost use Rattle.segment_promises.specs.Examples.{LinksLengthen, DeltaOwes, SnapshotOwes};

/// Every state that is reached from a kept one is kept, in whatever order actors step, whatever the segment was
/// opened with.
pub fn reached_states_follow()
    ensures { ReachedStatesFollow }
{}

/// What is published in a kept state continues in every state that is reached from it.
///
/// - Each published block stays where it is. What was given to its maker stays, and so does a record's counts reference
///   once it has one.
/// - Counts, redundant counts and marks rise.
/// - What was spent on a name does not come back, and the sum of a record changes by at most 2^31 times what was spent
///   on its name since. How a sum mark changes is not said here.
/// - A single word that names a bucket leads to words that name the same bucket, with no fewer units or, in version 1,
///   disabled; one that is off never changes.
/// - A block that is published later is where no published block was.
/// - The list has the same records in the same order, and maybe more at its end. What came no later than the tail still
///   does.
/// - The free pointer is no lower, and a flag that is set stays set.
pub fn states_rise()
    ensures { StatesRise }
{}

/// The free pointer of a state is where it was in the kept state from which that is reached, and higher by the rises that
/// actors have noted since.
pub fn free_pointer_is_raised()
    ensures { FreePointerIsRaised }
{}

/// Every state that is reached from a new segment of version 1 or 2 is kept.
pub fn states_are_kept()
    ensures { StatesAreKept }
{}

/// Every state that is reached from a new segment of version 1 or 2 is consistent, in all eight parts.
pub fn states_are_consistent()
    ensures { StatesAreConsistent }
{}

/// A step keeps what holds, and its actor learns of the number that it found.
pub fn steps_follow()
    ensures { StepsFollow }
{}

/// A table of atomic words, whose slots have values of a type, is opened with the words of a kept segment and its one
/// actor.
pub fn tables_open<S>()
    ensures { TablesOpen S }
{}

/// A table that is closed has the words of a kept segment, and its first seat has the view of the opener.
pub fn tables_close<S>()
    ensures { TablesClose S }
{}

/// A table may do a step on a segment's words that is an event, with ghost notes before and after it.
pub fn tables_follow<S>()
    ensures { TablesFollow S }
{}

/// A table may do a step on the word that never changes and make ghost notes by it alone.
pub fn tables_announce<S>()
    ensures { TablesAnnounce S }
{}

/// By a step on the word that never changes an opener may also say how many units it hands out next.
pub fn tables_offer<S>()
    ensures { TablesOffer S }
{}

/// An opener's seat may be split in two if the opener may make a recorder.
pub fn tables_split<S>()
    ensures { TablesSplit S }
{}

/// An opener's seat may take in the seat of a recorder that the opener may join.
pub fn tables_join<S>()
    ensures { TablesJoin S }
{}

/// An opener's seat may be split in two if the opener may fill a purse with the units that it offered, also when 256
/// recorders are outstanding.
pub fn tables_fill<S>()
    ensures { TablesFill S }
{}

/// A recorder's seat may take in that of a purse: then the recorder has the purse's units too, and nothing else
/// changes.
pub fn tables_pour<S>()
    ensures { TablesPour S }
{}

/// If a list is split into n parts by number modulo n, the tallies of the parts add up to that of the list.
pub fn parts_add_up()
    ensures { PartsAddUp }
{}

/// Words that satisfy all that the invariant says of words alone read without a fault, even if no state has them.
///
/// - No record is bad, and the list does not stop.
/// - For each name on the list exactly one histogram is read: the first record of the name, with the spec that its
///   maker was given.
/// - For each key the units and the mark that are read are what the blocks hold of it; so are the sum, the redundant
///   count and the sum mark.
pub fn words_read()
    ensures { WordsRead }
{}

/// For any kept state: whenever everything stops, the words read as exactly the published histograms, with all units
/// except those in transit.
///
/// - No record is bad, and the list does not stop. The id is the opening's. A flag is read exactly if the opening had
///   it or an actor has set it; so the corrupt one is read if an actor has seen it.
/// - For each name on the list exactly one histogram is read: the first record, with the spec that its maker was
///   given.
/// - For each key the units are those that were counted, less those in transit. So a bucket holds every unit of ended
///   calls except those in transit, and no unit of a call that had not begun. Only the packed bucket, in version 1,
///   has units in transit: they are just being moved out of the single word.
/// - Sum, redundant count, marks and sum mark are what was added, noted and taken.
pub fn stopped_reads()
    ensures { StoppedReads }
{}

/// For any kept state: once all recorders are joined, the words read as the histograms that `hist` returned, each
/// once, with its spec.
///
/// Units and sum are the tally of the opener's log: what one thread records of the accepted samples. The redundant
/// count is that of the opening plus the units noted since. Marks and sum mark are what was taken. A flag is read
/// exactly if the opening had it or an actor has set it.
pub fn joined_reads()
    ensures { JoinedReads }
{}

/// After the joins, if a histogram had a final delta, all its deltas together took its totals and its sum.
pub fn final_deltas_take_all()
    ensures { FinalDeltasTakeAll }
{}

/// After the joins: if no recorder was outstanding when the recorder of a delta was made, and none was made since, the
/// deltas up to that one took exactly what the entries before it in the log add up to.
pub fn lone_deltas_take_all()
    ensures { LoneDeltasTakeAll }
{}

/// After the joins, a final snapshot has the totals, the sum and the redundant count.
pub fn final_snapshots_are_exact()
    ensures { FinalSnapshotsAreExact }
{}

/// After the joins, no bucket and no value of any snapshot is above the final total.
pub fn snapshots_stay_below()
    ensures { SnapshotsStayBelow }
{}

/// A refused call that counts has counted and noted its first entries, and added no amount. None of its units
/// are in transit, and it took nothing. A refused `add` has counted no entry.
pub fn refused_adds_few()
    ensures { RefusedAddsFew }
{}

/// Once a recorder has set the corrupt flag, its calls claim no block until it is joined, in whatever order actors
/// step.
pub fn spoilers_claim_nothing()
    ensures { SpoilersClaimNothing }
{}

/// A link puts its record at the end of the chain, and nothing else changes the chain.
pub fn links_append()
    ensures { LinksAppend }
{}

/// The chain of a state that is reached is the earlier chain, followed by the records that were linked since, in the
/// order of their links.
pub fn chains_are_links()
    ensures { ChainsAreLinks }
{}

/// A walk along the list gives the front of the chain; at its end it has given all that its caller had made, been given
/// or seen.
pub fn walks_give_all()
    ensures { WalksGiveAll }
{}

/// What a shared cursor gave one recorder is in the order of the chain.
pub fn cursors_keep_order()
    ensures { CursorsKeepOrder }
{}

/// What a shared cursor gave all recorders together is the front of the chain, each record once.
pub fn cursors_give_fronts()
    ensures { CursorsGiveFronts }
{}

/// A shared cursor returns None only once all that its caller had made, been given or seen was given.
pub fn cursors_give_all()
    ensures { CursorsGiveAll }
{}

/// The tally of the entries of samples is what `tally` returns of the samples.
pub fn tallies_are_counts()
    ensures { TalliesAreCounts }
{}

/// A histogram that `hist` returned is the first record of its name on the chain, with the same spec.
pub fn names_are_first()
    ensures { NamesAreFirst }
{}

/// A call that refuses with `OtherSpec`, because it saw another spec in the first record of the name, is right: that
/// record has another spec.
pub fn others_differ()
    ensures { OthersDiffer }
{}

/// Once a delta has taken all that it saw, all deltas together took of each bucket and value at least what its
/// recorder had accepted and seen.
///
/// One exception: in version 1, once the packed bucket's units were moved out of the single word, the deltas took of
/// that bucket at least each count that the recorder had seen, and no more is promised.
pub fn deltas_take_accepted()
    ensures { DeltasTakeAccepted }
{}

/// A snapshot that is returned has of each bucket and value at least what its recorder had accepted and seen, with
/// the same exception as `deltas_take_accepted`. Its redundant count is at least that of the opening plus the units
/// that were accepted since, and at least each redundant count that its recorder had seen.
pub fn snapshots_see_accepted()
    ensures { SnapshotsSeeAccepted }
{}

/// In version 2, while the corrupt flag is not set, the words of a kept state may be adopted: they have none of the
/// faults of adoption.
pub fn kept_are_adoptable()
    ensures { KeptAreAdoptable }
{}

/// An image that has none of the faults of adoption opens a kept segment, with any number of shared cursors.
///
/// Its records are those on the image's list. Its opener has one first entry for each key that has units, and one for
/// each sum that is not 0. The marks and sum marks count as taken before the opening, and its pool has all units except
/// those that the image has used. So all that holds of a kept state holds of each state that is reached from there.
/// Such a state is consistent, with the image's words as its opening.
pub fn adoption_opens()
    ensures { AdoptionOpens }
{}

/// A link that finds the end of the list adds its record to the chain.
pub fn links_lengthen()
    ensures { LinksLengthen }
{}

/// A delta of a packed word took what had been accepted.
pub fn delta_owes()
    ensures { DeltaOwes }
{}

/// A snapshot of a packed word has what had been accepted.
pub fn snapshot_owes()
    ensures { SnapshotOwes }
{}
