//! What a look at a running segment has, whatever its recorders do meanwhile, and in whatever order the words of each
//! copy are loaded.
//!
//! The functions do nothing. What each promises is a law of the definitions in `specs/`.

ghost use Rattle.look_promises.specs.Looks.{LooksHaveHeaders, LooksFollow, CopiesShowBlocks, CopiesKeepOthers, RecordsStartAtZero, LooksNameCounts, LooksCountBetween, CountsStartAtZero, LooksCountUnits};
ghost use Rattle.look_promises.specs.Images.{LooksShowRecords, LooksShowCounts, LooksHaveSums, LooksCountTotals, LooksBoundMarks, LooksHaveForms, LooksMarkPacked, LooksBoundSamples, LooksCountCalls, LooksCountValues, LooksAreOfOneMoment, LooksRise, LooksKeepHeaders, LooksEndInZeros};
ghost use Rattle.look_promises.specs.OneMoment.{LoneOpenersCountFirst, OpeningsNoteNoMore, LooksTellTheirMoment, ReadingsTellTheirMoment, ReadingsNoteNoMore};
ghost use Rattle.look_promises.specs.Reading.{LooksRead, LooksAreAdoptable, ReadingsRise};
ghost use Rattle.look_promises.specs.Sums.{ReadingsSayTheirSums, ReadingsBoundTheirSums, ReadingsRaiseTheirSums, ReadingsTellTheirMeans};
ghost use Rattle.look_promises.specs.Lives.{ReadingsRiseToTheStop, ReadingsRiseAcrossRestarts, SumsRiseAcrossRestarts, LivesGoOn, LivesTellMoments};

/// Three copies of the words of a running segment, taken one after the other, have no fault: a look can be made of
/// them.
///
/// The header of a look has the segment's shape, version 2, and the id of the opening. The free pointer, the tail and
/// the flags are each those of the moment at which the third copy loaded that word.
pub fn looks_have_headers()
    ensures { LooksHaveHeaders }
{}

/// The records that a look follows are on the list, in its order and each once: all that were on it at the first
/// moment, and none that was not on it at the last.
///
/// The nexts of the second copy give them. Each next is loaded at a moment of its own. If its record is on the list
/// then, the next is the record after it, or the end of the list. If not, it is 0 or the end of the list, since the
/// actor that links the record later has it in hand, or nobody has claimed its words yet.
pub fn looks_follow()
    ensures { LooksFollow }
{}

/// The third copy has each record that a look follows as it was published: its size, its type, and what was given to
/// its maker, as these are at the last moment.
pub fn copies_show_blocks()
    ensures { CopiesShowBlocks }
{}

/// Each copy has unchanged, except for their nexts, the blocks of the opening in which nobody counts: records that are
/// passed over and their counts, and blocks of other types.
pub fn copies_keep_others()
    ensures { CopiesKeepOthers }
{}

/// The words of a record that change once it is published are 0 as long as it is not on the list: of a histogram its
/// counts reference, its single word, its marks, its sum and its redundant count; of a sample its count and its mark.
///
/// So a copy that loaded such a word too early has 0 there, and nothing of what the block was before.
pub fn records_start_at_zero()
    ensures { RecordsStartAtZero }
{}

/// The counts reference that a look takes from a histogram's record is 0, or the one that the record has at the last
/// moment, which never changes.
pub fn looks_name_counts()
    ensures { LooksNameCounts }
{}

/// The counters of each record that a look follows are at least those that the record had at the first moment, if it
/// was there, and at most those that it has at the last. The counters of a histogram are its single mark and its
/// redundant count, those of a sample its mark and its count. This holds in the first copy and in the second.
pub fn looks_count_between()
    ensures { LooksCountBetween }
{}

/// A look has each record that it follows with the words that the record has at the last moment, except for its next
/// and the words that change.
///
/// Its next gives the record after it, or ends the list. A histogram's single word and sum come from the second copy;
/// its single mark, sum mark and redundant count from the first; its counts reference from the second, or from the
/// third if the second has no reference yet but a single word that is off. A sample's count comes from the second copy,
/// and its mark from the first.
pub fn looks_show_records()
    ensures { LooksShowRecords }
{}

/// If a look takes a counts reference from a record that it follows, it has the counts block there as it is at the last
/// moment, except for the counts and marks: the counts are those of the second copy, or 0 if the record's single word
/// was not off there; the marks are those of the first copy.
pub fn looks_show_counts()
    ensures { LooksShowCounts }
{}

/// Each count and each mark of a counts block is 0 as long as its record does not name the block.
///
/// A block is mounted with nothing stored in it, by an actor that has had it in hand since its words were claimed, and
/// what is stored in a block in hand stays. So a copy that loaded such a word too early has 0 there.
pub fn counts_start_at_zero()
    ensures { CountsStartAtZero }
{}

/// The counts and marks of each counts block that a record names at the last moment are, in the first copy and in the
/// second, at least those of the first moment, if the block was there, and at most those of the last.
pub fn looks_count_units()
    ensures { LooksCountUnits }
{}

/// The sum that a look takes from a record, out of the second copy, and its sum mark, out of the first, are ones that a
/// reader accepts: near 0 and near each other.
pub fn looks_have_sums()
    ensures { LooksHaveSums }
{}

/// The total of each bucket that a look takes from a record, which is its count and the units that the single word
/// packs, is at least that of the first moment, if the record was there, and at most that of the last.
///
/// The counts are loaded at moments of their own, and so is the single word; but in version 2 a single word that is off
/// keeps its units, and counts are 0 until it is off.
pub fn looks_count_totals()
    ensures { LooksCountTotals }
{}

/// No total that a look takes from a record is above 4,294,967,295, which is all that a segment may count, and no mark
/// is above the total of its bucket.
///
/// A mark is at most the total of the moment at which it was loaded, and the total that a look takes is at least that
/// one: marks come from the first copy, and totals from the second. The mark of a bucket that the single word names is
/// the single mark.
pub fn looks_bound_marks()
    ensures { LooksBoundMarks }
{}

/// The single word that a look takes from a record has a form of version 2; and if it is off, the look takes a counts
/// reference.
pub fn looks_have_forms()
    ensures { LooksHaveForms }
{}

/// If the single word that a look takes from a record packs no bucket, the single mark that it takes is 0.
pub fn looks_mark_packed()
    ensures { LooksMarkPacked }
{}

/// The count that a look takes from a sample is at most 4,294,967,295, and its mark at most its count.
pub fn looks_bound_samples()
    ensures { LooksBoundSamples }
{}

/// The total of each bucket that a look takes from a histogram is at least the units of all calls that had ended at the
/// first moment, and at most those of the calls that had begun at the last.
///
/// The record is the first of its name on the list, as it is for a reader. The calls that had ended include all that
/// the segment was opened with.
pub fn looks_count_calls()
    ensures { LooksCountCalls }
{}

/// The count that a look takes for a value of a sparse histogram is at least the units of all calls that had ended at
/// the first moment, and at most those of the calls that had begun at the last. It is that of the first sample of the
/// value.
pub fn looks_count_values()
    ensures { LooksCountValues }
{}

/// If all the units that a look takes from a record are no more than those that the record had at a moment no later
/// than any load of the second copy, each total that it takes is the one of that moment.
///
/// No total is less than it was then, so none can be more. A redundant count is such a sum of units, loaded as one
/// word, in the first copy.
pub fn looks_are_of_one_moment()
    ensures { LooksAreOfOneMoment }
{}

/// If one look's second copy was loaded no earlier than another's, the later look has no total of a bucket, and no
/// count of a sample, below that of the earlier one. So the difference of the two is what was counted between them, and
/// is never negative.
///
/// Nothing is required of the other copies: two looks may be taken at the same time.
pub fn looks_rise()
    ensures { LooksRise }
{}

/// A look has the header of the third copy, except for its tail, which is the last of the records that it follows, and
/// the start of its list, which is the first; if it follows none, both are the queue block.
pub fn looks_keep_headers()
    ensures { LooksKeepHeaders }
{}

/// A look is 0 from its free pointer to its end, whatever was claimed since the free pointer was loaded.
///
/// All that it takes of records is before the free pointer, and the rest is cleared.
pub fn looks_end_in_zeros()
    ensures { LooksEndInZeros }
{}

/// In a kept state whose one actor is its opener, as at each opening, nothing is noted that is not counted, because
/// nobody counts.
///
/// So a run may begin there if a law requires this.
pub fn lone_openers_count_first()
    ensures { LoneOpenersCountFirst }
{}

/// A new segment has noted nothing. One that was adopted has noted no more units of a name than it was opened with, if
/// no histogram of that name is read from the image with a redundant count above its units.
///
/// So the laws about one moment, which require this, hold for each new segment, and for one that was adopted from such
/// an image. A look at such a segment is such an image again (`readings_note_no_more`).
pub fn openings_note_no_more()
    ensures { OpeningsNoteNoMore }
{}

/// If the units that a look takes from a histogram are no more than the redundant count that it takes from it, each
/// total is the one of the moment at which the redundant count was loaded; or 0, if the record was not on the list
/// then.
///
/// A call adds to the redundant count last, so at no moment is it more than the units; and units rise until they are
/// loaded. If the opening had a redundant count above the units of its image, as a forged image may, nothing is
/// promised.
pub fn looks_tell_their_moment()
    ensures { LooksTellTheirMoment }
{}

/// A look has a valid header, and reads without a bad record and without a stop.
///
/// - The histograms are those of all records that were on the list at the first moment, and maybe of some that were
///   linked by the last: for each name the first record, with its spec.
/// - For each key a histogram has at least the units of all calls that had ended at the first moment, and at most those
///   of the calls that had begun at the last.
/// - No mark is more than the units of its key.
pub fn looks_read()
    ensures { LooksRead }
{}

/// No histogram of a look is read with a redundant count above its units, if the opening had none like that.
///
/// The redundant count comes from the first copy, and the units from the second.
pub fn readings_note_no_more()
    ensures { ReadingsNoteNoMore }
{}

/// If all the units that are read of a histogram of a look are no more than its redundant count, it has for each key
/// exactly what had been counted of its name at the moment at which the redundant count was loaded: its counts are of
/// one moment.
///
/// This holds for a sparse histogram too. It requires that the redundant count at the opening was at most the units
/// there, and that at the beginning of the run no call had noted what it had not counted, as at an opening, when no
/// call runs.
pub fn readings_tell_their_moment()
    ensures { ReadingsTellTheirMoment }
{}

/// A look may be adopted unless the corrupt flag was loaded: it has none of the faults of adoption.
///
/// Its blocks do not overlap, it is 0 from its free pointer on, and its histograms have used no more units than a
/// segment has. So recording may continue from it as from an image of a segment that was stopped.
pub fn looks_are_adoptable()
    ensures { LooksAreAdoptable }
{}

/// If one look's second copy was loaded no earlier than another's, the later look reads as all histograms of the
/// earlier one, each with the same spec, and for each key it has no fewer units. So the difference of the two readings
/// is what was counted between them, and is never negative: who follows a segment by its looks never finds that one fell.
///
/// Nothing is required of the other copies: two looks may be taken at the same time.
pub fn readings_rise()
    ensures { ReadingsRise }
{}

/// The sum that is read of a histogram of a look is that of all amounts that had been added to it at one moment: when
/// its word was loaded, in the second copy. It is 0 if its record was not on the list then.
///
/// The sum mark and the redundant count are each of one moment too, those of their loads, in the first copy. The units
/// of a key are each of a moment of their own, so a mean of a look that was taken while samples were recorded may be
/// that of no moment.
pub fn readings_say_their_sums()
    ensures { ReadingsSayTheirSums }
{}

/// If no amount of its name is negative, the sum that is read of a histogram of a look is at least that of the calls
/// that had ended at the first moment, and at most that of the calls that had begun at the last.
pub fn readings_bound_their_sums()
    ensures { ReadingsBoundTheirSums }
{}

/// If no amount of its name is negative, a look whose second copy was loaded no earlier than another's has no lesser sum
/// of a histogram.
///
/// Amounts are negative only of values below 0 in a histogram without buckets, and of a batch that gives such a sum.
pub fn readings_raise_their_sums()
    ensures { ReadingsRaiseTheirSums }
{}

/// If no amount of its name is negative, the first copy and the second have the same word of its sum, and its units are
/// no more than its redundant count, a histogram of a look has the units and the sum of one moment, and so its mean.
///
/// A look alone does not have the word of the first copy: this is for a reader who has the copies. It requires what
/// `readings_tell_their_moment` requires.
pub fn readings_tell_their_means()
    ensures { ReadingsTellTheirMeans }
{}

/// The words that a segment left when it was stopped have all histograms of each look that was taken before, each with
/// the same spec, and for each key no fewer units.
///
/// Nothing is required of how it was stopped: its process may have been killed in the middle of calls.
pub fn readings_rise_to_the_stop()
    ensures { ReadingsRiseToTheStop }
{}

/// A segment that was stopped, and opened again by the words that it left, reads in each later look as all histograms
/// of each look from before, each with the same spec, and for each key it has no fewer units. It may have been stopped
/// and opened again many times.
///
/// Each of the two looks is taken within one life. Of a look whose copies were loaded before and after the segment was
/// opened again nothing is said.
pub fn readings_rise_across_restarts()
    ensures { ReadingsRiseAcrossRestarts }
{}

/// Nor has the later look a lesser sum of a histogram, if no amount of its name is negative.
pub fn sums_rise_across_restarts()
    ensures { SumsRiseAcrossRestarts }
{}

/// The words that a segment left are adopted, with any number of shared cursors, unless their corrupt flag is set.
///
/// So there are lives that follow each other.
pub fn lives_go_on()
    ensures { LivesGoOn }
{}

/// If what `readings_tell_their_moment` requires holds of a life, no histogram of the words that it left is read with a
/// redundant count above its units; and it holds of each life that begins with the adoption of these words.
///
/// It holds of a new segment, and so in all lives of a segment that was new once, however each was stopped.
pub fn lives_tell_moments()
    ensures { LivesTellMoments }
{}
