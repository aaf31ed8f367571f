//! What the words of small segments read as, worked out in versions 1 and 2.

ghost use Rattle.segment_promises.specs.WorkedReadings.{MountedReads, StoppedInTransitReads, DeltasAndMarksRead, TwoTakersRead, SparseSamplesRead, RaceReads, JoinedRunReads, UnitsOfSumsRead, AdoptedRunReads};

/// Three samples of `A`: two that were packed and then moved to the counts, or kept by the frozen word, and one that
/// was counted.
pub fn mounted_reads()
    ensures { MountedReads }
{}

/// If all stop between a disabling exchange and the addition, version 1 reads without the units in transit, version 2
/// with all.
pub fn stopped_in_transit_reads()
    ensures { StoppedInTransitReads }
{}

/// Marks are what deltas took. That of the packed bucket is the single mark.
pub fn deltas_and_marks_read()
    ensures { DeltasAndMarksRead }
{}

/// If two deltas saw the same packed units, the marks have them once.
pub fn two_takers_read()
    ensures { TwoTakersRead }
{}

/// A sparse histogram reads with the values that have samples, ascending.
pub fn sparse_samples_read()
    ensures { SparseSamplesRead }
{}

/// If there are two samples of one value, the first on the list is read.
pub fn race_reads()
    ensures { RaceReads }
{}

/// Once all recorders are joined, the words read as the tally of the log.
pub fn joined_run_reads()
    ensures { JoinedRunReads }
{}

/// Sums that cost all units, and the units that are left when the image is adopted.
pub fn units_of_sums_read()
    ensures { UnitsOfSumsRead }
{}

/// A segment that continues from an adopted image: the words read as what the image had with what was counted since,
/// whether it had ended or stopped.
pub fn adopted_run_reads()
    ensures { AdoptedRunReads }
{}
