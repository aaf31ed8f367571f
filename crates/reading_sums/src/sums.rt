//! The sum of any number of images.

ghost use Rattle.std.specs.Prelude.{◌≡◌, ◌↔◌, ◌∷◌, ◌++◌, ℕ, List, [], None, nat_lt, true, is_some, map, IfOk, IfErr, IfSome, OnOk, OnErr, ⊤};
ghost use Rattle.std.specs.List.{All, AllZip};
ghost use Rattle.std.specs.List.Sorted.{IsPermutation, IsSortedByKey, IsStrictlySortedBy};
ghost use Rattle.std.specs.Ordering.{nat_cmp};
ghost use Rattle.std.specs.Cmp.Lexicographic.{slice_cmp};
ghost use Rattle.bucket_ranges.specs.Reading as definition;
ghost use Rattle.image_reader.specs.Views.{histogram_view, reading_view};
ghost use Rattle.image_reader.specs.Readable.{IsReadable};
ghost use Rattle.reading_sums.specs.Addends.{AddsNumbered, notes_of_one};
ghost use Rattle.reading_sums.specs.Fitting.{SumDoesNotFit, HasNumberTooGreat, IfTooMany};
ghost use Rattle.reading_sums.specs.Totals.{part_from, raised_part, SameTotals};
ghost use Rattle.reading_sums.specs.Views.{part_of, parts_of};
ghost use Rattle.reading_sums.specs.Shown.{shown_parts, other_parts, IsOtherOf};
ghost use Rattle.reading_sums.specs.Since.{AreSince, HasFallen, HasChangedSpec, HasTooMany, IsGrown, MatchFault};
ghost use Rattle.reading_sums.specs.Sums.{IsSumOver, IsSumOfBoth, parts_of_one, raised};
ghost use Rattle.reading_sums.specs.Whole.{AreWhole, HasNamesOnce, IsWellFormed, IsWholeHistogram, IsWholeReading};

use crate::check::are_whole;
use crate::fault::{MinusFault, SumsFault};
use crate::hist::{HistSum, sum_of, sums_of_both};
use crate::notes::{Notes, notes_of, notes_of_both};
use crate::raised::raised_hists;
use crate::shown::{OtherSpec, others_of, readings_of};
use crate::since::hists_since;
use image_reader::{HistReading, Reading};
use std::alloc::{AllocError, Global};

/// The sum of any number of images: for each name and spec what the histograms of that name and spec have together, and
/// what the images say apart from their histograms.
#[derive(Drop)]
pub struct Sums {
    alloc: Global,
    notes: Notes,
    hists: Vec<HistSum>,
}

// The histograms of a reading by their names.
fn in_order(alloc: Global, hists: &[HistReading]) -> Result<Vec<&HistReading>, AllocError>
    ensures same { IfOk result (λ ordered. IsPermutation (map (λ hist. histogram_view hist.now) ordered.items) (map histogram_view hists.now)) }
    ensures ordered { IfOk result (λ ordered. IsSortedByKey (λ hist. hist.now.name.items) (slice_cmp nat_cmp) ordered.items) }
{
    let mut ordered: Vec<&HistReading> = hists.iter().collect(alloc)?;
    ordered.sort_by(|a, b| a.name.as_slice().cmp(b.name.as_slice()))?;
    Ok(ordered)
}

// What the histograms of one image have, by their names.
fn sums_of_one(
    alloc: Global,
    number: u64,
    hists: &[HistReading],
) -> Result<Vec<HistSum>, AllocError>
    ensures same { IfOk result (λ sums. SameTotals (map part_of sums.items) (map (λ hist. part_from number (histogram_view hist)) hists.now)) }
    ensures parts { IfOk result (λ sums. IsPermutation (map part_of sums.items) (map (λ hist. part_from number (histogram_view hist)) hists.now)) }
    ensures whole { IfOk result (λ sums. HasNamesOnce (map histogram_view hists.now) → All IsWholeHistogram (map histogram_view hists.now) → AreWhole sums.items) }
{
    let ordered = in_order(alloc, hists)?;
    let mut sums = Vec::with_capacity(alloc, ordered.len())?;
    for hist in &ordered {
        sums.push(sum_of(alloc, number, hist)?)?;
    }
    Ok(sums)
}

impl Sums {
    /// Returns the sum of no images [sum], which is well formed [well_formed].
    pub fn new(alloc: Global) -> Sums
        ensures sum { IsSumOver [] result }
        ensures well_formed { IsWellFormed result }
    {
        Sums {
            alloc,
            notes: Notes {
                images: 0,
                full: 0,
                corrupt: 0,
                stopped: 0,
                bad: 0,
            },
            hists: Vec::new(alloc),
        }
    }

    /// Adds the reading of one image, which has a number. A sum of any list of numbered readings becomes the sum of
    /// that list with this reading at its end [added], and any sum gains the totals and the notes of this reading
    /// [more]. A well-formed sum stays well formed if the reading is whole: it has each name once, each with a valid
    /// spec, the keys of that spec, and units that together fit 64 bits [well_formed].
    ///
    /// If the sum is well formed and the reading whole, it is refused with `TooMany` only if what both have together
    /// does not fit: for some name and spec, all units, the marks of a key, the redundant counts or the images are 2^64
    /// or more, or amounts do not fit 128 bits; or a number of the notes is 2^64 or more [too_many]. It is accepted
    /// only if all of that fits [fits]. It is refused with `NoMemory` if memory runs out. If it is refused, the sum is
    /// unchanged [refused].
    pub fn add(&mut self, number: u64, reading: &Reading) -> Result<(), SumsFault>
        ensures added { OnOk result ((readings : List (ℕ × definition.Reading)) → IsSumOver readings self.old → IsSumOver (readings ++ (number, reading_view reading.now) ∷ []) self.new) }
        ensures more { OnOk result (AddsNumbered (number, reading_view reading.now) self.old self.new) }
        ensures well_formed { OnOk result (IsWellFormed self.old → IsWholeReading (reading_view reading.now) → IsWellFormed self.new) }
        ensures fits { OnOk result (IsWellFormed self.old → IsWholeReading (reading_view reading.now) → ¬ SumDoesNotFit self.old (parts_of_one (number, reading_view reading.now)) (notes_of_one (reading_view reading.now))) }
        ensures refused { OnErr result (self.new ≡ self.old) }
        ensures too_many { IfErr result (λ fault. IfTooMany fault (IsWellFormed self.old → IsWholeReading (reading_view reading.now) → SumDoesNotFit self.old (parts_of_one (number, reading_view reading.now)) (notes_of_one (reading_view reading.now)))) }
    {
        let notes = notes_of_both(&self.notes, &notes_of(reading))?;
        let one = sums_of_one(self.alloc, number, &reading.hists)?;
        let hists = sums_of_both(self.alloc, &self.hists, &one)?;
        self.notes = notes;
        self.hists = hists;
        Ok(())
    }

    /// Adds another sum, which stays as it is. Sums of any two lists of numbered readings become the sum of the first
    /// list followed by the second [added], and any two sums become what both have together [both], well formed if both
    /// are [well_formed].
    ///
    /// If both sums are well formed, it is refused with `TooMany` only if what both have together does not fit: for
    /// some name and spec, all units, the marks of a key, the redundant counts or the images are 2^64 or more, or
    /// amounts do not fit 128 bits; or a number of the notes is 2^64 or more [too_many]. It is accepted only if all of
    /// that fits [fits]. It is refused with `NoMemory` if memory runs out. If it is refused, the sum is unchanged
    /// [refused].
    pub fn append(&mut self, other: &Sums) -> Result<(), SumsFault>
        ensures added { OnOk result ((readings more : List (ℕ × definition.Reading)) → IsSumOver readings self.old → IsSumOver more other.now → IsSumOver (readings ++ more) self.new) }
        ensures both { OnOk result (IsSumOfBoth self.old other.now self.new) }
        ensures well_formed { OnOk result (IsWellFormed self.old → IsWellFormed other.now → IsWellFormed self.new) }
        ensures fits { OnOk result (IsWellFormed self.old → IsWellFormed other.now → ¬ SumDoesNotFit self.old (parts_of other.now) other.now.notes) }
        ensures refused { OnErr result (self.new ≡ self.old) }
        ensures too_many { IfErr result (λ fault. IfTooMany fault (IsWellFormed self.old → IsWellFormed other.now → SumDoesNotFit self.old (parts_of other.now) other.now.notes)) }
    {
        let notes = notes_of_both(&self.notes, &other.notes)?;
        let hists = sums_of_both(self.alloc, &self.hists, &other.hists)?;
        self.notes = notes;
        self.hists = hists;
        Ok(())
    }

    /// Returns the sum of the same readings, with the number of each raised by `by` [raised]: the least number of each
    /// name and spec is raised by it [parts], and all else is the same [notes]. It is well formed if this sum is
    /// [well_formed]. So the sum of later images can be added to that of earlier ones.
    ///
    /// It is refused with `NoMemory` if memory runs out, and with `TooMany` only if some least number would be 2^64 or
    /// more [too_many]. It is accepted only if none would [fits].
    pub fn raised(&self, by: u64) -> Result<Sums, SumsFault>
        ensures raised { IfOk result (λ sums. (readings : List (ℕ × definition.Reading)) → IsSumOver readings self.now → IsSumOver (map (raised by) readings) sums) }
        ensures parts { IfOk result (λ sums. parts_of sums ≡ map (raised_part by) (parts_of self.now)) }
        ensures notes { IfOk result (λ sums. sums.notes ≡ self.now.notes) }
        ensures well_formed { IfOk result (λ sums. IsWellFormed self.now → IsWellFormed sums) }
        ensures too_many { IfErr result (λ fault. IfTooMany fault (HasNumberTooGreat by (parts_of self.now))) }
        ensures fits { OnOk result (¬ HasNumberTooGreat by (parts_of self.now)) }
    {
        Ok(Sums {
            alloc: self.alloc,
            notes: self.notes,
            hists: raised_hists(self.alloc, &self.hists, by)?,
        })
    }

    /// Returns whether the sum is well formed [is].
    pub fn is_well_formed(&self) -> Result<bool, AllocError>
        ensures is { IfOk result (λ is. (is ≡ true) ↔ IsWellFormed self.now) }
    {
        are_whole(self.alloc, &self.hists)
    }

    /// Returns what was counted since an earlier sum of the same segment, or of the same folder. For each name and
    /// spec, the earlier sum and the result have together what this sum has: the units and the marks of each key, the
    /// amounts and those that deltas have taken, and the redundant counts. The names, the specs, the keys, how many
    /// images have a histogram and the least number of one are those of this sum [since], and so are the notes [notes].
    /// It is well formed if this sum is [well_formed].
    ///
    /// For two well-formed sums it is returned only if there is none of these reasons [only], and refused only for one
    /// of them, or with `NoMemory` if memory runs out:
    ///
    /// - `Fell` with a name: under one spec this sum has fewer units or marks of some key than the earlier one, or a
    ///   smaller redundant count; or it has nothing of the name, and the earlier one has a unit, a mark, a redundant
    ///   count or an amount that is not 0 [fell].
    /// - `OtherSpec` with a name: the earlier sum has the name under a spec under which this one does not have it, but
    ///   this one has it under another [other_spec].
    /// - `TooMany`: an amount of this sum minus that of the earlier one does not fit 128 bits [too_many]. An amount
    ///   that fell is no reason, since samples may be negative.
    pub fn minus(&self, earlier: &Sums) -> Result<Sums, MinusFault>
        ensures since { IfOk result (λ since. AreSince (parts_of self.now) (parts_of earlier.now) (parts_of since)) }
        ensures notes { IfOk result (λ since. since.notes ≡ self.now.notes) }
        ensures well_formed { IfOk result (λ since. IsWellFormed self.now → IsWellFormed since) }
        ensures fell { IfErr result (λ fault. IsWellFormed self.now → IsWellFormed earlier.now → MatchFault fault ⊤ (HasFallen self.now.hists.items earlier.now.hists.items) (λ name. ⊤)) }
        ensures other_spec { IfErr result (λ fault. IsWellFormed self.now → IsWellFormed earlier.now → MatchFault fault ⊤ (λ name. ⊤) (HasChangedSpec self.now.hists.items earlier.now.hists.items)) }
        ensures too_many { IfErr result (λ fault. IsWellFormed self.now → IsWellFormed earlier.now → MatchFault fault (HasTooMany self.now.hists.items earlier.now.hists.items) (λ name. ⊤) (λ name. ⊤)) }
        ensures only { IfOk result (λ since. IsWellFormed self.now → IsWellFormed earlier.now → IsGrown self.now.hists.items earlier.now.hists.items) }
    {
        let hists = hists_since(self.alloc, &self.hists, &earlier.hists)?;
        Ok(Sums {
            alloc: self.alloc,
            notes: self.notes,
            hists,
        })
    }

    /// Returns what the images say apart from their histograms.
    pub fn notes(&self) -> Notes
        ensures { result ≡ self.now.notes }
    {
        self.notes
    }

    /// Returns the histograms of the sum. In a well-formed sum they ascend by name and spec.
    pub fn hists(&self) -> &[HistSum]
        ensures { result.now ≡ self.now.hists.items }
    {
        &self.hists
    }

    /// Returns the sum that has exactly these histograms and notes [exact] if they are those of a well-formed sum, and
    /// nothing otherwise [whole]: they ascend by name and spec, each spec is valid, the keys of each are those of its
    /// spec, and its units together fit 64 bits. The values of a custom spec ascend from 1, as in a segment.
    /// `AllocError` is returned if memory runs out before this is known.
    pub fn from_hists(
        alloc: Global,
        hists: Vec<HistSum>,
        notes: Notes,
    ) -> Result<Option<Sums>, AllocError>
        ensures exact { IfOk result (λ found. IfSome found (λ sums. (sums.hists ≡ hists) × (sums.notes ≡ notes))) }
        ensures whole { IfOk result (λ found. (is_some found ≡ true) ↔ AreWhole hists.items) }
    {
        if are_whole(alloc, &hists)? {
            Ok(Some(Sums {
                alloc,
                notes,
                hists,
            }))
        } else {
            Ok(None)
        }
    }

    /// Returns the sum as a reading: for each name the histogram whose least image number is the least, the first of
    /// equal ones, in the order of the names, each with its index as reference [shown]. The names of a well-formed sum
    /// ascend, so each is there once [names], and its histograms are readable [readable]. The reading is full or
    /// corrupt if some image is [full] [corrupt], and has no id, no bad records and no stop [rest].
    pub fn reading(&self, alloc: Global) -> Result<Reading, AllocError>
        ensures readable { IfOk result (λ reading. IsWellFormed self.now → All IsReadable (map histogram_view reading.hists.items)) }
        ensures shown { IfOk result (λ reading. map histogram_view reading.hists.items ≡ shown_parts (parts_of self.now)) }
        ensures names { IfOk result (λ reading. IsWellFormed self.now → IsStrictlySortedBy (slice_cmp nat_cmp) (map (λ (hist : definition.Histogram). hist.name) (map histogram_view reading.hists.items))) }
        ensures full { IfOk result (λ reading. reading.full ≡ nat_lt 0 self.now.notes.full) }
        ensures corrupt { IfOk result (λ reading. reading.corrupt ≡ nat_lt 0 self.now.notes.corrupt) }
        ensures rest { IfOk result (λ reading. (reading.id ≡ 0) × (reading.bad.items ≡ []) × (reading.stopped ≡ None)) }
    {
        Ok(Reading {
            id: 0,
            full: self.notes.full > 0,
            corrupt: self.notes.corrupt > 0,
            hists: readings_of(alloc, &self.hists)?,
            bad: Vec::new(alloc),
            stopped: None,
        })
    }

    /// Returns what the sum has of its names under the specs that a reading of it leaves out, by their names: exactly
    /// these, in the order of the sum, each with its images and its units [left_out].
    pub fn others(&self, alloc: Global) -> Result<Vec<OtherSpec>, AllocError>
        ensures left_out { IfOk result (λ others. AllZip IsOtherOf (other_parts (parts_of self.now)) others.items) }
    {
        others_of(alloc, &self.hists)
    }
}
