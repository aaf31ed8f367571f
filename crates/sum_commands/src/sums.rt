//! Sums of inputs, one after the other.

ghost use Rattle.std.specs.Prelude.{◌≡◌, ◌≤◌, ◌<◌, ◌^◌, Bool, true, false, is_some, IfErr, IfOk, OnOk, OnErr};
ghost use Rattle.std.specs.List.{All, Contains};
ghost use Rattle.segment_image.specs.Words.{bytes_of_words};
ghost use Rattle.reading_sums.specs.declared.sums.Sums as sum_type;
ghost use Rattle.reading_sums.specs.Addends.{AddsAddend, addend_of};
ghost use Rattle.reading_sums.specs.Fitting.{IfTooMany};
ghost use Rattle.reading_sums.specs.Totals.{Part};
ghost use Rattle.reading_sums.specs.Views.{parts_of};
ghost use Rattle.reading_sums.specs.Whole.{IsWellFormed};
ghost use Rattle.sum_commands.specs.Sources.{AddsSome, SomeMayNotBeAdded};
ghost use Rattle.sum_commands.specs.Inputs.{AddsReading, AddsBehind, AddsTotals, DoesNotFitBehind, IsCausedByInput, IsCausedByTotals, IsDamageOf};

use crate::fault::InputFault;
use image_reader::Reading;
use persist_report_core::{CliFault, damage_of, read_image};
use reading_sums::{Sums, SumsFault};
use std::alloc::Global;
use sum_texts::totals_of;

/// A least number below this fits after fewer images than this, in whatever way they are appended.
pub(crate) const NUMBER_LIMIT: u64 = 1 << 62;

// Whether some least number of a sum is not below the limit.
fn has_great_number(sums: &Sums) -> bool
    ensures some { result ≡ true → (part : Part) × Contains (parts_of sums.now) part × (2 ^ 62 ≤ part.least) }
    ensures none { result ≡ false → All (λ (part : Part). part.least < 2 ^ 62) (parts_of sums.now) }
{
    for hist in sums.hists() {
        if hist.least >= NUMBER_LIMIT {
            return true;
        }
    }
    false
}

/// Adds the readings of another sum to a sum, after its own: the sum of any readings in their order, numbered from 0
/// on, becomes that of these followed by those of the other [added]. Any sum gains the totals and the notes of the
/// other one, whose images come after its own [behind]; the other one is an input, which may be damaged or not [some].
/// Well-formed sums become a well-formed one [well_formed].
///
/// Of well-formed sums it is accepted only if the other one fits after the first [fits], and refused with `TooMany`
/// only if it does not: a total would not fit, or a least number of the other one is 2^62 or more, or 2^64 or more when
/// it is raised by how many images there were [too_many]. `NoMemory` is returned if memory runs out. If it is refused,
/// the sum is unchanged [refused].
pub fn append_next(sums: &mut Sums, more: &Sums) -> Result<(), SumsFault>
    ensures added { OnOk result (AddsBehind more.now sums.old sums.new) }
    ensures behind { OnOk result (AddsAddend (addend_of more.now) sums.old sums.new) }
    ensures some { OnOk result ((is_damaged : Bool) → AddsSome is_damaged sums.old sums.new) }
    ensures well_formed { OnOk result (IsWellFormed sums.old → IsWellFormed more.now → IsWellFormed sums.new) }
    ensures fits { OnOk result (IsWellFormed sums.old → IsWellFormed more.now → ¬ DoesNotFitBehind sums.old (addend_of more.now)) }
    ensures refused { OnErr result (sums.new ≡ sums.old) }
    ensures too_many { IfErr result (λ fault. IfTooMany fault (IsWellFormed sums.old → IsWellFormed more.now → DoesNotFitBehind sums.old (addend_of more.now))) }
{
    if has_great_number(more) {
        return Err(SumsFault::TooMany);
    }
    let raised = more.raised(sums.notes().images)?;
    sums.append(&raised)?;
    Ok(())
}

/// Adds what the image in the words of an input reads as, a closed image or a mapped file, after the readings of a sum:
/// a well-formed sum stays well formed, and the reading fits after it [added]. Returns what is damaged in the image, as
/// [`damage_of`] its reading says it, or none if nothing is [damage]; the sum has all of it that is valid, so the image
/// is an input that is damaged or not [some].
///
/// An input is left out if its bytes are not those of an image, for the first fault of its header, and with `TooMany`
/// if it does not fit after a well-formed sum [cause]. `NoMemory` is returned if memory runs out. If nothing is added,
/// the sum is unchanged [refused].
pub fn add_image(
    alloc: Global,
    sums: &mut Sums,
    words: &[u64],
) -> Result<Option<CliFault>, InputFault>
    ensures added { OnOk result (AddsReading (bytes_of_words words.now) sums.old sums.new) }
    ensures damage { IfOk result (IsDamageOf (bytes_of_words words.now)) }
    ensures some { IfOk result (λ damage. AddsSome (is_some damage) sums.old sums.new) }
    ensures cause { IfErr result (IsCausedByInput (bytes_of_words words.now) sums.old) }
    ensures refused { OnErr result (sums.new ≡ sums.old) }
{
    let reading = read_image(alloc, words)?;
    let number = sums.notes().images;
    sums.add(number, &reading)?;
    Ok(damage_of(&reading))
}

/// Adds the readings of the totals whose text this is to a sum, after its own: a well-formed sum stays well formed, and
/// the totals fit after it [added]. They are an input that is not damaged [some].
///
/// An input is left out with `BadTotals` and a line if its bytes are not those of a totals, and with `TooMany` if it
/// does not fit after a well-formed sum; `NoMemory` is returned if memory runs out [cause]. If nothing is added, the
/// sum is unchanged [refused].
pub fn add_totals(alloc: Global, sums: &mut Sums, text: &[u8]) -> Result<(), InputFault>
    ensures added { OnOk result (AddsTotals text.now sums.old sums.new) }
    ensures some { OnOk result (AddsSome false sums.old sums.new) }
    ensures cause { IfErr result (IsCausedByTotals text.now sums.old) }
    ensures refused { OnErr result (sums.new ≡ sums.old) }
{
    let totals = totals_of(alloc, text)?;
    append_next(sums, &totals.sums)?;
    Ok(())
}

/// A sum that is unchanged has gained an input that has nothing and is not damaged, such as a file that is no image and
/// no totals and is skipped [some].
///
/// It does nothing: what it promises is a law of the definition.
pub fn nothing_is_added(_sums: &Sums)
    ensures some { AddsSome false _sums.now _sums.now }
{}

/// An input of which nothing is known may have any fault, whatever sum it was to be added to [cause].
///
/// It does nothing: what it promises is a law of the definition.
pub fn any_fault_may_come(_added: &Result<bool, InputFault>)
    ensures cause { (before : sum_type.Sums) → IfErr _added.now (SomeMayNotBeAdded before) }
{}
