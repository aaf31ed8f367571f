//! A totals read back from its text.

ghost use Rattle.std.specs.Prelude.{◌≡◌, ◌↔◌, ◌≤◌, ◌+◌, ℕ, Err, true, IfOk, IfErr, map, min, sum_by, take};
ghost use Rattle.std.specs.List.{AllByRecursion};
ghost use Rattle.reading_sums.specs.Views.{part_of, parts_of};
ghost use Rattle.reading_sums.specs.Whole.{IsWellFormed};
ghost use Rattle.sum_texts.specs.declared.fault.TotalsFault.TheVariants.{NoMemory, BadTotals};
ghost use Rattle.sum_texts.specs.declared.totals.Totals as totals_type;
ghost use Rattle.sum_texts.specs.Lines.{Whole, FitsWhole, IsNamed, totals_text};
ghost use Rattle.sum_texts.specs.Read.{read_view};
ghost use Rattle.sum_texts.specs.Views.{whole_of};
ghost use Rattle.sum_texts.specs.Writable.{AreFormed, IsFirstWrong, IsWritable, IsWrongLine, line_count};

use crate::fault::TotalsFault;
use crate::reading::{TotalsRead, text_in};
use crate::totals::Totals;
use crate::wrong::Wrong;
use reading_sums::{HistSum, Sums};
use std::alloc::Global;

// What the text of a totals says; if it says nothing, the number of a line.
fn said_in(alloc: Global, text: &[u8]) -> Result<TotalsRead, TotalsFault>
    ensures lawful { IfOk result (λ said. AllByRecursion IsNamed (read_view said).parts) }
    ensures found { IfOk result (λ said. text.now ≡ totals_text (read_view said)) }
    ensures back { (whole : Whole) → FitsWhole whole → text.now ≡ totals_text whole → IfOk result (λ said. read_view said ≡ whole) }
    ensures only { (whole : Whole) → FitsWhole whole → text.now ≡ totals_text whole → IfErr result (λ fault. fault ≡ NoMemory) }
{
    match text_in(alloc, text) {
        Ok(said) => Ok(said),
        Err(Wrong::NoMemory) => Err(TotalsFault::NoMemory),
        Err(Wrong::Line(at)) => Err(TotalsFault::BadTotals((at as u64).saturating_add(1))),
    }
}

// Whether the first `count` names of a text are those of a well-formed sum.
fn are_formed(alloc: Global, text: &[u8], count: usize) -> Result<bool, TotalsFault>
    ensures formed { (whole : Whole) → FitsWhole whole → text.now ≡ totals_text whole → IfOk result (λ are. (are ≡ true) ↔ AreFormed (take count whole.parts)) }
    ensures only { (whole : Whole) → FitsWhole whole → text.now ≡ totals_text whole → IfErr result (λ fault. fault ≡ NoMemory) }
{
    let TotalsRead { notes, hists, .. } = said_in(alloc, text)?;
    let mut hists = hists;
    hists.truncate(count);
    Ok(Sums::from_hists(alloc, hists, notes)?.is_some())
}

// The index of the first of `count` names that cannot come after those before it, if there is one.
fn first_wrong(alloc: Global, text: &[u8], count: usize) -> Result<usize, TotalsFault>
    ensures first { (whole : Whole) → FitsWhole whole → text.now ≡ totals_text whole → (AreFormed (take count whole.parts) → ⊥) → IfOk result (IsFirstWrong whole.parts) }
    ensures within { IfOk result (λ index. index ≤ count) }
    ensures only { (whole : Whole) → FitsWhole whole → text.now ≡ totals_text whole → IfErr result (λ fault. fault ≡ NoMemory) }
{
    let mut formed = 0;
    let mut wrong = count;
    while wrong - formed > 1 {
        let middle = formed + (wrong - formed) / 2;
        if are_formed(alloc, text, middle)? {
            formed = middle;
        } else {
            wrong = middle;
        }
    }
    Ok(formed)
}

// The number of the line after those of these names.
fn line_behind(hists: &[HistSum]) -> u64
    ensures { result ≡ min (3 + sum_by line_count (map part_of hists.now)) 18446744073709551615 }
{
    let mut line: u64 = 3;
    for hist in hists {
        line = line
            .saturating_add(1)
            .saturating_add(hist.keys.len() as u64);
    }
    line
}

// The number of the line of the first name that cannot come after those before it, if there is one.
fn wrong_line(alloc: Global, text: &[u8]) -> Result<u64, TotalsFault>
    ensures line { (whole : Whole) → FitsWhole whole → text.now ≡ totals_text whole → (AreFormed whole.parts → ⊥) → IfOk result (λ line. IsWrongLine whole.parts line) }
    ensures only { (whole : Whole) → FitsWhole whole → text.now ≡ totals_text whole → IfErr result (λ fault. fault ≡ NoMemory) }
{
    let said = said_in(alloc, text)?;
    let index = first_wrong(alloc, text, said.hists.len())?;
    Ok(line_behind(&said.hists[..index]))
}

/// Returns the totals whose text this is: it has exactly this text [read], and its sum is well formed [well_formed].
/// Each of its names is one that a histogram in a segment can have [names]. From the text of a totals of a well-formed
/// sum with such names it returns the same totals again [back].
///
/// `BadTotals` is returned only if the text is not that of such a totals [only]. Its number is that of a line, from 1,
/// and is meant to be the first line that does not continue those before it. If every line does, it is that of the
/// first name that is in no well-formed sum after the names before it: the names do not ascend, or one does not have
/// the keys of its spec, or has units that pass 64 bits [line]. `NoMemory` is returned if memory runs out.
pub fn totals_of(alloc: Global, text: &[u8]) -> Result<Totals, TotalsFault>
    ensures read { IfOk result (λ totals. text.now ≡ totals_text (whole_of totals)) }
    ensures names { IfOk result (λ totals. AllByRecursion IsNamed (parts_of totals.sums)) }
    ensures well_formed { IfOk result (λ totals. IsWellFormed totals.sums) }
    ensures back { (totals : totals_type.Totals) → IsWritable totals → text.now ≡ totals_text (whole_of totals) → IfOk result (λ read. whole_of read ≡ whole_of totals) }
    ensures only { (totals : totals_type.Totals) → IsWritable totals → text.now ≡ totals_text (whole_of totals) → IfErr result (λ fault. fault ≡ NoMemory) }
    ensures line { (whole : Whole) → FitsWhole whole → text.now ≡ totals_text whole → (line : ℕ) → result ≡ Err (BadTotals line) → IsWrongLine whole.parts line }
{
    let TotalsRead {
        notes,
        hists,
        of,
        fold,
    } = said_in(alloc, text)?;
    match Sums::from_hists(alloc, hists, notes)? {
        Some(sums) => Ok(Totals { sums, of, fold }),
        None => Err(TotalsFault::BadTotals(wrong_line(alloc, text)?)),
    }
}
