//! A sum of images that C holds.

ghost use Rattle.std.specs.Prelude.{◌≡◌, ◌≢◌, Some, IfErr, IfOk};
ghost use Rattle.segment_image.specs.Head.{header_of};
ghost use Rattle.povundiri_c.specs.Status.{status_of_image_fault, status_of_sums_fault};
ghost use Rattle.povundiri_c.specs.Sums.{AddsOther, AddsTotalsText, AppendsOrRefuses, IsImageAdded, IsSaidOfAdding, IsSumText, IsTextOrStatus, IsTotalsOrStatus};

use crate::status::{BAD_TOTALS, DONE, NO_MEMORY, Refused, of_image_fault, of_sums_fault};
use crate::texts::{TextAsked, text_of};
use image_reader::read;
use reading_sums::Sums;
use std::alloc::Global;
use sum_texts::{Totals, TotalsFault, totals_of, totals_text};
use text_forms::Subject;

/// Reads an image, and adds it under a number. Or the status says why not, and the sum is unchanged.
pub(crate) fn add_image(alloc: Global, sums: &mut Sums, number: u64, words: &[u64]) -> u32
    ensures fault { IfErr (header_of words.now) (λ fault. result ≡ status_of_image_fault fault) }
    ensures valid { IfOk (header_of words.now) (λ _. IsSaidOfAdding result) }
    ensures added { result ≡ 0 → IsImageAdded number words.now sums.old sums.new }
    ensures refused { result ≢ 0 → sums.new ≡ sums.old }
{
    let reading = match read(alloc, words) {
        Ok(reading) => reading,
        Err(fault) => return of_image_fault(fault),
    };
    match sums.add(number, &reading) {
        Ok(()) => DONE,
        Err(fault) => of_sums_fault(fault),
    }
}

/// Adds another sum. Or the status says why not, and the sum is unchanged.
pub(crate) fn add_other(sums: &mut Sums, other: &Sums) -> u32
    ensures { AddsOther (Some other.now) sums.old result sums.new }
{
    match sums.append(other) {
        Ok(()) => DONE,
        Err(fault) => of_sums_fault(fault),
    }
}

// Adds totals. Or the status says why not, and the sum is unchanged.
fn add_read(sums: &mut Sums, totals: &Totals) -> Result<(), Refused>
    ensures { AppendsOrRefuses totals.now.sums sums.old result sums.new }
{
    match sums.append(&totals.sums) {
        Ok(()) => Ok(()),
        Err(fault) => Err(Refused::of(of_sums_fault(fault))),
    }
}

/// Adds the sum that a text of totals says. Or the status says why not, with the number of a line if the text is no
/// totals, and the sum is unchanged.
pub(crate) fn add_totals(alloc: Global, sums: &mut Sums, text: &[u8]) -> Result<(), Refused>
    ensures { AddsTotalsText text.now sums.old result sums.new }
{
    match totals_of(alloc, text) {
        Ok(totals) => add_read(sums, &totals),
        Err(TotalsFault::NoMemory) => Err(Refused::of(NO_MEMORY)),
        Err(TotalsFault::BadTotals(line)) => Err(Refused {
            status: BAD_TOTALS,
            length: line as usize,
        }),
    }
}

/// The text of a sum. Or the status says why there is none.
pub(crate) fn text_of_sums(alloc: Global, sums: &Sums, asked: TextAsked<'_>) -> Result<Vec<u8>, u32>
    ensures { IsTextOrStatus (IsSumText asked.entry) sums.now result }
{
    match Subject::of_sum(alloc, sums, 0) {
        Ok(Some(subject)) => text_of(alloc, asked, &subject),
        Ok(None) => Err(BAD_TOTALS),
        Err(_) => Err(NO_MEMORY),
    }
}

/// A sum, and the text of its totals. Or the status says why there is none.
pub(crate) fn totals_of_sums(alloc: Global, sums: Sums) -> (Sums, Result<Vec<u8>, u32>)
    ensures same { result.0 ≡ sums }
    ensures text { IsTotalsOrStatus sums result.1 }
{
    let totals = Totals {
        sums,
        of: Vec::new(alloc),
        fold: None,
    };
    let text = match totals_text(alloc, &totals) {
        Ok(text) => Ok(text),
        Err(_) => Err(NO_MEMORY),
    };
    let Totals {
        sums,
        of: _,
        fold: _,
    } = totals;
    (sums, text)
}
