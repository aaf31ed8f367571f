//! Sums of any number of images.

ghost use Rattle.std.specs.Prelude.{◌≡◌, ◌≢◌, ◌↔◌, ℕ, Result, false};
ghost use Rattle.std.specs.declared.vec.Vec.{Vec};
ghost use Rattle.std.specs.declared.alloc.Global.{Global};
ghost use Rattle.reading_texts.specs.Labels.{is_metric_word};
ghost use Rattle.povundiri_c.specs.Asking.{AreListed};
ghost use Rattle.povundiri_c.specs.Segments.{IntoEmpty};
ghost use Rattle.povundiri_c.specs.Sums.{AddsImage, AnswersAppend, AnswersTotalsAdded, AskedByHandle, IsSumExport, IsSumMade, IsReportAsked, IsSumShow, IsTextOrStatus, IsTotalsOrStatus, OfSums};

use super::segments::fill;
use crate::contents::Contents;
use crate::handle::Handle;
use crate::status::{BAD_PREFIX, DONE, EMPTY, NOT_EMPTY, Refused, SHORT};
use reading_sums::Sums;
use reading_texts::is_prefix;
use std::alloc::Global;

/// Makes the sum of no images, into a handle that is empty. 4 if the handle holds something, and it holds the same.
/// Else 0, and it holds that sum; or 13, if memory runs out, and it holds nothing.
#[unsafe(no_mangle)]
pub extern "C" fn povundiri_proved_sums_new(alloc: Global, out: &mut Handle) -> u32
    ensures { IntoEmpty IsSumMade out.old.boxed.held result out.new.boxed.held }
{
    if out.is_full() {
        return NOT_EMPTY;
    }
    fill(alloc, out, Contents::Sums(Sums::new(alloc)))
}

/// Reads an image and adds it to a sum, under a number, as the library's `Sums::add` does.
///
/// 3 if the handle holds nothing, 5 if it holds no sum; then it holds the same. Else the status is that of the
/// header's first fault, 500 and the fault's number, if it has one. If it has none: 0, and what the words read as is
/// added; 19, if a total would not fit; or 13 or 513, if memory runs out. On any but 0 the sum is unchanged.
#[unsafe(no_mangle)]
pub extern "C" fn povundiri_proved_sums_add(
    alloc: Global,
    sums: &mut Handle,
    number: u64,
    words: &[u64],
) -> u32
    ensures { OfSums (AddsImage number words.now) sums.old.boxed.held result sums.new.boxed.held }
{
    sums.call(EMPTY, |held| held.add_image(alloc, number, words))
}

/// Adds the sum that a text of totals says to a sum. 3 if the handle holds nothing, 5 if it holds no sum; then it holds
/// the same. Else 0, and the sum that the text says is added, as the library's `Sums::append` does; 20, if it is the
/// text of no totals; 19, if a total would not fit; or 13, if memory runs out. On any but 0 the sum is unchanged. The
/// number of a line of the text is returned with 20, and 0 with any other.
#[unsafe(no_mangle)]
pub extern "C" fn povundiri_proved_sums_add_totals(
    alloc: Global,
    sums: &mut Handle,
    text: &[u8],
    line: &mut usize,
) -> u32
    ensures { AnswersTotalsAdded text.now sums.old.boxed.held result line.new sums.new.boxed.held }
{
    match sums.call(Err(Refused::of(EMPTY)), |held| held.add_totals(alloc, text)) {
        Ok(()) => {
            *line = 0;
            DONE
        }
        Err(refused) => {
            *line = refused.length;
            refused.status
        }
    }
}

/// Adds another sum to a sum, as the library's `Sums::append` does. The other handle holds the same [same].
///
/// 3 if one of the handles holds nothing, 5 if one holds no sum. Else 0, and it is added; 19, if a total would not
/// fit; or 13, if memory runs out. On any but 0 the first handle holds the same [answer].
#[unsafe(no_mangle)]
pub extern "C" fn povundiri_proved_sums_append(sums: &mut Handle, other: &mut Handle) -> u32
    ensures answer { AnswersAppend other.old.boxed.held sums.old.boxed.held result sums.new.boxed.held }
    ensures same { other.new.boxed.held ≡ other.old.boxed.held }
{
    sums.add_other(other)
}

// Writes a text if there is room for it, and how many bytes it has; or the status says why there is none.
fn put_text(found: Result<Vec<u8>, u32>, text: &mut [u8], needed: &mut usize) -> u32
    ensures { AreListed found result needed.old needed.new text.old text.new }
{
    let found = match found {
        Ok(found) => found,
        Err(status) => return status,
    };
    *needed = found.len();
    if text.len() < found.len() {
        return SHORT;
    }
    text[..found.len()].copy_from_slice(&found);
    DONE
}

/// Writes the report of a sum as CSV, if there is room for it, and how many bytes it has. The handle holds the same
/// [same].
///
/// 3 if the handle holds nothing, 5 if it holds no sum. Else 0, and the report is at the front of the array, its
/// length is returned, and the bytes after it are unchanged; 7, if the array has no room for it, and its length is
/// returned; 13, if memory runs out; or 20, if the sum is not well formed. On any but 0 the array is unchanged, and
/// on any but 0 and 7 the length too [answer].
#[unsafe(no_mangle)]
pub extern "C" fn povundiri_proved_sums_report(
    alloc: Global,
    sums: &mut Handle,
    text: &mut [u8],
    needed: &mut usize,
) -> u32
    ensures answer { (answer : Result (Vec ℕ Global) ℕ) × AskedByHandle (IsTextOrStatus IsReportAsked) sums.old.boxed.held answer × AreListed answer result needed.old needed.new text.old text.new }
    ensures same { sums.new.boxed.held ≡ sums.old.boxed.held }
{
    let found = sums.call(Err(EMPTY), |held| held.sum_report(alloc));
    put_text(found, text, needed)
}

/// Writes the totals of a sum, from which `povundiri_proved_sums_add_totals` reads the same sum. The statuses are those
/// of the report, except 20 [answer], and the handle holds the same [same].
#[unsafe(no_mangle)]
pub extern "C" fn povundiri_proved_sums_totals(
    alloc: Global,
    sums: &mut Handle,
    text: &mut [u8],
    needed: &mut usize,
) -> u32
    ensures answer { (answer : Result (Vec ℕ Global) ℕ) × AskedByHandle IsTotalsOrStatus sums.old.boxed.held answer × AreListed answer result needed.old needed.new text.old text.new }
    ensures same { sums.new.boxed.held ≡ sums.old.boxed.held }
{
    let found = sums.call(Err(EMPTY), |held| held.totals_of_sums(alloc));
    put_text(found, text, needed)
}

/// Writes the metrics of a sum in the Prometheus text format, whose names begin with the prefix. The handle holds the
/// same [same].
///
/// The status is 18 exactly if no name of a metric may begin with the prefix [prefix]; then the array and the length
/// are unchanged [untouched]. Else the statuses are those of the report [answer].
#[unsafe(no_mangle)]
pub extern "C" fn povundiri_proved_sums_export(
    alloc: Global,
    sums: &mut Handle,
    prefix: &[u8],
    text: &mut [u8],
    needed: &mut usize,
) -> u32
    ensures prefix { (result ≡ 18) ↔ (is_metric_word prefix.now ≡ false) }
    ensures untouched { result ≡ 18 → (text.new ≡ text.old) × (needed.new ≡ needed.old) }
    ensures answer { result ≢ 18 → (answer : Result (Vec ℕ Global) ℕ) × AskedByHandle (IsTextOrStatus (IsSumExport prefix.now)) sums.old.boxed.held answer × AreListed answer result needed.old needed.new text.old text.new }
    ensures same { sums.new.boxed.held ≡ sums.old.boxed.held }
{
    if !is_prefix(prefix) {
        return BAD_PREFIX;
    }
    let found = sums.call(Err(EMPTY), |held| held.sum_metrics(alloc, prefix));
    put_text(found, text, needed)
}

/// Writes the text of a sum for people, of all its histograms. A line has `width` cells, or 80 if that is 0. The
/// statuses are those of the report [answer], and the handle holds the same [same].
#[unsafe(no_mangle)]
pub extern "C" fn povundiri_proved_sums_show(
    alloc: Global,
    sums: &mut Handle,
    width: u16,
    text: &mut [u8],
    needed: &mut usize,
) -> u32
    ensures answer { (answer : Result (Vec ℕ Global) ℕ) × AskedByHandle (IsTextOrStatus (IsSumShow width)) sums.old.boxed.held answer × AreListed answer result needed.old needed.new text.old text.new }
    ensures same { sums.new.boxed.held ≡ sums.old.boxed.held }
{
    let found = sums.call(Err(EMPTY), |held| held.sum_shown(alloc, width));
    put_text(found, text, needed)
}
