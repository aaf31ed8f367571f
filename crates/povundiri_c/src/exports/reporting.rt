//! The texts of an image: its report, its metrics, and its text for people.

ghost use Rattle.std.specs.Prelude.{◌≡◌, ◌≢◌, ◌⊎◌, ◌↔◌, true, false, IfOk, IfErr};
ghost use Rattle.segment_image.specs.Head.{header_of};
ghost use Rattle.reading_texts.specs.Labels.{is_metric_word};
ghost use Rattle.reading_texts.specs.Text.{IsTextOf};
ghost use Rattle.povundiri_c.specs.Reports.{IsExportAsked, IsSaidOfValid, IsShowAsked, IsTextTooLong, IsTextWritten, SayKeys};
ghost use Rattle.povundiri_c.specs.Status.{status_of_image_fault};

use crate::status::{BAD_PREFIX, TOO_MANY_KEYS, of_image_fault};
use crate::texts::{TextAsked, write_text};
use image_reader::has_more_keys;
use reading_texts::is_prefix;
use std::alloc::Global;

/// Writes the report of an image as CSV, if there is room for it, and how many bytes it has.
///
/// - The status is that of the header's first fault, 500 and the fault's number, if it has one [fault]. Else it is
///   0, 7, 13 or 513: the last two if memory runs out [valid].
/// - 0: the report of the words is at the front of the array, its length is returned, and the bytes after it are
///   unchanged [done].
/// - 7: the array has no room for the report, whose length is returned [short].
/// - On any status but 0 the array is unchanged [untouched], and on any but 0 and 7 the length too [alone].
#[unsafe(no_mangle)]
pub extern "C" fn povundiri_proved_report(
    alloc: Global,
    words: &[u64],
    text: &mut [u8],
    needed: &mut usize,
) -> u32
    ensures fault { IfErr (header_of words.now) (λ fault. result ≡ status_of_image_fault fault) }
    ensures done { result ≡ 0 → IsTextWritten IsTextOf words.now text.old text.new needed.new }
    ensures short { result ≡ 7 → IsTextTooLong IsTextOf words.now text.old needed.new }
    ensures valid { IfOk (header_of words.now) (λ _. IsSaidOfValid result) }
    ensures untouched { result ≢ 0 → text.new ≡ text.old }
    ensures alone { result ≢ 0 → result ≢ 7 → needed.new ≡ needed.old }
{
    write_text(alloc, TextAsked::Report, words, text, needed)
}

/// The same, of an image that reads as no more keys than `most_keys`: buckets of its histograms, and values of the
/// sparse ones. Another image is refused before any of its counts are read.
///
/// - The status is that of the header's first fault, 500 and the fault's number, if it has one [fault]. Else it is
///   0, 7, 13, 17 or 513 [valid].
/// - 17: the words read as more keys than `most_keys` [many]. 0 and 7: they do not [few].
/// - 0: the report of the words is at the front of the array, its length is returned, and the bytes after it are
///   unchanged [done].
/// - 7: the array has no room for the report, whose length is returned [short].
/// - On any status but 0 the array is unchanged [untouched], and on any but 0 and 7 the length too [alone].
#[unsafe(no_mangle)]
pub extern "C" fn povundiri_proved_report_bounded(
    alloc: Global,
    words: &[u64],
    text: &mut [u8],
    needed: &mut usize,
    most_keys: u64,
) -> u32
    ensures fault { IfErr (header_of words.now) (λ fault. result ≡ status_of_image_fault fault) }
    ensures done { result ≡ 0 → IsTextWritten IsTextOf words.now text.old text.new needed.new }
    ensures short { result ≡ 7 → IsTextTooLong IsTextOf words.now text.old needed.new }
    ensures many { result ≡ 17 → SayKeys words.now most_keys true }
    ensures few { (result ≡ 0) ⊎ (result ≡ 7) → SayKeys words.now most_keys false }
    ensures valid { IfOk (header_of words.now) (λ _. (result ≡ 17) ⊎ IsSaidOfValid result) }
    ensures untouched { result ≢ 0 → text.new ≡ text.old }
    ensures alone { result ≢ 0 → result ≢ 7 → needed.new ≡ needed.old }
{
    let more = match has_more_keys(alloc, words, most_keys) {
        Ok(more) => more,
        Err(fault) => return of_image_fault(fault),
    };
    if more {
        return TOO_MANY_KEYS;
    }
    write_text(alloc, TextAsked::Report, words, text, needed)
}

/// Writes the metrics of an image in the Prometheus text format, if there is room for them, and how many bytes they
/// have. The names of all metrics begin with the prefix.
///
/// - The status is 18 exactly if no name of a metric may begin with it: it is not a letter of ASCII or `_` and then
///   such ones and digits [prefix].
/// - Else it is that of the header's first fault, 500 and the fault's number, if it has one [fault], and 0, 7, 13 or
///   513 if it has none: the last two if memory runs out [valid].
/// - 0: the metrics of the words are at the front of the array, their length is returned, and the bytes after them are
///   unchanged [done].
/// - 7: the array has no room for the metrics, whose length is returned [short].
/// - On any status but 0 the array is unchanged [untouched], and on any but 0 and 7 the length too [alone].
#[unsafe(no_mangle)]
pub extern "C" fn povundiri_proved_export(
    alloc: Global,
    words: &[u64],
    prefix: &[u8],
    text: &mut [u8],
    needed: &mut usize,
) -> u32
    ensures prefix { (result ≡ 18) ↔ (is_metric_word prefix.now ≡ false) }
    ensures fault { result ≢ 18 → IfErr (header_of words.now) (λ fault. result ≡ status_of_image_fault fault) }
    ensures valid { result ≢ 18 → IfOk (header_of words.now) (λ _. IsSaidOfValid result) }
    ensures done { result ≡ 0 → IsTextWritten (IsExportAsked prefix.now) words.now text.old text.new needed.new }
    ensures short { result ≡ 7 → IsTextTooLong (IsExportAsked prefix.now) words.now text.old needed.new }
    ensures untouched { result ≢ 0 → text.new ≡ text.old }
    ensures alone { result ≢ 0 → result ≢ 7 → needed.new ≡ needed.old }
{
    if !is_prefix(prefix) {
        return BAD_PREFIX;
    }
    write_text(alloc, TextAsked::Export { prefix }, words, text, needed)
}

/// Writes the text of an image for people, of all its histograms, if there is room for it, and how many bytes it has.
/// A line has `width` cells, or 80 if that is 0.
///
/// - The status is that of the header's first fault, 500 and the fault's number, if it has one [fault]. Else it is
///   0, 7, 13 or 513: the last two if memory runs out [valid].
/// - 0: the text of the words is at the front of the array, its length is returned, and the bytes after it are
///   unchanged [done].
/// - 7: the array has no room for the text, whose length is returned [short].
/// - On any status but 0 the array is unchanged [untouched], and on any but 0 and 7 the length too [alone].
#[unsafe(no_mangle)]
pub extern "C" fn povundiri_proved_show(
    alloc: Global,
    words: &[u64],
    width: u16,
    text: &mut [u8],
    needed: &mut usize,
) -> u32
    ensures fault { IfErr (header_of words.now) (λ fault. result ≡ status_of_image_fault fault) }
    ensures done { result ≡ 0 → IsTextWritten (IsShowAsked width) words.now text.old text.new needed.new }
    ensures short { result ≡ 7 → IsTextTooLong (IsShowAsked width) words.now text.old needed.new }
    ensures valid { IfOk (header_of words.now) (λ _. IsSaidOfValid result) }
    ensures untouched { result ≢ 0 → text.new ≡ text.old }
    ensures alone { result ≢ 0 → result ≢ 7 → needed.new ≡ needed.old }
{
    write_text(alloc, TextAsked::Show { width }, words, text, needed)
}
