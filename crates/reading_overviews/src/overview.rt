//! The overview of an image.

ghost use Rattle.std.specs.Prelude.{◌≡◌, ◌++◌, All, IfOk, OnOk, map};
ghost use Rattle.std.specs.List.{count_by};
ghost use Rattle.image_reader.specs.Readable.{IsReadable};
ghost use Rattle.image_reader.specs.Views.{histogram_view, reading_view};
ghost use Rattle.reading_overviews.specs.Overview.{flags_text, head_lines, is_of_kind as is_of_kind_of, kind_text, kinds_line, list_text, overview, state_lines, unit_lines};
ghost use Rattle.reading_overviews.specs.Spent.{is_frozen as is_frozen_of, spent_of};

use crate::numbers::put_number;
use crate::spent::{is_frozen, spent, units_left};
use image_reader::{HistReading, Reading};
use reading_texts::{image_fault_word, kind_word, put_parts};
use segment_image::{ImageFault, SegmentHead};
use std::alloc::{AllocError, Global};

// Puts the lines of what a header says.
fn put_head(text: &mut Vec<u8>, is_human: bool, head: &SegmentHead) -> Result<(), AllocError>
    ensures { OnOk result (text.new.items ≡ text.old.items ++ head_lines is_human head.now) }
{
    let (size, page) = (head.shape.size(), head.shape.page());
    text.extend_from_slice(b"version      ")?;
    put_number(text, is_human, head.version)?;
    text.extend_from_slice(b"\nid           ")?;
    put_number(text, false, head.id)?;
    text.extend_from_slice(b"\nsize         ")?;
    put_number(text, is_human, size)?;
    text.extend_from_slice(b" words, ")?;
    put_number(text, is_human, 8 * size)?;
    text.extend_from_slice(b" bytes\npage         ")?;
    put_number(text, is_human, page)?;
    text.extend_from_slice(b" words\nused         ")?;
    put_number(text, is_human, head.free)?;
    text.extend_from_slice(b" words\nfree         ")?;
    put_number(text, is_human, size.saturating_sub(head.free))?;
    text.extend_from_slice(b" words\n")?;
    Ok(())
}

// Puts the lines of the units that are used and of those that are left.
fn put_units(text: &mut Vec<u8>, is_human: bool, spent: u64) -> Result<(), AllocError>
    ensures { OnOk result (text.new.items ≡ text.old.items ++ unit_lines is_human spent) }
{
    text.extend_from_slice(b"units used   ")?;
    put_number(text, is_human, spent)?;
    text.extend_from_slice(b"\nunits left   ")?;
    put_number(text, is_human, units_left(spent))?;
    text.extend_from_slice(b"\n")?;
    Ok(())
}

// The flags that are set.
fn flags(corrupt: bool, full: bool) -> &'static [u8]
    ensures { result.now ≡ flags_text corrupt full }
{
    match (corrupt, full) {
        (true, true) => b"corrupt, full",
        (true, false) => b"corrupt",
        (false, true) => b"full",
        (false, false) => b"none",
    }
}

// Whether a histogram is of the kind that has this word.
fn is_of_kind(word: &[u8], hist: &HistReading) -> bool
    ensures { result ≡ is_of_kind_of word.now (histogram_view hist.now) }
{
    kind_word(&hist.spec) == word
}

// How many histograms are of a kind.
fn number_of(hists: &[HistReading], word: &[u8]) -> u64
    ensures { result ≡ count_by (is_of_kind_of word.now) (map histogram_view hists.now) }
{
    let mut number: u64 = 0;
    for hist in hists {
        number += u64::from(is_of_kind(word, hist));
    }
    number
}

// Puts how many histograms are of a kind, and its word.
fn put_kind(
    text: &mut Vec<u8>,
    is_human: bool,
    hists: &[HistReading],
    word: &[u8],
) -> Result<(), AllocError>
    ensures { OnOk result (text.new.items ≡ text.old.items ++ kind_text is_human (map histogram_view hists.now) word.now) }
{
    put_number(text, is_human, number_of(hists, word))?;
    text.extend_from_slice(b" ")?;
    text.extend_from_slice(word)?;
    Ok(())
}

// Puts the line of the histograms, by kind.
pub(crate) fn put_kinds(
    text: &mut Vec<u8>,
    is_human: bool,
    hists: &[HistReading],
) -> Result<(), AllocError>
    ensures { OnOk result (text.new.items ≡ text.old.items ++ kinds_line is_human (map histogram_view hists.now)) }
{
    text.extend_from_slice(b"histograms   ")?;
    put_kind(text, is_human, hists, b"linear")?;
    text.extend_from_slice(b", ")?;
    put_kind(text, is_human, hists, b"boolean")?;
    text.extend_from_slice(b", ")?;
    put_kind(text, is_human, hists, b"custom")?;
    text.extend_from_slice(b", ")?;
    put_kind(text, is_human, hists, b"sparse")?;
    text.extend_from_slice(b"\n")?;
    Ok(())
}

// Puts whether the list of records is whole, or why it stops.
fn put_list(text: &mut Vec<u8>, stopped: Option<ImageFault>) -> Result<(), AllocError>
    ensures { OnOk result (text.new.items ≡ text.old.items ++ list_text stopped) }
{
    match stopped {
        None => text.extend_from_slice(b"whole"),
        Some(fault) => put_parts(text, &[b"stopped: ", image_fault_word(fault)]),
    }
}

// Puts the lines of the flags, the bad records and the list.
fn put_state(text: &mut Vec<u8>, is_human: bool, reading: &Reading) -> Result<(), AllocError>
    ensures { OnOk result (text.new.items ≡ text.old.items ++ state_lines is_human (reading_view reading.now)) }
{
    text.extend_from_slice(b"flags        ")?;
    text.extend_from_slice(flags(reading.corrupt, reading.full))?;
    text.extend_from_slice(b"\nbad records  ")?;
    put_number(text, is_human, reading.bad.as_slice().len() as u64)?;
    text.extend_from_slice(b"\nlist         ")?;
    put_list(text, reading.stopped)?;
    text.extend_from_slice(b"\n")?;
    Ok(())
}

/// Appends the overview of an image to a text, byte for byte: what its header says, and from its reading the units that
/// it has used and has left, the histograms by kind, the flags, the bad records and whether the list is whole. Numbers
/// have commas if they are for people. The only error is that memory runs out.
pub fn put_overview(
    text: &mut Vec<u8>,
    is_human: bool,
    head: &SegmentHead,
    reading: &Reading,
) -> Result<(), AllocError>
    requires { All IsReadable (map histogram_view reading.now.hists.items) }
    ensures { OnOk result (text.new.items ≡ text.old.items ++ overview is_human head.now (reading_view reading.now)) }
{
    let hists = reading.hists.as_slice();
    put_head(text, is_human, head)?;
    put_units(text, is_human, spent(is_frozen(head), hists))?;
    put_kinds(text, is_human, hists)?;
    put_state(text, is_human, reading)?;
    Ok(())
}

/// Returns the overview of an image, byte for byte, as [`put_overview`] appends it. The only error is that memory runs
/// out.
pub fn overview_text(
    alloc: Global,
    is_human: bool,
    head: &SegmentHead,
    reading: &Reading,
) -> Result<Vec<u8>, AllocError>
    requires { All IsReadable (map histogram_view reading.now.hists.items) }
    ensures { IfOk result (λ text. text.items ≡ overview is_human head.now (reading_view reading.now)) }
{
    let mut text = Vec::new(alloc);
    put_overview(&mut text, is_human, head, reading)?;
    Ok(text)
}
