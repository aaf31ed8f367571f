//! The sentences after the histograms.

ghost use Rattle.std.specs.Prelude.{◌≡◌, ◌++◌, map, OnOk};
ghost use Rattle.std.specs.List.{flat_map};
ghost use Rattle.image_reader.specs.Views.{bad_view, histogram_view, reading_view};
ghost use Rattle.reading_shows.specs.Showing.{none_sentence, flag_sentence, bad_sentence, stopped_sentence, ending};

use image_reader::{BadRecord, HistReading, Reading};
use reading_texts::{image_fault_word, put_parts, record_fault_word};
use segment_image::ImageFault;
use std::alloc::{AllocError, Global};

// Puts the sentence that says that no histogram is shown, if none is.
fn put_none(text: &mut Vec<u8>, hists: &[&HistReading]) -> Result<(), AllocError>
    ensures { OnOk result (text.new.items ≡ text.old.items ++ none_sentence (map (λ hist. histogram_view hist.now) hists.now)) }
{
    if hists.is_empty() {
        text.extend_from_slice(b"No histogram is shown.\n")?;
    }
    Ok(())
}

// Puts the sentence of a flag, if it is set.
fn put_flag(text: &mut Vec<u8>, flag: bool, sentence: &[u8]) -> Result<(), AllocError>
    ensures { OnOk result (text.new.items ≡ text.old.items ++ flag_sentence flag sentence.now) }
{
    if flag {
        text.extend_from_slice(sentence)?;
    }
    Ok(())
}

// Puts the sentence of a bad record.
fn put_bad(alloc: Global, text: &mut Vec<u8>, bad: &BadRecord) -> Result<(), AllocError>
    ensures { OnOk result (text.new.items ≡ text.old.items ++ bad_sentence (bad_view bad.now)) }
{
    let reference = bad.reference.to_string(alloc)?;
    put_parts(
        text,
        &[
            b"The record at word ",
            reference.as_bytes(),
            b" cannot be read: ",
            record_fault_word(bad.fault),
            b".\n",
        ],
    )
}

// Puts the sentences of all bad records.
fn put_all_bad(alloc: Global, text: &mut Vec<u8>, all: &[BadRecord]) -> Result<(), AllocError>
    ensures { OnOk result (text.new.items ≡ text.old.items ++ flat_map bad_sentence (map bad_view all.now)) }
{
    for bad in all {
        put_bad(alloc, text, bad)?;
    }
    Ok(())
}

// Puts the sentence that says why the list stopped, if it did.
fn put_stopped(text: &mut Vec<u8>, stopped: Option<ImageFault>) -> Result<(), AllocError>
    ensures { OnOk result (text.new.items ≡ text.old.items ++ stopped_sentence stopped) }
{
    if let Some(fault) = stopped {
        put_parts(
            text,
            &[
                b"The list of records stops before its end: ",
                image_fault_word(fault),
                b".\n",
            ],
        )?;
    }
    Ok(())
}

// Puts all sentences that follow these histograms of a reading.
pub(crate) fn put_ending(
    alloc: Global,
    text: &mut Vec<u8>,
    hists: &[&HistReading],
    reading: &Reading,
) -> Result<(), AllocError>
    ensures { OnOk result (text.new.items ≡ text.old.items ++ ending (map (λ hist. histogram_view hist.now) hists.now) (reading_view reading.now)) }
{
    put_none(text, hists)?;
    put_flag(
        text,
        reading.corrupt,
        b"The segment is marked as corrupt.\n",
    )?;
    put_flag(
        text,
        reading.full,
        b"The segment was full: an allocation did not fit.\n",
    )?;
    put_all_bad(alloc, text, reading.bad.as_slice())?;
    put_stopped(text, reading.stopped)?;
    Ok(())
}
