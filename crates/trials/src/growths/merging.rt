//! What is made of the words of an image: its reading, its report as that of a file, and a merge into a new segment.

ghost use Rattle.live_segment.specs.Holders.{IsMadeWith};

use crate::growths::again::{again, show_refused, show_try};
use anyhow::Result;
use bucket_ranges::limits::MAX_UNITS;
use image_reader::{Reading, read};
use live_segment::{Opener, Segment};
use persist_report_core::report_of;
use segment_image::{Watched, write_words};
use segment_merge::{MergeReport, merge};
use std::alloc::Global;
use std::io;
use std::io::Write;
use text_forms::{Form, write_text};

// The report of the bytes that the words are.
fn show_report(rt: &impl Print, alloc: Global, words: &[u64]) -> Result<()> {
    let mut file = Watched::new(Vec::new(alloc));
    write_words(&mut file, words)?;
    let bytes = file.into_inner();
    again!(
        rt,
        "report",
        write_text(
            alloc,
            Form::Report,
            &mut Watched::new(bytes.as_slice()),
            &mut Watched::new(io::writer(rt))
        )
    );
    Ok(())
}

// Whether a merge was made whole, by what it reports.
fn show_merged(rt: &impl Print, report: &MergeReport) -> io::Result<bool> {
    for (name, units) in report.added.iter() {
        println!(rt; "added {name:?} {units}")?;
    }
    match &report.stopped {
        None => Ok(true),
        Some(stop) => {
            println!(rt; "stopped {:?} {} {}", stop.name, stop.items, stop.why)?;
            Ok(false)
        }
    }
}

// Whether a reading was merged whole.
fn merge_into(
    rt: &(impl Print + AllocGlobal),
    segment: &Segment,
    opener: &mut Opener,
    reading: &Reading,
) -> Result<bool>
    requires made { IsMadeWith segment.now opener.old }
    ensures { IsMadeWith segment.entry.now opener.new }
{
    let mut recorder = opener.recorder(segment, MAX_UNITS as u32)?;
    show_try(rt, "merge")?;
    let is_whole = match merge(rt.alloc(), &mut recorder, reading) {
        Ok(report) => show_merged(rt, &report)?,
        Err(why) => {
            show_refused(rt, "merge", &why)?;
            false
        }
    };
    opener.join(recorder);
    println!(rt; "{} units", opener.units())?;
    Ok(is_whole)
}

// Merges a reading into a new segment and shows the report of that; whether it was merged whole.
fn show_merge(rt: &(impl Print + AllocGlobal), reading: &Reading) -> Result<bool> {
    let alloc = rt.alloc();
    let (segment, mut opener) = Segment::create(alloc, 1024, 256, 7, 0, 2)?;
    let is_whole = merge_into(rt, &segment, &mut opener, reading)?;
    let image = segment.close(opener);
    io::writer(rt).write_all(&report_of(alloc, image.words())?)?;
    Ok(is_whole)
}

/// Merges words into a new segment; if that stops, into another one.
pub(super) fn show(rt: &(impl Print + AllocGlobal), words: &[u64]) -> Result<()> {
    let reading = again!(rt, "read", read(rt.alloc(), words));
    println!(rt; "{} histograms", reading.hists.len())?;
    show_report(rt, rt.alloc(), words)?;
    if !show_merge(rt, &reading)? {
        show_merge(rt, &reading)?;
    }
    Ok(())
}
