//! Measures how long an image takes to be adopted, and the same words to be read.
//!
//! It prints how many words the image has, and for each of TURNS turns of all ways the time of each, in microseconds:
//! of the reading alone, of the reading and its report in memory, and of the adoption. The time of a reading ends when
//! its memory is given back.

use anyhow::{Result, bail};
use image_reader::read;
use live_segment::Segment;
use persist_report_core::report_of;
use segment_image::layout::MAX_SIZE;
use segment_image::{Watched, read_words};
use std::fs;
use std::rt::{Clock, Files};
use std::time::Instant;

// Prints the times of one turn.
fn show_times(rt: &(impl Clock + Print + AllocGlobal), words: &[u64]) -> Result<()> {
    let start = Instant::now(rt)?;
    drop(read(rt.alloc(), words)?);
    let read = start.elapsed(rt)?.as_micros();
    let start = Instant::now(rt)?;
    let _text = report_of(rt.alloc(), words)?;
    let report = start.elapsed(rt)?.as_micros();
    let start = Instant::now(rt)?;
    let _adopted = Segment::adopt(rt.alloc(), words, 0)?;
    let adopt = start.elapsed(rt)?.as_micros();
    println!(rt; "{read} read, {report} report, {adopt} adopt")?;
    Ok(())
}

/// Measures turns, and prints how many words the image has and the times of each turn.
pub(crate) fn run<R: Clock + Files + Print + AllocGlobal>(rt: &R, words: &[String]) -> Result<()> {
    let [path, turns] = words else {
        bail!("give IMAGE TURNS");
    };
    let turns = turns.parse::<u32>()?;
    let mut file = Watched::new(fs::open(rt, path.as_str())?);
    let words = read_words(rt.alloc(), &mut file, MAX_SIZE as usize)?;
    println!(rt; "{} words", words.len())?;
    for _ in 0..turns {
        show_times(rt, &words)?;
    }
    Ok(())
}
