//! The words of a script's histograms, and the size that they need.

ghost use Rattle.std.specs.Prelude.{IfOk};
ghost use Rattle.size_texts.specs.Sizes.{IsNeededBy};

use crate::blocks::{Blocks, SAMPLE_WORDS};
use persist_report_core::{CliFault, Script, ScriptHist};
use segment_calls::Refusal;
use segment_image::layout::MAX_SIZE;
use segment_sizes::{SizeFault, needed_size};
use std::alloc::{AllocError, Global};
use std::collections::BTreeSet;

/// The words of a histogram.
#[derive(Drop)]
pub struct HistSize<'a> {
    /// Its name.
    pub name: &'a [u8],
    /// The number of its `hist` record.
    pub number: u32,
    /// Its record and its counts.
    pub blocks: Blocks,
    /// How many values it has a record for, if it is sparse.
    pub values: u64,
    /// Whether its record and its counts fit in a page.
    pub fits: bool,
}

/// The words of histograms, and the size that they need.
#[derive(Drop)]
pub struct Sizes<'a> {
    /// The words of a page.
    pub page: u64,
    /// The histograms, in the order of their `hist` records.
    pub hists: Vec<HistSize<'a>>,
    /// The words of all blocks.
    pub blocks: Vec<u64>,
    /// The size with which they fit in whatever order they are claimed, or why none is known.
    pub needed: Result<u64, SizeFault>,
}

// Why the histogram of a `hist` record has no blocks.
fn fault_of(number: u32, why: Refusal) -> CliFault {
    match why {
        Refusal::NoMemory => CliFault::NoMemory,
        why => CliFault::Refused { number, why },
    }
}

// The words of the histogram of a `hist` record, with this many values if it is sparse.
fn size_of_hist<'a>(
    alloc: Global,
    hist: &'a ScriptHist,
    values: u64,
    page: u64,
) -> Result<HistSize<'a>, CliFault> {
    let blocks = Blocks::of(alloc, hist.name.as_slice(), &hist.spec).map_err(|why| fault_of(
        hist.number,
        why,
    ))?;
    Ok(HistSize {
        name: hist.name.as_slice(),
        number: hist.number,
        values: if blocks.counts.is_none() { values } else { 0 },
        fits: blocks.record <= page && blocks.counts.unwrap_or(0) <= page,
        blocks,
    })
}

// Appends the blocks of a histogram.
fn push_blocks(blocks: &mut Vec<u64>, hist: &HistSize<'_>) -> Result<(), AllocError> {
    blocks.push(hist.blocks.record)?;
    if let Some(counts) = hist.blocks.counts {
        blocks.push(counts)?;
    }
    // More than a segment has room for are too many in any case.
    for _ in 0..hist.values.min(MAX_SIZE) {
        blocks.push(SAMPLE_WORDS)?;
    }
    Ok(())
}

// The histograms of a script, each name once.
fn hists_of<'a>(
    alloc: Global,
    script: &'a Script,
    values: &[u64],
    page: u64,
) -> Result<Vec<HistSize<'a>>, CliFault> {
    let mut names = BTreeSet::new(alloc);
    let mut hists = Vec::new(alloc);
    for (i, hist) in script.hists.iter().enumerate() {
        let is_new = names
            .insert(hist.name.clone()?)
            .map_err(|_| CliFault::NoMemory)?;
        if is_new {
            let values = values.get(i).copied().unwrap_or(0);
            let size = size_of_hist(alloc, hist, values, page)?;
            hists.push(size).map_err(|_| CliFault::NoMemory)?;
        }
    }
    Ok(hists)
}

/// Returns the words of the histograms of a script, each name once, in pages of `page` words, and the size that their
/// blocks need. Each sparse one has as many values as `values` says at the place of its `hist` record.
///
/// The error is why a record is refused, `BadName` or `BadSpec`, or that memory ran out. A histogram that does not fit
/// in a page is no error: `fits` says whether it does.
pub fn sizes_of<'a>(
    alloc: Global,
    script: &'a Script,
    values: &[u64],
    page: u64,
) -> Result<Sizes<'a>, CliFault>
    ensures { IfOk result (λ sizes. IsNeededBy page sizes.blocks.items sizes.needed) }
{
    let hists = hists_of(alloc, script, values, page)?;
    let mut blocks = Vec::new(alloc);
    for hist in &hists {
        push_blocks(&mut blocks, hist)?;
    }
    blocks.sort_unstable();
    let needed = needed_size(&blocks, page);
    Ok(Sizes {
        page,
        hists,
        blocks,
        needed,
    })
}
