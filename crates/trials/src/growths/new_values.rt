//! New images, ranges and tallies.

use crate::growths::again::{again, show_refused, show_try};
use anyhow::Result;
use bucket_ranges::{CustomValues, Ranges, Spec, tally};
use segment_image::Image;
use std::alloc::Global;

// More values than a node of an ordered map has room for.
const SAMPLES: [(i32, u32); 14] = [
    (13, 1),
    (0, 1),
    (1, 1),
    (2, 1),
    (3, 1),
    (4, 1),
    (5, 1),
    (6, 1),
    (7, 1),
    (8, 1),
    (9, 1),
    (10, 1),
    (11, 1),
    (12, 1),
];

/// The spec of a custom histogram.
pub(super) fn custom(alloc: Global) -> Result<Spec> {
    let values = Vec::from_slice(alloc, &[20, 5, 10, 5])?;
    Ok(Spec::Custom(CustomValues::from(values)))
}

// How many buckets a spec has, and what samples add up to in them.
fn show_ranges(rt: &impl Print, alloc: Global, spec: &Spec) -> Result<()> {
    let ranges = again!(rt, "ranges", Ranges::of(alloc, spec));
    println!(rt; "{} buckets", ranges.len())?;
    let plain = again!(rt, "tally", tally(alloc, &ranges, &SAMPLES));
    println!(rt;
        "{:?} {} units, sum {}",
        plain.counts, plain.units, plain.sum
    )?;
    Ok(())
}

pub(super) fn show(rt: &(impl Print + AllocGlobal)) -> Result<()> {
    let alloc = rt.alloc();
    let image = again!(rt, "blank", Image::blank(alloc, 128, 64, 7));
    println!(rt; "{:?}", image.words())?;
    let linear = Spec::Linear {
        min: 1,
        max: 10,
        n: 5,
    };
    show_ranges(rt, alloc, &linear)?;
    show_ranges(rt, alloc, &custom(alloc)?)?;
    show_ranges(rt, alloc, &Spec::Sparse)
}
