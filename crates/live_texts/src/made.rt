//! The reading that has the histograms of a live one, and nothing else.

ghost use Rattle.std.specs.Prelude.{◌≡◌, IfOk};
ghost use Rattle.image_reader.specs.Views.{histogram_view, reading_view};
ghost use Rattle.live_texts.specs.Live.{hist_of as hist_of_live, reading_of as reading_of_live};

use bucket_ranges::{CustomValues, Spec};
use image_reader::{HistReading, Reading};
use live_reading::{LiveHistogram, LiveReading};
use std::alloc::{AllocError, Global};

// A copy of a spec.
fn copy_of(alloc: Global, spec: &Spec) -> Result<Spec, AllocError>
    ensures { IfOk result (λ copy. copy ≡ spec.now) }
{
    Ok(match spec {
        Spec::Linear { min, max, n } => Spec::Linear {
            min: *min,
            max: *max,
            n: *n,
        },
        Spec::Boolean => Spec::Boolean,
        Spec::Custom(values) => {
            Spec::Custom(CustomValues::from(Vec::from_slice(alloc, values.as_slice())?))
        }
        Spec::Sparse => Spec::Sparse,
    })
}

// A histogram, as one that was read.
fn hist_of(alloc: Global, live: &LiveHistogram) -> Result<HistReading, AllocError>
    ensures { IfOk result (λ hist. histogram_view hist ≡ hist_of_live live.now) }
{
    Ok(HistReading {
        reference: 0,
        name: Vec::from_slice(alloc, live.name.as_slice())?,
        spec: copy_of(alloc, &live.spec)?,
        counts: Vec::from_slice(alloc, live.snapshot.counts.as_slice())?,
        marks: Vec::new(alloc),
        sum: i128::from(live.snapshot.sum),
        sum_mark: 0,
        redundant: live.snapshot.redundant,
    })
}

// The reading that has these histograms.
pub(crate) fn reading_of(alloc: Global, live: &LiveReading) -> Result<Reading, AllocError>
    ensures { IfOk result (λ reading. reading_view reading ≡ reading_of_live live.now) }
{
    let mut hists = Vec::new(alloc);
    for hist in &live.hists {
        hists.push(hist_of(alloc, hist)?)?;
    }
    Ok(Reading {
        id: 0,
        full: false,
        corrupt: false,
        hists,
        bad: Vec::new(alloc),
        stopped: None,
    })
}
