//! Sums of images that come after others.

ghost use Rattle.std.specs.Prelude.{◌≡◌, ◌+◌, ◌<◌, ◌≤◌, ◌^◌, map, IfOk, IfErr, OnOk};
ghost use Rattle.std.specs.List.{All};
ghost use Rattle.reading_sums.specs.Fitting.{HasNumberTooGreat, IfTooMany};
ghost use Rattle.reading_sums.specs.Totals.{raised_part};
ghost use Rattle.reading_sums.specs.Views.{part_of};

use crate::fault::SumsFault;
use crate::hist::{HistSum, copy_of};
use crate::notes::number_of_both;
use std::alloc::Global;

// A histogram of a sum with the numbers of its images raised by `by`, if they fit 64 bits.
fn raised_hist(alloc: Global, hist: &HistSum, by: u64) -> Result<HistSum, SumsFault>
    ensures raised { IfOk result (λ raised. part_of raised ≡ raised_part by (part_of hist.now)) }
    ensures too_many { IfErr result (λ fault. IfTooMany fault (2 ^ 64 ≤ hist.now.least + by)) }
    ensures fits { OnOk result (hist.now.least + by < 2 ^ 64) }
{
    Ok(HistSum {
        least: number_of_both(hist.least, by)?,
        ..copy_of(alloc, hist)?
    })
}

/// The histograms of a sum with the numbers of their images raised by `by`, if they fit 64 bits.
pub(crate) fn raised_hists(
    alloc: Global,
    hists: &[HistSum],
    by: u64,
) -> Result<Vec<HistSum>, SumsFault>
    ensures raised { IfOk result (λ raised. map part_of raised.items ≡ map (raised_part by) (map part_of hists.now)) }
    ensures too_many { IfErr result (λ fault. IfTooMany fault (HasNumberTooGreat by (map part_of hists.now))) }
    ensures fits { OnOk result (All (λ hist. hist.least + by < 2 ^ 64) hists.now) }
{
    let mut raised = Vec::with_capacity(alloc, hists.len())?;
    for hist in hists {
        raised.push(raised_hist(alloc, hist, by)?)?;
    }
    Ok(raised)
}
