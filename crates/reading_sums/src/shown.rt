//! Which histograms of a sum are shown: for each name the one with the least number.

ghost use Rattle.std.specs.Prelude.{◌≡◌, ◌<◌, ◌≤◌, ◌∷◌, ◌++◌, List, nat_lt, length, map, min, take, drop, IfOk, OnOk};
ghost use Rattle.std.specs.List.{All, AllZip, IsFirstBest};
ghost use Rattle.image_reader.specs.Readable.{IsReadable};
ghost use Rattle.image_reader.specs.Views.{histogram_view};
ghost use Rattle.reading_sums.specs.Shown.{shown_at, shown_parts, other_parts, groups_of, members_of, left_out_of, Group, IsOtherOf};
ghost use Rattle.reading_sums.specs.Views.{part_of};
ghost use Rattle.reading_sums.specs.Whole.{IsWholeHist};

use crate::hist::{HistSum, copy_of_spec};
use crate::key::{counts_in, marks_in, units_in};
use image_reader::HistReading;
use std::alloc::{AllocError, Global};

/// What a sum has of a name under a spec that is not shown.
#[derive(Drop)]
pub struct OtherSpec {
    /// The bytes of the name.
    pub name: Vec<u8>,
    /// How many images have such a histogram.
    pub images: u64,
    /// Its units, or the greatest number of 64 bits if they would pass it.
    pub units: u64,
}

// How many histograms at the front of a list have the name of its first.
fn run_length(hists: &[HistSum]) -> usize
    requires { 0 < length hists.now }
    ensures some { 0 < result }
    ensures within { result ≤ length hists.now }
    ensures group { (group : Group) × (members_of group ≡ map part_of (take result hists.now)) × (groups_of (map part_of hists.now) ≡ group ∷ groups_of (map part_of (drop result hists.now))) }
{
    for i in 1..hists.len() {
        if hists[i].name != hists[0].name {
            return i;
        }
    }
    hists.len()
}

// The index of the first histogram with the least number.
fn least_of(hists: &[HistSum]) -> usize
    requires { 0 < length hists.now }
    ensures { IsFirstBest (λ hist best. nat_lt hist.least best.least) hists.now (length hists.now) result }
{
    let mut least = 0;
    for i in 1..hists.len() {
        if hists[i].least < hists[least].least {
            least = i;
        }
    }
    least
}

// What a histogram of a sum reads as, with an index as reference.
fn reading_of(alloc: Global, index: usize, hist: &HistSum) -> Result<HistReading, AllocError>
    ensures { IfOk result (λ reading. histogram_view reading ≡ shown_at index (part_of hist.now)) }
{
    Ok(HistReading {
        reference: index as u64,
        name: Vec::from_slice(alloc, &hist.name)?,
        spec: copy_of_spec(alloc, &hist.spec)?,
        counts: counts_in(alloc, &hist.keys)?,
        marks: marks_in(alloc, &hist.keys)?,
        sum: hist.sum,
        sum_mark: hist.sum_mark,
        redundant: hist.redundant,
    })
}

/// What the histograms of a sum read as: for each name the first that has the least number. They are readable if those
/// of the sum are whole.
pub(crate) fn readings_of(alloc: Global, hists: &[HistSum]) -> Result<Vec<HistReading>, AllocError>
    ensures readable { IfOk result (λ readings. All IsWholeHist hists.now → All IsReadable (map histogram_view readings.items)) }
    ensures shown { IfOk result (λ readings. map histogram_view readings.items ≡ shown_parts (map part_of hists.now)) }
{
    let mut readings = Vec::new(alloc);
    let mut rest = hists;
    while !rest.is_empty() {
        let (run, more) = rest.split_at(run_length(rest));
        let index = readings.len();
        readings.push(reading_of(alloc, index, &run[least_of(run)])?)?;
        rest = more;
    }
    Ok(readings)
}

// What is reported of a histogram that is not shown.
fn other_of(alloc: Global, hist: &HistSum) -> Result<OtherSpec, AllocError>
    ensures { IfOk result (IsOtherOf (part_of hist.now)) }
{
    Ok(OtherSpec {
        name: Vec::from_slice(alloc, &hist.name)?,
        images: hist.images,
        units: units_in(&hist.keys),
    })
}

// Puts what is reported of histograms after others.
fn put_all(alloc: Global, others: &mut Vec<OtherSpec>, hists: &[HistSum]) -> Result<(), AllocError>
    ensures { OnOk result ((parts : List _) → AllZip IsOtherOf parts others.old.items → AllZip IsOtherOf (parts ++ map part_of hists.now) others.new.items) }
{
    for hist in hists {
        others.push(other_of(alloc, hist)?)?;
    }
    Ok(())
}

// Puts what is reported of the histograms of one name after others, except for the one that is shown.
fn put_others(alloc: Global, others: &mut Vec<OtherSpec>, run: &[HistSum]) -> Result<(), AllocError>
    requires { 0 < length run.now }
    ensures { OnOk result ((group : Group) → members_of group ≡ map part_of run.now → (parts : List _) → AllZip IsOtherOf parts others.old.items → AllZip IsOtherOf (parts ++ left_out_of group) others.new.items) }
{
    let (front, behind) = run.split_at(least_of(run));
    put_all(alloc, others, front)?;
    put_all(alloc, others, behind.split_at(1).1)
}

/// What is reported of the histograms of a sum that are not shown, by their names.
pub(crate) fn others_of(alloc: Global, hists: &[HistSum]) -> Result<Vec<OtherSpec>, AllocError>
    ensures { IfOk result (λ others. AllZip IsOtherOf (other_parts (map part_of hists.now)) others.items) }
{
    let mut others = Vec::new(alloc);
    let mut rest = hists;
    while !rest.is_empty() {
        let (run, more) = rest.split_at(run_length(rest));
        put_others(alloc, &mut others, run)?;
        rest = more;
    }
    Ok(others)
}
