//! What a call is to count: its entries, and the items of a batch.

ghost use Rattle.std.specs.Prelude.{◌≡◌, pos, true, None, IfOk, map, not, min, ◌==◌};
ghost use Rattle.std.specs.List.{AllZip, list_all};
ghost use Rattle.bucket_ranges.specs.Ranges.{AreBoundaries, boundaries_of};
ghost use Rattle.bucket_ranges.specs.Spec.{spec_fault};
ghost use Rattle.segment_machine.specs.Actor.{has_buckets};
ghost use Rattle.segment_machine.specs.Entry.{batch_cost as cost_of_batch, batch_entries as entries_of_batch};
ghost use Rattle.hist_core.specs.Add.{IsStarted};
ghost use Rattle.hist_core.specs.ActorRun.{known_of, entry_of as machine_entry};

use crate::add::Add;
use crate::entry::Entry;
use crate::hist::KnownHist;
use crate::keys::key_of;
use segment_image::Shape;
use std::alloc::{AllocError, Global};

// An entry of a known histogram.
pub(crate) fn entry_of(
    alloc: Global,
    known: &KnownHist,
    key: i32,
    units: u32,
    amount: i64,
) -> Result<Entry, AllocError>
    ensures { IfOk result (λ entry. machine_entry entry ≡ record { name = known.now.name.items; key = key; units = units; amount = amount }) }
{
    Ok(Entry {
        name: Vec::from_slice(alloc, &known.name)?,
        key,
        units: u64::from(units),
        amount,
    })
}

// The entries of a batch: one for each item, then one for its sum, if that is not 0.
pub(crate) fn batch_entries(
    alloc: Global,
    known: &KnownHist,
    items: &[(i32, u32)],
    sum: i64,
) -> Result<Vec<Entry>, AllocError>
    requires { AreBoundaries known.now.ranges }
    ensures { IfOk result (λ entries. map machine_entry entries.items ≡ entries_of_batch known.now.name.items known.now.ranges items.now sum) }
{
    let mut entries = Vec::new(alloc);
    for &(value, units) in items {
        let key = key_of(&known.ranges, value);
        entries.push(entry_of(alloc, known, key, units, 0)?)?;
    }
    if sum != 0 {
        entries.push(entry_of(alloc, known, 0, 0, sum)?)?;
    }
    Ok(entries)
}

// The items of a batch, each before its first event.
pub(crate) fn new_items(
    alloc: Global,
    shape: Shape,
    version: u64,
    known: &KnownHist,
    items: &[(i32, u32)],
) -> Result<Vec<Add>, AllocError>
    requires lawful { spec_fault known.now.spec ≡ None }
    requires ranges { known.now.ranges ≡ boundaries_of known.now.spec }
    ensures { IfOk result (λ adds. AllZip (λ item add. IsStarted shape version (known_of known.now) item.0 item.1 (pos 0) add) items.now adds.items) }
{
    let mut adds = Vec::with_capacity(alloc, items.len())?;
    for &(value, units) in items {
        adds.push(Add::start(shape, version, known, value, units, 0))?;
    }
    Ok(adds)
}

// Whether no item has a count of 0.
pub(crate) fn are_some(items: &[(i32, u32)]) -> bool
    ensures { result ≡ list_all (λ item. not (item.1 == 0)) items.now }
{
    items.iter().all(|item| item.1 != 0)
}

// The units that a batch costs, or 2^64 - 1 if that is less: those of its items, or the size of its sum divided by 2^31
// and rounded up, if that is more.
pub(crate) fn batch_cost(items: &[(i32, u32)], sum: i64) -> u64
    ensures { result ≡ min (cost_of_batch items.now sum) 18446744073709551615 }
{
    let mut units: u64 = 0;
    for item in items {
        units = units.saturating_add(u64::from(item.1));
    }
    units.max(sum.unsigned_abs().div_ceil(2_147_483_648))
}
