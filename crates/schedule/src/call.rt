//! What call a record begins, by its word and the fields after its actor.

ghost use Rattle.std.specs.Prelude.{◌≡◌, IfOk, option_map, drop};
ghost use Rattle.csv.specs.Records.{fields_of};
ghost use Rattle.schedule.specs.Fields.{texts};
ghost use Rattle.schedule.specs.Call.{call_view, call_in, hist_in, add_in, batch_in, item_in, items_in, name_in, sample_in};

use csv::ByteRecord;
use persist_report_core::{read_spec, signed_long_number, signed_number, unsigned_number};
use segment_calls::Call;
use std::alloc::{AllocError, Global};

// The name, if nothing follows it.
fn read_name(alloc: Global, behind: &[&[u8]]) -> Result<Option<Vec<u8>>, AllocError>
    ensures { IfOk result (λ name. option_map (λ name. name.items) name ≡ name_in (texts behind.now)) }
{
    match behind {
        [name] => Ok(Some(Vec::from_slice(alloc, name)?)),
        _ => Ok(None),
    }
}

// A value and how often it is counted.
fn item_of(value: &[u8], count: &[u8]) -> Option<(i32, u32)>
    ensures { result ≡ item_in value.now count.now }
{
    let value = signed_number(value)?;
    let count = unsigned_number(count)?;
    Some((value, count))
}

// A name, a value, and how often it is counted.
fn sample_of<'a>(behind: &[&'a [u8]]) -> Option<(&'a [u8], i32, u32)>
    ensures { option_map (λ sample. (sample.0.now, sample.1, sample.2)) result ≡ sample_in (texts behind.now) }
{
    let [name, value, count] = behind else {
        return None;
    };
    let (value, count) = item_of(value, count)?;
    Some((name, value, count))
}

// Samples of a value.
fn read_add(alloc: Global, behind: &[&[u8]]) -> Result<Option<Call>, AllocError>
    ensures { IfOk result (λ call. option_map call_view call ≡ add_in (texts behind.now)) }
{
    match sample_of(behind) {
        Some((name, value, count)) => {
            let name = Vec::from_slice(alloc, name)?;
            Ok(Some(Call::Add(name, value, count)))
        }
        None => Ok(None),
    }
}

// Values, each followed by how often it is counted.
fn read_items(alloc: Global, behind: &[&[u8]]) -> Result<Option<Vec<(i32, u32)>>, AllocError>
    ensures { IfOk result (λ items. option_map (λ items. items.items) items ≡ items_in (texts behind.now)) }
{
    let mut items = Vec::new(alloc);
    let mut rest = behind;
    'items: while let [value, count, more @ ..] = rest {
        let Some(item) = item_of(value, count) else {
            return Ok(None);
        };
        items.push(item)?;
        rest = more;
    }
    if rest.is_empty() {
        Ok(Some(items))
    } else {
        Ok(None)
    }
}

// A batch: a name, a sum, and values, each followed by how often it is counted.
fn read_batch(alloc: Global, behind: &[&[u8]]) -> Result<Option<Call>, AllocError>
    ensures { IfOk result (λ call. option_map call_view call ≡ batch_in (texts behind.now)) }
{
    let [name, sum, values @ ..] = behind else {
        return Ok(None);
    };
    match (signed_long_number(sum), read_items(alloc, values)?) {
        (Some(sum), Some(items)) => {
            let name = Vec::from_slice(alloc, name)?;
            Ok(Some(Call::Batch(name, items, sum)))
        }
        _ => Ok(None),
    }
}

// A histogram: a name, and a kind with what follows it.
fn read_hist(
    alloc: Global,
    behind: &[&[u8]],
    csv_record: &ByteRecord,
) -> Result<Option<Call>, AllocError>
    requires { texts behind.now ≡ drop 2 (fields_of csv_record.now) }
    ensures { IfOk result (λ call. option_map call_view call ≡ hist_in (texts behind.now)) }
{
    let [name, kind, ..] = behind else {
        return Ok(None);
    };
    match read_spec(alloc, kind, csv_record, 4)? {
        Some(spec) => Ok(Some(Call::Hist(Vec::from_slice(alloc, name)?, spec))),
        None => Ok(None),
    }
}

/// The call that a word and the fields after the actor begin, if they begin one.
pub(crate) fn read_call(
    alloc: Global,
    word: &[u8],
    behind: &[&[u8]],
    csv_record: &ByteRecord,
) -> Result<Option<Call>, AllocError>
    requires { texts behind.now ≡ drop 2 (fields_of csv_record.now) }
    ensures { IfOk result (λ call. option_map call_view call ≡ call_in word.now (texts behind.now)) }
{
    if word == b"hist".as_slice() {
        read_hist(alloc, behind, csv_record)
    } else if word == b"add".as_slice() {
        read_add(alloc, behind)
    } else if word == b"batch".as_slice() {
        read_batch(alloc, behind)
    } else if word == b"delta".as_slice() {
        Ok(read_name(alloc, behind)?.map(Call::Delta))
    } else if word == b"snapshot".as_slice() {
        Ok(read_name(alloc, behind)?.map(Call::Snapshot))
    } else if word == b"set_corrupt".as_slice() && behind.is_empty() {
        Ok(Some(Call::SetCorrupt))
    } else {
        Ok(None)
    }
}
