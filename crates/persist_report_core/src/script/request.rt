//! What a record of a script asks for, by its fields alone.

ghost use Rattle.std.specs.Prelude.{◌≡◌, IfOk, option_map, drop};
ghost use Rattle.csv.specs.Records.{fields_of};
ghost use Rattle.persist_report_core.specs.Request.{segment_in, add_in, delta_in, hist_in, request_behind, request_in, request_view};

use crate::fields::{read_spec, three_from};
use crate::number::{long_number, signed_number, unsigned_number};
use bucket_ranges::Spec;
use csv::ByteRecord;
use std::alloc::{AllocError, Global};

/// What a record asks for.
#[derive(Drop)]
pub(crate) enum ScriptRequest<'a> {
    /// A segment with a size and a page in words, and with an id.
    Segment {
        size: u32,
        page: u32,
        id: u64,
    },
    /// A histogram.
    Hist {
        name: &'a [u8],
        spec: Spec,
    },
    /// Units of a value, for the histogram of a name.
    Add {
        name: &'a [u8],
        value: i32,
        count: u32,
    },
    /// A delta of the histogram of a name.
    Delta {
        name: &'a [u8],
    },
}

// The fields after the word `segment`.
fn read_segment(fields: &ByteRecord) -> Option<ScriptRequest<'_>>
    ensures { option_map request_view result ≡ segment_in (drop 1 (fields_of fields.now)) }
{
    let (size, page, id) = three_from(fields, 1)?;
    let size = unsigned_number(size)?;
    let page = unsigned_number(page)?;
    let id = long_number(id)?;
    Some(ScriptRequest::Segment { size, page, id })
}

// The fields after the word `add`.
fn read_add(fields: &ByteRecord) -> Option<ScriptRequest<'_>>
    ensures { option_map request_view result ≡ add_in (drop 1 (fields_of fields.now)) }
{
    let (name, value, count) = three_from(fields, 1)?;
    let value = signed_number(value)?;
    let count = unsigned_number(count)?;
    Some(ScriptRequest::Add { name, value, count })
}

// The name after the word `delta`.
fn read_delta(fields: &ByteRecord) -> Option<ScriptRequest<'_>>
    ensures { option_map request_view result ≡ delta_in (drop 1 (fields_of fields.now)) }
{
    if fields.len() != 2 {
        return None;
    }
    let name = fields.get(1)?;
    Some(ScriptRequest::Delta { name })
}

// The fields after the word `hist`.
fn read_hist(alloc: Global, fields: &ByteRecord) -> Result<Option<ScriptRequest<'_>>, AllocError>
    ensures { IfOk result (λ request. option_map request_view request ≡ hist_in (drop 1 (fields_of fields.now))) }
{
    let Some(name) = fields.get(1) else {
        return Ok(None);
    };
    let Some(kind) = fields.get(2) else {
        return Ok(None);
    };
    match read_spec(alloc, kind, fields, 3)? {
        Some(spec) => Ok(Some(ScriptRequest::Hist { name, spec })),
        None => Ok(None),
    }
}

// What the fields after a word ask for.
fn read_behind<'a>(
    alloc: Global,
    word: &[u8],
    fields: &'a ByteRecord,
) -> Result<Option<ScriptRequest<'a>>, AllocError>
    ensures { IfOk result (λ request. option_map request_view request ≡ request_behind word.now (drop 1 (fields_of fields.now))) }
{
    if word == b"add".as_slice() {
        Ok(read_add(fields))
    } else if word == b"delta".as_slice() {
        Ok(read_delta(fields))
    } else if word == b"hist".as_slice() {
        read_hist(alloc, fields)
    } else if word == b"segment".as_slice() {
        Ok(read_segment(fields))
    } else {
        Ok(None)
    }
}

/// What a record asks for, or nothing if it is malformed.
pub(crate) fn read_request(
    alloc: Global,
    fields: &ByteRecord,
) -> Result<Option<ScriptRequest<'_>>, AllocError>
    ensures { IfOk result (λ request. option_map request_view request ≡ request_in (fields_of fields.now)) }
{
    match fields.get(0) {
        Some(word) => read_behind(alloc, word, fields),
        None => Ok(None),
    }
}
