//! How many words a histogram that is too large for a page needs.

use crate::lines::{Source, word_at};
use crate::records::record_of;
use crate::specs_of::{reading_of, spec_of};
use bucket_ranges::Spec;
use csv::ByteRecord;
use persist_report_core::{read_spec, unsigned_number};
use segment_calls::Asked;
use segment_image::Shape;
use segment_image::layout::{BLOCK_HEADER, MAX_PAGE, PAGE_WORD};
use std::alloc::{AllocError, Global};

// The words of the block of a histogram that does not fit in a page, after a colon; nothing if all fit.
fn size_text(alloc: Global, page: u64, name: &[u8], spec: &Spec) -> Result<String, AllocError> {
    // In the largest page each histogram has room.
    let Ok(widest) = Shape::of(MAX_PAGE, MAX_PAGE) else {
        return Ok(String::new(alloc));
    };
    let Ok(asked) = Asked::of(alloc, widest, name, spec) else {
        return Ok(String::new(alloc));
    };
    let record = asked.payload.len().saturating_add(BLOCK_HEADER);
    let counts = asked
        .ranges
        .len()
        .saturating_mul(2)
        .saturating_add(BLOCK_HEADER);
    if record as u64 > page {
        format!(in alloc; ": the record has {record} words, a page has {page}")
    } else if counts as u64 > page {
        format!(in alloc; ": the counts have {counts} words, a page has {page}")
    } else {
        Ok(String::new(alloc))
    }
}

// The words of a page in the segment of a script.
fn page_of(alloc: Global, script: &[u8]) -> Result<Option<u32>, AllocError> {
    let Some(first) = record_of(alloc, script, 1)? else {
        return Ok(None);
    };
    match first.fields.get(2) {
        Some(page) => Ok(unsigned_number(page)),
        None => Ok(None),
    }
}

/// How many words the histogram of a script's record needs, after a colon, if these are more than a page has.
pub(crate) fn record_size_text(
    alloc: Global,
    script: &[u8],
    fields: &ByteRecord,
) -> Result<String, AllocError> {
    if fields.len() < 3 {
        return Ok(String::new(alloc));
    }
    let name = fields.get(1).unwrap_or_default();
    let kind = fields.get(2).unwrap_or_default();
    let spec = read_spec(alloc, kind, fields, 3)?;
    match (page_of(alloc, script)?, spec) {
        (Some(page), Some(spec)) => size_text(alloc, u64::from(page), name, &spec),
        _ => Ok(String::new(alloc)),
    }
}

/// How many words the histogram of DEAD at which a merge stopped needs, if these are more than a page of BASE has.
pub fn merge_size_lines(
    alloc: Global,
    base: Source<'_, '_>,
    dead: Source<'_, '_>,
    name: &[u8],
) -> Result<String, AllocError> {
    let Some(reading) = reading_of(alloc, dead.bytes) else {
        return Ok(String::new(alloc));
    };
    let Some(spec) = spec_of(&reading, name) else {
        return Ok(String::new(alloc));
    };
    let page = word_at(base.bytes, PAGE_WORD);
    let size = size_text(alloc, page, name, spec)?;
    if size.is_empty() {
        return Ok(String::new(alloc));
    }
    format!(in alloc; "  BASE {}{size}\n", base.origin)
}
