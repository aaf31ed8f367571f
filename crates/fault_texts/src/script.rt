//! What is wrong with a record of a script, and where.

use crate::complaint::{Complaint, complaint_of};
use crate::records::{ScriptRecord, is_named, line_of, record_of};
use csv::ByteRecord;
use persist_report_core::unsigned_number;
use segment_image::Shape;
use std::alloc::{AllocError, Global};

/// What is wrong with a record of a script.
#[derive(Drop)]
pub struct Finding {
    /// Its fields.
    pub fields: ByteRecord,
    /// Its line in the file, from 1.
    pub line: usize,
    /// What is wrong, if it is known.
    pub complaint: Option<Complaint>,
}

// Whether the size and the page of a `segment` record are a valid shape.
fn has_shape(fields: &ByteRecord) -> bool {
    let (Some(size), Some(page)) = (fields.get(1), fields.get(2)) else {
        return false;
    };
    let (Some(size), Some(page)) = (unsigned_number(size), unsigned_number(page)) else {
        return false;
    };
    Shape::of(u64::from(size), u64::from(page)).is_ok()
}

// What is wrong with the first record, whose form is valid.
fn misbegun(fields: &ByteRecord) -> Complaint {
    if fields.get(0) != Some(b"segment".as_slice()) {
        Complaint::NotFirst
    } else if has_shape(fields) {
        Complaint::OtherSegment
    } else {
        Complaint::Shape
    }
}

// What is wrong with the place of a record, whose form is valid.
fn misplaced(
    alloc: Global,
    text: &[u8],
    number: u32,
    record: &ScriptRecord,
) -> Result<Option<Complaint>, AllocError> {
    let Some(word) = record.fields.get(0) else {
        return Ok(None);
    };
    if number <= 1 {
        return Ok(Some(misbegun(&record.fields)));
    }
    if word == b"segment".as_slice() {
        return Ok(Some(Complaint::LateSegment));
    }
    if word == b"hist".as_slice() {
        return Ok(if record.is_behind_calls {
            Some(Complaint::LateHist)
        } else {
            None
        });
    }
    let Some(name) = record.fields.get(1) else {
        return Ok(None);
    };
    let is_known = is_named(alloc, text, number - 1, name)?;
    Ok(if is_known {
        None
    } else {
        Some(Complaint::UnknownName)
    })
}

/// What is wrong with the record of a script that has this number.
pub fn finding_of(alloc: Global, text: &[u8], number: u32) -> Result<Finding, AllocError> {
    let Some(record) = record_of(alloc, text, number)? else {
        return Ok(Finding {
            fields: ByteRecord::new(alloc),
            line: line_of(text, text.len()),
            complaint: Some(Complaint::NoRecord),
        });
    };
    let complaint = match complaint_of(&record.fields) {
        Some(complaint) => Some(complaint),
        None => misplaced(alloc, text, number, &record)?,
    };
    let line = line_of(text, record.start);
    let ScriptRecord { fields, .. } = record;
    Ok(Finding {
        fields,
        line,
        complaint,
    })
}
