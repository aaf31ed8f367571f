//! The records of a script, and where each is in its file.

ghost use Rattle.std.specs.Prelude.{◌≡◌, ◌+◌, ◌≤◌, ◌==◌, count_by, length, take, IfSome, IfOk};

use csv::{ByteRecord, Reader, ReaderBuilder};
use std::alloc::{AllocError, Global};
use std::io;
use std::io::Read;

/// A record of a script, and where it is.
#[derive(Drop)]
pub struct ScriptRecord {
    /// Its fields.
    pub fields: ByteRecord,
    /// How many bytes are before it.
    pub start: usize,
    /// Whether an `add` or a `delta` record comes before it.
    pub is_behind_calls: bool,
}

// A text that is read byte by byte, so that it is known where a record ends.
#[derive(Drop)]
struct Bytewise<'a> {
    text: &'a [u8],
    taken: usize,
}

impl Read for Bytewise<'_> {
    fn read(&mut self, buf: &mut [u8]) -> io::Result<usize> {
        match (self.text.get(self.taken), buf.first_mut()) {
            (Some(byte), Some(place)) => {
                *place = *byte;
                self.taken = self.taken.saturating_add(1);
                Ok(1)
            }
            _ => Ok(0),
        }
    }
}

// A reader of the records of a text.
fn records_of(alloc: Global, text: &[u8]) -> Reader<Bytewise<'_>> {
    ReaderBuilder::new()
        .has_headers(false)
        .flexible(true)
        .from_reader(alloc, Bytewise { text, taken: 0 })
}

// Whether there is a next record, whose fields are then these. A read of bytes in memory fails only if memory runs out.
fn next(records: &mut Reader<Bytewise<'_>>, fields: &mut ByteRecord) -> Result<bool, AllocError> {
    records.read_byte_record(fields).map_err(|_| AllocError)
}

// Whether the first field is this word.
fn begins_with(fields: &ByteRecord, word: &[u8]) -> bool {
    fields.get(0).is_some_and(|first| first == word)
}

// Where the next record begins after this many bytes: after line ends, and after a byte order mark at the start.
fn start_of(text: &[u8], taken: usize) -> usize
    ensures { result ≤ length text.now }
{
    let rest = text.get(taken..).unwrap_or_default();
    let rest = if taken == 0 {
        rest.strip_prefix(b"\xef\xbb\xbf").unwrap_or(rest)
    } else {
        rest
    };
    let ends = rest
        .iter()
        .take_while(|byte| **byte == b'\n' || **byte == b'\r')
        .count();
    text.len() - rest.len() + ends
}

/// The record of a script with this number, from 1, if there is one.
pub fn record_of(
    alloc: Global,
    text: &[u8],
    number: u32,
) -> Result<Option<ScriptRecord>, AllocError>
    ensures { IfOk result (λ found. IfSome found (λ one. one.start ≤ length text.now)) }
{
    let mut records = records_of(alloc, text);
    let mut fields = ByteRecord::new(alloc);
    let mut is_behind_calls = false;
    for _ in 1..number {
        if !next(&mut records, &mut fields)? {
            return Ok(None);
        }
        is_behind_calls = is_behind_calls
            || begins_with(&fields, b"add")
            || begins_with(&fields, b"delta");
    }
    let start = start_of(text, records.get_ref().taken);
    if !next(&mut records, &mut fields)? {
        return Ok(None);
    }
    Ok(Some(ScriptRecord {
        fields,
        start,
        is_behind_calls,
    }))
}

/// Whether one of the first `count` records of a script is a `hist` record of the name.
pub fn is_named(alloc: Global, text: &[u8], count: u32, name: &[u8]) -> Result<bool, AllocError> {
    let mut records = records_of(alloc, text);
    let mut fields = ByteRecord::new(alloc);
    for _ in 0..count {
        if !next(&mut records, &mut fields)? {
            return Ok(false);
        }
        if begins_with(&fields, b"hist") && fields.get(1).is_some_and(|found| found == name) {
            return Ok(true);
        }
    }
    Ok(false)
}

// How many line feeds a text has.
fn line_feeds(text: &[u8]) -> usize
    ensures { result ≡ count_by (λ byte. byte == 10) text.now }
{
    text.iter().filter(|byte| **byte == b'\n').count()
}

/// Returns the line of a file in which a byte is, from 1: one more than the line feeds before it.
pub fn line_of(text: &[u8], start: usize) -> usize
    requires { start ≤ length text.now }
    ensures { result ≡ 1 + count_by (λ byte. byte == 10) (take start text.now) }
{
    1 + line_feeds(&text[..start])
}
