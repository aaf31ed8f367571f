//! The name of a record.

ghost use Rattle.std.specs.Prelude.{◌≡◌, ◌≤◌, ◌+◌, true, false, length, IfOk};
ghost use Rattle.std.specs.List.{list_all};
ghost use Rattle.segment_image.specs.Words.{bytes_of_words};
ghost use Rattle.segment_image.specs.Blocks.{field_at};
ghost use Rattle.bucket_ranges.specs.Reading.{name_length, named_words, name_of, is_name, is_name_byte, has_name};
ghost use Rattle.image_reader.specs.Records.{RefusedOnly};

use crate::record::Refusal;
use bucket_ranges::limits::MAX_NAME;
use bucket_ranges::reading::RecordFault;
use byteorder::{ByteOrder, LittleEndian};
use segment_image::layout::{BLOCK_SIZE, HISTOGRAM_LEAST, HISTOGRAM_NAME, HISTOGRAM_NAME_LENGTH};
use std::alloc::{AllocError, Global};

/// The name of the record in a block at `at`, or `BadName`.
pub(crate) fn name_at(alloc: Global, words: &[u64], at: usize) -> Result<Vec<u8>, Refusal>
    requires within { at + field_at words.now at BLOCK_SIZE ≤ length words.now }
    requires long { HISTOGRAM_LEAST ≤ field_at words.now at BLOCK_SIZE }
    ensures name { IfOk result (λ name. (has_name words.now at ≡ true) × (name.items ≡ name_of words.now at)) }
    ensures lawful { IfOk result (λ name. is_name name.items ≡ true) }
    ensures fault { RefusedOnly RecordFault.BadName (has_name words.now at ≡ false) result }
{
    let len = words[at + HISTOGRAM_NAME_LENGTH];
    if len == 0 || len > MAX_NAME {
        return Err(Refusal::Fault(RecordFault::BadName));
    }
    if HISTOGRAM_NAME as u64 + len.div_ceil(8) > words[at + BLOCK_SIZE] {
        return Err(Refusal::Fault(RecordFault::BadName));
    }
    let name = read_name(alloc, words, at, len)?;
    if !is_lawful_name(&name) {
        return Err(Refusal::Fault(RecordFault::BadName));
    }
    Ok(name)
}

/// The `len` bytes of the name of a record, whose words lie in the image.
pub(crate) fn read_name(
    alloc: Global,
    words: &[u64],
    at: usize,
    len: u64,
) -> Result<Vec<u8>, AllocError>
    requires length { len ≡ name_length words.now at }
    requires within { at + named_words words.now at ≤ length words.now }
    ensures { IfOk result (λ name. name.items ≡ name_of words.now at) }
{
    let len = len as usize;
    let first = at + HISTOGRAM_NAME;
    let mut name = bytes_of(alloc, &words[first..first + len.div_ceil(8)])?;
    name.truncate(len);
    Ok(name)
}

// The bytes of words, eight for each, the least significant first.
fn bytes_of(alloc: Global, words: &[u64]) -> Result<Vec<u8>, AllocError>
    ensures { IfOk result (λ bytes. bytes.items ≡ bytes_of_words words.now) }
{
    let mut bytes = Vec::with_capacity(alloc, 8 * words.len())?;
    for word in words {
        let mut eight = [0u8; 8];
        LittleEndian::write_u64(&mut eight, *word);
        bytes.extend_from_slice(&eight)?;
    }
    Ok(bytes)
}

fn is_lawful_name(name: &[u8]) -> bool
    ensures { result ≡ is_name name.now }
{
    if name.is_empty() || name.len() as u64 > MAX_NAME || name[0] == b'!' {
        return false;
    }
    has_lawful_bytes(name)
}

fn has_lawful_bytes(name: &[u8]) -> bool
    ensures { result ≡ list_all is_name_byte name.now }
{
    name.iter().all(|byte| is_lawful_byte(*byte))
}

fn is_lawful_byte(byte: u8) -> bool
    ensures { result ≡ is_name_byte byte }
{
    (0x21..=0x7E).contains(&byte) && byte != b',' && byte != b'"'
}
