//! The names of numbered files.

ghost use Rattle.std.specs.Prelude.{◌≡◌, ◌<◌, ◌^◌, ℕ, Some, IfOk, IfSome};
ghost use Rattle.recording_folders.specs.Names as names;
ghost use Rattle.recording_folders.specs.Names.{IsNumber, numbered as name_with, padded};

use itoa::Buffer;
use std::alloc::{AllocError, Global};

/// What the name of a segment ends with.
pub(crate) const SEGMENT: &[u8] = b".seg";

/// What the name of a file with a fault in its header ends with.
pub(crate) const DAMAGED: &[u8] = b".damaged";

// The least number of digits in a name.
const DIGITS: usize = 10;

// The least number that has more than 18 digits, which is no segment's.
const NUMBERS_END: u64 = 1_000_000_000_000_000_000;

// The name of a number, with an ending.
fn numbered(alloc: Global, number: u64, ending: &[u8]) -> Result<Vec<u8>, AllocError>
    ensures { IfOk result (λ name. name.items ≡ name_with number ending.now) }
{
    let mut buffer = Buffer::new();
    let digits = buffer.format(number).as_bytes();
    let mut name = Vec::new(alloc);
    for _ in digits.len()..DIGITS {
        name.push(b'0')?;
    }
    name.extend_from_slice(digits)?;
    name.extend_from_slice(ending)?;
    Ok(name)
}

/// Returns the name of the segment of a number. The only error is that memory runs out.
pub fn segment_name(alloc: Global, number: u64) -> Result<Vec<u8>, AllocError>
    ensures { IfOk result (λ name. name.items ≡ names.segment_name number) }
{
    numbered(alloc, number, SEGMENT)
}

/// Returns the name that the file of a number gets if its header has a fault. The only error is that memory runs out.
pub fn damaged_name(alloc: Global, number: u64) -> Result<Vec<u8>, AllocError>
    ensures { IfOk result (λ name. name.items ≡ names.damaged_name number) }
{
    numbered(alloc, number, DAMAGED)
}

// The number that digits write, with or without zeros before it.
fn parsed(digits: &[u8]) -> Option<u64>
    ensures { (number : ℕ) → number < 2 ^ 64 → digits.now ≡ padded number → result ≡ Some number }
{
    let text = str::from_utf8(digits).ok()?;
    text.parse::<u64>().ok()
}

/// Returns the number that has this name with this ending, if there is one. A number of more than 18 digits is none.
pub(crate) fn number_in(
    alloc: Global,
    name: &[u8],
    ending: &[u8],
) -> Result<Option<u64>, AllocError>
    ensures found { IfOk result (λ found. IfSome found (λ number. IsNumber number × (name.now ≡ name_with number ending.now))) }
    ensures only { (number : ℕ) → IsNumber number → name.now ≡ name_with number ending.now → IfOk result (λ found. found ≡ Some number) }
{
    if name.len() < ending.len() {
        return Ok(None);
    }
    let Some(number) = parsed(&name[..name.len() - ending.len()]) else {
        return Ok(None);
    };
    if number == 0 || number >= NUMBERS_END {
        return Ok(None);
    }
    let spelled = numbered(alloc, number, ending)?;
    if spelled.as_slice() == name {
        Ok(Some(number))
    } else {
        Ok(None)
    }
}
