//! The names of an image.

ghost use Rattle.std.specs.Prelude.{◌≡◌, ◌==◌, ◌≤◌, ◌+◌, true, length, Decides};
ghost use Rattle.std.specs.List.{list_all};
ghost use Rattle.segment_image.specs.Blocks.{field_at};
ghost use Rattle.bucket_ranges.specs.Reading.{has_name};
ghost use Rattle.image_adoption.specs.Conditions.{HasPaddedName};

use segment_image::layout::{BLOCK_SIZE, HISTOGRAM_NAME, HISTOGRAM_NAME_LENGTH};

/// Whether the name of the record of a histogram is padded with zeros up to a whole word.
pub(crate) fn has_padded_name(words: &[u64], at: usize) -> bool
    requires name { has_name words.now at ≡ true }
    requires within { at + field_at words.now at BLOCK_SIZE ≤ length words.now }
    ensures { Decides result (HasPaddedName words.now at) }
{
    let last = words[at + HISTOGRAM_NAME_LENGTH] as usize - 1;
    let bytes = words[at + HISTOGRAM_NAME + last / 8].to_le_bytes();
    are_zeros(&bytes[last % 8 + 1..])
}

fn are_zeros(bytes: &[u8]) -> bool
    ensures { result ≡ list_all (λ byte. byte == 0) bytes.now }
{
    bytes.iter().all(|byte| *byte == 0)
}
