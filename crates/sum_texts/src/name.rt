//! The names that a totals may have.

ghost use Rattle.std.specs.Prelude.{◌≡◌};
ghost use Rattle.std.specs.List.{list_all};
ghost use Rattle.bucket_ranges.specs.Reading.{is_name, is_name_byte};

use bucket_ranges::limits::MAX_NAME;

/// Returns whether a histogram in a segment can have this name.
pub(crate) fn is_lawful_name(name: &[u8]) -> bool
    ensures { result ≡ is_name name.now }
{
    if name.is_empty() || name.len() as u64 > MAX_NAME || name[0] == b'!' {
        return false;
    }
    has_lawful_bytes(name)
}

fn has_lawful_bytes(name: &[u8]) -> bool
    ensures { result ≡ list_all is_name_byte name.now }
{
    name.iter().all(|byte| is_lawful_byte(*byte))
}

fn is_lawful_byte(byte: u8) -> bool
    ensures { result ≡ is_name_byte byte }
{
    (0x21..=0x7E).contains(&byte) && byte != b',' && byte != b'"'
}
