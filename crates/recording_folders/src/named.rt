//! Segments that totals name.

ghost use Rattle.std.specs.Prelude.{◌≡◌};
ghost use Rattle.recording_folders.specs.Segments as segments;

/// Returns whether a segment with this number and this id is among the names. A reading of a folder leaves out the
/// segments that its totals name, and counts all others of its listing.
pub fn is_named(names: &[(u64, u64)], number: u64, id: u64) -> bool
    ensures { result ≡ segments.is_named names.now (number, id) }
{
    names.iter().any(|name| number == name.0 && id == name.1)
}
