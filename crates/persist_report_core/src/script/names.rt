//! The places of names, by their bytes.

ghost use Rattle.std.specs.Prelude.{◌≡◌, List, ℕ, None, Some, OnOk, if◌then◌else◌};
ghost use Rattle.std.specs.Option.{option_or};
ghost use Rattle.std.specs.Str.{bytes_eq};
ghost use Rattle.persist_report_core.specs.Draft.{found};

use std::alloc::{AllocError, Global};
use std::collections::HashMap;

/// Names, each with its place.
pub(crate) type Names = HashMap<Vec<u8>, u32>;

/// Adds a name. One that is there already keeps its place.
pub(crate) fn insert_first(
    alloc: Global,
    names: &mut Names,
    name: &[u8],
    place: u32,
) -> Result<(), AllocError>
    ensures { OnOk result ((other : List ℕ) → found names.new other ≡ option_or (found names.old other) (if bytes_eq name.now other then Some place else None)) }
{
    if !names.contains_key(name) {
        names.insert(Vec::from_slice(alloc, name)?, place)?;
    }
    Ok(())
}
