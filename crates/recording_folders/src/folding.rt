//! What a fold writes in addition to the sum.

ghost use Rattle.std.specs.Prelude.{◌≡◌, ◌<◌, ◌+◌, ◌^◌, ◌++◌, IfOk, IfSome, IsSome, ◌↔◌};
ghost use Rattle.recording_folders.specs.Folder.{Folder, Folds};
ghost use Rattle.recording_folders.specs.Folding as folding;
ghost use Rattle.recording_folders.specs.Folding.{MayFold, folded};

use crate::named::is_named;
use std::alloc::{AllocError, Global};

/// What a fold writes in addition to the sum.
#[derive(Drop)]
pub struct Fold {
    /// The segments that the totals name, each a number and an id.
    pub names: Vec<(u64, u64)>,
    /// The serial of the totals.
    pub serial: u64,
}

// The greatest number of named segments, or 0.
fn greatest(names: &[(u64, u64)]) -> u64
    ensures { result ≡ folding.greatest names.now }
{
    names.iter().fold(0, |most, name| most.max(name.0))
}

// The names that stay.
fn kept(
    alloc: Global,
    names: &[(u64, u64)],
    standing: &[(u64, u64)],
) -> Result<Vec<(u64, u64)>, AllocError>
    ensures { IfOk result (λ stay. stay.items ≡ folding.kept names.now standing.now) }
{
    let most = greatest(names);
    names
        .iter()
        .filter(|name| is_named(standing, name.0, name.1) || name.0 == most)
        .copied()
        .collect(alloc)
}

/// Returns what the next totals of a folder say in addition to the sum, if the present ones have this serial and these
/// names. Of the named segments, `standing` could not be removed; `finals` are final and were added to the sum. The
/// totals name those that are still there, the one with the greatest number, and the added ones [names]; their serial
/// is one more [serial]. Returns none exactly if the serial would pass 64 bits [some]. Writing them is a fold of the
/// folder, after which each segment is still counted once [fold]. The only error is that memory runs out.
pub fn fold_of(
    alloc: Global,
    serial: u64,
    names: &[(u64, u64)],
    standing: &[(u64, u64)],
    finals: &[(u64, u64)],
) -> Result<Option<Fold>, AllocError>
    ensures names { IfOk result (λ next. IfSome next (λ next. next.names.items ≡ folding.kept names.now standing.now ++ finals.now)) }
    ensures serial { IfOk result (λ next. IfSome next (λ next. next.serial ≡ serial + 1)) }
    ensures some { IfOk result (λ next. IsSome next ↔ (serial + 1 < 2 ^ 64)) }
    ensures fold { (folder : Folder) → MayFold folder serial names.now standing.now finals.now → IfOk result (λ next. IfSome next (λ next. Folds folder (folded folder finals.now next.serial next.names.items))) }
{
    let Some(serial) = serial.checked_add(1) else {
        return Ok(None);
    };
    let mut names = kept(alloc, names, standing)?;
    names.extend_from_slice(finals)?;
    Ok(Some(Fold { names, serial }))
}
