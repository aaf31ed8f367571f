//! The totals of a folder.

ghost use Rattle.std.specs.Prelude.{◌≡◌, unwrap_or};
ghost use Rattle.sum_texts.specs.declared.totals.Totals as totals_type;
ghost use Rattle.sum_texts.specs.Views.{whole_of};
ghost use Rattle.sum_texts.specs.Writable.{IsWritable};
ghost use Rattle.recording_folders.specs.Written.{FitsFold, whole_of_fold};

use crate::folding::Fold;
use reading_sums::Sums;
use sum_texts::Totals;

/// Returns the serial of the fold that wrote these totals, or 0 if no fold did.
pub fn serial_of(totals: &Totals) -> u64
    ensures { result ≡ unwrap_or totals.now.fold 0 }
{
    totals.fold.unwrap_or(0)
}

/// Returns the totals that a fold writes: this sum, which has what the fold adds, with the names and the serial of the
/// fold [whole]. If totals of the sum can be written and read back, so can these, whose numbers have 64 bits:
/// `sum_texts::totals_of` returns them from their text [writable].
pub fn folded_totals(sums: Sums, fold: Fold) -> Totals
    ensures whole { whole_of result ≡ whole_of_fold sums fold }
    ensures writable { (totals : totals_type.Totals) → totals.sums ≡ sums → IsWritable totals → FitsFold fold → IsWritable result }
{
    Totals {
        sums,
        of: fold.names,
        fold: Some(fold.serial),
    }
}
