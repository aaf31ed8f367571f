//! Laws of the texts of a sum.

ghost use Rattle.std.specs.Prelude.{◌≡◌, ◌↔◌, ℕ, List, [], None};
ghost use Rattle.bucket_ranges.specs.Reading.{Reading};
ghost use Rattle.reading_texts.specs.Exporting.{IsExportOf};
ghost use Rattle.reading_texts.specs.Families.{IsFamiliesTextOf, IsFirstClashOf};
ghost use Rattle.reading_texts.specs.Table.{IsTableOf};
ghost use Rattle.reading_texts.specs.Text.{IsTextOf};
ghost use Rattle.reading_sums.specs.declared.sums.Sums.{Sums};
ghost use Rattle.reading_sums.specs.Alone.{IsSumOfOne};
ghost use Rattle.sum_texts.specs.Endings.{IsOfSum, IsSumReport};

/// This holds of a well-formed sum of one image that reads without a fault, that is, with no bad record and no stop,
/// and that has any number. The texts of the sum are those of the image, byte for byte: its report, if no other input
/// was left out [report], and of its reading the table [table], the export with any prefix and labels [export], and the
/// export with a family for each histogram [families]. If the last one is refused because histograms clash, the first
/// clash has the same names [clash].
///
/// It does nothing: what it promises are laws of the definitions.
pub fn one_image_writes_the_same()
    ensures report { (number : ℕ) (reading : Reading) (sums : Sums) → IsSumOfOne number reading sums → reading.bad ≡ [] → reading.stopped ≡ None → (text other : List ℕ) → IsSumReport sums 0 text → IsTextOf reading other → text ≡ other }
    ensures table { (number : ℕ) (reading : Reading) (sums : Sums) → IsSumOfOne number reading sums → reading.bad ≡ [] → reading.stopped ≡ None → (shown : Reading) → IsOfSum sums shown → (text other : List ℕ) → IsTableOf shown text → IsTableOf reading other → text ≡ other }
    ensures export { (number : ℕ) (reading : Reading) (sums : Sums) → IsSumOfOne number reading sums → reading.bad ≡ [] → reading.stopped ≡ None → (shown : Reading) → IsOfSum sums shown → (prefix : List ℕ) (line_labels : List (List ℕ × List ℕ)) → (text other : List ℕ) → IsExportOf prefix line_labels shown text → IsExportOf prefix line_labels reading other → text ≡ other }
    ensures families { (number : ℕ) (reading : Reading) (sums : Sums) → IsSumOfOne number reading sums → reading.bad ≡ [] → reading.stopped ≡ None → (shown : Reading) → IsOfSum sums shown → (prefix : List ℕ) (line_labels : List (List ℕ × List ℕ)) → (text other : List ℕ) → IsFamiliesTextOf prefix line_labels shown text → IsFamiliesTextOf prefix line_labels reading other → text ≡ other }
    ensures clash { (number : ℕ) (reading : Reading) (sums : Sums) → IsSumOfOne number reading sums → reading.bad ≡ [] → reading.stopped ≡ None → (shown : Reading) → IsOfSum sums shown → (line_labels : List (List ℕ × List ℕ)) → (first second : List ℕ) → IsFirstClashOf line_labels shown first second ↔ IsFirstClashOf line_labels reading first second }
{}
