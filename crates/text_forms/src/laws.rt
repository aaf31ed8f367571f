//! Laws of the texts of subjects.

ghost use Rattle.std.specs.Prelude.{◌≡◌, ◌↔◌, ℕ, List, true};
ghost use Rattle.segment_image.specs.declared.head.SegmentHead.{SegmentHead};
ghost use Rattle.bucket_ranges.specs.Reading.{Reading};
ghost use Rattle.reading_sums.specs.declared.sums.Sums.{Sums};
ghost use Rattle.sum_texts.specs.Endings.{IsSumReport};
ghost use Rattle.text_forms.specs.declared.form.Form.{Form};
ghost use Rattle.text_forms.specs.declared.form.Form.TheVariants.{Report};
ghost use Rattle.text_forms.specs.declared.head.Head.{Head};
ghost use Rattle.text_forms.specs.declared.head.Head.TheVariants.{Image};
ghost use Rattle.text_forms.specs.Forms.{fits, IsTextIn};
ghost use Rattle.text_forms.specs.Subjects.{IsSubjectOfSum};

/// The report of the subject of a sum is the report of that sum, as `sum_texts` defines it.
///
/// It does nothing: what it promises is a law of the definitions.
pub fn sums_have_their_reports()
    ensures { (sums : Sums) (left : ℕ) (head : Head) (reading : Reading) → IsSubjectOfSum sums left head reading → (text : List ℕ) → IsTextIn Report head reading text → IsSumReport sums left text }
{}

/// Each form fits an image.
///
/// It does nothing: what it promises is a law of the definitions.
pub fn images_have_their_texts()
    ensures { (form : Form) (head : SegmentHead) → fits form (Image head) ≡ true }
{}
