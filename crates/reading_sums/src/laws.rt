//! Laws of sums.

ghost use Rattle.std.specs.Prelude.{◌≡◌, ◌++◌, ◌↔◌, ℕ, List, [], nat_lt, Ok};
ghost use Rattle.std.specs.List.{All};
ghost use Rattle.std.specs.List.Sorted.{IsPermutation};
ghost use Rattle.segment_image.specs.Head.{header_of};
ghost use Rattle.segment_image.specs.declared.head.SegmentHead.{SegmentHead};
ghost use Rattle.bucket_ranges.specs.Reading.{Reading, IsReading};
ghost use Rattle.reading_sums.specs.declared.sums.Sums.{Sums};
ghost use Rattle.reading_sums.specs.Alone.{HasItsMarks, IsSumOfOne, ShowsInOrder};
ghost use Rattle.reading_sums.specs.Shown.{shown_parts, other_parts};
ghost use Rattle.reading_sums.specs.Sums.{IsSumOver, IsSumOfBoth, HaveSameSum};
ghost use Rattle.reading_sums.specs.Views.{parts_of};
ghost use Rattle.reading_sums.specs.Whole.{IsWellFormed, IsWholeReading};

/// The order of the readings makes no difference: a sum of a list is a sum of each list that has the same numbered
/// readings in another order.
///
/// It does nothing: what it promises is a law of the definition.
pub fn order_is_nothing()
    ensures { (readings others : List (ℕ × Reading)) → IsPermutation readings others → (sums : Sums) → IsSumOver readings sums → IsSumOver others sums }
{}

/// The sum of two lists together is known from the sums of both: it is what these have together, and anything that has
/// that is the sum of both lists [together]. A list has only one sum: two sums of it have the same totals and the same
/// notes [one]. Two well-formed sums with the same totals and notes have the same histograms: for each name and spec
/// the same keys, units, marks, amounts, redundant count, number of images and least number, in the same order [same].
///
/// It does nothing: what it promises are laws of the definition.
pub fn parts_append()
    ensures together { (readings more : List (ℕ × Reading)) → (a b both : Sums) → IsSumOver readings a → IsSumOver more b → IsSumOver (readings ++ more) both ↔ IsSumOfBoth a b both }
    ensures one { (readings : List (ℕ × Reading)) → (a b : Sums) → IsSumOver readings a → IsSumOver readings b → HaveSameSum a b }
    ensures same { (a b : Sums) → IsWellFormed a → IsWellFormed b → HaveSameSum a b → parts_of a ≡ parts_of b }
{}

/// A well-formed sum of one reading alone reads as that reading, whatever its number: it shows exactly the histograms
/// of the reading, each with the same name, spec, counts, marks, sum, mark of the sum and redundant count, in the order
/// of their names, and with its index as reference [shown]. It leaves none out [left_out], is full or corrupt exactly
/// if the reading is [full] [corrupt], and is of one image [images]. The reading has to be whole, with a mark for each
/// count.
///
/// It does nothing: what it promises are laws of the definition.
pub fn one_image_reads_the_same()
    ensures shown { (number : ℕ) (reading : Reading) (sums : Sums) → IsSumOfOne number reading sums → ShowsInOrder reading.hists (shown_parts (parts_of sums)) }
    ensures left_out { (number : ℕ) (reading : Reading) (sums : Sums) → IsSumOfOne number reading sums → other_parts (parts_of sums) ≡ [] }
    ensures full { (number : ℕ) (reading : Reading) (sums : Sums) → IsSumOfOne number reading sums → nat_lt 0 sums.notes.full ≡ reading.full }
    ensures corrupt { (number : ℕ) (reading : Reading) (sums : Sums) → IsSumOfOne number reading sums → nat_lt 0 sums.notes.corrupt ≡ reading.corrupt }
    ensures images { (number : ℕ) (reading : Reading) (sums : Sums) → IsSumOfOne number reading sums → sums.notes.images ≡ 1 }
{}

/// What words with a valid header read as is whole [whole], and has a mark for each count of a histogram [marks]. So
/// what `image_reader::read` returns satisfies the conditions of `Sums::add` and `one_image_reads_the_same`.
///
/// It does nothing: what it promises are laws of the definition.
pub fn words_are_whole()
    ensures whole { (words : List ℕ) (head : SegmentHead) (reading : Reading) → header_of words ≡ Ok head → IsReading words head reading → IsWholeReading reading }
    ensures marks { (words : List ℕ) (head : SegmentHead) (reading : Reading) → header_of words ≡ Ok head → IsReading words head reading → All HasItsMarks reading.hists }
{}
