//! The samples of an image.

ghost use Rattle.std.specs.Prelude.{◌≡◌, ◌≤◌, ◌+◌, Ok, length, All, Decides};
ghost use Rattle.segment_image.specs.Head.{header_of};
ghost use Rattle.image_reader.specs.Survey.{IsSurvey};
ghost use Rattle.image_adoption.specs.Conditions.{AreLaterEmpty, IsEmptySample};
ghost use Rattle.image_adoption.specs.Records.{HasNoBad};

use image_reader::Survey;
use segment_image::SegmentHead;
use segment_image::layout::{SAMPLE_COUNT, SAMPLE_LEAST, SAMPLE_MARK};

/// Whether each sample on a list that is not the first of its histogram and value counts nothing. The survey has found
/// which ones these are.
pub(crate) fn are_later_empty(words: &[u64], head: &SegmentHead, survey: &Survey) -> bool
    requires header { header_of words.now ≡ Ok head.now }
    requires survey { IsSurvey words.now head.now survey.now }
    requires good { HasNoBad words.now head.now survey.now.references.items }
    ensures { Decides result (AreLaterEmpty words.now survey.now.references.items) }
{
    count_nothing(words, &survey.later)
}

// Whether each of these samples counts nothing.
fn count_nothing(words: &[u64], samples: &[u64]) -> bool
    requires { All (λ at. at + SAMPLE_LEAST ≤ length words.now) samples.now }
    ensures { Decides result (All (IsEmptySample words.now) samples.now) }
{
    for sample in samples {
        if !counts_nothing(words, *sample as usize) {
            return false;
        }
    }
    true
}

// Whether a sample has no units, and deltas have taken none.
fn counts_nothing(words: &[u64], at: usize) -> bool
    requires { at + SAMPLE_LEAST ≤ length words.now }
    ensures { Decides result (IsEmptySample words.now at) }
{
    words[at + SAMPLE_COUNT] == 0 && words[at + SAMPLE_MARK] == 0
}
