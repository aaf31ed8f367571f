//! Whether an image is damaged.

ghost use Rattle.std.specs.Prelude.{◌≡◌, [], true, Ok, None, MatchResult, Decides};
ghost use Rattle.segment_image.specs.Head.{header_of};
ghost use Rattle.segment_image.specs.Blocks.{is_block};
ghost use Rattle.bucket_ranges.specs.Reading.{reading_along, record_fault};
ghost use Rattle.image_reader.specs.Survey.{IsSurvey};
ghost use Rattle.image_rules.specs.Adoption.{IsUndamaged, blocks_of};
ghost use Rattle.image_adoption.specs.Conditions.{AreApart, AreSettled, IsSettled, IsWholeImage};
ghost use Rattle.image_adoption.specs.Damage.{IsDamageOf, IsUndamagedSurvey};
ghost use Rattle.image_adoption.specs.Records.{AreFaultless, HasNoBad};

use crate::blocks::has_apart_blocks;
use crate::counts::{has_packed_mark, has_unused_counts};
use crate::ends::{has_room, has_tail, has_zeros};
use crate::names::has_padded_name;
use crate::samples::are_later_empty;
use image_reader::{Survey, list_of};
use segment_calls::AdoptFault;
use segment_image::SegmentHead;
use segment_image::layout::{BLOCK_TYPE, TYPE_HISTOGRAM};
use std::alloc::Global;

/// What the list of an image of version 2 with a valid header has, or `Damaged` if no segment can have these words.
/// Overlaps are looked for first: without any, all records together name no more counts than there are words.
pub(crate) fn undamaged(
    alloc: Global,
    words: &[u64],
    head: &SegmentHead,
) -> Result<Survey, AdoptFault>
    requires { header_of words.now ≡ Ok head.now }
    ensures { MatchResult result (IsUndamagedSurvey words.now head.now) (IsDamageOf words.now head.now) }
{
    let list = list_of(alloc, words, head)?;
    let apart = has_apart_blocks(alloc, words, head, &list.references)?;
    if !apart {
        return Err(AdoptFault::Damaged);
    }
    let survey = Survey::of(alloc, words, head, list)?;
    if !is_undamaged(words, head, &survey) {
        return Err(AdoptFault::Damaged);
    }
    Ok(survey)
}

// Whether an image whose blocks are apart is not damaged.
fn is_undamaged(words: &[u64], head: &SegmentHead, survey: &Survey) -> bool
    requires header { header_of words.now ≡ Ok head.now }
    requires survey { IsSurvey words.now head.now survey.now }
    requires apart { AreApart words.now (blocks_of words.now survey.now.references.items) }
    ensures { Decides result (IsUndamaged words.now survey.now.references.items (reading_along words.now head.now survey.now.references.items)) }
{
    if !is_faultless(survey) {
        return false;
    }
    is_whole(words, head, survey)
}

// Whether the image is in order apart from its records, of which none is bad.
fn is_whole(words: &[u64], head: &SegmentHead, survey: &Survey) -> bool
    requires header { header_of words.now ≡ Ok head.now }
    requires survey { IsSurvey words.now head.now survey.now }
    requires good { HasNoBad words.now head.now survey.now.references.items }
    requires apart { AreApart words.now (blocks_of words.now survey.now.references.items) }
    ensures { Decides result (IsWholeImage words.now head.now survey.now.references.items) }
{
    if !has_room(&head.shape, head.free) {
        return false;
    }
    if !has_zeros(words, head.free as usize) {
        return false;
    }
    let references: &[u64] = &survey.references;
    if !has_tail(references, head.tail) {
        return false;
    }
    if !are_settled(words, head, references) {
        return false;
    }
    are_later_empty(words, head, survey)
}

// Whether a list is complete, and no record on it is bad.
fn is_faultless(survey: &Survey) -> bool
    ensures { Decides result ((survey.now.bad.items ≡ []) × (survey.now.stopped ≡ None)) }
{
    survey.bad.is_empty() && survey.stopped.is_none()
}

// Whether each record of a histogram on a list has a padded name, and only zeros in counts and marks that are not in
// use.
fn are_settled(words: &[u64], head: &SegmentHead, references: &[u64]) -> bool
    requires header { header_of words.now ≡ Ok head.now }
    requires faultless { AreFaultless words.now head.now references.now }
    ensures { Decides result (AreSettled words.now references.now) }
{
    for reference in references {
        let at = *reference as usize;
        if words[at + BLOCK_TYPE] != TYPE_HISTOGRAM {
            continue;
        }
        if !is_settled(words, head, at) {
            return false;
        }
    }
    true
}

// Whether one record of a histogram has.
fn is_settled(words: &[u64], head: &SegmentHead, at: usize) -> bool
    requires header { header_of words.now ≡ Ok head.now }
    requires block { is_block words.now head.now at ≡ true }
    requires lawful { record_fault words.now head.now at ≡ None }
    ensures { Decides result (IsSettled words.now at) }
{
    has_padded_name(words, at) && has_unused_counts(words, at) && has_packed_mark(words, at)
}
