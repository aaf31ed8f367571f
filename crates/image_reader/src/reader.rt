//! The reading of a segment.

ghost use Rattle.std.specs.Prelude.{◌≡◌, Ok, Err, map, All, IfOk, MatchResult};
ghost use Rattle.segment_image.specs.Head.{header_of};
ghost use Rattle.bucket_ranges.specs.Reading.{IsReading};
ghost use Rattle.image_reader.specs.Keys.{HasMoreKeys};
ghost use Rattle.image_reader.specs.Readable.{IsReadable};
ghost use Rattle.image_reader.specs.Survey.{IsSurvey, hist_at};
ghost use Rattle.image_reader.specs.Views.{histogram_view, reading_view};

use crate::reading::{HistReading, Reading};
use crate::survey::Survey;
use crate::walk::list_of;
use segment_image::{ImageFault, SegmentHead, header};
use std::alloc::{AllocError, Global};

/// Returns what the words of a segment read as.
///
/// It returns the header's first fault, `TooShort` to `BadQueue`; `NoMemory` if memory runs out; otherwise exactly the
/// reading of the words. The reading has for each name on the list the first valid histogram, with its totals and
/// marks; each record that has a fault, with its first fault; and why the list stops [answer]. The spec of each
/// histogram is valid, each bucket has its count, and the units fit a word [readable].
///
/// Any words may be given: records with faults, and why the list stops, are part of the reading.
pub fn read(alloc: Global, words: &[u64]) -> Result<Reading, ImageFault>
    ensures answer { MatchResult (header_of words.now) (λ head. MatchResult result (λ reading. IsReading words.now head (reading_view reading)) (λ fault. fault ≡ ImageFault.NoMemory)) (λ fault. result ≡ Err fault) }
    ensures readable { IfOk result (λ reading. All IsReadable (map histogram_view reading.hists.items)) }
{
    let head = header(words)?;
    read_list(alloc, words, &head).map_err(|_| ImageFault::NoMemory)
}

/// Returns whether what the words of a segment read as has more than `most` keys: buckets of its histograms, and
/// values of the sparse ones. Like [`read`], it can also return the header's first fault, or `NoMemory` [answer].
///
/// No counts are made, so this takes much less memory than [`read`].
pub fn has_more_keys(alloc: Global, words: &[u64], most: u64) -> Result<bool, ImageFault>
    ensures answer { MatchResult (header_of words.now) (λ head. MatchResult result (HasMoreKeys words.now head most) (λ fault. fault ≡ ImageFault.NoMemory)) (λ fault. result ≡ Err fault) }
{
    let head = header(words)?;
    match survey_of(alloc, words, &head) {
        Ok(survey) => Ok(survey.has_more_keys(words, &head, most)),
        Err(_) => Err(ImageFault::NoMemory),
    }
}

// What the list of the segment has whose header is `head`.
fn survey_of(alloc: Global, words: &[u64], head: &SegmentHead) -> Result<Survey, AllocError>
    requires { header_of words.now ≡ Ok head.now }
    ensures { IfOk result (IsSurvey words.now head.now) }
{
    let list = list_of(alloc, words, head)?;
    Survey::of(alloc, words, head, list)
}

// What the words with the header `head` read as.
fn read_list(alloc: Global, words: &[u64], head: &SegmentHead) -> Result<Reading, AllocError>
    requires { header_of words.now ≡ Ok head.now }
    ensures reading { IfOk result (λ reading. IsReading words.now head.now (reading_view reading)) }
    ensures readable { IfOk result (λ reading. All IsReadable (map histogram_view reading.hists.items)) }
{
    let survey = survey_of(alloc, words, head)?;
    let hists = hists_of(alloc, words, head, &survey)?;
    Ok(Reading {
        id: head.id,
        full: head.full,
        corrupt: head.corrupt,
        hists,
        bad: survey.bad,
        stopped: survey.stopped,
    })
}

// All histograms that are read.
fn hists_of(
    alloc: Global,
    words: &[u64],
    head: &SegmentHead,
    survey: &Survey,
) -> Result<Vec<HistReading>, AllocError>
    requires header { header_of words.now ≡ Ok head.now }
    requires survey { IsSurvey words.now head.now survey.now }
    ensures hists { IfOk result (λ hists. map histogram_view hists.items ≡ map (hist_at words.now head.now survey.now.references.items) survey.now.hists.items) }
    ensures readable { IfOk result (λ hists. All IsReadable (map histogram_view hists.items)) }
{
    let mut hists = Vec::with_capacity(alloc, survey.hists.len())?;
    for reference in &survey.hists {
        hists.push(survey.hist(alloc, words, head, *reference)?)?;
    }
    Ok(hists)
}
