//! The two specs of a name at which a merge stopped.

use crate::lines::Source;
use crate::shown::ShownSpec;
use bucket_ranges::Spec;
use image_reader::{Reading, Survey, list_of};
use persist_report_core::{Shown, image_in, read_input};
use segment_image::{Watched, header};
use std::alloc::{AllocError, Global};

/// The words of the image in an input that was read before: a closed image or a mapped file.
pub(crate) fn words_of(alloc: Global, bytes: &[u8]) -> Option<Vec<u64>> {
    let words = read_input(alloc, &mut Watched::new(bytes)).ok()?;
    Vec::from_slice(alloc, image_in(&words)).ok()
}

/// What the list of an image has, which was read before.
pub(crate) fn survey_of(alloc: Global, bytes: &[u8]) -> Option<Survey> {
    let words = words_of(alloc, bytes)?;
    survey_of_words(alloc, &words)
}

// What the list of a segment has with these words.
fn survey_of_words(alloc: Global, words: &[u64]) -> Option<Survey> {
    let Ok(head) = header(words) else {
        return None;
    };
    let Ok(list) = list_of(alloc, words, &head) else {
        return None;
    };
    Survey::of(alloc, words, &head, list).ok()
}

/// What an image reads as, which was read before.
pub(crate) fn reading_of(alloc: Global, bytes: &[u8]) -> Option<Reading> {
    let words = words_of(alloc, bytes)?;
    image_reader::read(alloc, &words).ok()
}

/// The spec of the histogram of a name.
pub(crate) fn spec_of<'a>(reading: &'a Reading, name: &[u8]) -> Option<&'a Spec> {
    let found = reading
        .hists
        .iter()
        .find(|hist| hist.name.as_slice() == name)?;
    Some(&found.spec)
}

/// The spec of a name in one of the images.
pub(crate) fn spec_lines(
    alloc: Global,
    role: &str,
    image: Source<'_, '_>,
    name: &[u8],
) -> Result<String, AllocError> {
    let reading = reading_of(alloc, image.bytes);
    match reading.as_ref().and_then(|reading| spec_of(reading, name)) {
        Some(spec) => {
            format!(in alloc;
                "  {role} {} has `{}` as {}\n",
                image.origin,
                Shown(name),
                ShownSpec(spec)
            )
        }
        None => Ok(String::new(alloc)),
    }
}

/// The specs that a name has in both images, as far as they have it.
pub fn merge_lines(
    alloc: Global,
    base: Source<'_, '_>,
    dead: Source<'_, '_>,
    name: &[u8],
) -> Result<String, AllocError> {
    let mut lines = spec_lines(alloc, "BASE", base, name)?;
    let more = spec_lines(alloc, "DEAD", dead, name)?;
    lines.push_str(more.as_str())?;
    Ok(lines)
}
