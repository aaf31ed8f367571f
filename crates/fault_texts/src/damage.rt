//! What is damaged in an image that was read.

use crate::lines::Source;
use image_reader::RecordFault;
use segment_image::ImageFault;
use std::alloc::{AllocError, Global};

/// The bad record of an image at a word, and its fault.
pub fn bad_lines(
    alloc: Global,
    image: Source<'_, '_>,
    reference: u64,
    fault: RecordFault,
) -> Result<String, AllocError> {
    let origin = image.origin;
    format!(in alloc; "  {origin}, the record at word {reference} is {fault}\n")
}

/// Why the list of an image's records stops before its end.
pub fn stopped_lines(
    alloc: Global,
    image: Source<'_, '_>,
    fault: ImageFault,
) -> Result<String, AllocError> {
    let origin = image.origin;
    format!(in alloc; "  {origin}, the list of records stops: {fault}\n")
}
