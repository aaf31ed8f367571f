//! The names of an image that are near one that it does not have.

ghost use Rattle.std.specs.Prelude.{◌≤◌, IfOk, length};

use crate::lines::Source;
use crate::specs_of::reading_of;
use image_reader::Reading;
use persist_report_core::Shown;
use std::alloc::{AllocError, Global};
use std::str;
use strsim::osa_distance;

// How many names are near a name at most.
const MOST_NEAR: usize = 3;

// A name of an image, and how many edits lead to it.
#[derive(Clone, Copy)]
struct Near<'a> {
    edits: usize,
    name: &'a [u8],
}

// How many edits lead from one name to the other, if they are no more than this bound; a swap of neighbours is one.
fn edits_within(
    alloc: Global,
    from: &str,
    to: &str,
    most: usize,
) -> Result<Option<usize>, AllocError> {
    if from.len().abs_diff(to.len()) > most.saturating_mul(4) {
        return Ok(None);
    }
    let edits = osa_distance(alloc, from, to)?;
    Ok(if edits <= most { Some(edits) } else { None })
}

// The names of a reading that are at most a third as many edits away as the name has characters.
fn all_near<'a>(
    alloc: Global,
    reading: &'a Reading,
    name: &str,
) -> Result<Vec<Near<'a>>, AllocError> {
    let most = name.chars().count() / 3;
    let mut near = Vec::new(alloc);
    for hist in &reading.hists {
        if let Ok(text) = str::from_utf8(hist.name.as_slice())
            && let Some(edits) = edits_within(alloc, name, text, most)?
        {
            near.push(Near {
                edits,
                name: hist.name.as_slice(),
            })?;
        }
    }
    Ok(near)
}

/// Returns the names of a reading that are nearest to a name, three at most, the nearest first. Each is at most a third
/// as many edits away as the name has characters.
pub fn names_near<'a>(
    alloc: Global,
    reading: &'a Reading,
    name: &str,
) -> Result<Vec<&'a [u8]>, AllocError>
    ensures { IfOk result (λ names. length names.items ≤ 3) }
{
    let mut near = all_near(alloc, reading, name)?;
    near.sort_by(|a, b| a.edits.cmp(&b.edits).then_with(|| a.name.cmp(b.name)))?;
    near.truncate(MOST_NEAR);
    near.iter().map(|one| one.name).collect(alloc)
}

// What is reported of the names that are near.
fn near_text(alloc: Global, names: &[&[u8]]) -> Result<String, AllocError> {
    let mut text = String::new(alloc);
    for name in names {
        let before = if text.is_empty() {
            "names near it: "
        } else {
            ", "
        };
        let more: String = format!(in alloc; "{before}`{}`", Shown(name))?;
        text.push_str(more.as_str())?;
    }
    if text.is_empty() {
        text.push_str("no name is near it")?;
    }
    Ok(text)
}

/// That an image has no histogram of a name, and which names are near.
pub fn missing_lines(
    alloc: Global,
    image: Source<'_, '_>,
    name: &[u8],
) -> Result<String, AllocError> {
    let (origin, shown) = (image.origin, Shown(name));
    match (reading_of(alloc, image.bytes), str::from_utf8(name)) {
        (Some(reading), Ok(text)) => {
            let near = near_text(alloc, &names_near(alloc, &reading, text)?)?;
            format!(in alloc; "  {origin} has no histogram `{shown}`; {near}\n")
        }
        _ => format!(in alloc; "  {origin} has no histogram `{shown}`\n"),
    }
}
