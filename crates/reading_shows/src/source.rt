//! Where an image, or a sum of images, comes from.

ghost use Rattle.std.specs.Prelude.{◌≡◌, ◌++◌, true, codes, IfOk, OnOk};
ghost use Rattle.reading_overviews.specs.Numbers.{number};
ghost use Rattle.reading_shows.specs.PageLists.{path_byte, path_text, source_text as source_text_of};

use crate::escapes::put_byte;
use reading_overviews::put_number;
use std::alloc::{AllocError, Global};

/// Where an image, or a sum of images, comes from. Its page names it.
#[derive(Clone, Copy)]
pub enum Source<'a> {
    /// Standard input.
    Input,
    /// The file at this path.
    File(&'a str),
    /// The first of several inputs, by its path, and how many more there are.
    Several(&'a str, u64),
}

// Puts a byte of a path, escaped if it has to be.
fn put_path_byte(text: &mut Vec<u8>, byte: u8) -> Result<(), AllocError>
    ensures { OnOk result (text.new.items ≡ text.old.items ++ path_byte byte) }
{
    if byte > 127 {
        text.push(byte)?;
        return Ok(());
    }
    put_byte(text, byte)
}

// A path as a page writes it.
fn escaped_path(alloc: Global, path: &[u8]) -> Result<Vec<u8>, AllocError>
    ensures { IfOk result (λ text. text.items ≡ path_text path.now) }
{
    let mut text = Vec::new(alloc);
    for byte in path {
        put_path_byte(&mut text, *byte)?;
    }
    Ok(text)
}

// The first of several inputs, and how many more there are.
fn several_text(alloc: Global, first: &[u8], more: u64) -> Result<Vec<u8>, AllocError>
    ensures { IfOk result (λ text. text.items ≡ path_text first.now ++ codes " and " ++ number true more ++ codes " more") }
{
    let mut text = escaped_path(alloc, first)?;
    text.extend_from_slice(b" and ")?;
    put_number(&mut text, true, more)?;
    text.extend_from_slice(b" more")?;
    Ok(text)
}

// Where an image, or a sum, comes from, as a page writes it.
pub(crate) fn source_text(alloc: Global, source: Source<'_>) -> Result<Vec<u8>, AllocError>
    ensures { IfOk result (λ text. text.items ≡ source_text_of source.entry) }
{
    match source {
        Source::Input => Vec::from_slice(alloc, b"standard input"),
        Source::File(path) => escaped_path(alloc, path.as_bytes()),
        Source::Several(first, more) => several_text(alloc, first.as_bytes(), more),
    }
}
