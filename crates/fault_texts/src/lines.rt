//! The lines that follow the line of a fault.

use crate::complaint::Complaint;
use crate::header::{wanted_of, word_of};
use crate::script::{Finding, finding_of};
use crate::table::{FaultText, fault_text, world_text};
use crate::too_large::record_size_text;
use persist_report_core::{CliFault, Shown};
use segment_calls::Refusal;
use segment_image::ImageFault;
use segment_image::layout::{COOKIE_WORD, SEGMENT_COOKIE};
use std::alloc::{AllocError, Global};
use std::{fmt, io};

/// Where bytes come from or go to.
#[derive(Clone, Copy)]
pub enum Origin<'a> {
    /// The file at a path.
    File(&'a str),
    /// Standard input.
    Input,
    /// Standard output.
    Output,
}

/// An input of a command: where it comes from, and its bytes as far as they were read.
#[derive(Clone, Copy)]
pub struct Source<'a, 'b> {
    pub origin: Origin<'a>,
    pub bytes: &'b [u8],
}

impl fmt::Display for Origin<'_> {
    fn fmt<W: fmt::Write>(&self, f: &mut fmt::Formatter<W>) -> fmt::Result {
        match self {
            Origin::File(path) => write!(f, "{path:?}"),
            Origin::Input => f.write_str("standard input"),
            Origin::Output => f.write_str("standard output"),
        }
    }
}

// The text of a word in the line of a fault of a world.
fn text_in_world(word: &str) -> Option<FaultText<'static>> {
    match world_text(word) {
        Some(text) => Some(text),
        None => fault_text(word),
    }
}

// The text of a fault: that of the last word of its line that has one. After `World` a name is one of a world.
fn text_of_line(line: &str) -> Option<FaultText<'static>> {
    if line.starts_with("World ") {
        return line.rsplit(' ').find_map(text_in_world);
    }
    line.rsplit(' ').find_map(fault_text)
}

/// What a fault means by the words of its line, and what to do.
pub fn remedy_lines_of(alloc: Global, line: &str) -> Result<String, AllocError> {
    match text_of_line(line) {
        None => Ok(String::new(alloc)),
        Some(text) => format!(in alloc; "  {}\n  {}\n", text.meaning, text.remedy),
    }
}

/// What a fault means, and what to do. The name of a histogram may be that of a fault, and says nothing.
pub fn remedy_lines(alloc: Global, fault: &CliFault) -> Result<String, AllocError> {
    match fault {
        CliFault::NoHistogram(_) => remedy_lines_of(alloc, "NoHistogram"),
        CliFault::Clash { .. } => remedy_lines_of(alloc, "Clash"),
        fault => {
            let line: String = format!(in alloc; "{fault}")?;
            remedy_lines_of(alloc, line.as_str())
        }
    }
}

/// The file of a device that failed, and the system's reason, if it gave one.
pub fn device_lines(
    alloc: Global,
    origin: Origin<'_>,
    reason: Option<io::Error>,
) -> Result<String, AllocError> {
    match reason {
        Some(reason) => format!(in alloc; "  {origin}: {reason}\n"),
        None => format!(in alloc; "  {origin}\n"),
    }
}

/// How many bytes of an input were read, if they are too many, or no whole words.
pub fn size_lines(alloc: Global, input: Source<'_, '_>) -> Result<String, AllocError> {
    format!(in alloc;
        "  {}: {} bytes were read\n",
        input.origin,
        input.bytes.len()
    )
}

impl Finding {
    // A field of the record; one that it does not have is shown as an empty one.
    fn field(&self, index: usize) -> Shown<'_> {
        Shown(self.fields.get(index).unwrap_or_default())
    }
}

impl fmt::Display for Finding {
    fn fmt<W: fmt::Write>(&self, f: &mut fmt::Formatter<W>) -> fmt::Result {
        let word = self.field(0);
        match self.complaint {
            None => f.write_str("the record has no valid form or place"),
            Some(Complaint::NoRecord) => f.write_str("the script ends before this record"),
            Some(Complaint::Field { index: 0, wanted }) => {
                write!(f, "the record begins with `{word}`; {wanted}")
            }
            Some(Complaint::Field { index, wanted }) => {
                let field = self.field(index);
                write!(f, "field {index} after `{word}` is `{field}`; {wanted}")
            }
            Some(Complaint::Count(form)) => {
                let count = self.fields.len().saturating_sub(1);
                write!(f, "fields after `{word}`: {count}; its form is {form}")
            }
            Some(Complaint::NotFirst) => write!(
                f,
                "the record begins with `{word}`; the first record is segment,SIZE,PAGE,ID"
            ),
            Some(Complaint::Shape) => write!(
                f,
                "SIZE is {} and PAGE is {}; PAGE is a multiple of 16 from 64 to 65536, and SIZE whole pages, at most 1048576",
                self.field(1),
                self.field(2)
            ),
            Some(Complaint::OtherSegment) => f.write_str(
                "SIZE, PAGE and ID have to be those of BASE",
            ),
            Some(Complaint::LateSegment) => f.write_str(
                "only the first record may be a `segment` record",
            ),
            Some(Complaint::LateHist) => f.write_str(
                "a `hist` record comes after an `add` or a `delta` record; all of these come last",
            ),
            Some(Complaint::UnknownName) => write!(
                f,
                "field 1 after `{word}` is `{}`; no `hist` record before it has this name",
                self.field(1)
            ),
        }
    }
}

/// The line of the record of a script that has this number; and what is wrong with it if it is a `BadLine`, or how many
/// words it needs if it is `TooLarge`.
pub fn script_lines(
    alloc: Global,
    script: Source<'_, '_>,
    number: u32,
    fault: &CliFault,
) -> Result<String, AllocError> {
    let finding = finding_of(alloc, script.bytes, number)?;
    let (origin, line) = (script.origin, finding.line);
    match fault {
        CliFault::BadLine(_) => format!(in alloc; "  {origin}, line {line}: {finding}\n"),
        CliFault::Refused {
            why: Refusal::TooLarge,
            ..
        } => {
            let size = record_size_text(alloc, script.bytes, &finding.fields)?;
            format!(in alloc; "  {origin}, line {line}{size}\n")
        }
        _ => format!(in alloc; "  {origin}, line {line}\n"),
    }
}

// A word of bytes, the least byte first; 0 if they have fewer.
fn word_of_bytes(bytes: &[u8], at: usize) -> u64 {
    let word = bytes.chunks_exact(8).nth(at).unwrap_or_default();
    word.iter()
        .rev()
        .fold(0, |number, byte| number << 8 | u64::from(*byte))
}

// The bytes from the first word of an image on: in a mapped file one word comes before it.
fn image_bytes(bytes: &[u8]) -> &[u8] {
    if word_of_bytes(bytes, 0) == 0 && word_of_bytes(bytes, 1) == SEGMENT_COOKIE {
        bytes.get(8..).unwrap_or_default()
    } else {
        bytes
    }
}

/// A word of the image in an input; 0 if it has fewer.
pub(crate) fn word_at(bytes: &[u8], at: usize) -> u64 {
    word_of_bytes(image_bytes(bytes), at)
}

/// Which word of the header of an image is wrong, what it is and what it has to be; or how many bytes an image has.
pub fn image_lines(
    alloc: Global,
    image: Source<'_, '_>,
    fault: ImageFault,
) -> Result<String, AllocError> {
    let (origin, wanted) = (image.origin, wanted_of(fault));
    let bytes = image_bytes(image.bytes);
    let of_image = if bytes.len() < image.bytes.len() {
        " of the image in it"
    } else {
        ""
    };
    match word_of(fault) {
        None => {
            format!(in alloc;
                "  {origin} has {} bytes{of_image}; an image has 128 or more\n",
                bytes.len()
            )
        }
        Some(COOKIE_WORD) => {
            let word = word_at(image.bytes, 0);
            format!(in alloc; "  {origin}, word 0 is {word:#x}; it has to be {wanted}\n")
        }
        Some(at) => {
            let word = word_at(image.bytes, at);
            format!(in alloc; "  {origin}, word {at}{of_image} is {word}; it has to be {wanted}\n")
        }
    }
}
