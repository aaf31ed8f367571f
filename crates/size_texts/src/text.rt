//! The text that says how large a segment has to be.

use crate::blocks::SAMPLE_WORDS;
use crate::sizes::{HistSize, Sizes};
use segment_image::layout::HEADER_WORDS;
use segment_sizes::SizeFault;
use std::fmt;
use std::fmt::Write;

// What the text has below the size.
const RACES: &str =
    "First uses at the same moment may take more: for each further thread a record of the histogram or of the value, \
                     and a block of counts.\n";

// Writes a name: those of a script may have any bytes.
fn write_name<W: fmt::Write>(f: &mut fmt::Formatter<W>, name: &[u8]) -> fmt::Result {
    for byte in name {
        f.write_char(char::from(*byte))?;
    }
    Ok(())
}

impl fmt::Display for HistSize<'_> {
    fn fmt<W: fmt::Write>(&self, f: &mut fmt::Formatter<W>) -> fmt::Result {
        write_name(f, self.name)?;
        write!(f, ": record {}", self.blocks.record)?;
        match self.blocks.counts {
            Some(counts) => write!(f, ", counts {counts}")?,
            None => write!(f, ", {} values of {SAMPLE_WORDS}", self.values)?,
        }
        f.write_str(if self.fits {
            ", fits the page\n"
        } else {
            ", does not fit the page\n"
        })
    }
}

// Writes the smallest size, or why there is none.
fn write_needed<W: fmt::Write>(
    f: &mut fmt::Formatter<W>,
    page: u64,
    needed: Result<u64, SizeFault>,
) -> fmt::Result {
    match needed {
        Ok(size) => {
            let pages = size.checked_div(page).unwrap_or(0);
            let bytes = size.saturating_mul(8);
            writeln!(
                f,
                "Smallest size: {size} words ({bytes} bytes), {pages} x {page}"
            )?;
            f.write_str(RACES)
        }
        Err(SizeFault::TooLarge) => f.write_str(
            "Smallest size: none, a block has more words than a page\n",
        ),
        Err(_) => f.write_str("Smallest size: none, a segment has at most 1048576 words\n"),
    }
}

impl fmt::Display for Sizes<'_> {
    fn fmt<W: fmt::Write>(&self, f: &mut fmt::Formatter<W>) -> fmt::Result {
        for hist in &self.hists {
            write!(f, "{hist}")?;
        }
        let mut words = HEADER_WORDS as u64;
        for block in &self.blocks {
            words = words.saturating_add(*block);
        }
        let count = self.blocks.len();
        writeln!(f, "Page: {} words", self.page)?;
        writeln!(
            f,
            "Words: {words}, in {count} blocks and the header, without rests of pages"
        )?;
        write_needed(f, self.page, self.needed)
    }
}
