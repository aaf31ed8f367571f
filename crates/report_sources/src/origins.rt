//! Where what was read comes from.

use crate::inputs::Named;
use crate::left_out::origin_of;
use fault_texts::Origin;
use reading_shows::Source;
use report_asks::{DASH, Inputs};
use std::alloc::{AllocError, Global};

// What standard input is called among several inputs.
const INPUT: &str = "standard input";

/// Where what was read comes from.
#[derive(Drop)]
pub struct Origins {
    // The path of the first input, or `-`.
    first: String,
    // How many more there are.
    more: u64,
}

impl Origins {
    /// Returns that it comes from one file or folder, or from standard input for `-`.
    pub fn one(alloc: Global, path: &str) -> Result<Origins, AllocError> {
        let first = String::from_str(alloc, path)?;
        Ok(Origins { first, more: 0 })
    }

    /// Returns where a sum comes from. If it is of one file or folder, or of standard input: what is named. Else the
    /// first input that is read, and how many more there are; if there is none, what is named.
    pub fn of(alloc: Global, inputs: &Inputs<'_>, names: &[Named]) -> Result<Origins, AllocError> {
        let mut origins = match names.first() {
            Some(first) if !inputs.is_one() => Origins::one(alloc, first.path.as_str())?,
            _ => {
                let named = inputs.first().or(inputs.list).unwrap_or(DASH);
                return Origins::one(alloc, named);
            }
        };
        origins.more = (names.len() as u64).saturating_sub(1);
        Ok(origins)
    }

    /// Returns where the first input comes from.
    pub fn first(&self) -> Origin<'_> {
        origin_of(self.first.as_str())
    }

    /// Returns it as a web page names it.
    pub fn source(&self) -> Source<'_> {
        match (self.first(), self.more) {
            (Origin::File(path), 0) => Source::File(path),
            (Origin::File(path), more) => Source::Several(path, more),
            (Origin::Input | Origin::Output, 0) => Source::Input,
            (Origin::Input | Origin::Output, more) => Source::Several(INPUT, more),
        }
    }
}
