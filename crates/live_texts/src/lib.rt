//! The texts of what a running segment counts, seen from inside: its report, its metrics, and texts for people.
//!
//! Each is the text of the reading that has these histograms and nothing else: no mark, no flag, no bad record
//! (`specs/Live.antt`). That reading stays inside this crate: it cannot be merged, since what deltas took is not known.
#![tactic(auto)]

mod made;
mod readable;
mod texts;

pub use texts::{export, list, report, show, show_since};
