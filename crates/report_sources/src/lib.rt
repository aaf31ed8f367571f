//! What a command that writes a text reads: an image, a look at a segment in use, or the sum of many inputs.
//!
//! [`open_source`] opens it, [`Opened::read`] reads it, and [`Found`] is what was read, with what is wrong with it.
//!
//! - `opened`, `reading`, `found`: these three.
//! - `inputs`: which files are inputs, by their names. `peeked`: what the first bytes of a file say that it is. `looks`: a
//!   segment in use, whose file is read three times.
//! - `summing`: many inputs are added up in their order. `minus`: what came since an earlier sum. `left_out`: inputs that
//!   cannot be read. `progress`: the line that shows how far a sum is.
//! - `recorded`: a recording's folder as one input, over what is in the folder (`standing`).
//! - `origins`: where it all came from, as a web page names it.
#![tactic(auto)]

mod found;
mod inputs;
mod left_out;
mod looks;
mod minus;
mod opened;
mod origins;
mod peeked;
mod progress;
mod reading;
mod recorded;
mod standing;
mod summing;

pub use found::Found;
pub use inputs::{Named, What};
pub use left_out::{input_failure, tell_left};
pub use looks::{Looks, last_used, open_looks};
pub use opened::{OneFile, Opened, open_source};
pub use standing::{
    FOLD_LOCK, MARK, NEW_TOTALS, Segment, TOTALS, cause_of_read, id_in, mark_in, path_in,
    segments_in, totals_from, totals_text_in,
};
