//! The rules of a recording's folder: its names, which segments a reading counts, and what a fold writes.
//!
//! [`kind_of`] says what a file is by its name. A reading counts each segment of its listing that [`is_named`] does not
//! find in the totals, and [`stands`] says whether the reading can be used. [`fold_of`] says what a fold writes in
//! addition to the sum.
#![tactic(auto)]

mod belonging;
mod folding;
mod kind;
mod laws;
mod mark;
mod name;
mod named;
mod random;
mod reading;
mod totals;

pub use belonging::was_recorded;
pub use folding::{Fold, fold_of};
pub use kind::{FileKind, kind_of};
pub use laws::{a_folder_stays_sound, a_new_folder_is_sound, names_differ};
pub use mark::{Mark, mark_of};
pub use name::{damaged_name, segment_name};
pub use named::is_named;
pub use reading::stands;
pub use totals::{folded_totals, serial_of};
