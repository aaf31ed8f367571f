//! The commands of the program that record: a script is run by workers, each in a thread of its own, in a new
//! segment or in one that continues from an image; and two images are merged.
//!
//! A script is read whole, and its histograms are made. Then its calls are shared out among workers, which record at
//! the same time through a gate. When all of them have ended, the image of their segment and then its report are
//! written: both, or nothing, unless a writer fails.
//!
//! If a script is resumed, its segment continues from an image, which is read whole and adopted before the script is
//! read.
//!
//! Images to be merged are read whole too. What their deltas had not taken is added to a new segment, whose image is
//! written.
#![tactic(auto)]

mod gate;
mod merging;
mod opening;
mod reports;
mod resuming;
mod run;
mod scripts;
mod stop;
mod worker;

pub use gate::{Gate, OpenGate};
pub use merging::merge_files;
pub use resuming::resume_script;
pub use run::run_script;
