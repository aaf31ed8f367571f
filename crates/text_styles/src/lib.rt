//! How the texts of a reading are written: what a caller may choose.
//!
//! It depends on nothing, so a command line can be proved before the texts that it asks for.
#![tactic(auto)]

mod choice;
mod drawn;
mod exported;
mod style;

pub use choice::Choice;
pub use drawn::Drawn;
pub use exported::{Exported, LineLabel};
pub use style::Style;
