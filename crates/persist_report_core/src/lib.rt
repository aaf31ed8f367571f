//! The report of a segment's image, and scripts of what is to be recorded in one.
//!
//! The text of a report is defined in `reading_texts`, `specs/Text.antt`, and what a call returns in
//! `specs/Report.antt`. `reading_shows` has the call that reads an image from a reader and writes it in this form or
//! another.
//!
//! A script is also read whole, and is then a value or its first faulty record: `specs/Script.antt`.
//!
//! A segment in a file that is in use is looked at: the file is read three times, and these reads give one image:
//! `specs/LookFile.antt`.
#![tactic(auto)]

mod damage;
mod fault;
mod fields;
mod input;
mod look;
mod number;
mod outputs;
mod reporting;
mod rows;
mod script;
mod shown;

pub use damage::damage_of;
pub use fault::CliFault;
pub use fields::{read_spec, three_from};
pub use input::{MAX_WORDS, image_in, read_input};
pub use look::{look_file, read_look};
pub use number::{long_number, signed_long_number, signed_number, unsigned_number};
pub use outputs::write_image;
pub use reading_texts::report_text;
pub use reporting::{read_image, report_of, write_and_flush};
pub use rows::read_rows;
pub use script::{
    CallKind, MAX_SCRIPT_BYTES, Script, ScriptCall, ScriptFault, ScriptHist, read_script,
    read_script_for,
};
pub use shown::Shown;
