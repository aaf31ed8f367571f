//! What faults mean, and what a fault of a script or of an image is about: its line and field, its word, its two specs.
//!
//! The texts are four tables: `TEXTS`, `TEXT_FAULTS` of texts that have families or several inputs, `WORLD_TEXTS` of
//! `stepped`, and `C_TEXTS` of statuses that only programs in C see. Proved: what a complaint about a record says of
//! its fields is true (`specs/Complaint.antt`), and a line of a file is one more than the line feeds before it. The
//! lines themselves are only tested.
#![tactic(auto)]

mod adopting;
mod asked;
mod asking;
mod c_table;
mod complaint;
mod damage;
mod field;
mod header;
mod lines;
mod nearest;
mod records;
mod script;
mod shown;
mod specs_of;
mod table;
mod text_table;
mod too_large;
mod world_table;

pub use adopting::{adopt_lines, base_lines};
pub use asked::{nearest_name, texts_for};
pub use asking::{VARIABLE, is_asked, is_terminal_at};
pub use c_table::C_TEXTS;
pub use complaint::{Complaint, RecordForm, complaint_of};
pub use damage::{bad_lines, stopped_lines};
pub use field::Wanted;
pub use header::{wanted_of, word_of};
pub use lines::{
    Origin, Source, device_lines, image_lines, remedy_lines, remedy_lines_of, script_lines,
    size_lines,
};
pub use nearest::{missing_lines, names_near};
pub use persist_report_core::Shown;
pub use records::{ScriptRecord, is_named, line_of, record_of};
pub use script::{Finding, finding_of};
pub use shown::ShownSpec;
pub use specs_of::merge_lines;
pub use table::{AllTexts, FaultText, TEXTS, fault_text, world_text};
pub use text_table::TEXT_FAULTS;
pub use too_large::merge_size_lines;
pub use world_table::WORLD_TEXTS;
