//! The texts of a reading, each made in memory: its report as CSV, its rows alone, and lines for programs that scrape
//! metrics.
//!
//! Each is defined in `specs/` as lines in their order, most of them made from a row of a histogram. The rows, and the
//! order of the histograms, are the same for all texts: `specs/Rows.antt`.
#![tactic(auto)]

mod exporting;
mod families;
mod family_lines;
mod labels;
mod lines;
mod members;
mod order;
mod parts;
mod rows;
mod table;
mod text;
mod words;

pub use exporting::export_text;
pub use families::{FamilyFault, families_text};
pub use labels::{Label, are_line_labels, is_prefix};
pub use parts::put_parts;
pub use rows::{HistRow, rows_of, units};
pub use table::table_text;
pub use text::report_text;
pub use words::{image_fault_word, is_sparse, kind_word, record_fault_word};
