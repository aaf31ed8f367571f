//! The histograms of a reading for people, as a text, a list or a web page: numbers, quantiles and bars.
//!
//! The text is defined in `specs/Showing.antt`, the list in `specs/Listing.antt`, and the page in `specs/Page.antt`,
//! over the rows that every text of a reading is made of. All numbers in them come from whole-number arithmetic, which
//! `specs/Shares.antt` defines with its rounding. The metrics of a reading as an export is asked for are in
//! `specs/Exported.antt`.
#![tactic(auto)]

mod bars;
mod choice;
mod columns;
mod ending;
mod escapes;
mod exported;
mod frame;
mod heading;
mod heights;
mod lines;
mod listing;
mod missing;
mod most;
mod page;
mod page_lists;
mod page_rows;
mod redundant;
mod row_names;
mod shares;
mod sheet;
mod showing;
mod since;
mod source;

pub use exported::{has_line_labels, has_prefix, metrics_text};
pub use listing::list_text;
pub use missing::first_missing;
pub use page::{page_of_sum, page_text};
pub use reading_overviews::SumHead;
pub use showing::{show_since_text, show_text};
pub use source::Source;
pub use text_styles::{Choice, Drawn, Exported, LineLabel, Style};
