//! Running segments and sums of images for programs in C and C++.
//!
//! A segment is in the heap, or in a room that the program gives, such as a mapped file. A sum is of any number of
//! images.
//!
//! C holds a segment, a recorder, a sum or a follower in a [`Handle`]. Each export returns a status: 0, or the number of what went
//! wrong (`status`). The header is `c/povundiri.h`; it says call by call what C must keep.
#![tactic(auto)]

mod contents;
mod exports;
mod following;
mod handle;
mod held_follower;
mod image_units;
mod joinable_recorder;
mod mailbox;
mod merging;
mod opaque_box;
mod owned_segment;
mod seat_state;
mod seats;
mod status;
mod sums;
mod texts;
mod types;

pub use handle::Handle;
pub use types::{Count, HistSpec, Item, MergeTotals, SegmentShape, Totals};
