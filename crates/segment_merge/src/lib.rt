//! What a dead segment counted, or what came of a running one, is merged into a live one.
//!
//! For each histogram of a reading, these are the units and the part of the sum that its deltas have not taken.
//! [`merge`] adds them by a recorder of the live segment, one batch for each histogram, and reports what it added.
//! A [`Follower`] adds what came of a segment since an earlier reading of it, and notes what it has added.
#![tactic(auto)]

mod costs;
mod follow_fault;
mod follower;
mod following;
mod laws;
mod marked;
mod marks;
mod merging;
mod noting;
mod remainder;
mod took;

pub use costs::{cost_of_all, units_of_all};
pub use follow_fault::FollowFault;
pub use follower::Follower;
pub use following::FollowReport;
pub use laws::{notes_stay_within, words_are_in_order};
pub use merging::{MergeReport, MergeStop, merge};
pub use remainder::{Remainder, remainder_of};
