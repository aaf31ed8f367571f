//! What the calls on a segment take and return, and what every crate that runs one shares: what a `hist` asks for, with
//! the words that its record is to have; what packing and disabling make of a single word; keys with units in the order
//! of their keys; what a delta took and a snapshot saw; and why a call is refused, why there is no segment, and why an
//! image may not be adopted.
//!
//! It depends on the layout and on the buckets alone, so that a crate that only reads names the same faults as one that
//! records.
#![tactic(auto)]

mod adopt_fault;
mod answer;
mod asked;
mod call;
mod keys;
mod open_fault;
pub mod packing;
mod refusal;

pub use adopt_fault::AdoptFault;
pub use answer::{Delta, Snapshot};
pub use asked::Asked;
pub use call::Call;
pub use keys::sort_by_key;
pub use open_fault::OpenFault;
pub use refusal::{BatchRefusal, Refusal};
