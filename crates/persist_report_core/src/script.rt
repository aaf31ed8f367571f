//! Scripts: what is to be recorded, as CSV records.

mod draft;
mod existing_segment;
mod fault;
mod names;
mod reading;
mod request;

use bucket_ranges::Spec;
pub use existing_segment::read_script_for;
pub use fault::ScriptFault;
pub use reading::{MAX_SCRIPT_BYTES, read_script};
use segment_image::Shape;

/// What a script asks for.
#[derive(Drop)]
pub struct Script {
    /// The words of the segment and of its pages.
    pub shape: Shape,
    /// The segment's id.
    pub id: u64,
    /// The `hist` records, in order.
    pub hists: Vec<ScriptHist>,
    /// The `add` and `delta` records, in order.
    pub calls: Vec<ScriptCall>,
}

/// A `hist` record: a histogram that has to be there before anything is recorded.
#[derive(Drop)]
pub struct ScriptHist {
    /// The bytes of its name, valid or not.
    pub name: Vec<u8>,
    /// How it splits the values, valid or not.
    pub spec: Spec,
    /// The number of the record in the script, from 1.
    pub number: u32,
}

/// An `add` or a `delta` record.
#[derive(Clone, Copy, PartialEq, Eq)]
pub struct ScriptCall {
    /// The index of the first `hist` record of its name.
    pub hist: u32,
    /// What it asks for.
    pub kind: CallKind,
    /// The number of the record in the script, from 1.
    pub number: u32,
}

/// What an `add` or a `delta` record asks for.
#[derive(Clone, Copy, PartialEq, Eq)]
pub enum CallKind {
    /// `count` units of a value are to be recorded.
    Add { value: i32, count: u32 },
    /// A delta is to be taken.
    Delta,
}
