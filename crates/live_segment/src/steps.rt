//! The steps of a recorder, one for each kind of event, with a family in each file. A step is the event and nothing
//! else.

pub(crate) mod allocating;
pub(crate) mod answering;
pub(crate) mod counting;
pub(crate) mod cursors;
pub(crate) mod packing;
pub(crate) mod publishing;
pub(crate) mod standing;
pub(crate) mod sums;
pub(crate) mod taking;
pub(crate) mod walking;

/// Where the first word of the segment is in its table.
pub(crate) const FIRST: usize = 1;
