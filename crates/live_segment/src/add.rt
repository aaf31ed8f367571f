//! The calls `add` and `batch`: units of values are counted.

pub(crate) mod batch;
pub(crate) mod bucket;
pub(crate) mod cost;
pub(crate) mod counts;
pub(crate) mod finish;
pub(crate) mod sample;
pub(crate) mod sample_search;
