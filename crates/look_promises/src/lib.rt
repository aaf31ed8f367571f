//! What is promised of a look at a running segment: of three copies of its words that are put together.
//!
//! Nothing here runs. A run is any sequence of states of a segment of version 2, each reached from the one before; a
//! copy has each word of the segment as it was at some moment of the run; and a look is made of three copies, each
//! loaded after the one before it (`segment_looks`). The laws are in `laws`, the definitions in `specs/`: runs and
//! copies (`Runs`), and what a look has (`Looks`, `Images`).
#![tactic(auto)]

pub mod laws;
