//! What follows for code that steps a segment.
//!
//! Nothing here runs. Every state that is reached is kept, and that of a new segment consistent. A step keeps what
//! holds, over plain words and over a table of atomic words that threads share. What the crates above promise of every
//! kept state is stated here, and `docs/proved/segment_promises.md` says which of it is proved. The laws are in `laws`,
//! the definitions in `specs/`: which states are reached (`States`), what follows of one step (`Follows`), what the
//! words read as (`Reads`), what deltas and snapshots owe (`Deltas`), what the list gives (`Lists`), what refused calls
//! have done (`Refusals`), how far the free pointer has risen (`FreePointer`), tallies (`Tallies`), adoption
//! (`Adoption`), and worked examples (`Examples`). The laws of `worked_readings` say what the words of small segments
//! read as (`WorkedReadings`).
#![tactic(auto)]

pub mod laws;
pub mod worked_readings;
