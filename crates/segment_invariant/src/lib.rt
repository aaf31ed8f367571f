//! What holds of a segment and of all its actors between any two events, and that it is kept.
//!
//! Nothing here runs. `Invariant` says what holds. It holds of a new segment, and is kept by each event, by each note,
//! and when recorders are made, joined and lent units. What is published continues there (`Rises`), and sums change by
//! no more than what is spent on them (`SumsRise`). A kept state is consistent: its totals, marks and sums are what the
//! actors did. The laws are in `laws`, the definitions in `specs/`: what is consistent, by the words and the actors
//! alone (`Consistent`); what each block is (`Body`), what the blocks hold and the actors did (`Ledger`), what was seen
//! (`Seen`), all that holds (`Invariant`), what that says of the words alone (`Words`), how what is published continues
//! (`Rises`), and that the invariant is kept (`Keeps`). Worked examples are in `Examples`, `Accounts` and `Refused`.
#![tactic(auto)]

pub mod laws;
