//! What holds of lists of anything: what the first element of a kind is (`specs/Firsts.antt`), and lemmas about
//! elements at their places, sums, maps, pairs and firsts.
//!
//! Nothing here runs.
#![tactic(auto)]
