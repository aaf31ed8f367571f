//! Puts three copies of the words of a running segment together into one image: a look.
//!
//! The copies are taken one after the other by plain loads, while threads record: the words of one copy may be loaded
//! in any order, but all of them before any word of the next copy. Which word of the look comes from which copy is
//! defined in `specs/Looks.antt`: marks, sum marks and redundant counts come from the first copy, nexts, counts
//! references, single words, counts and sums from the second, and the rest from the third. A counts reference comes
//! from the third copy if the counts came into use between the loads of the reference and of the single word. Words
//! that were not claimed, and counts that were not in use yet, are 0. [`compose`] returns exactly this look, for any
//! words.
#![tactic(auto)]

mod composing;
mod fault;
mod following;
mod patching;
mod record;

pub use composing::compose;
pub use fault::LookFault;
