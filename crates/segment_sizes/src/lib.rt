//! How large a segment has to be for its blocks, in any order in which they are claimed.
//!
//! An allocation that finds too little room in a page wastes the rest of it, so how many words blocks take depends on
//! the order in which they are claimed. `needed_size` returns a size with which they fit in every order:
//! `specs/Filling.antt` says what that means, by what an allocation does from a free pointer on, and
//! `specs/Needed.antt` has the formula. No call takes memory.
#![tactic(auto)]

mod fault;
mod needed;

pub use fault::SizeFault;
pub use needed::needed_size;
