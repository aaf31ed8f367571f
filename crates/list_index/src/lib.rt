//! What was visited along a list, by keys: for each key the first number that was entered, and for each group of keys
//! all.
//!
//! [`Firsts`] is a map that never makes a call fail: if it cannot grow, [`Firsts::enter`] says so, and nothing has
//! changed. Keys are numbers, and those of a group are next to one another ([`group_of`]). [`next_key`] makes one of
//! the words of a name, [`next_byte_key`] one of its bytes. Two names may have one key, so a caller that finds a name
//! by its key compares the name.
#![tactic(auto)]

mod firsts;
mod groups;
mod keys;

pub use firsts::Firsts;
pub use groups::{GROUP_KEYS, Groups, group_of};
pub use keys::{next_byte_key, next_key};
