//! The words of a segment's image: its shape, its header and its blocks, and how bytes become words.
//!
//! An image is a list of 64-bit words, in a file eight bytes for each, the least byte first. The layout follows
//! Chromium's `persistent_memory_allocator`, with words of its own. No call here trusts a word.
//!
//! - [`Shape::of`], [`header`] and [`block`] return what the words say exactly if all checks hold, and otherwise the
//!   fault of the first check that fails, in the order of [`ImageFault`]. They take no memory.
//! - [`Shape::fit`] returns the shape for a number of words, and chooses its page.
//! - [`read_bytes`] returns all bytes that a reader had left, up to a limit, and otherwise why there are none.
//! - [`read_words`] returns the words whose bytes are all that a reader had left, and otherwise why there are none;
//!   [`read_more_words`] appends them to words that are there.
//! - [`write_words`] writes the bytes that words are.
//! - An [`Image`] has the words of a whole segment: those of a new one, or such as [`header`] accepts.
//! - A [`Watched`] passes reads and writes on, and says whether one of them failed, and whether a flush succeeded
//!   after the last write.
#![tactic(auto)]

mod blocks;
mod fault;
pub mod fitting;
mod head;
mod image;
pub mod layout;
mod shape;
mod transfer;
mod watched;

pub use blocks::{BlockHead, block};
pub use fault::{ImageFault, ReadFault, WriteFault};
pub use head::{SegmentHead, header};
pub use image::{Image, blank_is_ready, ready_header};
pub use shape::Shape;
pub use transfer::{fill, push_words, read_bytes, read_more_words, read_words, write_words};
pub use watched::Watched;
