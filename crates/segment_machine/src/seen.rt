//! What an actor has seen of a segment.

use std::collections::LinkedList;

/// A word that was seen: where it is, and what it was.
pub struct Sighting {
    pub at: u64,
    pub word: u64,
}

/// What an actor has seen. All of it stays true whatever others do, since a segment only grows.
pub struct Seen {
    /// The free pointer that it saw last.
    pub free: u64,
    /// Whether it has seen the corrupt flag, which is never taken back.
    pub corrupt: bool,
    /// How often it loaded flags with the corrupt one.
    pub warned: u64,
    /// The chain, as far as it has walked along it.
    pub chain: LinkedList<u64>,
    /// The words that led to no block when it loaded them, in the order of the loads: the next of a block, or of the
    /// queue block, that was the end of the list; a counts reference that was 0. Others may have stored there since.
    pub ends: LinkedList<u64>,
    /// The tails that it saw.
    pub tails: LinkedList<u64>,
    /// The single words that it saw, by where they are.
    pub singles: LinkedList<Sighting>,
    /// The counts, marks and redundant counts that it saw.
    pub counts: LinkedList<Sighting>,
    /// The words of published records that it saw and that never change: types, specs, names, samples, and counts
    /// references other than 0.
    pub words: LinkedList<Sighting>,
    /// The shared cursors that it saw, by their numbers.
    pub cursors: LinkedList<Sighting>,
}
