//! An exchange that is to come, as plain data.

/// An exchange of a word, which goes through if the word has the expected value.
#[derive(Clone, Copy, PartialEq, Eq)]
pub struct Attempt {
    /// The number of the word.
    pub at: usize,
    /// The value that is expected there.
    pub wanted: u64,
}
