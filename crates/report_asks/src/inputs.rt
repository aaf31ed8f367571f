//! What a command that writes a text reads.

ghost use Rattle.std.specs.Prelude.{◌≡◌, ◌≤◌, ◌↔◌, true, slice_get, MatchOption};
ghost use Rattle.report_asks.specs.Inputs.{AreOne, AskForSum, EarlierIsDash, ListIsDash, dash};

use crate::workers::Workers;

/// The name of standard input and, as OUT, of standard output.
pub const DASH: &str = "-";

/// What a command that writes a text reads.
#[derive(Drop)]
pub struct Inputs<'a> {
    /// The files and folders that are named.
    pub files: Vec<&'a str>,
    /// The file that has more of them, a line each.
    pub list: Option<&'a str>,
    /// What is subtracted from the sum.
    pub earlier: Option<&'a str>,
    /// How many workers add up, if the command line says so.
    pub workers: Option<Workers>,
    /// Whether an input that cannot be read ends the command.
    pub is_strict: bool,
    /// Whether the sum is written whole.
    pub has_totals: bool,
    /// Whether files in use are looked at.
    pub is_live: bool,
    /// Where the segment that is looked at begins in its file: at a byte, or at the start.
    pub at: Option<u64>,
    /// Whether it is one image alone, and neither totals nor a folder.
    pub is_image_alone: bool,
}

// Whether a file is named, and is standard input.
fn is_dash(path: Option<&str>) -> bool
    ensures { (result ≡ true) ↔ MatchOption path.entry ⊥ (λ path. path.now ≡ dash) }
{
    match path {
        Some(path) => path == DASH,
        None => false,
    }
}

impl<'a> Inputs<'a> {
    /// Returns the first file that is named, if there is one.
    pub fn first(&self) -> Option<&'a str>
        ensures { result ≡ slice_get self.now.files.items 0 }
    {
        self.files.first().copied()
    }

    /// Returns whether one file or folder is read, or standard input.
    pub fn is_one(&self) -> bool
        ensures { (result ≡ true) ↔ AreOne self.now }
    {
        self.files.len() <= 1 && self.list.is_none()
    }

    /// Returns how many of the list and what is subtracted are standard input: none [none], both [both], or one of them
    /// [few].
    pub fn other_dashes(&self) -> usize
        ensures none { (result ≡ 0) ↔ (¬ ListIsDash self.now) × (¬ EarlierIsDash self.now) }
        ensures both { (result ≡ 2) ↔ ListIsDash self.now × EarlierIsDash self.now }
        ensures few { result ≤ 2 }
    {
        match (is_dash(self.list), is_dash(self.earlier)) {
            (true, true) => 2,
            (false, false) => 0,
            _ => 1,
        }
    }

    /// Returns how many workers add up: 1 if the command line does not say [said]. They are 1 or more [any] and 16 or
    /// fewer [few].
    pub fn workers(&self) -> usize
        ensures said { MatchOption self.now.workers (result ≡ 1) (λ workers. result ≡ workers.count) }
        ensures any { 1 ≤ result }
        ensures few { result ≤ 16 }
    {
        match self.workers {
            Some(workers) => workers.count() as usize,
            None => 1,
        }
    }

    /// Returns whether a sum is asked for, whatever the first file is.
    pub fn is_sum(&self) -> bool
        ensures { (result ≡ true) ↔ AskForSum self.now }
    {
        self.files.len() > 1
            || self.list.is_some()
            || self.earlier.is_some()
            || self.is_strict
            || self.has_totals
    }
}
