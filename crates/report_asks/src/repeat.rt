//! How often a text is written.

ghost use Rattle.std.specs.Prelude.{◌≡◌, MatchOption};

/// How often a text is written: the seconds in between, and how many times, or until the program is ended.
#[derive(Clone, Copy)]
pub struct Repeat {
    pub seconds: u32,
    pub count: Option<u32>,
}

impl Repeat {
    /// Returns how many times it is written: 2^64 - 1 if no number is given.
    pub fn times(self) -> u64
        ensures { MatchOption self.count (result ≡ 18446744073709551615) (λ count. result ≡ count) }
    {
        match self.count {
            Some(count) => u64::from(count),
            None => u64::MAX,
        }
    }
}
