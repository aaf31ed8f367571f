//! Which of the segments in a file is meant.

ghost use Rattle.std.specs.Prelude.{◌≡◌, ◌≤◌, IfSome, IsSome, ◌↔◌};

/// The number of a segment in a file, from 1.
#[derive(Clone, Copy)]
pub struct Nth {
    number: u64,
    ghost any: { 1 ≤ number },
}

impl Nth {
    /// Returns the segment with this number [same]; none for 0 [all].
    pub fn of(number: u64) -> Option<Nth>
        ensures all { IsSome result ↔ (1 ≤ number) }
        ensures same { IfSome result (λ nth. nth.number ≡ number) }
    {
        if number < 1 {
            return None;
        }
        Some(Nth { number })
    }

    /// Returns its number [same], which is 1 or more [any].
    pub fn number(&self) -> u64
        ensures same { result ≡ self.now.number }
        ensures any { 1 ≤ result }
    {
        self.number
    }
}
