//! How many workers run a script, or add up inputs.

ghost use Rattle.std.specs.Prelude.{◌≡◌, ◌≤◌, IfSome, IsSome, ◌↔◌};

/// A number of workers that may run a script or add up inputs: from 1 to 16.
#[derive(Clone, Copy)]
pub struct Workers {
    count: u32,
    ghost any: { 1 ≤ count },
    ghost few: { count ≤ 16 },
}

impl Workers {
    /// Returns this number of workers [same], if it is from 1 to 16 [all].
    pub fn of(count: u32) -> Option<Workers>
        ensures all { IsSome result ↔ (1 ≤ count) × (count ≤ 16) }
        ensures same { IfSome result (λ workers. workers.count ≡ count) }
    {
        if count < 1 || count > 16 {
            return None;
        }
        Some(Workers { count })
    }

    /// Returns how many they are [same], 1 or more [any] and 16 or fewer [few].
    pub fn count(&self) -> u32
        ensures same { result ≡ self.now.count }
        ensures any { 1 ≤ result }
        ensures few { result ≤ 16 }
    {
        self.count
    }
}
