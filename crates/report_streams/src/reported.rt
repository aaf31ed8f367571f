//! What was reported.

ghost use Rattle.std.specs.Prelude.{◌<◌};

/// The exit status of what was reported: never 0.
#[derive(Clone, Copy)]
pub struct Reported {
    pub status: u8,
    ghost failed: { 0 < status },
}
