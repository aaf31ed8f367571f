//! When the calls of workers are made.

ghost use Rattle.std.specs.Prelude.{◌≡◌, true};

/// Decides when each call of each worker is made, and whether it is made at all. Workers and the calls of each are
/// numbered from 1.
pub trait Gate {
    /// Whether a worker may make a call. If not, the worker ends.
    fn before(&self, worker: u32, call: u64) -> bool;

    /// The worker has made the call.
    fn after(&self, worker: u32, call: u64);
}

/// Lets each call be made at once.
#[derive(Clone, Copy)]
pub struct OpenGate;

impl Gate for OpenGate {
    /// Lets each call be made.
    fn before(&self, _worker: u32, _call: u64) -> bool
        ensures { result ≡ true }
    {
        true
    }

    fn after(&self, _worker: u32, _call: u64) {}
}
