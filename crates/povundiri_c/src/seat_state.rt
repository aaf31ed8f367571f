//! What a thread has done at a mailbox.

use owned_recorder::OwnedRecorder;

/// What a seat says that its thread has done there. No program makes one: it is for proofs alone.
pub(crate) enum SeatState {
    /// Nothing.
    Nothing,
    /// It reaches into the mailbox.
    Reaches,
    /// It has laid a recorder there.
    Laid(OwnedRecorder),
    /// It had laid a recorder there, and another has taken it.
    Met(OwnedRecorder),
}
