//! What the calls of a world's actors return, and the moves of which they are made.

use segment_calls::{BatchRefusal, Call, Delta, Refusal, Snapshot};

/// What a call returns.
#[derive(Drop)]
pub enum Answer {
    /// The reference of the histogram's record.
    Hist(u64),
    /// The samples, or the batch, are counted.
    Added,
    /// What the delta took.
    Delta(Delta),
    /// What the snapshot saw.
    Snapshot(Snapshot),
    /// The corrupt flag is set.
    Flagged,
    /// Why the call, which is not a batch, is refused.
    Refused(Refusal),
    /// How much of the batch is counted, and why the rest is refused.
    BatchRefused(BatchRefusal),
}

/// A move of a schedule.
#[derive(Drop)]
pub enum Move {
    /// An actor begins a call.
    Begin(usize, Call),
    /// An actor performs the next event of its call.
    Step(usize),
}

/// What the begin of a call says.
#[derive(Drop)]
pub enum Begun {
    /// The call runs, one event a step.
    Going,
    /// The call needs no event, and has ended.
    Ended(Answer),
}

/// What a step says.
#[derive(Drop)]
pub enum Stepped {
    /// The call continues.
    More,
    /// The call has ended.
    Done(Answer),
}

impl Stepped {
    ghost use Rattle.std.specs.Prelude.{◌≡◌, ◌≤◌};
    ghost use Rattle.hist_core.specs.ActorRun.{returned_by};

    // The units that come back of those that the call held: all of them if it is refused, and else none.
    pub(crate) fn returned(&self, held: u64) -> u64
        ensures units { result ≡ returned_by self.now held }
        ensures few { result ≤ held }
    {
        match self {
            Stepped::Done(Answer::Refused(_) | Answer::BatchRefused(_)) => held,
            _ => 0,
        }
    }
}
