//! What an actor has done and seen.

use crate::entry::{Entry, EntryProgress};
use crate::place::Place;
use crate::seen::Seen;
use bucket_ranges::Spec;
use segment_image::Shape;
use std::collections::LinkedList;

/// Words that an allocation claimed: where they begin, and how many they are.
pub struct Claim {
    pub at: u64,
    pub size: u64,
}

/// A rise of the free pointer: from where, to where, and how many words were asked for.
pub struct Rise {
    pub from: u64,
    pub to: u64,
    pub wanted: u64,
}

/// A claimed block that is still its claimer's own, and what was stored in it.
pub struct Own {
    /// Where it begins.
    pub at: u64,
    /// Its size.
    pub size: u64,
    /// Its type: 1 histogram, 2 counts, 3 sparse sample, 0 a lost counts block.
    pub tag: u64,
    /// Its next: 0 until it is stored, then 12.
    pub next: u64,
    /// The front of its payload, up to the last word that was stored. The rest is zeros.
    pub payload: LinkedList<u64>,
    /// What it is to hold, if it is to be a record.
    pub made: Option<Made>,
}

/// What a record is to hold, as it was given to its maker.
pub enum Made {
    /// A histogram of a name and a spec.
    Histogram { name: LinkedList<u8>, spec: Spec },
    /// A value of the sparse histogram whose record has this reference.
    Sample { histogram: u64, value: i32 },
}

/// A record that was published: its reference, and what it is to hold.
pub struct Published {
    pub reference: u64,
    pub made: Made,
}

/// A histogram that a `hist` returned.
pub struct Known {
    pub name: LinkedList<u8>,
    pub spec: Spec,
    pub reference: u64,
}

/// Units of a segment that calls on a histogram took from a share.
pub struct Cost {
    pub name: LinkedList<u8>,
    pub units: u64,
}

/// When a delta or a snapshot began. The recorders are counted among those of one opener.
pub struct Moment {
    /// How many entries the log of its recorder had.
    pub log: u64,
    /// How many recorders were made before its recorder was.
    pub before: u64,
    /// How many of these had not been joined when its recorder was made.
    pub outstanding: u64,
}

/// What was taken of a histogram.
pub struct Portion {
    pub name: LinkedList<u8>,
    /// Keys, each with the units that were taken of it. A key may be listed more than once.
    pub counts: LinkedList<(i32, u64)>,
    /// What was taken of the sum.
    pub sum: i64,
}

/// What a delta has taken so far.
pub struct Taken {
    pub name: LinkedList<u8>,
    /// Keys, each with the units that were taken of it. A key may be listed more than once.
    pub counts: LinkedList<(i32, u64)>,
    /// What was taken of the sum, and whether the sum was taken at all.
    pub sum: i64,
    pub swapped: bool,
    pub moment: Moment,
}

/// What a snapshot returned.
pub struct Answered {
    pub name: LinkedList<u8>,
    /// All keys that it looked at, each with its total.
    pub counts: LinkedList<(i32, u64)>,
    pub sum: i64,
    pub redundant: u64,
    pub moment: Moment,
}

/// A record that a shared cursor gave.
pub struct Given {
    pub cursor: u64,
    pub reference: u64,
}

/// What an actor knows of its segment. It never changes.
pub struct Segment {
    /// The words of the segment and of each page.
    pub shape: Shape,
    /// The version of its format, 1 or 2.
    pub version: u64,
    /// How many shared cursors it has.
    pub cursors: u64,
}

/// The units of an actor: those that it may spend, has spent and holds.
pub struct Units {
    /// The units that it may still spend. An opener's are the pool, those that it has not handed out.
    pub share: u64,
    /// What ended calls have spent, by histogram.
    pub costs: LinkedList<Cost>,
    /// What the running call holds, by histogram. It is spent or comes back when the call ends.
    pub held: LinkedList<Cost>,
}

/// The entries of an actor: what was accepted before it, what it has accepted, and those of its running call.
pub struct Entries {
    /// The entries that an adopted image stands for, which are counted and summed. An opener's alone.
    pub first: LinkedList<Entry>,
    /// The units that the redundant counts of an adopted image had, by histogram: no redundant count that is kept here
    /// has the image's entries. An opener's alone.
    pub first_noted: LinkedList<Cost>,
    /// The entries that its opener's log had when it was made: what had been accepted before it. A recorder's alone.
    pub inherited: LinkedList<Entry>,
    /// The entries of ended calls, in order: its log.
    pub log: LinkedList<EntryProgress>,
    /// The entries of the running call.
    pub running: LinkedList<EntryProgress>,
}

/// What an actor has in hand: where its running call is, and its own blocks.
pub struct Hand {
    /// Where the call is, with what it has loaded and stored.
    pub place: Place,
    /// Blocks that the actor has claimed and that are neither published nor mounted. A refused call leaves them here.
    pub own: LinkedList<Own>,
}

/// What an actor has done to the segment, and how often it came too late.
pub struct Done {
    /// All blocks that it has claimed.
    pub claimed: LinkedList<Claim>,
    /// All rises of the free pointer that it has made, each for a block: the block is claimed there, or the rest of a
    /// page is wasted that is too short for it.
    pub raised: LinkedList<Rise>,
    /// The records that it has linked, in this order.
    pub published: LinkedList<Published>,
    /// Whether it has set the corrupt flag.
    pub spoiled: bool,
    /// Whether one of its allocations has set the full flag.
    pub filled: bool,
    /// The free pointer that it had loaded each time that it set the full flag: the words asked for did not fit from
    /// there on.
    pub lacked: LinkedList<u64>,
    /// The records that shared cursors gave it, in order.
    pub given: LinkedList<Given>,
    /// How often its link found another record after the tail.
    pub beaten: u64,
    /// For each shared cursor, how often its exchange found that another actor had moved the cursor.
    pub lost: LinkedList<u64>,
}

/// How much an actor had seen when its last delta or snapshot began, its last call that counts ended, or its last
/// `hist` returned a histogram, whichever came last.
pub struct Since {
    /// How many single words it had seen.
    pub singles: u64,
    /// How many counts, marks and redundant counts it had seen.
    pub counts: u64,
}

/// The histograms of an actor: those that its `hist` returned, and those whose answer is still owed.
pub struct Answers {
    /// The histograms that its `hist` returned.
    pub names: LinkedList<Known>,
    /// The histograms whose records it linked and whose `hist` has not returned yet.
    pub owed: LinkedList<Known>,
}

/// What the deltas of an actor took, and what its snapshots returned.
pub struct Deltas {
    /// What deltas had taken of an adopted image. An opener's alone.
    pub first_taken: LinkedList<Portion>,
    /// What its deltas took, in order.
    pub taken: LinkedList<Taken>,
    /// Whether the last of these is still running.
    pub taking: bool,
    /// Its snapshots.
    pub snapshots: LinkedList<Answered>,
}

/// What an actor is.
pub enum Role {
    /// An opener: how many recorders it has made, how many of these are not joined, and how many units of its share it
    /// offers to the next one.
    Opener {
        made: u64,
        outstanding: u64,
        offered: u64,
    },
    /// A recorder: how many recorders were made before it, and how many of these were not joined when it was made.
    Recorder {
        before: u64,
        outstanding: u64,
    },
}

/// What an actor has done and seen: a recorder, or an opener, whose record gathers those of the recorders that it
/// joined. It is only a view, and no value of it is ever made: its numbers have no bound.
pub struct Actor {
    /// What it knows of the segment.
    pub segment: Segment,
    /// Its units.
    pub units: Units,
    /// Its entries.
    pub entries: Entries,
    /// What it has in hand.
    pub hand: Hand,
    /// What it has done.
    pub done: Done,
    /// What it has seen.
    pub seen: Seen,
    /// How much of that it had seen before it last began to look again.
    pub since: Since,
    /// What its `hist` returned.
    pub answers: Answers,
    /// What its deltas took and its snapshots returned.
    pub deltas: Deltas,
    /// Whether it is an opener or a recorder.
    pub role: Role,
}
