//! What holds for the words and for all who step on them.

use atomic_table::{Seat, TableRule};
use segment_calls::{Asked, Snapshot};
use segment_image::Shape;
use segment_machine::Actor;

/// What a segment is opened as.
#[derive(Clone, Copy, PartialEq, Eq)]
pub(crate) struct Setting {
    pub(crate) shape: Shape,
    pub(crate) version: u64,
    pub(crate) id: u64,
    pub(crate) cursors: usize,
    /// Whether its full flag is set from the start, as that of an image may be.
    pub(crate) full: bool,
}

/// What a segment is opened with: a new one, or an image in which it continues.
#[derive(Drop)]
pub(crate) struct Opening {
    pub(crate) setting: Setting,
    /// The words of its table.
    pub(crate) words: Vec<u64>,
    /// The references on its list.
    pub(crate) references: Vec<u64>,
}

/// What a step announces that cannot be seen from its word.
#[derive(Drop)]
pub(crate) enum Announcement {
    /// The units that the next recorder is to have.
    Units(u32),
    /// How many words the block needs for which the free pointer is raised.
    Wanted(u64),
    /// A histogram that a record is to hold, or that a `hist` returned or was refused.
    Histogram(Asked),
    /// The sample of a sparse histogram that a record is to hold.
    Sample { histogram: u64, value: i32 },
    /// What a snapshot of the histogram whose record has this reference returns.
    Answer { histogram: u64, snapshot: Snapshot },
}

impl Announcement {
    ghost use Rattle.std.specs.Prelude.{◌≡◌};
    ghost use Rattle.live_segment.specs.declared.rule.Announcement.TheVariants.{Histogram};

    // What a `hist` asks for, from its announcement.
    pub(crate) fn into_asked(self) -> Asked
        requires { (asked : Asked) × (self ≡ Histogram asked) }
        ensures { self ≡ Histogram result }
    {
        let Announcement::Histogram(asked) = self else {
            unreachable!()
        };
        asked
    }
}

/// What holds between any two steps.
pub(crate) struct SegmentRule;

impl TableRule<Announcement, Actor, Opening> for SegmentRule {
    ghost use Rattle.live_segment.specs.Rule.{Runs, opener_for};

    ghost holds = { Runs };

    ghost first = { opener_for };
}

/// What one holder knows of the segment. It has no bytes.
pub(crate) type Pass = Seat<Announcement, Actor>;
