//! The step that shows a state of the segment, as a call ends.

ghost use Rattle.std.specs.Prelude.{◌≡◌, Option, Some, None, ℕ};
ghost use Rattle.live_segment.specs.declared.rule.Opening.{Opening};
ghost use Rattle.live_segment.specs.Holders.{opened_with, table_of};
ghost use Rattle.live_segment.specs.Standing.{Standing, StandsStill};

use crate::rule::{Announcement, Pass};
use crate::segment::Segment;
use atomic_table::Play;
use segment_machine::Actor;
use std::marker::{Brand, PhantomData};

/// Who steps, for the proof alone: what its segment was opened with, and the number of its seat. A call at `Brand` picks them.
pub(crate) trait Stance {
    ghost opening: { Option Opening };

    ghost number: { ℕ };
}

impl Stance for Brand {
    ghost opening = { None };

    ghost number = { 0 };
}

pub(crate) struct Stand<S> {
    of: PhantomData<S>,
}

impl<S: Stance> Play<Announcement, Actor> for Stand<S> {
    ghost then = { λ st. StandsStill S.opening S.number };
}

impl Segment {
    fn stand_as<S: Stance>(&self, seat: &mut Pass)
        requires table { seat.old.table_id ≡ table_of self.now }
        requires stance { (S.opening ≡ Some (opened_with self.now)) × (S.number ≡ seat.old.id) }
        ensures same { seat.new ≡ seat.old }
        ensures stands { Standing (opened_with self.now) seat.new.id seat.new.me.0 }
    {
        self.table.shared.load::<Stand<S>>(seat, 0);
    }

    // Loads a word that never changes. The seat is unchanged, and is in a state of the segment.
    pub(crate) fn stand(&self, seat: &mut Pass)
        requires { seat.old.table_id ≡ table_of self.now }
        ensures same { seat.new ≡ seat.old }
        ensures stands { Standing (opened_with self.now) seat.new.id seat.new.me.0 }
    {
        self.stand_as::<Brand>(seat);
    }
}
