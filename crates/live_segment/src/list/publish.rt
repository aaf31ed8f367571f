//! How a recorder puts a record on the list.

ghost use Rattle.std.specs.Prelude.{◌≡◌, ◌+◌, ◌≤◌, false};
ghost use Rattle.live_segment.specs.List.Prelude.{HasPublishedFor, is_bound, IsFilledFor};

use crate::rule::{Announcement, Pass};
use crate::segment::Segment;
use segment_image::layout::QUEUE;

impl Segment {
    ghost use Rattle.live_segment.specs.List.Prelude.{IsSame, IsSeated};

    /// Puts a block of its own, which is filled, at the end of the list: from then on it is the record that is
    /// announced, and a walk that reaches the end has passed it.
    pub(crate) fn publish(&self, seat: &mut Pass, at: u64, said: &Announcement)
        requires seat { IsSeated self.now seat.old }
        requires free { is_bound seat.old.me.0.hand.place ≡ false }
        requires room { at + 5 ≤ self.now.setting.shape.size }
        requires filled { IsFilledFor seat.old.me.0 at said.now }
        ensures same { IsSame seat.old seat.new }
        ensures published { HasPublishedFor at said.now seat.old.me.0 seat.new.me.0 }
    {
        self.store_own_next(seat, at);
        loop {
            let tail = self.load_tail(seat);
            let next = self.link(seat, tail, at, said);
            if next == QUEUE {
                self.move_tail(seat, tail, at);
                return;
            }
            self.move_tail(seat, tail, next);
        }
    }
}
