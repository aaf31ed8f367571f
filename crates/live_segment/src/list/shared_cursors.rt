//! How recorders share a cursor along the list.

ghost use Rattle.std.specs.Prelude.{◌≡◌, ◌<◌, ◌++◌, false};
ghost use Rattle.live_segment.specs.List.Prelude.{AnswersNext, gift, is_bound};

use crate::rule::Pass;
use crate::segment::Segment;
use segment_image::layout::QUEUE;

impl Segment {
    ghost use Rattle.live_segment.specs.List.Prelude.{HasShared, IsSame, IsSeated, opened_with};

    /// Moves a shared cursor to the next record and returns that; none if the list ends there.
    pub(crate) fn next_shared(&self, seat: &mut Pass, cursor: usize) -> Option<u64>
        requires seat { IsSeated self.now seat.old }
        requires free { is_bound seat.old.me.0.hand.place ≡ false }
        requires cursor { cursor < self.now.setting.cursors }
        ensures same { IsSame seat.old seat.new }
        ensures answer { AnswersNext cursor seat.old.me.0 result seat.new.me.0 }
        ensures given { seat.new.me.0.done.given ≡ seat.old.me.0.done.given ++ gift cursor result }
        ensures shared { HasShared (opened_with self.now) seat.new.id seat.new.me.0 cursor result }
    {
        loop {
            let at = self.load_cursor(seat, cursor);
            let next = self.load_next(seat, at);
            if next == QUEUE {
                return None;
            }
            if self.move_cursor(seat, cursor, at, next) == at {
                self.stand(seat);
                return Some(next);
            }
        }
    }
}
