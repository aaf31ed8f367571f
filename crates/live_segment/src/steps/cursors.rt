//! The steps on a shared cursor. The words of cursors come after those of the segment.

ghost use Rattle.std.specs.Prelude.{◌≡◌, ◌<◌, length};
ghost use Rattle.live_segment.specs.Steps.Prelude.{cursor_event, load_cursor, LoadsCursor, move_cursor, MovesCursor};

use crate::rule::{Announcement, Pass};
use crate::segment::Segment;
use crate::steps::FIRST;
use atomic_table::Play;
use segment_machine::Actor;

pub(crate) struct LoadCursor;

impl Play<Announcement, Actor> for LoadCursor {
    ghost then = { λ st. LoadsCursor st.word };
}

pub(crate) struct MoveCursor;

impl Play<Announcement, Actor> for MoveCursor {
    ghost then = { λ st. MovesCursor st.word st.first st.second };
}

impl Segment {
    ghost use Rattle.live_segment.specs.Steps.Prelude.{MayStep, CursorMovesOn, Stepped};

    pub(crate) fn load_cursor(&self, seat: &mut Pass, cursor: usize) -> u64
        requires may { MayStep self.now seat.old (cursor_event (load_cursor cursor)) }
        requires shape { seat.old.me.0.segment.shape ≡ self.now.setting.shape }
        requires room { cursor < self.now.setting.cursors }
        ensures step { Stepped seat.old (cursor_event (load_cursor cursor)) result seat.new }
        ensures counts { length seat.old.me.0.done.lost ≡ seat.old.me.0.segment.cursors }
    {
        let size = self.setting.shape.size() as usize;
        self.table
            .shared
            .load::<LoadCursor>(seat, FIRST + size + cursor)
    }

    pub(crate) fn move_cursor(&self, seat: &mut Pass, cursor: usize, old: u64, new: u64) -> u64
        requires may { MayStep self.now seat.old (cursor_event (move_cursor cursor old new)) }
        requires shape { seat.old.me.0.segment.shape ≡ self.now.setting.shape }
        requires room { cursor < self.now.setting.cursors }
        ensures step { Stepped seat.old (cursor_event (move_cursor cursor old new)) result seat.new }
        ensures order { CursorMovesOn old new seat.new.me.0 }
    {
        let size = self.setting.shape.size() as usize;
        self.table
            .shared
            .compare_exchange::<MoveCursor>(seat, FIRST + size + cursor, old, new)
    }
}
