//! The steps that say what a `hist` returned: that a histogram is known, or that the call was refused.

ghost use Rattle.std.specs.Prelude.{◌≡◌, false, map};
ghost use Rattle.live_segment.specs.Steps.Prelude.{Declines, declines, HasKnown, is_opener, NotesKnown, MayKnow, MayNoteAll, noted_by};

use crate::rule::{Announcement, Pass};
use crate::segment::Segment;
use atomic_table::Play;
use segment_machine::Actor;

pub(crate) struct Knowing;

impl Play<Announcement, Actor> for Knowing {
    ghost then = { NotesKnown };
}

pub(crate) struct Declining;

impl Play<Announcement, Actor> for Declining {
    ghost then = { λ st. Declines };
}

impl Segment {
    ghost use Rattle.live_segment.specs.Steps.Prelude.{IsSame, table_of};

    // What is announced is the histogram of the record at a word: the `hist` returns it.
    pub(crate) fn know(&self, seat: &mut Pass, reference: u64, said: &Announcement)
        requires table { seat.old.table_id ≡ table_of self.now }
        requires may { MayKnow reference said.now seat.old }
        ensures { HasKnown reference said.now seat.old seat.new }
    {
        self.table
            .shared
            .compare_exchange_with::<Knowing>(seat, 0, reference, reference, said);
    }

    // The answers that it owes become refusals.
    pub(crate) fn decline(&self, seat: &mut Pass)
        requires seat { (seat.old.table_id ≡ table_of self.now) × (is_opener seat.old.me.0.role ≡ false) }
        requires may { MayNoteAll seat.old.me.0 (map declines seat.old.me.0.answers.owed) }
        ensures same { IsSame seat.old seat.new }
        ensures view { seat.new.me.0 ≡ noted_by seat.old.me.0 (map declines seat.old.me.0.answers.owed) }
    {
        self.table.shared.load::<Declining>(seat, 0);
    }
}
