//! A mailbox has room for one recorder of a segment. The segment and its recorders share it, and no other segment has
//! it: so a recorder that was laid in its own mailbox, and is found in a segment's, is one of this segment. Only the
//! segment has the keeper's seat, and takes what others have laid there: so it always finds a recorder of its own that
//! it has laid there itself.

ghost use Rattle.std.specs.Prelude.{◌≡◌, ◌+◌, ◌%◌, ◌^◌, ◌<◌, [], true, IfOk};
ghost use Rattle.povundiri_c.specs.Mailbox.{BelongsTo, FitsNumber, IsKeeper, IsMailbox, IsOfOpener, IsPut, IsRight, MayReachInto, MayReachBy, MayTake, HasReached, Passes, Replaces, ReplacesBy, KeeperTakes, begins, stranger};

use crate::seat_state::SeatState;
use crate::seats::arrange;
use atomic_table::{Play, Refused, Seat, Table, TableRule};
use live_segment::Opener;
use owned_recorder::OwnedRecorder;
use std::alloc::{AllocError, Global};

// What a seat knows: an opener of the segment; whether it is the keeper's; a number that the mailbox has had; and what
// the thread has done at that.
pub(crate) type Note = (Opener, bool, u64, SeatState);

/// A seat of a mailbox.
pub(crate) type MailboxSeat = Seat<Option<OwnedRecorder>, Note>;

// Each step adds 1 to a mailbox's number. It is odd while a thread reaches into the mailbox. Of the even numbers, a
// recorder is there at those that are not a multiple of 4.
const FIRST: u64 = 0;

// No recorder is laid in a mailbox from here on.
const LAST: u64 = 0x1000_0000_0000_0000;

// Its key is an opener of the segment.
pub(crate) struct MailboxRule;

impl TableRule<Option<OwnedRecorder>, Note, Opener> for MailboxRule {
    ghost holds = { IsMailbox };

    ghost first = { begins };
}

// A thread that knows nothing yet looks at the number.
struct Look;

impl Play<Option<OwnedRecorder>, Note> for Look {
    ghost then = { λ _ before _ after. after.0 ≡ stranger before.0.0 };
}

// A thread that knows something looks at the number.
struct See;

impl Play<Option<OwnedRecorder>, Note> for See {
    ghost then = { λ _ before found after. (after ≡ before) × FitsNumber found before.0 };
}

// What is in the mailbox is taken, if its number is the one that was looked for.
struct Reach;

impl Play<Option<OwnedRecorder>, Note> for Reach {
    ghost then = { λ step before found after. HasReached step.first before found after };
}

// Something is put there.
struct Put;

impl Play<Option<OwnedRecorder>, Note> for Put {
    ghost then = { λ _ before number after. IsPut number before after };
}

/// A place in which a recorder lies, or none.
#[derive(Drop)]
pub struct Mailbox {
    table: Table<Option<OwnedRecorder>, Note, Opener, MailboxRule, Global>,
    ghost sized: { (table.shared.table_id.words ≡ 1) × (table.shared.table_id.slots ≡ 1) },
}

impl Mailbox {
    /// It has none. With its keeper's seat.
    pub(crate) fn new(alloc: Global, opener: &Opener) -> Result<(Mailbox, MailboxSeat), AllocError>
        ensures { IfOk result (λ made. (made.0.table.shared.key ≡ opener.now) × IsKeeper made.0.table.shared.table_id made.0.table.shared.key made.1) }
    {
        let mut slots = Vec::with_capacity(alloc, 1)?;
        slots.push_reserved(None);
        match Table::new(alloc, &[FIRST], slots, opener) {
            Ok((table, keeper)) => Ok((Mailbox { table }, keeper)),
            Err(Refused { slots: _ }) => Err(AllocError),
        }
    }

    /// Its number, and a seat that knows nothing of it.
    pub(crate) fn look(&self) -> (u64, MailboxSeat)
        ensures { (result.1.table_id ≡ self.now.table.shared.table_id) × (result.1.me.0 ≡ stranger self.now.table.shared.key) × (result.1.me.1 ≡ []) }
    {
        self.table.shared.load_new_seat::<Look>(0)
    }

    // Puts a recorder or none there at a number, and takes what was there. If the mailbox has another number, it does
    // nothing, and returns what it was given to put there.
    fn replace(
        &self,
        seat: &mut MailboxSeat,
        number: u64,
        recorder: Option<OwnedRecorder>,
    ) -> Result<Option<OwnedRecorder>, Option<OwnedRecorder>>
        requires number { (number % 2 ≡ 0) × (number < 2 ^ 61) }
        requires seat { (seat.old.table_id ≡ self.now.table.shared.table_id) × (seat.old.me.1 ≡ []) }
        requires may { MayReachInto number seat.old.me.0 }
        requires passed { IsOfOpener self.now.table.shared.key recorder }
        requires right { IsRight (number + 2) recorder }
        ensures { Replaces number recorder seat.old result seat.new }
    {
        let shared = &self.table.shared;
        let seen = shared.compare_exchange::<Reach>(seat, 0, number, number + 1);
        if seen != number {
            return Err(recorder);
        }
        let found = shared.exchange(seat, 0, recorder);
        shared.store::<Put>(seat, 0, number + 2);
        Ok(found)
    }

    // The same: by the keeper's seat if that is of this mailbox, and otherwise by the other seat, which is.
    fn replace_by(
        &self,
        keeper: &mut MailboxSeat,
        seat: &mut MailboxSeat,
        number: u64,
        recorder: Option<OwnedRecorder>,
    ) -> Result<Option<OwnedRecorder>, Option<OwnedRecorder>>
        requires number { (number % 2 ≡ 0) × (number < 2 ^ 61) }
        requires seats { (keeper.old.me.1 ≡ []) × (seat.old.table_id ≡ self.now.table.shared.table_id) × (seat.old.me.1 ≡ []) }
        requires may { MayReachBy number (keeper.old, seat.old) }
        requires passed { IsOfOpener self.now.table.shared.key recorder }
        requires right { IsRight (number + 2) recorder }
        ensures { ReplacesBy number recorder (keeper.old, seat.old) result (keeper.new, seat.new) }
    {
        arrange(keeper, seat);
        let answer = self.replace(keeper, number, recorder);
        arrange(keeper, seat);
        answer
    }

    // Takes the recorder that is there, by its keeper's seat.
    fn take(&self, keeper: &mut MailboxSeat) -> Option<OwnedRecorder>
        requires keeper { (keeper.old.table_id ≡ self.now.table.shared.table_id) × (keeper.old.me.1 ≡ []) × (keeper.old.me.0.1 ≡ true) }
        requires may { MayTake keeper.old.me.0.2 keeper.old.me.0.3 }
        ensures { KeeperTakes keeper.old result keeper.new }
    {
        let number = self.table.shared.load::<See>(keeper, 0);
        if number % 4 != 2 || number >= LAST + 4 {
            return None;
        }
        match self.replace(keeper, number, None) {
            Ok(found) => found,
            Err(_) => None,
        }
    }

    /// Lays a recorder in its own mailbox, takes what is in this one, and takes the recorder back if it is still in its
    /// own mailbox. Returns what was taken here, and the recorder if it is back; if it is not, `gone` is the seat that
    /// had laid it. Or its mailbox was in use: the error is the recorder.
    pub(crate) fn pass(
        &self,
        keeper: &mut MailboxSeat,
        gone: &mut MailboxSeat,
        from: &Mailbox,
        recorder: OwnedRecorder,
    ) -> Result<(Option<OwnedRecorder>, Option<OwnedRecorder>), OwnedRecorder>
        requires keeper { IsKeeper self.now.table.shared.table_id self.now.table.shared.key keeper.old }
        requires passed { BelongsTo recorder from.now.table.shared.key }
        ensures keeper { IsKeeper self.now.table.shared.table_id self.now.table.shared.key keeper.new }
        ensures passes { Passes from.now.table.shared.table_id self.now.table.shared.table_id self.now.table.shared.key recorder (keeper.old, gone.old) result (keeper.new, gone.new) }
    {
        let (number, mut seat) = from.look();
        if number % 4 != 0 || number >= LAST {
            return Err(recorder);
        }
        match from.replace_by(keeper, &mut seat, number, Some(recorder)) {
            Ok(None) => {}
            Err(Some(recorder)) => return Err(recorder),
            Ok(Some(_)) | Err(None) => unreachable!(),
        }
        let met = self.take(keeper);
        match from.replace_by(keeper, &mut seat, number + 2, None) {
            Ok(back) => Ok((met, back)),
            Err(_) => {
                *gone = seat;
                Ok((met, None))
            }
        }
    }
}
