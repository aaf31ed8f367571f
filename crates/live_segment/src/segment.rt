//! One segment, from its first words to its last.

ghost use Rattle.std.specs.Prelude.{◌≡◌, ◌+◌, ◌≤◌, ◌∷◌, [], IfOk, vec_len};
ghost use Rattle.alloc_core.specs.Layout.{IsShape};
ghost use Rattle.segment_machine.specs.State.{memory};
ghost use Rattle.segment_machine.specs.Reached.{new_state};

use crate::opener::Opener;
use crate::rule::{Announcement, Opening, Pass, SegmentRule, Setting};
use crate::seats::{Bound, Cut, Fill, Glue, Offer, Pour};
use atomic_table::Table;
use bucket_ranges::limits::MAX_UNITS;
use image_adoption::MAX_CURSORS;
use segment_calls::OpenFault;
use segment_image::layout::{QUEUE, VERSION_FROZEN, VERSION_MOVING};
use segment_image::{Image, Shape, ready_header};
use segment_machine::Actor;
use segment_memory::Memory;
use std::alloc::{AllocError, Global};

/// A segment whose words threads share. Word 0 of its table never changes, and the segment's words and those of the
/// shared cursors come after it.
#[derive(Drop)]
pub struct Segment {
    pub(crate) table: Table<Announcement, Actor, Opening, SegmentRule, Memory>,
    pub(crate) setting: Setting,
    // Where the words go when it is closed.
    image: Vec<u64>,
    ghost keyed: { table.shared.key.setting ≡ setting },
    ghost counts: { (table.shared.table_id.words ≡ setting.shape.size + 1 + setting.cursors) × (table.shared.table_id.slots ≡ 0) },
    ghost room: { vec_len image ≡ setting.shape.size + 1 + setting.cursors },
    ghost shaped: { IsShape setting.shape },
}

// The words of the table of a new segment.
fn opening_words(alloc: Global, setting: &Setting) -> Result<Vec<u64>, AllocError>
    requires shaped { IsShape setting.now.shape }
    requires few { setting.now.cursors ≤ 8 }
    ensures { IfOk result (λ words. words.items ≡ 0 ∷ memory (new_state setting.now.shape setting.now.version setting.now.id setting.now.cursors)) }
{
    let size = setting.shape.size() as usize;
    let mut words = Vec::with_capacity(alloc, size + 1 + setting.cursors)?;
    words.push(0)?;
    words.extend_from_slice(&ready_header(setting.shape, setting.version, setting.id))?;
    words.resize(size + 1, 0)?;
    words.resize(size + 1 + setting.cursors, QUEUE)?;
    Ok(words)
}

impl Segment {
    ghost use Rattle.std.specs.Prelude.{◌≡◌, ◌≤◌, ◌⊎◌, false, Err};
    ghost use Rattle.segment_machine.specs.Actor.{offered_of};
    ghost use Rattle.segment_machine.specs.Seats.{MayOffer, offering, MaySplit, parent, newcomer, MayFill, lender, purse, MayPour, getter, joined};
    ghost use Rattle.live_segment.specs.Adopted.{MayGoOn};
    ghost use Rattle.live_segment.specs.Closing.{IsImageOf, IsRisenBy, ReadsJoined, DeltasAddUp, SnapshotsAgree, GaveFronts, ReadsStopped};
    ghost use Rattle.live_segment.specs.Rule.{IsKeptOpening, opener_for, words_of};
    ghost use Rattle.live_segment.specs.Seated.{IsSeated};
    ghost use Rattle.live_segment.specs.Steps.{IsAtRest, IsSame, Joinable};
    ghost use Rattle.live_segment.specs.Holders.{AllJoined, AnswersCreate, IsNew, IsOpened, IsMadeWith, opened_with, view_of_opener};

    /// Returns a new segment without records, and its opener, which has all 4,294,967,295 units. Its words are those of
    /// a blank image, except for the version.
    ///
    /// - `size`: how many words of 64 bits it has, 16 of them for the header. Whole pages, 1,048,576 words at most. It
    ///   does not grow: if a record finds no room, its call is refused as `Full`.
    /// - `page`: how many words a page has. A multiple of 16, from 64 to 65,536. A block lies in one page, so a
    ///   record of more words is refused as `TooLarge`, and so are counts: a histogram of n buckets takes 4 + 2n
    ///   words for them.
    /// - `id`: any number. It is in the header of the image, for a caller that has to distinguish segments; no call
    ///   looks at it.
    /// - `cursors`: how many cursors along the list the recorders share
    ///   ([`Recorder::next_shared`](crate::Recorder::next_shared)), 0 to [`MAX_CURSORS`]. They are numbered from 0, and
    ///   are no part of the image. Use 0 if no thread reads what others record.
    /// - `version`: which format the image has. [`VERSION_FROZEN`](crate::VERSION_FROZEN), 2, unless a reader that
    ///   knows only [`VERSION_MOVING`](crate::VERSION_MOVING), 1, is to read it. In version 1 units move out of a
    ///   packed bucket when a histogram gets counts, and those of a thread that stops in between are missing in the
    ///   image; in version 2 no unit moves.
    ///
    /// Else the first fault is returned: `BadShape` if page, size or version is not valid, `BadCursors` if there are to
    /// be more than eight; then `NoMemory`.
    pub fn create(
        alloc: Global,
        size: u64,
        page: u64,
        id: u64,
        cursors: usize,
        version: u64,
    ) -> Result<(Segment, Opener), OpenFault>
        ensures { AnswersCreate size page id cursors version result }
    {
        Segment::create_in(
            alloc,
            Memory::of_heap(alloc),
            size,
            page,
            id,
            cursors,
            version,
        )
    }

    /// The same, with its words in this memory, after one more word: in a room that is lent they begin at its byte 8,
    /// and it has to have 8 bytes for each word and each cursor, and 8 more. `NoMemory` also if it has fewer.
    ///
    /// When the segment is closed or dropped, the room is with its [`Lender`](crate::Lender) again.
    pub fn create_in(
        alloc: Global,
        memory: Memory,
        size: u64,
        page: u64,
        id: u64,
        cursors: usize,
        version: u64,
    ) -> Result<(Segment, Opener), OpenFault>
        ensures { AnswersCreate size page id cursors version result }
    {
        let Ok(shape) = Shape::of(size, page) else {
            return Err(OpenFault::BadShape);
        };
        if version != VERSION_MOVING && version != VERSION_FROZEN {
            return Err(OpenFault::BadShape);
        }
        if cursors > MAX_CURSORS {
            return Err(OpenFault::BadCursors);
        }
        let setting = Setting {
            shape,
            version,
            id,
            cursors,
            full: false,
        };
        Segment::new(alloc, memory, setting).map_err(|_| OpenFault::NoMemory)
    }

    // The segment that is made with this setting.
    fn new(alloc: Global, memory: Memory, setting: Setting) -> Result<(Segment, Opener), AllocError>
        requires shaped { IsShape setting.shape }
        requires few { setting.cursors ≤ 8 }
        requires versioned { (setting.version ≡ 1) ⊎ (setting.version ≡ 2) }
        requires empty { setting.full ≡ false }
        ensures { IfOk result (λ made. IsNew setting made.0 made.1) }
    {
        let words = opening_words(alloc, &setting)?;
        let references = Vec::new(alloc);
        let opening = Opening {
            setting,
            words,
            references,
        };
        Segment::open(alloc, memory, opening, MAX_UNITS as u32)
    }

    // The segment with this opening, a new one or that of an image, and its opener, which has these units.
    pub(crate) fn open(
        alloc: Global,
        memory: Memory,
        opening: Opening,
        units: u32,
    ) -> Result<(Segment, Opener), AllocError>
        requires kept { IsKeptOpening opening }
        requires units { units ≡ (opener_for opening).units.share }
        ensures { IfOk result (λ made. IsOpened opening.setting (words_of opening) (opener_for opening) made.0 made.1) }
    {
        let (table, seat) = Table::of_words(memory, opening.words.as_slice(), &opening)?;
        let segment = Segment {
            table,
            setting: opening.setting,
            image: opening.words,
        };
        Ok((segment, Opener::new(alloc, seat, units)))
    }

    /// Returns how many words it has: as many as its image.
    pub fn size(&self) -> u64
        ensures { result ≡ self.now.setting.shape.size }
    {
        self.setting.shape.size()
    }

    /// Ends the segment, which no recorder holds any more, and returns its image. The opener was made with it. An
    /// image of version 2 that nobody marked as corrupt may be adopted, joined or not: it can be recorded into again,
    /// by [`Segment::adopt`] [goes_on].
    ///
    /// The image has a valid header, with the shape, the version and the id that the segment was opened as, and a
    /// reading [image].
    ///
    /// If all recorders are joined:
    ///
    /// - A reading of the image has no bad record, and the list does not stop. Its names are exactly those that the
    ///   segment was opened with and that `hist` returned, each once, with the spec of each. The units of each key and
    ///   the sum of each histogram are what the opener's log adds up to, which begins with what the segment was opened
    ///   with: for a new one nothing. The redundant count is that of the opening and the units since. Marks and sum
    ///   mark are what deltas took. The id is that of the opening. The corrupt flag is set exactly if a call has set
    ///   it; the full one also if the segment was opened with it, which a new one is not [joined].
    /// - After a final delta of a histogram, all deltas together took its totals and its sum. For a delta whose
    ///   recorder was made when none was outstanding, and is the last that was made, the deltas up to it took exactly
    ///   what the log before it adds up to [deltas].
    /// - No bucket of any snapshot is above its total; a final snapshot has the totals, the sum and the redundant
    ///   count [snapshots].
    /// - What each shared cursor gave all recorders is a front of the image's list, each record once [given].
    ///
    /// The free pointer is where it was at the opening, and higher by the rises that the opener and the recorders that
    /// it joined have noted: exactly that if all are joined, else at least that. So as much room is left as the calls
    /// have left [risen].
    ///
    /// Whether all are joined or not, the image is that of a kept state to which a segment came that was opened with
    /// the words of this one. In that state the opener has done and seen what it had, and the image's reading is as
    /// `stopped_reads` says of it. So words 9 to 11 and the other bits of the flags are those of the opening; and the
    /// records that were listed then are first on the list, also those of other types and the later ones of a name,
    /// with the words that they had. What each shared cursor gave all recorders of that state is a front of the list.
    /// Each histogram that a joined recorder knows is read. The total of each key, in version 1 with the
    /// units in transit, is at least what the opener's log has. All units beyond the log are at most those that were
    /// handed out and have not come back. The opener knows the redundant counts of the opening [stopped].
    pub fn close(self, opener: Opener) -> Image
        requires { IsMadeWith self opener }
        ensures image { IsImageOf self.setting result }
        ensures joined { AllJoined opener → ReadsJoined self.setting (view_of_opener opener) result }
        ensures deltas { AllJoined opener → DeltasAddUp (view_of_opener opener) }
        ensures snapshots { AllJoined opener → SnapshotsAgree (view_of_opener opener) }
        ensures given { AllJoined opener → GaveFronts (view_of_opener opener) result }
        ensures risen { IsRisenBy (opened_with self) (view_of_opener opener) result }
        ensures stopped { ReadsStopped (opened_with self) (view_of_opener opener) result }
        ensures goes_on { MayGoOn result }
    {
        let Segment {
            table,
            setting,
            mut image,
        } = self;
        let closed = table.close_with(opener.into_seat());
        let size = setting.shape.size() as usize;
        for i in 0..size {
            image[i] = closed.word(i + 1);
        }
        closed.free();
        image.truncate(size);
        Image::of(image)
    }

    // The opener says how many units it is to hand out next.
    pub(crate) fn offer(&self, seat: &mut Pass, units: u32)
        requires fits { seat.old.table_id ≡ self.now.table.shared.table_id }
        requires may { MayOffer seat.old.me.0 units }
        ensures { IsSame seat.old seat.new × (seat.new.me.0 ≡ offering seat.old.me.0 units) }
    {
        let said = Announcement::Units(units);
        self.table
            .shared
            .compare_exchange_with::<Offer>(seat, 0, 0, 0, &said);
    }

    // The seat of that recorder.
    pub(crate) fn split(&self, seat: &mut Pass) -> Pass
        requires fits { seat.old.table_id ≡ self.now.table.shared.table_id }
        requires may { MaySplit seat.old.me.0 }
        ensures mine { IsSame seat.old seat.new × (seat.new.me.0 ≡ parent seat.old.me.0) }
        ensures theirs { (result.table_id ≡ seat.old.table_id) × (result.me ≡ (newcomer seat.old.me.0, [])) }
    {
        self.table.shared.split_seat::<Cut>(seat)
    }

    // A purse with the units that the opener offered.
    pub(crate) fn fill_purse(&self, seat: &mut Pass) -> Pass
        requires fits { seat.old.table_id ≡ self.now.table.shared.table_id }
        requires may { MayFill seat.old.me.0 }
        ensures mine { IsSame seat.old seat.new × (seat.new.me.0 ≡ lender seat.old.me.0) }
        ensures theirs { (result.table_id ≡ seat.old.table_id) × (result.me ≡ (purse (offered_of seat.old.me.0.role), [])) }
    {
        self.table.shared.split_seat::<Fill>(seat)
    }

    // The seat of a recorder takes in a purse.
    pub(crate) fn pour(&self, seat: &mut Pass, filled: Pass)
        requires fits { (seat.old.table_id ≡ self.now.table.shared.table_id) × (filled.table_id ≡ self.now.table.shared.table_id) × (filled.me.1 ≡ []) }
        requires may { MayPour seat.old.me.0 filled.me.0 }
        ensures { IsSame seat.old seat.new × (seat.new.me.0 ≡ getter seat.old.me.0 filled.me.0.units.share) }
    {
        self.table.shared.join_seat::<Pour>(seat, filled);
    }

    // The seat of the opener takes in that of a recorder.
    pub(crate) fn join(&self, seat: &mut Pass, other: Pass)
        requires fits { (seat.old.table_id ≡ self.now.table.shared.table_id) × (other.table_id ≡ self.now.table.shared.table_id) × (other.me.1 ≡ []) }
        requires may { Joinable seat.old.me.0 other.me.0 }
        ensures { IsSame seat.old seat.new × (seat.new.me.0 ≡ joined seat.old.me.0 other.me.0) }
    {
        self.table.shared.join_seat::<Glue>(seat, other);
    }

    // A recorder's seat gets the units of a purse, and they are added to its count of units.
    pub(crate) fn pour_out(&self, seat: &mut Pass, held: &mut u32, filled: Pass, units: u32)
        requires seat { IsSeated self.now seat.old × IsAtRest seat.old.me.0 }
        requires held { held.old ≡ seat.old.me.0.units.share }
        requires filled { (filled.table_id ≡ self.now.table.shared.table_id) × (filled.me ≡ (purse units, [])) }
        ensures seat { IsSame seat.old seat.new × (seat.new.me.0 ≡ getter seat.old.me.0 units) }
        ensures held { held.new ≡ held.old + units }
    {
        self.pour(seat, filled);
        self.bound(seat);
        *held += units;
    }

    // Nobody has more units than a segment has.
    pub(crate) fn bound(&self, seat: &mut Pass)
        requires { seat.old.table_id ≡ self.now.table.shared.table_id }
        ensures same { IsSame seat.old seat.new × (seat.new.me.0 ≡ seat.old.me.0) }
        ensures few { seat.old.me.0.units.share ≤ 4294967295 }
    {
        self.table.shared.load::<Bound>(seat, 0);
    }
}
