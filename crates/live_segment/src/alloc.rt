//! How a recorder claims a block.

ghost use Rattle.std.specs.Prelude.{◌≡◌, ◌+◌, ◌-◌, ◌<◌, ◌≤◌, true, false, IfOk};
ghost use Rattle.live_segment.specs.Alloc.Prelude.{Allocates, allocating_event, BLOCK_HEADER, claimed, exchange_free, is_bound, IsLost, IsSame, IsSeated, MayGiveUp, MayStep, raised_on, Wastes};

use crate::rule::Pass;
use crate::segment::Segment;
use alloc_core::{Planned, plan};
use segment_calls::Refusal;
use segment_image::layout::{CLAIMED_COOKIE, FLAG_CORRUPT, WASTED_COOKIE};

impl Segment {
    /// Claims a block of a type, of `size` words with its header, or up to four more.
    ///
    /// `Corrupt` if the loaded flags have the corrupt one, `Full` if the words pass the end of the segment: a call that
    /// counts ends with that.
    pub(crate) fn allocate(&self, seat: &mut Pass, size: u64, tag: u64) -> Result<u64, Refusal>
        requires seat { IsSeated self.now seat.old }
        requires free { is_bound seat.old.me.0.hand.place ≡ false }
        requires size { (5 ≤ size) × (size ≤ self.now.setting.shape.page) }
        requires tag { (1 ≤ tag) × (tag ≤ 3) }
        requires closes { MayGiveUp seat.old.me.0 }
        ensures same { IsSame seat.old seat.new }
        ensures unspoiled { IfOk result (λ at. seat.old.me.0.done.spoiled ≡ false) }
        ensures outcome { Allocates size tag seat.old.me.0 result seat.new.me.0 }
    {
        loop {
            if self.load_flags(seat) & FLAG_CORRUPT != 0 {
                return Err(Refusal::Corrupt);
            }
            let free = self.load_free(seat);
            match plan(free, size, self.setting.shape) {
                Planned::Claim { next, .. } => {
                    if self.claim(seat, free, next, size, tag) {
                        return Ok(free);
                    }
                }
                Planned::Waste { room } => self.waste(seat, free, free + room, size),
                Planned::Full => {
                    self.set_full(seat);
                    return Err(Refusal::Full);
                }
            }
        }
    }

    // Takes the words from a free pointer to the next for a block of a type that needs `words` of them; false if
    // another recorder was first.
    fn claim(&self, seat: &mut Pass, free: u64, next: u64, words: u64, tag: u64) -> bool
        requires may { MayStep self.now seat.old (allocating_event (exchange_free free next words)) }
        requires enough { words ≤ next - free }
        requires shape { seat.old.me.0.segment.shape ≡ self.now.setting.shape }
        requires tag { (1 ≤ tag) × (tag ≤ 3) }
        ensures same { IsSame seat.old seat.new }
        ensures done { result ≡ true → seat.new.me.0 ≡ claimed seat.old.me.0 free next tag (raised_on seat.old.me.0 free next words) }
        ensures lost { result ≡ false → IsLost seat.old.me.0 free seat.new.me.0 }
    {
        if self.exchange_free(seat, free, next, words) != free {
            return false;
        }
        self.store_size(seat, free, next - free);
        self.store_cookie(seat, free, CLAIMED_COOKIE);
        self.store_type(seat, free, tag);
        true
    }

    // Gives up the rest of a page, from a free pointer to the next, which is too short for a block that needs `words`
    // words.
    fn waste(&self, seat: &mut Pass, free: u64, next: u64, words: u64)
        requires may { MayStep self.now seat.old (allocating_event (exchange_free free next words)) }
        requires short { next - free < words }
        requires shape { seat.old.me.0.segment.shape ≡ self.now.setting.shape }
        ensures same { IsSame seat.old seat.new }
        ensures outcome { Wastes words free next seat.old.me.0 seat.new.me.0 }
    {
        if self.exchange_free(seat, free, next, words) == free {
            self.store_size(seat, free, next - free);
            self.store_cookie(seat, free, WASTED_COOKIE);
        }
    }
}
