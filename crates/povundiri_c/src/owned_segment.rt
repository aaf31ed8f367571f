//! A segment that C holds.

ghost use Rattle.std.specs.Arc.{arc_value};
ghost use Rattle.std.specs.Prelude.{◌≡◌};
ghost use Rattle.live_segment.specs.Holders.{IsMadeWith, view_of_opener};
ghost use Rattle.segment_machine.specs.Actor.{outstanding_of};
ghost use Rattle.povundiri_c.specs.Mailbox.{IsKeeper, cursors_of};

mod passing;

use crate::joinable_recorder::JoinableRecorder;
use crate::mailbox::{Mailbox, MailboxSeat};
use crate::status::{NO_MEMORY, Refused, SHORT, of_look_fault, of_refusal};
use live_segment::{Image, Opener, Segment};
use owned_recorder::owned_recorder;
use std::alloc::{AllocError, Global};
use std::sync::Arc;

/// What a recorder is passed to its segment for: to be taken back, or to be lent this many more units.
#[derive(Clone, Copy)]
pub(crate) enum JoinOrLend {
    Join,
    Lend(u32),
}

/// A segment, its opener, which makes its recorders, and its mailbox.
#[derive(Drop)]
pub struct OwnedSegment {
    segment: Arc<Segment, Global>,
    opener: Opener,
    mailbox: Arc<Mailbox, Global>,
    // The keeper's seat of the mailbox, which nobody else has.
    keeper: MailboxSeat,
    // The seat that had laid the last recorder which another segment took from its own mailbox.
    gone: MailboxSeat,
    // How many cursors the recorders share.
    cursors: usize,
    ghost made: { IsMadeWith (arc_value segment) opener },
    ghost first: { IsMadeWith (arc_value segment) (arc_value mailbox).table.shared.key },
    ghost keeps: { IsKeeper (arc_value mailbox).table.shared.table_id (arc_value mailbox).table.shared.key keeper },
    ghost counted: { cursors ≡ cursors_of (arc_value mailbox).table.shared.key },
}

impl OwnedSegment {
    ghost use Rattle.std.specs.Prelude.{IfOk, MatchResult};
    ghost use Rattle.povundiri_c.specs.Joins.{GivesRecorder};
    ghost use Rattle.povundiri_c.specs.Looks.{IsLookOfOwned};
    ghost use Rattle.povundiri_c.specs.Segments.{IsImageFrom, size_of};

    /// Owns a segment and the opener that was made with it.
    #[tactic(auto, using(crate::proofs::Holding::counts))]
    pub(crate) fn new(
        alloc: Global,
        segment: Segment,
        opener: Opener,
        cursors: usize,
    ) -> Result<OwnedSegment, AllocError>
        requires made { IsMadeWith segment opener }
        requires counted { cursors ≡ segment.setting.cursors }
        ensures { IfOk result (λ owned. (arc_value owned.segment ≡ segment) × (owned.opener ≡ opener)) }
    {
        let (mailbox, keeper) = Mailbox::new(alloc, &opener)?;
        let (_number, gone) = mailbox.look();
        let mailbox = Arc::new(alloc, mailbox)?;
        let segment = Arc::new(alloc, segment)?;
        Ok(OwnedSegment {
            segment,
            opener,
            mailbox,
            keeper,
            gone,
            cursors,
        })
    }

    /// How many words its image has.
    pub(crate) fn size(&self) -> u64
        ensures { result ≡ size_of self.now }
    {
        self.segment.size()
    }

    /// The units that it has left to give.
    pub(crate) fn units(&self) -> u32
        ensures { result ≡ (view_of_opener self.now.opener).units.share }
    {
        self.opener.units()
    }

    /// How many recorders were made and are not joined.
    pub(crate) fn outstanding(&self) -> u32
        ensures { result ≡ outstanding_of (view_of_opener self.now.opener).role }
    {
        self.opener.outstanding()
    }

    /// A recorder with this many units; or why there is none.
    pub(crate) fn recorder(&mut self, units: u32) -> Result<JoinableRecorder, u32>
        ensures { GivesRecorder units self.old result self.new }
    {
        let Ok(segment) = Arc::try_clone(&self.segment) else {
            return Err(NO_MEMORY);
        };
        let Ok(mailbox) = Arc::try_clone(&self.mailbox) else {
            return Err(NO_MEMORY);
        };
        match owned_recorder(&mut self.opener, segment, units) {
            Ok(owned) => Ok(JoinableRecorder {
                owned,
                mailbox,
                cursors: self.cursors,
            }),
            Err(why) => Err(of_refusal(why)),
        }
    }

    /// A look at the segment, if there is room for its words.
    pub(crate) fn look(&self, alloc: Global, room: usize) -> Result<Image, Refused>
        ensures { IsLookOfOwned room self.now result }
    {
        let size = self.size() as usize;
        if room < size {
            return Err(Refused {
                status: SHORT,
                length: size,
            });
        }
        match self.segment.look(alloc) {
            Ok(image) => Ok(image),
            Err(fault) => Err(Refused::of(of_look_fault(fault))),
        }
    }

    /// Ends the segment, if no recorder is left.
    pub(crate) fn close(self) -> Result<Image, OwnedSegment>
        ensures { MatchResult result (IsImageFrom (arc_value self.segment) self.opener) (λ owned. owned ≡ self) }
    {
        let OwnedSegment {
            segment,
            opener,
            mailbox,
            keeper,
            gone,
            cursors,
        } = self;
        match Arc::try_unwrap(segment) {
            Ok(segment) => Ok(segment.close(opener)),
            Err(segment) => Err(OwnedSegment {
                segment,
                opener,
                mailbox,
                keeper,
                gone,
                cursors,
            }),
        }
    }
}
