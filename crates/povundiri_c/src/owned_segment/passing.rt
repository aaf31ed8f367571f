//! How a segment takes a recorder back, or lends it units. Both find out in the same way that the recorder is its own.

ghost use Rattle.std.specs.Arc.{arc_value};
ghost use Rattle.std.specs.Prelude.{◌≡◌, ◌≤◌, MatchOption, MatchResult};
ghost use Rattle.povundiri_c.specs.Joins.{HasJoined, IsRecorderFound, IsLendDone, IsNotFound, Joins, Lends, JoinsOrLends, units_left};
ghost use Rattle.povundiri_c.specs.Mailbox.{BelongsTo, IsOfOpener};

use crate::joinable_recorder::JoinableRecorder;
use crate::mailbox::Mailbox;
use crate::owned_segment::{JoinOrLend, OwnedSegment};
use crate::status::{BUSY, DONE, ELSEWHERE, NO_MEMORY, OTHER_SEGMENT, of_refusal};
use live_segment::Refusal;
use owned_recorder::{OwnedRecorder, join, lend};
use std::alloc::Global;
use std::sync::Arc;

impl OwnedSegment {
    // Takes back the recorder that was found in its mailbox, if one was.
    fn join_met(&mut self, met: Option<OwnedRecorder>)
        requires { IsOfOpener (arc_value self.old.mailbox).table.shared.key met }
        ensures gone { self.new.gone ≡ self.old.gone }
        ensures met { MatchOption met (self.new ≡ self.old) (λ owned. HasJoined owned self.old self.new) }
    {
        let Some(owned) = met else {
            return;
        };
        join(&mut self.opener, owned);
    }

    // Passes a recorder from its own mailbox to the segment's: the recorder of the segment that is found there. Or the
    // status, and the recorder if it comes back.
    fn find(
        &mut self,
        joinable: JoinableRecorder,
    ) -> Result<OwnedRecorder, (u32, Option<JoinableRecorder>)>
        ensures { MatchResult result (λ found. IsRecorderFound joinable found self.old self.new) (λ refused. IsNotFound joinable self.old refused.0 refused.1 self.new) }
    {
        let JoinableRecorder {
            owned,
            mailbox,
            cursors,
        } = joinable;
        let passed = self
            .mailbox
            .pass(&mut self.keeper, &mut self.gone, &mailbox, owned);
        match passed {
            Ok((met, back)) => match back {
                Some(owned) => {
                    self.join_met(met);
                    let joinable = JoinableRecorder {
                        owned,
                        mailbox,
                        cursors,
                    };
                    Err((OTHER_SEGMENT, Some(joinable)))
                }
                None => match met {
                    Some(found) => Ok(found),
                    None => Err((ELSEWHERE, None)),
                },
            },
            Err(owned) => {
                let joinable = JoinableRecorder {
                    owned,
                    mailbox,
                    cursors,
                };
                Err((BUSY, Some(joinable)))
            }
        }
    }

    // Takes a recorder back.
    fn join(&mut self, joinable: JoinableRecorder) -> (u32, Option<JoinableRecorder>)
        ensures { Joins joinable self.old result.0 result.1 self.new }
    {
        match self.find(joinable) {
            Ok(found) => {
                self.join_met(Some(found));
                (DONE, None)
            }
            Err(refused) => refused,
        }
    }

    // Lends units to a recorder of its own, which comes back with the mailbox.
    fn lend_found(
        &mut self,
        mut owned: OwnedRecorder,
        mailbox: Arc<Mailbox, Global>,
        units: u32,
    ) -> (u32, Option<JoinableRecorder>)
        requires own { BelongsTo owned (arc_value self.old.mailbox).table.shared.key }
        requires mailbox { arc_value mailbox ≡ arc_value self.old.mailbox }
        requires enough { units ≤ units_left self.old }
        ensures gone { self.new.gone ≡ self.old.gone }
        ensures lends { IsLendDone units owned self.old result.0 result.1 self.new }
    {
        let Ok(()) = lend(&mut self.opener, &mut owned, units) else {
            unreachable!()
        };
        let joinable = JoinableRecorder {
            owned,
            mailbox,
            cursors: self.cursors,
        };
        (DONE, Some(joinable))
    }

    // Lends a recorder this many more units.
    fn lend(&mut self, joinable: JoinableRecorder, units: u32) -> (u32, Option<JoinableRecorder>)
        ensures { Lends units joinable self.old result.0 result.1 self.new }
    {
        if units > self.opener.units() {
            return (of_refusal(Refusal::NoUnits), Some(joinable));
        }
        let Ok(mailbox) = Arc::try_clone(&self.mailbox) else {
            return (NO_MEMORY, Some(joinable));
        };
        match self.find(joinable) {
            Ok(found) => self.lend_found(found, mailbox, units),
            Err(refused) => refused,
        }
    }

    /// Does what a recorder is passed for. Returns the status, and the recorder if it comes back.
    pub(crate) fn serve(
        &mut self,
        joinable: JoinableRecorder,
        request: JoinOrLend,
    ) -> (u32, Option<JoinableRecorder>)
        ensures { JoinsOrLends request joinable self.old result.0 result.1 self.new }
    {
        match request {
            JoinOrLend::Join => self.join(joinable),
            JoinOrLend::Lend(units) => self.lend(joinable, units),
        }
    }
}
