//! An opener makes recorders that keep their segment alive, lends them units, and takes them back.

ghost use Rattle.std.specs.Prelude.{◌≡◌, IfOk};
ghost use Rattle.std.specs.Arc.{arc_value};
ghost use Rattle.live_segment.specs.Opener.{MakesRecorder, GivesUnits, TakesBack, IsMadeWithSame, LendsUnits};
ghost use Rattle.live_segment.specs.Holders.{IsMadeWith, view_of_opener};
ghost use Rattle.owned_recorder.specs.Holders.{AnswersOwned, IsRecorderOf, OwnedGetsUnits, RecordsInto, view_of_owned};

use crate::owned::OwnedRecorder;
use live_segment::{Opener, Segment};
use segment_calls::Refusal;
use std::alloc::Global;
use std::sync::Arc;

/// Makes a recorder with this many units that keeps the segment alive, as [`Opener::recorder`] makes one that borrows
/// it: the opener has these units no longer [mine]; the recorder is of this segment, has done nothing, knows no
/// histogram, and has seen what the opener has; or the first cause is returned, `NoUnits` or `TooMany` [theirs]. It
/// records into the segment [into], and the opener stays that of the segment [made].
pub fn owned_recorder(
    opener: &mut Opener,
    segment: Arc<Segment, Global>,
    units: u32,
) -> Result<OwnedRecorder, Refusal>
    requires { IsMadeWith (arc_value segment) opener.old }
    ensures made { IsMadeWith (arc_value segment) opener.new }
    ensures into { IfOk result (RecordsInto (arc_value segment)) }
    ensures mine { MakesRecorder units opener.old result opener.new }
    ensures theirs { AnswersOwned segment units opener.old result }
{
    let state = opener.recorder_state(&segment, units)?;
    Ok(OwnedRecorder { segment, state })
}

/// Lends a recorder this many more units while it runs, as [`Opener::lend`] does: the opener has as many fewer [mine]
/// and the recorder as many more [theirs]; `NoUnits` comes exactly if the opener has fewer, and then both are unchanged
/// [why, mine, theirs]. The recorder keeps its segment [kept] and is still one of the opener's [of], and the opener
/// stays that of its segment [made].
pub fn lend(opener: &mut Opener, owned: &mut OwnedRecorder, units: u32) -> Result<(), Refusal>
    requires { IsRecorderOf owned.old opener.old }
    ensures kept { owned.new.segment ≡ owned.old.segment }
    ensures mine { GivesUnits units opener.old result opener.new }
    ensures theirs { OwnedGetsUnits units owned.old result owned.new }
    ensures why { LendsUnits units (view_of_opener opener.old) result }
    ensures of { IsRecorderOf owned.new opener.new }
    ensures made { IsMadeWithSame opener.old opener.new }
{
    opener.lend_state(&owned.segment, &mut owned.state, units)
}

/// Takes a recorder back, as [`Opener::join`] does [takes]. The opener stays that of its segment [made]. If nobody else
/// keeps the segment alive, it ends.
pub fn join(opener: &mut Opener, owned: OwnedRecorder)
    requires { IsRecorderOf owned opener.old }
    ensures takes { TakesBack opener.old (view_of_owned owned) opener.new }
    ensures made { IsMadeWithSame opener.old opener.new }
{
    let OwnedRecorder { segment, state } = owned;
    opener.join_state(&segment, state);
}
