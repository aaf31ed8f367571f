//! The histograms of a script are made.

ghost use Rattle.std.specs.Prelude.{◌≡◌, map, IfErr, OnOk};
ghost use Rattle.live_segment.specs.Holders.{IsMadeWith, view_of_opener, view_of_recorder};
ghost use Rattle.persist_report_core.specs.Script.{hist_view};
ghost use Rattle.persist_commands.specs.Recording.{HasAsked, HasOpened};
ghost use Rattle.persist_commands.specs.Stop.{StopTellsWant};

use crate::stop::Stop;
use live_segment::{Opener, Recorder, Segment};
use persist_report_core::ScriptHist;

// Asks for the histograms of `hist` records in their order, up to the first that is refused.
fn ask_all(recorder: &mut Recorder, hists: &[ScriptHist]) -> Result<(), Stop>
    ensures kept { recorder.new.segment ≡ recorder.old.segment }
    ensures tells { IfErr result StopTellsWant }
    ensures asked { OnOk result (HasAsked (map hist_view hists.now) (view_of_recorder recorder.old) (view_of_recorder recorder.new)) }
{
    for hist in hists {
        if let Err(why) = recorder.hist(&hist.name, &hist.spec) {
            return Err(Stop::refused(hist.number, why));
        }
    }
    Ok(())
}

/// Makes the histograms of `hist` records, by a recorder without units.
pub(crate) fn make_histograms(
    segment: &Segment,
    opener: &mut Opener,
    hists: &[ScriptHist],
) -> Result<(), Stop>
    requires made { IsMadeWith segment.now opener.old }
    ensures made { IsMadeWith segment.now opener.new }
    ensures tells { IfErr result StopTellsWant }
    ensures opened { OnOk result (HasOpened (map hist_view hists.now) (view_of_opener opener.old) (view_of_opener opener.new)) }
{
    let mut recorder = match opener.recorder(segment, 0) {
        Ok(recorder) => recorder,
        Err(why) => return Err(Stop::refused(1, why)),
    };
    ask_all(&mut recorder, hists)?;
    opener.join(recorder);
    Ok(())
}
