//! The calls of a recorder that C has not.

ghost use Rattle.live_segment.specs.Holders.{SharesSegment};

use crate::growths::again::{again, show_refused, show_try};
use anyhow::Result;
use live_segment::{Recorder, Segment, Spec};

// The records that it was not given before.
fn show_fresh(rt: &impl Print, recorder: &mut Recorder) -> Result<()>
    ensures { SharesSegment recorder.old recorder.new }
{
    let fresh = again!(rt, "fresh_records", recorder.fresh_records());
    println!(rt; "{fresh:?}")?;
    Ok(())
}

pub(super) fn show(rt: &(impl Print + AllocGlobal)) -> Result<()> {
    let (segment, mut opener) = Segment::create(rt.alloc(), 1024, 256, 7, 0, 2)?;
    let mut recorder = opener.recorder(&segment, 0)?;
    let histogram = recorder.hist(b"boolean", &Spec::Boolean)?;
    show_try(rt, "knows")?;
    println!(rt; "{}", recorder.knows(histogram))?;
    show_fresh(rt, &mut recorder)?;
    show_fresh(rt, &mut recorder)
}
