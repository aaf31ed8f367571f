//! What is damaged in a reading that still has a text.

ghost use Rattle.std.specs.Prelude.{◌≡◌, ◌↔◌, IsNone, option_map};
ghost use Rattle.image_reader.specs.Views.{reading_view};
ghost use Rattle.persist_report_core.specs.Damage.{damage_of, IsReadWhole};

use crate::fault::CliFault;
use image_reader::Reading;
use segment_image::ImageFault;

// The fault of a list that stopped for this reason, if it did.
fn fault_of_stop(stopped: Option<ImageFault>) -> Option<CliFault>
    ensures { result ≡ option_map CliFault.Stopped stopped }
{
    match stopped {
        Some(fault) => Some(CliFault::Stopped(fault)),
        None => None,
    }
}

/// Returns the fault of a reading that is not whole: `Bad` with its first bad record, or, if no record is bad,
/// `Stopped` with why its list stopped [fault]. Returns none exactly if no record is bad and the list did not stop
/// [whole].
pub fn damage_of(reading: &Reading) -> Option<CliFault>
    ensures fault { result ≡ damage_of (reading_view reading.now) }
    ensures whole { IsNone result ↔ IsReadWhole (reading_view reading.now) }
{
    match reading.bad.first() {
        Some(bad) => Some(CliFault::Bad {
            reference: bad.reference,
            fault: bad.fault,
        }),
        None => fault_of_stop(reading.stopped),
    }
}
