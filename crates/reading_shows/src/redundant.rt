//! The lines of a histogram whose redundant count differs from its units.

ghost use Rattle.std.specs.Prelude.{◌≡◌, ◌++◌, OnOk};
ghost use Rattle.image_reader.specs.Readable.{IsReadable};
ghost use Rattle.image_reader.specs.Views.{histogram_view};
ghost use Rattle.reading_shows.specs.Showing.{meanwhile_line, redundant_line, redundant_text};

use image_reader::HistReading;
use reading_overviews::put_number;
use reading_texts::units;
use std::alloc::AllocError;
use text_styles::Style;

// Puts the line of these units, which were counted a second time.
fn put_redundant_text(text: &mut Vec<u8>, is_human: bool, units: u64) -> Result<(), AllocError>
    ensures { OnOk result (text.new.items ≡ text.old.items ++ redundant_text is_human units) }
{
    text.extend_from_slice(b"  counted once more: ")?;
    put_number(text, is_human, units)?;
    text.extend_from_slice(b"\n")?;
    Ok(())
}

// Puts this line for a histogram, if it is asked for and the redundant count differs from the units.
pub(crate) fn put_redundant(
    text: &mut Vec<u8>,
    style: Style,
    hist: &HistReading,
) -> Result<(), AllocError>
    requires { IsReadable (histogram_view hist.now) }
    ensures { OnOk result (text.new.items ≡ text.old.items ++ redundant_line style (histogram_view hist.now)) }
{
    if style.shows_redundant && hist.redundant != units(hist) {
        put_redundant_text(text, style.is_human, hist.redundant)?;
    }
    Ok(())
}

// Puts the line that says that a histogram was counted in meanwhile, if it is asked for and the redundant count differs
// from the units.
pub(crate) fn put_meanwhile(
    text: &mut Vec<u8>,
    style: Style,
    hist: &HistReading,
) -> Result<(), AllocError>
    requires { IsReadable (histogram_view hist.now) }
    ensures { OnOk result (text.new.items ≡ text.old.items ++ meanwhile_line style (histogram_view hist.now)) }
{
    if style.marks_meanwhile && hist.redundant != units(hist) {
        text.extend_from_slice(b"  counted meanwhile\n")?;
    }
    Ok(())
}
