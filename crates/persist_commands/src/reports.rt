//! The report that a command writes after an image.

ghost use Rattle.std.specs.Prelude.{◌≡◌, Ok, IfOk, IfErr};
ghost use Rattle.segment_image.specs.Head.{header_of, head_of};
ghost use Rattle.persist_commands.specs.Run.{IsReportOfImage};

use persist_report_core::{CliFault, report_text};
use std::alloc::Global;

/// Returns the text of the report of an image.
pub(crate) fn text_of_image(alloc: Global, words: &[u64]) -> Result<Vec<u8>, CliFault>
    requires { header_of words.now ≡ Ok (head_of words.now) }
    ensures text { IfOk result (λ text. IsReportOfImage words.now text.items) }
    ensures fault { IfErr result (λ fault. fault ≡ CliFault.NoMemory) }
{
    let reading = image_reader::read(alloc, words)?;
    Ok(report_text(alloc, &reading)?)
}
