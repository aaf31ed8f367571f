//! The reading of an image, and its report.

ghost use Rattle.std.specs.Prelude.{◌≡◌, ◌≢◌, All, map, true, false, OnOk, IfOk, IfErr, is_err};
ghost use Rattle.std.specs.Io.KnownBytes.{Appends};
ghost use Rattle.segment_image.specs.Words.{bytes_of_words};
ghost use Rattle.segment_image.specs.Watched.{has_failed, is_flushed, watched_inner};
ghost use Rattle.persist_report_core.specs.Report.{IsReadingOf, IsReportOfBytes, IsCausedByImage};
ghost use Rattle.image_reader.specs.Readable.{IsReadable};
ghost use Rattle.image_reader.specs.Views.{histogram_view, reading_view};

use crate::fault::CliFault;
use crate::input::image_in;
use image_reader::Reading;
use reading_texts::report_text;
use segment_image::Watched;
use std::alloc::Global;
use std::io::Write;

/// Returns what the image in the words reads as [reading]; the words are those of a closed image or of a mapped file.
/// In each histogram the spec is valid, each bucket has its count, and the units fit a word [readable].
///
/// The fault is `Image` with the first fault of the image's header [cause], or `NoMemory` if memory runs out; never
/// `Read` or `Write` [other].
pub fn read_image(alloc: Global, words: &[u64]) -> Result<Reading, CliFault>
    ensures reading { IfOk result (λ reading. IsReadingOf (bytes_of_words words.now) (reading_view reading)) }
    ensures readable { IfOk result (λ reading. All IsReadable (map histogram_view reading.hists.items)) }
    ensures cause { IfErr result (λ fault. IsCausedByImage (bytes_of_words words.now) fault) }
    ensures other { IfErr result (λ fault. (fault ≢ CliFault.Read) × (fault ≢ CliFault.Write)) }
{
    let reading = image_reader::read(alloc, image_in(words))?;
    Ok(reading)
}

/// Returns the text of the report of the image in the words [text], which are those of a closed image or of a mapped
/// file.
///
/// Records that are no valid histograms, and a broken list of records, are lines of the report. The fault is `Image`
/// with the first fault of the image's header [cause], or `NoMemory` if memory runs out; never `Read` or `Write`
/// [other].
pub fn report_of(alloc: Global, words: &[u64]) -> Result<Vec<u8>, CliFault>
    ensures text { IfOk result (λ text. IsReportOfBytes (bytes_of_words words.now) text.items) }
    ensures cause { IfErr result (λ fault. IsCausedByImage (bytes_of_words words.now) fault) }
    ensures other { IfErr result (λ fault. (fault ≢ CliFault.Read) × (fault ≢ CliFault.Write)) }
{
    let reading = read_image(alloc, words)?;
    Ok(report_text(alloc, &reading)?)
}

/// Writes bytes to the device itself [ok], and flushes it [flushed]. The fault is `Write` [err]; the writer has failed
/// exactly if there is a fault [failed]. It had not failed before.
pub fn write_and_flush<W: Write>(writer: &mut Watched<W>, bytes: &[u8]) -> Result<(), CliFault>
    requires { has_failed writer.old ≡ false }
    ensures ok { OnOk result (Appends (W.contents (watched_inner writer.old)) (W.contents (watched_inner writer.new)) bytes.now) }
    ensures err { IfErr result (λ fault. fault ≡ CliFault.Write) }
    ensures failed { has_failed writer.new ≡ is_err result }
    ensures flushed { OnOk result (is_flushed writer.new ≡ true) }
{
    writer.write_all(bytes).map_err(|_| CliFault::Write)?;
    writer.flush().map_err(|_| CliFault::Write)
}
