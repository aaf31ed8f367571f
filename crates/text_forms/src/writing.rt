//! Writes a subject in a form, and an image that a reader has left.

ghost use Rattle.std.specs.Prelude.{◌≡◌, ◌≢◌, ◌↔◌, ℕ, List, true, false, OnOk, IfOk, IfErr, IfSome, IsErrOf};
ghost use Rattle.std.specs.Io.KnownBytes.{Appends};
ghost use Rattle.image_reader.specs.Views.{reading_view};
ghost use Rattle.segment_image.specs.Words.{bytes_of_words};
ghost use Rattle.segment_image.specs.Watched.{has_failed, is_flushed, watched_inner};
ghost use Rattle.persist_report_core.specs.Report.{IsCausedByImage, IsReadingOf};
ghost use Rattle.text_forms.specs.Forms.{fits as fits_head, HasNoTextIn, IsTextIn};
ghost use Rattle.text_forms.specs.Writing.{HasNoTextFrom, IsWrittenFrom};

use crate::form::Form;
use crate::subject::Subject;
use image_reader::Reading;
use persist_report_core::{CliFault, read_input, write_and_flush};
use segment_image::Watched;
use std::alloc::Global;
use std::io::{Read, Write};

/// Writes the text of a subject in a form, which has to fit it. The writer must not have failed before.
///
/// On `Ok` exactly the text of the subject was written [text], and then flushed [flushed].
///
/// The fault is `Write` exactly if the write or the flush failed [write]. Else it is the one for which there is no text:
/// `Clash`, only if each histogram is to have a family, with the names of the first that clash, or `NoMemory` if memory
/// runs out [cause]; and nothing was written [untouched].
pub fn write_form<W: Write>(
    alloc: Global,
    form: Form<'_>,
    subject: &Subject,
    writer: &mut Watched<W>,
) -> Result<(), CliFault>
    requires sound { has_failed writer.old ≡ false }
    requires fits { fits_head form subject.now.head ≡ true }
    ensures text { OnOk result ((text : List ℕ) × IsTextIn form.entry subject.now.head (reading_view subject.now.reading) text × Appends (W.contents (watched_inner writer.old)) (W.contents (watched_inner writer.new)) text) }
    ensures cause { IfErr result (λ fault. fault ≢ CliFault.Write → HasNoTextIn form.entry (reading_view subject.now.reading) fault) }
    ensures write { IsErrOf result CliFault.Write ↔ (has_failed writer.new ≡ true) }
    ensures flushed { OnOk result (is_flushed writer.new ≡ true) }
    ensures untouched { IfErr result (λ fault. fault ≢ CliFault.Write → writer.new ≡ writer.old) }
{
    let text = form.text_of(alloc, subject)?;
    write_and_flush(writer, &text)
}

// Writes the text of the image in the words in a form, and returns the reading that it shows.
fn write_of_words<W: Write>(
    alloc: Global,
    form: Form<'_>,
    words: &[u64],
    writer: &mut Watched<W>,
) -> Result<Reading, CliFault>
    requires { has_failed writer.old ≡ false }
    ensures text { OnOk result ((text : List ℕ) × IsWrittenFrom form.entry (bytes_of_words words.now) text × Appends (W.contents (watched_inner writer.old)) (W.contents (watched_inner writer.new)) text) }
    ensures reading { IfOk result (λ reading. IsReadingOf (bytes_of_words words.now) (reading_view reading)) }
    ensures cause { IfErr result (HasNoTextFrom form.entry (bytes_of_words words.now)) }
    ensures write { IsErrOf result CliFault.Write ↔ (has_failed writer.new ≡ true) }
    ensures other { IfErr result (λ fault. fault ≢ CliFault.Read) }
    ensures flushed { OnOk result (is_flushed writer.new ≡ true) }
    ensures untouched { IfErr result (λ fault. fault ≢ CliFault.Write → writer.new ≡ writer.old) }
{
    let subject = Subject::of_words(alloc, words)?;
    write_form(alloc, form, &subject, writer)?;
    Ok(subject.into_parts().0)
}

/// Writes the text of an image in a form, and returns the reading that it shows. The image is what the reader has left,
/// a closed image or a mapped file. The reader and the writer must not have failed before.
///
/// On `Ok` exactly the text of the input was written [text], and then flushed [flushed]; the value is what the input
/// reads as [reading]. Records that are no valid histograms, a broken list of records, and names that no histogram has
/// are not faults here: `damage_of` and `first_missing` report them.
///
/// The fault is `TooLong` only if there are more than 8,388,608 bytes, or in a mapped file 80 more, `NotWords` only if
/// their number is not a multiple of eight, `Image` only with the first fault of the image's header, and `Clash` only if
/// each histogram is to have a family, with the names of the first that clash [cause]. It is `Read` exactly if a read
/// failed [read], and `Write` exactly if the write or the flush failed [write]. It is `NoMemory` if memory runs out.
/// After every fault but `Write` nothing was written [untouched].
pub fn write_text<R: Read, W: Write>(
    alloc: Global,
    form: Form<'_>,
    reader: &mut Watched<R>,
    writer: &mut Watched<W>,
) -> Result<Reading, CliFault>
    requires reader_sound { has_failed reader.old ≡ false }
    requires writer_sound { has_failed writer.old ≡ false }
    ensures text { OnOk result (IfSome (R.remaining (watched_inner reader.old)) (λ bytes. (text : List ℕ) × IsWrittenFrom form.entry bytes text × Appends (W.contents (watched_inner writer.old)) (W.contents (watched_inner writer.new)) text)) }
    ensures reading { IfOk result (λ reading. IfSome (R.remaining (watched_inner reader.old)) (λ bytes. IsReadingOf bytes (reading_view reading))) }
    ensures cause { IfErr result (λ fault. IfSome (R.remaining (watched_inner reader.old)) (λ bytes. HasNoTextFrom form.entry bytes fault)) }
    ensures read { IsErrOf result CliFault.Read ↔ (has_failed reader.new ≡ true) }
    ensures write { IsErrOf result CliFault.Write ↔ (has_failed writer.new ≡ true) }
    ensures flushed { OnOk result (is_flushed writer.new ≡ true) }
    ensures untouched { IfErr result (λ fault. fault ≢ CliFault.Write → writer.new ≡ writer.old) }
{
    let words = read_input(alloc, reader)?;
    write_of_words(alloc, form, &words, writer)
}
