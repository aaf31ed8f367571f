//! The image that a command writes.

ghost use Rattle.std.specs.Prelude.{◌≡◌, false, true, is_err, IfErr, OnOk};
ghost use Rattle.std.specs.Io.KnownBytes.{Appends};
ghost use Rattle.segment_image.specs.Words.{bytes_of_words};
ghost use Rattle.segment_image.specs.Watched.{has_failed, is_flushed, watched_inner};

use crate::fault::CliFault;
use segment_image::{Watched, write_words};
use std::io::Write;

/// Writes the words of an image to the device itself [ok], and flushes it [flushed]. The fault is `Write` [err]; the
/// writer has failed exactly if there is a fault [failed]. It had not failed before.
pub fn write_image<I: Write>(writer: &mut Watched<I>, words: &[u64]) -> Result<(), CliFault>
    requires { has_failed writer.old ≡ false }
    ensures ok { OnOk result (Appends (I.contents (watched_inner writer.old)) (I.contents (watched_inner writer.new)) (bytes_of_words words.now)) }
    ensures err { IfErr result (λ fault. fault ≡ CliFault.Write) }
    ensures failed { has_failed writer.new ≡ is_err result }
    ensures flushed { OnOk result (is_flushed writer.new ≡ true) }
{
    write_words(writer, words).map_err(|_| CliFault::Write)?;
    writer.flush().map_err(|_| CliFault::Write)
}
