//! A look at a segment in a file that is in use.

ghost use Rattle.std.specs.Prelude.{◌≡◌, ◌≢◌, ◌↔◌, ◌⊎◌, ℕ, List, true, false, OnOk, IfOk, IfErr, IfSome, IsErrOf};
ghost use Rattle.std.specs.Io.KnownBytes.{Appends};
ghost use Rattle.persist_report_core.specs.LookFile.{IsFaultOfLook, IsLookOfFiles, IsFaultOfCopies, AreOfOneSegment, fault_of_look as fault_of, identity as identity_of};
ghost use Rattle.persist_report_core.specs.Report.{AreWordsOf, IsCausedByImage};
ghost use Rattle.segment_image.specs.Watched.{has_failed, is_flushed, watched_inner};
ghost use Rattle.segment_image.specs.Words.{bytes_of_words};

use crate::fault::CliFault;
use crate::input::{image_in, read_input};
use crate::outputs::write_image;
use segment_calls::AdoptFault;
use segment_image::layout::ID_WORD;
use segment_image::{Image, Watched};
use segment_looks::{LookFault, compose};
use std::alloc::Global;
use std::io::{Read, Write};

// The fault of the program for copies that give no look.
fn fault_of_look(fault: LookFault) -> CliFault
    ensures { result ≡ fault_of fault }
{
    match fault {
        LookFault::Image(fault) => CliFault::Image(fault),
        LookFault::OldVersion => CliFault::Adopt(AdoptFault::OldVersion),
        LookFault::NoMemory => CliFault::NoMemory,
    }
}

// The words that distinguish a segment from others while it is in use: its cookie, version, size, page and id.
fn identity(words: &[u64]) -> &[u64]
    ensures { result.now ≡ identity_of words.now }
{
    words.split_at(words.len().min(ID_WORD + 1)).0
}

// Whether three copies are of one segment.
fn are_of_one_segment(one: &[u64], two: &[u64], three: &[u64]) -> bool
    ensures one { result ≡ true → AreOfOneSegment one.now two.now three.now }
    ensures several { AreOfOneSegment one.now two.now three.now → result ≡ true }
{
    identity(one) == identity(three) && identity(two) == identity(three)
}

// The look that the images in the words of three inputs give.
fn look_of_words(
    alloc: Global,
    first: &[u64],
    second: &[u64],
    third: &[u64],
) -> Result<Image, CliFault>
    ensures look { IfOk result (IsLookOfFiles (bytes_of_words first.now) (bytes_of_words second.now) (bytes_of_words third.now)) }
    ensures cause { IfErr result (λ fault. (fault ≡ CliFault.NoMemory) ⊎ IsFaultOfCopies (bytes_of_words first.now) (bytes_of_words second.now) (bytes_of_words third.now) fault) }
    ensures other { IfErr result (λ fault. (fault ≢ CliFault.Read) × (fault ≢ CliFault.Write)) }
{
    let (one, two, three) = (image_in(first), image_in(second), image_in(third));
    let image = match compose(alloc, one, two, three) {
        Ok(image) => image,
        Err(fault) => return Err(fault_of_look(fault)),
    };
    if are_of_one_segment(one, two, three) {
        Ok(image)
    } else {
        Err(CliFault::Changed)
    }
}

/// Returns the look that the images in what three readers have left give, which are read one after the other: what three
/// reads of the file of a segment that is in use give. Each reader has left the file from its start: a mapped file, or a
/// closed image. The readers have not failed before.
///
/// On `Ok` the images in what the readers had left are of one segment and give a look, whose words are the value [look].
///
/// A fault has its cause in the bytes of one read: `TooLong` and `NotWords` as for a report. Or all were read, and give
/// no look: `Image` with the first fault of the header of the last, or with `BadSize` if the images have different
/// lengths; `Adopt` with `OldVersion` if the segment is of version 1; `Changed` if the headers of the reads are of
/// different segments [cause]. `Read` comes exactly if a read failed [read], and `NoMemory` if memory runs out; never
/// `Write` [other].
pub fn read_look<A: Read, B: Read, C: Read>(
    alloc: Global,
    first: &mut Watched<A>,
    second: &mut Watched<B>,
    third: &mut Watched<C>,
) -> Result<Image, CliFault>
    requires first_sound { has_failed first.old ≡ false }
    requires second_sound { has_failed second.old ≡ false }
    requires third_sound { has_failed third.old ≡ false }
    ensures look { IfOk result (λ image. IfSome (A.remaining (watched_inner first.old)) (λ one. IfSome (B.remaining (watched_inner second.old)) (λ two. IfSome (C.remaining (watched_inner third.old)) (λ three. IsLookOfFiles one two three image)))) }
    ensures cause { IfErr result (λ fault. IfSome (A.remaining (watched_inner first.old)) (λ one. IfSome (B.remaining (watched_inner second.old)) (λ two. IfSome (C.remaining (watched_inner third.old)) (λ three. IsFaultOfLook one two three fault)))) }
    ensures read { IsErrOf result CliFault.Read ↔ ((has_failed first.new ≡ true) ⊎ ((has_failed second.new ≡ true) ⊎ (has_failed third.new ≡ true))) }
    ensures other { IfErr result (λ fault. fault ≢ CliFault.Write) }
{
    let one = read_input(alloc, first)?;
    let two = read_input(alloc, second)?;
    let three = read_input(alloc, third)?;
    look_of_words(alloc, &one, &two, &three)
}

/// Writes the image of a look at a segment that is in use, as `read_look` returns it. The readers and the writer have
/// not failed before.
///
/// On `Ok` the images in what the readers had left are of one segment and give a look, and the bytes of its words were
/// written [image]. The writer is flushed [flushed].
///
/// The faults are those of `read_look`, with their causes [cause]: `Read` comes exactly if a read failed [read], and
/// `Write` exactly if the write or the flush did [write]. `NoMemory` comes if memory runs out. After every fault but
/// `Write` nothing was written [untouched].
pub fn look_file<A: Read, B: Read, C: Read, W: Write>(
    alloc: Global,
    first: &mut Watched<A>,
    second: &mut Watched<B>,
    third: &mut Watched<C>,
    out: &mut Watched<W>,
) -> Result<(), CliFault>
    requires first_sound { has_failed first.old ≡ false }
    requires second_sound { has_failed second.old ≡ false }
    requires third_sound { has_failed third.old ≡ false }
    requires out_sound { has_failed out.old ≡ false }
    ensures image { OnOk result (IfSome (A.remaining (watched_inner first.old)) (λ one. IfSome (B.remaining (watched_inner second.old)) (λ two. IfSome (C.remaining (watched_inner third.old)) (λ three. (words : List ℕ) × IsLookOfFiles one two three words × Appends (W.contents (watched_inner out.old)) (W.contents (watched_inner out.new)) (bytes_of_words words))))) }
    ensures cause { IfErr result (λ fault. IfSome (A.remaining (watched_inner first.old)) (λ one. IfSome (B.remaining (watched_inner second.old)) (λ two. IfSome (C.remaining (watched_inner third.old)) (λ three. IsFaultOfLook one two three fault)))) }
    ensures read { IsErrOf result CliFault.Read ↔ ((has_failed first.new ≡ true) ⊎ ((has_failed second.new ≡ true) ⊎ (has_failed third.new ≡ true))) }
    ensures write { IsErrOf result CliFault.Write ↔ (has_failed out.new ≡ true) }
    ensures flushed { OnOk result (is_flushed out.new ≡ true) }
    ensures untouched { IfErr result (λ fault. fault ≢ CliFault.Write → out.new ≡ out.old) }
{
    let image = read_look(alloc, first, second, third)?;
    write_image(out, image.words())
}
