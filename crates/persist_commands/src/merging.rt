//! Two images are merged into a new one.

ghost use Rattle.std.specs.Prelude.{◌≡◌, ◌≢◌, ◌↔◌, ◌⊎◌, ◌++◌, ℕ, List, true, false, OnOk, IfOk, IfErr, IfSome, IsErrOf};
ghost use Rattle.std.specs.Io.KnownBytes.{Appends};
ghost use Rattle.image_reader.specs.Views.{reading_view};
ghost use Rattle.live_segment.specs.Holders.{view_of_recorder};
ghost use Rattle.live_segment.specs.RecorderState.{KnowsOn};
ghost use Rattle.persist_commands.specs.MergeFiles.{AreMerged, HasStopped, IsImage, AreImageBytes, IsMergeFault, IsStopOf, fault_of_stop};
ghost use Rattle.persist_report_core.specs.Report.{IsCausedByImage};
ghost use Rattle.segment_image.specs.Watched.{has_failed, is_flushed, watched_inner};
ghost use Rattle.segment_image.specs.Words.{bytes_of_words};
ghost use Rattle.segment_merge.specs.Image.{IsMergedImage};
ghost use Rattle.segment_merge.specs.Merge.{IsMerged};

use image_reader::Reading;
use live_segment::{Recorder, Segment};
use persist_report_core::{CliFault, image_in, read_input, write_image};
use segment_calls::Refusal;
use segment_image::layout::VERSION_FROZEN;
use segment_image::{Image, SegmentHead, Watched, header};
use segment_merge::{MergeReport, MergeStop, merge};
use std::alloc::Global;
use std::io::{Read, Write};

// An image that is merged: its header, and what it reads as.
#[derive(Drop)]
struct Input {
    head: SegmentHead,
    reading: Reading,
}

// The image in the words of an input.
fn image_of_words(alloc: Global, words: &[u64]) -> Result<Input, CliFault>
    ensures image { IfOk result (λ input. AreImageBytes (bytes_of_words words.now) input.head (reading_view input.reading)) }
    ensures cause { IfErr result (λ fault. IsCausedByImage (bytes_of_words words.now) fault) }
    ensures other { IfErr result (λ fault. (fault ≢ CliFault.Read) × (fault ≢ CliFault.Write)) }
{
    let image = image_in(words);
    let head = header(image)?;
    let reading = image_reader::read(alloc, image)?;
    Ok(Input { head, reading })
}

// The image in what the reader has left: a closed image or a mapped file.
fn read_image<R: Read>(alloc: Global, reader: &mut Watched<R>) -> Result<Input, CliFault>
    requires { has_failed reader.old ≡ false }
    ensures image { IfOk result (λ input. IfSome (R.remaining (watched_inner reader.old)) (λ bytes. AreImageBytes bytes input.head (reading_view input.reading))) }
    ensures cause { IfErr result (λ fault. IfSome (R.remaining (watched_inner reader.old)) (λ bytes. IsCausedByImage bytes fault)) }
    ensures read { IsErrOf result CliFault.Read ↔ (has_failed reader.new ≡ true) }
    ensures other { IfErr result (λ fault. fault ≢ CliFault.Write) }
{
    let words = read_input(alloc, reader)?;
    image_of_words(alloc, &words)
}

// Merges a reading whole.
fn merge_whole(alloc: Global, recorder: &mut Recorder, reading: &Reading) -> Result<(), CliFault>
    ensures kept { recorder.new.segment ≡ recorder.old.segment }
    ensures same { KnowsOn recorder.old.state recorder.new.state }
    ensures merged { OnOk result (IsMerged (reading_view reading.now).hists (view_of_recorder recorder.old) (view_of_recorder recorder.new)) }
    ensures fault { IfErr result (HasStopped (reading_view reading.now).hists (view_of_recorder recorder.old) (view_of_recorder recorder.new)) }
{
    let Ok(report) = merge(alloc, recorder, reading) else {
        return Err(CliFault::NoMemory);
    };
    let MergeReport { stopped, .. } = report;
    match stopped {
        None => Ok(()),
        Some(stop) => Err(fault_of(stop)),
    }
}

// The fault of a merge that stopped.
fn fault_of(stop: MergeStop) -> CliFault
    ensures { result ≡ fault_of_stop stop.name stop.why }
{
    let MergeStop { name, why, .. } = stop;
    match why {
        Refusal::NoMemory => CliFault::NoMemory,
        why => CliFault::Merge { name, why },
    }
}

// Merges two readings whole, one after the other.
fn merge_both(
    alloc: Global,
    recorder: &mut Recorder,
    base: &Reading,
    dead: &Reading,
) -> Result<(), CliFault>
    ensures kept { recorder.new.segment ≡ recorder.old.segment }
    ensures merged { OnOk result (IsMerged ((reading_view base.now).hists ++ (reading_view dead.now).hists) (view_of_recorder recorder.old) (view_of_recorder recorder.new)) }
    ensures fault { IfErr result (HasStopped ((reading_view base.now).hists ++ (reading_view dead.now).hists) (view_of_recorder recorder.old) (view_of_recorder recorder.new)) }
{
    merge_whole(alloc, recorder, base)?;
    merge_whole(alloc, recorder, dead)
}

// The image of a new segment, of the size, the page and the id of BASE, into which both are merged.
fn merge_inputs(alloc: Global, base: &Input, dead: &Input) -> Result<Image, CliFault>
    ensures image { IfOk result (IsMergedImage base.now.head ((reading_view base.now.reading).hists ++ (reading_view dead.now.reading).hists)) }
    ensures fault { IfErr result (IsStopOf base.now.head 4294967295 ((reading_view base.now.reading).hists ++ (reading_view dead.now.reading).hists)) }
{
    let shape = base.head.shape;
    let Ok((segment, mut opener)) = Segment::create(
        alloc,
        shape.size(),
        shape.page(),
        base.head.id,
        0,
        VERSION_FROZEN,
    ) else {
        return Err(CliFault::NoMemory);
    };
    let Ok(mut recorder) = opener.recorder(&segment, u32::MAX) else {
        unreachable!()
    };
    let merged = merge_both(alloc, &mut recorder, &base.reading, &dead.reading);
    // Closed after a refusal too: what its words are then says that the refusal had its cause.
    opener.join(recorder);
    let image = segment.close(opener);
    merged?;
    Ok(image)
}

/// Merges two images, and writes the image of a new segment: it has the size, the page and the id of the first one,
/// BASE, and version 2. Its histograms are those of BASE and then of DEAD, with what deltas had not taken of them.
/// BASE is read and checked whole before DEAD. The readers and the writer have not failed before.
///
/// On `Ok` both are images, and the bytes of an image were written. No record of it is bad, and its list does not
/// stop. It reads as exactly the names of both, each once, with a spec that is the same as each that they have for
/// it. The units of each key, the sum and the redundant count are what is left of BASE and of DEAD together. All
/// marks and sum marks are 0, and no flag is set [image]. The writer is flushed [flushed].
///
/// A fault has its cause in BASE, or in DEAD if BASE has none, or in both: `TooLong`, `NotWords` and `Image` as
/// for a report; `Merge` with the name of the histogram at which the merge stopped, and why. `Merge` is never
/// `Corrupt` [cause]:
///
/// - `NoUnits`: the histograms up to that one cost more units than a segment has.
/// - `TooLarge`: its record or its counts have more words than a page of BASE.
/// - `BadName`, `BadSpec`: its name or its spec is not valid.
/// - `OtherSpec`: a histogram before it has the same name and another spec. So both images have the name.
/// - `Full`: there was no room for it. A segment with the size and the page of BASE has words that read as exactly
///   what was merged before it, and some of its first items. From the free pointer of these words on, its next block
///   passes the end: its record, if the name is not there, else its counts or a sample.
///
/// `Read` comes exactly if a read of one failed [read]; DEAD is read only if BASE was, and is an image
/// [base_first]. `Write` comes exactly if the write or the flush failed [write]. `NoMemory` comes if memory
/// runs out. After every fault but `Write` nothing was written [untouched].
pub fn merge_files<A: Read, B: Read, W: Write>(
    alloc: Global,
    base: &mut Watched<A>,
    dead: &mut Watched<B>,
    out: &mut Watched<W>,
) -> Result<(), CliFault>
    requires base_sound { has_failed base.old ≡ false }
    requires dead_sound { has_failed dead.old ≡ false }
    requires out_sound { has_failed out.old ≡ false }
    ensures image { OnOk result (IfSome (A.remaining (watched_inner base.old)) (λ first. IfSome (B.remaining (watched_inner dead.old)) (λ second. (words : List ℕ) × AreMerged first second words × Appends (W.contents (watched_inner out.old)) (W.contents (watched_inner out.new)) (bytes_of_words words)))) }
    ensures cause { IfErr result (λ fault. IfSome (A.remaining (watched_inner base.old)) (λ first. IfSome (B.remaining (watched_inner dead.old)) (λ second. IsMergeFault first second fault))) }
    ensures read { IsErrOf result CliFault.Read ↔ ((has_failed base.new ≡ true) ⊎ (has_failed dead.new ≡ true)) }
    ensures base_first { has_failed dead.new ≡ true → (has_failed base.new ≡ false) × IfSome (A.remaining (watched_inner base.old)) IsImage }
    ensures write { IsErrOf result CliFault.Write ↔ (has_failed out.new ≡ true) }
    ensures flushed { OnOk result (is_flushed out.new ≡ true) }
    ensures untouched { IfErr result (λ fault. fault ≢ CliFault.Write → out.new ≡ out.old) }
{
    let first = read_image(alloc, base)?;
    let second = read_image(alloc, dead)?;
    let image = merge_inputs(alloc, &first, &second)?;
    write_image(out, image.words())
}
