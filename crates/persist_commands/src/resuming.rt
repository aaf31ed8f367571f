//! A script is run in the segment of an image, which continues.

ghost use Rattle.std.specs.Prelude.{◌≡◌, ◌≢◌, ◌↔◌, ◌⊎◌, ◌≤◌, ℕ, List, false, true, IfOk, IfErr, IfSome, OnOk, IsErrOf};
ghost use Rattle.std.specs.Io.KnownBytes.{Appends};
ghost use Rattle.segment_image.specs.Head.{head_of};
ghost use Rattle.segment_image.specs.Words.{bytes_of_words};
ghost use Rattle.segment_image.specs.Watched.{has_failed, is_flushed, watched_inner};
ghost use Rattle.live_segment.specs.Adopted.{IsAdopted};
ghost use Rattle.persist_report_core.specs.Input.{image_in};
ghost use Rattle.persist_report_core.specs.Report.{AreWordsOf};
ghost use Rattle.persist_commands.specs.Resume.{IsBase, IsFaultOfBase, IsFaultOfResume, IsResumeOf, fault_of_input};
ghost use Rattle.persist_commands.specs.Stop.{TellsWant};

use crate::gate::Gate;
use crate::run::run_in;
use crate::scripts::take_script_for;
use live_segment::{Opener, Segment};
use persist_report_core::{CliFault, image_in, read_input};
use segment_image::{SegmentHead, Watched, header};
use std::alloc::Global;
use std::io::{Read, Write};
use std::sync::Wait;
use std::thread::Threads;

// An image that was adopted: its header, and the segment that continues from it.
#[derive(Drop)]
struct Base {
    head: SegmentHead,
    segment: Segment,
    opener: Opener,
}

// The segment that continues from the image in the words of an input, without shared cursors.
fn adopt_words(alloc: Global, words: &[u64]) -> Result<Base, CliFault>
    ensures base { IfOk result (λ base. IsAdopted (image_in words.now) 0 base.segment base.opener × (base.head ≡ head_of (image_in words.now)) × AreWordsOf (bytes_of_words words.now) (image_in words.now)) }
    ensures cause { IfErr result (λ fault. IsFaultOfBase (bytes_of_words words.now) fault) }
    ensures other { IfErr result (λ fault. (fault ≢ CliFault.Read) × (fault ≢ CliFault.Write)) }
    ensures tells { IfErr result TellsWant }
{
    let image = image_in(words);
    let (segment, opener) = match Segment::adopt(alloc, image, 0) {
        Ok(made) => made,
        Err(fault) => return Err(CliFault::from(fault)),
    };
    let Ok(head) = header(image) else {
        unreachable!()
    };
    Ok(Base {
        head,
        segment,
        opener,
    })
}

// The fault of an input that was not read. An input has no fault but these.
fn fault_of_input(fault: CliFault) -> CliFault
    ensures { result ≡ fault_of_input fault }
{
    match fault {
        CliFault::Read => CliFault::Read,
        CliFault::TooLong => CliFault::TooLong,
        CliFault::NotWords => CliFault::NotWords,
        _ => CliFault::NoMemory,
    }
}

// The segment that continues from the image that the reader has left.
fn read_base<B: Read>(alloc: Global, reader: &mut Watched<B>) -> Result<Base, CliFault>
    requires { has_failed reader.old ≡ false }
    ensures base { IfOk result (λ base. (words : List ℕ) × IsAdopted words 0 base.segment base.opener × (base.head ≡ head_of words) × IfSome (B.remaining (watched_inner reader.old)) (λ bytes. AreWordsOf bytes words)) }
    ensures cause { IfErr result (λ fault. IfSome (B.remaining (watched_inner reader.old)) (λ bytes. IsFaultOfBase bytes fault)) }
    ensures read { IsErrOf result CliFault.Read ↔ (has_failed reader.new ≡ true) }
    ensures other { IfErr result (λ fault. fault ≢ CliFault.Write) }
    ensures tells { IfErr result TellsWant }
{
    let words = match read_input(alloc, reader) {
        Ok(words) => words,
        Err(fault) => return Err(fault_of_input(fault)),
    };
    adopt_words(alloc, &words)
}

/// Continues from the image in what the first reader, BASE, has left, a closed image or a mapped file, and runs the
/// script that the second one has left in its segment, by 1 to 16 workers, as [`run_script`](crate::run_script) does in
/// a new one. Writes the image of that segment, and then the report of that image.
///
/// BASE is read and adopted before the script is read. The script's `segment` record has to name the size, the page
/// and the id of BASE, and its `add` records may take the units that BASE has not used. The readers and writers have
/// not failed before.
///
/// On `Ok` BASE is an image that may be adopted; the script has at most 16,777,216 bytes, no fault, and names BASE's
/// size, page and id. The bytes of an image were written, with the size, the page and the id of BASE and of version
/// 2, and then the report of that image. It reads as exactly the histograms of BASE and of the script's `hist`
/// records, each once, and with a spec that is the same as each that they have for it. No record is bad, the list
/// does not stop, and the full flag alone is set, if BASE has it. The units of each key, the sum and the redundant
/// count are what BASE has and what the script's `add` records add up to, whatever the number of workers. A histogram
/// that no `delta` record names has the marks and the sum mark of BASE, or 0 if BASE does not have the name. With
/// one worker, the marks of each other histogram are the units, and its sum mark the sum, that BASE has and that the
/// `add` records before its last `delta` record add up to [recorded]. Both outputs are flushed [flushed].
///
/// A fault has its cause in BASE: `TooLong` if there are more than 8,388,608 bytes, or in a mapped file 80 more;
/// `NotWords` if their number is no multiple of eight; `Adopt` with a fault for which its words may not be adopted
/// without shared cursors. Or BASE is an image that may be adopted, and the fault is one of the script or of its run,
/// as of `run_script`; then `BadLine` of record 1 comes also if that names another segment than BASE, and `Refused`
/// with `NoUnits` also for the first record that adds more than BASE has left [cause]. Out of memory is `NoMemory`: no
/// `Refused` has it as its cause [tells].
///
/// `Read` comes exactly if a read of one failed [read]; that of the script fails only if that of BASE has not,
/// and BASE may be adopted [base_first]. `Write` comes exactly if a write or a flush of one of the writers failed
/// [write]. After every other fault nothing was written [untouched]. If the writer of the image has failed,
/// nothing of the report was written [unbegun].
pub fn resume_script<R: Threads + Wait, B: Read, S: Read, I: Write, W: Write, G: Gate + Sync>(
    rt: &R,
    alloc: Global,
    base: &mut Watched<B>,
    script: &mut Watched<S>,
    image_out: &mut Watched<I>,
    report_out: &mut Watched<W>,
    workers: u32,
    gate: &G,
) -> Result<(), CliFault>
    requires base_sound { has_failed base.old ≡ false }
    requires script_sound { has_failed script.old ≡ false }
    requires image_sound { has_failed image_out.old ≡ false }
    requires report_sound { has_failed report_out.old ≡ false }
    requires workers { (1 ≤ workers) × (workers ≤ 16) }
    ensures recorded { OnOk result (IfSome (B.remaining (watched_inner base.old)) (λ first. IfSome (S.remaining (watched_inner script.old)) (λ bytes. (words : List ℕ) × (text : List ℕ) × IsResumeOf workers first bytes words text
        × Appends (I.contents (watched_inner image_out.old)) (I.contents (watched_inner image_out.new)) (bytes_of_words words)
        × Appends (W.contents (watched_inner report_out.old)) (W.contents (watched_inner report_out.new)) text))) }
    ensures cause { IfErr result (λ fault. IfSome (B.remaining (watched_inner base.old)) (λ first. IfSome (S.remaining (watched_inner script.old)) (λ bytes. IsFaultOfResume first bytes fault))) }
    ensures tells { IfErr result TellsWant }
    ensures read { IsErrOf result CliFault.Read ↔ ((has_failed base.new ≡ true) ⊎ (has_failed script.new ≡ true)) }
    ensures base_first { has_failed script.new ≡ true → (has_failed base.new ≡ false) × IfSome (B.remaining (watched_inner base.old)) IsBase }
    ensures write { IsErrOf result CliFault.Write ↔ ((has_failed image_out.new ≡ true) ⊎ (has_failed report_out.new ≡ true)) }
    ensures flushed { OnOk result ((is_flushed image_out.new ≡ true) × (is_flushed report_out.new ≡ true)) }
    ensures untouched { IfErr result (λ fault. fault ≢ CliFault.Write → (image_out.new ≡ image_out.old) × (report_out.new ≡ report_out.old)) }
    ensures unbegun { has_failed image_out.new ≡ true → report_out.new ≡ report_out.old }
{
    let based = read_base(alloc, base)?;
    let Base {
        head,
        segment,
        opener,
    } = based;
    let script = take_script_for(alloc, script, &head, opener.units())?;
    run_in(
        rt, alloc, segment, opener, &script, image_out, report_out, workers, gate,
    )
}
