//! A script is run.

ghost use Rattle.std.specs.Prelude.{◌≡◌, ◌≢◌, ◌↔◌, ◌⊎◌, ◌<◌, ◌≤◌, ℕ, List, false, true, length, map, slice_index_or, All, Ok, IfOk, IfErr, IfSome, OnOk, IsErrOf};
ghost use Rattle.std.specs.Io.KnownBytes.{Appends};
ghost use Rattle.segment_image.specs.Words.{bytes_of_words};
ghost use Rattle.segment_image.specs.Watched.{has_failed, is_flushed, watched_inner};
ghost use Rattle.live_segment.specs.Holders.{IsMadeWith, IsNew, IsSameOpener, table_of, view_of_opener};
ghost use Rattle.persist_report_core.specs.Script.{script_view};
ghost use Rattle.persist_commands.specs.Recording.{EndedAt, HandsOut, HasRun, IsWorkerReady, all_joined, view_of_ended};
ghost use Rattle.persist_commands.specs.Recorded.{HasOnlyOpened, IsRecordedImage, setting_for};
ghost use Rattle.persist_commands.specs.Run.{IsFaultOfRun, IsReportOfImage, IsRunOf, MayEndRun};
ghost use Rattle.persist_commands.specs.Stop.{EndTogether, StopTellsWant, TellsWant};

use crate::gate::Gate;
use crate::opening::make_histograms;
use crate::reports::text_of_image;
use crate::scripts::take_script;
use crate::stop::{Stop, both};
use crate::worker::{Ended, Part, Worker, units_of};
use live_segment::{Opener, Segment};
use persist_report_core::{CliFault, Script, write_and_flush, write_image};
use segment_image::layout::VERSION_FROZEN;
use segment_image::{Image, Watched};
use std::alloc::Global;
use std::io::{Read, Write};
use std::sync::Wait;
use std::thread::Threads;
use thread_jobs::{NotRun, run_beside};

// The workers that are to be started, each with a recorder that has the units of its calls.
fn make_workers<'w, G: Gate>(
    alloc: Global,
    segment: &'w Segment,
    opener: &mut Opener,
    script: &'w Script,
    workers: u32,
    gate: &'w G,
) -> Result<Vec<Worker<'w, G>>, Stop>
    requires made { IsMadeWith segment.now opener.old }
    ensures made { IsMadeWith segment.entry.now opener.new }
    ensures handed { OnOk result (HandsOut workers (view_of_opener opener.old) (view_of_opener opener.new)) }
    ensures tells { IfErr result StopTellsWant }
    ensures len { IfOk result (λ all. length all.items ≡ workers) }
    ensures each { IfOk result (λ all. (k : ℕ) (d : _) → k < length all.items → IsWorkerReady (table_of segment.entry.now) (view_of_opener opener.old) script.entry.now workers k (slice_index_or all.items k d).part (slice_index_or all.items k d).script.now (slice_index_or all.items k d).recorder) }
{
    let mut all = Vec::new(alloc);
    for number in 0..workers {
        let part = Part {
            part: number,
            workers,
        };
        let recorder = match opener.recorder(segment, units_of(&script.calls, part)) {
            Ok(recorder) => recorder,
            Err(why) => return Err(Stop::refused(1, why)),
        };
        all.reserve(1)?;
        all.push_reserved(Worker {
            alloc,
            script,
            gate,
            part,
            recorder,
        });
    }
    Ok(all)
}

// Joins the recorders of workers that have ended, and returns how they ended together.
fn join_all(opener: &mut Opener, all: Vec<Ended>) -> Result<(), Stop>
    requires at { All (EndedAt opener.old.seat.table_id) all.items }
    ensures same { IsSameOpener opener.old opener.new }
    ensures joined { view_of_opener opener.new ≡ all_joined (view_of_opener opener.old) (map view_of_ended all.entry.items) }
    ensures told { EndTogether (map (λ ended. ended.outcome) all.entry.items) result }
{
    let mut outcome = Ok(());
    for ended in all {
        let Ended {
            recorder,
            outcome: mine,
        } = ended;
        opener.join(recorder);
        outcome = both(outcome, mine);
    }
    outcome
}

// The calls of a script are made by workers, and their recorders are joined.
fn work<R: Threads + Wait, G: Gate + Sync>(
    rt: &R,
    alloc: Global,
    segment: &Segment,
    opener: &mut Opener,
    script: &Script,
    workers: u32,
    gate: &G,
) -> Result<(), Stop>
    requires made { IsMadeWith segment.now opener.old }
    requires some { 0 < workers }
    ensures made { IsMadeWith segment.now opener.new }
    ensures tells { IfErr result StopTellsWant }
    ensures run { OnOk result (HasRun (script_view script.now) workers (view_of_opener opener.old) (view_of_opener opener.new)) }
{
    let all = make_workers(alloc, segment, opener, script, workers, gate)?;
    match run_beside(rt, alloc, all) {
        Ok(ended) => join_all(opener, ended),
        Err(NotRun::NoThread) => Err(Stop::NoThread),
        Err(NotRun::NoMemory) => Err(Stop::NoMemory),
    }
}

// The image of a segment that was just opened, in which a script was run.
fn record_in<R: Threads + Wait, G: Gate + Sync>(
    rt: &R,
    alloc: Global,
    segment: Segment,
    mut opener: Opener,
    script: &Script,
    workers: u32,
    gate: &G,
) -> Result<Image, Stop>
    requires made { IsMadeWith segment opener }
    requires opened { HasOnlyOpened (view_of_opener opener) }
    requires some { 0 < workers }
    ensures image { IfOk result (IsRecordedImage segment.setting (view_of_opener opener) (script_view script.now) workers) }
    ensures tells { IfErr result StopTellsWant }
{
    make_histograms(&segment, &mut opener, &script.hists)?;
    work(rt, alloc, &segment, &mut opener, script, workers, gate)?;
    Ok(segment.close(opener))
}

// Writes an image and then its report.
fn write_both<I: Write, W: Write>(
    image_out: &mut Watched<I>,
    report_out: &mut Watched<W>,
    words: &[u64],
    text: &[u8],
) -> Result<(), CliFault>
    requires image_sound { has_failed image_out.old ≡ false }
    requires report_sound { has_failed report_out.old ≡ false }
    ensures image { OnOk result (Appends (I.contents (watched_inner image_out.old)) (I.contents (watched_inner image_out.new)) (bytes_of_words words.now)) }
    ensures report { OnOk result (Appends (W.contents (watched_inner report_out.old)) (W.contents (watched_inner report_out.new)) text.now) }
    ensures fault { IfErr result (λ fault. fault ≡ CliFault.Write) }
    ensures write { IsErrOf result CliFault.Write ↔ ((has_failed image_out.new ≡ true) ⊎ (has_failed report_out.new ≡ true)) }
    ensures flushed { OnOk result ((is_flushed image_out.new ≡ true) × (is_flushed report_out.new ≡ true)) }
    ensures unbegun { has_failed image_out.new ≡ true → report_out.new ≡ report_out.old }
{
    write_image(image_out, words)?;
    write_and_flush(report_out, text)
}

/// Runs a script in a segment that was just opened, a new one or one that continues from an image. Writes the image of
/// that segment, and then the report of that image.
pub(crate) fn run_in<R: Threads + Wait, I: Write, W: Write, G: Gate + Sync>(
    rt: &R,
    alloc: Global,
    segment: Segment,
    opener: Opener,
    script: &Script,
    image_out: &mut Watched<I>,
    report_out: &mut Watched<W>,
    workers: u32,
    gate: &G,
) -> Result<(), CliFault>
    requires made { IsMadeWith segment opener }
    requires opened { HasOnlyOpened (view_of_opener opener) }
    requires some { 0 < workers }
    requires image_sound { has_failed image_out.old ≡ false }
    requires report_sound { has_failed report_out.old ≡ false }
    ensures recorded { OnOk result ((words : List ℕ) × (text : List ℕ) × IsRecordedImage segment.setting (view_of_opener opener) (script_view script.now) workers words
        × IsReportOfImage words text
        × Appends (I.contents (watched_inner image_out.old)) (I.contents (watched_inner image_out.new)) (bytes_of_words words)
        × Appends (W.contents (watched_inner report_out.old)) (W.contents (watched_inner report_out.new)) text) }
    ensures late { IfErr result MayEndRun }
    ensures tells { IfErr result TellsWant }
    ensures write { IsErrOf result CliFault.Write ↔ ((has_failed image_out.new ≡ true) ⊎ (has_failed report_out.new ≡ true)) }
    ensures flushed { OnOk result ((is_flushed image_out.new ≡ true) × (is_flushed report_out.new ≡ true)) }
    ensures untouched { IfErr result (λ fault. fault ≢ CliFault.Write → (image_out.new ≡ image_out.old) × (report_out.new ≡ report_out.old)) }
    ensures unbegun { has_failed image_out.new ≡ true → report_out.new ≡ report_out.old }
{
    let image = record_in(rt, alloc, segment, opener, script, workers, gate)?;
    let text = text_of_image(alloc, image.words())?;
    write_both(image_out, report_out, image.words(), &text)
}

// A new segment for a script, of its shape and id.
fn new_segment(alloc: Global, script: &Script) -> Result<(Segment, Opener), CliFault>
    ensures made { IfOk result (λ made. IsNew (setting_for (script_view script.now)) made.0 made.1) }
    ensures fault { IfErr result (λ fault. fault ≡ CliFault.NoMemory) }
{
    let (size, page) = (script.shape.size(), script.shape.page());
    match Segment::create(alloc, size, page, script.id, 0, VERSION_FROZEN) {
        Ok(made) => Ok(made),
        Err(_) => Err(CliFault::NoMemory),
    }
}

/// Runs the script that the reader has left, by 1 to 16 workers, each in a thread of its own. Writes the image of the
/// segment in which it was run, and then the report of that image. The reader and the writers have not failed before.
///
/// The histograms of the script are made first, in their order. Then each worker makes its calls: worker `w` of `n`
/// those whose number, from 0, leaves `w - 1` when it is divided by `n`. The gate is called before each and after it.
///
/// On `Ok` the script has at most 16,777,216 bytes and no fault. The bytes of an image were written, of the script's
/// shape and id and of version 2, and then the report of that image. It reads as exactly the histograms of the
/// script's `hist` records, each once and with its spec. No record is bad, the list does not stop, and no flag is
/// set. The units of each key, the sum and the redundant count are what the script's `add` records add up to,
/// whatever the number of workers. A histogram that no `delta` record names has marks and a sum mark of 0. With
/// one worker, the marks of each other histogram are the units, and its sum mark the sum, that the `add` records before
/// its last `delta` record add up to [recorded]. Both outputs are flushed [flushed].
///
/// `TooLong` comes only if there are more than 16,777,216 bytes. If the script has faults, the first one is
/// reported: `BadLine` with the record that has no valid form, or `Refused` with one that adds no unit, or more than
/// a segment has. A script without a fault may end with `Write`, or, by the first of these: `NoThread` if a worker
/// could not be started, `NoMemory`, `Gate` if the gate did not let a call come, and `Refused` with the least
/// record whose histogram or whose call was refused [cause]. Out of memory is `NoMemory`: no `Refused` has it as its
/// cause [tells].
///
/// `Read` comes exactly if a read failed [read], and `Write` exactly if a write or a flush of one of the
/// writers failed [write]. After every other fault nothing was written [untouched]. If the writer of the image has
/// failed, nothing of the report was written [unbegun].
pub fn run_script<R: Threads + Wait, S: Read, I: Write, W: Write, G: Gate + Sync>(
    rt: &R,
    alloc: Global,
    script: &mut Watched<S>,
    image_out: &mut Watched<I>,
    report_out: &mut Watched<W>,
    workers: u32,
    gate: &G,
) -> Result<(), CliFault>
    requires script_sound { has_failed script.old ≡ false }
    requires image_sound { has_failed image_out.old ≡ false }
    requires report_sound { has_failed report_out.old ≡ false }
    requires workers { (1 ≤ workers) × (workers ≤ 16) }
    ensures recorded { OnOk result (IfSome (S.remaining (watched_inner script.old)) (λ bytes. (words : List ℕ) × (text : List ℕ) × IsRunOf workers bytes words text
        × Appends (I.contents (watched_inner image_out.old)) (I.contents (watched_inner image_out.new)) (bytes_of_words words)
        × Appends (W.contents (watched_inner report_out.old)) (W.contents (watched_inner report_out.new)) text)) }
    ensures cause { IfErr result (λ fault. IfSome (S.remaining (watched_inner script.old)) (λ bytes. IsFaultOfRun bytes fault)) }
    ensures tells { IfErr result TellsWant }
    ensures read { IsErrOf result CliFault.Read ↔ (has_failed script.new ≡ true) }
    ensures write { IsErrOf result CliFault.Write ↔ ((has_failed image_out.new ≡ true) ⊎ (has_failed report_out.new ≡ true)) }
    ensures flushed { OnOk result ((is_flushed image_out.new ≡ true) × (is_flushed report_out.new ≡ true)) }
    ensures untouched { IfErr result (λ fault. fault ≢ CliFault.Write → (image_out.new ≡ image_out.old) × (report_out.new ≡ report_out.old)) }
    ensures unbegun { has_failed image_out.new ≡ true → report_out.new ≡ report_out.old }
{
    let script = take_script(alloc, script)?;
    let made = new_segment(alloc, &script)?;
    let (segment, opener) = made;
    run_in(
        rt, alloc, segment, opener, &script, image_out, report_out, workers, gate,
    )
}
