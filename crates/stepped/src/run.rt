//! Does what the command line asks for.

ghost use Rattle.std.specs.Prelude.{◌≡◌, true, List, ℕ, IfErr, IfOk, Ok, OnOk};
ghost use Rattle.std.specs.Io.KnownBytes.{Appends};
ghost use Rattle.segment_image.specs.Head.{head_of, header_of};
ghost use Rattle.segment_image.specs.Watched.{is_flushed, watched_inner};
ghost use Rattle.segment_image.specs.Words.{bytes_of_words};
ghost use Rattle.stepped.specs.Failure.{UsageIsMistake};
ghost use Rattle.stepped.specs.declared.lines.LinePlace.{LinePlace};
ghost use Rattle.stepped.specs.Form.{texts};
ghost use Rattle.stepped.specs.Lines.{Deed};
ghost use Rattle.stepped.specs.Output.{IsReportOf};
ghost use Rattle.stepped.specs.Replay.{Replays};
ghost use Rattle.stepped.specs.Look.{GivesImage, Look, TakesLook, begun_look, no_look};

use crate::explaining::{Seen, failure_of};
use crate::failure::Failure;
use crate::fault::ReplayFault;
use crate::form::Form;
use crate::look::{Copies, first_bad};
use crate::noted::Noted;
use crate::replay::Replay;
use crate::request::{ReplayRequest, Show, not_text};
use fault_texts::is_asked;
use persist_report_core::report_text;
use schedule::{Opening, Order, Schedule, read_schedule};
use segment_image::layout::MAX_SIZE;
use segment_image::{ImageFault, Watched, read_words, write_words};
use std::alloc::Global;
use std::io::Write;
use std::rt::{Env, Files};
use std::{env, fs, io};

/// Does what the arguments ask for.
///
/// `Usage` comes if they ask for nothing that the program does, never for help, the version or if memory runs out;
/// `Fault` if the request failed, `NoMemory` also if memory ran out when the arguments were read, and `Write` also if
/// a help or version text could not be written.
pub fn run<R: Env + Files + Print + AllocGlobal>(rt: &R) -> Result<(), Failure>
    ensures { IfErr result UsageIsMistake }
{
    let words = words(rt)?;
    match ReplayRequest::of(rt.alloc(), words.as_slice()) {
        Ok(request) => {
            let mut seen = Seen::nothing(rt.alloc(), request.explains || is_asked(rt));
            if let Err(fault) = meet(rt, request, &mut seen) {
                return Err(failure_of(rt.alloc(), fault, request.schedule, &seen));
            }
        }
        Err(error) if error.use_stderr() => return Err(Failure::from(error)),
        Err(shown) => rt.print(shown).map_err(|_| ReplayFault::Write)?,
    }
    Ok(())
}

fn words<R: Env + AllocGlobal>(rt: &R) -> Result<Vec<String>, Failure>
    ensures { IfErr result UsageIsMistake }
{
    match env::args(rt) {
        Ok(words) => Ok(words.collect(rt.alloc())?),
        Err(error) if error.kind() == io::ErrorKind::OutOfMemory => {
            Err(Failure::Fault(ReplayFault::NoMemory))
        }
        Err(_) => Err(Failure::Usage(not_text(rt.alloc())?)),
    }
}

// Opens a file that is there, to read it.
fn open<'n, R: Files + AllocGlobal>(
    rt: &R,
    path: &str,
    seen: &'n Seen,
) -> Result<Noted<'n, R::File>, ReplayFault> {
    match fs::open(rt, path) {
        Ok(inner) => Ok(Noted {
            inner,
            reason: &seen.reason,
            copy: seen.copy(rt.alloc()),
        }),
        Err(error) => {
            seen.reason.set(Some(error));
            Err(ReplayFault::Read)
        }
    }
}

// The schedule in a file. What was read of it is seen.
fn schedule_in<R: Files + AllocGlobal>(
    rt: &R,
    path: &str,
    seen: &mut Seen,
) -> Result<Schedule, ReplayFault> {
    let mut reader = Watched::new(open(rt, path, seen)?);
    let outcome = read_schedule(rt.alloc(), &mut reader);
    let text = reader.into_inner().copy;
    seen.text = text.unwrap_or(Vec::new(rt.alloc()));
    Ok(outcome?)
}

// The words in the file of an image. If its name is no text, it cannot be opened.
fn words_in<R: Files + AllocGlobal>(
    rt: &R,
    name: &[u8],
    seen: &mut Seen,
) -> Result<Vec<u64>, ReplayFault> {
    let path = str::from_utf8(name).map_err(|_| ReplayFault::Read)?;
    seen.image = Some(String::from_str(rt.alloc(), path)?);
    let file = open(rt, path, seen)?;
    Ok(read_words(rt.alloc(), &mut Watched::new(file), MAX_SIZE as usize)?)
}

// The world that a schedule starts with.
fn start<R: Files + AllocGlobal>(
    rt: &R,
    opening: Opening,
    request: ReplayRequest<'_>,
    seen: &mut Seen,
) -> Result<Replay, ReplayFault> {
    let ReplayRequest { events, show, .. } = request;
    let form = match show {
        Show::Picture => Form::Picture(0),
        Show::Lines | Show::Report | Show::Image | Show::Look => Form::Lines,
    };
    match opening {
        Opening::New(world) => Replay::new(rt.alloc(), world, events, form),
        Opening::Adopt(file, actors) => {
            let words = words_in(rt, &file, seen)?;
            Replay::adopt(rt.alloc(), &words, actors, events, form)
        }
    }
}

// Replays a schedule, and shows what was asked for.
fn meet<R: Files + Print + AllocGlobal>(
    rt: &R,
    request: ReplayRequest<'_>,
    seen: &mut Seen,
) -> Result<(), ReplayFault> {
    let alloc = rt.alloc();
    let Schedule { opening, orders } = schedule_in(rt, request.schedule, seen)?;
    let mut replay = start(rt, opening, request, seen)?;
    if let Some(number) = first_bad(&orders, replay.words().len()) {
        return Err(ReplayFault::BadLine(number));
    }
    let mut writer = Watched::new(Noted {
        inner: io::writer(rt),
        reason: &seen.reason,
        copy: None,
    });
    match request.show {
        Show::Lines | Show::Picture => match write_texts(alloc, writer, &mut replay, &orders) {
            Ok(_) => Ok(()),
            Err(fault) => Err(fault),
        },
        Show::Report => show_report(alloc, &mut writer, &mut replay, &orders),
        Show::Image => show_image(&mut writer, &mut replay, &orders),
        Show::Look => show_look(alloc, &mut writer, &mut replay, &orders),
    }
}

// Replays the records of a schedule, and writes the report of the words that they leave.
fn show_report<W: Write>(
    alloc: Global,
    writer: &mut Watched<W>,
    replay: &mut Replay,
    orders: &[Order],
) -> Result<(), ReplayFault>
    ensures shown { OnOk result ((done : List (LinePlace × Deed)) × (text : List ℕ) × Replays 2 orders.now replay.old.left replay.old.world.world_state replay.new.world.world_state replay.new.left done × IsReportOf replay.new.world.world_state.words.items text × Appends (W.contents (watched_inner writer.old)) (W.contents (watched_inner writer.new)) text) }
{
    replay.run(&mut io::sink(), orders)?;
    write_report(alloc, writer, replay.words())
}

// Replays the records of a schedule, and writes the words that they leave.
fn show_image<W: Write>(
    writer: &mut Watched<W>,
    replay: &mut Replay,
    orders: &[Order],
) -> Result<(), ReplayFault>
    ensures shown { OnOk result ((done : List (LinePlace × Deed)) × Replays 2 orders.now replay.old.left replay.old.world.world_state replay.new.world.world_state replay.new.left done × Appends (W.contents (watched_inner writer.old)) (W.contents (watched_inner writer.new)) (bytes_of_words replay.new.world.world_state.words.items)) }
{
    replay.run(&mut io::sink(), orders)?;
    write_image(writer, replay.words())
}

// Replays the records of a schedule, and writes the image of the look that they take.
fn show_look<W: Write>(
    alloc: Global,
    writer: &mut Watched<W>,
    replay: &mut Replay,
    orders: &[Order],
) -> Result<(), ReplayFault>
    ensures shown { OnOk result ((look : Look) × (image : List ℕ) × TakesLook orders.now replay.old.left replay.old.world.world_state replay.new.world.world_state replay.new.left no_look look × GivesImage (begun_look look 3 replay.new.world.world_state.words.items) image × Appends (W.contents (watched_inner writer.old)) (W.contents (watched_inner writer.new)) (bytes_of_words image)) }
{
    let mut copies = Copies::none(alloc);
    replay.look_on(alloc, &mut copies, orders)?;
    let image = copies.compose(alloc, replay.words())?;
    write_image(writer, image.words())
}

// Shows a schedule as it is replayed, through a buffer, and gives the writer back. What was done before a fault is
// shown too.
fn write_texts<W: Write + Drop>(
    alloc: Global,
    writer: Watched<W>,
    replay: &mut Replay,
    orders: &[Order],
) -> Result<Watched<W>, ReplayFault>
    ensures shown { IfOk result (λ after. (done : List (LinePlace × Deed)) × Replays 2 orders.now replay.old.left replay.old.world.world_state replay.new.world.world_state replay.new.left done × Appends (W.contents (watched_inner writer)) (W.contents (watched_inner after)) (texts replay.old.form done)) }
    ensures flushed { IfOk result (λ after. is_flushed after ≡ true) }
{
    let mut texts = io::BufWriter::new(alloc, writer).map_err(|_| ReplayFault::NoMemory)?;
    let done = replay.run(&mut texts, orders);
    let mut after = texts.into_inner().map_err(|_| ReplayFault::Write)?;
    after.flush().map_err(|_| ReplayFault::Write)?;
    done?;
    Ok(after)
}

// Writes the report of the words of a world, whose header has no fault.
fn write_report<W: Write>(
    alloc: Global,
    writer: &mut Watched<W>,
    words: &[u64],
) -> Result<(), ReplayFault>
    requires { header_of words.now ≡ Ok (head_of words.now) }
    ensures text { OnOk result ((text : List ℕ) × IsReportOf words.now text × Appends (W.contents (watched_inner writer.old)) (W.contents (watched_inner writer.new)) text) }
    ensures flushed { OnOk result (is_flushed writer.new ≡ true) }
{
    let reading = match image_reader::read(alloc, words) {
        Ok(reading) => reading,
        Err(ImageFault::NoMemory) => return Err(ReplayFault::NoMemory),
        Err(_) => unreachable!(),
    };
    let text = report_text(alloc, &reading)?;
    writer.write_all(&text).map_err(|_| ReplayFault::Write)?;
    writer.flush().map_err(|_| ReplayFault::Write)
}

// Writes the words of a world.
fn write_image<W: Write>(writer: &mut Watched<W>, words: &[u64]) -> Result<(), ReplayFault>
    ensures bytes { OnOk result (Appends (W.contents (watched_inner writer.old)) (W.contents (watched_inner writer.new)) (bytes_of_words words.now)) }
    ensures flushed { OnOk result (is_flushed writer.new ≡ true) }
{
    write_words(writer, words).map_err(|_| ReplayFault::Write)?;
    writer.flush().map_err(|_| ReplayFault::Write)
}
