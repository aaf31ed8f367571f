//! The reading of a recording's folder, while other processes record there, or fold.
//!
//! It reads the totals, lists the folder, looks at each segment, and reads the totals again. If a fold has ended
//! meanwhile, or a file of the listing is gone, it begins again. So each segment is counted once: in the totals, which
//! name it, or by itself.
//!
//! A fold may end at any moment, so little is done between the two readings of the totals. Looks are kept, and added up
//! after the second one; and if it begins again, it looks at new segments alone: what had ended before it first began
//! is in the looks that it has.

ghost use Rattle.std.specs.Prelude.{◌≡◌, IfOk, OnErr};
ghost use Rattle.sum_commands.specs.Sources.{AddsSome};

use crate::standing::{Segment, cause_of_read, id_in, segments_in, totals_from, totals_text_in};
use image_reader::Reading;
use persist_report_core::{CliFault, damage_of, read_image, read_look};
use reading_sums::{Sums, SumsFault};
use recording_folders::{is_named, serial_of, stands};
use report_streams::{Context, Failure, Unopened, unopened, unopened_out};
use segment_image::Watched;
use std::alloc::{AllocError, Global};
use std::fs::File;
use std::io::ErrorKind;
use std::rt::Files;
use std::{fs, io, mem};
use sum_commands::{InputFault, append_next};
use sum_texts::Totals;

// How often a reading begins.
const MOST_TIMES: u32 = 16;

// Looks are kept as long as their files have at most this many bytes together. Other looks are added up at once.
const MOST_KEPT: u64 = 1 << 26;

/// What a recording's folder has: the sum of its totals, and of a look at each segment that they do not name.
#[derive(Drop)]
pub struct Recorded {
    sums: Sums,
    is_damaged: bool,
}

/// The reading of a recording's folder.
#[derive(Drop)]
pub struct FolderReading {
    pub recorded: Recorded,
    /// The paths of segments that could not be looked at, and are not in it.
    pub others: Vec<String>,
}

// What was found of a segment that was listed.
#[derive(Drop)]
enum Seen {
    // Its file is gone.
    Gone,
    // The totals name it.
    Named,
    // It was looked at before: the place of that look.
    Kept(usize),
    // What a look at it reads as.
    Look(Reading),
    // It cannot be looked at.
    Other,
}

// A look at a segment: its number, and what the look reads as.
#[derive(Drop)]
struct Look {
    number: u64,
    reading: Reading,
}

// The looks that are kept, and how many bytes their files have.
#[derive(Drop)]
struct Looks {
    all: Vec<Look>,
    bytes: u64,
}

impl Looks {
    // The place of the look at a segment, if it is kept.
    fn place_of(&self, number: u64, id: u64) -> Option<usize> {
        self.all
            .iter()
            .position(|look| look.number == number && look.reading.id == id)
    }

    // Whether the look at a file of this many bytes is kept too.
    fn has_room(&self, bytes: u64) -> bool {
        self.bytes.saturating_add(bytes) <= MOST_KEPT
    }

    // Keeps a look at a segment. Returns its place.
    fn put(&mut self, segment: &Segment, reading: Reading) -> Result<usize, AllocError> {
        let place = self.all.len();
        self.all.push(Look {
            number: segment.number,
            reading,
        })?;
        self.bytes = self.bytes.saturating_add(segment.bytes);
        Ok(place)
    }
}

/// Adds what a recording's folder has to a sum: one input more, after its readings [added]. Returns whether an image
/// there is damaged. If it is left out, the sum is unchanged [refused].
pub fn add_recorded(sums: &mut Sums, recorded: &Recorded) -> Result<bool, InputFault>
    ensures added { IfOk result (λ is_damaged. AddsSome is_damaged sums.old sums.new) }
    ensures refused { OnErr result (sums.new ≡ sums.old) }
{
    append_next(sums, &recorded.sums)?;
    Ok(recorded.is_damaged)
}

// What the look at a segment reads as; its file was opened three times.
fn reading_of_look(alloc: Global, files: (File, File, File)) -> Result<Reading, CliFault> {
    let mut first = Watched::new(files.0);
    let mut second = Watched::new(files.1);
    let mut third = Watched::new(files.2);
    let image = read_look(alloc, &mut first, &mut second, &mut third)?;
    read_image(alloc, image.words())
}

// Looks at a segment that was listed, if the totals do not name it and it was not looked at before.
fn see_file<R: Files<File = File> + AllocGlobal>(
    rt: &R,
    segment: &Segment,
    named: &[(u64, u64)],
    looks: &Looks,
) -> io::Result<Seen> {
    let mut first = fs::open(rt, &segment.path)?;
    if let Some(id) = id_in(rt.alloc(), &mut first)? {
        if is_named(named, segment.number, id) {
            return Ok(Seen::Named);
        }
        if let Some(place) = looks.place_of(segment.number, id) {
            return Ok(Seen::Kept(place));
        }
    }
    let second = fs::open(rt, &segment.path)?;
    let third = fs::open(rt, &segment.path)?;
    match reading_of_look(rt.alloc(), (first, second, third)) {
        Ok(reading) => Ok(Seen::Look(reading)),
        Err(CliFault::NoMemory) => Err(io::Error::from(ErrorKind::OutOfMemory)),
        Err(_) => Ok(Seen::Other),
    }
}

// The same. The one fault is that memory runs out.
fn see<R: Files<File = File> + AllocGlobal>(
    rt: &R,
    segment: &Segment,
    named: &[(u64, u64)],
    looks: &Looks,
) -> Result<Seen, AllocError> {
    match see_file(rt, segment, named, looks) {
        Ok(seen) => Ok(seen),
        Err(error) => match error.kind() {
            ErrorKind::NotFound => Ok(Seen::Gone),
            ErrorKind::OutOfMemory => Err(AllocError),
            _ => Ok(Seen::Other),
        },
    }
}

// A look at a segment of the listing.
#[derive(Drop)]
struct Looked<'s> {
    segment: &'s Segment,
    // The place of the look among those that are kept.
    place: usize,
}

// A reading that is being made.
#[derive(Drop)]
struct Round<'s> {
    recorded: Recorded,
    // The looks that have to be added to it.
    looked: Vec<Looked<'s>>,
    // The segments that are not in it.
    others: Vec<&'s Segment>,
}

impl<'s> Round<'s> {
    // What the totals of a folder have.
    fn of(alloc: Global, sums: Sums) -> Round<'s> {
        Round {
            recorded: Recorded {
                sums,
                is_damaged: false,
            },
            looked: Vec::new(alloc),
            others: Vec::new(alloc),
        }
    }

    // Adds what a look at a segment reads as. If a total would not fit, the segment is not in it.
    fn add(&mut self, segment: &'s Segment, reading: &Reading) -> Result<(), AllocError> {
        match self.recorded.sums.add(segment.number, reading) {
            Ok(()) => {
                let is_damaged = damage_of(reading).is_some();
                self.recorded.is_damaged = self.recorded.is_damaged || is_damaged;
            }
            Err(SumsFault::NoMemory) => return Err(AllocError),
            Err(SumsFault::TooMany) => self.others.push(segment)?,
        }
        Ok(())
    }

    // Takes up a segment that was listed. Returns whether its file is still there.
    fn take<R: Files<File = File> + AllocGlobal>(
        &mut self,
        rt: &R,
        segment: &'s Segment,
        named: &[(u64, u64)],
        looks: &mut Looks,
    ) -> Result<bool, AllocError> {
        match see(rt, segment, named, looks)? {
            Seen::Gone => return Ok(false),
            Seen::Named => {}
            Seen::Kept(place) => self.looked.push(Looked { segment, place })?,
            Seen::Other => self.others.push(segment)?,
            Seen::Look(reading) if looks.has_room(segment.bytes) => {
                let place = looks.put(segment, reading)?;
                self.looked.push(Looked { segment, place })?;
            }
            Seen::Look(reading) => self.add(segment, &reading)?,
        }
        Ok(true)
    }

    // Takes up all segments that were listed. Returns whether all their files are still there.
    fn take_all<R: Files<File = File> + AllocGlobal>(
        &mut self,
        rt: &R,
        segments: &'s [Segment],
        named: &[(u64, u64)],
        looks: &mut Looks,
    ) -> Result<bool, AllocError> {
        for segment in segments {
            if !self.take(rt, segment, named, looks)? {
                return Ok(false);
            }
        }
        Ok(true)
    }

    // Adds the looks that have to be added.
    fn add_looked(&mut self, looks: &Looks) -> Result<(), AllocError> {
        let looked = mem::try_take(&mut self.looked)?;
        for one in &looked {
            if let Some(look) = looks.all.get(one.place) {
                self.add(one.segment, &look.reading)?;
            }
        }
        Ok(())
    }

    // The reading, when all looks are added.
    fn end(mut self, alloc: Global) -> Result<FolderReading, AllocError> {
        self.others.sort_by(|a, b| a.number.cmp(&b.number))?;
        let mut others = Vec::new(alloc);
        for segment in &self.others {
            others.push(String::from_str(alloc, segment.path.as_str())?)?;
        }
        Ok(FolderReading {
            recorded: self.recorded,
            others,
        })
    }
}

// The reading of a folder; none if a fold ended meanwhile, or a file that was listed is gone.
fn read_once<R: Files<File = File> + AllocGlobal>(
    context: &Context<'_, R>,
    folder: &str,
    looks: &mut Looks,
) -> Result<Option<FolderReading>, Failure> {
    let before = totals_text_in(context, folder)?;
    let totals = totals_from(context, folder, before.as_deref())?;
    let serial = serial_of(&totals);
    let Totals { sums, of, fold: _ } = totals;
    let segments = match segments_in(context.rt, folder) {
        Ok(segments) => segments,
        Err(error) => return Err(unopened(context, cause_of_read(error), folder)),
    };
    let mut round = Round::of(context.alloc(), sums);
    if !round.take_all(context.rt, &segments, &of, looks)? {
        return Ok(None);
    }
    let after = totals_text_in(context, folder)?;
    // The same text has the same serial.
    let now = if after.as_deref() == before.as_deref() {
        serial
    } else {
        serial_of(&totals_from(context, folder, after.as_deref())?)
    };
    if !stands(serial, now) {
        return Ok(None);
    }
    round.add_looked(looks)?;
    Ok(Some(round.end(context.alloc())?))
}

/// Returns the reading of a recording's folder. `Busy` comes if folds ended, or files went away, as often as it was
/// read.
pub fn read_folder<R: Files<File = File> + AllocGlobal>(
    context: &Context<'_, R>,
    folder: &str,
) -> Result<FolderReading, Failure> {
    let mut looks = Looks {
        all: Vec::new(context.alloc()),
        bytes: 0,
    };
    for _ in 0..MOST_TIMES {
        if let Some(reading) = read_once(context, folder, &mut looks)? {
            return Ok(reading);
        }
    }
    Err(unopened_out(context, Unopened::Busy, folder))
}
