//! Looks at a segment in a file that is in use, which is read three times.

ghost use Rattle.std.specs.Prelude.{◌≡◌, false, IfOk};
ghost use Rattle.segment_image.specs.Watched.{has_failed};

use fault_texts::Origin;
use persist_report_core::{CliFault, read_look};
use report_asks::{DASH, Wrong};
use report_streams::{
    Cause, Context, Failure, Incoming, Noted, Part, Stream, System, failed, open, unopened,
};
use segment_image::{Image, Watched, write_words};
use std::fs;
use std::io::Read;

/// The file of a look, opened three times. It is read in this order.
#[derive(Drop)]
pub struct Looks<'a, F, I> {
    /// Its path.
    pub path: &'a str,
    pub first: Stream<'a, Incoming<F, I>>,
    pub second: Stream<'a, Incoming<F, I>>,
    pub third: Stream<'a, Incoming<F, I>>,
    ghost first_sound: { has_failed first ≡ false },
    ghost second_sound: { has_failed second ≡ false },
    ghost third_sound: { has_failed third ≡ false },
}

/// Returns that of three inputs that was read last: they are read one after the other.
pub fn last_used<'n, 'a, I>(
    first: &'n Noted<'a, I>,
    second: &'n Noted<'a, I>,
    third: &'n Noted<'a, I>,
) -> &'n Noted<'a, I> {
    if third.is_used() {
        third
    } else if second.is_used() {
        second
    } else {
        first
    }
}

// Opens a file to read it, or the segment in it that begins at a byte.
fn open_at<'a, R: System>(
    context: &Context<'_, R>,
    path: &'a str,
    at: Option<u64>,
    copy: Option<Vec<u8>>,
) -> Result<Stream<'a, Incoming<R::File, R::Reader>>, Failure>
    ensures { IfOk result (λ file. has_failed file ≡ false) }
{
    let Some(at) = at else {
        return open(context, path, copy);
    };
    let part = match fs::open(context.rt, path) {
        Ok(file) => Part::of(context.alloc(), file, at),
        Err(error) => Err(error),
    };
    match part {
        Ok(part) => Ok(Noted::stream(Incoming::Part(part), Origin::File(path), copy)),
        Err(error) => Err(unopened(context, Cause::of(CliFault::Read, error), path)),
    }
}

/// Opens the file of a look three times. If a byte is named, the segment begins there, as in the memory of a process.
/// What is read last is put into a copy, if faults are explained.
pub fn open_looks<'a, R: System>(
    context: &Context<'_, R>,
    path: &'a str,
    at: Option<u64>,
) -> Result<Looks<'a, R::File, R::Reader>, Failure> {
    let first = open_at(context, path, at, None)?;
    let second = open_at(context, path, at, None)?;
    let third = open_at(context, path, at, context.copy())?;
    Ok(Looks {
        path,
        first,
        second,
        third,
    })
}

// Returns the image of a look.
pub(crate) fn read_looks<'a, R: AllocGlobal, F: Read + Drop, I: Read + Drop>(
    context: &Context<'_, R>,
    looks: Looks<'a, F, I>,
) -> Result<Image, Failure> {
    let Looks {
        path: _,
        mut first,
        mut second,
        mut third,
    } = looks;
    let fault = match read_look(context.alloc(), &mut first, &mut second, &mut third) {
        Ok(image) => return Ok(image),
        Err(fault) => fault,
    };
    let (first, second, third) = (first.into_inner(), second.into_inner(), third.into_inner());
    let last = last_used(&first, &second, &third);
    Err(failed(context, fault, None, last, (Origin::Output, None)))
}

/// Returns the image of a look at the segment in a file.
pub fn look_at<R: System>(
    context: &Context<'_, R>,
    path: &str,
    at: Option<u64>,
) -> Result<Image, Failure> {
    let looks = open_looks(context, path, at)?;
    read_looks(context, looks)
}

/// Returns the file of a look. `Usage` comes if none is named, or `-`.
pub fn file_of_look<'a>(file: Option<&'a str>) -> Result<&'a str, Failure> {
    match file {
        Some(path) if path != DASH => Ok(path),
        _ => Err(Failure::Usage(Wrong::NoFile)),
    }
}

/// Returns what the lines of a fault of a look are about: its file, and the bytes of its image if faults are explained
/// and there is memory for them.
pub fn input_of_look<'a, R: AllocGlobal>(
    context: &Context<'_, R>,
    path: &'a str,
    image: &Image,
) -> Noted<'a, ()> {
    let copy = match context.copy() {
        Some(copy) => bytes_of(copy, image),
        None => None,
    };
    Noted::stream((), Origin::File(path), copy).into_inner()
}

// The bytes of an image, in an empty list; none if memory runs out.
fn bytes_of(copy: Vec<u8>, image: &Image) -> Option<Vec<u8>> {
    let mut bytes = Watched::new(copy);
    match write_words(&mut bytes, image.words()) {
        Ok(()) => Some(bytes.into_inner()),
        Err(_) => None,
    }
}
