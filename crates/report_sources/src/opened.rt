//! What a command that writes a text has opened.

ghost use Rattle.std.specs.Prelude.{◌≡◌, false};
ghost use Rattle.segment_image.specs.Watched.{has_failed};

use crate::inputs::{Named, is_of_many, names_of};
use crate::looks::{Looks, file_of_look, open_looks};
use crate::peeked::Peeked;
use report_asks::{DASH, Inputs};
use report_streams::{Context, Failure, Incoming, Noted, Stream, System, open, reads_terminal};
use std::rt::Files;
use sum_commands::InputKind;

/// The one file that is read, or standard input. Its first bytes were read at most, and it has not failed.
#[derive(Drop)]
pub struct OneFile<'a, F, I> {
    pub reader: Stream<'a, Peeked<Incoming<F, I>>>,
    ghost sound: { has_failed reader ≡ false },
}

/// What a command that writes a text has opened.
#[derive(Drop)]
pub enum Opened<'a, F, I> {
    /// One image.
    One(OneFile<'a, F, I>),
    /// One totals.
    Totals(OneFile<'a, F, I>),
    /// The file of a look.
    Look(Looks<'a, F, I>),
    /// The names of inputs that are added up. Each is opened in its turn.
    Many(Vec<Named>),
}

// Says on the error stream that standard input is read, if that is a terminal: a user may have forgotten FILE. If this
// cannot be written, the image is read all the same.
fn say_what_is_read<R: Files + Eprint>(rt: &R) {
    if reads_terminal(rt) {
        let _ = rt.eprint(
            "persist_report: reads the image from standard input, since no FILE is named (Ctrl-C ends it)\n",
        );
    }
}

// Opens the one file that is read, or standard input. Its first bytes say whether it is totals, unless it has to be an
// image.
fn open_one<'a, R: System>(
    context: &Context<'_, R>,
    file: Option<&'a str>,
    is_image_alone: bool,
) -> Result<Opened<'a, R::File, R::Reader>, Failure> {
    if file.is_none() {
        say_what_is_read(context.rt);
    }
    let opened = open(context, file.unwrap_or(DASH), None)?.into_inner();
    let origin = opened.origin();
    if is_image_alone {
        let unread = Peeked::unread(context.alloc(), opened.into_inner());
        let reader = Noted::stream(unread, origin, context.copy());
        return Ok(Opened::One(OneFile { reader }));
    }
    let (kind, peeked) = Peeked::of(context.alloc(), opened.into_inner())?;
    let reader = Noted::stream(peeked, origin, context.copy());
    match kind {
        InputKind::Totals => Ok(Opened::Totals(OneFile { reader })),
        InputKind::Image | InputKind::Other => Ok(Opened::One(OneFile { reader })),
    }
}

/// Opens what is to be read: one image or totals, in a file or on standard input; the file of a look; or, of many inputs,
/// their names. If no file is named and standard input is a terminal, a line on the error stream reports this. What is
/// read is put into a copy, if faults are explained.
///
/// `Usage` comes if standard input is named twice, or if a look is asked for and no file is named, or `-`; and `Read` if
/// a file or a folder cannot be opened.
pub fn open_source<'a, R: System>(
    context: &Context<'_, R>,
    inputs: &Inputs<'a>,
) -> Result<Opened<'a, R::File, R::Reader>, Failure> {
    if is_of_many(context.rt, inputs) {
        return Ok(Opened::Many(names_of(context, inputs)?));
    }
    if inputs.is_live {
        let path = file_of_look(inputs.first())?;
        return Ok(Opened::Look(open_looks(context, path, inputs.at)?));
    }
    open_one(context, inputs.first(), inputs.is_image_alone)
}

impl<F, I> Opened<'_, F, I> {
    /// Returns whether it is one image, of which nothing was read but its first bytes.
    pub fn is_one(&self) -> bool {
        matches!(self, Opened::One(_))
    }
}
