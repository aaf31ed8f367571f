//! The files of a command, or its standard streams. `-` is standard input, and as OUT standard output.

ghost use Rattle.std.specs.Prelude.{◌≡◌, false, IfOk};
ghost use Rattle.segment_image.specs.Watched.{has_failed};

use crate::cause::Cause;
use crate::context::Context;
use crate::explaining::{unopened, unopened_out};
use crate::failure::Failure;
use crate::incoming::Incoming;
use crate::noted::{Noted, Stream};
use crate::output::{Output, open_output};
use crate::system::System;
use fault_texts::Origin;
use persist_report_core::CliFault;
use report_asks::DASH;
use std::fs::File;
use std::io::Printer;
use std::{fs, io};

/// Opens a file that is there, to read it, or standard input for `-`. What is read is put into the copy, if there is
/// one. On `Ok` the file has not failed.
pub fn open<'a, R: System>(
    context: &Context<'_, R>,
    path: &'a str,
    copy: Option<Vec<u8>>,
) -> Result<Stream<'a, Incoming<R::File, R::Reader>>, Failure>
    ensures { IfOk result (λ file. has_failed file ≡ false) }
{
    if path == DASH {
        let input = Incoming::Standard(context.rt.reader());
        return Ok(Noted::stream(input, Origin::Input, copy));
    }
    match fs::open(context.rt, path) {
        Ok(file) => Ok(Noted::stream(Incoming::File(file), Origin::File(path), copy)),
        Err(error) => Err(unopened(context, Cause::of(CliFault::Read, error), path)),
    }
}

/// Opens the file that is written, or standard output for `-`. On `Ok` it has not failed.
pub fn open_out<'a, 'r, R: System>(
    context: &Context<'r, R>,
    path: &'a str,
) -> Result<Stream<'a, Output<File, Printer<'r, R>>>, Failure>
    ensures { IfOk result (λ file. has_failed file ≡ false) }
{
    if path == DASH {
        let output = Output::Standard(io::writer(context.rt));
        return Ok(Noted::stream(output, Origin::Output, None));
    }
    match open_output(context.rt, path) {
        Ok(output) => Ok(Noted::stream(output, Origin::File(path), None)),
        Err(why) => Err(unopened_out(context, why, path)),
    }
}
