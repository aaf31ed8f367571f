//! Reads what was opened.

use crate::found::Found;
use crate::inputs::Named;
use crate::left_out::{first_failure, input_failure, path_of, put_left};
use crate::looks::{Looks, input_of_look, read_looks};
use crate::minus::less_earlier;
use crate::opened::{OneFile, Opened};
use crate::origins::Origins;
use crate::summing::{HowRead, add_from, sum_of_names};
use fault_texts::Origin;
use persist_report_core::read_input;
use reading_sums::Sums;
use report_asks::Inputs;
use report_streams::{Context, Failure, Noted, Sentence, System, failed};
use std::io::Read;
use std::sync::Wait;
use std::thread::Threads;
use sum_commands::{InputKind, Summed};
use text_forms::Subject;

// What the words of an input are as an image.
fn found_in<'a, R: AllocGlobal, I: Drop>(
    context: &Context<'_, R>,
    words: &[u64],
    input: Noted<'a, I>,
) -> Result<Found, Failure> {
    match Subject::of_words(context.alloc(), words) {
        Ok(subject) => Found::of_image(context, subject, input),
        Err(fault) => Err(failed(context, fault, None, &input, (Origin::Output, None))),
    }
}

// Reads one image.
fn read_one<'a, R: AllocGlobal, F: Read + Drop, I: Read + Drop>(
    context: &Context<'_, R>,
    file: OneFile<'a, F, I>,
) -> Result<Found, Failure> {
    let OneFile { mut reader } = file;
    let read = read_input(context.alloc(), &mut reader);
    let input = reader.into_inner();
    match read {
        Ok(words) => found_in(context, &words, input),
        Err(fault) => Err(failed(context, fault, None, &input, (Origin::Output, None))),
    }
}

// Reads a look.
fn read_look<'a, R: AllocGlobal, F: Read + Drop, I: Read + Drop>(
    context: &Context<'_, R>,
    looks: Looks<'a, F, I>,
) -> Result<Found, Failure> {
    let path = looks.path;
    let image = read_looks(context, looks)?;
    found_in(context, image.words(), input_of_look(context, path, &image))
}

// Reads one totals, which are a sum.
fn read_totals<R: AllocGlobal, F: Read + Drop, I: Read + Drop>(
    context: &Context<'_, R>,
    file: OneFile<'_, F, I>,
) -> Result<Found, Failure> {
    let OneFile { mut reader } = file;
    let mut sums = Sums::new(context.alloc());
    let added = add_from(context.alloc(), &mut sums, InputKind::Totals, &mut reader);
    let path = path_of(reader.into_inner().origin());
    match added {
        Ok(is_damaged) => {
            let origins = Origins::one(context.alloc(), path)?;
            Found::of_sum(context, sums, is_damaged, 0, origins)
        }
        Err(fault) => Err(input_failure(context, fault, path)),
    }
}

// Adds up inputs by their names. Those that cannot be read are left out, and `sentences` gets what is reported of them, or
// the first of them ends it.
fn read_many<R: System + Threads + Wait>(
    context: &Context<'_, R>,
    names: &[Named],
    inputs: &Inputs<'_>,
    sentences: &mut Vec<Sentence>,
) -> Result<Found, Failure> {
    let how = HowRead {
        is_live: inputs.is_live,
        at: inputs.at,
        is_strict: inputs.is_strict,
        workers: inputs.workers(),
    };
    let Summed {
        sums,
        left,
        is_damaged,
        ..
    } = sum_of_names(context, names, how)?;
    let count = left.len() as u64;
    if inputs.is_strict {
        first_failure(context, names, left)?;
    } else {
        put_left(context.alloc(), names, &left, sentences)?;
    }
    let sums = match inputs.earlier {
        Some(earlier) => less_earlier(context, sums, earlier, how.workers)?,
        None => sums,
    };
    let origins = Origins::of(context.alloc(), inputs, names)?;
    Found::of_sum(context, sums, is_damaged, count, origins)
}

impl<F: Read + Drop, I: Read + Drop> Opened<'_, F, I> {
    /// Reads what was opened for these inputs. Of many inputs those that cannot be read are left out, or the first of
    /// them ends it if the inputs are strict. What is to be reported of them is appended to `sentences`, also if something
    /// else ends it.
    pub fn read<R: System + Threads + Wait>(
        self,
        context: &Context<'_, R>,
        inputs: &Inputs<'_>,
        sentences: &mut Vec<Sentence>,
    ) -> Result<Found, Failure> {
        match self {
            Opened::One(file) => read_one(context, file),
            Opened::Totals(file) => read_totals(context, file),
            Opened::Look(looks) => read_look(context, looks),
            Opened::Many(names) => read_many(context, &names, inputs, sentences),
        }
    }
}
