//! The sum of many inputs.

ghost use Rattle.std.specs.Prelude.{◌≡◌, false, length, IfOk, OnErr, ⊤};
ghost use Rattle.segment_image.specs.Watched.{has_failed};
ghost use Rattle.sum_commands.specs.Sources.{AddsSome, IsSumOfAllInputs};

use crate::inputs::{Named, What};
use crate::looks::look_at;
use crate::peeked::Peeked;
use crate::progress::ProgressLine;
use crate::recorded::add_recorded;
use persist_report_core::{CliFault, read_input};
use reading_sums::Sums;
use report_asks::DASH;
use report_streams::{Context, Failure, Incoming, System};
use segment_image::{Watched, read_bytes};
use std::alloc::Global;
use std::fs;
use std::fs::File;
use std::io::Read;
use std::rt::Files;
use std::sync::Wait;
use std::thread::Threads;
use sum_commands::{
    InputFault, InputKind, Manner, OpenInput, Source, Summed, add_image, add_totals,
    any_fault_may_come, nothing_is_added, sum_of_inputs,
};

/// How inputs are read.
#[derive(Clone, Copy)]
pub struct HowRead {
    /// Whether images are looked at, by one worker alone.
    pub is_live: bool,
    /// Where the segments that are looked at begin: at a byte, or at the start.
    pub at: Option<u64>,
    /// Whether the first that cannot be read ends it.
    pub is_strict: bool,
    /// How many workers add up.
    pub workers: usize,
}

// How many bytes a totals has at most.
const MAX_TOTALS: usize = 1 << 40;

/// Adds an image or a totals, which a reader has left, to a sum: one input more, after the readings of the sum [added].
/// Returns whether it is damaged. If it is left out, the sum is unchanged [refused].
pub fn add_from<R: Read>(
    alloc: Global,
    sums: &mut Sums,
    kind: InputKind,
    reader: &mut Watched<R>,
) -> Result<bool, InputFault>
    requires { has_failed reader.old ≡ false }
    ensures added { IfOk result (λ is_damaged. AddsSome is_damaged sums.old sums.new) }
    ensures refused { OnErr result (sums.new ≡ sums.old) }
{
    if kind == InputKind::Totals {
        let text = read_bytes(alloc, reader, MAX_TOTALS).map_err(CliFault::from)?;
        add_totals(alloc, sums, &text)?;
        return Ok(false);
    }
    let words = read_input(alloc, reader)?;
    add_words(alloc, sums, &words)
}

// Adds the image in the words to a sum. Returns whether it is damaged.
fn add_words(alloc: Global, sums: &mut Sums, words: &[u64]) -> Result<bool, InputFault>
    ensures added { IfOk result (λ is_damaged. AddsSome is_damaged sums.old sums.new) }
    ensures refused { OnErr result (sums.new ≡ sums.old) }
{
    let damage = add_image(alloc, sums, words)?;
    Ok(damage.is_some())
}

// The fault of a look that failed.
fn fault_of_look(failure: Failure) -> CliFault {
    match failure {
        Failure::Fault(fault) => fault,
        Failure::Explained(fault, _lines) => fault,
        _other => CliFault::Read,
    }
}

// Adds the look at a file to a sum. Returns whether it is damaged.
fn add_look<R: System>(
    context: &Context<'_, R>,
    sums: &mut Sums,
    path: &str,
    at: Option<u64>,
) -> Result<bool, InputFault>
    ensures added { IfOk result (λ is_damaged. AddsSome is_damaged sums.old sums.new) }
    ensures refused { OnErr result (sums.new ≡ sums.old) }
{
    match look_at(context, path, at) {
        Ok(image) => add_words(context.alloc(), sums, image.words()),
        Err(failure) => Err(InputFault::Image(fault_of_look(failure))),
    }
}

// Adds an input to a sum. Returns whether it is damaged.
fn add_named<R: System>(
    context: &Context<'_, R>,
    sums: &mut Sums,
    name: &Named,
    how: HowRead,
) -> Result<bool, InputFault>
    ensures added { IfOk result (λ is_damaged. AddsSome is_damaged sums.old sums.new) }
    ensures refused { OnErr result (sums.new ≡ sums.old) }
{
    if let What::Recorded(recorded) = &name.what {
        return add_recorded(sums, recorded);
    }
    let path = name.path.as_str();
    let incoming = if path == DASH {
        Incoming::Standard(context.rt.reader())
    } else {
        match fs::open(context.rt, path) {
            Ok(file) => Incoming::File(file),
            Err(_) => return Err(InputFault::Image(CliFault::Read)),
        }
    };
    let (kind, peeked) = Peeked::of(context.alloc(), incoming)?;
    match kind {
        InputKind::Other if name.what.is_found() => {
            nothing_is_added(sums);
            Ok(false)
        }
        InputKind::Image if how.is_live && path != DASH => add_look(context, sums, path, how.at),
        _ => {
            let mut reader = Watched::new(peeked);
            add_from(context.alloc(), sums, kind, &mut reader)
        }
    }
}

// A file that is open, which a worker reads.
#[derive(Drop)]
struct OpenedFile {
    alloc: Global,
    file: File,
    // Whether it was found in a folder.
    is_found: bool,
}

impl OpenedFile {
    // Adds it to a sum. Returns whether it is damaged.
    fn add(self, sums: &mut Sums) -> Result<bool, InputFault>
        ensures added { IfOk result (λ is_damaged. AddsSome is_damaged sums.old sums.new) }
        ensures refused { OnErr result (sums.new ≡ sums.old) }
    {
        let OpenedFile {
            alloc,
            file,
            is_found,
        } = self;
        let (kind, peeked) = Peeked::of(alloc, file)?;
        if kind == InputKind::Other && is_found {
            nothing_is_added(sums);
            return Ok(false);
        }
        let mut reader = Watched::new(peeked);
        add_from(alloc, sums, kind, &mut reader)
    }
}

impl OpenInput for OpenedFile {
    ghost use Rattle.std.specs.Prelude.{⊤};

    // Nothing is known of what is in a file.
    ghost may_be = { λ _ _. ⊤ };

    ghost is_whole = { λ _. ⊥ };

    fn add_to(self, sums: &mut Sums) -> Result<bool, InputFault> {
        let added = self.add(sums);
        any_fault_may_come(&added);
        added
    }
}

// The inputs of a sum by their names.
#[derive(Drop)]
struct NamedInputs<'a, 'r, R> {
    context: &'a Context<'r, R>,
    names: &'a [Named],
    how: HowRead,
}

// Whether a regular file is at a path: to read it waits for nobody.
fn is_regular<R: Files>(rt: &R, path: &str) -> bool {
    match fs::metadata(rt, path) {
        Ok(found) => path != DASH && found.is_file(),
        Err(_) => false,
    }
}

impl<R: System> NamedInputs<'_, '_, R> {
    // Adds the input at a place to a sum. Returns whether it is damaged.
    fn add(&self, sums: &mut Sums, place: usize) -> Result<bool, InputFault>
        ensures added { IfOk result (λ is_damaged. AddsSome is_damaged sums.old sums.new) }
        ensures refused { OnErr result (sums.new ≡ sums.old) }
    {
        let Some(name) = self.names.get(place) else {
            nothing_is_added(sums);
            return Ok(false);
        };
        add_named(self.context, sums, name, self.how)
    }
}

impl<R: System> Source for NamedInputs<'_, '_, R> {
    ghost use Rattle.std.specs.Prelude.{⊤};

    type Opened = OpenedFile;

    // Nothing is known of what is in a file.
    ghost may_be = { λ _ _ _. ⊤ };

    ghost are_whole = { λ _. ⊥ };

    // Workers read regular files. Standard input, pipes and devices are read in their turn.
    fn open(&self, place: usize) -> Option<OpenedFile> {
        let name = self.names.get(place)?;
        let path = name.path.as_str();
        if !is_regular(self.context.rt, path) {
            return None;
        }
        let file = fs::open(self.context.rt, path).ok()?;
        Some(OpenedFile {
            alloc: self.context.alloc(),
            file,
            is_found: name.what.is_found(),
        })
    }

    fn add_input(&self, sums: &mut Sums, place: usize) -> Result<bool, InputFault> {
        let added = self.add(sums, place);
        any_fault_may_come(&added);
        added
    }
}

/// Returns the sum of inputs in their order, without those that are left out, which it lists; up to the first of these
/// if it is strict. The result is the same for any number of workers. Nothing is known of what is in the inputs, so
/// this promises how many were reached and which were left out [sum]; that each counts once is what `sum_of_inputs`
/// promises for any source. If it takes long and the error stream is a terminal, a line there shows how far it is.
pub fn sum_of_names<R: System + Threads + Wait>(
    context: &Context<'_, R>,
    names: &[Named],
    how: HowRead,
) -> Result<Summed, CliFault>
    ensures sum { IfOk result (IsSumOfAllInputs ⊥ (λ place input. ⊤) how.is_strict (length names.now)) }
{
    let source = NamedInputs {
        context,
        names,
        how,
    };
    let manner = Manner {
        workers: if how.is_live { 1 } else { how.workers },
        is_strict: how.is_strict,
    };
    let mut line = ProgressLine::of(context.rt, names.len());
    let summed = sum_of_inputs(
        context.rt,
        context.alloc(),
        &source,
        &mut line,
        names.len(),
        manner,
    );
    line.erase();
    Ok(summed?)
}
