//! The rows of a picture of what is done: a column for each actor, a row for each begin, each event and each answer.

ghost use Rattle.std.specs.Prelude.{◌≡◌, [], Some, None, OnOk};
ghost use Rattle.std.specs.Fmt.{decimal};
ghost use Rattle.std.specs.Io.KnownBytes.{Appends};
ghost use Rattle.stepped.specs.Picture.{answer_cell, begin_cell, call_text, column, event_cell, load_cell, row, row_start};
ghost use Rattle.stepped.specs.declared.lines.Effect.TheVariants.{Loaded};

use crate::lines::{Effect, Load};
use crate::meaning::put_meaning;
use crate::said::put_said;
use crate::value::put_value;
use hist_core::{Answer, Call};
use std::io;
use std::io::Write;

// What is to the left of a column for each actor before.
const GAP: &[u8] = b"                                ";

// Goes to the column of an actor.
fn put_column<W: Write>(writer: &mut W, actor: usize) -> io::Result<()>
    ensures { OnOk result (Appends (W.contents writer.old) (W.contents writer.new) (column actor)) }
{
    for _ in 0..actor {
        writer.write_all(GAP)?;
    }
    Ok(())
}

// Begins a row that has no number.
fn start_row<W: Write>(writer: &mut W, actor: usize) -> io::Result<()>
    ensures { OnOk result (Appends (W.contents writer.old) (W.contents writer.new) (row_start [] actor)) }
{
    writer.write_all(b"\t")?;
    put_column(writer, actor)
}

// Begins the row of an event, with its number.
fn start_event<W: Write>(writer: &mut W, event: u64, actor: usize) -> io::Result<()>
    ensures { OnOk result (Appends (W.contents writer.old) (W.contents writer.new) (row_start (decimal event) actor)) }
{
    write!(writer, "{event}\t")?;
    put_column(writer, actor)
}

// What a call asks for.
fn put_call<W: Write>(writer: &mut W, call: &Call) -> io::Result<()>
    ensures { OnOk result (Appends (W.contents writer.old) (W.contents writer.new) (call_text call.now)) }
{
    match call {
        Call::Hist(name, _) => {
            writer.write_all(b"hist ")?;
            writer.write_all(name)
        }
        Call::Add(name, value, count) => {
            writer.write_all(b"add ")?;
            writer.write_all(name)?;
            write!(writer, " {value} {count}")
        }
        Call::Delta(name) => {
            writer.write_all(b"delta ")?;
            writer.write_all(name)
        }
        Call::Snapshot(name) => {
            writer.write_all(b"snapshot ")?;
            writer.write_all(name)
        }
        Call::Batch(name, ..) => {
            writer.write_all(b"batch ")?;
            writer.write_all(name)
        }
        Call::SetCorrupt => writer.write_all(b"set_corrupt"),
    }
}

/// Writes the row of a call that begins, byte for byte. The error is the writer's.
pub fn draw_begin<W: Write>(writer: &mut W, actor: usize, call: &Call) -> io::Result<()>
    ensures { OnOk result (Appends (W.contents writer.old) (W.contents writer.new) (row [] actor (begin_cell actor call.now))) }
{
    start_row(writer, actor)?;
    write!(writer, "actor {actor}: ")?;
    put_call(writer, call)?;
    writer.write_all(b"\n")
}

// A load: what its word means, and what it found.
fn put_load<W: Write>(writer: &mut W, words: &[u64], load: Load) -> io::Result<()>
    ensures { OnOk result (Appends (W.contents writer.old) (W.contents writer.new) (event_cell words.now (Loaded load))) }
{
    put_meaning(writer, words, load.at)?;
    writer.write_all(b": loaded ")?;
    put_value(writer, words, load.at, load.value)
}

/// Writes the row of a load of a look into a copy, as the words are then. The error is the writer's.
pub fn draw_look<W: Write>(writer: &mut W, copy: usize, load: Load, words: &[u64]) -> io::Result<()>
    ensures { OnOk result (Appends (W.contents writer.old) (W.contents writer.new) (row [] 0 (load_cell copy words.now load))) }
{
    start_row(writer, 0)?;
    write!(writer, "copy {copy}: ")?;
    put_load(writer, words, load)?;
    writer.write_all(b"\n")
}

/// Writes the row of an event, with the word that it changed, or with the exchange that failed, as the words are
/// then. The error is the writer's.
pub fn draw_event<W: Write>(
    writer: &mut W,
    event: u64,
    actor: usize,
    effect: Effect,
    words: &[u64],
) -> io::Result<()>
    ensures { OnOk result (Appends (W.contents writer.old) (W.contents writer.new) (row (decimal event) actor (event_cell words.now effect))) }
{
    start_event(writer, event, actor)?;
    match effect {
        Effect::Changed(change) => {
            put_meaning(writer, words, change.at)?;
            writer.write_all(b" ")?;
            put_value(writer, words, change.at, change.old)?;
            writer.write_all(b" -> ")?;
            put_value(writer, words, change.at, change.new)?;
            writer.write_all(b"\n")
        }
        Effect::Missed(miss) => {
            put_meaning(writer, words, miss.at)?;
            writer.write_all(b": wanted ")?;
            put_value(writer, words, miss.at, miss.wanted)?;
            writer.write_all(b", found ")?;
            put_value(writer, words, miss.at, miss.found)?;
            writer.write_all(b"\n")
        }
        Effect::Loaded(load) => {
            put_load(writer, words, load)?;
            writer.write_all(b"\n")
        }
        Effect::Quiet => writer.write_all(b"-\n"),
    }
}

/// Writes the row of an answer, byte for byte. The error is the writer's.
pub fn draw_answer<W: Write>(writer: &mut W, actor: usize, answer: &Answer) -> io::Result<()>
    ensures { OnOk result (Appends (W.contents writer.old) (W.contents writer.new) (row [] actor (answer_cell answer.now))) }
{
    start_row(writer, actor)?;
    writer.write_all(b"answer: ")?;
    put_said(writer, answer)?;
    writer.write_all(b"\n")
}
