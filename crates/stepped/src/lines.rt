//! The lines that show what was done: the number of a record, its actor, and what it did, with commas between them.

ghost use Rattle.std.specs.Prelude.{◌≡◌, ◌∷◌, ◌++◌, [], codes, Some, OnOk};
ghost use Rattle.std.specs.Fmt.{decimal, signed_decimal};
ghost use Rattle.std.specs.Io.KnownBytes.{Appends};
ghost use Rattle.stepped.specs.Lines.{answer_fields, behind, line, place_text, refusal_fields, refusal_word as refusal_word_of, spec_fault_word as spec_fault_word_of, step_fields, units_fields};

use bucket_ranges::SpecFault;
use hist_core::{Answer, Refusal};
use std::io;
use std::io::Write;

/// Which record a line belongs to, and whose call.
#[derive(Clone, Copy)]
pub struct LinePlace {
    /// The number of the record, from 1.
    pub number: u64,
    /// The actor, from 0, or the copy of a look, from 1.
    pub actor: usize,
}

/// A word that an event changed.
#[derive(Clone, Copy)]
pub struct Change {
    /// Its number.
    pub at: usize,
    /// What it was.
    pub old: u64,
    /// What it is.
    pub new: u64,
}

/// An exchange that failed, since the word was not what it expected.
#[derive(Clone, Copy)]
pub struct Miss {
    /// The number of the word.
    pub at: usize,
    /// What it expected there.
    pub wanted: u64,
    /// What it found.
    pub found: u64,
}

/// A load, and what it found.
#[derive(Clone, Copy)]
pub struct Load {
    /// The number of the word.
    pub at: usize,
    /// What it found.
    pub value: u64,
}

/// What an event did.
#[derive(Clone, Copy)]
pub enum Effect {
    /// It changed no word, and was neither a load nor an exchange that failed.
    Quiet,
    /// It changed a word.
    Changed(Change),
    /// It was an exchange that failed.
    Missed(Miss),
    /// It was a load.
    Loaded(Load),
}

impl Effect {
    ghost use Rattle.stepped.specs.Lines.{effect_of};

    /// Returns what an event did: it changed this; or, if that is nothing, it missed this, or else loaded this.
    pub fn of(change: Option<Change>, miss: Option<Miss>, load: Option<Load>) -> Effect
        ensures { result ≡ effect_of change miss load }
    {
        match (change, miss, load) {
            (Some(change), _, _) => Effect::Changed(change),
            (None, Some(miss), _) => Effect::Missed(miss),
            (None, None, Some(load)) => Effect::Loaded(load),
            (None, None, None) => Effect::Quiet,
        }
    }
}

// The number of the record and the actor, with which a line begins.
fn put_place<W: Write>(writer: &mut W, place: LinePlace) -> io::Result<()>
    ensures { OnOk result (Appends (W.contents writer.old) (W.contents writer.new) (place_text place)) }
{
    let LinePlace { number, actor } = place;
    write!(writer, "{number},{actor}")
}

// A word after a comma.
fn put_word<W: Write>(writer: &mut W, word: &[u8]) -> io::Result<()>
    ensures { OnOk result (Appends (W.contents writer.old) (W.contents writer.new) (behind (word.now ∷ []))) }
{
    writer.write_all(b",")?;
    writer.write_all(word)
}

// A number after a comma.
fn put_number<W: Write>(writer: &mut W, number: u64) -> io::Result<()>
    ensures { OnOk result (Appends (W.contents writer.old) (W.contents writer.new) (behind (decimal number ∷ []))) }
{
    write!(writer, ",{number}")
}

// A number with its sign after a comma.
fn put_signed<W: Write>(writer: &mut W, number: i64) -> io::Result<()>
    ensures { OnOk result (Appends (W.contents writer.old) (W.contents writer.new) (behind (signed_decimal number ∷ []))) }
{
    write!(writer, ",{number}")
}

// The end of a line.
fn end_line<W: Write>(writer: &mut W) -> io::Result<()>
    ensures { OnOk result (Appends (W.contents writer.old) (W.contents writer.new) (10 ∷ [])) }
{
    writer.write_all(b"\n")
}

/// Writes the line of a call that begins. The error is the writer's.
pub fn show_begin<W: Write>(writer: &mut W, place: LinePlace) -> io::Result<()>
    ensures { OnOk result (Appends (W.contents writer.old) (W.contents writer.new) (line place (codes "begin" ∷ []))) }
{
    put_place(writer, place)?;
    put_word(writer, b"begin")?;
    end_line(writer)
}

// The word that an event changed: its number, what it was and what it is.
fn put_change<W: Write>(writer: &mut W, change: Change) -> io::Result<()>
    ensures { OnOk result (Appends (W.contents writer.old) (W.contents writer.new) (behind (decimal change.at ∷ decimal change.old ∷ decimal change.new ∷ []))) }
{
    put_number(writer, change.at as u64)?;
    put_number(writer, change.old)?;
    put_number(writer, change.new)
}

/// Writes the line of an event, with the word that it changed. The error is the writer's.
pub fn show_step<W: Write>(writer: &mut W, place: LinePlace, effect: Effect) -> io::Result<()>
    ensures { OnOk result (Appends (W.contents writer.old) (W.contents writer.new) (line place (step_fields effect))) }
{
    put_place(writer, place)?;
    put_word(writer, b"step")?;
    if let Effect::Changed(change) = effect {
        put_change(writer, change)?;
    }
    end_line(writer)
}

/// Writes the line of a load of a look: the word, and what it found. The error is the writer's.
pub fn show_look<W: Write>(writer: &mut W, place: LinePlace, load: Load) -> io::Result<()>
    ensures { OnOk result (Appends (W.contents writer.old) (W.contents writer.new) (line place (codes "look" ∷ decimal load.at ∷ decimal load.value ∷ []))) }
{
    put_place(writer, place)?;
    put_word(writer, b"look")?;
    put_number(writer, load.at as u64)?;
    put_number(writer, load.value)?;
    end_line(writer)
}

/// Writes the line of a call's answer. The error is the writer's.
pub fn show_answer<W: Write>(writer: &mut W, place: LinePlace, answer: &Answer) -> io::Result<()>
    ensures { OnOk result (Appends (W.contents writer.old) (W.contents writer.new) (line place (codes "answer" ∷ answer_fields answer.now))) }
{
    put_place(writer, place)?;
    put_word(writer, b"answer")?;
    put_answer(writer, answer)?;
    end_line(writer)
}

// The fields of an answer, each after a comma.
fn put_answer<W: Write>(writer: &mut W, answer: &Answer) -> io::Result<()>
    ensures { OnOk result (Appends (W.contents writer.old) (W.contents writer.new) (behind (answer_fields answer.now))) }
{
    match answer {
        Answer::Hist(reference) => {
            put_word(writer, b"hist")?;
            put_number(writer, *reference)
        }
        Answer::Added => put_word(writer, b"added"),
        Answer::Flagged => put_word(writer, b"flagged"),
        Answer::Delta(delta) => {
            put_word(writer, b"delta")?;
            put_signed(writer, delta.sum)?;
            put_units(writer, &delta.counts)
        }
        Answer::Snapshot(snapshot) => {
            put_word(writer, b"snapshot")?;
            put_signed(writer, snapshot.sum)?;
            put_number(writer, snapshot.redundant)?;
            put_units(writer, &snapshot.counts)
        }
        Answer::Refused(why) => {
            put_word(writer, b"refused")?;
            put_refusal(writer, *why)
        }
        Answer::BatchRefused(refusal) => {
            put_word(writer, b"batch_refused")?;
            put_number(writer, refusal.added as u64)?;
            put_refusal(writer, refusal.why)
        }
    }
}

// Keys and their units.
fn put_units<W: Write>(writer: &mut W, counts: &[(i32, u64)]) -> io::Result<()>
    ensures { OnOk result (Appends (W.contents writer.old) (W.contents writer.new) (behind (units_fields counts.now))) }
{
    for (key, units) in counts {
        put_signed(writer, i64::from(*key))?;
        put_number(writer, *units)?;
    }
    Ok(())
}

// Why a call is refused, with the fault of a spec.
fn put_refusal<W: Write>(writer: &mut W, why: Refusal) -> io::Result<()>
    ensures { OnOk result (Appends (W.contents writer.old) (W.contents writer.new) (behind (refusal_fields why))) }
{
    put_word(writer, refusal_word(why))?;
    match why {
        Refusal::BadSpec(fault) => put_word(writer, spec_fault_word(fault)),
        _ => Ok(()),
    }
}

/// Returns the word for a refusal.
pub fn refusal_word(why: Refusal) -> &'static [u8]
    ensures { result.now ≡ refusal_word_of why }
{
    match why {
        Refusal::BadName => b"BadName",
        Refusal::BadSpec(_) => b"BadSpec",
        Refusal::ZeroCount => b"ZeroCount",
        Refusal::NoUnits => b"NoUnits",
        Refusal::TooMany => b"TooMany",
        Refusal::NoMemory => b"NoMemory",
        Refusal::TooLarge => b"TooLarge",
        Refusal::Corrupt => b"Corrupt",
        Refusal::Full => b"Full",
        Refusal::OtherSpec => b"OtherSpec",
    }
}

/// Returns the word for a fault of a spec.
pub fn spec_fault_word(fault: SpecFault) -> &'static [u8]
    ensures { result.now ≡ spec_fault_word_of fault }
{
    match fault {
        SpecFault::BadMin => b"BadMin",
        SpecFault::BadMax => b"BadMax",
        SpecFault::TooFew => b"TooFew",
        SpecFault::TooMany => b"TooMany",
        SpecFault::BadRange => b"BadRange",
        SpecFault::Empty => b"Empty",
        SpecFault::NoMemory => b"NoMemory",
    }
}
