//! A call's answer in words.

ghost use Rattle.std.specs.Prelude.{codes, OnOk};
ghost use Rattle.std.specs.Io.KnownBytes.{Appends};
ghost use Rattle.stepped.specs.Lines.{spec_fault_word as fault_word};
ghost use Rattle.stepped.specs.Said.{answer_text, bad_spec_text, counts_text, head_text, items_text, key_text, keys_text, redundant_text, refusal_text, stopped_text};

use crate::lines::{refusal_word, spec_fault_word};
use crate::value::put_units;
use bucket_ranges::SpecFault;
use hist_core::{Answer, Refusal};
use std::io;
use std::io::Write;

// Units of a key, if there are any.
fn put_key<W: Write>(writer: &mut W, key: i32, units: u64) -> io::Result<()>
    ensures { OnOk result (Appends (W.contents writer.old) (W.contents writer.new) (key_text (key, units))) }
{
    if units == 0 {
        return Ok(());
    }
    writer.write_all(b", ")?;
    put_units(writer, units)?;
    write!(writer, " at {key}")
}

// Units of each key.
fn put_keys<W: Write>(writer: &mut W, counts: &[(i32, u64)]) -> io::Result<()>
    ensures { OnOk result (Appends (W.contents writer.old) (W.contents writer.new) (keys_text counts.now)) }
{
    for (key, units) in counts {
        put_key(writer, *key, *units)?;
    }
    Ok(())
}

// That a call is refused for its spec.
fn put_spec<W: Write>(writer: &mut W) -> io::Result<()>
    ensures { OnOk result (Appends (W.contents writer.old) (W.contents writer.new) (codes "refused, BadSpec ")) }
{
    writer.write_all(b"refused, BadSpec ")
}

// A fault of a spec.
fn put_fault<W: Write>(writer: &mut W, fault: SpecFault) -> io::Result<()>
    ensures { OnOk result (Appends (W.contents writer.old) (W.contents writer.new) (fault_word fault)) }
{
    writer.write_all(spec_fault_word(fault))
}

// That a call is refused for its spec, with the fault of the spec.
fn put_bad_spec<W: Write>(writer: &mut W, fault: SpecFault) -> io::Result<()>
    ensures { OnOk result (Appends (W.contents writer.old) (W.contents writer.new) (bad_spec_text fault)) }
{
    put_spec(writer)?;
    put_fault(writer, fault)
}

// Why a call is refused.
fn put_refusal<W: Write>(writer: &mut W, why: Refusal) -> io::Result<()>
    ensures { OnOk result (Appends (W.contents writer.old) (W.contents writer.new) (refusal_text why)) }
{
    match why {
        Refusal::BadSpec(fault) => put_bad_spec(writer, fault),
        _ => {
            writer.write_all(b"refused, ")?;
            writer.write_all(refusal_word(why))
        }
    }
}

// That a batch is refused after this many items.
fn put_items<W: Write>(writer: &mut W, items: usize) -> io::Result<()>
    ensures { OnOk result (Appends (W.contents writer.old) (W.contents writer.new) (items_text items)) }
{
    if items == 1 {
        write!(writer, ", after {items} item")
    } else {
        write!(writer, ", after {items} items")
    }
}

// Why a batch is refused, and after how many items.
fn put_stopped<W: Write>(writer: &mut W, why: Refusal, items: usize) -> io::Result<()>
    ensures { OnOk result (Appends (W.contents writer.old) (W.contents writer.new) (stopped_text why items)) }
{
    put_refusal(writer, why)?;
    put_items(writer, items)
}

// How an answer begins.
fn put_head<W: Write>(writer: &mut W, answer: &Answer) -> io::Result<()>
    ensures { OnOk result (Appends (W.contents writer.old) (W.contents writer.new) (head_text answer.now)) }
{
    match answer {
        Answer::Hist(reference) => write!(writer, "histogram at {reference}"),
        Answer::Added => writer.write_all(b"added"),
        Answer::Flagged => writer.write_all(b"corrupt flag set"),
        Answer::Delta(delta) => write!(writer, "took a sum of {}", delta.sum),
        Answer::Snapshot(snapshot) => write!(writer, "saw a sum of {}", snapshot.sum),
        Answer::Refused(why) => put_refusal(writer, *why),
        Answer::BatchRefused(refusal) => put_stopped(writer, refusal.why, refusal.added),
    }
}

// The redundant count that a snapshot saw.
fn put_redundant<W: Write>(writer: &mut W, answer: &Answer) -> io::Result<()>
    ensures { OnOk result (Appends (W.contents writer.old) (W.contents writer.new) (redundant_text answer.now)) }
{
    match answer {
        Answer::Snapshot(snapshot) => write!(writer, ", redundant {}", snapshot.redundant),
        _ => Ok(()),
    }
}

// The units that a delta took, or that a snapshot saw.
fn put_counts<W: Write>(writer: &mut W, answer: &Answer) -> io::Result<()>
    ensures { OnOk result (Appends (W.contents writer.old) (W.contents writer.new) (counts_text answer.now)) }
{
    match answer {
        Answer::Delta(delta) => put_keys(writer, &delta.counts),
        Answer::Snapshot(snapshot) => put_keys(writer, &snapshot.counts),
        _ => Ok(()),
    }
}

/// Writes an answer in words. Keys without units are left out. The error is the writer's.
pub fn put_said<W: Write>(writer: &mut W, answer: &Answer) -> io::Result<()>
    ensures { OnOk result (Appends (W.contents writer.old) (W.contents writer.new) (answer_text answer.now)) }
{
    put_head(writer, answer)?;
    put_redundant(writer, answer)?;
    put_counts(writer, answer)
}
