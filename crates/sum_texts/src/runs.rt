//! Runs of lines: the keys of a name, all names, and the segments.

ghost use Rattle.std.specs.Prelude.{◌≡◌, ◌∷◌, ◌++◌, ◌<◌, ◌≤◌, ◌==◌, ℕ, List, [], IfOk, length, map, drop, true, false};
ghost use Rattle.std.specs.List.{flat_map, AllByRecursion};
ghost use Rattle.reading_sums.specs.declared.key.KeySum as key_type;
ghost use Rattle.reading_sums.specs.Totals.{Part};
ghost use Rattle.reading_sums.specs.Views.{part_of};
ghost use Rattle.sum_texts.specs.Lines.{FitsKey, FitsPart, FitsSegment, IsNamed};
ghost use Rattle.sum_texts.specs.Runs.{bytes_of, begins as begins_with, key_block, part_block, segment_block, Gives};

use crate::lines::{hist_at, key_at, segment_at};
use crate::wrong::Wrong;
use reading_sums::{HistSum, KeySum};
use std::alloc::Global;

/// Returns whether there is a line at `at` that begins with this letter.
pub(crate) fn begins(letter: u8, lines: &[&[u8]], at: usize) -> bool
    ensures { result ≡ begins_with letter (bytes_of (drop at lines.now)) }
{
    match lines.get(at) {
        Some(line) => line.first() == Some(&letter),
        None => false,
    }
}

/// Returns the keys whose lines begin at `start`, and the index of the line after them.
pub(crate) fn keys_in(
    alloc: Global,
    lines: &[&[u8]],
    start: usize,
) -> Result<(Vec<KeySum>, usize), Wrong>
    requires { start ≤ length lines.now }
    ensures found { IfOk result (λ read. bytes_of (drop start lines.now) ≡ flat_map key_block read.0.items ++ bytes_of (drop read.1 lines.now)) }
    ensures within { IfOk result (λ read. read.1 ≤ length lines.now) }
    ensures further { IfOk result (λ read. start ≤ read.1) }
    ensures only { (keys : List key_type.KeySum) (behind : List (List ℕ)) → AllByRecursion FitsKey keys → begins_with 107 behind ≡ false → bytes_of (drop start lines.now) ≡ flat_map key_block keys ++ behind → Gives result (λ read. (read.0.items ≡ keys) × (bytes_of (drop read.1 lines.now) ≡ behind)) }
{
    let mut keys = Vec::new(alloc);
    let mut at = start;
    'run: while begins(b'k', lines, at) {
        let Some(key) = key_at(alloc, lines[at])? else {
            return Err(Wrong::Line(at));
        };
        keys.push(key)?;
        at += 1;
    }
    Ok((keys, at))
}

/// Returns the segments whose lines begin at `start`, and the index of the line after them.
pub(crate) fn segments_in(
    alloc: Global,
    lines: &[&[u8]],
    start: usize,
) -> Result<(Vec<(u64, u64)>, usize), Wrong>
    requires { start ≤ length lines.now }
    ensures found { IfOk result (λ read. bytes_of (drop start lines.now) ≡ flat_map segment_block read.0.items ++ bytes_of (drop read.1 lines.now)) }
    ensures within { IfOk result (λ read. read.1 ≤ length lines.now) }
    ensures only { (segments : List (ℕ × ℕ)) (behind : List (List ℕ)) → AllByRecursion FitsSegment segments → begins_with 111 behind ≡ false → bytes_of (drop start lines.now) ≡ flat_map segment_block segments ++ behind → Gives result (λ read. (read.0.items ≡ segments) × (bytes_of (drop read.1 lines.now) ≡ behind)) }
{
    let mut segments = Vec::new(alloc);
    let mut at = start;
    'run: while begins(b'o', lines, at) {
        let Some(segment) = segment_at(alloc, lines[at])? else {
            return Err(Wrong::Line(at));
        };
        segments.push(segment)?;
        at += 1;
    }
    Ok((segments, at))
}

// The name with its spec and its keys whose lines begin at `start`, and the index of the line after them.
fn hist_from(alloc: Global, lines: &[&[u8]], start: usize) -> Result<(HistSum, usize), Wrong>
    requires { start < length lines.now }
    ensures lawful { IfOk result (λ read. IsNamed (part_of read.0)) }
    ensures found { IfOk result (λ read. bytes_of (drop start lines.now) ≡ part_block (part_of read.0) ++ bytes_of (drop read.1 lines.now)) }
    ensures within { IfOk result (λ read. read.1 ≤ length lines.now) }
    ensures further { IfOk result (λ read. start < read.1) }
    ensures only { (part : Part) (behind : List (List ℕ)) → FitsPart part → begins_with 107 behind ≡ false → bytes_of (drop start lines.now) ≡ part_block part ++ behind → Gives result (λ read. (part_of read.0 ≡ part) × (bytes_of (drop read.1 lines.now) ≡ behind)) }
{
    let Some(head) = hist_at(alloc, lines[start])? else {
        return Err(Wrong::Line(start));
    };
    let (keys, behind) = keys_in(alloc, lines, start + 1)?;
    Ok((with_keys(head, keys), behind))
}

// The histogram with these keys in place of its own.
fn with_keys(hist: HistSum, keys: Vec<KeySum>) -> HistSum
    ensures { part_of result ≡ record (part_of hist) { keys = keys.items } }
{
    let mut hist = hist;
    hist.keys = keys;
    hist
}

/// Returns the names whose lines begin at `start`, each with its spec and its keys, and the index of the line after
/// them.
pub(crate) fn hists_in(
    alloc: Global,
    lines: &[&[u8]],
    start: usize,
) -> Result<(Vec<HistSum>, usize), Wrong>
    requires { start ≤ length lines.now }
    ensures lawful { IfOk result (λ read. AllByRecursion IsNamed (map part_of read.0.items)) }
    ensures found { IfOk result (λ read. bytes_of (drop start lines.now) ≡ flat_map part_block (map part_of read.0.items) ++ bytes_of (drop read.1 lines.now)) }
    ensures within { IfOk result (λ read. read.1 ≤ length lines.now) }
    ensures only { (parts : List Part) (behind : List (List ℕ)) → AllByRecursion FitsPart parts → (begins_with 104 behind ≡ false) × (begins_with 107 behind ≡ false) → bytes_of (drop start lines.now) ≡ flat_map part_block parts ++ behind → Gives result (λ read. (map part_of read.0.items ≡ parts) × (bytes_of (drop read.1 lines.now) ≡ behind)) }
{
    let mut hists = Vec::new(alloc);
    let mut at = start;
    'run: while begins(b'h', lines, at) {
        let (hist, behind) = hist_from(alloc, lines, at)?;
        hists.push(hist)?;
        at = behind;
    }
    Ok((hists, at))
}
