//! The line that shows how far a sum is, if adding up takes long and the error stream is a terminal.

use reading_sums::{HistSum, Sums};
use report_streams::tells_terminal;
use std::fmt;
use std::rt::Files;
use std::time::{Clock, Duration, Instant};
use sum_commands::Progress;

// How many milliseconds adding up takes before there is a line.
const PATIENCE: u64 = 2_000;

// How many milliseconds a line stays at least.
const PAUSE: u64 = 200;

// Goes to the start of the line, and erases what is there.
const ERASE: &str = "\r\u{1b}[K";

/// A line on the error stream that is written again and again in place: if this is a terminal, and adding up takes more
/// than two seconds. If it cannot be written, nothing is reported.
#[derive(Drop)]
pub struct ProgressLine<'r, R> {
    rt: &'r R,
    // How many inputs there are.
    inputs: usize,
    // When it is written next; none if it never is.
    next: Option<Instant>,
    is_shown: bool,
}

// How far a sum is.
#[derive(Drop)]
struct Far {
    place: usize,
    inputs: usize,
    units: u64,
}

impl fmt::Display for Far {
    fn fmt<W: fmt::Write>(&self, f: &mut fmt::Formatter<W>) -> fmt::Result {
        let Far {
            place,
            inputs,
            units,
        } = self;
        f.write_str(ERASE)?;
        write!(
            f,
            "persist_report: {place} of {inputs} files, {units} units so far"
        )
    }
}

// The units of a histogram, added to others; at most 2^64 - 1.
fn units_with(others: u64, hist: &HistSum) -> u64 {
    let mut units = others;
    for key in &hist.keys {
        units = units.saturating_add(key.units);
    }
    units
}

// The units of a sum; at most 2^64 - 1.
fn units_of(sums: &Sums) -> u64 {
    let mut units = 0;
    for hist in sums.hists() {
        units = units_with(units, hist);
    }
    units
}

// The time some milliseconds after another; none if there is none.
fn later(time: Option<Instant>, millis: u64) -> Option<Instant> {
    time?.checked_add(Duration::from_millis(millis))
}

impl<'r, R: Clock + Files> ProgressLine<'r, R> {
    /// Returns the line of a sum of this many inputs, none of which is read yet.
    pub fn of(rt: &'r R, inputs: usize) -> ProgressLine<'r, R> {
        let next = if tells_terminal(rt) {
            later(Instant::now(rt).ok(), PATIENCE)
        } else {
            None
        };
        ProgressLine {
            rt,
            inputs,
            next,
            is_shown: false,
        }
    }
}

impl<R: Eprint> ProgressLine<'_, R> {
    /// Erases the line, if there is one.
    pub fn erase(&self) {
        if self.is_shown {
            let _ = self.rt.eprint(ERASE);
        }
    }
}

impl<R: Clock + Eprint> Progress for ProgressLine<'_, R> {
    fn reached(&mut self, place: usize, sums: &Sums) {
        let Some(next) = self.next else { return };
        let Ok(now) = Instant::now(self.rt) else {
            return;
        };
        if now < next {
            return;
        }
        self.next = later(Some(now), PAUSE);
        self.is_shown = true;
        let far = Far {
            place,
            inputs: self.inputs,
            units: units_of(sums),
        };
        let _ = self.rt.eprint(far);
    }
}
