//! Texts that are written once, or again and again.

use crate::asking::{check_exported, give_up, open_after, open_before};
use crate::texts::write_found;
use fault_texts::is_terminal_at;
use jiff::Timestamp;
use persist_report_core::CliFault;
use report_asks::Repeat;
use report_requests::{Ask, Text};
use report_sources::{Found, open_source};
use report_streams::{Context, Failure, Sentence, System, Telling};
use std::rt::Files;
use std::sync::Wait;
use std::thread::Threads;
use std::time::{Clock, Duration};
use std::{fmt, thread};
use text_forms::Subject;

// Clears a terminal, and begins at its first line.
const CLEAR: &str = "\u{1b}[H\u{1b}[2J";

// Waits until a text is to be written again.
fn wait<R: Clock>(rt: &R, repeat: Repeat) {
    thread::sleep(rt, Duration::from_secs(u64::from(repeat.seconds)));
}

// What a text begins with that is written again and again.
#[derive(Clone, Copy, PartialEq, Eq)]
enum Division {
    // With nothing: it replaces the one before.
    None,
    // With a line of the time.
    Time,
    // With that as a comment.
    Comment,
}

// A line with the time, to the second.
#[derive(Drop)]
struct TimeLine {
    time: Timestamp,
    is_comment: bool,
}

impl fmt::Display for TimeLine {
    fn fmt<W: fmt::Write>(&self, f: &mut fmt::Formatter<W>) -> fmt::Result {
        let mark = if self.is_comment { "# " } else { "" };
        writeln!(f, "{mark}{}", self.time)
    }
}

// The time, to the second; none if the system has none, or one that has no date.
fn now<R: Clock>(rt: &R) -> Option<Timestamp> {
    let now = Timestamp::now(rt).ok()?;
    Timestamp::from_second(now.as_second()).ok()
}

// Begins a text on standard output: a terminal is cleared, and elsewhere a line of the time comes before each text but
// the first. The one fault is `Write`.
fn begin<R: System>(
    context: &Context<'_, R>,
    division: Division,
    is_first: bool,
) -> Result<(), CliFault> {
    if division == Division::None {
        return Ok(());
    }
    if is_terminal_at(context.rt, "/proc/self/fd/1") {
        return context.rt.print(CLEAR).map_err(|_| CliFault::Write);
    }
    match now(context.rt) {
        Some(time) if !is_first => {
            let is_comment = division == Division::Comment;
            let line = TimeLine { time, is_comment };
            context.rt.print(line).map_err(|_| CliFault::Write)
        }
        _ => Ok(()),
    }
}

// What comes before a text that is written again.
fn division_of(ask: &Ask<'_>) -> Division {
    match ask.text {
        _ if ask.to.is_some() => Division::None,
        Text::Show | Text::List | Text::Page => Division::Time,
        Text::Export => Division::Comment,
        Text::Report | Text::Rows | Text::Info => Division::None,
    }
}

// Whether what is written to the error stream is on the screen that standard output clears.
fn is_on_screen<R: Files>(rt: &R) -> bool {
    is_terminal_at(rt, "/proc/self/fd/1") && is_terminal_at(rt, "/proc/self/fd/2")
}

// Says what is left out on the error stream. If that cannot be written, nothing is said.
fn tell<R: Eprint>(rt: &R, sentences: Vec<Sentence>) {
    for sentence in sentences {
        let _ = rt.eprint(sentence);
    }
}

// Writes the text that is asked for once. What is wrong with what was read comes after the text.
fn write_once<R: System + Threads + Wait>(
    context: &Context<'_, R>,
    ask: &Ask<'_>,
) -> Result<(), Failure> {
    let opened = open_source(context, &ask.inputs)?;
    let early = open_before(context, ask, &opened)?;
    let mut left = Vec::new(context.alloc());
    let read = opened.read(context, &ask.inputs, &mut left);
    tell(context.rt, left);
    let found = match read {
        Ok(found) => found,
        Err(failure) => {
            give_up(context, early);
            return Err(failure);
        }
    };
    let out = open_after(context, ask, early)?;
    write_found(context, ask, &found, None, out)?;
    found.wrong(context, &ask.options.drawn.choice, ask.wants_whole)
}

// What was written in the rounds before, and what was said of them.
#[derive(Drop)]
struct Rounds {
    // What the last text was of.
    earlier: Option<Subject>,
    // Whether no text was begun.
    is_first: bool,
    telling: Telling,
}

// Opens what is asked for and reads it. What is reported of inputs that are left out is appended to `left`.
fn read_again<R: System + Threads + Wait>(
    context: &Context<'_, R>,
    ask: &Ask<'_>,
    left: &mut Vec<Sentence>,
) -> Result<Found, Failure> {
    open_source(context, &ask.inputs)?.read(context, &ask.inputs, left)
}

impl Rounds {
    // Divides a text from the one before. A screen that is cleared has no sentence any more.
    fn begin_text<R: System>(
        &mut self,
        context: &Context<'_, R>,
        ask: &Ask<'_>,
    ) -> Result<(), CliFault> {
        let division = division_of(ask);
        begin(context, division, self.is_first)?;
        self.is_first = false;
        if division != Division::None && is_on_screen(context.rt) {
            self.telling.forget();
        }
        Ok(())
    }

    // Writes the text of what was read, and returns the outcome of the round. A failure here is one of the output, which
    // could not be opened or begun.
    fn write<R: System>(
        &mut self,
        context: &Context<'_, R>,
        ask: &Ask<'_>,
        found: Found,
    ) -> Result<Result<(), Failure>, Failure> {
        let out = open_after(context, ask, None)?;
        if let Err(fault) = self.begin_text(context, ask) {
            give_up(context, Some(out));
            return Err(Failure::from(fault));
        }
        if let Err(failure) = write_found(context, ask, &found, self.earlier.as_ref(), out) {
            return Ok(Err(failure));
        }
        let wrong = found.wrong(context, &ask.options.drawn.choice, ask.wants_whole);
        self.earlier = Some(found.into_subject());
        Ok(wrong)
    }

    // Does a round. What is wrong with what it reads is said once, and ends nothing.
    fn go_on<R: System + Threads + Wait>(
        &mut self,
        context: &Context<'_, R>,
        ask: &Ask<'_>,
    ) -> Result<(), Failure> {
        let mut left = Vec::new(context.alloc());
        let outcome = match read_again(context, ask, &mut left) {
            Ok(found) => self.write(context, ask, found)?,
            Err(failure) => Err(failure),
        };
        let text = self.telling.next(context.alloc(), left, outcome)?;
        if !text.is_empty() {
            let _ = context.rt.eprint(text);
        }
        Ok(())
    }
}

// Writes the text that is asked for again and again.
fn write_again<R: System + Threads + Wait>(
    context: &Context<'_, R>,
    ask: &Ask<'_>,
    repeat: Repeat,
) -> Result<(), Failure> {
    let mut rounds = Rounds {
        earlier: None,
        is_first: true,
        telling: Telling::new(context.alloc()),
    };
    for number in 0..repeat.times() {
        if number > 0 {
            wait(context.rt, repeat);
        }
        rounds.go_on(context, ask)?;
    }
    rounds.telling.end()
}

/// Writes the text that is asked for: once, or again and again. Each round opens what is to be read, reads it, and
/// writes its text; a text for people but the first has what came since the one before. What is wrong with what was read
/// comes after the text.
///
/// If it is written once, the first failure ends it. Else a round that fails leaves the text of the one before, the next
/// reads again, and the error stream has what `Telling` says; only a mistake in the command line or a failure of the
/// output ends it, or that memory runs out for what is said. After the last round the failure is that of this round, if
/// it failed.
///
/// A round in which a bucket has fewer units than before ends nothing, and is shown as one in which nothing came to that
/// bucket. So it may be where another segment is in a file, or a file of a folder is gone.
pub fn write_asked<R: System + Threads + Wait>(
    context: &Context<'_, R>,
    ask: &Ask<'_>,
) -> Result<(), Failure> {
    check_exported(context.alloc(), &ask.options.exported)?;
    match ask.repeat {
        Some(repeat) => write_again(context, ask, repeat),
        None => write_once(context, ask),
    }
}
