//! What is said on the error stream of a text that is written again and again: each fault once, and when there is none any
//! more.

ghost use Rattle.std.specs.Prelude.{◌≡◌, ◌⊎◌, ◌++◌, [], IfErr, IfOk, IsErrAnd, IsErrOf, IsOk, OnOk};
ghost use Rattle.std.specs.List.{flat_map};
ghost use Rattle.std.specs.String.{string_bytes};
ghost use Rattle.persist_report_core.specs.declared.fault.CliFault.TheVariants.{NoMemory};
ghost use Rattle.report_streams.specs.declared.failure.Failure.TheVariants.{Fault};
ghost use Rattle.report_streams.specs.Failure.{EndsRounds, IsReported, failure_status};
ghost use Rattle.report_streams.specs.Telling.{AreWrong, is_among as is_among_lines, news_of, told};

use crate::failure::Failure;
use crate::reported::Reported;
use crate::sentence::Sentence;
use std::alloc::{AllocError, Global};

// What is said when nothing is wrong any more.
const OVER: &str = "persist_report: no fault any more\n";

/// How the last round ended, and which sentences said it.
#[derive(Drop)]
pub struct Telling {
    /// What is wrong, and was said.
    pub open: Vec<Sentence>,
    /// How the round ended.
    pub last: Result<(), Failure>,
}

// Whether one of some sentences has the line of another.
fn is_among(sentences: &[Sentence], sentence: &Sentence) -> bool
    ensures { result ≡ is_among_lines sentences.now sentence.now }
{
    let line = sentence.line.as_bytes();
    sentences.iter().any(|other| line == other.line.as_bytes())
}

// Appends what is said of a sentence: nothing, if one of those before has its line.
fn put_news(text: &mut String, before: &[Sentence], sentence: &Sentence) -> Result<(), AllocError>
    ensures { OnOk result (string_bytes text.new ≡ string_bytes text.old ++ news_of before.now sentence.now) }
{
    if is_among(before, sentence) {
        return Ok(());
    }
    text.push_str(sentence.line.as_str())?;
    text.push('\n')?;
    text.push_str(sentence.more.as_str())
}

// Appends what is said of sentences.
fn put_all_news(text: &mut String, before: &[Sentence], now: &[Sentence]) -> Result<(), AllocError>
    ensures { OnOk result (string_bytes text.new ≡ string_bytes text.old ++ flat_map (news_of before.now) now.now) }
{
    for sentence in now {
        put_news(text, before, sentence)?;
    }
    Ok(())
}

// What a round says, given what was wrong in the round before and what is wrong now.
fn told_text(alloc: Global, before: &[Sentence], now: &[Sentence]) -> Result<String, AllocError>
    ensures { IfOk result (λ text. string_bytes text ≡ told before.now now.now) }
{
    let mut text = String::new(alloc);
    put_all_news(&mut text, before, now)?;
    if now.is_empty() && !before.is_empty() {
        text.push_str(OVER)?;
    }
    Ok(text)
}

// What is wrong in a round with this outcome, which left out these inputs.
fn all_wrong(
    alloc: Global,
    mut left: Vec<Sentence>,
    outcome: &Result<(), Failure>,
) -> Result<Vec<Sentence>, AllocError>
    ensures { IfOk result (λ all. AreWrong left.items outcome.now all.items) }
{
    let Err(failure) = outcome else {
        return Ok(left);
    };
    if let Some(own) = failure.sentence(alloc)? {
        left.push(own)?;
    }
    Ok(left)
}

impl Telling {
    /// Returns that of no round: nothing is wrong [open], and nothing failed [last].
    pub fn new(alloc: Global) -> Telling
        ensures open { result.open.items ≡ [] }
        ensures last { IsOk result.last }
    {
        Telling {
            open: Vec::new(alloc),
            last: Ok(()),
        }
    }

    /// Forgets what was said [open], since the screen that had it was cleared; not how the round ended [last].
    pub fn forget(&mut self)
        ensures open { self.new.open.items ≡ [] }
        ensures last { self.new.last ≡ self.old.last }
    {
        self.open.clear();
    }

    /// Takes up the outcome of a round [last], and which inputs it left out, a sentence each. Returns what is said then on
    /// the error stream, given what was wrong in the round before and what is wrong now [told]: the inputs that are left
    /// out, and the failure, if that was not reported [open].
    ///
    /// A failure that ends the rounds is returned itself [ends]. Else the only one is that memory runs out [goes_on].
    pub fn next(
        &mut self,
        alloc: Global,
        left: Vec<Sentence>,
        outcome: Result<(), Failure>,
    ) -> Result<String, Failure>
        ensures told { IfOk result (λ text. string_bytes text ≡ told self.old.open.items self.new.open.items) }
        ensures open { OnOk result (AreWrong left.items outcome self.new.open.items) }
        ensures last { OnOk result (self.new.last ≡ outcome) }
        ensures ends { IfErr outcome (λ failure. EndsRounds failure → IsErrOf result failure) }
        ensures goes_on { IfErr result (λ failure. (failure ≡ Fault NoMemory) ⊎ EndsRounds failure) }
    {
        let outcome = match outcome {
            Err(failure) if failure.ends_rounds() => return Err(failure),
            outcome => outcome,
        };
        let now = all_wrong(alloc, left, &outcome)?;
        let text = told_text(alloc, &self.open, &now)?;
        self.open = now;
        self.last = outcome;
        Ok(text)
    }

    /// Ends the rounds: well if the last one did [well], else with its status, of which nothing more is said [failed].
    pub fn end(self) -> Result<(), Failure>
        ensures well { OnOk self.last (IsOk result) }
        ensures failed { IfErr self.last (λ failure. IsErrAnd result (λ reported. IsReported reported × (failure_status reported ≡ failure_status failure))) }
    {
        let Telling { open: _, last } = self;
        match last {
            Ok(()) => Ok(()),
            Err(failure) => {
                let status = failure.status();
                Err(Failure::Reported(Reported { status }))
            }
        }
    }
}
