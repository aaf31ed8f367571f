//! Sentences for the error stream.

ghost use Rattle.std.specs.Prelude.{◌≡◌, ◌==◌, IfOk};
ghost use Rattle.std.specs.List.{before_first, after_first};
ghost use Rattle.std.specs.String.{string_bytes};

use std::alloc::{AllocError, Global};
use std::fmt;

/// A sentence for the error stream: a line, by which it is known again, and the lines that explain it.
#[derive(Drop)]
pub struct Sentence {
    /// The line, without its end.
    pub line: String,
    /// Whole lines, or nothing.
    pub more: String,
}

impl Sentence {
    /// Returns the sentence of a text: its first line [line], and what follows that [more]. The only error is that memory
    /// runs out.
    pub fn of(alloc: Global, text: &str) -> Result<Sentence, AllocError>
        ensures line { IfOk result (λ sentence. string_bytes sentence.line ≡ before_first (λ byte. byte == 10) text.now) }
        ensures more { IfOk result (λ sentence. string_bytes sentence.more ≡ after_first (λ byte. byte == 10) text.now) }
    {
        let (line, more) = text.split_once('\n').unwrap_or((text, ""));
        Ok(Sentence {
            line: String::from_str(alloc, line)?,
            more: String::from_str(alloc, more)?,
        })
    }
}

impl fmt::Display for Sentence {
    fn fmt<W: fmt::Write>(&self, f: &mut fmt::Formatter<W>) -> fmt::Result {
        write!(f, "{}\n{}", self.line, self.more)
    }
}
