//! The parser's errors for what is wrong with a command line whose words it takes.

ghost use Rattle.std.specs.Prelude.{◌≡◌, IfOk};
ghost use Rattle.clap.specs.Words.{kind_of};
ghost use Rattle.report_requests.specs.Mistakes.{IsMistake, mistake_kind};

use crate::command::command;
use crate::size::size_command;
use clap::error::ErrorKind;
use clap::{Command, Error};
use report_asks::Wrong;
use std::alloc::{AllocError, Global};

// The kind of the error for a mistake: one in what goes together, or one in a value.
fn mistake_kind(wrong: Wrong) -> ErrorKind
    ensures kind { result ≡ mistake_kind wrong }
    ensures mistake { IsMistake result }
{
    match wrong {
        Wrong::TwoInputs | Wrong::TwoOutputs | Wrong::NoFile => ErrorKind::ArgumentConflict,
        Wrong::NoOverview => ErrorKind::ArgumentConflict,
        Wrong::NoFault(_) => ErrorKind::InvalidValue,
        Wrong::NotText | Wrong::NoPrefix | Wrong::NoLabels => ErrorKind::ValueValidation,
        Wrong::NoPage | Wrong::NoHist => ErrorKind::ValueValidation,
    }
}

// The command whose usage the text has.
fn command_of<'a>(alloc: Global, wrong: Wrong) -> Result<Command<'a>, AllocError> {
    match wrong {
        Wrong::NoPage | Wrong::NoHist => size_command(alloc),
        _ => command(alloc),
    }
}

/// Returns the parser's error for a mistake, with the text of that and the usage. Its kind is that of the mistake
/// [kind]: never help, the version or out of memory [mistake]. The only error is that memory runs out.
pub fn error_of(alloc: Global, wrong: Wrong) -> Result<Error, AllocError>
    ensures kind { IfOk result (λ error. kind_of error ≡ mistake_kind wrong) }
    ensures mistake { IfOk result (λ error. IsMistake (kind_of error)) }
{
    let message: String = format!(in alloc; "{wrong}")?;
    let error = command_of(alloc, wrong)?.error(mistake_kind(wrong), message.as_str())?;
    Ok(error)
}
