//! Does what the command line asks for.

ghost use Rattle.std.specs.Prelude.{IfErr};
ghost use Rattle.persist_report.specs.Unmet.{UsageIsMistake};

use crate::extracting::extract_file;
use crate::folding::fold_folder;
use crate::look::look_into;
use crate::recorders::{merge_files_into, resume_file, run_file};
use crate::repeating::write_asked;
use crate::scales::print_scale;
use crate::sizing::size_of_task;
use crate::unmet::Unmet;
use fault_texts::{AllTexts, is_asked, nearest_name, texts_for};
use persist_report_core::CliFault;
use report_asks::Wrong;
use report_requests::{Request, Task, Unasked, check_dashes};
use report_streams::{Context, Failure, System, columns};
use std::rt::Env;
use std::sync::Wait;
use std::thread::Threads;
use std::{env, io};

/// Does what the arguments ask for.
///
/// `Usage` comes if they ask for nothing that the program does, never for help, the version or if memory runs out;
/// `Failed` if the request failed: with `NoMemory` also if memory ran out when the arguments were read, and with `Write`
/// also if a help or version text could not be written.
pub fn run<R: System + Env + Threads + Wait>(rt: &R) -> Result<(), Unmet>
    ensures { IfErr result UsageIsMistake }
{
    let words = match words(rt) {
        Ok(words) => words,
        Err(failure) => return Err(Unmet::of(rt.alloc(), failure)),
    };
    let outcome = match Request::of(rt.alloc(), words.as_slice(), columns(rt)) {
        Ok(request) => {
            let context = Context {
                rt,
                explains: request.explains || is_asked(rt),
            };
            meet(&context, &request.task)
        }
        Err(Unasked::Help(shown)) => rt.print(shown).map_err(|_| Failure::Fault(CliFault::Write)),
        Err(Unasked::Mistake(error)) => return Err(Unmet::Usage(error)),
        Err(Unasked::NoMemory) => Err(Failure::Fault(CliFault::NoMemory)),
    };
    match outcome {
        Ok(()) => Ok(()),
        Err(failure) => Err(Unmet::of(rt.alloc(), failure)),
    }
}

// The words of the command line.
fn words<R: Env + AllocGlobal>(rt: &R) -> Result<Vec<String>, Failure> {
    match env::args(rt) {
        Ok(words) => Ok(words.collect(rt.alloc())?),
        Err(error) if error.kind() == io::ErrorKind::OutOfMemory => {
            Err(Failure::Fault(CliFault::NoMemory))
        }
        Err(_) => Err(Failure::Usage(Wrong::NotText)),
    }
}

// Writes what the fault of a name means, or what each means if there is no name.
fn explain<R: Print + AllocGlobal>(rt: &R, name: Option<&str>) -> Result<(), Failure> {
    match name {
        None => rt.print(AllTexts).map_err(|_| CliFault::Write)?,
        Some(name) => match texts_for(rt.alloc(), name)? {
            Some(texts) => rt.print(texts).map_err(|_| CliFault::Write)?,
            None => {
                let nearest = nearest_name(rt.alloc(), name)?;
                return Err(Failure::Usage(Wrong::NoFault(nearest)));
            }
        },
    }
    Ok(())
}

// Does what a task says, if it names `-` only where it may.
fn meet<R: System + Threads + Wait>(
    context: &Context<'_, R>,
    task: &Task<'_>,
) -> Result<(), Failure> {
    check_dashes(task)?;
    match *task {
        Task::Text(ref ask) => write_asked(context, ask),
        Task::Run {
            script,
            out,
            workers,
        } => run_file(context, script, out, workers),
        Task::Resume {
            base,
            script,
            out,
            workers,
        } => resume_file(context, base, script, out, workers),
        Task::Merge { base, dead, out } => merge_files_into(context, base, dead, out),
        Task::Look { file, at, out } => look_into(context, file, at, out),
        Task::Fold { folder } => fold_folder(context, folder),
        Task::Extract { file, out, nth } => extract_file(context, file, out, nth),
        Task::Size(ref size) => size_of_task(context, size),
        Task::Scale { name, scale } => print_scale(context, name, scale),
        Task::Explain { name } => explain(context.rt, name),
    }
}
