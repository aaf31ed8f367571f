//! The program `stepped`: replays a schedule of calls on a segment, event by event, so that anybody can look at an
//! interleaving and stop it anywhere.
#![tactic(auto)]

mod explaining;
mod failure;
mod fault;
mod form;
mod lines;
mod look;
mod meaning;
mod noted;
mod picture;
mod replay;
mod request;
mod run;
mod said;
mod value;

use std::process::ExitCode;

fn main(rt: HostRuntime) -> ExitCode {
    match run::run(&rt) {
        Ok(()) => ExitCode::SUCCESS,
        Err(failure) => {
            let status = failure.status();
            // If the error stream itself fails, nothing can be reported.
            let _ = rt.eprint(failure);
            ExitCode::from(status)
        }
    }
}
