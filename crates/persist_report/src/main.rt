//! The program `persist_report`, which reads images, their sums and recordings, and records scripts.
//!
//! It writes the histograms of an image as a report, as metrics or for people, runs scripts in new segments and in those
//! of images, merges images, looks at files in use, extracts images from any file, folds the folders of recordings,
//! prints scales, and explains faults.
#![tactic(auto)]

mod asking;
mod extracting;
mod folding;
mod look;
mod recorders;
mod repeating;
mod run;
mod scales;
mod scaling;
mod sizing;
mod texts;
mod unmet;

use std::process::ExitCode;

fn main(rt: HostRuntime) -> ExitCode {
    match run::run(&rt) {
        Ok(()) => ExitCode::SUCCESS,
        Err(unmet) => {
            let status = unmet.status();
            // If the error stream itself fails, nothing can be reported.
            let _ = rt.eprint(unmet);
            ExitCode::from(status)
        }
    }
}
