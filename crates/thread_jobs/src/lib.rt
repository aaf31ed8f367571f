//! Jobs that run at the same time, each in a thread of its own.
//!
//! A [`Job`] says when it can be done and what it may return. [`run_beside`] starts a thread for each of some jobs and
//! waits for all of them; [`run_within`] does the same with as many threads as can be started. Both return the results
//! in the order of the jobs, each of them one that its job may return.
#![tactic(auto)]

mod jobs;

pub use jobs::{Job, NotRun, run_beside, run_within};
