//! What a command is given: files, time, streams, random bytes and memory.

use std::fs::File;
use std::random::RandomSource;
use std::rt::Files;
use std::time::Clock;

/// What a command is given. A function that needs two of these or fewer names them; `Threads` and `Wait` are named
/// wherever they are used, since a function that has them may not return.
pub trait System: Files<File = File>
    + Clock
    + Input
    + Print
    + Eprint
    + RandomSource
    + AllocGlobal {}

impl<R: Files<File = File> + Clock + Input + Print + Eprint + RandomSource + AllocGlobal> System
    for R {}
