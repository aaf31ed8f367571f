//! The lock of the file that a command replaces.

ghost use Rattle.std.specs.Prelude.{IfErr};
ghost use Rattle.report_streams.specs.Failure.{IsBusyOrWrite};

use crate::cause::Cause;
use std::fs::{File, TryLockError};
use std::thread;
use std::time::{Clock, Duration};

// How often a lock is tried: for 100 ms, since a process that only looks at a file may have it for less.
const MOST_TRIES: u32 = 50;

const NAP_MILLISECONDS: u64 = 2;

/// Why the file that a command writes was not opened.
#[derive(Drop)]
pub enum Unopened {
    /// Another process has its lock.
    Busy,
    /// Something else failed.
    Failed(Cause),
}

impl From<Cause> for Unopened {
    ghost use Rattle.std.specs.Prelude.{◌≡◌};
    ghost use Rattle.report_streams.specs.declared.lock.Unopened.TheVariants.{Failed};

    ghost from_gives = { λ cause why. why ≡ Failed cause };

    fn from(cause: Cause) -> Unopened {
        Unopened::Failed(cause)
    }
}

/// Takes the lock of an open file, which has it until it is closed.
///
/// The failure is `Busy` if another process has had it for 100 ms, or `Write` if the system cannot lock the file;
/// never another.
pub fn take_lock<R: Clock>(rt: &R, file: &File) -> Result<(), Unopened>
    ensures { IfErr result IsBusyOrWrite }
{
    for _ in 0..MOST_TRIES {
        match file.try_lock() {
            Ok(()) => return Ok(()),
            Err(TryLockError::WouldBlock) => {
                thread::sleep(rt, Duration::from_millis(NAP_MILLISECONDS));
            }
            Err(TryLockError::Error(error)) => return Err(Unopened::from(Cause::of_write(error))),
        }
    }
    Err(Unopened::Busy)
}
